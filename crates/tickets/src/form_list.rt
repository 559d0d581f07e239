// Making a list of forms, and asking it.
ghost use Rattle.std.specs.Prelude.{◌≡◌, true, length, is_ok, if◌then◌else◌, Some, None, nat_lt, slice_index, IfOk, MatchResult, Ok, Err};
ghost use Rattle.tickets.specs.Forms.{forms_checked};
ghost use Rattle.tickets.specs.Checked.{arities_of};

use crate::forms::Forms;
use refusals::refusal::RegisterRefusal;

const HIGHEST_ARITY: u8 = 4;

const MOST_FORMS: usize = 64;

impl<'f> Forms<'f> {
    // Whether these arities are a list of forms, or why not.
    pub fn check(arities: &[u8]) -> Result<(), RegisterRefusal>
        ensures { result ≡ forms_checked arities.now }
    {
        if !arities.iter().all(|arity| *arity <= HIGHEST_ARITY) {
            return Err(RegisterRefusal::HighArity);
        }
        if arities.len() > MOST_FORMS {
            return Err(RegisterRefusal::FullForms);
        }
        Ok(())
    }

    // The list of forms of arities that pass the check.
    pub fn new(arities: &'f [u8]) -> Forms<'f>
        requires { is_ok (forms_checked arities.now) ≡ true }
        ensures { arities_of result ≡ arities.now }
    {
        Forms { arities }
    }

    // The list of forms of these arities, or why they are none.
    pub fn checked(arities: &'f [u8]) -> Result<Forms<'f>, RegisterRefusal>
        ensures answers { MatchResult result (λ _. forms_checked arities.now ≡ Ok tt) (λ e. forms_checked arities.now ≡ Err e) }
        ensures forms { IfOk result (λ f. arities_of f ≡ arities.now) }
    {
        Forms::check(arities)?;
        Ok(Forms::new(arities))
    }

    // How many forms there are.
    pub fn count(&self) -> usize
        ensures { result ≡ length (arities_of self.now) }
    {
        self.arities.len()
    }

    // The arity of a form, or none where there is no such form.
    pub fn arity(&self, form: usize) -> Option<u8>
        ensures { result ≡ (if nat_lt form (length (arities_of self.now)) then Some (slice_index (arities_of self.now) form) else None) }
    {
        self.arities.get(form).copied()
    }
}
