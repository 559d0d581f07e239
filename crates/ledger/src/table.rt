// What a register keeps beside the lent rows.
ghost use Rattle.std.specs.Prelude.{◌≡◌, ◌≤◌, true, take, is_ok, slice_get};
ghost use Rattle.tickets.specs.Forms.{forms_checked};
ghost use Rattle.tickets.specs.Checked.{arities_of};

use tickets::forms::Forms;

// The forms' arities, how many rows each state has, and the root. Beyond `forms` and `states` the lists say nothing. By a
// rule of the project this is a plain table of arities and counts, which a book copies, so the lengths stand beside them.
#[derive(Clone, Copy, Default)]
pub struct Table {
    pub forms: usize,
    pub arities: [u8; 64],
    pub states: usize,
    pub counts: [u8; 64],
    pub root: Option<usize>,
}

impl Table {
    // The forms entered.
    pub fn form_list(&self) -> Forms<'_>
        requires few { self.now.forms ≤ 64 }
        requires checked { is_ok (forms_checked (take self.now.forms self.now.arities)) ≡ true }
        ensures { arities_of result ≡ take self.now.forms self.now.arities }
    {
        Forms::new(&self.arities[..self.forms])
    }

    // The arity of a form, if it is entered.
    pub(crate) fn arity(&self, form: usize) -> Option<u8>
        ensures { result ≡ slice_get (take self.now.forms self.now.arities) form }
    {
        self.arities
            .get(form)
            .copied()
            .filter(|_| form < self.forms)
    }

    // How many rows a state has, if it is entered.
    pub fn used(&self, state: usize) -> Option<u8>
        ensures { result ≡ slice_get (take self.now.states self.now.counts) state }
    {
        self.counts
            .get(state)
            .copied()
            .filter(|_| state < self.states)
    }
}
