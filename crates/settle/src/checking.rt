// The checks of settle over all reached states and their rows: all at once, and where a row is refused each before the next.
ghost use Rattle.std.specs.Prelude.{◌≡◌, ℕ, Bool, leb, length};
ghost use Rattle.automata.specs.Automaton.{Production, production};
ghost use Rattle.automata.specs.declared.row.Row.{Row as TheRow};
ghost use Rattle.tickets.specs.Checked.{arities_of};
ghost use Rattle.automata.specs.Rows.{rows_of};
ghost use Rattle.ledger.specs.Reach.{reached_states};
ghost use Rattle.ledger.specs.Ledger.{every, every_row, has_form, settle_answer};
ghost use Rattle.register.specs.Held.{held};
ghost use Rattle.settle.specs.Fits.{state_fitting};

use crate::reached::Reached;
use crate::sizes::count_rows;
use automata::automaton::Automaton;
use automata::row::Row;
use refusals::refusal::SettleRefusal;
use register::open::Open;
use tickets::forms::Forms;

// Whether the row's form is in the list with the row's arity.
fn known(forms: &Forms<'_>, row: Row) -> bool
    ensures { result ≡ has_form (arities_of forms.now) (production row) }
{
    forms
        .arity(row.form as usize)
        .is_some_and(|arity| row.children().len() == arity as usize)
}

// Whether each row of a state passes a test.
fn state_passes<A: Automaton, F: Fn(Row) -> bool>(pile: &A, state: usize, test: F) -> bool
    requires { (f : F) (r : TheRow) → F.pre f r }
    ensures { (t : Production → Bool) → ((r : TheRow) (b : Bool) → F.post test r b → b ≡ t (production r)) → result ≡ every t (rows_of (A.Automaton.meaning pile.now) state) }
{
    (0..pile.places())
        .filter_map(|place| pile.row(state, place))
        .all(test)
}

// Whether a state has at most 32 rows, each with a form of the list with its arity and at most 1,000 points. Each row is
// asked for once, and the loop has three answers to carry.
fn state_fits<A: Automaton>(pile: &A, state: usize, forms: &Forms<'_>) -> bool
    ensures { result ≡ state_fitting (arities_of forms.now) (A.Automaton.meaning pile.now) state }
{
    let mut count: usize = 0;
    let mut formed = true;
    let mut cheap = true;
    for place in 0..pile.places() {
        if let Some(row) = pile.row(state, place) {
            count += 1;
            formed &= known(forms, row);
            cheap &= row.points <= 1000;
        }
    }
    count <= 32 && formed && cheap
}

impl<A: Automaton> Reached<'_, A> {
    // Whether each reached state passes a test.
    fn every<F: Fn(usize) -> bool>(&self, test: F) -> bool
        requires { (f : F) (s : ℕ) → F.pre f s }
        ensures { (t : ℕ → Bool) → ((s : ℕ) (b : Bool) → F.post test s b → b ≡ t s) → result ≡ every t (reached_states (A.Automaton.meaning self.now.pile.now)) }
    {
        (0..self.pile.states())
            .filter(|state| self.marks.has(*state))
            .all(test)
    }

    // Whether no reached state has over 32 rows.
    fn few_rows(&self) -> bool
        ensures { result ≡ every (λ s. leb (length (rows_of (A.Automaton.meaning self.now.pile.now) s)) 32) (reached_states (A.Automaton.meaning self.now.pile.now)) }
    {
        self.every(|state| count_rows(self.pile, state) <= 32)
    }

    // Whether each row of the reached states has a form of the list with its arity.
    fn all_known(&self, forms: &Forms<'_>) -> bool
        ensures { result ≡ every_row (has_form (arities_of forms.now)) (A.Automaton.meaning self.now.pile.now) }
    {
        self.every(|state| state_passes(self.pile, state, |row| known(forms, row)))
    }

    // Whether no row of the reached states is refused, by one question for each.
    fn all_fit(&self, forms: &Forms<'_>) -> bool
        ensures { result ≡ every (state_fitting (arities_of forms.now) (A.Automaton.meaning self.now.pile.now)) (reached_states (A.Automaton.meaning self.now.pile.now)) }
    {
        self.every(|state| state_fits(self.pile, state, forms))
    }

    // Whether the target takes the reached part, or why not. Only where some row is refused the checks are gone through one
    // by one, for the first that refuses; where the first two pass, it is the last.
    pub(crate) fn judged(&self, target: &Open<'_>) -> Result<(), SettleRefusal>
        ensures { result ≡ settle_answer (held target.now) (A.Automaton.meaning self.now.pile.now) }
    {
        if target.states() > 0 {
            return Err(SettleRefusal::HasState);
        }
        if self.count() > 64 {
            return Err(SettleRefusal::ManyReached);
        }
        let forms = target.forms();
        if self.all_fit(&forms) {
            return Ok(());
        }
        if !self.few_rows() {
            return Err(SettleRefusal::ManyRows);
        }
        if !self.all_known(&forms) {
            return Err(SettleRefusal::ForeignForm);
        }
        Err(SettleRefusal::HighRow)
    }
}
