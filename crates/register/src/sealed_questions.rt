// What a sealed register says of itself.
ghost use Rattle.std.specs.Prelude.{◌≡◌, length};
ghost use Rattle.tickets.specs.Checked.{arities_of};
ghost use Rattle.ledger.specs.Ledger.{rows_at, or_zero};
ghost use Rattle.register.specs.Held.{held_sealed};

use crate::sealed::Sealed;
use tickets::forms::Forms;

impl<'a> Sealed<'a> {
    // The forms entered.
    pub fn forms(&self) -> Forms<'_>
        ensures { arities_of result ≡ (held_sealed self.now).arities }
    {
        self.table.form_list()
    }

    // How many states are entered.
    pub fn states(&self) -> usize
        ensures { result ≡ length (held_sealed self.now).rows }
    {
        self.table.states
    }

    // How many rows a state has; none where there is no such state.
    pub fn rows_of(&self, state: usize) -> usize
        ensures { result ≡ length (rows_at (held_sealed self.now) state) }
    {
        self.table.used(state).unwrap_or(0) as usize
    }

    // The root.
    pub fn root(&self) -> usize
        ensures { result ≡ or_zero (held_sealed self.now).root }
    {
        self.table.root.unwrap_or(0)
    }
}
