// What an open register says of itself.
ghost use Rattle.std.specs.Prelude.{◌≡◌, length};
ghost use Rattle.tickets.specs.Checked.{arities_of};
ghost use Rattle.register.specs.Held.{held};

use crate::open::Open;
use tickets::forms::Forms;

impl<'a> Open<'a> {
    // The forms entered so far.
    pub fn forms(&self) -> Forms<'_>
        ensures { arities_of result ≡ (held self.now).arities }
    {
        self.table.form_list()
    }

    // How many states are entered.
    pub fn states(&self) -> usize
        ensures { result ≡ length (held self.now).rows }
    {
        self.table.states
    }
}
