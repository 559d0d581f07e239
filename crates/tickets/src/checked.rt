// A ticket that was checked.
ghost use Rattle.std.specs.Prelude.{◌≡◌, true, is_ok};
ghost use Rattle.tickets.specs.Check.{ticket_checked};

use crate::forms::Forms;

// Nodes in postfix order that are one tree of the forms.
#[derive(Clone, Copy)]
pub struct CheckedTicket<'f, 'n> {
    pub forms: Forms<'f>,
    pub nodes: &'n [u16],
    ghost whole: { is_ok (ticket_checked forms.arities.now nodes.now) ≡ true },
}
