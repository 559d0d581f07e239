// A bar over a list of forms.
ghost use Rattle.std.specs.Prelude.{◌≡◌, true, is_ok};
ghost use Rattle.tickets.specs.Checked.{arities_of};
ghost use Rattle.rules.specs.Bar.{bar_checked};

use tickets::forms::Forms;

// A form directly below another, as its child at a position.
#[derive(Clone, Copy, Debug, PartialEq, Eq)]
pub struct Nesting {
    pub outer: u16,
    pub position: usize,
    pub inner: u16,
}

// The nesting is what the bar forbids.
#[derive(Clone, Copy)]
pub struct Bar<'f> {
    pub(crate) forms: Forms<'f>,
    pub(crate) nesting: Nesting,
    ghost good: { is_ok (bar_checked (arities_of forms) nesting.outer nesting.position nesting.inner) ≡ true },
}
