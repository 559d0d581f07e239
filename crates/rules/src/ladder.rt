// A ladder over a list of forms.
ghost use Rattle.std.specs.Prelude.{◌≡◌, true, is_ok};
ghost use Rattle.tickets.specs.Checked.{arities_of};
ghost use Rattle.rules.specs.Ladder.{ladder_checked};

use tickets::forms::Forms;

#[derive(Clone, Copy)]
pub struct Ladder<'f, 'l> {
    pub(crate) forms: Forms<'f>,
    pub(crate) count: usize,
    pub(crate) levels: &'l [u16],
    ghost good: { is_ok (ladder_checked (arities_of forms) count levels.now) ≡ true },
}
