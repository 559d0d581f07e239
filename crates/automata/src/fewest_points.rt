// The fewest points of a reading, cut at 65,535, which stands for no reading. They stay a number, and are no option: by
// the measure's own definition a sum that reaches 65,535 is none too, and the listing writes that number.
ghost use Rattle.std.specs.Prelude.{◌≤◌};

#[derive(Clone, Copy)]
pub struct FewestPoints {
    pub(crate) points: u16,
    ghost cut: { points ≤ 65535 },
}
