// How many readings a ticket has, cut at 65,535.
ghost use Rattle.std.specs.Prelude.{◌≤◌};

#[derive(Clone, Copy)]
pub struct ReadingCount {
    pub(crate) count: u16,
    ghost cut: { count ≤ 65535 },
}
