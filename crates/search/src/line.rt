// A line of a search: a state, and the place of one of its rows.

#[derive(Clone, Copy, Default, PartialEq, Eq, Debug)]
pub struct Line {
    pub state: u16,
    pub place: usize,
}
