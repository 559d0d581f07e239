// A row with its children read as groups, as it is compared: by form, points, arity and then the groups.

#[derive(Clone, Copy, PartialEq, Eq, PartialOrd, Ord)]
pub struct RowKey {
    pub(crate) form: u16,
    pub(crate) points: u16,
    pub(crate) arity: u8,
    // the group of each child; 0 past the arity
    pub(crate) children: [u16; 4],
}
