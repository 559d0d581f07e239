// What a restriction makes of a grammar, in numbers.
use settle::sizes::Size;

// The sizes of the product, of what trim leaves and of what merge leaves, and whether nothing is accepted from the root.
#[derive(Clone, Copy)]
pub struct Narrowed {
    pub whole: Size,
    pub trimmed: Size,
    pub merged: Size,
    pub barren: bool,
}
