// The sizes of a product.
ghost use Rattle.std.specs.Prelude.{◌<◌, ◌≤◌};

#[derive(Clone, Copy)]
pub struct Sizes {
    pub(crate) states: usize,
    pub(crate) places: usize,
    pub(crate) root: usize,
    // the states and the places of the second side
    pub(crate) width: usize,
    pub(crate) depth: usize,
    ghost few_states: { states ≤ 1024 },
    ghost few_places: { places ≤ 65536 },
    ghost some_place: { 0 < places },
    ghost rooted: { root < states },
    ghost some_width: { 0 < width },
    ghost few_width: { width ≤ 1024 },
    ghost some_depth: { 0 < depth },
}
