// A restriction of a sheet.
use rules::bar::Nesting;

// The whole grammar as it is, the ladder of the sheet's levels, or a bar.
#[derive(Clone, Copy)]
pub enum Rule {
    Whole,
    Levels,
    Bars(Nesting),
}
