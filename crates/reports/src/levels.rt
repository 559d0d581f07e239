// The levels of a sheet's forms.
ghost use Rattle.std.specs.Prelude.{◌≡◌, count_by, nat_lt};
ghost use Rattle.reports.specs.Levels.{highest};

// The highest level; 0 where there is none.
pub fn highest_level(levels: &[u16]) -> usize
    ensures { result ≡ highest levels.now }
{
    levels
        .iter()
        .fold(0, |highest, level| highest.max(*level as usize))
}

// How many forms have a level above 0.
pub fn count_levels(levels: &[u16]) -> usize
    ensures { result ≡ count_by (λ level. nat_lt 0 level) levels.now }
{
    levels.iter().filter(|level| **level > 0).count()
}
