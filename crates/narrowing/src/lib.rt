// One restriction: the current book times an automaton, trimmed, merged, searched and settled into the next register.

#![tactic(auto)]

pub mod narrow;
pub mod narrowed;
pub mod restrict;
#[cfg(test)]
mod tests;
