// Tests of the layers over small automata.

#![tactic(auto)]

pub mod samples;
#[cfg(test)]
mod tests;
