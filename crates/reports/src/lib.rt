// What both programs do with a sheet: it is read into a register that is sealed, and what was read and made of it is told
// in words for a person.

#![tactic(auto)]

pub mod grammar;
pub mod house;
pub mod levels;
#[cfg(test)]
mod tests;
pub mod words;
