// The listing of a sealed register: its counts, root and rows, and what its book reads of some tickets.

#![tactic(auto)]

pub mod rows;
pub mod whole;
