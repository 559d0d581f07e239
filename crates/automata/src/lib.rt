// Tree automata over order tickets: rows, the automaton and measure interfaces, measures and worth.

#![tactic(auto)]

pub mod automaton;
pub mod fewest_points;
pub mod measure;
pub mod measures;
pub mod reading_count;
pub mod row;
pub mod worth;
pub mod yes_no;
