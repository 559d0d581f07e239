// Trim, a layer over a tree automaton; the rows of an automaton as a table; and marks on its states.

#![tactic(auto)]

mod collected;
mod kept;
pub mod marks;
mod productive;
pub mod rows;
pub mod table;
pub mod trim;
