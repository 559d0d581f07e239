// Reads a rule sheet: each line enters a form, a state, a row, the root, a level, a bar or a ticket.

#![tactic(auto)]

pub mod lines;
pub mod notes;
pub mod reader;
pub mod reading;
