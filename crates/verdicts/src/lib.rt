// The lines of tickets: what the book over a sealed register reads of them.

#![tactic(auto)]

pub mod ticket_lines;
