// The search for a ticket that a state accepts.

#![tactic(auto)]

pub mod line;
pub mod search;
