// The answer to a sheet: the listing of the grammar that its restrictions leave, or the fault that stops it.

#![tactic(auto)]

pub mod answer;
mod chain;
mod report;
pub mod rule;
mod rule_steps;
