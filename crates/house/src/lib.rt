// The answer to a sheet: the listing of the house grammar as it is entered, or the fault that stops it.

#![tactic(auto)]

pub mod answer;
mod report;
