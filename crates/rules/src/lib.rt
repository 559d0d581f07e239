// Restrictions as automata made from a list of forms: ladder and bar.

#![tactic(auto)]

pub mod bar;
pub mod barring;
pub mod climbing;
pub mod ladder;
