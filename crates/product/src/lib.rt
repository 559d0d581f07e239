// The product of two tree automata, again an automaton.

#![tactic(auto)]

pub mod product;
pub mod sizes;
