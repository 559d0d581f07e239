// Merge: a layer over a tree automaton that joins states which stand for one another.

#![tactic(auto)]

pub mod merge;
mod refine;
mod row_key;
