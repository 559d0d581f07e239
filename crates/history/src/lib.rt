// What is proved of whole histories of calls on a register: the rows that stand, worth by them, and settle.

#![tactic(auto)]

pub mod laws;
