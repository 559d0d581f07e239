// Lines and fields of a sheet, names and numbers, the lexer, and faults.

#![tactic(auto)]

pub mod cuts;
pub mod fault;
pub mod lexer;
pub mod names;
pub mod words;
