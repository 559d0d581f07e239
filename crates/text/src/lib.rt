// Bytes of lines: fields, numbers, the line of a row and the line of a fault.

#![tactic(auto)]

pub mod faults;
pub mod put;
