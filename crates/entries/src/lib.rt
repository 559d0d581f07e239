// Entries in the register from a line of a sheet, and checks by its forms.

#![tactic(auto)]

pub mod entering;
