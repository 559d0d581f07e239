// Settle: writing a pile into an open register.

#![tactic(auto)]

mod checking;
mod numbering;
mod reached;
pub mod settle;
pub mod sizes;
mod writing;
