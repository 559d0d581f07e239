// The ledger of a history of calls, and the rows that a register keeps for it in a lent list.

#![tactic(auto)]

pub mod rows;
pub mod table;
