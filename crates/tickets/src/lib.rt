// Forms, tickets and their check.

#![tactic(auto)]

pub mod checked;
pub mod form_list;
pub mod forms;
pub mod ticket_check;
