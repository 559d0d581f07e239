// The register: entries over lent rows, what it holds by its history of calls, and the book over it.

#![tactic(auto)]

pub mod book;
pub mod entries;
pub mod open;
pub mod open_questions;
pub mod reading;
pub mod sealed;
pub mod sealed_questions;
pub mod sealing;
