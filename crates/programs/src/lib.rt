// What both programs do between standard input and the streams that they write.

#![tactic(auto)]

pub mod run;
pub mod sentence;
