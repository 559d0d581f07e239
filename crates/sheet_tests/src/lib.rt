// Tests of sheets: damaged ones with the fault that each ends with, and the limits.

#![tactic(auto)]

#[cfg(test)]
mod tests;
