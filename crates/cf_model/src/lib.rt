// The definitions that every contract rests on: assignments, functions, patterns and diagrams.
#![tactic(auto)]

pub mod laws;
pub mod terms;
