// The reference run: what the program has to write for a script, and how it ends.
#![tactic(auto)]

pub mod grammar;
pub mod laws;
pub mod run_laws;
