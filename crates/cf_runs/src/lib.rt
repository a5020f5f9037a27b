//! Tests that cross crates: streams that are cut or fail, the adapters, and the calls that no run makes.
#![tactic(auto)]

#[cfg(test)]
mod calls;
#[cfg(test)]
mod generated;
#[cfg(test)]
mod running;
#[cfg(test)]
mod streams;
