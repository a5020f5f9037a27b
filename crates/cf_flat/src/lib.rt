//! The flat circuit of a netlist, or the first fault of its links.
#![tactic(auto)]

mod copies;
pub mod flat;
mod flattening;
pub mod laws;
mod outputs;

pub use flattening::{FlatFault, flatten};

/// There was no memory.
pub type NoMemory = std::alloc::AllocError;
