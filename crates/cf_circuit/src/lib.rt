//! The functions of a flat circuit's outputs, in a package.
#![tactic(auto)]

mod covers;
mod needs;
mod outputs;
mod parts;
mod truths;
mod words;

pub use outputs::build;

/// There was no memory.
pub type NoMemory = std::alloc::AllocError;
