//! Orders of signals in which each comes after all that it needs, or a ring of signals that need
//! one another. A signal is anything that needs others by their numbers: a wire of a circuit, or a
//! model that calls models.
#![tactic(auto)]

mod order;
mod rings;
mod walk;
mod wires;

pub use order::{OrderFault, order_of};
pub use rings::first_on_ring;
pub use wires::Wires;

/// There was no memory.
pub type NoMemory = std::alloc::AllocError;
