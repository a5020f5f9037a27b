//! Hierarchies of blocks: a block is a model whose signals and calls are numbered. How long and how
//! many its chains of calls are, the copies of blocks that it expands to, and the flat circuit of
//! gates over lower wires that has the value of each signal.
#![tactic(auto)]

mod blocks;
mod flat;
mod flattening;
mod gates;
mod instances;
mod linking;
mod nodes;
mod sizes;
mod spread;

pub use blocks::{Block, Call, Calls, Driver, Drivers};
pub use flat::Flat;
pub use gates::{Gate, Gates};
pub use linking::{DEEPEST, LARGEST, LinkFault, link};

/// There was no memory.
pub type NoMemory = std::alloc::AllocError;
