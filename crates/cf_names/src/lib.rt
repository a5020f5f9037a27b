// Names, and the numbers that they get by their first appearance.
#![tactic(auto)]

mod book;
mod names;

pub use book::NameBook;
pub use names::{Name, Names};

/// There was no memory.
pub type NoMemory = std::alloc::AllocError;
