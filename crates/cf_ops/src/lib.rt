// Terms and their values, and operations that keep a term beside a closure that does its work.
#![tactic(auto)]

pub mod operations;
pub mod words;

pub use cf_model::terms::{Term, Word1, Word2};
pub use operations::{Op1, Op2, Op3};
use std::alloc::AllocError;

/// There was no memory.
pub type NoMemory = AllocError;
