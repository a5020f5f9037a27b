// The statements that the lines of a script spell.
#![tactic(auto)]

pub(crate) mod arguments;
pub(crate) mod calls;
pub(crate) mod expressions;
pub mod faults;
pub(crate) mod numbers;
pub(crate) mod pieces;
pub mod statements;
pub mod trees;
pub(crate) mod words;

pub use faults::ScriptFault;
pub use statements::parse_line;
pub use trees::{Expr, Exprs, NameSlices, Statement, Var, Vars};
