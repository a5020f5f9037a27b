//! Sessions: the level, the variables and the functions that the statements of a script speak of.
#![tactic(auto)]

mod answers;
mod arguments;
mod bindings;
mod build;
pub mod faults;
mod files;
mod load;
mod matrices;
mod over;
mod recall;
mod session;
mod statements;
mod step;
mod values;
mod walk;

pub use faults::{Refusal, StepFault};
pub use session::Session;
pub use step::Stepped;
