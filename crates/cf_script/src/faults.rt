//! Why a line is no statement.

use std::alloc::AllocError;
use thiserror::Error;

/// Why a line is no statement.
#[derive(Clone, Copy, PartialEq, Eq, Debug, Error)]
pub enum ScriptFault {
    /// There was no memory.
    #[error("no memory")]
    NoMemory,
    /// The line isn't of the grammar.
    #[error("malformed")]
    Malformed,
    /// A number of the line doesn't fit in 128 signed bits.
    #[error("a number doesn't fit")]
    WideNumber,
    /// More than 64 parentheses are open at once.
    #[error("more than 64 open parentheses")]
    TooDeep,
}

impl From<AllocError> for ScriptFault {
    ghost use Rattle.std.specs.Prelude.{◌≡◌};
    ghost use Rattle.cf_script.specs.declared.faults.ScriptFault.TheVariants.{NoMemory};

    ghost from_gives = { λ _ e. e ≡ NoMemory };

    fn from(_: AllocError) -> ScriptFault {
        ScriptFault::NoMemory
    }
}
