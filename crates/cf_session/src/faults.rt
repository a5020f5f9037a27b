//! Why a statement is not carried out.

ghost use Rattle.std.specs.Prelude.{◌≡◌};
ghost use Rattle.cf_reference.specs.Reasons.{number};
ghost use Rattle.cf_session.specs.Faults.{reason_of};

use cf_bits::Bits;
use cf_circuits::faults::{BlifWhy, LinkFault};
use cf_names::NoMemory;
use cf_pkg::OpFault;
use std::fmt;
use thiserror::Error;

/// Why a statement is refused.
#[derive(Drop, Error)]
pub enum Refusal {
    #[error("there is no level yet")]
    NoLevel,
    #[error("the level is set already")]
    LevelAgain,
    #[error("unknown name")]
    NoName,
    #[error("the name is taken")]
    Taken,
    #[error("more than 2^K variables")]
    TooManyVars,
    #[error("levels differ")]
    LevelsDiffer,
    #[error("a level is out of its range")]
    BadLevel,
    #[error("bits, an index or a number of lines is out of range")]
    OutOfRange,
    /// A value doesn't fit. The assignment is the least at which it doesn't.
    #[error("the value at {0:?} does not fit")]
    Overflow(Bits),
    #[error("there is no such file")]
    NoFile,
    #[error("the file has more than 8,388,608 bytes")]
    FileTooLarge,
    /// The number of the first faulty line, and why it is faulty.
    #[error("line {0} is faulty: {1:?}")]
    Circuit(u64, BlifWhy),
    #[error("the models can't be linked")]
    Links(LinkFault),
}

impl fmt::Debug for Refusal {
    fn fmt<W: fmt::Write>(&self, f: &mut fmt::Formatter<W>) -> fmt::Result {
        write!(f, "Refusal({})", self.number())
    }
}

impl Refusal {
    /// The number that the refusal is written with.
    pub fn number(&self) -> u8
        ensures { result ≡ number (reason_of self.now) }
    {
        match self {
            Refusal::NoLevel => 4,
            Refusal::LevelAgain => 5,
            Refusal::NoName => 6,
            Refusal::Taken => 7,
            Refusal::TooManyVars => 8,
            Refusal::LevelsDiffer => 9,
            Refusal::BadLevel => 10,
            Refusal::OutOfRange => 11,
            Refusal::Overflow(_) => 14,
            Refusal::NoFile => 15,
            Refusal::FileTooLarge => 16,
            Refusal::Circuit(..) => 17,
            Refusal::Links(_) => 18,
        }
    }
}

/// Why an expression has no function.
#[derive(Debug, Drop, Error)]
pub enum StepFault {
    #[error("no memory")]
    NoMemory,
    #[error("refused: {0}")]
    Refused(Refusal),
}

impl From<NoMemory> for StepFault {
    ghost use Rattle.std.specs.Prelude.{◌≡◌};
    ghost use Rattle.cf_session.specs.declared.faults.StepFault.{StepFault};

    ghost from_gives = { λ _ e. e ≡ StepFault.NoMemory };

    fn from(_: NoMemory) -> StepFault {
        StepFault::NoMemory
    }
}

impl From<Refusal> for StepFault {
    ghost use Rattle.std.specs.Prelude.{◌≡◌};
    ghost use Rattle.cf_session.specs.declared.faults.StepFault.{StepFault};

    ghost from_gives = { λ refusal e. e ≡ StepFault.Refused refusal };

    fn from(refusal: Refusal) -> StepFault {
        StepFault::Refused(refusal)
    }
}

impl From<OpFault> for StepFault {
    ghost use Rattle.std.specs.Prelude.{◌≡◌};
    ghost use Rattle.cf_session.specs.Faults.{fault_of};

    ghost from_gives = { λ fault e. e ≡ fault_of fault };

    fn from(fault: OpFault) -> StepFault {
        match fault {
            OpFault::NoMemory => StepFault::NoMemory,
            OpFault::Overflow { at } => StepFault::Refused(Refusal::Overflow(at)),
        }
    }
}
