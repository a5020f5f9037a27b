//! How a run ends.

ghost use Rattle.std.specs.Prelude.{◌≡◌};
ghost use Rattle.cf_top.specs.Ends.{exit_status};

/// How a run ended. The numbers are the program's exit statuses.
#[derive(Clone, Copy, Debug, PartialEq, Eq)]
pub enum Status {
    /// The script was read to its end, and each statement was carried out.
    Done = 0,
    /// A line was refused.
    Refused = 1,
    /// The words are none of the forms.
    Usage = 2,
    /// The script couldn't be read.
    ReadFault = 3,
    /// A reply couldn't be written.
    WriteFault = 4,
    /// There was no memory.
    NoMemory = 5,
    /// A file couldn't be opened or read.
    FileFault = 6,
}

impl Status {
    /// The exit status of the program.
    pub fn code(self) -> u8
        ensures { result ≡ exit_status self }
    {
        self as u8
    }
}
