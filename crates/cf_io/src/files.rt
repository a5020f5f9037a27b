//! Files by name.

ghost use Rattle.std.specs.Prelude.{◌≡◌, ℕ, ◌<◌, true, length};
ghost use Rattle.cf_io.specs.Opening.{Opens, ReadsOn};
ghost use Rattle.cf_io.specs.Reading.{GotWithin};
ghost use Rattle.cf_io.specs.Shown.{FilesView};

use crate::source::Got;

/// What opening a file gave.
#[derive(Clone, Copy, Debug, PartialEq, Eq)]
pub enum Opened {
    Opened,
    Missing,
    Failed,
}

/// Files by name, one of which is open at a time.
pub trait Files {
    /// What the files show: names and contents, the open file, and how often a name was missing
    /// and a call failed.
    ghost shown: { Self → FilesView };

    /// Makes the file of this name the open one, at its beginning.
    fn open(&mut self, wanted: &[u8]) -> Opened
        ensures { Opens (shown self.old) (shown self.new) wanted.now result };

    /// Reads some of the bytes that the open file has left into the front of `buf`.
    fn read(&mut self, buf: &mut [u8]) -> Got
        requires opened { (shown self.old).opened ≡ true }
        requires room { 0 < length buf.old }
        ensures bound { GotWithin result (length buf.new) }
        ensures reads { ReadsOn (shown self.old) (shown self.new) result buf.new };
}
