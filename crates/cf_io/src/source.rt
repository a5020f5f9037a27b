//! Sources of bytes.

ghost use Rattle.std.specs.Prelude.{ℕ, ◌<◌, length};
ghost use Rattle.cf_io.specs.Reading.{GotWithin, Reads};
ghost use Rattle.cf_io.specs.Shown.{SourceView};

/// What a read gave: some bytes, the end of input, or a failure.
#[derive(Clone, Copy, Debug, PartialEq, Eq)]
pub enum Got {
    Got(usize),
    End,
    Failed,
}

/// A stream of bytes that is read from front to back.
pub trait Source {
    /// What the source shows: its bytes, how many were taken, whether it has ended, and how often
    /// it failed.
    ghost shown: { Self → SourceView };

    /// Reads some of the bytes that are left into the front of `buf`.
    fn read(&mut self, buf: &mut [u8]) -> Got
        requires { 0 < length buf.old }
        ensures bound { GotWithin result (length buf.new) }
        ensures reads { Reads (shown self.old) (shown self.new) result buf.new };
}
