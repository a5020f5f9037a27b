//! Sinks of bytes.

ghost use Rattle.std.specs.Prelude.{◌≡◌, ℕ, ◌<◌, ◌≤◌, false, length, IsTrue};
ghost use Rattle.cf_io.specs.Causes.{Rose};
ghost use Rattle.cf_io.specs.Putting.{Appends, AppendsSome, TookWithin, Writes};
ghost use Rattle.cf_io.specs.Shown.{SinkView, WritingIsTold};

/// What a write did: it took some bytes, or failed.
#[derive(Clone, Copy, Debug, PartialEq, Eq)]
pub enum Put {
    Took(usize),
    Failed,
}

/// A stream of bytes that is written from front to back.
pub trait Sink {
    /// What the sink shows: the bytes that were written, and how often it failed.
    ghost shown: { Self → SinkView };

    /// Appends some bytes of the front of `piece`.
    fn write(&mut self, piece: &[u8]) -> Put
        requires { 0 < length piece.now }
        ensures bound { TookWithin result (length piece.now) }
        ensures writes { Writes (shown self.old) (shown self.new) result piece.now };
}

/// Writes all bytes and answers true, or a front of them and answers false, where the sink failed.
pub fn put_all<K: Sink>(out: &mut K, bytes: &[u8]) -> bool
    ensures all { WritingIsTold (K.shown out.old) → IsTrue result →
        Appends (K.shown out.old) (K.shown out.new) bytes.now }
    ensures front { WritingIsTold (K.shown out.old) →
        AppendsSome (K.shown out.old) (K.shown out.new) bytes.now }
    ensures same { (K.shown out.new).tells ≡ (K.shown out.old).tells }
    ensures later { (K.shown out.old).faults ≤ (K.shown out.new).faults }
    ensures cause { result ≡ false → Rose (K.shown out.old).faults (K.shown out.new).faults }
{
    let mut done = 0usize;
    while done < bytes.len() {
        match out.write(&bytes[done..]) {
            Put::Took(count) => done += count,
            Put::Failed => return false,
        }
    }
    true
}
