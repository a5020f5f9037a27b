//! Sources in memory.

ghost use Rattle.std.specs.Prelude.{◌≡◌, ℕ, ◌<◌, ◌≤◌, false, [], length, vec_len};

use crate::calls::{Calls, copy_piece};
use crate::source::{Got, Source};

/// Bytes in memory. A read ends at the next multiple of `piece`, at place `cut` if it began before
/// it, at the buffer's end or at the last byte. The calls fail whose numbers, counted from 0, are
/// listed.
#[derive(Drop)]
pub struct MemSource {
    bytes: Vec<u8>,
    piece: usize,
    cut: usize,
    at: usize,
    ended: bool,
    calls: Calls,
    ghost within: { at ≤ vec_len bytes },
    ghost positive: { 1 ≤ piece },
}

impl MemSource {
    ghost use Rattle.cf_io.specs.Memory.{new_reader, reader, source_view, unread_view};

    /// A source that has all its bytes left.
    pub fn new(bytes: Vec<u8>, piece: usize, cut: usize, fails: Vec<u64>) -> MemSource
        requires { 1 ≤ piece }
        ensures reader { reader result ≡ new_reader bytes.items piece cut fails.items }
        ensures shown { source_view result ≡ unread_view bytes.items }
    {
        MemSource {
            bytes,
            piece,
            cut,
            at: 0,
            ended: false,
            calls: Calls::new(fails),
        }
    }
}

impl Source for MemSource {
    ghost use Rattle.cf_io.specs.Memory.{after_read, read_answer, reader, source_view};
    ghost use Rattle.cf_io.specs.Reading.{CountsReads, GotWithin, Reads};

    ghost shown = { source_view };

    fn read(&mut self, buf: &mut [u8]) -> Got
        requires { 0 < length buf.old }
        ensures answer { result ≡ read_answer (reader self.old) (length buf.old) }
        ensures reader { reader self.new ≡ after_read (reader self.old) result }
        ensures bound { GotWithin result (length buf.new) }
        ensures reads { Reads (source_view self.old) (source_view self.new) result buf.new }
        ensures counts { CountsReads (source_view self.old) (source_view self.new) result }
    {
        self.ended = false;
        if self.calls.fails_now() {
            return Got::Failed;
        }
        let count = copy_piece(&self.bytes, self.at, self.piece, self.cut, buf);
        if count == 0 {
            self.ended = true;
            return Got::End;
        }
        self.at += count;
        Got::Got(count)
    }
}

/// Bytes in memory of which no read fails. A read ends at the next multiple of `piece`, at the
/// buffer's end or at the last byte.
#[derive(Drop)]
pub struct SureSource {
    bytes: Vec<u8>,
    piece: usize,
    at: usize,
    ended: bool,
    ghost within: { at ≤ vec_len bytes },
    ghost positive: { 1 ≤ piece },
}

impl SureSource {
    ghost use Rattle.cf_io.specs.Memory.{new_reader, unread_view};
    ghost use Rattle.cf_io.specs.Sure.{sure_reader, sure_view};

    /// A source that has all its bytes left.
    pub fn new(bytes: Vec<u8>, piece: usize) -> SureSource
        requires { 1 ≤ piece }
        ensures reader { sure_reader result ≡ new_reader bytes.items piece 0 [] }
        ensures shown { sure_view result ≡ unread_view bytes.items }
    {
        SureSource {
            bytes,
            piece,
            at: 0,
            ended: false,
        }
    }
}

impl Source for SureSource {
    ghost use Rattle.cf_io.specs.Memory.{read_answer};
    ghost use Rattle.cf_io.specs.Reading.{GotWithin, is_failed, Reads};
    ghost use Rattle.cf_io.specs.Sure.{moved, sure_reader, sure_view};

    ghost shown = { sure_view };

    fn read(&mut self, buf: &mut [u8]) -> Got
        requires { 0 < length buf.old }
        ensures answer { result ≡ read_answer (sure_reader self.old) (length buf.old) }
        ensures reader { sure_reader self.new ≡ moved (sure_reader self.old) result }
        ensures bound { GotWithin result (length buf.new) }
        ensures reads { Reads (sure_view self.old) (sure_view self.new) result buf.new }
        ensures sure { is_failed result ≡ false }
    {
        let count = copy_piece(&self.bytes, self.at, self.piece, 0, buf);
        self.ended = count == 0;
        if count == 0 {
            return Got::End;
        }
        self.at += count;
        Got::Got(count)
    }
}
