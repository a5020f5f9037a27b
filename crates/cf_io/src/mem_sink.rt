//! Sinks in memory.

ghost use Rattle.std.specs.Prelude.{◌≡◌, ℕ, ◌+◌, ◌<◌, ◌≤◌, [], ◌++◌, length, take, true, vec_len, IfOk};

use crate::NoMemory;
use crate::calls::Calls;
use crate::sink::{Put, Sink};
use std::alloc::Global;

/// A sink in memory with a fixed room. A write takes at most `piece` bytes, and fails where the
/// sink is full. The calls fail whose numbers, counted from 0, are listed.
#[derive(Drop)]
pub struct MemSink {
    room: Vec<u8>,
    used: usize,
    piece: usize,
    calls: Calls,
    ghost within: { used ≤ vec_len room },
    ghost positive: { 1 ≤ piece },
}

impl MemSink {
    ghost use Rattle.cf_io.specs.Memory.{new_writer, sink_view, unwritten_view, writer};

    /// An empty sink, whose room of `room` bytes is taken at once.
    pub fn new(
        alloc: Global,
        room: usize,
        piece: usize,
        fails: Vec<u64>,
    ) -> Result<MemSink, NoMemory>
        requires { 1 ≤ piece }
        ensures writer { IfOk result (λ s. writer s ≡ new_writer room piece fails.items) }
        ensures shown { IfOk result (λ s. sink_view s ≡ unwritten_view) }
    {
        let room = vec![in alloc; 0u8; room]?;
        Ok(MemSink {
            room,
            used: 0,
            piece,
            calls: Calls::new(fails),
        })
    }

    /// The bytes that were written.
    pub fn bytes(&self) -> &[u8]
        ensures { result.now ≡ (sink_view self.now).written }
    {
        &self.room[..self.used]
    }
}

/// Copies a piece behind the first `used` bytes of a buffer.
fn copy_behind(buf: &mut [u8], used: usize, piece: &[u8])
    requires { used + length piece.now ≤ length buf.old }
    ensures bytes { take (used + length piece.now) buf.new ≡ take used buf.old ++ piece.now }
    ensures room { length buf.new ≡ length buf.old }
{
    buf[used..used + piece.len()].copy_from_slice(piece);
}

impl Sink for MemSink {
    ghost use Rattle.cf_io.specs.Memory.{after_write, sink_view, write_answer, writer};
    ghost use Rattle.cf_io.specs.Putting.{CountsWrites, TookWithin, Writes};

    ghost shown = { sink_view };

    fn write(&mut self, piece: &[u8]) -> Put
        requires { 0 < length piece.now }
        ensures answer { result ≡ write_answer (writer self.old) (length piece.now) }
        ensures writer { writer self.new ≡ after_write (writer self.old) piece.now result }
        ensures bound { TookWithin result (length piece.now) }
        ensures writes { Writes (sink_view self.old) (sink_view self.new) result piece.now }
        ensures counts { CountsWrites (sink_view self.old) (sink_view self.new) result }
    {
        if self.calls.fails_now() {
            return Put::Failed;
        }
        let free = self.room.len() - self.used;
        if free == 0 {
            self.calls.count_fault();
            return Put::Failed;
        }
        let count = piece.len().min(self.piece).min(free);
        copy_behind(&mut self.room, self.used, &piece[..count]);
        self.used += count;
        Put::Took(count)
    }
}
