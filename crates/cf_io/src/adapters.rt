//! Sources and sinks over readers and writers of std.

ghost use Rattle.std.specs.Prelude.{◌≡◌, ℕ, ◌<◌, length};
ghost use Rattle.cf_io.specs.Adapters.{HandsOn, HandsOver, reader_left, reader_view, unread_reader_view, writer_has, writer_view};
ghost use Rattle.cf_io.specs.Putting.{TookWithin, Writes};
ghost use Rattle.cf_io.specs.Reading.{GotWithin, Reads};

use crate::sink::{Put, Sink};
use crate::source::{Got, Source};
use std::io::{Read, Write};

/// A reader of the system, whose failures are counted. It tells no bytes.
#[derive(Drop)]
pub struct HostSource<R: Read> {
    reader: R,
    taken: u64,
    ended: bool,
    faults: u64,
}

impl<R: Read> HostSource<R> {
    /// A source over a reader from which nothing was taken.
    pub fn new(reader: R) -> HostSource<R>
        ensures reader { reader_left R.remaining result ≡ R.remaining reader }
        ensures shown { reader_view result ≡ unread_reader_view }
    {
        HostSource {
            reader,
            taken: 0,
            ended: false,
            faults: 0,
        }
    }
}

impl<R: Read> Source for HostSource<R> {
    ghost shown = { reader_view };

    fn read(&mut self, buf: &mut [u8]) -> Got
        requires { 0 < length buf.old }
        ensures bound { GotWithin result (length buf.new) }
        ensures reads { Reads (reader_view self.old) (reader_view self.new) result buf.new }
        ensures hands_on { HandsOn (reader_left R.remaining self.old)
            (reader_left R.remaining self.new) result buf.new }
    {
        self.ended = false;
        let room = buf.len() as u64;
        if u64::MAX - self.taken < room {
            self.faults = self.faults.saturating_add(1);
            return Got::Failed;
        }
        match read_some(&mut self.reader, buf) {
            Got::Got(count) => {
                self.taken += count as u64;
                Got::Got(count)
            }
            Got::End => {
                self.ended = true;
                Got::End
            }
            Got::Failed => {
                self.faults = self.faults.saturating_add(1);
                Got::Failed
            }
        }
    }
}

/// Reads once, and tells an end from a failure.
pub(crate) fn read_some<R: Read>(reader: &mut R, buf: &mut [u8]) -> Got
    requires { 0 < length buf.old }
    ensures bound { GotWithin result (length buf.new) }
    ensures hands_on { HandsOn (R.remaining reader.old) (R.remaining reader.new) result buf.new }
{
    match reader.read(buf) {
        Ok(0) => Got::End,
        Ok(count) => Got::Got(count),
        Err(_) => Got::Failed,
    }
}

/// A writer of the system, whose failures are counted. It is flushed after each piece, and tells
/// no bytes.
#[derive(Drop)]
pub struct HostSink<W: Write> {
    writer: W,
    faults: u64,
}

impl<W: Write> HostSink<W> {
    /// A sink over a writer.
    pub fn new(writer: W) -> HostSink<W>
        ensures writer { writer_has W.contents result ≡ W.contents writer }
        ensures faults { (writer_view result).faults ≡ 0 }
    {
        HostSink { writer, faults: 0 }
    }
}

impl<W: Write> Sink for HostSink<W> {
    ghost shown = { writer_view };

    fn write(&mut self, piece: &[u8]) -> Put
        requires { 0 < length piece.now }
        ensures bound { TookWithin result (length piece.now) }
        ensures writes { Writes (writer_view self.old) (writer_view self.new) result piece.now }
        ensures hands_over { HandsOver (writer_has W.contents self.old)
            (writer_has W.contents self.new) result piece.now }
    {
        match write_some(&mut self.writer, piece) {
            Put::Took(count) => Put::Took(count),
            Put::Failed => {
                self.faults = self.faults.saturating_add(1);
                Put::Failed
            }
        }
    }
}

/// Writes once, and flushes what the writer took. A writer that takes nothing has failed.
fn write_some<W: Write>(writer: &mut W, piece: &[u8]) -> Put
    ensures bound { TookWithin result (length piece.now) }
    ensures hands_over { HandsOver (W.contents writer.old) (W.contents writer.new)
        result piece.now }
{
    match writer.write(piece) {
        Ok(0) => Put::Failed,
        Ok(count) => match writer.flush() {
            Ok(()) => Put::Took(count),
            Err(_) => Put::Failed,
        },
        Err(_) => Put::Failed,
    }
}
