//! Cut scripts, failing reads and writes, and the adapters over readers and writers.

use crate::running::run_script;
use cf_io::{HostSink, HostSource, Lines, MemSink, MemSource, Next, Source, put_all};
use cf_session::Session;
use cf_top::Status;
use std::alloc::{AllocError, Global};
use std::io::{self, ErrorKind, Read, Write};
use std::test::Fail;

/// The square of the Walsh matrix of 2^64 rows is 2^64 times the identity.
const SCRIPT: &[u8] = b"level 7
let w = walsh(7)
let q = matmul(w,w)
entry q 0 0
entry q 18446744073709551615 18446744073709551615
entry q 0 1
let d = times(id(7),18446744073709551616)
equal q d
size w
size q
";

const REPLIES: &[u8] = b"18446744073709551616
18446744073709551616
0
equal
size 2 1 1 1 1 1 1 1 exits 2
size 2 2 2 2 2 2 2 1 exits 2
";

/// How a run of the script ends whose reads and writes of given numbers fail, and what it writes.
fn run_of(
    alloc: Global,
    piece: usize,
    cut: usize,
    reads: &[u64],
    writes: &[u64],
) -> Result<(Status, MemSink), AllocError> {
    let mut source = MemSource::new(
        SCRIPT.to_vec(alloc)?,
        piece.max(1),
        cut,
        reads.to_vec(alloc)?,
    );
    let mut sink = MemSink::new(alloc, 200, 100, writes.to_vec(alloc)?)?;
    let mut session = Session::new(alloc)?;
    let status = run_script(alloc, &mut session, &mut source, &mut sink)?;
    Ok((status, sink))
}

#[test]
fn a_script_writes_the_same_however_it_is_cut(rt: HostRuntime) -> Result<(), Fail> {
    for cut in 0..SCRIPT.len() {
        let (status, sink) = run_of(rt.alloc(), SCRIPT.len(), cut, &[], &[])?;
        assert_eq!(rt; sink.bytes(), REPLIES);
        assert_eq!(rt; status, Status::Done);
    }
    let (_, sink) = run_of(rt.alloc(), 1, 0, &[], &[])?;
    assert_eq!(rt; sink.bytes(), REPLIES);
    Ok(())
}

#[test]
fn a_read_that_fails_ends_the_run_after_the_lines_before_it(rt: HostRuntime) -> Result<(), Fail> {
    let (status, sink) = run_of(rt.alloc(), 60, 0, &[1], &[])?;
    assert_eq!(rt; sink.bytes(), b"18446744073709551616\n".as_slice());
    assert_eq!(rt; status, Status::ReadFault);
    Ok(())
}

#[test]
fn a_write_that_fails_ends_the_run_after_the_replies_before_it(
    rt: HostRuntime,
) -> Result<(), Fail> {
    let (status, sink) = run_of(rt.alloc(), 60, 0, &[], &[2])?;
    assert_eq!(rt;
        sink.bytes(),
        b"18446744073709551616\n18446744073709551616\n".as_slice()
    );
    assert_eq!(rt; status, Status::WriteFault);
    Ok(())
}

/// A writer that takes two bytes at once and counts its flushes.
#[derive(Drop)]
struct Flushed {
    flushes: usize,
}

impl Write for Flushed {
    fn write(&mut self, buf: &[u8]) -> io::Result<usize> {
        Ok(buf.len().min(2))
    }

    fn flush(&mut self) -> io::Result<()> {
        self.flushes = self.flushes.saturating_add(1);
        Ok(())
    }
}

/// A reader and a writer that fail.
#[derive(Drop)]
struct Broken;

impl Read for Broken {
    fn read(&mut self, _buf: &mut [u8]) -> io::Result<usize> {
        Err(ErrorKind::Other.into())
    }
}

impl Write for Broken {
    fn write(&mut self, _buf: &[u8]) -> io::Result<usize> {
        Err(ErrorKind::Other.into())
    }

    fn flush(&mut self) -> io::Result<()> {
        Ok(())
    }
}

/// The first line of a source, and None where it can't be read.
fn first_line<S: Source>(alloc: Global, source: &mut S) -> Result<Option<Vec<u8>>, Fail> {
    let mut lines = Lines::new(alloc)?;
    Ok(match lines.next_line(source) {
        Next::Line(line) => Some(line.to_vec(alloc)?),
        _ => None,
    })
}

#[test]
fn a_reader_hands_on_its_bytes(rt: HostRuntime) -> Result<(), Fail> {
    let mut source = HostSource::new(b"one\ntwo".as_slice());
    let line = first_line(rt.alloc(), &mut source)?;
    assert!(rt; line.is_some_and(|line| line.as_slice() == b"one".as_slice()));
    Ok(())
}

#[test]
fn a_broken_reader_and_a_broken_writer_are_faults(rt: HostRuntime) -> Result<(), Fail> {
    assert!(rt; first_line(rt.alloc(), &mut HostSource::new(Broken))?.is_none());
    assert!(rt; !put_all(&mut HostSink::new(Broken), b"text"));
    Ok(())
}

#[test]
fn a_writer_gets_all_bytes(rt: HostRuntime) -> Result<(), Fail> {
    let mut written: Vec<u8> = Vec::new(rt.alloc());
    assert!(rt; put_all(&mut HostSink::new(&mut written), b"text"));
    assert_eq!(rt; written.as_slice(), b"text".as_slice());
    Ok(())
}

#[test]
fn a_writer_is_flushed_after_each_piece(rt: HostRuntime) -> Result<(), Fail> {
    let mut writer = Flushed { flushes: 0 };
    assert!(rt; put_all(&mut HostSink::new(&mut writer), b"texts"));
    assert_eq!(rt; writer.flushes, 3);
    Ok(())
}
