//! The lines of a source.

ghost use Rattle.std.specs.Prelude.{◌≡◌, ℕ, ◌+◌, ◌-◌, ◌<◌, ◌≤◌, Bool, true, false, List, [], ◌++◌, length, take, drop, slice_index, IsTrue, IfOk, IfSome, IfNone};
ghost use Rattle.std.specs.Borrow.{sem};
ghost use Rattle.std.specs.Io.BufRead.{Rests};
ghost use Rattle.cf_reference.specs.Lines.{fit, line_end, NoNewline};
ghost use Rattle.cf_io.specs.Causes.{HasCause};
ghost use Rattle.cf_io.specs.Held.{Held};
ghost use Rattle.cf_io.specs.LineSteps.{Advances, answer_of, EndIsLast, EndIsTrue, HandsOut, IsReadFault, LastFailed, Steps, Takes, to_come};
ghost use Rattle.cf_io.specs.Reading.{count_of, GotWithin, is_end, is_failed, Reads};
ghost use Rattle.cf_io.specs.Shown.{ReadingIsTold};
ghost use Rattle.cf_io.specs.Windows.{Comes, Fares, found_in, front_line, Hands, held, IsSound, LiesIn, state};
ghost use Rattle.cf_io.specs.contracts.lines.Lines.{the_row};

use crate::NoMemory;
use crate::source::{Got, Source};
use memchr::memchr;
use std::alloc::Global;
use std::marker::Model;

/// The bytes of the longest line, its line end not counted.
const LONGEST_LINE: usize = 65_536;

/// The bytes of the longest script.
const LONGEST_SCRIPT: u64 = 1_073_741_824;

/// The bytes of the buffer: four longest lines with their line ends.
const BUFFER: usize = 262_148;

/// What a read of a line gave: the line without its line end, the end of input, a line or a script
/// that is too long, or a failure of the source.
#[derive(Clone, Copy, Debug)]
pub enum Next<'a> {
    Line(&'a [u8]),
    End,
    TooLong,
    ScriptTooLong,
    ReadFault,
}

/// As `Next`, with a line's first place in the buffer and the place behind it.
enum Found {
    Line(usize, usize),
    End,
    TooLong,
    ScriptTooLong,
    ReadFault,
}

/// How a line fares by its length.
enum Fit {
    Fits,
    LineTooLong,
    ScriptTooLong,
}

/// A buffer of which the bytes from `from` up to `upto` are held, behind `handed` bytes of the
/// script.
#[derive(Drop)]
struct Window {
    buf: Vec<u8>,
    from: usize,
    upto: usize,
    handed: u64,
    ended: bool,
}

/// Hands out the lines of a source. Its buffer is taken once.
#[derive(Drop)]
pub struct Lines {
    window: Window,
}

impl Model for Lines {
    ghost use Rattle.cf_io.specs.Held.{Held};
    ghost use Rattle.cf_io.specs.Windows.{IsSound, state};

    ghost Value = { Held };

    ghost view = { λ s. state s.window };

    ghost invariant = { λ s. IsSound s.window };
}

impl Lines {
    /// A buffer that holds nothing.
    pub fn new(alloc: Global) -> Result<Lines, NoMemory>
        ensures { IfOk result (λ l. l ≡ record { bytes = []; handed = 0; ended = false }) }
    {
        let buf = vec![in alloc; 0u8; BUFFER]?;
        Ok(Lines {
            window: Window {
                buf,
                from: 0,
                upto: 0,
                handed: 0,
                ended: false,
            },
        })
    }

    /// The next line of the source. A line ends at a newline or, if it has bytes, at the end of
    /// input.
    pub fn next_line<S: Source>(&mut self, source: &mut S) -> Next<'_>
        ensures* after { sem 𝓛 (Rests the_row self.entry (λ new.
            Steps self.old new (S.shown source.old) (S.shown source.new) (answer_of result))) }
        ensures quiet { IsTrue self.old.ended → source.new ≡ source.old }
        ensures told { (S.shown source.new).tells ≡ (S.shown source.old).tells }
        ensures later { (S.shown source.old).faults ≤ (S.shown source.new).faults }
        ensures fault { IsReadFault (answer_of result) →
            LastFailed (S.shown source.old) (S.shown source.new) }
    {
        match find(&mut self.window, source) {
            Found::Line(from, upto) => Next::Line(&self.window.buf[from..upto]),
            Found::End => Next::End,
            Found::TooLong => Next::TooLong,
            Found::ScriptTooLong => Next::ScriptTooLong,
            Found::ReadFault => Next::ReadFault,
        }
    }
}

/// Finds the next line, and takes it off the bytes that are held.
fn find<S: Source>(window: &mut Window, source: &mut S) -> Found
    requires sound { IsSound window.old }
    ensures sound { IsSound window.new }
    ensures place { LiesIn window.new result }
    ensures advances { Advances (state window.old) (state window.new)
        (S.shown source.old).taken (S.shown source.new).taken (found_in window.new result) }
    ensures true_end { EndIsTrue (state window.old) (S.shown source.old) →
        EndIsTrue (state window.new) (S.shown source.new) }
    ensures remembered { IsTrue (S.shown source.new).ended → window.new.ended ≡ false →
        source.new ≡ source.old }
    ensures fault { IsReadFault (found_in window.new result) →
        LastFailed (S.shown source.old) (S.shown source.new) }
    ensures takes { ReadingIsTold (S.shown source.old) → Takes (state window.old) (state window.new)
        (S.shown source.old) (S.shown source.new) (found_in window.new result) }
    ensures hands { ReadingIsTold (S.shown source.old) →
        EndIsLast (state window.old) (S.shown source.old) →
        HandsOut (state window.old) (to_come (state window.old) (S.shown source.old))
        (state window.new) (to_come (state window.new) (S.shown source.new))
        (found_in window.new result) }
    ensures last_end { ReadingIsTold (S.shown source.old) →
        EndIsLast (state window.old) (S.shown source.old) →
        EndIsLast (state window.new) (S.shown source.new) }
    ensures quiet { IsTrue window.old.ended → source.new ≡ source.old }
    ensures told { (S.shown source.new).tells ≡ (S.shown source.old).tells }
    ensures later { (S.shown source.old).faults ≤ (S.shown source.new).faults }
{
    let mut seen = 0usize;
    loop {
        let len = window.upto - window.from;
        if let Some(i) = newline_from(&window.buf[window.from..window.upto], seen) {
            return hand_out(window, i, true);
        }
        if window.ended {
            if len == 0 {
                return Found::End;
            }
            return hand_out(window, len, false);
        }
        match judge(window.handed, len, false) {
            Fit::Fits => {}
            Fit::LineTooLong => return Found::TooLong,
            Fit::ScriptTooLong => return Found::ScriptTooLong,
        }
        seen = len;
        if let Got::Failed = refill(window, source) {
            return Found::ReadFault;
        }
    }
}

/// The place of the first newline, where none stands before `seen`.
fn newline_from(bytes: &[u8], seen: usize) -> Option<usize>
    requires seen { seen ≤ length bytes.now }
    requires none_before { NoNewline (take seen bytes.now) }
    ensures within { IfSome result (λ i. i < length bytes.now) }
    ensures found { IfSome result (λ i. slice_index bytes.now i ≡ 10) }
    ensures before { IfSome result (λ i. NoNewline (take i bytes.now)) }
    ensures none { IfNone result (NoNewline bytes.now) }
{
    match memchr(b'\n', &bytes[seen..]) {
        Some(i) => Some(seen + i),
        None => None,
    }
}

/// How a line of `len` bytes fares that begins behind `handed` bytes of the script, with a newline
/// at its end or not.
fn judge(handed: u64, len: usize, newline: bool) -> Fit
    requires { handed ≤ 1073741824 }
    ensures { Fares handed len newline result }
{
    let allowed = LONGEST_SCRIPT - handed;
    let passes = if newline {
        allowed <= len as u64
    } else {
        allowed < len as u64
    };
    if passes && allowed <= LONGEST_LINE as u64 {
        Fit::ScriptTooLong
    } else if LONGEST_LINE < len {
        Fit::LineTooLong
    } else {
        Fit::Fits
    }
}

/// Hands out the first `len` bytes that are held as a line, and its newline with them.
fn hand_out(window: &mut Window, len: usize, newline: bool) -> Found
    requires sound { IsSound window.old }
    requires within { len + length (line_end newline) ≤ length (held window.old) }
    ensures sound { IsSound window.new }
    ensures place { LiesIn window.new result }
    ensures ended { window.new.ended ≡ window.old.ended }
    ensures hands { Hands window.old window.new (front_line window.old len newline) result }
{
    match judge(window.handed, len, newline) {
        Fit::Fits => {
            let start = window.from;
            let size = len + usize::from(newline);
            window.from = start + size;
            window.handed += size as u64;
            Found::Line(start, start + len)
        }
        Fit::LineTooLong => Found::TooLong,
        Fit::ScriptTooLong => Found::ScriptTooLong,
    }
}

/// Moves the held bytes to the buffer's front where fewer than a longest line with its line end fit
/// from their place on.
fn make_room(window: &mut Window)
    requires sound { IsSound window.old }
    requires short { length (held window.old) ≤ 65536 }
    ensures sound { IsSound window.new }
    ensures same { state window.new ≡ state window.old }
    ensures room { window.new.upto < length window.new.buf.items }
{
    if window.buf.len() - window.from <= LONGEST_LINE {
        let len = window.upto - window.from;
        window.buf.copy_within(window.from..window.upto, 0);
        window.from = 0;
        window.upto = len;
    }
}

/// Reads into all the room behind the bytes that are held.
fn refill<S: Source>(window: &mut Window, source: &mut S) -> Got
    requires sound { IsSound window.old }
    requires short { length (held window.old) ≤ 65536 }
    requires open { window.old.ended ≡ false }
    ensures sound { IsSound window.new }
    ensures kept { take (length (held window.old)) (held window.new) ≡ held window.old }
    ensures count { length (held window.new) ≡ length (held window.old) + count_of result }
    ensures bound { GotWithin result 262148 }
    ensures handed { window.new.handed ≡ window.old.handed }
    ensures ended { window.new.ended ≡ is_end result }
    ensures source_ended { (S.shown source.new).ended ≡ is_end result }
    ensures taken { (S.shown source.new).taken ≡ (S.shown source.old).taken + count_of result }
    ensures stream { ReadingIsTold (S.shown source.old) →
        to_come (state window.new) (S.shown source.new)
        ≡ to_come (state window.old) (S.shown source.old) }
    ensures comes { ReadingIsTold (S.shown source.old) →
        Comes (held window.old) (held window.new) (S.shown source.old) (S.shown source.new) }
    ensures end { ReadingIsTold (S.shown source.old) → IsTrue (is_end result) →
        (S.shown source.new).left ≡ [] }
    ensures told { (S.shown source.new).tells ≡ (S.shown source.old).tells }
    ensures cause { HasCause (S.shown source.old).faults (S.shown source.new).faults
        (is_failed result) }
{
    make_room(window);
    let got = read_behind(&mut window.buf, window.upto, source);
    match got {
        Got::Got(count) => window.upto += count,
        Got::End => window.ended = true,
        Got::Failed => {}
    }
    got
}

/// Reads into the buffer behind the first `used` bytes.
fn read_behind<S: Source>(buf: &mut [u8], used: usize, source: &mut S) -> Got
    requires { used < length buf.old }
    ensures bound { GotWithin result (length buf.old - used) }
    ensures room { length buf.new ≡ length buf.old }
    ensures kept { take used buf.new ≡ take used buf.old }
    ensures reads { Reads (S.shown source.old) (S.shown source.new) result (drop used buf.new) }
{
    source.read(&mut buf[used..])
}
