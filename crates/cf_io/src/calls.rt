//! The calls of a form in memory.

ghost use Rattle.std.specs.Prelude.{◌≡◌, ◌↔◌, ℕ, ◌+◌, ◌<◌, ◌≤◌, max, List, [], ◌++◌, length, take, drop};
ghost use Rattle.cf_io.specs.Causes.{Counts, HasCause, one_more};
ghost use Rattle.cf_io.specs.Pieces.{is_listed, piece_length};

/// The calls of a form in memory: those that fail, how many were made, and how many of them failed.
#[derive(Drop)]
pub(crate) struct Calls {
    pub(crate) fails: Vec<u64>,
    pub(crate) made: u64,
    pub(crate) faults: u64,
}

impl Calls {
    pub(crate) fn new(fails: Vec<u64>) -> Calls
        ensures fails { result.fails.items ≡ fails.items }
        ensures made { result.made ≡ 0 }
        ensures faults { result.faults ≡ 0 }
    {
        Calls {
            fails,
            made: 0,
            faults: 0,
        }
    }

    /// Counts a call, and a fault where the call is one of those that fail.
    pub(crate) fn fails_now(&mut self) -> bool
        ensures listed { result ≡ is_listed self.old.fails.items self.old.made }
        ensures made { self.new.made ≡ one_more self.old.made }
        ensures counted { Counts self.old.faults self.new.faults result }
        ensures cause { HasCause self.old.faults self.new.faults result }
        ensures fails { self.new.fails.items ≡ self.old.fails.items }
    {
        let fails = self.fails.contains(&self.made);
        self.made = self.made.saturating_add(1);
        if fails {
            self.count_fault();
        }
        fails
    }

    /// Counts a fault.
    pub(crate) fn count_fault(&mut self)
        ensures faults { self.new.faults ≡ one_more self.old.faults }
        ensures later { self.old.faults ≤ self.new.faults }
        ensures made { self.new.made ≡ self.old.made }
        ensures fails { self.new.fails.items ≡ self.old.fails.items }
    {
        self.faults = self.faults.saturating_add(1);
    }
}

/// How many of `all` bytes a read gives that begins at place `at`.
fn piece_len(at: usize, piece: usize, cut: usize, room: usize, all: usize) -> usize
    requires piece { 1 ≤ piece }
    requires at { at ≤ all }
    ensures { result ≡ piece_length at piece cut room all }
{
    let rest = all - at;
    let to_cut = if at < cut { cut - at } else { rest };
    (piece - at % piece).min(to_cut).min(room.min(rest))
}

/// Copies the bytes that a read gives that begins at place `at` to the front of the buffer, and
/// answers how many they are: none where no byte is left.
pub(crate) fn copy_piece(bytes: &[u8], at: usize, piece: usize, cut: usize, buf: &mut [u8]) -> usize
    requires piece { 1 ≤ piece }
    requires room { 0 < length buf.old }
    ensures count { result ≡ piece_length at piece cut (length buf.old) (length bytes.now) }
    ensures none { (result ≡ 0) ↔ (length bytes.now ≤ at) }
    ensures within { at + result ≤ max at (length bytes.now) }
    ensures room { result ≤ length buf.new }
    ensures rest { drop at bytes.now ≡ take result buf.new ++ drop (at + result) bytes.now }
    ensures before { take (at + result) bytes.now ≡ take at bytes.now ++ take result buf.new }
{
    if bytes.len() <= at {
        return 0;
    }
    let count = piece_len(at, piece, cut, buf.len(), bytes.len());
    copy_front(bytes, at, count, buf);
    count
}

/// Copies `count` bytes from place `at` on to the front of the buffer.
fn copy_front(bytes: &[u8], at: usize, count: usize, buf: &mut [u8])
    requires within { at + count ≤ length bytes.now }
    requires room { count ≤ length buf.old }
    ensures front { take count buf.new ≡ take count (drop at bytes.now) }
    ensures rest { drop at bytes.now ≡ take count buf.new ++ drop (at + count) bytes.now }
    ensures before { take (at + count) bytes.now ≡ take at bytes.now ++ take count buf.new }
    ensures room { length buf.new ≡ length buf.old }
{
    buf[..count].copy_from_slice(&bytes[at..at + count]);
}
