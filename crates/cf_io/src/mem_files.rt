//! Files in memory.

ghost use Rattle.std.specs.Prelude.{◌≡◌, ℕ, ◌<◌, ◌≤◌, true, length, map, None, IfSome, IfNone};
ghost use Rattle.cf_io.specs.Contents.{content_at, content_or_nothing, entries_of, name_or_nothing};
ghost use Rattle.cf_reference.specs.States.{content_of};

use crate::calls::{Calls, copy_piece};
use crate::files::{Files, Opened};
use crate::source::Got;

/// Files in memory: names with contents. A read ends at the next multiple of `piece`, at the
/// buffer's end or at the last byte. The calls of `open` and `read` fail whose numbers, counted
/// from 0 over both, are listed.
#[derive(Drop)]
pub struct MemFiles {
    files: Vec<(Vec<u8>, Vec<u8>)>,
    piece: usize,
    place: usize,
    at: usize,
    opened: bool,
    ended: bool,
    misses: u64,
    calls: Calls,
    ghost positive: { 1 ≤ piece },
}

impl MemFiles {
    ghost use Rattle.cf_io.specs.Memory.{files_view, IsUnread, new_shelf, shelf};

    /// Files of which none is open. Where a name stands twice, its first content counts.
    pub fn new(files: Vec<(Vec<u8>, Vec<u8>)>, piece: usize, fails: Vec<u64>) -> MemFiles
        requires { 1 ≤ piece }
        ensures shelf { shelf result ≡ new_shelf (entries_of files.items) piece fails.items }
        ensures unread { IsUnread (files_view result) (entries_of files.items) }
    {
        MemFiles {
            files,
            piece,
            place: 0,
            at: 0,
            opened: false,
            ended: false,
            misses: 0,
            calls: Calls::new(fails),
        }
    }
}

/// The place of the file of this name.
fn place_of(files: &[(Vec<u8>, Vec<u8>)], name: &[u8]) -> Option<usize>
    ensures found { IfSome result (λ k.
        content_of (entries_of files.now) name.now ≡ content_at files.now k) }
    ensures named { IfSome result (λ k. name_or_nothing files.now k ≡ name.now) }
    ensures none { IfNone result (content_of (entries_of files.now) name.now ≡ None) }
    ensures within { IfSome result (λ k. k < length files.now) }
{
    for (i, file) in files.iter().enumerate() {
        if name == file.0.as_slice() {
            return Some(i);
        }
    }
    None
}

/// The content of the file at a place, or nothing.
fn content(files: &[(Vec<u8>, Vec<u8>)], place: usize) -> &[u8]
    ensures { result.now ≡ content_or_nothing files.now place }
{
    match files.get(place) {
        Some(file) => file.1.as_slice(),
        None => &[],
    }
}

impl Files for MemFiles {
    ghost use Rattle.cf_io.specs.Memory.{after_call, after_read, file_reader, files_view, open_answer, read_answer, shelf};
    ghost use Rattle.cf_io.specs.Opening.{CountsOpens, CountsReadsOn, Opens, ReadsOn};
    ghost use Rattle.cf_io.specs.Reading.{GotWithin};

    ghost shown = { files_view };

    fn open(&mut self, wanted: &[u8]) -> Opened
        ensures answer { result ≡ open_answer (shelf self.old) wanted.now }
        ensures shelf { shelf self.new ≡ after_call (shelf self.old) }
        ensures opens { Opens (files_view self.old) (files_view self.new) wanted.now result }
        ensures counts { CountsOpens (files_view self.old) (files_view self.new) result }
    {
        self.at = 0;
        self.ended = false;
        self.opened = false;
        if self.calls.fails_now() {
            return Opened::Failed;
        }
        match place_of(&self.files, wanted) {
            Some(place) => {
                self.place = place;
                self.opened = true;
                Opened::Opened
            }
            None => {
                self.misses = self.misses.saturating_add(1);
                Opened::Missing
            }
        }
    }

    fn read(&mut self, buf: &mut [u8]) -> Got
        requires opened { (files_view self.old).opened ≡ true }
        requires room { 0 < length buf.old }
        ensures answer { result ≡ read_answer (file_reader self.old) (length buf.old) }
        ensures reader { file_reader self.new ≡ after_read (file_reader self.old) result }
        ensures shelf { shelf self.new ≡ after_call (shelf self.old) }
        ensures bound { GotWithin result (length buf.new) }
        ensures reads { ReadsOn (files_view self.old) (files_view self.new) result buf.new }
        ensures counts { CountsReadsOn (files_view self.old) (files_view self.new) result }
    {
        self.ended = false;
        if self.calls.fails_now() {
            return Got::Failed;
        }
        let bytes = content(&self.files, self.place);
        let count = copy_piece(bytes, self.at, self.piece, 0, buf);
        if count == 0 {
            self.ended = true;
            return Got::End;
        }
        self.at += count;
        Got::Got(count)
    }
}

/// Files in memory of which no call fails. A read ends at the next multiple of `piece`, at the
/// buffer's end or at the last byte.
#[derive(Drop)]
pub struct SureFiles {
    files: Vec<(Vec<u8>, Vec<u8>)>,
    piece: usize,
    place: usize,
    at: usize,
    opened: bool,
    ended: bool,
    misses: u64,
    ghost positive: { 1 ≤ piece },
}

impl SureFiles {
    ghost use Rattle.std.specs.Prelude.{[]};
    ghost use Rattle.cf_io.specs.Memory.{IsUnread, new_shelf};
    ghost use Rattle.cf_io.specs.Sure.{sure_files_view, sure_shelf};

    /// Files of which none is open. Where a name stands twice, its first content counts.
    pub fn new(files: Vec<(Vec<u8>, Vec<u8>)>, piece: usize) -> SureFiles
        requires { 1 ≤ piece }
        ensures shelf { sure_shelf result ≡ new_shelf (entries_of files.items) piece [] }
        ensures unread { IsUnread (sure_files_view result) (entries_of files.items) }
    {
        SureFiles {
            files,
            piece,
            place: 0,
            at: 0,
            opened: false,
            ended: false,
            misses: 0,
        }
    }
}

impl Files for SureFiles {
    ghost use Rattle.std.specs.Prelude.{false};
    ghost use Rattle.cf_io.specs.Memory.{open_answer, read_answer};
    ghost use Rattle.cf_io.specs.Opening.{CountsOpens, is_open_failed, Opens, ReadsOn};
    ghost use Rattle.cf_io.specs.Reading.{GotWithin, is_failed};
    ghost use Rattle.cf_io.specs.Sure.{moved, sure_file_reader, sure_files_view, sure_shelf};

    ghost shown = { sure_files_view };

    fn open(&mut self, wanted: &[u8]) -> Opened
        ensures answer { result ≡ open_answer (sure_shelf self.old) wanted.now }
        ensures shelf { sure_shelf self.new ≡ sure_shelf self.old }
        ensures opens { Opens (sure_files_view self.old) (sure_files_view self.new)
            wanted.now result }
        ensures counts { CountsOpens (sure_files_view self.old) (sure_files_view self.new) result }
        ensures sure { is_open_failed result ≡ false }
    {
        self.at = 0;
        self.ended = false;
        self.opened = false;
        match place_of(&self.files, wanted) {
            Some(place) => {
                self.place = place;
                self.opened = true;
                Opened::Opened
            }
            None => {
                self.misses = self.misses.saturating_add(1);
                Opened::Missing
            }
        }
    }

    fn read(&mut self, buf: &mut [u8]) -> Got
        requires opened { (sure_files_view self.old).opened ≡ true }
        requires room { 0 < length buf.old }
        ensures answer { result ≡ read_answer (sure_file_reader self.old) (length buf.old) }
        ensures reader { sure_file_reader self.new ≡ moved (sure_file_reader self.old) result }
        ensures shelf { sure_shelf self.new ≡ sure_shelf self.old }
        ensures bound { GotWithin result (length buf.new) }
        ensures reads { ReadsOn (sure_files_view self.old) (sure_files_view self.new)
            result buf.new }
        ensures sure { is_failed result ≡ false }
    {
        let bytes = content(&self.files, self.place);
        let count = copy_piece(bytes, self.at, self.piece, 0, buf);
        self.ended = count == 0;
        if count == 0 {
            return Got::End;
        }
        self.at += count;
        Got::Got(count)
    }
}
