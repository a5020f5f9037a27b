//! The files of the current folder.

ghost use Rattle.std.specs.Prelude.{◌≡◌, ℕ, ◌<◌, true, length};
ghost use Rattle.std.specs.Str.{IsUtf8};
ghost use Rattle.cf_io.specs.Adapters.{file_left, folder_view, HandsOn, unopened_folder_view};
ghost use Rattle.cf_io.specs.Opening.{Opens, ReadsOn};
ghost use Rattle.cf_io.specs.Reading.{GotWithin};

use crate::adapters::read_some;
use crate::files::{Files, Opened};
use crate::source::Got;
use std::alloc::Global;
use std::io::ErrorKind;
use std::rt::Files as SystemFiles;
use std::{fs, str};

/// The files of the current folder, whose failures are counted and those that were missing. It
/// tells no bytes.
#[derive(Drop)]
pub struct HostFiles<R: SystemFiles> {
    runtime: R,
    file: Option<R::File>,
    given: u64,
    ended: bool,
    misses: u64,
    faults: u64,
}

impl<R: SystemFiles> HostFiles<R> {
    /// Files of which none is open. Opening one takes no memory.
    pub fn new(runtime: R, _alloc: Global) -> HostFiles<R>
        ensures { folder_view result ≡ unopened_folder_view }
    {
        HostFiles {
            runtime,
            file: None,
            given: 0,
            ended: false,
            misses: 0,
            faults: 0,
        }
    }
}

impl<R: SystemFiles + Drop> Files for HostFiles<R> {
    ghost shown = { folder_view };

    fn open(&mut self, wanted: &[u8]) -> Opened
        ensures opens { Opens (folder_view self.old) (folder_view self.new) wanted.now result }
        ensures no_text { ¬ (IsUtf8 wanted.now) → result ≡ Opened.Missing }
    {
        self.file = None;
        self.given = 0;
        self.ended = false;
        let found = match str::from_utf8(wanted) {
            Ok(path) => fs::open(&self.runtime, path),
            Err(_) => Err(ErrorKind::NotFound.into()),
        };
        match found {
            Ok(file) => {
                self.file = Some(file);
                Opened::Opened
            }
            Err(error) if error.kind() == ErrorKind::NotFound => {
                self.misses = self.misses.saturating_add(1);
                Opened::Missing
            }
            Err(_) => {
                self.faults = self.faults.saturating_add(1);
                Opened::Failed
            }
        }
    }

    fn read(&mut self, buf: &mut [u8]) -> Got
        requires opened { (folder_view self.old).opened ≡ true }
        requires room { 0 < length buf.old }
        ensures bound { GotWithin result (length buf.new) }
        ensures reads { ReadsOn (folder_view self.old) (folder_view self.new) result buf.new }
        ensures hands_on { HandsOn (file_left R.File.remaining self.old)
            (file_left R.File.remaining self.new) result buf.new }
    {
        self.ended = false;
        let room = buf.len() as u64;
        let got = match &mut self.file {
            Some(file) if room <= u64::MAX - self.given => read_some(file, buf),
            _ => Got::Failed,
        };
        match got {
            Got::Got(count) => self.given += count as u64,
            Got::End => self.ended = true,
            Got::Failed => self.faults = self.faults.saturating_add(1),
        }
        got
    }
}
