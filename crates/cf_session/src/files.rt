//! The bytes of a file.

ghost use Rattle.std.specs.Prelude.{◌≡◌, ◌<◌, ◌≤◌, true, length, Some, IfOk, IfErr};
ghost use Rattle.cf_io.specs.Opening.{ReadsOn};
ghost use Rattle.cf_io.specs.Reading.{GotWithin};
ghost use Rattle.cf_io.specs.Shown.{FilesAreTold};
ghost use Rattle.cf_reference.specs.Loading.{file_limit};
ghost use Rattle.cf_reference.specs.States.{content_of};
ghost use Rattle.cf_session.specs.Contents.{KeepsFiles, IsUnread, ShowsWhy};

use cf_io::{Files, Got, Opened};
use cf_names::NoMemory;
use std::alloc::Global;

/// The most bytes of a circuit's file.
const LIMIT: usize = 8_388_608;

/// The most bytes that are asked for at once.
const PIECE: usize = 65_536;

/// Why a file wasn't read.
pub(crate) enum Unread {
    NoMemory,
    /// There is no file of the name.
    Missing,
    /// It has more bytes than a circuit's file may have.
    TooLarge,
    /// The file couldn't be opened, or a read failed.
    Failed,
}

impl From<NoMemory> for Unread {
    ghost use Rattle.std.specs.Prelude.{◌≡◌};
    ghost use Rattle.cf_session.specs.declared.files.Unread.{Unread};

    ghost from_gives = { λ _ e. e ≡ Unread.NoMemory };

    fn from(_: NoMemory) -> Unread {
        Unread::NoMemory
    }
}

/// Reads some bytes of the open file, at most `room`, into the front of the buffer.
fn read_front<F: Files>(files: &mut F, buf: &mut [u8], room: usize) -> Got
    requires opened { (F.shown files.old).opened ≡ true }
    requires some { 0 < room }
    requires within { room ≤ length buf.old }
    ensures bound { GotWithin result room }
    ensures size { length buf.new ≡ length buf.old }
    ensures reads { ReadsOn (F.shown files.old) (F.shown files.new) result buf.new }
{
    files.read(&mut buf[..room])
}

/// The whole content of a file, of at most 8,388,608 bytes. It is read by pieces of up to 65,536
/// bytes, through a buffer that is taken once.
pub(crate) fn read_file<F: Files>(
    alloc: Global,
    files: &mut F,
    name: &[u8],
) -> Result<Vec<u8>, Unread>
    ensures short { IfOk result (λ bytes. length bytes.items ≤ file_limit) }
    ensures read { FilesAreTold (F.shown files.old) → IfOk result (λ bytes.
        content_of (F.shown files.old).entries name.now ≡ Some bytes.items) }
    ensures unread { FilesAreTold (F.shown files.old) →
        IfErr result (IsUnread (content_of (F.shown files.old).entries name.now)) }
    ensures shows { IfErr result (ShowsWhy (F.shown files.old) (F.shown files.new)) }
    ensures kept { KeepsFiles (F.shown files.old) (F.shown files.new) }
{
    match files.open(name) {
        Opened::Opened => {}
        Opened::Missing => return Err(Unread::Missing),
        Opened::Failed => return Err(Unread::Failed),
    }
    let mut bytes = Vec::new(alloc);
    let mut piece = vec![in alloc; 0u8; PIECE]?;
    while bytes.len() <= LIMIT {
        let room = (LIMIT + 1 - bytes.len()).min(PIECE);
        match read_front(files, &mut piece, room) {
            Got::Got(count) => bytes.extend_from_slice(&piece[..count])?,
            Got::End => return Ok(bytes),
            Got::Failed => return Err(Unread::Failed),
        }
    }
    Err(Unread::TooLarge)
}
