//! Circuit files one behind the other, each below its title.

ghost use Rattle.std.specs.Prelude.{◌<◌, ◌≤◌, length, IfSome};

use memchr::{memchr, memmem};
use std::str;

/// What stands before a title.
const MARK: &[u8] = b"== ";

/// The end of a file, and what stands before the next title.
const NEXT_MARK: &[u8] = b"\n== ";

/// A circuit file and its title.
#[derive(Clone, Copy)]
pub struct Case<'a> {
    pub title: &'a str,
    pub text: &'a [u8],
}

/// The first case, and the bytes behind it.
pub fn next_case(bytes: &[u8]) -> Option<(Case<'_>, &[u8])>
    ensures shorter { IfSome result (λ r. length r.1.now < length bytes.now) }
{
    if bytes.is_empty() {
        return None;
    }
    if !bytes.starts_with(MARK) {
        let case = Case {
            title: "file",
            text: bytes,
        };
        return Some((case, &bytes[bytes.len()..]));
    }
    let (head, behind) = bytes.split_at(line_end(bytes));
    let (file, later) = behind.split_at(file_end(behind));
    let case = Case {
        title: title_of(head),
        text: &file[file.len().min(1)..],
    };
    Some((case, &later[later.len().min(1)..]))
}

/// What stands behind the mark.
fn title_of(head: &[u8]) -> &str {
    str::from_utf8(&head[MARK.len().min(head.len())..]).unwrap_or("?")
}

/// The place of the first newline, or the length.
fn line_end(bytes: &[u8]) -> usize
    ensures { result ≤ length bytes.now }
{
    memchr(b'\n', bytes).unwrap_or(bytes.len())
}

/// The place of the newline before the next title, or the length.
fn file_end(bytes: &[u8]) -> usize
    ensures { result ≤ length bytes.now }
{
    memmem::find(bytes, NEXT_MARK).unwrap_or(bytes.len())
}
