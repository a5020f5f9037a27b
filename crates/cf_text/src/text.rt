//! A text of bounded length.

ghost use Rattle.std.specs.Prelude.{◌≡◌, ℕ, ◌+◌, ◌*◌, ◌≤◌, List, [], ◌++◌, length, take};
ghost use Rattle.cf_model.specs.Assignments.{bits, digits_of};
ghost use Rattle.cf_text.specs.Words.{counts_behind};

use cf_bits::Bits;
use itoa::{Buffer, Integer};
use std::marker::Model;

/// A text of at most 512 bytes.
#[derive(Drop)]
pub struct Text {
    buf: [u8; 512],
    len: usize,
}

impl Model for Text {
    ghost use Rattle.std.specs.Prelude.{ℕ, ◌≤◌, List, take};

    ghost Value = { List ℕ };

    ghost view = { λ t. take t.len t.buf };

    ghost invariant = { λ t. t.len ≤ 512 };
}

impl Text {
    /// A text without bytes.
    pub fn new() -> Text
        ensures { result ≡ [] }
    {
        Text {
            buf: [0; 512],
            len: 0,
        }
    }

    pub(crate) fn clear(&mut self)
        ensures { self.new ≡ [] }
    {
        self.len = 0;
    }

    /// The bytes of the text.
    pub fn bytes(&self) -> &[u8]
        ensures bytes { result.now ≡ self.now }
        ensures most { length result.now ≤ 512 }
    {
        &self.buf[..self.len]
    }

    pub(crate) fn add(&mut self, bytes: &[u8])
        requires { length self.old + length bytes.now ≤ 512 }
        ensures { self.new ≡ self.old ++ bytes.now }
    {
        let end = self.len + bytes.len();
        self.buf[self.len..end].copy_from_slice(bytes);
        self.len = end;
    }

    pub(crate) fn add_number<I: Integer>(&mut self, number: I)
        requires { length self.old + 40 ≤ 512 }
        ensures added { self.new ≡ self.old ++ I.text number }
        ensures short { length self.new ≤ length self.old + 40 }
    {
        let mut buffer = Buffer::new();
        self.add(buffer.format(number).as_bytes());
    }

    pub(crate) fn add_bits(&mut self, at: Bits)
        requires { length self.old + 128 ≤ 512 }
        ensures added { self.new ≡ self.old ++ digits_of (bits at) }
        ensures short { length self.new ≤ length self.old + 128 }
    {
        let mut digits = [0u8; 128];
        let len = at.text(&mut digits);
        self.add(&digits[..len]);
    }

    /// Each number with a blank before it.
    pub(crate) fn add_counts(&mut self, counts: &[u64])
        requires { length self.old + 41 * length counts.now ≤ 512 }
        ensures added { self.new ≡ self.old ++ counts_behind counts.now }
        ensures short { length self.new ≤ length self.old + 41 * length counts.now }
    {
        for &count in counts {
            self.add(b" ");
            self.add_number(count);
        }
    }
}
