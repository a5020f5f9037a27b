//! The refusals of lines.

ghost use Rattle.std.specs.Prelude.{◌≡◌, ℕ, List, [], ◌∷◌, ◌++◌, decimal};
ghost use Rattle.cf_reference.specs.Replies.{refusal};
ghost use Rattle.cf_text.specs.Details.{refused_bytes};

use crate::text::Text;
use cf_bits::Bits;

/// What follows the line and the number of a refusal.
#[derive(Clone, Copy, Debug)]
pub enum Detail {
    Nothing,
    /// An assignment.
    At(Bits),
    One(u64),
    Two(u64, u64),
    /// A number, behind which the caller writes a name and a newline.
    Named(u64),
}

/// The refusal of a line, in the place of what the text held. With `Named` it ends with a blank, and the
/// caller writes the name and the newline.
pub fn refused_text(line: u64, number: u8, detail: Detail, text: &mut Text)
    ensures text { text.new ≡ refused_bytes line number detail }
    ensures named { (n : ℕ) (name : List ℕ) → detail ≡ Detail.Named n →
        text.new ++ name ++ 10 ∷ [] ≡ refusal line number (decimal n ∷ name ∷ []) }
{
    text.clear();
    text.add(b"refused ");
    text.add_number(line);
    text.add(b" ");
    text.add_number(number);
    match detail {
        Detail::Nothing => text.add(b"\n"),
        Detail::At(at) => {
            text.add(b" ");
            text.add_bits(at);
            text.add(b"\n");
        }
        Detail::One(n) => {
            text.add(b" ");
            text.add_number(n);
            text.add(b"\n");
        }
        Detail::Two(m, n) => {
            text.add(b" ");
            text.add_number(m);
            text.add(b" ");
            text.add_number(n);
            text.add(b"\n");
        }
        Detail::Named(n) => {
            text.add(b" ");
            text.add_number(n);
            text.add(b" ");
        }
    }
}
