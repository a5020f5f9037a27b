//! The pieces of a text, which are cut at blanks alone.

ghost use Rattle.std.specs.Prelude.{◌≡◌, ◌<◌, ◌≤◌, ℕ, false, List, [], ◌∷◌, length, take, drop, get_or, position, IfSome, IfNone};
ghost use Rattle.cf_reference.specs.Words.{is_blank as is_blank_byte, pieces};

use crate::words::{first_visible, is_blank};

/// The two pieces of a text.
pub(crate) fn two_pieces(text: &[u8]) -> Option<(&[u8], &[u8])>
    ensures found { IfSome result (λ r. pieces text.now ≡ r.0.now ∷ r.1.now ∷ []) }
    ensures none { IfNone result ((a : List ℕ) → (b : List ℕ) → pieces text.now ≡ a ∷ b ∷ [] → ⊥) }
{
    let (first, rest) = next_piece(text)?;
    Some((first, one_piece(rest)?))
}

/// The only piece of a text.
fn one_piece(text: &[u8]) -> Option<&[u8]>
    ensures found { IfSome result (λ r. pieces text.now ≡ r.now ∷ []) }
    ensures none { IfNone result ((a : List ℕ) → pieces text.now ≡ a ∷ [] → ⊥) }
{
    let (piece, rest) = next_piece(text)?;
    match next_piece(rest) {
        Some(_) => None,
        None => Some(piece),
    }
}

/// The first piece of a text, and the text behind it.
fn next_piece(text: &[u8]) -> Option<(&[u8], &[u8])>
    ensures found { IfSome result (λ r. pieces text.now ≡ r.0.now ∷ pieces r.1.now) }
    ensures none { IfNone result (pieces text.now ≡ []) }
{
    let text = from_piece(text)?;
    Some(text.split_at(piece_length(text)))
}

/// The text from its first piece on.
fn from_piece(text: &[u8]) -> Option<&[u8]>
    ensures same { IfSome result (λ r. pieces text.now ≡ pieces r.now) }
    ensures begins { IfSome result (λ r. is_blank_byte (get_or r.now 0 0) ≡ false) }
    ensures some { IfSome result (λ r. 0 < length r.now) }
    ensures none { IfNone result (pieces text.now ≡ []) }
{
    match first_visible(text) {
        Some(start) => Some(&text[start..]),
        None => None,
    }
}

/// The length of the piece that a text begins with.
fn piece_length(text: &[u8]) -> usize
    requires some { 0 < length text.now }
    requires begins { is_blank_byte (get_or text.now 0 0) ≡ false }
    ensures piece { pieces text.now ≡ take result text.now ∷ pieces (drop result text.now) }
    ensures within { result ≤ length text.now }
{
    match first_blank(text) {
        Some(end) => end,
        None => text.len(),
    }
}

fn first_blank(text: &[u8]) -> Option<usize>
    ensures place { result ≡ position is_blank_byte text.now }
    ensures within { IfSome result (λ place. place < length text.now) }
{
    text.iter().position(|b| is_blank(*b))
}
