//! The words of a line.

ghost use Rattle.std.specs.Prelude.{◌≡◌, ◌<◌, ◌≤◌, ◌==◌, false, not, true, List, [], ◌∷◌, length, take, drop, get_or, slice_index, position, IfSome, IfNone, ◌||◌, ℕ};
ghost use Rattle.std.specs.List.{list_all};
ghost use Rattle.cf_reference.specs.Words.{before_comment as before_comment_of, words, is_blank as is_blank_byte, is_sign as is_sign_byte, runs as runs_byte, begins_name as begins_name_byte, continues_name as continues_name_byte, is_name as is_name_word, is_bits as is_bits_word, behind_word};

use memchr::memchr;

/// The part of a line before its first `#`.
pub(crate) fn before_comment(line: &[u8]) -> &[u8]
    ensures { result.now ≡ before_comment_of line.now }
{
    match memchr(b'#', line) {
        Some(end) => &line[..end],
        None => line,
    }
}

pub(crate) fn is_blank(b: u8) -> bool
    ensures { result ≡ is_blank_byte b }
{
    if b > b' ' {
        false
    } else {
        b == b' ' || (b == b'\t' || b == b'\r')
    }
}

fn is_sign(b: u8) -> bool
    ensures { result ≡ is_sign_byte b }
{
    b == b'(' || (b == b')' || (b == b',' || b == b'='))
}

/// Whether a byte is one of a run. Above the comma only the equals sign is none.
fn runs(b: u8) -> bool
    ensures { result ≡ runs_byte b }
{
    if b > b',' {
        b != b'='
    } else {
        !(is_blank(b) || is_sign(b))
    }
}

/// The first word of a text, and the text behind it.
pub(crate) fn next_word(text: &[u8]) -> Option<(&[u8], &[u8])>
    ensures found { IfSome result (λ r. words text.now ≡ r.0.now ∷ words r.1.now) }
    ensures behind { IfSome result (λ r. behind_word text.now ≡ r.1.now) }
    ensures none { IfNone result (words text.now ≡ []) }
    ensures shorter { IfSome result (λ r. length r.1.now < length text.now) }
{
    let text = skip_blanks(text)?;
    Some(text.split_at(word_length(text)))
}

/// The text from its first byte that is no blank. Mostly that is its first byte.
fn skip_blanks(text: &[u8]) -> Option<&[u8]>
    ensures same { IfSome result (λ r. words text.now ≡ words r.now) }
    ensures behind { IfSome result (λ r. behind_word text.now ≡ behind_word r.now) }
    ensures begins { IfSome result (λ r. is_blank_byte (get_or r.now 0 0) ≡ false) }
    ensures some { IfSome result (λ r. 0 < length r.now) }
    ensures shorter { IfSome result (λ r. length r.now ≤ length text.now) }
    ensures none { IfNone result (words text.now ≡ []) }
{
    if !text.is_empty() && !is_blank(text[0]) {
        return Some(text);
    }
    from_visible(text)
}

#[inline(never)]
fn from_visible(text: &[u8]) -> Option<&[u8]>
    ensures same { IfSome result (λ r. words text.now ≡ words r.now) }
    ensures behind { IfSome result (λ r. behind_word text.now ≡ behind_word r.now) }
    ensures begins { IfSome result (λ r. is_blank_byte (get_or r.now 0 0) ≡ false) }
    ensures some { IfSome result (λ r. 0 < length r.now) }
    ensures shorter { IfSome result (λ r. length r.now ≤ length text.now) }
    ensures none { IfNone result (words text.now ≡ []) }
{
    match first_visible(text) {
        Some(start) => Some(&text[start..]),
        None => None,
    }
}

/// The place of the first byte that is no blank.
pub(crate) fn first_visible(text: &[u8]) -> Option<usize>
    ensures place { result ≡ position (λ b. not (is_blank_byte b)) text.now }
    ensures within { IfSome result (λ place. place < length text.now) }
{
    text.iter().position(|b| !is_blank(*b))
}

/// The length of the word that a text begins with.
fn word_length(text: &[u8]) -> usize
    requires some { 0 < length text.now }
    requires begins { is_blank_byte (get_or text.now 0 0) ≡ false }
    ensures word { words text.now ≡ take result text.now ∷ words (drop result text.now) }
    ensures behind { behind_word text.now ≡ drop result text.now }
    ensures some { 0 < result }
    ensures within { result ≤ length text.now }
{
    if is_sign(text[0]) {
        return 1;
    }
    match run_end(&text[1..]) {
        Some(end) => end + 1,
        None => text.len(),
    }
}

/// The place of the last byte that is none of a run, among the first 38.
pub(crate) fn early_break(text: &[u8]) -> Option<usize>
    requires { 38 < length text.now }
    ensures within { IfSome result (λ place. place < 38) }
    ensures ends { IfSome result (λ place. runs_byte (slice_index text.now place) ≡ false) }
{
    last_break(&text[..38])
}

/// The place of the last byte that is none of a run.
fn last_break(text: &[u8]) -> Option<usize>
    ensures within { IfSome result (λ place. place < length text.now) }
    ensures ends { IfSome result (λ place. runs_byte (slice_index text.now place) ≡ false) }
{
    text.iter().rposition(|b| !runs(*b))
}

fn run_end(text: &[u8]) -> Option<usize>
    ensures place { result ≡ position (λ b. not (runs_byte b)) text.now }
    ensures within { IfSome result (λ place. place < length text.now) }
{
    text.iter().position(|b| !runs(*b))
}

/// The bytes behind a byte, if it comes first.
pub(crate) fn behind(first: u8, word: &[u8]) -> Option<&[u8]>
    ensures found { IfSome result (λ r. word.now ≡ first ∷ r.now) }
    ensures none { IfNone result ((rest : List ℕ) → word.now ≡ first ∷ rest → ⊥) }
{
    match word.split_first() {
        Some((b, rest)) => { if *b == first { Some(rest) } else { None } }
        None => None,
    }
}

/// The text behind a sign, if it is the first word.
pub(crate) fn after(sign: u8, text: &[u8]) -> Option<&[u8]>
    requires visible { is_blank_byte sign ≡ false }
    requires sign { is_sign_byte sign ≡ true }
    ensures found { IfSome result (λ r. words text.now ≡ (sign ∷ []) ∷ words r.now) }
    ensures none { IfNone result ((rest : List (List ℕ)) → words text.now ≡ (sign ∷ []) ∷ rest → ⊥) }
    ensures shorter { IfSome result (λ r. length r.now < length text.now) }
{
    match skip_blanks(text) {
        Some(text) => behind(sign, text),
        None => None,
    }
}

fn begins_name(b: u8) -> bool
    ensures { result ≡ begins_name_byte b }
{
    b.is_ascii_alphabetic() || b == b'_'
}

/// Whether a byte can stand in a name behind its first one. Of those above the comma each below 127 can, but for the
/// equals sign and the at sign.
fn continues_name(b: u8) -> bool
    ensures { result ≡ continues_name_byte b }
{
    if b > b',' {
        b < 127 && b != b'=' && b != b'@'
    } else {
        b.is_ascii_graphic() && !(is_sign(b) || (b == b'#' || b == b'@'))
    }
}

/// Whether a word is a name.
#[tactic(auto, unfolding(cf_reference::specs::Words::is_name))]
pub(crate) fn is_name(word: &[u8]) -> bool
    ensures { result ≡ is_name_word word.now }
{
    match word.split_first() {
        Some((first, rest)) => begins_name(*first) && all_continue(rest),
        None => false,
    }
}

fn all_continue(rest: &[u8]) -> bool
    ensures { result ≡ list_all continues_name_byte rest.now }
{
    rest.iter().all(|b| continues_name(*b))
}

/// Whether a word is one digit or more, each 0 or 1.
#[tactic(auto, unfolding(cf_reference::specs::Words::is_bits))]
pub(crate) fn is_bits(word: &[u8]) -> bool
    ensures { result ≡ is_bits_word word.now }
{
    !word.is_empty() && are_binary(word)
}

fn are_binary(word: &[u8]) -> bool
    ensures { result ≡ list_all (λ b. b == 48 || b == 49) word.now }
{
    word.iter().all(|b| *b == b'0' || *b == b'1')
}
