//! The statements of a line.

ghost use Rattle.std.specs.Prelude.{◌≡◌, ◌<◌, ◌≤◌, ◌==◌, ℕ, List, [], ◌∷◌, length, count_by, IfOk, IfSome, IfNone, IsErrOf, IsTrue, ◌↔◌};
ghost use Rattle.cf_reference.specs.declared.grammar.Keyword.{Keyword};
ghost use Rattle.cf_reference.specs.Words.{words, words_of_line};
ghost use Rattle.cf_reference.specs.Trees.{Formed};
ghost use Rattle.cf_reference.specs.Grammar.{keyword_of as keyword_of_word};
ghost use Rattle.cf_reference.specs.LineRefusals.{IsDeep, Parses, Good, TooDeep, Malformed, WideNumber};
ghost use Rattle.cf_script.specs.Views.{statement_of};
ghost use Rattle.cf_script.specs.Answers.{Answers, any_wide, is_wide as is_wide_word, takes_memory, SpellsName};

use crate::expressions::{Fault, read_expr};
use crate::faults::ScriptFault;
use crate::numbers::{natural, number, place};
use crate::pieces::two_pieces;
use crate::trees::{NameSlices, Statement};
use crate::words::{after, before_comment, early_break, is_bits, is_name, next_word};
use cf_reference::grammar::Keyword;
use std::alloc::Global;

/// The statement that a line spells, or why there is none. A line with more than 64 parentheses open at once is too deep,
/// whatever else is wrong with it, and a line that isn't of the grammar is malformed, also where a number doesn't fit.
/// Only a line that begins with `var` or `let` takes memory.
pub fn parse_line<'a>(alloc: Global, line: &'a [u8]) -> Result<Statement<'a>, ScriptFault>
    ensures spelled { IfOk result (λ s. Parses line.now (Good (statement_of s))) }
    ensures formed { IfOk result (λ s. Formed (statement_of s)) }
    ensures deep { IsErrOf result ScriptFault.TooDeep → Parses line.now TooDeep }
    ensures malformed { IsErrOf result ScriptFault.Malformed → Parses line.now Malformed }
    ensures wide { IsErrOf result ScriptFault.WideNumber → Parses line.now WideNumber }
    ensures memory { IsErrOf result ScriptFault.NoMemory → IsTrue (takes_memory (words_of_line line.now)) }
{
    let text = before_comment(line);
    if is_deep(text) {
        return Err(ScriptFault::TooDeep);
    }
    match next_word(text) {
        Some((word, rest)) => match keyword_of(word) {
            Some(keyword) => read_statement(alloc, keyword, rest),
            None => Err(ScriptFault::Malformed),
        },
        None => Ok(Statement::Empty),
    }
}

/// Whether more than 64 parentheses are open at once.
fn is_deep(text: &[u8]) -> bool
    ensures { IsTrue result ↔ IsDeep text.now }
{
    if text.len() <= 64 {
        return false;
    }
    if stays_shallow(text) {
        return false;
    }
    has_deep_front(text)
}

/// Whether no block opens so many parentheses that it could be too deep, whatever it closes.
fn stays_shallow(text: &[u8]) -> bool
    ensures { IsTrue result → IsDeep text.now → ⊥ }
{
    let mut opened = 0usize;
    let mut closed = 0usize;
    let mut rest = text;
    while !rest.is_empty() {
        let (block, more) = rest.split_at(rest.len().min(128));
        opened += usize::from(count(b'(', block));
        if opened > 64 + closed {
            return false;
        }
        closed += usize::from(count(b')', block));
        rest = more;
    }
    true
}

/// How often a byte stands in a block.
fn count(sign: u8, block: &[u8]) -> u8
    requires { length block.now ≤ 128 }
    ensures { result ≡ count_by (λ b. b == sign) block.now }
{
    let mut found = 0u8;
    for b in block {
        if *b == sign {
            found += 1;
        }
    }
    found
}

/// Whether some front of a text opens more than 64 parentheses that it doesn't close.
fn has_deep_front(text: &[u8]) -> bool
    ensures { IsTrue result ↔ IsDeep text.now }
{
    let mut opened = 0usize;
    let mut closed = 0usize;
    for b in text {
        if *b <= b')' {
            if *b == b'(' {
                opened += 1;
                if opened > 64 + closed {
                    return true;
                }
            } else if *b == b')' {
                closed += 1;
            }
        }
    }
    false
}

/// What the first word of a line says.
#[tactic(auto, unfolding(cf_reference::specs::Grammar::keyword_of))]
fn keyword_of(word: &[u8]) -> Option<Keyword>
    ensures { result ≡ keyword_of_word word.now }
{
    match word {
        b"level" => Some(Keyword::Level),
        b"var" => Some(Keyword::Var),
        b"let" => Some(Keyword::Let),
        b"load" => Some(Keyword::Load),
        b"value" => Some(Keyword::Value),
        b"first" => Some(Keyword::First),
        b"list" => Some(Keyword::List),
        b"entry" => Some(Keyword::Entry),
        b"equal" => Some(Keyword::Equal),
        b"size" => Some(Keyword::Size),
        b"stats" => Some(Keyword::Stats),
        _ => None,
    }
}

/// The statement of a keyword, from the text behind it.
fn read_statement<'a>(
    alloc: Global,
    keyword: Keyword,
    text: &'a [u8],
) -> Result<Statement<'a>, ScriptFault>
    ensures { Answers keyword text.now (words text.now) result }
{
    match keyword {
        Keyword::Level => read_level(text),
        Keyword::Var => read_vars(alloc, text),
        Keyword::Let => read_let(alloc, text),
        Keyword::Load => read_load(text),
        Keyword::Value => read_value(text),
        Keyword::First => read_first(text),
        Keyword::List => read_list(text),
        Keyword::Entry => read_entry(text),
        Keyword::Equal => read_equal(text),
        Keyword::Size => read_size(text),
        Keyword::Stats => read_stats(text),
    }
}

/// The only word of a text.
fn one_word(text: &[u8]) -> Option<&[u8]>
    ensures found { IfSome result (λ r. words text.now ≡ r.now ∷ []) }
    ensures none { IfNone result ((a : List ℕ) → words text.now ≡ a ∷ [] → ⊥) }
{
    let (word, rest) = next_word(text)?;
    match next_word(rest) {
        Some(_) => None,
        None => Some(word),
    }
}

/// The two words of a text.
fn two_words(text: &[u8]) -> Option<(&[u8], &[u8])>
    ensures found { IfSome result (λ r. words text.now ≡ r.0.now ∷ r.1.now ∷ []) }
    ensures none { IfNone result ((a : List ℕ) → (b : List ℕ) → words text.now ≡ a ∷ b ∷ [] → ⊥) }
{
    let (word, rest) = next_word(text)?;
    Some((word, one_word(rest)?))
}

/// The three words of a text.
fn three_words(text: &[u8]) -> Option<(&[u8], &[u8], &[u8])>
    ensures found { IfSome result (λ r. words text.now ≡ r.0.now ∷ r.1.now ∷ r.2.now ∷ []) }
    ensures none { IfNone result ((a : List ℕ) → (b : List ℕ) → (c : List ℕ) → words text.now ≡ a ∷ b ∷ c ∷ [] → ⊥) }
{
    let (word, rest) = next_word(text)?;
    let (second, third) = two_words(rest)?;
    Some((word, second, third))
}

/// `level K`
fn read_level(text: &[u8]) -> Result<Statement<'_>, ScriptFault>
    ensures { Answers Keyword.Level text.now (words text.now) result }
{
    let Some(word) = one_word(text) else {
        return Err(ScriptFault::Malformed);
    };
    match natural(word) {
        Some(Some(level)) => Ok(Statement::Level(level)),
        Some(None) => Err(ScriptFault::WideNumber),
        None => Err(ScriptFault::Malformed),
    }
}

/// `var NAME ..`
fn read_vars<'a>(alloc: Global, text: &'a [u8]) -> Result<Statement<'a>, ScriptFault>
    ensures { Answers Keyword.Var text.now (words text.now) result }
{
    let mut names = NameSlices::new(alloc);
    let mut rest = text;
    while let Some((name, more)) = next_word(rest) {
        if !is_name(name) {
            return Err(ScriptFault::Malformed);
        }
        names.push(name)?;
        rest = more;
    }
    if names.items().is_empty() {
        return Err(ScriptFault::Malformed);
    }
    Ok(Statement::Vars(names))
}

/// Whether a text has no words.
fn has_ended(text: &[u8]) -> bool
    ensures { IsTrue result ↔ words text.now ≡ [] }
{
    next_word(text).is_none()
}

/// The name before `=`, and the text behind it.
fn let_name(text: &[u8]) -> Option<(&[u8], &[u8])>
    ensures found { IfSome result (λ r. SpellsName r.0.now (words text.now) (words r.1.now)) }
    ensures none { IfNone result ((name : List ℕ) → (rest : List (List ℕ)) → SpellsName name (words text.now) rest → ⊥) }
{
    let (name, rest) = next_word(text)?;
    let rest = after(b'=', rest)?;
    if is_name(name) {
        Some((name, rest))
    } else {
        None
    }
}

/// `let NAME = EXPR`
fn read_let<'a>(alloc: Global, text: &'a [u8]) -> Result<Statement<'a>, ScriptFault>
    ensures { Answers Keyword.Let text.now (words text.now) result }
{
    let Some((name, text)) = let_name(text) else {
        return Err(ScriptFault::Malformed);
    };
    match read_expr(alloc, text) {
        Ok((e, rest)) => {
            if !has_ended(rest) {
                drop(e);
                Err(ScriptFault::Malformed)
            } else if has_wide_number(text) {
                drop(e);
                Err(ScriptFault::WideNumber)
            } else {
                Ok(Statement::Let(name, e))
            }
        }
        Err(Fault::NoMemory) => Err(ScriptFault::NoMemory),
        Err(Fault::Malformed) => Err(ScriptFault::Malformed),
    }
}

/// Whether a word is a number that doesn't fit, or a position that doesn't. Any 38 digits fit.
fn is_wide(word: &[u8]) -> bool
    ensures { result ≡ is_wide_word word.now }
{
    if word.len() <= 38 {
        return false;
    }
    number(word) == Some(None) || place(word) == Some(None)
}

/// The text behind the last break among the first 38 bytes. The words before it are short, so
/// their numbers fit.
fn behind_break(text: &[u8]) -> Option<&[u8]>
    requires { 38 < length text.now }
    ensures narrow { IfSome result (λ r. any_wide (words text.now) ≡ any_wide (words r.now)) }
    ensures shorter { IfSome result (λ r. length r.now < length text.now) }
{
    match early_break(text) {
        Some(end) => Some(&text[end + 1..]),
        None => None,
    }
}

/// Whether a text has a number that doesn't fit.
fn has_wide_number(text: &[u8]) -> bool
    ensures { result ≡ any_wide (words text.now) }
{
    let mut rest = text;
    while rest.len() > 38 {
        if let Some(behind) = behind_break(rest) {
            rest = behind;
        } else {
            let Some((word, more)) = next_word(rest) else {
                return false;
            };
            if is_wide(word) {
                return true;
            }
            rest = more;
        }
    }
    false
}

/// `load PREFIX FILE`
fn read_load(text: &[u8]) -> Result<Statement<'_>, ScriptFault>
    ensures { Answers Keyword.Load text.now (words text.now) result }
{
    match two_pieces(text) {
        Some((prefix, file)) => {
            if is_name(prefix) {
                Ok(Statement::Load(prefix, file))
            } else {
                Err(ScriptFault::Malformed)
            }
        }
        None => Err(ScriptFault::Malformed),
    }
}

/// `value NAME BITS`
fn read_value(text: &[u8]) -> Result<Statement<'_>, ScriptFault>
    ensures { Answers Keyword.Value text.now (words text.now) result }
{
    match two_words(text) {
        Some((name, bits)) => {
            if is_name(name) && is_bits(bits) {
                Ok(Statement::Value(name, bits))
            } else {
                Err(ScriptFault::Malformed)
            }
        }
        None => Err(ScriptFault::Malformed),
    }
}

/// `first NAME NUMBER`
fn read_first(text: &[u8]) -> Result<Statement<'_>, ScriptFault>
    ensures { Answers Keyword.First text.now (words text.now) result }
{
    let Some((name, value)) = two_words(text) else {
        return Err(ScriptFault::Malformed);
    };
    if !is_name(name) {
        return Err(ScriptFault::Malformed);
    }
    match number(value) {
        Some(Some(value)) => Ok(Statement::First(name, value)),
        Some(None) => Err(ScriptFault::WideNumber),
        None => Err(ScriptFault::Malformed),
    }
}

/// `list NAME NUMBER MAX`
fn read_list(text: &[u8]) -> Result<Statement<'_>, ScriptFault>
    ensures { Answers Keyword.List text.now (words text.now) result }
{
    let Some((name, value, most)) = three_words(text) else {
        return Err(ScriptFault::Malformed);
    };
    if !is_name(name) {
        return Err(ScriptFault::Malformed);
    }
    let Some(value) = number(value) else {
        return Err(ScriptFault::Malformed);
    };
    let Some(most) = natural(most) else {
        return Err(ScriptFault::Malformed);
    };
    match value.zip(most) {
        Some((value, most)) => Ok(Statement::List(name, value, most)),
        None => Err(ScriptFault::WideNumber),
    }
}

/// `entry NAME ROW COL`
fn read_entry(text: &[u8]) -> Result<Statement<'_>, ScriptFault>
    ensures { Answers Keyword.Entry text.now (words text.now) result }
{
    let Some((name, row, column)) = three_words(text) else {
        return Err(ScriptFault::Malformed);
    };
    if !is_name(name) {
        return Err(ScriptFault::Malformed);
    }
    let Some(row) = natural(row) else {
        return Err(ScriptFault::Malformed);
    };
    let Some(column) = natural(column) else {
        return Err(ScriptFault::Malformed);
    };
    match row.zip(column) {
        Some((row, column)) => Ok(Statement::Entry(name, row, column)),
        None => Err(ScriptFault::WideNumber),
    }
}

/// `equal NAME NAME`
fn read_equal(text: &[u8]) -> Result<Statement<'_>, ScriptFault>
    ensures { Answers Keyword.Equal text.now (words text.now) result }
{
    match two_words(text) {
        Some((name, other)) => {
            if is_name(name) && is_name(other) {
                Ok(Statement::Equal(name, other))
            } else {
                Err(ScriptFault::Malformed)
            }
        }
        None => Err(ScriptFault::Malformed),
    }
}

/// `size NAME`
fn read_size(text: &[u8]) -> Result<Statement<'_>, ScriptFault>
    ensures { Answers Keyword.Size text.now (words text.now) result }
{
    match one_word(text) {
        Some(name) => {
            if is_name(name) {
                Ok(Statement::Size(name))
            } else {
                Err(ScriptFault::Malformed)
            }
        }
        None => Err(ScriptFault::Malformed),
    }
}

/// `stats`
fn read_stats(text: &[u8]) -> Result<Statement<'_>, ScriptFault>
    ensures { Answers Keyword.Stats text.now (words text.now) result }
{
    match next_word(text) {
        Some(_) => Err(ScriptFault::Malformed),
        None => Ok(Statement::Stats),
    }
}
