//! The expressions of a line.

ghost use Rattle.std.specs.Prelude.{◌≡◌, ◌<◌, [], length, true, false, None, IfOk, IfSome, IfNone, IsErrOf, drop};
ghost use Rattle.cf_reference.specs.Words.{words};
ghost use Rattle.cf_reference.specs.Heads.{value_table, found_in, head_of as head_of_word, variable_head as variable_head_of, matrix_head as matrix_head_of, kind_at as kind_of, takes as takes_of, signature};
ghost use Rattle.cf_reference.specs.Trees.{Call};
ghost use Rattle.cf_reference.specs.Grammar.{leaf as leaf_of, atom_of as atom_of_word};
ghost use Rattle.cf_script.specs.Views.{tree_of};
ghost use Rattle.cf_script.specs.Arguments.{IsWord, OfKinds, held, as_arguments, gathered, over, is_few, is_matrix, is_list, is_over, IsArgument, IsCall, SpellsNoArgument, AreReadings, AreGathered, SpellsNoArguments};
ghost use Rattle.cf_script.specs.Readings.{IsReading, IsLeaf, SpellsNone};

use crate::arguments::{Argument, Gathered, Over};
use crate::calls::{few_call, over_call};
use crate::numbers::{natural, number, place};
use crate::trees::{Expr, Exprs, Var};
use crate::words::{after, is_name, next_word};
use cf_ops::{NoMemory, Word1, Word2};
use cf_reference::grammar::{Head, Kind};
use std::alloc::{AllocError, Global};

/// Why nothing was read.
#[derive(Clone, Copy, PartialEq, Eq, Debug)]
pub(crate) enum Fault {
    NoMemory,
    Malformed,
}

impl From<AllocError> for Fault {
    ghost use Rattle.std.specs.Prelude.{◌≡◌};
    ghost use Rattle.cf_script.specs.declared.expressions.Fault.TheVariants.{NoMemory};

    ghost from_gives = { λ _ e. e ≡ NoMemory };

    fn from(_: AllocError) -> Fault {
        Fault::NoMemory
    }
}

/// The expression that a text begins with, and the text behind it. A number that doesn't fit is read as 0.
#[cycle(expressions)]
#[inline(always)]
pub(crate) fn read_expr<'a>(alloc: Global, text: &'a [u8]) -> Result<(Expr<'a>, &'a [u8]), Fault>
    ensures found { IfOk result (λ r. IsReading r.0 (words text.now) (words r.1.now)) }
    ensures shorter { IfOk result (λ r. length r.1.now < length text.now) }
    ensures only { IsErrOf result Fault.Malformed → SpellsNone (words text.now) }
{
    let Some((word, rest)) = next_word(text) else {
        return Err(Fault::Malformed);
    };
    match after(b'(', rest) {
        Some(inside) => match head_of(word) {
            Some(head) => read_call(alloc, head, inside),
            None => Err(Fault::Malformed),
        },
        None => match leaf(word) {
            Some(leaf) => Ok((leaf, rest)),
            None => Err(Fault::Malformed),
        },
    }
}

/// The expression that a word spells by itself.
#[inline(always)]
fn leaf(word: &[u8]) -> Option<Expr<'_>>
    ensures found { IfSome result (λ e. IsLeaf e word.now) }
    ensures none { IfNone result (leaf_of word.now ≡ None) }
{
    if let Some(position) = place(word) {
        Some(Expr::At(position.unwrap_or(0)))
    } else if let Some(value) = number(word) {
        Some(Expr::Num(value.unwrap_or(0)))
    } else if is_name(word) {
        Some(Expr::Named(word))
    } else {
        None
    }
}

/// What a word before `(` calls.
#[inline(always)]
fn head_of(word: &[u8]) -> Option<Head>
    ensures { result ≡ head_of_word word.now }
{
    match value_head(word) {
        Some(head) => Some(head),
        None => variable_head(word),
    }
}

/// What a word before `(` calls, but for those over variables and of matrices.
#[inline(always)]
fn value_head(word: &[u8]) -> Option<Head>
    ensures { result ≡ found_in value_table word.now }
{
    match word {
        b"const" => Some(Head::Const),
        b"not" => Some(Head::One(Word1::Not)),
        b"neg" => Some(Head::One(Word1::Neg)),
        b"and" => Some(Head::Fold(Word2::And)),
        b"or" => Some(Head::Fold(Word2::Or)),
        b"xor" => Some(Head::Fold(Word2::Xor)),
        _ => number_head(word),
    }
}

/// What a word before `(` calls, of those but for the first six.
#[inline(always)]
fn number_head(word: &[u8]) -> Option<Head>
    ensures { result ≡ found_in (drop 6 value_table) word.now }
{
    match word {
        b"plus" => Some(Head::Fold(Word2::Plus)),
        b"minus" => Some(Head::Fold(Word2::Minus)),
        b"times" => Some(Head::Fold(Word2::Times)),
        b"min" => Some(Head::Fold(Word2::Min)),
        b"max" => Some(Head::Fold(Word2::Max)),
        b"eq" => Some(Head::Fold(Word2::Eq)),
        b"lt" => Some(Head::Fold(Word2::Lt)),
        b"ite" => Some(Head::Ite),
        _ => None,
    }
}

/// What a word before `(` calls of those over variables or of matrices.
#[tactic(auto, unfolding(cf_reference::specs::Heads::variable_head))]
fn variable_head(word: &[u8]) -> Option<Head>
    ensures { result ≡ variable_head_of word.now }
{
    if word == b"restrict".as_slice() {
        Some(Head::Restrict)
    } else if word == b"exists".as_slice() {
        Some(Head::Exists)
    } else if word == b"forall".as_slice() {
        Some(Head::Forall)
    } else if word == b"sumout".as_slice() {
        Some(Head::SumOut)
    } else if word == b"compose".as_slice() {
        Some(Head::Compose)
    } else if word == b"andexists".as_slice() {
        Some(Head::AndExists)
    } else {
        matrix_head(word)
    }
}

/// What a word before `(` calls of those of matrices.
#[tactic(auto, unfolding(cf_reference::specs::Heads::matrix_head))]
fn matrix_head(word: &[u8]) -> Option<Head>
    ensures { result ≡ matrix_head_of word.now }
{
    if word == b"kron".as_slice() {
        Some(Head::Kron)
    } else if word == b"matmul".as_slice() {
        Some(Head::Matmul)
    } else if word == b"transpose".as_slice() {
        Some(Head::Transpose)
    } else if word == b"id".as_slice() {
        Some(Head::Id)
    } else if word == b"walsh".as_slice() {
        Some(Head::Walsh)
    } else if word == b"unit".as_slice() {
        Some(Head::Unit)
    } else {
        None
    }
}

/// The kind of the argument at a place.
fn kind_at(head: Head, place: usize) -> Kind
    ensures { result ≡ kind_of head place }
{
    match head {
        Head::Const => match place {
            0 => Kind::Natural,
            1 => Kind::Number,
            _ => Kind::Expression,
        },
        Head::One(_) | Head::Fold(_) | Head::Ite => Kind::Expression,
        Head::Kron | Head::Matmul | Head::Transpose => Kind::Expression,
        Head::Id | Head::Walsh => match place {
            0 => Kind::Natural,
            _ => Kind::Expression,
        },
        Head::Unit => match place {
            0 | 1 | 2 => Kind::Natural,
            _ => Kind::Expression,
        },
        Head::Restrict => match place {
            1 => Kind::Variable,
            2 => Kind::Bit,
            _ => Kind::Expression,
        },
        Head::Compose => match place {
            1 => Kind::Variable,
            _ => Kind::Expression,
        },
        Head::Exists | Head::Forall | Head::SumOut => match place {
            0 => Kind::Expression,
            _ => Kind::Variable,
        },
        Head::AndExists => match place {
            0 | 1 => Kind::Expression,
            _ => Kind::Variable,
        },
    }
}

/// Whether a head takes so many arguments.
fn takes(head: Head, arguments: usize) -> bool
    ensures { result ≡ takes_of head arguments }
{
    match head {
        Head::Fold(Word2::Minus | Word2::Eq | Word2::Lt) => arguments == 2,
        Head::Fold(_) => arguments >= 2,
        Head::One(_) | Head::Transpose | Head::Id | Head::Walsh => arguments == 1,
        Head::Const | Head::Kron | Head::Matmul => arguments == 2,
        Head::Ite | Head::Restrict | Head::Compose | Head::Unit => arguments == 3,
        Head::Exists | Head::Forall | Head::SumOut => arguments >= 2,
        Head::AndExists => arguments >= 3,
    }
}

/// The argument of a kind that a word spells by itself.
fn word_argument(kind: Kind, word: &[u8]) -> Option<Argument<'_>>
    ensures found { IfSome result (λ a. IsWord kind a word.now) }
    ensures none { IfNone result (atom_of_word kind word.now ≡ None) }
{
    match kind {
        Kind::Expression => None,
        Kind::Variable => Some(Argument::Var(variable(word)?)),
        Kind::Natural => match natural(word) {
            Some(n) => Some(Argument::Number(n.unwrap_or(0))),
            None => None,
        },
        Kind::Number => match number(word) {
            Some(n) => Some(Argument::Number(n.unwrap_or(0))),
            None => None,
        },
        Kind::Bit => Some(Argument::Number(bit(word)?)),
    }
}

/// The variable that a word spells.
fn variable(word: &[u8]) -> Option<Var<'_>>
    ensures found { IfSome result (λ v. IsWord Kind.Variable (Argument.Var v) word.now) }
    ensures none { IfNone result (atom_of_word Kind.Variable word.now ≡ None) }
{
    if let Some(position) = place(word) {
        Some(Var::At(position.unwrap_or(0)))
    } else if is_name(word) {
        Some(Var::Named(word))
    } else {
        None
    }
}

/// The bit that a word spells.
fn bit(word: &[u8]) -> Option<i128>
    ensures found { IfSome result (λ n. IsWord Kind.Bit (Argument.Number n) word.now) }
    ensures none { IfNone result (atom_of_word Kind.Bit word.now ≡ None) }
{
    if word == b"0".as_slice() {
        Some(0)
    } else if word == b"1".as_slice() {
        Some(1)
    } else {
        None
    }
}

/// An argument of a kind, and the text behind it.
#[cycle(expressions)]
#[inline(always)]
fn read_argument<'a>(
    alloc: Global,
    kind: Kind,
    text: &'a [u8],
) -> Result<(Argument<'a>, &'a [u8]), Fault>
    ensures found { IfOk result (λ r. IsArgument kind r.0 (words text.now) (words r.1.now)) }
    ensures shorter { IfOk result (λ r. length r.1.now < length text.now) }
    ensures only { IsErrOf result Fault.Malformed → SpellsNoArgument kind (words text.now) }
{
    if kind == Kind::Expression {
        let (e, rest) = read_expr(alloc, text)?;
        return Ok((Argument::Expr(e), rest));
    }
    let Some((word, rest)) = next_word(text) else {
        return Err(Fault::Malformed);
    };
    match word_argument(kind, word) {
        Some(argument) => Ok((argument, rest)),
        None => Err(Fault::Malformed),
    }
}

/// The call of a head, from the text behind its `(`.
#[cycle(expressions)]
#[inline(always)]
fn read_call<'a>(alloc: Global, head: Head, text: &'a [u8]) -> Result<(Expr<'a>, &'a [u8]), Fault>
    ensures found { IfOk result (λ r. IsCall head r.0 (words text.now) (words r.1.now)) }
    ensures shorter { IfOk result (λ r. length r.1.now < length text.now) }
    ensures only { IsErrOf result Fault.Malformed → SpellsNoArguments head (words text.now) }
{
    match head {
        Head::Fold(_) | Head::Ite => read_list(alloc, head, text),
        Head::Exists | Head::Forall | Head::SumOut | Head::AndExists => {
            read_over(alloc, head, text)
        }
        _ => read_few(alloc, head, text),
    }
}

/// The call of a head that keeps no list of its arguments, from the text behind its `(`.
#[cycle(expressions)]
#[inline(never)]
fn read_few<'a>(alloc: Global, head: Head, text: &'a [u8]) -> Result<(Expr<'a>, &'a [u8]), Fault>
    requires { is_few head ≡ true }
    ensures found { IfOk result (λ r. IsCall head r.0 (words text.now) (words r.1.now)) }
    ensures shorter { IfOk result (λ r. length r.1.now < length text.now) }
    ensures only { IsErrOf result Fault.Malformed → SpellsNoArguments head (words text.now) }
{
    let mut args = Gathered::Empty;
    match gather(alloc, head, &mut args, text) {
        Ok(rest) => Ok((few_call(alloc, head, args)?, rest)),
        Err(fault) => {
            drop(args);
            Err(fault)
        }
    }
}

/// The call of a head that keeps a list of its arguments, from the text behind its `(`.
#[cycle(expressions)]
#[inline(never)]
fn read_list<'a>(alloc: Global, head: Head, text: &'a [u8]) -> Result<(Expr<'a>, &'a [u8]), Fault>
    requires { is_list head ≡ true }
    ensures found { IfOk result (λ r. IsCall head r.0 (words text.now) (words r.1.now)) }
    ensures shorter { IfOk result (λ r. length r.1.now < length text.now) }
    ensures only { IsErrOf result Fault.Malformed → SpellsNoArguments head (words text.now) }
{
    let mut es = Exprs::with_capacity(alloc, 2)?;
    match gather_list(alloc, head, &mut es, text) {
        Ok(rest) => Ok((list_call(head, es), rest)),
        Err(fault) => {
            drop(es);
            Err(fault)
        }
    }
}

/// Gathers the arguments of a head that keeps a list of them, where there are none so far.
#[cycle(expressions)]
#[inline(always)]
fn gather_list<'a>(
    alloc: Global,
    head: Head,
    es: &mut Exprs<'a>,
    text: &'a [u8],
) -> Result<&'a [u8], Fault>
    requires none { es.old.items.items ≡ [] }
    requires list { is_list head ≡ true }
    ensures found { IfOk result
        (λ r. AreReadings head (as_arguments es.new.items.items) (words text.now) (words r.now)) }
    ensures shorter { IfOk result (λ r. length r.now < length text.now) }
    ensures only { IsErrOf result Fault.Malformed → SpellsNoArguments head (words text.now) }
{
    let (first, mut end) = read_expr(alloc, text)?;
    es.push(first)?;
    while let Some(more) = after(b',', end) {
        let (e, rest) = read_expr(alloc, more)?;
        es.push(e)?;
        end = rest;
    }
    match after(b')', end) {
        Some(rest) => {
            if takes(head, es.items().len()) {
                Ok(rest)
            } else {
                Err(Fault::Malformed)
            }
        }
        None => Err(Fault::Malformed),
    }
}

/// The call of a head over variables, from the text behind its `(`.
#[cycle(expressions)]
#[inline(never)]
fn read_over<'a>(alloc: Global, head: Head, text: &'a [u8]) -> Result<(Expr<'a>, &'a [u8]), Fault>
    requires { is_over head ≡ true }
    ensures found { IfOk result (λ r. IsCall head r.0 (words text.now) (words r.1.now)) }
    ensures shorter { IfOk result (λ r. length r.1.now < length text.now) }
    ensures only { IsErrOf result Fault.Malformed → SpellsNoArguments head (words text.now) }
{
    let mut args = Over::new(alloc);
    match gather_over(alloc, head, &mut args, text) {
        Ok(rest) => Ok((over_call(alloc, head, args)?, rest)),
        Err(fault) => {
            drop(args);
            Err(fault)
        }
    }
}

/// Gathers the arguments of a head over variables, where there are none so far.
#[cycle(expressions)]
#[inline(always)]
fn gather_over<'a>(
    alloc: Global,
    head: Head,
    args: &mut Over<'a>,
    text: &'a [u8],
) -> Result<&'a [u8], Fault>
    requires none { over args.old ≡ [] }
    requires over { is_over head ≡ true }
    ensures found { IfOk result
        (λ r. AreReadings head (over args.new) (words text.now) (words r.now)) }
    ensures shorter { IfOk result (λ r. length r.now < length text.now) }
    ensures only { IsErrOf result Fault.Malformed → SpellsNoArguments head (words text.now) }
{
    let (first, mut end) = read_argument(alloc, kind_at(head, 0), text)?;
    args.push(first)?;
    while let Some(more) = after(b',', end) {
        let (argument, rest) = read_argument(alloc, kind_at(head, args.len()), more)?;
        args.push(argument)?;
        end = rest;
    }
    match after(b')', end) {
        Some(rest) => {
            if takes(head, args.len()) {
                Ok(rest)
            } else {
                Err(Fault::Malformed)
            }
        }
        None => Err(Fault::Malformed),
    }
}

/// Gathers the arguments of a head that keeps no list of them, where there are none so far.
#[cycle(expressions)]
fn gather<'a>(
    alloc: Global,
    head: Head,
    args: &mut Gathered<'a>,
    text: &'a [u8],
) -> Result<&'a [u8], Fault>
    requires none { gathered args.old ≡ [] }
    requires few { is_few head ≡ true }
    ensures found { IfOk result (λ r. AreGathered head args.new (words text.now) (words r.now)) }
    ensures shorter { IfOk result (λ r. length r.now < length text.now) }
    ensures only { IsErrOf result Fault.Malformed → SpellsNoArguments head (words text.now) }
{
    let (first, mut end) = read_argument(alloc, kind_at(head, 0), text)?;
    args.push(first);
    while let Some(more) = after(b',', end) {
        if args.is_full() {
            return Err(Fault::Malformed);
        }
        let (argument, rest) = read_argument(alloc, kind_at(head, args.len()), more)?;
        args.push(argument);
        end = rest;
    }
    match after(b')', end) {
        Some(rest) => {
            if takes(head, args.len()) {
                Ok(rest)
            } else {
                Err(Fault::Malformed)
            }
        }
        None => Err(Fault::Malformed),
    }
}

/// The call of a head that keeps a list of its arguments.
fn list_call<'a>(head: Head, es: Exprs<'a>) -> Expr<'a>
    requires { is_list head ≡ true }
    ensures { tree_of result ≡ Call head (held (as_arguments es.entry.items.items)) }
{
    match head {
        Head::Fold(word) => Expr::Fold(word, es),
        Head::Ite => Expr::Ite(es),
        _ => unreachable!(),
    }
}
