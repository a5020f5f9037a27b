//! Why a line is faulty.

ghost use Rattle.std.specs.Prelude.{◌≡◌, ◌<◌, ◌-◌, ℕ, map, length, IfOk};
ghost use Rattle.std.specs.List.{list_all};
ghost use Rattle.cf_circuits.specs.Causes.{covers as covers_words, is_cell, is_output as output_word, within as within_model, model_cause as model_cause_of, gate_cause as gate_cause_of};
ghost use Rattle.cf_blif.specs.Readers.{cause_in, cover_cause_in, is_open, same_first as same_output};

use crate::pairs::is_called;
use crate::reader::{OpenGate, Reader};
use crate::slices::{arguments, first, last};
use cf_circuits::NoMemory;
use cf_circuits::faults::BlifWhy;
use cf_circuits::kinds::Kind;
use cf_names::NameBook;
use std::alloc::Global;

/// The cause of a line behind those that were read, if it is faulty.
pub(crate) fn cause(
    alloc: Global,
    reader: &Reader,
    kind: Kind,
    words: &[&[u8]],
) -> Result<Option<BlifWhy>, NoMemory>
    ensures { IfOk result (λ r. r ≡ cause_in reader.now kind (map (λ w. w.now) words.now)) }
{
    match kind {
        Kind::Cover => Ok(cover_cause(&reader.gate, words)),
        Kind::Model => Ok(model_cause(&reader.names, arguments(words))),
        Kind::Inputs => Ok(within(reader, None)),
        Kind::Outputs => Ok(within(reader, None)),
        Kind::Gate => Ok(within(reader, gate_cause(arguments(words)))),
        Kind::Call => {
            if is_called(alloc, arguments(words))? {
                Ok(within(reader, None))
            } else {
                Ok(within(reader, Some(BlifWhy::NotBlif)))
            }
        }
        Kind::End => {
            if arguments(words).is_empty() {
                Ok(within(reader, None))
            } else {
                Ok(within(reader, Some(BlifWhy::NotBlif)))
            }
        }
        Kind::Ignored => Ok(None),
        Kind::Unknown => Ok(Some(BlifWhy::Unsupported)),
    }
}

/// The cause of a line that has to stand inside a model.
fn within(reader: &Reader, cause: Option<BlifWhy>) -> Option<BlifWhy>
    ensures { result ≡ within_model (is_open reader.now) cause }
{
    match &reader.current {
        Some(_) => cause,
        None => Some(BlifWhy::NotBlif),
    }
}

fn model_cause(names: &NameBook, words: &[&[u8]]) -> Option<BlifWhy>
    ensures { result ≡ model_cause_of names.now (map (λ w. w.now) words.now) }
{
    if words.len() != 1 {
        Some(BlifWhy::NotBlif)
    } else if names.find(first(words)).is_some() {
        Some(BlifWhy::TwoModelsOneName)
    } else {
        None
    }
}

fn gate_cause(words: &[&[u8]]) -> Option<BlifWhy>
    ensures { result ≡ gate_cause_of (map (λ w. w.now) words.now) }
{
    if words.is_empty() {
        Some(BlifWhy::NoOutput)
    } else if words.len() >= 258 {
        Some(BlifWhy::WideGate)
    } else {
        None
    }
}

fn cover_cause(gate: &Option<OpenGate>, words: &[&[u8]]) -> Option<BlifWhy>
    ensures { result ≡ cover_cause_in gate.now (map (λ w. w.now) words.now) }
{
    match gate {
        None => Some(BlifWhy::NotBlif),
        Some(gate) => {
            if !covers(gate.ins.items().len(), words) {
                Some(BlifWhy::BadCover)
            } else if !same_first(gate.first, words) {
                Some(BlifWhy::MixedCover)
            } else {
                None
            }
        }
    }
}

/// Whether words are a cover line of a gate with so many inputs.
fn covers(inputs: usize, words: &[&[u8]]) -> bool
    ensures { result ≡ covers_words inputs (map (λ w. w.now) words.now) }
{
    match words {
        [] => false,
        [out] => inputs == 0 && is_output(out),
        [cells, out] => {
            inputs >= 1 && (cells.len() == inputs && (are_cells(cells) && is_output(out)))
        }
        [_, _, _, ..] => false,
    }
}

fn are_cells(word: &[u8]) -> bool
    ensures { result ≡ list_all is_cell word.now }
{
    word.iter()
        .all(|b| *b == b'0' || (*b == b'1' || *b == b'-'))
}

fn is_output(word: &[u8]) -> bool
    ensures { result ≡ output_word word.now }
{
    word == b"0".as_slice() || word == b"1".as_slice()
}

/// Whether a cover line has the output of its gate's first one.
fn same_first(first: Option<bool>, words: &[&[u8]]) -> bool
    ensures { result ≡ same_output first (map (λ w. w.now) words.now) }
{
    match first {
        None => true,
        Some(true) => b"1".as_slice() == last(words),
        Some(false) => b"0".as_slice() == last(words),
    }
}
