//! Labels, told apart by their keys, and their ranks of first appearance.

ghost use Rattle.std.specs.Prelude.{◌≡◌, List, ℕ, All, Some, slice_get, IfOk, IsTrue, MatchOption};
ghost use Rattle.cf_model.specs.Values.{Fits};
ghost use Rattle.cf_model.specs.Renumbering.{AllDiffer, IsCanon, IsNew};
ghost use Rattle.cf_build.specs.Keys.{IsWord, word_key, IsPair, pair_key, IsTriple, triple_key, value_key, IsConnection, connection_key, word_keys_differ, pair_keys_differ, triple_keys_differ, value_keys_differ, connection_keys_differ};

use super::numbering::Numbering;
use cf_table::BConn;
use cf_tuple::NoMemory;
use smallvec::SmallVec;
use std::alloc::Global;

/// What may be assembled: a value whose key tells it from others.
pub trait Label: Copy {
    /// Which values are labels: those whose numbers lie within the bounds of their types.
    ghost is_label: { Self → Type 0 };

    /// The key of a label.
    ghost key_of: { Self → List ℕ };

    /// The key. The value in hand is a label.
    fn key(self) -> [u64; 3]
        ensures label { is_label self }
        ensures key { result ≡ key_of self };

    /// Two labels have the same key only if they are equal.
    ghost apart: { (x y : Self) → is_label x → is_label y → key_of x ≡ key_of y → x ≡ y };
}

impl Label for u64 {
    ghost is_label = { IsWord };

    ghost key_of = { word_key };

    ghost apart = { word_keys_differ };

    fn key(self) -> [u64; 3] {
        [self, 0, 0]
    }
}

impl Label for (u64, u64) {
    ghost is_label = { IsPair };

    ghost key_of = { pair_key };

    ghost apart = { pair_keys_differ };

    fn key(self) -> [u64; 3] {
        [self.0, self.1, 0]
    }
}

impl Label for (u64, u64, u64) {
    ghost is_label = { IsTriple };

    ghost key_of = { triple_key };

    ghost apart = { triple_keys_differ };

    fn key(self) -> [u64; 3] {
        [self.0, self.1, self.2]
    }
}

impl Label for i128 {
    ghost is_label = { Fits };

    ghost key_of = { value_key };

    ghost apart = { value_keys_differ };

    fn key(self) -> [u64; 3] {
        let bits = self.cast_unsigned();
        [
            (bits >> 64) as u64,
            (bits & 0xffff_ffff_ffff_ffff) as u64,
            0,
        ]
    }
}

impl Label for BConn {
    ghost is_label = { IsConnection };

    ghost key_of = { connection_key };

    ghost apart = { connection_keys_differ };

    fn key(self) -> [u64; 3] {
        [self.to.level as u64, self.to.at, self.ret.at]
    }
}

/// So many labels at most are searched plainly, and more by hashing.
pub(crate) const FEW: usize = 16;

/// The place of a label, found by comparing keys.
pub(crate) fn place_of<T: Label>(labels: &[T], label: T) -> Option<usize>
    ensures label { T.is_label label }
    ensures place { MatchOption result (IsNew labels.now label) (λ i. slice_get labels.now i ≡ Some label) }
{
    let key = label.key();
    for i in 0..labels.len() {
        if labels[i].key() == key {
            return Some(i);
        }
    }
    None
}

/// Whether the list is short and its labels all differ.
pub(crate) fn are_few_and_differ<T: Label>(labels: &[T]) -> bool
    ensures { IsTrue result → AllDiffer labels.now }
{
    if labels.len() > FEW {
        return false;
    }
    for i in 0..labels.len() {
        if let Some(_) = place_of(&labels[..i], labels[i]) {
            return false;
        }
    }
    true
}

/// The rank of first appearance of each label, and the different labels in that order, each of
/// which is a label.
pub fn canon_of<T: Label>(
    alloc: Global,
    labels: &[T],
) -> Result<(SmallVec<u64, 8>, Vec<T>), NoMemory>
    ensures canon { IfOk result (λ r. IsCanon labels.now r.0.items r.1.items) }
    ensures labels { IfOk result (λ r. All T.is_label r.1.items) }
{
    let mut numbering = Numbering::new(alloc, labels.len())?;
    numbering.read(labels)?;
    let Numbering {
        ranks,
        different,
        keys: _,
    } = numbering;
    Ok((ranks, different))
}
