//! The products that were made within one call, so that none is made twice.

ghost use Rattle.std.specs.Prelude.{◌<◌, length, List, IfOk, OnOk, IfSome};
ghost use Rattle.cf_model.specs.Diagrams.{Levels};
ghost use Rattle.cf_model.specs.PairSums.{PairSum};
ghost use Rattle.cf_matmul.specs.Memos.{KeepsProduct, AreProducts, HasKey, HasValue, HasCopy};

use cf_comb::CombId;
use cf_table::Gid;
use cf_tuple::NoMemory;
use indexmap::IndexMap;
use std::alloc::Global;

/// Two groupings of one level, as matrices that are multiplied.
#[derive(Clone, Copy, Debug, PartialEq, Eq, Hash)]
pub(crate) struct Factors {
    pub left: Gid,
    pub right: Gid,
}

/// The grouping of the sums of exit pairs of two factors, and these sums in order of first
/// appearance.
#[derive(Drop)]
pub(crate) struct Summed {
    pub head: Gid,
    pub sums: Vec<CombId>,
}

/// The place of the factors' sums, if they were made.
pub(crate) fn place_of(done: &IndexMap<Factors, Summed>, factors: Factors) -> Option<usize>
    ensures { IfSome result (HasKey done.now.entries factors) }
{
    done.get_index_of(&factors)
}

/// What was made, by its place.
pub(crate) fn summed_at(done: &IndexMap<Factors, Summed>, place: usize) -> &Summed
    requires { place < length done.now.entries }
    ensures { HasValue done.now.entries result.now place }
{
    let (_, summed) = done.get_index(place).unwrap();
    summed
}

/// A copy of what was made, by its place.
pub(crate) fn copied_at(
    alloc: Global,
    done: &IndexMap<Factors, Summed>,
    place: usize,
) -> Result<(Gid, Vec<CombId>), NoMemory>
    requires { place < length done.now.entries }
    ensures { IfOk result (λ r. HasCopy done.now.entries r place) }
{
    let summed = summed_at(done, place);
    let sums = Vec::from_slice(alloc, summed.sums.as_slice())?;
    Ok((summed.head, sums))
}

/// Keeps what factors come to, and answers its place.
pub(crate) fn keep(
    done: &mut IndexMap<Factors, Summed>,
    factors: Factors,
    summed: Summed,
) -> Result<usize, NoMemory>
    ensures kept { IfOk result (HasValue done.new.entries summed) }
    ensures known { (t : Levels) (book : List PairSum) →
        AreProducts t book done.old.entries → KeepsProduct t book (factors, summed) →
        OnOk result (AreProducts t book done.new.entries) }
{
    let (place, _) = done.insert_full(factors, summed)?;
    Ok(place)
}
