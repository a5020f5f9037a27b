//! The renumbering of a list, its different entries, and one list read through another.

ghost use Rattle.std.specs.Prelude.{◌≡◌, ◌<◌, length, map, nat_eq, slice_get, slice_index, Some, All, IfOk, OnOk, MatchOption};
ghost use Rattle.indexmap.specs.IndexSet.{insert_key};
ghost use Rattle.cf_model.specs.Renumbering.{rgs, distinct, IsNew};

use super::NoMemory;
use indexmap::IndexSet;
use smallvec::SmallVec;
use std::alloc::Global;

/// A list of at most so many entries is searched plainly, and a longer one by hashing.
const FEW: usize = 16;

fn place_in(list: &[u64], entry: u64) -> Option<usize>
    ensures { MatchOption result (IsNew list.now entry) (λ i. slice_get list.now i ≡ Some entry) }
{
    for i in 0..list.len() {
        if list[i] == entry {
            return Some(i);
        }
    }
    None
}

/// The place of an entry, which is added if the list hasn't it.
fn enter(seen: &mut SmallVec<u64, 16>, entry: u64) -> Result<usize, NoMemory>
    ensures keys { OnOk result (seen.new.items ≡ insert_key nat_eq seen.old.items entry) }
    ensures stored { IfOk result (λ at. slice_get seen.new.items at ≡ Some entry) }
{
    if let Some(at) = place_in(seen.as_slice(), entry) {
        return Ok(at);
    }
    let at = seen.len();
    seen.push(entry)?;
    Ok(at)
}

fn distinct_of_few(alloc: Global, list: &[u64]) -> Result<Vec<u64>, NoMemory>
    ensures { IfOk result (λ entries. entries.items ≡ distinct nat_eq list.now) }
{
    let mut seen = SmallVec::new(alloc);
    for &entry in list {
        enter(&mut seen, entry)?;
    }
    Vec::from_slice(alloc, seen.as_slice())
}

fn distinct_of_many(alloc: Global, list: &[u64]) -> Result<Vec<u64>, NoMemory>
    ensures { IfOk result (λ entries. entries.items ≡ distinct nat_eq list.now) }
{
    let mut seen = IndexSet::new(alloc);
    for &entry in list {
        seen.insert(entry)?;
    }
    Vec::from_slice(alloc, seen.as_slice())
}

/// The different entries of the list, in order of first appearance.
pub fn distinct_of(alloc: Global, list: &[u64]) -> Result<Vec<u64>, NoMemory>
    ensures { IfOk result (λ entries. entries.items ≡ distinct nat_eq list.now) }
{
    if list.len() <= FEW {
        distinct_of_few(alloc, list)
    } else {
        distinct_of_many(alloc, list)
    }
}

fn rgs_of_few(alloc: Global, list: &[u64]) -> Result<Vec<u64>, NoMemory>
    ensures { IfOk result (λ ranks. ranks.items ≡ rgs nat_eq list.now) }
{
    let mut seen = SmallVec::new(alloc);
    let mut ranks = Vec::with_capacity(alloc, list.len())?;
    for &entry in list {
        let rank = enter(&mut seen, entry)?;
        ranks.push(rank as u64)?;
    }
    Ok(ranks)
}

fn rgs_of_many(alloc: Global, list: &[u64]) -> Result<Vec<u64>, NoMemory>
    ensures { IfOk result (λ ranks. ranks.items ≡ rgs nat_eq list.now) }
{
    let mut seen = IndexSet::new(alloc);
    let mut ranks = Vec::with_capacity(alloc, list.len())?;
    for &entry in list {
        let (rank, _) = seen.insert_full(entry)?;
        ranks.push(rank as u64)?;
    }
    Ok(ranks)
}

/// Each entry of the list replaced by its rank of first appearance, from 0.
pub fn rgs_of(alloc: Global, list: &[u64]) -> Result<Vec<u64>, NoMemory>
    ensures { IfOk result (λ ranks. ranks.items ≡ rgs nat_eq list.now) }
{
    if list.len() <= FEW {
        rgs_of_few(alloc, list)
    } else {
        rgs_of_many(alloc, list)
    }
}

/// The list whose entry i is `outer[inner[i]]`.
pub fn compose(alloc: Global, outer: &[u64], inner: &[u64]) -> Result<Vec<u64>, NoMemory>
    requires { All (λ i. i < length outer.now) inner.now }
    ensures { IfOk result (λ list. list.items ≡ map (λ i. slice_index outer.now i) inner.now) }
{
    let mut list = Vec::with_capacity(alloc, inner.len())?;
    for &i in inner {
        list.push(outer[i as usize])?;
    }
    Ok(list)
}
