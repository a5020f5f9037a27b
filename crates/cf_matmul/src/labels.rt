//! Lists of sums that are worked out from other lists.

ghost use Rattle.std.specs.Prelude.{◌≡◌, ◌<◌, ◌≤◌, ◌+◌, ◌*◌, ◌^◌, [], map, length, All, IfOk, slice_index_or};
ghost use Rattle.cf_model.specs.PairSums.{total};
ghost use Rattle.cf_tuple.specs.Books.{Lengthens};
ghost use Rattle.cf_comb.specs.CombBooks.{OwnsSum, PairsBelow};
ghost use Rattle.cf_matmul.specs.Symbolic.{sums_of, carried, added_at};

use cf_comb::{CombBook, CombId};
use cf_tuple::NoMemory;
use std::alloc::Global;

/// Each sum relabelled by two return tuples, and scaled.
pub(crate) fn carried_sums(
    alloc: Global,
    book: &mut CombBook,
    ids: &[CombId],
    ps: &[u64],
    qs: &[u64],
    count: u128,
) -> Result<Vec<CombId>, NoMemory>
    requires owned { All (OwnsSum book.old) ids.now }
    requires positive { 1 ≤ count }
    requires bounded { All (λ s. (total s ≤ 2 ^ 127) × (count * total s ≤ 2 ^ 127))
        (sums_of book.old ids.now) }
    requires within { All (PairsBelow (length ps.now) (length qs.now))
        (sums_of book.old ids.now) }
    ensures owned { IfOk result (λ v. All (OwnsSum book.new) v.items) }
    ensures sums { IfOk result (λ v. sums_of book.new v.items
        ≡ map (carried count ps.now qs.now) (sums_of book.old ids.now)) }
    ensures kept { Lengthens book.old book.new }
{
    let mut carried = Vec::new(alloc);
    for i in 0..ids.len() {
        let moved = book.relabel(ids[i], ps, qs)?;
        let scaled = book.scale(moved, count)?;
        carried.push(scaled)?;
    }
    Ok(carried)
}

/// For each pair of places the sum of the two sums there.
pub(crate) fn added_sums(
    alloc: Global,
    book: &mut CombBook,
    xs: &[CombId],
    ys: &[CombId],
    pairs: &[(u64, u64)],
) -> Result<Vec<CombId>, NoMemory>
    requires first { All (OwnsSum book.old) xs.now }
    requires second { All (OwnsSum book.old) ys.now }
    requires within { All (λ p. (p.0 < length xs.now) × (p.1 < length ys.now)) pairs.now }
    requires bounded { All (λ p. total (slice_index_or (sums_of book.old xs.now) p.0 [])
        + total (slice_index_or (sums_of book.old ys.now) p.1 []) ≤ 2 ^ 127) pairs.now }
    ensures owned { IfOk result (λ v. All (OwnsSum book.new) v.items) }
    ensures sums { IfOk result (λ v. sums_of book.new v.items
        ≡ map (added_at (sums_of book.old xs.now) (sums_of book.old ys.now)) pairs.now) }
    ensures kept { Lengthens book.old book.new }
{
    let mut added = Vec::new(alloc);
    for i in 0..pairs.len() {
        let pair = pairs[i];
        let sum = book.add(xs[pair.0 as usize], ys[pair.1 as usize])?;
        added.push(sum)?;
    }
    Ok(added)
}
