//! Lists of pairs of exits with coefficients.

ghost use Rattle.std.specs.Prelude.{◌≡◌, ◌≤◌, ◌*◌, ◌^◌, ◌↔◌, map, length, IsTrue, IfOk};
ghost use Rattle.std.specs.List.Sorted.{IsPermutation};
ghost use Rattle.cf_model.specs.PairSums.{IsPairBefore, total, scaled, relabelled_pair};
ghost use Rattle.cf_comb.specs.CombBooks.{PairsBelow};
ghost use Rattle.cf_comb.specs.Merges.{IsInOrder};

use cf_tuple::NoMemory;
use std::alloc::Global;

/// A pair of exits with its coefficient.
pub(crate) type Term = ((u64, u64), u128);

/// Whether two pairs are equal.
pub(crate) fn same_pair(p: (u64, u64), q: (u64, u64)) -> bool
    ensures { IsTrue result ↔ (p ≡ q) }
{
    p.0 == q.0 && p.1 == q.1
}

/// Whether a pair comes before another one.
pub(crate) fn is_before(p: (u64, u64), q: (u64, u64)) -> bool
    ensures { IsTrue result ↔ IsPairBefore p q }
{
    p.0 < q.0 || (p.0 == q.0 && p.1 < q.1)
}

/// Each coefficient times k.
pub(crate) fn scaled_terms(alloc: Global, k: u128, sum: &[Term]) -> Result<Vec<Term>, NoMemory>
    requires { k * total sum.now ≤ 2 ^ 127 }
    ensures { IfOk result (λ v. v.items ≡ scaled k sum.now) }
{
    let mut terms = Vec::new(alloc);
    for i in 0..sum.len() {
        let (pair, count) = sum[i];
        terms.push((pair, k * count))?;
    }
    Ok(terms)
}

/// Each pair (p, q) replaced by (ps[p], qs[q]).
fn relabelled_terms(
    alloc: Global,
    ps: &[u64],
    qs: &[u64],
    sum: &[Term],
) -> Result<Vec<Term>, NoMemory>
    requires { PairsBelow (length ps.now) (length qs.now) sum.now }
    ensures { IfOk result (λ v. v.items ≡ map (relabelled_pair ps.now qs.now) sum.now) }
{
    let mut terms = Vec::new(alloc);
    for i in 0..sum.len() {
        let (pair, count) = sum[i];
        terms.push(((ps[pair.0 as usize], qs[pair.1 as usize]), count))?;
    }
    Ok(terms)
}

/// The same, in order of the new pairs.
pub(crate) fn moved_terms(
    alloc: Global,
    ps: &[u64],
    qs: &[u64],
    sum: &[Term],
) -> Result<Vec<Term>, NoMemory>
    requires { PairsBelow (length ps.now) (length qs.now) sum.now }
    ensures in_order { IfOk result (λ v. IsInOrder v.items) }
    ensures terms { IfOk result (λ v.
        IsPermutation (map (relabelled_pair ps.now qs.now) sum.now) v.items) }
{
    let mut terms = relabelled_terms(alloc, ps, qs, sum)?;
    terms.sort_unstable();
    Ok(terms)
}
