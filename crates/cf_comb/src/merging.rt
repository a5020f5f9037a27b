//! Sums made in order of their pairs: of two sums, and of terms that are in order.

ghost use Rattle.std.specs.Prelude.{◌≡◌, ◌<◌, ◌≤◌, ◌+◌, ◌^◌, [], length, All, IfOk};
ghost use Rattle.cf_model.specs.PairSums.{IsPairSum, total, added};
ghost use Rattle.cf_comb.specs.Merges.{IsNext, IsInOrder};

use crate::terms::{Term, is_before, same_pair};
use cf_tuple::NoMemory;
use std::alloc::Global;

/// Which of two sums has the next term of their sum.
#[derive(Clone, Copy, Debug)]
enum Next {
    First,
    Second,
    Both,
}

/// Which of two sums has the next term, where the first was read up to i and the second up to j.
fn next_of(a: &[Term], i: usize, b: &[Term], j: usize) -> Next
    requires first { i ≤ length a.now }
    requires second { j ≤ length b.now }
    requires some { i + j < length a.now + length b.now }
    ensures { IsNext a.now b.now i j result }
{
    if i == a.len() {
        return Next::Second;
    }
    if j == b.len() {
        return Next::First;
    }
    if same_pair(a[i].0, b[j].0) {
        return Next::Both;
    }
    if is_before(a[i].0, b[j].0) {
        return Next::First;
    }
    Next::Second
}

/// The sum of two sums. Each term is read once.
pub(crate) fn merged(alloc: Global, a: &[Term], b: &[Term]) -> Result<Vec<Term>, NoMemory>
    requires first { IsPairSum a.now }
    requires second { IsPairSum b.now }
    requires bounded { total a.now + total b.now ≤ 2 ^ 127 }
    ensures { IfOk result (λ v. v.items ≡ added a.now b.now) }
{
    let mut sum = Vec::with_capacity(alloc, a.len() + b.len())?;
    let mut i = 0;
    let mut j = 0;
    while i + j < a.len() + b.len() {
        match next_of(a, i, b, j) {
            Next::First => {
                sum.push(a[i])?;
                i += 1;
            }
            Next::Second => {
                sum.push(b[j])?;
                j += 1;
            }
            Next::Both => {
                let (pair, count) = a[i];
                sum.push((pair, count + b[j].1))?;
                i += 1;
                j += 1;
            }
        }
    }
    Ok(sum)
}

/// The sum of terms in order of their pairs. Each term is read once.
pub(crate) fn gathered(alloc: Global, terms: &[Term]) -> Result<Vec<Term>, NoMemory>
    requires in_order { IsInOrder terms.now }
    requires positive { All (λ t. 0 < t.1) terms.now }
    requires bounded { total terms.now ≤ 2 ^ 127 }
    ensures { IfOk result (λ v. v.items ≡ added [] terms.now) }
{
    let mut sum = Vec::new(alloc);
    if terms.is_empty() {
        return Ok(sum);
    }
    let (mut pair, mut count) = terms[0];
    for i in 1..terms.len() {
        let (next, more) = terms[i];
        if same_pair(next, pair) {
            count += more;
        } else {
            sum.push((pair, count))?;
            pair = next;
            count = more;
        }
    }
    sum.push((pair, count))?;
    Ok(sum)
}
