//! What an operation answers at the exits of a grouping, one exit after another.

ghost use Rattle.std.specs.Prelude.{◌≡◌, map, Some, IfOk};
ghost use Rattle.cf_ops.specs.Operations.{Answers1, Answers2, Answers3};
ghost use Rattle.cf_pkg.specs.Exits.{map_each, apply_each, ternary_each, PairsWithin, TriplesWithin};
ghost use Rattle.cf_pkg.specs.Faults.{IfNoValue};

use cf_ops::{Op1, Op2, Op3};
use cf_tuple::NoMemory;
use std::alloc::Global;

/// Why the exits have no list of values.
#[derive(Clone, Copy, Debug)]
pub(crate) enum ExitFault {
    NoMemory,
    /// The first exit at which the operation has no value.
    NoValue { exit: u64 },
}

impl From<NoMemory> for ExitFault {
    ghost use Rattle.std.specs.Prelude.{◌≡◌};
    ghost use Rattle.cf_pkg.specs.declared.exits.ExitFault.{ExitFault};

    ghost from_gives = { λ _ e. e ≡ ExitFault.NoMemory };

    fn from(_: NoMemory) -> ExitFault {
        ExitFault::NoMemory
    }
}

/// The operation's values at a list of values.
pub(crate) fn map_exits<F: Fn(i128) -> Option<i128>>(
    alloc: Global,
    op: &Op1<F>,
    values: &[i128],
) -> Result<Vec<i128>, ExitFault>
    requires answers { Answers1 (F.pre op.now.call) (F.post op.now.call) op.now.tree }
    ensures values { IfOk result (λ v. map Some v.items ≡ map_each op.now.tree values.now) }
    ensures first { IfNoValue result (map_each op.now.tree values.now) }
{
    let mut worked = Vec::new(alloc);
    for i in 0..values.len() {
        let Some(value) = op.call(values[i]) else {
            return Err(ExitFault::NoValue { exit: i as u64 });
        };
        worked.push(value).map_err(NoMemory::from)?;
    }
    Ok(worked)
}

/// The operation's values at pairs of places in two lists of values.
pub(crate) fn apply_exits<F: Fn(i128, i128) -> Option<i128>>(
    alloc: Global,
    op: &Op2<F>,
    left: &[i128],
    right: &[i128],
    pairs: &[(u64, u64)],
) -> Result<Vec<i128>, ExitFault>
    requires answers { Answers2 (F.pre op.now.call) (F.post op.now.call) op.now.tree }
    requires within { PairsWithin left.now right.now pairs.now }
    ensures values { IfOk result (λ v. map Some v.items ≡ apply_each op.now.tree left.now right.now pairs.now) }
    ensures first { IfNoValue result (apply_each op.now.tree left.now right.now pairs.now) }
{
    let mut worked = Vec::new(alloc);
    for i in 0..pairs.len() {
        let (p, q) = pairs[i];
        let Some(value) = op.call(left[p as usize], right[q as usize]) else {
            return Err(ExitFault::NoValue { exit: i as u64 });
        };
        worked.push(value).map_err(NoMemory::from)?;
    }
    Ok(worked)
}

/// The operation's values at triples of places in three lists of values.
pub(crate) fn ternary_exits<F: Fn(i128, i128, i128) -> Option<i128>>(
    alloc: Global,
    op: &Op3<F>,
    first: &[i128],
    second: &[i128],
    third: &[i128],
    triples: &[(u64, u64, u64)],
) -> Result<Vec<i128>, ExitFault>
    requires answers { Answers3 (F.pre op.now.call) (F.post op.now.call) op.now.tree }
    requires within { TriplesWithin first.now second.now third.now triples.now }
    ensures values { IfOk result (λ v. map Some v.items ≡ ternary_each op.now.tree first.now second.now third.now triples.now) }
    ensures first { IfNoValue result (ternary_each op.now.tree first.now second.now third.now triples.now) }
{
    let mut worked = Vec::new(alloc);
    for i in 0..triples.len() {
        let (p, q, r) = triples[i];
        let Some(value) = op.call(first[p as usize], second[q as usize], third[r as usize]) else {
            return Err(ExitFault::NoValue { exit: i as u64 });
        };
        worked.push(value).map_err(NoMemory::from)?;
    }
    Ok(worked)
}
