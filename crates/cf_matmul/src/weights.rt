//! The weights of the sums of a product.

ghost use Rattle.std.specs.Prelude.{length, map, All, IfOk};
ghost use Rattle.cf_model.specs.PairSums.{weight};
ghost use Rattle.cf_comb.specs.CombBooks.{OwnsSum, PairsBelow};
ghost use Rattle.cf_matmul.specs.Symbolic.{sums_of};
ghost use Rattle.cf_matmul.specs.Weighings.{AreWeights};

use cf_comb::{CombBook, CombId};
use cf_tuple::NoMemory;
use std::alloc::Global;

/// The weights of sums, or the first of them that has none.
#[derive(Drop)]
pub(crate) enum Weighed {
    Found { values: Vec<i128> },
    Missing { exit: u64 },
}

/// The weights of sums under two lists of values. Each sum is weighed once.
pub(crate) fn weigh_all(
    alloc: Global,
    book: &CombBook,
    sums: &[CombId],
    left: &[i128],
    right: &[i128],
) -> Result<Weighed, NoMemory>
    requires owned { All (OwnsSum book.now) sums.now }
    requires within { All (PairsBelow (length left.now) (length right.now))
        (sums_of book.now sums.now) }
    ensures { IfOk result (AreWeights
        (map (weight left.now right.now) (sums_of book.now sums.now))) }
{
    let mut values = Vec::new(alloc);
    for i in 0..sums.len() {
        let Some(value) = book.weigh(sums[i], left, right) else {
            return Ok(Weighed::Missing { exit: i as u64 });
        };
        values.push(value)?;
    }
    Ok(Weighed::Found { values })
}
