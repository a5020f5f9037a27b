//! The recipe of matrix products.

ghost use Rattle.std.specs.Prelude.{◌≡◌, ◌<◌, Some, slice_get};
ghost use Rattle.cf_model.specs.Assignments.{bits, number_of};
ghost use Rattle.cf_model.specs.FlatFunctions.{IsLeast};
ghost use Rattle.cf_table.specs.Groupings.{Owns, exits_of, pattern_of};
ghost use Rattle.cf_matmul.specs.Weighings.{IsWeighedExit, IsWeighedAnswer};

use crate::symbolic;
use crate::weights::{Weighed, weigh_all};
use cf_bits::Bits;
use cf_comb::CombBook;
use cf_pkg::{Job, OpFault, Recipe, least};
use cf_table::steps::Steps;
use cf_table::{Gid, Table};
use cf_values::ValueBook;
use std::alloc::Global;
use std::marker::Brand;
use std::sync::ledger::{Blank, Ledger};

/// The least assignment at which a grouping has an exit, for a caller that counts no steps.
fn least_uncounted<L: Ledger>(table: &Table, g: Gid, e: u64, blank: Blank) -> Bits
    requires owned { Owns table.now g }
    requires exit { e < exits_of table.now g }
    requires name { blank.name ≡ L.name }
    requires parts { blank.parts ≡ L.parts }
    requires some { 0 < blank.parts }
    ensures { IsLeast g.level
        (λ at. slice_get (pattern_of table.now g) (number_of at) ≡ Some e) (bits result) }
{
    let mut steps = Steps::<L>::open(blank);
    least(table, g, e, &mut steps)
}

/// A grouping with the weights of its exits, or the overflow at the least assignment of the exit
/// that has none.
fn answer(table: &Table, g: Gid, weighed: Weighed) -> Result<(Gid, Vec<i128>), OpFault>
    requires owned { Owns table.now g }
    requires exit { IsWeighedExit table.now.levels g weighed }
    ensures { IsWeighedAnswer table.now.levels g weighed result }
{
    match weighed {
        Weighed::Found { values } => Ok((g, values)),
        Weighed::Missing { exit } => {
            let at = least_uncounted::<Brand>(table, g, exit, Blank::new(1));
            Err(OpFault::Overflow { at })
        }
    }
}

/// Matrix products, and no other jobs.
pub struct Products {}

impl Recipe for Products {
    ghost use Rattle.cf_pkg.specs.declared.jobs.Job.{Job};
    ghost use Rattle.cf_matmul.specs.Values.{IsProductJob};

    ghost does = { λ recipe job. IsProductJob job };

    fn handles(&self, job: &Job) -> bool {
        matches!(job, Job::Matmul { f: _, g: _ })
    }

    fn cook(
        &self,
        alloc: Global,
        table: &mut Table,
        values: &ValueBook,
        job: &Job,
    ) -> Result<(Gid, Vec<i128>), OpFault> {
        let Job::Matmul { f, g } = job else {
            unreachable!();
        };
        table.law();
        let mut book = CombBook::new(alloc);
        let (head, sums) = symbolic(alloc, table, &mut book, f.head, g.head)?;
        let left = values.get(f.vals);
        let right = values.get(g.vals);
        let weighed = weigh_all(alloc, &book, sums.as_slice(), left, right)?;
        answer(table, head, weighed)
    }
}
