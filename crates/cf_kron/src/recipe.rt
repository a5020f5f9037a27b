//! The recipe of Kronecker products and matrices.

ghost use Rattle.std.specs.Prelude.{◌≡◌, ◌<◌, ◌≤◌, length, All, Some, IfOk};
ghost use Rattle.cf_model.specs.Diagrams.{IsGood, Extends};
ghost use Rattle.cf_model.specs.Matrices.{transpose};
ghost use Rattle.cf_tuple.specs.Books.{Lengthens};
ghost use Rattle.cf_table.specs.Groupings.{Owns, exits_of};
ghost use Rattle.cf_pkg.specs.Jobs.{Gives};
ghost use Rattle.cf_kron.specs.Products.{value_by};
ghost use Rattle.cf_kron.specs.Transposed.{values_at};

use crate::named::{Named, matrix_of};
use crate::products::product;
use crate::transposition::transpose_grouping;
use cf_pkg::{Job, OpFault, Recipe, level_within};
use cf_table::{Gid, Table};
use cf_tuple::NoMemory;
use cf_values::ValueBook;
use std::alloc::Global;

/// The values of some exits.
fn chosen_values(alloc: Global, values: &[i128], exits: &[u64]) -> Result<Vec<i128>, NoMemory>
    requires within { All (λ e. e < length values.now) exits.now }
    ensures { IfOk result (λ v. v.items ≡ values_at values.now exits.now) }
{
    let mut chosen = Vec::new(alloc);
    for i in 0..exits.len() {
        chosen.push(values[exits[i] as usize])?;
    }
    Ok(chosen)
}

/// A grouping and its values which together have, at each assignment, the value of f's exit at the
/// assignment whose row and column are exchanged.
fn transposed(
    alloc: Global,
    table: &mut Table,
    f: Gid,
    values: &[i128],
) -> Result<(Gid, Vec<i128>), NoMemory>
    requires owned { Owns table.old f }
    requires level { 1 ≤ f.level }
    requires valued { length values.now ≡ exits_of table.old f }
    ensures value { IfOk result (λ r. Gives table.new.levels r.0 r.1.items f.level
        (λ bits. Some (transpose (value_by table.old.levels f values.now) bits))) }
    ensures good { IsGood table.new.levels }
    ensures kept { Extends table.old.levels table.new.levels }
    ensures tuples { Lengthens table.old.tuples table.new.tuples }
{
    table.law();
    let _ = level_within(table, f);
    let (g, exits) = transpose_grouping(alloc, table, f)?;
    let chosen = chosen_values(alloc, values, exits.as_slice())?;
    Ok((g, chosen))
}

/// Kronecker products, transposes, and the identity, Walsh and one-entry matrices; no other jobs.
pub struct Matrices {}

impl Recipe for Matrices {
    ghost use Rattle.cf_pkg.specs.declared.jobs.Job.{Job};
    ghost use Rattle.cf_kron.specs.Matrices.{IsMatrixJob};

    ghost does = { λ recipe job. IsMatrixJob job };

    fn handles(&self, job: &Job) -> bool {
        match job {
            Job::Kron { f: _, g: _ } => true,
            Job::Transpose { f: _ } => true,
            Job::Id { level: _ } => true,
            Job::Walsh { level: _ } => true,
            Job::Unit {
                level: _,
                r: _,
                c: _,
            } => true,
            _ => false,
        }
    }

    fn cook(
        &self,
        alloc: Global,
        table: &mut Table,
        values: &ValueBook,
        job: &Job,
    ) -> Result<(Gid, Vec<i128>), OpFault> {
        match job {
            Job::Kron { f, g } => {
                let left = values.get(f.vals);
                let right = values.get(g.vals);
                product(alloc, table, f.head, left, g.head, right)
            }
            Job::Transpose { f } => Ok(transposed(alloc, table, f.head, values.get(f.vals))?),
            Job::Id { level } => Ok(matrix_of(alloc, table, Named::Identity, *level)?),
            Job::Walsh { level } => Ok(matrix_of(alloc, table, Named::Walsh, *level)?),
            Job::Unit { level, r, c } => {
                let matrix = Named::Unit {
                    row: *r,
                    column: *c,
                };
                Ok(matrix_of(alloc, table, matrix, *level)?)
            }
            _ => unreachable!(),
        }
    }
}
