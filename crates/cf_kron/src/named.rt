//! The identity, the Walsh matrix and the matrices with one 1, level by level.

ghost use Rattle.std.specs.Prelude.{◌≡◌, ◌≤◌, ◌++◌, ◌*ℤ◌, ◌<◌, ◌-◌, ◌^◌, [], ◌∷◌, List, Bool, true, false, Some, suc, length, IfOk, OnOk};
ghost use Rattle.cf_model.specs.Assignments.{first_half, second_half};
ghost use Rattle.cf_model.specs.FlatFunctions.{IsAssignment};
ghost use Rattle.cf_model.specs.Diagrams.{IsGood, Extends};
ghost use Rattle.cf_model.specs.Matrices.{kronecker};
ghost use Rattle.cf_tuple.specs.Books.{Lengthens};
ghost use Rattle.cf_table.specs.Groupings.{Owns, exits_of};
ghost use Rattle.cf_build.specs.Assembling.{ended};
ghost use Rattle.cf_pkg.specs.Jobs.{Gives};
ghost use Rattle.cf_kron.specs.Products.{value_by};
ghost use Rattle.cf_kron.specs.Matrices.{named_value, HasAll};

use crate::no_memory;
use crate::products::product;
use cf_build::{Rows, assemble_rows};
use cf_table::{FORK, Gid, Table};
use cf_tuple::NoMemory;
use std::alloc::Global;

/// A matrix of any level that its name says, with a row and a column where it has them.
#[derive(Clone, Copy, Debug, PartialEq, Eq)]
pub(crate) enum Named {
    Identity,
    Walsh,
    Unit { row: u64, column: u64 },
}

/// The entry of the matrix of level 1 in a row and a column.
fn entry_at(matrix: Named, row: bool, column: bool) -> i128
    ensures { result ≡ named_value matrix (row ∷ column ∷ []) }
{
    match matrix {
        Named::Identity => i128::from(row == column),
        Named::Walsh => { if row && column { -1 } else { 1 } }
        Named::Unit { row: r, column: c } => {
            i128::from(u64::from(row) == r && u64::from(column) == c)
        }
    }
}

/// Appends the row of a row bit.
fn push_entries(rows: &mut Rows<i128>, matrix: Named, row: bool) -> Result<(), NoMemory>
    requires ended { rows.old.begun ≡ [] }
    ensures { let first = named_value matrix (row ∷ false ∷ []) in
        let second = named_value matrix (row ∷ true ∷ []) in
        OnOk result (rows.new ≡ ended (rows.old.rows ++ (FORK, first ∷ second ∷ []) ∷ [])) }
{
    rows.push_label(entry_at(matrix, row, false))?;
    rows.push_label(entry_at(matrix, row, true))?;
    rows.end_row(FORK)
}

/// The matrix of level 1: a grouping and its different values.
fn base(alloc: Global, table: &mut Table, matrix: Named) -> Result<(Gid, Vec<i128>), NoMemory>
    ensures value { IfOk result (λ r. Gives table.new.levels r.0 r.1.items 1
        (λ bits. Some (named_value matrix bits))) }
    ensures good { IsGood table.new.levels }
    ensures kept { Extends table.old.levels table.new.levels }
    ensures tuples { Lengthens table.old.tuples table.new.tuples }
{
    table.law();
    let mut rows = Rows::new(alloc, 2)?;
    push_entries(&mut rows, matrix, false)?;
    push_entries(&mut rows, matrix, true)?;
    assemble_rows(alloc, table, FORK, &rows)
}

/// How many rows a matrix has one level below.
fn indices(level: u8) -> u64
    requires above { 2 ≤ level }
    requires most { level ≤ 7 }
    ensures is { result ≡ 2 ^ (2 ^ (level - 2)) }
    ensures some { 0 < result }
{
    match level {
        2 => 2,
        3 => 4,
        4 => 16,
        5 => 256,
        6 => 65_536,
        _ => 4_294_967_296,
    }
}

/// The two matrices one level below whose Kronecker product the matrix is.
fn factors(matrix: Named, level: u8) -> (Named, Named)
    requires above { 2 ≤ level }
    requires most { level ≤ 7 }
    ensures { (bits : List Bool) → IsAssignment level bits →
        named_value matrix bits
        ≡ named_value result.0 (first_half bits) *ℤ named_value result.1 (second_half bits) }
{
    match matrix {
        Named::Identity => (Named::Identity, Named::Identity),
        Named::Walsh => (Named::Walsh, Named::Walsh),
        Named::Unit { row, column } => {
            let size = indices(level);
            let first = Named::Unit {
                row: row / size,
                column: column / size,
            };
            let second = Named::Unit {
                row: row % size,
                column: column % size,
            };
            (first, second)
        }
    }
}

/// The product of two groupings with values, where every product fits.
fn fitting_product(
    alloc: Global,
    table: &mut Table,
    f: Gid,
    left: &[i128],
    g: Gid,
    right: &[i128],
) -> Result<(Gid, Vec<i128>), NoMemory>
    requires first { Owns table.old f }
    requires second { Owns table.old g }
    requires level { f.level ≡ g.level }
    requires below { f.level ≤ 6 }
    requires left { length left.now ≡ exits_of table.old f }
    requires right { length right.now ≡ exits_of table.old g }
    requires fit { HasAll (suc f.level)
        (kronecker (value_by table.old.levels f left.now) (value_by table.old.levels g right.now)) }
    ensures value { IfOk result (λ r. Gives table.new.levels r.0 r.1.items (suc f.level)
        (kronecker (value_by table.old.levels f left.now) (value_by table.old.levels g right.now))) }
    ensures good { IsGood table.new.levels }
    ensures kept { Extends table.old.levels table.new.levels }
    ensures tuples { Lengthens table.old.tuples table.new.tuples }
{
    match product(alloc, table, f, left, g, right) {
        Ok(made) => Ok(made),
        Err(fault) => Err(no_memory(fault)),
    }
}

/// The matrix of a level: a grouping and its different values. Each level is the Kronecker product
/// of two of the level below.
pub(crate) fn matrix_of(
    alloc: Global,
    table: &mut Table,
    matrix: Named,
    level: u8,
) -> Result<(Gid, Vec<i128>), NoMemory>
    requires some { 1 ≤ level }
    requires most { level ≤ 7 }
    ensures value { IfOk result (λ r. Gives table.new.levels r.0 r.1.items level
        (λ bits. Some (named_value matrix bits))) }
    ensures good { IsGood table.new.levels }
    ensures kept { Extends table.old.levels table.new.levels }
    ensures tuples { Lengthens table.old.tuples table.new.tuples }
{
    if level == 1 {
        return base(alloc, table, matrix);
    }
    let (first, second) = factors(matrix, level);
    let (f, left) = matrix_of(alloc, table, first, level - 1)?;
    if first == second {
        return fitting_product(alloc, table, f, left.as_slice(), f, left.as_slice());
    }
    let (g, right) = matrix_of(alloc, table, second, level - 1)?;
    fitting_product(alloc, table, f, left.as_slice(), g, right.as_slice())
}
