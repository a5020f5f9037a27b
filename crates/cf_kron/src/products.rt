//! The product of two groupings with values, one at each half of an assignment.

ghost use Rattle.std.specs.Prelude.{◌≡◌, ◌<◌, ◌≤◌, ◌++◌, ◌*ℤ◌, [], suc, length, All, Some, IfOk, OnOk, IfSome, IfNone, slice_get};
ghost use Rattle.cf_model.specs.Assignments.{bits, number_of, first_half, second_half};
ghost use Rattle.cf_model.specs.FlatFunctions.{IsAssignment, IsLeast};
ghost use Rattle.cf_model.specs.Values.{Fits};
ghost use Rattle.cf_model.specs.Diagrams.{IsGood, Extends};
ghost use Rattle.cf_model.specs.Matrices.{kronecker};
ghost use Rattle.cf_tuple.specs.Books.{Lengthens};
ghost use Rattle.cf_table.specs.Groupings.{Owns, exits_of, pattern_of};
ghost use Rattle.cf_build.specs.Assembling.{ended};
ghost use Rattle.cf_pkg.specs.Faults.{IfOverflow, IsFirstNone};
ghost use Rattle.cf_pkg.specs.Jobs.{Gives, IsLeastWithout};
ghost use Rattle.cf_kron.specs.Products.{value_by, scaled, scaled_fitting, AllFit, IsFirstUnfit, product_rows};

use cf_bits::Bits;
use cf_build::{Rows, assemble_rows};
use cf_ops::words::times;
use cf_pkg::{OpFault, least};
use cf_table::steps::Steps;
use cf_table::{Gid, Table};
use cf_tuple::NoMemory;
use std::alloc::Global;
use std::marker::Brand;
use std::sync::ledger::{Blank, Ledger};

/// The first value whose product with x doesn't fit.
fn first_unfit_of(x: i128, values: &[i128]) -> Option<u64>
    ensures some { IfSome result (IsFirstNone (scaled_fitting x values.now)) }
    ensures none { IfNone result (All Fits (scaled x values.now)) }
{
    for j in 0..values.len() {
        let Some(_) = times(x, values[j]) else {
            return Some(j as u64);
        };
    }
    None
}

/// The first left value, and the first right value with it, whose product doesn't fit.
fn first_unfit(left: &[i128], right: &[i128]) -> Option<(u64, u64)>
    ensures some { IfSome result (λ p. IsFirstUnfit left.now right.now p.0 p.1) }
    ensures none { IfNone result (AllFit left.now right.now) }
{
    for i in 0..left.len() {
        if let Some(j) = first_unfit_of(left[i], right) {
            return Some((i as u64, j));
        }
    }
    None
}

/// The product of two values, which fits.
fn product_of(x: i128, y: i128) -> i128
    requires { Fits (x *ℤ y) }
    ensures { result ≡ x *ℤ y }
{
    x * y
}

/// Appends to a row the products of x.
fn push_scaled(rows: &mut Rows<i128>, x: i128, values: &[i128]) -> Result<(), NoMemory>
    requires fit { All Fits (scaled x values.now) }
    ensures { OnOk result (rows.new ≡ record rows.old {
      begun = rows.old.begun ++ scaled x values.now;
    }) }
{
    for j in 0..values.len() {
        rows.push_label(product_of(x, values[j]))?;
    }
    Ok(())
}

/// A row of a grouping for each left value, with its products with the right values as labels.
fn rows_of_products(
    alloc: Global,
    g: Gid,
    left: &[i128],
    right: &[i128],
) -> Result<Rows<i128>, NoMemory>
    requires fit { AllFit left.now right.now }
    ensures { IfOk result (λ rows. rows ≡ ended (product_rows g left.now right.now)) }
{
    let mut rows = Rows::new(alloc, left.len())?;
    for i in 0..left.len() {
        push_scaled(&mut rows, left[i], right)?;
        rows.end_row(g)?;
    }
    Ok(rows)
}

/// The bits of both, one after the other.
fn joined(first: Bits, second: Bits) -> Bits
    requires equal { first.len ≡ second.len }
    requires most { first.len ≤ 64 }
    ensures { bits result ≡ bits first ++ bits second }
{
    let len = first.len();
    Bits::new(2 * len, first.number() * (1u128 << len) + second.number())
}

/// The least assignment at whose halves two groupings have these exits.
fn least_of_both<L: Ledger>(table: &Table, f: Gid, i: u64, g: Gid, j: u64, blank: Blank) -> Bits
    requires first { Owns table.now f }
    requires second { Owns table.now g }
    requires level { f.level ≡ g.level }
    requires below { f.level ≤ 6 }
    requires first_exit { i < exits_of table.now f }
    requires second_exit { j < exits_of table.now g }
    requires name { blank.name ≡ L.name }
    requires parts { blank.parts ≡ L.parts }
    requires some { 0 < blank.parts }
    ensures level { IsAssignment (suc f.level) (bits result) }
    ensures first { IsLeast f.level
        (λ at. slice_get (pattern_of table.now f) (number_of at) ≡ Some i) (first_half (bits result)) }
    ensures second { IsLeast g.level
        (λ at. slice_get (pattern_of table.now g) (number_of at) ≡ Some j) (second_half (bits result)) }
{
    let mut steps = Steps::<L>::open(blank);
    let first = least(table, f, i, &mut steps);
    let second = least(table, g, j, &mut steps);
    joined(first, second)
}

/// A grouping and its different values which together have, at each assignment of the level above,
/// the left value of f's exit at the first half times the right value of g's exit at the second
/// half. Overflow comes exactly where such a product doesn't fit, and says the least assignment.
pub(crate) fn product(
    alloc: Global,
    table: &mut Table,
    f: Gid,
    left: &[i128],
    g: Gid,
    right: &[i128],
) -> Result<(Gid, Vec<i128>), OpFault>
    requires first { Owns table.old f }
    requires second { Owns table.old g }
    requires level { f.level ≡ g.level }
    requires below { f.level ≤ 6 }
    requires left { length left.now ≡ exits_of table.old f }
    requires right { length right.now ≡ exits_of table.old g }
    ensures value { IfOk result (λ r. Gives table.new.levels r.0 r.1.items (suc f.level)
        (kronecker (value_by table.old.levels f left.now) (value_by table.old.levels g right.now))) }
    ensures overflow { IfOverflow result (IsLeastWithout (suc f.level)
        (kronecker (value_by table.old.levels f left.now) (value_by table.old.levels g right.now))) }
    ensures good { IsGood table.new.levels }
    ensures kept { Extends table.old.levels table.new.levels }
    ensures tuples { Lengthens table.old.tuples table.new.tuples }
{
    table.law();
    if let Some((i, j)) = first_unfit(left, right) {
        let at = least_of_both::<Brand>(table, f, i, g, j, Blank::new(1));
        return Err(OpFault::Overflow { at });
    }
    let rows = rows_of_products(alloc, g, left, right)?;
    Ok(assemble_rows(alloc, table, f, &rows)?)
}
