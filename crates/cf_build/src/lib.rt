// Assembling and reduction: every grouping is made here from labels or classes, in canonical form.
#![tactic(auto)]

mod label;
mod merge;
mod numbering;
mod rows;

ghost use Rattle.std.specs.Prelude.{◌≡◌, ◌≤◌, [], suc, length, map, nat_eq, All, IfOk, IsTrue};
ghost use Rattle.cf_model.specs.Renumbering.{Grows, rgs};
ghost use Rattle.cf_model.specs.Patterns.{sub};
ghost use Rattle.cf_model.specs.Diagrams.{pattern, IsGood, Extends, HasPatterns};
ghost use Rattle.cf_tuple.specs.Books.{Lengthens};
ghost use Rattle.cf_table.specs.Groupings.{Owns, exits_of, pattern_of, KeepsPatterns};
ghost use Rattle.cf_build.specs.Assembling.{IsRow, row_of, labels_over, classed, Stands, HasCanon, AddsOnly, listed};

use cf_table::{Gid, Table};
use cf_tuple::NoMemory;
pub use label::{Label, canon_of};
use merge::{join, merge};
pub use rows::Rows;
use rows::gathered;
use std::alloc::Global;

/// Whether each class is known or the next number.
fn are_numbered(classes: &[u64]) -> bool
    ensures { IsTrue result → Grows 0 classes.now }
{
    let mut next = 0;
    for i in 0..classes.len() {
        if classes[i] > next {
            return false;
        }
        next = next.max(classes[i] + 1);
    }
    true
}

/// The grouping with each exit of g replaced by its class. The classes are numbered by first
/// appearance.
fn reduce_numbered(
    alloc: Global,
    table: &mut Table,
    g: Gid,
    classes: &[u64],
) -> Result<Gid, NoMemory>
    requires owned { Owns table.old g }
    requires entries { length classes.now ≡ exits_of table.old g }
    requires grows { Grows 0 classes.now }
    ensures reduced { IfOk result (λ h.
        Stands table.new.levels h g.level (classed classes.now (pattern_of table.old g))) }
    ensures added { IfOk result (λ h.
        AddsOnly table.old.levels table.new.levels (sub h.level (pattern_of table.new h))) }
    ensures parts { IfOk result (λ h. HasPatterns table.new.levels (sub h.level (pattern_of table.new h))) }
    ensures good { IsGood table.new.levels }
    ensures kept { Extends table.old.levels table.new.levels }
    ensures patterns { KeepsPatterns table.old.levels table.new.levels }
    ensures tuples { Lengthens table.old.tuples table.new.tuples }
    ensures products { table.new.products ≡ table.old.products }
    ensures triples { table.new.triples ≡ table.old.triples }
{
    table.law();
    merge(alloc, table, g, classes)
}

/// The grouping whose pattern is g's with each exit replaced by its class, renumbered. There is
/// one class for each exit of g.
pub fn reduce(alloc: Global, table: &mut Table, g: Gid, classes: &[u64]) -> Result<Gid, NoMemory>
    requires owned { Owns table.old g }
    requires entries { length classes.now ≡ exits_of table.old g }
    ensures reduced { IfOk result (λ h. Stands table.new.levels h g.level (rgs nat_eq (classed classes.now (pattern_of table.old g)))) }
    ensures added { IfOk result (λ h.
        AddsOnly table.old.levels table.new.levels (sub h.level (pattern_of table.new h))) }
    ensures parts { IfOk result (λ h. HasPatterns table.new.levels (sub h.level (pattern_of table.new h))) }
    ensures good { IsGood table.new.levels }
    ensures kept { Extends table.old.levels table.new.levels }
    ensures patterns { KeepsPatterns table.old.levels table.new.levels }
    ensures tuples { Lengthens table.old.tuples table.new.tuples }
    ensures products { table.new.products ≡ table.old.products }
    ensures triples { table.new.triples ≡ table.old.triples }
{
    table.law();
    if are_numbered(classes) {
        return reduce_numbered(alloc, table, g, classes);
    }
    let (ranks, _) = canon_of(alloc, classes)?;
    reduce_numbered(alloc, table, g, ranks.as_slice())
}

/// The grouping and the different labels, in order of first appearance, of the function that has
/// at each assignment this label: where grouping a has exit j at the first half, and row j's
/// grouping has exit i at the second half, label i of row j. There is a row for each exit of a,
/// and a label for each exit of a row's grouping. Labels may repeat.
pub fn assemble_rows<T: Label>(
    alloc: Global,
    table: &mut Table,
    a: Gid,
    rows: &Rows<T>,
) -> Result<(Gid, Vec<T>), NoMemory>
    requires owned { Owns table.old a }
    requires level { a.level ≤ 6 }
    requires ended { rows.now.begun ≡ [] }
    requires middles { length rows.now.rows ≡ exits_of table.old a }
    requires rows { All (IsRow table.old.levels a.level) rows.now.rows }
    ensures assembled { IfOk result (λ r. HasCanon table.new.levels r.0 (suc a.level)
        (labels_over (pattern table.old.levels a.level) a.at (map row_of rows.now.rows)) r.1.items) }
    ensures added { IfOk result (λ r. AddsOnly table.old.levels table.new.levels (sub r.0.level (pattern_of table.new r.0))) }
    ensures parts { IfOk result (λ r. HasPatterns table.new.levels (sub r.0.level (pattern_of table.new r.0))) }
    ensures good { IsGood table.new.levels }
    ensures kept { Extends table.old.levels table.new.levels }
    ensures patterns { KeepsPatterns table.old.levels table.new.levels }
    ensures tuples { Lengthens table.old.tuples table.new.tuples }
    ensures products { table.new.products ≡ table.old.products }
    ensures triples { table.new.triples ≡ table.old.triples }
{
    table.law();
    let (places, labels) = rows.places();
    let (ranks, different) = canon_of(alloc, labels)?;
    let g = join(alloc, table, a, places, ranks.as_slice())?;
    Ok((g, different))
}

/// The same of rows whose labels stand in lists of their own.
pub fn assemble<T: Label>(
    alloc: Global,
    table: &mut Table,
    a: Gid,
    rows: &[(Gid, Vec<T>)],
) -> Result<(Gid, Vec<T>), NoMemory>
    requires owned { Owns table.old a }
    requires level { a.level ≤ 6 }
    requires middles { length rows.now ≡ exits_of table.old a }
    requires rows { All (IsRow table.old.levels a.level) (map listed rows.now) }
    ensures assembled { IfOk result (λ r. HasCanon table.new.levels r.0 (suc a.level)
        (labels_over (pattern table.old.levels a.level) a.at (map row_of (map listed rows.now))) r.1.items) }
    ensures added { IfOk result (λ r. AddsOnly table.old.levels table.new.levels (sub r.0.level (pattern_of table.new r.0))) }
    ensures parts { IfOk result (λ r. HasPatterns table.new.levels (sub r.0.level (pattern_of table.new r.0))) }
    ensures good { IsGood table.new.levels }
    ensures kept { Extends table.old.levels table.new.levels }
    ensures patterns { KeepsPatterns table.old.levels table.new.levels }
    ensures tuples { Lengthens table.old.tuples table.new.tuples }
    ensures products { table.new.products ≡ table.old.products }
    ensures triples { table.new.triples ≡ table.old.triples }
{
    table.law();
    let rows = gathered(alloc, rows)?;
    assemble_rows(alloc, table, a, &rows)
}
