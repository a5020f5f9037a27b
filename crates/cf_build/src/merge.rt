//! Merging of exits, and joining of rows into a grouping: the two call each other one level down.

ghost use Rattle.std.specs.Prelude.{◌≡◌, ◌<◌, ◌≤◌, ◌+◌, ◌++◌, ◌↔◌, [], ℕ, suc, length, map, All, IfOk, OnOk, IsTrue, slice_index_or};
ghost use Rattle.cf_model.specs.Renumbering.{Grows};
ghost use Rattle.cf_model.specs.Diagrams.{connection_at, count, exits, pattern, row, spell, IsGood, Extends};
ghost use Rattle.cf_tuple.specs.Books.{Lengthens};
ghost use Rattle.cf_table.specs.Groupings.{Owns, node_of, exits_of, pattern_of};
ghost use Rattle.cf_build.specs.Assembling.{classed, Stands};
ghost use Rattle.cf_build.specs.Joining.{IsLooseConnection, IsLooseNode, returning, row_connection, AreInTurn, loose_node, classed_connection, IsThin, AreThin};
ghost use Rattle.cf_build.specs.Parts.{AddsParts, AddsPartsOf};

use super::label::{are_few_and_differ, canon_of};
use super::rows::{Row, labels_of};
use cf_table::{BConn, Classed, DONT_CARE, Gid, Table};
use cf_tuple::NoMemory;
use smallvec::SmallVec;
use std::alloc::Global;

/// Appends the class of each exit that a return tuple lists.
fn append_classes(
    labels: &mut SmallVec<u64, 8>,
    returns: &[u64],
    classes: &[u64],
) -> Result<(), NoMemory>
    requires within { All (λ i. i < length classes.now) returns.now }
    ensures { OnOk result (labels.new.items ≡ labels.old.items ++ classed classes.now returns.now) }
{
    for i in 0..returns.len() {
        labels.push(classes[returns[i] as usize])?;
    }
    Ok(())
}

/// Fills lists with the B-connections of a grouping, each exit replaced by its class.
fn fill_classed_rows(
    table: &Table,
    g: Gid,
    classes: &[u64],
    rows: &mut SmallVec<Row, 4>,
    labels: &mut SmallVec<u64, 8>,
) -> Result<(), NoMemory>
    requires level { 0 < g.level }
    requires owned { Owns table.now g }
    requires good { IsGood table.now.levels }
    requires entries { length classes.now ≡ exits_of table.now g }
    requires no_rows { rows.old.items ≡ [] }
    requires no_labels { labels.old.items ≡ [] }
    ensures rows { OnOk result (map (row_connection labels.new.items) rows.new.items
        ≡ map (classed_connection classes.now) (node_of table.now g).connections) }
    ensures levels { OnOk result (All (λ r. r.callee.level + 1 ≡ g.level) rows.new.items) }
    ensures in_turn { OnOk result (AreInTurn 0 rows.new.items (length labels.new.items)) }
{
    let count = table.middle_count(g);
    for j in 0..count {
        let conn = table.connection(g, j);
        let start = labels.len();
        append_classes(labels, table.tuple(conn.ret), classes)?;
        rows.push(Row {
            callee: conn.to,
            start,
            end: labels.len(),
        })?;
    }
    Ok(())
}

/// Whether each exit is its own class.
fn is_rising(classes: &[u64]) -> bool
    ensures { IsTrue result ↔ ((i : ℕ) → i < length classes.now → slice_index_or classes.now i 0 ≡ i) }
{
    for i in 0..classes.len() {
        if classes[i] != i as u64 {
            return false;
        }
    }
    true
}

/// The grouping with each exit replaced by its class. The classes are numbered by first
/// appearance.
#[cycle(merge)]
pub(crate) fn merge(
    alloc: Global,
    table: &mut Table,
    g: Gid,
    classes: &[u64],
) -> Result<Gid, NoMemory>
    requires level { g.level ≤ 7 }
    requires owned { Owns table.old g }
    requires good { IsGood table.old.levels }
    requires entries { length classes.now ≡ exits_of table.old g }
    requires grows { Grows 0 classes.now }
    ensures merged { IfOk result (λ h. Stands table.new.levels h g.level (classed classes.now (pattern_of table.old g))) }
    ensures added { IfOk result (λ h. AddsParts table.old.levels table.new.levels h.level h.at) }
    ensures good { IsGood table.new.levels }
    ensures extends { Extends table.old.levels table.new.levels }
    ensures longer { Lengthens table.old.tuples table.new.tuples }
    ensures products { table.new.products ≡ table.old.products }
    ensures triples { table.new.triples ≡ table.old.triples }
{
    if is_rising(classes) {
        return Ok(g);
    }
    if g.level == 0 {
        // The two exits of FORK.
        return Ok(DONT_CARE);
    }
    let key = Classed::new(alloc, g, classes)?;
    if let Some(known) = table.reduction_of(&key) {
        return Ok(known);
    }
    let a = table.a_callee(g);
    let mut rows = SmallVec::new(alloc);
    let mut labels = SmallVec::new(alloc);
    fill_classed_rows(table, g, classes, &mut rows, &mut labels)?;
    let merged = join(alloc, table, a, rows.as_slice(), labels.as_slice())?;
    table.keep_reduction(key, merged)?;
    Ok(merged)
}

/// The B-connection with a row's labels, which may repeat.
#[cycle(merge)]
fn thin(alloc: Global, table: &mut Table, g: Gid, labels: &[u64]) -> Result<BConn, NoMemory>
    requires level { g.level ≤ 6 }
    requires owned { Owns table.old g }
    requires good { IsGood table.old.levels }
    requires entries { length labels.now ≡ exits_of table.old g }
    ensures thin { IfOk result (λ b. IsThin table.new g.level (row (pattern table.old.levels g.level) (returning g.at labels.now)) labels.now b) }
    ensures added { IfOk result (λ b. AddsParts table.old.levels table.new.levels g.level b.«to».at) }
    ensures good { IsGood table.new.levels }
    ensures extends { Extends table.old.levels table.new.levels }
    ensures longer { Lengthens table.old.tuples table.new.tuples }
    ensures products { table.new.products ≡ table.old.products }
    ensures triples { table.new.triples ≡ table.old.triples }
{
    if are_few_and_differ(labels) {
        let ret = table.intern_tuple(labels)?;
        return Ok(BConn { to: g, ret });
    }
    let (ranks, different) = canon_of(alloc, labels)?;
    let to = merge(alloc, table, g, ranks.as_slice())?;
    let ret = table.intern_tuple(different.as_slice())?;
    Ok(BConn { to, ret })
}

/// Fills a list with the same for each row.
#[cycle(merge)]
fn thin_rows(
    alloc: Global,
    table: &mut Table,
    level: u8,
    rows: &[Row],
    labels: &[u64],
    conns: &mut SmallVec<BConn, 4>,
) -> Result<(), NoMemory>
    requires level { level ≤ 6 }
    requires levels { All (λ r. r.callee.level ≡ level) rows.now }
    requires in_turn { AreInTurn 0 rows.now (length labels.now) }
    requires good { IsGood table.old.levels }
    requires connections { (j : ℕ) → j < length (map (row_connection labels.now) rows.now) →
        IsLooseConnection (count table.old.levels level) (exits table.old.levels level)
        (connection_at (map (row_connection labels.now) rows.now) j) }
    requires none { conns.old.items ≡ [] }
    ensures thin { OnOk result (AreThin table.new level (pattern table.old.levels level)
        (map (row_connection labels.now) rows.now) conns.new.items) }
    ensures added { OnOk result (AddsPartsOf table.old.levels table.new.levels level conns.new.items) }
    ensures good { IsGood table.new.levels }
    ensures extends { Extends table.old.levels table.new.levels }
    ensures longer { Lengthens table.old.tuples table.new.tuples }
    ensures products { table.new.products ≡ table.old.products }
    ensures triples { table.new.triples ≡ table.old.triples }
{
    for i in 0..rows.len() {
        let row = rows[i];
        let conn = thin(alloc, table, row.callee, labels_of(labels, row))?;
        conns.push(conn)?;
    }
    Ok(())
}

/// The grouping that an A-callee and rows spell. The labels number by first reach; within a row
/// they may repeat, and rows may be equal.
#[cycle(merge)]
pub(crate) fn join(
    alloc: Global,
    table: &mut Table,
    a: Gid,
    rows: &[Row],
    labels: &[u64],
) -> Result<Gid, NoMemory>
    requires level { a.level ≤ 6 }
    requires levels { All (λ r. r.callee.level ≡ a.level) rows.now }
    requires in_turn { AreInTurn 0 rows.now (length labels.now) }
    requires good { IsGood table.old.levels }
    requires loose { IsLooseNode (count table.old.levels a.level) (exits table.old.levels a.level)
        (loose_node a.at rows.now labels.now) }
    ensures joined { IfOk result (λ g. Stands table.new.levels g (suc a.level)
        (spell (pattern table.old.levels a.level) (loose_node a.at rows.now labels.now))) }
    ensures added { IfOk result (λ g. AddsParts table.old.levels table.new.levels g.level g.at) }
    ensures good { IsGood table.new.levels }
    ensures extends { Extends table.old.levels table.new.levels }
    ensures longer { Lengthens table.old.tuples table.new.tuples }
    ensures products { table.new.products ≡ table.old.products }
    ensures triples { table.new.triples ≡ table.old.triples }
{
    let mut conns = SmallVec::with_capacity(alloc, rows.len())?;
    thin_rows(alloc, table, a.level, rows, labels, &mut conns)?;
    if are_few_and_differ(conns.as_slice()) {
        table.law();
        return table.intern(a, conns.as_slice());
    }
    let (classes, bs) = canon_of(alloc, conns.as_slice())?;
    let callee = merge(alloc, table, a, classes.as_slice())?;
    table.law();
    table.intern(callee, bs.as_slice())
}
