//! The grouping of the exits that a grouping has with rows and columns exchanged, level by level.

ghost use Rattle.std.specs.Prelude.{◌≡◌, ◌<◌, ◌≤◌, ◌-◌, ◌++◌, [], ◌∷◌, length, All, IfOk, OnOk, true, false, if◌then◌else◌, slice_index_or};
ghost use Rattle.cf_model.specs.Assignments.{number_of};
ghost use Rattle.cf_model.specs.Diagrams.{connection_at, pattern, row, IsGood, Extends};
ghost use Rattle.cf_tuple.specs.Books.{Lengthens};
ghost use Rattle.cf_table.specs.Groupings.{Owns, node_of, pattern_of};
ghost use Rattle.cf_table.specs.Goodness.{IsGoodOver};
ghost use Rattle.cf_build.specs.Assembling.{ended};
ghost use Rattle.cf_pair.specs.Products.{Lists, connection_row, ListEach, GainsRow};
ghost use Rattle.cf_kron.specs.Transposed.{turned_exits, returned_exits, IsTransposed, AreTranspositions, IsTransposedAt};

use crate::memo::{Transposed, keep, place_of, transposed_at};
use cf_build::{Rows, assemble_rows};
use cf_table::{BConn, FORK, Gid, Table};
use cf_tuple::NoMemory;
use indexmap::IndexMap;
use std::alloc::Global;

/// The exit of a grouping of level 0 at a bit.
fn exit_at_bit(g: Gid, bit: bool) -> u64
    ensures { result ≡ (if bit then g.at else 0) }
{
    if bit { g.at } else { 0 }
}

/// The exit of a grouping of level 1 in a row and a column.
fn exit_in_row(table: &Table, g: Gid, row: bool, column: bool) -> u64
    requires level { g.level ≡ 1 }
    requires good { IsGood table.now.levels }
    requires owned { Owns table.now g }
    ensures { result ≡ slice_index_or (pattern_of table.now g) (number_of (row ∷ column ∷ [])) 0 }
{
    let a = table.a_callee(g);
    let conn = table.connection(g, exit_at_bit(a, row));
    table.tuple(conn.ret)[exit_at_bit(conn.to, column) as usize]
}

/// Appends the row that a grouping of level 1 has for a column.
fn push_column(rows: &mut Rows<u64>, table: &Table, g: Gid, column: bool) -> Result<(), NoMemory>
    requires level { g.level ≡ 1 }
    requires good { IsGood table.now.levels }
    requires owned { Owns table.now g }
    requires ended { rows.old.begun ≡ [] }
    ensures { let first = slice_index_or (pattern_of table.now g) (number_of (false ∷ column ∷ [])) 0 in
        let second = slice_index_or (pattern_of table.now g) (number_of (true ∷ column ∷ [])) 0 in
        OnOk result (rows.new ≡ ended (rows.old.rows ++ (FORK, first ∷ second ∷ []) ∷ [])) }
{
    rows.push_label(exit_in_row(table, g, false, column))?;
    rows.push_label(exit_in_row(table, g, true, column))?;
    rows.end_row(FORK)
}

/// At level 1 the two variables are exchanged.
fn transpose_base(alloc: Global, table: &mut Table, g: Gid) -> Result<(Gid, Vec<u64>), NoMemory>
    requires level { g.level ≡ 1 }
    requires owned { Owns table.old g }
    ensures transposed { IfOk result (λ r.
        IsTransposed table.old.levels table.new.levels g r.0 r.1.items) }
    ensures good { IsGood table.new.levels }
    ensures extends { Extends table.old.levels table.new.levels }
    ensures longer { Lengthens table.old.tuples table.new.tuples }
{
    table.law();
    let mut rows = Rows::new(alloc, 2)?;
    push_column(&mut rows, table, g, false)?;
    push_column(&mut rows, table, g, true)?;
    assemble_rows(alloc, table, FORK, &rows)
}

/// The grouping of the exits that g has with rows and columns exchanged, and those exits in order of
/// first appearance.
pub(crate) fn transpose_grouping(
    alloc: Global,
    table: &mut Table,
    g: Gid,
) -> Result<(Gid, Vec<u64>), NoMemory>
    requires above { 1 ≤ g.level }
    requires level { g.level ≤ 7 }
    requires good { IsGood table.old.levels }
    requires owned { Owns table.old g }
    ensures transposed { IfOk result (λ r.
        IsTransposed table.old.levels table.new.levels g r.0 r.1.items) }
    ensures good { IsGood table.new.levels }
    ensures extends { Extends table.old.levels table.new.levels }
    ensures longer { Lengthens table.old.tuples table.new.tuples }
{
    let mut done = IndexMap::new(alloc);
    transpose_parts(alloc, table, &mut done, g)
}

/// The place in the memo of what g comes to.
#[cycle(transpose)]
fn transpose_once(
    alloc: Global,
    table: &mut Table,
    done: &mut IndexMap<Gid, Transposed>,
    g: Gid,
) -> Result<usize, NoMemory>
    requires above { 1 ≤ g.level }
    requires level { g.level ≤ 7 }
    requires good { IsGood table.old.levels }
    requires owned { Owns table.old g }
    requires known { AreTranspositions table.old.levels done.old.entries }
    ensures transposed { IfOk result
        (IsTransposedAt table.old.levels table.new.levels done.new.entries g) }
    ensures known { OnOk result (AreTranspositions table.new.levels done.new.entries) }
    ensures good { IsGood table.new.levels }
    ensures extends { Extends table.old.levels table.new.levels }
    ensures longer { Lengthens table.old.tuples table.new.tuples }
{
    if let Some(place) = place_of(done, g) {
        return Ok(place);
    }
    let (head, exits) = transpose_parts(alloc, table, done, g)?;
    keep(done, g, Transposed { head, exits })
}

/// What g comes to, from what its parts come to.
#[cycle(transpose)]
fn transpose_parts(
    alloc: Global,
    table: &mut Table,
    done: &mut IndexMap<Gid, Transposed>,
    g: Gid,
) -> Result<(Gid, Vec<u64>), NoMemory>
    requires above { 1 ≤ g.level }
    requires level { g.level ≤ 7 }
    requires good { IsGood table.old.levels }
    requires owned { Owns table.old g }
    requires known { AreTranspositions table.old.levels done.old.entries }
    ensures transposed { IfOk result (λ r.
        IsTransposed table.old.levels table.new.levels g r.0 r.1.items) }
    ensures known { OnOk result (AreTranspositions table.new.levels done.new.entries) }
    ensures good { IsGood table.new.levels }
    ensures extends { Extends table.old.levels table.new.levels }
    ensures longer { Lengthens table.old.tuples table.new.tuples }
{
    if g.level == 1 {
        return transpose_base(alloc, table, g);
    }
    transpose_above(alloc, table, done, g)
}

/// Above level 1 the A-callee is transposed, and the B-callee of each middle vertex, in the order in
/// which it then reaches them.
#[cycle(transpose)]
fn transpose_above(
    alloc: Global,
    table: &mut Table,
    done: &mut IndexMap<Gid, Transposed>,
    g: Gid,
) -> Result<(Gid, Vec<u64>), NoMemory>
    requires above { 2 ≤ g.level }
    requires level { g.level ≤ 7 }
    requires good { IsGood table.old.levels }
    requires owned { Owns table.old g }
    requires known { AreTranspositions table.old.levels done.old.entries }
    ensures transposed { IfOk result (λ r.
        IsTransposed table.old.levels table.new.levels g r.0 r.1.items) }
    ensures known { OnOk result (AreTranspositions table.new.levels done.new.entries) }
    ensures good { IsGood table.new.levels }
    ensures extends { Extends table.old.levels table.new.levels }
    ensures longer { Lengthens table.old.tuples table.new.tuples }
{
    let a = table.a_callee(g);
    let place = transpose_once(alloc, table, done, a)?;
    let callee = transposed_at(done, place);
    let head = callee.head;
    let middles = Vec::from_slice(alloc, callee.exits.as_slice())?;
    let mut rows = Rows::new(alloc, middles.len())?;
    transposed_rows(alloc, table, done, g, middles.as_slice(), &mut rows)?;
    assemble_rows(alloc, table, head, &rows)
}

/// Appends the row of a B-connection whose callee is transposed.
#[cycle(transpose)]
fn transposed_row(
    alloc: Global,
    table: &mut Table,
    done: &mut IndexMap<Gid, Transposed>,
    conn: BConn,
    rows: &mut Rows<u64>,
) -> Result<(), NoMemory>
    requires above { 1 ≤ conn.«to».level }
    requires level { conn.«to».level ≤ 6 }
    requires good { IsGood table.old.levels }
    requires connection { IsGoodOver table.old conn.«to».level conn }
    requires known { AreTranspositions table.old.levels done.old.entries }
    requires ended { rows.old.begun ≡ [] }
    ensures row { let l = conn.«to».level in
        OnOk result (GainsRow rows.old rows.new
        (Lists table.new.levels l (turned_exits l (connection_row table.old l conn)))) }
    ensures known { OnOk result (AreTranspositions table.new.levels done.new.entries) }
    ensures good { IsGood table.new.levels }
    ensures extends { Extends table.old.levels table.new.levels }
    ensures longer { Lengthens table.old.tuples table.new.tuples }
{
    let place = transpose_once(alloc, table, done, conn.to)?;
    let callee = transposed_at(done, place);
    push_returned(rows, callee.exits.as_slice(), table.tuple(conn.ret))?;
    rows.end_row(callee.head)
}

/// Appends the rows of some middle vertices, each transposed.
#[cycle(transpose)]
fn transposed_rows(
    alloc: Global,
    table: &mut Table,
    done: &mut IndexMap<Gid, Transposed>,
    g: Gid,
    middles: &[u64],
    rows: &mut Rows<u64>,
) -> Result<(), NoMemory>
    requires above { 2 ≤ g.level }
    requires level { g.level ≤ 7 }
    requires good { IsGood table.old.levels }
    requires owned { Owns table.old g }
    requires middles { All (λ j. j < length (node_of table.old g).connections) middles.now }
    requires known { AreTranspositions table.old.levels done.old.entries }
    requires none { rows.old ≡ ended [] }
    ensures rows { let l = g.level - 1 in
        OnOk result (ListEach table.new.levels l
        (λ i. turned_exits l (row (pattern table.old.levels l)
        (connection_at (node_of table.old g).connections (slice_index_or middles.now i 0))))
        (length middles.now) rows.new.rows) }
    ensures ended { OnOk result (rows.new.begun ≡ []) }
    ensures known { OnOk result (AreTranspositions table.new.levels done.new.entries) }
    ensures good { IsGood table.new.levels }
    ensures extends { Extends table.old.levels table.new.levels }
    ensures longer { Lengthens table.old.tuples table.new.tuples }
{
    for i in 0..middles.len() {
        let conn = table.connection(g, middles[i]);
        transposed_row(alloc, table, done, conn, rows)?;
    }
    Ok(())
}

/// Appends to a row the outer exits to which the exits of a callee return.
fn push_returned(rows: &mut Rows<u64>, exits: &[u64], returns: &[u64]) -> Result<(), NoMemory>
    requires within { All (λ e. e < length returns.now) exits.now }
    ensures { OnOk result (rows.new ≡ record rows.old {
      begun = rows.old.begun ++ returned_exits returns.now exits.now;
    }) }
{
    for i in 0..exits.len() {
        rows.push_label(returns[exits[i] as usize])?;
    }
    Ok(())
}
