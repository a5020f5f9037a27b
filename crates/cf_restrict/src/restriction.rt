//! The grouping of the exits that a grouping has where one bit is set, level by level.

ghost use Rattle.std.specs.Prelude.{◌≡◌, ◌<◌, ◌≤◌, ◌-◌, ◌+◌, ◌^◌, [], length, IfOk, OnOk, if◌then◌else◌};
ghost use Rattle.cf_model.specs.Diagrams.{connection_at, pattern, row, IsGood, Extends};
ghost use Rattle.cf_tuple.specs.Books.{Lengthens};
ghost use Rattle.cf_table.specs.Groupings.{Owns, node_of, pattern_of};
ghost use Rattle.cf_table.specs.Goodness.{IsGoodOver};
ghost use Rattle.cf_build.specs.Assembling.{HasCanon, ended};
ghost use Rattle.cf_pair.specs.Products.{connection_row, ListEach, AddsOnlyIn, AddsPartsOf, GainsRow, IsAdded};
ghost use Rattle.cf_restrict.specs.Restrictions.{restricted_exits};
ghost use Rattle.cf_restrict.specs.Memos.{IsRestricted, AreRestrictions, IsRestrictedAt};

use crate::memo::{Restricted, Setting, keep, place_of, restricted_at};
use crate::rows::{middle_rows, push_returned};
use cf_build::{Rows, assemble_rows};
use cf_table::{BConn, DONT_CARE, Gid, Table};
use cf_tuple::NoMemory;
use indexmap::IndexMap;
use std::alloc::Global;

/// How many variables half of an assignment gives a bit to.
fn half_of(level: u8) -> u8
    requires above { 1 ≤ level }
    requires level { level ≤ 7 }
    ensures { result ≡ 2 ^ (level - 1) }
{
    1u8 << (level - 1)
}

/// The exit of a grouping of level 0 at a bit.
fn exit_at_bit(g: Gid, b: bool) -> u64
    ensures { result ≡ (if b then g.at else 0) }
{
    if b { g.at } else { 0 }
}

/// At level 0 the one bit is set: its exit everywhere.
fn restrict_base(
    alloc: Global,
    table: &Table,
    g: Gid,
    i: u8,
    b: bool,
) -> Result<(Gid, Vec<u64>), NoMemory>
    requires level { g.level ≡ 0 }
    requires variable { i < 1 }
    requires good { IsGood table.now.levels }
    requires owned { Owns table.now g }
    ensures { IfOk result (λ r. HasCanon table.now.levels r.0 0
        (restricted_exits 0 (pattern_of table.now g) i b) r.1.items) }
{
    let exit = exit_at_bit(g, b);
    let exits = Vec::from_slice(alloc, &[exit])?;
    Ok((DONT_CARE, exits))
}

/// The grouping of the exits that g has with bit i set to b, and those exits in order of first
/// appearance.
pub(crate) fn restrict_grouping(
    alloc: Global,
    table: &mut Table,
    g: Gid,
    i: u8,
    b: bool,
) -> Result<(Gid, Vec<u64>), NoMemory>
    requires level { g.level ≤ 7 }
    requires variable { i < 2 ^ g.level }
    requires good { IsGood table.old.levels }
    requires owned { Owns table.old g }
    ensures restricted { IfOk result (λ r.
        IsRestricted table.old.levels table.new.levels g i b r.0 r.1.items) }
    ensures added { IfOk result (λ r. AddsPartsOf table.old table.new r.0) }
    ensures good { IsGood table.new.levels }
    ensures extends { Extends table.old.levels table.new.levels }
    ensures longer { Lengthens table.old.tuples table.new.tuples }
{
    let mut done = IndexMap::new(alloc);
    restrict_parts(alloc, table, &mut done, g, i, b)
}

/// The place in the memo of what g comes to with bit i set to b.
#[cycle(restrict)]
fn restrict_once(
    alloc: Global,
    table: &mut Table,
    done: &mut IndexMap<Setting, Restricted>,
    g: Gid,
    i: u8,
    b: bool,
) -> Result<usize, NoMemory>
    requires level { g.level ≤ 7 }
    requires variable { i < 2 ^ g.level }
    requires good { IsGood table.old.levels }
    requires owned { Owns table.old g }
    requires known { AreRestrictions table.old.levels done.old.entries }
    ensures restricted { IfOk result
        (IsRestrictedAt table.old.levels table.new.levels done.new.entries g i b) }
    ensures known { OnOk result (AreRestrictions table.new.levels done.new.entries) }
    ensures good { IsGood table.new.levels }
    ensures extends { Extends table.old.levels table.new.levels }
    ensures longer { Lengthens table.old.tuples table.new.tuples }
{
    let setting = Setting {
        grouping: g,
        position: i,
        bit: b,
    };
    if let Some(place) = place_of(done, setting) {
        return Ok(place);
    }
    let (head, exits) = restrict_parts(alloc, table, done, g, i, b)?;
    keep(done, setting, Restricted { head, exits })
}

/// What g comes to with bit i set to b, from what its parts come to. A grouping with one exit stays
/// as it is.
#[cycle(restrict)]
fn restrict_parts(
    alloc: Global,
    table: &mut Table,
    done: &mut IndexMap<Setting, Restricted>,
    g: Gid,
    i: u8,
    b: bool,
) -> Result<(Gid, Vec<u64>), NoMemory>
    requires level { g.level ≤ 7 }
    requires variable { i < 2 ^ g.level }
    requires good { IsGood table.old.levels }
    requires owned { Owns table.old g }
    requires known { AreRestrictions table.old.levels done.old.entries }
    ensures restricted { IfOk result (λ r.
        IsRestricted table.old.levels table.new.levels g i b r.0 r.1.items) }
    ensures added { IfOk result (λ r. AddsPartsOf table.old table.new r.0) }
    ensures known { OnOk result (AreRestrictions table.new.levels done.new.entries) }
    ensures good { IsGood table.new.levels }
    ensures extends { Extends table.old.levels table.new.levels }
    ensures longer { Lengthens table.old.tuples table.new.tuples }
{
    if table.exits(g) == 1 {
        let exits = Vec::from_slice(alloc, &[0])?;
        return Ok((g, exits));
    }
    if g.level == 0 {
        return restrict_base(alloc, table, g, i, b);
    }
    let half = half_of(g.level);
    if i < half {
        return restrict_first(alloc, table, done, g, i, b);
    }
    restrict_second(alloc, table, done, g, i - half, b)
}

/// The same for a bit of the first half: the A-callee is restricted, and of the middle vertices
/// those stay that it still reaches.
#[cycle(restrict)]
fn restrict_first(
    alloc: Global,
    table: &mut Table,
    done: &mut IndexMap<Setting, Restricted>,
    g: Gid,
    i: u8,
    b: bool,
) -> Result<(Gid, Vec<u64>), NoMemory>
    requires above { 1 ≤ g.level }
    requires level { g.level ≤ 7 }
    requires variable { i < 2 ^ (g.level - 1) }
    requires good { IsGood table.old.levels }
    requires owned { Owns table.old g }
    requires known { AreRestrictions table.old.levels done.old.entries }
    ensures restricted { IfOk result (λ r.
        IsRestricted table.old.levels table.new.levels g i b r.0 r.1.items) }
    ensures added { IfOk result (λ r. AddsPartsOf table.old table.new r.0) }
    ensures known { OnOk result (AreRestrictions table.new.levels done.new.entries) }
    ensures good { IsGood table.new.levels }
    ensures extends { Extends table.old.levels table.new.levels }
    ensures longer { Lengthens table.old.tuples table.new.tuples }
{
    let a = table.a_callee(g);
    let place = restrict_once(alloc, table, done, a, i, b)?;
    let callee = restricted_at(done, place);
    let rows = middle_rows(alloc, table, g, callee.exits.as_slice())?;
    assemble_rows(alloc, table, callee.head, &rows)
}

/// The same for bit i of the second half: each B-callee is restricted, and rows that become equal
/// are merged.
#[cycle(restrict)]
fn restrict_second(
    alloc: Global,
    table: &mut Table,
    done: &mut IndexMap<Setting, Restricted>,
    g: Gid,
    i: u8,
    b: bool,
) -> Result<(Gid, Vec<u64>), NoMemory>
    requires above { 1 ≤ g.level }
    requires level { g.level ≤ 7 }
    requires variable { i < 2 ^ (g.level - 1) }
    requires good { IsGood table.old.levels }
    requires owned { Owns table.old g }
    requires known { AreRestrictions table.old.levels done.old.entries }
    ensures restricted { let position = 2 ^ (g.level - 1) + i in
        IfOk result (λ r.
        IsRestricted table.old.levels table.new.levels g position b r.0 r.1.items) }
    ensures added { IfOk result (λ r. AddsPartsOf table.old table.new r.0) }
    ensures known { OnOk result (AreRestrictions table.new.levels done.new.entries) }
    ensures good { IsGood table.new.levels }
    ensures extends { Extends table.old.levels table.new.levels }
    ensures longer { Lengthens table.old.tuples table.new.tuples }
{
    let a = table.a_callee(g);
    let mut rows = Rows::new(alloc, table.middle_count(g) as usize)?;
    restricted_rows(alloc, table, done, g, i, b, &mut rows)?;
    assemble_rows(alloc, table, a, &rows)
}

/// Appends the row of a B-connection whose callee is restricted.
#[cycle(restrict)]
fn restricted_row(
    alloc: Global,
    table: &mut Table,
    done: &mut IndexMap<Setting, Restricted>,
    conn: BConn,
    i: u8,
    b: bool,
    rows: &mut Rows<u64>,
) -> Result<(), NoMemory>
    requires level { conn.«to».level ≤ 6 }
    requires variable { i < 2 ^ conn.«to».level }
    requires good { IsGood table.old.levels }
    requires connection { IsGoodOver table.old conn.«to».level conn }
    requires known { AreRestrictions table.old.levels done.old.entries }
    requires ended { rows.old.begun ≡ [] }
    ensures row { let l = conn.«to».level in
        OnOk result (GainsRow rows.old rows.new (IsAdded table.old.levels table.new.levels l
        (restricted_exits l (connection_row table.old l conn) i b))) }
    ensures known { OnOk result (AreRestrictions table.new.levels done.new.entries) }
    ensures good { IsGood table.new.levels }
    ensures extends { Extends table.old.levels table.new.levels }
    ensures longer { Lengthens table.old.tuples table.new.tuples }
{
    let place = restrict_once(alloc, table, done, conn.to, i, b)?;
    let callee = restricted_at(done, place);
    push_returned(rows, callee.exits.as_slice(), table.tuple(conn.ret))?;
    rows.end_row(callee.head)
}

/// Appends the rows of all middle vertices, each restricted.
#[cycle(restrict)]
fn restricted_rows(
    alloc: Global,
    table: &mut Table,
    done: &mut IndexMap<Setting, Restricted>,
    g: Gid,
    i: u8,
    b: bool,
    rows: &mut Rows<u64>,
) -> Result<(), NoMemory>
    requires above { 1 ≤ g.level }
    requires level { g.level ≤ 7 }
    requires variable { i < 2 ^ (g.level - 1) }
    requires good { IsGood table.old.levels }
    requires owned { Owns table.old g }
    requires known { AreRestrictions table.old.levels done.old.entries }
    requires none { rows.old ≡ ended [] }
    ensures rows { let l = g.level - 1 in
        OnOk result (ListEach table.new.levels l
        (λ j. restricted_exits l
        (row (pattern table.old.levels l) (connection_at (node_of table.old g).connections j)) i b)
        (length (node_of table.old g).connections) rows.new.rows) }
    ensures ended { OnOk result (rows.new.begun ≡ []) }
    ensures added { OnOk result
        (AddsOnlyIn table.old.levels table.new.levels (g.level - 1) rows.new.rows) }
    ensures known { OnOk result (AreRestrictions table.new.levels done.new.entries) }
    ensures good { IsGood table.new.levels }
    ensures extends { Extends table.old.levels table.new.levels }
    ensures longer { Lengthens table.old.tuples table.new.tuples }
{
    for j in 0..table.middle_count(g) {
        let conn = table.connection(g, j);
        restricted_row(alloc, table, done, conn, i, b, rows)?;
    }
    Ok(())
}
