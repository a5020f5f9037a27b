//! The recursion of the pair product: level by level, and over pairs of middle vertices.

ghost use Rattle.std.specs.Prelude.{◌≡◌, ℕ, ◌<◌, ◌≤◌, ◌-◌, ◌*◌, ◌++◌, [], suc, length, map, All, IfOk, OnOk, MatchOption, slice_index_or};
ghost use Rattle.std.specs.Result.{is_ok};
ghost use Rattle.cf_model.specs.Diagrams.{pattern, IsGood, Extends};
ghost use Rattle.cf_tuple.specs.Books.{Lengthens};
ghost use Rattle.cf_table.specs.Groupings.{Owns, node_of, patterns_of};
ghost use Rattle.cf_table.specs.Goodness.{IsGoodOver};
ghost use Rattle.cf_build.specs.Assembling.{ended};
ghost use Rattle.cf_pair.specs.Charges.{pair_work, IsChargedFor, IsUnknown};
ghost use Rattle.cf_pair.specs.Products.{met, plain_pairs, returned2, row_pairs, pair_word, pairs_at, IsPlace, IsPairsOf, IsPairedAt, AddsPartsOf, ListEach, AddsOnlyIn, GainsRow, IsReturned, IsAdded};

use crate::middles::Middles;
use crate::plain::{Plain, plain_product};
use cf_build::{Rows, assemble_rows};
use cf_table::steps::Steps;
use cf_table::{BConn, Gid, Table};
use cf_tuple::NoMemory;
use std::alloc::Global;
use std::sync::ledger::Ledger;

/// Appends to a row the outer exits to which pairs of exits return.
fn push_pairs(
    rows: &mut Rows<(u64, u64)>,
    pairs: &[(u64, u64)],
    left: &[u64],
    right: &[u64],
) -> Result<(), NoMemory>
    requires within { All (λ p. (p.0 < length left.now) × (p.1 < length right.now)) pairs.now }
    ensures { OnOk result (rows.new ≡ record rows.old {
      begun = rows.old.begun ++ map (returned2 left.now right.now) pairs.now;
    }) }
{
    for i in 0..pairs.len() {
        let pair = pairs[i];
        rows.push_label((left[pair.0 as usize], right[pair.1 as usize]))?;
    }
    Ok(())
}

/// The same for the pairs that meet in a product that takes no look at what the groupings are made of.
fn push_met(
    rows: &mut Rows<(u64, u64)>,
    plain: Plain,
    left: &[u64],
    right: &[u64],
) -> Result<(), NoMemory>
    requires within { (e : ℕ) → e < plain.exits →
        ((met plain.meeting e).0 < length left.now) × ((met plain.meeting e).1 < length right.now) }
    ensures { OnOk result (rows.new ≡ record rows.old {
      begun = rows.old.begun ++ map (returned2 left.now right.now) (plain_pairs plain);
    }) }
{
    for exit in 0..plain.exits {
        let met = plain.meeting.pair(exit);
        rows.push_label((left[met.0 as usize], right[met.1 as usize]))?;
    }
    Ok(())
}

/// Appends the row to which the return tuples of two B-connections map the product of their callees.
fn push_returned(
    table: &Table,
    to: Gid,
    pairs: &[(u64, u64)],
    b: BConn,
    c: BConn,
    rows: &mut Rows<(u64, u64)>,
) -> Result<(), NoMemory>
    requires good { IsGood table.now.levels }
    requires first { IsGoodOver table.now b.«to».level b }
    requires second { IsGoodOver table.now b.«to».level c }
    requires product { IsPairsOf table.now table.now b.«to» c.«to» «to» pairs.now }
    requires ended { rows.old.begun ≡ [] }
    ensures { OnOk result (GainsRow rows.old rows.new
        (IsReturned table.now.levels «to» b.«to».level (row_pairs table.now b c))) }
{
    push_pairs(rows, pairs, table.tuple(b.ret), table.tuple(c.ret))?;
    rows.end_row(to)
}

/// The same where the product takes no look at what the callees are made of.
fn push_plain(
    table: &Table,
    plain: Plain,
    b: BConn,
    c: BConn,
    rows: &mut Rows<(u64, u64)>,
) -> Result<(), NoMemory>
    requires good { IsGood table.now.levels }
    requires first { IsGoodOver table.now b.«to».level b }
    requires second { IsGoodOver table.now b.«to».level c }
    requires product { IsPairsOf table.now table.now b.«to» c.«to» plain.head (plain_pairs plain) }
    requires ended { rows.old.begun ≡ [] }
    ensures { OnOk result (GainsRow rows.old rows.new
        (IsReturned table.now.levels plain.head b.«to».level (row_pairs table.now b c))) }
{
    push_met(rows, plain, table.tuple(b.ret), table.tuple(c.ret))?;
    rows.end_row(plain.head)
}

/// The product of two groupings of one level where it takes no look at what they are made of, or
/// the memo has it.
fn known_product(table: &Table, g: Gid, h: Gid) -> Option<(Gid, Middles)>
    requires levels { h.level ≡ g.level }
    requires good { IsGood table.now.levels }
    requires first { Owns table.now g }
    requires second { Owns table.now h }
    ensures { MatchOption result
        (IsUnknown table.now g h)
        (λ r. IsPairedAt table.now table.now g h r.0 r.1) }
{
    if let Some(plain) = plain_product(table, g, h) {
        return Some((plain.head, Middles::Formula(plain)));
    }
    match table.place_of_product(g, h) {
        Some(place) => Some((table.product_at(place).head, Middles::Kept(place))),
        None => None,
    }
}

/// The product of two groupings of one level, from the memo if it is there. No list of its pairs is
/// made but the one that the memo keeps.
#[cycle(pair)]
pub(crate) fn pair_groupings<L: Ledger>(
    alloc: Global,
    table: &mut Table,
    g: Gid,
    h: Gid,
    steps: &mut Steps<L>,
) -> Result<(Gid, Middles), NoMemory>
    requires level { g.level ≤ 7 }
    requires levels { h.level ≡ g.level }
    requires good { IsGood table.old.levels }
    requires first { Owns table.old g }
    requires second { Owns table.old h }
    ensures paired { IfOk result (λ r. IsPairedAt table.old table.new g h r.0 r.1) }
    ensures added { IfOk result (λ r. AddsPartsOf table.old table.new r.0) }
    ensures good { IsGood table.new.levels }
    ensures extends { Extends table.old.levels table.new.levels }
    ensures longer { Lengthens table.old.tuples table.new.tuples }
    ensures triples { table.new.triples ≡ table.old.triples }
    ensures charged { IsChargedFor table.old table.new g h
        (suc g.level) 0 steps.old steps.new (is_ok result) }
{
    if let Some(known) = known_product(table, g, h) {
        return Ok(known);
    }
    let (head, pairs) = pair_parts(alloc, table, g, h, steps)?;
    let place = table.keep_product(g, h, head, pairs)?;
    Ok((head, Middles::Kept(place)))
}

/// The product of two groupings of one level above 0, from the products of what they are made of.
#[cycle(pair)]
fn pair_parts<L: Ledger>(
    alloc: Global,
    table: &mut Table,
    g: Gid,
    h: Gid,
    steps: &mut Steps<L>,
) -> Result<(Gid, Vec<(u64, u64)>), NoMemory>
    requires above { 1 ≤ g.level }
    requires level { g.level ≤ 7 }
    requires levels { h.level ≡ g.level }
    requires good { IsGood table.old.levels }
    requires first { Owns table.old g }
    requires second { Owns table.old h }
    ensures paired { IfOk result (λ r. IsPairsOf table.old table.new g h r.0 r.1.items) }
    ensures added { IfOk result (λ r. AddsPartsOf table.old table.new r.0) }
    ensures good { IsGood table.new.levels }
    ensures extends { Extends table.old.levels table.new.levels }
    ensures longer { Lengthens table.old.tuples table.new.tuples }
    ensures triples { table.new.triples ≡ table.old.triples }
    ensures charged { let own = 2 * pair_work (patterns_of table.old.levels g h) in
        IsChargedFor table.old table.new g h g.level own steps.old steps.new (is_ok result) }
{
    let a = table.a_of(g, steps);
    let b = table.a_of(h, steps);
    let (callee, middles) = pair_groupings(alloc, table, a, b, steps)?;
    let mut rows = Rows::new(alloc, middles.len(table))?;
    pair_rows(alloc, table, g, h, middles, &mut rows, steps)?;
    assemble_rows(alloc, table, callee, &rows)
}

/// Appends the row of a pair of middle vertices, by their B-connections.
#[cycle(pair)]
fn pair_row<L: Ledger>(
    alloc: Global,
    table: &mut Table,
    b: BConn,
    c: BConn,
    rows: &mut Rows<(u64, u64)>,
    steps: &mut Steps<L>,
) -> Result<(), NoMemory>
    requires level { b.«to».level ≤ 6 }
    requires good { IsGood table.old.levels }
    requires first { IsGoodOver table.old b.«to».level b }
    requires second { IsGoodOver table.old b.«to».level c }
    requires ended { rows.old.begun ≡ [] }
    ensures row { OnOk result (GainsRow rows.old rows.new
        (IsAdded table.old.levels table.new.levels b.«to».level (row_pairs table.old b c))) }
    ensures good { IsGood table.new.levels }
    ensures extends { Extends table.old.levels table.new.levels }
    ensures longer { Lengthens table.old.tuples table.new.tuples }
    ensures triples { table.new.triples ≡ table.old.triples }
    ensures charged { IsChargedFor table.old table.new b.«to» c.«to»
        (suc b.«to».level) 0 steps.old steps.new (is_ok result) }
{
    if let Some(plain) = plain_product(table, b.to, c.to) {
        return push_plain(table, plain, b, c, rows);
    }
    if let Some(product) = table.product_of(b.to, c.to) {
        return push_returned(table, product.head, product.pairs.as_slice(), b, c, rows);
    }
    let (to, pairs) = pair_parts(alloc, table, b.to, c.to, steps)?;
    push_returned(table, to, pairs.as_slice(), b, c, rows)?;
    table.keep_product(b.to, c.to, to, pairs)?;
    Ok(())
}

/// Appends a row for each pair of middle vertices.
#[cycle(pair)]
fn pair_rows<L: Ledger>(
    alloc: Global,
    table: &mut Table,
    g: Gid,
    h: Gid,
    middles: Middles,
    rows: &mut Rows<(u64, u64)>,
    steps: &mut Steps<L>,
) -> Result<(), NoMemory>
    requires above { 1 ≤ g.level }
    requires level { g.level ≤ 7 }
    requires levels { h.level ≡ g.level }
    requires good { IsGood table.old.levels }
    requires first { Owns table.old g }
    requires second { Owns table.old h }
    requires place { IsPlace table.old.products middles }
    requires middles { All (λ m.
        (m.0 < length (node_of table.old g).connections)
        × (m.1 < length (node_of table.old h).connections)) (pairs_at table.old.products middles) }
    requires none { rows.old ≡ ended [] }
    ensures rows { OnOk result (ListEach table.new.levels (g.level - 1)
        (λ i. pair_word (pattern table.old.levels (g.level - 1))
        (node_of table.old g).connections
        (node_of table.old h).connections
        (slice_index_or (pairs_at table.old.products middles) i (0, 0)))
        (length (pairs_at table.old.products middles)) rows.new.rows) }
    ensures ended { OnOk result (rows.new.begun ≡ []) }
    ensures added { OnOk result
        (AddsOnlyIn table.old.levels table.new.levels (g.level - 1) rows.new.rows) }
    ensures good { IsGood table.new.levels }
    ensures extends { Extends table.old.levels table.new.levels }
    ensures longer { Lengthens table.old.tuples table.new.tuples }
    ensures triples { table.new.triples ≡ table.old.triples }
    ensures charged { let own = 2 * length (pairs_at table.old.products middles) in
        IsChargedFor table.old table.new g h g.level own steps.old steps.new (is_ok result) }
{
    for i in 0..middles.len(table) {
        let middle = middles.pair(table, i);
        let b = table.b_of(g, middle.0, steps);
        let c = table.b_of(h, middle.1, steps);
        pair_row(alloc, table, b, c, rows, steps)?;
    }
    Ok(())
}
