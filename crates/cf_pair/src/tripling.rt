//! The recursion of the triple product, as that of the pair product.

ghost use Rattle.std.specs.Prelude.{◌≡◌, ◌≢◌, ◌<◌, ◌≤◌, ◌-◌, ◌++◌, [], suc, length, map, All, IfOk, OnOk, MatchOption, slice_index_or};
ghost use Rattle.std.specs.List.{zip};
ghost use Rattle.cf_model.specs.Diagrams.{pattern, IsGood, Extends};
ghost use Rattle.cf_tuple.specs.Books.{Lengthens};
ghost use Rattle.cf_table.specs.Groupings.{Owns, node_of, pattern_of, exits_of};
ghost use Rattle.cf_table.specs.Goodness.{IsGoodOver};
ghost use Rattle.cf_build.specs.Assembling.{ended, HasCanon};
ghost use Rattle.cf_pair.specs.Products.{returned3, triple_word, AddsPartsOf, ListEach, AddsOnlyIn, GainsRow, IsReturned, IsAdded};
ghost use Rattle.cf_pair.specs.Triples.{at_place, zero_put, row_triples, triples_at, IsTriplePlace, IsTriplesOf, IsTripledAt, IsNewTriple, KeepsProducts};

use crate::middle_triples::{Place, TripleMiddles};
use crate::pairing::pair_groupings;
use cf_build::{Rows, assemble_rows};
use cf_table::steps::Steps;
use cf_table::{BConn, DONT_CARE, FORK, Gid, Table};
use cf_tuple::NoMemory;
use std::alloc::Global;
use std::sync::ledger::Ledger;

/// At level 0 bit 0 leads to exit 0, and bit 1 to the last exit.
fn triple_bases(table: &Table, f: Gid, g: Gid, h: Gid) -> (Gid, TripleMiddles)
    requires first_level { f.level ≡ 0 }
    requires second_level { g.level ≡ 0 }
    requires third_level { h.level ≡ 0 }
    requires good { IsGood table.now.levels }
    requires first { Owns table.now f }
    requires second { Owns table.now g }
    requires third { Owns table.now h }
    ensures { IsTripledAt table.now table.now f g h result.0 result.1 }
{
    let last = (table.exits(f) - 1, table.exits(g) - 1, table.exits(h) - 1);
    if last == (0, 0, 0) {
        return (DONT_CARE, TripleMiddles::DontCare);
    }
    (FORK, TripleMiddles::Fork(last.0, last.1, last.2))
}

/// The product of two groupings of one level, each pair with exit 0 at a place.
fn pair_with_zero<L: Ledger>(
    alloc: Global,
    table: &mut Table,
    place: Place,
    g: Gid,
    h: Gid,
    steps: &mut Steps<L>,
) -> Result<(Gid, TripleMiddles), NoMemory>
    requires level { g.level ≤ 7 }
    requires levels { h.level ≡ g.level }
    requires good { IsGood table.old.levels }
    requires first { Owns table.old g }
    requires second { Owns table.old h }
    ensures there { IfOk result (λ r. IsTriplePlace table.new r.1) }
    ensures paired { IfOk result (λ r. HasCanon table.new.levels r.0 g.level
        (map (zero_put place) (zip (pattern_of table.old g) (pattern_of table.old h)))
        (triples_at table.new r.1)) }
    ensures added { IfOk result (λ r. AddsPartsOf table.old table.new r.0) }
    ensures good { IsGood table.new.levels }
    ensures extends { Extends table.old.levels table.new.levels }
    ensures longer { Lengthens table.old.tuples table.new.tuples }
    ensures kept { OnOk result (KeepsProducts table.old table.new 0) }
{
    let (product, pairs) = pair_groupings(alloc, table, g, h, steps)?;
    Ok((product, TripleMiddles::Beside(place, pairs)))
}

/// The first place among three groupings of one that has a single exit.
fn place_of_constant(table: &Table, f: Gid, g: Gid, h: Gid) -> Option<Place>
    requires first { Owns table.now f }
    requires second { Owns table.now g }
    requires third { Owns table.now h }
    ensures { MatchOption result
        ((exits_of table.now f ≢ 1) × (exits_of table.now g ≢ 1) × (exits_of table.now h ≢ 1))
        (λ place. exits_of table.now (at_place place f g h) ≡ 1) }
{
    if table.exits(f) == 1 {
        return Some(Place::First);
    }
    if table.exits(g) == 1 {
        return Some(Place::Second);
    }
    if table.exits(h) == 1 {
        return Some(Place::Third);
    }
    None
}

/// The product of three groupings of one level, the one at a place having a single exit: that of
/// the other two, with exit 0 at that place.
fn beside_constant<L: Ledger>(
    alloc: Global,
    table: &mut Table,
    place: Place,
    f: Gid,
    g: Gid,
    h: Gid,
    steps: &mut Steps<L>,
) -> Result<(Gid, TripleMiddles), NoMemory>
    requires level { f.level ≤ 7 }
    requires second_level { g.level ≡ f.level }
    requires third_level { h.level ≡ f.level }
    requires good { IsGood table.old.levels }
    requires first { Owns table.old f }
    requires second { Owns table.old g }
    requires third { Owns table.old h }
    requires constant { exits_of table.old (at_place place f g h) ≡ 1 }
    ensures tripled { IfOk result (λ r. IsTripledAt table.old table.new f g h r.0 r.1) }
    ensures added { IfOk result (λ r. AddsPartsOf table.old table.new r.0) }
    ensures good { IsGood table.new.levels }
    ensures extends { Extends table.old.levels table.new.levels }
    ensures longer { Lengthens table.old.tuples table.new.tuples }
    ensures kept { OnOk result (KeepsProducts table.old table.new 0) }
{
    match place {
        Place::First => pair_with_zero(alloc, table, place, g, h, steps),
        Place::Second => pair_with_zero(alloc, table, place, f, h, steps),
        Place::Third => pair_with_zero(alloc, table, place, f, g, steps),
    }
}

/// Appends to a row the outer exits to which triples of exits return.
fn push_triples(
    rows: &mut Rows<(u64, u64, u64)>,
    triples: &[(u64, u64, u64)],
    left: &[u64],
    middle: &[u64],
    right: &[u64],
) -> Result<(), NoMemory>
    requires within { All (λ t.
        (t.0 < length left.now) × (t.1 < length middle.now) × (t.2 < length right.now)) triples.now }
    ensures { OnOk result (rows.new ≡ record rows.old {
      begun = rows.old.begun ++ map (returned3 left.now middle.now right.now) triples.now;
    }) }
{
    for i in 0..triples.len() {
        let triple = triples[i];
        rows.push_label((
            left[triple.0 as usize],
            middle[triple.1 as usize],
            right[triple.2 as usize],
        ))?;
    }
    Ok(())
}

/// The same for the triples of a product, where they stand.
fn push_middles(
    table: &Table,
    rows: &mut Rows<(u64, u64, u64)>,
    middles: TripleMiddles,
    left: &[u64],
    middle: &[u64],
    right: &[u64],
) -> Result<(), NoMemory>
    requires place { IsTriplePlace table.now middles }
    requires within { All (λ t.
        (t.0 < length left.now) × (t.1 < length middle.now) × (t.2 < length right.now))
        (triples_at table.now middles) }
    ensures { OnOk result (rows.new ≡ record rows.old {
      begun = rows.old.begun
          ++ map (returned3 left.now middle.now right.now) (triples_at table.now middles);
    }) }
{
    if let TripleMiddles::Kept(place) = middles {
        let triples = table.triple_at(place).triples.as_slice();
        return push_triples(rows, triples, left, middle, right);
    }
    for i in 0..middles.len(table) {
        let triple = middles.triple(table, i);
        rows.push_label((
            left[triple.0 as usize],
            middle[triple.1 as usize],
            right[triple.2 as usize],
        ))?;
    }
    Ok(())
}

/// Appends the row to which the return tuples of three B-connections map the product of their
/// callees.
fn push_returned(
    table: &Table,
    to: Gid,
    middles: TripleMiddles,
    x: BConn,
    y: BConn,
    z: BConn,
    rows: &mut Rows<(u64, u64, u64)>,
) -> Result<(), NoMemory>
    requires good { IsGood table.now.levels }
    requires first { IsGoodOver table.now x.«to».level x }
    requires second { IsGoodOver table.now x.«to».level y }
    requires third { IsGoodOver table.now x.«to».level z }
    requires product { IsTripledAt table.now table.now x.«to» y.«to» z.«to» «to» middles }
    requires ended { rows.old.begun ≡ [] }
    ensures { OnOk result (GainsRow rows.old rows.new
        (IsReturned table.now.levels «to» x.«to».level (row_triples table.now x y z))) }
{
    push_middles(
        table,
        rows,
        middles,
        table.tuple(x.ret),
        table.tuple(y.ret),
        table.tuple(z.ret),
    )?;
    rows.end_row(to)
}

/// The product of three groupings of one level, if the memo has it.
fn kept_product(table: &Table, f: Gid, g: Gid, h: Gid) -> Option<(Gid, TripleMiddles)>
    requires first { Owns table.now f }
    requires second { Owns table.now g }
    requires third { Owns table.now h }
    ensures { MatchOption result
        (IsNewTriple table.now f g h)
        (λ r. IsTripledAt table.now table.now f g h r.0 r.1) }
{
    match table.place_of_triple(f, g, h) {
        Some(place) => Some((table.triple_at(place).head, TripleMiddles::Kept(place))),
        None => None,
    }
}

/// The product of three groupings of one level, from the memo if it is there. No list of its
/// triples is made but the one that the memo keeps.
#[cycle(triple)]
pub(crate) fn triple_groupings<L: Ledger>(
    alloc: Global,
    table: &mut Table,
    f: Gid,
    g: Gid,
    h: Gid,
    steps: &mut Steps<L>,
) -> Result<(Gid, TripleMiddles), NoMemory>
    requires level { f.level ≤ 7 }
    requires second_level { g.level ≡ f.level }
    requires third_level { h.level ≡ f.level }
    requires good { IsGood table.old.levels }
    requires first { Owns table.old f }
    requires second { Owns table.old g }
    requires third { Owns table.old h }
    ensures tripled { IfOk result (λ r. IsTripledAt table.old table.new f g h r.0 r.1) }
    ensures added { IfOk result (λ r. AddsPartsOf table.old table.new r.0) }
    ensures good { IsGood table.new.levels }
    ensures extends { Extends table.old.levels table.new.levels }
    ensures longer { Lengthens table.old.tuples table.new.tuples }
    ensures kept { OnOk result (KeepsProducts table.old table.new (suc f.level)) }
{
    if f.level == 0 {
        return Ok(triple_bases(table, f, g, h));
    }
    if let Some(place) = place_of_constant(table, f, g, h) {
        return beside_constant(alloc, table, place, f, g, h, steps);
    }
    if let Some(known) = kept_product(table, f, g, h) {
        return Ok(known);
    }
    let (head, triples) = triple_parts(alloc, table, f, g, h, steps)?;
    let place = table.keep_triple(f, g, h, head, triples)?;
    Ok((head, TripleMiddles::Kept(place)))
}

/// The product of three groupings of one level above 0, from the products of what they are made of.
#[cycle(triple)]
fn triple_parts<L: Ledger>(
    alloc: Global,
    table: &mut Table,
    f: Gid,
    g: Gid,
    h: Gid,
    steps: &mut Steps<L>,
) -> Result<(Gid, Vec<(u64, u64, u64)>), NoMemory>
    requires above { 1 ≤ f.level }
    requires level { f.level ≤ 7 }
    requires second_level { g.level ≡ f.level }
    requires third_level { h.level ≡ f.level }
    requires good { IsGood table.old.levels }
    requires first { Owns table.old f }
    requires second { Owns table.old g }
    requires third { Owns table.old h }
    ensures tripled { IfOk result (λ r. IsTriplesOf table.old table.new f g h r.0 r.1.items) }
    ensures added { IfOk result (λ r. AddsPartsOf table.old table.new r.0) }
    ensures good { IsGood table.new.levels }
    ensures extends { Extends table.old.levels table.new.levels }
    ensures longer { Lengthens table.old.tuples table.new.tuples }
    ensures kept { OnOk result (KeepsProducts table.old table.new f.level) }
{
    let a = table.a_of(f, steps);
    let b = table.a_of(g, steps);
    let c = table.a_of(h, steps);
    let (callee, middles) = triple_groupings(alloc, table, a, b, c, steps)?;
    let mut rows = Rows::new(alloc, middles.len(table))?;
    triple_rows(alloc, table, f, g, h, middles, &mut rows, steps)?;
    assemble_rows(alloc, table, callee, &rows)
}

/// Appends the row of three middle vertices, by their B-connections.
#[cycle(triple)]
fn triple_row<L: Ledger>(
    alloc: Global,
    table: &mut Table,
    x: BConn,
    y: BConn,
    z: BConn,
    rows: &mut Rows<(u64, u64, u64)>,
    steps: &mut Steps<L>,
) -> Result<(), NoMemory>
    requires level { x.«to».level ≤ 6 }
    requires good { IsGood table.old.levels }
    requires first { IsGoodOver table.old x.«to».level x }
    requires second { IsGoodOver table.old x.«to».level y }
    requires third { IsGoodOver table.old x.«to».level z }
    requires ended { rows.old.begun ≡ [] }
    ensures row { OnOk result (GainsRow rows.old rows.new
        (IsAdded table.old.levels table.new.levels x.«to».level (row_triples table.old x y z))) }
    ensures good { IsGood table.new.levels }
    ensures extends { Extends table.old.levels table.new.levels }
    ensures longer { Lengthens table.old.tuples table.new.tuples }
    ensures kept { OnOk result (KeepsProducts table.old table.new (suc x.«to».level)) }
{
    let (to, middles) = triple_groupings(alloc, table, x.to, y.to, z.to, steps)?;
    push_returned(table, to, middles, x, y, z, rows)
}

/// Appends a row for each three middle vertices.
#[cycle(triple)]
fn triple_rows<L: Ledger>(
    alloc: Global,
    table: &mut Table,
    f: Gid,
    g: Gid,
    h: Gid,
    middles: TripleMiddles,
    rows: &mut Rows<(u64, u64, u64)>,
    steps: &mut Steps<L>,
) -> Result<(), NoMemory>
    requires above { 1 ≤ f.level }
    requires level { f.level ≤ 7 }
    requires second_level { g.level ≡ f.level }
    requires third_level { h.level ≡ f.level }
    requires good { IsGood table.old.levels }
    requires first { Owns table.old f }
    requires second { Owns table.old g }
    requires third { Owns table.old h }
    requires place { IsTriplePlace table.old middles }
    requires middles { All (λ m.
        (m.0 < length (node_of table.old f).connections)
        × (m.1 < length (node_of table.old g).connections)
        × (m.2 < length (node_of table.old h).connections)) (triples_at table.old middles) }
    requires none { rows.old ≡ ended [] }
    ensures rows { OnOk result (ListEach table.new.levels (f.level - 1)
        (λ i. triple_word (pattern table.old.levels (f.level - 1))
        (node_of table.old f).connections
        (node_of table.old g).connections
        (node_of table.old h).connections
        (slice_index_or (triples_at table.old middles) i (0, 0, 0)))
        (length (triples_at table.old middles)) rows.new.rows) }
    ensures ended { OnOk result (rows.new.begun ≡ []) }
    ensures added { OnOk result
        (AddsOnlyIn table.old.levels table.new.levels (f.level - 1) rows.new.rows) }
    ensures good { IsGood table.new.levels }
    ensures extends { Extends table.old.levels table.new.levels }
    ensures longer { Lengthens table.old.tuples table.new.tuples }
    ensures kept { OnOk result (KeepsProducts table.old table.new f.level) }
{
    for i in 0..middles.len(table) {
        let middle = middles.triple(table, i);
        let x = table.b_of(f, middle.0, steps);
        let y = table.b_of(g, middle.1, steps);
        let z = table.b_of(h, middle.2, steps);
        triple_row(alloc, table, x, y, z, rows, steps)?;
    }
    Ok(())
}
