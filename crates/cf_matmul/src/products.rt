//! The recursion of the product of two groupings, as matrices of exits.

ghost use Rattle.std.specs.Prelude.{◌≡◌, ◌<◌, ◌≤◌, ◌+◌, ◌*◌, ◌-◌, ◌^◌, suc, [], map, length, All, IfOk, OnOk, slice_index_or};
ghost use Rattle.std.specs.List.{zip};
ghost use Rattle.cf_model.specs.PairSums.{total};
ghost use Rattle.cf_model.specs.Diagrams.{IsGood, Extends};
ghost use Rattle.cf_tuple.specs.Books.{Lengthens};
ghost use Rattle.cf_table.specs.Groupings.{Owns, node_of, pattern_of};
ghost use Rattle.cf_build.specs.Assembling.{IsRow, HasCanon, listed};
ghost use Rattle.cf_comb.specs.CombBooks.{OwnsSum};
ghost use Rattle.cf_matmul.specs.Symbolic.{sums_of, row_sums, term_row_sums, HasSumRow, HaveSumRows, HasGrown, IsSumIn, JoinsRows};
ghost use Rattle.cf_matmul.specs.Memos.{IsProduct, IsProductAt, AreProducts};

use crate::base::base_sums;
use crate::labels::{added_sums, carried_sums};
use crate::memo::{Factors, Summed, copied_at, keep, place_of, summed_at};
use cf_build::assemble;
use cf_comb::{CombBook, CombId};
use cf_pair::pair;
use cf_table::steps::Steps;
use cf_table::{Gid, Table};
use cf_tuple::NoMemory;
use indexmap::IndexMap;
use std::alloc::Global;
use std::marker::Brand;
use std::sync::ledger::{Blank, Ledger};

/// The place in the memo of the sums of two groupings of one level.
#[cycle(product)]
fn product_once(
    alloc: Global,
    table: &mut Table,
    book: &mut CombBook,
    done: &mut IndexMap<Factors, Summed>,
    g: Gid,
    h: Gid,
) -> Result<usize, NoMemory>
    requires above { 1 ≤ g.level }
    requires level { g.level ≤ 7 }
    requires levels { h.level ≡ g.level }
    requires good { IsGood table.old.levels }
    requires first { Owns table.old g }
    requires second { Owns table.old h }
    requires known { AreProducts table.old.levels book.old done.old.entries }
    ensures made { IfOk result
        (IsProductAt table.old.levels table.new.levels book.new done.new.entries g h) }
    ensures known { OnOk result (AreProducts table.new.levels book.new done.new.entries) }
    ensures grown { HasGrown table.old table.new book.old book.new }
{
    let factors = Factors { left: g, right: h };
    if let Some(place) = place_of(done, factors) {
        return Ok(place);
    }
    let (head, sums) = product_sums(alloc, table, book, done, g, h)?;
    keep(done, factors, Summed { head, sums })
}

/// The sums of two groupings of one level, from those of their parts.
#[cycle(product)]
pub(crate) fn product_sums(
    alloc: Global,
    table: &mut Table,
    book: &mut CombBook,
    done: &mut IndexMap<Factors, Summed>,
    g: Gid,
    h: Gid,
) -> Result<(Gid, Vec<CombId>), NoMemory>
    requires above { 1 ≤ g.level }
    requires level { g.level ≤ 7 }
    requires levels { h.level ≡ g.level }
    requires good { IsGood table.old.levels }
    requires first { Owns table.old g }
    requires second { Owns table.old h }
    requires known { AreProducts table.old.levels book.old done.old.entries }
    ensures summed { IfOk result (λ r.
        IsProduct table.old.levels table.new.levels book.new g h (listed r)) }
    ensures known { OnOk result (AreProducts table.new.levels book.new done.new.entries) }
    ensures grown { HasGrown table.old table.new book.old book.new }
{
    if g.level == 1 {
        return base_sums(alloc, table, book, g, h);
    }
    let a = table.a_callee(g);
    let b = table.a_callee(h);
    let place = product_once(alloc, table, book, done, a, b)?;
    let (callee, middles) = copied_at(alloc, done, place)?;
    let rows = sum_rows(alloc, table, book, done, g, h, middles.as_slice())?;
    book.law();
    assemble(alloc, table, callee, rows.as_slice())
}

/// The product of two groupings, for a caller that counts no steps.
fn pair_uncounted<L: Ledger>(
    alloc: Global,
    table: &mut Table,
    g: Gid,
    h: Gid,
    blank: Blank,
) -> Result<(Gid, Vec<(u64, u64)>), NoMemory>
    requires first { Owns table.old g }
    requires second { Owns table.old h }
    requires level { g.level ≡ h.level }
    requires name { blank.name ≡ L.name }
    requires parts { blank.parts ≡ L.parts }
    requires some { 0 < blank.parts }
    ensures paired { IfOk result (λ r. HasCanon table.new.levels r.0 g.level
        (zip (pattern_of table.old g) (pattern_of table.old h)) r.1.items) }
    ensures good { IsGood table.new.levels }
    ensures kept { Extends table.old.levels table.new.levels }
    ensures tuples { Lengthens table.old.tuples table.new.tuples }
{
    let mut steps = Steps::<L>::open(blank);
    pair(alloc, table, g, h, &mut steps)
}

/// The sum of two rows of one level.
fn joined(
    alloc: Global,
    table: &mut Table,
    book: &mut CombBook,
    x: &(Gid, Vec<CombId>),
    y: &(Gid, Vec<CombId>),
) -> Result<(Gid, Vec<CombId>), NoMemory>
    requires good { IsGood table.old.levels }
    requires levels { y.now.0.level ≡ x.now.0.level }
    requires first { IsRow table.old.levels x.now.0.level (listed x.now) }
    requires second { IsRow table.old.levels x.now.0.level (listed y.now) }
    requires first_ids { All (OwnsSum book.old) x.now.1.items }
    requires second_ids { All (OwnsSum book.old) y.now.1.items }
    requires bounded { All (λ s. All (λ r. total s + total r ≤ 2 ^ 127)
        (sums_of book.old y.now.1.items)) (sums_of book.old x.now.1.items) }
    ensures joined { IfOk result (λ r. JoinsRows table.old.levels book.old
        table.new.levels book.new (listed x.now) (listed y.now) (listed r)) }
    ensures grown { HasGrown table.old table.new book.old book.new }
{
    let (to, pairs) = pair_uncounted::<Brand>(alloc, table, x.0, y.0, Blank::new(1))?;
    let labels = added_sums(
        alloc,
        book,
        x.1.as_slice(),
        y.1.as_slice(),
        pairs.as_slice(),
    )?;
    Ok((to, labels))
}

/// The row of a pair of middle vertices that comes so often.
#[cycle(product)]
fn middle_row(
    alloc: Global,
    table: &mut Table,
    book: &mut CombBook,
    done: &mut IndexMap<Factors, Summed>,
    g: Gid,
    h: Gid,
    term: ((u64, u64), u128),
) -> Result<(Gid, Vec<CombId>), NoMemory>
    requires above { 2 ≤ g.level }
    requires level { g.level ≤ 7 }
    requires levels { h.level ≡ g.level }
    requires good { IsGood table.old.levels }
    requires first { Owns table.old g }
    requires second { Owns table.old h }
    requires left { term.0.0 < length (node_of table.old g).connections }
    requires right { term.0.1 < length (node_of table.old h).connections }
    requires positive { 1 ≤ term.1 }
    requires bounded { term.1 * 2 ^ (2 ^ (g.level - 2)) ≤ 2 ^ 127 }
    requires known { AreProducts table.old.levels book.old done.old.entries }
    ensures row { IfOk result (λ r. HasSumRow table.new.levels book.new (suc (g.level - 2))
        (term_row_sums table.old g h term) (term.1 * 2 ^ (2 ^ (g.level - 2))) (listed r)) }
    ensures known { OnOk result (AreProducts table.new.levels book.new done.new.entries) }
    ensures grown { HasGrown table.old table.new book.old book.new }
{
    let b = table.connection(g, term.0.0);
    let c = table.connection(h, term.0.1);
    let place = product_once(alloc, table, book, done, b.to, c.to)?;
    let inner = summed_at(done, place);
    let labels = carried_sums(
        alloc,
        book,
        inner.sums.as_slice(),
        table.tuple(b.ret),
        table.tuple(c.ret),
        term.1,
    )?;
    Ok((inner.head, labels))
}

/// The row of a sum of pairs of middle vertices.
#[cycle(product)]
fn sum_row(
    alloc: Global,
    table: &mut Table,
    book: &mut CombBook,
    done: &mut IndexMap<Factors, Summed>,
    g: Gid,
    h: Gid,
    terms: &[((u64, u64), u128)],
) -> Result<(Gid, Vec<CombId>), NoMemory>
    requires above { 2 ≤ g.level }
    requires level { g.level ≤ 7 }
    requires levels { h.level ≡ g.level }
    requires good { IsGood table.old.levels }
    requires first { Owns table.old g }
    requires second { Owns table.old h }
    requires sum { IsSumIn (length (node_of table.old g).connections)
        (length (node_of table.old h).connections) (2 ^ (2 ^ (g.level - 2))) terms.now }
    requires known { AreProducts table.old.levels book.old done.old.entries }
    ensures row { let n = 2 ^ (2 ^ (g.level - 2)) in
        IfOk result (λ r. HasSumRow table.new.levels book.new (suc (g.level - 2))
        (row_sums table.old g h terms.now) (n * n) (listed r)) }
    ensures known { OnOk result (AreProducts table.new.levels book.new done.new.entries) }
    ensures grown { HasGrown table.old table.new book.old book.new }
{
    let mut row = middle_row(alloc, table, book, done, g, h, terms[0])?;
    for i in 1..terms.len() {
        let next = middle_row(alloc, table, book, done, g, h, terms[i])?;
        row = joined(alloc, table, book, &row, &next)?;
    }
    Ok(row)
}

/// A row for each sum of pairs of middle vertices.
#[cycle(product)]
fn sum_rows(
    alloc: Global,
    table: &mut Table,
    book: &mut CombBook,
    done: &mut IndexMap<Factors, Summed>,
    g: Gid,
    h: Gid,
    sums: &[CombId],
) -> Result<Vec<(Gid, Vec<CombId>)>, NoMemory>
    requires above { 2 ≤ g.level }
    requires level { g.level ≤ 7 }
    requires levels { h.level ≡ g.level }
    requires good { IsGood table.old.levels }
    requires first { Owns table.old g }
    requires second { Owns table.old h }
    requires owned { All (OwnsSum book.old) sums.now }
    requires each { All (IsSumIn (length (node_of table.old g).connections)
        (length (node_of table.old h).connections) (2 ^ (2 ^ (g.level - 2))))
        (sums_of book.old sums.now) }
    requires known { AreProducts table.old.levels book.old done.old.entries }
    ensures rows { let n = 2 ^ (2 ^ (g.level - 2)) in
        IfOk result (λ v. HaveSumRows table.new.levels book.new (suc (g.level - 2))
        (λ i. row_sums table.old g h (slice_index_or (sums_of book.old sums.now) i []))
        (n * n) (length sums.now) (map listed v.items)) }
    ensures known { OnOk result (AreProducts table.new.levels book.new done.new.entries) }
    ensures grown { HasGrown table.old table.new book.old book.new }
{
    let mut rows = Vec::new(alloc);
    for i in 0..sums.len() {
        let terms = Vec::from_slice(alloc, book.get(sums[i]))?;
        let row = sum_row(alloc, table, book, done, g, h, terms.as_slice())?;
        rows.push(row)?;
    }
    Ok(rows)
}
