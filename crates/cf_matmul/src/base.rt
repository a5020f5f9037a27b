//! The sums at level 1, where rows, columns and inner indices have one bit each.

ghost use Rattle.std.specs.Prelude.{◌≡◌, ◌<◌, ◌≤◌, ◌+◌, ◌*◌, ◌==◌, IfOk, slice_index_or, [], ◌∷◌};
ghost use Rattle.cf_model.specs.Diagrams.{IsGood};
ghost use Rattle.cf_tuple.specs.Books.{Lengthens};
ghost use Rattle.cf_table.specs.Groupings.{Owns, pattern_of};
ghost use Rattle.cf_build.specs.Assembling.{listed};
ghost use Rattle.cf_comb.specs.CombBooks.{OwnsSum, sum_of};
ghost use Rattle.cf_comb.specs.ExitSums.{exit_sum};
ghost use Rattle.cf_matmul.specs.Symbolic.{exit_in, exit_sums, two_sums, HasMade, HasSums, HasGrown};

use cf_build::assemble;
use cf_comb::{CombBook, CombId};
use cf_table::{FORK, Gid, Table};
use cf_tuple::NoMemory;
use std::alloc::Global;

/// The exit of a grouping of level 1 at a row and a column.
fn exit_at_two(table: &Table, g: Gid, row: u64, col: u64) -> u64
    requires level { g.level ≡ 1 }
    requires good { IsGood table.now.levels }
    requires owned { Owns table.now g }
    requires row { row < 2 }
    requires col { col < 2 }
    ensures { result ≡ slice_index_or (pattern_of table.now g) (2 * row + col) 0 }
{
    let a = table.a_callee(g);
    let j = if a.at == 0 { 0 } else { row };
    let b = table.connection(g, j);
    let i = if b.to.at == 0 { 0 } else { col };
    table.tuple(b.ret)[i as usize]
}

/// The sum at a row and a column: the exits that meet at inner index 0 and at inner index 1.
fn sum_at_two(
    table: &Table,
    book: &mut CombBook,
    g: Gid,
    h: Gid,
    row: u64,
    col: u64,
) -> Result<CombId, NoMemory>
    requires level { g.level ≡ 1 }
    requires levels { h.level ≡ 1 }
    requires good { IsGood table.now.levels }
    requires first { Owns table.now g }
    requires second { Owns table.now h }
    requires row { row < 2 }
    requires col { col < 2 }
    ensures owned { IfOk result (λ c. OwnsSum book.new c) }
    ensures sum { IfOk result (λ c. sum_of book.new c ≡ exit_sum 1
        (exit_in (pattern_of table.now g)) (exit_in (pattern_of table.now h))
        ((row == 1) ∷ []) ((col == 1) ∷ [])) }
    ensures kept { Lengthens book.old book.new }
{
    let left = exit_at_two(table, g, row, 0);
    let top = exit_at_two(table, h, 0, col);
    let first = book.single(left, top)?;
    let right = exit_at_two(table, g, row, 1);
    let bottom = exit_at_two(table, h, 1, col);
    let second = book.single(right, bottom)?;
    book.add(first, second)
}

/// The two sums of a row.
fn row_at_two(
    alloc: Global,
    table: &Table,
    book: &mut CombBook,
    g: Gid,
    h: Gid,
    row: u64,
) -> Result<Vec<CombId>, NoMemory>
    requires level { g.level ≡ 1 }
    requires levels { h.level ≡ 1 }
    requires good { IsGood table.now.levels }
    requires first { Owns table.now g }
    requires second { Owns table.now h }
    requires row { row < 2 }
    ensures made { IfOk result (λ v. HasMade book.old book.new v.items
        (two_sums (pattern_of table.now g) (pattern_of table.now h) (row == 1))) }
    ensures kept { Lengthens book.old book.new }
{
    let mut sums = Vec::new(alloc);
    let first = sum_at_two(table, book, g, h, row, 0)?;
    sums.push(first)?;
    let second = sum_at_two(table, book, g, h, row, 1)?;
    sums.push(second)?;
    Ok(sums)
}

/// The sums of two groupings of level 1.
pub(crate) fn base_sums(
    alloc: Global,
    table: &mut Table,
    book: &mut CombBook,
    g: Gid,
    h: Gid,
) -> Result<(Gid, Vec<CombId>), NoMemory>
    requires level { g.level ≡ 1 }
    requires levels { h.level ≡ 1 }
    requires good { IsGood table.old.levels }
    requires first { Owns table.old g }
    requires second { Owns table.old h }
    ensures summed { IfOk result (λ r. HasSums table.new.levels book.new 1
        (exit_sums 0 (pattern_of table.old g) (pattern_of table.old h)) (listed r)) }
    ensures grown { HasGrown table.old table.new book.old book.new }
{
    let top = row_at_two(alloc, table, book, g, h, 0)?;
    let bottom = row_at_two(alloc, table, book, g, h, 1)?;
    book.law();
    assemble(alloc, table, FORK, &[(FORK, top), (FORK, bottom)])
}
