//! The next assignment that leads to a marked exit.

ghost use Rattle.std.specs.Prelude.{◌≡◌, ◌<◌, ◌≤◌, ◌-◌, ◌^◌, ◌==◌, if◌then◌else◌, map, length, IfOk, MatchOption, slice_index_or as get_or};
ghost use Rattle.cf_model.specs.FlatFunctions.{points};
ghost use Rattle.cf_model.specs.Diagrams.{connection_at, pattern, row};
ghost use Rattle.cf_table.specs.Groupings.{Owns, node_of, pattern_of};
ghost use Rattle.cf_witness.specs.Nexts.{is_marked, has_marked, LacksMarked, IsNext};

use cf_pkg::variables;
use cf_table::{DONT_CARE, Gid, Table};
use cf_tuple::NoMemory;
use std::alloc::Global;

/// The number of an assignment, and the exit to which it leads.
#[derive(Clone, Copy)]
pub(crate) struct Place {
    pub(crate) number: u128,
    pub(crate) exit: u64,
}

fn is_marked(marks: &[bool], exit: u64) -> bool
    ensures { result ≡ is_marked marks.now exit }
{
    marks.get(exit as usize).copied().unwrap_or(false)
}

fn has_marked(marks: &[bool], exits: &[u64]) -> bool
    ensures { result ≡ has_marked marks.now exits.now }
{
    exits.iter().any(|exit| is_marked(marks, *exit))
}

/// The marks of the exits that a return tuple lists.
fn marks_of(alloc: Global, marks: &[bool], exits: &[u64]) -> Result<Vec<bool>, NoMemory>
    ensures { IfOk result (λ v. v.items ≡ map (is_marked marks.now) exits.now) }
{
    let mut inner = Vec::new(alloc);
    for &exit in exits {
        inner.push(is_marked(marks, exit))?;
    }
    Ok(inner)
}

/// For each middle vertex whether it leads to a marked exit.
fn marks_of_middles(
    alloc: Global,
    table: &Table,
    g: Gid,
    marks: &[bool],
) -> Result<Vec<bool>, NoMemory>
    requires owned { Owns table.now g }
    requires level { 1 ≤ g.level }
    ensures { IfOk result (λ v. v.items ≡ map (λ b. has_marked marks.now b.returns) (node_of table.now g).connections) }
{
    let mut middles = Vec::new(alloc);
    for j in 0..table.middle_count(g) {
        middles.push(has_marked(marks, table.tuple(table.connection(g, j).ret)))?;
    }
    Ok(middles)
}

/// How many assignments a level has.
fn assignments(level: u8) -> u128
    requires { level ≤ 6 }
    ensures is { result ≡ points level }
    ensures most { result ≤ 2 ^ 64 }
{
    1u128 << variables(level)
}

/// The exit of a grouping of level 0 at a bit.
fn base_exit(table: &Table, g: Gid, bit: u128) -> u64
    requires owned { Owns table.now g }
    requires level { g.level ≡ 0 }
    requires bit { bit < 2 }
    ensures { result ≡ get_or (pattern_of table.now g) bit 0 }
{
    if g == DONT_CARE { 0 } else { bit as u64 }
}

/// From an assignment on, the first place of a grouping of level 0 with a marked exit.
fn next_of_base(table: &Table, g: Gid, marks: &[bool], from: u128) -> Option<Place>
    requires owned { Owns table.now g }
    requires level { g.level ≡ 0 }
    ensures { MatchOption result
        (LacksMarked (pattern_of table.now g) marks.now from (points g.level))
        (λ p. IsNext (pattern_of table.now g) marks.now from p.number p.exit) }
{
    table.law();
    for number in from..2 {
        let exit = base_exit(table, g, number);
        if is_marked(marks, exit) {
            return Some(Place { number, exit });
        }
    }
    None
}

/// The second half from which a row is searched: all of it, if its first half is a later one.
fn second_from(number: u128, first: u128, second: u128) -> u128
    ensures { result ≡ (if number == first then second else 0) }
{
    if number == first { second } else { 0 }
}

/// From an assignment on, the first place of a grouping with a marked exit, if there is one.
#[cycle(next)]
pub(crate) fn next_place(
    alloc: Global,
    table: &Table,
    g: Gid,
    marks: &[bool],
    from: u128,
) -> Result<Option<Place>, NoMemory>
    requires owned { Owns table.now g }
    requires level { g.level ≤ 7 }
    ensures { IfOk result (λ o. MatchOption o
        (LacksMarked (pattern_of table.now g) marks.now from (points g.level))
        (λ p. IsNext (pattern_of table.now g) marks.now from p.number p.exit)) }
{
    table.law();
    if g.level == 0 {
        return Ok(next_of_base(table, g, marks, from));
    }
    let half = assignments(g.level - 1);
    let a = table.a_callee(g);
    let middles = marks_of_middles(alloc, table, g, marks)?;
    let mut first = from / half;
    let mut second = from % half;
    while first < half {
        let Some(middle) = next_place(alloc, table, a, middles.as_slice(), first)? else {
            return Ok(None);
        };
        let low = second_from(middle.number, first, second);
        if let Some(inner) = next_in_row(alloc, table, g, middle.exit, marks, low)? {
            let number = half * middle.number + inner.number;
            return Ok(Some(Place {
                number,
                exit: inner.exit,
            }));
        }
        first = middle.number + 1;
        second = 0;
    }
    Ok(None)
}

/// The same for the row of a middle vertex, over the assignments of the second half.
#[cycle(next)]
fn next_in_row(
    alloc: Global,
    table: &Table,
    g: Gid,
    middle: u64,
    marks: &[bool],
    from: u128,
) -> Result<Option<Place>, NoMemory>
    requires owned { Owns table.now g }
    requires above { 1 ≤ g.level }
    requires level { g.level ≤ 7 }
    requires middle { middle < length (node_of table.now g).connections }
    ensures { let list = row (pattern table.now.levels (g.level - 1)) (connection_at (node_of table.now g).connections middle) in
        IfOk result (λ o. MatchOption o
        (LacksMarked list marks.now from (points (g.level - 1)))
        (λ p. IsNext list marks.now from p.number p.exit)) }
{
    table.law();
    let b = table.connection(g, middle);
    let exits = table.tuple(b.ret);
    let inner = marks_of(alloc, marks, exits)?;
    let Some(place) = next_place(alloc, table, b.to, inner.as_slice(), from)? else {
        return Ok(None);
    };
    let exit = exits[place.exit as usize];
    Ok(Some(Place {
        number: place.number,
        exit,
    }))
}
