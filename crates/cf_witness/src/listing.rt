//! The assignments of a value in order.

ghost use Rattle.std.specs.Prelude.{◌≡◌, ◌<◌, ◌≤◌, ◌^◌, map, length, take, filter, IfOk};
ghost use Rattle.std.specs.Ordering.{int_eq};
ghost use Rattle.std.specs.Iterator.{YieldsFirstBy, item_count};
ghost use Rattle.cf_model.specs.Assignments.{bits, all_bits};
ghost use Rattle.cf_table.specs.Groupings.{Owns, pattern_of};
ghost use Rattle.cf_pkg.specs.Packages.{OwnsFunction, meaning};
ghost use Rattle.cf_witness.specs.Nexts.{leads};
ghost use Rattle.cf_witness.specs.Witnesses.{assignments_of};

use crate::next::next_place;
use cf_bits::Bits;
use cf_pkg::{Func, Pkg, level_within, variables};
use cf_table::{Gid, Table};
use cf_tuple::NoMemory;
use std::alloc::Global;
use std::marker::Model;
use std::vec;

/// The first assignments of a value, in order of their numbers.
#[derive(Drop)]
pub struct Listing {
    rest: vec::IntoIter<Bits>,
}

impl Model for Listing {
    ghost use Rattle.std.specs.Prelude.{List, Bool, map};
    ghost use Rattle.std.specs.Vec.Iter.{into_iter_items};
    ghost use Rattle.cf_model.specs.Assignments.{bits};

    ghost Value = { List (List Bool) };

    ghost view = { λ listing. map bits (into_iter_items listing.rest) };
}

/// Whether each of the values is v.
fn marks_of_value(alloc: Global, values: &[i128], v: i128) -> Result<Vec<bool>, NoMemory>
    ensures { IfOk result (λ m. m.items ≡ map (λ w. int_eq w v) values.now) }
{
    let mut marks = Vec::new(alloc);
    for &value in values {
        marks.push(value == v)?;
    }
    Ok(marks)
}

/// The first assignments that lead to a marked exit, at most so many.
fn first_marked(
    alloc: Global,
    table: &Table,
    g: Gid,
    marks: &[bool],
    max: usize,
) -> Result<Vec<Bits>, NoMemory>
    requires { Owns table.now g }
    ensures { let marked = filter (leads (pattern_of table.now g) marks.now) (all_bits (2 ^ g.level)) in
        IfOk result (λ v. map bits v.items ≡ take max marked) }
{
    table.law();
    let level = level_within(table, g);
    let mut found = Vec::new(alloc);
    let mut from = 0u128;
    while found.len() < max {
        let Some(place) = next_place(alloc, table, g, marks, from)? else {
            return Ok(found);
        };
        found.push(Bits::new(variables(level), place.number))?;
        let Some(next) = place.number.checked_add(1) else {
            return Ok(found);
        };
        from = next;
    }
    Ok(found)
}

impl Listing {
    /// The first `max` assignments at which a function has the value v, or all if there are fewer.
    pub fn new(alloc: Global, pkg: &Pkg, f: Func, v: i128, max: u16) -> Result<Listing, NoMemory>
        requires owned { OwnsFunction pkg.now f }
        requires some { 1 ≤ max }
        requires most { max ≤ 1000 }
        ensures listed { IfOk result (λ listing. listing ≡ take max (assignments_of (meaning pkg.now f) v)) }
    {
        pkg.law(f);
        let marks = marks_of_value(alloc, pkg.values().get(f.vals), v)?;
        let found = first_marked(
            alloc,
            pkg.table(),
            f.head,
            marks.as_slice(),
            usize::from(max),
        )?;
        Ok(Listing {
            rest: found.into_iter(),
        })
    }
}

impl Iterator for Listing {
    type Item = Bits;

    ghost next_gives = { YieldsFirstBy bits (λ listing. listing) };

    ghost remaining = { item_count (λ listing. listing) };

    /// The next assignment, until all were given. It takes no memory.
    fn next(&mut self) -> Option<Bits> {
        self.rest.next()
    }
}
