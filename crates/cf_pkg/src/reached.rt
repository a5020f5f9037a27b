//! How many groupings of each level there are among the heads of functions and all that those are
//! made of.

ghost use Rattle.std.specs.Prelude.{◌≡◌, ◌≤◌, ◌+◌, [], ◌∷◌, All, IfOk, OnOk, length, map, nat_eq};
ghost use Rattle.std.specs.Ordering.{int_eq};
ghost use Rattle.cf_model.specs.Renumbering.{distinct, distinct_on};
ghost use Rattle.cf_model.specs.Patterns.{pattern_of, sizes};
ghost use Rattle.cf_model.specs.Diagrams.{IsGood};
ghost use Rattle.cf_table.specs.Groupings.{Owns, node_of, grouping_pattern};
ghost use Rattle.cf_pkg.specs.Packages.{OwnsFunction, meaning};
ghost use Rattle.cf_pkg.specs.Sizes.{places_at, callees, ListsReached};

use super::{Func, Pkg};
use cf_table::{Gid, Table};
use cf_tuple::NoMemory;
use indexmap::IndexSet;
use std::alloc::Global;

/// Adds the places of the heads of a level.
fn insert_heads(places: &mut IndexSet<u64>, heads: &[Gid], level: u8) -> Result<(), NoMemory>
    ensures { OnOk result (places.new.keys ≡ distinct_on nat_eq places.old.keys (places_at level heads.now)) }
{
    for head in heads {
        if head.level == level {
            places.insert(head.at)?;
        }
    }
    Ok(())
}

/// Adds the places of the callees of a grouping.
fn insert_callees(places: &mut IndexSet<u64>, table: &Table, g: Gid) -> Result<(), NoMemory>
    requires owned { Owns table.now g }
    requires level { 1 ≤ g.level }
    ensures { OnOk result (places.new.keys ≡ distinct_on nat_eq places.old.keys (callees (node_of table.now g))) }
{
    places.insert(table.a_callee(g).at)?;
    for j in 0..table.middle_count(g) {
        places.insert(table.connection(g, j).to.at)?;
    }
    Ok(())
}

/// The places of the groupings of a level that are reached: the heads of that level, and the
/// callees of those that are reached one level above.
fn reached_at(
    alloc: Global,
    table: &Table,
    heads: &[Gid],
    level: u8,
    above: &[u64],
) -> Result<IndexSet<u64>, NoMemory>
    requires level { level ≤ 7 }
    requires good { IsGood table.now.levels }
    requires owned { All (Owns table.now) heads.now }
    requires above { ListsReached table.now.levels heads.now (level + 1) above.now }
    ensures { IfOk result (λ here. ListsReached table.now.levels heads.now level here.keys) }
{
    let mut here = IndexSet::new(alloc);
    insert_heads(&mut here, heads, level)?;
    for &at in above {
        let parent = Gid {
            level: level + 1,
            at,
        };
        insert_callees(&mut here, table, parent)?;
    }
    Ok(here)
}

/// For each level, how many different groupings there are among the heads and all that they are
/// made of.
pub(crate) fn reached(alloc: Global, table: &Table, heads: &[Gid]) -> Result<[u64; 8], NoMemory>
    requires { All (Owns table.now) heads.now }
    ensures { IfOk result (λ counts. counts ≡ sizes (map (grouping_pattern table.now.levels) heads.now)) }
{
    table.law();
    let mut counts = [0_u64; 8];
    let mut above = IndexSet::new(alloc);
    for level in (0..8_u8).rev() {
        let here = reached_at(alloc, table, heads, level, above.as_slice())?;
        counts[level as usize] = here.len() as u64;
        above = here;
    }
    Ok(counts)
}

/// The size of a function: for each level from 0 to 7, how many different groupings its head
/// reaches, itself included, and how many exits it has.
#[derive(Clone, Copy, Debug, PartialEq, Eq)]
pub struct Sizes {
    pub per_level: [u64; 8],
    pub exits: u64,
}

impl Pkg {
    /// The size of a function: per level, how many different groupings stand for the patterns
    /// that its pattern is made of, itself included (0 above its level), and how many different
    /// values it has. The work is linear in what is reached.
    pub fn sizes(&self, f: Func) -> Result<Sizes, NoMemory>
        requires owned { OwnsFunction self.now f }
        ensures per_level { IfOk result (λ s. s.per_level ≡ sizes (pattern_of (meaning self.now f) ∷ [])) }
        ensures exits { IfOk result (λ s. s.exits ≡ length (distinct int_eq (meaning self.now f).values)) }
    {
        self.law(f);
        let per_level = reached(self.alloc, &self.table, &[f.head])?;
        Ok(Sizes {
            per_level,
            exits: self.table.exits(f.head),
        })
    }

    /// The size of several functions together: per level from 0 to 7, how many different
    /// groupings any of their heads reaches, each counted once. The work is linear in what is
    /// reached.
    pub fn live_sizes(&self, fs: &[Func]) -> Result<[u64; 8], NoMemory>
        requires owned { All (OwnsFunction self.now) fs.now }
        ensures { IfOk result (λ counts. counts ≡ sizes (map (λ f. pattern_of (meaning self.now f)) fs.now)) }
    {
        let heads = self.heads(fs)?;
        reached(self.alloc, &self.table, heads.as_slice())
    }

    /// The heads of functions.
    fn heads(&self, fs: &[Func]) -> Result<Vec<Gid>, NoMemory>
        requires owned { All (OwnsFunction self.now) fs.now }
        ensures owned { IfOk result (λ heads. All (Owns self.now.groupings) heads.items) }
        ensures patterns { IfOk result (λ heads. map (grouping_pattern self.now.groupings.levels) heads.items
            ≡ map (λ f. pattern_of (meaning self.now f)) fs.now) }
    {
        let mut heads = Vec::new(self.alloc);
        for &f in fs {
            self.law(f);
            heads.push(f.head)?;
        }
        Ok(heads)
    }
}
