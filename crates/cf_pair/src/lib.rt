// Products: the grouping of the pairs, or of the triples, of the exits of groupings.
#![tactic(auto)]

mod middle_triples;
mod middles;
mod pairing;
mod plain;
mod tripling;

ghost use Rattle.std.specs.Prelude.{◌≡◌, ◌<◌, ◌≤◌, ◌+◌, ◌*◌, length, IfOk};
ghost use Rattle.std.specs.List.{zip};
ghost use Rattle.cf_model.specs.Patterns.{sub, work_size};
ghost use Rattle.cf_model.specs.Diagrams.{IsGood, Extends, HasPatterns};
ghost use Rattle.cf_tuple.specs.Books.{Lengthens};
ghost use Rattle.cf_table.specs.Groupings.{Owns, pattern_of, patterns_of, KeepsPatterns};
ghost use Rattle.cf_build.specs.Assembling.{HasCanon, AddsOnly};
ghost use Rattle.cf_table.specs.Triples.{zip3};

use cf_table::steps::Steps;
use cf_table::{Gid, Table};
use cf_tuple::NoMemory;
use pairing::pair_groupings;
use std::alloc::Global;
use std::sync::ledger::Ledger;
use tripling::triple_groupings;

/// The grouping of the pairs of exits that g and h have at each assignment, and the different
/// pairs in order of first appearance. Each view of g, h and what they are made of is a step.
pub fn pair<L: Ledger>(
    alloc: Global,
    table: &mut Table,
    g: Gid,
    h: Gid,
    steps: &mut Steps<L>,
) -> Result<(Gid, Vec<(u64, u64)>), NoMemory>
    requires first { Owns table.old g }
    requires second { Owns table.old h }
    requires level { g.level ≡ h.level }
    ensures paired { IfOk result (λ r. HasCanon table.new.levels r.0 g.level
        (zip (pattern_of table.old g) (pattern_of table.old h)) r.1.items) }
    ensures added { IfOk result (λ r. AddsOnly table.old.levels table.new.levels
        (sub r.0.level (pattern_of table.new r.0))) }
    ensures parts { IfOk result (λ r.
        HasPatterns table.new.levels (sub r.0.level (pattern_of table.new r.0))) }
    ensures good { IsGood table.new.levels }
    ensures kept { Extends table.old.levels table.new.levels }
    ensures patterns { KeepsPatterns table.old.levels table.new.levels }
    ensures tuples { Lengthens table.old.tuples table.new.tuples }
    ensures steps { let k = patterns_of table.old.levels g h in
        steps.new ≤ steps.old + 2 * (work_size k.0 * work_size k.1) }
{
    table.law();
    let (head, middles) = pair_groupings(alloc, table, g, h, steps)?;
    let pairs = middles.pairs(alloc, table)?;
    Ok((head, pairs))
}

/// The same for the triples of exits of three groupings.
pub fn triple<L: Ledger>(
    alloc: Global,
    table: &mut Table,
    f: Gid,
    g: Gid,
    h: Gid,
    steps: &mut Steps<L>,
) -> Result<(Gid, Vec<(u64, u64, u64)>), NoMemory>
    requires first { Owns table.old f }
    requires second { Owns table.old g }
    requires third { Owns table.old h }
    requires level { f.level ≡ g.level }
    requires third_level { f.level ≡ h.level }
    ensures tripled { IfOk result (λ r. HasCanon table.new.levels r.0 f.level
        (zip3 (pattern_of table.old f) (pattern_of table.old g) (pattern_of table.old h)) r.1.items) }
    ensures added { IfOk result (λ r. AddsOnly table.old.levels table.new.levels
        (sub r.0.level (pattern_of table.new r.0))) }
    ensures parts { IfOk result (λ r.
        HasPatterns table.new.levels (sub r.0.level (pattern_of table.new r.0))) }
    ensures good { IsGood table.new.levels }
    ensures kept { Extends table.old.levels table.new.levels }
    ensures patterns { KeepsPatterns table.old.levels table.new.levels }
    ensures tuples { Lengthens table.old.tuples table.new.tuples }
{
    table.law();
    let (head, middles) = triple_groupings(alloc, table, f, g, h, steps)?;
    let triples = middles.triples(alloc, table)?;
    Ok((head, triples))
}
