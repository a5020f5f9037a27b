//! The groupings of constants and of variables.

ghost use Rattle.std.specs.Prelude.{◌≡◌, ◌<◌, ◌≤◌, ◌+◌, ◌-◌, ◌%◌, ◌^◌, length, slice_get, Some, All, IfOk};
ghost use Rattle.cf_model.specs.Values.{Fits};
ghost use Rattle.cf_model.specs.Renumbering.{AllDiffer};
ghost use Rattle.cf_model.specs.Diagrams.{IsGood, Extends};
ghost use Rattle.cf_tuple.specs.Books.{Lengthens};
ghost use Rattle.cf_build.specs.Assembling.{Stands};
ghost use Rattle.cf_pair.specs.Products.{AddsPartsOf};
ghost use Rattle.cf_pkg.specs.Basics.{constant_pattern, variable_pattern, AreBasics};
ghost use Rattle.cf_pkg.specs.Tasks as task;
ghost use Rattle.cf_pkg.specs.Packages.{IsRemembered, Keeps, HasParts, AddsParts};
ghost use Rattle.cf_pkg.specs.Jobs.{Finishes, AnswersFinished};
ghost use Rattle.cf_pkg.specs.Remembering.{FinishesBelow};

use crate::memo::{Alone, JobKey};
use crate::{Func, Pkg};
use cf_build::assemble;
use cf_table::{DONT_CARE, FORK, Gid, Table};
use cf_tuple::NoMemory;
use std::alloc::Global;

/// The groupings of a level's constant and of one of its variables.
#[derive(Clone, Copy)]
struct BasicGroupings {
    constant: Gid,
    variable: Gid,
}

/// How many variables half of an assignment gives a bit to.
fn half_of(level: u8) -> u8
    requires above { 1 ≤ level }
    requires level { level ≤ 7 }
    ensures { result ≡ 2 ^ (level - 1) }
{
    1u8 << (level - 1)
}

/// The grouping of a level's constant, from that of the level below.
fn constant_above(alloc: Global, table: &mut Table, level: u8, below: Gid) -> Result<Gid, NoMemory>
    requires above { 1 ≤ level }
    requires level { level ≤ 7 }
    requires below { Stands table.old.levels below (level - 1) (constant_pattern (level - 1)) }
    requires good { IsGood table.old.levels }
    ensures stands { IfOk result (λ g. Stands table.new.levels g level (constant_pattern level)) }
    ensures added { IfOk result (AddsPartsOf table.old table.new) }
    ensures good { IsGood table.new.levels }
    ensures extends { Extends table.old.levels table.new.levels }
    ensures longer { Lengthens table.old.tuples table.new.tuples }
{
    let label = Vec::from_slice(alloc, &[0_u64])?;
    let (g, _) = assemble(alloc, table, below, &[(below, label)])?;
    Ok(g)
}

/// The grouping of a variable in the first half of an assignment, from those of the level below.
fn first_above(
    alloc: Global,
    table: &mut Table,
    level: u8,
    i: u8,
    below: BasicGroupings,
) -> Result<Gid, NoMemory>
    requires above { 1 ≤ level }
    requires level { level ≤ 7 }
    requires variable { i < 2 ^ (level - 1) }
    requires below { AreBasics table.old.levels below (level - 1) i }
    requires good { IsGood table.old.levels }
    ensures stands { IfOk result (λ g. Stands table.new.levels g level (variable_pattern level i)) }
    ensures added { IfOk result (AddsPartsOf table.old table.new) }
    ensures good { IsGood table.new.levels }
    ensures extends { Extends table.old.levels table.new.levels }
    ensures longer { Lengthens table.old.tuples table.new.tuples }
{
    let whole = below.constant;
    let zero = Vec::from_slice(alloc, &[0_u64])?;
    let one = Vec::from_slice(alloc, &[1_u64])?;
    let (g, _) = assemble(alloc, table, below.variable, &[(whole, zero), (whole, one)])?;
    Ok(g)
}

/// The grouping of a variable in the second half, from those of the level below.
fn second_above(
    alloc: Global,
    table: &mut Table,
    level: u8,
    i: u8,
    below: BasicGroupings,
) -> Result<Gid, NoMemory>
    requires above { 1 ≤ level }
    requires level { level ≤ 7 }
    requires half { 2 ^ (level - 1) ≤ i }
    requires variable { i < 2 ^ level }
    requires below { AreBasics table.old.levels below (level - 1) (i - 2 ^ (level - 1)) }
    requires good { IsGood table.old.levels }
    ensures stands { IfOk result (λ g. Stands table.new.levels g level (variable_pattern level i)) }
    ensures added { IfOk result (AddsPartsOf table.old table.new) }
    ensures good { IsGood table.new.levels }
    ensures extends { Extends table.old.levels table.new.levels }
    ensures longer { Lengthens table.old.tuples table.new.tuples }
{
    let bits = Vec::from_slice(alloc, &[0_u64, 1])?;
    let (g, _) = assemble(alloc, table, below.constant, &[(below.variable, bits)])?;
    Ok(g)
}

/// The grouping of the variable at position i, from those of the level below, whose variable has
/// the same place in its half.
fn variable_above(
    alloc: Global,
    table: &mut Table,
    level: u8,
    i: u8,
    below: BasicGroupings,
) -> Result<Gid, NoMemory>
    requires above { 1 ≤ level }
    requires level { level ≤ 7 }
    requires variable { i < 2 ^ level }
    requires below { AreBasics table.old.levels below (level - 1) (i % 2 ^ (level - 1)) }
    requires good { IsGood table.old.levels }
    ensures stands { IfOk result (λ g. Stands table.new.levels g level (variable_pattern level i)) }
    ensures added { IfOk result (AddsPartsOf table.old table.new) }
    ensures good { IsGood table.new.levels }
    ensures extends { Extends table.old.levels table.new.levels }
    ensures longer { Lengthens table.old.tuples table.new.tuples }
{
    if i < half_of(level) {
        return first_above(alloc, table, level, i, below);
    }
    second_above(alloc, table, level, i, below)
}

impl Pkg {
    /// The function of a grouping and the values of its exits, which differ.
    fn with_values(&mut self, head: Gid, values: &[i128]) -> Result<Func, NoMemory>
        requires some { 0 < length values.now }
        requires differ { AllDiffer values.now }
        requires fit { All Fits values.now }
        ensures head { IfOk result (λ f. f.head ≡ head) }
        ensures values { IfOk result (λ f. slice_get self.new.lists f.vals.at ≡ Some values.now) }
        ensures groupings { self.new.groupings ≡ self.old.groupings }
        ensures memo { self.new.memo ≡ self.old.memo }
        ensures kept { Keeps self.old self.new }
    {
        self.table.law();
        let vals = self.values.intern(values)?;
        Ok(Func { head, vals })
    }

    /// The grouping of a level's constant, from that of the level below.
    fn constant_over(&mut self, level: u8, below: Gid) -> Result<Gid, NoMemory>
        requires above { 1 ≤ level }
        requires level { level ≤ 7 }
        requires below { Stands self.old.groupings.levels below
            (level - 1) (constant_pattern (level - 1)) }
        ensures stands { IfOk result (λ g.
            Stands self.new.groupings.levels g level (constant_pattern level)) }
        ensures added { IfOk result (AddsPartsOf self.old.groupings self.new.groupings) }
        ensures good { IsGood self.new.groupings.levels }
        ensures memo { self.new.memo ≡ self.old.memo }
        ensures kept { Keeps self.old self.new }
    {
        self.table.law();
        constant_above(self.alloc, &mut self.table, level, below)
    }

    /// The grouping of a variable, from those of the level below.
    fn variable_over(&mut self, level: u8, i: u8, below: BasicGroupings) -> Result<Gid, NoMemory>
        requires above { 1 ≤ level }
        requires level { level ≤ 7 }
        requires variable { i < 2 ^ level }
        requires below { AreBasics self.old.groupings.levels below
            (level - 1) (i % 2 ^ (level - 1)) }
        ensures stands { IfOk result (λ g.
            Stands self.new.groupings.levels g level (variable_pattern level i)) }
        ensures added { IfOk result (AddsPartsOf self.old.groupings self.new.groupings) }
        ensures good { IsGood self.new.groupings.levels }
        ensures memo { self.new.memo ≡ self.old.memo }
        ensures kept { Keeps self.old self.new }
    {
        self.table.law();
        variable_above(self.alloc, &mut self.table, level, i, below)
    }

    /// The function that is v everywhere, which is remembered.
    #[cycle(constant)]
    pub(crate) fn known_constant(&mut self, level: u8, v: i128) -> Result<Func, NoMemory>
        requires level { level ≤ 7 }
        ensures is_it { IfOk result (Finishes self.new (task.Const level v)) }
        ensures added { IfOk result (AddsParts self.old self.new) }
        ensures parts { IfOk result (HasParts self.new) }
        ensures remembered { IfOk result (IsRemembered self.new (task.Const level v)) }
        ensures finished { AnswersFinished self.old self.new (task.Const level v) result }
        ensures below { FinishesBelow self.old self.new (level + 1) }
        ensures kept { Keeps self.old self.new }
    {
        let key = JobKey::Alone(Alone::Constant { level, value: v });
        if let Some(known) = self.finished(key) {
            return Ok(known);
        }
        let head = self.constant_grouping(level)?;
        let made = self.with_values(head, &[v])?;
        self.table().law();
        self.remember(key, made)?;
        Ok(made)
    }

    /// The grouping of the constants of a level, which has one exit.
    #[cycle(constant)]
    fn constant_grouping(&mut self, level: u8) -> Result<Gid, NoMemory>
        requires level { level ≤ 7 }
        ensures stands { IfOk result (λ g.
            Stands self.new.groupings.levels g level (constant_pattern level)) }
        ensures added { IfOk result (AddsPartsOf self.old.groupings self.new.groupings) }
        ensures below { FinishesBelow self.old self.new level }
        ensures kept { Keeps self.old self.new }
    {
        if level == 0 {
            self.table().law();
            return Ok(DONT_CARE);
        }
        let below = self.known_constant(level - 1, 0)?;
        self.law(below);
        self.constant_over(level, below.head)
    }

    /// The function that is bit i, which is remembered.
    #[cycle(variable)]
    pub(crate) fn known_variable(&mut self, level: u8, i: u8) -> Result<Func, NoMemory>
        requires level { level ≤ 7 }
        requires variable { i < 2 ^ level }
        ensures is_it { IfOk result (Finishes self.new (task.Var level i)) }
        ensures added { IfOk result (AddsParts self.old self.new) }
        ensures parts { IfOk result (HasParts self.new) }
        ensures remembered { IfOk result (IsRemembered self.new (task.Var level i)) }
        ensures finished { AnswersFinished self.old self.new (task.Var level i) result }
        ensures below { FinishesBelow self.old self.new (level + 1) }
        ensures kept { Keeps self.old self.new }
    {
        let key = JobKey::Alone(Alone::Variable { level, position: i });
        if let Some(known) = self.finished(key) {
            return Ok(known);
        }
        let head = self.variable_grouping(level, i)?;
        let made = self.with_values(head, &[0, 1])?;
        self.table().law();
        self.remember(key, made)?;
        Ok(made)
    }

    /// The grouping of the variable at position i, whose exits are the bit's two values.
    #[cycle(variable)]
    fn variable_grouping(&mut self, level: u8, i: u8) -> Result<Gid, NoMemory>
        requires level { level ≤ 7 }
        requires variable { i < 2 ^ level }
        ensures stands { IfOk result (λ g.
            Stands self.new.groupings.levels g level (variable_pattern level i)) }
        ensures added { IfOk result (AddsPartsOf self.old.groupings self.new.groupings) }
        ensures below { FinishesBelow self.old self.new level }
        ensures kept { Keeps self.old self.new }
    {
        if level == 0 {
            self.table().law();
            return Ok(FORK);
        }
        let constant = self.known_constant(level - 1, 0)?;
        self.law(constant);
        let variable = self.known_variable(level - 1, i % half_of(level))?;
        self.law(variable);
        let below = BasicGroupings {
            constant: constant.head,
            variable: variable.head,
        };
        self.variable_over(level, i, below)
    }
}
