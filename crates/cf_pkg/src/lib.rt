// Functions with integer values, each of one representative.
#![tactic(auto)]

mod anew;
mod basics;
mod exits;
mod jobs;
mod least_assignment;
mod lookups;
mod memo;
mod operations;
mod reached;
mod walk;
mod words;

ghost use Rattle.std.specs.Prelude.{◌≡◌, ◌<◌, ◌≤◌, ◌+◌, ◌-◌, ◌*◌, ◌^◌, ◌↔◌, List, Bool, IsTrue, IfOk, Some};
ghost use Rattle.cf_model.specs.Assignments.{bits};
ghost use Rattle.cf_model.specs.FlatFunctions.{IsFlatFunction, IsAssignment, value_at, tabulated, variable};
ghost use Rattle.cf_model.specs.Diagrams.{IsGood};
ghost use Rattle.cf_model.specs.Functions.{IsFunction};
ghost use Rattle.cf_model.specs.Renumbering.{AllDiffer};
ghost use Rattle.cf_table.specs.Groupings.{Owns, exits_of};
ghost use Rattle.cf_pkg.specs.Tasks as task;
ghost use Rattle.cf_pkg.specs.Packages.{no_function, values_of, OwnsFunction, IsRemembered, meaning, Means, Keeps, HasParts, AddsParts};
ghost use Rattle.cf_pkg.specs.Jobs.{AnswersFinished};

use cf_bits::Bits;
use cf_table::steps::Steps;
use cf_table::{Gid, Table};
use cf_tuple::NoMemory;
use cf_values::{ValueBook, Vid};
pub use jobs::{Job, OpFault, Recipe};
pub use least_assignment::{least, level_within, variables};
use memo::Memo;
pub use reached::Sizes;
use std::alloc::Global;
use std::marker::Model;
use std::sync::ledger::Ledger;
pub use words::tree_of_two;

/// A function: a grouping, and the list of the values of its exits.
#[derive(Clone, Copy, Debug, PartialEq, Eq, Hash)]
pub struct Func {
    pub head: Gid,
    pub vals: Vid,
}

/// Functions of levels 0 to 7 with values of 128 bits. Equal functions have one `Func`. Each
/// finished job is remembered, so that doing it again takes no memory and adds nothing.
#[derive(Drop)]
pub struct Pkg {
    alloc: Global,
    table: Table,
    values: ValueBook,
    memo: Memo,
}

impl Model for Pkg {
    ghost use Rattle.std.specs.Coded.{codes};
    ghost use Rattle.cf_model.specs.contracts.terms.Term as term;
    ghost use Rattle.cf_pkg.specs.Packages.{Package, package_of};
    ghost use Rattle.cf_pkg.specs.Remembering.{IsSound};

    ghost Value = { Package };

    ghost coded = { Prim.hlevel (codes, term.the_row.coded) };

    ghost view = { λ pkg. package_of pkg.table pkg.values pkg.memo };

    ghost invariant = { λ pkg. IsSound (package_of pkg.table pkg.values pkg.memo) };
}

impl Pkg {
    /// A package without a function.
    pub fn new(alloc: Global) -> Result<Pkg, NoMemory>
        ensures { IfOk result (λ p. p ≡ no_function) }
    {
        Ok(Pkg {
            alloc,
            table: Table::new(alloc)?,
            values: ValueBook::new(alloc),
            memo: Memo::new(alloc)?,
        })
    }

    /// The groupings.
    pub fn table(&self) -> &Table
        ensures { result.now ≡ self.now.groupings }
    {
        &self.table
    }

    /// The lists of values.
    pub fn values(&self) -> &ValueBook
        ensures { result.now ≡ self.now.lists }
    {
        &self.values
    }

    /// Whether the grouping and the values are there, with one value per exit.
    pub fn owns(&self, f: Func) -> bool
        ensures { IsTrue result ↔ OwnsFunction self.now f }
    {
        if !self.table.owns(f.head) || !self.values.owns(f.vals) {
            return false;
        }
        self.values.get(f.vals).len() as u64 == self.table.exits(f.head)
    }

    /// The level of a function, which has 2^level variables.
    pub fn level_of(&self, f: Func) -> u8
        ensures { result ≡ f.head.level }
    {
        f.head.level
    }

    /// The package is good: so is its table, no list of values stands in it twice, an owned function
    /// has one value per exit, its values differ, and no other one means the same. It does nothing.
    pub fn law(&self, f: Func)
        requires owned { OwnsFunction self.now f }
        ensures good { IsGood self.now.groupings.levels }
        ensures level { f.head.level ≤ 7 }
        ensures once { AllDiffer self.now.lists }
        ensures function { IsFunction self.now.groupings.levels
            f.head.level f.head.at (values_of self.now f) }
        ensures one { (g : Func) → OwnsFunction self.now g →
            meaning self.now g ≡ meaning self.now f → g ≡ f }
        ensures flat { (g : Func) → OwnsFunction self.now g → IsFlatFunction (meaning self.now g) }
    {
        self.table.law();
        let _ = self.values.get(f.vals);
    }

    /// The function that is v everywhere.
    pub fn constant(&mut self, level: u8, v: i128) -> Result<Func, NoMemory>
        requires level { level ≤ 7 }
        ensures level { IfOk result (λ f. f.head.level ≡ level) }
        ensures means { IfOk result (λ f. Means self.new f (tabulated level (λ bits. v))) }
        ensures added { IfOk result (AddsParts self.old self.new) }
        ensures parts { IfOk result (HasParts self.new) }
        ensures remembered { IfOk result (IsRemembered self.new (task.Const level v)) }
        ensures finished { AnswersFinished self.old self.new (task.Const level v) result }
        ensures kept { Keeps self.old self.new }
    {
        let f = self.known_constant(level, v)?;
        self.table().law();
        Ok(f)
    }

    /// The function that is bit i, counted from the first, as 0 or 1.
    pub fn variable(&mut self, level: u8, i: u8) -> Result<Func, NoMemory>
        requires level { level ≤ 7 }
        requires variable { i < 2 ^ level }
        ensures level { IfOk result (λ f. f.head.level ≡ level) }
        ensures means { IfOk result (λ f. Means self.new f (variable level i)) }
        ensures added { IfOk result (AddsParts self.old self.new) }
        ensures parts { IfOk result (HasParts self.new) }
        ensures remembered { IfOk result (IsRemembered self.new (task.Var level i)) }
        ensures finished { AnswersFinished self.old self.new (task.Var level i) result }
        ensures kept { Keeps self.old self.new }
    {
        let f = self.known_variable(level, i)?;
        self.table().law();
        Ok(f)
    }

    /// The value of a function at an assignment of its 2^level variables. Each view of a grouping
    /// is a step.
    pub fn eval<L: Ledger>(&self, f: Func, at: Bits, steps: &mut Steps<L>) -> i128
        requires owned { OwnsFunction self.now f }
        requires len { at.len ≡ 2 ^ f.head.level }
        ensures value { value_at (meaning self.now f) (bits at) ≡ Some result }
        ensures cost { steps.new ≤ steps.old + 2 * (2 ^ f.head.level - 1) }
    {
        self.law(f);
        let exit = walk::exit_of(&self.table, f.head, at, steps);
        self.values.get(f.vals)[exit as usize]
    }

    /// Whether two functions of one level agree on every assignment.
    pub fn same(&self, f: Func, g: Func) -> bool
        requires first { OwnsFunction self.now f }
        requires second { OwnsFunction self.now g }
        requires level { f.head.level ≡ g.head.level }
        ensures agree { IsTrue result ↔ ((bits : List Bool) → IsAssignment f.head.level bits →
            value_at (meaning self.now f) bits ≡ value_at (meaning self.now g) bits) }
        ensures one { IsTrue result ↔ (f ≡ g) }
    {
        self.law(f);
        self.law(g);
        f == g
    }
}
