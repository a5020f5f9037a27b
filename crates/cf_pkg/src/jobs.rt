//! Jobs: operations on functions that exist, and the recipes that carry them out.

ghost use Rattle.std.specs.Prelude.{◌≡◌, ◌↔◌, IsTrue, IfOk};
ghost use Rattle.cf_model.specs.Diagrams.{IsGood, Extends};
ghost use Rattle.cf_tuple.specs.Books.{Lengthens};
ghost use Rattle.cf_build.specs.Assembling.{AddsOnly};
ghost use Rattle.cf_pkg.specs.declared.jobs.Job.{Job};
ghost use Rattle.cf_pkg.specs.Memos.{no_job};
ghost use Rattle.cf_pkg.specs.Packages.{Keeps, IsRemembered, package_of};
ghost use Rattle.cf_pkg.specs.Faults.{IfOverflow};
ghost use Rattle.cf_pkg.specs.Jobs.{task_of, AnswersFinished, IsInOrder, IsRestriction, job_level, job_value, job_parts, Gives, IsLeastWithout};
ghost use Rattle.cf_pkg.specs.Outcomes.{IsJobOutcome};

use crate::{Func, Pkg};
use cf_bits::Bits;
use cf_ops::Term;
use cf_table::{Gid, Table};
use cf_tuple::NoMemory;
use cf_values::ValueBook;
use std::alloc::Global;
use thiserror::Error;

/// Why an operation has no function.
#[derive(Clone, Copy, Debug, Error)]
pub enum OpFault {
    #[error("no memory")]
    NoMemory,
    /// The least assignment at which the operation has no value.
    #[error("the value at {at:?} does not fit")]
    Overflow { at: Bits },
}

impl From<NoMemory> for OpFault {
    ghost use Rattle.std.specs.Prelude.{◌≡◌};
    ghost use Rattle.cf_pkg.specs.declared.jobs.OpFault.{OpFault};

    ghost from_gives = { λ _ e. e ≡ OpFault.NoMemory };

    fn from(_: NoMemory) -> OpFault {
        OpFault::NoMemory
    }
}

/// One operation on functions of a package.
#[derive(Clone, Copy)]
pub enum Job<'a> {
    /// v everywhere.
    Const {
        level: u8,
        v: i128,
    },
    /// Bit i.
    Var {
        level: u8,
        i: u8,
    },
    /// The tree's value at f's.
    Map {
        tree: &'a Term,
        f: Func,
    },
    /// The tree's value at those of f and g.
    Apply {
        tree: &'a Term,
        f: Func,
        g: Func,
    },
    /// The tree's value at those of f, g and h.
    Ternary {
        tree: &'a Term,
        f: Func,
        g: Func,
        h: Func,
    },
    /// f with bit i replaced by b.
    Restrict {
        f: Func,
        i: u8,
        b: bool,
    },
    /// f's value at the first half times g's at the second half.
    Kron {
        f: Func,
        g: Func,
    },
    /// The matrix product.
    Matmul {
        f: Func,
        g: Func,
    },
    /// Rows and columns exchanged.
    Transpose {
        f: Func,
    },
    /// The identity matrix.
    Id {
        level: u8,
    },
    /// The Walsh matrix.
    Walsh {
        level: u8,
    },
    /// 1 in row r and column c, else 0.
    Unit {
        level: u8,
        r: u64,
        c: u64,
    },
}

/// How some jobs are carried out.
pub trait Recipe {
    /// Which jobs it carries out.
    ghost does: { Self → Job → Type 0 };

    /// Whether it carries out the job.
    fn handles(&self, job: &Job) -> bool
        ensures { IsTrue result ↔ does self.now job.now };

    /// A grouping, and a value for each of its exits, that together have the job's value at each
    /// assignment. Values may repeat.
    fn cook(
        &self,
        alloc: Global,
        table: &mut Table,
        values: &ValueBook,
        job: &Job,
    ) -> Result<(Gid, Vec<i128>), OpFault>
        requires does { does self.now job.now }
        requires in_order { IsInOrder (package_of table.old values.now no_job) job.now }
        ensures value { IfOk result (λ r. Gives table.new.levels r.0 r.1.items
            (job_level job.now) (job_value (package_of table.old values.now no_job) job.now)) }
        ensures overflow { IfOverflow result (IsLeastWithout
            (job_level job.now) (job_value (package_of table.old values.now no_job) job.now)) }
        ensures restricted { IsRestriction job.now → IfOk result (λ r.
            AddsOnly table.old.levels table.new.levels
            (job_parts (package_of table.old values.now no_job) job.now)) }
        ensures good { IsGood table.new.levels }
        ensures kept { Extends table.old.levels table.new.levels }
        ensures tuples { Lengthens table.old.tuples table.new.tuples };
}

impl Pkg {
    /// The job's function, by a recipe that carries such jobs out. Overflow comes exactly where
    /// the job has no value at some assignment, and says the least.
    fn make_anew<R: Recipe>(&mut self, recipe: &R, job: Job) -> Result<Func, OpFault>
        requires does { R.does recipe.now job }
        requires in_order { IsInOrder self.old job }
        ensures outcome { IsJobOutcome self.old self.new job.entry result }
        ensures memo { self.new.memo ≡ self.old.memo }
        ensures kept { Keeps self.old self.new }
    {
        self.table.law();
        let (g, values) = recipe.cook(self.alloc, &mut self.table, &self.values, &job)?;
        let f = self.valued(g, values.as_slice())?;
        self.law(f);
        Ok(f)
    }

    /// The same, where the job isn't finished: else its function.
    pub fn make<R: Recipe>(&mut self, recipe: &R, job: Job) -> Result<Func, OpFault>
        requires does { R.does recipe.now job }
        requires in_order { IsInOrder self.old job }
        ensures outcome { IsJobOutcome self.old self.new job.entry result }
        ensures remembered { IfOk result (IsRemembered self.new (task_of job.entry)) }
        ensures finished { AnswersFinished self.old self.new (task_of job.entry) result }
        ensures kept { Keeps self.old self.new }
    {
        let key = self.key_of(&job)?;
        if let Some(known) = self.finished(key) {
            return Ok(known);
        }
        let made = self.make_anew(recipe, job)?;
        self.remember(key, made)?;
        Ok(made)
    }
}
