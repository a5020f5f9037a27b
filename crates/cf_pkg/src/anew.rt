//! Operations on functions as they are done, point by point, where no function is remembered.

ghost use Rattle.std.specs.Prelude.{◌≡◌, ◌≤◌, ◌+◌, length, IfOk};
ghost use Rattle.cf_model.specs.Functions.{function_of};
ghost use Rattle.cf_table.specs.Groupings.{Owns, exits_of};
ghost use Rattle.cf_ops.specs.Operations.{Answers1, Answers2, Answers3};
ghost use Rattle.cf_pkg.specs.Tasks as task;
ghost use Rattle.cf_pkg.specs.Packages.{OwnsFunction, Means, Keeps, HasParts, AddsParts};
ghost use Rattle.cf_pkg.specs.Jobs.{AreLevel};
ghost use Rattle.cf_pkg.specs.Faults.{IsFaultOf, IsExitFault};
ghost use Rattle.cf_pkg.specs.Products.{pair_steps};
ghost use Rattle.cf_pkg.specs.Outcomes.{IsOutcome};

use crate::exits::{ExitFault, apply_exits, map_exits, ternary_exits};
use crate::jobs::OpFault;
use crate::least_assignment::least_uncounted;
use crate::{Func, Pkg};
use cf_build::{canon_of, reduce};
use cf_ops::{Op1, Op2, Op3};
use cf_pair::{pair, triple};
use cf_table::Gid;
use cf_table::steps::Steps;
use cf_tuple::NoMemory;
use std::marker::Brand;
use std::sync::ledger::{Blank, Ledger};

/// How many products and reductions are remembered at the end of an operation, for each grouping
/// of the table. Where there are more they are forgotten.
const REMEMBERED_PER_GROUPING: usize = 8;

impl Pkg {
    /// The function of a grouping and a value for each of its exits, which may repeat.
    pub(crate) fn valued(&mut self, g: Gid, values: &[i128]) -> Result<Func, NoMemory>
        requires owned { Owns self.old.groupings g }
        requires valued { length values.now ≡ exits_of self.old.groupings g }
        ensures means { IfOk result (λ f.
            Means self.new f (function_of self.old.groupings.levels g.level g.at values.now)) }
        ensures added { IfOk result (AddsParts self.old self.new) }
        ensures parts { IfOk result (HasParts self.new) }
        ensures memo { self.new.memo ≡ self.old.memo }
        ensures kept { Keeps self.old self.new }
    {
        self.table.law();
        self.table.forget_beyond(REMEMBERED_PER_GROUPING);
        let (ranks, different) = canon_of(self.alloc, values)?;
        let head = reduce(self.alloc, &mut self.table, g, ranks.as_slice())?;
        let vals = self.values.intern(different.as_slice())?;
        Ok(Func { head, vals })
    }

    /// The overflow of an operation that has no value at some exit of a grouping.
    fn overflow(&self, g: Gid, fault: ExitFault) -> OpFault
        requires owned { Owns self.now.groupings g }
        requires exit { IsExitFault self.now.groupings.levels g fault }
        ensures { IsFaultOf self.now.groupings.levels g fault result }
    {
        match fault {
            ExitFault::NoMemory => OpFault::NoMemory,
            ExitFault::NoValue { exit } => {
                let at = least_uncounted::<Brand>(&self.table, g, exit, Blank::new(1));
                OpFault::Overflow { at }
            }
        }
    }

    /// The function that has at each assignment the operation's answer at f's value. Overflow
    /// comes exactly where the operation has no value at some assignment, and says the least.
    pub(crate) fn map_anew<F: Fn(i128) -> Option<i128>>(
        &mut self,
        op: &Op1<F>,
        f: Func,
    ) -> Result<Func, OpFault>
        requires answers { Answers1 (F.pre op.now.call) (F.post op.now.call) op.now.tree }
        requires owned { OwnsFunction self.old f }
        ensures outcome { IsOutcome self.old self.new (task.Map op.now.tree f) result }
        ensures memo { self.new.memo ≡ self.old.memo }
        ensures kept { Keeps self.old self.new }
    {
        self.law(f);
        match map_exits(self.alloc, op, self.values.get(f.vals)) {
            Ok(values) => Ok(self.valued(f.head, values.as_slice())?),
            Err(fault) => Err(self.overflow(f.head, fault)),
        }
    }

    /// The function that has at each assignment the operation's answer at the values of f and g.
    /// Overflow comes exactly where the operation has no value at some assignment, and says the
    /// least. Each view of a grouping is a step.
    pub(crate) fn apply_anew<F: Fn(i128, i128) -> Option<i128>, L: Ledger>(
        &mut self,
        op: &Op2<F>,
        f: Func,
        g: Func,
        steps: &mut Steps<L>,
    ) -> Result<Func, OpFault>
        requires answers { Answers2 (F.pre op.now.call) (F.post op.now.call) op.now.tree }
        requires level { AreLevel self.old f g }
        ensures outcome { IsOutcome self.old self.new (task.Apply op.now.tree f g) result }
        ensures memo { self.new.memo ≡ self.old.memo }
        ensures kept { Keeps self.old self.new }
        ensures steps { steps.new ≤ steps.old + pair_steps self.old f g }
    {
        self.law(f);
        self.law(g);
        let (head, pairs) = pair(self.alloc, &mut self.table, f.head, g.head, steps)?;
        let left = self.values.get(f.vals);
        let right = self.values.get(g.vals);
        match apply_exits(self.alloc, op, left, right, pairs.as_slice()) {
            Ok(values) => Ok(self.valued(head, values.as_slice())?),
            Err(fault) => Err(self.overflow(head, fault)),
        }
    }

    /// The same for the values of f, g and h.
    pub(crate) fn ternary_anew<F: Fn(i128, i128, i128) -> Option<i128>, L: Ledger>(
        &mut self,
        op: &Op3<F>,
        f: Func,
        g: Func,
        h: Func,
        steps: &mut Steps<L>,
    ) -> Result<Func, OpFault>
        requires answers { Answers3 (F.pre op.now.call) (F.post op.now.call) op.now.tree }
        requires level { AreLevel self.old f g }
        requires third_level { AreLevel self.old f h }
        ensures outcome { IsOutcome self.old self.new (task.Ternary op.now.tree f g h) result }
        ensures memo { self.new.memo ≡ self.old.memo }
        ensures kept { Keeps self.old self.new }
    {
        self.law(f);
        self.law(g);
        self.law(h);
        let (head, triples) = triple(self.alloc, &mut self.table, f.head, g.head, h.head, steps)?;
        let first = self.values.get(f.vals);
        let second = self.values.get(g.vals);
        let third = self.values.get(h.vals);
        match ternary_exits(self.alloc, op, first, second, third, triples.as_slice()) {
            Ok(values) => Ok(self.valued(head, values.as_slice())?),
            Err(fault) => Err(self.overflow(head, fault)),
        }
    }
}
