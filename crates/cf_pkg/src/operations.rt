//! Operations on functions, point by point. A job that was finished is looked up.

ghost use Rattle.std.specs.Prelude.{◌≤◌, ◌+◌, IfOk};
ghost use Rattle.cf_ops.specs.Operations.{Answers1, Answers2, Answers3};
ghost use Rattle.cf_pkg.specs.Tasks as task;
ghost use Rattle.cf_pkg.specs.Packages.{OwnsFunction, IsRemembered, Keeps};
ghost use Rattle.cf_pkg.specs.Jobs.{AreLevel, AnswersFinished};
ghost use Rattle.cf_pkg.specs.Products.{pair_steps};
ghost use Rattle.cf_pkg.specs.Outcomes.{IsOutcome};

use crate::jobs::{Job, OpFault};
use crate::{Func, Pkg};
use cf_ops::{Op1, Op2, Op3};
use cf_table::steps::Steps;
use std::sync::ledger::Ledger;

impl Pkg {
    /// The function that has at each assignment the operation's answer at f's value. Overflow
    /// comes exactly where the operation has no value at some assignment, and says the least.
    pub fn map1<F: Fn(i128) -> Option<i128>>(
        &mut self,
        op: &Op1<F>,
        f: Func,
    ) -> Result<Func, OpFault>
        requires answers { Answers1 (F.pre op.now.call) (F.post op.now.call) op.now.tree }
        requires owned { OwnsFunction self.old f }
        ensures outcome { IsOutcome self.old self.new (task.Map op.now.tree f) result }
        ensures remembered { IfOk result (IsRemembered self.new (task.Map op.now.tree f)) }
        ensures finished { AnswersFinished self.old self.new (task.Map op.now.tree f) result }
        ensures kept { Keeps self.old self.new }
    {
        let key = self.key_of(&Job::Map { tree: &op.tree, f })?;
        if let Some(known) = self.finished(key) {
            return Ok(known);
        }
        let made = self.map_anew(op, f)?;
        self.remember(key, made)?;
        Ok(made)
    }

    /// The function that has at each assignment the operation's answer at the values of f and g.
    /// Overflow comes exactly where the operation has no value at some assignment, and says the
    /// least. Each view of a grouping is a step.
    pub fn apply<F: Fn(i128, i128) -> Option<i128>, L: Ledger>(
        &mut self,
        op: &Op2<F>,
        f: Func,
        g: Func,
        steps: &mut Steps<L>,
    ) -> Result<Func, OpFault>
        requires answers { Answers2 (F.pre op.now.call) (F.post op.now.call) op.now.tree }
        requires level { AreLevel self.old f g }
        ensures outcome { IsOutcome self.old self.new (task.Apply op.now.tree f g) result }
        ensures remembered { IfOk result (IsRemembered self.new (task.Apply op.now.tree f g)) }
        ensures finished { AnswersFinished self.old self.new (task.Apply op.now.tree f g) result }
        ensures kept { Keeps self.old self.new }
        ensures steps { steps.new ≤ steps.old + pair_steps self.old f g }
    {
        let tree = &op.tree;
        let key = self.key_of(&Job::Apply { tree, f, g })?;
        if let Some(known) = self.finished(key) {
            return Ok(known);
        }
        let made = self.apply_anew(op, f, g, steps)?;
        self.remember(key, made)?;
        Ok(made)
    }

    /// The same for the values of f, g and h.
    pub fn ternary<F: Fn(i128, i128, i128) -> Option<i128>, L: Ledger>(
        &mut self,
        op: &Op3<F>,
        f: Func,
        g: Func,
        h: Func,
        steps: &mut Steps<L>,
    ) -> Result<Func, OpFault>
        requires answers { Answers3 (F.pre op.now.call) (F.post op.now.call) op.now.tree }
        requires level { AreLevel self.old f g }
        requires third_level { AreLevel self.old f h }
        ensures outcome { IsOutcome self.old self.new (task.Ternary op.now.tree f g h) result }
        ensures remembered { IfOk result (IsRemembered self.new (task.Ternary op.now.tree f g h)) }
        ensures finished { AnswersFinished self.old self.new
            (task.Ternary op.now.tree f g h) result }
        ensures kept { Keeps self.old self.new }
    {
        let tree = &op.tree;
        let key = self.key_of(&Job::Ternary { tree, f, g, h })?;
        if let Some(known) = self.finished(key) {
            return Ok(known);
        }
        let made = self.ternary_anew(op, f, g, h, steps)?;
        self.remember(key, made)?;
        Ok(made)
    }
}
