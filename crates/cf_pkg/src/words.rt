//! Operations on functions by their words.

ghost use Rattle.std.specs.Prelude.{◌≡◌, ◌≤◌, ◌+◌, IfOk};
ghost use Rattle.cf_ops.specs.Operations.{of_one, of_two, of_three, Answers1, Answers2};
ghost use Rattle.cf_pkg.specs.Tasks as task;
ghost use Rattle.cf_pkg.specs.Memos.{IsUndone};
ghost use Rattle.cf_pkg.specs.Packages.{OwnsFunction, IsRemembered, Keeps};
ghost use Rattle.cf_pkg.specs.Jobs.{AreLevel, AnswersFinished};
ghost use Rattle.cf_pkg.specs.Products.{pair_steps};
ghost use Rattle.cf_pkg.specs.Outcomes.{IsOutcome};

use crate::jobs::OpFault;
use crate::memo::{JobKey, OfOne, OfTwo, Operation};
use crate::{Func, Pkg};
use cf_ops::{Op1, Op2, Op3, Term, Word1, Word2, words};
use cf_table::steps::Steps;
use cf_tuple::NoMemory;
use sqlite_items::{Boxed, Items};
use std::alloc::Global;
use std::sync::ledger::Ledger;

/// The tree of an operation on one number.
fn tree_of_one(alloc: Global, word: Word1) -> Result<Term, NoMemory>
    ensures { IfOk result (λ t. t ≡ of_one word) }
{
    Ok(Term::One(word, Boxed::new(alloc, Term::X)?))
}

/// The tree of an operation on two numbers.
pub fn tree_of_two(alloc: Global, word: Word2) -> Result<Term, NoMemory>
    ensures { IfOk result (λ t. t ≡ of_two word) }
{
    let mut both = Vec::new(alloc);
    both.push(Term::X)?;
    both.push(Term::Y)?;
    Ok(Term::Fold(word, Items::from_vec(both)))
}

/// The tree that chooses between two numbers.
fn tree_of_three(alloc: Global) -> Result<Term, NoMemory>
    ensures { IfOk result (λ t. t ≡ of_three) }
{
    let test = Boxed::new(alloc, Term::X)?;
    let second = Boxed::new(alloc, Term::Y)?;
    let third = Boxed::new(alloc, Term::Z)?;
    Ok(Term::Ite(test, second, third))
}

impl Pkg {
    #[inline(never)]
    #[tactic(auto, using(cf_ops::proofs::TermFacts::operation_laws))]
    fn map_with<F: Fn(i128) -> Option<i128>>(
        &mut self,
        word: Word1,
        call: F,
        f: Func,
    ) -> Result<Func, OpFault>
        requires answers { Answers1 (F.pre call) (F.post call) (of_one word) }
        requires owned { OwnsFunction self.old f }
        requires undone { IsUndone self.old.memo (task.Map (of_one word) f) }
        ensures outcome { IsOutcome self.old self.new (task.Map (of_one word) f) result }
        ensures remembered { IfOk result (IsRemembered self.new (task.Map (of_one word) f)) }
        ensures finished { AnswersFinished self.old self.new (task.Map (of_one word) f) result }
        ensures kept { Keeps self.old self.new }
    {
        let op = Op1::new(tree_of_one(self.alloc, word)?, call);
        self.map1(&op, f)
    }

    #[inline(never)]
    #[tactic(auto, using(cf_ops::proofs::TermFacts::operation_laws))]
    fn apply_with<F: Fn(i128, i128) -> Option<i128>, L: Ledger>(
        &mut self,
        word: Word2,
        call: F,
        f: Func,
        g: Func,
        steps: &mut Steps<L>,
    ) -> Result<Func, OpFault>
        requires answers { Answers2 (F.pre call) (F.post call) (of_two word) }
        requires level { AreLevel self.old f g }
        requires undone { IsUndone self.old.memo (task.Apply (of_two word) f g) }
        ensures outcome { IsOutcome self.old self.new (task.Apply (of_two word) f g) result }
        ensures remembered { IfOk result (IsRemembered self.new (task.Apply (of_two word) f g)) }
        ensures finished { AnswersFinished self.old self.new (task.Apply (of_two word) f g) result }
        ensures kept { Keeps self.old self.new }
        ensures steps { steps.new ≤ steps.old + pair_steps self.old f g }
    {
        let op = Op2::new(tree_of_two(self.alloc, word)?, call);
        self.apply(&op, f, g, steps)
    }

    /// The word's operation on f's value at each assignment.
    #[tactic(auto, using(cf_ops::proofs::TermFacts::operation_laws))]
    pub fn map_word(&mut self, word: Word1, f: Func) -> Result<Func, OpFault>
        requires owned { OwnsFunction self.old f }
        ensures outcome { IsOutcome self.old self.new (task.Map (of_one word) f) result }
        ensures remembered { IfOk result (IsRemembered self.new (task.Map (of_one word) f)) }
        ensures finished { AnswersFinished self.old self.new (task.Map (of_one word) f) result }
        ensures kept { Keeps self.old self.new }
    {
        let key = JobKey::OfOne(OfOne::Map(Operation::One(word)), f);
        if let Some(known) = self.finished(key) {
            return Ok(known);
        }
        match word {
            Word1::Not => self.map_with(word, words::not, f),
            Word1::Neg => self.map_with(word, words::neg, f),
        }
    }

    /// The word's operation on the values of f and g at each assignment.
    #[tactic(auto, using(cf_ops::proofs::TermFacts::operation_laws))]
    pub fn apply_word<L: Ledger>(
        &mut self,
        word: Word2,
        f: Func,
        g: Func,
        steps: &mut Steps<L>,
    ) -> Result<Func, OpFault>
        requires level { AreLevel self.old f g }
        ensures outcome { IsOutcome self.old self.new (task.Apply (of_two word) f g) result }
        ensures remembered { IfOk result (IsRemembered self.new (task.Apply (of_two word) f g)) }
        ensures finished { AnswersFinished self.old self.new (task.Apply (of_two word) f g) result }
        ensures kept { Keeps self.old self.new }
        ensures steps { steps.new ≤ steps.old + pair_steps self.old f g }
    {
        let key = JobKey::OfTwo(OfTwo::Apply(Operation::Two(word)), f, g);
        if let Some(known) = self.finished(key) {
            return Ok(known);
        }
        match word {
            Word2::And => self.apply_with(word, words::and, f, g, steps),
            Word2::Or => self.apply_with(word, words::or, f, g, steps),
            Word2::Xor => self.apply_with(word, words::xor, f, g, steps),
            Word2::Plus => self.apply_with(word, words::plus, f, g, steps),
            Word2::Minus => self.apply_with(word, words::minus, f, g, steps),
            Word2::Times => self.apply_with(word, words::times, f, g, steps),
            Word2::Min => self.apply_with(word, words::min, f, g, steps),
            Word2::Max => self.apply_with(word, words::max, f, g, steps),
            Word2::Eq => self.apply_with(word, words::eq, f, g, steps),
            Word2::Lt => self.apply_with(word, words::lt, f, g, steps),
        }
    }

    /// g's value where f's isn't 0, else h's.
    #[tactic(auto, using(cf_ops::proofs::TermFacts::operation_laws))]
    pub fn choose<L: Ledger>(
        &mut self,
        f: Func,
        g: Func,
        h: Func,
        steps: &mut Steps<L>,
    ) -> Result<Func, OpFault>
        requires level { AreLevel self.old f g }
        requires third_level { AreLevel self.old f h }
        ensures outcome { IsOutcome self.old self.new (task.Ternary of_three f g h) result }
        ensures remembered { IfOk result (IsRemembered self.new (task.Ternary of_three f g h)) }
        ensures finished { AnswersFinished self.old self.new (task.Ternary of_three f g h) result }
        ensures kept { Keeps self.old self.new }
    {
        let key = JobKey::OfThree(Operation::Choice, f, g, h);
        if let Some(known) = self.finished(key) {
            return Ok(known);
        }
        let op = Op3::new(tree_of_three(self.alloc)?, words::ite);
        self.ternary(&op, f, g, h, steps)
    }
}
