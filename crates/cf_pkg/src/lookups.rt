//! Finished jobs, looked up. That takes no memory and changes nothing.

ghost use Rattle.std.specs.Prelude.{IfSome, IfNone};
ghost use Rattle.cf_ops.specs.Operations.{of_one, of_two, of_three};
ghost use Rattle.cf_pkg.specs.Tasks.{Task};
ghost use Rattle.cf_pkg.specs.Tasks as task;
ghost use Rattle.cf_pkg.specs.Memos.{IsUndone};
ghost use Rattle.cf_pkg.specs.Packages.{IsRemembered};
ghost use Rattle.cf_pkg.specs.Jobs.{Finishes};

use crate::memo::{Alone, JobKey, OfOne, OfTwo, Operation};
use crate::{Func, Pkg};
use cf_ops::{Word1, Word2};

impl Pkg {
    /// A finished job is in order, and its function has its values. It does nothing.
    #[inline(always)]
    pub fn finished_law(&self)
        ensures { (t : Task) (f : Func) → IsRemembered self.now t f → Finishes self.now t f }
    {
        let _ = &self.memo;
    }

    /// The function that is v everywhere, if it was made.
    #[inline(always)]
    pub fn known_const(&self, level: u8, v: i128) -> Option<Func>
        ensures found { IfSome result (IsRemembered self.now (task.Const level v)) }
        ensures none { IfNone result (IsUndone self.now.memo (task.Const level v)) }
    {
        self.finished(JobKey::Alone(Alone::Constant { level, value: v }))
    }

    /// The function that is bit i, if it was made.
    #[inline(always)]
    pub fn known_var(&self, level: u8, i: u8) -> Option<Func>
        ensures found { IfSome result (IsRemembered self.now (task.Var level i)) }
        ensures none { IfNone result (IsUndone self.now.memo (task.Var level i)) }
    {
        if let Some(f) = self.memo.variable_in_slot(level, i) {
            return Some(f);
        }
        self.finished(JobKey::Alone(Alone::Variable { level, position: i }))
    }

    /// The word's operation on f's value at each assignment, if it was done.
    #[inline(always)]
    pub fn known_map(&self, word: Word1, f: Func) -> Option<Func>
        ensures found { IfSome result (IsRemembered self.now (task.Map (of_one word) f)) }
        ensures none { IfNone result (IsUndone self.now.memo (task.Map (of_one word) f)) }
    {
        self.finished(JobKey::OfOne(OfOne::Map(Operation::One(word)), f))
    }

    /// The word's operation on the values of f and g, if it was done.
    #[inline(always)]
    pub fn known_apply(&self, word: Word2, f: Func, g: Func) -> Option<Func>
        ensures found { IfSome result (IsRemembered self.now (task.Apply (of_two word) f g)) }
        ensures none { IfNone result (IsUndone self.now.memo (task.Apply (of_two word) f g)) }
    {
        if let Some(r) = self.memo.apply_in_slot(word, f, g) {
            return Some(r);
        }
        self.finished(JobKey::OfTwo(OfTwo::Apply(Operation::Two(word)), f, g))
    }

    /// g's value where f's isn't 0, else h's, if that was done.
    #[inline(always)]
    pub fn known_choice(&self, f: Func, g: Func, h: Func) -> Option<Func>
        ensures found { IfSome result (IsRemembered self.now (task.Ternary of_three f g h)) }
        ensures none { IfNone result (IsUndone self.now.memo (task.Ternary of_three f g h)) }
    {
        self.finished(JobKey::OfThree(Operation::Choice, f, g, h))
    }
}
