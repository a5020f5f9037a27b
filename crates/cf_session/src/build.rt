//! The function of an expression.

ghost use Rattle.std.specs.Prelude.{◌≡◌, ◌≤◌, ◌<◌, ◌^◌, true, false, length, None, IfOk, IfErr};
ghost use Rattle.cf_model.specs.FlatFunctions.{IsFlatFunction, tabulated, variable};
ghost use Rattle.cf_ops.specs.Operations.{of_one, of_two, of_three};
ghost use Rattle.cf_pkg.specs.Tasks as task;
ghost use Rattle.cf_pkg.specs.Packages.{OwnsFunction, Means, IsRemembered, Keeps, meaning};
ghost use Rattle.cf_pkg.specs.Jobs.{AreLevel, map_value, apply_value, ternary_value, HasValues, IsLeastWithout, AnswersFinished};
ghost use Rattle.cf_pkg.specs.Faults.{IfOverflow};
ghost use Rattle.cf_reference.specs.Heads.{signature};
ghost use Rattle.cf_reference.specs.Trees.{IsFormed, Num, At, Named, Call};
ghost use Rattle.cf_reference.specs.Calls.{call_refusal};
ghost use Rattle.cf_reference.specs.Carrying.{function_from};
ghost use Rattle.cf_reference.specs.Expressions.{walk};
ghost use Rattle.cf_script.specs.Views.{tree_of, listed};
ghost use Rattle.cf_session.specs.Sessions.{state_of};
ghost use Rattle.cf_session.specs.Arguments.{arguments_of, is_fold};
ghost use Rattle.cf_session.specs.Values.{meanings, AreOwned, AreOf, Calls, IsFaultOfCall};
ghost use Rattle.cf_session.specs.Building.{Grows, Builds, IsFault, IsFaultOf, refusal_of, IsFaultOfBuild};
ghost use Rattle.cf_session.specs.Keeping.{IsJobKept, IsKept, AnswersJob, AnswersCall, AnswersKept, AnswersAgain};

use crate::arguments::{Form, Given, argument, arity, form_of};
use crate::faults::{Refusal, StepFault};
use crate::session::Session;
use crate::values::{Value, one_function, push, three_functions, two_functions, two_numbers};
use cf_ops::{Word1, Word2};
use cf_pkg::{Func, OpFault, Pkg};
use cf_reference::grammar::Head;
use cf_script::Expr;
use cf_table::steps::Steps;
use std::marker::Brand;
use std::sync::ledger::{Blank, Ledger};

impl Session {
    /// The function of an expression. A session without a level refuses each expression. Else the
    /// first refusal in reading order counts: an unknown name, a position or a level out of its
    /// range, or levels that differ. Overflow comes last: where the first part of the expression
    /// that has no value somewhere has none, at its least such assignment. The level and the names
    /// stay, and each function of the package means what it meant, whatever the answer is. Memory is
    /// wanted only once nothing but overflow can refuse the expression. After Ok the expression is
    /// kept: each of its jobs is remembered. Where it was kept before, nothing was added, whatever
    /// the answer is.
    pub fn build(&mut self, expr: &Expr<'_>) -> Result<Func, StepFault>
        requires formed { IsFormed (tree_of expr.now) }
        ensures owned { IfOk result (λ f. OwnsFunction self.new.pkg f) }
        ensures means { IfOk result (λ f. meaning self.new.pkg f ≡ function_from (state_of self.old) (tree_of expr.now)) }
        ensures goes { IfOk result (λ f. refusal_of (state_of self.old) (tree_of expr.now) ≡ None) }
        ensures fault { IfErr result (IsFaultOfBuild (state_of self.old) (tree_of expr.now)) }
        ensures kept { IfOk result (IsKept self.new (tree_of expr.now)) }
        ensures again { AnswersAgain self.old self.new (tree_of expr.now) result }
        ensures grows { Grows self.old self.new }
    {
        if self.level.is_none() {
            return Err(StepFault::Refused(Refusal::NoLevel));
        }
        if let Some(f) = self.recall(expr) {
            self.pkg.finished_law();
            self.pkg.law(f);
            return Ok(f);
        }
        match self.walk(expr) {
            Ok(_) => self.evaluate(expr),
            Err(refusal) => Err(StepFault::Refused(refusal)),
        }
    }

    /// The function that is v everywhere.
    #[inline(always)]
    fn constant(&mut self, level: u8, v: i128) -> Result<Func, StepFault>
        requires level { level ≤ 7 }
        ensures means { IfOk result (λ f. Means self.new.pkg f (tabulated level (λ bits. v))) }
        ensures flat { IfOk result (λ f. IsFlatFunction (meaning self.new.pkg f)) }
        ensures fault { IfErr result (λ fault. fault ≡ StepFault.NoMemory) }
        ensures kept { IfOk result (IsRemembered self.new.pkg (task.Const level v)) }
        ensures again { AnswersJob self.old self.new (task.Const level v) result }
        ensures grows { Grows self.old self.new }
    {
        let f = self.pkg.constant(level, v)?;
        self.pkg.law(f);
        Ok(f)
    }

    /// The function of the bit at a position, counted from the first.
    #[inline(always)]
    fn variable(&mut self, level: u8, i: u8) -> Result<Func, StepFault>
        requires level { level ≤ 7 }
        requires variable { i < 2 ^ level }
        ensures means { IfOk result (λ f. Means self.new.pkg f (variable level i)) }
        ensures flat { IfOk result (λ f. IsFlatFunction (meaning self.new.pkg f)) }
        ensures fault { IfErr result (λ fault. fault ≡ StepFault.NoMemory) }
        ensures kept { IfOk result (IsRemembered self.new.pkg (task.Var level i)) }
        ensures again { AnswersJob self.old self.new (task.Var level i) result }
        ensures grows { Grows self.old self.new }
    {
        let f = self.pkg.variable(level, i)?;
        self.pkg.law(f);
        Ok(f)
    }

    /// The word's operation on f's values.
    #[inline(always)]
    fn map(&mut self, word: Word1, f: Func) -> Result<Func, StepFault>
        requires owned { OwnsFunction self.old.pkg f }
        ensures values { IfOk result (λ r. HasValues self.new.pkg r f.head.level (map_value self.old.pkg (of_one word) f)) }
        ensures flat { IfOk result (λ r. IsFlatFunction (meaning self.new.pkg r)) }
        ensures fault { IfErr result (IsFault (IsLeastWithout f.head.level (map_value self.old.pkg (of_one word) f))) }
        ensures kept { IfOk result (IsRemembered self.new.pkg (task.Map (of_one word) f)) }
        ensures again { AnswersJob self.old self.new (task.Map (of_one word) f) result }
        ensures grows { Grows self.old self.new }
    {
        let r = self.pkg.map_word(word, f)?;
        self.pkg.law(r);
        Ok(r)
    }

    /// The word's operation on the values of f and g.
    #[inline(always)]
    fn apply(&mut self, word: Word2, f: Func, g: Func) -> Result<Func, StepFault>
        requires level { AreLevel self.old.pkg f g }
        ensures values { IfOk result (λ r. HasValues self.new.pkg r f.head.level (apply_value self.old.pkg (of_two word) f g)) }
        ensures flat { IfOk result (λ r. IsFlatFunction (meaning self.new.pkg r)) }
        ensures fault { IfErr result (IsFault (IsLeastWithout f.head.level (apply_value self.old.pkg (of_two word) f g))) }
        ensures kept { IfOk result (IsRemembered self.new.pkg (task.Apply (of_two word) f g)) }
        ensures again { AnswersJob self.old self.new (task.Apply (of_two word) f g) result }
        ensures grows { Grows self.old self.new }
    {
        let r = apply_uncounted::<Brand>(&mut self.pkg, word, f, g, Blank::new(1))?;
        self.pkg.law(r);
        Ok(r)
    }

    /// g's value where f's isn't 0, else h's.
    #[inline(always)]
    fn choose(&mut self, f: Func, g: Func, h: Func) -> Result<Func, StepFault>
        requires level { AreLevel self.old.pkg f g }
        requires third_level { AreLevel self.old.pkg f h }
        ensures values { IfOk result (λ r. HasValues self.new.pkg r f.head.level (ternary_value self.old.pkg of_three f g h)) }
        ensures flat { IfOk result (λ r. IsFlatFunction (meaning self.new.pkg r)) }
        ensures fault { IfErr result (IsFault (IsLeastWithout f.head.level (ternary_value self.old.pkg of_three f g h))) }
        ensures kept { IfOk result (IsRemembered self.new.pkg (task.Ternary of_three f g h)) }
        ensures again { AnswersJob self.old self.new (task.Ternary of_three f g h) result }
        ensures grows { Grows self.old self.new }
    {
        let r = choose_uncounted::<Brand>(&mut self.pkg, f, g, h, Blank::new(1))?;
        self.pkg.law(r);
        Ok(r)
    }

    /// The function of a number.
    #[inline(always)]
    fn number(&mut self, n: i128) -> Result<Func, StepFault>
        ensures built { IfOk result (λ f. Builds (state_of self.old) (Num n) self.new.pkg f) }
        ensures fault { IfErr result (IsFaultOf (state_of self.old) (Num n)) }
        ensures kept { IfOk result (IsKept self.new (Num n)) }
        ensures again { AnswersKept self.old self.new (Num n) result }
        ensures grows { Grows self.old self.new }
    {
        let level = self.level_of_variables();
        self.constant(level, n)
    }

    /// The function of the bit at a position.
    #[inline(always)]
    fn bit(&mut self, position: i128) -> Result<Func, StepFault>
        requires walked { walk (state_of self.old) (At position) ≡ None }
        ensures built { IfOk result (λ f. Builds (state_of self.old) (At position) self.new.pkg f) }
        ensures fault { IfErr result (IsFaultOf (state_of self.old) (At position)) }
        ensures kept { IfOk result (IsKept self.new (At position)) }
        ensures again { AnswersKept self.old self.new (At position) result }
        ensures grows { Grows self.old self.new }
    {
        let level = self.level_of_variables();
        self.variable(level, position.unsigned_abs() as u8)
    }

    /// The function that a name stands for.
    #[inline(always)]
    fn named(&self, name: &[u8]) -> Result<Func, StepFault>
        requires walked { walk (state_of self.now) (Named name.now) ≡ None }
        ensures built { IfOk result (λ f. Builds (state_of self.now) (Named name.now) self.now.pkg f) }
        ensures fault { IfErr result (IsFaultOf (state_of self.now) (Named name.now)) }
        ensures kept { IfOk result (IsKept self.now (Named name.now)) }
        ensures again { AnswersKept self.now self.now (Named name.now) result }
    {
        match self.func_of(name) {
            Some(f) => {
                self.pkg.law(f);
                Ok(f)
            }
            None => Err(StepFault::Refused(Refusal::NoName)),
        }
    }

    /// The function of an expression whose names, positions and levels are in order. Overflow comes
    /// exactly where a part of the expression has no value at some assignment, and says the least
    /// assignment of the first such part.
    #[cycle(evaluate)]
    fn evaluate(&mut self, expr: &Expr<'_>) -> Result<Func, StepFault>
        requires formed { IsFormed (tree_of expr.now) }
        requires walked { walk (state_of self.old) (tree_of expr.now) ≡ None }
        ensures built { IfOk result (λ f. Builds (state_of self.old) (tree_of expr.now) self.new.pkg f) }
        ensures fault { IfErr result (IsFaultOf (state_of self.old) (tree_of expr.now)) }
        ensures kept { IfOk result (IsKept self.new (tree_of expr.now)) }
        ensures again { AnswersKept self.old self.new (tree_of expr.now) result }
        ensures grows { Grows self.old self.new }
    {
        match form_of(expr) {
            Form::Num(n) => self.number(n),
            Form::At(position) => self.bit(position),
            Form::Named(name) => self.named(name),
            Form::Nested(head, es) => self.evaluate_nested(head, es),
            Form::Call(head) => self.evaluate_call(head, expr),
        }
    }

    /// The function of a call that is no fold: its arguments from left to right, and then
    /// the call.
    #[cycle(evaluate)]
    fn evaluate_call(&mut self, head: Head, expr: &Expr<'_>) -> Result<Func, StepFault>
        requires is_call { tree_of expr.now ≡ Call head (arguments_of (tree_of expr.now)) }
        requires one { is_fold head ≡ false }
        requires formed { IsFormed (tree_of expr.now) }
        requires walked { walk (state_of self.old) (tree_of expr.now) ≡ None }
        ensures built { IfOk result (λ f. Builds (state_of self.old) (tree_of expr.now) self.new.pkg f) }
        ensures fault { IfErr result (IsFaultOf (state_of self.old) (tree_of expr.now)) }
        ensures kept { IfOk result (IsKept self.new (tree_of expr.now)) }
        ensures again { AnswersKept self.old self.new (tree_of expr.now) result }
        ensures grows { Grows self.old self.new }
    {
        let mut args = Vec::new(self.alloc);
        for place in 0..arity(expr) {
            let value = match argument(expr, place) {
                Given::Expr(e) => match self.evaluate(e) {
                    Ok(f) => Value::Function(f),
                    Err(fault) => return Err(fault),
                },
                Given::Var(var) => match self.position(var) {
                    Ok(i) => Value::Position(i),
                    Err(refusal) => return Err(StepFault::Refused(refusal)),
                },
                Given::Number(n) => Value::Number(n),
            };
            push(&mut args, value)?;
        }
        self.call(head, &args)
    }

    /// The function of nested calls: the first two arguments' call, and then its call with each of
    /// the others.
    #[cycle(evaluate)]
    fn evaluate_nested(&mut self, head: Head, es: &[Expr<'_>]) -> Result<Func, StepFault>
        requires nested { is_fold head ≡ true }
        requires formed { IsFormed (Call head (listed es.now)) }
        requires walked { walk (state_of self.old) (Call head (listed es.now)) ≡ None }
        ensures built { IfOk result (λ f. Builds (state_of self.old) (Call head (listed es.now)) self.new.pkg f) }
        ensures fault { IfErr result (IsFaultOf (state_of self.old) (Call head (listed es.now))) }
        ensures kept { IfOk result (IsKept self.new (Call head (listed es.now))) }
        ensures again { AnswersKept self.old self.new (Call head (listed es.now)) result }
        ensures grows { Grows self.old self.new }
    {
        let mut f = match self.evaluate(&es[0]) {
            Ok(f) => f,
            Err(fault) => return Err(fault),
        };
        for e in &es[1..] {
            let g = match self.evaluate(e) {
                Ok(g) => g,
                Err(fault) => return Err(fault),
            };
            f = match self.call(head, &[Value::Function(f), Value::Function(g)]) {
                Ok(f) => f,
                Err(fault) => return Err(fault),
            };
        }
        Ok(f)
    }

    /// A call of functions, positions and numbers that are in order, of two functions for a fold: the
    /// one place where a head is given its operation.
    #[inline(always)]
    fn call(&mut self, head: Head, args: &[Value]) -> Result<Func, StepFault>
        requires owned { AreOwned self.old.pkg args.now }
        requires kinds { AreOf (signature head).first (signature head).further args.now }
        requires pair { is_fold head ≡ true → length args.now ≡ 2 }
        requires ruled { call_refusal head (meanings self.old.pkg args.now) ≡ None }
        ensures calls { IfOk result (Calls head (meanings self.old.pkg args.now) self.new.pkg) }
        ensures fault { IfErr result (IsFaultOfCall head (meanings self.old.pkg args.now)) }
        ensures kept { IfOk result (IsJobKept self.new.pkg head args.now) }
        ensures again { AnswersCall self.old self.new head args.now result }
        ensures grows { Grows self.old self.new }
    {
        match head {
            Head::Const => {
                let (level, n) = two_numbers(args);
                self.constant(level.unsigned_abs() as u8, n)
            }
            Head::One(word) => {
                let f = one_function(args);
                self.map(word, f)
            }
            Head::Fold(word) => {
                let (f, g) = two_functions(args);
                self.apply(word, f, g)
            }
            Head::Ite => {
                let (f, g, h) = three_functions(args);
                self.choose(f, g, h)
            }
            Head::Restrict => self.restrict(args),
            Head::Exists => self.exists(args),
            Head::Forall => self.forall(args),
            Head::SumOut => self.sum_out(args),
            Head::Compose => self.compose(args),
            Head::AndExists => self.and_exists(args),
            Head::Kron => self.kron(args),
            Head::Matmul => self.matmul(args),
            Head::Transpose => self.transpose(args),
            Head::Id => self.identity(args),
            Head::Walsh => self.walsh(args),
            Head::Unit => self.unit(args),
        }
    }
}

/// The word's operation on the values of f and g. The views of groupings aren't counted.
#[inline(always)]
fn apply_uncounted<L: Ledger>(
    pkg: &mut Pkg,
    word: Word2,
    f: Func,
    g: Func,
    blank: Blank,
) -> Result<Func, OpFault>
    requires level { AreLevel pkg.old f g }
    requires name { blank.name ≡ L.name }
    requires parts { blank.parts ≡ L.parts }
    requires some { 0 < blank.parts }
    ensures values { IfOk result (λ r. HasValues pkg.new r f.head.level (apply_value pkg.old (of_two word) f g)) }
    ensures overflow { IfOverflow result (IsLeastWithout f.head.level (apply_value pkg.old (of_two word) f g)) }
    ensures remembered { IfOk result (IsRemembered pkg.new (task.Apply (of_two word) f g)) }
    ensures finished { AnswersFinished pkg.old pkg.new (task.Apply (of_two word) f g) result }
    ensures kept { Keeps pkg.old pkg.new }
{
    let mut steps = Steps::<L>::open(blank);
    pkg.apply_word(word, f, g, &mut steps)
}

/// g's value where f's isn't 0, else h's. The views of groupings aren't counted.
#[inline(always)]
fn choose_uncounted<L: Ledger>(
    pkg: &mut Pkg,
    f: Func,
    g: Func,
    h: Func,
    blank: Blank,
) -> Result<Func, OpFault>
    requires level { AreLevel pkg.old f g }
    requires third_level { AreLevel pkg.old f h }
    requires name { blank.name ≡ L.name }
    requires parts { blank.parts ≡ L.parts }
    requires some { 0 < blank.parts }
    ensures values { IfOk result (λ r. HasValues pkg.new r f.head.level (ternary_value pkg.old of_three f g h)) }
    ensures overflow { IfOverflow result (IsLeastWithout f.head.level (ternary_value pkg.old of_three f g h)) }
    ensures remembered { IfOk result (IsRemembered pkg.new (task.Ternary of_three f g h)) }
    ensures finished { AnswersFinished pkg.old pkg.new (task.Ternary of_three f g h) result }
    ensures kept { Keeps pkg.old pkg.new }
{
    let mut steps = Steps::<L>::open(blank);
    pkg.choose(f, g, h, &mut steps)
}
