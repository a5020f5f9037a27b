//! The level of an expression, and its first refusal.

ghost use Rattle.std.specs.Prelude.{◌≡◌, ◌≤◌, ◌-◌, ◌^◌, [], true, Some, IfOk, IfErr, pos, unwrap_or};
ghost use Rattle.cf_model.specs.FlatFunctions.{FlatFunction};
ghost use Rattle.cf_reference.specs.Calls.{Function, Position, Number, least, has_level, is_index};
ghost use Rattle.cf_reference.specs.States.{level_in, is_below};
ghost use Rattle.cf_reference.specs.Trees.{At, Named, Call, IsFormed};
ghost use Rattle.cf_reference.specs.Expressions.{walk, walk_atom};
ghost use Rattle.cf_script.specs.Vars.{atom_of};
ghost use Rattle.cf_script.specs.Views.{tree_of};
ghost use Rattle.cf_session.specs.Arguments.{arguments_of};
ghost use Rattle.cf_session.specs.Sessions.{state_of};
ghost use Rattle.cf_session.specs.Faults.{reason_of};
ghost use Rattle.cf_session.specs.Walks.{HasLevel, HasPosition, Shows, Notes, IsRuled, IsRefused, level_over, level_by, has_index, has_indices, agrees, variables_for};

use crate::arguments::{Form, Given, argument, arity, form_of};
use crate::faults::Refusal;
use crate::session::Session;
use cf_pkg::variables;
use cf_reference::grammar::Head;
use cf_script::{Expr, Var};

/// What the arguments of a call tell of it, read from the left.
#[derive(Clone, Copy, Drop)]
pub(crate) struct Walked {
    /// The level of the first function.
    common: Option<u8>,
    /// Whether the others are of that level.
    equal: bool,
    /// How many variables there must be for the positions; 255 stands for more than any level has.
    wanted: u8,
    /// The first number, the second and the third.
    number: Option<i128>,
    row: Option<i128>,
    column: Option<i128>,
}

impl Walked {
    /// No argument.
    #[inline(always)]
    fn none() -> Walked
        ensures { Shows result [] }
    {
        Walked {
            common: None,
            equal: true,
            wanted: 0,
            number: None,
            row: None,
            column: None,
        }
    }

    /// A function of a level comes behind them.
    #[inline(always)]
    fn function(self, level: u8) -> Walked
        requires low { level ≤ 7 }
        ensures { (f : FlatFunction) → f.level ≡ level → Notes self result (Function f) }
    {
        Walked {
            common: self.common.or(Some(level)),
            equal: self.equal && agrees(self.common, level),
            ..self
        }
    }

    /// A position comes behind them.
    #[inline(always)]
    fn position(self, i: i128) -> Walked
        ensures { Notes self result (Position i) }
    {
        let wanted = variables_for(i);
        Walked {
            wanted: if wanted > self.wanted {
                wanted
            } else {
                self.wanted
            },
            ..self
        }
    }

    /// A number comes behind them.
    #[inline(always)]
    fn number(self, n: i128) -> Walked
        ensures { Notes self result (Number n) }
    {
        match self.number {
            None => Walked {
                number: Some(n),
                ..self
            },
            Some(_) => match self.row {
                None => Walked {
                    row: Some(n),
                    ..self
                },
                Some(_) => Walked {
                    column: self.column.or(Some(n)),
                    ..self
                },
            },
        }
    }

    /// The level of a call of the head: by that of the first function, or else the first number.
    fn call_level(self, head: Head) -> u128
        ensures { result ≡ level_by head self.common self.number }
    {
        match self.common {
            Some(level) => level_over(head, level),
            None => match self.number {
                Some(n) => n.unsigned_abs(),
                None => 0,
            },
        }
    }

    /// Whether the row and the column that the head asks for are in the matrices of the level.
    fn has_indices(self, head: Head, level: u8) -> bool
        requires least { least head ≤ level }
        requires most { level ≤ 7 }
        ensures { result ≡ has_indices head level self.row self.column }
    {
        match head {
            Head::Unit => has_index(level, self.row) && has_index(level, self.column),
            _ => true,
        }
    }

    /// The level of a call of the head, or the first rule that it breaks.
    #[inline(always)]
    fn ruled(self, head: Head) -> Result<u8, Refusal>
        requires low { unwrap_or self.common 0 ≤ 7 }
        ensures level { IfOk result (IsRuled head self) }
        ensures low { IfOk result (λ l. l ≤ 7) }
        ensures refused { IfErr result (λ r. IsRefused head self (reason_of r)) }
    {
        let common = self.common.unwrap_or(0);
        let level = self.call_level(head);
        if !self.equal {
            Err(Refusal::LevelsDiffer)
        } else if variables(common) < self.wanted {
            Err(Refusal::OutOfRange)
        } else if !has_level(head, level) {
            Err(Refusal::BadLevel)
        } else if !self.has_indices(head, level as u8) {
            Err(Refusal::OutOfRange)
        } else {
            Ok(level as u8)
        }
    }
}

impl Session {
    /// The level of the variables, 0 where none is set.
    #[inline(always)]
    pub(crate) fn level_of_variables(&self) -> u8
        ensures level { result ≡ level_in (state_of self.now) }
        ensures low { result ≤ 7 }
    {
        self.level.unwrap_or(0)
    }

    /// The level of an expression, or its first refusal in reading order. It takes no memory.
    #[cycle(walk)]
    pub(crate) fn walk(&self, expr: &Expr) -> Result<u8, Refusal>
        requires formed { IsFormed (tree_of expr.now) }
        ensures level { IfOk result (HasLevel (state_of self.now) (tree_of expr.now)) }
        ensures low { IfOk result (λ l. l ≤ 7) }
        ensures refused { IfErr result (λ r. walk (state_of self.now) (tree_of expr.now) ≡ Some (reason_of r)) }
    {
        match form_of(expr) {
            Form::Num(_) => Ok(self.level_of_variables()),
            Form::At(i) => self.walk_at(i),
            Form::Named(name) => self.walk_named(name),
            Form::Nested(head, _) => self.walk_call(head, expr),
            Form::Call(head) => self.walk_call(head, expr),
        }
    }

    /// The level of the bit at a position.
    #[inline(always)]
    fn walk_at(&self, i: i128) -> Result<u8, Refusal>
        ensures level { IfOk result (HasLevel (state_of self.now) (At i)) }
        ensures low { IfOk result (λ l. l ≤ 7) }
        ensures refused { IfErr result (λ r. walk (state_of self.now) (At i) ≡ Some (reason_of r)) }
    {
        let level = self.level_of_variables();
        if is_below(i, variables(level)) {
            Ok(level)
        } else {
            Err(Refusal::OutOfRange)
        }
    }

    /// The level of a name's function.
    #[inline(always)]
    fn walk_named(&self, name: &[u8]) -> Result<u8, Refusal>
        ensures level { IfOk result (HasLevel (state_of self.now) (Named name.now)) }
        ensures low { IfOk result (λ l. l ≤ 7) }
        ensures refused { IfErr result (λ r. walk (state_of self.now) (Named name.now) ≡ Some (reason_of r)) }
    {
        match self.func_of(name) {
            Some(f) => {
                self.pkg.law(f);
                Ok(self.pkg.level_of(f))
            }
            None => Err(Refusal::NoName),
        }
    }

    /// The position of a variable.
    pub(crate) fn position(&self, var: Var) -> Result<i128, Refusal>
        ensures position { IfOk result (HasPosition (state_of self.now) (atom_of var.entry)) }
        ensures refused { IfErr result (λ r. walk_atom (state_of self.now) (atom_of var.entry) ≡ Some (reason_of r)) }
    {
        match var {
            Var::At(i) => Ok(i),
            Var::Named(name) => match self.variables.place(name) {
                Some(place) => Ok(place as i128),
                None => Err(Refusal::NoName),
            },
        }
    }

    /// The level of a call: its arguments from left to right, and then its rules.
    #[cycle(walk)]
    fn walk_call(&self, head: Head, call: &Expr) -> Result<u8, Refusal>
        requires is_call { tree_of call.now ≡ Call head (arguments_of (tree_of call.now)) }
        requires formed { IsFormed (tree_of call.now) }
        ensures level { IfOk result (HasLevel (state_of self.now) (tree_of call.now)) }
        ensures low { IfOk result (λ l. l ≤ 7) }
        ensures refused { IfErr result (λ r. walk (state_of self.now) (tree_of call.now) ≡ Some (reason_of r)) }
    {
        let mut walked = Walked::none();
        for place in 0..arity(call) {
            walked = match argument(call, place) {
                Given::Expr(e) => match self.walk(e) {
                    Ok(level) => walked.function(level),
                    Err(refusal) => return Err(refusal),
                },
                Given::Var(var) => match self.position(var) {
                    Ok(i) => walked.position(i),
                    Err(refusal) => return Err(refusal),
                },
                Given::Number(n) => walked.number(n),
            };
        }
        walked.ruled(head)
    }
}

/// Whether a number is one of those from 0 on that are less than n.
pub(crate) fn is_below(i: i128, n: u8) -> bool
    ensures { result ≡ is_below i n }
{
    0 <= i && i < i128::from(n)
}

/// How many variables there must be for a position; 255 where no level has so many.
fn variables_for(i: i128) -> u8
    ensures { result ≡ variables_for i }
{
    if is_below(i, 128) { i as u8 + 1 } else { 255 }
}

/// Whether a level is the first one's, or there is no first one.
fn agrees(first: Option<u8>, level: u8) -> bool
    ensures { result ≡ agrees first level }
{
    match first {
        Some(first) => level == first,
        None => true,
    }
}

/// The level of a call of functions of a level.
fn level_over(head: Head, level: u8) -> u128
    ensures { result ≡ level_over head level }
{
    match head {
        Head::Kron => u128::from(level) + 1,
        _ => u128::from(level),
    }
}

/// The least level of a call.
fn least(head: Head) -> u128
    ensures { result ≡ least head }
{
    match head {
        Head::Matmul | Head::Transpose | Head::Id | Head::Walsh | Head::Unit => 1,
        _ => 0,
    }
}

/// Whether a call may have a level.
fn has_level(head: Head, level: u128) -> bool
    ensures is { result ≡ has_level head level }
    ensures least { result ≡ true → least head ≤ level }
    ensures most { result ≡ true → level ≤ 7 }
{
    least(head) <= level && level <= 7
}

/// Whether a row or a column, if there is one, is in the matrices of a level.
fn has_index(level: u8, i: Option<i128>) -> bool
    requires some { 1 ≤ level }
    requires most { level ≤ 7 }
    ensures { result ≡ has_index level i }
{
    match i {
        Some(i) => is_index(level, i),
        None => true,
    }
}

/// Whether a number is that of a row of the matrices of a level.
pub(crate) fn is_index(level: u8, i: i128) -> bool
    requires some { 1 ≤ level }
    requires most { level ≤ 7 }
    ensures { result ≡ is_index level i }
{
    0 <= i && i < rows(level)
}

/// How many rows the matrices of a level have.
fn rows(level: u8) -> i128
    requires some { 1 ≤ level }
    requires most { level ≤ 7 }
    ensures { result ≡ pos (2 ^ (2 ^ (level - 1))) }
{
    match level {
        1 => 2,
        2 => 4,
        3 => 16,
        4 => 256,
        5 => 65_536,
        6 => 4_294_967_296,
        _ => 18_446_744_073_709_551_616,
    }
}
