//! The arguments of a call, as they are read.

ghost use Rattle.std.specs.Prelude.{◌≡◌, ◌∷◌, ◌++◌, [], length, false, Some, None, OnOk};
ghost use Rattle.cf_script.specs.Views.{bit_number};
ghost use Rattle.cf_script.specs.Arguments.{IsOf, OfKinds, has_three, gathered, over, operands_of, has_both, Follows, as_variables};

use crate::trees::{Expr, Var, Vars};
use cf_ops::NoMemory;
use cf_reference::grammar::Kind;
use std::alloc::Global;
use std::mem::replace;

/// An argument of a call.
#[derive(Drop)]
pub(crate) enum Argument<'a> {
    Expr(Expr<'a>),
    Var(Var<'a>),
    Number(i128),
}

impl<'a> Argument<'a> {
    /// The expression.
    fn expr(self) -> Expr<'a>
        requires { IsOf Kind.Expression self }
        ensures { self.entry ≡ Argument.Expr result }
    {
        match self {
            Argument::Expr(e) => e,
            _ => unreachable!(),
        }
    }

    /// The variable.
    fn var(self) -> Var<'a>
        requires { IsOf Kind.Variable self }
        ensures { self.entry ≡ Argument.Var result }
    {
        match self {
            Argument::Var(var) => var,
            _ => unreachable!(),
        }
    }

    /// The number of a place that takes no sign.
    fn natural(self) -> i128
        requires { IsOf Kind.Natural self }
        ensures { self.entry ≡ Argument.Number result }
    {
        match self {
            Argument::Number(n) => n,
            _ => unreachable!(),
        }
    }

    /// The number of a place that takes any.
    fn number(self) -> i128
        requires { IsOf Kind.Number self }
        ensures { self.entry ≡ Argument.Number result }
    {
        match self {
            Argument::Number(n) => n,
            _ => unreachable!(),
        }
    }

    /// The bit.
    fn bit(self) -> bool
        requires { IsOf Kind.Bit self }
        ensures { self.entry ≡ Argument.Number (bit_number result) }
    {
        match self {
            Argument::Number(bit) => bit == 1,
            _ => unreachable!(),
        }
    }
}

/// The arguments of a call that keeps no list of them. There are at most three.
#[derive(Drop)]
pub(crate) enum Gathered<'a> {
    Empty,
    One(Argument<'a>),
    Two(Argument<'a>, Argument<'a>),
    Three(Argument<'a>, Argument<'a>, Argument<'a>),
}

impl<'a> Gathered<'a> {
    /// How many there are.
    pub(crate) fn len(&self) -> usize
        ensures { result ≡ length (gathered self.now) }
    {
        match self {
            Gathered::Empty => 0,
            Gathered::One(_) => 1,
            Gathered::Two(..) => 2,
            Gathered::Three(..) => 3,
        }
    }

    /// Whether no argument can come behind them.
    pub(crate) fn is_full(&self) -> bool
        ensures { result ≡ has_three self.now }
    {
        match self {
            Gathered::Three(..) => true,
            _ => false,
        }
    }

    /// One more argument comes behind them.
    pub(crate) fn push(&mut self, argument: Argument<'a>)
        requires { has_three self.old ≡ false }
        ensures { gathered self.new ≡ gathered self.old ++ argument.entry ∷ [] }
    {
        let longer = replace(self, Gathered::Empty).followed_by(argument);
        drop(replace(self, longer));
    }

    /// The same with one more behind them.
    fn followed_by(self, argument: Argument<'a>) -> Gathered<'a>
        requires { has_three self ≡ false }
        ensures { gathered result ≡ gathered self.entry ++ argument.entry ∷ [] }
    {
        match self {
            Gathered::Empty => Gathered::One(argument),
            Gathered::One(first) => Gathered::Two(first, argument),
            Gathered::Two(first, second) => Gathered::Three(first, second, argument),
            Gathered::Three(..) => unreachable!(),
        }
    }

    /// The two numbers.
    pub(crate) fn numbers(self) -> (i128, i128)
        requires { OfKinds (Kind.Natural ∷ Kind.Number ∷ []) None (gathered self) }
        ensures { gathered self.entry ≡ Argument.Number result.0 ∷ Argument.Number result.1 ∷ [] }
    {
        match self {
            Gathered::Two(first, second) => (first.natural(), second.number()),
            _ => unreachable!(),
        }
    }

    /// The one expression.
    pub(crate) fn expr(self) -> Expr<'a>
        requires { OfKinds (Kind.Expression ∷ []) None (gathered self) }
        ensures { gathered self.entry ≡ Argument.Expr result ∷ [] }
    {
        match self {
            Gathered::One(e) => e.expr(),
            _ => unreachable!(),
        }
    }

    /// The two expressions.
    pub(crate) fn two_exprs(self) -> (Expr<'a>, Expr<'a>)
        requires { OfKinds (Kind.Expression ∷ Kind.Expression ∷ []) None (gathered self) }
        ensures { gathered self.entry ≡ Argument.Expr result.0 ∷ Argument.Expr result.1 ∷ [] }
    {
        match self {
            Gathered::Two(e, f) => (e.expr(), f.expr()),
            _ => unreachable!(),
        }
    }

    /// The one number.
    pub(crate) fn number(self) -> i128
        requires { OfKinds (Kind.Natural ∷ []) None (gathered self) }
        ensures { gathered self.entry ≡ Argument.Number result ∷ [] }
    {
        match self {
            Gathered::One(n) => n.natural(),
            _ => unreachable!(),
        }
    }

    /// The three numbers.
    pub(crate) fn three_numbers(self) -> (i128, i128, i128)
        requires { OfKinds (Kind.Natural ∷ Kind.Natural ∷ Kind.Natural ∷ []) None (gathered self) }
        ensures { gathered self.entry ≡
            Argument.Number result.0 ∷ Argument.Number result.1 ∷ Argument.Number result.2 ∷ [] }
    {
        match self {
            Gathered::Three(first, second, third) => {
                (first.natural(), second.natural(), third.natural())
            }
            _ => unreachable!(),
        }
    }

    /// The expression, the variable and the bit.
    pub(crate) fn expr_var_bit(self) -> (Expr<'a>, Var<'a>, bool)
        requires { OfKinds (Kind.Expression ∷ Kind.Variable ∷ Kind.Bit ∷ []) None (gathered self) }
        ensures { gathered self.entry ≡
            Argument.Expr result.0 ∷ Argument.Var result.1 ∷ Argument.Number (bit_number result.2) ∷ [] }
    {
        match self {
            Gathered::Three(e, var, bit) => (e.expr(), var.var(), bit.bit()),
            _ => unreachable!(),
        }
    }

    /// The expression, the variable and the other expression.
    pub(crate) fn expr_var_expr(self) -> (Expr<'a>, Var<'a>, Expr<'a>)
        requires { OfKinds (Kind.Expression ∷ Kind.Variable ∷ Kind.Expression ∷ []) None
            (gathered self) }
        ensures { gathered self.entry ≡
            Argument.Expr result.0 ∷ Argument.Var result.1 ∷ Argument.Expr result.2 ∷ [] }
    {
        match self {
            Gathered::Three(e, var, f) => (e.expr(), var.var(), f.expr()),
            _ => unreachable!(),
        }
    }
}

/// The expressions of a call over variables. There are at most two.
#[derive(Drop)]
pub(crate) enum Operands<'a> {
    Empty,
    One(Expr<'a>),
    Two(Expr<'a>, Expr<'a>),
}

impl<'a> Operands<'a> {
    /// How many there are.
    fn len(&self) -> usize
        ensures { result ≡ length (operands_of self.now) }
    {
        match self {
            Operands::Empty => 0,
            Operands::One(_) => 1,
            Operands::Two(..) => 2,
        }
    }

    /// One more expression comes behind them.
    fn push(&mut self, e: Expr<'a>)
        requires { has_both self.old ≡ false }
        ensures { operands_of self.new ≡ operands_of self.old ++ Argument.Expr e.entry ∷ [] }
    {
        let longer = replace(self, Operands::Empty).followed_by(e);
        drop(replace(self, longer));
    }

    /// The same with one more behind them.
    fn followed_by(self, e: Expr<'a>) -> Operands<'a>
        requires { has_both self ≡ false }
        ensures { operands_of result ≡ operands_of self.entry ++ Argument.Expr e.entry ∷ [] }
    {
        match self {
            Operands::Empty => Operands::One(e),
            Operands::One(first) => Operands::Two(first, e),
            Operands::Two(..) => unreachable!(),
        }
    }
}

/// The arguments of a call over variables: its expressions, and behind them its variables.
#[derive(Drop)]
pub(crate) struct Over<'a> {
    operands: Operands<'a>,
    vars: Vars<'a>,
}

impl<'a> Over<'a> {
    /// No arguments.
    pub(crate) fn new(alloc: Global) -> Over<'a>
        ensures { over result ≡ [] }
    {
        Over {
            operands: Operands::Empty,
            vars: Vars::new(alloc),
        }
    }

    /// How many there are.
    pub(crate) fn len(&self) -> usize
        ensures { result ≡ length (over self.now) }
    {
        self.operands.len() + self.vars.items().len()
    }

    /// One more argument comes behind them.
    pub(crate) fn push(&mut self, argument: Argument<'a>) -> Result<(), NoMemory>
        requires { Follows self.old argument }
        ensures { OnOk result (over self.new ≡ over self.old ++ argument.entry ∷ []) }
    {
        match argument {
            Argument::Expr(e) => {
                self.operands.push(e);
                Ok(())
            }
            Argument::Var(var) => self.vars.push(var),
            Argument::Number(_) => unreachable!(),
        }
    }

    /// The one expression, and the variables.
    pub(crate) fn expr_vars(self) -> (Expr<'a>, Vars<'a>)
        requires { OfKinds (Kind.Expression ∷ Kind.Variable ∷ []) (Some Kind.Variable) (over self) }
        ensures { over self.entry ≡ Argument.Expr result.0 ∷ as_variables result.1 }
    {
        let Over { operands, vars } = self;
        match operands {
            Operands::One(e) => (e, vars),
            Operands::Empty => unreachable!(),
            Operands::Two(..) => unreachable!(),
        }
    }

    /// The two expressions, and the variables.
    pub(crate) fn two_exprs_vars(self) -> (Expr<'a>, Expr<'a>, Vars<'a>)
        requires { OfKinds (Kind.Expression ∷ Kind.Expression ∷ Kind.Variable ∷ []) (Some Kind.Variable)
            (over self) }
        ensures { over self.entry ≡
            Argument.Expr result.0 ∷ Argument.Expr result.1 ∷ as_variables result.2 }
    {
        let Over { operands, vars } = self;
        match operands {
            Operands::Two(e, f) => (e, f, vars),
            Operands::Empty => unreachable!(),
            Operands::One(_) => unreachable!(),
        }
    }
}
