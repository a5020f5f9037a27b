//! The calls of heads, from their arguments.

ghost use Rattle.std.specs.Prelude.{◌≡◌, ◌∷◌, [], true, Some, None, IfOk};
ghost use Rattle.cf_reference.specs.Heads.{signature};
ghost use Rattle.cf_reference.specs.Trees.{Call};
ghost use Rattle.cf_script.specs.Views.{tree_of};
ghost use Rattle.cf_script.specs.Arguments.{OfKinds, held, gathered, over, as_variables, is_few, is_matrix, is_over};

use crate::arguments::{Argument, Gathered, Over};
use crate::trees::{Expr, Vars};
use cf_ops::{NoMemory, Word1};
use cf_reference::grammar::{Head, Kind};
use std::alloc::Global;

/// The call of a head that keeps no list of its arguments, with those that it takes.
pub(crate) fn few_call<'a>(
    alloc: Global,
    head: Head,
    args: Gathered<'a>,
) -> Result<Expr<'a>, NoMemory>
    requires kinds { OfKinds (signature head).first (signature head).further (gathered args) }
    requires few { is_few head ≡ true }
    ensures { IfOk result (λ e. tree_of e ≡ Call head (held (gathered args.entry))) }
{
    match head {
        Head::Const => Ok(const_call(args)),
        Head::One(word) => one_call(alloc, word, args),
        Head::Restrict => restrict_call(alloc, args),
        Head::Compose => compose_call(alloc, args),
        _ => matrix_call(alloc, head, args),
    }
}

fn const_call<'a>(args: Gathered<'a>) -> Expr<'a>
    requires { OfKinds (Kind.Natural ∷ Kind.Number ∷ []) None (gathered args) }
    ensures { tree_of result ≡ Call Head.Const (held (gathered args.entry)) }
{
    let (level, n) = args.numbers();
    Expr::Const(level, n)
}

fn one_call<'a>(alloc: Global, word: Word1, args: Gathered<'a>) -> Result<Expr<'a>, NoMemory>
    requires { OfKinds (Kind.Expression ∷ []) None (gathered args) }
    ensures { IfOk result (λ e. tree_of e ≡ Call (Head.One word) (held (gathered args.entry))) }
{
    Ok(Expr::One(word, boxed(alloc, args.expr())?))
}

fn restrict_call<'a>(alloc: Global, args: Gathered<'a>) -> Result<Expr<'a>, NoMemory>
    requires { OfKinds (Kind.Expression ∷ Kind.Variable ∷ Kind.Bit ∷ []) None (gathered args) }
    ensures { IfOk result (λ e. tree_of e ≡ Call Head.Restrict (held (gathered args.entry))) }
{
    let (e, var, bit) = args.expr_var_bit();
    Ok(Expr::Restrict(boxed(alloc, e)?, var, bit))
}

fn compose_call<'a>(alloc: Global, args: Gathered<'a>) -> Result<Expr<'a>, NoMemory>
    requires { OfKinds (Kind.Expression ∷ Kind.Variable ∷ Kind.Expression ∷ []) None
        (gathered args) }
    ensures { IfOk result (λ e. tree_of e ≡ Call Head.Compose (held (gathered args.entry))) }
{
    let (e, var, f) = args.expr_var_expr();
    let (e, f) = boxes(alloc, e, f)?;
    Ok(Expr::Compose(e, var, f))
}

/// An expression in a box.
fn boxed<'a>(alloc: Global, e: Expr<'a>) -> Result<Box<Expr<'a>>, NoMemory>
    ensures { IfOk result (λ b. b.value ≡ e.entry) }
{
    Ok(Box::new(alloc, e)?)
}

/// Two expressions, each in a box.
fn boxes<'a>(
    alloc: Global,
    e: Expr<'a>,
    f: Expr<'a>,
) -> Result<(Box<Expr<'a>>, Box<Expr<'a>>), NoMemory>
    ensures first { IfOk result (λ r. r.0.value ≡ e.entry) }
    ensures second { IfOk result (λ r. r.1.value ≡ f.entry) }
{
    match boxed(alloc, e) {
        Ok(e) => beside(alloc, e, f),
        Err(fault) => {
            drop(f);
            Err(fault)
        }
    }
}

/// A box, and an expression in another one.
fn beside<'a>(
    alloc: Global,
    e: Box<Expr<'a>>,
    f: Expr<'a>,
) -> Result<(Box<Expr<'a>>, Box<Expr<'a>>), NoMemory>
    ensures first { IfOk result (λ r. r.0.value ≡ e.entry.value) }
    ensures second { IfOk result (λ r. r.1.value ≡ f.entry) }
{
    match boxed(alloc, f) {
        Ok(f) => Ok((e, f)),
        Err(fault) => {
            drop(e);
            Err(fault)
        }
    }
}

/// The call of a head of matrices, with the arguments that it takes.
fn matrix_call<'a>(alloc: Global, head: Head, args: Gathered<'a>) -> Result<Expr<'a>, NoMemory>
    requires kinds { OfKinds (signature head).first (signature head).further (gathered args) }
    requires matrices { is_matrix head ≡ true }
    ensures { IfOk result (λ e. tree_of e ≡ Call head (held (gathered args.entry))) }
{
    match head {
        Head::Kron => kron_call(alloc, args),
        Head::Matmul => matmul_call(alloc, args),
        Head::Transpose => transpose_call(alloc, args),
        Head::Id => Ok(Expr::Id(args.number())),
        Head::Walsh => Ok(Expr::Walsh(args.number())),
        Head::Unit => Ok(unit_call(args)),
        _ => unreachable!(),
    }
}

fn kron_call<'a>(alloc: Global, args: Gathered<'a>) -> Result<Expr<'a>, NoMemory>
    requires { OfKinds (Kind.Expression ∷ Kind.Expression ∷ []) None (gathered args) }
    ensures { IfOk result (λ e. tree_of e ≡ Call Head.Kron (held (gathered args.entry))) }
{
    let (e, f) = args.two_exprs();
    let (e, f) = boxes(alloc, e, f)?;
    Ok(Expr::Kron(e, f))
}

fn matmul_call<'a>(alloc: Global, args: Gathered<'a>) -> Result<Expr<'a>, NoMemory>
    requires { OfKinds (Kind.Expression ∷ Kind.Expression ∷ []) None (gathered args) }
    ensures { IfOk result (λ e. tree_of e ≡ Call Head.Matmul (held (gathered args.entry))) }
{
    let (e, f) = args.two_exprs();
    let (e, f) = boxes(alloc, e, f)?;
    Ok(Expr::Matmul(e, f))
}

fn transpose_call<'a>(alloc: Global, args: Gathered<'a>) -> Result<Expr<'a>, NoMemory>
    requires { OfKinds (Kind.Expression ∷ []) None (gathered args) }
    ensures { IfOk result (λ e. tree_of e ≡ Call Head.Transpose (held (gathered args.entry))) }
{
    Ok(Expr::Transpose(boxed(alloc, args.expr())?))
}

fn unit_call<'a>(args: Gathered<'a>) -> Expr<'a>
    requires { OfKinds (Kind.Natural ∷ Kind.Natural ∷ Kind.Natural ∷ []) None (gathered args) }
    ensures { tree_of result ≡ Call Head.Unit (held (gathered args.entry)) }
{
    let (level, row, column) = args.three_numbers();
    Expr::Unit(level, row, column)
}

/// The call of a head over variables, with the arguments that it takes.
pub(crate) fn over_call<'a>(alloc: Global, head: Head, args: Over<'a>) -> Result<Expr<'a>, NoMemory>
    requires kinds { OfKinds (signature head).first (signature head).further (over args) }
    requires variables { is_over head ≡ true }
    ensures { IfOk result (λ e. tree_of e ≡ Call head (held (over args.entry))) }
{
    match head {
        Head::Exists => exists_call(alloc, args),
        Head::Forall => forall_call(alloc, args),
        Head::SumOut => sumout_call(alloc, args),
        Head::AndExists => andexists_call(alloc, args),
        _ => unreachable!(),
    }
}

/// The one expression in a box, and the variables.
fn boxed_over<'a>(alloc: Global, args: Over<'a>) -> Result<(Box<Expr<'a>>, Vars<'a>), NoMemory>
    requires { OfKinds (Kind.Expression ∷ Kind.Variable ∷ []) (Some Kind.Variable) (over args) }
    ensures { IfOk result (λ r. over args.entry ≡ Argument.Expr r.0.value ∷ as_variables r.1) }
{
    let (e, vars) = args.expr_vars();
    match boxed(alloc, e) {
        Ok(e) => Ok((e, vars)),
        Err(fault) => {
            drop(vars);
            Err(fault)
        }
    }
}

#[tactic(auto, using(crate::proofs::OverFacts::held_variables))]
fn exists_call<'a>(alloc: Global, args: Over<'a>) -> Result<Expr<'a>, NoMemory>
    requires { OfKinds (Kind.Expression ∷ Kind.Variable ∷ []) (Some Kind.Variable) (over args) }
    ensures { IfOk result (λ e. tree_of e ≡ Call Head.Exists (held (over args.entry))) }
{
    let (e, vars) = boxed_over(alloc, args)?;
    Ok(Expr::Exists(e, vars))
}

#[tactic(auto, using(crate::proofs::OverFacts::held_variables))]
fn forall_call<'a>(alloc: Global, args: Over<'a>) -> Result<Expr<'a>, NoMemory>
    requires { OfKinds (Kind.Expression ∷ Kind.Variable ∷ []) (Some Kind.Variable) (over args) }
    ensures { IfOk result (λ e. tree_of e ≡ Call Head.Forall (held (over args.entry))) }
{
    let (e, vars) = boxed_over(alloc, args)?;
    Ok(Expr::Forall(e, vars))
}

#[tactic(auto, using(crate::proofs::OverFacts::held_variables))]
fn sumout_call<'a>(alloc: Global, args: Over<'a>) -> Result<Expr<'a>, NoMemory>
    requires { OfKinds (Kind.Expression ∷ Kind.Variable ∷ []) (Some Kind.Variable) (over args) }
    ensures { IfOk result (λ e. tree_of e ≡ Call Head.SumOut (held (over args.entry))) }
{
    let (e, vars) = boxed_over(alloc, args)?;
    Ok(Expr::SumOut(e, vars))
}

#[tactic(auto, using(crate::proofs::OverFacts::held_variables))]
fn andexists_call<'a>(alloc: Global, args: Over<'a>) -> Result<Expr<'a>, NoMemory>
    requires { OfKinds (Kind.Expression ∷ Kind.Expression ∷ Kind.Variable ∷ []) (Some Kind.Variable)
        (over args) }
    ensures { IfOk result (λ e. tree_of e ≡ Call Head.AndExists (held (over args.entry))) }
{
    let (e, f, vars) = args.two_exprs_vars();
    match boxes(alloc, e, f) {
        Ok((e, f)) => Ok(Expr::AndExists(e, f, vars)),
        Err(fault) => {
            drop(vars);
            Err(fault)
        }
    }
}
