//! A call as its head and its arguments.

ghost use Rattle.std.specs.Prelude.{◌≡◌, ◌<◌};
ghost use Rattle.cf_reference.specs.Trees.{count, more};
ghost use Rattle.cf_script.specs.Views.{tree_of, atoms};
ghost use Rattle.cf_session.specs.Arguments.{IsForm, StandsAt, arguments_of};

use cf_reference::grammar::Head;
use cf_script::{Expr, Var, Vars};

/// The form of an expression.
#[derive(Drop)]
pub(crate) enum Form<'e, 'a> {
    Num(i128),
    At(i128),
    Named(&'a [u8]),
    /// Nested calls, each of the one before and the next expression.
    Nested(Head, &'e [Expr<'a>]),
    /// Any other call.
    Call(Head),
}

/// An argument of a call.
pub(crate) enum Given<'e, 'a> {
    Expr(&'e Expr<'a>),
    Var(Var<'a>),
    Number(i128),
}

/// The form of an expression.
#[inline(always)]
pub(crate) fn form_of<'e, 'a>(expr: &'e Expr<'a>) -> Form<'e, 'a>
    ensures { IsForm result (tree_of expr.now) }
{
    match expr {
        Expr::Num(n) => Form::Num(*n),
        Expr::At(i) => Form::At(*i),
        Expr::Named(name) => Form::Named(name),
        Expr::Const(..) => Form::Call(Head::Const),
        Expr::One(word, _) => Form::Call(Head::One(*word)),
        Expr::Fold(word, es) => Form::Nested(Head::Fold(*word), es.items()),
        Expr::Ite(_) => Form::Call(Head::Ite),
        Expr::Restrict(..) => Form::Call(Head::Restrict),
        Expr::Exists(..) => Form::Call(Head::Exists),
        Expr::Forall(..) => Form::Call(Head::Forall),
        Expr::SumOut(..) => Form::Call(Head::SumOut),
        Expr::Compose(..) => Form::Call(Head::Compose),
        Expr::AndExists(..) => Form::Call(Head::AndExists),
        Expr::Kron(..) => Form::Call(Head::Kron),
        Expr::Matmul(..) => Form::Call(Head::Matmul),
        Expr::Transpose(_) => Form::Call(Head::Transpose),
        Expr::Id(_) => Form::Call(Head::Id),
        Expr::Walsh(_) => Form::Call(Head::Walsh),
        Expr::Unit(..) => Form::Call(Head::Unit),
    }
}

/// How many arguments a call has.
#[inline(always)]
pub(crate) fn arity(expr: &Expr) -> usize
    ensures { result ≡ count (arguments_of (tree_of expr.now)) }
{
    match expr {
        Expr::Num(_) | Expr::At(_) | Expr::Named(_) => 0,
        Expr::One(..) | Expr::Transpose(_) | Expr::Id(_) | Expr::Walsh(_) => 1,
        Expr::Const(..) | Expr::Kron(..) | Expr::Matmul(..) => 2,
        Expr::Fold(_, es) | Expr::Ite(es) => es.items().len(),
        Expr::Restrict(..) | Expr::Compose(..) | Expr::Unit(..) => 3,
        Expr::Exists(_, vars) => vars.items().len() + 1,
        Expr::Forall(_, vars) => vars.items().len() + 1,
        Expr::SumOut(_, vars) => vars.items().len() + 1,
        Expr::AndExists(_, _, vars) => vars.items().len() + 2,
    }
}

/// The argument at a place of an expression and variables behind it.
#[inline(always)]
fn quantified<'e, 'a>(e: &'e Expr<'a>, vars: &'e Vars<'a>, place: usize) -> Given<'e, 'a>
    requires { place < count (more (tree_of e.now) (atoms vars.now)) }
    ensures { StandsAt place (more (tree_of e.now) (atoms vars.now)) result }
{
    match place {
        0 => Given::Expr(e),
        _ => Given::Var(vars.items()[place - 1]),
    }
}

/// The argument of a call at a place.
#[inline(always)]
pub(crate) fn argument<'e, 'a>(expr: &'e Expr<'a>, place: usize) -> Given<'e, 'a>
    requires { place < count (arguments_of (tree_of expr.now)) }
    ensures { StandsAt place (arguments_of (tree_of expr.now)) result }
{
    match expr {
        Expr::Const(level, n) => Given::Number(if place == 0 { *level } else { *n }),
        Expr::One(_, e) => Given::Expr(e),
        Expr::Fold(_, es) | Expr::Ite(es) => Given::Expr(&es.items()[place]),
        Expr::Restrict(e, var, bit) => match place {
            0 => Given::Expr(e),
            1 => Given::Var(*var),
            _ => Given::Number(i128::from(*bit)),
        },
        Expr::Compose(e, var, f) => match place {
            0 => Given::Expr(e),
            1 => Given::Var(*var),
            _ => Given::Expr(f),
        },
        Expr::Exists(e, vars) => quantified(e, vars, place),
        Expr::Forall(e, vars) => quantified(e, vars, place),
        Expr::SumOut(e, vars) => quantified(e, vars, place),
        Expr::AndExists(e, f, vars) => match place {
            0 => Given::Expr(e),
            _ => quantified(f, vars, place - 1),
        },
        Expr::Kron(e, f) => match place {
            0 => Given::Expr(e),
            _ => Given::Expr(f),
        },
        Expr::Matmul(e, f) => match place {
            0 => Given::Expr(e),
            _ => Given::Expr(f),
        },
        Expr::Transpose(e) => Given::Expr(e),
        Expr::Id(level) => Given::Number(*level),
        Expr::Walsh(level) => Given::Number(*level),
        Expr::Unit(level, row, column) => match place {
            0 => Given::Number(*level),
            1 => Given::Number(*row),
            _ => Given::Number(*column),
        },
        Expr::Num(_) | Expr::At(_) | Expr::Named(_) => unreachable!(),
    }
}
