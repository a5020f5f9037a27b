//! What the arguments of a call come to.

ghost use Rattle.std.specs.Prelude.{◌≡◌, ◌<◌, [], ◌∷◌, ◌++◌, Some, None, All, IfOk, OnOk};
ghost use Rattle.cf_model.specs.Terms.{is_true};
ghost use Rattle.cf_session.specs.Values.{AreOf, places_of};

use cf_names::NoMemory;
use cf_pkg::Func;
use cf_reference::grammar::Kind;
use std::alloc::Global;

/// What an argument comes to.
#[derive(Clone, Copy, Drop)]
pub(crate) enum Value {
    Function(Func),
    /// A variable's position.
    Position(i128),
    Number(i128),
}

/// Appends a value.
pub(crate) fn push(args: &mut Vec<Value>, value: Value) -> Result<(), NoMemory>
    ensures { OnOk result (args.new.items ≡ args.old.items ++ value ∷ []) }
{
    args.push(value)?;
    Ok(())
}

#[inline(always)]
pub(crate) fn two_numbers(args: &[Value]) -> (i128, i128)
    requires { AreOf (Kind.Natural ∷ Kind.Number ∷ []) None args.now }
    ensures { args.now ≡ Value.Number result.0 ∷ Value.Number result.1 ∷ [] }
{
    match args {
        [Value::Number(first), Value::Number(second)] => (*first, *second),
        _ => unreachable!(),
    }
}

#[inline(always)]
pub(crate) fn one_number(args: &[Value]) -> i128
    requires { AreOf (Kind.Natural ∷ []) None args.now }
    ensures { args.now ≡ Value.Number result ∷ [] }
{
    match args {
        [Value::Number(n)] => *n,
        _ => unreachable!(),
    }
}

#[inline(always)]
pub(crate) fn three_numbers(args: &[Value]) -> (i128, i128, i128)
    requires { AreOf (Kind.Natural ∷ Kind.Natural ∷ Kind.Natural ∷ []) None args.now }
    ensures { args.now ≡ Value.Number result.0 ∷ Value.Number result.1 ∷ Value.Number result.2 ∷ [] }
{
    match args {
        [
            Value::Number(first),
            Value::Number(second),
            Value::Number(third),
        ] => { (*first, *second, *third) }
        _ => unreachable!(),
    }
}

#[inline(always)]
pub(crate) fn one_function(args: &[Value]) -> Func
    requires { AreOf (Kind.Expression ∷ []) None args.now }
    ensures { args.now ≡ Value.Function result ∷ [] }
{
    match args {
        [Value::Function(f)] => *f,
        _ => unreachable!(),
    }
}

#[inline(always)]
pub(crate) fn two_functions(args: &[Value]) -> (Func, Func)
    requires { AreOf (Kind.Expression ∷ Kind.Expression ∷ []) None args.now }
    ensures { args.now ≡ Value.Function result.0 ∷ Value.Function result.1 ∷ [] }
{
    match args {
        [Value::Function(f), Value::Function(g)] => (*f, *g),
        _ => unreachable!(),
    }
}

#[inline(always)]
pub(crate) fn three_functions(args: &[Value]) -> (Func, Func, Func)
    requires { AreOf (Kind.Expression ∷ Kind.Expression ∷ Kind.Expression ∷ []) None args.now }
    ensures { args.now ≡ Value.Function result.0 ∷ Value.Function result.1 ∷ Value.Function result.2 ∷ [] }
{
    match args {
        [Value::Function(f), Value::Function(g), Value::Function(h)] => (*f, *g, *h),
        _ => unreachable!(),
    }
}

#[inline(always)]
pub(crate) fn function_position_bit(args: &[Value]) -> (Func, i128, i128)
    requires { AreOf (Kind.Expression ∷ Kind.Variable ∷ Kind.Bit ∷ []) None args.now }
    ensures { args.now ≡ Value.Function result.0 ∷ Value.Position result.1 ∷ Value.Number result.2 ∷ [] }
{
    match args {
        [Value::Function(f), Value::Position(i), Value::Number(bit)] => (*f, *i, *bit),
        _ => unreachable!(),
    }
}

#[inline(always)]
pub(crate) fn function_position_function(args: &[Value]) -> (Func, i128, Func)
    requires { AreOf (Kind.Expression ∷ Kind.Variable ∷ Kind.Expression ∷ []) None args.now }
    ensures { args.now ≡ Value.Function result.0 ∷ Value.Position result.1 ∷ Value.Function result.2 ∷ [] }
{
    match args {
        [Value::Function(f), Value::Position(i), Value::Function(g)] => (*f, *i, *g),
        _ => unreachable!(),
    }
}

/// A function, and the variables behind it.
#[inline(always)]
pub(crate) fn function_and_variables(args: &[Value]) -> (Func, &[Value])
    requires { AreOf (Kind.Expression ∷ Kind.Variable ∷ []) (Some Kind.Variable) args.now }
    ensures first { args.now ≡ Value.Function result.0 ∷ result.1.now }
    ensures variables { AreOf (Kind.Variable ∷ []) (Some Kind.Variable) result.1.now }
{
    match args.split_first() {
        Some((Value::Function(f), vars)) => (*f, vars),
        _ => unreachable!(),
    }
}

/// Two functions, and the variables behind them.
#[inline(always)]
pub(crate) fn two_functions_and_variables(args: &[Value]) -> (Func, Func, &[Value])
    requires { AreOf (Kind.Expression ∷ Kind.Expression ∷ Kind.Variable ∷ []) (Some Kind.Variable) args.now }
    ensures first { args.now ≡ Value.Function result.0 ∷ Value.Function result.1 ∷ result.2.now }
    ensures variables { AreOf (Kind.Variable ∷ []) (Some Kind.Variable) result.2.now }
{
    match args.split_first() {
        Some((Value::Function(f), others)) => {
            let (g, vars) = function_and_variables(others);
            (*f, g, vars)
        }
        _ => unreachable!(),
    }
}

/// Whether a bit is set.
#[inline(always)]
pub(crate) fn is_set(bit: i128) -> bool
    ensures { result ≡ is_true bit }
{
    bit != 0
}

/// The positions of variables.
pub(crate) fn positions(alloc: Global, vars: &[Value]) -> Result<Vec<u8>, NoMemory>
    requires kinds { AreOf (Kind.Variable ∷ []) (Some Kind.Variable) vars.now }
    requires low { All (λ i. i < 128) (places_of vars.now) }
    ensures { IfOk result (λ places. places.items ≡ places_of vars.now) }
{
    let mut places = Vec::new(alloc);
    for var in vars {
        match var {
            Value::Position(i) => places.push(i.unsigned_abs() as u8)?,
            _ => unreachable!(),
        }
    }
    Ok(places)
}
