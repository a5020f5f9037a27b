//! Where wires are 1, with constants apart from functions, so that no job is made of a constant.

ghost use Rattle.std.specs.Prelude.{◌≡◌, ◌≤◌, ℕ, IfOk};
ghost use Rattle.cf_pkg.specs.Packages.{OwnsFunction, Keeps};
ghost use Rattle.cf_circuit.specs.Truths.{IsAt, AreAt, AreAllAt};
ghost use Rattle.cf_circuit.specs.Truths.{TellsNot, TellsEither, TellsChoice, IsOf};

use crate::NoMemory;
use crate::words::{chosen, joined, negated};
use cf_ops::Word2;
use cf_pkg::{Func, Pkg};

/// Where a wire is 1.
#[derive(Clone, Copy, Drop)]
pub(crate) enum Truth {
    Never,
    Always,
    /// Where the function is 1, which is 0 elsewhere.
    Where(Func),
}

/// Where it isn't.
pub(crate) fn not(pkg: &mut Pkg, a: Truth) -> Result<Truth, NoMemory>
    requires at { (l : ℕ) × IsAt pkg.old l a }
    ensures told { IfOk result (TellsNot pkg.old pkg.new a) }
    ensures kept { Keeps pkg.old pkg.new }
{
    match a {
        Truth::Never => Ok(Truth::Always),
        Truth::Always => Ok(Truth::Never),
        Truth::Where(f) => Ok(Truth::Where(negated(pkg, f)?)),
    }
}

/// Where one of them is.
pub(crate) fn either(pkg: &mut Pkg, a: Truth, b: Truth) -> Result<Truth, NoMemory>
    requires at { AreAt pkg.old a b }
    ensures told { IfOk result (TellsEither pkg.old pkg.new a b) }
    ensures kept { Keeps pkg.old pkg.new }
{
    match (a, b) {
        (Truth::Always, _) => Ok(Truth::Always),
        (Truth::Never, _) => Ok(b),
        (Truth::Where(_), Truth::Always) => Ok(Truth::Always),
        (Truth::Where(_), Truth::Never) => Ok(a),
        (Truth::Where(f), Truth::Where(g)) => Ok(Truth::Where(joined(pkg, Word2::Or, f, g)?)),
    }
}

/// Where b is, there where a is, and where c is elsewhere.
pub(crate) fn choice(pkg: &mut Pkg, a: Truth, b: Truth, c: Truth) -> Result<Truth, NoMemory>
    requires at { AreAllAt pkg.old a b c }
    ensures told { IfOk result (TellsChoice pkg.old pkg.new a b c) }
    ensures kept { Keeps pkg.old pkg.new }
{
    match a {
        Truth::Always => Ok(b),
        Truth::Never => Ok(c),
        Truth::Where(f) => choice_by(pkg, f, b, c),
    }
}

/// The same by a function.
fn choice_by(pkg: &mut Pkg, f: Func, b: Truth, c: Truth) -> Result<Truth, NoMemory>
    requires at { AreAllAt pkg.old (Truth.Where f) b c }
    ensures told { IfOk result (TellsChoice pkg.old pkg.new (Truth.Where f) b c) }
    ensures kept { Keeps pkg.old pkg.new }
{
    match (b, c) {
        (Truth::Never, Truth::Never) => Ok(Truth::Never),
        (Truth::Always, Truth::Always) => Ok(Truth::Always),
        (Truth::Always, Truth::Never) => Ok(Truth::Where(f)),
        (Truth::Never, Truth::Always) => Ok(Truth::Where(negated(pkg, f)?)),
        (Truth::Where(g), Truth::Never) => Ok(Truth::Where(joined(pkg, Word2::And, f, g)?)),
        (Truth::Never, Truth::Where(h)) => Ok(Truth::Where(joined(pkg, Word2::Lt, f, h)?)),
        (Truth::Always, Truth::Where(h)) => Ok(Truth::Where(joined(pkg, Word2::Or, f, h)?)),
        (Truth::Where(g), Truth::Always) => {
            let elsewhere = negated(pkg, f)?;
            Ok(Truth::Where(joined(pkg, Word2::Or, elsewhere, g)?))
        }
        (Truth::Where(g), Truth::Where(h)) => Ok(Truth::Where(chosen(pkg, f, g, h)?)),
    }
}

/// The function that is 1 there, and 0 elsewhere.
pub(crate) fn function_of(pkg: &mut Pkg, level: u8, a: Truth) -> Result<Func, NoMemory>
    requires level { level ≤ 7 }
    requires at { IsAt pkg.old level a }
    ensures shown { IfOk result (IsOf pkg.old pkg.new level a) }
    ensures kept { Keeps pkg.old pkg.new }
{
    match a {
        Truth::Never => pkg.constant(level, 0),
        Truth::Always => pkg.constant(level, 1),
        Truth::Where(f) => Ok(f),
    }
}
