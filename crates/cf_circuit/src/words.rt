//! Operations on functions that have a value everywhere, so that only memory can be wanting.

ghost use Rattle.std.specs.Prelude.{◌≡◌, ◌<◌, ℕ, List, Bool, not, IfOk};
ghost use Rattle.cf_ops.specs.Operations.{of_one, of_two, of_three};
ghost use Rattle.cf_pkg.specs.Packages.{OwnsFunction, Keeps};
ghost use Rattle.cf_pkg.specs.Jobs.{AreLevel, map_value, apply_value, ternary_value, HasValues};
ghost use Rattle.cf_circuit.specs.Truths.{IsTotal};

use crate::NoMemory;
use cf_ops::{Word1, Word2};
use cf_pkg::{Func, OpFault, Pkg};
use cf_table::steps::Steps;
use std::alloc::AllocError;
use std::marker::Brand;
use std::sync::ledger::{Blank, Ledger};

/// 1 where f is 0, else 0.
pub(crate) fn negated(pkg: &mut Pkg, f: Func) -> Result<Func, NoMemory>
    requires owned { OwnsFunction pkg.old f }
    ensures values { IfOk result (λ r.
        HasValues pkg.new r f.head.level (map_value pkg.old (of_one Word1.Not) f)) }
    ensures kept { Keeps pkg.old pkg.new }
{
    match pkg.map_word(Word1::Not, f) {
        Ok(r) => Ok(r),
        Err(OpFault::NoMemory) => Err(AllocError),
        Err(OpFault::Overflow { .. }) => unreachable!(),
    }
}

/// The word's operation on the values of f and g.
pub(crate) fn joined(pkg: &mut Pkg, word: Word2, f: Func, g: Func) -> Result<Func, NoMemory>
    requires total { IsTotal word }
    requires level { AreLevel pkg.old f g }
    ensures values { IfOk result (λ r.
        HasValues pkg.new r f.head.level (apply_value pkg.old (of_two word) f g)) }
    ensures kept { Keeps pkg.old pkg.new }
{
    joined_uncounted::<Brand>(pkg, word, f, g, Blank::new(1))
}

/// The same. The views of groupings aren't counted.
fn joined_uncounted<L: Ledger>(
    pkg: &mut Pkg,
    word: Word2,
    f: Func,
    g: Func,
    blank: Blank,
) -> Result<Func, NoMemory>
    requires total { IsTotal word }
    requires level { AreLevel pkg.old f g }
    requires name { blank.name ≡ L.name }
    requires parts { blank.parts ≡ L.parts }
    requires some { 0 < blank.parts }
    ensures values { IfOk result (λ r.
        HasValues pkg.new r f.head.level (apply_value pkg.old (of_two word) f g)) }
    ensures kept { Keeps pkg.old pkg.new }
{
    let mut steps = Steps::<L>::open(blank);
    match pkg.apply_word(word, f, g, &mut steps) {
        Ok(r) => Ok(r),
        Err(OpFault::NoMemory) => Err(AllocError),
        Err(OpFault::Overflow { .. }) => unreachable!(),
    }
}

/// g's value where f's isn't 0, else h's.
pub(crate) fn chosen(pkg: &mut Pkg, f: Func, g: Func, h: Func) -> Result<Func, NoMemory>
    requires level { AreLevel pkg.old f g }
    requires third_level { AreLevel pkg.old f h }
    ensures values { IfOk result (λ r.
        HasValues pkg.new r f.head.level (ternary_value pkg.old of_three f g h)) }
    ensures kept { Keeps pkg.old pkg.new }
{
    chosen_uncounted::<Brand>(pkg, f, g, h, Blank::new(1))
}

/// The same. The views of groupings aren't counted.
fn chosen_uncounted<L: Ledger>(
    pkg: &mut Pkg,
    f: Func,
    g: Func,
    h: Func,
    blank: Blank,
) -> Result<Func, NoMemory>
    requires level { AreLevel pkg.old f g }
    requires third_level { AreLevel pkg.old f h }
    requires name { blank.name ≡ L.name }
    requires parts { blank.parts ≡ L.parts }
    requires some { 0 < blank.parts }
    ensures values { IfOk result (λ r.
        HasValues pkg.new r f.head.level (ternary_value pkg.old of_three f g h)) }
    ensures kept { Keeps pkg.old pkg.new }
{
    let mut steps = Steps::<L>::open(blank);
    match pkg.choose(f, g, h, &mut steps) {
        Ok(r) => Ok(r),
        Err(OpFault::NoMemory) => Err(AllocError),
        Err(OpFault::Overflow { .. }) => unreachable!(),
    }
}
