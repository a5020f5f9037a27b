//! The least assignment at which two functions differ.

ghost use Rattle.std.specs.Prelude.{◌≡◌, ◌<◌, ◌^◌, ◌↔◌, pos, List, Bool, Some, None, Ok, IfOk, IfSome};
ghost use Rattle.cf_model.specs.Assignments.{bits};
ghost use Rattle.cf_model.specs.FlatFunctions.{IsAssignment, IsLeast, value_at};
ghost use Rattle.cf_pkg.specs.Packages.{OwnsFunction, Keeps, meaning};
ghost use Rattle.cf_pkg.specs.Jobs.{AreLevel};
ghost use Rattle.cf_witness.specs.Separating.{Differ, AgreeEverywhere};

use crate::first_value;
use cf_bits::Bits;
use cf_ops::{Op2, Word2, words};
use cf_pkg::{Func, OpFault, Pkg, tree_of_two};
use cf_table::steps::Steps;
use cf_tuple::NoMemory;
use std::alloc::{AllocError, Global};
use std::marker::Brand;
use std::sync::ledger::{Blank, Ledger};

/// The function that is 1 where f and g agree, and 0 where they differ.
#[tactic(auto, using(cf_ops::proofs::TermFacts::operation_laws))]
fn agreement<L: Ledger>(
    alloc: Global,
    pkg: &mut Pkg,
    f: Func,
    g: Func,
    blank: Blank,
) -> Result<Func, NoMemory>
    requires level { AreLevel pkg.old f g }
    requires name { blank.name ≡ L.name }
    requires parts { blank.parts ≡ L.parts }
    requires some { 0 < blank.parts }
    ensures owned { IfOk result (λ r. OwnsFunction pkg.new r) }
    ensures level { IfOk result (λ r. r.head.level ≡ f.head.level) }
    ensures zeros { IfOk result (λ r. (at : List Bool) → IsAssignment f.head.level at →
        (value_at (meaning pkg.new r) at ≡ Some (pos 0)) ↔ Differ pkg.old f g at) }
    ensures kept { Keeps pkg.old pkg.new }
{
    pkg.law(f);
    pkg.law(g);
    let tree = tree_of_two(alloc, Word2::Eq)?;
    let op = Op2::new(tree, words::eq);
    let mut steps = Steps::<L>::open(blank);
    match pkg.apply(&op, f, g, &mut steps) {
        Ok(function) => Ok(function),
        Err(OpFault::NoMemory) => Err(AllocError),
        Err(OpFault::Overflow { .. }) => unreachable!(),
    }
}

/// The value of a function at an assignment, for a caller that counts nothing.
fn value_there<L: Ledger>(pkg: &Pkg, f: Func, at: Bits, blank: Blank) -> i128
    requires owned { OwnsFunction pkg.now f }
    requires len { at.len ≡ 2 ^ f.head.level }
    requires name { blank.name ≡ L.name }
    requires parts { blank.parts ≡ L.parts }
    requires some { 0 < blank.parts }
    ensures { value_at (meaning pkg.now f) (bits at) ≡ Some result }
{
    let mut steps = Steps::<L>::open(blank);
    pkg.eval(f, at, &mut steps)
}

/// The least assignment at which f and g differ, with f's value there and g's, and None exactly
/// where they agree everywhere. Then it takes no memory, and nothing is added to the package.
#[tactic(auto, using(crate::proofs::Agreement::length_laws))]
pub fn separate(
    alloc: Global,
    pkg: &mut Pkg,
    f: Func,
    g: Func,
) -> Result<Option<(Bits, i128, i128)>, NoMemory>
    requires level { AreLevel pkg.old f g }
    ensures least { IfOk result (λ o. IfSome o (λ s.
        IsLeast f.head.level (Differ pkg.old f g) (bits s.0))) }
    ensures values { IfOk result (λ o. IfSome o (λ s.
        (value_at (meaning pkg.old f) (bits s.0) ≡ Some s.1)
        × (value_at (meaning pkg.old g) (bits s.0) ≡ Some s.2))) }
    ensures none { (result ≡ Ok None) ↔ AgreeEverywhere pkg.old f g }
    ensures unchanged { AgreeEverywhere pkg.old f g → pkg.new ≡ pkg.old }
    ensures kept { Keeps pkg.old pkg.new }
{
    if pkg.same(f, g) {
        return Ok(None);
    }
    let agreement = agreement::<Brand>(alloc, pkg, f, g, Blank::new(1))?;
    let Some(at) = first_value(pkg, agreement, 0) else {
        unreachable!();
    };
    let left = value_there::<Brand>(pkg, f, at, Blank::new(1));
    let right = value_there::<Brand>(pkg, g, at, Blank::new(1));
    Ok(Some((at, left, right)))
}
