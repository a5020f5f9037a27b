//! Kronecker products and matrices.
#![tactic(auto)]

mod memo;
mod named;
mod products;
mod recipe;
mod transposition;

ghost use Rattle.std.specs.Prelude.{◌≡◌, ◌≤◌, ◌<◌, ◌-◌, ◌^◌, suc, Some, IfOk};
ghost use Rattle.cf_model.specs.Assignments.{Assignment, bits, bits_of};
ghost use Rattle.cf_model.specs.Matrices.{kronecker, identity as identity_of, walsh as walsh_of, unit as unit_of, transpose as transpose_of, entry as entry_of};
ghost use Rattle.cf_pkg.specs.declared.jobs.OpFault.{OpFault};
ghost use Rattle.cf_pkg.specs.Tasks as task;
ghost use Rattle.cf_pkg.specs.Packages.{OwnsFunction, IsRemembered, Keeps};
ghost use Rattle.cf_pkg.specs.Jobs.{AreLevel, value_in, HasValues, IsLeastWithout, AnswersFinished};
ghost use Rattle.cf_pkg.specs.Faults.{IfOverflow};

use cf_bits::Bits;
use cf_pkg::{Func, Job, OpFault, Pkg};
use cf_table::steps::Steps;
use cf_tuple::NoMemory;
pub use recipe::Matrices;
use std::alloc::{AllocError, Global};
use std::marker::Brand;
use std::sync::ledger::{Blank, Ledger};

/// The want of memory of an operation that has values everywhere.
pub(crate) fn no_memory(fault: OpFault) -> NoMemory
    requires { (at : Assignment) → fault ≡ OpFault.Overflow at → ⊥ }
{
    match fault {
        OpFault::NoMemory => AllocError,
        OpFault::Overflow { at: _ } => unreachable!(),
    }
}

/// The Kronecker product, one level higher: f's value at the first half of an assignment times g's
/// at the second half. Overflow comes exactly where a product doesn't fit, and says the least
/// assignment. A product that was made before is looked up.
pub fn kron(_alloc: Global, pkg: &mut Pkg, f: Func, g: Func) -> Result<Func, OpFault>
    requires level { AreLevel pkg.old f g }
    requires below { f.head.level ≤ 6 }
    ensures values { IfOk result (λ r. HasValues pkg.new r (suc f.head.level)
        (kronecker (value_in pkg.old f) (value_in pkg.old g))) }
    ensures overflow { IfOverflow result (IsLeastWithout (suc f.head.level)
        (kronecker (value_in pkg.old f) (value_in pkg.old g))) }
    ensures remembered { IfOk result (IsRemembered pkg.new (task.Kron f g)) }
    ensures finished { AnswersFinished pkg.old pkg.new (task.Kron f g) result }
    ensures kept { Keeps pkg.old pkg.new }
{
    pkg.make(&Matrices {}, Job::Kron { f, g })
}

/// The identity matrix of a level: 1 where row and column are equal, else 0.
pub fn identity(_alloc: Global, pkg: &mut Pkg, level: u8) -> Result<Func, NoMemory>
    requires some { 1 ≤ level }
    requires most { level ≤ 7 }
    ensures values { IfOk result (λ r. HasValues pkg.new r level
        (λ bits. Some (identity_of bits))) }
    ensures remembered { IfOk result (IsRemembered pkg.new (task.Id level)) }
    ensures finished { AnswersFinished pkg.old pkg.new (task.Id level) result }
    ensures kept { Keeps pkg.old pkg.new }
{
    match pkg.make(&Matrices {}, Job::Id { level }) {
        Ok(r) => Ok(r),
        Err(fault) => Err(no_memory(fault)),
    }
}

/// The Walsh matrix of a level: -1 where row and column have an odd number of common ones, else 1.
pub fn walsh(_alloc: Global, pkg: &mut Pkg, level: u8) -> Result<Func, NoMemory>
    requires some { 1 ≤ level }
    requires most { level ≤ 7 }
    ensures values { IfOk result (λ r. HasValues pkg.new r level
        (λ bits. Some (walsh_of bits))) }
    ensures remembered { IfOk result (IsRemembered pkg.new (task.Walsh level)) }
    ensures finished { AnswersFinished pkg.old pkg.new (task.Walsh level) result }
    ensures kept { Keeps pkg.old pkg.new }
{
    match pkg.make(&Matrices {}, Job::Walsh { level }) {
        Ok(r) => Ok(r),
        Err(fault) => Err(no_memory(fault)),
    }
}

/// The matrix of a level with 1 in row r and column c, and 0 elsewhere. Both are below
/// 2 ^ 2 ^ (level - 1).
pub fn unit(_alloc: Global, pkg: &mut Pkg, level: u8, r: u64, c: u64) -> Result<Func, NoMemory>
    requires some { 1 ≤ level }
    requires most { level ≤ 7 }
    requires row { r < 2 ^ (2 ^ (level - 1)) }
    requires column { c < 2 ^ (2 ^ (level - 1)) }
    ensures values { IfOk result (λ made. HasValues pkg.new made level
        (λ bits. Some (unit_of r c bits))) }
    ensures remembered { IfOk result (IsRemembered pkg.new (task.UnitAt level r c)) }
    ensures finished { AnswersFinished pkg.old pkg.new (task.UnitAt level r c) result }
    ensures kept { Keeps pkg.old pkg.new }
{
    match pkg.make(&Matrices {}, Job::Unit { level, r, c }) {
        Ok(made) => Ok(made),
        Err(fault) => Err(no_memory(fault)),
    }
}

/// The matrix with rows and columns exchanged.
pub fn transpose(_alloc: Global, pkg: &mut Pkg, f: Func) -> Result<Func, NoMemory>
    requires owned { OwnsFunction pkg.old f }
    requires level { 1 ≤ f.head.level }
    ensures values { IfOk result (λ r. HasValues pkg.new r f.head.level
        (λ bits. Some (transpose_of (value_in pkg.old f) bits))) }
    ensures remembered { IfOk result (IsRemembered pkg.new (task.Transpose f)) }
    ensures finished { AnswersFinished pkg.old pkg.new (task.Transpose f) result }
    ensures kept { Keeps pkg.old pkg.new }
{
    match pkg.make(&Matrices {}, Job::Transpose { f }) {
        Ok(r) => Ok(r),
        Err(fault) => Err(no_memory(fault)),
    }
}

/// The value at an assignment, for a caller that counts nothing.
fn value_there<L: Ledger>(pkg: &Pkg, f: Func, at: Bits, blank: Blank) -> i128
    requires owned { OwnsFunction pkg.now f }
    requires len { at.len ≡ 2 ^ f.head.level }
    requires name { blank.name ≡ L.name }
    requires parts { blank.parts ≡ L.parts }
    requires some { 0 < blank.parts }
    ensures { result ≡ value_in pkg.now f (bits at) }
{
    let mut steps = Steps::<L>::open(blank);
    pkg.eval(f, at, &mut steps)
}

/// The entry of a matrix in a row and a column. Of a function of 2 ^ level variables, level being at
/// least 1, each of the two has 2 ^ (level - 1) bits. It takes no memory.
pub fn entry(pkg: &Pkg, f: Func, row: u64, col: u64) -> i128
    requires owned { OwnsFunction pkg.now f }
    requires level { 1 ≤ f.head.level }
    requires row { row < 2 ^ (2 ^ (f.head.level - 1)) }
    requires column { col < 2 ^ (2 ^ (f.head.level - 1)) }
    ensures { let index_bits = 2 ^ (f.head.level - 1) in
        result ≡ entry_of (value_in pkg.now f) (bits_of index_bits row) (bits_of index_bits col) }
{
    pkg.law(f);
    let index_bits = 1u8 << (f.head.level - 1);
    let row = Bits::new(index_bits, row as u128);
    let column = Bits::new(index_bits, col as u128);
    value_there::<Brand>(pkg, f, Bits::weave(row, column), Blank::new(1))
}
