//! Matrix products: the sums of exit pairs of two groupings, and the products of functions.
#![tactic(auto)]

mod base;
mod labels;
mod memo;
mod products;
mod recipe;
mod weights;

ghost use Rattle.std.specs.Prelude.{◌≡◌, ◌≤◌, ◌-◌, ◌^◌, IfOk};
ghost use Rattle.cf_model.specs.Matrices.{product};
ghost use Rattle.cf_table.specs.Groupings.{Owns};
ghost use Rattle.cf_build.specs.Assembling.{listed};
ghost use Rattle.cf_pkg.specs.Tasks as task;
ghost use Rattle.cf_pkg.specs.Packages.{IsRemembered, Keeps, HasParts};
ghost use Rattle.cf_pkg.specs.Jobs.{AreLevel, value_in, HasValues, IsLeastWithout, AnswersFinished};
ghost use Rattle.cf_pkg.specs.Faults.{IfOverflow};
ghost use Rattle.cf_matmul.specs.Symbolic.{HasGrown};
ghost use Rattle.cf_matmul.specs.Memos.{IsProduct};
ghost use Rattle.cf_matmul.specs.Values.{WeightsAreEntries};

use cf_comb::{CombBook, CombId};
use cf_pkg::{Func, Job, OpFault, Pkg};
use cf_table::{Gid, Table};
use cf_tuple::NoMemory;
use indexmap::IndexMap;
use products::product_sums;
pub use recipe::Products;
use std::alloc::Global;

/// The grouping and the sums of exit pairs of the product of two groupings of one level, as
/// matrices: at a row and a column the exits of g and h that meet, over all inner indices. Each
/// sum comes once, in order of first appearance.
pub fn symbolic(
    alloc: Global,
    table: &mut Table,
    book: &mut CombBook,
    g: Gid,
    h: Gid,
) -> Result<(Gid, Vec<CombId>), NoMemory>
    requires first { Owns table.old g }
    requires second { Owns table.old h }
    requires above { 1 ≤ g.level }
    requires level { g.level ≡ h.level }
    ensures summed { IfOk result (λ r.
        IsProduct table.old.levels table.new.levels book.new g h (listed r)) }
    ensures grown { HasGrown table.old table.new book.old book.new }
{
    table.law();
    let mut done = IndexMap::new(alloc);
    product_sums(alloc, table, book, &mut done, g, h)
}

/// The matrix product of two functions of one level, as matrices. Overflow comes exactly where the
/// absolute products of some entry add to more than 2^127 - 1, and says the least assignment of
/// such an entry. A product that was made before is looked up.
pub fn matmul(_alloc: Global, pkg: &mut Pkg, f: Func, g: Func) -> Result<Func, OpFault>
    requires level { AreLevel pkg.old f g }
    requires above { 1 ≤ f.head.level }
    ensures values { IfOk result (λ r. HasValues pkg.new r f.head.level
        (product (2 ^ (f.head.level - 1)) (value_in pkg.old f) (value_in pkg.old g))) }
    ensures overflow { IfOverflow result (IsLeastWithout f.head.level
        (product (2 ^ (f.head.level - 1)) (value_in pkg.old f) (value_in pkg.old g))) }
    ensures parts { IfOk result (HasParts pkg.new) }
    ensures remembered { IfOk result (IsRemembered pkg.new (task.Matmul f g)) }
    ensures finished { AnswersFinished pkg.old pkg.new (task.Matmul f g) result }
    ensures kept { Keeps pkg.old pkg.new }
{
    pkg.make(&Products {}, Job::Matmul { f, g })
}

/// The weights of the sums of two patterns are the entries of the matrix product.
pub fn weights_are_entries()
    ensures { WeightsAreEntries }
{}
