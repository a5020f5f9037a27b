//! Least assignments, the first difference of two functions, and the assignments of a value in order.
#![tactic(auto)]

mod listing;
mod next;
mod separating;

ghost use Rattle.std.specs.Prelude.{◌≡◌, ℕ, ◌<◌, ◌≤◌, ◌+◌, ◌-◌, ◌*◌, ◌^◌, Some, slice_get, MatchOption, IfSome, IfNone, Bool, List};
ghost use Rattle.cf_model.specs.Assignments.{bits, number_of};
ghost use Rattle.cf_model.specs.FlatFunctions.{IsLeast, IsAssignment, value_at};
ghost use Rattle.cf_table.specs.Groupings.{Owns, exits_of, pattern_of};
ghost use Rattle.cf_pkg.specs.Packages.{OwnsFunction, meaning};

use cf_bits::Bits;
use cf_pkg::{Func, Pkg, least};
use cf_table::steps::Steps;
use cf_table::{Gid, Table};
pub use listing::Listing;
pub use separating::separate;
use std::marker::Brand;
use std::sync::ledger::{Blank, Ledger};

/// The least assignment at which a grouping has exit e. It takes no memory, and each view of a
/// grouping is a step.
pub fn first_exit<L: Ledger>(table: &Table, g: Gid, e: u64, steps: &mut Steps<L>) -> Bits
    requires owned { Owns table.now g }
    requires exit { e < exits_of table.now g }
    ensures least { IsLeast g.level (λ at. slice_get (pattern_of table.now g) (number_of at) ≡ Some e) (bits result) }
    ensures cost { steps.new ≤ steps.old + 3 * (2 ^ g.level - 1) }
{
    least(table, g, e, steps)
}

/// The same for a caller that counts nothing.
fn first_exit_uncounted<L: Ledger>(table: &Table, g: Gid, e: u64, blank: Blank) -> Bits
    requires owned { Owns table.now g }
    requires exit { e < exits_of table.now g }
    requires name { blank.name ≡ L.name }
    requires parts { blank.parts ≡ L.parts }
    requires some { 0 < blank.parts }
    ensures { IsLeast g.level (λ at. slice_get (pattern_of table.now g) (number_of at) ≡ Some e) (bits result) }
{
    let mut steps = Steps::<L>::open(blank);
    first_exit(table, g, e, &mut steps)
}

/// The first place of a value.
fn place_of(values: &[i128], v: i128) -> Option<usize>
    ensures { MatchOption result
        ((i : ℕ) → slice_get values.now i ≡ Some v → ⊥)
        (λ i. slice_get values.now i ≡ Some v) }
{
    values.iter().position(|value| *value == v)
}

/// The least assignment at which a function has the value v, and None where it has it nowhere. It
/// takes no memory.
pub fn first_value(pkg: &Pkg, f: Func, v: i128) -> Option<Bits>
    requires owned { OwnsFunction pkg.now f }
    ensures least { IfSome result (λ b. IsLeast f.head.level (λ at. value_at (meaning pkg.now f) at ≡ Some v) (bits b)) }
    ensures none { IfNone result
        ((at : List Bool) → IsAssignment f.head.level at → value_at (meaning pkg.now f) at ≡ Some v → ⊥) }
{
    pkg.law(f);
    let Some(e) = place_of(pkg.values().get(f.vals), v) else {
        return None;
    };
    let at = first_exit_uncounted::<Brand>(pkg.table(), f.head, e as u64, Blank::new(1));
    Some(at)
}
