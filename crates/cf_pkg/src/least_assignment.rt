//! The least assignment of an exit.

ghost use Rattle.std.specs.Prelude.{◌≡◌, ◌<◌, ◌≤◌, ◌+◌, ◌-◌, ◌*◌, ◌^◌, Some, slice_get};
ghost use Rattle.cf_model.specs.Assignments.{bits, number_of};
ghost use Rattle.cf_model.specs.FlatFunctions.{points, IsLeast};
ghost use Rattle.cf_table.specs.Groupings.{Owns, pattern_of, exits_of};
ghost use Rattle.cf_pkg.specs.Firsts.{IsFirstAt};

use cf_bits::Bits;
use cf_table::steps::Steps;
use cf_table::{Gid, Table};
use std::sync::ledger::{Blank, Ledger};

/// How many assignments a level has.
fn assignments(level: u8) -> u128
    requires { level ≤ 6 }
    ensures is { result ≡ points level }
    ensures most { result ≤ 2 ^ 64 }
{
    match level {
        0 => 2,
        1 => 4,
        2 => 16,
        3 => 256,
        4 => 65_536,
        5 => 4_294_967_296,
        _ => 18_446_744_073_709_551_616,
    }
}

/// The number of the least assignment that leads to an exit.
fn least_number<L: Ledger>(table: &Table, g: Gid, e: u64, steps: &mut Steps<L>) -> u128
    requires owned { Owns table.now g }
    requires level { g.level ≤ 7 }
    requires exit { e < exits_of table.now g }
    ensures first { IsFirstAt (pattern_of table.now g) e result }
    ensures within { result < points g.level }
    ensures cost { steps.new ≤ steps.old + 3 * (2 ^ g.level - 1) }
{
    table.law();
    if g.level == 0 {
        // DONT_CARE has exit 0 first at 0, and FORK has each bit at itself.
        return e as u128;
    }
    let half = assignments(g.level - 1);
    let (middle, inner) = table.first_of(g, e, steps);
    let a = table.a_of(g, steps);
    let first = least_number(table, a, middle, steps);
    let b = table.b_of(g, middle, steps);
    let second = least_number(table, b.to, inner, steps);
    half * first + second
}

/// How many variables a level has.
pub fn variables(level: u8) -> u8
    requires { level ≤ 7 }
    ensures { result ≡ 2 ^ level }
{
    1u8 << level
}

/// The least assignment at which a grouping has an exit. It takes no memory, and each view of a
/// grouping is a step.
pub fn least<L: Ledger>(table: &Table, g: Gid, e: u64, steps: &mut Steps<L>) -> Bits
    requires owned { Owns table.now g }
    requires exit { e < exits_of table.now g }
    ensures least { IsLeast g.level (λ at. slice_get (pattern_of table.now g) (number_of at) ≡ Some e) (bits result) }
    ensures cost { steps.new ≤ steps.old + 3 * (2 ^ g.level - 1) }
{
    let level = level_within(table, g);
    let number = least_number(table, g, e, steps);
    Bits::new(variables(level), number)
}

/// The same, with a counter of its own.
pub(crate) fn least_uncounted<L: Ledger>(table: &Table, g: Gid, e: u64, blank: Blank) -> Bits
    requires owned { Owns table.now g }
    requires exit { e < exits_of table.now g }
    requires name { blank.name ≡ L.name }
    requires parts { blank.parts ≡ L.parts }
    requires some { 0 < blank.parts }
    ensures { IsLeast g.level (λ at. slice_get (pattern_of table.now g) (number_of at) ≡ Some e) (bits result) }
{
    let mut steps = Steps::<L>::open(blank);
    least(table, g, e, &mut steps)
}

/// The level of a grouping of a table, which is 0 to 7.
pub fn level_within(table: &Table, g: Gid) -> u8
    requires { Owns table.now g }
    ensures level { result ≡ g.level }
    ensures within { result ≤ 7 }
{
    table.law();
    g.level
}
