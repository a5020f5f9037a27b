//! The walk along an assignment.

ghost use Rattle.std.specs.Prelude.{◌≡◌, ◌<◌, ◌≤◌, ◌+◌, ◌-◌, ◌*◌, ◌^◌, slice_index_or};
ghost use Rattle.cf_table.specs.Groupings.{Owns, pattern_of};

use cf_bits::Bits;
use cf_table::steps::Steps;
use cf_table::{DONT_CARE, Gid, Table};
use std::sync::ledger::Ledger;

/// The exit to which an assignment leads.
pub(crate) fn exit_of<L: Ledger>(table: &Table, g: Gid, at: Bits, steps: &mut Steps<L>) -> u64
    requires owned { Owns table.now g }
    requires len { at.len ≡ 2 ^ g.level }
    ensures exit { result ≡ slice_index_or (pattern_of table.now g) at.number 0 }
    ensures number { at.number < 2 ^ at.len }
    ensures cost { steps.new ≤ steps.old + 2 * (2 ^ g.level - 1) }
{
    table.law();
    let number = at.number();
    if g.level == 0 {
        return if g == DONT_CARE { 0 } else { number as u64 };
    }
    let (first, second) = at.halves();
    let a = table.a_of(g, steps);
    let middle = exit_of(table, a, first, steps);
    let b = table.b_of(g, middle, steps);
    let exit = exit_of(table, b.to, second, steps);
    table.tuple(b.ret)[exit as usize]
}
