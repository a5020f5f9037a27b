//! Whether bits are the same, pair by pair, as functions of a package.

ghost use Rattle.std.specs.Prelude.{◌≤◌, not, IfOk, IsTrue, Some};
ghost use Rattle.cf_model.specs.Terms.{truth};
ghost use Rattle.cf_pkg.specs.Packages.{Keeps};
ghost use Rattle.cf_pkg.specs.Jobs.{HasValues};
ghost use Rattle.cf_example.specs.Agreement.{is_pair, are_pairs, is_same, all_same, some_differ};

use cf_ops::{Word1, Word2};
use cf_pkg::{Func, OpFault, Pkg};
use cf_table::steps::Steps;
use std::sync::ledger::Ledger;

/// 1 where the bits at a pair of positions are the same, else 0.
fn same<L: Ledger>(
    pkg: &mut Pkg,
    level: u8,
    pair: (u8, u8),
    steps: &mut Steps<L>,
) -> Result<Func, OpFault>
    requires level { level ≤ 7 }
    requires pair { IsTrue (is_pair level pair) }
    ensures values { IfOk result (λ r. HasValues pkg.new r level
        (λ bits. Some (truth (is_same bits pair)))) }
    ensures kept { Keeps pkg.old pkg.new }
{
    let first = pkg.variable(level, pair.0)?;
    let second = pkg.variable(level, pair.1)?;
    pkg.apply_word(Word2::Eq, first, second, steps)
}

/// 1 where they differ, else 0.
fn different<L: Ledger>(
    pkg: &mut Pkg,
    level: u8,
    pair: (u8, u8),
    steps: &mut Steps<L>,
) -> Result<Func, OpFault>
    requires level { level ≤ 7 }
    requires pair { IsTrue (is_pair level pair) }
    ensures values { IfOk result (λ r. HasValues pkg.new r level
        (λ bits. Some (truth (not (is_same bits pair))))) }
    ensures kept { Keeps pkg.old pkg.new }
{
    let first = pkg.variable(level, pair.0)?;
    let second = pkg.variable(level, pair.1)?;
    pkg.apply_word(Word2::Xor, first, second, steps)
}

/// 1 where the bits at each of these pairs of positions are the same, else 0.
pub fn agrees<L: Ledger>(
    pkg: &mut Pkg,
    level: u8,
    pairs: &[(u8, u8)],
    steps: &mut Steps<L>,
) -> Result<Func, OpFault>
    requires level { level ≤ 7 }
    requires pairs { IsTrue (are_pairs level pairs.now) }
    ensures values { IfOk result (λ r. HasValues pkg.new r level
        (λ bits. Some (all_same pairs.now bits))) }
    ensures kept { Keeps pkg.old pkg.new }
{
    let mut all = pkg.constant(level, 1)?;
    for k in 0..pairs.len() {
        let both = same(pkg, level, pairs[k], steps)?;
        all = pkg.apply_word(Word2::And, all, both, steps)?;
    }
    Ok(all)
}

/// 1 where the bits at one of these pairs differ, else 0.
fn differs<L: Ledger>(
    pkg: &mut Pkg,
    level: u8,
    pairs: &[(u8, u8)],
    steps: &mut Steps<L>,
) -> Result<Func, OpFault>
    requires level { level ≤ 7 }
    requires pairs { IsTrue (are_pairs level pairs.now) }
    ensures values { IfOk result (λ r. HasValues pkg.new r level
        (λ bits. Some (some_differ pairs.now bits))) }
    ensures kept { Keeps pkg.old pkg.new }
{
    let mut any = pkg.constant(level, 0)?;
    for i in 0..pairs.len() {
        let both = different(pkg, level, pairs[i], steps)?;
        any = pkg.apply_word(Word2::Or, any, both, steps)?;
    }
    Ok(any)
}

/// The same function as `agrees`, written in another way.
pub fn agrees_by_differences<L: Ledger>(
    pkg: &mut Pkg,
    level: u8,
    pairs: &[(u8, u8)],
    steps: &mut Steps<L>,
) -> Result<Func, OpFault>
    requires level { level ≤ 7 }
    requires pairs { IsTrue (are_pairs level pairs.now) }
    ensures values { IfOk result (λ r. HasValues pkg.new r level
        (λ bits. Some (all_same pairs.now bits))) }
    ensures kept { Keeps pkg.old pkg.new }
{
    let any = differs(pkg, level, pairs, steps)?;
    pkg.map_word(Word1::Not, any)
}
