//! Whether two bytes hold the same bits: written in two ways, which are compared, and once with a
//! mistake. It shows how a program of one's own uses the package of functions.
#![tactic(auto)]

mod agreement;

ghost use Rattle.std.specs.Prelude.{◌≡◌, ◌<◌, IfOk, true};

use agreement::{agrees, agrees_by_differences};
use cf_bits::Bits;
use cf_kron::{entry, walsh};
use cf_pkg::{OpFault, Pkg};
use cf_table::steps::Steps;
use cf_witness::separate;
use std::alloc::Global;
use std::io;
use std::marker::Brand;
use std::process::ExitCode;
use std::sync::ledger::{Blank, Ledger};

/// The level of functions of 16 variables.
const LEVEL: u8 = 4;

/// The bits of the first eight variables, each with its counterpart of the last eight.
const PAIRS: [(u8, u8); 8] = [
    (0, 8),
    (1, 9),
    (2, 10),
    (3, 11),
    (4, 12),
    (5, 13),
    (6, 14),
    (7, 15),
];

/// The same with one pair left out.
const ALL_BUT_ONE: [(u8, u8); 7] = [(0, 8), (1, 9), (2, 10), (4, 12), (5, 13), (6, 14), (7, 15)];

/// The exit status where there is no memory.
const NO_MEMORY: u8 = 5;

/// What the program writes.
#[derive(Clone, Copy)]
struct Findings {
    /// Whether the two ways are one function.
    equal: bool,
    /// The first assignment that tells the mistaken way apart, with both values.
    difference: Option<(Bits, i128, i128)>,
    /// An entry of a Walsh matrix.
    sign: i128,
}

/// Writes the function in its ways, and compares them. Both ways over all pairs are equal.
fn compare<L: Ledger>(
    alloc: Global,
    pkg: &mut Pkg,
    steps: &mut Steps<L>,
) -> Result<Findings, OpFault>
    ensures { IfOk result (λ f. f.equal ≡ true) }
{
    let whole = agrees(pkg, LEVEL, &PAIRS, steps)?;
    let again = agrees_by_differences(pkg, LEVEL, &PAIRS, steps)?;
    let short = agrees(pkg, LEVEL, &ALL_BUT_ONE, steps)?;
    let equal = pkg.same(whole, again);
    let difference = separate(alloc, pkg, whole, short)?;
    let matrix = walsh(alloc, pkg, 2)?;
    let sign = entry(pkg, matrix, 1, 3);
    Ok(Findings {
        equal,
        difference,
        sign,
    })
}

/// The same, with a counter of its own.
fn compare_uncounted<L: Ledger>(
    alloc: Global,
    pkg: &mut Pkg,
    blank: Blank,
) -> Result<Findings, OpFault>
    requires name { blank.name ≡ L.name }
    requires parts { blank.parts ≡ L.parts }
    requires some { 0 < blank.parts }
    ensures { IfOk result (λ f. f.equal ≡ true) }
{
    let mut steps = Steps::<L>::open(blank);
    compare(alloc, pkg, &mut steps)
}

/// What is found in a package of its own.
fn found(alloc: Global) -> Result<Findings, OpFault>
    ensures { IfOk result (λ f. f.equal ≡ true) }
{
    let Ok(mut pkg) = Pkg::new(alloc) else {
        return Err(OpFault::NoMemory);
    };
    compare_uncounted::<Brand>(alloc, &mut pkg, Blank::new(1))
}

/// Writes what was found, a line each.
fn write(rt: &impl Print, findings: Findings) -> io::Result<()> {
    println!(rt; "both ways agree everywhere: {}", findings.equal)?;
    if let Some((at, whole, short)) = findings.difference {
        println!(rt;
            "without one pair: {:016b} has {short} for {whole}",
            at.number()
        )?;
    }
    println!(rt; "row 1, column 3 of the Walsh matrix: {}", findings.sign)
}

fn main(rt: HostRuntime) -> ExitCode {
    let Ok(findings) = found(rt.alloc()) else {
        return ExitCode::from(NO_MEMORY);
    };
    match write(&rt, findings) {
        Ok(()) => ExitCode::SUCCESS,
        Err(_) => ExitCode::FAILURE,
    }
}
