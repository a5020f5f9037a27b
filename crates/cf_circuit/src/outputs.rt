//! The functions of a circuit's outputs.

ghost use Rattle.std.specs.Prelude.{◌≡◌, ◌<◌, ◌≤◌, ◌^◌, ◌+◌, All, length, IfOk};
ghost use Rattle.cf_flat.specs.Flats.{IsFlat, cover_at};
ghost use Rattle.cf_pkg.specs.Packages.{Keeps};
ghost use Rattle.cf_circuit.specs.Functions.{AreFunctionsOf, wire_test, AreTold};
ghost use Rattle.cf_circuit.specs.Needs.{AreNeeded};

use crate::NoMemory;
use crate::covers::of_cover;
use crate::needs::needed_wires;
use crate::truths::{Truth, function_of};
use cf_circuits::gates::Cover;
use cf_flat::flat::{Flat, FlatGate};
use cf_pkg::{Func, Pkg};
use std::alloc::Global;

/// One function for each output of a circuit, input n being the bit at the n-th position: 1 where
/// the output's wire has the value true on these bits, else 0. Only wires that some output needs
/// are built. Each function of the package means what it meant, whatever the answer is.
pub fn build(
    alloc: Global,
    pkg: &mut Pkg,
    flat: &Flat,
    level: u8,
    positions: &[u8],
) -> Result<Vec<Func>, NoMemory>
    requires flat { IsFlat flat.now }
    requires level { level ≤ 7 }
    requires one_each { length positions.now ≡ length flat.now.inputs }
    requires within { All (λ i. i < 2 ^ level) positions.now }
    ensures one_each { IfOk result (λ fs. length fs.items ≡ length flat.now.outputs) }
    ensures functions { IfOk result (λ fs.
        AreFunctionsOf pkg.new level flat.now positions.now fs.items) }
    ensures kept { Keeps pkg.old pkg.new }
{
    let needed = needed_wires(alloc, flat)?;
    let truths = wires_of(alloc, pkg, flat, level, positions, needed.as_slice())?;
    let outputs = flat.outputs.items();
    let mut functions = Vec::with_capacity(alloc, outputs.len())?;
    for out in outputs {
        let f = function_of(pkg, level, truths[out.wire as usize])?;
        functions.push(f)?;
    }
    Ok(functions)
}

/// Where each needed wire is 1. One that isn't needed stands as one that never is.
fn wires_of(
    alloc: Global,
    pkg: &mut Pkg,
    flat: &Flat,
    level: u8,
    positions: &[u8],
    needed: &[bool],
) -> Result<Vec<Truth>, NoMemory>
    requires flat { IsFlat flat.now }
    requires needed { AreNeeded flat.now needed.now }
    requires level { level ≤ 7 }
    requires one_each { length positions.now ≡ length flat.now.inputs }
    requires within { All (λ i. i < 2 ^ level) positions.now }
    ensures full { IfOk result (λ ts.
        length ts.items ≡ length flat.now.inputs + length flat.now.gates) }
    ensures told { IfOk result (λ ts.
        AreTold pkg.new level (wire_test flat.now positions.now) needed.now ts.items) }
    ensures kept { Keeps pkg.old pkg.new }
{
    let mut truths = Vec::with_capacity(alloc, needed.len())?;
    for position in positions {
        if !needed[truths.len()] {
            truths.push(Truth::Never)?;
            continue;
        }
        let f = pkg.variable(level, *position)?;
        truths.push(Truth::Where(f))?;
    }
    for gate in flat.gates.items() {
        if !needed[truths.len()] {
            truths.push(Truth::Never)?;
            continue;
        }
        let cover = cover_of(flat, gate);
        let truth = of_cover(alloc, pkg, cover, truths.as_slice(), gate.ins.items())?;
        truths.push(truth)?;
    }
    Ok(truths)
}

/// The cover of a gate.
fn cover_of<'a>(flat: &'a Flat, gate: &FlatGate) -> &'a Cover
    requires there { gate.now.cover < length flat.now.covers }
    ensures { result.now ≡ cover_at flat.now.covers gate.now.cover }
{
    &flat.covers.items()[gate.cover as usize]
}
