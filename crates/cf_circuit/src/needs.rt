//! Which wires the outputs of a circuit need.

ghost use Rattle.std.specs.Prelude.{◌≡◌, ◌<◌, All, length, IfOk};
ghost use Rattle.cf_flat.specs.Flats.{IsFlat};
ghost use Rattle.cf_circuit.specs.Needs.{marked, gate_at, AreNeeded};

use crate::NoMemory;
use cf_flat::flat::{Flat, FlatGate};
use std::alloc::Global;

/// Marks wires.
fn mark(needed: &mut [bool], wires: &[u64])
    requires there { All (λ w. w < length needed.old) wires.now }
    ensures { needed.new ≡ marked needed.old wires.now }
{
    for wire in wires {
        needed[*wire as usize] = true;
    }
}

/// The wires that a gate reads.
fn read_by(gates: &[FlatGate], place: usize) -> &[u64]
    requires { place < length gates.now }
    ensures { result.now ≡ (gate_at gates.now place).ins }
{
    gates[place].ins.items()
}

/// For each wire whether it is needed: an output's wire is, and what a needed gate reads. The gates
/// are gone through from the last to the first, since each reads lower wires only.
pub(crate) fn needed_wires(alloc: Global, flat: &Flat) -> Result<Vec<bool>, NoMemory>
    requires flat { IsFlat flat.now }
    ensures needed { IfOk result (λ needed. AreNeeded flat.now needed.items) }
{
    let inputs = flat.inputs.items().len();
    let gates = flat.gates.items();
    let mut needed = vec![in alloc; false; inputs + gates.len()]?;
    for out in flat.outputs.items() {
        needed[out.wire as usize] = true;
    }
    for place in (0..gates.len()).rev() {
        if needed[inputs + place] {
            mark(needed.as_mut_slice(), read_by(gates, place));
        }
    }
    Ok(needed)
}
