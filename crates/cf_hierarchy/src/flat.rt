//! The circuit in which each gate uses lower wires only, made of nodes that stand in an order.

ghost use Rattle.std.specs.Prelude.{◌≡◌, ℕ, ◌+◌, ◌<◌, ◌≤◌, ◌^◌, List, [], ◌∷◌, ◌++◌, Bool, All, Contains, map, length, slice_index, IfOk};
ghost use Rattle.cf_order.specs.Orders.{IsOrder};
ghost use Rattle.cf_hierarchy.specs.Circuits.{needs, IsNode, UsesLower, HaveWires, IsGateOf, ShowAll, AddsNode};

use crate::NoMemory;
use crate::gates::{Gate, Gates, Node};
use cf_order::Wires;
use std::alloc::Global;

/// A circuit in which each gate uses lower wires only, and the wire of each signal that it was made
/// of.
#[derive(Drop)]
pub struct Flat {
    pub inputs: u64,
    pub gates: Gates,
    pub wires: Wires,
}

/// The circuit of nodes that stand in an order.
pub fn flat_of(alloc: Global, nodes: &[Node], inputs: u64, order: &[u64]) -> Result<Flat, NoMemory>
    requires order { IsOrder (map needs nodes.now) order.now }
    requires nodes { All (IsNode inputs) nodes.now }
    requires room { inputs + length nodes.now < 2 ^ 64 }
    ensures inputs { IfOk result (λ flat. flat.inputs ≡ inputs) }
    ensures signals { IfOk result (λ flat. length flat.wires ≡ length nodes.now) }
    ensures lower { IfOk result (λ flat. UsesLower inputs flat.gates) }
    ensures made { IfOk result (λ flat. All (IsGateOf nodes.now) flat.gates) }
    ensures wires { IfOk result (λ flat. HaveWires nodes.now inputs flat.gates flat.wires) }
    ensures shows { IfOk result (λ flat. ShowAll nodes.now inputs flat.gates flat.wires) }
{
    let mut gates = Gates::new(alloc);
    let mut wires = vec![in alloc; 0u64; nodes.len()]?;
    for signal in order {
        let node = &nodes[*signal as usize];
        let wire = wire_of(alloc, node, inputs, &mut gates, wires.as_slice())?;
        wires[*signal as usize] = wire;
    }
    Ok(Flat {
        inputs,
        gates,
        wires: Wires::of(wires),
    })
}

/// The wire of a node, whose needs have theirs.
fn wire_of(
    alloc: Global,
    node: &Node,
    inputs: u64,
    gates: &mut Gates,
    wires: &[u64],
) -> Result<u64, NoMemory>
    requires needs { All (λ t. t < length wires.now) (needs node.now) }
    requires room { inputs + length gates.old < 2 ^ 64 }
    ensures { IfOk result (λ w. AddsNode inputs wires.now gates.old gates.new w node.now) }
{
    match node {
        Node::Input(i) => Ok(*i),
        Node::Alias(t) => Ok(wires[*t as usize]),
        Node::Output(gate) => {
            let ins = wires_at(alloc, gate.ins.items(), wires)?;
            let wire = inputs + gates.len();
            gates.push(Gate {
                ins,
                cover: gate.cover,
            })?;
            Ok(wire)
        }
    }
}

fn wires_at(alloc: Global, signals: &[u64], wires: &[u64]) -> Result<Wires, NoMemory>
    requires { All (λ t. t < length wires.now) signals.now }
    ensures { IfOk result (λ all. all ≡ map (slice_index wires.now) signals.now) }
{
    let mut all = Wires::new(alloc);
    for signal in signals {
        all.push(wires[*signal as usize])?;
    }
    Ok(all)
}
