//! The flat circuit of a hierarchy whose chains of calls are short, or a ring of its signals.

ghost use Rattle.std.specs.Prelude.{◌≡◌, ℕ, ◌+◌, ◌<◌, ◌≤◌, ◌^◌, List, [], Some, All, map, length, slice_index_or, IfOk, IfErr, IsErrOf};
ghost use Rattle.std.specs.List.{slice_get};
ghost use Rattle.cf_hierarchy.specs.Circuits.{UsesLower, needs};
ghost use Rattle.cf_hierarchy.specs.Hierarchy.{IsBlock};
ghost use Rattle.cf_hierarchy.specs.Spreads.{IsAtMostDeep};
ghost use Rattle.cf_hierarchy.specs.declared.flattening.FlatFault.{FlatFault};
ghost use Rattle.cf_hierarchy.specs.Flattening.{HaveRootWires, HaveValues, IsGateIn, IsRootInput, root_of, ShowRoot, IsCycle, HasCycle};
ghost use Rattle.cf_hierarchy.specs.Links.{signals_within};

use crate::NoMemory;
use crate::blocks::Block;
use crate::flat::{Flat, flat_of};
use crate::gates::Node;
use crate::nodes::nodes_of;
use crate::spread::copies_of;
use cf_order::{OrderFault, Wires, order_of};
use std::alloc::Global;

/// Why there is no flat circuit.
#[derive(Drop)]
pub enum FlatFault {
    NoMemory,
    Cycle,
}

impl From<NoMemory> for FlatFault {
    ghost use Rattle.std.specs.Prelude.{◌≡◌};
    ghost use Rattle.cf_hierarchy.specs.declared.flattening.FlatFault.{FlatFault};
    ghost use Rattle.cf_hierarchy.specs.declared.flattening.FlatFault.TheVariants as fault;

    ghost from_gives = { λ _ e. e ≡ fault.NoMemory };

    fn from(_: NoMemory) -> FlatFault {
        FlatFault::NoMemory
    }
}

/// The flat circuit of a hierarchy whose paths have at most so many calls.
pub fn flatten(alloc: Global, blocks: &[Block], inputs: u64, levels: u64) -> Result<Flat, FlatFault>
    requires some { 0 < length blocks.now }
    requires blocks { All (IsBlock blocks.now) blocks.now }
    requires inputs { All (IsRootInput inputs) (root_of blocks.now).drivers }
    requires levels { levels < 100 }
    requires deep { IsAtMostDeep blocks.now levels }
    ensures lower { IfOk result (λ flat. UsesLower inputs flat.gates) }
    ensures made { IfOk result (λ flat. All (IsGateIn blocks.now) flat.gates) }
    ensures few { IfOk result (λ flat. length flat.wires ≤ signals_within blocks.now levels) }
    ensures wires { IfOk result (λ flat.
        HaveRootWires blocks.now inputs flat.gates flat.wires) }
    ensures known { IfOk result (λ flat. HaveValues blocks.now inputs flat.wires) }
    ensures shows { IfOk result (λ flat. ShowRoot blocks.now inputs flat.gates flat.wires) }
    ensures no_cycle { IfOk result (λ _. HasCycle blocks.now → ⊥) }
    ensures cycle { IfErr result (IsCycle blocks.now) }
{
    let spread = copies_of(alloc, blocks, levels)?;
    let nodes = nodes_of(alloc, blocks, &spread)?;
    let rows = rows_of(alloc, nodes.as_slice())?;
    let order = match order_of(alloc, rows.as_slice()) {
        Ok(order) => order,
        Err(OrderFault::NoMemory) => return Err(FlatFault::NoMemory),
        Err(OrderFault::Ring(_)) => return Err(FlatFault::Cycle),
    };
    if inputs.checked_add(nodes.len() as u64).is_none() {
        return Err(FlatFault::NoMemory);
    }
    Ok(flat_of(alloc, nodes.as_slice(), inputs, order.items())?)
}

fn rows_of(alloc: Global, nodes: &[Node]) -> Result<Vec<Wires>, NoMemory>
    ensures { IfOk result (λ rows. rows.items ≡ map needs nodes.now) }
{
    let mut rows = Vec::new(alloc);
    for node in nodes {
        rows.push(needs_of(alloc, node)?)?;
    }
    Ok(rows)
}

fn needs_of(alloc: Global, node: &Node) -> Result<Wires, NoMemory>
    ensures { IfOk result (λ row. row ≡ needs node.now) }
{
    match node {
        Node::Input(_) => Ok(Wires::new(alloc)),
        Node::Output(gate) => Wires::copy(alloc, gate.ins.items()),
        Node::Alias(signal) => {
            let mut row = Wires::new(alloc);
            row.push(*signal)?;
            Ok(row)
        }
    }
}
