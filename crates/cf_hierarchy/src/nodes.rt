//! The nodes of all copies of the blocks of a hierarchy.

ghost use Rattle.std.specs.Prelude.{◌≡◌, ℕ, ◌+◌, ◌<◌, ◌≤◌, List, [], ◌∷◌, ◌++◌, Some, All, Contains, map, length, slice_index, IfOk, OnOk};
ghost use Rattle.cf_hierarchy.specs.declared.gates.Node.{Node};
ghost use Rattle.cf_hierarchy.specs.declared.gates.Node.TheVariants as node;
ghost use Rattle.cf_hierarchy.specs.declared.blocks.Driver.TheVariants as drive;
ghost use Rattle.cf_hierarchy.specs.Hierarchy.{IsBlock};
ghost use Rattle.cf_hierarchy.specs.Spreads.{block_of, instance_at, formal_node, node_of, nodes_from, Grown, IsReached};

use crate::NoMemory;
use crate::blocks::{Block, Driver};
use crate::gates::{Gate, Node};
use crate::instances::Instance;
use crate::spread::Spread;
use cf_order::Wires;
use std::alloc::{AllocError, Global};

/// The nodes of all copies, one copy after another.
pub fn nodes_of(alloc: Global, blocks: &[Block], spread: &Spread) -> Result<Vec<Node>, NoMemory>
    requires blocks { All (IsBlock blocks.now) blocks.now }
    requires grown { Grown blocks.now spread.now.copies spread.now.firsts spread.now.end }
    requires all { length spread.now.copies ≤ length spread.now.firsts }
    ensures { IfOk result (λ nodes. nodes.items
        ≡ nodes_from blocks.now spread.now.copies spread.now.firsts 0 spread.now.copies) }
{
    let mut nodes = Vec::new(alloc);
    for i in 0..spread.copies.items().len() {
        add_nodes(alloc, blocks, spread, i as u64, &mut nodes)?;
    }
    Ok(nodes)
}

/// Adds the nodes of a copy.
fn add_nodes(
    alloc: Global,
    blocks: &[Block],
    spread: &Spread,
    i: u64,
    nodes: &mut Vec<Node>,
) -> Result<(), NoMemory>
    requires blocks { All (IsBlock blocks.now) blocks.now }
    requires grown { Grown blocks.now spread.now.copies spread.now.firsts spread.now.end }
    requires all { length spread.now.copies ≤ length spread.now.firsts }
    requires there { i < length spread.now.copies }
    ensures { let drivers = (block_of blocks.now (instance_at spread.now.copies i)).drivers in
        let at = node_of blocks.now spread.now.copies (slice_index spread.now.firsts i) i in
        OnOk result (nodes.new.items ≡ nodes.old.items ++ map at drivers) }
{
    let instance = spread.copies.items()[i as usize];
    let first = spread.firsts.items()[i as usize];
    let drivers = blocks[instance.block as usize].drivers.items();
    for driver in drivers {
        let node = node_at(alloc, blocks, spread.copies.items(), first, i, driver)?;
        nodes.push(node)?;
    }
    Ok(())
}

/// The node of a driver of a copy.
fn node_at(
    alloc: Global,
    blocks: &[Block],
    copies: &[Instance],
    first: u64,
    i: u64,
    driver: &Driver,
) -> Result<Node, NoMemory>
    requires there { i < length copies.now }
    requires formal { (k : ℕ) → driver.now ≡ drive.Formal k →
        0 < i → IsReached blocks.now copies.now i k }
    requires back { (j f : ℕ) → driver.now ≡ drive.Back j f → first + j < length copies.now }
    ensures { IfOk result (λ node. node ≡ node_of blocks.now copies.now first i driver.now) }
{
    match driver {
        Driver::Formal(k) => formal_at(blocks, copies, i, *k),
        Driver::Made(gate) => Ok(Node::Output(gate_at(alloc, copies[i as usize].base, gate)?)),
        Driver::Back { call, formal } => {
            let Some(copy) = first.checked_add(*call) else {
                return Err(AllocError);
            };
            let Some(signal) = copies[copy as usize].base.checked_add(*formal) else {
                return Err(AllocError);
            };
            Ok(Node::Alias(signal))
        }
    }
}

/// The node of an input of a copy.
fn formal_at(blocks: &[Block], copies: &[Instance], i: u64, k: u64) -> Result<Node, NoMemory>
    requires there { i < length copies.now }
    requires reached { 0 < i → IsReached blocks.now copies.now i k }
    ensures { IfOk result (λ node. node ≡ formal_node blocks.now copies.now i k) }
{
    if i == 0 {
        return Ok(Node::Input(k));
    }
    let instance = copies[i as usize];
    let parent = copies[instance.parent as usize];
    let calls = blocks[parent.block as usize].calls.items();
    let actuals = calls[instance.place as usize].actuals.items();
    let Some(signal) = parent.base.checked_add(actuals[k as usize]) else {
        return Err(AllocError);
    };
    Ok(Node::Alias(signal))
}

/// The gate over the numbers of all signals.
fn gate_at(alloc: Global, base: u64, gate: &Gate) -> Result<Gate, NoMemory>
    ensures { IfOk result (λ g.
        g ≡ record { ins = map (λ t. base + t) gate.now.ins; cover = gate.now.cover }) }
{
    let mut ins = Wires::new(alloc);
    for signal in gate.ins.items() {
        let Some(number) = base.checked_add(*signal) else {
            return Err(AllocError);
        };
        ins.push(number)?;
    }
    Ok(Gate {
        ins,
        cover: gate.cover,
    })
}
