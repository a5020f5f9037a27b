//! The flat circuit of a hierarchy, after its chains of calls are measured and before anything is
//! expanded.

ghost use Rattle.std.specs.Prelude.{◌≡◌, ℕ, ◌+◌, ◌<◌, ◌≤◌, ◌^◌, List, All, map, length, slice_index_or, IfOk, IfErr};
ghost use Rattle.cf_order.specs.Orders.{HasNoRing};
ghost use Rattle.cf_hierarchy.specs.Hierarchy.{IsBlock};
ghost use Rattle.cf_hierarchy.specs.Circuits.{UsesLower};
ghost use Rattle.cf_hierarchy.specs.Flattening.{HaveRootWires, HaveValues, IsGateIn, IsRootInput, root_of, ShowRoot};
ghost use Rattle.cf_hierarchy.specs.Links.{called, calls, signals_within, HasNoFault, HasFault};

use crate::NoMemory;
use crate::blocks::{Block, Call};
use crate::flat::Flat;
use crate::flattening::{FlatFault, flatten};
use crate::sizes::sizes_of;
use cf_order::{OrderFault, Wires, order_of};
use std::alloc::Global;

/// The most calls of a chain.
pub const DEEPEST: u64 = 64;

/// The most gates and calls of all chains together.
pub const LARGEST: u64 = 1_000_000;

/// Why there is no flat circuit.
#[derive(Drop)]
pub enum LinkFault {
    NoMemory,
    TooDeep,
    TooLarge,
    Cycle,
}

impl From<NoMemory> for LinkFault {
    ghost use Rattle.std.specs.Prelude.{◌≡◌};
    ghost use Rattle.cf_hierarchy.specs.declared.linking.LinkFault.{LinkFault};
    ghost use Rattle.cf_hierarchy.specs.declared.linking.LinkFault.TheVariants as fault;

    ghost from_gives = { λ _ e. e ≡ fault.NoMemory };

    fn from(_: NoMemory) -> LinkFault {
        LinkFault::NoMemory
    }
}

/// The flat circuit of a hierarchy in which no block calls itself. `weights` has the gates and
/// calls of each block.
pub fn link(
    alloc: Global,
    blocks: &[Block],
    weights: &[u64],
    inputs: u64,
) -> Result<Flat, LinkFault>
    requires some { 0 < length blocks.now }
    requires blocks { All (IsBlock blocks.now) blocks.now }
    requires inputs { All (IsRootInput inputs) (root_of blocks.now).drivers }
    requires weights { length weights.now ≡ length blocks.now }
    requires room { length blocks.now < 2 ^ 62 }
    requires not_recursive { HasNoRing (calls blocks.now) }
    ensures lower { IfOk result (λ flat. UsesLower inputs flat.gates) }
    ensures made { IfOk result (λ flat. All (IsGateIn blocks.now) flat.gates) }
    ensures few { IfOk result (λ flat. length flat.wires ≤ signals_within blocks.now 64) }
    ensures wires { IfOk result (λ flat.
        HaveRootWires blocks.now inputs flat.gates flat.wires) }
    ensures known { IfOk result (λ flat. HaveValues blocks.now inputs flat.wires) }
    ensures shows { IfOk result (λ flat. ShowRoot blocks.now inputs flat.gates flat.wires) }
    ensures no_fault { IfOk result (λ _. HasNoFault blocks.now weights.now) }
    ensures fault { IfErr result (HasFault blocks.now weights.now) }
{
    let rows = calls_of(alloc, blocks)?;
    let order = match order_of(alloc, rows.as_slice()) {
        Ok(order) => order,
        Err(OrderFault::NoMemory) => return Err(LinkFault::NoMemory),
        Err(OrderFault::Ring(_)) => unreachable!(),
    };
    let sizes = sizes_of(alloc, rows.as_slice(), weights, order.items(), LARGEST)?;
    let heights = sizes.heights.items();
    let counts = sizes.counts.items();
    if heights[0] > DEEPEST {
        return Err(LinkFault::TooDeep);
    }
    if counts[0] > LARGEST {
        return Err(LinkFault::TooLarge);
    }
    match flatten(alloc, blocks, inputs, DEEPEST) {
        Ok(flat) => Ok(flat),
        Err(FlatFault::NoMemory) => Err(LinkFault::NoMemory),
        Err(FlatFault::Cycle) => Err(LinkFault::Cycle),
    }
}

fn calls_of(alloc: Global, blocks: &[Block]) -> Result<Vec<Wires>, NoMemory>
    ensures { IfOk result (λ rows. rows.items ≡ calls blocks.now) }
{
    let mut rows = Vec::new(alloc);
    for block in blocks {
        rows.push(called_of(alloc, block.calls.items())?)?;
    }
    Ok(rows)
}

fn called_of(alloc: Global, all: &[Call]) -> Result<Wires, NoMemory>
    ensures { IfOk result (λ row. row ≡ called all.now) }
{
    let mut row = Wires::new(alloc);
    for call in all {
        row.push(call.block)?;
    }
    Ok(row)
}
