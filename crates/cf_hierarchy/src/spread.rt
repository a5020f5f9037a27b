//! The copies of the blocks of a hierarchy, level by level.

ghost use Rattle.std.specs.Prelude.{◌≡◌, ℕ, ◌+◌, ◌<◌, ◌≤◌, List, [], ◌∷◌, ◌++◌, Some, All, length, slice_index, IfOk, OnOk};
ghost use Rattle.cf_order.specs.Orders.{row};
ghost use Rattle.cf_hierarchy.specs.Hierarchy.{block_at, IsBlock};
ghost use Rattle.cf_hierarchy.specs.Spreads.{made, made_end, block_of, instance_at, IsSpread, Grown, IsAtMostDeep};

use crate::NoMemory;
use crate::blocks::{Block, Call};
use crate::instances::{Instance, Instances};
use cf_order::Wires;
use std::alloc::{AllocError, Global};

/// Copies, the first copy that each of them calls, and the number behind the last signal.
#[derive(Drop)]
pub struct Spread {
    pub copies: Instances,
    pub firsts: Wires,
    pub end: u64,
}

/// All copies of a hierarchy whose paths have at most so many calls.
pub fn copies_of(alloc: Global, blocks: &[Block], levels: u64) -> Result<Spread, NoMemory>
    requires some { 0 < length blocks.now }
    requires blocks { All (IsBlock blocks.now) blocks.now }
    requires levels { levels < 100 }
    requires deep { IsAtMostDeep blocks.now levels }
    ensures grown { IfOk result (λ s. Grown blocks.now s.copies s.firsts s.end) }
    ensures all { IfOk result (λ s. length s.copies ≤ length s.firsts) }
{
    let mut spread = Spread {
        copies: Instances::new(alloc),
        firsts: Wires::new(alloc),
        end: blocks[0].drivers.items().len() as u64,
    };
    spread.copies.push(Instance {
        block: 0,
        parent: 0,
        place: 0,
        base: 0,
    })?;
    for level in 0..levels + 1 {
        let from = spread.firsts.items().len();
        let upto = spread.copies.items().len();
        for i in from..upto {
            spread_one(blocks, &mut spread, i as u64)?;
        }
    }
    Ok(spread)
}

/// Makes the copies that the next copy calls.
fn spread_one(blocks: &[Block], spread: &mut Spread, i: u64) -> Result<(), NoMemory>
    requires blocks { All (IsBlock blocks.now) blocks.now }
    requires grown { Grown blocks.now spread.old.copies spread.old.firsts spread.old.end }
    requires next { i ≡ length spread.old.firsts }
    requires there { i < length spread.old.copies }
    ensures firsts { OnOk result
        (spread.new.firsts ≡ spread.old.firsts ++ length spread.old.copies ∷ []) }
    ensures copies { let calls = (block_of blocks.now (instance_at spread.old.copies i)).calls in
        OnOk result
        (spread.new.copies ≡ spread.old.copies ++ made blocks.now i 0 spread.old.end calls) }
    ensures end { let calls = (block_of blocks.now (instance_at spread.old.copies i)).calls in
        OnOk result (spread.new.end ≡ made_end blocks.now spread.old.end calls) }
{
    let first = spread.copies.len();
    spread.firsts.push(first)?;
    let instance = spread.copies.items()[i as usize];
    let calls = blocks[instance.block as usize].calls.items();
    spread.end = add_calls(blocks, calls, i, spread.end, &mut spread.copies)?;
    Ok(())
}

/// Makes the copies of calls, and answers the number behind their last signal.
fn add_calls(
    blocks: &[Block],
    calls: &[Call],
    parent: u64,
    base: u64,
    copies: &mut Instances,
) -> Result<u64, NoMemory>
    requires { All (λ c. c.block < length blocks.now) calls.now }
    ensures copies { OnOk result
        (copies.new ≡ copies.old ++ made blocks.now parent 0 base calls.now) }
    ensures end { IfOk result (λ end. end ≡ made_end blocks.now base calls.now) }
{
    let mut next = base;
    for (place, call) in calls.iter().enumerate() {
        copies.push(Instance {
            block: call.block,
            parent,
            place: place as u64,
            base: next,
        })?;
        let size = blocks[call.block as usize].drivers.items().len() as u64;
        let Some(after) = next.checked_add(size) else {
            return Err(AllocError);
        };
        next = after;
    }
    Ok(next)
}
