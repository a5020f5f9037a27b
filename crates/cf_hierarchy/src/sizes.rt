//! How many calls the longest chain of calls from each model has, and what all chains from it
//! weigh, up to a limit.

ghost use Rattle.std.specs.Prelude.{◌≡◌, ℕ, ◌+◌, ◌<◌, ◌≤◌, ◌^◌, List, min, All, map, length, slice_index, IfOk};
ghost use Rattle.std.specs.List.{sum_by};
ghost use Rattle.cf_order.specs.Orders.{IsOrder, row};
ghost use Rattle.cf_order.specs.Chains.{tallest, AreHeights, AreCounts, ListsChains};

use crate::NoMemory;
use cf_order::Wires;
use std::alloc::Global;

/// Of each model: the calls of the longest chain, and the weight of all chains, or the limit and
/// one where it is more.
#[derive(Drop)]
pub struct Sizes {
    pub heights: Wires,
    pub counts: Wires,
}

/// The sizes of models. `calls` has the models that each calls, and `order` has them after those
/// that they call.
pub fn sizes_of(
    alloc: Global,
    calls: &[Wires],
    weights: &[u64],
    order: &[u64],
    limit: u64,
) -> Result<Sizes, NoMemory>
    requires order { IsOrder calls.now order.now }
    requires weights { length weights.now ≡ length calls.now }
    requires limit { limit < 2 ^ 62 }
    requires models { length calls.now < 2 ^ 62 }
    ensures lengths { IfOk result (λ t.
        (length t.heights ≡ length calls.now) × (length t.counts ≡ length calls.now)) }
    ensures heights { IfOk result (λ t. AreHeights calls.now t.heights) }
    ensures counts { IfOk result (λ t. AreCounts calls.now weights.now limit t.heights t.counts) }
    ensures chains { IfOk result (λ _. (m k : ℕ) → ListsChains calls.now k m) }
{
    let mut heights = vec![in alloc; 0u64; calls.len()]?;
    let mut counts = vec![in alloc; 0u64; calls.len()]?;
    for model in order {
        let called = calls[*model as usize].items();
        let height = height_of(called, heights.as_slice());
        let count = count_of(called, counts.as_slice(), weights[*model as usize], limit);
        heights[*model as usize] = height;
        counts[*model as usize] = count;
    }
    Ok(Sizes {
        heights: Wires::of(heights),
        counts: Wires::of(counts),
    })
}

/// One more than the greatest height of those that are called, or 0.
fn height_of(called: &[u64], heights: &[u64]) -> u64
    requires within { All (λ c. c < length heights.now) called.now }
    requires bound { All (λ c. slice_index heights.now c < 2 ^ 62) called.now }
    ensures { result ≡ tallest heights.now called.now }
{
    let mut best = 0;
    for model in called {
        best = best.max(heights[*model as usize] + 1);
    }
    best
}

/// The weight of a model and of those that it calls, or the limit and one.
fn count_of(called: &[u64], counts: &[u64], weight: u64, limit: u64) -> u64
    requires limit { limit < 2 ^ 62 }
    requires within { All (λ c. c < length counts.now) called.now }
    requires bound { All (λ c. slice_index counts.now c ≤ limit + 1) called.now }
    ensures { result ≡ min (limit + 1) (weight + sum_by (slice_index counts.now) called.now) }
{
    let mut total = weight.min(limit + 1);
    for model in called {
        total = (total + counts[*model as usize]).min(limit + 1);
    }
    total
}
