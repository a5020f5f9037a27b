//! The models of a netlist as blocks with numbered signals.
#![tactic(auto)]

ghost use Rattle.std.specs.Prelude.{◌≡◌, ◌<◌, All, length, slice_index_or, IfOk};
ghost use Rattle.cf_circuits.specs.Kept.{IsCall, IsNetlist};
ghost use Rattle.cf_circuits.specs.Links.{no_model};
ghost use Rattle.cf_circuits.specs.LinkFaults.{weights_of as weights};
ghost use Rattle.cf_circuits.specs.Expansions.{signals};
ghost use Rattle.cf_circuits.specs.Roots.{root};
ghost use Rattle.cf_links.specs.Faults.{HasNoNameFault};
ghost use Rattle.cf_blocks.specs.Numbering.{block_of as numbered, blocks_of as all_numbered};

mod books;
mod calls;
mod drivers;
mod numbers;

use crate::books::book_of;
pub use crate::books::number_in;
use crate::calls::calls_of;
use crate::drivers::drivers_of;
use crate::numbers::Numbers;
use cf_circuits::models::ModelDef;
use cf_hierarchy::Block;
use cf_links::directory::Directory;
use cf_names::NameBook;
use std::alloc::{AllocError, Global};

/// There was no memory.
pub type NoMemory = std::alloc::AllocError;

/// The models of a netlist without faults of names, as blocks in their order. The signals of a
/// model are numbered: its inputs, its gates' outputs, and what its calls drive. The covers of all
/// gates are numbered, model after model.
pub fn blocks_of(alloc: Global, models: &[ModelDef]) -> Result<Vec<Block>, NoMemory>
    requires netlist { IsNetlist models.now }
    requires no_fault { HasNoNameFault models.now }
    ensures { IfOk result (λ blocks. blocks.items ≡ all_numbered models.now) }
{
    let numbers = Numbers::new(alloc, models)?;
    let mut blocks = Vec::with_capacity(alloc, models.len())?;
    let mut cover = 0u64;
    for (at, model) in models.iter().enumerate() {
        blocks.push(block_of(alloc, &numbers, at, cover)?)?;
        let Some(after) = cover.checked_add(model.gates.items().len() as u64) else {
            return Err(AllocError);
        };
        cover = after;
    }
    Ok(blocks)
}

/// The model at a place as a block. Its covers are numbered from `cover` on.
fn block_of(alloc: Global, numbers: &Numbers, at: usize, cover: u64) -> Result<Block, NoMemory>
    requires place { at < length numbers.now }
    requires calls { All IsCall (slice_index_or numbers.now at no_model).calls }
    ensures { let model = slice_index_or numbers.now at no_model in
        IfOk result (λ block. block ≡ numbered numbers.now cover model) }
{
    let model = &numbers.models()[at];
    Ok(Block {
        drivers: drivers_of(alloc, numbers, at, cover)?,
        calls: calls_of(alloc, numbers, at, model.calls.items())?,
    })
}

/// How many gates and calls each model has.
pub fn weights_of(alloc: Global, models: &[ModelDef]) -> Result<Vec<u64>, NoMemory>
    ensures { IfOk result (λ all. all.items ≡ weights models.now) }
{
    let mut all = Vec::with_capacity(alloc, models.len())?;
    for model in models {
        let gates = model.gates.items().len() as u64;
        let calls = model.calls.items().len() as u64;
        let Some(weight) = gates.checked_add(calls) else {
            return Err(AllocError);
        };
        all.push(weight)?;
    }
    Ok(all)
}

/// The signals of the first model, each by its number.
pub fn root_signals(alloc: Global, models: &[ModelDef]) -> Result<NameBook, NoMemory>
    requires netlist { IsNetlist models.now }
    requires no_fault { HasNoNameFault models.now }
    ensures { IfOk result (λ book. book ≡ signals models.now (root models.now)) }
{
    let directory = Directory::new(alloc, models)?;
    book_of(alloc, &directory, &models[0])
}
