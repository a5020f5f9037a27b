//! The flat circuit of a netlist.

ghost use Rattle.std.specs.Prelude.{◌≡◌, None, map, IfOk, IfErr};
ghost use Rattle.cf_circuits.specs.Kept.{IsNetlist};
ghost use Rattle.cf_circuits.specs.LinkFaults.{link as fault_of};
ghost use Rattle.cf_circuits.specs.Roots.{inputs_of, outputs_of};
ghost use Rattle.cf_links.specs.Faults.{HasNoNameFault};
ghost use Rattle.cf_flat.specs.Flats.{IsFlat};
ghost use Rattle.cf_flat.specs.Flattening.{HasValues, IsFault, IsLinked};

use crate::NoMemory;
use crate::copies::{covers_of, names_of};
use crate::flat::Flat;
use crate::outputs::{distinct_names, outs_of};
use cf_blocks::{blocks_of, root_signals, weights_of};
use cf_circuits::faults::LinkFault;
use cf_circuits::models::{ModelDef, Netlist};
use cf_hierarchy::{Flat as Linked, LinkFault as BlockFault, link};
use cf_links::name_fault;
use std::alloc::Global;

/// The most models of a netlist.
const MOST: u64 = 1 << 61;

/// Why there is no flat circuit.
#[derive(Drop)]
pub enum FlatFault {
    NoMemory,
    /// The first fault of the netlist's links.
    Link(LinkFault),
}

impl From<NoMemory> for FlatFault {
    ghost use Rattle.std.specs.Prelude.{◌≡◌};
    ghost use Rattle.cf_flat.specs.declared.flattening.FlatFault.{FlatFault};
    ghost use Rattle.cf_flat.specs.declared.flattening.FlatFault.TheVariants as fault;

    ghost from_gives = { λ _ e. e ≡ fault.NoMemory };

    fn from(_: NoMemory) -> FlatFault {
        FlatFault::NoMemory
    }
}

impl From<BlockFault> for FlatFault {
    ghost use Rattle.std.specs.Prelude.{◌≡◌};
    ghost use Rattle.cf_flat.specs.Flattening.{of_blocks};

    ghost from_gives = { λ f e. e ≡ of_blocks f };

    fn from(fault: BlockFault) -> FlatFault {
        match fault {
            BlockFault::NoMemory => FlatFault::NoMemory,
            BlockFault::TooDeep => FlatFault::Link(LinkFault::TooDeep),
            BlockFault::TooLarge => FlatFault::Link(LinkFault::TooLarge),
            BlockFault::Cycle => FlatFault::Link(LinkFault::Cycle),
        }
    }
}

/// The flat circuit of a netlist: its inputs are those of the root, its outputs the root's, each
/// once, and the wire of an output has the output's value. Or the first fault of the links.
pub fn flatten(alloc: Global, net: &Netlist) -> Result<Flat, FlatFault>
    requires { IsNetlist net.now.models }
    ensures flat { IfOk result IsFlat }
    ensures inputs { IfOk result (λ flat. flat.inputs ≡ inputs_of net.now.models) }
    ensures outputs { IfOk result (λ flat.
        map (λ out. out.name) flat.outputs ≡ outputs_of net.now.models) }
    ensures values { IfOk result (HasValues net.now.models) }
    ensures faultless { IfOk result (λ _. fault_of net.now.models ≡ None) }
    ensures fault { IfErr result (IsFault net.now.models) }
{
    if let Some(fault) = name_fault(alloc, net)? {
        return Err(FlatFault::Link(fault));
    }
    let models = net.models.items();
    let linked = linked(alloc, models)?;
    let names = distinct_names(alloc, models[0].outputs.items())?;
    let signals = root_signals(alloc, models)?;
    let outputs = outs_of(alloc, &names, &signals, linked.wires.items())?;
    let inputs = names_of(alloc, models[0].inputs.items())?;
    let covers = covers_of(alloc, models)?;
    Ok(Flat {
        inputs,
        outputs,
        covers,
        gates: linked.gates,
    })
}

/// The gates of models whose names have no fault, and the wires of their signals.
fn linked(alloc: Global, models: &[ModelDef]) -> Result<Linked, FlatFault>
    requires netlist { IsNetlist models.now }
    requires no_fault { HasNoNameFault models.now }
    ensures linked { IfOk result (IsLinked models.now) }
    ensures faultless { IfOk result (λ _. fault_of models.now ≡ None) }
    ensures fault { IfErr result (IsFault models.now) }
{
    let blocks = blocks_of(alloc, models)?;
    let weights = weights_of(alloc, models)?;
    let inputs = models[0].inputs.items().len() as u64;
    if blocks.len() as u64 > MOST {
        return Err(FlatFault::NoMemory);
    }
    let flat = link(alloc, blocks.as_slice(), weights.as_slice(), inputs)?;
    Ok(flat)
}
