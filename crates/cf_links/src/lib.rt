//! The links between the models of a netlist, by their names: whether each call finds its model,
//! its formals and its pins, and whether each signal that is used is driven once.
#![tactic(auto)]

ghost use Rattle.std.specs.Prelude.{◌≡◌, All, IfOk, MatchOption};
ghost use Rattle.cf_circuits.specs.Kept.{IsModel, IsNetlist};
ghost use Rattle.cf_circuits.specs.LinkFaults.{fault_of_names};
ghost use Rattle.cf_links.specs.Faults.{HasNoNameFault, IsNameFault};

mod calls;
pub mod directory;
mod kinds;
mod parts;
mod recursion;
mod signals;

use crate::directory::Directory;
use crate::kinds::{Kind, in_models};
use crate::recursion::recursive_model;
use cf_circuits::faults::LinkFault;
use cf_circuits::models::Netlist;
use std::alloc::Global;

/// There was no memory.
pub type NoMemory = std::alloc::AllocError;

/// What the names of a netlist lack first, in order of the kinds 1 to 6.
pub fn name_fault(alloc: Global, net: &Netlist) -> Result<Option<LinkFault>, NoMemory>
    requires { IsNetlist net.now.models }
    ensures { IfOk result (λ fault.
        MatchOption fault (HasNoNameFault net.now.models) (IsNameFault net.now.models)) }
{
    let directory = Directory::new(alloc, net.models.items())?;
    if let Some(fault) = first_fault(alloc, &directory)? {
        return Ok(Some(fault));
    }
    match recursive_model(alloc, &directory)? {
        Some(name) => Ok(Some(LinkFault::Recursive(name))),
        None => Ok(None),
    }
}

/// The first fault that a model has in itself: all models are tried for a kind before the next.
fn first_fault(alloc: Global, directory: &Directory) -> Result<Option<LinkFault>, NoMemory>
    requires { All IsModel directory.now }
    ensures { IfOk result (λ fault. fault ≡ fault_of_names directory.now) }
{
    if let Some(name) = in_models(alloc, directory, Kind::NoModel)? {
        return Ok(Some(LinkFault::NoModel(name)));
    }
    if let Some(name) = in_models(alloc, directory, Kind::NoFormal)? {
        return Ok(Some(LinkFault::NoFormal(name)));
    }
    if let Some(name) = in_models(alloc, directory, Kind::Unconnected)? {
        return Ok(Some(LinkFault::Unconnected(name)));
    }
    if let Some(name) = in_models(alloc, directory, Kind::TwiceDriven)? {
        return Ok(Some(LinkFault::TwiceDriven(name)));
    }
    if let Some(name) = in_models(alloc, directory, Kind::Undriven)? {
        return Ok(Some(LinkFault::Undriven(name)));
    }
    Ok(None)
}
