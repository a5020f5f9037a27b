//! What a circuit file comes to.

use cf_blif::{BlifFault, ModelDef, Netlist, read_blif};
use cf_circuits::faults::LinkFault;
use cf_flat::flat::Flat;
use cf_flat::{FlatFault, flatten};
use std::alloc::Global;
use std::{fmt, str};

/// The netlist that was read with its flat circuit or the fault of its links, or why there is none.
#[derive(Drop)]
pub struct Outcome {
    read: Result<(Netlist, Result<Flat, FlatFault>), BlifFault>,
}

impl Outcome {
    pub fn new(alloc: Global, text: &[u8]) -> Outcome {
        Outcome {
            read: match read_blif(alloc, text) {
                Ok(netlist) => {
                    let flat = flatten(alloc, &netlist);
                    Ok((netlist, flat))
                }
                Err(fault) => Err(fault),
            },
        }
    }
}

impl fmt::Display for Outcome {
    fn fmt<W: fmt::Write>(&self, f: &mut fmt::Formatter<W>) -> fmt::Result {
        match &self.read {
            Ok((netlist, flat)) => {
                write_models(f, netlist.models.items())?;
                write_flat(f, flat)
            }
            Err(BlifFault::NoMemory) => f.write_str("no memory"),
            Err(BlifFault::At { line, why }) => write!(f, "line {line} cause {}", *why as u8),
        }
    }
}

/// The size of each model.
fn write_models<W: fmt::Write>(f: &mut fmt::Formatter<W>, models: &[ModelDef]) -> fmt::Result {
    for (i, model) in models.iter().enumerate() {
        if i > 0 {
            f.write_str("; ")?;
        }
        write_model(f, model)?;
    }
    Ok(())
}

fn write_model<W: fmt::Write>(f: &mut fmt::Formatter<W>, model: &ModelDef) -> fmt::Result {
    write!(
        f,
        "{} inputs {} outputs {} gates {} calls {}",
        text(model.name.bytes()),
        model.inputs.items().len(),
        model.outputs.items().len(),
        model.gates.items().len(),
        model.calls.items().len(),
    )
}

/// The sizes of the flat circuit, or the first fault of the links.
fn write_flat<W: fmt::Write>(
    f: &mut fmt::Formatter<W>,
    flat: &Result<Flat, FlatFault>,
) -> fmt::Result {
    match flat {
        Ok(flat) => write!(
            f,
            "; flat gates {} outputs {}",
            flat.gates.items().len(),
            flat.outputs.items().len()
        ),
        Err(FlatFault::NoMemory) => f.write_str("; no memory"),
        Err(FlatFault::Link(fault)) => write_fault(f, fault),
    }
}

fn write_fault<W: fmt::Write>(f: &mut fmt::Formatter<W>, fault: &LinkFault) -> fmt::Result {
    write!(f, "; fault {}", fault.number())?;
    if let Some(name) = fault.name() {
        write!(f, " {}", text(name))?;
    }
    Ok(())
}

fn text(bytes: &[u8]) -> &str {
    str::from_utf8(bytes).unwrap_or("?")
}
