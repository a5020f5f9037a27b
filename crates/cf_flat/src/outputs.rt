//! The outputs of a netlist and their wires.

ghost use Rattle.std.specs.Prelude.{◌≡◌, ◌<◌, All, map, length, IfOk};
ghost use Rattle.std.specs.Str.{bytes_eq};
ghost use Rattle.cf_model.specs.Renumbering.{distinct, place};
ghost use Rattle.cf_flat.specs.Flattening.{out_at};

use crate::NoMemory;
use crate::flat::{Out, Outs};
use cf_blocks::number_in;
use cf_names::{Name, NameBook};
use std::alloc::Global;

/// The names, each once.
pub(crate) fn distinct_names(alloc: Global, names: &[Name]) -> Result<NameBook, NoMemory>
    ensures { IfOk result (λ book. book ≡ distinct bytes_eq names.now) }
{
    let mut book = NameBook::new(alloc);
    for name in names {
        book.number(name.bytes())?;
    }
    Ok(book)
}

/// An output of each name, with the wire of the signal that has the name. `wires` has the wire of
/// each signal.
pub(crate) fn outs_of(
    alloc: Global,
    names: &NameBook,
    signals: &NameBook,
    wires: &[u64],
) -> Result<Outs, NoMemory>
    requires { All (λ name. place bytes_eq signals.now name < length wires.now) names.now }
    ensures { IfOk result (λ outs. outs ≡ map (out_at signals.now wires.now) names.now) }
{
    let mut outs = Outs::new(alloc);
    for n in 0..names.len() {
        outs.push(out_of(alloc, names.get(n), signals, wires)?)?;
    }
    Ok(outs)
}

fn out_of(alloc: Global, name: &[u8], signals: &NameBook, wires: &[u64]) -> Result<Out, NoMemory>
    requires { place bytes_eq signals.now name.now < length wires.now }
    ensures { IfOk result (λ out. out ≡ out_at signals.now wires.now name.now) }
{
    let signal = number_in(signals, name);
    Ok(Out {
        name: Name::new(alloc, name)?,
        wire: wires[signal as usize],
    })
}
