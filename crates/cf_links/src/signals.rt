//! The signals of a model: which are driven, and which are used.

ghost use Rattle.std.specs.Prelude.{◌≡◌, IfOk, OnOk};
ghost use Rattle.cf_circuits.specs.Kept.{IsModel};
ghost use Rattle.cf_circuits.specs.Parts.{ACall};
ghost use Rattle.cf_circuits.specs.Links.{drives, uses, driven as all_driven};
ghost use Rattle.cf_circuits.specs.Links.{twice_driven as repeated, undriven as first_undriven};
ghost use Rattle.cf_links.specs.Directories.{first_lacking as first_not_in};
ghost use Rattle.cf_links.specs.Signals.{part_of, nothing, drive, drive_all};

use crate::NoMemory;
use crate::calls::first_lacking;
use crate::directory::Directory;
use crate::parts::{Part, Parts};
use cf_circuits::models::ModelDef;
use cf_circuits::pins::Call;
use cf_names::{Name, NameBook};
use std::alloc::Global;

/// The signals that are driven, and the first that is driven a second time.
#[derive(Drop)]
pub(crate) struct Driven {
    pub names: NameBook,
    pub again: Option<Name>,
}

impl Driven {
    /// Notes that a signal is driven.
    fn drive(&mut self, alloc: Global, name: &Name) -> Result<(), NoMemory>
        ensures { OnOk result (self.new ≡ drive self.old name.now) }
    {
        let known = self.names.len();
        let number = self.names.number(name.bytes())?;
        if number < known && self.again.is_none() {
            self.again = Some(Name::new(alloc, name.bytes())?);
        }
        Ok(())
    }

    /// Notes that signals are driven.
    fn drive_all(&mut self, alloc: Global, names: &[Name]) -> Result<(), NoMemory>
        ensures { OnOk result (self.new ≡ drive_all self.old names.now) }
    {
        for name in names {
            self.drive(alloc, name)?;
        }
        Ok(())
    }

    /// Notes what a call drives.
    fn drive_call(
        &mut self,
        alloc: Global,
        directory: &Directory,
        call: &Call,
    ) -> Result<(), NoMemory>
        ensures { OnOk result
            (self.new ≡ drive_all self.old (drives directory.now (ACall call.now))) }
    {
        let Some(callee) = directory.callee(call) else {
            return Ok(());
        };
        let pins = call.pins.items();
        for pin in pins {
            if directory.is_output(callee, pin.formal.bytes()) {
                self.drive(alloc, &pin.actual)?;
            }
        }
        Ok(())
    }

    /// Notes what a gate or a call drives.
    fn drive_part(
        &mut self,
        alloc: Global,
        directory: &Directory,
        part: Part,
    ) -> Result<(), NoMemory>
        ensures { OnOk result
            (self.new ≡ drive_all self.old (drives directory.now (part_of part.entry))) }
    {
        match part {
            Part::Gate(gate) => self.drive(alloc, &gate.out),
            Part::Call(call) => self.drive_call(alloc, directory, call),
        }
    }
}

/// The signals of a model that are driven.
fn signals_driven(
    alloc: Global,
    directory: &Directory,
    model: &ModelDef,
) -> Result<Driven, NoMemory>
    requires { IsModel model.now }
    ensures { IfOk result (λ d. d ≡ drive_all nothing (all_driven directory.now model.now)) }
{
    let mut driven = Driven {
        names: NameBook::new(alloc),
        again: None,
    };
    driven.drive_all(alloc, model.inputs.items())?;
    let mut parts = Parts::new(model);
    while let Some(part) = parts.next() {
        driven.drive_part(alloc, directory, part)?;
    }
    Ok(driven)
}

/// The first signal of a model that is driven a second time.
pub(crate) fn twice_driven(
    alloc: Global,
    directory: &Directory,
    model: &ModelDef,
) -> Result<Option<Name>, NoMemory>
    requires { IsModel model.now }
    ensures { IfOk result (λ name. name ≡ repeated directory.now model.now) }
{
    let driven = signals_driven(alloc, directory, model)?;
    Ok(driven.again)
}

/// The first signal that a call uses and the book hasn't.
fn unknown_to_call(
    alloc: Global,
    directory: &Directory,
    known: &NameBook,
    call: &Call,
) -> Result<Option<Name>, NoMemory>
    ensures { IfOk result
        (λ name. name ≡ first_not_in known.now (uses directory.now (ACall call.now))) }
{
    let Some(callee) = directory.callee(call) else {
        return Ok(None);
    };
    let pins = call.pins.items();
    for pin in pins {
        let is_used = directory.is_input(callee, pin.formal.bytes());
        if is_used && known.find(pin.actual.bytes()).is_none() {
            return Ok(Some(Name::new(alloc, pin.actual.bytes())?));
        }
    }
    Ok(None)
}

/// The first signal that a gate or a call uses and the book hasn't.
fn unknown_to_part(
    alloc: Global,
    directory: &Directory,
    known: &NameBook,
    part: Part,
) -> Result<Option<Name>, NoMemory>
    ensures { IfOk result
        (λ name. name ≡ first_not_in known.now (uses directory.now (part_of part.entry))) }
{
    match part {
        Part::Gate(gate) => first_lacking(alloc, known, gate.ins.items()),
        Part::Call(call) => unknown_to_call(alloc, directory, known, call),
    }
}

/// The first signal of a model that is used and not driven.
pub(crate) fn undriven(
    alloc: Global,
    directory: &Directory,
    model: &ModelDef,
) -> Result<Option<Name>, NoMemory>
    requires { IsModel model.now }
    ensures { IfOk result (λ name. name ≡ first_undriven directory.now model.now) }
{
    let driven = signals_driven(alloc, directory, model)?;
    let mut parts = Parts::new(model);
    while let Some(part) = parts.next() {
        if let Some(name) = unknown_to_part(alloc, directory, &driven.names, part)? {
            return Ok(Some(name));
        }
    }
    first_lacking(alloc, &driven.names, model.outputs.items())
}
