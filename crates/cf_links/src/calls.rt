//! What the calls of a model lack: the models that they call, formals and pins. Each function gives
//! the name of the first place, the calls in order.

ghost use Rattle.std.specs.Prelude.{◌≡◌, ◌<◌, length, IfOk, IfSome};
ghost use Rattle.cf_circuits.specs.Links.{is_formal as formal_of, formals, missing_model as no_model_in, missing_formal as no_formal_in, missing_pin as unconnected_in, in_calls};
ghost use Rattle.cf_links.specs.Directories.{HaveSame, model_at, first_lacking as first_not_in};

use crate::NoMemory;
use crate::directory::Directory;
use cf_circuits::models::ModelDef;
use cf_circuits::pins::Call;
use cf_names::{Name, NameBook};
use std::alloc::Global;

/// The first name of a model that is called and isn't there.
pub(crate) fn missing_model(
    alloc: Global,
    directory: &Directory,
    model: &ModelDef,
) -> Result<Option<Name>, NoMemory>
    ensures { IfOk result (λ name. name ≡ in_calls (no_model_in directory.now) model.now) }
{
    for call in model.calls.items() {
        if let Some(name) = model_missing_in(alloc, directory, call)? {
            return Ok(Some(name));
        }
    }
    Ok(None)
}

/// The first formal that is neither an input nor an output of the called model.
pub(crate) fn missing_formal(
    alloc: Global,
    directory: &Directory,
    model: &ModelDef,
) -> Result<Option<Name>, NoMemory>
    ensures { IfOk result (λ name. name ≡ in_calls (no_formal_in directory.now) model.now) }
{
    for call in model.calls.items() {
        if let Some(name) = formal_missing_in(alloc, directory, call)? {
            return Ok(Some(name));
        }
    }
    Ok(None)
}

/// The first input of a called model that has no pin.
pub(crate) fn missing_pin(
    alloc: Global,
    directory: &Directory,
    model: &ModelDef,
) -> Result<Option<Name>, NoMemory>
    ensures { IfOk result (λ name. name ≡ in_calls (unconnected_in directory.now) model.now) }
{
    for call in model.calls.items() {
        if let Some(name) = pin_missing_in(alloc, directory, call)? {
            return Ok(Some(name));
        }
    }
    Ok(None)
}

fn model_missing_in(
    alloc: Global,
    directory: &Directory,
    call: &Call,
) -> Result<Option<Name>, NoMemory>
    ensures { IfOk result (λ name. name ≡ no_model_in directory.now call.now) }
{
    match directory.place(call.model.bytes()) {
        Some(_) => Ok(None),
        None => Ok(Some(Name::new(alloc, call.model.bytes())?)),
    }
}

fn formal_missing_in(
    alloc: Global,
    directory: &Directory,
    call: &Call,
) -> Result<Option<Name>, NoMemory>
    ensures { IfOk result (λ name. name ≡ no_formal_in directory.now call.now) }
{
    let callee = directory.callee(call);
    for pin in call.pins.items() {
        if !is_formal(directory, callee, pin.formal.bytes()) {
            return Ok(Some(Name::new(alloc, pin.formal.bytes())?));
        }
    }
    Ok(None)
}

/// Whether a called model that is there has a formal.
fn is_formal(directory: &Directory, callee: Option<usize>, name: &[u8]) -> bool
    requires { IfSome callee (λ at. at < length directory.now) }
    ensures { result ≡ formal_of (model_at directory.now callee) name.now }
{
    match callee {
        Some(model) => directory.is_input(model, name) || directory.is_output(model, name),
        None => false,
    }
}

fn pin_missing_in(
    alloc: Global,
    directory: &Directory,
    call: &Call,
) -> Result<Option<Name>, NoMemory>
    ensures { IfOk result (λ name. name ≡ unconnected_in directory.now call.now) }
{
    match directory.callee(call) {
        Some(model) => {
            let inputs = directory.models()[model].inputs.items();
            let formals = formals_of(alloc, call)?;
            first_lacking(alloc, &formals, inputs)
        }
        None => Ok(None),
    }
}

/// A book of the formals of a call.
fn formals_of(alloc: Global, call: &Call) -> Result<NameBook, NoMemory>
    ensures { IfOk result (λ book. HaveSame book (formals call.now)) }
{
    let mut book = NameBook::new(alloc);
    for pin in call.pins.items() {
        book.number(pin.formal.bytes())?;
    }
    Ok(book)
}

/// The first of some names that a book hasn't.
pub(crate) fn first_lacking(
    alloc: Global,
    book: &NameBook,
    names: &[Name],
) -> Result<Option<Name>, NoMemory>
    ensures { IfOk result (λ name. name ≡ first_not_in book.now names.now) }
{
    for name in names {
        if book.find(name.bytes()).is_none() {
            return Ok(Some(Name::new(alloc, name.bytes())?));
        }
    }
    Ok(None)
}
