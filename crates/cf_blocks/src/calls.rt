//! The calls of a model, over the numbers of its signals.

ghost use Rattle.std.specs.Prelude.{◌≡◌, ◌<◌, All, length, map, slice_index_or, IfOk};
ghost use Rattle.cf_circuits.specs.Kept.{IsCall};
ghost use Rattle.cf_circuits.specs.Links.{no_model};
ghost use Rattle.cf_model.specs.Renumbering.{AllDiffer};
ghost use Rattle.cf_blocks.specs.Numbering.{actual_of as actual_in, call_of as numbered, number as number_of};

use crate::NoMemory;
use crate::numbers::Numbers;
use cf_circuits::pins::{Call as NamedCall, Pin};
use cf_hierarchy::{Call, Calls};
use cf_names::{Name, NameBook};
use cf_order::Wires;
use std::alloc::Global;

/// The calls of the model at a place.
pub(crate) fn calls_of(
    alloc: Global,
    numbers: &Numbers,
    at: usize,
    calls: &[NamedCall],
) -> Result<Calls, NoMemory>
    requires place { at < length numbers.now }
    requires calls { All IsCall calls.now }
    ensures { let model = slice_index_or numbers.now at no_model in
        IfOk result (λ all. all ≡ map (numbered numbers.now model) calls.now) }
{
    let mut all = Calls::new(alloc);
    for call in calls {
        all.push(call_of(alloc, numbers, at, call)?)?;
    }
    Ok(all)
}

/// A call of the model at a place. A called model that isn't there has the place behind all.
fn call_of(alloc: Global, numbers: &Numbers, at: usize, call: &NamedCall) -> Result<Call, NoMemory>
    requires place { at < length numbers.now }
    requires call { IsCall call.now }
    ensures { let model = slice_index_or numbers.now at no_model in
        IfOk result (λ c. c ≡ numbered numbers.now model call.now) }
{
    let Some(callee) = numbers.place(call.model.bytes()) else {
        return Ok(Call {
            block: numbers.models().len() as u64,
            actuals: Wires::new(alloc),
        });
    };
    let inputs = numbers.models()[callee].inputs.items();
    Ok(Call {
        block: callee as u64,
        actuals: actuals_of(alloc, numbers, at, call, inputs)?,
    })
}

/// The numbers of the actuals of a call's formals, in the model at a place.
fn actuals_of(
    alloc: Global,
    numbers: &Numbers,
    at: usize,
    call: &NamedCall,
    names: &[Name],
) -> Result<Wires, NoMemory>
    requires place { at < length numbers.now }
    requires call { IsCall call.now }
    ensures { let model = slice_index_or numbers.now at no_model in
        IfOk result (λ wires. wires ≡ map
        (λ name. number_of numbers.now model (actual_in call.now.pins name)) names.now) }
{
    let pins = call.pins.items();
    let book = formals_of(alloc, pins)?;
    let mut wires = Vec::with_capacity(alloc, names.len())?;
    for name in names {
        wires.push(numbers.number(at, actual_of(&book, pins, name.bytes())))?;
    }
    Ok(Wires::of(wires))
}

/// A book of formals that differ.
fn formals_of(alloc: Global, pins: &[Pin]) -> Result<NameBook, NoMemory>
    requires { AllDiffer (map (λ p. p.formal) pins.now) }
    ensures { IfOk result (λ book. book ≡ map (λ p. p.formal) pins.now) }
{
    let mut book = NameBook::new(alloc);
    for pin in pins {
        book.number(pin.formal.bytes())?;
    }
    Ok(book)
}

/// The actual of a formal, by a book of the formals. One that isn't there has no letter.
fn actual_of<'a>(book: &NameBook, pins: &'a [Pin], name: &[u8]) -> &'a [u8]
    requires { book.now ≡ map (λ p. p.formal) pins.now }
    ensures { result.now ≡ actual_in pins.now name.now }
{
    match book.find(name) {
        Some(place) => pins[place as usize].actual.bytes(),
        None => &[],
    }
}
