//! What drives the signals of a model, in order of their numbers.

ghost use Rattle.std.specs.Prelude.{◌≡◌, ◌<◌, ◌++◌, length, slice_index_or, IfOk, OnOk};
ghost use Rattle.cf_circuits.specs.Links.{callee as callee_of, is_output as output_of, no_model};
ghost use Rattle.cf_blocks.specs.Numbering.{backs_from, backs_of, drivers_of as all_drivers, formals_from, gate_of as numbered, made_from, number as number_of};

use crate::NoMemory;
use crate::numbers::Numbers;
use cf_circuits::gates::Gate as NamedGate;
use cf_circuits::pins::Call;
use cf_hierarchy::{Driver, Drivers, Gate};
use cf_names::Name;
use std::alloc::{AllocError, Global};

/// What drives the signals of the model at a place. Its covers are numbered from `cover` on.
pub(crate) fn drivers_of(
    alloc: Global,
    numbers: &Numbers,
    at: usize,
    cover: u64,
) -> Result<Drivers, NoMemory>
    requires { at < length numbers.now }
    ensures { let model = slice_index_or numbers.now at no_model in
        IfOk result (λ drivers. drivers ≡ all_drivers numbers.now cover model) }
{
    let model = &numbers.models()[at];
    let mut drivers = Drivers::new(alloc);
    add_formals(model.inputs.items(), &mut drivers)?;
    add_gates(alloc, numbers, at, cover, model.gates.items(), &mut drivers)?;
    add_calls(numbers, model.calls.items(), &mut drivers)?;
    Ok(drivers)
}

/// Adds what drives inputs.
fn add_formals(inputs: &[Name], drivers: &mut Drivers) -> Result<(), NoMemory>
    ensures { OnOk result (drivers.new ≡ drivers.old ++ formals_from 0 inputs.now) }
{
    for place in 0..inputs.len() {
        drivers.push(Driver::Formal(place as u64))?;
    }
    Ok(())
}

/// Adds gates of the model at a place, their covers numbered from `cover` on.
fn add_gates(
    alloc: Global,
    numbers: &Numbers,
    at: usize,
    cover: u64,
    gates: &[NamedGate],
    drivers: &mut Drivers,
) -> Result<(), NoMemory>
    requires { at < length numbers.now }
    ensures { let model = slice_index_or numbers.now at no_model in
        OnOk result (drivers.new ≡ drivers.old ++ made_from numbers.now model cover gates.now) }
{
    let mut next = cover;
    for gate in gates {
        drivers.push(Driver::Made(gate_of(alloc, numbers, at, next, gate)?))?;
        let Some(after) = next.checked_add(1) else {
            return Err(AllocError);
        };
        next = after;
    }
    Ok(())
}

/// A gate of the model at a place, over the numbers of its signals.
fn gate_of(
    alloc: Global,
    numbers: &Numbers,
    at: usize,
    cover: u64,
    gate: &NamedGate,
) -> Result<Gate, NoMemory>
    requires { at < length numbers.now }
    ensures { let model = slice_index_or numbers.now at no_model in
        IfOk result (λ g. g ≡ numbered numbers.now model cover gate.now) }
{
    let ins = numbers.number_all(alloc, at, gate.ins.items())?;
    Ok(Gate { ins, cover })
}

/// Adds what calls drive.
fn add_calls(numbers: &Numbers, calls: &[Call], drivers: &mut Drivers) -> Result<(), NoMemory>
    ensures { OnOk result (drivers.new ≡ drivers.old ++ backs_from numbers.now 0 calls.now) }
{
    for (place, call) in calls.iter().enumerate() {
        add_call(numbers, place as u64, call, drivers)?;
    }
    Ok(())
}

/// Adds what the call at a place drives: a formal has its number in the called model.
fn add_call(
    numbers: &Numbers,
    place: u64,
    call: &Call,
    drivers: &mut Drivers,
) -> Result<(), NoMemory>
    ensures { let callee = callee_of numbers.now call.now in
        OnOk result (drivers.new ≡ drivers.old
        ++ backs_of (output_of callee) (number_of numbers.now callee) place call.now.pins) }
{
    let Some(callee) = numbers.callee(call) else {
        return Ok(());
    };
    let pins = call.pins.items();
    for pin in pins {
        if numbers.is_output(callee, pin.formal.bytes()) {
            let formal = numbers.number(callee, pin.formal.bytes());
            drivers.push(Driver::Back {
                call: place,
                formal,
            })?;
        }
    }
    Ok(())
}
