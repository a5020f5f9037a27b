//! Models that call themselves, directly or through others.

ghost use Rattle.std.specs.Prelude.{◌≡◌, ◌<◌, Some, None, length, slice_get, IfOk, MatchOption};
ghost use Rattle.cf_order.specs.Orders.{HasNoRing};
ghost use Rattle.cf_circuits.specs.Links.{calls_of, in_calls, in_models, missing_model, names_of};
ghost use Rattle.cf_links.specs.Directories.{places_of};
ghost use Rattle.cf_links.specs.Faults.{IsRecursive};

use crate::NoMemory;
use crate::directory::Directory;
use cf_circuits::models::ModelDef;
use cf_names::Name;
use cf_order::{OrderFault, Wires, first_on_ring, order_of};
use std::alloc::{AllocError, Global};

/// The first model that calls itself, directly or through others.
pub(crate) fn recursive_model(
    alloc: Global,
    directory: &Directory,
) -> Result<Option<Name>, NoMemory>
    requires { in_models (in_calls (missing_model directory.now)) directory.now ≡ None }
    ensures { IfOk result (λ name.
        MatchOption name (HasNoRing (calls_of directory.now)) (IsRecursive directory.now)) }
{
    let rows = rows_of(alloc, directory)?;
    match order_of(alloc, rows.as_slice()) {
        Ok(_) => return Ok(None),
        Err(OrderFault::NoMemory) => return Err(AllocError),
        Err(OrderFault::Ring(_)) => {}
    }
    match first_on_ring(alloc, rows.as_slice())? {
        Some(at) => Ok(Some(name_at(alloc, directory.models(), at as usize)?)),
        None => unreachable!(),
    }
}

fn name_at(alloc: Global, models: &[ModelDef], at: usize) -> Result<Name, NoMemory>
    requires { at < length models.now }
    ensures { IfOk result (λ name. slice_get (names_of models.now) at ≡ Some name) }
{
    Name::new(alloc, models[at].name.bytes())
}

/// The models that each model calls, by their places.
fn rows_of(alloc: Global, directory: &Directory) -> Result<Vec<Wires>, NoMemory>
    ensures { IfOk result (λ rows. rows.items ≡ calls_of directory.now) }
{
    let mut rows = Vec::new(alloc);
    for model in directory.models() {
        rows.push(row_of(alloc, directory, model)?)?;
    }
    Ok(rows)
}

/// The models that a model calls, by their places. One that isn't there has the place behind all.
fn row_of(alloc: Global, directory: &Directory, model: &ModelDef) -> Result<Wires, NoMemory>
    ensures { IfOk result (λ row. row ≡ places_of directory.now model.now) }
{
    let end = directory.models().len();
    let mut row = Wires::new(alloc);
    for call in model.calls.items() {
        let place = directory.place(call.model.bytes()).unwrap_or(end);
        row.push(place as u64)?;
    }
    Ok(row)
}
