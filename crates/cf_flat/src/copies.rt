//! Copies of names and covers.

ghost use Rattle.std.specs.Prelude.{◌≡◌, ◌++◌, map, IfOk, OnOk};
ghost use Rattle.cf_blocks.specs.Numbering.{covers_of as covers_in};

use crate::NoMemory;
use crate::flat::Covers;
use cf_circuits::gates::{Cell, Cells, Cover, Gate, Planes};
use cf_circuits::models::ModelDef;
use cf_names::{Name, Names};
use std::alloc::Global;

/// A copy of names.
pub(crate) fn names_of(alloc: Global, names: &[Name]) -> Result<Names, NoMemory>
    ensures { IfOk result (λ copy. copy ≡ names.now) }
{
    let mut copy = Names::new(alloc);
    for name in names {
        copy.push(Name::new(alloc, name.bytes())?)?;
    }
    Ok(copy)
}

/// A copy of the covers of all gates, model after model.
pub(crate) fn covers_of(alloc: Global, models: &[ModelDef]) -> Result<Covers, NoMemory>
    ensures { IfOk result (λ covers. covers ≡ covers_in models.now) }
{
    let mut covers = Covers::new(alloc);
    for model in models {
        add_covers(alloc, &mut covers, model.gates.items())?;
    }
    Ok(covers)
}

fn add_covers(alloc: Global, covers: &mut Covers, gates: &[Gate]) -> Result<(), NoMemory>
    ensures { OnOk result (covers.new ≡ covers.old ++ map (λ g. g.cover) gates.now) }
{
    for gate in gates {
        covers.push(cover_of(alloc, &gate.cover)?)?;
    }
    Ok(())
}

fn cover_of(alloc: Global, cover: &Cover) -> Result<Cover, NoMemory>
    ensures { IfOk result (λ copy. copy ≡ cover.now) }
{
    Ok(Cover {
        on: cover.on,
        planes: planes_of(alloc, cover.planes.items())?,
    })
}

fn planes_of(alloc: Global, planes: &[Cells]) -> Result<Planes, NoMemory>
    ensures { IfOk result (λ copy. copy ≡ planes.now) }
{
    let mut copy = Planes::new(alloc);
    for plane in planes {
        copy.push(cells_of(alloc, plane.items())?)?;
    }
    Ok(copy)
}

fn cells_of(alloc: Global, cells: &[Cell]) -> Result<Cells, NoMemory>
    ensures { IfOk result (λ copy. copy ≡ cells.now) }
{
    let mut copy = Cells::new(alloc);
    for cell in cells {
        copy.push(*cell)?;
    }
    Ok(copy)
}
