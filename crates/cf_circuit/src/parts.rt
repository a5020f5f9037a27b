//! Planes by what they ask of an input.

ghost use Rattle.std.specs.Prelude.{◌≡◌, ◌<◌, ◌+◌, List, [], All, length, IfOk};
ghost use Rattle.cf_circuit.specs.Planes.{IsWide, AreParted, plane_at, cell_at, AreAllPlaces};

use crate::NoMemory;
use cf_circuits::gates::{Cell, Cells};
use smallvec::SmallVec;
use std::alloc::Global;

/// Places of planes that ask for a 0 of an input, for a 1, and for nothing.
#[derive(Drop)]
pub(crate) struct Parts {
    pub zeros: SmallVec<u64, 4>,
    pub ones: SmallVec<u64, 4>,
    pub others: SmallVec<u64, 4>,
}

/// The places of all planes.
pub(crate) fn all_places(alloc: Global, planes: &[Cells]) -> Result<SmallVec<u64, 8>, NoMemory>
    ensures { IfOk result (λ places. AreAllPlaces planes.now places.items) }
{
    let mut places = SmallVec::with_capacity(alloc, planes.len())?;
    for place in 0..planes.len() {
        places.push(place as u64)?;
    }
    Ok(places)
}

/// What a plane asks of an input.
fn cell_of(planes: &[Cells], place: u64, input: u64) -> Cell
    requires there { place < length planes.now }
    requires wide { input < length (plane_at planes.now place) }
    ensures { result ≡ cell_at planes.now place input }
{
    planes[place as usize].items()[input as usize]
}

/// Planes parted by what they ask of an input.
pub(crate) fn parted(
    alloc: Global,
    planes: &[Cells],
    places: &[u64],
    input: u64,
    width: u64,
) -> Result<Parts, NoMemory>
    requires within { input < width }
    requires wide { All (IsWide planes.now width) places.now }
    ensures { IfOk result (λ parts. AreParted planes.now width input places.now
        parts.zeros.items parts.ones.items parts.others.items) }
{
    let mut parts = Parts {
        zeros: SmallVec::new(alloc),
        ones: SmallVec::new(alloc),
        others: SmallVec::new(alloc),
    };
    for place in places {
        match cell_of(planes, *place, input) {
            Cell::Zero => parts.zeros.push(*place)?,
            Cell::One => parts.ones.push(*place)?,
            Cell::Any => parts.others.push(*place)?,
        }
    }
    Ok(parts)
}
