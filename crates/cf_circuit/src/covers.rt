//! Where covers are 1.

ghost use Rattle.std.specs.Prelude.{◌≡◌, ◌≤◌, ℕ, All, length, IfOk};
ghost use Rattle.cf_pkg.specs.Packages.{Keeps};
ghost use Rattle.cf_circuit.specs.Planes.{IsWide};
ghost use Rattle.cf_circuit.specs.Covers.{AreWiresAt, TellsPlanes, TellsCover};

use crate::NoMemory;
use crate::parts::{all_places, parted};
use crate::truths::{Truth, choice, either, not};
use cf_circuits::gates::{Cells, Cover};
use cf_pkg::Pkg;
use std::alloc::Global;

/// Where a cover is 1 whose inputs are these wires.
pub(crate) fn of_cover(
    alloc: Global,
    pkg: &mut Pkg,
    cover: &Cover,
    truths: &[Truth],
    wires: &[u64],
) -> Result<Truth, NoMemory>
    requires cells { All (λ plane. length plane ≡ length wires.now) cover.now.planes }
    requires at { (l : ℕ) × AreWiresAt pkg.old l truths.now wires.now }
    ensures told { IfOk result (TellsCover pkg.old pkg.new cover.now truths.now wires.now) }
    ensures kept { Keeps pkg.old pkg.new }
{
    let planes = cover.planes.items();
    let places = all_places(alloc, planes)?;
    let width = wires.len() as u64;
    let matched = of_planes(alloc, pkg, planes, truths, wires, places.as_slice(), width)?;
    if cover.on {
        return Ok(matched);
    }
    not(pkg, matched)
}

/// Where one of the planes matches, of which the last cells are for these wires: those that ask for
/// a 1 of the first wire where it is 1, those that ask for a 0 of it elsewhere, or any of the rest.
fn of_planes(
    alloc: Global,
    pkg: &mut Pkg,
    planes: &[Cells],
    truths: &[Truth],
    wires: &[u64],
    places: &[u64],
    width: u64,
) -> Result<Truth, NoMemory>
    requires fits { length wires.now ≤ width }
    requires wide { All (IsWide planes.now width) places.now }
    requires at { (l : ℕ) × AreWiresAt pkg.old l truths.now wires.now }
    ensures told { IfOk result
        (TellsPlanes pkg.old pkg.new planes.now width places.now truths.now wires.now) }
    ensures kept { Keeps pkg.old pkg.new }
{
    if places.is_empty() {
        return Ok(Truth::Never);
    }
    let Some((wire, later)) = wires.split_first() else {
        return Ok(Truth::Always);
    };
    let parts = parted(alloc, planes, places, width - wires.len() as u64, width)?;
    let always = of_planes(
        alloc,
        pkg,
        planes,
        truths,
        later,
        parts.others.as_slice(),
        width,
    )?;
    let one = of_planes(
        alloc,
        pkg,
        planes,
        truths,
        later,
        parts.ones.as_slice(),
        width,
    )?;
    let zero = of_planes(
        alloc,
        pkg,
        planes,
        truths,
        later,
        parts.zeros.as_slice(),
        width,
    )?;
    let by_wire = choice(pkg, truths[*wire as usize], one, zero)?;
    either(pkg, always, by_wire)
}
