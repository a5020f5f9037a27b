//! The groupings that were transposed within one call, so that none is transposed twice.

ghost use Rattle.std.specs.Prelude.{◌<◌, length, IfOk, OnOk, IfSome};
ghost use Rattle.cf_model.specs.Diagrams.{Levels};
ghost use Rattle.cf_kron.specs.Transposed.{KeepsTransposition, AreTranspositions, HasKey, HasValue};

use cf_table::Gid;
use cf_tuple::NoMemory;
use indexmap::IndexMap;

/// The grouping of the exits that a grouping has with rows and columns exchanged, and these exits in
/// order of first appearance.
#[derive(Drop)]
pub(crate) struct Transposed {
    pub head: Gid,
    pub exits: Vec<u64>,
}

/// The place of what a grouping came to, if it was transposed.
pub(crate) fn place_of(done: &IndexMap<Gid, Transposed>, g: Gid) -> Option<usize>
    ensures { IfSome result (HasKey done.now.entries g) }
{
    done.get_index_of(&g)
}

/// What a grouping came to, by its place.
pub(crate) fn transposed_at(done: &IndexMap<Gid, Transposed>, place: usize) -> &Transposed
    requires { place < length done.now.entries }
    ensures { HasValue done.now.entries result.now place }
{
    let (_, transposed) = done.get_index(place).unwrap();
    transposed
}

/// Keeps what a grouping comes to, and answers its place.
pub(crate) fn keep(
    done: &mut IndexMap<Gid, Transposed>,
    g: Gid,
    transposed: Transposed,
) -> Result<usize, NoMemory>
    ensures kept { IfOk result (HasValue done.new.entries transposed) }
    ensures known { (t : Levels) →
        AreTranspositions t done.old.entries → KeepsTransposition t (g, transposed) →
        OnOk result (AreTranspositions t done.new.entries) }
{
    let (place, _) = done.insert_full(g, transposed)?;
    Ok(place)
}
