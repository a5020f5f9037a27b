//! The groupings that were restricted within one call, so that none is restricted twice.

ghost use Rattle.std.specs.Prelude.{◌<◌, length, IfOk, OnOk, IfSome};
ghost use Rattle.cf_model.specs.Diagrams.{Levels};
ghost use Rattle.cf_restrict.specs.Memos.{KeepsRestriction, AreRestrictions, HasKey, HasValue};

use cf_table::Gid;
use cf_tuple::NoMemory;
use indexmap::IndexMap;

/// A grouping, and the bit that is set of its assignments.
#[derive(Clone, Copy, Debug, PartialEq, Eq, Hash)]
pub(crate) struct Setting {
    pub grouping: Gid,
    pub position: u8,
    pub bit: bool,
}

/// The grouping of the exits that a grouping has with a bit set, and these exits in order of first
/// appearance.
#[derive(Drop)]
pub(crate) struct Restricted {
    pub head: Gid,
    pub exits: Vec<u64>,
}

/// The place of what was restricted so, if it was.
pub(crate) fn place_of(done: &IndexMap<Setting, Restricted>, setting: Setting) -> Option<usize>
    ensures { IfSome result (HasKey done.now.entries setting) }
{
    done.get_index_of(&setting)
}

/// What was restricted, by its place.
pub(crate) fn restricted_at(done: &IndexMap<Setting, Restricted>, place: usize) -> &Restricted
    requires { place < length done.now.entries }
    ensures { HasValue done.now.entries result.now place }
{
    let (_, restricted) = done.get_index(place).unwrap();
    restricted
}

/// Keeps what a setting comes to, and answers its place.
pub(crate) fn keep(
    done: &mut IndexMap<Setting, Restricted>,
    setting: Setting,
    restricted: Restricted,
) -> Result<usize, NoMemory>
    ensures kept { IfOk result (HasValue done.new.entries restricted) }
    ensures known { (t : Levels) →
        AreRestrictions t done.old.entries → KeepsRestriction t (setting, restricted) →
        OnOk result (AreRestrictions t done.new.entries) }
{
    let (place, _) = done.insert_full(setting, restricted)?;
    Ok(place)
}
