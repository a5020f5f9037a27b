//! The copies of blocks that a hierarchy expands to.

ghost use Rattle.std.specs.Prelude.{◌≡◌, [], ◌∷◌, ◌++◌, length, OnOk, OnErr};

use crate::NoMemory;
use std::alloc::Global;
use std::marker::Model;

/// A copy of a block: the copy that calls it, the place of the call there, and the number of its
/// first signal.
#[derive(Clone, Copy, Debug)]
pub struct Instance {
    pub block: u64,
    pub parent: u64,
    pub place: u64,
    pub base: u64,
}

/// A list of copies.
#[derive(Drop)]
pub struct Instances {
    items: Vec<Instance>,
}

impl Model for Instances {
    ghost use Rattle.std.specs.Prelude.{List};
    ghost use Rattle.cf_hierarchy.specs.declared.instances.Instance.{Instance};

    ghost Value = { List Instance };

    ghost view = { λ all. all.items.items };
}

impl Instances {
    /// A list without a copy.
    pub fn new(alloc: Global) -> Instances
        ensures { result ≡ [] }
    {
        Instances {
            items: Vec::new(alloc),
        }
    }

    /// Puts a copy at the end.
    pub fn push(&mut self, item: Instance) -> Result<(), NoMemory>
        ensures pushed { OnOk result (self.new ≡ self.old ++ item ∷ []) }
        ensures no_memory { OnErr result (self.new ≡ self.old) }
    {
        self.items.push(item)?;
        Ok(())
    }

    /// How many copies there are.
    pub fn len(&self) -> u64
        ensures { result ≡ length self.now }
    {
        self.items.len() as u64
    }

    /// The copies in order.
    pub fn items(&self) -> &[Instance]
        ensures { result.now ≡ self.now }
    {
        self.items.as_slice()
    }
}
