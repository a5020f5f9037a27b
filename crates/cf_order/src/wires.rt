//! Lists of wires.

ghost use Rattle.std.specs.Prelude.{◌≡◌, List, [], ◌∷◌, ◌++◌, IfOk, OnOk, OnErr};

use crate::NoMemory;
use smallvec::SmallVec;
use std::alloc::Global;
use std::marker::Model;

/// A list of wires. Up to 4 stand inline.
#[derive(Drop)]
pub struct Wires {
    items: SmallVec<u64, 4>,
}

impl Model for Wires {
    ghost use Rattle.std.specs.Prelude.{List, ℕ};

    ghost Value = { List ℕ };

    ghost view = { λ wires. wires.items.items };
}

impl Wires {
    /// A list without a wire.
    pub fn new(alloc: Global) -> Wires
        ensures { result ≡ [] }
    {
        Wires {
            items: SmallVec::new(alloc),
        }
    }

    /// The list of these wires.
    pub fn of(items: Vec<u64>) -> Wires
        ensures { result ≡ items.items }
    {
        Wires {
            items: SmallVec::from_vec(items),
        }
    }

    /// A list of the same wires.
    pub fn copy(alloc: Global, items: &[u64]) -> Result<Wires, NoMemory>
        ensures { IfOk result (λ wires. wires ≡ items.now) }
    {
        Ok(Wires {
            items: SmallVec::from_slice(alloc, items)?,
        })
    }

    /// Puts a wire at the end.
    pub fn push(&mut self, item: u64) -> Result<(), NoMemory>
        ensures pushed { OnOk result (self.new ≡ self.old ++ item ∷ []) }
        ensures no_memory { OnErr result (self.new ≡ self.old) }
    {
        self.items.push(item)?;
        Ok(())
    }

    /// The wires in order.
    pub fn items(&self) -> &[u64]
        ensures { result.now ≡ self.now }
    {
        self.items.as_slice()
    }
}
