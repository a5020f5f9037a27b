//! Gates, and the nodes that give signals their values.

ghost use Rattle.std.specs.Prelude.{◌≡◌, List, [], ◌∷◌, ◌++◌, length, OnOk, OnErr};

use crate::NoMemory;
use cf_order::Wires;
use std::alloc::Global;
use std::marker::Model;

/// A gate: what it reads, and the place of its cover.
#[derive(Drop)]
pub struct Gate {
    pub ins: Wires,
    pub cover: u64,
}

/// Where a signal's value comes from: an input, a gate, or another signal.
#[derive(Drop)]
pub enum Node {
    Input(u64),
    Output(Gate),
    Alias(u64),
}

/// A list of gates.
#[derive(Drop)]
pub struct Gates {
    items: Vec<Gate>,
}

impl Model for Gates {
    ghost use Rattle.std.specs.Prelude.{List};
    ghost use Rattle.cf_hierarchy.specs.declared.gates.Gate.{Gate};

    ghost Value = { List Gate };

    ghost view = { λ gates. gates.items.items };
}

impl Gates {
    /// A list without a gate.
    pub fn new(alloc: Global) -> Gates
        ensures { result ≡ [] }
    {
        Gates {
            items: Vec::new(alloc),
        }
    }

    /// Puts a gate at the end.
    pub fn push(&mut self, item: Gate) -> Result<(), NoMemory>
        ensures pushed { OnOk result (self.new ≡ self.old ++ item ∷ []) }
        ensures no_memory { OnErr result (self.new ≡ self.old) }
    {
        self.items.push(item)?;
        Ok(())
    }

    /// How many gates there are.
    pub fn len(&self) -> u64
        ensures { result ≡ length self.now }
    {
        self.items.len() as u64
    }

    /// The gates in order.
    pub fn items(&self) -> &[Gate]
        ensures { result.now ≡ self.now }
    {
        self.items.as_slice()
    }
}
