//! Flat circuits, whose wires are numbered: first the inputs, then the gates.

ghost use Rattle.std.specs.Prelude.{◌≡◌, List, [], ◌∷◌, ◌++◌, OnOk, OnErr};

use crate::NoMemory;
use cf_circuits::gates::Cover;
pub use cf_hierarchy::{Gate as FlatGate, Gates as FlatGates};
use cf_names::{Name, Names};
use std::alloc::Global;
use std::marker::Model;

/// A circuit in which each gate reads lower wires only. Wire w is input w, or gate w less the number
/// of inputs.
#[derive(Drop)]
pub struct Flat {
    pub inputs: Names,
    pub outputs: Outs,
    /// The covers that the gates name by their places.
    pub covers: Covers,
    pub gates: FlatGates,
}

/// An output.
#[derive(Drop)]
pub struct Out {
    pub name: Name,
    pub wire: u64,
}

/// A list of outputs.
#[derive(Drop)]
pub struct Outs {
    items: Vec<Out>,
}

impl Model for Outs {
    ghost use Rattle.std.specs.Prelude.{List};
    ghost use Rattle.cf_flat.specs.declared.flat.Out.{Out};

    ghost Value = { List Out };

    ghost view = { λ outs. outs.items.items };
}

impl Outs {
    /// A list without an output.
    pub fn new(alloc: Global) -> Outs
        ensures { result ≡ [] }
    {
        Outs {
            items: Vec::new(alloc),
        }
    }

    /// Puts an output at the end.
    pub fn push(&mut self, item: Out) -> Result<(), NoMemory>
        ensures pushed { OnOk result (self.new ≡ self.old ++ item ∷ []) }
        ensures no_memory { OnErr result (self.new ≡ self.old) }
    {
        self.items.push(item)?;
        Ok(())
    }

    /// The list in order.
    pub fn items(&self) -> &[Out]
        ensures { result.now ≡ self.now }
    {
        self.items.as_slice()
    }
}

/// A list of covers.
#[derive(Drop)]
pub struct Covers {
    items: Vec<Cover>,
}

impl Model for Covers {
    ghost use Rattle.std.specs.Prelude.{List};
    ghost use Rattle.cf_circuits.specs.declared.gates.Cover.{Cover};

    ghost Value = { List Cover };

    ghost view = { λ covers. covers.items.items };
}

impl Covers {
    /// A list without a cover.
    pub fn new(alloc: Global) -> Covers
        ensures { result ≡ [] }
    {
        Covers {
            items: Vec::new(alloc),
        }
    }

    /// Puts a cover at the end.
    pub fn push(&mut self, item: Cover) -> Result<(), NoMemory>
        ensures pushed { OnOk result (self.new ≡ self.old ++ item ∷ []) }
        ensures no_memory { OnErr result (self.new ≡ self.old) }
    {
        self.items.push(item)?;
        Ok(())
    }

    /// The list in order.
    pub fn items(&self) -> &[Cover]
        ensures { result.now ≡ self.now }
    {
        self.items.as_slice()
    }
}
