//! The blocks of a hierarchy: what drives each signal, and the calls.

ghost use Rattle.std.specs.Prelude.{◌≡◌, [], ◌∷◌, ◌++◌, length, OnOk, OnErr};

use crate::{Gate, NoMemory};
use cf_order::Wires;
use std::alloc::Global;
use std::marker::Model;

/// Where a block's signal has its value from: an input of the block, a gate, or a signal of a block
/// that it calls.
#[derive(Drop)]
pub enum Driver {
    Formal(u64),
    Made(Gate),
    Back { call: u64, formal: u64 },
}

/// A call of a block: the signals that drive its inputs.
#[derive(Drop)]
pub struct Call {
    pub block: u64,
    pub actuals: Wires,
}

/// The drivers of a block's signals, and its calls.
#[derive(Drop)]
pub struct Block {
    pub drivers: Drivers,
    pub calls: Calls,
}

/// A list of drivers.
#[derive(Drop)]
pub struct Drivers {
    items: Vec<Driver>,
}

impl Model for Drivers {
    ghost use Rattle.std.specs.Prelude.{List};
    ghost use Rattle.cf_hierarchy.specs.declared.blocks.Driver.{Driver};

    ghost Value = { List Driver };

    ghost view = { λ drivers. drivers.items.items };
}

impl Drivers {
    /// A list without a driver.
    pub fn new(alloc: Global) -> Drivers
        ensures { result ≡ [] }
    {
        Drivers {
            items: Vec::new(alloc),
        }
    }

    /// Puts a driver at the end.
    pub fn push(&mut self, item: Driver) -> Result<(), NoMemory>
        ensures pushed { OnOk result (self.new ≡ self.old ++ item ∷ []) }
        ensures no_memory { OnErr result (self.new ≡ self.old) }
    {
        self.items.push(item)?;
        Ok(())
    }

    /// The drivers in order.
    pub fn items(&self) -> &[Driver]
        ensures { result.now ≡ self.now }
    {
        self.items.as_slice()
    }
}

/// A list of calls.
#[derive(Drop)]
pub struct Calls {
    items: Vec<Call>,
}

impl Model for Calls {
    ghost use Rattle.std.specs.Prelude.{List};
    ghost use Rattle.cf_hierarchy.specs.declared.blocks.Call.{Call};

    ghost Value = { List Call };

    ghost view = { λ calls. calls.items.items };
}

impl Calls {
    /// A list without a call.
    pub fn new(alloc: Global) -> Calls
        ensures { result ≡ [] }
    {
        Calls {
            items: Vec::new(alloc),
        }
    }

    /// Puts a call at the end.
    pub fn push(&mut self, item: Call) -> Result<(), NoMemory>
        ensures pushed { OnOk result (self.new ≡ self.old ++ item ∷ []) }
        ensures no_memory { OnErr result (self.new ≡ self.old) }
    {
        self.items.push(item)?;
        Ok(())
    }

    /// The calls in order.
    pub fn items(&self) -> &[Call]
        ensures { result.now ≡ self.now }
    {
        self.items.as_slice()
    }
}
