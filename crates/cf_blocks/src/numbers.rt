//! The models of a netlist with their signals numbered.

ghost use Rattle.std.specs.Prelude.{◌≡◌, ◌<◌, false, length, map, slice_index_or, IfOk, IfSome, MatchOption};
ghost use Rattle.cf_circuits.specs.Links.{is_among, no_model, callee as callee_of, is_output as output_of, names_of};
ghost use Rattle.cf_links.specs.Directories.{IsPlace, model_at};
ghost use Rattle.cf_model.specs.Renumbering.{AllDiffer};
ghost use Rattle.cf_blocks.specs.Numbering.{number as number_of};
ghost use Rattle.cf_blocks.specs.Once.{DriveOnce};

use crate::NoMemory;
use crate::books::{books_of, number_in};
use cf_circuits::models::ModelDef;
use cf_circuits::pins::Call;
use cf_links::directory::Directory;
use cf_names::{Name, NameBook};
use cf_order::Wires;
use std::alloc::Global;
use std::marker::Model;

/// The models of a netlist, found by their names, and their signals, numbered by their places.
#[derive(Drop)]
pub(crate) struct Numbers<'a> {
    directory: Directory<'a>,
    books: Vec<NameBook>,
}

impl<'a> Model for Numbers<'a> {
    ghost use Rattle.std.specs.Prelude.{◌≡◌, List, map};
    ghost use Rattle.cf_circuits.specs.declared.models.ModelDef.{ModelDef};
    ghost use Rattle.cf_circuits.specs.Expansions.{signals};

    ghost Value = { List ModelDef };

    ghost view = { λ n. n.directory };

    ghost invariant = { λ n. n.books.items ≡ map (signals n.directory) n.directory };
}

impl<'a> Numbers<'a> {
    /// The numbers of the signals of models whose names differ and none of which drives a signal
    /// twice.
    pub fn new(alloc: Global, models: &'a [ModelDef]) -> Result<Numbers<'a>, NoMemory>
        requires differ { AllDiffer (names_of models.now) }
        requires once { DriveOnce models.now }
        ensures { IfOk result (λ numbers. numbers ≡ models.now) }
    {
        let directory = Directory::new(alloc, models)?;
        let books = books_of(alloc, &directory)?;
        Ok(Numbers { directory, books })
    }

    /// The models in order.
    pub fn models(&self) -> &'a [ModelDef]
        ensures { result.now ≡ self.now }
    {
        self.directory.models()
    }

    /// The place of the model with a name.
    pub fn place(&self, name: &[u8]) -> Option<usize>
        ensures { MatchOption result
            (is_among (names_of self.now) name.now ≡ false)
            (IsPlace self.now name.now) }
    {
        self.directory.place(name)
    }

    /// The place of the model that a call calls, if it is there.
    pub fn callee(&self, call: &Call) -> Option<usize>
        ensures within { IfSome result (λ at. at < length self.now) }
        ensures model { model_at self.now result ≡ callee_of self.now call.now }
    {
        self.directory.callee(call)
    }

    /// Whether the model at a place has an output with a name that isn't an input too.
    pub fn is_output(&self, model: usize, name: &[u8]) -> bool
        requires { model < length self.now }
        ensures { result ≡ output_of (slice_index_or self.now model no_model) name.now }
    {
        self.directory.is_output(model, name)
    }

    /// The number of a signal of the model at a place.
    pub fn number(&self, model: usize, name: &[u8]) -> u64
        requires { model < length self.now }
        ensures { result
            ≡ number_of self.now (slice_index_or self.now model no_model) name.now }
    {
        number_in(&self.books[model], name)
    }

    /// The numbers of signals of the model at a place.
    pub fn number_all(&self, alloc: Global, model: usize, names: &[Name]) -> Result<Wires, NoMemory>
        requires { model < length self.now }
        ensures { IfOk result (λ wires. wires
            ≡ map (number_of self.now (slice_index_or self.now model no_model)) names.now) }
    {
        let mut wires = Vec::with_capacity(alloc, names.len())?;
        for name in names {
            wires.push(self.number(model, name.bytes()))?;
        }
        Ok(Wires::of(wires))
    }
}
