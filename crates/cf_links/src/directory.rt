//! The models of a netlist by their names.

ghost use Rattle.std.specs.Prelude.{◌≡◌, ◌<◌, false, length, slice_index_or, IfOk, IfSome, MatchOption};
ghost use Rattle.cf_model.specs.Renumbering.{AllDiffer};
ghost use Rattle.cf_circuits.specs.Links.{is_among, names_of, no_model, callee as callee_of, is_input as input_of, is_output as output_of};
ghost use Rattle.cf_links.specs.Directories.{HaveSame, Lists, ListsEach, IsPlace, model_at};

use crate::NoMemory;
use cf_circuits::models::ModelDef;
use cf_circuits::pins::Call;
use cf_names::{Name, NameBook};
use std::alloc::Global;
use std::marker::Model;

/// The formals of a model.
#[derive(Drop)]
pub struct Listed {
    pub inputs: NameBook,
    pub outputs: NameBook,
}

/// The models of a netlist, found by their names, with their inputs and outputs.
#[derive(Drop)]
pub struct Directory<'a> {
    models: &'a [ModelDef],
    names: NameBook,
    formals: Vec<Listed>,
}

impl<'a> Model for Directory<'a> {
    ghost use Rattle.std.specs.Prelude.{◌≡◌, List};
    ghost use Rattle.cf_circuits.specs.declared.models.ModelDef.{ModelDef};
    ghost use Rattle.cf_circuits.specs.Links.{names_of};
    ghost use Rattle.cf_links.specs.Directories.{ListsEach};

    ghost Value = { List ModelDef };

    ghost view = { λ d. d.models.now };

    ghost invariant = { λ d.
        (d.names ≡ names_of d.models.now) × ListsEach d.models.now d.formals.items };
}

impl<'a> Directory<'a> {
    /// The directory of models whose names differ.
    pub fn new(alloc: Global, models: &'a [ModelDef]) -> Result<Directory<'a>, NoMemory>
        requires { AllDiffer (names_of models.now) }
        ensures { IfOk result (λ d. d ≡ models.now) }
    {
        Ok(Directory {
            models,
            names: names_book(alloc, models)?,
            formals: formals_of(alloc, models)?,
        })
    }

    /// The models in order.
    pub fn models(&self) -> &'a [ModelDef]
        ensures { result.now ≡ self.now }
    {
        self.models
    }

    /// The place of the model with a name.
    pub fn place(&self, name: &[u8]) -> Option<usize>
        ensures { MatchOption result
            (is_among (names_of self.now) name.now ≡ false)
            (IsPlace self.now name.now) }
    {
        let place = self.names.find(name)?;
        Some(place as usize)
    }

    /// The place of the model that a call calls, if it is there.
    pub fn callee(&self, call: &Call) -> Option<usize>
        ensures within { IfSome result (λ at. at < length self.now) }
        ensures model { model_at self.now result ≡ callee_of self.now call.now }
    {
        self.place(call.model.bytes())
    }

    /// Whether the model at a place has an input with a name.
    pub fn is_input(&self, model: usize, name: &[u8]) -> bool
        requires { model < length self.now }
        ensures { result ≡ input_of (slice_index_or self.now model no_model) name.now }
    {
        self.formals[model].inputs.find(name).is_some()
    }

    /// Whether the model at a place has an output with a name that isn't an input too.
    pub fn is_output(&self, model: usize, name: &[u8]) -> bool
        requires { model < length self.now }
        ensures { result ≡ output_of (slice_index_or self.now model no_model) name.now }
    {
        let listed = &self.formals[model];
        listed.inputs.find(name).is_none() && listed.outputs.find(name).is_some()
    }
}

/// The names of models, numbered by their places.
fn names_book(alloc: Global, models: &[ModelDef]) -> Result<NameBook, NoMemory>
    requires { AllDiffer (names_of models.now) }
    ensures { IfOk result (λ book. book ≡ names_of models.now) }
{
    let mut book = NameBook::new(alloc);
    for model in models {
        book.number(model.name.bytes())?;
    }
    Ok(book)
}

/// The formals of models, by their places.
fn formals_of(alloc: Global, models: &[ModelDef]) -> Result<Vec<Listed>, NoMemory>
    ensures { IfOk result (λ all. ListsEach models.now all.items) }
{
    let mut all = Vec::new(alloc);
    for model in models {
        all.push(list_formals(alloc, model)?)?;
    }
    Ok(all)
}

/// The formals of a model.
fn list_formals(alloc: Global, model: &ModelDef) -> Result<Listed, NoMemory>
    ensures { IfOk result (Lists model.now) }
{
    Ok(Listed {
        inputs: book_of(alloc, model.inputs.items())?,
        outputs: book_of(alloc, model.outputs.items())?,
    })
}

/// A book of names, some of which may be equal.
fn book_of(alloc: Global, names: &[Name]) -> Result<NameBook, NoMemory>
    ensures { IfOk result (λ book. HaveSame book names.now) }
{
    let mut book = NameBook::new(alloc);
    for name in names {
        book.number(name.bytes())?;
    }
    Ok(book)
}
