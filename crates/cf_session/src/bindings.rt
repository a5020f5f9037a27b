//! Names with functions.

ghost use Rattle.std.specs.Prelude.{◌≡◌, ℕ, List, [], length, map, IfOk, OnOk, OnErr, option_map};
ghost use Rattle.std.specs.Str.{bytes_eq};
ghost use Rattle.cf_pkg.specs.declared.Func.{Func};
ghost use Rattle.cf_session.specs.Sessions.{names_of};
ghost use Rattle.cf_model.specs.Renumbering.{AllDiffer};
ghost use Rattle.cf_session.specs.Bindings.{bind, bound_to, place_in};

use cf_names::{NameBook, NoMemory};
use cf_pkg::Func;
use std::alloc::Global;
use std::marker::Model;

/// Names with their functions, in the order in which they were first bound.
#[derive(Drop)]
pub(crate) struct Bindings {
    alloc: Global,
    names: NameBook,
    functions: Vec<Func>,
}

impl Model for Bindings {
    ghost use Rattle.std.specs.Prelude.{◌≡◌, ℕ, List, length};
    ghost use Rattle.std.specs.List.{zip};
    ghost use Rattle.cf_model.specs.Renumbering.{AllDiffer};
    ghost use Rattle.cf_pkg.specs.declared.Func.{Func};

    ghost Value = { List (List ℕ × Func) };

    ghost view = { λ b. zip b.names b.functions.items };

    ghost invariant = { λ b. (length b.names ≡ length b.functions.items) × AllDiffer b.names };
}

/// A book with the same names under the same numbers.
fn copy_names(alloc: Global, names: &NameBook) -> Result<NameBook, NoMemory>
    requires { AllDiffer names.now }
    ensures { IfOk result (λ copy. copy ≡ names.now) }
{
    let mut copy = NameBook::new(alloc);
    for n in 0..names.len() {
        copy.number(names.get(n))?;
    }
    Ok(copy)
}

impl Bindings {
    /// No name.
    pub(crate) fn new(alloc: Global) -> Bindings
        ensures { result ≡ [] }
    {
        Bindings {
            alloc,
            names: NameBook::new(alloc),
            functions: Vec::new(alloc),
        }
    }

    /// How many names are bound.
    pub(crate) fn len(&self) -> usize
        ensures { result ≡ length self.now }
    {
        self.functions.len()
    }

    /// The place of a name.
    pub(crate) fn place(&self, name: &[u8]) -> Option<usize>
        ensures { result ≡ place_in self.now name.now }
    {
        let place = self.names.find(name)?;
        Some(place as usize)
    }

    /// The function of a name.
    pub(crate) fn find(&self, name: &[u8]) -> Option<Func>
        ensures { result ≡ bound_to self.now name.now }
    {
        let place = self.names.find(name)?;
        Some(self.functions[place as usize])
    }

    /// The functions in order.
    pub(crate) fn functions(&self) -> &[Func]
        ensures { result.now ≡ map (λ b. b.1) self.now }
    {
        self.functions.as_slice()
    }

    /// The same names with the same functions.
    pub(crate) fn copy(&self) -> Result<Bindings, NoMemory>
        ensures { IfOk result (λ copy. copy ≡ self.now) }
    {
        Ok(Bindings {
            alloc: self.alloc,
            names: copy_names(self.alloc, &self.names)?,
            functions: Vec::from_slice(self.alloc, self.functions.as_slice())?,
        })
    }

    /// Binds a name. A name that is bound anew keeps its place. Without memory all is as before.
    pub(crate) fn bind(&mut self, name: &[u8], f: Func) -> Result<(), NoMemory>
        ensures bound { OnOk result (self.new ≡ bind self.old name.now f) }
        ensures no_memory { OnErr result (self.new ≡ self.old) }
    {
        if let Some(place) = self.place(name) {
            self.functions[place] = f;
            return Ok(());
        }
        self.functions.reserve(1)?;
        self.names.number(name)?;
        self.functions.push(f)?;
        Ok(())
    }
}
