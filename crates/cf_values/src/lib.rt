// Lists of function values, each kept once and named by a number.
#![tactic(auto)]

ghost use Rattle.std.specs.Prelude.{◌≡◌, ◌<◌, ◌↔◌, [], All, length, slice_get, Some, IsTrue, IfOk, IfSome, OnErr};
ghost use Rattle.cf_model.specs.Renumbering.{AllDiffer};
ghost use Rattle.cf_values.specs.Books.{IsInterned, IsValueList, Lengthens};

use indexmap::IndexSet;
use std::alloc::{AllocError, Global};
use std::marker::Model;

/// There was no memory.
pub type NoMemory = AllocError;

/// The id of a list of values in a book.
#[derive(Clone, Copy, Debug, PartialEq, Eq, Hash)]
pub struct Vid {
    pub at: u64,
}

/// Lists of different values, each kept once. The book only grows, and an id keeps its list.
#[derive(Drop)]
pub struct ValueBook {
    lists: IndexSet<Vec<i128>>,
}

impl Model for ValueBook {
    ghost use Rattle.std.specs.Prelude.{List, ℤ};
    ghost use Rattle.cf_values.specs.Books.{items_of, IsBook};

    ghost Value = { List (List ℤ) };

    ghost view = { λ book. items_of book.lists.keys };

    ghost invariant = { λ book. IsBook (items_of book.lists.keys) };
}

impl ValueBook {
    /// A book without a list.
    pub fn new(alloc: Global) -> ValueBook
        ensures { result ≡ [] }
    {
        ValueBook {
            lists: IndexSet::new(alloc),
        }
    }

    fn find(&self, list: &[i128]) -> Option<usize>
        ensures { IfSome result (λ i. slice_get self.now i ≡ Some list.now) }
    {
        self.lists.get_index_of(list)
    }

    /// The id of the list of values, which is added if the book hasn't it.
    pub fn intern(&mut self, list: &[i128]) -> Result<Vid, NoMemory>
        requires some { 0 < length list.now }
        requires differ { AllDiffer list.now }
        ensures interned { IfOk result (λ v. IsInterned self.old self.new list.now v.at) }
        ensures kept { Lengthens self.old self.new }
        ensures once { AllDiffer self.new }
        ensures no_memory { OnErr result (self.new ≡ self.old) }
    {
        if let Some(i) = self.find(list) {
            return Ok(Vid { at: i as u64 });
        }
        let copy = Vec::from_slice(*self.lists.allocator(), list)?;
        let (at, _) = self.lists.insert_full(copy)?;
        Ok(Vid { at: at as u64 })
    }

    /// Whether the book has the id.
    pub fn owns(&self, v: Vid) -> bool
        ensures { IsTrue result ↔ (v.at < length self.now) }
    {
        v.at < self.lists.len() as u64
    }

    /// The list of an id: different values, at least one, and those of no other id.
    pub fn get(&self, v: Vid) -> &[i128]
        requires { v.at < length self.now }
        ensures list { slice_get self.now v.at ≡ Some result.now }
        ensures some { 0 < length result.now }
        ensures differ { AllDiffer result.now }
        ensures once { AllDiffer self.now }
        ensures each { All IsValueList self.now }
    {
        self.lists[v.at as usize].as_slice()
    }
}
