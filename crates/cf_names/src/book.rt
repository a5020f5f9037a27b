ghost use Rattle.std.specs.Prelude.{◌≡◌, ℕ, ◌<◌, ◌↔◌, List, [], length, slice_get, Some, IsNone, IfSome, IfOk, OnOk, OnErr};
ghost use Rattle.std.specs.Str.{bytes_eq};
ghost use Rattle.cf_model.specs.Renumbering.{AllDiffer, IsNew, note, place};
ghost use Rattle.cf_names.specs.Numbers.{number_of, NumbersNext};

use super::NoMemory;
use indexmap::IndexSet;
use std::alloc::Global;
use std::marker::Model;

/// Names, each kept once and numbered from 0 by its first appearance. The book only grows, and a
/// name keeps its number.
#[derive(Drop)]
pub struct NameBook {
    names: IndexSet<Vec<u8>>,
    alloc: Global,
}

impl Model for NameBook {
    ghost use Rattle.std.specs.Prelude.{List, ℕ};
    ghost use Rattle.cf_model.specs.Renumbering.{AllDiffer};
    ghost use Rattle.cf_names.specs.Keys.{names_of};

    ghost Value = { List (List ℕ) };

    ghost view = { λ book. names_of book.names.keys };

    ghost invariant = { λ book. AllDiffer (names_of book.names.keys) };
}

impl NameBook {
    /// A book without a name.
    pub fn new(alloc: Global) -> NameBook
        ensures { result ≡ [] }
    {
        NameBook {
            names: IndexSet::new(alloc),
            alloc,
        }
    }

    /// The number of a name, which is added if the book hasn't it.
    pub fn number(&mut self, name: &[u8]) -> Result<u64, NoMemory>
        ensures number { IfOk result (λ n. n ≡ place bytes_eq self.old name.now) }
        ensures noted { OnOk result (self.new ≡ note bytes_eq self.old name.now) }
        ensures by_first_appearance { IfOk result (λ n. NumbersNext self.old self.new name.now n) }
        ensures stands { IfOk result (λ n. slice_get self.new n ≡ Some name.now) }
        ensures kept { (i : ℕ) → i < length self.old → slice_get self.new i ≡ slice_get self.old i }
        ensures differ { AllDiffer self.new }
        ensures no_memory { OnErr result (self.new ≡ self.old) }
    {
        if let Some(n) = self.find(name) {
            return Ok(n);
        }
        let n = self.len();
        let owned = Vec::from_slice(self.alloc, name)?;
        self.names.insert(owned)?;
        Ok(n)
    }

    /// The number of a name; None exactly where the book hasn't the name.
    pub fn find(&self, name: &[u8]) -> Option<u64>
        ensures number { result ≡ number_of self.now name.now }
        ensures found { IfSome result (λ n. slice_get self.now n ≡ Some name.now) }
        ensures missing { IsNone result ↔ IsNew self.now name.now }
    {
        let index = self.names.get_index_of(name)?;
        Some(index as u64)
    }

    /// The name of a number.
    pub fn get(&self, n: u64) -> &[u8]
        requires { n < length self.now }
        ensures { slice_get self.now n ≡ Some result.now }
    {
        match self.names.get_index(n as usize) {
            Some(name) => name.as_slice(),
            None => &[],
        }
    }

    /// How many names the book has.
    pub fn len(&self) -> u64
        ensures { result ≡ length self.now }
    {
        self.names.len() as u64
    }
}
