// Return tuples, each kept once and named by a number, and the lists that they are made from.
#![tactic(auto)]

pub mod lists;

ghost use Rattle.std.specs.Prelude.{◌≡◌, ◌<◌, ◌↔◌, [], length, slice_get, Some, IsTrue, IfOk, IfSome, OnErr};
ghost use Rattle.cf_model.specs.Renumbering.{AllDiffer};
ghost use Rattle.cf_tuple.specs.Books.{small_list, IsInterned, Lengthens};

use indexmap::IndexSet;
pub use lists::{compose, distinct_of, rgs_of};
use smallvec::SmallVec;
use std::alloc::{AllocError, Global};
use std::marker::Model;

/// There was no memory.
pub type NoMemory = AllocError;

/// The id of a list in a book.
#[derive(Clone, Copy, Debug, Default, PartialEq, Eq, Hash)]
pub struct Tid {
    pub at: u64,
}

/// How many entries of a list lie in the book itself. A longer list has an allocation of its own.
const INLINE: usize = 8;

/// How many places there are for small lists.
const SMALL: usize = 512;

/// What stands at the place of a small list that has no id.
const NO_ID: u64 = u64::MAX;

/// The place of a list of one entry below 256, or of two entries below 16.
fn small_place(list: &[u64]) -> Option<usize>
    ensures { IfSome result (λ i. (i < 512) × (small_list i ≡ list.now)) }
{
    match *list {
        [entry] if entry < 256 => Some(entry as usize),
        [first, second] if first < 16 && second < 16 => {
            Some(256 + 16 * first as usize + second as usize)
        }
        _ => None,
    }
}

/// Lists of numbers, each kept once. The book only grows, and an id keeps its list.
#[derive(Drop)]
pub struct TupleBook {
    lists: IndexSet<SmallVec<u64, 8>>,
    /// Room for the longer list that is looked up.
    sought: SmallVec<u64, 8>,
    /// The ids of small lists, each at its place, or `NO_ID` where the book hasn't the list yet. It is empty until
    /// the first of them is added.
    small: Vec<u64>,
}

impl Model for TupleBook {
    ghost use Rattle.std.specs.Prelude.{List, ℕ};
    ghost use Rattle.cf_model.specs.Renumbering.{AllDiffer};
    ghost use Rattle.cf_tuple.specs.Books.{lists_of, IsNotedSmall};

    ghost Value = { List (List ℕ) };

    ghost view = { λ book. lists_of book.lists.keys };

    ghost invariant = { λ book. record {
      differ : AllDiffer (lists_of book.lists.keys);
      small : IsNotedSmall (lists_of book.lists.keys) book.small.items;
    } };
}

impl TupleBook {
    /// A book without a list.
    pub fn new(alloc: Global) -> TupleBook
        ensures { result ≡ [] }
    {
        TupleBook {
            lists: IndexSet::new(alloc),
            sought: SmallVec::new(alloc),
            small: Vec::new(alloc),
        }
    }

    /// The place of a list of any length, if the book has it. It takes memory only for a list that is longer than
    /// each that was looked up so.
    fn place_of(&mut self, list: &[u64]) -> Result<Option<usize>, NoMemory>
        ensures there { IfOk result (λ o. IfSome o (λ i. slice_get self.old i ≡ Some list.now)) }
        ensures same { self.new ≡ self.old }
        ensures differ { AllDiffer self.new }
    {
        self.sought.clear();
        self.sought.extend_from_slice(list)?;
        Ok(self.lists.get_index_of(&self.sought))
    }

    fn note(&mut self, list: &[u64]) -> Result<Tid, NoMemory>
        ensures interned { IfOk result (λ t. IsInterned self.old self.new list.now t.at) }
        ensures kept { Lengthens self.old self.new }
        ensures differ { AllDiffer self.new }
        ensures no_memory { OnErr result (self.new ≡ self.old) }
    {
        let list = SmallVec::from_slice(*self.lists.allocator(), list)?;
        let (at, _) = self.lists.insert_full(list)?;
        Ok(Tid { at: at as u64 })
    }

    /// The id of a small list, if it is known.
    fn known(&self, place: usize) -> Option<Tid>
        ensures found { IfSome result (λ t. slice_get self.now t.at ≡ Some (small_list place)) }
        ensures differ { AllDiffer self.now }
    {
        if place < self.small.len() && self.small[place] != NO_ID {
            Some(Tid {
                at: self.small[place],
            })
        } else {
            None
        }
    }

    /// Makes the places of small lists, if there are none yet.
    fn make_places(&mut self) -> Result<(), NoMemory>
        ensures same { self.new ≡ self.old }
        ensures differ { AllDiffer self.new }
    {
        if self.small.is_empty() {
            self.small.resize(SMALL, NO_ID)?;
        }
        Ok(())
    }

    /// Keeps the id of a small list.
    fn keep_small(&mut self, place: usize, t: Tid)
        requires { slice_get self.old t.at ≡ Some (small_list place) }
        ensures same { self.new ≡ self.old }
        ensures differ { AllDiffer self.new }
    {
        if place < self.small.len() {
            self.small[place] = t.at;
        }
    }

    /// The id of a small list, which is added if the book hasn't it.
    fn intern_small(&mut self, place: usize, list: &[u64]) -> Result<Tid, NoMemory>
        requires { small_list place ≡ list.now }
        ensures interned { IfOk result (λ t. IsInterned self.old self.new list.now t.at) }
        ensures kept { Lengthens self.old self.new }
        ensures differ { AllDiffer self.new }
        ensures no_memory { OnErr result (self.new ≡ self.old) }
    {
        if let Some(t) = self.known(place) {
            return Ok(t);
        }
        self.make_places()?;
        let t = self.note(list)?;
        self.keep_small(place, t);
        Ok(t)
    }

    /// The id of the list, which is added if the book hasn't it.
    pub fn intern(&mut self, list: &[u64]) -> Result<Tid, NoMemory>
        ensures interned { IfOk result (λ t. IsInterned self.old self.new list.now t.at) }
        ensures kept { Lengthens self.old self.new }
        ensures differ { AllDiffer self.new }
        ensures no_memory { OnErr result (self.new ≡ self.old) }
    {
        if let Some(place) = small_place(list) {
            return self.intern_small(place, list);
        }
        if list.len() <= INLINE {
            return self.note(list);
        }
        match self.place_of(list)? {
            Some(at) => Ok(Tid { at: at as u64 }),
            None => self.note(list),
        }
    }

    /// Whether the book has the id.
    pub fn owns(&self, t: Tid) -> bool
        ensures { IsTrue result ↔ (t.at < length self.now) }
    {
        t.at < self.lists.len() as u64
    }

    /// The list of an id.
    pub fn get(&self, t: Tid) -> &[u64]
        requires { t.at < length self.now }
        ensures { slice_get self.now t.at ≡ Some result.now }
    {
        self.lists[t.at as usize].as_slice()
    }
}
