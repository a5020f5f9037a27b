//! Sums of exit pairs, each kept once and named by a number.
#![tactic(auto)]

pub mod laws;
mod merging;
mod terms;
mod weights;

ghost use Rattle.std.specs.Prelude.{◌≡◌, ◌<◌, ◌≤◌, ◌+◌, ◌*◌, ◌^◌, ◌↔◌, [], All, length, IsTrue, OnErr};
ghost use Rattle.cf_model.specs.Renumbering.{AllDiffer};
ghost use Rattle.cf_model.specs.PairSums.{IsPairSum, total, single, added, scaled, relabelled, weight};
ghost use Rattle.cf_tuple.specs.Books.{Lengthens};
ghost use Rattle.cf_comb.specs.CombBooks.{sum_of, OwnsSum, Interns, PairsBelow, IsId, id_key, id_keys_differ};

use cf_build::Label;
use cf_tuple::NoMemory;
use indexmap::IndexSet;
use merging::{gathered, merged};
use std::alloc::Global;
use std::marker::Model;
use terms::{Term, moved_terms, scaled_terms};
use weights::weight_of;

/// The id of a sum in a book.
#[derive(Clone, Copy, Debug, PartialEq, Eq)]
pub struct CombId {
    pub at: u64,
}

impl Label for CombId {
    ghost is_label = { IsId };

    ghost key_of = { id_key };

    ghost apart = { id_keys_differ };

    fn key(self) -> [u64; 3] {
        [self.at, 0, 0]
    }
}

/// Sums, each kept once. The book only grows, and an id keeps its sum.
#[derive(Drop)]
pub struct CombBook {
    alloc: Global,
    sums: IndexSet<Vec<((u64, u64), u128)>>,
}

impl Model for CombBook {
    ghost use Rattle.std.specs.Prelude.{List};
    ghost use Rattle.cf_model.specs.PairSums.{PairSum};
    ghost use Rattle.cf_tuple.specs.Books.{items_of};
    ghost use Rattle.cf_comb.specs.CombBooks.{IsBook};

    ghost Value = { List PairSum };

    ghost view = { λ book. items_of book.sums.keys };

    ghost invariant = { λ book. IsBook (items_of book.sums.keys) };
}

impl CombBook {
    /// A book without a sum.
    pub fn new(alloc: Global) -> CombBook
        ensures { result ≡ [] }
    {
        CombBook {
            alloc,
            sums: IndexSet::new(alloc),
        }
    }

    /// No sum stands twice in the book, and each is a sum. It does nothing.
    pub fn law(&self)
        ensures once { AllDiffer self.now }
        ensures each { All IsPairSum self.now }
    {
        let _ = &self.sums;
    }

    /// Whether the book has the id.
    pub fn owns(&self, a: CombId) -> bool
        ensures { IsTrue result ↔ OwnsSum self.now a }
    {
        a.at < self.sums.len() as u64
    }

    /// The sum of an id.
    pub fn get(&self, a: CombId) -> &[((u64, u64), u128)]
        requires { OwnsSum self.now a }
        ensures sum { result.now ≡ sum_of self.now a }
        ensures is_sum { IsPairSum result.now }
    {
        self.sums[a.at as usize].as_slice()
    }

    fn intern(&mut self, sum: Vec<((u64, u64), u128)>) -> Result<CombId, NoMemory>
        requires { IsPairSum sum.items }
        ensures interned { Interns self.old self.new result sum.items }
        ensures kept { Lengthens self.old self.new }
        ensures no_memory { OnErr result (self.new ≡ self.old) }
    {
        let (at, _) = self.sums.insert_full(sum)?;
        Ok(CombId { at: at as u64 })
    }

    /// The one pair, once.
    pub fn single(&mut self, p: u64, q: u64) -> Result<CombId, NoMemory>
        ensures interned { Interns self.old self.new result (single p q) }
        ensures kept { Lengthens self.old self.new }
        ensures no_memory { OnErr result (self.new ≡ self.old) }
    {
        let mut sum = Vec::new(self.alloc);
        sum.push(((p, q), 1))?;
        self.intern(sum)
    }

    /// The sum of two sums.
    pub fn add(&mut self, a: CombId, b: CombId) -> Result<CombId, NoMemory>
        requires first { OwnsSum self.old a }
        requires second { OwnsSum self.old b }
        requires bounded { total (sum_of self.old a) + total (sum_of self.old b) ≤ 2 ^ 127 }
        ensures interned { Interns self.old self.new result
            (added (sum_of self.old a) (sum_of self.old b)) }
        ensures kept { Lengthens self.old self.new }
        ensures no_memory { OnErr result (self.new ≡ self.old) }
    {
        let sum = merged(self.alloc, self.get(a), self.get(b))?;
        self.intern(sum)
    }

    /// Each coefficient times k.
    pub fn scale(&mut self, a: CombId, k: u128) -> Result<CombId, NoMemory>
        requires owned { OwnsSum self.old a }
        requires positive { 1 ≤ k }
        requires bounded { k * total (sum_of self.old a) ≤ 2 ^ 127 }
        ensures interned { Interns self.old self.new result (scaled k (sum_of self.old a)) }
        ensures kept { Lengthens self.old self.new }
        ensures no_memory { OnErr result (self.new ≡ self.old) }
    {
        let sum = scaled_terms(self.alloc, k, self.get(a))?;
        self.intern(sum)
    }

    /// Each pair (p, q) replaced by (ps[p], qs[q]), where coefficients of equal pairs add.
    pub fn relabel(&mut self, a: CombId, ps: &[u64], qs: &[u64]) -> Result<CombId, NoMemory>
        requires owned { OwnsSum self.old a }
        requires bounded { total (sum_of self.old a) ≤ 2 ^ 127 }
        requires within { PairsBelow (length ps.now) (length qs.now) (sum_of self.old a) }
        ensures interned { Interns self.old self.new result
            (relabelled ps.now qs.now (sum_of self.old a)) }
        ensures kept { Lengthens self.old self.new }
        ensures no_memory { OnErr result (self.new ≡ self.old) }
    {
        let moved = moved_terms(self.alloc, ps, qs, self.get(a))?;
        let sum = gathered(self.alloc, moved.as_slice())?;
        self.intern(sum)
    }

    /// The sum of coefficient times v[p] times w[q] over the pairs (p, q), and None exactly where the
    /// absolute values of these terms add to more than 2^127 - 1. It takes no memory.
    pub fn weigh(&self, a: CombId, v: &[i128], w: &[i128]) -> Option<i128>
        requires owned { OwnsSum self.now a }
        requires within { PairsBelow (length v.now) (length w.now) (sum_of self.now a) }
        ensures { result ≡ weight v.now w.now (sum_of self.now a) }
    {
        weight_of(self.get(a), v, w)
    }
}
