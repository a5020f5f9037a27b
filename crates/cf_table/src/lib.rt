// Groupings of eight levels, each kept once, and canonicity: equal patterns have one id.
#![tactic(auto)]

mod goodness;
pub mod laws;
mod level;
pub mod steps;

ghost use Rattle.std.specs.Prelude.{◌≡◌, ◌<◌, ◌≤◌, ◌+◌, ◌*◌, ◌%◌, ◌^◌, ◌↔◌, ◌⊎◌, [], ◌∷◌, ◌++◌, All, length, map, slice_get, slice_index_or, Some, IsTrue, IfOk, IfSome, OnOk, OnErr, MatchOption};
ghost use Rattle.std.proofs.Common.{rules};
ghost use Rattle.std.specs.Hash as fed;
ghost use Rattle.std.specs.Cmp.Rules.{hashing};
ghost use Rattle.cf_model.specs.Renumbering.{AllDiffer, IsNew};
ghost use Rattle.cf_model.specs.Diagrams.{connection_at, count, node, IsGood, Extends};
ghost use Rattle.cf_tuple.specs.Books.{IsInterned as IsInternedTuple, Lengthens};
ghost use Rattle.cf_table.specs.Groupings.{
  only_base,
  Owns,
  OwnsTuple,
  tuple_of,
  node_of,
  pattern_of,
  patterns_of,
  three_patterns_of,
  IsProduct,
  IsProductOf,
  IsReduction,
  exits_of,
  connection_of,
  node_with,
  exits_with,
  IsInternable,
  IsInterned,
  KeepsPatterns,
  IsFirstOf,
};
ghost use Rattle.cf_table.specs.Triples.{IsTriple, IsTripleOf};
ghost use Rattle.cf_table.specs.Kept.{kept_of, shown_node, shown_levels, IsKept, IsEnteredAt, Holds};

use cf_tuple::{NoMemory, Tid, TupleBook};
use indexmap::IndexMap;
use level::{Level, PackedNode};
use smallvec::SmallVec;
use std::alloc::{AllocError, Global};
use std::hash::{Hash, Hasher};
use std::marker::Model;
use std::sync::ledger::Ledger;
use steps::Steps;

/// The id of a grouping: its level, from 0 to 7, and its place there.
#[derive(Clone, Copy, Debug, Default, PartialEq, Eq)]
pub struct Gid {
    pub level: u8,
    pub at: u64,
}

impl Hash for Gid {
    ghost hash_input = { λ g. fed.u64 ((g.at * 8 % 2 ^ 64 + g.level) % 2 ^ 64) };

    ghost respects_eq = { Prim.search (hashing, rules) };

    /// The two numbers go in as one.
    fn hash<H: Hasher>(&self, state: &mut H) {
        state.write_u64(self.at.wrapping_mul(8).wrapping_add(self.level as u64));
    }
}

/// A B-connection: the callee, and the return tuple, which has for each exit of the callee the
/// exit of the outer grouping.
#[derive(Clone, Copy, Debug, Default, PartialEq, Eq, Hash)]
pub struct BConn {
    pub to: Gid,
    pub ret: Tid,
}

/// The grouping of level 0 with one exit.
pub const DONT_CARE: Gid = Gid { level: 0, at: 0 };

/// The grouping of level 0 with exit 0 for bit 0 and exit 1 for bit 1.
pub const FORK: Gid = Gid { level: 0, at: 1 };

/// The groupings of a pair product.
#[derive(Clone, Copy, Debug, PartialEq, Eq, Hash)]
struct Operands {
    left: Gid,
    right: Gid,
}

/// A pair product as it is kept: its grouping, and the different pairs of exits in order of first
/// appearance.
#[derive(Drop)]
pub struct Product {
    pub head: Gid,
    pub pairs: Vec<(u64, u64)>,
}

/// The groupings of a triple product.
#[derive(Clone, Copy, Debug, PartialEq, Eq, Hash)]
struct ThreeOperands {
    first: Gid,
    second: Gid,
    third: Gid,
}

/// A triple product as it is kept: its grouping, and the different triples of exits in order of first
/// appearance.
#[derive(Drop)]
pub struct TripleProduct {
    pub head: Gid,
    pub triples: Vec<(u64, u64, u64)>,
}

/// A grouping and a class for each of its exits, by which a reduction is kept. Up to eight classes
/// stand in the value.
#[derive(Debug, PartialEq, Eq, Hash, Drop)]
pub struct Classed {
    pub grouping: Gid,
    pub classes: SmallVec<u64, 8>,
}

impl Classed {
    /// A grouping and its classes, which are copied.
    pub fn new(alloc: Global, grouping: Gid, classes: &[u64]) -> Result<Classed, NoMemory>
        ensures grouping { IfOk result (λ c. c.grouping ≡ grouping) }
        ensures classes { IfOk result (λ c. c.classes.items ≡ classes.now) }
    {
        let classes = SmallVec::from_slice(alloc, classes)?;
        Ok(Classed { grouping, classes })
    }
}

/// The groupings of eight levels, their return tuples, and memos of products and reductions. It is
/// always good, and but for the memos it only grows.
#[derive(Drop)]
pub struct Table {
    levels: [Level; 7],
    book: TupleBook,
    products: IndexMap<Operands, Product>,
    triples: IndexMap<ThreeOperands, TripleProduct>,
    reductions: IndexMap<Classed, Gid>,
}

impl Model for Table {
    ghost use Rattle.cf_table.specs.Groupings.{Groupings};
    ghost use Rattle.cf_table.specs.Kept.{shown, HoldsAll};

    ghost Value = { Groupings };

    ghost view = { λ table.
        shown table.levels table.book table.products.entries table.triples.entries };

    ghost invariant = { λ table. HoldsAll table.levels table.book
        table.products.entries table.triples.entries table.reductions.entries };
}

/// The place of a grouping in its level, which is added if the level hasn't it.
fn enter(
    levels: &mut [Level],
    at: usize,
    node: PackedNode,
    book: &TupleBook,
    bs: &[BConn],
) -> Result<usize, NoMemory>
    requires level { at < length levels.old }
    requires connections { All (λ b. b.ret.at < length book.now) bs.now }
    ensures entered { let k = kept_of (node, exits_with book.now bs.now) in
        IfOk result (λ place. IsEnteredAt levels.old levels.new at k place) }
    ensures no_memory { OnErr result (levels.new ≡ levels.old) }
{
    levels[at].enter(node, book, bs)
}

/// Seven levels without a grouping.
fn no_groupings(alloc: Global) -> [Level; 7]
    ensures holds { Holds result [] }
    ensures base { shown_levels result [] ≡ only_base.levels }
{
    [
        Level::new(alloc),
        Level::new(alloc),
        Level::new(alloc),
        Level::new(alloc),
        Level::new(alloc),
        Level::new(alloc),
        Level::new(alloc),
    ]
}

impl Table {
    /// A table with the two groupings of level 0.
    pub fn new(alloc: Global) -> Result<Table, NoMemory>
        ensures base { IfOk result (λ t. t ≡ only_base) }
        ensures good { IfOk result (λ t. IsGood t.levels) }
    {
        Ok(Table {
            levels: no_groupings(alloc),
            book: TupleBook::new(alloc),
            products: IndexMap::new(alloc),
            triples: IndexMap::new(alloc),
            reductions: IndexMap::new(alloc),
        })
    }

    /// The table is good, its return tuples differ, and it has eight levels. It does nothing.
    pub fn law(&self)
        ensures good { IsGood self.now.levels }
        ensures differ { AllDiffer self.now.tuples }
        ensures eight { length self.now.levels ≡ 8 }
        ensures products_differ { AllDiffer self.now.products }
        ensures triples_differ { AllDiffer self.now.triples }
    {
        let _ = &self.book;
    }

    /// The id of a return tuple, which is added if the table hasn't it.
    pub fn intern_tuple(&mut self, list: &[u64]) -> Result<Tid, NoMemory>
        ensures interned { IfOk result (λ r. IsInternedTuple self.old.tuples self.new.tuples list.now r.at) }
        ensures kept { Lengthens self.old.tuples self.new.tuples }
        ensures levels { self.new.levels ≡ self.old.levels }
        ensures products { self.new.products ≡ self.old.products }
        ensures triples { self.new.triples ≡ self.old.triples }
        ensures no_memory { OnErr result (self.new ≡ self.old) }
    {
        self.book.intern(list)
    }

    /// The return tuple of an id.
    pub fn tuple(&self, t: Tid) -> &[u64]
        requires { OwnsTuple self.now t }
        ensures { result.now ≡ tuple_of self.now.tuples t }
    {
        self.book.get(t)
    }

    /// Whether the table has the return tuple.
    pub fn owns_tuple(&self, t: Tid) -> bool
        ensures { IsTrue result ↔ OwnsTuple self.now t }
    {
        self.book.owns(t)
    }

    /// Whether `intern` may be called with this A-callee and these B-connections.
    pub fn is_internable(&self, a: Gid, bs: &[BConn]) -> bool
        ensures { IsTrue result ↔ IsInternable self.now a bs.now }
    {
        goodness::is_internable(self, a, bs)
    }

    /// The id of the grouping with this A-callee and these B-connections, which is added to its
    /// level if the table hasn't it.
    pub fn intern(&mut self, a: Gid, bs: &[BConn]) -> Result<Gid, NoMemory>
        requires { IsInternable self.old a bs.now }
        ensures level { IfOk result (λ g. g.level ≡ a.level + 1) }
        ensures interned { let n = node_with self.old.tuples a.at bs.now in
            IfOk result (λ g. IsInterned self.old.levels self.new.levels g.level n g.at) }
        ensures good { IsGood self.new.levels }
        ensures kept { Extends self.old.levels self.new.levels }
        ensures patterns { KeepsPatterns self.old.levels self.new.levels }
        ensures tuples { self.new.tuples ≡ self.old.tuples }
        ensures products { self.new.products ≡ self.old.products }
        ensures triples { self.new.triples ≡ self.old.triples }
        ensures no_memory { OnErr result (self.new ≡ self.old) }
    {
        let level = a.level + 1;
        let below = a.level as usize;
        let node = self.levels[below].pack(a.at, bs)?;
        let at = enter(&mut self.levels, below, node, &self.book, bs)? as u64;
        Ok(Gid { level, at })
    }

    /// The product of two groupings of one level, if the memo has it.
    pub fn product_of(&self, g: Gid, h: Gid) -> Option<&Product>
        requires first { Owns self.now g }
        requires second { Owns self.now h }
        ensures { MatchOption result
            (IsNew self.now.products (patterns_of self.now.levels g h))
            (λ r. IsProduct self.now.levels g h r.now.head r.now.pairs.items) }
    {
        self.products.get(&Operands { left: g, right: h })
    }

    /// The place of such a product in the memo, which it keeps until products are forgotten.
    pub fn place_of_product(&self, g: Gid, h: Gid) -> Option<usize>
        requires first { Owns self.now g }
        requires second { Owns self.now h }
        ensures { MatchOption result
            (IsNew self.now.products (patterns_of self.now.levels g h))
            (λ place. slice_get self.now.products place ≡ Some (patterns_of self.now.levels g h)) }
    {
        self.products.get_index_of(&Operands { left: g, right: h })
    }

    /// The product at a place of the memo.
    pub fn product_at(&self, place: usize) -> &Product
        requires { place < length self.now.products }
        ensures { IfSome (slice_get self.now.products place)
            (λ k. IsProductOf self.now.levels k result.now.head result.now.pairs.items) }
    {
        let (_, product) = self.products.get_index(place).unwrap();
        product
    }

    /// Keeps a product of two groupings that the memo hasn't, and answers its place.
    pub fn keep_product(
        &mut self,
        g: Gid,
        h: Gid,
        head: Gid,
        pairs: Vec<(u64, u64)>,
    ) -> Result<usize, NoMemory>
        requires product { IsProduct self.old.levels g h head pairs.items }
        requires new { IsNew self.old.products (patterns_of self.old.levels g h) }
        ensures kept { OnOk result (self.new.products ≡ self.old.products ++ patterns_of self.old.levels g h ∷ []) }
        ensures place { IfOk result (λ place. place ≡ length self.old.products) }
        ensures levels { self.new.levels ≡ self.old.levels }
        ensures tuples { self.new.tuples ≡ self.old.tuples }
        ensures triples { self.new.triples ≡ self.old.triples }
        ensures no_memory { OnErr result (self.new ≡ self.old) }
    {
        let place = self.products.len();
        self.products
            .insert(Operands { left: g, right: h }, Product { head, pairs })?;
        Ok(place)
    }

    /// The product of three groupings of one level, if the memo has it.
    pub fn triple_of(&self, f: Gid, g: Gid, h: Gid) -> Option<&TripleProduct>
        requires first { Owns self.now f }
        requires second { Owns self.now g }
        requires third { Owns self.now h }
        ensures { MatchOption result
            (IsNew self.now.triples (three_patterns_of self.now.levels f g h))
            (λ r. IsTriple self.now.levels f g h r.now.head r.now.triples.items) }
    {
        self.triples.get(&ThreeOperands {
            first: f,
            second: g,
            third: h,
        })
    }

    /// The place of such a product in the memo, which it keeps until products are forgotten.
    pub fn place_of_triple(&self, f: Gid, g: Gid, h: Gid) -> Option<usize>
        requires first { Owns self.now f }
        requires second { Owns self.now g }
        requires third { Owns self.now h }
        ensures { let k = three_patterns_of self.now.levels f g h in
            MatchOption result
            (IsNew self.now.triples k)
            (λ place. slice_get self.now.triples place ≡ Some k) }
    {
        self.triples.get_index_of(&ThreeOperands {
            first: f,
            second: g,
            third: h,
        })
    }

    /// The product of three groupings at a place of the memo.
    pub fn triple_at(&self, place: usize) -> &TripleProduct
        requires { place < length self.now.triples }
        ensures { IfSome (slice_get self.now.triples place)
            (λ k. IsTripleOf self.now.levels k result.now.head result.now.triples.items) }
    {
        let (_, product) = self.triples.get_index(place).unwrap();
        product
    }

    /// Keeps a product of three groupings that the memo hasn't, and answers its place.
    pub fn keep_triple(
        &mut self,
        f: Gid,
        g: Gid,
        h: Gid,
        head: Gid,
        triples: Vec<(u64, u64, u64)>,
    ) -> Result<usize, NoMemory>
        requires product { IsTriple self.old.levels f g h head triples.items }
        requires new { IsNew self.old.triples (three_patterns_of self.old.levels f g h) }
        ensures kept { OnOk result
            (self.new.triples ≡ self.old.triples ++ three_patterns_of self.old.levels f g h ∷ []) }
        ensures place { IfOk result (λ place. place ≡ length self.old.triples) }
        ensures levels { self.new.levels ≡ self.old.levels }
        ensures tuples { self.new.tuples ≡ self.old.tuples }
        ensures products { self.new.products ≡ self.old.products }
        ensures no_memory { OnErr result (self.new ≡ self.old) }
    {
        let operands = ThreeOperands {
            first: f,
            second: g,
            third: h,
        };
        let place = self.triples.len();
        self.triples
            .insert(operands, TripleProduct { head, triples })?;
        Ok(place)
    }

    /// The grouping with each exit replaced by its class, if the memo has it.
    pub fn reduction_of(&self, key: &Classed) -> Option<Gid>
        ensures { IfSome result (λ h.
            IsReduction self.now.levels key.now.grouping key.now.classes.items h) }
    {
        self.reductions.get(key).copied()
    }

    /// Keeps such a grouping.
    pub fn keep_reduction(&mut self, key: Classed, h: Gid) -> Result<(), NoMemory>
        requires { IsReduction self.old.levels key.grouping key.classes.items h }
        ensures { self.new ≡ self.old }
    {
        self.reductions.insert(key, h)?;
        Ok(())
    }

    /// Forgets all products and reductions.
    pub fn forget(&mut self)
        ensures products { self.new.products ≡ [] }
        ensures triples { self.new.triples ≡ [] }
        ensures levels { self.new.levels ≡ self.old.levels }
        ensures tuples { self.new.tuples ≡ self.old.tuples }
    {
        self.products.clear();
        self.triples.clear();
        self.reductions.clear();
    }

    /// How many products and reductions are kept.
    fn kept_answers(&self) -> usize {
        let products = self.products.len().saturating_add(self.triples.len());
        products.saturating_add(self.reductions.len())
    }

    /// How many groupings there are at all levels.
    fn groupings(&self) -> usize {
        let mut groupings: usize = 2;
        for level in &self.levels {
            groupings = groupings.saturating_add(level.len());
        }
        groupings
    }

    /// Forgets all products and reductions where they are more than so many times the groupings.
    pub fn forget_beyond(&mut self, multiple: usize)
        ensures products { (self.new.products ≡ self.old.products) ⊎ (self.new.products ≡ []) }
        ensures triples { (self.new.triples ≡ self.old.triples) ⊎ (self.new.triples ≡ []) }
        ensures levels { self.new.levels ≡ self.old.levels }
        ensures tuples { self.new.tuples ≡ self.old.tuples }
    {
        if self.kept_answers() > multiple.saturating_mul(self.groupings()) {
            self.forget();
        }
    }

    /// Whether the table has the grouping.
    pub fn owns(&self, g: Gid) -> bool
        ensures { IsTrue result ↔ Owns self.now g }
    {
        g.at < self.count(g.level)
    }

    /// How many groupings a level has.
    pub fn count(&self, level: u8) -> u64
        ensures { result ≡ count self.now.levels level }
    {
        match level {
            0 => 2,
            1..=7 => self.levels[level as usize - 1].len() as u64,
            _ => 0,
        }
    }

    fn kept(&self, g: Gid) -> (&PackedNode, u64)
        requires owned { Owns self.now g }
        requires level { 1 ≤ g.level }
        ensures shown { shown_node self.now.tuples (kept_of (result.0.now, result.1)) ≡ node_of self.now g }
        ensures kept { IsKept self.now.tuples (kept_of (result.0.now, result.1)) }
    {
        self.levels[g.level as usize - 1].get(g.at as usize)
    }

    /// How many exits a grouping has.
    pub fn exits(&self, g: Gid) -> u64
        requires { Owns self.now g }
        ensures { result ≡ exits_of self.now g }
    {
        self.law();
        if g.level == 0 {
            g.at + 1
        } else {
            self.kept(g).1
        }
    }

    /// The A-callee of a grouping, for a caller that counts nothing.
    pub fn a_callee(&self, g: Gid) -> Gid
        requires owned { Owns self.now g }
        requires level { 1 ≤ g.level }
        ensures level { result.level + 1 ≡ g.level }
        ensures callee { result.at ≡ (node_of self.now g).a_callee }
        ensures owned { Owns self.now result }
    {
        self.law();
        Gid {
            level: g.level - 1,
            at: self.kept(g).0.a_callee as u64,
        }
    }

    /// How many middle vertices a grouping has, for a caller that counts nothing.
    pub fn middle_count(&self, g: Gid) -> u64
        requires owned { Owns self.now g }
        requires level { 1 ≤ g.level }
        ensures { result ≡ length (node_of self.now g).connections }
    {
        self.kept(g).0.connections.len() as u64
    }

    /// The B-connection of middle vertex j, for a caller that counts nothing.
    pub fn connection(&self, g: Gid, j: u64) -> BConn
        requires owned { Owns self.now g }
        requires level { 1 ≤ g.level }
        requires middle { j < length (node_of self.now g).connections }
        ensures level { result.«to».level + 1 ≡ g.level }
        ensures connection { connection_of self.now.tuples result ≡ connection_at (node_of self.now g).connections j }
        ensures callee { Owns self.now result.«to» }
        ensures tuple { OwnsTuple self.now result.ret }
    {
        self.law();
        let kept = self.kept(g).0.connections.as_slice()[j as usize];
        BConn {
            to: Gid {
                level: g.level - 1,
                at: kept.callee as u64,
            },
            ret: Tid {
                at: kept.returns as u64,
            },
        }
    }

    /// How many middle vertices a grouping has.
    pub fn middles<L: Ledger>(&self, g: Gid, steps: &mut Steps<L>) -> u64
        requires owned { Owns self.now g }
        requires level { 1 ≤ g.level }
        ensures middles { result ≡ length (node_of self.now g).connections }
        ensures ticks { steps.new ≡ steps.old + 1 }
    {
        steps.tick();
        self.middle_count(g)
    }

    /// The A-callee of a grouping.
    pub fn a_of<L: Ledger>(&self, g: Gid, steps: &mut Steps<L>) -> Gid
        requires owned { Owns self.now g }
        requires level { 1 ≤ g.level }
        ensures level { result.level + 1 ≡ g.level }
        ensures callee { result.at ≡ (node_of self.now g).a_callee }
        ensures owned { Owns self.now result }
        ensures ticks { steps.new ≡ steps.old + 1 }
    {
        steps.tick();
        self.a_callee(g)
    }

    /// The B-connection of middle vertex j.
    pub fn b_of<L: Ledger>(&self, g: Gid, j: u64, steps: &mut Steps<L>) -> BConn
        requires owned { Owns self.now g }
        requires level { 1 ≤ g.level }
        requires middle { j < length (node_of self.now g).connections }
        ensures level { result.«to».level + 1 ≡ g.level }
        ensures connection { connection_of self.now.tuples result ≡ connection_at (node_of self.now g).connections j }
        ensures callee { Owns self.now result.«to» }
        ensures tuple { OwnsTuple self.now result.ret }
        ensures ticks { steps.new ≡ steps.old + 1 }
    {
        steps.tick();
        self.connection(g, j)
    }

    /// The least middle vertex whose return tuple has exit e, and e's place in that tuple.
    pub fn first_of<L: Ledger>(&self, g: Gid, e: u64, steps: &mut Steps<L>) -> (u64, u64)
        requires owned { Owns self.now g }
        requires level { 1 ≤ g.level }
        requires exit { e < exits_of self.now g }
        ensures first { IsFirstOf (node_of self.now g).connections e result.0 result.1 }
        ensures ticks { steps.new ≡ steps.old + 1 }
    {
        steps.tick();
        self.first_return(g, e)
    }

    fn first_return(&self, g: Gid, e: u64) -> (u64, u64)
        requires owned { Owns self.now g }
        requires level { 1 ≤ g.level }
        requires exit { e < exits_of self.now g }
        ensures { IsFirstOf (node_of self.now g).connections e result.0 result.1 }
    {
        for j in 0..self.middle_count(g) {
            if let Some(i) = place_in(self.tuple(self.connection(g, j).ret), e) {
                return (j, i as u64);
            }
        }
        self.law();
        unreachable!()
    }
}

/// The first place of an entry.
fn place_in(list: &[u64], entry: u64) -> Option<usize>
    ensures { MatchOption result (IsNew list.now entry) (λ i. slice_get list.now i ≡ Some entry) }
{
    for i in 0..list.len() {
        if list[i] == entry {
            return Some(i);
        }
    }
    None
}

/// Whether two groupings of one level have equal patterns.
pub fn same_pattern(table: &Table, g: Gid, h: Gid) -> bool
    requires first { Owns table.now g }
    requires second { Owns table.now h }
    requires level { g.level ≡ h.level }
    ensures { IsTrue result ↔ (pattern_of table.now g ≡ pattern_of table.now h) }
{
    table.law();
    g.at == h.at
}
