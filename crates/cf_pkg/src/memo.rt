//! The finished jobs that a package remembers, so that none of them is done twice.

ghost use Rattle.cf_ops.specs.Operations.{of_two};
ghost use Rattle.cf_pkg.specs.Tasks as task;
ghost use Rattle.cf_pkg.specs.declared.memo.JobKey.TheVariants as key;
ghost use Rattle.cf_pkg.specs.declared.memo.Alone.TheVariants.{Variable};
ghost use Rattle.cf_pkg.specs.declared.memo.OfTwo.TheVariants.{Apply};
ghost use Rattle.cf_pkg.specs.declared.memo.Operation.TheVariants.{Two};
ghost use Rattle.std.specs.Prelude.{true, IfSome, ◌≡◌, [], IfOk, OnOk, OnErr, MatchOption};
ghost use Rattle.cf_pkg.specs.Memos.{no_job, task_at, finished, IsFinished, IsWordless, IsOperation, IsTold, IsKeyOf, HasTree, IsAnswer, IsUndone, EntersTree, with_entry};
ghost use Rattle.cf_pkg.specs.Packages.{Keeps, IsRemembered};
ghost use Rattle.cf_pkg.specs.Jobs.{task_of, Finishes};
ghost use Rattle.cf_pkg.specs.Remembering.{IsDone};

use crate::jobs::Job;
use crate::{Func, Pkg};
use cf_ops::{Term, Word1, Word2};
use cf_tuple::NoMemory;
use indexmap::IndexMap;
use std::alloc::Global;
use std::marker::Model;

/// The operation of a job: of a word, the choice between two functions, or another tree by its
/// place among those that were given.
#[derive(Clone, Copy, Debug, PartialEq, Eq, Hash)]
pub(crate) enum Operation {
    One(Word1),
    Two(Word2),
    Choice,
    Tree(usize),
}

/// A job on no function.
#[derive(Clone, Copy, Debug, PartialEq, Eq, Hash)]
pub(crate) enum Alone {
    Constant { level: u8, value: i128 },
    Variable { level: u8, position: u8 },
    Identity { level: u8 },
    Walsh { level: u8 },
    Unit { level: u8, row: u64, column: u64 },
}

/// A job on one function.
#[derive(Clone, Copy, Debug, PartialEq, Eq, Hash)]
pub(crate) enum OfOne {
    Map(Operation),
    Restrict { position: u8, bit: bool },
    Transpose,
}

/// A job on two functions.
#[derive(Clone, Copy, Debug, PartialEq, Eq, Hash)]
pub(crate) enum OfTwo {
    Apply(Operation),
    Kron,
    Matmul,
}

/// What a finished job is found by.
#[derive(Clone, Copy, Debug, PartialEq, Eq, Hash)]
pub(crate) enum JobKey {
    Alone(Alone),
    OfOne(OfOne, Func),
    OfTwo(OfTwo, Func, Func),
    OfThree(Operation, Func, Func, Func),
}

impl JobKey {
    /// Whether it is the key of a variable.
    #[inline(always)]
    fn is_variable(&self, at: u8, place: u8) -> bool
        ensures { result ≡ true → self.now ≡ key.Alone (Variable at place) }
    {
        match self {
            JobKey::Alone(Alone::Variable { level, position }) => {
                *level == at && *position == place
            }
            _ => false,
        }
    }

    /// Whether it is the key of a word's operation on two functions.
    #[inline(always)]
    fn is_apply(&self, word: Word2, f: Func, g: Func) -> bool
        ensures { result ≡ true → self.now ≡ key.OfTwo (Apply (Two word)) f g }
    {
        match self {
            JobKey::OfTwo(OfTwo::Apply(Operation::Two(known)), first, second) => {
                *known == word && *first == f && *second == g
            }
            _ => false,
        }
    }
}

/// The operation of a word's tree.
fn word_of(tree: &Term) -> Option<Operation>
    ensures { MatchOption result (IsWordless tree.now) (λ o. IsOperation [] o tree.now) }
{
    match tree {
        Term::One(word, inner) => match inner.get() {
            Term::X => Some(Operation::One(*word)),
            _ => None,
        },
        Term::Fold(word, terms) => match terms.as_slice() {
            [Term::X, Term::Y] => Some(Operation::Two(*word)),
            _ => None,
        },
        Term::Ite(first, second, third) => match (first.get(), second.get(), third.get()) {
            (Term::X, Term::Y, Term::Z) => Some(Operation::Choice),
            _ => None,
        },
        _ => None,
    }
}

/// How many slots a memo has.
const SLOTS: usize = 4096;

/// A number of a function, for a slot. Two may have the same one.
#[inline(always)]
fn spread(f: Func) -> u64 {
    f.head
        .at
        .wrapping_add(f.vals.at.wrapping_shl(32))
        .wrapping_mul(0x9e37_79b9_7f4a_7c15)
}

/// The slot of a variable.
#[inline(always)]
fn variable_slot(level: u8, position: u8) -> usize {
    level as usize * 128 + position as usize
}

/// The slot of a job on two functions.
#[inline(always)]
fn slot_of_two(f: Func, g: Func) -> usize {
    (spread(f).wrapping_mul(31).wrapping_add(spread(g)) >> 52) as usize
}

/// The slot of a job. Two may have the same one.
#[inline(always)]
fn slot_of(key: &JobKey) -> usize {
    let number = match *key {
        JobKey::Alone(Alone::Variable { level, position }) => {
            return variable_slot(level, position);
        }
        JobKey::Alone(_) => 0,
        JobKey::OfOne(_, f) => spread(f),
        JobKey::OfTwo(_, f, g) => return slot_of_two(f, g),
        JobKey::OfThree(_, f, g, h) => {
            let both = spread(f).wrapping_mul(31).wrapping_add(spread(g));
            both.wrapping_mul(31).wrapping_add(spread(h))
        }
    };
    (number >> 52) as usize
}

/// Finished jobs by their keys, and the trees of operations that no word names, each once. A slot
/// has the place of the last job that was entered of those that share it, where a job is looked for
/// first.
#[derive(Drop)]
pub(crate) struct Memo {
    trees: Vec<Term>,
    jobs: IndexMap<JobKey, Func>,
    slots: Vec<usize>,
}

impl Model for Memo {
    ghost use Rattle.std.specs.Coded.{codes};
    ghost use Rattle.cf_model.specs.contracts.terms.Term as term;
    ghost use Rattle.cf_pkg.specs.Memos.{Remembered, IsMemo};

    ghost Value = { Remembered };

    ghost coded = { Prim.hlevel (codes, term.the_row.coded) };

    ghost view = { λ memo. record { trees = memo.trees.items; entries = memo.jobs.entries } };

    ghost invariant = { λ memo. IsMemo (record { trees = memo.trees.items; entries = memo.jobs.entries }) };
}

impl Memo {
    /// A memo of no job.
    pub fn new(alloc: Global) -> Result<Memo, NoMemory>
        ensures { IfOk result (λ memo. memo ≡ no_job) }
    {
        Ok(Memo {
            trees: Vec::new(alloc),
            jobs: IndexMap::new(alloc),
            slots: vec![in alloc; 0; SLOTS]?,
        })
    }

    /// The operation of a tree, which takes memory only where no word and no earlier tree is equal
    /// to it.
    pub fn operation_of(&mut self, tree: &Term) -> Result<Operation, NoMemory>
        ensures operation { IfOk result (λ o. IsOperation self.new.trees o tree.now) }
        ensures entered { EntersTree self.old self.new }
        ensures known { HasTree self.old.trees tree.now → self.new ≡ self.old }
        ensures answers { HasTree self.old.trees tree.now → OnErr result ⊥ }
    {
        if let Some(operation) = word_of(tree) {
            return Ok(operation);
        }
        for place in 0..self.trees.len() {
            if self.trees[place].same(tree) {
                return Ok(Operation::Tree(place));
            }
        }
        let place = self.trees.len();
        let tree = tree.copy(*self.trees.allocator())?;
        self.trees.push(tree)?;
        Ok(Operation::Tree(place))
    }

    /// What a job is found by, which takes memory only where its tree is a new one.
    pub fn key_of(&mut self, job: &Job<'_>) -> Result<JobKey, NoMemory>
        ensures key { IfOk result (λ k. IsKeyOf self.new.trees k (task_of job.now)) }
        ensures entered { EntersTree self.old self.new }
        ensures known { (f : Func) → IsFinished self.old (task_of job.now) f → self.new ≡ self.old }
        ensures answers { (f : Func) → IsFinished self.old (task_of job.now) f → OnErr result ⊥ }
    {
        let _ = &self.trees;
        match *job {
            Job::Const { level, v } => Ok(JobKey::Alone(Alone::Constant { level, value: v })),
            Job::Var { level, i } => Ok(JobKey::Alone(Alone::Variable { level, position: i })),
            Job::Map { tree, f } => {
                let operation = self.operation_of(tree)?;
                Ok(JobKey::OfOne(OfOne::Map(operation), f))
            }
            Job::Apply { tree, f, g } => {
                let operation = self.operation_of(tree)?;
                Ok(JobKey::OfTwo(OfTwo::Apply(operation), f, g))
            }
            Job::Ternary { tree, f, g, h } => {
                let operation = self.operation_of(tree)?;
                Ok(JobKey::OfThree(operation, f, g, h))
            }
            Job::Restrict { f, i, b } => {
                let restrict = OfOne::Restrict {
                    position: i,
                    bit: b,
                };
                Ok(JobKey::OfOne(restrict, f))
            }
            Job::Kron { f, g } => Ok(JobKey::OfTwo(OfTwo::Kron, f, g)),
            Job::Matmul { f, g } => Ok(JobKey::OfTwo(OfTwo::Matmul, f, g)),
            Job::Transpose { f } => Ok(JobKey::OfOne(OfOne::Transpose, f)),
            Job::Id { level } => Ok(JobKey::Alone(Alone::Identity { level })),
            Job::Walsh { level } => Ok(JobKey::Alone(Alone::Walsh { level })),
            Job::Unit { level, r, c } => {
                let unit = Alone::Unit {
                    level,
                    row: r,
                    column: c,
                };
                Ok(JobKey::Alone(unit))
            }
        }
    }

    /// The function of a finished job.
    #[inline(always)]
    pub fn get(&self, key: JobKey) -> Option<Func>
        requires { IsTold self.now.trees key }
        ensures { MatchOption result
            (IsUndone self.now (task_at self.now.trees key))
            (IsAnswer self.now (task_at self.now.trees key)) }
    {
        if let Some(f) = self.in_slot(&key) {
            return Some(f);
        }
        self.jobs.get(&key).copied()
    }

    /// The function of a finished job, if its slot has it.
    #[inline(always)]
    fn in_slot(&self, key: &JobKey) -> Option<Func>
        ensures { IfSome result (IsAnswer self.now (task_at self.now.trees key.now)) }
    {
        let place = *self.slots.get(slot_of(key))?;
        let (known, f) = self.jobs.get_index(place)?;
        if known == key { Some(*f) } else { None }
    }

    /// The function of a variable, if its slot has it.
    #[inline(always)]
    pub fn variable_in_slot(&self, level: u8, position: u8) -> Option<Func>
        ensures { IfSome result (IsAnswer self.now (task.Var level position)) }
    {
        let place = *self.slots.get(variable_slot(level, position))?;
        let (known, f) = self.jobs.get_index(place)?;
        if known.is_variable(level, position) {
            Some(*f)
        } else {
            None
        }
    }

    /// The function of a word's operation on two others, if its slot has it.
    #[inline(always)]
    pub fn apply_in_slot(&self, word: Word2, f: Func, g: Func) -> Option<Func>
        ensures { IfSome result (IsAnswer self.now (task.Apply (of_two word) f g)) }
    {
        let place = *self.slots.get(slot_of_two(f, g))?;
        let (known, r) = self.jobs.get_index(place)?;
        if known.is_apply(word, f, g) {
            Some(*r)
        } else {
            None
        }
    }

    /// Enters the function of a job that wasn't finished.
    pub fn enter(&mut self, key: JobKey, f: Func) -> Result<(), NoMemory>
        requires told { IsTold self.old.trees key }
        requires undone { IsUndone self.old (task_at self.old.trees key) }
        ensures entered { OnOk result (self.new ≡ with_entry self.old key f) }
        ensures no_memory { OnErr result (self.new ≡ self.old) }
    {
        self.take_slot(&key);
        self.jobs.insert(key, f)?;
        Ok(())
    }

    /// Gives the slot of a job the place of the job to come.
    fn take_slot(&mut self, key: &JobKey)
        ensures { self.new ≡ self.old }
    {
        let place = self.jobs.len();
        if let Some(slot) = self.slots.get_mut(slot_of(key)) {
            *slot = place;
        }
    }
}

impl Pkg {
    /// What a job is found by, which takes memory only where no word and no earlier tree is equal to
    /// the job's.
    pub(crate) fn key_of(&mut self, job: &Job<'_>) -> Result<JobKey, NoMemory>
        ensures key { IfOk result (λ k. IsKeyOf self.new.memo.trees k (task_of job.now)) }
        ensures groupings { self.new.groupings ≡ self.old.groupings }
        ensures jobs { finished self.new.memo ≡ finished self.old.memo }
        ensures known { (f : Func) → IsRemembered self.old (task_of job.now) f → self.new ≡ self.old }
        ensures answers { (f : Func) → IsRemembered self.old (task_of job.now) f → OnErr result ⊥ }
        ensures kept { Keeps self.old self.new }
    {
        self.table.law();
        self.memo.key_of(job)
    }

    /// The function of a finished job.
    #[inline(always)]
    pub(crate) fn finished(&self, key: JobKey) -> Option<Func>
        requires { IsTold self.now.memo.trees key }
        ensures { MatchOption result
            (IsUndone self.now.memo (task_at self.now.memo.trees key))
            (IsDone self.now (task_at self.now.memo.trees key)) }
    {
        self.table.law();
        self.memo.get(key)
    }

    /// Remembers the function of a job that wasn't finished.
    pub(crate) fn remember(&mut self, key: JobKey, f: Func) -> Result<(), NoMemory>
        requires told { IsTold self.old.memo.trees key }
        requires undone { IsUndone self.old.memo (task_at self.old.memo.trees key) }
        requires is_it { Finishes self.old (task_at self.old.memo.trees key) f }
        ensures remembered { OnOk result (self.new ≡ record self.old {
          memo = with_entry self.old.memo key f;
        }) }
        ensures no_memory { OnErr result (self.new ≡ self.old) }
    {
        self.memo.enter(key, f)
    }
}
