//! A walk down the needs of signals: what was seen, the way to the signal at hand, and what is
//! done.

ghost use Rattle.std.specs.Prelude.{◌≡◌, ℕ, ◌+◌, ◌-◌, ◌<◌, ◌^◌, List, [], ◌∷◌, ◌++◌, length, map, replicate, drop, slice_index_or, OnOk, IfOk, MatchOption};
ghost use Rattle.cf_order.specs.declared.walk.Mark.{Mark};
ghost use Rattle.cf_order.specs.Walks.{Progress, mark_of, started, top_of, entered, passed, left};

use crate::{NoMemory, Wires};
use std::alloc::Global;
use std::marker::Model;

/// Where a signal stands in a walk: not seen yet, on the way at a depth, or done at a place of the
/// order.
#[derive(Clone, Copy, Debug)]
pub enum Mark {
    New,
    Open(u64),
    Done(u64),
}

/// A signal on the way, and how many of its needs are done.
#[derive(Clone, Copy, Debug)]
pub struct Frame {
    pub signal: u64,
    pub next: u64,
}

/// A walk down the needs of signals: the mark of each, the way to the signal at hand, and those
/// done, in order.
#[derive(Drop)]
pub struct Walk {
    marks: Vec<Mark>,
    stack: Vec<Frame>,
    order: Vec<u64>,
}

impl Model for Walk {
    ghost use Rattle.cf_order.specs.Walks.{Progress};

    ghost Value = { Progress };

    ghost view = { λ w.
        record { marks = w.marks.items; stack = w.stack.items; order = w.order.items } };
}

impl Walk {
    /// A walk that has seen none of `n` signals.
    pub fn new(alloc: Global, n: usize) -> Result<Walk, NoMemory>
        ensures { IfOk result (λ w. w ≡ started n) }
    {
        Ok(Walk {
            marks: vec![in alloc; Mark::New; n]?,
            stack: Vec::new(alloc),
            order: Vec::new(alloc),
        })
    }

    /// The mark of a signal.
    pub fn mark(&self, signal: u64) -> Mark
        requires { signal < length self.now.marks }
        ensures { result ≡ mark_of self.now signal }
    {
        self.marks[signal as usize]
    }

    /// The signal at hand, with how many of its needs are done.
    pub fn top(&self) -> Option<Frame>
        ensures { MatchOption result (self.now.stack ≡ []) (λ f. top_of self.now f) }
    {
        self.stack.last().copied()
    }

    /// Goes on to a signal.
    pub fn enter(&mut self, signal: u64) -> Result<(), NoMemory>
        requires { signal < length self.old.marks }
        ensures { OnOk result (self.new ≡ entered self.old signal) }
    {
        let depth = self.stack.len() as u64;
        self.stack.push(Frame { signal, next: 0 })?;
        self.marks[signal as usize] = Mark::Open(depth);
        Ok(())
    }

    /// One more need of the signal at hand is done.
    pub fn pass(&mut self, frame: Frame)
        requires top { top_of self.old frame }
        requires fits { frame.next + 1 < 2 ^ 64 }
        ensures { self.new ≡ passed self.old frame }
    {
        let top = self.stack.len() - 1;
        self.stack[top] = Frame {
            signal: frame.signal,
            next: frame.next + 1,
        };
    }

    /// The signal at hand is done.
    pub fn leave(&mut self, frame: Frame) -> Result<(), NoMemory>
        requires top { top_of self.old frame }
        requires within { frame.signal < length self.old.marks }
        ensures { OnOk result (self.new ≡ left self.old frame) }
    {
        let place = self.order.len() as u64;
        self.order.push(frame.signal)?;
        self.stack.pop();
        self.marks[frame.signal as usize] = Mark::Done(place);
        Ok(())
    }

    /// The signals on the way from a depth on.
    pub fn from(&self, alloc: Global, depth: u64) -> Result<Wires, NoMemory>
        requires { depth < length self.now.stack }
        ensures { IfOk result (λ ring. ring ≡ map (λ f. f.signal) (drop depth self.now.stack)) }
    {
        signals_of(alloc, &self.stack[depth as usize..])
    }

    /// The signals that are done, in order.
    pub fn into_order(self) -> Wires
        ensures { result ≡ self.order }
    {
        Wires::of(self.order)
    }
}

/// The signals of frames.
fn signals_of(alloc: Global, frames: &[Frame]) -> Result<Wires, NoMemory>
    ensures { IfOk result (λ all. all ≡ map (λ f. f.signal) frames.now) }
{
    let mut all = Wires::new(alloc);
    for frame in frames {
        all.push(frame.signal)?;
    }
    Ok(all)
}
