//! The numbering of labels by first appearance, as they are read one after another.

ghost use Rattle.std.specs.Prelude.{◌≡◌, ◌<◌, [], All, length, map, IfOk, OnOk};
ghost use Rattle.smallvec.specs.SmallVec.{HasRoomFor};
ghost use Rattle.cf_model.specs.Renumbering.{AllDiffer, IsCanon};
ghost use Rattle.cf_build.specs.Numbering.{IsReady, IsEntered, Numbers};

use super::label::{FEW, Label, place_of};
use cf_tuple::NoMemory;
use indexmap::IndexSet;
use smallvec::SmallVec;
use std::alloc::Global;

/// Labels that were read: the rank of first appearance of each, and the different ones in that
/// order.
#[derive(Drop)]
pub(crate) struct Numbering<T> {
    pub ranks: SmallVec<u64, 8>,
    pub different: Vec<T>,
    /// The keys of the different labels, once they are more than a few.
    pub keys: IndexSet<[u64; 3]>,
}

impl<T: Label> Numbering<T> {
    /// A numbering of no label, with room for so many.
    pub fn new(alloc: Global, count: usize) -> Result<Numbering<T>, NoMemory>
        ensures none { IfOk result (λ n. IsCanon [] n.ranks.items n.different.items) }
        ensures ready { IfOk result (λ n. IsReady T.is_label T.key_of n.different.items n.keys.keys) }
        ensures room { IfOk result (λ n. HasRoomFor n.ranks count) }
    {
        Ok(Numbering {
            ranks: SmallVec::with_capacity(alloc, count)?,
            different: Vec::with_capacity(alloc, count.min(FEW))?,
            keys: IndexSet::new(alloc),
        })
    }

    /// Enters the keys of all different labels.
    fn enter_keys(&mut self) -> Result<(), NoMemory>
        requires none { self.old.keys.keys ≡ [] }
        requires labels { All T.is_label self.old.different.items }
        requires differ { AllDiffer self.old.different.items }
        ensures keys { OnOk result (self.new.keys.keys ≡ map T.key_of self.old.different.items) }
        ensures different { self.new.different.items ≡ self.old.different.items }
        ensures ranks { self.new.ranks ≡ self.old.ranks }
    {
        for i in 0..self.different.len() {
            self.keys.insert(self.different[i].key())?;
        }
        Ok(())
    }
    /// Enters a label by its key.
    fn enter_hashed(&mut self, label: T) -> Result<usize, NoMemory>
        requires ready { IsReady T.is_label T.key_of self.old.different.items self.old.keys.keys }
        requires many { 16 < length self.old.different.items }
        ensures ready { OnOk result (IsReady T.is_label T.key_of self.new.different.items self.new.keys.keys) }
        ensures entered { IfOk result (λ at. IsEntered self.old.different.items self.new.different.items label at) }
        ensures ranks { self.new.ranks ≡ self.old.ranks }
    {
        let (at, is_new) = self.keys.insert_full(label.key())?;
        if !is_new {
            return Ok(at);
        }
        self.different.push(label)?;
        Ok(at)
    }

    /// The place of a label among the different ones, to which it is added if it is a new one.
    fn enter(&mut self, label: T) -> Result<usize, NoMemory>
        requires { IsReady T.is_label T.key_of self.old.different.items self.old.keys.keys }
        ensures ready { OnOk result (IsReady T.is_label T.key_of self.new.different.items self.new.keys.keys) }
        ensures entered { IfOk result (λ at. IsEntered self.old.different.items self.new.different.items label at) }
        ensures ranks { self.new.ranks ≡ self.old.ranks }
    {
        if self.different.len() > FEW {
            return self.enter_hashed(label);
        }
        if let Some(at) = place_of(self.different.as_slice(), label) {
            return Ok(at);
        }
        let at = self.different.len();
        self.different.push(label)?;
        if at < FEW {
            return Ok(at);
        }
        self.enter_keys()?;
        Ok(at)
    }

    /// Reads more labels, for whose ranks there is room.
    pub fn read(&mut self, labels: &[T]) -> Result<(), NoMemory>
        requires ready { IsReady T.is_label T.key_of self.old.different.items self.old.keys.keys }
        requires room { HasRoomFor self.old.ranks (length labels.now) }
        ensures ready { OnOk result (IsReady T.is_label T.key_of self.new.different.items self.new.keys.keys) }
        ensures numbered { OnOk result (Numbers self.old.ranks.items self.old.different.items labels.now
            self.new.ranks.items self.new.different.items) }
    {
        for &label in labels {
            let rank = self.enter(label)?;
            self.ranks.push_reserved(rank as u64);
        }
        Ok(())
    }
}
