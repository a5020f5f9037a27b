//! The rows of a grouping that is assembled. The labels of all of them stand in one list.

ghost use Rattle.std.specs.Prelude.{◌≡◌, ◌≤◌, ◌++◌, [], ◌∷◌, length, map, IfOk, OnOk, OnErr};
ghost use Rattle.cf_build.specs.Assembling.{listed, ended};
ghost use Rattle.cf_build.specs.Joining.{labels_in, ArePlaced};

use super::label::Label;
use cf_table::Gid;
use cf_tuple::NoMemory;
use smallvec::SmallVec;
use std::alloc::Global;
use std::marker::Model;

/// A row: its grouping, and where its labels start and end in the list of all labels.
#[derive(Clone, Copy, Debug, Default)]
pub(crate) struct Row {
    pub callee: Gid,
    pub start: usize,
    pub end: usize,
}

/// The labels of a row, out of those of all rows.
pub(crate) fn labels_of(labels: &[u64], row: Row) -> &[u64]
    requires order { row.start ≤ row.end }
    requires within { row.end ≤ length labels.now }
    ensures { result.now ≡ labels_in labels.now row }
{
    &labels[row.start..row.end]
}

/// Rows to be assembled: groupings, and a label for each of their exits. Their labels stand in one
/// list, so that a row has no list of its own. The labels of the row that isn't ended yet are last.
#[derive(Drop)]
pub struct Rows<T> {
    rows: SmallVec<Row, 4>,
    labels: Vec<T>,
    /// Where the labels of the row that isn't ended yet start.
    start: usize,
}

impl<T> Model for Rows<T> {
    ghost use Rattle.std.specs.Prelude.{length};
    ghost use Rattle.cf_build.specs.Assembling.{Rowed};
    ghost use Rattle.cf_build.specs.Joining.{rowed, ArePlaces};

    ghost Value = { Rowed T };

    ghost view = { λ rows. rowed rows.rows.items rows.labels.items rows.start };

    ghost invariant = { λ rows. ArePlaces rows.rows.items rows.start (length rows.labels.items) };
}

impl<T: Label> Rows<T> {
    /// No row yet, with room for so many, which have two labels each more often than not.
    pub fn new(alloc: Global, count: usize) -> Result<Rows<T>, NoMemory>
        ensures { IfOk result (λ r. r ≡ ended []) }
    {
        Ok(Rows {
            rows: SmallVec::with_capacity(alloc, count)?,
            labels: Vec::with_capacity(alloc, count.saturating_mul(2))?,
            start: 0,
        })
    }

    /// Appends a label to the row that isn't ended yet.
    pub fn push_label(&mut self, label: T) -> Result<(), NoMemory>
        ensures pushed { OnOk result (self.new ≡ record self.old { begun = self.old.begun ++ label ∷ [] }) }
        ensures no_memory { OnErr result (self.new ≡ self.old) }
    {
        self.labels.push(label)?;
        Ok(())
    }

    /// Ends the row whose labels were pushed: it is one of this grouping.
    pub fn end_row(&mut self, callee: Gid) -> Result<(), NoMemory>
        ensures ended { OnOk result (self.new ≡ ended (self.old.rows ++ (callee, self.old.begun) ∷ [])) }
        ensures no_memory { OnErr result (self.new ≡ self.old) }
    {
        let end = self.labels.len();
        self.rows.push(Row {
            callee,
            start: self.start,
            end,
        })?;
        self.start = end;
        Ok(())
    }

    /// Appends a whole row.
    fn push_row(&mut self, callee: Gid, labels: &[T]) -> Result<(), NoMemory>
        requires { self.old.begun ≡ [] }
        ensures { OnOk result (self.new ≡ ended (self.old.rows ++ (callee, labels.now) ∷ [])) }
    {
        for &label in labels {
            self.push_label(label)?;
        }
        self.end_row(callee)
    }

    /// The rows, and the labels of all of them.
    pub(crate) fn places(&self) -> (&[Row], &[T])
        requires { self.now.begun ≡ [] }
        ensures { ArePlaced self.now.rows result.0.now result.1.now }
    {
        (self.rows.as_slice(), self.labels.as_slice())
    }
}

/// Rows whose labels stand in lists of their own.
pub(crate) fn gathered<T: Label>(
    alloc: Global,
    given: &[(Gid, Vec<T>)],
) -> Result<Rows<T>, NoMemory>
    ensures { IfOk result (λ rows. rows ≡ ended (map listed given.now)) }
{
    let mut rows = Rows::new(alloc, given.len())?;
    for row in given {
        rows.push_row(row.0, row.1.as_slice())?;
    }
    Ok(rows)
}
