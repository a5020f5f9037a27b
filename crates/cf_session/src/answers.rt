//! The statements that ask.

ghost use Rattle.std.specs.Prelude.{◌≡◌, ◌≢◌, ◌^◌, ◌<◌, ◌≤◌, length, IfSome, IfNone, IsTrue, IsSome, IfOk, IfErr, OnOk, Some};
ghost use Rattle.cf_model.specs.Assignments.{are_digits, bits};
ghost use Rattle.cf_model.specs.FlatFunctions.{IsFlatFunction, value_at};
ghost use Rattle.cf_pkg.specs.Packages.{OwnsFunction, Keeps, meaning};
ghost use Rattle.cf_pkg.specs.Jobs.{AreLevel};
ghost use Rattle.cf_reference.specs.States.{named};
ghost use Rattle.cf_reference.specs.Answers.{spelled, equal_answer, list_reply};
ghost use Rattle.cf_reference.specs.Carrying.{Refuses, Goes, lists, tell_value, tell_first, tell_list, tell_entry, tell_equal, tell_size, tell_stats};
ghost use Rattle.cf_session.specs.Building.{Grows};
ghost use Rattle.cf_session.specs.Faults.{reason_of};
ghost use Rattle.cf_session.specs.Sessions.{state_of};
ghost use Rattle.cf_session.specs.Statements.{IsFaultOfStep, IsNamed, IsUnknown};

use crate::faults::{Refusal, StepFault};
use crate::session::Session;
use crate::walk::is_index;
use cf_bits::Bits;
use cf_names::NoMemory;
use cf_pkg::{Func, Pkg, variables};
use cf_table::steps::Steps;
use cf_text::{
    Text, bits_text, different_text, equal_text, none_text, size_text, stats_text, value_text,
};
use cf_witness::{Listing, first_value, separate};
use std::alloc::Global;
use std::marker::Brand;
use std::sync::ledger::{Blank, Ledger};

/// The value of a function at an assignment, for a caller that counts nothing.
fn value_there<L: Ledger>(pkg: &Pkg, f: Func, at: Bits, blank: Blank) -> i128
    requires owned { OwnsFunction pkg.now f }
    requires len { at.len ≡ 2 ^ f.head.level }
    requires name { blank.name ≡ L.name }
    requires parts { blank.parts ≡ L.parts }
    requires some { 0 < blank.parts }
    ensures { value_at (meaning pkg.now f) (bits at) ≡ Some result }
{
    let mut steps = Steps::<L>::open(blank);
    pkg.eval(f, at, &mut steps)
}

/// The assignment of a level that a text of digits spells; None exactly where the text has another
/// length.
fn assignment_of(level: u8, text: &[u8]) -> Option<Bits>
    requires level { level ≤ 7 }
    requires bits { IsTrue (are_digits text.now) }
    ensures spelled { IfSome result (λ b. bits b ≡ spelled text.now) }
    ensures len { IfSome result (λ b. b.len ≡ 2 ^ level) }
    ensures found { IfSome result (λ b. length text.now ≡ 2 ^ level) }
    ensures none { IfNone result (length text.now ≢ 2 ^ level) }
{
    let at = Bits::from_text(text)?;
    if at.len() == variables(level) {
        Some(at)
    } else {
        None
    }
}

/// Whether so many lines may be asked for.
fn lists(most: i128) -> bool
    ensures { result ≡ lists most }
{
    1 <= most && most <= 1000
}

/// Makes the text the reply of whether two functions are equal.
fn difference(
    alloc: Global,
    pkg: &mut Pkg,
    f: Func,
    g: Func,
    text: &mut Text,
) -> Result<(), NoMemory>
    requires level { AreLevel pkg.old f g }
    requires first { IsFlatFunction (meaning pkg.old f) }
    requires second { IsFlatFunction (meaning pkg.old g) }
    ensures answer { OnOk result (text.new ≡ equal_answer (meaning pkg.old f) (meaning pkg.old g)) }
    ensures kept { Keeps pkg.old pkg.new }
{
    match separate(alloc, pkg, f, g)? {
        Some(found) => different_text(found.0, found.1, found.2, text),
        None => equal_text(text),
    }
    Ok(())
}

impl Session {
    /// The function of a name that stands for one.
    fn ask(&self, name: &[u8]) -> Result<Func, Refusal>
        ensures named { IfOk result (IsNamed self.now name.now) }
        ensures unknown { IfErr result (IsUnknown self.now name.now) }
    {
        match self.func_of(name) {
            Some(f) => {
                self.pkg.law(f);
                Ok(f)
            }
            None => Err(Refusal::NoName),
        }
    }

    /// Makes the text the value of a function at an assignment. It takes no memory.
    pub(crate) fn value(&self, name: &[u8], bits: &[u8], text: &mut Text) -> Result<(), Refusal>
        requires set { IsSome self.now.level }
        requires bits { IsTrue (are_digits bits.now) }
        ensures goes { OnOk result (tell_value (state_of self.now) name.now bits.now ≡ Goes (state_of self.now) text.new) }
        ensures refused { IfErr result (λ r. tell_value (state_of self.now) name.now bits.now ≡ Refuses (reason_of r)) }
    {
        let f = self.ask(name)?;
        let Some(at) = assignment_of(f.head.level, bits) else {
            return Err(Refusal::OutOfRange);
        };
        value_text(value_there::<Brand>(&self.pkg, f, at, Blank::new(1)), text);
        Ok(())
    }

    /// Makes the text the entry of a matrix in a row and a column. It takes no memory.
    pub(crate) fn entry(
        &self,
        name: &[u8],
        row: i128,
        column: i128,
        text: &mut Text,
    ) -> Result<(), Refusal>
        requires set { IsSome self.now.level }
        ensures goes { OnOk result (tell_entry (state_of self.now) name.now row column ≡ Goes (state_of self.now) text.new) }
        ensures refused { IfErr result (λ r. tell_entry (state_of self.now) name.now row column ≡ Refuses (reason_of r)) }
    {
        let f = self.ask(name)?;
        let level = f.head.level;
        if level == 0 {
            return Err(Refusal::BadLevel);
        }
        if !is_index(level, row) || !is_index(level, column) {
            return Err(Refusal::OutOfRange);
        }
        let row = row.unsigned_abs() as u64;
        let column = column.unsigned_abs() as u64;
        value_text(cf_kron::entry(&self.pkg, f, row, column), text);
        Ok(())
    }

    /// Makes the text the least assignment at which a function has a value. It takes no memory.
    pub(crate) fn first(&self, name: &[u8], v: i128, text: &mut Text) -> Result<(), Refusal>
        requires set { IsSome self.now.level }
        ensures goes { OnOk result (tell_first (state_of self.now) name.now v ≡ Goes (state_of self.now) text.new) }
        ensures refused { IfErr result (λ r. tell_first (state_of self.now) name.now v ≡ Refuses (reason_of r)) }
    {
        let f = self.ask(name)?;
        match first_value(&self.pkg, f, v) {
            Some(at) => {
                bits_text(at, text);
                Ok(())
            }
            None => {
                none_text(text);
                Ok(())
            }
        }
    }

    /// The first assignments at which a function has a value, which are as yet to be written.
    pub(crate) fn list(&self, name: &[u8], v: i128, most: i128) -> Result<Listing, StepFault>
        requires set { IsSome self.now.level }
        ensures goes { IfOk result (λ l. tell_list (state_of self.now) name.now v most ≡ Goes (state_of self.now) (list_reply l)) }
        ensures short { IfOk result (λ l. length l ≤ 1000) }
        ensures fault { IfErr result (IsFaultOfStep (tell_list (state_of self.now) name.now v most)) }
    {
        let f = self.ask(name)?;
        if !lists(most) {
            return Err(StepFault::Refused(Refusal::OutOfRange));
        }
        Ok(Listing::new(self.alloc, &self.pkg, f, v, most as u16)?)
    }

    /// Makes the text whether two functions are equal, and where they differ first if they aren't.
    pub(crate) fn equal(
        &mut self,
        name: &[u8],
        other: &[u8],
        text: &mut Text,
    ) -> Result<(), StepFault>
        requires set { IsSome self.old.level }
        ensures goes { OnOk result (tell_equal (state_of self.old) name.now other.now ≡ Goes (state_of self.old) text.new) }
        ensures fault { IfErr result (IsFaultOfStep (tell_equal (state_of self.old) name.now other.now)) }
        ensures same { Grows self.old self.new }
    {
        let f = self.ask(name)?;
        let g = self.ask(other)?;
        if f.head.level != g.head.level {
            return Err(StepFault::Refused(Refusal::LevelsDiffer));
        }
        Ok(difference(self.alloc, &mut self.pkg, f, g, text)?)
    }

    /// Makes the text how large a function is.
    pub(crate) fn size(&self, name: &[u8], text: &mut Text) -> Result<(), StepFault>
        requires set { IsSome self.now.level }
        ensures goes { OnOk result (tell_size (state_of self.now) name.now ≡ Goes (state_of self.now) text.new) }
        ensures fault { IfErr result (IsFaultOfStep (tell_size (state_of self.now) name.now)) }
    {
        let f = self.ask(name)?;
        let sizes = self.pkg.sizes(f)?;
        size_text(f.head.level, &sizes.per_level, sizes.exits, text);
        Ok(())
    }

    /// Makes the text how many names are bound, and how large all functions are together.
    pub(crate) fn stats(&self, text: &mut Text) -> Result<(), StepFault>
        requires set { IsSome self.now.level }
        ensures goes { OnOk result (tell_stats (state_of self.now) ≡ Goes (state_of self.now) text.new) }
        ensures fault { IfErr result (IsFaultOfStep (tell_stats (state_of self.now))) }
    {
        self.law();
        let mut all = Vec::from_slice(self.alloc, self.variables.functions())?;
        all.extend_from_slice(self.functions.functions())?;
        let per_level = self.pkg.live_sizes(all.as_slice())?;
        stats_text(all.len() as u64, &per_level, text);
        Ok(())
    }
}
