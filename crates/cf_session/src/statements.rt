//! The statements that change a session.

ghost use Rattle.std.specs.Prelude.{◌≡◌, ◌≤◌, ◌+◌, ◌^◌, ◌++◌, [], nat_le, length, false, Some, IsSome, IfErr, IfOk, OnOk, OnErr};
ghost use Rattle.std.specs.List.{list_any};
ghost use Rattle.cf_pkg.specs.Packages.{OwnsFunction, Keeps, meaning};
ghost use Rattle.cf_reference.specs.States.{level_in, is_among, is_bound, repeats, bind as bind_flat};
ghost use Rattle.cf_reference.specs.Carrying.{Refuses, Goes, clashes, set_level, declare};
ghost use Rattle.cf_session.specs.Building.{Grows};
ghost use Rattle.cf_session.specs.Faults.{reason_of};
ghost use Rattle.cf_session.specs.Sessions.{names_of, state_of};
ghost use Rattle.cf_session.specs.Statements.{bytes_of, IsFaultOfStep, ArePositions};

use crate::bindings::Bindings;
use crate::faults::{Refusal, StepFault};
use crate::session::Session;
use crate::walk::is_below;
use cf_names::{NameBook, NoMemory};
use cf_pkg::{Func, Pkg, variables};
use std::alloc::Global;

/// Whether some name stands twice.
fn repeats(alloc: Global, names: &[&[u8]]) -> Result<bool, NoMemory>
    ensures { IfOk result (λ b. b ≡ repeats (bytes_of names.now)) }
{
    let mut seen = NameBook::new(alloc);
    for name in names {
        if seen.find(name).is_some() {
            return Ok(true);
        }
        seen.number(name)?;
    }
    Ok(false)
}

/// Adds variables behind those that there are. Without memory some may be added.
fn add_variables(
    pkg: &mut Pkg,
    level: u8,
    bound: &mut Bindings,
    names: &[&[u8]],
) -> Result<(), NoMemory>
    requires level { level ≤ 7 }
    requires room { length bound.old + length names.now ≤ 2 ^ level }
    requires positions { ArePositions pkg.old level bound.old }
    requires new { list_any (is_among (names_of bound.old)) (bytes_of names.now) ≡ false }
    requires once { repeats (bytes_of names.now) ≡ false }
    ensures added { OnOk result (names_of bound.new ≡ names_of bound.old ++ bytes_of names.now) }
    ensures positions { OnOk result (ArePositions pkg.new level bound.new) }
    ensures kept { Keeps pkg.old pkg.new }
{
    for name in names {
        let f = pkg.variable(level, bound.len() as u8)?;
        bound.bind(name, f)?;
    }
    Ok(())
}

impl Session {
    /// Sets the level, which is set once.
    pub(crate) fn set_level(&mut self, k: i128) -> Result<(), Refusal>
        ensures goes { OnOk result (set_level (state_of self.old) k ≡ Goes (state_of self.new) []) }
        ensures refused { IfErr result (λ r. set_level (state_of self.old) k ≡ Refuses (reason_of r)) }
        ensures same { OnErr result (self.new ≡ self.old) }
        ensures package { self.new.pkg ≡ self.old.pkg }
    {
        self.law();
        if self.level.is_some() {
            return Err(Refusal::LevelAgain);
        }
        if !is_below(k, 8) {
            return Err(Refusal::BadLevel);
        }
        self.level = Some(k as u8);
        Ok(())
    }

    /// Whether a variable or a function has the name.
    fn is_bound(&self, name: &[u8]) -> bool
        ensures { result ≡ is_bound (state_of self.now) name.now }
    {
        self.func_of(name).is_some()
    }

    /// Whether one of the names is bound.
    fn is_any_bound(&self, names: &[&[u8]]) -> bool
        ensures { result ≡ list_any (is_bound (state_of self.now)) (bytes_of names.now) }
    {
        for name in names {
            if self.is_bound(name) {
                return true;
            }
        }
        false
    }

    /// Whether one of the names is bound, or stands twice.
    fn clashes(&self, names: &[&[u8]]) -> Result<bool, NoMemory>
        ensures { IfOk result (λ b. b ≡ clashes (state_of self.now) (bytes_of names.now)) }
    {
        if self.is_any_bound(names) {
            return Ok(true);
        }
        repeats(self.alloc, names)
    }

    /// Whether there are positions for so many variables more.
    fn has_room(&self, count: usize) -> bool
        ensures { result ≡ nat_le (length self.now.variables + count) (2 ^ level_in (state_of self.now)) }
    {
        self.law();
        let most = usize::from(variables(self.level_of_variables()));
        count <= most - self.variables.len()
    }

    /// Declares variables. If it fails, level and names are as before.
    pub(crate) fn declare(&mut self, names: &[&[u8]]) -> Result<(), StepFault>
        requires set { IsSome self.old.level }
        ensures goes { OnOk result (declare (state_of self.old) (bytes_of names.now) ≡ Goes (state_of self.new) []) }
        ensures fault { IfErr result (IsFaultOfStep (declare (state_of self.old) (bytes_of names.now))) }
        ensures same { OnErr result (Grows self.old self.new) }
        ensures kept { Keeps self.old.pkg self.new.pkg }
    {
        self.law();
        if self.clashes(names)? {
            return Err(StepFault::Refused(Refusal::Taken));
        }
        if !self.has_room(names.len()) {
            return Err(StepFault::Refused(Refusal::TooManyVars));
        }
        let level = self.level_of_variables();
        let mut bound = self.variables.copy()?;
        add_variables(&mut self.pkg, level, &mut bound, names)?;
        self.variables = bound;
        Ok(())
    }

    /// Binds a name to a function of the package. A name that is bound anew keeps its place.
    pub(crate) fn bind_function(&mut self, name: &[u8], f: Func) -> Result<(), NoMemory>
        requires set { IsSome self.old.level }
        requires owned { OwnsFunction self.old.pkg f }
        requires free { is_among (state_of self.old).variables name.now ≡ false }
        ensures level { self.new.level ≡ self.old.level }
        ensures variables { self.new.variables ≡ self.old.variables }
        ensures package { self.new.pkg ≡ self.old.pkg }
        ensures bound { OnOk result ((state_of self.new).functions ≡ bind_flat (state_of self.old).functions name.now (meaning self.old.pkg f)) }
        ensures no_memory { OnErr result (self.new ≡ self.old) }
    {
        self.law();
        self.functions.bind(name, f)?;
        Ok(())
    }
}
