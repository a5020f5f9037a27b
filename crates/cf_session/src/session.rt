//! A session.

ghost use Rattle.std.specs.Prelude.{◌≡◌, ◌↔◌, ℕ, Option, IfOk, IfSome, IsNone, Some};
ghost use Rattle.cf_reference.specs.States.{named};
ghost use Rattle.cf_pkg.specs.Packages.{OwnsFunction, meaning};
ghost use Rattle.cf_session.specs.Sessions.{nothing_held, state_of, IsHeld, IsOneWith};

use crate::bindings::Bindings;
use cf_names::NoMemory;
use cf_pkg::{Func, Pkg};
use std::alloc::Global;
use std::marker::Model;

/// What a script's statements speak of: a level, variables and functions, in a package.
#[derive(Drop)]
pub struct Session {
    pub(crate) alloc: Global,
    pub(crate) pkg: Pkg,
    pub(crate) level: Option<u8>,
    pub(crate) variables: Bindings,
    pub(crate) functions: Bindings,
}

impl Model for Session {
    ghost use Rattle.std.specs.Coded.{codes};
    ghost use Rattle.cf_model.specs.contracts.terms.Term as term;
    ghost use Rattle.cf_session.specs.Sessions.{Held, IsHeld};

    ghost Value = { Held };

    ghost coded = { Prim.hlevel (codes, term.the_row.coded) };

    ghost view = { λ s. record { pkg = s.pkg; level = s.level; variables = s.variables; functions = s.functions } };

    ghost invariant = { λ s. IsHeld (record { pkg = s.pkg; level = s.level; variables = s.variables; functions = s.functions }) };
}

impl Session {
    /// A session without a level and without names.
    pub fn new(alloc: Global) -> Result<Session, NoMemory>
        ensures { IfOk result (λ s. s ≡ nothing_held) }
    {
        Ok(Session {
            alloc,
            pkg: Pkg::new(alloc)?,
            level: None,
            variables: Bindings::new(alloc),
            functions: Bindings::new(alloc),
        })
    }

    /// The package of the functions.
    pub fn pkg(&self) -> &Pkg
        ensures { result.now ≡ self.now.pkg }
    {
        &self.pkg
    }

    /// The session is as sessions are. It does nothing.
    pub(crate) fn law(&self)
        ensures { IsHeld self.now }
    {
        let _ = &self.alloc;
    }

    /// The function of a variable or of a named function.
    fn look_up(&self, name: &[u8]) -> Option<Func>
        ensures owned { IfSome result (λ f. OwnsFunction self.now.pkg f) }
        ensures means { IfSome result (λ f. named (state_of self.now) name.now ≡ Some (meaning self.now.pkg f)) }
        ensures none { IsNone result ↔ IsNone (named (state_of self.now) name.now) }
    {
        self.law();
        match self.variables.find(name) {
            Some(f) => Some(f),
            None => self.functions.find(name),
        }
    }

    /// The function of a variable or of a named function; None exactly where the name is neither. Two
    /// names have one `Func` exactly where they stand for equal functions.
    pub fn func_of(&self, name: &[u8]) -> Option<Func>
        ensures owned { IfSome result (λ f. OwnsFunction self.now.pkg f) }
        ensures means { IfSome result (λ f. named (state_of self.now) name.now ≡ Some (meaning self.now.pkg f)) }
        ensures one { IfSome result (IsOneWith self.now name.now) }
        ensures none { IsNone result ↔ IsNone (named (state_of self.now) name.now) }
    {
        let f = self.look_up(name)?;
        self.pkg.law(f);
        Some(f)
    }
}
