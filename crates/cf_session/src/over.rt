//! Calls over variables: restriction, quantification, sums and composition.

ghost use Rattle.std.specs.Prelude.{◌≡◌, None, IfOk, IfErr};
ghost use Rattle.cf_reference.specs.declared.grammar.Head.TheVariants as head;
ghost use Rattle.cf_reference.specs.Heads.{signature};
ghost use Rattle.cf_reference.specs.Calls.{call_refusal};
ghost use Rattle.cf_session.specs.Values.{meanings, AreOwned, AreOf, Calls, IsFaultOfCall};
ghost use Rattle.cf_session.specs.Building.{Grows};
ghost use Rattle.cf_session.specs.Keeping.{IsJobKept, AnswersCall};

use crate::faults::StepFault;
use crate::session::Session;
use crate::values::{
    Value, function_and_variables, function_position_bit, function_position_function, is_set,
    positions, two_functions_and_variables,
};
use cf_pkg::Func;

impl Session {
    /// The function with a bit replaced by another.
    pub(crate) fn restrict(&mut self, args: &[Value]) -> Result<Func, StepFault>
        requires owned { AreOwned self.old.pkg args.now }
        requires kinds { AreOf (signature head.Restrict).first (signature head.Restrict).further args.now }
        requires ruled { call_refusal head.Restrict (meanings self.old.pkg args.now) ≡ None }
        ensures calls { IfOk result (Calls head.Restrict (meanings self.old.pkg args.now) self.new.pkg) }
        ensures fault { IfErr result (IsFaultOfCall head.Restrict (meanings self.old.pkg args.now)) }
        ensures kept { IfOk result (IsJobKept self.new.pkg head.Restrict args.now) }
        ensures again { AnswersCall self.old self.new head.Restrict args.now result }
        ensures grows { Grows self.old self.new }
    {
        let (f, i, bit) = function_position_bit(args);
        let i = i.unsigned_abs() as u8;
        let r = cf_restrict::restrict(self.alloc, &mut self.pkg, f, i, is_set(bit))?;
        self.pkg.law(r);
        Ok(r)
    }

    /// 1 where some setting of the bits makes the function nonzero, else 0.
    pub(crate) fn exists(&mut self, args: &[Value]) -> Result<Func, StepFault>
        requires owned { AreOwned self.old.pkg args.now }
        requires kinds { AreOf (signature head.Exists).first (signature head.Exists).further args.now }
        requires ruled { call_refusal head.Exists (meanings self.old.pkg args.now) ≡ None }
        ensures calls { IfOk result (Calls head.Exists (meanings self.old.pkg args.now) self.new.pkg) }
        ensures fault { IfErr result (IsFaultOfCall head.Exists (meanings self.old.pkg args.now)) }
        ensures kept { IfOk result (IsJobKept self.new.pkg head.Exists args.now) }
        ensures again { AnswersCall self.old self.new head.Exists args.now result }
        ensures grows { Grows self.old self.new }
    {
        let (f, vars) = function_and_variables(args);
        let vars = positions(self.alloc, vars)?;
        let r = cf_restrict::exists(self.alloc, &mut self.pkg, f, vars.as_slice())?;
        self.pkg.law(r);
        Ok(r)
    }

    /// 1 where every setting of the bits makes the function nonzero, else 0.
    pub(crate) fn forall(&mut self, args: &[Value]) -> Result<Func, StepFault>
        requires owned { AreOwned self.old.pkg args.now }
        requires kinds { AreOf (signature head.Forall).first (signature head.Forall).further args.now }
        requires ruled { call_refusal head.Forall (meanings self.old.pkg args.now) ≡ None }
        ensures calls { IfOk result (Calls head.Forall (meanings self.old.pkg args.now) self.new.pkg) }
        ensures fault { IfErr result (IsFaultOfCall head.Forall (meanings self.old.pkg args.now)) }
        ensures kept { IfOk result (IsJobKept self.new.pkg head.Forall args.now) }
        ensures again { AnswersCall self.old self.new head.Forall args.now result }
        ensures grows { Grows self.old self.new }
    {
        let (f, vars) = function_and_variables(args);
        let vars = positions(self.alloc, vars)?;
        let r = cf_restrict::forall(self.alloc, &mut self.pkg, f, vars.as_slice())?;
        self.pkg.law(r);
        Ok(r)
    }

    /// One variable after another, the sum of the values for both settings of its bit.
    pub(crate) fn sum_out(&mut self, args: &[Value]) -> Result<Func, StepFault>
        requires owned { AreOwned self.old.pkg args.now }
        requires kinds { AreOf (signature head.SumOut).first (signature head.SumOut).further args.now }
        requires ruled { call_refusal head.SumOut (meanings self.old.pkg args.now) ≡ None }
        ensures calls { IfOk result (Calls head.SumOut (meanings self.old.pkg args.now) self.new.pkg) }
        ensures fault { IfErr result (IsFaultOfCall head.SumOut (meanings self.old.pkg args.now)) }
        ensures kept { IfOk result (IsJobKept self.new.pkg head.SumOut args.now) }
        ensures again { AnswersCall self.old self.new head.SumOut args.now result }
        ensures grows { Grows self.old self.new }
    {
        let (f, vars) = function_and_variables(args);
        let vars = positions(self.alloc, vars)?;
        let r = cf_restrict::sum_out(self.alloc, &mut self.pkg, f, vars.as_slice())?;
        self.pkg.law(r);
        Ok(r)
    }

    /// The first function with a bit replaced by whether the second one is nonzero.
    pub(crate) fn compose(&mut self, args: &[Value]) -> Result<Func, StepFault>
        requires owned { AreOwned self.old.pkg args.now }
        requires kinds { AreOf (signature head.Compose).first (signature head.Compose).further args.now }
        requires ruled { call_refusal head.Compose (meanings self.old.pkg args.now) ≡ None }
        ensures calls { IfOk result (Calls head.Compose (meanings self.old.pkg args.now) self.new.pkg) }
        ensures fault { IfErr result (IsFaultOfCall head.Compose (meanings self.old.pkg args.now)) }
        ensures kept { IfOk result (IsJobKept self.new.pkg head.Compose args.now) }
        ensures again { AnswersCall self.old self.new head.Compose args.now result }
        ensures grows { Grows self.old self.new }
    {
        let (f, i, g) = function_position_function(args);
        let i = i.unsigned_abs() as u8;
        let r = cf_restrict::compose(self.alloc, &mut self.pkg, f, i, g)?;
        self.pkg.law(r);
        Ok(r)
    }

    /// 1 where some setting of the bits makes both functions nonzero, else 0.
    pub(crate) fn and_exists(&mut self, args: &[Value]) -> Result<Func, StepFault>
        requires owned { AreOwned self.old.pkg args.now }
        requires kinds { AreOf (signature head.AndExists).first (signature head.AndExists).further args.now }
        requires ruled { call_refusal head.AndExists (meanings self.old.pkg args.now) ≡ None }
        ensures calls { IfOk result (Calls head.AndExists (meanings self.old.pkg args.now) self.new.pkg) }
        ensures fault { IfErr result (IsFaultOfCall head.AndExists (meanings self.old.pkg args.now)) }
        ensures kept { IfOk result (IsJobKept self.new.pkg head.AndExists args.now) }
        ensures again { AnswersCall self.old self.new head.AndExists args.now result }
        ensures grows { Grows self.old self.new }
    {
        let (f, g, vars) = two_functions_and_variables(args);
        let vars = positions(self.alloc, vars)?;
        let r = cf_restrict::and_exists(self.alloc, &mut self.pkg, f, g, vars.as_slice())?;
        self.pkg.law(r);
        Ok(r)
    }
}
