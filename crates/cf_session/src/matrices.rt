//! Calls of matrices: products, the transpose, and matrices of any level.

ghost use Rattle.std.specs.Prelude.{◌≡◌, None, IfOk, IfErr};
ghost use Rattle.cf_reference.specs.declared.grammar.Head.TheVariants as head;
ghost use Rattle.cf_reference.specs.Heads.{signature};
ghost use Rattle.cf_reference.specs.Calls.{call_refusal};
ghost use Rattle.cf_session.specs.Values.{meanings, AreOwned, AreOf, Calls, IsFaultOfCall};
ghost use Rattle.cf_session.specs.Building.{Grows};
ghost use Rattle.cf_session.specs.Keeping.{IsJobKept, AnswersCall};

use crate::faults::StepFault;
use crate::session::Session;
use crate::values::{Value, one_function, one_number, three_numbers, two_functions};
use cf_pkg::Func;

impl Session {
    /// The Kronecker product: the first function's value at the first half of an assignment times the
    /// second's at the second half.
    pub(crate) fn kron(&mut self, args: &[Value]) -> Result<Func, StepFault>
        requires owned { AreOwned self.old.pkg args.now }
        requires kinds { AreOf (signature head.Kron).first (signature head.Kron).further args.now }
        requires ruled { call_refusal head.Kron (meanings self.old.pkg args.now) ≡ None }
        ensures calls { IfOk result (Calls head.Kron (meanings self.old.pkg args.now) self.new.pkg) }
        ensures fault { IfErr result (IsFaultOfCall head.Kron (meanings self.old.pkg args.now)) }
        ensures kept { IfOk result (IsJobKept self.new.pkg head.Kron args.now) }
        ensures again { AnswersCall self.old self.new head.Kron args.now result }
        ensures grows { Grows self.old self.new }
    {
        let (f, g) = two_functions(args);
        let r = cf_kron::kron(self.alloc, &mut self.pkg, f, g)?;
        self.pkg.law(r);
        Ok(r)
    }

    /// The product of two matrices.
    pub(crate) fn matmul(&mut self, args: &[Value]) -> Result<Func, StepFault>
        requires owned { AreOwned self.old.pkg args.now }
        requires kinds { AreOf (signature head.Matmul).first (signature head.Matmul).further args.now }
        requires ruled { call_refusal head.Matmul (meanings self.old.pkg args.now) ≡ None }
        ensures calls { IfOk result (Calls head.Matmul (meanings self.old.pkg args.now) self.new.pkg) }
        ensures fault { IfErr result (IsFaultOfCall head.Matmul (meanings self.old.pkg args.now)) }
        ensures kept { IfOk result (IsJobKept self.new.pkg head.Matmul args.now) }
        ensures again { AnswersCall self.old self.new head.Matmul args.now result }
        ensures grows { Grows self.old self.new }
    {
        let (f, g) = two_functions(args);
        let r = cf_matmul::matmul(self.alloc, &mut self.pkg, f, g)?;
        self.pkg.law(r);
        Ok(r)
    }

    /// The matrix with rows and columns exchanged.
    pub(crate) fn transpose(&mut self, args: &[Value]) -> Result<Func, StepFault>
        requires owned { AreOwned self.old.pkg args.now }
        requires kinds { AreOf (signature head.Transpose).first (signature head.Transpose).further args.now }
        requires ruled { call_refusal head.Transpose (meanings self.old.pkg args.now) ≡ None }
        ensures calls { IfOk result (Calls head.Transpose (meanings self.old.pkg args.now) self.new.pkg) }
        ensures fault { IfErr result (IsFaultOfCall head.Transpose (meanings self.old.pkg args.now)) }
        ensures kept { IfOk result (IsJobKept self.new.pkg head.Transpose args.now) }
        ensures again { AnswersCall self.old self.new head.Transpose args.now result }
        ensures grows { Grows self.old self.new }
    {
        let f = one_function(args);
        let r = cf_kron::transpose(self.alloc, &mut self.pkg, f)?;
        self.pkg.law(r);
        Ok(r)
    }

    /// The identity matrix of a level.
    pub(crate) fn identity(&mut self, args: &[Value]) -> Result<Func, StepFault>
        requires owned { AreOwned self.old.pkg args.now }
        requires kinds { AreOf (signature head.Id).first (signature head.Id).further args.now }
        requires ruled { call_refusal head.Id (meanings self.old.pkg args.now) ≡ None }
        ensures calls { IfOk result (Calls head.Id (meanings self.old.pkg args.now) self.new.pkg) }
        ensures fault { IfErr result (IsFaultOfCall head.Id (meanings self.old.pkg args.now)) }
        ensures kept { IfOk result (IsJobKept self.new.pkg head.Id args.now) }
        ensures again { AnswersCall self.old self.new head.Id args.now result }
        ensures grows { Grows self.old self.new }
    {
        let level = one_number(args).unsigned_abs() as u8;
        let r = cf_kron::identity(self.alloc, &mut self.pkg, level)?;
        self.pkg.law(r);
        Ok(r)
    }

    /// The Walsh matrix of a level.
    pub(crate) fn walsh(&mut self, args: &[Value]) -> Result<Func, StepFault>
        requires owned { AreOwned self.old.pkg args.now }
        requires kinds { AreOf (signature head.Walsh).first (signature head.Walsh).further args.now }
        requires ruled { call_refusal head.Walsh (meanings self.old.pkg args.now) ≡ None }
        ensures calls { IfOk result (Calls head.Walsh (meanings self.old.pkg args.now) self.new.pkg) }
        ensures fault { IfErr result (IsFaultOfCall head.Walsh (meanings self.old.pkg args.now)) }
        ensures kept { IfOk result (IsJobKept self.new.pkg head.Walsh args.now) }
        ensures again { AnswersCall self.old self.new head.Walsh args.now result }
        ensures grows { Grows self.old self.new }
    {
        let level = one_number(args).unsigned_abs() as u8;
        let r = cf_kron::walsh(self.alloc, &mut self.pkg, level)?;
        self.pkg.law(r);
        Ok(r)
    }

    /// The matrix of a level that is 1 in a row and a column, and 0 elsewhere.
    pub(crate) fn unit(&mut self, args: &[Value]) -> Result<Func, StepFault>
        requires owned { AreOwned self.old.pkg args.now }
        requires kinds { AreOf (signature head.Unit).first (signature head.Unit).further args.now }
        requires ruled { call_refusal head.Unit (meanings self.old.pkg args.now) ≡ None }
        ensures calls { IfOk result (Calls head.Unit (meanings self.old.pkg args.now) self.new.pkg) }
        ensures fault { IfErr result (IsFaultOfCall head.Unit (meanings self.old.pkg args.now)) }
        ensures kept { IfOk result (IsJobKept self.new.pkg head.Unit args.now) }
        ensures again { AnswersCall self.old self.new head.Unit args.now result }
        ensures grows { Grows self.old self.new }
    {
        let (level, row, column) = three_numbers(args);
        let level = level.unsigned_abs() as u8;
        let row = row.unsigned_abs() as u64;
        let column = column.unsigned_abs() as u64;
        let r = cf_kron::unit(self.alloc, &mut self.pkg, level, row, column)?;
        self.pkg.law(r);
        Ok(r)
    }
}
