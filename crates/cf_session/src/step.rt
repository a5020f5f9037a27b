//! A statement.

ghost use Rattle.std.specs.Prelude.{◌≡◌, ◌≢◌, ◌<◌, ◌≤◌, ◌++◌, [], true, false, length, IsSome, IfErr, OnOk, OnErr};
ghost use Rattle.cf_io.specs.Causes.{Rose};
ghost use Rattle.cf_io.specs.Shown.{SinkView, FilesAreTold, WritingIsTold};
ghost use Rattle.cf_pkg.specs.Packages.{Keeps};
ghost use Rattle.cf_reference.specs.Trees.{Formed, IsFormed};
ghost use Rattle.cf_reference.specs.Trees as tree;
ghost use Rattle.cf_reference.specs.Answers.{list_reply};
ghost use Rattle.cf_reference.specs.States.{Files as Entries, is_among};
ghost use Rattle.cf_reference.specs.Loading.{file_limit};
ghost use Rattle.cf_reference.specs.Carrying.{Goes, define, load_circuit, tell_list, step};
ghost use Rattle.cf_script.specs.Views.{tree_of, statement_of};
ghost use Rattle.cf_session.specs.Sessions.{state_of};
ghost use Rattle.cf_session.specs.Stepping.{LeadsTo, Replies, IsAnswerTo, NeedsNoMemory, Puts, Does, wants_level, lacks_level, Answers, AnswersAlways, answer_of, stepped_by, reads_file, FilesAreToldFor, IsSilent, ShowsAnswer};
ghost use Rattle.cf_session.specs.Contents.{KeepsFiles};
ghost use Rattle.cf_session.specs.Statements.{IsFaultOfStep};
ghost use Rattle.cf_session.specs.Building.{Grows};

use crate::faults::{Refusal, StepFault};
use crate::load::LoadFault;
use crate::session::Session;
use cf_io::{Files, Sink, put_all};
use cf_script::{Expr, NameSlices, Statement};
use cf_text::{Text, bits_text, listed_text};
use cf_witness::Listing;

/// What a statement did.
#[derive(Debug, Drop)]
pub enum Stepped {
    /// It was carried out, and its whole reply was written.
    Written,
    Refused(Refusal),
    /// A write failed.
    WriteFault,
    /// A file couldn't be read.
    FileFault,
    NoMemory,
}

/// Writes a text.
fn put_text<K: Sink>(out: &mut K, text: &Text) -> bool
    ensures { Puts (K.shown out.old) (K.shown out.new) text.now result }
{
    put_all(out, text.bytes())
}

/// Writes assignments, one in a line, and how many they are.
fn put_listing<K: Sink>(out: &mut K, listing: Listing, text: &mut Text) -> bool
    requires { length listing ≤ 1000 }
    ensures { Puts (K.shown out.old) (K.shown out.new) (list_reply listing) result }
{
    let mut count = 0u64;
    for at in listing {
        bits_text(at, text);
        if !put_text(out, text) {
            return false;
        }
        count += 1;
    }
    listed_text(count, text);
    put_text(out, text)
}

/// The answer where a statement isn't carried out.
fn faulted(fault: StepFault) -> Stepped
    ensures { result ≡ answer_of fault }
{
    match fault {
        StepFault::NoMemory => Stepped::NoMemory,
        StepFault::Refused(refusal) => Stepped::Refused(refusal),
    }
}

/// Writes an answer, if there is one.
fn answer<K: Sink>(made: Result<(), StepFault>, text: &Text, out: &mut K) -> Stepped
    ensures { Answers made text.now (K.shown out.old) (K.shown out.new) result }
{
    match made {
        Ok(()) => {
            if put_text(out, text) {
                Stepped::Written
            } else {
                Stepped::WriteFault
            }
        }
        Err(fault) => faulted(fault),
    }
}

/// Writes an answer that wants no memory, if there is one.
fn answer_always<K: Sink>(made: Result<(), Refusal>, text: &Text, out: &mut K) -> Stepped
    ensures { AnswersAlways made text.now (K.shown out.old) (K.shown out.new) result }
{
    match made {
        Ok(()) => {
            if put_text(out, text) {
                Stepped::Written
            } else {
                Stepped::WriteFault
            }
        }
        Err(refusal) => Stepped::Refused(refusal),
    }
}

/// The answer of a change of the session.
fn changed(change: Result<(), StepFault>) -> Stepped
    ensures { result ≡ stepped_by change }
{
    match change {
        Ok(()) => Stepped::Written,
        Err(fault) => faulted(fault),
    }
}

/// Whether a statement wants a level.
fn wants_level(statement: &Statement) -> bool
    ensures { result ≡ wants_level (statement_of statement.now) }
{
    match statement {
        Statement::Empty => false,
        Statement::Level(_) => false,
        _ => true,
    }
}

impl Session {
    /// Whether a statement is refused since there is no level.
    fn lacks_level(&self, statement: &Statement) -> bool
        ensures { result ≡ lacks_level (state_of self.now) (statement_of statement.now) }
    {
        if self.level.is_some() {
            false
        } else {
            wants_level(statement)
        }
    }

    /// Binds a name to the function of an expression. If it fails, level and names are as before.
    fn define(&mut self, name: &[u8], expr: &Expr) -> Result<(), StepFault>
        requires set { IsSome self.old.level }
        requires formed { IsFormed (tree_of expr.now) }
        ensures goes { OnOk result (define (state_of self.old) name.now (tree_of expr.now) ≡ Goes (state_of self.new) []) }
        ensures fault { IfErr result (IsFaultOfStep (define (state_of self.old) name.now (tree_of expr.now))) }
        ensures same { OnErr result (Grows self.old self.new) }
        ensures kept { Keeps self.old.pkg self.new.pkg }
    {
        if self.is_variable(name) {
            return Err(StepFault::Refused(Refusal::Taken));
        }
        let f = self.build(expr)?;
        self.bind_function(name, f)?;
        Ok(())
    }

    /// Whether a variable has the name.
    fn is_variable(&self, name: &[u8]) -> bool
        ensures { result ≡ is_among (state_of self.now).variables name.now }
    {
        self.variables.place(name).is_some()
    }

    /// The first assignments of a value, each in a line.
    fn step_list<K: Sink>(
        &self,
        name: &[u8],
        v: i128,
        most: i128,
        text: &mut Text,
        out: &mut K,
    ) -> Stepped
        requires set { IsSome self.now.level }
        ensures does { Does (tell_list (state_of self.now) name.now v most) self.now self.now
            (K.shown out.old) (K.shown out.new) result }
        ensures file { result ≢ Stepped.FileFault }
    {
        match self.list(name, v, most) {
            Ok(listing) => {
                if put_listing(out, listing, text) {
                    Stepped::Written
                } else {
                    Stepped::WriteFault
                }
            }
            Err(fault) => faulted(fault),
        }
    }

    /// Loads a circuit, if there is a level.
    fn step_load<F: Files>(&mut self, files: &mut F, prefix: &[u8], file: &[u8]) -> Stepped
        ensures does { FilesAreTold (F.shown files.old) → (at : SinkView) → Does
            (load_circuit (F.shown files.old).entries (state_of self.old) prefix.now file.now)
            self.old self.new at at result }
        ensures names { result ≢ Stepped.Written → Grows self.old self.new }
        ensures kept { Keeps self.old.pkg self.new.pkg }
        ensures shows { ShowsAnswer (F.shown files.old) (F.shown files.new) result }
        ensures write { result ≢ Stepped.WriteFault }
        ensures files { KeepsFiles (F.shown files.old) (F.shown files.new) }
    {
        if self.level.is_none() {
            return Stepped::Refused(Refusal::NoLevel);
        }
        match self.load(files, prefix, file) {
            Ok(()) => Stepped::Written,
            Err(LoadFault::Step(fault)) => faulted(fault),
            Err(LoadFault::FileFault) => Stepped::FileFault,
        }
    }

    /// Carries out a statement that reads no file.
    fn step_on<K: Sink>(&mut self, statement: &Statement, text: &mut Text, out: &mut K) -> Stepped
        requires formed { Formed (statement_of statement.now) }
        requires no_file { reads_file (statement_of statement.now) ≡ false }
        ensures does { (entries : Entries) → Does (step entries (state_of self.old) (statement_of statement.now))
            self.old self.new (K.shown out.old) (K.shown out.new) result }
        ensures file { result ≢ Stepped.FileFault }
        ensures memory { NeedsNoMemory (statement_of statement.now) → result ≢ Stepped.NoMemory }
    {
        if self.lacks_level(statement) {
            return Stepped::Refused(Refusal::NoLevel);
        }
        match statement {
            Statement::Empty => Stepped::Written,
            Statement::Level(k) => match self.set_level(*k) {
                Ok(()) => Stepped::Written,
                Err(refusal) => Stepped::Refused(refusal),
            },
            Statement::Vars(names) => changed(self.declare(names.items())),
            Statement::Let(name, expr) => changed(self.define(name, expr)),
            Statement::Value(name, bits) => {
                answer_always(self.value(name, bits, text), text, out)
            }
            Statement::First(name, v) => answer_always(self.first(name, *v, text), text, out),
            Statement::List(name, v, most) => self.step_list(name, *v, *most, text, out),
            Statement::Entry(name, row, column) => {
                answer_always(self.entry(name, *row, *column, text), text, out)
            }
            Statement::Equal(name, other) => answer(self.equal(name, other, text), text, out),
            Statement::Size(name) => answer(self.size(name, text), text, out),
            Statement::Stats => answer(self.stats(text), text, out),
            Statement::Load(..) => unreachable!(),
        }
    }

    /// Carries out a statement, and writes its reply. Whatever the answer is but `Written`, level
    /// and names are as before; and nothing was written, but on `WriteFault` a front of the reply.
    /// Only `load` reads a file. The text is room for the reply, and what it holds counts for
    /// nothing.
    pub fn step<F: Files, K: Sink>(
        &mut self,
        files: &mut F,
        statement: &Statement,
        text: &mut Text,
        out: &mut K,
    ) -> Stepped
        requires { Formed (statement_of statement.now) }

        // Where the files that the statement reads are told, the reference says what it leads to and
        // what it replies. Only a fault or want of memory cuts it off.
        ensures leads { FilesAreToldFor (F.shown files.old) (statement_of statement.now) → LeadsTo
            (step (F.shown files.old).entries (state_of self.old) (statement_of statement.now))
            self.old self.new result }
        ensures replies { FilesAreToldFor (F.shown files.old) (statement_of statement.now) →
            WritingIsTold (K.shown out.old) → Replies
            (step (F.shown files.old).entries (state_of self.old) (statement_of statement.now))
            (K.shown out.old).written (K.shown out.new).written result }
        ensures complete { FilesAreToldFor (F.shown files.old) (statement_of statement.now) →
            ¬ Rose (F.shown files.old).faults (F.shown files.new).faults →
            ¬ Rose (K.shown out.old).faults (K.shown out.new).faults →
            result ≢ Stepped.NoMemory → IsAnswerTo
            (step (F.shown files.old).entries (state_of self.old) (statement_of statement.now)) result }

        // Whatever the files tell.
        ensures names { result ≢ Stepped.Written → Grows self.old self.new }
        ensures silent { IsSilent result (K.shown out.old) (K.shown out.new) }
        ensures memory { NeedsNoMemory (statement_of statement.now) → result ≢ Stepped.NoMemory }
        ensures reads { result ≡ Stepped.FileFault → reads_file (statement_of statement.now) ≡ true }
        ensures unread { reads_file (statement_of statement.now) ≡ false → files.new ≡ files.old }

        // Faults and refused files have causes.
        ensures write { result ≡ Stepped.WriteFault → Rose (K.shown out.old).faults (K.shown out.new).faults }
        ensures file { result ≡ Stepped.FileFault → Rose (F.shown files.old).faults (F.shown files.new).faults }
        ensures missing { result ≡ Stepped.Refused Refusal.NoFile →
            Rose (F.shown files.old).misses (F.shown files.new).misses }
        ensures large { result ≡ Stepped.Refused Refusal.FileTooLarge → file_limit < (F.shown files.new).given }

        // What stays as it was.
        ensures kept { Keeps self.old.pkg self.new.pkg }
        ensures told { (K.shown out.new).tells ≡ (K.shown out.old).tells }
        ensures later { (K.shown out.old).faults ≤ (K.shown out.new).faults }
        ensures files { KeepsFiles (F.shown files.old) (F.shown files.new) }
    {
        match statement {
            Statement::Load(prefix, file) => self.step_load(files, prefix, file),
            _ => self.step_on(statement, text, out),
        }
    }
}
