//! The lines of a script, carried out one after another.

ghost use Rattle.std.specs.Prelude.{◌≡◌, ◌≢◌, ℕ, ◌+◌, ◌≤◌, List, [], ◌∷◌, ◌++◌, IsTrue, true, false};
ghost use Rattle.cf_io.specs.Causes.{Rose};
ghost use Rattle.cf_io.specs.Shown.{ReadingIsTold, FilesAreTold, WritingIsTold};
ghost use Rattle.cf_reference.specs.Trees.{Formed};
ghost use Rattle.cf_reference.specs.Lines.{lines as lines_of};
ghost use Rattle.cf_reference.specs.Parsing.{parse};
ghost use Rattle.cf_reference.specs.States.{State};
ghost use Rattle.cf_reference.specs.Carrying.{Refuses, step};
ghost use Rattle.cf_reference.specs.Scripts.{step_parsed, run_lines, text_of};
ghost use Rattle.cf_script.specs.Views.{statement_of};
ghost use Rattle.cf_pkg.specs.Packages.{Keeps};
ghost use Rattle.cf_session.specs.Sessions.{state_of};
ghost use Rattle.cf_session.specs.Contents.{KeepsFiles};
ghost use Rattle.cf_session.specs.Stepping.{Puts};
ghost use Rattle.cf_top.specs.Views.{reason_view, last_name, line_of_name};
ghost use Rattle.cf_top.specs.Ends.{Meets};
ghost use Rattle.cf_top.specs.Carrying.{Carries, StopsAt, EndsLine, EndsRefusal};

use crate::reason::Reason;
use crate::status::Status;
use cf_io::{Files, Lines, Next, Sink, Source, put_all};
use cf_script::{ScriptFault, Statement, parse_line};
use cf_session::{Session, Stepped};
use cf_text::{Text, refused_text};
use std::alloc::Global;

/// What a line did.
#[derive(Clone, Copy, Debug, PartialEq, Eq)]
enum Carried {
    Goes,
    Stops(Status),
}

/// Reads the script and carries it out in the session.
pub(crate) fn run_script<S: Source, F: Files, K: Sink>(
    alloc: Global,
    session: &mut Session,
    script: &mut S,
    files: &mut F,
    out: &mut K,
) -> Status
    ensures run { ReadingIsTold (S.shown script.old) → FilesAreTold (F.shown files.old) →
        WritingIsTold (K.shown out.old) →
        Meets (run_lines (F.shown files.old).entries (state_of session.old) 1 0 (lines_of (S.shown script.old).left))
        (K.shown out.old).written (K.shown out.new).written
        (S.shown script.old).taken (S.shown script.new).taken (state_of session.new) result }
    ensures ended { result ≡ Status.Done → IsTrue (S.shown script.new).ended }
    ensures done { ReadingIsTold (S.shown script.old) → result ≡ Status.Done → (S.shown script.new).left ≡ [] }
    ensures words { result ≢ Status.Usage }
    ensures told { ((S.shown script.new).tells ≡ (S.shown script.old).tells)
        × ((K.shown out.new).tells ≡ (K.shown out.old).tells) }
    ensures later { ((S.shown script.old).faults ≤ (S.shown script.new).faults)
        × ((K.shown out.old).faults ≤ (K.shown out.new).faults) }
    ensures read { result ≡ Status.ReadFault → Rose (S.shown script.old).faults (S.shown script.new).faults }
    ensures write { result ≡ Status.WriteFault → Rose (K.shown out.old).faults (K.shown out.new).faults }
    ensures file { result ≡ Status.FileFault → Rose (F.shown files.old).faults (F.shown files.new).faults }
    ensures files { KeepsFiles (F.shown files.old) (F.shown files.new) }
    ensures kept { Keeps session.old.pkg session.new.pkg }
{
    let Ok(mut lines) = Lines::new(alloc) else {
        return Status::NoMemory;
    };
    run_lines(alloc, &mut lines, session, script, files, out)
}

/// Carries out the lines of a script whose buffer is new.
fn run_lines<S: Source, F: Files, K: Sink>(
    alloc: Global,
    lines: &mut Lines,
    session: &mut Session,
    script: &mut S,
    files: &mut F,
    out: &mut K,
) -> Status
    requires { lines.old ≡ record { bytes = []; handed = 0; ended = false } }
    ensures run { ReadingIsTold (S.shown script.old) → FilesAreTold (F.shown files.old) →
        WritingIsTold (K.shown out.old) →
        Meets (run_lines (F.shown files.old).entries (state_of session.old) 1 0 (lines_of (S.shown script.old).left))
        (K.shown out.old).written (K.shown out.new).written
        (S.shown script.old).taken (S.shown script.new).taken (state_of session.new) result }
    ensures ended { result ≡ Status.Done → IsTrue (S.shown script.new).ended }
    ensures done { ReadingIsTold (S.shown script.old) → result ≡ Status.Done → (S.shown script.new).left ≡ [] }
    ensures words { result ≢ Status.Usage }
    ensures told { ((S.shown script.new).tells ≡ (S.shown script.old).tells)
        × ((K.shown out.new).tells ≡ (K.shown out.old).tells) }
    ensures later { ((S.shown script.old).faults ≤ (S.shown script.new).faults)
        × ((K.shown out.old).faults ≤ (K.shown out.new).faults) }
    ensures read { result ≡ Status.ReadFault → Rose (S.shown script.old).faults (S.shown script.new).faults }
    ensures write { result ≡ Status.WriteFault → Rose (K.shown out.old).faults (K.shown out.new).faults }
    ensures file { result ≡ Status.FileFault → Rose (F.shown files.old).faults (F.shown files.new).faults }
    ensures files { KeepsFiles (F.shown files.old) (F.shown files.new) }
    ensures kept { Keeps session.old.pkg session.new.pkg }
{
    let mut text = Text::new();
    let mut number = 0u64;
    loop {
        number += 1;
        match lines.next_line(script) {
            Next::Line(line) => {
                if let Carried::Stops(status) = carry_line(
                    alloc, session, number, line, files, &mut text, out,
                ) {
                    return status;
                }
            }
            Next::End => return Status::Done,
            Next::TooLong => return refuse(&Reason::LineTooLong, number, &mut text, out),
            Next::ScriptTooLong => return refuse(&Reason::ScriptTooLong, number, &mut text, out),
            Next::ReadFault => return Status::ReadFault,
        }
    }
}

/// Carries out one line that isn't too long, and writes its reply or its refusal.
fn carry_line<F: Files, K: Sink>(
    alloc: Global,
    session: &mut Session,
    number: u64,
    line: &[u8],
    files: &mut F,
    text: &mut Text,
    out: &mut K,
) -> Carried
    ensures carries { FilesAreTold (F.shown files.old) → WritingIsTold (K.shown out.old) →
        Carries (step_parsed (F.shown files.old).entries (state_of session.old) (parse line.now)) number
        (state_of session.old) (K.shown out.old).written (state_of session.new) (K.shown out.new).written result }
    ensures stops { EndsLine result }
    ensures told { (K.shown out.new).tells ≡ (K.shown out.old).tells }
    ensures later { (K.shown out.old).faults ≤ (K.shown out.new).faults }
    ensures write { result ≡ Carried.Stops Status.WriteFault → Rose (K.shown out.old).faults (K.shown out.new).faults }
    ensures file { result ≡ Carried.Stops Status.FileFault →
        Rose (F.shown files.old).faults (F.shown files.new).faults }
    ensures files { KeepsFiles (F.shown files.old) (F.shown files.new) }
    ensures kept { Keeps session.old.pkg session.new.pkg }
{
    match parse_line(alloc, line) {
        Ok(statement) => carry_statement(session, number, &statement, files, text, out),
        Err(ScriptFault::Malformed) => Carried::Stops(refuse(
            &Reason::Malformed,
            number,
            text,
            out,
        )),
        Err(ScriptFault::WideNumber) => Carried::Stops(refuse(
            &Reason::WideNumber,
            number,
            text,
            out,
        )),
        Err(ScriptFault::TooDeep) => Carried::Stops(refuse(&Reason::TooDeep, number, text, out)),
        Err(ScriptFault::NoMemory) => Carried::Stops(Status::NoMemory),
    }
}

/// Carries out a statement, and writes its refusal if it is refused.
fn carry_statement<F: Files, K: Sink>(
    session: &mut Session,
    number: u64,
    statement: &Statement,
    files: &mut F,
    text: &mut Text,
    out: &mut K,
) -> Carried
    requires { Formed (statement_of statement.now) }
    ensures carries { FilesAreTold (F.shown files.old) → WritingIsTold (K.shown out.old) →
        Carries (step (F.shown files.old).entries (state_of session.old) (statement_of statement.now)) number
        (state_of session.old) (K.shown out.old).written (state_of session.new) (K.shown out.new).written result }
    ensures stops { EndsLine result }
    ensures told { (K.shown out.new).tells ≡ (K.shown out.old).tells }
    ensures later { (K.shown out.old).faults ≤ (K.shown out.new).faults }
    ensures write { result ≡ Carried.Stops Status.WriteFault → Rose (K.shown out.old).faults (K.shown out.new).faults }
    ensures file { result ≡ Carried.Stops Status.FileFault →
        Rose (F.shown files.old).faults (F.shown files.new).faults }
    ensures files { KeepsFiles (F.shown files.old) (F.shown files.new) }
    ensures kept { Keeps session.old.pkg session.new.pkg }
{
    match session.step(files, statement, text, out) {
        Stepped::Written => Carried::Goes,
        Stepped::Refused(refusal) => {
            Carried::Stops(refuse(&Reason::Statement(refusal), number, text, out))
        }
        Stepped::WriteFault => Carried::Stops(Status::WriteFault),
        Stepped::FileFault => Carried::Stops(Status::FileFault),
        Stepped::NoMemory => Carried::Stops(Status::NoMemory),
    }
}

/// Writes the refusal of a line, which ends the run.
fn refuse<K: Sink>(reason: &Reason, number: u64, text: &mut Text, out: &mut K) -> Status
    ensures refused { WritingIsTold (K.shown out.old) → (s : State) →
        StopsAt (Refuses (reason_view reason.now)) number s (K.shown out.old).written s (K.shown out.new).written result }
    ensures stops { EndsRefusal result }
    ensures told { (K.shown out.new).tells ≡ (K.shown out.old).tells }
    ensures later { (K.shown out.old).faults ≤ (K.shown out.new).faults }
    ensures write { result ≡ Status.WriteFault → Rose (K.shown out.old).faults (K.shown out.new).faults }
{
    if put_refusal(out, reason, number, text) {
        Status::Refused
    } else {
        Status::WriteFault
    }
}

/// Writes the refusal of a line.
fn put_refusal<K: Sink>(out: &mut K, reason: &Reason, number: u64, text: &mut Text) -> bool
    ensures { Puts (K.shown out.old) (K.shown out.new)
        (text_of number (Refuses (reason_view reason.now))) result }
{
    refused_text(number, reason.number(), reason.detail(), text);
    put(out, text.bytes()) && put_name(out, reason)
}

/// Writes the name that ends a refusal, and its line with it, if there is one.
fn put_name<K: Sink>(out: &mut K, reason: &Reason) -> bool
    ensures { Puts (K.shown out.old) (K.shown out.new)
        (line_of_name (last_name (reason_view reason.now))) result }
{
    match reason.name() {
        Some(name) => put(out, name) && put(out, b"\n"),
        None => true,
    }
}

/// Writes some bytes.
fn put<K: Sink>(out: &mut K, bytes: &[u8]) -> bool
    ensures { Puts (K.shown out.old) (K.shown out.new) bytes.now result }
{
    put_all(out, bytes)
}
