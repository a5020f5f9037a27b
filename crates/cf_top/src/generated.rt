//! The script of a seed, carried out.

ghost use Rattle.std.specs.Prelude.{◌≡◌, ◌≢◌, ℕ, ◌≤◌};
ghost use Rattle.cf_io.specs.Causes.{Rose};
ghost use Rattle.cf_io.specs.Shown.{FilesAreTold, WritingIsTold};
ghost use Rattle.cf_reference.specs.Generator.{gen_script};
ghost use Rattle.cf_reference.specs.Lines.{lines as lines_of};
ghost use Rattle.cf_reference.specs.Scripts.{run_lines, reads_nothing};
ghost use Rattle.cf_pkg.specs.Packages.{Keeps};
ghost use Rattle.cf_session.specs.Sessions.{state_of};
ghost use Rattle.cf_session.specs.Contents.{KeepsFiles};
ghost use Rattle.cf_top.specs.Ends.{Meets};

use crate::script::run_script;
use crate::status::Status;
use cf_gen::gen_script;
use cf_io::{Files, Sink, SureSource};
use cf_session::Session;
use std::alloc::Global;

/// The most bytes of a read.
const PIECE: usize = 65_536;

/// Carries out the script of a seed in the session.
pub(crate) fn run_generated<F: Files, K: Sink>(
    alloc: Global,
    seed: u64,
    session: &mut Session,
    files: &mut F,
    out: &mut K,
) -> Status
    ensures run { let entries = (F.shown files.old).entries in
        FilesAreTold (F.shown files.old) → WritingIsTold (K.shown out.old) → (taken : ℕ) → Meets
        (reads_nothing (run_lines entries (state_of session.old) 1 0 (lines_of (gen_script seed))))
        (K.shown out.old).written (K.shown out.new).written taken taken
        (state_of session.new) result }
    ensures words { result ≢ Status.Usage }
    ensures read { result ≢ Status.ReadFault }
    ensures write { result ≡ Status.WriteFault → Rose (K.shown out.old).faults (K.shown out.new).faults }
    ensures file { result ≡ Status.FileFault → Rose (F.shown files.old).faults (F.shown files.new).faults }
    ensures told { (K.shown out.new).tells ≡ (K.shown out.old).tells }
    ensures later { (K.shown out.old).faults ≤ (K.shown out.new).faults }
    ensures files { KeepsFiles (F.shown files.old) (F.shown files.new) }
    ensures kept { Keeps session.old.pkg session.new.pkg }
{
    let Ok(bytes) = gen_script(alloc, seed) else {
        return Status::NoMemory;
    };
    let mut script = SureSource::new(bytes, PIECE);
    run_script(alloc, session, &mut script, files, out)
}
