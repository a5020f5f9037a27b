//! Runs over a source and files of which no call fails.

ghost use Rattle.std.specs.Prelude.{◌≡◌, ◌≢◌, map, string_bytes};
ghost use Rattle.cf_io.specs.Causes.{Rose};
ghost use Rattle.cf_io.specs.Shown.{WritingIsTold};
ghost use Rattle.cf_io.specs.Sure.{sure_view, sure_files_view};
ghost use Rattle.cf_reference.specs.States.{initial};
ghost use Rattle.cf_reference.specs.Scripts.{ref};
ghost use Rattle.cf_session.specs.Sessions.{state_of};
ghost use Rattle.cf_top.specs.Ends.{Completes};

use crate::run;
use crate::status::Status;
use cf_io::{Sink, SureFiles, SureSource};
use cf_session::Session;
use std::alloc::Global;

/// A run over a script and files in memory that never fail. It never answers that the script or a
/// file couldn't be read; and where no write fails, only want of memory keeps it from its end.
pub(crate) fn run_in_memory<K: Sink>(
    alloc: Global,
    words: &[String],
    session: &mut Session,
    script: &mut SureSource,
    files: &mut SureFiles,
    out: &mut K,
) -> Status
    requires fresh { state_of session.old ≡ initial }
    ensures read { result ≢ Status.ReadFault }
    ensures file { result ≢ Status.FileFault }
    ensures complete { WritingIsTold (K.shown out.old) →
        ¬ Rose (K.shown out.old).faults (K.shown out.new).faults →
        result ≢ Status.NoMemory →
        Completes
        (ref (sure_files_view files.old).entries (map string_bytes words.now) (sure_view script.old).left)
        (K.shown out.old).written (K.shown out.new).written result }
{
    run(alloc, words, session, script, files, out)
}
