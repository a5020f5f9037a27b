//! A run of the program over any source, files and sink.
#![tactic(auto)]

mod forms;
mod generated;
mod reason;
mod script;
mod status;
mod sure;

ghost use Rattle.std.specs.Prelude.{◌≡◌, ◌≢◌, ℕ, ◌≤◌, ◌⊎◌, ◌++◌, IsTrue, Some, None, map, string_bytes};
ghost use Rattle.cf_io.specs.Causes.{Rose};
ghost use Rattle.cf_io.specs.Shown.{ReadingIsTold, FilesAreTold, WritingIsTold};
ghost use Rattle.cf_reference.specs.States.{initial};
ghost use Rattle.cf_reference.specs.Forms as asked;
ghost use Rattle.cf_reference.specs.Scripts.{ref, unread, usage_end};
ghost use Rattle.cf_pkg.specs.Packages.{Keeps};
ghost use Rattle.cf_session.specs.Sessions.{state_of};
ghost use Rattle.cf_session.specs.Contents.{KeepsFiles};
ghost use Rattle.cf_top.specs.Ends.{Meets, Completes};

use cf_io::{Files, Sink, Source, put_all};
use cf_session::Session;
use cf_text::{Text, usage_text};
use forms::{Form, form_of};
use generated::run_generated;
use script::run_script;
pub use status::Status;
use std::alloc::Global;

/// Does what the words say: `run` carries out the script of the source in the session, which has
/// neither a level nor names, `gen N` carries out the script of the seed N, and any other words get
/// the usage line.
///
/// The script's replies are written to `out`, line by line, and the last one is a refusal where a
/// line is refused. The circuits that it loads are read from `files`.
pub fn run<S: Source, F: Files, K: Sink>(
    alloc: Global,
    words: &[String],
    session: &mut Session,
    script: &mut S,
    files: &mut F,
    out: &mut K,
) -> Status
    requires fresh { state_of session.old ≡ initial }

    // Where the bytes that are read and written are told, and names and contents of the files, the
    // reference run says what is written, how it ends and which level and names the session has
    // then. Only a fault or want of memory cuts it off.
    ensures run { let said = map string_bytes words.now in
        (asked.form_of said ≡ Some asked.Run → ReadingIsTold (S.shown script.old)) →
        (asked.form_of said ≢ None → FilesAreTold (F.shown files.old)) →
        WritingIsTold (K.shown out.old) →
        Meets (ref (F.shown files.old).entries said (S.shown script.old).left)
        (K.shown out.old).written (K.shown out.new).written
        (S.shown script.old).taken (S.shown script.new).taken (state_of session.new) result }
    ensures complete { let said = map string_bytes words.now in
        (asked.form_of said ≡ Some asked.Run → ReadingIsTold (S.shown script.old)) →
        (asked.form_of said ≢ None → FilesAreTold (F.shown files.old)) →
        WritingIsTold (K.shown out.old) →
        ¬ Rose (S.shown script.old).faults (S.shown script.new).faults →
        ¬ Rose (F.shown files.old).faults (F.shown files.new).faults →
        ¬ Rose (K.shown out.old).faults (K.shown out.new).faults →
        result ≢ Status.NoMemory →
        Completes (ref (F.shown files.old).entries said (S.shown script.old).left)
        (K.shown out.old).written (K.shown out.new).written result }

    // At Done the source has ended under `run`, and nothing is left of it. Otherwise all is left.
    ensures ended { asked.form_of (map string_bytes words.now) ≡ Some asked.Run →
        result ≡ Status.Done → IsTrue (S.shown script.new).ended }
    ensures done { let form = asked.form_of (map string_bytes words.now) in
        ReadingIsTold (S.shown script.old) → result ≡ Status.Done →
        (S.shown script.new).left ≡ unread form (S.shown script.old).left }

    // Only `run` reads the source, and words that have no form want neither files nor memory.
    ensures usage { result ≡ Status.Usage → asked.form_of (map string_bytes words.now) ≡ None }
    ensures others { asked.form_of (map string_bytes words.now) ≡ None →
        (result ≡ Status.Usage) ⊎ (result ≡ Status.WriteFault) }
    ensures unread { asked.form_of (map string_bytes words.now) ≢ Some asked.Run →
        script.new ≡ script.old }
    ensures source { result ≡ Status.ReadFault →
        asked.form_of (map string_bytes words.now) ≡ Some asked.Run }
    ensures untouched { asked.form_of (map string_bytes words.now) ≡ None →
        (files.new ≡ files.old) × (session.new ≡ session.old) }

    // Faults have causes.
    ensures read { result ≡ Status.ReadFault → Rose (S.shown script.old).faults (S.shown script.new).faults }
    ensures write { result ≡ Status.WriteFault → Rose (K.shown out.old).faults (K.shown out.new).faults }
    ensures file { result ≡ Status.FileFault → Rose (F.shown files.old).faults (F.shown files.new).faults }

    // What stays as it was.
    ensures told { ((S.shown script.new).tells ≡ (S.shown script.old).tells)
        × ((K.shown out.new).tells ≡ (K.shown out.old).tells) }
    ensures later { ((S.shown script.old).faults ≤ (S.shown script.new).faults)
        × ((K.shown out.old).faults ≤ (K.shown out.new).faults) }
    ensures files { KeepsFiles (F.shown files.old) (F.shown files.new) }
    ensures kept { Keeps session.old.pkg session.new.pkg }
{
    match form_of(words) {
        Some(Form::Run) => run_script(alloc, session, script, files, out),
        Some(Form::Generated(seed)) => run_generated(alloc, seed, session, files, out),
        None => tell_usage(out),
    }
}

/// Writes the usage line.
fn tell_usage<K: Sink>(out: &mut K) -> Status
    ensures run { WritingIsTold (K.shown out.old) → (taken : ℕ) →
        Meets usage_end (K.shown out.old).written (K.shown out.new).written taken taken initial result }
    ensures answers { (result ≡ Status.Usage) ⊎ (result ≡ Status.WriteFault) }
    ensures write { result ≡ Status.WriteFault → Rose (K.shown out.old).faults (K.shown out.new).faults }
    ensures told { (K.shown out.new).tells ≡ (K.shown out.old).tells }
    ensures later { (K.shown out.old).faults ≤ (K.shown out.new).faults }
{
    let mut text = Text::new();
    usage_text(&mut text);
    if put_all(out, text.bytes()) {
        Status::Usage
    } else {
        Status::WriteFault
    }
}
