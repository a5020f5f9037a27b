//! Scripts that run over a source and a sink, without files.

ghost use Rattle.std.specs.Prelude.{◌≡◌};
ghost use Rattle.cf_session.specs.Sessions.{nothing_held};

use cf_io::{MemFiles, Sink, Source};
use cf_session::Session;
use cf_top::{Status, run};
use std::alloc::{AllocError, Global};

/// Runs a script in a new session, and tells how it ends. What it writes is not told here, so that
/// what a test knows of it is what it sees.
pub(crate) fn run_script<S: Source, K: Sink>(
    alloc: Global,
    session: &mut Session,
    script: &mut S,
    out: &mut K,
) -> Result<Status, AllocError>
    requires fresh { session.old ≡ nothing_held }
{
    let words = vec![in alloc; String::from_str(alloc, "run")?]?;
    let mut files = MemFiles::new(Vec::new(alloc), 1, Vec::new(alloc));
    Ok(run(alloc, &words, session, script, &mut files, out))
}
