//! The program: a script from standard input or of a seed, circuits from the files of the current
//! folder, replies to standard output, and an exit status.
#![tactic(auto)]

use cf_io::{HostFiles, HostSink, HostSource};
use cf_session::Session;
use cf_top::{Status, run};
use std::env;
use std::process::ExitCode;
use std::rt::Env;

/// The exit status where the words can't be fetched.
const NO_WORDS: u8 = 7;

/// The words after the program's name, or nothing if they can't be fetched.
fn words_of(rt: &(impl Env + AllocGlobal)) -> Option<Vec<String>> {
    let mut words = Vec::new(rt.alloc());
    for word in env::args(rt).ok()?.skip(1) {
        words.push(word).ok()?;
    }
    Some(words)
}

fn main(rt: HostRuntime) -> ExitCode {
    let Some(words) = words_of(&rt) else {
        return ExitCode::from(NO_WORDS);
    };
    let alloc = rt.alloc();
    let Ok(mut session) = Session::new(alloc) else {
        return ExitCode::from(Status::NoMemory.code());
    };
    let mut script = HostSource::new(rt.stdin());
    let mut files = HostFiles::new(&rt, alloc);
    let mut out = HostSink::new(rt.stdout());
    let status = run(
        alloc,
        &words,
        &mut session,
        &mut script,
        &mut files,
        &mut out,
    );
    ExitCode::from(status.code())
}
