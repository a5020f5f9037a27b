//! Reads the circuit files of standard input, and writes what each comes to. A file is what stands behind
//! a line `== TITLE`, up to the next such line. Input that begins with another line is one file.
#![tactic(auto)]

mod cases;
mod outcomes;

use cases::next_case;
use outcomes::Outcome;
use std::io;
use std::io::Read;

/// Writes what each case comes to.
fn write_outcomes(rt: &(impl Print + AllocGlobal), bytes: &[u8]) -> io::Result<()> {
    let alloc = rt.alloc();
    let mut rest = bytes;
    while let Some((case, later)) = next_case(rest) {
        let outcome = Outcome::new(alloc, case.text);
        println!(rt; "{}: {outcome}", case.title)?;
        rest = later;
    }
    Ok(())
}

fn main(rt: HostRuntime) -> io::Result<()> {
    let mut bytes = Vec::new(rt.alloc());
    rt.stdin().read_to_end(&mut bytes)?;
    write_outcomes(&rt, &bytes)
}
