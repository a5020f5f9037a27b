// Reads the lines of a script from standard input, and writes for each line its number and what it comes to.
#![tactic(auto)]

mod spelling;

use cf_io::{HostSource, Lines, Next};
use cf_script::parse_line;
use spelling::Outcome;
use std::io;

fn main(rt: HostRuntime) -> io::Result<()> {
    let alloc = rt.alloc();
    let mut source = HostSource::new(rt.stdin());
    let mut lines = Lines::new(alloc)?;
    for number in 1..u64::MAX {
        match lines.next_line(&mut source) {
            Next::Line(line) => {
                let outcome = Outcome::new(parse_line(alloc, line));
                println!(rt; "{number} {outcome}")?;
            }
            Next::End => return Ok(()),
            Next::TooLong | Next::ScriptTooLong | Next::ReadFault => {
                return println!(rt; "{number} can't be read");
            }
        }
    }
    Ok(())
}
