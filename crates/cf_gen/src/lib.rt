//! Generated scripts: the script of a seed.
#![tactic(auto)]

ghost use Rattle.std.specs.Prelude.{◌≡◌, ◌++◌, IfOk, OnOk};
ghost use Rattle.cf_reference.specs.Generator.{
  text_of_lines,
  variable_lines,
  variable_count,
  drawn_lines,
  drawn_count,
  gen_script,
};

mod generator;
mod lines;

use generator::Generator;
use lines::{add_call, add_variable, operation_word};
use std::alloc::Global;

/// There was no memory.
pub type NoMemory = std::alloc::AllocError;

/// How many functions there are, of which the first are variables and the others are drawn.
const FUNCTIONS: u64 = 282;

const VARIABLES: u64 = 12;

/// No script has more bytes.
const MOST_BYTES: usize = 8_192;

/// The lines before the functions.
const OPENING: &[u8] = b"level 7\nvar v0 v1 v2 v3 v4 v5 v6 v7 v8 v9 v10 v11\n";

/// The lines behind the functions: what is asked of the last ones, of their sum, and of a Walsh
/// matrix and its square.
const QUESTIONS: &[u8] = b"let s = plus(f274,f275,f276,f277,f278,f279,f280,f281)\n\
    size s\n\
    first s 0\n\
    list s 1 4\n\
    equal f280 f281\n\
    size f281\n\
    first f281 1\n\
    let w = walsh(7)\n\
    size w\n\
    let p = matmul(w,w)\n\
    let q = times(id(7),18446744073709551616)\n\
    equal p q\n\
    size p\n\
    entry p 3 3\n\
    entry p 3 4\n\
    stats\n";

/// The script of the seed `n`, 300 lines long. Its memory is taken once, at first.
pub fn gen_script(alloc: Global, n: u64) -> Result<Vec<u8>, NoMemory>
    ensures script { IfOk result (λ text. text.items ≡ gen_script n) }
{
    let mut text = Vec::with_capacity(alloc, MOST_BYTES)?;
    text.extend_from_slice(OPENING)?;
    add_variables(&mut text)?;
    add_drawn(&mut text, n)?;
    text.extend_from_slice(QUESTIONS)?;
    Ok(text)
}

/// The functions that are variables.
fn add_variables(text: &mut Vec<u8>) -> Result<(), NoMemory>
    ensures { OnOk result
        (text.new.items ≡ text.old.items ++ text_of_lines (variable_lines variable_count)) }
{
    for i in 0..VARIABLES {
        add_variable(text, i)?;
    }
    Ok(())
}

/// The functions that are drawn, for each its operation first.
fn add_drawn(text: &mut Vec<u8>, n: u64) -> Result<(), NoMemory>
    ensures { OnOk result
        (text.new.items ≡ text.old.items ++ text_of_lines (drawn_lines n drawn_count)) }
{
    let mut generator = Generator::new(n);
    for i in VARIABLES..FUNCTIONS {
        let word = operation_word(generator.draw(5));
        let a = generator.draw(i);
        let b = generator.draw(i);
        add_call(text, i, word, a, b)?;
    }
    Ok(())
}
