//! The lines that name functions.

ghost use Rattle.std.specs.Prelude.{◌≡◌, ◌<◌, [], ◌∷◌, ◌++◌, decimal, OnOk};
ghost use Rattle.cf_reference.specs.Bytes as byte;
ghost use Rattle.cf_reference.specs.Generator.{operation, call_line, variable_line};

use crate::NoMemory;
use itoa::Buffer;

/// The word of an operation by its number.
pub(crate) fn operation_word(number: u64) -> &'static str
    requires { number < 5 }
    ensures { result.now ≡ operation number }
{
    match number {
        0 => "and",
        1 => "or",
        2 => "xor",
        3 => "eq",
        _ => "lt",
    }
}

fn add_number(text: &mut Vec<u8>, number: u64) -> Result<(), NoMemory>
    ensures { OnOk result (text.new.items ≡ text.old.items ++ decimal number) }
{
    text.extend_from_slice(Buffer::new().format(number).as_bytes())
}

/// The line for function `i` that is variable `i`.
pub(crate) fn add_variable(text: &mut Vec<u8>, i: u64) -> Result<(), NoMemory>
    ensures { OnOk result
        (text.new.items ≡ text.old.items ++ (variable_line i ++ byte.newline ∷ [])) }
{
    text.extend_from_slice(b"let f")?;
    add_number(text, i)?;
    text.extend_from_slice(b" = v")?;
    add_number(text, i)?;
    text.extend_from_slice(b"\n")
}

/// The line for function `i` that calls an operation on functions `a` and `b`.
pub(crate) fn add_call(
    text: &mut Vec<u8>,
    i: u64,
    word: &str,
    a: u64,
    b: u64,
) -> Result<(), NoMemory>
    ensures { OnOk result
        (text.new.items ≡ text.old.items ++ (call_line i word.now a b ++ byte.newline ∷ [])) }
{
    text.extend_from_slice(b"let f")?;
    add_number(text, i)?;
    text.extend_from_slice(b" = ")?;
    text.extend_from_slice(word.as_bytes())?;
    text.extend_from_slice(b"(f")?;
    add_number(text, a)?;
    text.extend_from_slice(b",f")?;
    add_number(text, b)?;
    text.extend_from_slice(b")\n")
}
