//! Books of the signals of models.

ghost use Rattle.std.specs.Prelude.{◌≡◌, None, map, IfOk, OnOk};
ghost use Rattle.std.specs.Str.{bytes_eq};
ghost use Rattle.cf_model.specs.Renumbering.{distinct_on, place};
ghost use Rattle.cf_circuits.specs.Links.{actuals, callee as callee_of, gathered, is_output as output_of, twice_driven};
ghost use Rattle.cf_circuits.specs.Expansions.{signals};
ghost use Rattle.cf_blocks.specs.Once.{DriveOnce};

use crate::NoMemory;
use cf_circuits::gates::Gate;
use cf_circuits::models::ModelDef;
use cf_circuits::pins::Call;
use cf_links::directory::Directory;
use cf_names::{Name, NameBook};
use std::alloc::Global;

/// A book of the signals of each model.
pub(crate) fn books_of(alloc: Global, directory: &Directory) -> Result<Vec<NameBook>, NoMemory>
    requires { DriveOnce directory.now }
    ensures { IfOk result (λ books. books.items ≡ map (signals directory.now) directory.now) }
{
    let models = directory.models();
    let mut books = Vec::with_capacity(alloc, models.len())?;
    for model in models {
        books.push(book_of(alloc, directory, model)?)?;
    }
    Ok(books)
}

/// A book of the signals of a model: the inputs, the outputs of gates, and what calls drive.
pub(crate) fn book_of(
    alloc: Global,
    directory: &Directory,
    model: &ModelDef,
) -> Result<NameBook, NoMemory>
    requires { twice_driven directory.now model.now ≡ None }
    ensures { IfOk result (λ book. book ≡ signals directory.now model.now) }
{
    let mut book = NameBook::new(alloc);
    add_names(&mut book, model.inputs.items())?;
    add_outputs(&mut book, model.gates.items())?;
    add_calls(&mut book, directory, model.calls.items())?;
    Ok(book)
}

fn add_names(book: &mut NameBook, names: &[Name]) -> Result<(), NoMemory>
    ensures { OnOk result (book.new ≡ distinct_on bytes_eq book.old names.now) }
{
    for name in names {
        book.number(name.bytes())?;
    }
    Ok(())
}

fn add_outputs(book: &mut NameBook, gates: &[Gate]) -> Result<(), NoMemory>
    ensures { OnOk result
        (book.new ≡ distinct_on bytes_eq book.old (map (λ g. g.out) gates.now)) }
{
    for gate in gates {
        book.number(gate.out.bytes())?;
    }
    Ok(())
}

fn add_calls(book: &mut NameBook, directory: &Directory, calls: &[Call]) -> Result<(), NoMemory>
    ensures { OnOk result (book.new ≡ distinct_on bytes_eq book.old
        (gathered (λ c. actuals (output_of (callee_of directory.now c)) c.pins) calls.now)) }
{
    for call in calls {
        add_call(book, directory, call)?;
    }
    Ok(())
}

/// Adds what a call drives.
fn add_call(book: &mut NameBook, directory: &Directory, call: &Call) -> Result<(), NoMemory>
    ensures { OnOk result (book.new ≡ distinct_on bytes_eq book.old
        (actuals (output_of (callee_of directory.now call.now)) call.now.pins)) }
{
    let Some(callee) = directory.callee(call) else {
        return Ok(());
    };
    let pins = call.pins.items();
    for pin in pins {
        if directory.is_output(callee, pin.formal.bytes()) {
            book.number(pin.actual.bytes())?;
        }
    }
    Ok(())
}

/// The number of a name in a book. One that isn't there has the number behind all.
pub fn number_in(book: &NameBook, name: &[u8]) -> u64
    ensures { result ≡ place bytes_eq book.now name.now }
{
    match book.find(name) {
        Some(number) => number,
        None => book.len(),
    }
}
