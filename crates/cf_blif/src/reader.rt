//! The netlist that was read so far.

ghost use Rattle.std.specs.Prelude.{◌≡◌, ◌<◌, ◌-◌, ℕ, [], ◌∷◌, ◌++◌, length, map, None, OnOk, IfOk};
ghost use Rattle.cf_circuits.specs.Kinds.{first_word, arguments as behind};
ghost use Rattle.cf_circuits.specs.Netlists.{call_of, cell_of as cell, pin_of, plane_of as plane_of_words};
ghost use Rattle.cf_circuits.specs.declared.kinds.Kind.{Kind};
ghost use Rattle.cf_circuits.specs.Netlists.{call_of};
ghost use Rattle.cf_blif.specs.Readers.{closed_gate, without_gate, without_model, initial, next as next_reader, opened_gate, opened_model, model_begun, with_inputs, with_outputs, with_gate_line, with_call};
ghost use Rattle.cf_model.specs.Renumbering.{IsNew};
ghost use Rattle.std.specs.Str.{bytes_eq};
ghost use Rattle.std.specs.List.{list_any};

use crate::pairs::cut;
use crate::slices::{arguments, first, front, last};
use cf_circuits::NoMemory;
use cf_circuits::gates::{Cell, Cells, Cover, Gate, Gates, Planes};
use cf_circuits::kinds::Kind;
use cf_circuits::models::{ModelDef, Models};
use cf_circuits::pins::{Call, Calls, Pin, Pins};
use cf_names::{Name, NameBook, Names};
use std::alloc::Global;

/// A gate whose cover lines are being read.
#[derive(Drop)]
pub(crate) struct OpenGate {
    pub(crate) ins: Names,
    pub(crate) out: Name,
    pub(crate) first: Option<bool>,
    pub(crate) planes: Planes,
    pub(crate) line: u64,
}

/// The models that have ended, the one that hasn't, its last gate where cover lines may follow, and
/// all models' names.
#[derive(Drop)]
pub(crate) struct Reader {
    pub(crate) done: Models,
    pub(crate) current: Option<ModelDef>,
    pub(crate) gate: Option<OpenGate>,
    pub(crate) names: NameBook,
}

impl Reader {
    /// Nothing is read.
    pub(crate) fn new(alloc: Global) -> Reader
        ensures { result ≡ initial }
    {
        Reader {
            done: Models::new(alloc),
            current: None,
            gate: None,
            names: NameBook::new(alloc),
        }
    }

    /// Puts the gate that is open to its model.
    fn close_gate(&mut self) -> Result<(), NoMemory>
        ensures { OnOk result (self.new ≡ without_gate self.old) }
    {
        if let Some(gate) = self.gate.take() {
            if let Some(model) = &mut self.current {
                model.gates.push(closed(gate))?;
            }
        }
        Ok(())
    }

    /// Ends the model that is open.
    pub(crate) fn close_model(&mut self) -> Result<(), NoMemory>
        ensures { OnOk result (self.new ≡ without_model self.old) }
    {
        self.close_gate()?;
        if let Some(model) = self.current.take() {
            self.done.push(model)?;
        }
        Ok(())
    }

    /// Takes up a line without a fault.
    pub(crate) fn add(
        &mut self,
        alloc: Global,
        kind: Kind,
        number: u64,
        words: &[&[u8]],
    ) -> Result<(), NoMemory>
        requires { kind ≡ Kind.Model → IsNew self.old.names (first_word (behind (map (λ w. w.now) words.now))) }
        ensures { OnOk result (self.new ≡ next_reader self.old kind number (map (λ w. w.now) words.now)) }
    {
        match kind {
            Kind::Cover => self.add_cover(alloc, words),
            Kind::Model => self.add_model(alloc, arguments(words)),
            Kind::Inputs => self.add_inputs(alloc, arguments(words)),
            Kind::Outputs => self.add_outputs(alloc, arguments(words)),
            Kind::Gate => self.add_gate(alloc, number, arguments(words)),
            Kind::Call => self.add_call(alloc, number, arguments(words)),
            Kind::End => self.close_model(),
            Kind::Ignored | Kind::Unknown => self.close_gate(),
        }
    }

    fn add_cover(&mut self, alloc: Global, words: &[&[u8]]) -> Result<(), NoMemory>
        ensures { OnOk result (self.new ≡ next_reader self.old Kind.Cover 0 (map (λ w. w.now) words.now)) }
    {
        if let Some(gate) = &mut self.gate {
            let on = last(words) == b"1".as_slice();
            let plane = plane(alloc, words)?;
            gate.planes.push(plane)?;
            if gate.first.is_none() {
                gate.first = Some(on);
            }
        }
        Ok(())
    }

    fn add_model(&mut self, alloc: Global, names: &[&[u8]]) -> Result<(), NoMemory>
        requires { IsNew self.old.names (first_word (map (λ w. w.now) names.now)) }
        ensures { OnOk result (self.new ≡ model_begun self.old (first_word (map (λ w. w.now) names.now))) }
    {
        self.close_model()?;
        let name = first(names);
        self.current = Some(open_model(alloc, name)?);
        self.names.number(name)?;
        Ok(())
    }

    fn add_inputs(&mut self, alloc: Global, names: &[&[u8]]) -> Result<(), NoMemory>
        ensures { OnOk result (self.new ≡ with_inputs self.old (map (λ w. w.now) names.now)) }
    {
        self.close_gate()?;
        if let Some(model) = &mut self.current {
            add_names(alloc, &mut model.inputs, names)?;
        }
        Ok(())
    }

    fn add_outputs(&mut self, alloc: Global, names: &[&[u8]]) -> Result<(), NoMemory>
        ensures { OnOk result (self.new ≡ with_outputs self.old (map (λ w. w.now) names.now)) }
    {
        self.close_gate()?;
        if let Some(model) = &mut self.current {
            add_names(alloc, &mut model.outputs, names)?;
        }
        Ok(())
    }

    fn add_gate(&mut self, alloc: Global, number: u64, names: &[&[u8]]) -> Result<(), NoMemory>
        ensures { OnOk result (self.new ≡ with_gate_line self.old number (map (λ w. w.now) names.now)) }
    {
        self.close_gate()?;
        self.gate = Some(open_gate(alloc, number, names)?);
        Ok(())
    }

    fn add_call(&mut self, alloc: Global, number: u64, words: &[&[u8]]) -> Result<(), NoMemory>
        ensures { OnOk result (self.new ≡ with_call self.old number (map (λ w. w.now) words.now)) }
    {
        self.close_gate()?;
        if let Some(model) = &mut self.current {
            let call = call(alloc, number, words)?;
            model.calls.push(call)?;
        }
        Ok(())
    }
}

/// The gate with what was read of its cover.
fn closed(gate: OpenGate) -> Gate
    ensures { result ≡ closed_gate gate }
{
    let on = match gate.first {
        Some(on) => on,
        None => true,
    };
    Gate {
        ins: gate.ins,
        out: gate.out,
        cover: Cover {
            on,
            planes: gate.planes,
        },
        line: gate.line,
    }
}

/// Puts names behind those of a list.
fn add_names(alloc: Global, names: &mut Names, words: &[&[u8]]) -> Result<(), NoMemory>
    ensures { OnOk result (names.new ≡ names.old ++ map (λ w. w.now) words.now) }
{
    for word in words {
        names.push(Name::new(alloc, word)?)?;
    }
    Ok(())
}

/// The gate of a `.names` line's words.
fn open_gate(alloc: Global, number: u64, names: &[&[u8]]) -> Result<OpenGate, NoMemory>
    ensures { IfOk result (λ g. g ≡ opened_gate number (map (λ w. w.now) names.now)) }
{
    let mut ins = Names::new(alloc);
    add_names(alloc, &mut ins, front(names))?;
    Ok(OpenGate {
        ins,
        out: Name::new(alloc, last(names))?,
        first: None,
        planes: Planes::new(alloc),
        line: number,
    })
}

/// The model of a name, with nothing in it.
fn open_model(alloc: Global, name: &[u8]) -> Result<ModelDef, NoMemory>
    ensures { IfOk result (λ m. m ≡ opened_model name.now) }
{
    Ok(ModelDef {
        name: Name::new(alloc, name)?,
        inputs: Names::new(alloc),
        outputs: Names::new(alloc),
        gates: Gates::new(alloc),
        calls: Calls::new(alloc),
    })
}

/// The call of a `.subckt` line's words.
fn call(alloc: Global, number: u64, words: &[&[u8]]) -> Result<Call, NoMemory>
    ensures { IfOk result (λ c. c ≡ record {
      model = first_word (map (λ w. w.now) words.now);
      pins = map pin_of (behind (map (λ w. w.now) words.now));
      line = number;
    }) }
{
    Ok(Call {
        model: Name::new(alloc, first(words))?,
        pins: pins(alloc, arguments(words))?,
        line: number,
    })
}

fn pins(alloc: Global, pairs: &[&[u8]]) -> Result<Pins, NoMemory>
    ensures { IfOk result (λ p. p ≡ map pin_of (map (λ w. w.now) pairs.now)) }
{
    let mut pins = Pins::new(alloc);
    for pair in pairs {
        let (formal, actual) = cut(pair);
        let pin = Pin {
            formal: Name::new(alloc, formal)?,
            actual: Name::new(alloc, actual)?,
        };
        pins.push(pin)?;
    }
    Ok(pins)
}

/// The plane of a cover line's words: a single word is its output.
fn plane(alloc: Global, words: &[&[u8]]) -> Result<Cells, NoMemory>
    ensures { IfOk result (λ p. p ≡ plane_of_words (map (λ w. w.now) words.now)) }
{
    match words {
        [cells, _, ..] => read_cells(alloc, cells),
        _ => Ok(Cells::new(alloc)),
    }
}

fn read_cells(alloc: Global, bytes: &[u8]) -> Result<Cells, NoMemory>
    ensures { IfOk result (λ p. p ≡ map cell bytes.now) }
{
    let mut cells = Cells::new(alloc);
    let mut rest = bytes;
    while let Some((b, more)) = rest.split_first() {
        cells.push(cell_of(*b))?;
        rest = more;
    }
    Ok(cells)
}

fn cell_of(b: u8) -> Cell
    ensures { result ≡ cell b }
{
    if b == b'0' {
        Cell::Zero
    } else if b == b'1' {
        Cell::One
    } else {
        Cell::Any
    }
}
