//! Circuits of files as functions of the session.

ghost use Rattle.std.specs.Prelude.{◌≡◌, ◌<◌, ◌≤◌, ℕ, List, [], true, None, map, length, All, IsSome, IfOk, IfErr, OnOk, OnErr};
ghost use Rattle.std.specs.List.{list_any};
ghost use Rattle.std.specs.Str.{bytes_eq};
ghost use Rattle.cf_model.specs.Renumbering.{place};
ghost use Rattle.cf_io.specs.Shown.{FilesAreTold};
ghost use Rattle.cf_pkg.specs.Packages.{OwnsFunction, Keeps};
ghost use Rattle.cf_model.specs.Diagrams.{IsGood};
ghost use Rattle.cf_reference.specs.States.{level_in, is_among};
ghost use Rattle.cf_reference.specs.Carrying.{Goes, load_bytes, load_circuit};
ghost use Rattle.cf_reference.specs.Loading.{file_limit, with_input, with_inputs, input_refusal, inputs_refusal, output_name};
ghost use Rattle.cf_session.specs.Building.{Grows};
ghost use Rattle.cf_session.specs.Contents.{KeepsFiles};
ghost use Rattle.cf_session.specs.Sessions.{names_of, state_of};
ghost use Rattle.cf_session.specs.Statements.{ArePositions, IsFaultOfStep};
ghost use Rattle.cf_session.specs.Loads.{IsCircuitOf, IsCircuit, IsFaultOfText, IsFaultOfNames, IsFaultOfLoad, ShowsFault, state_by, bind_outputs, names_out};

use crate::bindings::Bindings;
use crate::faults::{Refusal, StepFault};
use crate::files::{Unread, read_file};
use crate::session::Session;
use cf_blif::{BlifFault, read_blif};
use cf_circuit::build;
use cf_flat::flat::{Flat, Out};
use cf_flat::{FlatFault, flatten};
use cf_io::Files;
use cf_names::{Name, NoMemory};
use cf_pkg::{Func, Pkg, variables};
use std::alloc::Global;

/// Why a circuit isn't loaded.
#[derive(Drop)]
pub(crate) enum LoadFault {
    Step(StepFault),
    /// The file couldn't be read.
    FileFault,
}

impl From<StepFault> for LoadFault {
    ghost use Rattle.std.specs.Prelude.{◌≡◌};
    ghost use Rattle.cf_session.specs.declared.load.LoadFault.{LoadFault};

    ghost from_gives = { λ fault e. e ≡ LoadFault.Step fault };

    fn from(fault: StepFault) -> LoadFault {
        LoadFault::Step(fault)
    }
}

impl From<Unread> for LoadFault {
    ghost use Rattle.std.specs.Prelude.{◌≡◌};
    ghost use Rattle.cf_session.specs.Loads.{fault_of_file};

    ghost from_gives = { λ unread e. e ≡ fault_of_file unread };

    fn from(unread: Unread) -> LoadFault {
        match unread {
            Unread::NoMemory => LoadFault::Step(StepFault::NoMemory),
            Unread::Missing => LoadFault::Step(StepFault::Refused(Refusal::NoFile)),
            Unread::TooLarge => LoadFault::Step(StepFault::Refused(Refusal::FileTooLarge)),
            Unread::Failed => LoadFault::FileFault,
        }
    }
}

impl From<BlifFault> for StepFault {
    ghost use Rattle.std.specs.Prelude.{◌≡◌};
    ghost use Rattle.cf_session.specs.Loads.{fault_of_text};

    ghost from_gives = { λ fault e. e ≡ fault_of_text fault };

    fn from(fault: BlifFault) -> StepFault {
        match fault {
            BlifFault::NoMemory => StepFault::NoMemory,
            BlifFault::At { line, why } => StepFault::Refused(Refusal::Circuit(line, why)),
        }
    }
}

impl From<FlatFault> for StepFault {
    ghost use Rattle.std.specs.Prelude.{◌≡◌};
    ghost use Rattle.cf_session.specs.Loads.{fault_of_links};

    ghost from_gives = { λ fault e. e ≡ fault_of_links fault };

    fn from(fault: FlatFault) -> StepFault {
        match fault {
            FlatFault::NoMemory => StepFault::NoMemory,
            FlatFault::Link(fault) => StepFault::Refused(Refusal::Links(fault)),
        }
    }
}

/// The flat circuit that the bytes of a file say.
fn circuit_of(alloc: Global, bytes: &[u8]) -> Result<Flat, StepFault>
    ensures circuit { IfOk result (IsCircuitOf bytes.now) }
    ensures fault { IfErr result (IsFaultOfText bytes.now) }
{
    let netlist = read_blif(alloc, bytes)?;
    Ok(flatten(alloc, &netlist)?)
}

/// Makes an input the next variable, if it is none yet.
fn add_input(
    pkg: &mut Pkg,
    level: u8,
    bound: &mut Bindings,
    functions: &Bindings,
    input: &[u8],
) -> Result<(), StepFault>
    requires level { level ≤ 7 }
    requires positions { ArePositions pkg.old level bound.old }
    ensures free { OnOk result (
        input_refusal (state_by pkg.old level bound.old functions.now) input.now ≡ None) }
    ensures names { OnOk result (names_of bound.new
        ≡ (with_input (state_by pkg.old level bound.old functions.now) input.now).variables) }
    ensures positions { OnOk result (ArePositions pkg.new level bound.new) }
    ensures fault { IfErr result (IsFaultOfNames (
        input_refusal (state_by pkg.old level bound.old functions.now) input.now)) }
    ensures kept { Keeps pkg.old pkg.new }
{
    if bound.place(input).is_some() {
        return Ok(());
    }
    if functions.place(input).is_some() {
        return Err(StepFault::Refused(Refusal::Taken));
    }
    if usize::from(variables(level)) <= bound.len() {
        return Err(StepFault::Refused(Refusal::TooManyVars));
    }
    let f = pkg.variable(level, bound.len() as u8)?;
    bound.bind(input, f)?;
    Ok(())
}

/// The variables, and behind them the inputs that are none yet.
fn with_inputs(
    pkg: &mut Pkg,
    level: u8,
    variables: &Bindings,
    functions: &Bindings,
    inputs: &[Name],
) -> Result<Bindings, StepFault>
    requires level { level ≤ 7 }
    requires positions { ArePositions pkg.old level variables.now }
    ensures free { IfOk result (λ _.
        inputs_refusal (state_by pkg.old level variables.now functions.now) inputs.now ≡ None) }
    ensures names { IfOk result (λ bound. names_of bound
        ≡ (with_inputs (state_by pkg.old level variables.now functions.now) inputs.now).variables) }
    ensures positions { IfOk result (ArePositions pkg.new level) }
    ensures fault { IfErr result (IsFaultOfNames (
        inputs_refusal (state_by pkg.old level variables.now functions.now) inputs.now)) }
    ensures kept { Keeps pkg.old pkg.new }
{
    let mut bound = variables.copy()?;
    for input in inputs {
        add_input(pkg, level, &mut bound, functions, input.bytes())?;
    }
    Ok(bound)
}

/// Makes the text the name of an output's function.
fn set_output_name(text: &mut Vec<u8>, prefix: &[u8], output: &[u8]) -> Result<(), NoMemory>
    ensures { OnOk result (text.new.items ≡ output_name prefix.now output.now) }
{
    text.clear();
    text.extend_from_slice(prefix)?;
    text.push(b'.')?;
    text.extend_from_slice(output)?;
    Ok(())
}

/// Whether a variable has the name of an output's function.
fn outputs_clash(
    alloc: Global,
    variables: &Bindings,
    prefix: &[u8],
    outputs: &[Out],
) -> Result<bool, NoMemory>
    ensures { IfOk result (λ b. b ≡ list_any
        (λ output. is_among (names_of variables.now) (output_name prefix.now output))
        (names_out outputs.now)) }
{
    let mut name = Vec::new(alloc);
    for output in outputs {
        set_output_name(&mut name, prefix, output.name.bytes())?;
        if variables.place(name.as_slice()).is_some() {
            return Ok(true);
        }
    }
    Ok(false)
}

/// The positions of variables.
fn positions_of(alloc: Global, variables: &Bindings, names: &[Name]) -> Result<Vec<u8>, NoMemory>
    requires few { length variables.now ≤ 128 }
    requires there { All (λ name. is_among (names_of variables.now) name ≡ true) names.now }
    ensures { IfOk result (λ positions. positions.items
        ≡ map (place bytes_eq (names_of variables.now)) names.now) }
{
    let mut positions = Vec::with_capacity(alloc, names.len())?;
    for name in names {
        let Some(place) = variables.place(name.bytes()) else {
            unreachable!()
        };
        positions.push(place as u8)?;
    }
    Ok(positions)
}

/// The functions by name, with those of a circuit's outputs.
fn with_outputs(
    alloc: Global,
    functions: &Bindings,
    prefix: &[u8],
    outputs: &[Out],
    built: &[Func],
) -> Result<Bindings, NoMemory>
    requires one_each { length built.now ≡ length outputs.now }
    ensures { IfOk result (λ bound. bound
        ≡ bind_outputs functions.now prefix.now (names_out outputs.now) built.now) }
{
    let mut bound = functions.copy()?;
    let mut name = Vec::new(alloc);
    for (place, output) in outputs.iter().enumerate() {
        set_output_name(&mut name, prefix, output.name.bytes())?;
        bound.bind(name.as_slice(), built[place])?;
    }
    Ok(bound)
}

/// A package that has functions is good. It does nothing.
fn law_of(pkg: &Pkg, functions: &[Func])
    requires owned { All (OwnsFunction pkg.now) functions.now }
    ensures { 0 < length functions.now → IsGood pkg.now.groupings.levels }
{
    if let Some(f) = functions.first() {
        pkg.law(*f);
    }
}

impl Session {
    /// Makes the inputs of a circuit variables, and binds a function to the name of each output. If
    /// it fails, level and names are as before.
    fn add_circuit(&mut self, prefix: &[u8], flat: &Flat) -> Result<(), StepFault>
        requires set { IsSome self.old.level }
        requires circuit { IsCircuit flat.now }
        ensures goes { OnOk result ((bytes : List ℕ) → IsCircuitOf bytes flat.now →
            length bytes ≤ file_limit →
            load_bytes (state_of self.old) prefix.now bytes ≡ Goes (state_of self.new) []) }
        ensures fault { IfErr result (λ fault. (bytes : List ℕ) → IsCircuitOf bytes flat.now →
            length bytes ≤ file_limit →
            IsFaultOfStep (load_bytes (state_of self.old) prefix.now bytes) fault) }
        ensures same { OnErr result (Grows self.old self.new) }
        ensures kept { Keeps self.old.pkg self.new.pkg }
    {
        self.law();
        let level = self.level_of_variables();
        let inputs = flat.inputs.items();
        let outputs = flat.outputs.items();
        let variables = with_inputs(
            &mut self.pkg,
            level,
            &self.variables,
            &self.functions,
            inputs,
        )?;
        if outputs_clash(self.alloc, &variables, prefix, outputs)? {
            return Err(StepFault::Refused(Refusal::Taken));
        }
        let positions = positions_of(self.alloc, &variables, inputs)?;
        let built = build(self.alloc, &mut self.pkg, flat, level, positions.as_slice())?;
        law_of(&self.pkg, built.as_slice());
        let functions = with_outputs(
            self.alloc,
            &self.functions,
            prefix,
            outputs,
            built.as_slice(),
        )?;
        self.variables = variables;
        self.functions = functions;
        Ok(())
    }

    /// Loads the circuit of a file: its inputs are variables then, and its outputs functions with
    /// the prefix, a dot and the output as their names. If it fails, level and names are as before.
    pub(crate) fn load<F: Files>(
        &mut self,
        files: &mut F,
        prefix: &[u8],
        file: &[u8],
    ) -> Result<(), LoadFault>
        requires set { IsSome self.old.level }
        ensures goes { FilesAreTold (F.shown files.old) → OnOk result (
            load_circuit (F.shown files.old).entries (state_of self.old) prefix.now file.now
            ≡ Goes (state_of self.new) []) }
        ensures fault { FilesAreTold (F.shown files.old) → IfErr result (IsFaultOfLoad (
            load_circuit (F.shown files.old).entries (state_of self.old) prefix.now file.now)) }
        ensures shows { IfErr result (ShowsFault (F.shown files.old) (F.shown files.new)) }
        ensures files { KeepsFiles (F.shown files.old) (F.shown files.new) }
        ensures same { OnErr result (Grows self.old self.new) }
        ensures kept { Keeps self.old.pkg self.new.pkg }
    {
        let bytes = read_file(self.alloc, files, file)?;
        let flat = circuit_of(self.alloc, bytes.as_slice())?;
        self.add_circuit(prefix, &flat)?;
        Ok(())
    }
}
