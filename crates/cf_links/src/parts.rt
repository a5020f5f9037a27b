//! The gates and calls of a model in order of their lines.

ghost use Rattle.std.specs.Prelude.{◌≡◌, [], ◌∷◌, IfSome, IfNone};
ghost use Rattle.cf_circuits.specs.Kept.{IsModel};
ghost use Rattle.cf_circuits.specs.Parts.{parts};
ghost use Rattle.cf_links.specs.Signals.{part_of};

use cf_circuits::gates::Gate;
use cf_circuits::models::ModelDef;
use cf_circuits::pins::Call;
use std::marker::Model;

/// A gate or a call of a model.
#[derive(Clone, Copy, Drop)]
pub(crate) enum Part<'a> {
    Gate(&'a Gate),
    Call(&'a Call),
}

/// The gates and calls that are left, each in order of their lines. No line is both a gate and a
/// call.
#[derive(Drop)]
pub(crate) struct Parts<'a> {
    gates: &'a [Gate],
    calls: &'a [Call],
}

impl<'a> Model for Parts<'a> {
    ghost use Rattle.std.specs.Prelude.{List};
    ghost use Rattle.cf_circuits.specs.Parts.{Part, merged};
    ghost use Rattle.cf_links.specs.Signals.{InOrder};

    ghost Value = { List Part };

    ghost view = { λ left. merged left.gates.now left.calls.now };

    ghost invariant = { λ left. InOrder left.gates.now left.calls.now };
}

impl<'a> Parts<'a> {
    /// The gates and calls of a model.
    pub(crate) fn new(model: &'a ModelDef) -> Parts<'a>
        requires { IsModel model.now }
        ensures { result ≡ parts model.now }
    {
        Parts {
            gates: model.gates.items(),
            calls: model.calls.items(),
        }
    }

    /// Hands out the part of the first line that is left.
    pub(crate) fn next(&mut self) -> Option<Part<'a>>
        ensures first { IfSome result (λ part. self.old ≡ part_of part ∷ self.new) }
        ensures none { IfNone result (self.old ≡ []) }
    {
        match (self.gates.split_first(), self.calls.split_first()) {
            (Some((gate, gates)), Some((call, calls))) => {
                if gate.line < call.line {
                    self.gates = gates;
                    Some(Part::Gate(gate))
                } else {
                    self.calls = calls;
                    Some(Part::Call(call))
                }
            }
            (Some((gate, gates)), None) => {
                self.gates = gates;
                Some(Part::Gate(gate))
            }
            (None, Some((call, calls))) => {
                self.calls = calls;
                Some(Part::Call(call))
            }
            (None, None) => None,
        }
    }
}
