//! The faults that a model has in itself, by their kinds.

ghost use Rattle.std.specs.Prelude.{◌≡◌, All, IfOk};
ghost use Rattle.cf_circuits.specs.Kept.{IsModel};
ghost use Rattle.cf_circuits.specs.Links.{in_models as first_in};
ghost use Rattle.cf_links.specs.Kinds.{of_kind};

use crate::NoMemory;
use crate::calls::{missing_formal, missing_model, missing_pin};
use crate::directory::Directory;
use crate::signals::{twice_driven, undriven};
use cf_circuits::models::ModelDef;
use cf_names::Name;
use std::alloc::Global;

/// A kind of fault that a model has in itself.
#[derive(Clone, Copy, PartialEq, Eq, Debug)]
pub(crate) enum Kind {
    NoModel,
    NoFormal,
    Unconnected,
    TwiceDriven,
    Undriven,
}

/// The name of the first place of a kind, all models in order.
pub(crate) fn in_models(
    alloc: Global,
    directory: &Directory,
    kind: Kind,
) -> Result<Option<Name>, NoMemory>
    requires { All IsModel directory.now }
    ensures { IfOk result (λ name. name ≡ first_in (of_kind kind directory.now) directory.now) }
{
    for model in directory.models() {
        if let Some(name) = in_model(alloc, directory, kind, model)? {
            return Ok(Some(name));
        }
    }
    Ok(None)
}

/// The name of the first place of a kind in a model.
fn in_model(
    alloc: Global,
    directory: &Directory,
    kind: Kind,
    model: &ModelDef,
) -> Result<Option<Name>, NoMemory>
    requires { IsModel model.now }
    ensures { IfOk result (λ name. name ≡ of_kind kind directory.now model.now) }
{
    match kind {
        Kind::NoModel => missing_model(alloc, directory, model),
        Kind::NoFormal => missing_formal(alloc, directory, model),
        Kind::Unconnected => missing_pin(alloc, directory, model),
        Kind::TwiceDriven => twice_driven(alloc, directory, model),
        Kind::Undriven => undriven(alloc, directory, model),
    }
}
