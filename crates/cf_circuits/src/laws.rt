//! The main laws of the definitions, each on the contract of a function that does nothing.

ghost use Rattle.cf_circuits.specs.Firsts.{FaultlessTexts, FaultsAreFirst};
ghost use Rattle.cf_circuits.specs.Kept.{NetlistsKeep};

/// The fault of a text is that of its first faulty line; or line 0, where no line is faulty and the
/// text says no model. Where there is none, no line is faulty.
pub fn faults_are_first()
    ensures first { FaultsAreFirst }
    ensures none { FaultlessTexts }
{}

/// What a text without a fault says is a netlist. It has a root, and its models' names differ. Gates
/// and calls of a model stand in order of their lines, none on one line. A gate has at most 256
/// inputs, and each plane a cell for each of them. The formals of a call differ.
pub fn netlists_keep()
    ensures { NetlistsKeep }
{}
