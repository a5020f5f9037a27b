//! The main laws of the definitions, each on the contract of a function that does nothing.

ghost use Rattle.cf_flat.specs.Gates.{GatesHaveCovers};
ghost use Rattle.cf_flat.specs.Kinds.{BlockFaultsAreFirst, FaultlessNetlists, NameFaultsAreFirst};
ghost use Rattle.cf_flat.specs.Named.{BlocksAreLinked, BlocksHaveValues, WiresHaveValues};

/// The blocks of a netlist without faults of names speak of what is there, and none calls itself.
/// Each signal of them has the value of the netlist's signal; so wires that show the first block
/// have the values of the root's outputs.
pub fn names_and_numbers_agree()
    ensures linked { BlocksAreLinked }
    ensures values { BlocksHaveValues }
    ensures wires { WiresHaveValues }
{}

/// The faults that are found by names, and then in the blocks, are the first that stand in a
/// netlist, in order of the nine kinds. Where none is found, none stands.
pub fn faults_agree()
    ensures names { NameFaultsAreFirst }
    ensures blocks { BlockFaultsAreFirst }
    ensures none { FaultlessNetlists }
{}

/// A gate of a netlist's blocks has a cover of the netlist, with a cell for each wire that it reads.
pub fn gates_have_covers()
    ensures { GatesHaveCovers }
{}
