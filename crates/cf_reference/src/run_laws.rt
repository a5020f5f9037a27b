//! The main laws of the reference run, each on the contract of a function that does nothing.

ghost use Rattle.cf_reference.specs.Failures.{FailuresAreLeast, NoOverflowGivesValues, OverflowIsFirst};
ghost use Rattle.cf_reference.specs.Scripts.{RunsEndInStates};

/// The failure of a subexpression is the least assignment at which it has no value.
pub fn failures_are_least()
    ensures { FailuresAreLeast }
{}

/// An overflow names the failure of the first subexpression that fails.
pub fn overflow_is_first()
    ensures { OverflowIsFirst }
{}

/// An expression that overflows nowhere has a value at each assignment of its level.
pub fn no_overflow_gives_values()
    ensures { NoOverflowGivesValues }
{}

/// The state that a run ends with has a level of 0 to 7, at most as many variables as an assignment has bits, and
/// flat functions.
pub fn runs_end_in_states()
    ensures { RunsEndInStates }
{}
