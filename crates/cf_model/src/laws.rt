//! The main laws of the definitions, each on the contract of a function that does nothing.

ghost use Rattle.cf_model.specs.Laws.{
  CanonIsUnique,
  PatternsDecompose,
  PatternsAreRenumbered,
  ExitsAreReached,
  PatternsAreFull,
  EntriesAreExits,
  EqualPatternsEqualPlaces,
  ACalleesHaveAPatterns,
  BCalleesHaveBPatterns,
  ReturnTuplesAreReturnLists,
  SubPatternsAreThere,
  AppendingKeepsPatterns,
  AppendingKeepsGood,
  ExtendingKeepsPatterns,
  EqualFunctionsEqualGroupings,
  FunctionsHaveTheirPatterns,
};

/// A list has one canon.
pub fn canon_is_unique<T>()
    ensures { CanonIsUnique T }
{}

/// A pattern is determined by its A-pattern, its B-patterns and their return lists.
pub fn patterns_decompose()
    ensures { PatternsDecompose }
{}

/// In a good table a pattern is its own `rgs`, it has an entry for each assignment, and its
/// entries are the grouping's exits, each of which is reached.
pub fn patterns_number_exits()
    ensures renumbered { PatternsAreRenumbered }
    ensures full { PatternsAreFull }
    ensures exits { EntriesAreExits }
    ensures reached { ExitsAreReached }
{}

/// In a good table equal patterns are at one place.
pub fn equal_patterns_equal_places()
    ensures { EqualPatternsEqualPlaces }
{}

/// In a good table the callees of a grouping have its A-pattern and its B-patterns, and its
/// return tuples are the return lists.
pub fn callees_have_subpatterns()
    ensures a_callee { ACalleesHaveAPatterns }
    ensures b_callees { BCalleesHaveBPatterns }
    ensures returns { ReturnTuplesAreReturnLists }
    ensures all { SubPatternsAreThere }
{}

/// Appending a node leaves each pattern that was there, and a good new node leaves the table
/// good.
pub fn appending_keeps_patterns()
    ensures patterns { AppendingKeepsPatterns }
    ensures extended { ExtendingKeepsPatterns }
    ensures good { AppendingKeepsGood }
{}

/// In a good table equal functions are one grouping with one list of values, and a grouping's
/// pattern is that of each function on it.
pub fn equal_functions_equal_groupings()
    ensures groupings { EqualFunctionsEqualGroupings }
    ensures patterns { FunctionsHaveTheirPatterns }
{}
