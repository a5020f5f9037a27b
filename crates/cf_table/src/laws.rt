//! What holds of the groupings of a table, each theorem on the contract of a function that does
//! nothing.

ghost use Rattle.std.specs.Prelude.{◌≡◌, [], ◌∷◌, ◌<◌, ◌≤◌, ◌-◌, ◌↔◌, ℕ, All, Some, length, map, nat_eq, slice_get};
ghost use Rattle.cf_model.specs.Renumbering.{rgs, IsCanon};
ghost use Rattle.cf_model.specs.FlatFunctions.{points};
ghost use Rattle.cf_model.specs.Patterns.{a_pattern, b_patterns, distinct_rows, return_lists, rows, sub};
ghost use Rattle.cf_model.specs.Diagrams.{connection_at, count, pattern, row, HasPatterns};
ghost use Rattle.cf_table.specs.Groupings.{Owns, exits_of, node_of, pattern_of};

use super::{DONT_CARE, FORK, Gid, Table};

/// Level 0 has `DONT_CARE`, with exit 0 for both bits, and `FORK`, with the bit as exit.
pub fn base_groupings(table: &Table)
    ensures count { count table.now.levels 0 ≡ 2 }
    ensures dont_care { pattern_of table.now DONT_CARE ≡ 0 ∷ 0 ∷ [] }
    ensures fork { pattern_of table.now FORK ≡ 0 ∷ 1 ∷ [] }
{
    table.law();
}

/// A pattern has a number for each assignment and is its own renumbering, its numbers are below
/// the number of exits, and each exit is reached.
pub fn reach(table: &Table, g: Gid)
    requires owned { Owns table.now g }
    ensures full { length (pattern_of table.now g) ≡ points g.level }
    ensures renumbered { rgs nat_eq (pattern_of table.now g) ≡ pattern_of table.now g }
    ensures exits { All (λ e. e < exits_of table.now g) (pattern_of table.now g) }
    ensures reached { (e : ℕ) → e < exits_of table.now g → (n : ℕ) × (slice_get (pattern_of table.now g) n ≡ Some e) }
{
    table.law();
}

/// The rows of a pattern, numbered by first appearance, are the A-callee's pattern; the
/// different rows are those of the middle vertices, in order.
pub fn rows_are_numbered(table: &Table, g: Gid)
    requires owned { Owns table.now g }
    requires level { 1 ≤ g.level }
    ensures canon { let l = g.level - 1 in
        let n = node_of table.now g in
        IsCanon (rows l (pattern_of table.now g))
        (pattern table.now.levels l n.a_callee)
        (map (row (pattern table.now.levels l)) n.connections) }
    ensures middles { let different = distinct_rows (g.level - 1) (pattern_of table.now g) in
        length (node_of table.now g).connections ≡ length different }
{
    table.law();
}

/// The A-callee has the A-pattern.
pub fn a_callee_has_a_pattern(table: &Table, g: Gid)
    requires owned { Owns table.now g }
    requires level { 1 ≤ g.level }
    ensures { let l = g.level - 1 in
        pattern table.now.levels l (node_of table.now g).a_callee ≡ a_pattern l (pattern_of table.now g) }
{
    table.law();
}

/// The callee of middle vertex j has the j-th B-pattern, and its return tuple lists the
/// different entries of the j-th different row.
pub fn b_callee_has_b_pattern(table: &Table, g: Gid, j: u64)
    requires owned { Owns table.now g }
    requires level { 1 ≤ g.level }
    requires middle { j < length (node_of table.now g).connections }
    ensures callee { let l = g.level - 1 in
        let b = connection_at (node_of table.now g).connections j in
        slice_get (b_patterns l (pattern_of table.now g)) j ≡ Some (pattern table.now.levels l b.callee) }
    ensures returns { let b = connection_at (node_of table.now g).connections j in
        slice_get (return_lists (g.level - 1) (pattern_of table.now g)) j ≡ Some b.returns }
{
    table.law();
}

/// All that a pattern is made of is in the table.
pub fn parts_are_there(table: &Table, g: Gid)
    requires { Owns table.now g }
    ensures { HasPatterns table.now.levels (sub g.level (pattern_of table.now g)) }
{
    table.law();
}

/// Two ids of one level have equal patterns exactly where they are the same.
pub fn equal_patterns_have_one_id(table: &Table, g: Gid, h: Gid)
    requires first { Owns table.now g }
    requires second { Owns table.now h }
    requires level { g.level ≡ h.level }
    ensures { (pattern_of table.now g ≡ pattern_of table.now h) ↔ (g ≡ h) }
{
    table.law();
}
