//! The rows from which restricted groupings are assembled.

ghost use Rattle.std.specs.Prelude.{◌≡◌, ◌<◌, ◌≤◌, ◌-◌, ◌++◌, [], length, All, IfOk, OnOk, slice_index_or};
ghost use Rattle.cf_model.specs.Diagrams.{connection_at, pattern, row, IsGood};
ghost use Rattle.cf_table.specs.Groupings.{Owns, node_of};
ghost use Rattle.cf_pair.specs.Products.{ListEach};
ghost use Rattle.cf_restrict.specs.Restrictions.{returned_exits};

use cf_build::Rows;
use cf_table::{Gid, Table};
use cf_tuple::NoMemory;
use std::alloc::Global;

/// Appends labels to a row.
fn push_labels(rows: &mut Rows<u64>, labels: &[u64]) -> Result<(), NoMemory>
    ensures { OnOk result (rows.new ≡ record rows.old { begun = rows.old.begun ++ labels.now }) }
{
    for i in 0..labels.len() {
        rows.push_label(labels[i])?;
    }
    Ok(())
}

/// Appends to a row the outer exits to which the exits of a callee return.
pub(crate) fn push_returned(
    rows: &mut Rows<u64>,
    exits: &[u64],
    returns: &[u64],
) -> Result<(), NoMemory>
    requires within { All (λ e. e < length returns.now) exits.now }
    ensures { OnOk result (rows.new ≡ record rows.old {
      begun = rows.old.begun ++ returned_exits returns.now exits.now;
    }) }
{
    for i in 0..exits.len() {
        rows.push_label(returns[exits[i] as usize])?;
    }
    Ok(())
}

/// The rows of some middle vertices, as they are.
pub(crate) fn middle_rows(
    alloc: Global,
    table: &Table,
    g: Gid,
    middles: &[u64],
) -> Result<Rows<u64>, NoMemory>
    requires above { 1 ≤ g.level }
    requires good { IsGood table.now.levels }
    requires owned { Owns table.now g }
    requires middles { All (λ j. j < length (node_of table.now g).connections) middles.now }
    ensures rows { let l = g.level - 1 in
        IfOk result (λ v. ListEach table.now.levels l
        (λ i. row (pattern table.now.levels l)
        (connection_at (node_of table.now g).connections (slice_index_or middles.now i 0)))
        (length middles.now) v.rows) }
    ensures ended { IfOk result (λ v. v.begun ≡ []) }
{
    let mut rows = Rows::new(alloc, middles.len())?;
    for i in 0..middles.len() {
        let conn = table.connection(g, middles[i]);
        push_labels(&mut rows, table.tuple(conn.ret))?;
        rows.end_row(conn.to)?;
    }
    Ok(rows)
}
