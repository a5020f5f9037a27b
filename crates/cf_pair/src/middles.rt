//! Where the pairs of a product stand, so that no list of them is made for one use.

ghost use Rattle.std.specs.Prelude.{◌≡◌, ◌<◌, length, IfOk, slice_index_or};
ghost use Rattle.cf_pair.specs.Products.{pairs_at, IsPlace};

use crate::plain::Plain;
use cf_table::Table;
use cf_tuple::NoMemory;
use std::alloc::Global;

/// Where the pairs of a product stand. Those of the product of two A-callees are the pairs of
/// middle vertices.
#[derive(Clone, Copy, Debug)]
pub(crate) enum Middles {
    /// Nowhere: the product is one of its two groupings, and a formula gives them.
    Formula(Plain),
    /// At a place of the table's memo of products.
    Kept(usize),
}

impl Middles {
    /// How many pairs there are.
    pub fn len(self, table: &Table) -> usize
        requires { IsPlace table.now.products self }
        ensures { result ≡ length (pairs_at table.now.products self) }
    {
        match self {
            Middles::Formula(plain) => plain.exits as usize,
            Middles::Kept(place) => table.product_at(place).pairs.len(),
        }
    }

    /// The pair of a number.
    pub fn pair(self, table: &Table, number: usize) -> (u64, u64)
        requires place { IsPlace table.now.products self }
        requires within { number < length (pairs_at table.now.products self) }
        ensures { result ≡ slice_index_or (pairs_at table.now.products self) number (0, 0) }
    {
        match self {
            Middles::Formula(plain) => plain.meeting.pair(number as u64),
            Middles::Kept(place) => table.product_at(place).pairs[number],
        }
    }

    /// All pairs, in a list of their own.
    pub fn pairs(self, alloc: Global, table: &Table) -> Result<Vec<(u64, u64)>, NoMemory>
        requires { IsPlace table.now.products self }
        ensures { IfOk result (λ v. v.items ≡ pairs_at table.now.products self) }
    {
        match self {
            Middles::Formula(plain) => plain.pairs(alloc),
            Middles::Kept(place) => {
                Vec::from_slice(alloc, table.product_at(place).pairs.as_slice())
            }
        }
    }
}
