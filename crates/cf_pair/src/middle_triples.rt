//! Where the triples of a product stand, so that no list of them is made for one use.

ghost use Rattle.std.specs.Prelude.{◌≡◌, ◌<◌, length, IfOk, slice_index_or};
ghost use Rattle.cf_pair.specs.Triples.{zero_put, triples_at, IsTriplePlace};

use crate::middles::Middles;
use cf_table::Table;
use cf_tuple::NoMemory;
use std::alloc::Global;

/// A place among three exits.
#[derive(Clone, Copy, Debug)]
pub(crate) enum Place {
    First,
    Second,
    Third,
}

impl Place {
    /// A pair of exits with exit 0 at this place among them.
    pub fn with_zero(self, pair: (u64, u64)) -> (u64, u64, u64)
        ensures { result ≡ zero_put self pair }
    {
        let (left, right) = pair;
        match self {
            Place::First => (0, left, right),
            Place::Second => (left, 0, right),
            Place::Third => (left, right, 0),
        }
    }
}

/// Where the triples of a product stand. Those of the product of three A-callees are the triples of
/// middle vertices.
#[derive(Clone, Copy, Debug)]
pub(crate) enum TripleMiddles {
    /// Nowhere: the groupings are of level 0, and have exit 0 alone.
    DontCare,
    /// Nowhere: the groupings are of level 0, bit 0 leads to exit 0 of each, and bit 1 to these.
    Fork(u64, u64, u64),
    /// Where the pairs of two groupings stand: the one at a place has a single exit.
    Beside(Place, Middles),
    /// At a place of the table's memo of products of three groupings.
    Kept(usize),
}

impl TripleMiddles {
    /// How many triples there are.
    pub fn len(self, table: &Table) -> usize
        requires { IsTriplePlace table.now self }
        ensures { result ≡ length (triples_at table.now self) }
    {
        match self {
            TripleMiddles::DontCare => 1,
            TripleMiddles::Fork(_, _, _) => 2,
            TripleMiddles::Beside(_, pairs) => pairs.len(table),
            TripleMiddles::Kept(place) => table.triple_at(place).triples.len(),
        }
    }

    /// The triple of a number.
    pub fn triple(self, table: &Table, number: usize) -> (u64, u64, u64)
        requires place { IsTriplePlace table.now self }
        requires within { number < length (triples_at table.now self) }
        ensures { result ≡ slice_index_or (triples_at table.now self) number (0, 0, 0) }
    {
        match self {
            TripleMiddles::DontCare => (0, 0, 0),
            TripleMiddles::Fork(first, second, third) => {
                if number == 0 {
                    (0, 0, 0)
                } else {
                    (first, second, third)
                }
            }
            TripleMiddles::Beside(place, pairs) => place.with_zero(pairs.pair(table, number)),
            TripleMiddles::Kept(place) => table.triple_at(place).triples[number],
        }
    }

    /// All triples, in a list of their own.
    pub fn triples(self, alloc: Global, table: &Table) -> Result<Vec<(u64, u64, u64)>, NoMemory>
        requires { IsTriplePlace table.now self }
        ensures { IfOk result (λ v. v.items ≡ triples_at table.now self) }
    {
        if let TripleMiddles::Kept(place) = self {
            return Vec::from_slice(alloc, table.triple_at(place).triples.as_slice());
        }
        let count = self.len(table);
        let mut triples = Vec::with_capacity(alloc, count)?;
        for number in 0..count {
            triples.push(self.triple(table, number))?;
        }
        Ok(triples)
    }
}
