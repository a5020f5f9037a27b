//! Products of two groupings that take no look at what the groupings are made of.

ghost use Rattle.std.specs.Prelude.{◌≡◌, ◌≤◌, IfOk, MatchOption};
ghost use Rattle.cf_model.specs.Diagrams.{IsGood};
ghost use Rattle.cf_table.specs.Groupings.{Owns};
ghost use Rattle.cf_pair.specs.Products.{met, plain_pairs, IsPairsOf};

use cf_table::{Gid, Table};
use cf_tuple::NoMemory;
use std::alloc::Global;

/// How the exits of two groupings meet where their product is one of the two.
#[derive(Clone, Copy, Debug)]
pub(crate) enum Meeting {
    /// Each exit is beside itself: the two are one grouping.
    Equal,
    /// Each exit comes after exit 0, the only one of the first grouping.
    AfterZero,
    /// Each exit comes before exit 0, the only one of the second grouping.
    BeforeZero,
}

impl Meeting {
    /// The pair that meets at an exit of the product.
    pub fn pair(self, exit: u64) -> (u64, u64)
        ensures { result ≡ met self exit }
    {
        match self {
            Meeting::Equal => (exit, exit),
            Meeting::AfterZero => (0, exit),
            Meeting::BeforeZero => (exit, 0),
        }
    }
}

/// A product that is one of its two groupings: the grouping, how many exits it has, and which pairs
/// meet there.
#[derive(Clone, Copy, Debug)]
pub(crate) struct Plain {
    pub head: Gid,
    pub exits: u64,
    pub meeting: Meeting,
}

impl Plain {
    /// The pairs of all exits, in order.
    pub fn pairs(self, alloc: Global) -> Result<Vec<(u64, u64)>, NoMemory>
        ensures { IfOk result (λ v. v.items ≡ plain_pairs self) }
    {
        let mut pairs = Vec::with_capacity(alloc, self.exits as usize)?;
        for exit in 0..self.exits {
            pairs.push(self.meeting.pair(exit))?;
        }
        Ok(pairs)
    }
}

/// The product of two groupings of one level where it takes no look at what they are made of: of a
/// grouping with itself, and beside a single exit, since exit 0 beside a grouping's exits tells no
/// more assignments apart. At level 0 there are no others.
pub(crate) fn plain_product(table: &Table, g: Gid, h: Gid) -> Option<Plain>
    requires levels { h.level ≡ g.level }
    requires good { IsGood table.now.levels }
    requires first { Owns table.now g }
    requires second { Owns table.now h }
    ensures { MatchOption result
        (1 ≤ g.level)
        (λ p. IsPairsOf table.now table.now g h p.head (plain_pairs p)) }
{
    let left = table.exits(g);
    if g == h {
        return Some(Plain {
            head: g,
            exits: left,
            meeting: Meeting::Equal,
        });
    }
    let right = table.exits(h);
    if left == 1 {
        return Some(Plain {
            head: h,
            exits: right,
            meeting: Meeting::AfterZero,
        });
    }
    if right == 1 {
        return Some(Plain {
            head: g,
            exits: left,
            meeting: Meeting::BeforeZero,
        });
    }
    None
}
