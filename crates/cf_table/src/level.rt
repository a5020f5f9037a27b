//! The groupings of a level above level 0, each kept once and found by its hash.

ghost use Rattle.std.specs.Prelude.{◌≡◌, ◌<◌, ◌+◌, ◌*◌, ◌^◌, [], All, length, map, slice_get, Some, IfOk, OnErr};
ghost use Rattle.std.proofs.Common.{rules};
ghost use Rattle.std.specs.Hash as fed;
ghost use Rattle.std.specs.Cmp.Rules.{hashing};
ghost use Rattle.cf_table.specs.Groupings.{exits_with};
ghost use Rattle.cf_table.specs.Kept.{ids_of, kept_of, packed, IsEntered};

use super::BConn;
use super::goodness::exits_of;
use cf_tuple::{NoMemory, TupleBook};
use indexmap::IndexMap;
use smallvec::SmallVec;
use std::alloc::{AllocError, Global};
use std::hash::{Hash, Hasher};
use std::marker::Model;

/// A B-connection as it is kept: the places of its callee and of its return tuple. Its level is one below its
/// grouping's.
#[derive(Clone, Copy, Debug, Default, PartialEq, Eq)]
pub(crate) struct PackedConnection {
    pub callee: u32,
    pub returns: u32,
}

impl Hash for PackedConnection {
    ghost hash_input = { λ p. fed.u64 (p.callee * 2 ^ 32 + p.returns) };

    ghost respects_eq = { Prim.search (hashing, rules) };

    /// The two numbers go in as one.
    fn hash<H: Hasher>(&self, state: &mut H) {
        state.write_u64(self.callee as u64 * (1 << 32) + self.returns as u64);
    }
}

/// What a grouping is found by: the place of its A-callee, and its B-connections, up to four of them with no
/// allocation.
#[derive(Debug, PartialEq, Eq, Hash, Drop)]
pub(crate) struct PackedNode {
    pub a_callee: u32,
    pub connections: SmallVec<PackedConnection, 4>,
}

/// The groupings of a level, each with the number of its exits. A grouping's place is that of its insertion.
#[derive(Drop)]
pub(crate) struct Level {
    nodes: IndexMap<PackedNode, u64>,
}

impl Model for Level {
    ghost use Rattle.std.specs.Prelude.{List, map};
    ghost use Rattle.cf_table.specs.Kept.{Kept, kept_of};

    ghost Value = { List Kept };

    ghost view = { λ level. map kept_of level.nodes.entries };
}

/// A number in 32 bits. One that doesn't fit numbers more groupings than there is memory for.
fn number(n: u64) -> Result<u32, NoMemory>
    ensures { IfOk result (λ k. k ≡ n) }
{
    if n <= u32::MAX as u64 {
        Ok(n as u32)
    } else {
        Err(AllocError)
    }
}

fn packed_connection(b: BConn) -> Result<PackedConnection, NoMemory>
    ensures { IfOk result (λ p. p ≡ packed b) }
{
    Ok(PackedConnection {
        callee: number(b.to.at)?,
        returns: number(b.ret.at)?,
    })
}

impl Level {
    /// A level without a grouping.
    pub fn new(alloc: Global) -> Level
        ensures { result ≡ [] }
    {
        Level {
            nodes: IndexMap::new(alloc),
        }
    }

    /// How many groupings the level has.
    pub fn len(&self) -> usize
        ensures { result ≡ length self.now }
    {
        self.nodes.len()
    }

    /// What the grouping with this A-callee and these B-connections is found by.
    pub fn pack(&self, a: u64, bs: &[BConn]) -> Result<PackedNode, NoMemory>
        ensures { IfOk result (λ n. ids_of n ≡ (a, map packed bs.now)) }
    {
        let a_callee = number(a)?;
        let mut connections = SmallVec::new(*self.nodes.allocator());
        connections.reserve(bs.len())?;
        for &b in bs {
            connections.push(packed_connection(b)?)?;
        }
        Ok(PackedNode {
            a_callee,
            connections,
        })
    }

    /// The place of a grouping, which is added if the level hasn't it.
    pub fn enter(
        &mut self,
        node: PackedNode,
        book: &TupleBook,
        bs: &[BConn],
    ) -> Result<usize, NoMemory>
        requires { All (λ b. b.ret.at < length book.now) bs.now }
        ensures entered { let k = kept_of (node, exits_with book.now bs.now) in
            IfOk result (λ at. IsEntered self.old self.new k at) }
        ensures no_memory { OnErr result (self.new ≡ self.old) }
    {
        let entry = self.nodes.entry(node)?;
        let at = entry.index();
        entry.or_try_insert_with(|| exits_of(book, bs))?;
        Ok(at)
    }

    /// A grouping, and how many exits it has.
    pub fn get(&self, at: usize) -> (&PackedNode, u64)
        requires { at < length self.now }
        ensures { slice_get self.now at ≡ Some (kept_of (result.0.now, result.1)) }
    {
        let (node, &exits) = self.nodes.get_index(at).unwrap();
        (node, exits)
    }
}
