//! The test of a node that is to be interned.

ghost use Rattle.std.specs.Prelude.{◌≡◌, ◌<◌, ◌≤◌, ◌^◌, ◌↔◌, length, All, IsTrue, IfOk, MatchOption};
ghost use Rattle.cf_model.specs.Renumbering.{width, Grows, AllDiffer};
ghost use Rattle.cf_table.specs.Groupings.{Owns, OwnsTuple, exits_with, IsInternable};
ghost use Rattle.cf_table.specs.Goodness.{returns_of, IsNumberedOn, IsGoodOver};

use super::{BConn, Gid, Table};
use cf_tuple::{NoMemory, TupleBook};
use std::alloc::AllocError;

/// Whether no entry stands in the list twice.
fn entries_differ(list: &[u64]) -> bool
    ensures { IsTrue result ↔ AllDiffer list.now }
{
    for i in 0..list.len() {
        if list[..i].contains(&list[i]) {
            return false;
        }
    }
    true
}

/// Whether no B-connection stands in the list twice.
fn connections_differ(bs: &[BConn]) -> bool
    ensures { IsTrue result ↔ AllDiffer bs.now }
{
    for i in 0..bs.len() {
        if bs[..i].contains(&bs[i]) {
            return false;
        }
    }
    true
}

/// How many numbers are given out once the list is read, where `before` were before that. None where
/// the list doesn't number by first reach.
fn numbered_on(before: u128, list: &[u64]) -> Option<u128>
    requires { before ≤ 2 ^ 64 }
    ensures { MatchOption result (Grows before list.now → ⊥) (IsNumberedOn before list.now) }
{
    let mut next = before;
    for &exit in list {
        let exit = exit as u128;
        if exit > next {
            return None;
        }
        next = next.max(exit + 1);
    }
    Some(next)
}

/// How many exits the return tuples number. None where they don't number by first reach.
fn numbered_exits(table: &Table, bs: &[BConn]) -> Option<u128>
    requires { All (λ b. OwnsTuple table.now b.ret) bs.now }
    ensures { let returns = returns_of table.now.tuples bs.now in
        MatchOption result (Grows 0 returns → ⊥) (IsNumberedOn 0 returns) }
{
    let mut next = 0;
    for b in bs {
        next = numbered_on(next, table.tuple(b.ret))?;
    }
    Some(next)
}

/// How many numbers are given out once the list is read, where `before` were before that. A number that no `u64`
/// holds takes more memory than there is.
fn given_out(before: u64, list: &[u64]) -> Result<u64, NoMemory>
    ensures { IfOk result (λ n. n ≡ width before list.now) }
{
    let mut next = before;
    for &exit in list {
        if exit == u64::MAX {
            return Err(AllocError);
        }
        next = next.max(exit + 1);
    }
    Ok(next)
}

/// How many exits a good node has.
pub(crate) fn exits_of(book: &TupleBook, bs: &[BConn]) -> Result<u64, NoMemory>
    requires { All (λ b. b.ret.at < length book.now) bs.now }
    ensures { IfOk result (λ n. n ≡ exits_with book.now bs.now) }
{
    let mut next = 0;
    for b in bs {
        next = given_out(next, book.get(b.ret))?;
    }
    Ok(next)
}

/// Whether a B-connection is a good one of a node above the level.
fn is_good_connection(table: &Table, level: u8, b: BConn) -> bool
    ensures { IsTrue result ↔ IsGoodOver table.now level b }
{
    if b.to.level != level || !table.owns(b.to) || !table.owns_tuple(b.ret) {
        return false;
    }
    let returns = table.tuple(b.ret);
    returns.len() as u64 == table.exits(b.to) && entries_differ(returns)
}

fn are_good_connections(table: &Table, level: u8, bs: &[BConn]) -> bool
    ensures { IsTrue result ↔ All (IsGoodOver table.now level) bs.now }
{
    for &b in bs {
        if !is_good_connection(table, level, b) {
            return false;
        }
    }
    true
}

pub(crate) fn is_internable(table: &Table, a: Gid, bs: &[BConn]) -> bool
    ensures { IsTrue result ↔ IsInternable table.now a bs.now }
{
    if a.level > 6 || !table.owns(a) {
        return false;
    }
    if bs.len() as u64 != table.exits(a) {
        return false;
    }
    if !are_good_connections(table, a.level, bs) {
        return false;
    }
    table.law();
    connections_differ(bs) && numbered_exits(table, bs).is_some()
}
