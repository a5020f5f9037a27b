//! Which signals lie on a ring themselves.

ghost use Rattle.std.specs.Prelude.{◌≡◌, ◌↔◌, ℕ, ◌+◌, ◌<◌, ◌≤◌, ◌^◌, All, IsTrue, length, IfOk, OnOk, MatchOption};
ghost use Rattle.cf_order.specs.Orders.{row};
ghost use Rattle.cf_order.specs.Rings.{IsOnRing, HasNoneOnRing, IsFirstOnRing, Visits};

use crate::{NoMemory, Wires};
use std::alloc::Global;

/// The first signal that lies on a ring.
pub fn first_on_ring(alloc: Global, rows: &[Wires]) -> Result<Option<u64>, NoMemory>
    requires below { All (All (λ t. t < length rows.now)) rows.now }
    requires room { length rows.now < 2 ^ 62 }
    ensures { IfOk result (λ first.
        MatchOption first (HasNoneOnRing rows.now (length rows.now)) (IsFirstOnRing rows.now)) }
{
    for s in 0..rows.len() {
        if is_on_ring(alloc, rows, s as u64)? {
            return Ok(Some(s as u64));
        }
    }
    Ok(None)
}

/// Whether a signal lies on a ring: it is met again among all that it needs, directly or through
/// others.
fn is_on_ring(alloc: Global, rows: &[Wires], from: u64) -> Result<bool, NoMemory>
    requires below { All (All (λ t. t < length rows.now)) rows.now }
    requires room { length rows.now < 2 ^ 62 }
    requires there { from < length rows.now }
    ensures { IfOk result (λ b. IsTrue b ↔ IsOnRing rows.now from) }
{
    let mut seen = vec![in alloc; false; rows.len()]?;
    let mut queue = Vec::new(alloc);
    queue.push(from)?;
    for i in 0..rows.len() + 1 {
        if i >= queue.len() {
            return Ok(seen[from as usize]);
        }
        let needs = needs_of(rows, queue[i]);
        visit(needs, &mut seen, &mut queue)?;
    }
    Ok(seen[from as usize])
}

/// Puts those that weren't seen behind the queue.
fn visit(needs: &[u64], seen: &mut Vec<bool>, queue: &mut Vec<u64>) -> Result<(), NoMemory>
    requires { All (λ t. t < length seen.old.items) needs.now }
    ensures { OnOk result
        (Visits needs.now seen.old.items seen.new.items queue.old.items queue.new.items) }
{
    for need in needs {
        if seen[*need as usize] {
            continue;
        }
        queue.push(*need)?;
        seen[*need as usize] = true;
    }
    Ok(())
}

/// What a signal needs.
fn needs_of(rows: &[Wires], signal: u64) -> &[u64]
    requires { signal < length rows.now }
    ensures { result.now ≡ row rows.now signal }
{
    rows[signal as usize].items()
}
