//! The order of signals, by a walk down their needs with a stack of its own.

ghost use Rattle.std.specs.Prelude.{◌≡◌, ℕ, ◌<◌, [], All, length, IfOk, IfErr, OnOk};
ghost use Rattle.cf_order.specs.Orders.{IsOrder, IsRingFault, HasNoRing, row};
ghost use Rattle.cf_order.specs.Sound.{Sound, Keeps};

use crate::walk::{Mark, Walk};
use crate::{NoMemory, Wires};
use std::alloc::Global;

/// Why there is no order.
#[derive(Drop)]
pub enum OrderFault {
    NoMemory,
    Ring(Wires),
}

impl From<NoMemory> for OrderFault {
    ghost use Rattle.std.specs.Prelude.{◌≡◌};
    ghost use Rattle.cf_order.specs.declared.order.OrderFault.{OrderFault};
    ghost use Rattle.cf_order.specs.declared.order.OrderFault.TheVariants as fault;

    ghost from_gives = { λ _ e. e ≡ fault.NoMemory };

    fn from(_: NoMemory) -> OrderFault {
        OrderFault::NoMemory
    }
}

/// An order of the signals in which each comes after all that it needs, or a ring. `rows` has the
/// needs of each signal.
pub fn order_of(alloc: Global, rows: &[Wires]) -> Result<Wires, OrderFault>
    requires { All (All (λ t. t < length rows.now)) rows.now }
    ensures order { IfOk result (IsOrder rows.now) }
    ensures no_ring { IfOk result (λ _. HasNoRing rows.now) }
    ensures ring { IfErr result (IsRingFault rows.now) }
{
    let mut walk = Walk::new(alloc, rows.len())?;
    for root in 0..rows.len() {
        if let Mark::New = walk.mark(root as u64) {
            walk.enter(root as u64)?;
            climb(alloc, rows, &mut walk)?;
        }
    }
    Ok(walk.into_order())
}

/// Goes on until no signal is on the way.
fn climb(alloc: Global, rows: &[Wires], walk: &mut Walk) -> Result<(), OrderFault>
    requires below { All (All (λ t. t < length rows.now)) rows.now }
    requires sound { Sound rows.now walk.old }
    ensures sound { OnOk result (Sound rows.now walk.new) }
    ensures done { OnOk result (walk.new.stack ≡ []) }
    ensures keeps { OnOk result (Keeps walk.old walk.new) }
    ensures ring { IfErr result (IsRingFault rows.now) }
{
    while let Some(frame) = walk.top() {
        let needs = needs_of(rows, frame.signal);
        if frame.next < needs.len() as u64 {
            let need = needs[frame.next as usize];
            match walk.mark(need) {
                Mark::New => walk.enter(need)?,
                Mark::Done(_) => walk.pass(frame),
                Mark::Open(depth) => return Err(OrderFault::Ring(walk.from(alloc, depth)?)),
            }
        } else {
            walk.leave(frame)?;
        }
    }
    Ok(())
}

/// What a signal needs.
fn needs_of(rows: &[Wires], signal: u64) -> &[u64]
    requires { signal < length rows.now }
    ensures { result.now ≡ row rows.now signal }
{
    rows[signal as usize].items()
}
