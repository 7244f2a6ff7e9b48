//! The run of an order.
ghost use Rattle.spawn_orders.specs.Orders.{numbers_of};
ghost use Rattle.std.specs.List.Sorted.{IsPermutation};
ghost use Rattle.std.specs.Prelude.{◌≡◌, IfOk, IsTrue};

use crate::fault::OrderFault;
use crate::ledger::Ledger;
use crate::order::Order;
use crate::spawned::Spawned;
use rayon_core::{CallError, PoolRef, Refusal};
use std::alloc::{AllocError, Global};
use std::sync::Wait;

/// Installs the job of this order, waits for all that are spawned then, and answers their numbers in the order in which
/// they ran: each number of the order once. Where a spawn was refused, the first refusal. The thread is to be no worker
/// of the pool, since it blocks.
pub fn run_order<R: Wait>(
    rt: &R,
    alloc: Global,
    pool: &PoolRef<Spawned>,
    order: Order,
) -> Result<Vec<i8>, OrderFault>
    ensures { IfOk result (λ ns. IsPermutation ns.items (numbers_of order)) }
{
    let work = order.work();
    let (ledger, mut seat) = Ledger::new(alloc, work.leaves()).map_err(OrderFault::Refused)?;
    let job = Spawned::new(&ledger, 0, work).map_err(OrderFault::Refused)?;
    pool.install(rt, alloc, job)
        .map_err(CallError::without_sides)?;
    let numbers = ledger.take(rt, alloc, &mut seat)?;
    match has_each_once(alloc, numbers.as_slice(), order) {
        Ok(true) => Ok(numbers),
        Ok(false) => Err(OrderFault::Missing),
        Err(_) => Err(OrderFault::Refused(Refusal::NoRoom)),
    }
}

// Whether these numbers are those of the order, each once. What lies behind the list's lock is known to a proof by its
// type alone, so it is looked at.
fn has_each_once(alloc: Global, numbers: &[i8], order: Order) -> Result<bool, AllocError>
    ensures { IfOk result (λ b. IsTrue b → IsPermutation numbers.now (numbers_of order)) }
{
    let mut sorted = Vec::from_slice(alloc, numbers)?;
    sorted.sort_unstable();
    Ok(sorted.as_slice() == order.numbers())
}
