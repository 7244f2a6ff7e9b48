//! What the jobs of one order share.
ghost use Rattle.std.specs.Prelude.{◌≡◌, None, IfOk, IfErr};

use crate::fault::OrderFault;
use crate::ran::Ran;
use rayon_atomics::count::CountSeat;
use rayon_core::Refusal;
use rayon_latches::CountLatch;
use std::alloc::Global;
use std::marker::Model;
use std::sync::{Arc, Mutex, Wait};

/// What the jobs of one order share: the list of those that ran, and a latch that is set once no number is to come any
/// more. To a contract it is that latch.
#[derive(Drop)]
pub struct Ledger {
    ran: Mutex<Ran>,
    awaited: CountLatch,
}

impl Model for Ledger {
    ghost use Rattle.rayon_latches.specs.Awaited.{Awaited};

    ghost Value = { Awaited };

    ghost view = { λ l. l.awaited };
}

impl Ledger {
    /// An empty list into which so many numbers are to come, and the seat to wait for them with. Refused `NoRoom`.
    pub(crate) fn new(alloc: Global, numbers: u64) -> Result<(Arc<Ledger>, CountSeat), Refusal>
        ensures numbers { IfOk result (λ r. r.0.value.count.start ≡ numbers) }
        ensures seat { IfOk result (λ r. (r.1.table_id ≡ r.0.value.count.table) × (r.0.value.owner ≡ None)) }
        ensures refused { IfErr result (λ r. r ≡ Refusal.NoRoom) }
    {
        let (awaited, seat, _) = CountLatch::with_count(alloc, numbers, None)?;
        let ran = Mutex::new(Ran::new(alloc));
        match Arc::new(alloc, Ledger { ran, awaited }) {
            Ok(ledger) => Ok((ledger, seat)),
            Err(_) => Err(Refusal::NoRoom),
        }
    }

    /// A job runs that puts this number into the list.
    pub(crate) fn add<R: Wait>(&self, rt: &R, number: i8) {
        self.ran.lock(rt).add(number);
        self.lower(rt);
    }

    /// So many numbers will not come, since this was refused.
    pub(crate) fn give_up<R: Wait>(&self, rt: &R, refusal: Refusal, numbers: u64) {
        self.ran.lock(rt).refuse(refusal);
        for _ in 0..numbers {
            self.lower(rt);
        }
    }

    // One number fewer is to come. With the last the latch is set.
    fn lower<R: Wait>(&self, rt: &R) {
        let mut seat = self.awaited.guest_seat();
        let _ = self.awaited.set(rt, &mut seat);
    }

    /// Waits until no number is to come any more, and takes the list, or the first refusal. It blocks the thread, which
    /// is to be no worker of the pool.
    pub(crate) fn take<R: Wait>(
        &self,
        rt: &R,
        alloc: Global,
        seat: &mut CountSeat,
    ) -> Result<Vec<i8>, OrderFault>
        requires table { seat.old.table_id ≡ self.now.count.table }
        requires owner { self.now.owner ≡ None }
    {
        self.awaited.wait(rt, seat);
        self.ran.lock(rt).take(alloc)
    }
}
