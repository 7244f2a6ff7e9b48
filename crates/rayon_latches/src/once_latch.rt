//! The latch of what ends once, as a worker's loop.
ghost use Rattle.rayon_atomics.specs.Latches.{own};
ghost use Rattle.rayon_sleep.specs.Tickles.{Tickles};
ghost use Rattle.std.specs.Prelude.{◌≡◌, IfOk, IfErr};

use rayon_atomics::latch::CoreLatch;
use rayon_atomics::own_latch::OwnLatch;
use rayon_sleep::sleep::Sleep;
use rayon_sleep::tickle::{Tickle, set_and_tickle};
use rayon_words::Refusal;
use std::alloc::Global;
use std::marker::Model;
use std::sync::{Arc, Wait};

/// A core latch of a worker that does not say whose it is: it lies in what the workers share, and who sets it hands in
/// where they sleep, so that the one has no share of the other. The worker waits on the `OwnLatch` that is made beside
/// it.
///
/// To a contract it is the name of its core latch.
#[derive(Drop)]
pub struct OnceLatch {
    core_latch: Arc<CoreLatch, Global>,
}

impl Model for OnceLatch {
    ghost use Rattle.atomic_table.specs.Seated.{TableId};

    ghost Value = { TableId };

    ghost view = { λ l. l.core_latch.value };
}

impl OnceLatch {
    /// A latch that is not set, and the same with its owner's seat. Refused `NoRoom` for want of memory.
    pub fn new(alloc: Global) -> Result<(OnceLatch, OwnLatch), Refusal>
        ensures made { IfOk result (λ r. r.1 ≡ own) }
        ensures refused { IfErr result (λ r. r ≡ Refusal.NoRoom) }
    {
        let (core_latch, own) = OwnLatch::new(alloc)?;
        Ok((OnceLatch { core_latch }, own))
    }

    /// The core latch.
    pub fn core_latch(&self) -> &CoreLatch
        ensures { result.now ≡ self.now }
    {
        &self.core_latch
    }

    /// Sets the latch, and wakes the worker of this index where it slept on it: the one to whom the latch belongs.
    pub fn set_and_tickle_one<R: Wait>(
        &self,
        rt: &R,
        sleep: &Sleep,
        target_worker_index: usize,
    ) -> Tickle
        ensures { Tickles (record { worker = target_worker_index; latch = self.now }) result }
    {
        set_and_tickle(rt, &self.core_latch, sleep, target_worker_index)
    }
}
