//! What the setting of a worker's latch did, for those whose contracts say it.
ghost use Rattle.rayon_sleep.specs.Tickles.{Tickles};

use crate::sleep::Sleep;
use rayon_atomics::latch::{CoreLatch, LatchSeat};
use rayon_drive::trace::Trace;
use std::sync::Wait;

/// What the setting of a worker's latch did.
#[derive(Drop)]
pub struct Tickle {
    /// The seat that set the latch.
    pub seat: LatchSeat,
    /// What was done to wake the worker: nothing where it did not sleep on the latch.
    pub trace: Trace,
}

/// Sets a latch of the worker of this index, and wakes the worker where it slept on it.
pub fn set_and_tickle<R: Wait>(rt: &R, latch: &CoreLatch, sleep: &Sleep, worker: usize) -> Tickle
    ensures { Tickles (record { worker = worker; latch = latch.now }) result }
{
    let (slept, seat) = latch.set_as_guest();
    let mut trace = Trace::new();
    if slept {
        sleep.notify_worker_latch_is_set(rt, worker, &mut trace);
    }
    Tickle { seat, trace }
}
