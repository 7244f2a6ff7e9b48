//! The faults of a pool's detached jobs and its handlers, which its threads share.
ghost use Rattle.rayon_jobs.specs.Faults.{Agrees};
ghost use Rattle.std.specs.Prelude.{◌≡◌, IfErr};

use rayon_jobs::{Faults, PoolHandler};
use rayon_words::Refusal;
use std::alloc::Global;
use std::sync::{Arc, Mutex, Wait};

/// The handlers of a pool, those that it has.
#[derive(Drop)]
pub struct Handlers<H> {
    /// Is told the faults of detached jobs, and of the other two handlers.
    pub panic: Option<H>,
    /// Is told that a worker's thread has begun.
    pub start: Option<H>,
    /// Is told that a worker's thread has run its last job.
    pub exit: Option<H>,
}

// What a pool keeps of the faults of its detached jobs, and its handlers, to one of which it tells the faults in place
// of that, if it has it. No lock is held while a handler is told.
#[derive(Drop)]
struct Kept<F, H> {
    faults: Mutex<Faults<F>>,
    handlers: Handlers<H>,
}

/// A share of what a pool keeps of the faults of its detached jobs, and of its handlers. It stands beside what else the
/// pool's threads share, so that the checker finds of each apart that it may be sent.
#[derive(Drop)]
pub struct SharedFaults<F, H> {
    kept: Arc<Kept<F, H>, Global>,
}

impl<F: Drop, H: PoolHandler<F>> SharedFaults<F, H> {
    // The first share, where no fault is kept. Refused `NoRoom`, and the handlers are let go then.
    pub(crate) fn new(alloc: Global, handlers: Handlers<H>) -> Result<SharedFaults<F, H>, Refusal>
        ensures refused { IfErr result (λ r. r ≡ Refusal.NoRoom) }
    {
        let faults = Mutex::new(Faults::new());
        match Arc::new(alloc, Kept { faults, handlers }) {
            Ok(kept) => Ok(SharedFaults { kept }),
            Err(_) => Err(Refusal::NoRoom),
        }
    }

    // One more share. Refused `NoRoom`.
    pub(crate) fn share(&self) -> Result<SharedFaults<F, H>, Refusal>
        ensures refused { IfErr result (λ r. r ≡ Refusal.NoRoom) }
    {
        match Arc::try_clone(&self.kept) {
            Ok(kept) => Ok(SharedFaults { kept }),
            Err(_) => Err(Refusal::NoRoom),
        }
    }

    // A detached job, or another handler, has ended with this fault. The panic handler is told it where there is one.
    // Else it is kept, and where it is not the first it is let go once the lock is given back.
    pub(crate) fn keep<R: Wait>(&self, rt: &R, fault: F) {
        match &self.kept.handlers.panic {
            Some(handler) => handler.panicked(rt, fault),
            None => {
                let later = self.kept.faults.lock(rt).keep(fault);
                drop(later);
            }
        }
    }

    // The thread of the worker with this index has begun. The start handler is told so, where there is one.
    pub(crate) fn started<R: Wait>(&self, rt: &R, index: usize) {
        if let Some(handler) = &self.kept.handlers.start {
            if let Err(fault) = handler.started(rt, index) {
                self.keep(rt, fault);
            }
        }
    }

    // The thread of the worker with this index has run its last job. The exit handler is told so, where there is one.
    pub(crate) fn exited<R: Wait>(&self, rt: &R, index: usize) {
        if let Some(handler) = &self.kept.handlers.exit {
            if let Err(fault) = handler.exited(rt, index) {
                self.keep(rt, fault);
            }
        }
    }

    // A token was spent whose list was empty.
    pub(crate) fn stray<R: Wait>(&self, rt: &R) {
        self.kept.faults.lock(rt).stray();
    }

    // How many such tokens there were, at most 2^64 - 1.
    pub(crate) fn strays<R: Wait>(&self, rt: &R) -> u64 {
        self.kept.faults.lock(rt).strays()
    }

    // The first kept fault since this was asked last, and how many there were, at most 2^64 - 1. None is kept then.
    pub(crate) fn take<R: Wait>(&self, rt: &R) -> (Option<F>, u64)
        ensures { Agrees result.0 result.1 }
    {
        self.kept.faults.lock(rt).take()
    }
}
