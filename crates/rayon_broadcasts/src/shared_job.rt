//! The job of a broadcast, as its pieces share it.
ghost use Rattle.std.specs.Prelude.{◌≡◌, IfOk, IfErr, MatchResult};

use rayon_words::Refusal;
use std::alloc::Global;
use std::marker::Model;
use std::sync::{Arc, OnceLock, Wait};

/// The job of a broadcast, as its pieces share it: a place that has no job until the call puts it in, once. So a call
/// makes all its pieces first, and where memory is refused to one of them it still has the very job.
///
/// To a contract it is the number of the place.
#[derive(Drop)]
pub struct SharedJob<J> {
    place: Arc<OnceLock<J>, Global>,
}

impl<J> Model for SharedJob<J> {
    ghost use Rattle.std.specs.Arc.{arc_value};
    ghost use Rattle.std.specs.Prelude.{ℕ};

    ghost Value = { ℕ };

    ghost view = { λ s. (arc_value s.place).id };
}

impl<J: Drop> SharedJob<J> {
    /// A place without a job. Refused `NoRoom` for want of memory.
    pub fn new(alloc: Global) -> Result<SharedJob<J>, Refusal>
        ensures refused { IfErr result (λ r. r ≡ Refusal.NoRoom) }
    {
        match Arc::new(alloc, OnceLock::new()) {
            Ok(place) => Ok(SharedJob { place }),
            Err(_) => Err(Refusal::NoRoom),
        }
    }

    /// One more share of the same place. Refused `NoRoom` where there are too many.
    pub fn share(&self) -> Result<SharedJob<J>, Refusal>
        ensures same { IfOk result (λ s. s ≡ self.now) }
        ensures refused { IfErr result (λ r. r ≡ Refusal.NoRoom) }
    {
        match Arc::try_clone(&self.place) {
            Ok(place) => Ok(SharedJob { place }),
            Err(_) => Err(Refusal::NoRoom),
        }
    }

    // Puts the job in, and lends it as it stands there. Where there is one already, or another thread is putting one
    // in, it comes back. Only a push of pieces does so: whoever is lent the job has pushed them.
    pub(crate) fn put(&self, job: J) -> Result<&J, J>
        ensures { MatchResult result (λ there. there.now ≡ job) (λ back. back ≡ job) }
    {
        match self.place.try_set(job) {
            Ok(token) => Ok(self.place.value(&token)),
            Err(back) => Err(back),
        }
    }

    /// The job, once it was put in.
    pub fn job(&self) -> Option<&J> {
        self.place.get()
    }

    /// The job. It blocks until one was put in, so it blocks no piece that was taken from a queue.
    pub fn wait<R: Wait>(&self, rt: &R) -> &J {
        self.place.wait(rt)
    }
}
