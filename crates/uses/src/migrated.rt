//! What a run is told of itself: whether it migrated. The first side of a join stays with the worker that made the
//! call, and is told so; the second side may be another worker's.
ghost use Rattle.std.specs.Prelude.{◌≡◌, ℕ, ⊤, IfOk, false};
ghost use Rattle.std.proofs.Common.{rules};

use rayon_core::{
    BroadcastContext, CallError, FnContext, ForkJoin, Job, JobKind, NoHandler, Refusal, Waits,
    WorkerThread,
};
use std::alloc::Global;
use thiserror::Error;

/// The job of telling whether a run migrated. It is its own tag.
#[derive(Clone, Copy, PartialEq, Eq)]
pub enum Tell {
    /// This run.
    Own,
    /// The first of two jobs that this run joins.
    FirstJob,
    /// A closure that this run joins with a job.
    Closure,
}

/// Why nothing is told.
#[derive(Debug, Drop, Error)]
pub enum TellFault {
    /// A call was refused.
    #[error("refused: {0}")]
    Refused(Refusal),
    /// A call found no result, or another job's.
    #[error("lost")]
    Lost,
}

impl From<CallError<TellFault, ()>> for TellFault {
    fn from(error: CallError<TellFault, ()>) -> TellFault {
        match error {
            CallError::Fault(fault) => fault,
            CallError::Refused(refusal, ()) => TellFault::Refused(refusal),
            CallError::Foreign | CallError::Missing => TellFault::Lost,
        }
    }
}

impl JobKind for Tell {
    type Tag = Tell;

    type Output = bool;

    type Fault = TellFault;

    type Handler = NoHandler;

    ghost use Rattle.uses.specs.declared.migrated.Tell.TheVariants.{Own, FirstJob, Closure};

    ghost answers = { λ t r. elim t [ Own ↦ ⊤ | FirstJob ↦ IfOk r (λ v. v ≡ false) | Closure ↦ IfOk r (λ v. v ≡ false) ] };

    ghost answers_at = { λ j n m r. elim j [ Own ↦ IfOk r (λ v. v ≡ m) | FirstJob ↦ ⊤ | Closure ↦ ⊤ ] };

    ghost tag_of = { λ j. j };

    fn tag(&self) -> Tell {
        *self
    }

    ghost same_answers = { λ t u e. Prim.search rules };
}

impl Job for Tell {
    fn run<R: Waits<Self>>(
        self,
        rt: &R,
        alloc: Global,
        w: &mut WorkerThread<Self>,
        ctx: &mut FnContext<Self>,
    ) -> Result<bool, TellFault> {
        match self {
            Tell::Own => Ok(ctx.migrated()),
            Tell::FirstJob => {
                let (first, _) = w
                    .join_jobs(rt, alloc, Tell::Own, Tell::Own)
                    .map_err(CallError::without_sides)?;
                Ok(first)
            }
            Tell::Closure => {
                let (first, _) = w
                    .join(rt, alloc, |_w, ctx| Ok(ctx.migrated()), Tell::Own)
                    .map_err(CallError::without_sides)?;
                Ok(first)
            }
        }
    }

    fn run_on<R: Waits<Self>>(
        &self,
        rt: &R,
        alloc: Global,
        w: &mut WorkerThread<Self>,
        _ctx: &mut BroadcastContext<Self>,
    ) -> Result<bool, TellFault> {
        match w.install(rt, alloc, *self) {
            Ok(told) => Ok(told),
            Err(error) => Err(TellFault::from(error.without_sides())),
        }
    }
}
