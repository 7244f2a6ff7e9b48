//! A closure as a join's first side, which is never queued; and jobs of several kinds.
ghost use Rattle.rayon_core.specs.Worker.{SameWorker};
ghost use Rattle.std.specs.Prelude.{◌≡◌, ℕ, ◌+◌, ◌≤◌, IfOk};
ghost use Rattle.std.proofs.Common.{rules};

use crate::scopes::doubles;
use rayon_core::{
    BroadcastContext, CallError, FnContext, ForkJoin, Job, JobKind, NoHandler, Refusal, Waits,
    WorkerThread,
};
use std::alloc::Global;
use thiserror::Error;

/// What is asked: several kinds of jobs of one pool are one enum, which is its own tag.
#[derive(Clone, Copy, PartialEq, Eq)]
pub enum Ask {
    /// Twice a number.
    Double(u32),
    /// Three times a number: twice it by a job, and the number itself by a closure beside it.
    Triple(u32),
    /// Twice the sum of three numbers: twice each by a job of one scope.
    Doubles(u32, u32, u32),
}

/// Why there is no answer.
#[derive(Debug, Drop, Error)]
pub enum AskFault {
    /// The answer is above 2^32 - 1.
    #[error("too large")]
    TooLarge,
    /// A call was refused.
    #[error("refused: {0}")]
    Refused(Refusal),
    /// A call found no result, or another job's.
    #[error("lost")]
    Lost,
}

impl From<CallError<AskFault, ()>> for AskFault {
    fn from(error: CallError<AskFault, ()>) -> AskFault {
        match error {
            CallError::Fault(fault) => fault,
            CallError::Refused(refusal, ()) => AskFault::Refused(refusal),
            CallError::Foreign | CallError::Missing => AskFault::Lost,
        }
    }
}

impl From<(Refusal, Ask)> for AskFault {
    fn from((refusal, _job): (Refusal, Ask)) -> AskFault {
        AskFault::Refused(refusal)
    }
}

impl JobKind for Ask {
    type Tag = Ask;

    type Output = u32;

    type Fault = AskFault;

    type Handler = NoHandler;

    ghost use Rattle.uses.specs.declared.closure.Ask.TheVariants.{Double, Doubles, Triple};

    ghost answers = { λ t r. IfOk r (λ v. v ≡ elim t [ Double n ↦ n + n | Triple n ↦ n + n + n | Doubles a b c ↦ (a + a) + (b + b) + (c + c) ]) };

    ghost tag_of = { λ j. j };

    fn tag(&self) -> Ask {
        *self
    }

    ghost same_answers = { λ t u e. Prim.search rules };
}

impl Job for Ask {
    fn run<R: Waits<Self>>(
        self,
        rt: &R,
        alloc: Global,
        w: &mut WorkerThread<Self>,
        _ctx: &mut FnContext<Self>,
    ) -> Result<u32, AskFault> {
        match self {
            Ask::Double(n) => n.checked_add(n).ok_or(AskFault::TooLarge),
            Ask::Triple(n) => triple(rt, alloc, w, n),
            Ask::Doubles(a, b, c) => {
                let (a, b, c) = doubles(rt, alloc, w, a, b, c)?;
                let sum = a.checked_add(b).ok_or(AskFault::TooLarge)?;
                sum.checked_add(c).ok_or(AskFault::TooLarge)
            }
        }
    }

    fn run_on<R: Waits<Self>>(
        &self,
        rt: &R,
        alloc: Global,
        w: &mut WorkerThread<Self>,
        _ctx: &mut BroadcastContext<Self>,
    ) -> Result<u32, AskFault> {
        Ok(
            w.install(rt, alloc, *self)
                .map_err(CallError::without_sides)?,
        )
    }
}

// A helper that takes the worker value says what a run has to: that the handle has as many levels, and that id, levels
// and units stay.
fn triple<R: Waits<Ask>>(
    rt: &R,
    alloc: Global,
    w: &mut WorkerThread<Ask>,
    n: u32,
) -> Result<u32, AskFault>
    requires levels { w.old.levels ≤ R.levels rt.now }
    ensures triple { IfOk result (λ v. v ≡ n + n + n) }
    ensures same { SameWorker w.old w.new }
{
    let (once, twice) = w
        .join(rt, alloc, |_w, _ctx| Ok(n), Ask::Double(n))
        .map_err(CallError::without_sides)?;
    once.checked_add(twice).ok_or(AskFault::TooLarge)
}
