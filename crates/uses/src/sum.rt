//! A sum by forks. The tag is a range into shared numbers: two integers.
ghost use Rattle.std.specs.Prelude.{◌≡◌, ℕ, ◌+◌, IfOk, sum, take};
ghost use Rattle.std.proofs.Common.{rules};
ghost use Rattle.uses.specs.declared.sum.TheConstants.{DATA};

use rayon_core::{
    BroadcastContext, CallError, FnContext, Job, JobKind, NoHandler, Refusal, Waits, WorkerThread,
};
use std::alloc::Global;
use thiserror::Error;

static DATA: [u64; 12] = [3, 1, 4, 1, 5, 9, 2, 6, 5, 3, 5, 8];

/// The job of adding up the numbers from `start` up to `end`. It is its own tag.
#[derive(Clone, Copy, PartialEq, Eq)]
pub struct Sum {
    /// The place of the first number.
    pub start: usize,
    /// The place after the last one.
    pub end: usize,
}

/// Why there is no sum.
#[derive(Debug, Drop, Error)]
pub enum SumFault {
    /// The range is not one of the numbers.
    #[error("no such range")]
    OutOfRange,
    /// The sum is above 2^64 - 1.
    #[error("too large")]
    TooLarge,
    /// A call was refused.
    #[error("refused: {0}")]
    Refused(Refusal),
    /// A call found no result, or another job's.
    #[error("lost")]
    Lost,
}

impl From<CallError<SumFault, ()>> for SumFault {
    fn from(error: CallError<SumFault, ()>) -> SumFault {
        match error {
            CallError::Fault(fault) => fault,
            CallError::Refused(refusal, ()) => SumFault::Refused(refusal),
            CallError::Foreign | CallError::Missing => SumFault::Lost,
        }
    }
}

impl JobKind for Sum {
    type Tag = Sum;

    type Output = u64;

    type Fault = SumFault;

    type Handler = NoHandler;

    ghost answers = { λ t r. IfOk r (λ v. sum (take t.start DATA) + v ≡ sum (take t.end DATA)) };

    ghost tag_of = { λ j. j };

    fn tag(&self) -> Sum {
        *self
    }

    ghost same_answers = { λ t u e. Prim.search rules };
}

impl Job for Sum {
    fn run<R: Waits<Self>>(
        self,
        rt: &R,
        alloc: Global,
        w: &mut WorkerThread<Self>,
        _ctx: &mut FnContext<Self>,
    ) -> Result<u64, SumFault> {
        let Sum { start, end } = self;
        match DATA.get(start..end) {
            None => Err(SumFault::OutOfRange),
            Some([]) => Ok(0),
            Some([n]) => Ok(*n),
            Some(numbers) => {
                let middle = start + numbers.len() / 2;
                let (left, right) = (Sum { start, end: middle }, Sum { start: middle, end });
                let (a, b) = w
                    .join_jobs(rt, alloc, left, right)
                    .map_err(CallError::without_sides)?;
                a.checked_add(b).ok_or(SumFault::TooLarge)
            }
        }
    }

    fn run_on<R: Waits<Self>>(
        &self,
        rt: &R,
        alloc: Global,
        w: &mut WorkerThread<Self>,
        _ctx: &mut BroadcastContext<Self>,
    ) -> Result<u64, SumFault> {
        Ok(
            w.install(rt, alloc, *self)
                .map_err(CallError::without_sides)?,
        )
    }
}
