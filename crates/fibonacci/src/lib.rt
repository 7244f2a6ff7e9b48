//! Fibonacci numbers, by joins on a pool and by plain recursion: the job of the programs `rcore` and `join_bench`.
#![tactic(auto)]

ghost use Rattle.fibonacci.specs.Fib.{fib, AnswersFib};
ghost use Rattle.std.proofs.Common.{rules};
ghost use Rattle.std.specs.Prelude.{◌≡◌, ◌≤◌, ◌^◌, ℕ, IfSome, IfNone};

use rayon_core::{
    BroadcastContext, CallError, FnContext, Job, JobKind, NoHandler, Refusal, Waits, WorkerThread,
};
use std::alloc::Global;
use thiserror::Error;

/// The job of finding the Fibonacci number with this index, by a join of the two before it with no cut-off. On each
/// worker of a broadcast the same number is found, by plain recursion.
#[derive(Drop)]
pub struct Fib(pub u8);

/// Why there is no number.
#[derive(Debug, Drop, Error)]
pub enum FibFault {
    /// The number is above 2^64 - 1.
    #[error("TooLarge")]
    TooLarge,
    /// A call was refused.
    #[error("{0}")]
    Refused(Refusal),
    /// A call found the result of another job.
    #[error("Foreign")]
    Foreign,
    /// A call found no result.
    #[error("Missing")]
    Missing,
}

impl From<CallError<FibFault, ()>> for FibFault {
    ghost use Rattle.fibonacci.specs.Fib.{fault_of};

    ghost from_gives = { λ error fault. fault ≡ fault_of error };

    fn from(error: CallError<FibFault, ()>) -> FibFault {
        match error {
            CallError::Fault(fault) => fault,
            CallError::Refused(refusal, ()) => FibFault::Refused(refusal),
            CallError::Foreign => FibFault::Foreign,
            CallError::Missing => FibFault::Missing,
        }
    }
}

impl JobKind for Fib {
    type Tag = u8;

    type Output = u64;

    type Fault = FibFault;

    type Handler = NoHandler;

    ghost answers = { AnswersFib };

    ghost tag_of = { λ j. j.0 };

    ghost same_answers = { λ t u e. Prim.search rules };

    fn tag(&self) -> u8 {
        self.0
    }
}

impl Job for Fib {
    #[tactic(auto, using(crate::proofs::Fibs::fib_small, crate::proofs::Fibs::fib_sum))]
    fn run<R: Waits<Self>>(
        self,
        rt: &R,
        alloc: Global,
        w: &mut WorkerThread<Self>,
        _ctx: &mut FnContext<Self>,
    ) -> Result<u64, FibFault> {
        let n = self.0;
        if n < 2 {
            return Ok(u64::from(n));
        }
        match w.join_jobs(rt, alloc, Fib(n - 1), Fib(n - 2)) {
            Ok((x, y)) => x.checked_add(y).ok_or(FibFault::TooLarge),
            Err(error) => Err(FibFault::from(error.without_sides())),
        }
    }

    fn run_on<R: Waits<Self>>(
        &self,
        _rt: &R,
        _alloc: Global,
        _w: &mut WorkerThread<Self>,
        _ctx: &mut BroadcastContext<Self>,
    ) -> Result<u64, FibFault> {
        sequential(self.0).ok_or(FibFault::TooLarge)
    }
}

/// The Fibonacci number with this index, by plain recursion. None where it is above 2^64 - 1.
#[tactic(auto, using(crate::proofs::Fibs::fib_small, crate::proofs::Fibs::fib_sum, crate::proofs::Fibs::fault_left, crate::proofs::Fibs::fault_right))]
pub fn sequential(n: u8) -> Option<u64>
    ensures number { IfSome result (λ v. v ≡ fib n) }
    ensures too_large { IfNone result (2 ^ 64 ≤ fib n) }
{
    if n < 2 {
        return Some(u64::from(n));
    }
    let x = sequential(n - 1)?;
    let y = sequential(n - 2)?;
    x.checked_add(y)
}
