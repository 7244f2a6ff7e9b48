//! The job of Fibonacci numbers whose small ones are found by plain recursion.
ghost use Rattle.fibonacci.specs.Fib.{fib, AnswersFib};
ghost use Rattle.std.proofs.Common.{rules};
ghost use Rattle.std.specs.Prelude.{◌≡◌, ◌≤◌, ℕ};

use fibonacci::{FibFault, sequential};
use rayon_core::{BroadcastContext, FnContext, Job, JobKind, NoHandler, Waits, WorkerThread};
use std::alloc::Global;

/// The largest index that is found by plain recursion, which takes some 10 microseconds.
const LARGEST_LEAF: u8 = 18;

/// The job of finding the Fibonacci number with this index, by a join of the two before it, and by plain recursion
/// where the index is small.
#[derive(Drop)]
pub struct Leaves(pub u8);

impl JobKind for Leaves {
    type Tag = u8;

    type Output = u64;

    type Fault = FibFault;

    type Handler = NoHandler;

    ghost answers = { AnswersFib };

    ghost tag_of = { λ j. j.0 };

    ghost same_answers = { λ t u e. Prim.search rules };

    fn tag(&self) -> u8 {
        self.0
    }
}

impl Job for Leaves {
    #[tactic(auto, using(fibonacci::proofs::Fibs::fib_small, fibonacci::proofs::Fibs::fib_sum))]
    fn run<R: Waits<Self>>(
        self,
        rt: &R,
        alloc: Global,
        w: &mut WorkerThread<Self>,
        _ctx: &mut FnContext<Self>,
    ) -> Result<u64, FibFault> {
        let n = self.0;
        if n <= LARGEST_LEAF {
            return sequential(n).ok_or(FibFault::TooLarge);
        }
        match w.join_jobs(rt, alloc, Leaves(n - 1), Leaves(n - 2)) {
            Ok((x, y)) => x.checked_add(y).ok_or(FibFault::TooLarge),
            Err(error) => Err(FibFault::from(error.without_sides())),
        }
    }

    fn run_on<R: Waits<Self>>(
        &self,
        _rt: &R,
        _alloc: Global,
        _w: &mut WorkerThread<Self>,
        _ctx: &mut BroadcastContext<Self>,
    ) -> Result<u64, FibFault> {
        sequential(self.0).ok_or(FibFault::TooLarge)
    }
}
