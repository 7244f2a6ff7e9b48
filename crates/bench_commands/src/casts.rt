//! The job of broadcasts that wait, by a worker, and what the pieces of one have answered together.
ghost use Rattle.bench_commands.specs.Casts.{AnswersCasting};
ghost use Rattle.fibonacci.specs.Fib.{fib, AnswersFib};
ghost use Rattle.rayon_core.specs.Worker.{SameWorker};
ghost use Rattle.std.proofs.Common.{rules};
ghost use Rattle.std.specs.Prelude.{◌≡◌, ◌≤◌, ◌*◌, ◌^◌, ℕ, IfOk, IfSome, IfNone, sum};

use fibonacci::{FibFault, sequential};
use rayon_core::{BroadcastContext, FnContext, Job, JobKind, NoHandler, Waits, WorkerThread};
use std::alloc::Global;

/// A job that broadcasts the finding of the Fibonacci number with this index so often, one after the other, and answers
/// the sum of all numbers that were found. A piece finds the number by plain recursion. A job is its own tag.
#[derive(Clone, Copy, PartialEq, Eq)]
pub struct Casting {
    calls: u32,
    n: u8,
}

impl Casting {
    /// A job that makes so many broadcasts of this number.
    pub fn new(calls: u32, n: u8) -> Casting
        ensures { result ≡ record { calls = calls; n = n } }
    {
        Casting { calls, n }
    }
}

impl JobKind for Casting {
    type Tag = Casting;

    type Output = u64;

    type Fault = FibFault;

    type Handler = NoHandler;

    ghost answers = { AnswersCasting };

    ghost answers_on = { λ plain t i n r. AnswersFib t.n r };

    ghost tag_of = { λ j. j };

    ghost same_answers = { λ t u e. Prim.search rules };

    fn tag(&self) -> Casting {
        *self
    }
}

impl Job for Casting {
    #[tactic(auto, using(crate::proofs::Sums::casting_answers))]
    fn run<R: Waits<Self>>(
        self,
        rt: &R,
        alloc: Global,
        w: &mut WorkerThread<Self>,
        _ctx: &mut FnContext<Self>,
    ) -> Result<u64, FibFault> {
        cast_all(rt, alloc, w, self)
    }

    fn run_on<R: Waits<Self>>(
        &self,
        _rt: &R,
        _alloc: Global,
        _w: &mut WorkerThread<Self>,
        _ctx: &mut BroadcastContext<Self>,
    ) -> Result<u64, FibFault> {
        sequential(self.n).ok_or(FibFault::TooLarge)
    }
}

// Makes all broadcasts of a job, one after the other, and adds up what was found.
fn cast_all<R: Waits<Casting>>(
    rt: &R,
    alloc: Global,
    w: &mut WorkerThread<Casting>,
    job: Casting,
) -> Result<u64, FibFault>
    requires levels { w.old.levels ≤ R.levels rt.now }
    ensures found { IfOk result (λ v. v ≡ job.calls * (w.old.shape.workers * fib job.n)) }
    ensures same { SameWorker w.old w.new }
{
    let mut sum: u64 = 0;
    for _ in 0..job.calls {
        let found = cast_once(rt, alloc, w, job.n)?;
        sum = sum.checked_add(found).ok_or(FibFault::TooLarge)?;
    }
    Ok(sum)
}

// Broadcasts the finding of F(n) once, and adds up what the workers found.
#[tactic(auto, using(crate::proofs::Sums::sum_same))]
fn cast_once<R: Waits<Casting>>(
    rt: &R,
    alloc: Global,
    w: &mut WorkerThread<Casting>,
    n: u8,
) -> Result<u64, FibFault>
    requires levels { w.old.levels ≤ R.levels rt.now }
    ensures found { IfOk result (λ v. v ≡ w.old.shape.workers * fib n) }
    ensures same { SameWorker w.old w.new }
{
    match w.broadcast(rt, alloc, Casting::new(0, n)) {
        Ok(answers) => sum_of(&answers).ok_or(FibFault::TooLarge),
        Err(error) => Err(FibFault::from(error.without_sides())),
    }
}

/// The sum of what the pieces of a broadcast have answered. None where it is above 2^64 - 1.
pub fn sum_of(answers: &[u64]) -> Option<u64>
    ensures some { IfSome result (λ v. v ≡ sum answers.now) }
    ensures none { IfNone result (2 ^ 64 ≤ sum answers.now) }
{
    let mut total: u64 = 0;
    for answer in answers {
        total = total.checked_add(*answer)?;
    }
    Some(total)
}
