//! Adds up numbers on a pool: a job for more than one number forks into its two halves by a join.
#![tactic(auto)]

ghost use Rattle.slice_sum.specs.declared.TheConstants.{NUMBERS};
ghost use Rattle.std.proofs.Common.{rules};
ghost use Rattle.std.specs.Prelude.{◌≡◌, ℕ, ◌+◌, IfOk, sum, take};

use rayon_core::{
    BroadcastContext, CallError, EndAfter, FnContext, Ids, Job, JobKind, NoHandler, Refusal, Waits,
    WorkerThread,
};
use rayon_global::builder_of_environment;
use std::alloc::Global;

static NUMBERS: [u64; 12] = [3, 1, 4, 1, 5, 9, 2, 6, 5, 3, 5, 8];

/// Adds up the numbers from one place up to another. A job is its own tag, quick to compare.
#[derive(Clone, Copy, Debug, PartialEq, Eq)]
struct Total(usize, usize);

/// Why there is no total.
#[derive(Debug, Drop)]
enum TotalFault {
    NoSuchPart,
    TooLarge,
    Refused(Refusal),
    Lost,
}

impl JobKind for Total {
    type Tag = Total;

    type Output = u64;

    type Fault = TotalFault;

    type Handler = NoHandler;

    ghost answers = { λ t r. IfOk r (λ v. sum (take t.0 NUMBERS) + v ≡ sum (take t.1 NUMBERS)) };

    ghost tag_of = { λ j. j };

    ghost same_answers = { λ t u e. Prim.search rules };

    fn tag(&self) -> Total {
        *self
    }
}

impl Job for Total {
    fn run<R: Waits<Self>>(
        self,
        rt: &R,
        alloc: Global,
        w: &mut WorkerThread<Self>,
        _ctx: &mut FnContext<Self>,
    ) -> Result<u64, TotalFault> {
        let Total(start, end) = self;
        match NUMBERS.get(start..end) {
            None => Err(TotalFault::NoSuchPart),
            Some([]) => Ok(0),
            Some([n]) => Ok(*n),
            Some(numbers) => {
                let middle = start + numbers.len() / 2;
                match w.join_jobs(rt, alloc, Total(start, middle), Total(middle, end)) {
                    Ok((a, b)) => a.checked_add(b).ok_or(TotalFault::TooLarge),
                    Err(CallError::Fault(fault)) => Err(fault),
                    Err(CallError::Refused(refusal, _)) => Err(TotalFault::Refused(refusal)),
                    Err(CallError::Foreign | CallError::Missing) => Err(TotalFault::Lost),
                }
            }
        }
    }

    fn run_on<R: Waits<Self>>(
        &self,
        _rt: &R,
        _alloc: Global,
        _w: &mut WorkerThread<Self>,
        _ctx: &mut BroadcastContext<Self>,
    ) -> Result<u64, TotalFault> {
        Err(TotalFault::NoSuchPart)
    }
}

fn main(rt: HostRuntime) -> anyhow::Result<()> {
    let builder = builder_of_environment(&rt, rt.alloc())?;
    let pool = builder.build(&rt, rt.alloc(), &Ids::new())?;
    match pool.end_after(&rt, |pool| pool.install(&rt, rt.alloc(), Total(0, 12))) {
        Ok(total) => Ok(println!(rt; "{total}")?),
        Err(error) => Ok(println!(rt; "no total: {error:?}")?),
    }
}
