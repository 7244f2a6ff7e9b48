//! The jobs of the tests, which call their pool by the free functions.
ghost use Rattle.rayon_core.specs.Worker.{SameWorker};
ghost use Rattle.std.specs.Prelude.{◌≡◌, ◌≤◌};

use crate::broadcasts::{cast_into, gather, piece};
use crate::scopes::{Endings, fill, open, open_by_job};
use rayon_core::latch::LockLatch;
use rayon_core::{
    BroadcastContext, CallError, FnContext, Job, JobKind, NoHandler, Refusal, Waits, WorkerThread,
};
use rayon_global::{
    current_num_threads, current_thread_index, install, join, join_context, spawn, spawn_broadcast,
    spawn_fifo,
};
use std::alloc::Global;
use std::sync::{Arc, Barrier};

/// A job.
#[derive(Drop)]
pub enum Deed {
    /// Answers twice this number, found by joins, contexts and installs below.
    Twice(u64),
    /// Answers the index of the worker that runs it.
    Where,
    /// Answers how many workers its pool has.
    Workers,
    /// Sets this latch.
    Set(Arc<LockLatch>),
    /// Spawns a job that sets this latch.
    SpawnSet(Arc<LockLatch>),
    /// Spawns it in order.
    SpawnFifoSet(Arc<LockLatch>),
    /// Ends so.
    End(Result<u64, Refusal>),
    /// Opens a scope that ends so, and answers its digits.
    Open(Endings),
    /// Spawns two jobs into the scope that it is of, and ends so.
    Fill(Endings),
    /// Has such a job for the body of a scope, and answers the scope's digits.
    OpenByJob(Endings),
    /// Broadcasts such a job and waits for it, and answers the digits of what its pieces answered: each the index of
    /// its worker and one, but the piece of this index faults, if there is one.
    Gather(Option<usize>),
    /// Broadcasts such a job and waits for nothing. Its pieces come to this gate.
    Cast(Arc<Barrier>),
    /// Opens a scope, broadcasts two jobs of the kind `Gather` into it, of which the second's piece of this index
    /// faults, if there is one, and answers the digits of the first one's pieces.
    CastInto(Option<usize>),
}

impl JobKind for Deed {
    type Tag = u64;

    type Output = u64;

    type Fault = Refusal;

    type Handler = NoHandler;

    ghost answers = { λ t r. Unit {0} };

    ghost tag_of = { λ j. 0 };

    fn tag(&self) -> u64 {
        0
    }

    ghost same_answers = { λ t u e. (λ r h. h, λ i n r h. h) };
}

impl Job for Deed {
    fn run<R: Waits<Self>>(
        self,
        rt: &R,
        alloc: Global,
        w: &mut WorkerThread<Self>,
        ctx: &mut FnContext<Self>,
    ) -> Result<u64, Refusal> {
        match self {
            Deed::Twice(n) => twice(rt, alloc, w, n),
            Deed::Where => match current_thread_index(w) {
                Some(index) => Ok(index as u64),
                None => Err(Refusal::Ended),
            },
            Deed::Workers => Ok(current_num_threads(w) as u64),
            Deed::Set(latch) => {
                latch.set(rt);
                Ok(0)
            }
            Deed::SpawnSet(latch) => spawned(spawn(rt, alloc, w, Deed::Set(latch))),
            Deed::SpawnFifoSet(latch) => spawned(spawn_fifo(rt, alloc, w, Deed::Set(latch))),
            Deed::End(end) => end,
            Deed::Open(ends) => open(rt, alloc, w, ends),
            Deed::Fill(ends) => fill(rt, alloc, w, ctx, ends),
            Deed::OpenByJob(ends) => open_by_job(rt, alloc, w, ends),
            Deed::Gather(fault) => gather(rt, alloc, w, fault),
            Deed::Cast(gate) => spawned(spawn_broadcast(rt, alloc, w, Deed::Cast(gate))),
            Deed::CastInto(fault) => cast_into(rt, alloc, w, fault),
        }
    }

    fn run_on<R: Waits<Self>>(
        &self,
        rt: &R,
        _alloc: Global,
        _w: &mut WorkerThread<Self>,
        ctx: &mut BroadcastContext<Self>,
    ) -> Result<u64, Refusal> {
        match self {
            Deed::Gather(fault) => piece(ctx.index(), *fault),
            Deed::Cast(gate) => {
                gate.wait(rt);
                Ok(0)
            }
            _ => Err(Refusal::Ended),
        }
    }
}

// What the run answers whose spawn gave this.
fn spawned(answer: Result<(), (Refusal, Deed)>) -> Result<u64, Refusal> {
    match answer {
        Ok(()) => Ok(0),
        Err((refusal, _)) => Err(refusal),
    }
}

// Twice a number: by a join, by one with contexts and by an install, in turn.
fn twice<R: Waits<Deed>>(
    rt: &R,
    alloc: Global,
    w: &mut WorkerThread<Deed>,
    n: u64,
) -> Result<u64, Refusal>
    requires { w.old.levels ≤ R.levels rt.now }
    ensures same { SameWorker w.old w.new }
{
    if n < 2 {
        return Ok(n + n);
    }
    let (half, rest) = (n / 2, n - n / 2);
    if n % 3 == 0 {
        let one = once(install(rt, alloc, w, Deed::Twice(n - 1)))?;
        return one.checked_add(2).ok_or(Refusal::Full);
    }
    let sides = if n % 3 == 1 {
        join(rt, alloc, w, Deed::Twice(half), Deed::Twice(rest))
    } else {
        join_context(rt, alloc, w, Deed::Twice(half), Deed::Twice(rest))
    };
    let (a, b) = once(sides)?;
    a.checked_add(b).ok_or(Refusal::Full)
}

/// What a call gave, without what it handed back.
pub fn once<O: Drop, B: Drop>(answer: Result<O, CallError<Refusal, B>>) -> Result<O, Refusal> {
    match answer {
        Ok(output) => Ok(output),
        Err(CallError::Fault(refusal) | CallError::Refused(refusal, _)) => Err(refusal),
        Err(CallError::Foreign | CallError::Missing) => Err(Refusal::Ended),
    }
}
