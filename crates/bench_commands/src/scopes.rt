//! The jobs of a scope, which are empty or answer numbers, those that open one, and scopes from outside.
ghost use Rattle.rayon_core.specs.Worker.{SameWorker};
ghost use Rattle.std.specs.Prelude.{◌≡◌, ◌≤◌, ℕ};

use rayon_core::{
    BroadcastContext, CallError, Done, FnContext, InPlaceCalls, Job, JobKind, NoHandler, PoolRef,
    Refusal, Scope, ScopeCalls, ScopeFifo, Waits, WorkerThread,
};
use std::alloc::Global;
use std::sync::Wait;
use thiserror::Error;

/// Why a scope gave no outputs.
#[derive(Debug, Drop, Error)]
pub enum ScopeFault {
    /// The scope or a spawn was refused.
    #[error("{0}")]
    Refused(Refusal),
    /// An output was missing, or another job's.
    #[error("Lost")]
    Lost,
}

impl From<(Refusal, Scoping)> for ScopeFault {
    fn from((refusal, _job): (Refusal, Scoping)) -> ScopeFault {
        ScopeFault::Refused(refusal)
    }
}

impl From<CallError<ScopeFault, ()>> for ScopeFault {
    fn from(error: CallError<ScopeFault, ()>) -> ScopeFault {
        match error {
            CallError::Fault(fault) => fault,
            CallError::Refused(refusal, ()) => ScopeFault::Refused(refusal),
            CallError::Foreign | CallError::Missing => ScopeFault::Lost,
        }
    }
}

/// What a job does with its number.
#[derive(Clone, Copy)]
pub enum Deed {
    /// Answers it.
    Answer,
    /// Opens a scope, spawns so many empty jobs into it, and answers how many outputs it gave.
    Count,
    /// The same, of a scope in order.
    CountInOrder,
    /// Opens a scope, spawns so many jobs into it that answer the numbers from 0 on, and answers the outputs' sum.
    Sum,
}

/// A job of a scope, or one that opens a scope.
#[derive(Clone, Copy)]
pub struct Scoping {
    deed: Deed,
    number: u64,
}

impl Scoping {
    /// A job that does this with this number.
    pub fn new(deed: Deed, number: u64) -> Scoping {
        Scoping { deed, number }
    }
}

impl JobKind for Scoping {
    type Tag = u64;

    type Output = u64;

    type Fault = ScopeFault;

    type Handler = NoHandler;

    ghost answers = { λ t r. Unit {0} };

    ghost tag_of = { λ j. j.number };

    ghost same_answers = { λ t u e. (λ r h. h, λ i n r h. h) };

    fn tag(&self) -> u64 {
        self.number
    }
}

impl Job for Scoping {
    fn run<R: Waits<Self>>(
        self,
        rt: &R,
        alloc: Global,
        w: &mut WorkerThread<Self>,
        _ctx: &mut FnContext<Self>,
    ) -> Result<u64, ScopeFault> {
        let Scoping { deed, number } = self;
        match deed {
            Deed::Answer => Ok(number),
            Deed::Count => run_scope(rt, alloc, w, number),
            Deed::CountInOrder => run_scope_fifo(rt, alloc, w, number),
            Deed::Sum => run_scope_outputs(rt, alloc, w, number),
        }
    }

    fn run_on<R: Waits<Self>>(
        &self,
        _rt: &R,
        _alloc: Global,
        _w: &mut WorkerThread<Self>,
        _ctx: &mut BroadcastContext<Self>,
    ) -> Result<u64, ScopeFault> {
        Ok(0)
    }
}

// Opens a scope, spawns so many empty jobs into it, and answers how many outputs it gave.
fn run_scope<R: Waits<Scoping>>(
    rt: &R,
    alloc: Global,
    w: &mut WorkerThread<Scoping>,
    count: u64,
) -> Result<u64, ScopeFault>
    requires levels { w.old.levels ≤ R.levels rt.now }
    ensures same { SameWorker w.old w.new }
{
    let ended = w.scope(rt, alloc, |w, scope| spawn_into(rt, w, scope, count));
    Ok(ended.map_err(CallError::without_sides)?.outputs.len() as u64)
}

// The same, of a scope in order.
fn run_scope_fifo<R: Waits<Scoping>>(
    rt: &R,
    alloc: Global,
    w: &mut WorkerThread<Scoping>,
    count: u64,
) -> Result<u64, ScopeFault>
    requires levels { w.old.levels ≤ R.levels rt.now }
    ensures same { SameWorker w.old w.new }
{
    let ended = w.scope_fifo(rt, alloc, |w, scope| spawn_in_order(rt, w, scope, count));
    Ok(ended.map_err(CallError::without_sides)?.outputs.len() as u64)
}

// Opens a scope, spawns so many jobs into it that answer the numbers from 0 on, and answers the outputs' sum.
fn run_scope_outputs<R: Waits<Scoping>>(
    rt: &R,
    alloc: Global,
    w: &mut WorkerThread<Scoping>,
    count: u64,
) -> Result<u64, ScopeFault>
    requires levels { w.old.levels ≤ R.levels rt.now }
    ensures same { SameWorker w.old w.new }
{
    let ended = w.scope(rt, alloc, |w, scope| spawn_numbers(rt, w, scope, count));
    let ended = ended.map_err(CallError::without_sides)?;
    sum_of(&ended.outputs)
}

/// Opens a scope on the pool from outside, spawns so many empty jobs into it, and answers how many outputs it gave.
pub fn count_in_place<R: Wait>(
    rt: &R,
    alloc: Global,
    pool: &PoolRef<Scoping>,
    count: u64,
) -> Result<u64, ScopeFault> {
    let ended = pool.in_place_scope(
        rt,
        alloc,
        |scope| inject_into(rt, alloc, pool, scope, count),
    );
    Ok(ended.map_err(CallError::without_sides)?.outputs.len() as u64)
}

// Spawns so many empty jobs into a scope.
fn spawn_into<R: Wait>(
    rt: &R,
    w: &mut WorkerThread<Scoping>,
    scope: &mut Scope<Scoping>,
    count: u64,
) -> Result<(), ScopeFault>
    ensures same { SameWorker w.old w.new }
{
    for _ in 0..count {
        scope.spawn(rt, w, Scoping::new(Deed::Answer, 0))?;
    }
    Ok(())
}

// The same, into a scope in order.
fn spawn_in_order<R: Wait>(
    rt: &R,
    w: &mut WorkerThread<Scoping>,
    scope: &mut ScopeFifo<Scoping>,
    count: u64,
) -> Result<(), ScopeFault>
    ensures same { SameWorker w.old w.new }
{
    for _ in 0..count {
        scope.spawn_fifo(rt, w, Scoping::new(Deed::Answer, 0))?;
    }
    Ok(())
}

// Spawns so many jobs into a scope that answer the numbers from 0 on.
fn spawn_numbers<R: Wait>(
    rt: &R,
    w: &mut WorkerThread<Scoping>,
    scope: &mut Scope<Scoping>,
    count: u64,
) -> Result<(), ScopeFault>
    ensures same { SameWorker w.old w.new }
{
    for number in 0..count {
        scope.spawn(rt, w, Scoping::new(Deed::Answer, number))?;
    }
    Ok(())
}

// Spawns so many empty jobs into a scope, from outside its pool.
fn inject_into<R: Wait>(
    rt: &R,
    alloc: Global,
    pool: &PoolRef<Scoping>,
    scope: &mut Scope<Scoping>,
    count: u64,
) -> Result<(), ScopeFault> {
    for _ in 0..count {
        scope.inject(rt, alloc, pool, Scoping::new(Deed::Answer, 0))?;
    }
    Ok(())
}

// The sum of these outputs.
fn sum_of(outputs: &[Done<Scoping>]) -> Result<u64, ScopeFault> {
    let mut sum: u64 = 0;
    for done in outputs {
        let number = done.output().ok_or(ScopeFault::Lost)?;
        sum = sum.saturating_add(*number);
    }
    Ok(sum)
}
