//! The calls that the program makes, and what they give.
use crate::in_place::{in_place_broadcast, in_place_scope, pool_scope};
use crate::on_worker::WorkerCall;
use crate::outcome::{NoPool, Outcome, Report};
use crate::work::{Answer, Deed, Desk, Name, Work, gathered, joined, spawned};
use rayon_core::{CallError, Ids, Refusal, ThreadPool, ThreadPoolBuilder};
use std::alloc::Global;
use std::str;
use std::sync::{Arc, Wait};
use std::thread::Threads;

/// What is called.
#[derive(Clone, Copy)]
pub enum Call {
    /// `ThreadPoolBuilder::build`.
    Build,
    /// A call on a pool.
    OnPool(PoolCall),
}

/// A call on a pool.
#[derive(Clone, Copy)]
pub enum PoolCall {
    /// `ThreadPool::install`.
    Install,
    /// `ThreadPool::join`.
    Join,
    /// `ThreadPool::spawn`.
    Spawn,
    /// `PoolRef::spawn_broadcast`.
    Broadcast,
    /// `PoolRef::broadcast`, which waits.
    Gather,
    /// `PoolRef::scope`, with a job as its body.
    Scope,
    /// `InPlaceCalls::in_place_scope`, with two spawns.
    InPlaceScope,
    /// The same, with two broadcasts.
    InPlaceBroadcast,
    /// A call on a worker of the pool.
    OnWorker(WorkerCall),
}

impl Call {
    /// The call that the input names, and the number after it. None where it is something else.
    pub fn parse(input: &[u8]) -> Option<(Call, u32)> {
        let (name, count) = str::from_utf8(input).ok()?.trim().split_once(' ')?;
        let call = match name {
            "build" => Call::Build,
            "install" => Call::OnPool(PoolCall::Install),
            "pool_join" => Call::OnPool(PoolCall::Join),
            "pool_spawn" => Call::OnPool(PoolCall::Spawn),
            "pool_broadcast" => Call::OnPool(PoolCall::Broadcast),
            "pool_gather" => Call::OnPool(PoolCall::Gather),
            "pool_scope" => Call::OnPool(PoolCall::Scope),
            "in_place_scope" => Call::OnPool(PoolCall::InPlaceScope),
            "in_place_broadcast" => Call::OnPool(PoolCall::InPlaceBroadcast),
            "spawn" => Call::OnPool(PoolCall::OnWorker(WorkerCall::Spawn)),
            "spawn_fifo" => Call::OnPool(PoolCall::OnWorker(WorkerCall::SpawnFifo)),
            "broadcast" => Call::OnPool(PoolCall::OnWorker(WorkerCall::Broadcast)),
            "gather" => Call::OnPool(PoolCall::OnWorker(WorkerCall::Gather)),
            "scope" => Call::OnPool(PoolCall::OnWorker(WorkerCall::Scope)),
            "scope_fifo" => Call::OnPool(PoolCall::OnWorker(WorkerCall::ScopeFifo)),
            "scope_broadcast" => Call::OnPool(PoolCall::OnWorker(WorkerCall::ScopeBroadcast)),
            "join" => Call::OnPool(PoolCall::OnWorker(WorkerCall::Join)),
            "worker_install" => Call::OnPool(PoolCall::OnWorker(WorkerCall::Install)),
            "wait_until" => Call::OnPool(PoolCall::OnWorker(WorkerCall::WaitUntil)),
            "owner" => Call::OnPool(PoolCall::OnWorker(WorkerCall::Owner)),
            "push" => Call::OnPool(PoolCall::OnWorker(WorkerCall::Push)),
            "push_fifo" => Call::OnPool(PoolCall::OnWorker(WorkerCall::PushFifo)),
            "deep" => Call::OnPool(PoolCall::OnWorker(WorkerCall::Deep)),
            _ => return None,
        };
        Some((call, count.parse().ok()?))
    }
}

impl PoolCall {
    // How many workers the pool has: one where the call is of a task in the own deque that none may steal, three where
    // each runs a piece, else two.
    fn workers(self) -> usize {
        match self {
            PoolCall::OnWorker(
                WorkerCall::Push
                | WorkerCall::PushFifo
                | WorkerCall::Scope
                | WorkerCall::ScopeFifo
                | WorkerCall::Deep,
            ) => 1,
            PoolCall::Broadcast | PoolCall::Gather | PoolCall::InPlaceBroadcast => 3,
            PoolCall::OnWorker(
                WorkerCall::Broadcast | WorkerCall::Gather | WorkerCall::ScopeBroadcast,
            ) => 3,
            _ => 2,
        }
    }

    // Whether the job, or its pieces, run after the call: the number of runs is told once the pool has ended.
    fn spawns(self) -> bool {
        match self {
            PoolCall::Spawn | PoolCall::Broadcast => true,
            PoolCall::OnWorker(WorkerCall::Spawn | WorkerCall::SpawnFifo | WorkerCall::Broadcast) =>
                true,
            _ => false,
        }
    }
}

// Makes a pool, and ends it.
fn build<R: Threads + Wait + Copy + Send + 'static>(rt: &R, alloc: Global) -> Outcome {
    let builder = ThreadPoolBuilder::<Work>::new().num_threads(2);
    match builder.build(rt, alloc, &Ids::new()) {
        Ok(pool) => {
            pool.end_and_join(rt);
            Outcome::Made
        }
        Err(error) => Outcome::NotMade(NoPool::of(error)),
    }
}

// Installs a job that answers a number.
fn install<R: Wait>(
    rt: &R,
    alloc: Global,
    pool: &ThreadPool<Work>,
    desk: &Arc<Desk>,
) -> Result<Outcome, Refusal> {
    let job = Work::new(Name::Installed, desk, Deed::Number(7))?;
    Ok(match pool.install(rt, alloc, job) {
        Ok(Answer::Number(number)) => Outcome::Answered(number),
        Err(CallError::Refused(refusal, job)) => Outcome::Refused {
            refusal,
            same_jobs: job.is(Name::Installed, Deed::Number(7)),
            runs: desk.runs(),
        },
        _ => Outcome::Unlike,
    })
}

// Joins two sides from outside.
fn join<R: Wait>(
    rt: &R,
    alloc: Global,
    pool: &ThreadPool<Work>,
    desk: &Arc<Desk>,
) -> Result<Outcome, Refusal> {
    let (one, two) = (Deed::Number(20), Deed::Number(3));
    let first = Work::new(Name::First, desk, one)?;
    let second = Work::new(Name::Second, desk, two)?;
    Ok(joined(pool.join(rt, alloc, first, second), desk, one, two))
}

// Spawns a job from outside that counts its run.
fn spawn<R: Wait>(
    rt: &R,
    alloc: Global,
    pool: &ThreadPool<Work>,
    desk: &Arc<Desk>,
) -> Result<Outcome, Refusal> {
    let job = Work::new(Name::Installed, desk, Deed::Number(7))?;
    Ok(spawned(pool.spawn(rt, alloc, job), desk, Name::Installed))
}

// Broadcasts a job from outside whose pieces count their runs.
fn broadcast<R: Wait>(
    rt: &R,
    alloc: Global,
    pool: &ThreadPool<Work>,
    desk: &Arc<Desk>,
) -> Result<Outcome, Refusal> {
    let job = Work::new(Name::Installed, desk, Deed::Number(7))?;
    let answer = pool.spawn_broadcast(rt, alloc, job);
    Ok(spawned(answer, desk, Name::Installed))
}

// Broadcasts a job from outside whose pieces count their runs, and waits for them.
fn gather<R: Wait>(
    rt: &R,
    alloc: Global,
    pool: &ThreadPool<Work>,
    desk: &Arc<Desk>,
) -> Result<Outcome, Refusal> {
    let job = Work::new(Name::Installed, desk, Deed::Number(7))?;
    let answer = pool.broadcast(rt, alloc, job);
    Ok(gathered(answer, desk, Name::Installed))
}

// Makes a call and, where it is refused, the same again.
fn twice<F: Fn() -> Result<Outcome, Refusal>>(call: F) -> Result<Report, Refusal>
    requires { F.IsAlwaysCallable call }
{
    let first = call()?;
    let again = match first {
        Outcome::NotMade(_) | Outcome::Refused { .. } => Some(call()?),
        _ => None,
    };
    Ok(Report { first, again })
}

// Installs a job that makes the call on its worker and, where it is refused, the same again.
fn install_caller<R: Wait>(
    rt: &R,
    alloc: Global,
    pool: &ThreadPool<Work>,
    desk: &Arc<Desk>,
    call: WorkerCall,
) -> Result<Report, Refusal> {
    let job = Work::new(Name::Installed, desk, Deed::Call(call))?;
    match pool.install(rt, alloc, job) {
        Ok(Answer::Reported) => Ok(desk.take(rt)),
        Err(CallError::Refused(refusal, _)) => Err(refusal),
        _ => Ok(Report::of(Outcome::Unlike)),
    }
}

/// Makes the call and, where it is refused, the same again. Refused where something before the call is refused.
pub fn make<R: Threads + Wait + Copy + Send + 'static>(
    rt: &R,
    alloc: Global,
    call: Call,
) -> Result<Report, Refusal> {
    match call {
        Call::Build => twice(|| Ok(build(rt, alloc))),
        Call::OnPool(call) => make_on_pool(rt, alloc, call),
    }
}

// The same for a call on a pool, which is made before it and ended after it.
fn make_on_pool<R: Threads + Wait + Copy + Send + 'static>(
    rt: &R,
    alloc: Global,
    call: PoolCall,
) -> Result<Report, Refusal> {
    let desk = Arc::new(alloc, Desk::new()).map_err(|_| Refusal::NoRoom)?;
    let builder = ThreadPoolBuilder::<Work>::new().num_threads(call.workers());
    let Ok(pool) = builder.build(rt, alloc, &Ids::new()) else {
        return Err(Refusal::NoRoom);
    };
    let report = match call {
        PoolCall::Install => twice(|| install(rt, alloc, &pool, &desk)),
        PoolCall::Join => twice(|| join(rt, alloc, &pool, &desk)),
        PoolCall::Spawn => twice(|| spawn(rt, alloc, &pool, &desk)),
        PoolCall::Broadcast => twice(|| broadcast(rt, alloc, &pool, &desk)),
        PoolCall::Gather => twice(|| gather(rt, alloc, &pool, &desk)),
        PoolCall::Scope => twice(|| pool_scope(rt, alloc, &pool, &desk)),
        PoolCall::InPlaceScope => twice(|| Ok(in_place_scope(rt, alloc, &pool, &desk))),
        PoolCall::InPlaceBroadcast => twice(|| Ok(in_place_broadcast(rt, alloc, &pool, &desk))),
        PoolCall::OnWorker(call) => install_caller(rt, alloc, &pool, &desk, call),
    };
    pool.end_and_join(rt);
    if call.spawns() {
        return Ok(report?.and(desk.runs()));
    }
    report
}
