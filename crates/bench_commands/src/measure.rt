//! The commands: what is timed, and what is printed.
ghost use Rattle.std.specs.Prelude.{◌≡◌, ℕ, ◌+◌, ◌*◌, IfOk};
ghost use Rattle.fibonacci.specs.Fib.{fib};

use crate::casts::{Casting, sum_of};
use crate::command::{Command, Timed};
use crate::leaves::Leaves;
use crate::scopes::{Deed, Scoping, count_in_place};
use crate::spawns::{Manner, Spawning};
use anyhow::{Context, Result};
use fibonacci::{Fib, sequential};
use rayon_core::{CallError, Ids, ThreadPool, ThreadPoolBuilder};
use std::alloc::Global;
use std::rt::Runtime;
use std::sync::atomic::{AtomicU64, Ordering};
use std::sync::{Arc, Wait};
use std::thread;
use std::thread::Threads;
use std::time::{Duration, Instant};

// How many times F(n) is found.
const RUNS: u32 = 3;

// How many calls are made from outside, or broadcasts by one job, one after the other.
const CALLS: u32 = 20_000;

// How many jobs are spawned by one, or into one scope.
const SPAWNS: u64 = 100_000;

// How many seconds a pool is idle.
const SECONDS: u64 = 2;

// How often sleeping workers are called.
const WAKES: u32 = 500;

// How many milliseconds the workers have to fall asleep.
const REST: u64 = 4;

/// Does what the command asks for, and prints what it says: for each timed run the nanoseconds that it took and what it
/// answered.
pub fn run<R: Runtime + Threads + Wait + Copy + Send + 'static>(
    rt: &R,
    alloc: Global,
    command: Command,
) -> Result<()> {
    match command {
        Command::Values => run_on_pool(rt, alloc, 1, None),
        Command::Time { what, workers, n } => run_timed(rt, alloc, what, workers, n),
    }
}

// Times this, on a pool of so many workers that is made for it.
fn run_timed<R: Runtime + Threads + Wait + Copy + Send + 'static>(
    rt: &R,
    alloc: Global,
    what: Timed,
    workers: usize,
    n: u8,
) -> Result<()> {
    match what {
        Timed::Sequential => time_sequential(rt, n),
        Timed::Leaves => run_leaves(rt, alloc, workers, n),
        Timed::Spawn => run_spawns(rt, alloc, workers, Manner::Plain),
        Timed::SpawnFifo => run_spawns(rt, alloc, workers, Manner::InOrder),
        Timed::SpawnBroadcast => run_spawns(rt, alloc, workers, Manner::Everywhere),
        Timed::WorkerBroadcast => run_casts(rt, alloc, workers, n),
        Timed::Scope => run_scopes(rt, alloc, workers, Some(Deed::Count)),
        Timed::ScopeFifo => run_scopes(rt, alloc, workers, Some(Deed::CountInOrder)),
        Timed::ScopeOutputs => run_scopes(rt, alloc, workers, Some(Deed::Sum)),
        Timed::InPlaceScope => run_scopes(rt, alloc, workers, None),
        Timed::Join
        | Timed::Install
        | Timed::PoolJoin
        | Timed::Broadcast
        | Timed::Wake
        | Timed::Idle => run_on_pool(rt, alloc, workers, Some((what, n))),
    }
}

// Makes a pool of so many workers, times this on it or prints values, and ends it.
fn run_on_pool<R: Runtime + Threads + Wait + Copy + Send + 'static>(
    rt: &R,
    alloc: Global,
    workers: usize,
    timed: Option<(Timed, u8)>,
) -> Result<()> {
    let ids = Ids::new();
    let builder = ThreadPoolBuilder::<Fib>::new().num_threads(workers);
    let pool = builder.build(rt, alloc, &ids)?;
    let outcome = match timed {
        None => print_values(rt, alloc, &pool),
        Some((what, n)) => time(rt, alloc, &pool, what, n),
    };
    pool.end_and_join(rt);
    outcome
}

// The same of jobs with leaves.
fn run_leaves<R: Runtime + Threads + Wait + Copy + Send + 'static>(
    rt: &R,
    alloc: Global,
    workers: usize,
    n: u8,
) -> Result<()> {
    let ids = Ids::new();
    let builder = ThreadPoolBuilder::<Leaves>::new().num_threads(workers);
    let pool = builder.build(rt, alloc, &ids)?;
    let outcome = time_runs(rt, || with_leaves(rt, alloc, &pool, n));
    pool.end_and_join(rt);
    outcome
}

// The same of jobs that are spawned in this manner.
fn run_spawns<R: Runtime + Threads + Wait + Copy + Send + 'static>(
    rt: &R,
    alloc: Global,
    workers: usize,
    manner: Manner,
) -> Result<()> {
    let ids = Ids::new();
    let builder = ThreadPoolBuilder::<Spawning>::new().num_threads(workers);
    let pool = builder.build(rt, alloc, &ids)?;
    let outcome = time_spawns(rt, alloc, &pool, manner);
    pool.end_and_join(rt);
    outcome
}

// The same of a job that broadcasts.
fn run_casts<R: Runtime + Threads + Wait + Copy + Send + 'static>(
    rt: &R,
    alloc: Global,
    workers: usize,
    n: u8,
) -> Result<()> {
    let ids = Ids::new();
    let builder = ThreadPoolBuilder::<Casting>::new().num_threads(workers);
    let pool = builder.build(rt, alloc, &ids)?;
    let outcome = time_runs(rt, || with_casts(rt, alloc, &pool, n));
    pool.end_and_join(rt);
    outcome
}

// The same of a job that does this, or of scopes from outside.
fn run_scopes<R: Runtime + Threads + Wait + Copy + Send + 'static>(
    rt: &R,
    alloc: Global,
    workers: usize,
    deed: Option<Deed>,
) -> Result<()> {
    let ids = Ids::new();
    let builder = ThreadPoolBuilder::<Scoping>::new().num_threads(workers);
    let pool = builder.build(rt, alloc, &ids)?;
    let outcome = match deed {
        None => time_runs(rt, || Ok(count_in_place(rt, alloc, &pool, SPAWNS)?)),
        Some(deed) => time_runs(rt, || with_scope(rt, alloc, &pool, deed)),
    };
    pool.end_and_join(rt);
    outcome
}

// Times this on the pool.
fn time<R: Runtime + Wait>(
    rt: &R,
    alloc: Global,
    pool: &ThreadPool<Fib>,
    what: Timed,
    n: u8,
) -> Result<()> {
    match what {
        Timed::Join => time_runs(rt, || installed(rt, alloc, pool, n)),
        Timed::Install => time_calls(rt, || installed(rt, alloc, pool, n)),
        Timed::PoolJoin => time_calls(rt, || joined_twice(rt, alloc, pool, n)),
        Timed::Broadcast => time_calls(rt, || broadcasted(rt, alloc, pool, n)),
        Timed::Wake => wake(rt, alloc, pool, n),
        Timed::Idle => idle(rt, alloc, pool, n),
        Timed::Leaves
        | Timed::Sequential
        | Timed::Spawn
        | Timed::SpawnFifo
        | Timed::SpawnBroadcast
        | Timed::WorkerBroadcast
        | Timed::Scope
        | Timed::ScopeFifo
        | Timed::ScopeOutputs
        | Timed::InPlaceScope => Ok(()),
    }
}

// F(20) by one installed job, by a join from outside, and by plain recursion.
fn print_values<R: Runtime + Wait>(rt: &R, alloc: Global, pool: &ThreadPool<Fib>) -> Result<()> {
    println!(rt; "F(20) installed: {}", installed(rt, alloc, pool, 20)?)?;
    println!(rt; "F(20) joined: {}", joined(rt, alloc, pool, 20)?)?;
    println!(rt; "F(20) sequential: {}", plain(20)?)?;
    Ok(())
}

// Makes the call so often as there are runs, each timed alone, with its answer.
fn time_runs<R: Runtime, F: Fn() -> Result<u64>>(rt: &R, call: F) -> Result<()>
    requires { F.IsAlwaysCallable call }
{
    for _ in 0..RUNS {
        let start = Instant::now(rt)?;
        let answer = call()?;
        let nanoseconds = start.elapsed(rt)?.as_nanos();
        println!(rt; "{nanoseconds} {answer}")?;
    }
    Ok(())
}

// Makes all calls in one go, with the sum of their answers.
fn time_calls<R: Runtime, F: Fn() -> Result<u64>>(rt: &R, call: F) -> Result<()>
    requires { F.IsAlwaysCallable call }
{
    let start = Instant::now(rt)?;
    let mut sum: u64 = 0;
    for _ in 0..CALLS {
        sum = sum.saturating_add(call()?);
    }
    let nanoseconds = start.elapsed(rt)?.as_nanos();
    println!(rt; "{nanoseconds} {sum}")?;
    Ok(())
}

// From the install of the job that spawns until the last spawned job has counted.
fn time_spawns<R: Runtime + Wait>(
    rt: &R,
    alloc: Global,
    pool: &ThreadPool<Spawning>,
    manner: Manner,
) -> Result<()> {
    for _ in 0..RUNS {
        let counter = Arc::new(alloc, AtomicU64::new(0)).context("NoRoom")?;
        let mine = Arc::try_clone(&counter).context("NoRoom")?;
        let start = Instant::now(rt)?;
        let job = Spawning::new(mine, SPAWNS, manner);
        let spawned = pool
            .install(rt, alloc, job)
            .map_err(CallError::without_sides)?;
        for _ in rt.forever() {
            if counter.load(Ordering::SeqCst) >= spawned {
                break;
            }
            thread::yield_now();
        }
        let nanoseconds = start.elapsed(rt)?.as_nanos();
        println!(rt; "{nanoseconds} {spawned}")?;
    }
    Ok(())
}

// Broadcasts from outside, before each of which the workers fall asleep, and the sum of the answers.
fn wake<R: Runtime + Wait>(rt: &R, alloc: Global, pool: &ThreadPool<Fib>, n: u8) -> Result<()> {
    let start = Instant::now(rt)?;
    let mut sum: u64 = 0;
    for _ in 0..WAKES {
        thread::sleep(rt, Duration::from_millis(REST));
        sum = sum.saturating_add(broadcasted(rt, alloc, pool, n)?);
    }
    let nanoseconds = start.elapsed(rt)?.as_nanos();
    println!(rt; "{nanoseconds} {sum}")?;
    Ok(())
}

// One install, and then nothing for some seconds.
fn idle<R: Runtime + Wait>(rt: &R, alloc: Global, pool: &ThreadPool<Fib>, n: u8) -> Result<()> {
    let start = Instant::now(rt)?;
    let value = installed(rt, alloc, pool, n)?;
    thread::sleep(rt, Duration::from_secs(SECONDS));
    let nanoseconds = start.elapsed(rt)?.as_nanos();
    println!(rt; "{nanoseconds} {value}")?;
    Ok(())
}

// Each answer decides which number is next, and it is the same one: so no run can be left out.
fn time_sequential<R: Runtime>(rt: &R, n: u8) -> Result<()> {
    let mut next = n;
    for _ in 0..RUNS {
        let start = Instant::now(rt)?;
        let value = plain(next)?;
        let nanoseconds = start.elapsed(rt)?.as_nanos();
        println!(rt; "{nanoseconds} {value}")?;
        if value == u64::MAX {
            next = 0;
        }
    }
    Ok(())
}

// F(n) by one installed job.
fn installed<R: Wait>(rt: &R, alloc: Global, pool: &ThreadPool<Fib>, n: u8) -> Result<u64>
    ensures { IfOk result (λ v. v ≡ fib n) }
{
    let value = pool
        .install(rt, alloc, Fib(n))
        .map_err(CallError::without_sides)?;
    Ok(value)
}

// The same by a job with leaves.
fn with_leaves<R: Wait>(rt: &R, alloc: Global, pool: &ThreadPool<Leaves>, n: u8) -> Result<u64>
    ensures { IfOk result (λ v. v ≡ fib n) }
{
    let value = pool
        .install(rt, alloc, Leaves(n))
        .map_err(CallError::without_sides)?;
    Ok(value)
}

// The sum of all that one installed job found by broadcasts.
fn with_casts<R: Wait>(rt: &R, alloc: Global, pool: &ThreadPool<Casting>, n: u8) -> Result<u64> {
    let sum = pool
        .install(rt, alloc, Casting::new(CALLS, n))
        .map_err(CallError::without_sides)?;
    Ok(sum)
}

// What one installed job answers that opens a scope and does this in it.
fn with_scope<R: Wait>(
    rt: &R,
    alloc: Global,
    pool: &ThreadPool<Scoping>,
    deed: Deed,
) -> Result<u64> {
    let answer = pool
        .install(rt, alloc, Scoping::new(deed, SPAWNS))
        .map_err(CallError::without_sides)?;
    Ok(answer)
}

// F(n) by a join of two sides from outside the pool.
#[tactic(auto, using(fibonacci::proofs::Fibs::fib_small, fibonacci::proofs::Fibs::fib_sum))]
fn joined<R: Wait>(rt: &R, alloc: Global, pool: &ThreadPool<Fib>, n: u8) -> Result<u64>
    ensures { IfOk result (λ v. v ≡ fib n) }
{
    if n < 2 {
        return Ok(u64::from(n));
    }
    let (x, y) = pool
        .join(rt, alloc, Fib(n - 1), Fib(n - 2))
        .map_err(CallError::without_sides)?;
    x.checked_add(y).context("TooLarge")
}

// Twice F(n), by a join of two like sides from outside the pool.
fn joined_twice<R: Wait>(rt: &R, alloc: Global, pool: &ThreadPool<Fib>, n: u8) -> Result<u64>
    ensures { IfOk result (λ v. v ≡ fib n + fib n) }
{
    let (x, y) = pool
        .join(rt, alloc, Fib(n), Fib(n))
        .map_err(CallError::without_sides)?;
    x.checked_add(y).context("TooLarge")
}

// The sum of F(n) on each worker, by a broadcast from outside the pool.
#[tactic(auto, using(crate::proofs::Sums::sum_same))]
fn broadcasted<R: Wait>(rt: &R, alloc: Global, pool: &ThreadPool<Fib>, n: u8) -> Result<u64>
    ensures { IfOk result (λ v. v ≡ pool.now.workers * fib n) }
{
    let answers = pool
        .broadcast(rt, alloc, Fib(n))
        .map_err(CallError::without_sides)?;
    sum_of(&answers).context("TooLarge")
}

// F(n) by plain recursion.
fn plain(n: u8) -> Result<u64>
    ensures { IfOk result (λ v. v ≡ fib n) }
{
    sequential(n).context("TooLarge")
}
