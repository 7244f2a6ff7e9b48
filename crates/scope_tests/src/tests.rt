//! The tests.
use crate::errand::{Deed, Errand, Trouble};
use rayon_core::{
    CallError, Done, Ended, Ids, InPlaceCalls, JobKind, PoolRef, Refusal, Scope, ThreadPool,
    ThreadPoolBuilder,
};
use std::alloc::Global;
use std::process::Abort;
use std::sync::atomic::{AtomicU64, Ordering};
use std::sync::{Arc, Barrier, Wait};
use std::test::Fail;
use std::thread::{JoinHandle, Threads};
use std::{mem, thread};

// A pool of so many workers.
pub(crate) fn pool_of<R: Threads + Wait + Abort + Copy + Send + 'static>(
    rt: &R,
    alloc: Global,
    workers: usize,
) -> ThreadPool<Errand> {
    pool_with(rt, alloc, workers, &Ids::new())
}

// The same, beside the other pools of these numbers.
pub(crate) fn pool_with<R: Threads + Wait + Abort + Copy + Send + 'static>(
    rt: &R,
    alloc: Global,
    workers: usize,
    ids: &Ids,
) -> ThreadPool<Errand> {
    let builder = ThreadPoolBuilder::new().num_threads(workers);
    builder.build(rt, alloc, ids).expect(rt, "a pool")
}

// A count of runs, at 0.
pub(crate) fn no_runs<R: Abort>(rt: &R, alloc: Global) -> Arc<AtomicU64> {
    Arc::new(alloc, AtomicU64::new(0)).expect(rt, "room")
}

// Spawns a job of this name that does this into a scope from outside, and answers its number.
pub(crate) fn inject<R: Wait>(
    rt: &R,
    alloc: Global,
    pool: &PoolRef<Errand>,
    scope: &mut Scope<Errand>,
    runs: &Arc<AtomicU64>,
    name: u64,
    deed: Deed,
) -> Result<u64, Trouble> {
    let job = Errand::new(name, runs, deed)?;
    match scope.inject(rt, alloc, pool, job) {
        Ok(number) => Ok(number),
        Err(_) => Err(Trouble::Lost),
    }
}

// What a scope gave: the digits of what its body answered, and of the outputs in the order of their numbers.
fn digits<B: Drop>(
    ended: Result<Ended<u64, Vec<Done<Errand>>>, CallError<Trouble, B>>,
) -> Result<u64, Trouble> {
    match ended {
        Ok(ended) => {
            let mut found = ended.value;
            for done in &ended.outputs {
                let output = done.output().copied().unwrap_or(0);
                found = found.saturating_mul(10).saturating_add(output);
            }
            Ok(found)
        }
        Err(CallError::Fault(trouble)) => Err(trouble),
        Err(_) => Err(Trouble::Lost),
    }
}

// What a scope gave.
#[derive(Clone, Copy, Debug, PartialEq, Eq)]
pub(crate) enum Outcome {
    // What its body answered, and how many outputs there are.
    Ended(u64, usize),
    // A fault.
    Fault(Trouble),
    // It was refused.
    Refused(Refusal),
    // An output does not meet the receipt of its number.
    Foreign,
    // No outputs were found.
    Missing,
}

// What a scope gave.
pub(crate) fn outcome_of<B: Drop>(
    ended: Result<Ended<u64, Vec<Done<Errand>>>, CallError<Trouble, B>>,
) -> Outcome {
    match ended {
        Ok(ended) => Outcome::Ended(ended.value, ended.outputs.len()),
        Err(CallError::Fault(trouble)) => Outcome::Fault(trouble),
        Err(CallError::Refused(refusal, _body)) => Outcome::Refused(refusal),
        Err(CallError::Foreign) => Outcome::Foreign,
        Err(CallError::Missing) => Outcome::Missing,
    }
}

// The sum of the outputs of a scope. None where it gave none, or where one is not its job's name.
fn sum_of<B: Drop>(
    ended: Result<Ended<u64, Vec<Done<Errand>>>, CallError<Trouble, B>>,
) -> Option<u64> {
    let Ok(ended) = ended else {
        return None;
    };
    let mut sum = 0_u64;
    for done in &ended.outputs {
        let output = *done.output()?;
        if output != *done.tag() {
            return None;
        }
        sum = sum.saturating_add(output);
    }
    Some(sum)
}

// A scope on a pool of so many workers, whose body spawns a job for each of three endings, and ends so.
fn three<R: Threads + Wait + Abort + Copy + Send + 'static>(
    rt: &R,
    alloc: Global,
    workers: usize,
    endings: [Result<u64, u64>; 3],
    ending: Result<u64, u64>,
) -> (Result<u64, Trouble>, u64) {
    let pool = pool_of(rt, alloc, workers);
    let runs = no_runs(rt, alloc);
    let ended = pool.in_place_scope(rt, alloc, |scope| {
        for end in endings {
            inject(rt, alloc, &pool, scope, &runs, 7, Deed::End(end))?;
        }
        ending.map_err(Trouble::Number)
    });
    let found = digits(ended);
    pool.end_and_join(rt);
    (found, runs.load(Ordering::SeqCst))
}

// Outputs stand by number, and the body's answer comes out. An empty scope has no output.
#[test]
fn outputs_stand_by_number(rt: HostRuntime) -> Result<(), Fail> {
    let alloc = rt.alloc();
    for workers in [1, 2, 4] {
        let found = three(&rt, alloc, workers, [Ok(2), Ok(3), Ok(4)], Ok(1));
        assert_eq!(rt; found, (Ok(1_234), 3));
    }
    let pool = pool_of(&rt, alloc, 1);
    let found = digits(pool.in_place_scope_fifo(&rt, alloc, |_scope| Ok(5)));
    pool.end_and_join(&rt);
    assert_eq!(rt; found, Ok(5));
    Ok(())
}

// The fault that was stored first is answered, once all jobs have run: a job's; the body's where the jobs have none.
#[test]
fn first_fault_is_answered(rt: HostRuntime) -> Result<(), Fail> {
    let alloc = rt.alloc();
    let fault = |digit| (Err(Trouble::Number(digit)), 3);
    for workers in [1, 2, 4] {
        let found = three(&rt, alloc, workers, [Ok(2), Err(3), Ok(4)], Ok(1));
        assert_eq!(rt; found, fault(3));
        let found = three(&rt, alloc, workers, [Ok(2), Ok(3), Ok(4)], Err(1));
        assert_eq!(rt; found, fault(1));
    }
    let found = three(&rt, alloc, 1, [Err(2), Err(3), Err(4)], Ok(1));
    assert_eq!(rt; found, fault(2));
    Ok(())
}

// The body runs on the caller's own thread: its job on the only worker waits for it.
#[test]
fn the_body_is_on_no_worker(rt: HostRuntime) -> Result<(), Fail> {
    let alloc = rt.alloc();
    let pool = pool_of(&rt, alloc, 1);
    let runs = no_runs(&rt, alloc);
    let gate = Arc::new(alloc, Barrier::new(2)).expect(&rt, "room");
    let theirs = Arc::try_clone(&gate).expect(&rt, "room");
    let ended = pool.in_place_scope(&rt, alloc, |scope| {
        let number = inject(&rt, alloc, &pool, scope, &runs, 1, Deed::Meet(theirs))?;
        gate.wait(&rt);
        Ok(number)
    });
    let found = digits(ended);
    pool.end_and_join(&rt);
    assert_eq!(rt; found, Ok(1));
    Ok(())
}

// Of 10,000 jobs of a tree, the first of which the body spawned, each ran once and has an output beside its own tag.
#[test]
fn a_tree_in_one_scope(rt: HostRuntime) -> Result<(), Fail> {
    let alloc = rt.alloc();
    for workers in [1, 2, 4, 8] {
        let pool = pool_of(&rt, alloc, workers);
        let runs = no_runs(&rt, alloc);
        let ended = pool.in_place_scope(&rt, alloc, |scope| {
            inject(&rt, alloc, &pool, scope, &runs, 1, Deed::Twig(1, 10_000))
        });
        let sum = sum_of(ended);
        pool.end_and_join(&rt);
        assert_eq!(rt; sum, Some(50_005_000));
        assert_eq!(rt; runs.load(Ordering::SeqCst), 10_000);
    }
    Ok(())
}

// A job is the body of a scope on a worker: the tree that it spawns is waited for, and its own output is the first. Its
// fault is the scope's.
#[test]
fn a_job_is_the_body(rt: HostRuntime) -> Result<(), Fail> {
    let alloc = rt.alloc();
    let runs = no_runs(&rt, alloc);
    let pool = pool_of(&rt, alloc, 2);
    let tree = Errand::new(1, &runs, Deed::Twig(1, 500)).expect(&rt, "room");
    let found = outcome_of(pool.scope(&rt, alloc, tree));
    let bad = Errand::new(2, &runs, Deed::End(Err(7))).expect(&rt, "room");
    let fault = outcome_of(pool.scope_fifo(&rt, alloc, bad));
    let late = pool.pool_ref().expect(&rt, "room");
    pool.end_and_join(&rt);
    let job = Errand::new(3, &runs, Deed::End(Ok(3))).expect(&rt, "room");
    let refused = outcome_of(late.scope(&rt, alloc, job));
    assert_eq!(rt; found, Outcome::Ended(0, 500));
    assert_eq!(rt; fault, Outcome::Fault(Trouble::Number(7)));
    assert_eq!(rt; refused, Outcome::Refused(Refusal::Ended));
    assert_eq!(rt; runs.load(Ordering::SeqCst), 501);
    Ok(())
}

// Four threads each spawn a hundred jobs into the scope. Answers how many spawns were not refused.
fn spawn_by_threads<R: Threads + Wait + Copy + Send + 'static>(
    rt: &R,
    alloc: Global,
    pool: &PoolRef<Errand>,
    scope: &mut Scope<Errand>,
    runs: &Arc<AtomicU64>,
) -> Result<u64, Trouble> {
    let mut threads = Vec::new(alloc);
    for _ in 0..4 {
        let theirs = *rt;
        let their_pool = pool.pool_ref().map_err(|_| Trouble::Lost)?;
        let mut share = scope.share(alloc).map_err(|_| Trouble::Lost)?;
        let their_runs = Arc::try_clone(runs).map_err(|_| Trouble::Lost)?;
        let spawn = move || spawn_hundred(&theirs, alloc, &their_pool, &mut share, &their_runs);
        let handle = thread::spawn(rt, spawn).map_err(|_| Trouble::Lost)?;
        threads.push(handle).map_err(|_| Trouble::Lost)?;
    }
    Ok(joined(rt, threads))
}

// Spawns a hundred jobs into the scope. Answers how many spawns were not refused.
fn spawn_hundred<R: Wait>(
    rt: &R,
    alloc: Global,
    pool: &PoolRef<Errand>,
    scope: &mut Scope<Errand>,
    runs: &Arc<AtomicU64>,
) -> u64 {
    let mut spawned = 0_u64;
    for name in 0..100 {
        let number = inject(rt, alloc, pool, scope, runs, name, Deed::End(Ok(1)));
        spawned = spawned.saturating_add(u64::from(number.is_ok()));
    }
    spawned
}

// The sum of what these threads answer.
fn joined<R: Threads>(rt: &R, threads: Vec<JoinHandle<u64>>) -> u64 {
    let mut sum = 0_u64;
    for thread in threads {
        sum = sum.saturating_add(thread.join(rt));
    }
    sum
}

// Four threads spawn into one scope while its body runs, each a hundred jobs. Each job runs, and a share of the scope
// that is left over spawns nothing once the scope has ended.
#[test]
fn threads_spawn_into_a_scope(rt: HostRuntime) -> Result<(), Fail> {
    let alloc = rt.alloc();
    let pool = pool_of(&rt, alloc, 2);
    let runs = no_runs(&rt, alloc);
    let mut late = None;
    let found = outcome_of(pool.in_place_scope(&rt, alloc, |scope| {
        late = scope.share(alloc).ok();
        spawn_by_threads(&rt, alloc, &pool, scope, &runs)
    }));
    let refused = match late {
        Some(mut scope) => {
            let job = Errand::new(9, &runs, Deed::End(Ok(9))).expect(&rt, "room");
            match scope.inject(&rt, alloc, &pool, job) {
                Err((refusal, _)) => Some(refusal),
                Ok(_) => None,
            }
        }
        None => None,
    };
    pool.end_and_join(&rt);
    assert_eq!(rt; found, Outcome::Ended(400, 400));
    assert_eq!(rt; refused, Some(Refusal::Ended));
    assert_eq!(rt; runs.load(Ordering::SeqCst), 400);
    Ok(())
}

// A scope takes no job by another pool, and ends without it. Scopes of two pools, one of each kind, stand nested, and
// the inner body spawns into both.
#[test]
fn scopes_of_two_pools(rt: HostRuntime) -> Result<(), Fail> {
    let alloc = rt.alloc();
    let ids = Ids::new();
    let one = pool_with(&rt, alloc, 1, &ids);
    let two = pool_with(&rt, alloc, 1, &ids);
    let runs = no_runs(&rt, alloc);
    let mut inside = Err(Trouble::Lost);
    let ended = one.in_place_scope(&rt, alloc, |outer| {
        let ended = two.in_place_scope_fifo(&rt, alloc, |inner| {
            let wrong = inject(&rt, alloc, &one, inner, &runs, 8, Deed::End(Ok(8)));
            inject(&rt, alloc, &one, outer, &runs, 2, Deed::End(Ok(2)))?;
            inject(&rt, alloc, &two, inner, &runs, 3, Deed::End(Ok(3)))?;
            inject(&rt, alloc, &one, outer, &runs, 4, Deed::End(Ok(4)))?;
            Ok(u64::from(wrong.is_err()))
        });
        inside = digits(ended);
        Ok(1)
    });
    let found = (digits(ended), inside);
    one.end_and_join(&rt);
    two.end_and_join(&rt);
    assert_eq!(rt; found, (Ok(124), Ok(13)));
    assert_eq!(rt; runs.load(Ordering::SeqCst), 3);
    Ok(())
}

// How nested scopes are opened, each on a pool of its own: the source of the pools' numbers, how many workers each pool
// has, and whether the scopes are opened in order.
#[derive(Clone, Copy)]
struct Nest<'a> {
    ids: &'a Ids,
    workers: usize,
    in_order: bool,
}

// A share of a scope that stands open, and the scope's pool.
#[derive(Drop)]
struct Open {
    pool: PoolRef<Errand>,
    scope: Scope<Errand>,
}

// These scopes, and one more that stands open on this pool.
fn with_share(
    alloc: Global,
    mut open: Vec<Open>,
    pool: &PoolRef<Errand>,
    scope: &Scope<Errand>,
) -> Result<Vec<Open>, Trouble> {
    let pool = pool.pool_ref().map_err(|_| Trouble::Lost)?;
    let scope = scope.share(alloc).map_err(|_| Trouble::Lost)?;
    open.push(Open { pool, scope }).map_err(|_| Trouble::Lost)?;
    Ok(open)
}

// Spawns a job into each of these scopes: its name and output are the scope's place among them. Answers 0 where each
// job has the number 0.
fn inject_each<R: Wait>(
    rt: &R,
    alloc: Global,
    open: Vec<Open>,
    runs: &Arc<AtomicU64>,
) -> Result<u64, Trouble> {
    let mut numbers = 0_u64;
    for (name, share) in (0_u64..).zip(open) {
        let Open { pool, mut scope } = share;
        let deed = Deed::End(Ok(name));
        numbers |= inject(rt, alloc, &pool, &mut scope, runs, name, deed)?;
    }
    Ok(numbers)
}

// The same as `digits`, of a scope that gave one output. A fault where it gave another number of them.
fn digits_of_one<B: Drop>(
    ended: Result<Ended<u64, Vec<Done<Errand>>>, CallError<Trouble, B>>,
) -> Result<u64, Trouble> {
    if let Ok(ended) = &ended {
        if ended.outputs.len() != 1 {
            return Err(Trouble::Lost);
        }
    }
    digits(ended)
}

// Opens so many scopes more in one another. The innermost body spawns a job into each that stands open. Answers the
// digits of what these scopes gave, the innermost first.
fn nested<R: Threads + Wait + Abort + Copy + Send + 'static>(
    rt: &R,
    alloc: Global,
    nest: Nest<'_>,
    left: u64,
    open: Vec<Open>,
    runs: &Arc<AtomicU64>,
) -> Result<u64, Trouble> {
    let Some(left) = left.checked_sub(1) else {
        return inject_each(rt, alloc, open, runs);
    };
    let pool = pool_with(rt, alloc, nest.workers, nest.ids);
    let body = |scope: &mut Scope<Errand>| {
        let open = with_share(alloc, open, &pool, scope)?;
        nested(rt, alloc, nest, left, open, runs)
    };
    let ended = if nest.in_order {
        pool.in_place_scope_fifo(rt, alloc, body)
    } else {
        pool.in_place_scope(rt, alloc, body)
    };
    let found = digits_of_one(ended);
    pool.end_and_join(rt);
    found
}

// The innermost body of ten nested scopes, of ten pools, in order or not, spawns a job into each, which runs once, and
// whose output is the only one of its scope, at number 0.
#[test]
fn scopes_of_ten_pools(rt: HostRuntime) -> Result<(), Fail> {
    let alloc = rt.alloc();
    for (workers, in_order) in [
        (1, false),
        (1, true),
        (2, false),
        (2, true),
        (4, false),
        (4, true),
    ] {
        let ids = Ids::new();
        let runs = no_runs(&rt, alloc);
        let nest = Nest {
            ids: &ids,
            workers,
            in_order,
        };
        let found = nested(&rt, alloc, nest, 10, Vec::new(alloc), &runs);
        assert_eq!(rt; found, Ok(9_876_543_210));
        assert_eq!(rt; runs.load(Ordering::SeqCst), 10);
    }
    Ok(())
}

// Two nested scopes that a body exchanged for one another both answer `Foreign`, since neither output meets the receipt
// of the other, and both jobs have run.
#[test]
fn exchanged_scopes_are_foreign(rt: HostRuntime) -> Result<(), Fail> {
    let alloc = rt.alloc();
    let pool = pool_of(&rt, alloc, 1);
    let runs = no_runs(&rt, alloc);
    let mut inside = None;
    let ended = pool.in_place_scope(&rt, alloc, |outer| {
        inject(&rt, alloc, &pool, outer, &runs, 1, Deed::End(Ok(1)))?;
        let ended = pool.in_place_scope(&rt, alloc, |inner| {
            let number = inject(&rt, alloc, &pool, inner, &runs, 2, Deed::End(Ok(2)))?;
            mem::swap(inner, outer);
            Ok(number)
        });
        inside = Some(outcome_of(ended));
        Ok(0)
    });
    let found = (outcome_of(ended), inside);
    pool.end_and_join(&rt);
    assert_eq!(rt; found, (Outcome::Foreign, Some(Outcome::Foreign)));
    assert_eq!(rt; runs.load(Ordering::SeqCst), 2);
    Ok(())
}

// Jobs of a scope that was opened outside open scopes on their workers: those jobs are waited for inside, and are none
// of the outer scope.
#[test]
fn jobs_open_scopes_on_their_workers(rt: HostRuntime) -> Result<(), Fail> {
    let alloc = rt.alloc();
    for workers in [1, 2, 4] {
        let pool = pool_of(&rt, alloc, workers);
        let runs = no_runs(&rt, alloc);
        let found = digits(pool.in_place_scope(&rt, alloc, |scope| {
            for most in [1, 2, 3] {
                inject(&rt, alloc, &pool, scope, &runs, 7, Deed::Tree(most))?;
            }
            Ok(5)
        }));
        pool.end_and_join(&rt);
        assert_eq!(rt; found, Ok(5_136));
        assert_eq!(rt; runs.load(Ordering::SeqCst), 9);
    }
    Ok(())
}

// A job of the scope, and those that it spawns by its worker, have run while the body still runs, which meets the only
// worker before and after them. They are numbered after what the body spawned by then, and before what it spawns later.
#[test]
fn jobs_run_while_the_body_does(rt: HostRuntime) -> Result<(), Fail> {
    let alloc = rt.alloc();
    let pool = pool_of(&rt, alloc, 1);
    let runs = no_runs(&rt, alloc);
    let gate = Arc::new(alloc, Barrier::new(2)).expect(&rt, "room");
    let before = Arc::try_clone(&gate).expect(&rt, "room");
    let after = Arc::try_clone(&gate).expect(&rt, "room");
    let mut ran = 0;
    let found = digits(pool.in_place_scope(&rt, alloc, |scope| {
        inject(&rt, alloc, &pool, scope, &runs, 1, Deed::Meet(before))?;
        inject(&rt, alloc, &pool, scope, &runs, 2, Deed::Twig(3, 7))?;
        inject(&rt, alloc, &pool, scope, &runs, 3, Deed::Meet(after))?;
        gate.wait(&rt);
        gate.wait(&rt);
        ran = runs.load(Ordering::SeqCst);
        inject(&rt, alloc, &pool, scope, &runs, 4, Deed::End(Ok(9)))
    }));
    pool.end_and_join(&rt);
    assert_eq!(rt; found, Ok(5_131_679));
    assert_eq!(rt; ran, 5);
    Ok(())
}

// A pool that has ended opens no scope: the body comes back, and did not run.
#[test]
fn an_ended_pool_opens_no_scope(rt: HostRuntime) -> Result<(), Fail> {
    let alloc = rt.alloc();
    let pool = pool_of(&rt, alloc, 1);
    let late = pool.pool_ref().expect(&rt, "room");
    pool.end_and_join(&rt);
    let mut ran = false;
    let found = outcome_of(late.in_place_scope(&rt, alloc, |_scope| {
        ran = true;
        Ok(1)
    }));
    assert_eq!(rt; found, Outcome::Refused(Refusal::Ended));
    assert!(rt; !ran);
    Ok(())
}
