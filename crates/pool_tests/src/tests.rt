//! The tests, but for that of a pool's end.
use crate::errand::{Deed, Errand, Marks, Trouble, outcome, outcomes};
use crate::hands::pause;
use rayon_core::latch::LockLatch;
use rayon_core::{
    EndAfter, Ids, Refusal, ThreadPool, ThreadPoolBuildError, ThreadPoolBuilder, WorkerId,
};
use std::alloc::Global;
use std::process::Abort;
use std::sync::atomic::{AtomicU64, Ordering};
use std::sync::{Arc, Barrier, Wait};
use std::test::Fail;
use std::thread;
use std::thread::Threads;

/// A pool of so many workers.
pub fn pool_of<R: Threads + Wait + Abort + Copy + Send + 'static>(
    rt: &R,
    alloc: Global,
    workers: usize,
) -> ThreadPool<Errand> {
    let builder = ThreadPoolBuilder::new().num_threads(workers);
    builder.build(rt, alloc, &Ids::new()).expect(rt, "a pool")
}

/// What an install of a job that does this gave, how many runs it began, and the digits that were noted.
pub fn installed<R: Wait + Abort>(
    rt: &R,
    alloc: Global,
    pool: &ThreadPool<Errand>,
    deed: Deed,
) -> (Result<u64, Trouble>, u64, u64) {
    let marks = Marks::new(alloc).expect(rt, "room");
    let job = Errand::new(0, &marks, deed).expect(rt, "room");
    let answer = outcome(pool.install(rt, alloc, job));
    (answer, marks.runs(), marks.noted())
}

// A gate for two, and two shares of it.
fn gate_of_two<R: Abort>(rt: &R, alloc: Global) -> (Arc<Barrier>, Arc<Barrier>) {
    let gate = Arc::new(alloc, Barrier::new(2)).expect(rt, "room");
    let again = Arc::try_clone(&gate).expect(rt, "room");
    (gate, again)
}

// Pools of one source have numbers of their own, which their workers know. A source whose last number was drawn makes
// no pool.
#[test]
fn pools_have_numbers(rt: HostRuntime) -> Result<(), Fail> {
    let alloc = rt.alloc();
    let ids = Ids::new();
    match ThreadPoolBuilder::<Errand>::new().build(&rt, alloc, &Ids::spent()) {
        Ok(pool) => {
            pool.end_and_join(&rt);
            panic!(rt; "a pool without a number");
        }
        Err(error) => assert!(rt; matches!(&error, ThreadPoolBuildError::NoIds)),
    }
    let one = ThreadPoolBuilder::new().build(&rt, alloc, &ids);
    let one = one.expect(&rt, "a pool");
    let two = ThreadPoolBuilder::new().build(&rt, alloc, &ids);
    let two = two.expect(&rt, "a pool");
    let (first, second) = (one.id(), two.id());
    let worker = WorkerId {
        pool: first,
        index: 0,
    };
    let of_first = installed(&rt, alloc, &one, Deed::IsOn(worker));
    let of_second = installed(&rt, alloc, &two, Deed::IsOn(worker));
    one.end_and_join(&rt);
    two.end_and_join(&rt);
    assert_ne!(rt; first, second);
    assert_eq!(rt; (of_first, of_second), ((Ok(1), 1, 0), (Ok(0), 1, 0)));
    Ok(())
}

// A pool that was lent is ended afterwards and its threads are joined, whether the closure came to its end or left
// before: a detached job has noted its digit. What the closure answered comes out.
#[test]
fn lent_pools_are_ended(rt: HostRuntime) -> Result<(), Fail> {
    let alloc = rt.alloc();
    for (ending, answer, runs) in [(Ok(1), Ok(3), 3), (Err(2), Err(Trouble::Number(2)), 2)] {
        let marks = Marks::new(alloc)?;
        let detached = Errand::new(0, &marks, Deed::NoteLate(7))?;
        let job = Errand::new(1, &marks, Deed::End(ending))?;
        let next = Errand::new(2, &marks, Deed::End(Ok(3)))?;
        let late = Errand::new(3, &marks, Deed::End(Ok(4)))?;
        let pool = pool_of(&rt, alloc, 2);
        let shared = pool.pool_ref().expect(&rt, "room");
        let found = pool.end_after(&rt, |pool| {
            assert!(rt; pool.spawn(&rt, alloc, detached).is_ok(), "room");
            outcome(pool.install(&rt, alloc, job))?;
            outcome(pool.install(&rt, alloc, next))
        });
        assert_eq!(rt; (found, marks.runs(), marks.noted()), (answer, runs, 7));
        let late = outcome(shared.install(&rt, alloc, late));
        assert_eq!(rt; late, Err(Trouble::Refused(Refusal::Ended, 3)));
    }
    Ok(())
}

// A worker's own deque gives the newest task first: two second sides that a first side takes out by hand and pushes
// again, the newer one first, run in the other order. Each runs once, and its join finds its answer.
#[test]
fn own_deque(rt: HostRuntime) -> Result<(), Fail> {
    let alloc = rt.alloc();
    let pool = pool_of(&rt, alloc, 1);
    let taken = installed(&rt, alloc, &pool, Deed::Taker(2));
    pool.end_and_join(&rt);
    assert_eq!(rt;
        taken,
        (Ok(5), 5, 21),
        "two tasks, and the older one has run first"
    );
    Ok(())
}

// Tasks that are pushed into a worker's FIFO list by hand run in the order in which they were pushed, whatever they
// are; a token that is pushed so is one token as before.
#[test]
fn own_list(rt: HostRuntime) -> Result<(), Fail> {
    let alloc = rt.alloc();
    let pool = pool_of(&rt, alloc, 1);
    let listed = installed(&rt, alloc, &pool, Deed::TakerInOrder(2));
    assert_eq!(rt; pool.strays(&rt), 0);
    pool.end_and_join(&rt);
    assert_eq!(rt;
        listed,
        (Ok(5), 5, 12),
        "two tasks, and the one that was pushed first has run first"
    );
    Ok(())
}

// A worker that sleeps is woken by what is pushed by hand: the two sides of the join wait for each other.
#[test]
fn a_pushed_task_wakes_a_worker(rt: HostRuntime) -> Result<(), Fail> {
    let alloc = rt.alloc();
    let pool = pool_of(&rt, alloc, 2);
    for _ in 0..5 {
        pause();
        let (first, second) = gate_of_two(&rt, alloc);
        let both = installed(&rt, alloc, &pool, Deed::JoinMeet(first, second));
        assert_eq!(rt; both, (Ok(0), 3, 0));
    }
    pool.end_and_join(&rt);
    Ok(())
}

// A worker that looks for a task by hand finds the one that lies in another's deque. The worker that forked that waits
// at the gate until the finder has pushed it again; what is found then runs once, and its join finds its answer.
#[test]
fn a_task_of_another_is_found(rt: HostRuntime) -> Result<(), Fail> {
    let alloc = rt.alloc();
    let pool = pool_of(&rt, alloc, 2);
    for _ in 0..100 {
        let marks = Marks::new(alloc).expect(&rt, "room");
        let (forks, finds) = gate_of_two(&rt, alloc);
        let a = Errand::new(1, &marks, Deed::ForkAndMeet(forks)).expect(&rt, "room");
        let b = Errand::new(2, &marks, Deed::FindAndMeet(finds)).expect(&rt, "room");
        assert_eq!(rt; outcomes(pool.join(&rt, alloc, a, b)), Ok((7, 0)));
        assert_eq!(rt; (marks.runs(), marks.noted()), (4, 7));
    }
    pool.end_and_join(&rt);
    Ok(())
}

// What workers find by hand and push again is run once each, by whatever worker.
#[test]
fn found_tasks_run_once(rt: HostRuntime) -> Result<(), Fail> {
    let alloc = rt.alloc();
    for workers in [1, 2, 4, 16] {
        let pool = pool_of(&rt, alloc, workers);
        for _ in 0..20 {
            let answer = installed(&rt, alloc, &pool, Deed::Tree(10));
            assert_eq!(rt; answer, (Ok(1_024), 2_047, 0));
        }
        pool.end_and_join(&rt);
    }
    Ok(())
}

// A worker's thread has the stack that was asked for: 8,000 joins stand nested there, more than 8 MiB can hold.
#[test]
fn deep_joins_have_the_stack_that_was_asked_for(rt: HostRuntime) -> Result<(), Fail> {
    let alloc = rt.alloc();
    let builder = ThreadPoolBuilder::new()
        .num_threads(1)
        .stack_size(512 << 20);
    let pool = builder.build(&rt, alloc, &Ids::new()).expect(&rt, "a pool");
    let (answer, runs, _) = installed(&rt, alloc, &pool, Deed::Chain(8_000));
    pool.end_and_join(&rt);
    assert_eq!(rt; answer, Ok(8_000));
    assert_eq!(rt; runs, 16_001);
    Ok(())
}

// A stack that the system cannot give makes no pool.
#[test]
fn a_stack_without_end_is_refused(rt: HostRuntime) -> Result<(), Fail> {
    let builder = ThreadPoolBuilder::<Errand>::new().num_threads(3);
    match builder
        .stack_size(usize::MAX)
        .build(&rt, rt.alloc(), &Ids::new())
    {
        Ok(pool) => {
            pool.end_and_join(&rt);
            panic!(rt; "a stack without end");
        }
        Err(error) => assert!(rt; matches!(&error, ThreadPoolBuildError::IOError(_))),
    }
    Ok(())
}

// A thread that waits on a lock latch goes on when another thread sets it, and not before, each time anew.
#[test]
fn lock_latches(rt: HostRuntime) -> Result<(), Fail> {
    let (there, back, rounds) = (LockLatch::new(), LockLatch::new(), AtomicU64::new(0));
    let (there, back, rounds, handle) = (&there, &back, &rounds, &rt);
    thread::scope(thread::scope_env(), &rt, |scope| {
        let started = scope.spawn(move || {
            for _ in 0..100 {
                there.wait_and_reset(handle);
                rounds.fetch_add(1, Ordering::SeqCst);
                back.set(handle);
            }
        });
        assert!(handle; started.is_ok(), "a thread was refused");
        for round in 1..=100 {
            there.set(handle);
            back.wait_and_reset(handle);
            assert_eq!(handle; rounds.load(Ordering::SeqCst), round);
        }
        back.set(handle);
    });
    back.wait(&rt);
    back.wait_and_reset(&rt);
    Ok(())
}
