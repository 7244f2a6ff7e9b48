//! The tests.
use crate::deed::{Deed, once};
use rayon_core::latch::LockLatch;
use rayon_core::{
    Configuration, EndAfter, Ids, PoolRef, Refusal, ThreadPoolBuildError, ThreadPoolBuilder,
};
use rayon_global::{
    GlobalPool, Outside, builder_of_environment, current_num_threads, current_thread_index,
    initialize, install, join, join_context, max_num_threads, spawn, spawn_fifo,
};
use std::alloc::Global;
use std::process::Abort;
use std::sync::{Arc, Wait};
use std::test::Fail;
use std::thread;
use std::thread::Threads;

/// The text of the refusal where there is a global pool already.
const ALREADY: &str = "The global thread pool has already been initialized.";

// A builder for so many workers.
fn workers(n: usize) -> ThreadPoolBuilder<Deed> {
    ThreadPoolBuilder::new().num_threads(n)
}

// A latch that is not set, in two shares.
fn latch<R: Abort>(rt: &R, alloc: Global) -> (Arc<LockLatch>, Arc<LockLatch>) {
    let latch = Arc::new(alloc, LockLatch::new()).expect(rt, "room");
    let again = Arc::try_clone(&latch).expect(rt, "room");
    (latch, again)
}

// The pool is made where it is first used, by that builder, and then it is the same one for all.
#[test]
fn first_use_fills(rt: HostRuntime) -> Result<(), Fail> {
    let (alloc, ids, global) = (rt.alloc(), Ids::new(), GlobalPool::new());
    let empty = global.get().is_none();
    let (first, second) = global.end_after(&rt, |global| {
        let first = global
            .filled(&rt, alloc, &ids, workers(3))
            .expect(&rt, "a pool");
        let second = global
            .filled(&rt, alloc, &ids, workers(5))
            .expect(&rt, "a pool");
        assert!(rt; global.get().is_some());
        let numbers = (first.current_num_threads(), second.current_num_threads());
        (first.id() == second.id(), numbers)
    });
    assert!(rt; empty && first);
    assert_eq!(rt; second, (3, 3));
    Ok(())
}

// Each call outside of a run, and each within one: on two workers, and on the one that the environment's first word asks
// for.
#[test]
fn calls_are_answered_on_both_sides(rt: HostRuntime) -> Result<(), Fail> {
    let first_word = ThreadPoolBuilder::new().environment(Some("1"), Some("7"), 9);
    answer_on_both_sides(&rt, rt.alloc(), workers(2), 2);
    answer_on_both_sides(&rt, rt.alloc(), first_word, 1);
    Ok(())
}

// Makes the calls of a global pool that this builder makes, which has so many workers.
fn answer_on_both_sides<R: Threads + Wait + Abort + Copy + Send + 'static>(
    rt: &R,
    alloc: Global,
    builder: ThreadPoolBuilder<Deed>,
    workers: u64,
) {
    let (ids, global) = (Ids::new(), GlobalPool::new());
    global.end_after(rt, |global| {
        let filled = global.filled(rt, alloc, &ids, builder);
        let mut outside = filled.expect(rt, "a pool");
        assert!(rt; current_thread_index(&outside).is_none());
        assert_eq!(rt; current_num_threads(&outside) as u64, workers);
        let one = install(rt, alloc, &mut outside, Deed::Twice(50));
        assert_eq!(rt; once(one), Ok(100));
        let two = join(rt, alloc, &mut outside, Deed::Twice(7), Deed::Twice(40));
        assert_eq!(rt; once(two), Ok((14, 80)));
        let two = join_context(rt, alloc, &mut outside, Deed::Twice(9), Deed::Twice(0));
        assert_eq!(rt; once(two), Ok((18, 0)));
        let index = once(install(rt, alloc, &mut outside, Deed::Where));
        assert!(rt; index.is_ok_and(|index| index < workers));
        let found = once(install(rt, alloc, &mut outside, Deed::Workers));
        assert_eq!(rt; found, Ok(workers));
        let (ours, theirs) = latch(rt, alloc);
        assert!(rt; spawn(rt, alloc, &mut outside, Deed::Set(theirs)).is_ok());
        ours.wait(rt);
        let (ours, theirs) = latch(rt, alloc);
        assert!(rt; spawn_fifo(rt, alloc, &mut outside, Deed::Set(theirs)).is_ok());
        ours.wait(rt);
        let (ours, theirs) = latch(rt, alloc);
        let fifo = install(rt, alloc, &mut outside, Deed::SpawnFifoSet(theirs));
        assert_eq!(rt; once(fifo), Ok(0));
        ours.wait(rt);
        let (ours, theirs) = latch(rt, alloc);
        let spawned = install(rt, alloc, &mut outside, Deed::SpawnSet(theirs));
        assert_eq!(rt; once(spawned), Ok(0));
        ours.wait(rt);
        assert_eq!(rt; outside.take_fault(rt), (None, 0));
    });
}

// What the environment says is some number of workers, and a pool of that builder has as many.
#[test]
fn surroundings_give_workers(rt: HostRuntime) -> Result<(), Fail> {
    let (alloc, ids, global) = (rt.alloc(), Ids::new(), GlobalPool::new());
    let builder = builder_of_environment::<Deed, _>(&rt, alloc).expect(&rt, "room");
    let count = builder.worker_count();
    let workers = global.end_after(&rt, |global| {
        let built = global.build_global(&rt, alloc, &ids, builder);
        built.expect(&rt, "a pool").current_num_threads()
    });
    assert_eq!(rt; workers, count);
    assert!(rt; 1 <= count && count <= max_num_threads());
    Ok(())
}

// The pool is built once: asked again it is refused, and then no number is drawn.
#[test]
fn second_build_is_refused(rt: HostRuntime) -> Result<(), Fail> {
    let (alloc, ids, global) = (rt.alloc(), Ids::new(), GlobalPool::new());
    let workers = global.end_after(&rt, |global| {
        let first = global.build_global(&rt, alloc, &ids, workers(2));
        assert!(rt; first.is_ok());
        match global.build_global(&rt, alloc, &ids, workers(4)) {
            Ok(_outside) => panic!(rt; "a second pool"),
            Err(error) => assert_eq!(rt; error.text(), Some(ALREADY)),
        }
        let filled = global.filled(&rt, alloc, &ids, workers(5));
        filled.expect(&rt, "a pool").current_num_threads()
    });
    assert_eq!(rt; workers, 2);
    let others = Ids::new();
    let _first = others.next(&rt);
    assert_eq!(rt; ids.next(&rt), others.next(&rt));
    Ok(())
}

// So it is by its older name.
#[test]
fn second_initialization_is_refused(rt: HostRuntime) -> Result<(), Fail> {
    let (alloc, ids, global) = (rt.alloc(), Ids::new(), GlobalPool::new());
    let (made, again) = global.end_after(&rt, |global| {
        let three = Configuration::<Deed>::new().num_threads(3);
        let made = initialize(&rt, alloc, global, three, &ids);
        let made = made.expect(&rt, "a pool").current_num_threads();
        let four = Configuration::<Deed>::new().num_threads(4);
        let again = initialize(&rt, alloc, global, four, &ids).err();
        (made, again)
    });
    assert_eq!(rt; made, 3);
    assert_eq!(rt; again.and_then(|error| error.text()), Some(ALREADY));
    Ok(())
}

// Where no pool can be made there is none, and a later call makes one.
#[test]
fn failed_fill_leaves_it_empty(rt: HostRuntime) -> Result<(), Fail> {
    let (alloc, ids, global) = (rt.alloc(), Ids::new(), GlobalPool::new());
    let workers = global.end_after(&rt, |global| {
        let spent = Ids::spent();
        let filled = global.filled(&rt, alloc, &spent, workers(2));
        assert!(rt; matches!(&filled, Err(ThreadPoolBuildError::NoIds)));
        assert!(rt; global.get().is_none());
        let built = global.build_global(&rt, alloc, &spent, workers(2));
        assert!(rt; matches!(&built, Err(ThreadPoolBuildError::NoIds)));
        let stack = workers(2).stack_size(usize::MAX);
        let filled = global.filled(&rt, alloc, &ids, stack);
        assert!(rt; matches!(&filled, Err(ThreadPoolBuildError::IOError(_))));
        let stack = workers(2).stack_size(usize::MAX);
        let built = global.build_global(&rt, alloc, &ids, stack);
        assert!(rt; matches!(&built, Err(ThreadPoolBuildError::IOError(_))));
        assert!(rt; global.get().is_none());
        let built = global.build_global(&rt, alloc, &ids, workers(3));
        built.expect(&rt, "a pool").current_num_threads()
    });
    assert_eq!(rt; workers, 3);
    Ok(())
}

// Another thread calls by a copy of the pool's `PoolRef`. Once the pool has ended it is refused, with the job back.
#[test]
fn other_threads_have_a_copy(rt: HostRuntime) -> Result<(), Fail> {
    let (alloc, ids, global) = (rt.alloc(), Ids::new(), GlobalPool::new());
    let (found, copy) = global.end_after(&rt, |global| {
        let filled = global.filled(&rt, alloc, &ids, workers(2));
        let outside = filled.expect(&rt, "a pool");
        let Ok(copy) = outside.pool_ref() else {
            panic!(rt; "room");
        };
        (twice_elsewhere(&rt, alloc, copy), outside.pool_ref())
    });
    assert_eq!(rt; found, Ok(80));
    let Ok(copy) = copy else {
        panic!(rt; "room");
    };
    assert_eq!(rt; twice_elsewhere(&rt, alloc, copy), Err(Refusal::Ended));
    Ok(())
}

// Twice 40, as a thread of its own asks this pool for it.
fn twice_elsewhere<R: Threads + Wait + Abort + Copy + Send + 'static>(
    rt: &R,
    alloc: Global,
    pool: PoolRef<Deed>,
) -> Result<u64, Refusal> {
    let theirs = *rt;
    let call = move || {
        let mut outside = Outside::of(&pool);
        once(install(&theirs, alloc, &mut outside, Deed::Twice(40)))
    };
    let Ok(other) = thread::spawn(rt, call) else {
        panic!(rt; "a thread");
    };
    other.join(rt)
}
