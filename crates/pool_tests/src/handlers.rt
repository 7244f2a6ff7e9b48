//! The tests of who is told of the faults of detached jobs, and of the beginning and the end of a pool's threads.
use crate::errand::{Deed, Errand, Marks, Teller, Trouble, outcome};
use rayon_core::{Ids, ThreadPool, ThreadPoolBuildError, ThreadPoolBuilder};
use std::alloc::Global;
use std::process::Abort;
use std::sync::{Arc, Wait};
use std::test::Fail;
use std::thread::Threads;

// A pool of so many workers, which tells a handler that leaves its marks here, if there are any.
fn telling_pool<R: Threads + Wait + Abort + Copy + Send + 'static>(
    rt: &R,
    alloc: Global,
    workers: usize,
    marks: Option<&Arc<Marks>>,
) -> ThreadPool<Errand> {
    let builder = ThreadPoolBuilder::new().num_threads(workers);
    let builder = match marks {
        Some(marks) => builder.panic_handler(Teller::new(marks).expect(rt, "room")),
        None => builder,
    };
    builder.build(rt, alloc, &Ids::new()).expect(rt, "a pool")
}

// Of three detached jobs that fault on one worker a handler is told each fault, in the order in which the jobs ran, and
// the pool keeps none. With no handler it keeps the first, and how many there were.
#[test]
fn faults_go_to_the_handler(rt: HostRuntime) -> Result<(), Fail> {
    let alloc = rt.alloc();
    let first = Some(Trouble::Number(1));
    for (has_handler, told, noted, kept) in [(true, 3, 123, (None, 0)), (false, 0, 0, (first, 3))] {
        let marks = Marks::new(alloc).expect(&rt, "room");
        let handler = has_handler.then_some(&marks);
        let pool = telling_pool(&rt, alloc, 1, handler);
        for digit in 1..4 {
            let job = Errand::new(digit, &marks, Deed::End(Err(digit))).expect(&rt, "room");
            assert!(rt; pool.spawn(&rt, alloc, job).is_ok(), "room");
        }
        let shared = pool.pool_ref().expect(&rt, "room");
        pool.end_and_join(&rt);
        assert_eq!(rt; (marks.told(), marks.noted()), (told, noted));
        assert_eq!(rt; shared.take_fault(&rt), kept);
        assert_eq!(rt; shared.take_fault(&rt), (None, 0));
    }
    Ok(())
}

// Four workers tell a handler the faults of a hundred detached jobs, each once: of twenty that were spawned from
// outside, and of four that each of them spawned, in order and not.
#[test]
fn each_fault_is_told_once(rt: HostRuntime) -> Result<(), Fail> {
    let alloc = rt.alloc();
    let marks = Marks::new(alloc).expect(&rt, "room");
    let pool = telling_pool(&rt, alloc, 4, Some(&marks));
    for name in 0..10 {
        let one = Errand::new(name, &marks, Deed::FaultByFive(0)).expect(&rt, "room");
        let two = Errand::new(name, &marks, Deed::FaultByFive(0)).expect(&rt, "room");
        assert!(rt; pool.spawn(&rt, alloc, one).is_ok(), "room");
        assert!(rt; pool.spawn_fifo(&rt, alloc, two).is_ok(), "room");
    }
    let shared = pool.pool_ref().expect(&rt, "room");
    pool.end_and_join(&rt);
    assert_eq!(rt; (marks.runs(), marks.told()), (100, 100));
    assert_eq!(rt;
        (shared.take_fault(&rt), shared.strays(&rt)),
        ((None, 0), 0)
    );
    Ok(())
}

// A pool of so many workers, each of whose threads tells of its beginning and its end; where they fault the pool tells
// a handler of that, if it has one.
fn watched_pool<R: Threads + Wait + Abort + Copy + Send + 'static>(
    rt: &R,
    alloc: Global,
    workers: usize,
    marks: &Arc<Marks>,
    fault: bool,
    has_handler: bool,
) -> ThreadPool<Errand> {
    let builder = ThreadPoolBuilder::new()
        .num_threads(workers)
        .start_handler(Teller::of(marks, fault).expect(rt, "room"))
        .exit_handler(Teller::of(marks, fault).expect(rt, "room"));
    let builder = if has_handler {
        builder.panic_handler(Teller::new(marks).expect(rt, "room"))
    } else {
        builder
    };
    builder.build(rt, alloc, &Ids::new()).expect(rt, "a pool")
}

// The start handler and the exit handler are told each worker's index once, whether the pool has run a job or not, and
// faults of neither keep the pool from running one.
#[test]
fn each_thread_tells_its_index(rt: HostRuntime) -> Result<(), Fail> {
    let alloc = rt.alloc();
    for (jobs, fault) in [(0, false), (3, false), (3, true)] {
        let marks = Marks::new(alloc).expect(&rt, "room");
        let pool = watched_pool(&rt, alloc, 7, &marks, fault, true);
        for digit in 0..jobs {
            let job = Errand::new(digit, &marks, Deed::End(Ok(digit))).expect(&rt, "room");
            assert_eq!(rt; outcome(pool.install(&rt, alloc, job)), Ok(digit));
        }
        pool.end_and_join(&rt);
        assert_eq!(rt; (marks.started(), marks.exited()), (127, 127));
        assert_eq!(rt; (marks.runs(), marks.told()), (jobs, 14 * u64::from(fault)));
    }
    Ok(())
}

// Sixteen workers whose start and exit handlers fault: the panic handler is told each of the 32 faults. Where there is
// none the pool keeps the first, and their number.
#[test]
fn faults_of_handlers_go_to_the_handler(rt: HostRuntime) -> Result<(), Fail> {
    let alloc = rt.alloc();
    for (has_handler, told, kept) in [(true, 32, 0), (false, 0, 32)] {
        let marks = Marks::new(alloc).expect(&rt, "room");
        let pool = watched_pool(&rt, alloc, 16, &marks, true, has_handler);
        let shared = pool.pool_ref().expect(&rt, "room");
        pool.end_and_join(&rt);
        assert_eq!(rt; (marks.started(), marks.exited()), (65535, 65535));
        assert_eq!(rt; marks.told(), told);
        let (first, count) = shared.take_fault(&rt);
        assert_eq!(rt; count, kept);
        assert_eq!(rt; matches!(first, Some(Trouble::Number(_))), kept > 0);
        assert_eq!(rt; shared.take_fault(&rt), (None, 0));
    }
    Ok(())
}

// Of three handlers that are set each is told what is its own, and nothing else.
#[test]
fn each_handler_is_told_its_own(rt: HostRuntime) -> Result<(), Fail> {
    let alloc = rt.alloc();
    let panic = Marks::new(alloc).expect(&rt, "room");
    let start = Marks::new(alloc).expect(&rt, "room");
    let exit = Marks::new(alloc).expect(&rt, "room");
    let pool = ThreadPoolBuilder::<Errand>::new()
        .num_threads(4)
        .panic_handler(Teller::new(&panic).expect(&rt, "room"))
        .start_handler(Teller::of(&start, true).expect(&rt, "room"))
        .exit_handler(Teller::of(&exit, true).expect(&rt, "room"))
        .build(&rt, alloc, &Ids::new())
        .expect(&rt, "a pool");
    pool.end_and_join(&rt);
    for (marks, told) in [
        (&panic, (8, 0, 0)),
        (&start, (0, 15, 0)),
        (&exit, (0, 0, 15)),
    ] {
        assert_eq!(rt; (marks.told(), marks.started(), marks.exited()), told);
    }
    Ok(())
}

// A worker runs its first job only once the start handler was told of its thread.
#[test]
fn start_is_told_before_a_job(rt: HostRuntime) -> Result<(), Fail> {
    let alloc = rt.alloc();
    let marks = Marks::new(alloc).expect(&rt, "room");
    let pool = watched_pool(&rt, alloc, 1, &marks, false, false);
    let job = Errand::new(0, &marks, Deed::End(Ok(5))).expect(&rt, "room");
    assert_eq!(rt; outcome(pool.install(&rt, alloc, job)), Ok(5));
    assert_eq!(rt; (marks.started(), marks.exited()), (1, 0));
    pool.end_and_join(&rt);
    assert_eq!(rt; (marks.started(), marks.exited()), (1, 1));
    Ok(())
}

// A thread that the system cannot start tells of nothing, and what was made for its pool is let go.
#[test]
fn thread_that_is_not_started_tells_nothing(rt: HostRuntime) -> Result<(), Fail> {
    let alloc = rt.alloc();
    let marks = Marks::new(alloc).expect(&rt, "room");
    let builder = ThreadPoolBuilder::<Errand>::new()
        .num_threads(3)
        .stack_size(usize::MAX)
        .start_handler(Teller::new(&marks).expect(&rt, "room"))
        .exit_handler(Teller::new(&marks).expect(&rt, "room"));
    match builder.build(&rt, alloc, &Ids::new()) {
        Ok(pool) => {
            pool.end(&rt);
            panic!(rt; "a pool");
        }
        Err(error) => assert!(rt; matches!(&error, ThreadPoolBuildError::IOError(_))),
    }
    assert_eq!(rt; (marks.started(), marks.exited()), (0, 0));
    assert_eq!(rt; Arc::strong_count(&marks), 1);
    Ok(())
}
