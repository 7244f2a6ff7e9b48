//! The tests.
use crate::errand::{Errand, Marks, Teller};
use rayon_core::{
    Configuration, CustomSpawn, Ids, ThreadBuilder, ThreadPool, ThreadPoolBuildError,
    ThreadPoolBuilder, ThreadSpawn,
};
use std::alloc::Global;
use std::io::{Error, ErrorKind};
use std::process::Abort;
use std::sync::{Arc, Mutex, Wait};
use std::test::Fail;
use std::thread::{JoinHandle, Threads};
use std::{io, mem};

// The handles of threads that a spawn handler has started.
type Handles = Arc<Mutex<Vec<JoinHandle<()>>>>;

// No handle yet.
fn no_handles<R: Abort>(rt: &R, alloc: Global) -> Handles {
    Arc::new(alloc, Mutex::new(Vec::new(alloc))).expect(rt, "room")
}

// Starts the worker's thread, and keeps its handle.
fn start<R: Threads + Wait + Copy + Send + 'static>(
    rt: &R,
    alloc: Global,
    handles: &Handles,
    thread: ThreadBuilder<Errand>,
) -> io::Result<()> {
    let handle = thread.start(rt, alloc)?;
    handles.lock(rt).push(handle)?;
    Ok(())
}

// Joins the threads that were started, and answers how many they are.
fn join_all<R: Threads + Wait>(rt: &R, alloc: Global, handles: &Handles) -> usize {
    let started = mem::replace(&mut *handles.lock(rt), Vec::new(alloc));
    let count = started.len();
    for handle in started {
        handle.join(rt);
    }
    count
}

// A pool whose threads a spawn handler starts runs its jobs. Once it has ended the threads can be joined.
#[test]
fn jobs_run_on_threads_of_a_handler(rt: HostRuntime) -> Result<(), Fail> {
    let alloc = rt.alloc();
    let marks = Marks::new(alloc).expect(&rt, "room");
    let handles = no_handles(&rt, alloc);
    let theirs = Arc::try_clone(&handles).expect(&rt, "room");
    let builder = ThreadPoolBuilder::<Errand>::new()
        .start_handler(Teller::new(&marks).expect(&rt, "room"))
        .spawn_handler(move |thread: ThreadBuilder<Errand>| start(&rt, alloc, &theirs, thread))
        .exit_handler(Teller::new(&marks).expect(&rt, "room"))
        .num_threads(4);
    let pool = builder.build(&rt, alloc, &Ids::new()).expect(&rt, "a pool");
    assert_eq!(rt; pool.current_num_threads(), 4);
    for digit in [2, 4, 6] {
        let job = Errand::new(digit, &marks).expect(&rt, "room");
        assert_eq!(rt; pool.install(&rt, alloc, job).ok(), Some(digit));
    }
    pool.end_and_join(&rt);
    assert_eq!(rt; join_all(&rt, alloc, &handles), 4);
    assert_eq!(rt;
        (marks.started(), marks.exited(), marks.runs()),
        (15, 15, 3)
    );
    Ok(())
}

// What a spawn handler was told: the sum of 10^i over each worker of index i, how many threads had the name that was
// given for their index, how many had none, and how many were to have a stack of 2^18 bytes.
#[derive(Clone, Copy, Debug, PartialEq, Eq)]
struct Told {
    indices: u64,
    named: u64,
    nameless: u64,
    small: u64,
}

// Adds what this thread says to what was told.
fn tell<R: Wait>(
    rt: &R,
    alloc: Global,
    told: &Mutex<Told>,
    thread: &ThreadBuilder<Errand>,
) -> io::Result<()> {
    let place = thread.index();
    let name = format!(in alloc; "worker {place}")?;
    let digit = [1, 10, 100].get(place).copied().unwrap_or(1_000);
    let small = thread.stack_size() == Some(262_144);
    let mut told = told.lock(rt);
    told.indices = told.indices.saturating_add(digit);
    told.small = told.small.saturating_add(u64::from(small));
    match thread.name() {
        Some(given) => {
            let same = given == name.as_str();
            told.named = told.named.saturating_add(u64::from(same));
        }
        None => told.nameless = told.nameless.saturating_add(1),
    }
    Ok(())
}

// Nothing was told yet.
const NOTHING: Told = Told {
    indices: 0,
    named: 0,
    nameless: 0,
    small: 0,
};

// A spawn handler is told each worker's index once, and of no name and no stack where none was asked for.
#[test]
fn thread_builders_say_nothing_that_was_not_set(rt: HostRuntime) -> Result<(), Fail> {
    let alloc = rt.alloc();
    let told = Arc::new(alloc, Mutex::new(NOTHING)).expect(&rt, "room");
    let theirs = Arc::try_clone(&told).expect(&rt, "room");
    let handles = no_handles(&rt, alloc);
    let kept = Arc::try_clone(&handles).expect(&rt, "room");
    let builder = ThreadPoolBuilder::<Errand>::new()
        .num_threads(3)
        .spawn_handler(move |thread: ThreadBuilder<Errand>| {
            tell(&rt, alloc, &theirs, &thread)?;
            start(&rt, alloc, &kept, thread)
        });
    let pool = builder.build(&rt, alloc, &Ids::new()).expect(&rt, "a pool");
    pool.end(&rt);
    assert_eq!(rt; join_all(&rt, alloc, &handles), 3);
    let expected = Told {
        indices: 111,
        named: 0,
        nameless: 3,
        small: 0,
    };
    assert_eq!(rt; *told.lock(&rt), expected);
    Ok(())
}

// A pool of three workers with names and small stacks, whose threads this handler starts.
fn named_pool<F, R: Threads + Wait + Copy + Send + 'static>(
    rt: &R,
    alloc: Global,
    spawn: F,
) -> Result<ThreadPool<Errand>, ThreadPoolBuildError>
where
    F: Drop,
    CustomSpawn<F>: ThreadSpawn<ThreadBuilder<Errand>>,
    requires { bound-4.can_spawn spawn }
{
    ThreadPoolBuilder::<Errand>::new()
        .num_threads(3)
        .stack_size(262_144)
        .thread_name(move |index| format!(in alloc; "worker {index}"))
        .spawn_handler(spawn)
        .build(rt, alloc, &Ids::new())
}

// It is told the name that was given for each worker's index, and the stack that was asked for.
#[test]
fn thread_builders_say_what_was_set(rt: HostRuntime) -> Result<(), Fail> {
    let alloc = rt.alloc();
    let told = Arc::new(alloc, Mutex::new(NOTHING)).expect(&rt, "room");
    let theirs = Arc::try_clone(&told).expect(&rt, "room");
    let handles = no_handles(&rt, alloc);
    let kept = Arc::try_clone(&handles).expect(&rt, "room");
    let pool = named_pool(&rt, alloc, move |thread: ThreadBuilder<Errand>| {
        tell(&rt, alloc, &theirs, &thread)?;
        start(&rt, alloc, &kept, thread)
    });
    pool.expect(&rt, "a pool").end(&rt);
    assert_eq!(rt; join_all(&rt, alloc, &handles), 3);
    let expected = Told {
        indices: 111,
        named: 3,
        nameless: 0,
        small: 3,
    };
    assert_eq!(rt; *told.lock(&rt), expected);
    Ok(())
}

// Where the spawn handler fails at each index of ten in turn there is no pool, and the answer is its error. The threads
// that it had started before tell of their beginning and of their end, and can be joined.
#[test]
fn a_failed_start_ends_what_was_started(rt: HostRuntime) -> Result<(), Fail> {
    let alloc = rt.alloc();
    for last in 0..10_usize {
        let marks = Marks::new(alloc).expect(&rt, "room");
        let handles = no_handles(&rt, alloc);
        let theirs = Arc::try_clone(&handles).expect(&rt, "room");
        let builder = ThreadPoolBuilder::<Errand>::new()
            .num_threads(10)
            .start_handler(Teller::new(&marks).expect(&rt, "room"))
            .exit_handler(Teller::new(&marks).expect(&rt, "room"))
            .spawn_handler(move |thread: ThreadBuilder<Errand>| {
                if thread.index() == last {
                    return Err(Error::new(ErrorKind::AddrInUse, "no thread more"));
                }
                start(&rt, alloc, &theirs, thread)
            });
        match builder.build(&rt, alloc, &Ids::new()) {
            Ok(pool) => {
                pool.end(&rt);
                panic!(rt; "a pool");
            }
            Err(ThreadPoolBuildError::IOError(error)) => {
                assert_eq!(rt; error.kind(), ErrorKind::AddrInUse);
            }
            Err(_) => panic!(rt; "another cause"),
        }
        assert_eq!(rt; join_all(&rt, alloc, &handles), last);
        let marked = (1_u64 << last).saturating_sub(1);
        assert_eq!(rt; (marks.started(), marks.exited()), (marked, marked));
    }
    Ok(())
}

// Where the second of three names has a NUL byte there is no pool, and the one thread that was started has ended.
#[test]
fn a_name_with_a_nul_byte_is_refused(rt: HostRuntime) -> Result<(), Fail> {
    let alloc = rt.alloc();
    let marks = Marks::new(alloc).expect(&rt, "room");
    let builder = ThreadPoolBuilder::<Errand>::new()
        .num_threads(3)
        .start_handler(Teller::new(&marks).expect(&rt, "room"))
        .exit_handler(Teller::new(&marks).expect(&rt, "room"))
        .thread_name(move |index| {
            let end = if index == 1 { "\0" } else { "" };
            format!(in alloc; "worker {index}{end}")
        });
    match builder.build(&rt, alloc, &Ids::new()) {
        Ok(pool) => {
            pool.end(&rt);
            panic!(rt; "a pool");
        }
        Err(ThreadPoolBuildError::IOError(error)) => {
            assert_eq!(rt; error.kind(), ErrorKind::InvalidInput);
        }
        Err(_) => panic!(rt; "another cause"),
    }
    assert_eq!(rt; (marks.started(), marks.exited()), (1, 1));
    Ok(())
}

// A builder's older name makes the same pools.
#[test]
fn configurations_make_pools(rt: HostRuntime) -> Result<(), Fail> {
    let alloc = rt.alloc();
    let marks = Marks::new(alloc).expect(&rt, "room");
    let ids = Ids::new();
    let configuration = Configuration::<Errand>::new()
        .num_threads(3)
        .stack_size(2_000_000)
        .breadth_first()
        .panic_handler(Teller::new(&marks).expect(&rt, "room"))
        .start_handler(Teller::new(&marks).expect(&rt, "room"))
        .exit_handler(Teller::new(&marks).expect(&rt, "room"))
        .thread_name(move |index| format!(in alloc; "worker {index}"));
    let pool = ThreadPool::new(&rt, alloc, configuration, &ids).expect(&rt, "a pool");
    let job = Errand::new(7, &marks).expect(&rt, "room");
    assert!(rt; pool.spawn(&rt, alloc, job).is_ok(), "room");
    pool.end_and_join(&rt);
    assert_eq!(rt; (marks.started(), marks.exited()), (7, 7));
    assert_eq!(rt; (marks.told(), marks.runs()), (1, 1));
    let pool = Configuration::<Errand>::new().build(&rt, alloc, &ids);
    let pool = pool.expect(&rt, "a pool");
    assert_eq!(rt; pool.current_num_threads(), 1);
    pool.end_and_join(&rt);
    Ok(())
}
