//! The tests of what a pool's threads are called.
use crate::errand::{Deed, Errand, Marks, Teller, outcomes};
use rayon_core::{Ids, ThreadPoolBuildError, ThreadPoolBuilder};
use std::alloc::AllocError;
use std::process::Abort;
use std::sync::{Arc, Barrier};
use std::test::Fail;
use std::{fs, io};

// A builder of a pool of so many workers, whose threads leave their marks here.
fn marking<R: Abort>(rt: &R, workers: usize, marks: &Arc<Marks>) -> ThreadPoolBuilder<Errand> {
    ThreadPoolBuilder::new()
        .num_threads(workers)
        .start_handler(Teller::new(marks).expect(rt, "room"))
        .exit_handler(Teller::new(marks).expect(rt, "room"))
}

// Where the sixth of ten names finds no memory there is no pool, and the five threads that were started have ended.
#[test]
fn name_without_memory_ends_what_was_started(rt: HostRuntime) -> Result<(), Fail> {
    let alloc = rt.alloc();
    let marks = Marks::new(alloc).expect(&rt, "room");
    let builder = marking(&rt, 10, &marks).thread_name(move |index| {
        if index == 5 {
            return Err(AllocError);
        }
        format!(in alloc; "worker {index}")
    });
    match builder.build(&rt, alloc, &Ids::new()) {
        Ok(pool) => {
            pool.end(&rt);
            panic!(rt; "a pool");
        }
        Err(error) => assert!(rt; matches!(&error, ThreadPoolBuildError::NoRoom)),
    }
    assert_eq!(rt; (marks.started(), marks.exited()), (31, 31));
    Ok(())
}

// A source whose last number was drawn makes no pool, and no thread was started for it.
#[test]
fn spent_numbers_start_no_thread(rt: HostRuntime) -> Result<(), Fail> {
    let alloc = rt.alloc();
    let marks = Marks::new(alloc).expect(&rt, "room");
    match marking(&rt, 3, &marks).build(&rt, alloc, &Ids::spent()) {
        Ok(pool) => {
            pool.end_and_join(&rt);
            panic!(rt; "a pool without a number");
        }
        Err(error) => assert!(rt; matches!(&error, ThreadPoolBuildError::NoIds)),
    }
    assert_eq!(rt; (marks.started(), marks.exited()), (0, 0));
    Ok(())
}

// Whether a thread of this process has this name.
fn has_thread(rt: &HostRuntime, name: &str) -> io::Result<bool> {
    let mut found = false;
    for thread in fs::read_dir(rt, "/proc/self/task")? {
        let thread = thread?;
        let file = format!(in rt.alloc(); "{}/comm", thread.path().display())?;
        found = found || fs::read_to_string(rt, file.as_str())?.trim_end() == name;
    }
    Ok(found)
}

// The threads of two workers have their names, of which the system keeps fifteen bytes, while both of them run.
#[test]
fn threads_have_their_names(rt: HostRuntime) -> Result<(), Fail> {
    let alloc = rt.alloc();
    let marks = Marks::new(alloc).expect(&rt, "room");
    let builder = ThreadPoolBuilder::<Errand>::new()
        .num_threads(2)
        .thread_name(move |index| format!(in alloc; "{index} is a long name"));
    let pool = builder.build(&rt, alloc, &Ids::new()).expect(&rt, "a pool");
    let gate = Arc::new(alloc, Barrier::new(2)).expect(&rt, "room");
    let again = Arc::try_clone(&gate).expect(&rt, "room");
    let one = Errand::new(1, &marks, Deed::Meet(gate)).expect(&rt, "room");
    let two = Errand::new(2, &marks, Deed::Meet(again)).expect(&rt, "room");
    let met = outcomes(pool.join(&rt, alloc, one, two));
    let first = has_thread(&rt, "0 is a long nam").expect(&rt, "names");
    let second = has_thread(&rt, "1 is a long nam").expect(&rt, "names");
    let third = has_thread(&rt, "2 is a long nam").expect(&rt, "names");
    pool.end_and_join(&rt);
    assert!(rt; met.is_ok());
    assert_eq!(rt; (first, second, third), (true, true, false));
    Ok(())
}
