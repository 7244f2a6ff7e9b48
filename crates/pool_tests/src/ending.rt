//! The test of a pool's end under calls from other threads, at whatever moment it comes.
use crate::errand::{Deed, Errand, Marks, Trouble, outcome, outcomes};
use crate::tests::pool_of;
use rayon_core::{PoolRef, Refusal};
use std::alloc::Global;
use std::process::Abort;
use std::sync::{Arc, Wait};
use std::test::Fail;
use std::thread;
use std::thread::{JoinHandle, Threads};

// How many turns a thread takes at most in one round: while calls overlap the pool cannot end, and they may always do.
const TURNS: u64 = 30;

// Installs a job and joins two, in turn, until the pool has ended, and answers how many runs its calls were answered
// of. Each answer is the calls' own, or that the pool has ended, with the very jobs back.
fn call_until_ended<R: Wait + Abort>(
    rt: &R,
    alloc: Global,
    pool: &PoolRef<Errand>,
    marks: &Arc<Marks>,
    number: u64,
) -> u64 {
    let says = |name| Errand::new(name, marks, Deed::End(Ok(number))).expect(rt, "room");
    let mut answered = 0_u64;
    for _ in 0..TURNS {
        match outcome(pool.install(rt, alloc, says(7))) {
            Ok(answer) => assert_eq!(rt; answer, number),
            Err(trouble) => {
                assert_eq!(rt; trouble, Trouble::Refused(Refusal::Ended, 7));
                return answered;
            }
        }
        answered = answered.saturating_add(1);
        match outcomes(pool.join(rt, alloc, says(8), says(9))) {
            Ok(answers) => assert_eq!(rt; answers, (number, number)),
            Err(trouble) => {
                assert_eq!(rt; trouble, Trouble::BothRefused(Refusal::Ended, 8, 9));
                return answered;
            }
        }
        answered = answered.saturating_add(2);
    }
    answered
}

// Starts a thread that calls until the pool has ended.
fn caller<R: Threads + Wait + Abort + Copy + Send + 'static>(
    rt: &R,
    alloc: Global,
    pool: PoolRef<Errand>,
    marks: &Arc<Marks>,
    number: u64,
) -> JoinHandle<u64> {
    let (theirs, marks) = (*rt, Arc::try_clone(marks).expect(rt, "room"));
    thread::Builder::new()
        .spawn(rt, move || {
            call_until_ended(&theirs, alloc, &pool, &marks, number)
        })
        .expect(rt, "a thread")
}

// Waits until so many runs have begun.
fn wait_for_runs<R: Wait>(rt: &R, marks: &Marks, runs: u64) {
    for _ in rt.forever() {
        if marks.runs() >= runs {
            break;
        }
        thread::yield_now();
    }
}

// Three threads call through a reference of their own while a pool of so many workers is ended, after so many runs have
// begun: each caller is answered, and no job runs whose call was refused. A call after the end is refused, at once
// where the threads are joined, and else once the three are answered.
fn end_in_a_storm<R: Threads + Wait + Abort + Copy + Send + 'static>(
    rt: &R,
    alloc: Global,
    workers: usize,
    runs: u64,
    joins: bool,
) {
    let marks = Marks::new(alloc).expect(rt, "room");
    let pool = pool_of(rt, alloc, workers);
    let share = || pool.pool_ref().expect(rt, "room");
    let late = share();
    let red = caller(rt, alloc, share(), &marks, 1);
    let green = caller(rt, alloc, share(), &marks, 2);
    let blue = caller(rt, alloc, share(), &marks, 3);
    wait_for_runs(rt, &marks, runs);
    if joins {
        pool.end_and_join(rt);
    } else {
        pool.end(rt);
    }
    let mine = call_until_ended(rt, alloc, &late, &marks, 4);
    assert!(rt; !joins || mine == 0, "{workers} workers, {runs} runs");
    let both = red.join(rt).saturating_add(green.join(rt));
    let answered = both.saturating_add(blue.join(rt)).saturating_add(mine);
    assert_eq!(rt; call_until_ended(rt, alloc, &late, &marks, 5), 0);
    assert_eq!(rt; marks.runs(), answered, "{workers} workers, {runs} runs");
}

#[test]
fn pools_end_in_a_storm_of_calls(rt: HostRuntime) -> Result<(), Fail> {
    let alloc = rt.alloc();
    for workers in [1, 2, 4] {
        for runs in 0..20 {
            end_in_a_storm(&rt, alloc, workers, runs, true);
            end_in_a_storm(&rt, alloc, workers, runs, false);
        }
    }
    Ok(())
}
