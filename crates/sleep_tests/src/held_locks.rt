//! Tests of the lock that is held from act to act: who holds it has its value, and who waits for it goes on once it is
//! left.
use rayon_locks::HeldLock;
use std::sync::Wait;
use std::sync::atomic::{AtomicU64, Ordering};
use std::test::*;
use std::thread;
use std::thread::{Threads, join};

// How often each thread of a test adds one in each way.
const TURNS: u64 = 500;

#[test]
fn a_value_is_given_and_put_back(rt: HostRuntime) -> Result<(), Fail> {
    let lock = HeldLock::new(1);
    assert_eq!(rt; lock.hold(&rt), 1);
    assert_eq!(rt; lock.leave(&rt, 2), Ok(()));
    assert_eq!(rt; lock.leave(&rt, 3), Err(3));
    assert_eq!(rt; lock.hold(&rt), 2);
    assert_eq!(rt; lock.leave(&rt, 4), Ok(()));
    Ok(())
}

// Adds one to the value, in one step. The value that it found.
fn adds_in_a_step<R: Wait>(rt: &R, lock: &HeldLock<u64>) -> u64 {
    lock.with(rt, |value| {
        let found = *value;
        *value = found.wrapping_add(1);
        found
    })
}

#[test]
fn a_step_is_done_to_the_value(rt: HostRuntime) -> Result<(), Fail> {
    let lock = HeldLock::new(5);
    assert_eq!(rt; adds_in_a_step(&rt, &lock), 5);
    assert_eq!(rt; adds_in_a_step(&rt, &lock), 6);
    assert_eq!(rt; lock.leave(&rt, 9), Err(9));
    assert_eq!(rt; lock.hold(&rt), 7);
    Ok(())
}

// Waits until this many have said that they are about to wait, and gives them time to do so.
fn wait_for_waiters<R: Wait>(rt: &R, waiters: &AtomicU64, count: u64) {
    for _ in rt.forever() {
        if waiters.load(Ordering::SeqCst) == count {
            break;
        }
        thread::yield_now();
    }
    for _ in 0..2000 {
        thread::yield_now();
    }
}

// Says that it is about to wait, holds the lock, and leaves it with one more. The value that it found.
fn waits_and_adds<R: Wait>(rt: &R, lock: &HeldLock<u64>, waiters: &AtomicU64) -> u64 {
    waiters.fetch_add(1, Ordering::SeqCst);
    let found = lock.hold(rt);
    if lock.leave(rt, found.wrapping_add(1)).is_err() {
        return 0;
    }
    found
}

// Says that it is about to wait, and adds one in one step. The value that it found.
fn waits_and_steps<R: Wait>(rt: &R, lock: &HeldLock<u64>, waiters: &AtomicU64) -> u64 {
    waiters.fetch_add(1, Ordering::SeqCst);
    adds_in_a_step(rt, lock)
}

// Two threads wait for a lock that is held, one to hold it and one for a step, until it is left with this value. What
// they found.
fn two_wait<R: Threads + Wait + Sync>(rt: &R, lock: &HeldLock<u64>, value: u64) -> (u64, u64) {
    let waiters = AtomicU64::new(0);
    let waiters = &waiters;
    let (_, found) = join(
        rt,
        move || {
            wait_for_waiters(rt, waiters, 2);
            lock.leave(rt, value).is_ok()
        },
        move || {
            join(
                rt,
                move || waits_and_adds(rt, lock, waiters),
                move || waits_and_steps(rt, lock, waiters),
            )
        },
    );
    found
}

#[test]
fn each_that_waits_goes_on_once_it_is_left(rt: HostRuntime) -> Result<(), Fail> {
    for round in 0..20 {
        let lock = HeldLock::new(round);
        assert_eq!(rt; lock.hold(&rt), round);
        let value = round + 10;
        let (first, second) = two_wait(&rt, &lock, value);
        assert!(rt; first.min(second) == value && first.max(second) == value + 1);
        assert_eq!(rt; lock.hold(&rt), value + 2);
    }
    Ok(())
}

// Holds the lock so often, adds one each time, and leaves it after other threads ran; and adds one in a step each time.
// How often it was left in vain.
fn adds<R: Wait>(rt: &R, lock: &HeldLock<u64>) -> u64 {
    let mut failed: u64 = 0;
    for _ in 0..TURNS {
        let count = lock.hold(rt);
        thread::yield_now();
        if lock.leave(rt, count.wrapping_add(1)).is_err() {
            failed = failed.saturating_add(1);
        }
        adds_in_a_step(rt, lock);
    }
    failed
}

// Two threads do so side by side.
fn two_add<R: Threads + Wait + Sync>(rt: &R, lock: &HeldLock<u64>) -> bool {
    join(rt, move || adds(rt, lock), move || adds(rt, lock)) == (0, 0)
}

#[test]
fn four_threads_hold_it_one_after_the_other(rt: HostRuntime) -> Result<(), Fail> {
    let lock = HeldLock::new(0);
    let (lock, rt) = (&lock, &rt);
    let done = join(rt, move || two_add(rt, lock), move || two_add(rt, lock));
    assert!(rt; done.0 && done.1);
    assert_eq!(rt; lock.hold(rt), 8 * TURNS);
    Ok(())
}
