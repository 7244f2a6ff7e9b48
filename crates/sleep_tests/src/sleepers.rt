//! Tests of sleep and of the latches that wake sleepers: what each call does to the counters and
//! the sleep locks, between threads too. What the calls add to a trace stands in their contracts
//! alone.
ghost use Rattle.rayon_sleep.specs.Berths.{Rests, Searches};

use rayon_drive::trace::Trace;
use rayon_sleep::counters::{Chair, Counters};
use rayon_sleep::latch::{OwnLatch, Owner, SpinLatch};
use rayon_sleep::sleep::Sleep;
use std::sync::{Arc, Wait};
use std::test::*;
use std::thread;
use std::thread::{Threads, join};

// What the counters say, as a party sees them that is no worker.
fn counted(sleep: &Sleep) -> Counters {
    let counters = sleep.counters();
    let mut seat = counters.guest_seat();
    counters.load(&mut seat)
}

// Waits until so many workers are counted as sleeping.
pub(crate) fn wait_for_sleepers<R: Wait>(rt: &R, sleep: &Sleep, sleepers: u64) {
    for _ in rt.forever() {
        if counted(sleep).sleeping_threads() == sleepers {
            break;
        }
        thread::yield_now();
    }
}

#[test]
fn ample_memory_gives_a_sleep(rt: HostRuntime) -> Result<(), Fail> {
    let (sleep, chairs) = Sleep::new(rt.alloc(), 9)?;
    assert_eq!(rt; sleep.workers(), 9);
    assert_eq!(rt; chairs.len(), 9);
    Ok(())
}

#[test]
fn news_and_announcements_raise_the_event_counter(rt: HostRuntime) -> Result<(), Fail> {
    let (sleep, mut chairs) = Sleep::new(rt.alloc(), 1)?;
    let Some(mut chair) = chairs.pop() else {
        panic!(rt; "no seat")
    };
    assert_eq!(rt; chair.news(&rt, true), 0);
    assert_eq!(rt; counted(&sleep).jec, 1);
    assert_eq!(rt; chair.announce(&rt), 2);
    assert_eq!(rt; chair.load().jec, 2);
    assert_eq!(rt; chair.news(&rt, true), 0);
    assert_eq!(rt; chair.load().jec, 3);
    assert_eq!(rt; sleep.guest_news(&rt, true), 0);
    assert_eq!(rt; chair.load().jec, 3);
    Ok(())
}

#[test]
fn a_free_lock_is_taken_and_left(rt: HostRuntime) -> Result<(), Fail> {
    let (sleep, _chairs) = Sleep::new(rt.alloc(), 2)?;
    for _ in 0..3 {
        sleep.lock(&rt, 1, true);
        sleep.lock(&rt, 0, false);
        sleep.unlock(&rt, 1);
        sleep.unlock(&rt, 0);
    }
    sleep.lock(&rt, 2, true);
    assert!(rt; !sleep.wake(&rt, 2));
    assert!(rt; !sleep.wake(&rt, 1));
    Ok(())
}

// A worker is blocked until it is woken, and then true.
fn is_blocked_and_woken<R: Wait>(rt: &R, sleep: &Sleep, worker: usize, mut chair: Chair) -> bool
    requires { Rests chair }
{
    chair.add_inactive_thread();
    sleep.lock(rt, worker, true);
    let seen = chair.load();
    if !chair.try_add_sleeping_thread(seen) || sleep.block(rt, worker, chair).is_err() {
        return false;
    }
    let is_woken = sleep.relock(rt, worker).is_some();
    sleep.unlock(rt, worker);
    is_woken
}

// A worker falls asleep by its latch, and is blocked until it is woken, and then true.
pub(crate) fn sleeps<R: Wait>(
    rt: &R,
    sleep: &Sleep,
    worker: usize,
    chair: Chair,
    mut latch: OwnLatch,
) -> (bool, OwnLatch)
    requires { Rests chair }
{
    if !latch.get_sleepy() || !latch.fall_asleep() {
        return (false, latch);
    }
    let is_woken = is_blocked_and_woken(rt, sleep, worker, chair);
    latch.wake_up();
    (is_woken, latch)
}

#[test]
fn a_worker_that_there_is_not_keeps_its_seat(rt: HostRuntime) -> Result<(), Fail> {
    let (sleep, mut chairs) = Sleep::new(rt.alloc(), 1)?;
    let Some(chair) = chairs.pop() else {
        panic!(rt; "no seat")
    };
    assert!(rt; !is_blocked_and_woken(&rt, &sleep, 1, chair));
    assert!(rt; sleep.relock(&rt, 1).is_none());
    Ok(())
}

#[test]
fn a_blocked_worker_is_woken_once(rt: HostRuntime) -> Result<(), Fail> {
    let (sleep, mut chairs) = Sleep::new(rt.alloc(), 3)?;
    let Some(chair) = chairs.pop() else {
        panic!(rt; "no seat")
    };
    let shared = &sleep;
    let handle = &rt;
    let (slept, woken) = join(
        &rt,
        move || is_blocked_and_woken(handle, shared, 1, chair),
        move || {
            wait_for_sleepers(handle, shared, 1);
            let mut trace = Trace::new();
            let other = shared.wake_specific_thread(handle, 0, &mut trace);
            let first = shared.wake_specific_thread(handle, 1, &mut trace);
            let second = shared.wake_specific_thread(handle, 1, &mut trace);
            !other && first && !second
        },
    );
    assert!(rt; slept && woken);
    assert_eq!(rt;
        counted(&sleep),
        Counters {
            sleeping: 0,
            inactive: 1,
            jec: 0
        }
    );
    Ok(())
}

// After a while, a worker is inactive and leaves a sleep lock.
fn counts_and_leaves<R: Wait>(rt: &R, sleep: &Sleep, worker: usize, mut chair: Chair)
    requires { Rests chair }
{
    for _ in 0..1000 {
        thread::yield_now();
    }
    chair.add_inactive_thread();
    sleep.unlock(rt, worker);
}

#[test]
fn a_held_lock_keeps_others_out(rt: HostRuntime) -> Result<(), Fail> {
    let (sleep, mut chairs) = Sleep::new(rt.alloc(), 1)?;
    let Some(chair) = chairs.pop() else {
        panic!(rt; "no seat")
    };
    let shared = &sleep;
    let handle = &rt;
    sleep.lock(&rt, 0, false);
    let ((), entered) = join(
        &rt,
        move || counts_and_leaves(handle, shared, 0, chair),
        move || {
            shared.lock(handle, 0, true);
            counted(shared).inactive_threads()
        },
    );
    assert_eq!(rt; entered, 1);
    Ok(())
}

#[test]
fn news_keeps_a_worker_from_sleeping(rt: HostRuntime) -> Result<(), Fail> {
    let (sleep, mut chairs) = Sleep::new(rt.alloc(), 1)?;
    let Some(mut chair) = chairs.pop() else {
        panic!(rt; "no seat")
    };
    chair.add_inactive_thread();
    let kept = chair.announce(&rt);
    let seen = chair.load();
    assert_eq!(rt; seen.jec, kept);
    assert_eq!(rt; sleep.guest_news(&rt, true), 0);
    assert!(rt; chair.load().jec != kept);
    assert!(rt; !chair.try_add_sleeping_thread(seen));
    assert_eq!(rt; counted(&sleep).sleeping_threads(), 0);
    Ok(())
}

#[test]
fn a_set_latch_keeps_its_owner_from_sleeping(rt: HostRuntime) -> Result<(), Fail> {
    let (sleep, mut chairs) = Sleep::new(rt.alloc(), 1)?;
    let Some(chair) = chairs.pop() else {
        panic!(rt; "no seat")
    };
    let (latch, own) = OwnLatch::new(rt.alloc())?;
    assert!(rt; !latch.set_as_guest().0);
    let (slept, _) = sleeps(&rt, &sleep, 0, chair, own);
    assert!(rt; !slept);
    assert_eq!(rt; counted(&sleep).sleeping_threads(), 0);
    Ok(())
}

// A worker sleeps, and another thread tells of a job and wakes it. Answers whether it was woken, and how many to wake
// the other was told.
fn wakes_by_news<R: Threads + Wait + Sync>(
    rt: &R,
    sleep: &Sleep,
    chair: Chair,
    mut other: Chair,
    was_empty: bool,
) -> (bool, u64)
    requires { Rests chair }
{
    join(
        rt,
        move || is_blocked_and_woken(rt, sleep, 1, chair),
        move || {
            wait_for_sleepers(rt, sleep, 1);
            let owed = other.news(rt, was_empty);
            sleep.wake_specific_thread(rt, 1, &mut Trace::new());
            owed
        },
    )
}

#[test]
fn a_sleeper_is_woken_by_news(rt: HostRuntime) -> Result<(), Fail> {
    for was_empty in [false, true] {
        let (sleep, mut chairs) = Sleep::new(rt.alloc(), 2)?;
        let (Some(chair), Some(other)) = (chairs.pop(), chairs.pop()) else {
            panic!(rt; "no seat")
        };
        let (woken, owed) = wakes_by_news(&rt, &sleep, chair, other, was_empty);
        assert!(rt; woken);
        assert_eq!(rt; owed, 1);
        assert_eq!(rt; counted(&sleep).sleeping_threads(), 0);
    }
    Ok(())
}

// The workers 0 and 2 sleep, each by a thread of its own, until they are woken, and then true.
fn both_sleep<R: Threads + Wait + Sync>(
    rt: &R,
    sleep: &Sleep,
    first: Chair,
    last: Chair,
) -> (bool, bool)
    requires first { Rests first }
    requires last { Rests last }
{
    join(
        rt,
        move || is_blocked_and_woken(rt, sleep, 0, first),
        move || is_blocked_and_woken(rt, sleep, 2, last),
    )
}

// A worker leaves its search once two sleep, and wakes both. Answers how many to wake it was told.
fn leaves_after_two<R: Wait>(rt: &R, sleep: &Sleep, mut chair: Chair) -> u64
    requires { Searches chair }
{
    wait_for_sleepers(rt, sleep, 2);
    let owed = chair.sub_inactive_thread();
    let mut trace = Trace::new();
    sleep.wake_specific_thread(rt, 0, &mut trace);
    sleep.wake_specific_thread(rt, 2, &mut trace);
    owed
}

// Two workers sleep, and the one between them leaves its search then.
fn leaves_beside_two<R: Threads + Wait + Sync>(
    rt: &R,
    sleep: &Sleep,
    first: Chair,
    other: Chair,
    last: Chair,
) -> ((bool, bool), u64)
    requires first { Rests first }
    requires last { Rests last }
    requires other { Searches other }
{
    join(
        rt,
        move ||
            requires { Rests first × Rests last }
        { both_sleep(rt, sleep, first, last) },
        move || leaves_after_two(rt, sleep, other),
    )
}

#[test]
fn a_worker_that_leaves_its_search_wakes_two(rt: HostRuntime) -> Result<(), Fail> {
    let (sleep, mut chairs) = Sleep::new(rt.alloc(), 3)?;
    let (Some(first), Some(mut other), Some(last)) = (chairs.pop(), chairs.pop(), chairs.pop())
    else {
        panic!(rt; "no seat")
    };
    other.add_inactive_thread();
    let (woken, owed) = leaves_beside_two(&rt, &sleep, first, other, last);
    assert!(rt; woken.0 && woken.1);
    assert_eq!(rt; owed, 2);
    let counters = counted(&sleep);
    assert_eq!(rt;
        (counters.inactive_threads(), counters.sleeping_threads()),
        (2, 0)
    );
    Ok(())
}

// Two workers sleep; one is woken, then the other. Answers how many slept between the two.
fn wakes_one_of_two<R: Threads + Wait + Sync>(
    rt: &R,
    sleep: &Sleep,
    first: Chair,
    last: Chair,
) -> u64
    requires first { Rests first }
    requires last { Rests last }
{
    let (_, left) = join(
        rt,
        move ||
            requires { Rests first × Rests last }
        { both_sleep(rt, sleep, first, last) },
        move || {
            wait_for_sleepers(rt, sleep, 2);
            let mut trace = Trace::new();
            sleep.wake_specific_thread(rt, 0, &mut trace);
            let left = counted(sleep).sleeping_threads();
            sleep.wake_specific_thread(rt, 2, &mut trace);
            left
        },
    );
    left
}

#[test]
fn one_of_two_sleepers_is_woken(rt: HostRuntime) -> Result<(), Fail> {
    let (sleep, mut chairs) = Sleep::new(rt.alloc(), 3)?;
    let (Some(first), Some(_other), Some(last)) = (chairs.pop(), chairs.pop(), chairs.pop()) else {
        panic!(rt; "no seat")
    };
    assert_eq!(rt; wakes_one_of_two(&rt, &sleep, first, last), 1);
    assert_eq!(rt; counted(&sleep).sleeping_threads(), 0);
    Ok(())
}

// Worker 1 sleeps on its latch, and another thread sets it. Answers whether it was woken, and whether the latch was
// unset before.
fn sleeps_until_set<R: Threads + Wait + Sync>(
    rt: &R,
    sleep: &Sleep,
    chair: Chair,
    latch: &SpinLatch,
    own: OwnLatch,
) -> (bool, bool)
    requires { Rests chair }
{
    let ((woken, _), unset) = join(
        rt,
        move || sleeps(rt, sleep, 1, chair, own),
        move || {
            wait_for_sleepers(rt, sleep, 1);
            let unset = !latch.probe();
            latch.set(rt);
            unset
        },
    );
    (woken, unset)
}

#[test]
fn a_set_wakes_the_owner_that_sleeps(rt: HostRuntime) -> Result<(), Fail> {
    let alloc = rt.alloc();
    let (sleep, mut chairs) = Sleep::new(alloc, 2)?;
    let Some(chair) = chairs.pop() else {
        panic!(rt; "no seat")
    };
    let sleep = Arc::new(alloc, sleep)?;
    let (latch, own) = SpinLatch::new(alloc, Owner::new(Arc::try_clone(&sleep)?, 1))?;
    assert_eq!(rt; latch.owner().worker(), 1);
    let shared: &Sleep = &sleep;
    let (woken, unset) = sleeps_until_set(&rt, shared, chair, &latch, own);
    assert!(rt; woken && unset && latch.probe());
    assert_eq!(rt; counted(&sleep).sleeping_threads(), 0);
    Ok(())
}
