//! Tests of the latches that are set once a count is 0, and of those that are set once.
ghost use Rattle.rayon_sleep.specs.Berths.{Rests};
ghost use Rattle.std.specs.Prelude.{◌≡◌};

use crate::sleepers::{sleeps, wait_for_sleepers};
use rayon_atomics::count::CountSeat;
use rayon_latches::{CountLatch, OnceLatch, Settled};
use rayon_sleep::counters::Chair;
use rayon_sleep::latch::{OwnLatch, Owner};
use rayon_sleep::sleep::Sleep;
use rayon_words::Refusal;
use std::sync::{Arc, Wait};
use std::test::*;
use std::thread::{Threads, join};

// Makes two steps of a count: whether the first made it 0, and whether the second did.
fn two_steps<R: Wait>(rt: &R, latch: &CountLatch, mut seat: CountSeat) -> (bool, bool)
    requires { seat.table_id ≡ latch.now.count.table }
{
    let first = latch.set(rt, &mut seat).is_some();
    let second = latch.set(rt, &mut seat).is_some();
    (first, second)
}

// Makes them once a worker sleeps.
fn two_late_steps<R: Wait>(
    rt: &R,
    sleep: &Sleep,
    latch: &CountLatch,
    seat: CountSeat,
) -> (bool, bool)
    requires { seat.table_id ≡ latch.now.count.table }
{
    wait_for_sleepers(rt, sleep, 1);
    two_steps(rt, latch, seat)
}

// Worker 1 sleeps on the latch inside, and another thread makes two steps of the count.
fn sleeps_beside_steps<R: Threads + Wait + Sync>(
    rt: &R,
    sleep: &Sleep,
    chair: Chair,
    own: OwnLatch,
    latch: &CountLatch,
    seat: CountSeat,
) -> (OwnLatch, (bool, bool))
    requires chair { Rests chair }
    requires seat { seat.table_id ≡ latch.now.count.table }
{
    let ((_, own), steps) = join(
        rt,
        move || sleeps(rt, sleep, 1, chair, own),
        move || two_late_steps(rt, sleep, latch, seat),
    );
    (own, steps)
}

#[test]
fn a_count_latch_ends_at_0_for_good(rt: HostRuntime) -> Result<(), Fail> {
    let (latch, mut seat, own) = CountLatch::with_count(rt.alloc(), 1, None)?;
    assert!(rt; own.is_none() && latch.core_latch().is_none() && latch.lock_latch().is_some());
    assert_eq!(rt; latch.increment(&rt, &mut seat), Ok(()));
    assert!(rt; latch.set(&rt, &mut seat).is_none());
    assert!(rt; matches!(latch.set(&rt, &mut seat), Some(Settled::Lock)));
    assert!(rt; latch.set(&rt, &mut seat).is_none());
    assert_eq!(rt; latch.increment(&rt, &mut seat), Err(Refusal::Ended));
    let mut guest = latch.guest_seat();
    assert_eq!(rt; latch.increment(&rt, &mut guest), Err(Refusal::Ended));
    Ok(())
}

#[test]
fn a_count_latch_is_set_by_the_last_step_alone(rt: HostRuntime) -> Result<(), Fail> {
    let alloc = rt.alloc();
    let (sleep, _chairs) = Sleep::new(alloc, 1)?;
    let owner = Owner::new(Arc::new(alloc, sleep)?, 0);
    let (latch, mut seat, own) = CountLatch::with_count(alloc, 2, Some(owner))?;
    let Some(mut own) = own else {
        panic!(rt; "no latch to wait on")
    };
    assert!(rt; latch.lock_latch().is_none() && latch.core_latch().is_some());
    assert!(rt; latch.set(&rt, &mut seat).is_none());
    assert!(rt; !own.probe());
    assert!(rt; matches!(latch.set(&rt, &mut seat), Some(Settled::Core(_))));
    assert!(rt; own.probe());
    Ok(())
}

#[test]
fn a_caller_waits_until_a_count_is_0(rt: HostRuntime) -> Result<(), Fail> {
    let (latch, seat, _) = CountLatch::with_count(rt.alloc(), 2, None)?;
    let mut other = latch.guest_seat();
    let (shared, handle) = (&latch, &rt);
    let ((), steps) = join(
        &rt,
        move || shared.wait(handle, &mut other),
        move || two_steps(handle, shared, seat),
    );
    assert_eq!(rt; steps, (false, true));
    Ok(())
}

#[test]
fn a_count_of_0_is_set_from_the_start(rt: HostRuntime) -> Result<(), Fail> {
    let alloc = rt.alloc();
    let (latch, mut seat, _) = CountLatch::with_count(alloc, 0, None)?;
    latch.wait(&rt, &mut seat);
    let (sleep, _chairs) = Sleep::new(alloc, 1)?;
    let owner = Owner::new(Arc::new(alloc, sleep)?, 0);
    let (latch, mut seat, own) = CountLatch::with_count(alloc, 0, Some(owner))?;
    let Some(mut own) = own else {
        panic!(rt; "no latch to wait on")
    };
    assert!(rt; own.probe());
    assert_eq!(rt; latch.increment(&rt, &mut seat), Err(Refusal::Ended));
    Ok(())
}

#[test]
fn the_last_set_wakes_the_worker_that_sleeps(rt: HostRuntime) -> Result<(), Fail> {
    let alloc = rt.alloc();
    let (sleep, mut chairs) = Sleep::new(alloc, 2)?;
    let Some(chair) = chairs.pop() else {
        panic!(rt; "no seat")
    };
    let sleep = Arc::new(alloc, sleep)?;
    let owner = Owner::new(Arc::try_clone(&sleep)?, 1);
    let (latch, seat, own) = CountLatch::with_count(alloc, 2, Some(owner))?;
    let Some(own) = own else {
        panic!(rt; "no latch to wait on")
    };
    let (mut own, steps) = sleeps_beside_steps(&rt, &sleep, chair, own, &latch, seat);
    assert_eq!(rt; steps, (false, true));
    assert!(rt; own.probe());
    Ok(())
}

#[test]
fn a_once_latch_wakes_the_worker_that_sleeps(rt: HostRuntime) -> Result<(), Fail> {
    let (sleep, mut chairs) = Sleep::new(rt.alloc(), 2)?;
    let Some(chair) = chairs.pop() else {
        panic!(rt; "no seat")
    };
    let (latch, own) = OnceLatch::new(rt.alloc())?;
    let (shared, handle, once) = (&sleep, &rt, &latch);
    let ((_, mut own), _) = join(
        &rt,
        move || sleeps(handle, shared, 1, chair, own),
        move || {
            wait_for_sleepers(handle, shared, 1);
            once.set_and_tickle_one(handle, shared, 1)
        },
    );
    assert!(rt; own.probe());
    Ok(())
}
