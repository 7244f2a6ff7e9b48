//! The tests.
use crate::errand::{Deed, Errand, outcome};
use crate::pools::{Left, ended, pool_of, pool_with};
use crate::tally::{Tally, Trouble};
use rayon_core::{JobKind, PoolRef, Refusal};
use std::alloc::Global;
use std::process::Abort;
use std::sync::{Arc, Barrier, Wait};
use std::test::Fail;
use std::thread;
use std::thread::{JoinHandle, Threads};
use std::time::{Clock, Duration};

// A gate for so many workers and one more thread, and a share of it.
fn gate_of<R: Abort>(rt: &R, alloc: Global, workers: usize) -> (Arc<Barrier>, Arc<Barrier>) {
    let gate = Barrier::new(workers.saturating_add(1));
    let gate = Arc::new(alloc, gate).expect(rt, "room");
    let share = Arc::try_clone(&gate).expect(rt, "room");
    (gate, share)
}

// Broadcasts a job from outside whose pieces do this.
fn broadcast<R: Wait + Abort>(
    rt: &R,
    alloc: Global,
    pool: &PoolRef<Errand>,
    tally: &Arc<Tally>,
    deed: Deed,
) {
    let job = Errand::new(7, tally, deed).expect(rt, "room");
    assert!(rt; pool.spawn_broadcast(rt, alloc, job).is_ok(), "room");
}

// Broadcasts so many jobs from outside whose pieces do what the closure says.
fn broadcast_often<R: Wait + Abort, F: Fn() -> Deed>(
    rt: &R,
    alloc: Global,
    pool: &PoolRef<Errand>,
    tally: &Arc<Tally>,
    times: u64,
    deed: F,
)
    requires { F.IsAlwaysCallable deed }
{
    for _ in 0..times {
        broadcast(rt, alloc, pool, tally, deed());
    }
}

// A thread that broadcasts so many jobs from outside whose pieces count.
fn broadcaster<R: Threads + Wait + Abort + Copy + Send + 'static>(
    rt: &R,
    alloc: Global,
    pool: &PoolRef<Errand>,
    tally: &Arc<Tally>,
    times: u64,
) -> JoinHandle<()> {
    let (theirs, pool) = (*rt, pool.pool_ref().expect(rt, "room"));
    let tally = Arc::try_clone(tally).expect(rt, "room");
    thread::Builder::new()
        .spawn(rt, move || {
            broadcast_often(&theirs, alloc, &pool, &tally, times, || Deed::Count);
        })
        .expect(rt, "a thread")
}

// Broadcasts so many jobs from outside, the pieces of each of which meet at a gate of its own.
fn broadcast_meetings<R: Wait + Abort>(
    rt: &R,
    alloc: Global,
    pool: &PoolRef<Errand>,
    tally: &Arc<Tally>,
    times: u64,
) {
    for _ in 0..times {
        let gate = Arc::new(alloc, Barrier::new(pool.current_num_threads())).expect(rt, "room");
        broadcast(rt, alloc, pool, tally, Deed::Meet(gate));
    }
}

// A thread that does so.
fn convener<R: Threads + Wait + Abort + Copy + Send + 'static>(
    rt: &R,
    alloc: Global,
    pool: &PoolRef<Errand>,
    tally: &Arc<Tally>,
    times: u64,
) -> JoinHandle<()> {
    let (theirs, pool) = (*rt, pool.pool_ref().expect(rt, "room"));
    let tally = Arc::try_clone(tally).expect(rt, "room");
    thread::Builder::new()
        .spawn(rt, move || {
            broadcast_meetings(&theirs, alloc, &pool, &tally, times);
        })
        .expect(rt, "a thread")
}

// Of a broadcast from outside each worker has run the piece that was told its index, and the number of workers, once
// the pool has ended. The job was let go.
#[test]
fn each_worker_runs_its_piece(rt: HostRuntime) -> Result<(), Fail> {
    let alloc = rt.alloc();
    for workers in [1, 2, 4] {
        let (pool, tally) = pool_of(&rt, alloc, workers);
        broadcast(&rt, alloc, &pool, &tally, Deed::Count);
        assert_eq!(rt; ended(&rt, pool, &tally), Left::each(1));
    }
    Ok(())
}

// So it is where a worker broadcasts, whose job was installed or spawned, which runs a piece too.
#[test]
fn workers_broadcast(rt: HostRuntime) -> Result<(), Fail> {
    let alloc = rt.alloc();
    for workers in [1, 2, 4] {
        let (pool, tally) = pool_of(&rt, alloc, workers);
        let installed = Errand::new(3, &tally, Deed::Count).expect(&rt, "room");
        let spawned = Errand::new(4, &tally, Deed::Count).expect(&rt, "room");
        assert_eq!(rt; outcome(pool.install(&rt, alloc, installed)), Ok(3));
        assert!(rt; pool.spawn(&rt, alloc, spawned).is_ok(), "room");
        assert_eq!(rt; ended(&rt, pool, &tally), Left::each(2));
    }
    Ok(())
}

// Three threads broadcast at a time. Of the 20 broadcasts of one of them the piece of index 0 broadcasts again, and so
// on, so that each makes seven.
#[test]
fn threads_and_a_worker_broadcast(rt: HostRuntime) -> Result<(), Fail> {
    let alloc = rt.alloc();
    for workers in [1, 2, 4] {
        let (pool, tally) = pool_of(&rt, alloc, workers);
        let red = broadcaster(&rt, alloc, &pool, &tally, 100);
        let blue = broadcaster(&rt, alloc, &pool, &tally, 100);
        broadcast_often(&rt, alloc, &pool, &tally, 20, || Deed::Again(1, 6));
        red.join(&rt);
        blue.join(&rt);
        assert_eq!(rt; ended(&rt, pool, &tally), Left::each(340));
    }
    Ok(())
}

// Of ten broadcasts each piece broadcasts again, and so does each piece of those: of n workers each runs 1 + n + n * n
// pieces for each of the ten.
#[test]
fn each_piece_broadcasts(rt: HostRuntime) -> Result<(), Fail> {
    let alloc = rt.alloc();
    for (workers, pieces) in [(1, 30), (2, 70), (4, 210)] {
        let (pool, tally) = pool_of(&rt, alloc, workers);
        broadcast_often(&rt, alloc, &pool, &tally, 10, || Deed::Again(workers, 2));
        assert_eq!(rt; ended(&rt, pool, &tally), Left::each(pieces));
    }
    Ok(())
}

// So many times: the pieces of a broadcast from outside meet at a gate, with this thread, and so do those of one by a
// worker, whose run is over before its own piece begins.
fn meet_often<R: Wait + Abort>(
    rt: &R,
    alloc: Global,
    pool: &PoolRef<Errand>,
    tally: &Arc<Tally>,
    times: u64,
) {
    for _ in 0..times {
        let (gate, theirs) = gate_of(rt, alloc, pool.current_num_threads());
        broadcast(rt, alloc, pool, tally, Deed::Meet(theirs));
        gate.wait(rt);
        let (gate, theirs) = gate_of(rt, alloc, pool.current_num_threads());
        let job = Errand::new(5, tally, Deed::Meet(theirs)).expect(rt, "room");
        assert_eq!(rt; outcome(pool.install(rt, alloc, job)), Ok(5));
        gate.wait(rt);
    }
}

// The pieces of a broadcast meet, and the thread that waits for all of them: no worker runs two.
#[test]
fn pieces_meet(rt: HostRuntime) -> Result<(), Fail> {
    let alloc = rt.alloc();
    for workers in [1, 2, 4] {
        let (pool, tally) = pool_of(&rt, alloc, workers);
        meet_often(&rt, alloc, &pool, &tally, 20);
        assert_eq!(rt; ended(&rt, pool, &tally), Left::each(40));
    }
    Ok(())
}

// All workers run the pieces of several broadcasts in one order: those of each meet at a gate of its own, while three
// threads broadcast.
#[test]
fn broadcasts_have_one_order(rt: HostRuntime) -> Result<(), Fail> {
    let alloc = rt.alloc();
    for workers in [2, 4] {
        let (pool, tally) = pool_of(&rt, alloc, workers);
        let red = convener(&rt, alloc, &pool, &tally, 100);
        let blue = convener(&rt, alloc, &pool, &tally, 100);
        broadcast_meetings(&rt, alloc, &pool, &tally, 100);
        red.join(&rt);
        blue.join(&rt);
        assert_eq!(rt; ended(&rt, pool, &tally), Left::each(300));
    }
    Ok(())
}

// The pieces of even indexes fault: a handler is told each of these faults, and the pool keeps none.
#[test]
fn faults_of_pieces_are_told(rt: HostRuntime) -> Result<(), Fail> {
    let alloc = rt.alloc();
    for workers in [1, 2, 4, 7] {
        let tally = Tally::new(alloc, workers).expect(&rt, "room");
        let pool = pool_with(&rt, alloc, workers, Some(&tally));
        broadcast_often(&rt, alloc, &pool, &tally, 10, || Deed::Fault);
        let left = ended(&rt, pool, &tally);
        assert_eq!(rt; (left.pieces, left.faults), ((10, 10, 0), 0));
        assert!(rt; tally.told_of_even(10));
    }
    Ok(())
}

// Where there is no handler the pool keeps one of these faults, and how many there were.
#[test]
fn faults_of_pieces_are_kept(rt: HostRuntime) -> Result<(), Fail> {
    let alloc = rt.alloc();
    for (workers, faults) in [(1, 10), (2, 10), (4, 20), (7, 40)] {
        let (pool, tally) = pool_of(&rt, alloc, workers);
        broadcast_often(&rt, alloc, &pool, &tally, 10, || Deed::Fault);
        let shared = pool.pool_ref().expect(&rt, "room");
        pool.end_and_join(&rt);
        let (first, count) = shared.take_fault(&rt);
        assert!(rt;
            matches!(first, Some(Trouble::Piece(0 | 2 | 4 | 6))),
            "{first:?}"
        );
        assert_eq!(rt; (count, tally.pieces()), (faults, (10, 10, 0)));
        assert_eq!(rt; shared.take_fault(&rt), (None, 0));
    }
    Ok(())
}

// A pool that is ended right after a hundred broadcasts has run all their pieces.
#[test]
fn the_end_waits_for_pieces(rt: HostRuntime) -> Result<(), Fail> {
    let alloc = rt.alloc();
    for workers in [1, 2, 4, 16] {
        let (pool, tally) = pool_of(&rt, alloc, workers);
        broadcast_often(&rt, alloc, &pool, &tally, 100, || Deed::Count);
        assert_eq!(rt; ended(&rt, pool, &tally), Left::each(100));
    }
    Ok(())
}

// A pool that has ended refuses a broadcast: the very job comes back, and no piece of it runs.
#[test]
fn an_ended_pool_hands_the_job_back(rt: HostRuntime) -> Result<(), Fail> {
    let alloc = rt.alloc();
    for workers in [1, 2, 4] {
        let (pool, tally) = pool_of(&rt, alloc, workers);
        let late = pool.pool_ref().expect(&rt, "room");
        broadcast(&rt, alloc, &pool, &tally, Deed::Count);
        pool.end_and_join(&rt);
        let job = Errand::new(9, &tally, Deed::Count).expect(&rt, "room");
        let back = match late.spawn_broadcast(&rt, alloc, job) {
            Err((refusal, job)) => Some((refusal, job.tag())),
            Ok(()) => None,
        };
        assert_eq!(rt; back, Some((Refusal::Ended, 9)));
        assert_eq!(rt; tally.pieces(), (1, 1, 0));
        assert_eq!(rt; Arc::strong_count(&tally), 1);
    }
    Ok(())
}

// Two trees of 4,095 joins each have the right sums, and each worker runs its piece of each broadcast: of the 128 by
// each tree's jobs, and of the 100 by another thread.
#[test]
fn broadcasts_beside_joins(rt: HostRuntime) -> Result<(), Fail> {
    let alloc = rt.alloc();
    for workers in [1, 2, 4] {
        let (pool, tally) = pool_of(&rt, alloc, workers);
        let red = broadcaster(&rt, alloc, &pool, &tally, 100);
        let one = Errand::new(1, &tally, Deed::Tree(12)).expect(&rt, "room");
        let two = Errand::new(2, &tally, Deed::Tree(12)).expect(&rt, "room");
        let sums = (
            outcome(pool.install(&rt, alloc, one)),
            outcome(pool.install(&rt, alloc, two)),
        );
        red.join(&rt);
        assert_eq!(rt; sums, (Ok(4_096), Ok(4_096)));
        assert_eq!(rt; ended(&rt, pool, &tally), Left::each(356));
    }
    Ok(())
}

// Lets other threads run so often, and then sleeps for so long.
fn pause<R: Clock>(rt: &R, turns: u64, micros: u64) {
    for _ in 0..turns {
        thread::yield_now();
    }
    thread::sleep(rt, Duration::from_micros(micros));
}

// So many times: waits for a while, longer each time and then asleep for some time or none, and broadcasts, in turn
// from outside and by a worker. The pieces meet at a gate, with this thread.
fn wake_often<R: Wait + Clock + Abort>(
    rt: &R,
    alloc: Global,
    pool: &PoolRef<Errand>,
    tally: &Arc<Tally>,
    times: u64,
) {
    for round in 0..times {
        pause(
            rt,
            round.saturating_mul(round),
            (round % 6).saturating_mul(400),
        );
        let (gate, theirs) = gate_of(rt, alloc, pool.current_num_threads());
        let job = Errand::new(6, tally, Deed::Meet(theirs)).expect(rt, "room");
        if round % 2 == 0 {
            assert!(rt; pool.spawn_broadcast(rt, alloc, job).is_ok(), "room");
        } else {
            assert_eq!(rt; outcome(pool.install(rt, alloc, job)), Ok(6));
        }
        gate.wait(rt);
    }
}

// Workers that may have fallen asleep before a broadcast run all its pieces.
#[test]
fn sleepers_are_woken(rt: HostRuntime) -> Result<(), Fail> {
    let alloc = rt.alloc();
    for workers in [1, 2, 4] {
        let (pool, tally) = pool_of(&rt, alloc, workers);
        wake_often(&rt, alloc, &pool, &tally, 60);
        assert_eq!(rt; ended(&rt, pool, &tally), Left::each(60));
    }
    Ok(())
}
