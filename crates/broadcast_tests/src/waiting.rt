//! The tests of broadcasts that wait.
use crate::errand::{Deed, Errand, digits, outcome, pause};
use crate::pools::{Left, ended, pool_of, pool_of_depth};
use crate::tally::{Tally, Trouble};
use rayon_core::{CallError, JobKind, PoolRef, Refusal};
use std::alloc::Global;
use std::process::Abort;
use std::sync::{Arc, Barrier, Wait};
use std::test::Fail;
use std::thread;
use std::thread::{JoinHandle, Threads};

// Pools of so many workers, and the digits of what the pieces of a job with the name 1 answer there.
const POOLS: [(usize, u64); 4] = [(1, 1), (2, 12), (4, 1_234), (7, 1_234_567)];

// Broadcasts a job with the name 1 from outside whose pieces do this, and waits for it.
fn ask<R: Wait + Abort>(
    rt: &R,
    alloc: Global,
    pool: &PoolRef<Errand>,
    tally: &Arc<Tally>,
    deed: Deed,
) -> Result<u64, Trouble> {
    let job = Errand::new(1, tally, deed).expect(rt, "room");
    digits(pool.broadcast(rt, alloc, job))
}

// The same by a worker, in the run of a job that is installed.
fn ask_within<R: Wait + Abort>(
    rt: &R,
    alloc: Global,
    pool: &PoolRef<Errand>,
    tally: &Arc<Tally>,
    deed: Deed,
) -> Result<u64, Trouble> {
    let job = Errand::waiting(1, tally, deed).expect(rt, "room");
    outcome(pool.install(rt, alloc, job))
}

// A gate at which the pieces of one broadcast meet.
fn gate<R: Abort>(rt: &R, alloc: Global, pool: &PoolRef<Errand>) -> Arc<Barrier> {
    Arc::new(alloc, Barrier::new(pool.current_num_threads())).expect(rt, "room")
}

// Broadcasts so many jobs from outside, and as many by a worker, whose pieces do what the closure says, and each of
// which has to answer this.
fn ask_often<R: Wait + Abort, F: Fn() -> Deed>(
    rt: &R,
    alloc: Global,
    pool: &PoolRef<Errand>,
    tally: &Arc<Tally>,
    times: u64,
    wanted: Result<u64, Trouble>,
    deed: F,
)
    requires { F.IsAlwaysCallable deed }
{
    for _ in 0..times {
        assert_eq!(rt; ask(rt, alloc, pool, tally, deed()), wanted);
        assert_eq!(rt; ask_within(rt, alloc, pool, tally, deed()), wanted);
    }
}

// So many times from outside, and as often by a worker: the pieces of a broadcast meet at a gate of its own.
fn meet_often<R: Wait + Abort>(
    rt: &R,
    alloc: Global,
    pool: &PoolRef<Errand>,
    tally: &Arc<Tally>,
    times: u64,
    outputs: u64,
) {
    for _ in 0..times {
        let meet = Deed::Meet(gate(rt, alloc, pool));
        assert_eq!(rt; ask(rt, alloc, pool, tally, meet), Ok(outputs));
        let meet = Deed::Meet(gate(rt, alloc, pool));
        assert_eq!(rt; ask_within(rt, alloc, pool, tally, meet), Ok(outputs));
    }
}

// A thread that does so.
fn convener<R: Threads + Wait + Abort + Copy + Send + 'static>(
    rt: &R,
    alloc: Global,
    pool: &PoolRef<Errand>,
    tally: &Arc<Tally>,
    times: u64,
    outputs: u64,
) -> JoinHandle<()> {
    let (theirs, pool) = (*rt, pool.pool_ref().expect(rt, "room"));
    let tally = Arc::try_clone(tally).expect(rt, "room");
    thread::Builder::new()
        .spawn(rt, move || {
            meet_often(&theirs, alloc, &pool, &tally, times, outputs);
        })
        .expect(rt, "a thread")
}

// A thread that broadcasts so many jobs whose pieces count from outside, and as many by a worker.
fn asker<R: Threads + Wait + Abort + Copy + Send + 'static>(
    rt: &R,
    alloc: Global,
    pool: &PoolRef<Errand>,
    tally: &Arc<Tally>,
    times: u64,
    outputs: u64,
) -> JoinHandle<()> {
    let (theirs, pool) = (*rt, pool.pool_ref().expect(rt, "room"));
    let tally = Arc::try_clone(tally).expect(rt, "room");
    thread::Builder::new()
        .spawn(rt, move || {
            ask_often(
                &theirs,
                alloc,
                &pool,
                &tally,
                times,
                Ok(outputs),
                || Deed::Count,
            );
        })
        .expect(rt, "a thread")
}

// A broadcast is answered, from outside and by a worker, what each piece answered, by the indices of the workers. Each
// worker has run its own piece then, once.
#[test]
fn outputs_stand_by_index(rt: HostRuntime) -> Result<(), Fail> {
    let alloc = rt.alloc();
    for (workers, outputs) in POOLS {
        let (pool, tally) = pool_of(&rt, alloc, workers);
        assert_eq!(rt; ask(&rt, alloc, &pool, &tally, Deed::Count), Ok(outputs));
        assert_eq!(rt; tally.pieces(), (1, 1, 0));
        assert_eq!(rt;
            ask_within(&rt, alloc, &pool, &tally, Deed::Count),
            Ok(outputs)
        );
        assert_eq!(rt; tally.pieces(), (2, 2, 0));
        assert_eq!(rt; ended(&rt, pool, &tally), Left::each(2));
    }
    Ok(())
}

// So it is where the piece of index 0 ends last: it waits until each other worker runs a piece of a later broadcast.
#[test]
fn the_first_piece_may_end_last(rt: HostRuntime) -> Result<(), Fail> {
    let alloc = rt.alloc();
    for (workers, outputs) in POOLS {
        let (pool, tally) = pool_of(&rt, alloc, workers);
        for (faults, wanted) in [(false, Ok(outputs)), (true, Err(Trouble::Piece(0)))] {
            let last = Deed::Last(gate(&rt, alloc, &pool), faults);
            assert_eq!(rt; ask(&rt, alloc, &pool, &tally, last), wanted);
            let last = Deed::Last(gate(&rt, alloc, &pool), faults);
            assert_eq!(rt; ask_within(&rt, alloc, &pool, &tally, last), wanted);
        }
        assert_eq!(rt; ended(&rt, pool, &tally), Left::each(8));
    }
    Ok(())
}

// The pieces of a broadcast run at once, each on a worker of its own: they meet at a gate.
#[test]
fn pieces_that_are_waited_for_meet(rt: HostRuntime) -> Result<(), Fail> {
    let alloc = rt.alloc();
    for (workers, outputs) in POOLS {
        let (pool, tally) = pool_of(&rt, alloc, workers);
        meet_often(&rt, alloc, &pool, &tally, 20, outputs);
        assert_eq!(rt; ended(&rt, pool, &tally), Left::each(40));
    }
    Ok(())
}

// So it is while three threads broadcast, each from outside and by a worker: all workers run the pieces in one order.
#[test]
fn threads_broadcast_at_once(rt: HostRuntime) -> Result<(), Fail> {
    let alloc = rt.alloc();
    for (workers, outputs) in POOLS {
        let (pool, tally) = pool_of(&rt, alloc, workers);
        let red = convener(&rt, alloc, &pool, &tally, 40, outputs);
        let blue = convener(&rt, alloc, &pool, &tally, 40, outputs);
        meet_often(&rt, alloc, &pool, &tally, 40, outputs);
        red.join(&rt);
        blue.join(&rt);
        assert_eq!(rt; ended(&rt, pool, &tally), Left::each(240));
    }
    Ok(())
}

// Where one piece has a fault it is answered, once all seven have run. The pool keeps none.
#[test]
fn the_fault_of_a_piece_is_answered(rt: HostRuntime) -> Result<(), Fail> {
    let alloc = rt.alloc();
    let (pool, tally) = pool_of(&rt, alloc, 7);
    for (index, pieces) in [(3, 2), (0, 4), (6, 6)] {
        let wanted = Err(Trouble::Piece(index));
        ask_often(
            &rt,
            alloc,
            &pool,
            &tally,
            1,
            wanted,
            || Deed::FaultAt(index),
        );
        assert_eq!(rt; tally.pieces(), (pieces, pieces, 0));
    }
    assert_eq!(rt; ended(&rt, pool, &tally), Left::each(6));
    Ok(())
}

// Where all pieces of even indexes have faults the one of index 0 is answered, whichever was the first, once all have
// run.
#[test]
fn the_fault_of_the_lowest_index_is_answered(rt: HostRuntime) -> Result<(), Fail> {
    let alloc = rt.alloc();
    for (workers, _outputs) in POOLS {
        let (pool, tally) = pool_of(&rt, alloc, workers);
        for round in 0..20u64 {
            let (before, after) = (
                round.saturating_mul(2),
                round.saturating_mul(2).saturating_add(1),
            );
            assert_eq!(rt; tally.pieces(), (before, before, 0));
            let fault = ask(&rt, alloc, &pool, &tally, Deed::Fault);
            assert_eq!(rt;
                (fault, tally.pieces()),
                (Err(Trouble::Piece(0)), (after, after, 0))
            );
            let fault = ask_within(&rt, alloc, &pool, &tally, Deed::Fault);
            assert_eq!(rt; fault, Err(Trouble::Piece(0)));
        }
        assert_eq!(rt; ended(&rt, pool, &tally), Left::each(40));
    }
    Ok(())
}

// A broadcast is answered once all its pieces are over, however long they take: each counts itself twice, the second
// time after a while.
#[test]
fn a_broadcast_waits_for_all_pieces(rt: HostRuntime) -> Result<(), Fail> {
    let alloc = rt.alloc();
    for (workers, outputs) in POOLS {
        let (pool, tally) = pool_of(&rt, alloc, workers);
        for round in 1..11u64 {
            let counts = round.saturating_mul(4);
            let half = counts.saturating_sub(2);
            assert_eq!(rt; ask(&rt, alloc, &pool, &tally, Deed::Twice), Ok(outputs));
            assert_eq!(rt; tally.pieces(), (half, half, 0));
            assert_eq!(rt;
                ask_within(&rt, alloc, &pool, &tally, Deed::Twice),
                Ok(outputs)
            );
            assert_eq!(rt; tally.pieces(), (counts, counts, 0));
        }
        assert_eq!(rt; ended(&rt, pool, &tally), Left::each(40));
    }
    Ok(())
}

// The job was let go where its broadcast is answered: of the tally there is this share alone, and by a worker the one
// that its run has taken.
#[test]
fn an_answer_leaves_no_job(rt: HostRuntime) -> Result<(), Fail> {
    let alloc = rt.alloc();
    for (workers, outputs) in POOLS {
        let (pool, tally) = pool_of(&rt, alloc, workers);
        for _ in 0..20 {
            assert_eq!(rt; ask(&rt, alloc, &pool, &tally, Deed::Count), Ok(outputs));
            assert_eq!(rt; Arc::strong_count(&tally), 1);
            assert_eq!(rt;
                ask_within(&rt, alloc, &pool, &tally, Deed::Count),
                Ok(outputs)
            );
            assert_eq!(rt; tally.shares(), 2);
        }
        assert_eq!(rt; ended(&rt, pool, &tally), Left::each(40));
    }
    Ok(())
}

// Each worker runs the pieces of an earlier broadcast first: one that nobody waits for is over where a later one is
// answered.
#[test]
fn earlier_pieces_come_first(rt: HostRuntime) -> Result<(), Fail> {
    let alloc = rt.alloc();
    let (pool, tally) = pool_of(&rt, alloc, 4);
    for round in 1..51u64 {
        let first = Errand::new(2, &tally, Deed::Twice).expect(&rt, "room");
        assert!(rt; pool.spawn_broadcast(&rt, alloc, first).is_ok(), "room");
        assert_eq!(rt; ask(&rt, alloc, &pool, &tally, Deed::Count), Ok(1_234));
        let counts = round.saturating_mul(3);
        assert_eq!(rt; tally.pieces(), (counts, counts, 0));
    }
    assert_eq!(rt; ended(&rt, pool, &tally), Left::each(150));
    Ok(())
}

// A worker looks into its own deque before its list of pieces: what it has spawned before a broadcast is over where
// that is answered, if no other worker can have taken it.
#[test]
fn the_own_deque_comes_before_pieces(rt: HostRuntime) -> Result<(), Fail> {
    let alloc = rt.alloc();
    let (pool, tally) = pool_of(&rt, alloc, 1);
    for round in 0..10u64 {
        let before = round.saturating_mul(202);
        let spawner = Errand::new(3, &tally, Deed::Spawn(100)).expect(&rt, "room");
        assert_eq!(rt; outcome(pool.install(&rt, alloc, spawner)), Ok(3));
        assert_eq!(rt; ask(&rt, alloc, &pool, &tally, Deed::Count), Ok(1));
        let (counts, all) = (before.saturating_add(101), before.saturating_add(202));
        assert_eq!(rt; tally.pieces(), (counts, counts, 0));
        assert_eq!(rt;
            ask_within(&rt, alloc, &pool, &tally, Deed::Spawn(100)),
            Ok(all)
        );
    }
    assert_eq!(rt; ended(&rt, pool, &tally), Left::each(2_020));
    Ok(())
}

// Each piece broadcasts again and waits, and so on, so many levels deep: of n workers each runs 1 + n + n * n pieces
// and so on, from outside, and as many where a worker begins that is one level deeper.
#[test]
fn pieces_broadcast_again_and_wait(rt: HostRuntime) -> Result<(), Fail> {
    let alloc = rt.alloc();
    for (workers, depth, outputs, pieces) in [
        (1, 6u64, 1, 7u64),
        (2, 4, 12, 31),
        (4, 2, 1_234, 21),
        (7, 2, 1_234_567, 57),
    ] {
        let (deeper, all) = (depth.saturating_add(1), pieces.saturating_mul(2));
        let (pool, tally) = pool_of(&rt, alloc, workers);
        assert_eq!(rt;
            ask(&rt, alloc, &pool, &tally, Deed::Dig(depth)),
            Ok(outputs)
        );
        assert_eq!(rt; tally.pieces(), (pieces, pieces, 0));
        assert_eq!(rt;
            ask_within(&rt, alloc, &pool, &tally, Deed::Dig(deeper)),
            Ok(1)
        );
        assert_eq!(rt; tally.too_deep(), 0);
        assert_eq!(rt; ended(&rt, pool, &tally), Left::each(all));
    }
    Ok(())
}

// Where pieces broadcast again without end, each broadcast is refused `TooDeep` that has no level left, with the very
// job back, and no other is. On one worker these are as many pieces as levels, and by a worker one fewer.
#[test]
fn no_level_for_a_broadcast(rt: HostRuntime) -> Result<(), Fail> {
    let alloc = rt.alloc();
    for limit in 1..6 {
        let (pool, tally) = pool_of_depth(&rt, alloc, 1, limit);
        let levels = limit as u64;
        assert_eq!(rt; ask(&rt, alloc, &pool, &tally, Deed::Dig(1_000)), Ok(1));
        assert_eq!(rt;
            (tally.pieces(), tally.too_deep()),
            ((levels, levels, 0), 1)
        );
        let all = levels.saturating_mul(2).saturating_sub(1);
        assert_eq!(rt;
            ask_within(&rt, alloc, &pool, &tally, Deed::Dig(1_000)),
            Ok(1)
        );
        assert_eq!(rt; (tally.pieces(), tally.too_deep()), ((all, all, 0), 2));
        assert_eq!(rt; ended(&rt, pool, &tally), Left::each(all));
    }
    Ok(())
}

// On more workers each piece of so many broadcasts has made one of the others, or one that was too deep. A worker that
// waits may run the piece of another's broadcast, so that how many there are is not known before.
#[test]
fn workers_without_a_level(rt: HostRuntime) -> Result<(), Fail> {
    let alloc = rt.alloc();
    for (workers, limit, outputs) in [(2, 1, 12), (2, 3, 12), (4, 1, 1_234), (4, 2, 1_234)] {
        let (pool, tally) = pool_of_depth(&rt, alloc, workers, limit);
        assert_eq!(rt;
            ask(&rt, alloc, &pool, &tally, Deed::Dig(1_000)),
            Ok(outputs)
        );
        let (broadcasts, most, wrong) = tally.pieces();
        assert_eq!(rt; (most, wrong), (broadcasts, 0));
        assert!(rt; broadcasts >= limit as u64);
        let others = broadcasts
            .saturating_mul(workers as u64)
            .saturating_sub(broadcasts);
        assert_eq!(rt; tally.too_deep(), others.saturating_add(1));
        assert_eq!(rt; ended(&rt, pool, &tally), Left::each(broadcasts));
    }
    Ok(())
}

// Lets other threads run and broadcasts from outside, so many times, and each time pauses a little longer.
fn ask_after_pauses<R: Wait + Abort>(
    rt: &R,
    alloc: Global,
    pool: &PoolRef<Errand>,
    tally: &Arc<Tally>,
    times: u64,
    outputs: u64,
) {
    for turns in 0..times {
        pause(turns);
        assert_eq!(rt; ask(rt, alloc, pool, tally, Deed::Count), Ok(outputs));
    }
}

// Broadcasts come to workers that search, that are about to sleep and that sleep, and all are answered: after each pause
// of up to 400 yields where there are seven workers.
#[test]
fn sleepers_hear_of_broadcasts(rt: HostRuntime) -> Result<(), Fail> {
    let alloc = rt.alloc();
    for (workers, outputs) in POOLS {
        let (pool, tally) = pool_of(&rt, alloc, workers);
        let times = if workers == 7 { 400 } else { 120 };
        ask_after_pauses(&rt, alloc, &pool, &tally, times, outputs);
        assert_eq!(rt; ended(&rt, pool, &tally), Left::each(times));
    }
    Ok(())
}

// So many times, and each time with a longer pause: a worker naps in a job while a broadcast comes from outside, and a
// worker naps before it broadcasts. The others may be asleep then.
fn ask_beside_naps<R: Wait + Abort>(
    rt: &R,
    alloc: Global,
    pool: &PoolRef<Errand>,
    tally: &Arc<Tally>,
    times: u64,
    outputs: u64,
) {
    for round in 0..times {
        let turns = round.saturating_mul(100);
        let nap = Errand::new(4, tally, Deed::Nap(turns)).expect(rt, "room");
        assert!(rt; pool.spawn(rt, alloc, nap).is_ok(), "room");
        pause(turns / 2);
        assert_eq!(rt; ask(rt, alloc, pool, tally, Deed::Count), Ok(outputs));
        assert_eq!(rt;
            ask_within(rt, alloc, pool, tally, Deed::Nap(turns)),
            Ok(outputs)
        );
    }
}

// A broadcast calls each worker, whoever has been awake before.
#[test]
fn all_hear_of_broadcasts_beside_a_busy_worker(rt: HostRuntime) -> Result<(), Fail> {
    let alloc = rt.alloc();
    for (workers, outputs) in POOLS {
        let (pool, tally) = pool_of(&rt, alloc, workers);
        ask_beside_naps(&rt, alloc, &pool, &tally, 12, outputs);
        assert_eq!(rt; ended(&rt, pool, &tally), Left::each(24));
    }
    Ok(())
}

// Two trees of joins have the right sums: 16 jobs of the one broadcast and wait, 32 of the other do not wait. Two more
// threads broadcast meanwhile.
#[test]
fn broadcasts_that_wait_beside_joins(rt: HostRuntime) -> Result<(), Fail> {
    let alloc = rt.alloc();
    for (workers, outputs) in POOLS {
        let (pool, tally) = pool_of(&rt, alloc, workers);
        let red = asker(&rt, alloc, &pool, &tally, 50, outputs);
        let blue = asker(&rt, alloc, &pool, &tally, 50, outputs);
        let one = Errand::waiting(1, &tally, Deed::Tree(9)).expect(&rt, "room");
        let two = Errand::new(2, &tally, Deed::Tree(10)).expect(&rt, "room");
        let sums = (
            outcome(pool.install(&rt, alloc, one)),
            outcome(pool.install(&rt, alloc, two)),
        );
        red.join(&rt);
        blue.join(&rt);
        assert_eq!(rt; sums, (Ok(512), Ok(1_024)));
        assert_eq!(rt; ended(&rt, pool, &tally), Left::each(248));
    }
    Ok(())
}

// Broadcasts from outside until the pool has ended. Answers how many gave these outputs; none where one gave anything
// else.
fn ask_to_the_end<R: Wait + Abort>(
    rt: &R,
    alloc: Global,
    pool: &PoolRef<Errand>,
    tally: &Arc<Tally>,
    wanted: u64,
) -> Option<u64> {
    for answered in 0..u64::MAX {
        let job = Errand::new(1, tally, Deed::Count).expect(rt, "room");
        match pool.broadcast(rt, alloc, job) {
            Ok(outputs) => {
                if digits(Ok(outputs)) != Ok(wanted) {
                    return None;
                }
            }
            Err(error) => {
                return if is_ended(error, 1) {
                    Some(answered)
                } else {
                    None
                };
            }
        }
    }
    None
}

// Whether a broadcast was refused by a pool that has ended, and hands back the job of this tag.
fn is_ended(error: CallError<Trouble, Errand>, tag: u64) -> bool {
    match error {
        CallError::Refused(refusal, job) => refusal == Refusal::Ended && job.tag() == tag,
        CallError::Fault(_fault) => false,
        CallError::Foreign | CallError::Missing => false,
    }
}

// A thread that does so.
fn late_asker<R: Threads + Wait + Abort + Copy + Send + 'static>(
    rt: &R,
    alloc: Global,
    pool: &PoolRef<Errand>,
    tally: &Arc<Tally>,
    outputs: u64,
) -> JoinHandle<Option<u64>> {
    let (theirs, pool) = (*rt, pool.pool_ref().expect(rt, "room"));
    let tally = Arc::try_clone(tally).expect(rt, "room");
    thread::Builder::new()
        .spawn(rt, move || {
            ask_to_the_end(&theirs, alloc, &pool, &tally, outputs)
        })
        .expect(rt, "a thread")
}

// A pool that is ended while another thread broadcasts has run all pieces of those that were answered, and no other.
#[test]
fn a_pool_ends_beside_broadcasts(rt: HostRuntime) -> Result<(), Fail> {
    let alloc = rt.alloc();
    for (workers, outputs) in POOLS {
        let (pool, tally) = pool_of(&rt, alloc, workers);
        let red = late_asker(&rt, alloc, &pool, &tally, outputs);
        ask_after_pauses(&rt, alloc, &pool, &tally, 20, outputs);
        pool.end_and_join(&rt);
        let answered = red.join(&rt).expect(&rt, "no other answer");
        let pieces = answered.saturating_add(20);
        assert_eq!(rt; tally.pieces(), (pieces, pieces, 0));
        assert_eq!(rt; Arc::strong_count(&tally), 1);
    }
    Ok(())
}

// A pool that has ended refuses a broadcast: the very job comes back, and no piece of it runs.
#[test]
fn an_ended_pool_hands_back_what_would_wait(rt: HostRuntime) -> Result<(), Fail> {
    let alloc = rt.alloc();
    for (workers, outputs) in POOLS {
        let (pool, tally) = pool_of(&rt, alloc, workers);
        let late = pool.pool_ref().expect(&rt, "room");
        assert_eq!(rt; ask(&rt, alloc, &pool, &tally, Deed::Count), Ok(outputs));
        pool.end_and_join(&rt);
        let job = Errand::new(9, &tally, Deed::Count).expect(&rt, "room");
        let is_back = match late.broadcast(&rt, alloc, job) {
            Ok(_outputs) => false,
            Err(error) => is_ended(error, 9),
        };
        assert!(rt; is_back);
        assert_eq!(rt; tally.pieces(), (1, 1, 0));
        assert_eq!(rt; Arc::strong_count(&tally), 1);
    }
    Ok(())
}
