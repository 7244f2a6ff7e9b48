//! Tests of the broadcasts that are written alike inside a run and outside of it.
ghost use Rattle.rayon_core.specs.Worker.{SameWorker};
ghost use Rattle.std.specs.Prelude.{◌≡◌, ◌≤◌};

use crate::deed::{Deed, once};
use rayon_core::{
    CallError, Done, EndAfter, Ended, Ids, Receipt, Refusal, ThreadPoolBuilder, Waits, WorkerThread,
};
use rayon_global::{
    BroadcastsInto, Gathers, GlobalPool, Outside, broadcast, in_place_scope, install,
    spawn_broadcast, spawn_broadcast_into,
};
use std::alloc::Global;
use std::process::Abort;
use std::sync::{Arc, Barrier, Wait};
use std::test::Fail;

/// Broadcasts a job on either side, whose piece of this index faults, if there is one, and waits for it. Answers the
/// digits of what the pieces answered. Where it is refused, the very job has to come back: else it is `Full`.
pub fn gather<R, C: Gathers<Deed, R>>(
    rt: &R,
    alloc: Global,
    here: &mut C,
    fault: Option<usize>,
) -> Result<u64, Refusal>
    requires { C.has_levels here.old rt.now }
    ensures same { C.same here.old here.new }
{
    match broadcast(rt, alloc, here, Deed::Gather(fault)) {
        Err(CallError::Refused(refusal, Deed::Gather(back))) if back == fault => Err(refusal),
        Err(CallError::Refused(_, _)) => Err(Refusal::Full),
        answer => Ok(digits(&once(answer)?)),
    }
}

// The digits that pieces answered.
fn digits(outputs: &[u64]) -> u64 {
    let mut digits = 0u64;
    for output in outputs {
        digits = digits.saturating_mul(10).saturating_add(*output);
    }
    digits
}

/// What the piece of this index answers of a job whose piece of the other one faults: the index and one.
pub fn piece(index: usize, fault: Option<usize>) -> Result<u64, Refusal> {
    if fault == Some(index) {
        return Err(Refusal::NoRoom);
    }
    Ok((index as u64).saturating_add(1))
}

// What a broadcast gives whose piece of this index faults, if there is one: outside, and by the worker that runs an
// installed job.
fn both_ways<R: Wait>(
    rt: &R,
    alloc: Global,
    here: &mut Outside<'_, Deed>,
    fault: Option<usize>,
) -> [Result<u64, Refusal>; 2] {
    [
        gather(rt, alloc, here, fault),
        once(install(rt, alloc, here, Deed::Gather(fault))),
    ]
}

// What the body of a scope answers: the numbers of the first pieces of its two broadcasts.
type Firsts = (u64, u64);

/// Opens a scope in a run, broadcasts two jobs into it, of which the second's piece of this index faults, if there is
/// one, and answers the digits of the first one's pieces.
pub fn cast_into<R: Waits<Deed>>(
    rt: &R,
    alloc: Global,
    w: &mut WorkerThread<Deed>,
    fault: Option<usize>,
) -> Result<u64, Refusal>
    requires { w.old.levels ≤ R.levels rt.now }
    ensures same { SameWorker w.old w.new }
{
    let workers = w.current_num_threads();
    let ended = in_place_scope(rt, alloc, w, |w, scope| {
        cast_two(rt, alloc, w, scope, fault)
    });
    piece_digits(ended, workers)
}

// The same, outside.
fn cast_into_outside<R: Wait>(
    rt: &R,
    alloc: Global,
    here: &mut Outside<'_, Deed>,
    fault: Option<usize>,
) -> Result<u64, Refusal> {
    let workers = here.current_num_threads();
    let ended = in_place_scope(rt, alloc, here, |here, scope| {
        cast_two(rt, alloc, here, scope, fault)
    });
    piece_digits(ended, workers)
}

// Broadcasts two jobs into a scope, on either side, of which the second's piece of this index faults, if there is one.
fn cast_two<R, C: BroadcastsInto<Deed, R>>(
    rt: &R,
    alloc: Global,
    here: &mut C,
    scope: &mut C::Scope,
    fault: Option<usize>,
) -> Result<Firsts, Refusal>
    ensures same { C.same here.old here.new }
{
    let first = spawn_broadcast_into(rt, alloc, here, scope, Deed::Gather(None));
    let first = first.map_err(|refused| refused.0)?;
    let second = spawn_broadcast_into(rt, alloc, here, scope, Deed::Gather(fault));
    let second = second.map_err(|refused| refused.0)?;
    Ok((first, second))
}

// What a scope gave: the digits of the pieces of its first broadcast to so many workers, each by its receipt. `Ended`
// unless those of the second one follow.
fn piece_digits<B: Drop>(
    ended: Result<Ended<Firsts, Vec<Done<Deed>>>, CallError<Refusal, B>>,
    workers: usize,
) -> Result<u64, Refusal> {
    let ended = once(ended)?;
    let (first, second) = ended.value;
    let (mut found, mut again) = (0u64, 0u64);
    for index in 0..workers {
        let place = Some((index, workers));
        found = next_digit(&ended, found, first.saturating_add(index as u64), place)?;
        again = next_digit(&ended, again, second.saturating_add(index as u64), place)?;
    }
    if second != workers as u64 || again != found {
        return Err(Refusal::Ended);
    }
    Ok(found)
}

// These digits, and the one that the piece of this number and place answered. `Ended` where there is none.
fn next_digit(
    ended: &Ended<Firsts, Vec<Done<Deed>>>,
    digits: u64,
    number: u64,
    place: Option<(usize, usize)>,
) -> Result<u64, Refusal> {
    let receipt = Receipt {
        number,
        tag: 0,
        place,
    };
    let digit = *ended.output(&receipt).ok_or(Refusal::Ended)?;
    Ok(digits.saturating_mul(10).saturating_add(digit))
}

// A gate for so many workers and one more thread, and a share of it.
fn gate_of<R: Abort>(rt: &R, alloc: Global, workers: usize) -> (Arc<Barrier>, Arc<Barrier>) {
    let gate = Barrier::new(workers.saturating_add(1));
    let gate = Arc::new(alloc, gate).expect(rt, "room");
    let share = Arc::try_clone(&gate).expect(rt, "room");
    (gate, share)
}

// On both sides the outputs stand by index, and the fault of a piece is answered. The pieces of a broadcast that waits
// for nothing come to a gate, with this thread.
#[test]
fn broadcasts_are_answered_on_both_sides(rt: HostRuntime) -> Result<(), Fail> {
    let alloc = rt.alloc();
    for (workers, outputs) in [(1usize, 1), (2, 12), (4, 1_234)] {
        let (ids, global) = (Ids::new(), GlobalPool::new());
        global.end_after(&rt, |global| {
            let builder = ThreadPoolBuilder::new().num_threads(workers);
            let filled = global.filled(&rt, alloc, &ids, builder);
            let mut outside = filled.expect(&rt, "a pool");
            let answers = both_ways(&rt, alloc, &mut outside, None);
            assert_eq!(rt; answers, [Ok(outputs); 2]);
            let last = workers.saturating_sub(1);
            let answers = both_ways(&rt, alloc, &mut outside, Some(last));
            assert_eq!(rt; answers, [Err(Refusal::NoRoom); 2]);
            let (ours, theirs) = gate_of(&rt, alloc, workers);
            assert!(rt; spawn_broadcast(&rt, alloc, &mut outside, Deed::Cast(theirs)).is_ok());
            ours.wait(&rt);
            let (ours, theirs) = gate_of(&rt, alloc, workers);
            assert_eq!(rt;
                once(install(&rt, alloc, &mut outside, Deed::Cast(theirs))),
                Ok(0)
            );
            ours.wait(&rt);
            assert_eq!(rt; outside.take_fault(&rt), (None, 0));
        });
    }
    Ok(())
}

// On both sides the pieces of two broadcasts into a scope have numbers in a row and their places, and the fault of a
// piece is the scope's.
#[test]
fn scopes_take_broadcasts_on_both_sides(rt: HostRuntime) -> Result<(), Fail> {
    let alloc = rt.alloc();
    for (workers, outputs) in [(1usize, 1), (2, 12), (4, 1_234)] {
        for (fault, wanted) in [
            (None, Ok(outputs)),
            (Some(workers.saturating_sub(1)), Err(Refusal::NoRoom)),
        ] {
            let (ids, global) = (Ids::new(), GlobalPool::new());
            let answers = global.end_after(&rt, |global| {
                let builder = ThreadPoolBuilder::new().num_threads(workers);
                let filled = global.filled(&rt, alloc, &ids, builder);
                let mut outside = filled.expect(&rt, "a pool");
                [
                    cast_into_outside(&rt, alloc, &mut outside, fault),
                    once(install(&rt, alloc, &mut outside, Deed::CastInto(fault))),
                ]
            });
            assert_eq!(rt; answers, [wanted; 2]);
        }
    }
    Ok(())
}

// Where a run has no level left its broadcast is refused, with the very job back. Outside none is wanted.
#[test]
fn only_a_run_wants_a_level(rt: HostRuntime) -> Result<(), Fail> {
    let alloc = rt.alloc();
    for (limit, within) in [(1, Err(Refusal::TooDeep)), (2, Ok(12))] {
        let (ids, global) = (Ids::new(), GlobalPool::new());
        let answers = global.end_after(&rt, |global| {
            let builder = ThreadPoolBuilder::new().num_threads(2).depth_limit(limit);
            let filled = global.filled(&rt, alloc, &ids, builder);
            let mut outside = filled.expect(&rt, "a pool");
            both_ways(&rt, alloc, &mut outside, None)
        });
        assert_eq!(rt; answers, [Ok(12), within]);
    }
    Ok(())
}

// A pool that has ended hands the very job back, whether it would be waited for or not.
#[test]
fn ended_pool_hands_jobs_back(rt: HostRuntime) -> Result<(), Fail> {
    let (alloc, ids, global) = (rt.alloc(), Ids::new(), GlobalPool::new());
    let copy = global.end_after(&rt, |global| {
        let builder = ThreadPoolBuilder::new().num_threads(2);
        let filled = global.filled(&rt, alloc, &ids, builder);
        filled.expect(&rt, "a pool").pool_ref()
    });
    let Ok(copy) = copy else {
        panic!(rt; "room");
    };
    let mut outside = Outside::of(&copy);
    let waiting = gather(&rt, alloc, &mut outside, Some(5));
    assert_eq!(rt; waiting, Err(Refusal::Ended));
    let detached = spawn_broadcast(&rt, alloc, &mut outside, Deed::Gather(Some(5)));
    assert!(rt; matches!(detached, Err((Refusal::Ended, Deed::Gather(Some(5))))));
    Ok(())
}
