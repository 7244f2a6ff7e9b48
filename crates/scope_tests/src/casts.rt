//! The tests of broadcasts into a scope: by its jobs, and by its body, which is on no worker.
use crate::errand::{Deed, Errand, Part, Trouble, are_numbered, sum_of};
use crate::tests::{Outcome, inject, no_runs, outcome_of, pool_of, pool_with};
use rayon_core::{CallError, Done, Ended, Ids, InPlaceCalls, JobKind, PoolRef, Refusal, Scope};
use std::alloc::Global;
use std::process::Abort;
use std::sync::atomic::{AtomicU64, Ordering};
use std::sync::{Arc, Barrier, Wait};
use std::test::Fail;
use std::thread;
use std::thread::Threads;

// A job that opens a scope, spawns a job into it and broadcasts one there: that job has the number 0, and the pieces
// have the numbers from 1 on, by the workers' indices, and each its own place.
#[test]
fn pieces_have_numbers_in_a_row(rt: HostRuntime) -> Result<(), Fail> {
    let alloc = rt.alloc();
    for (workers, ran) in [(1, 3), (2, 4), (3, 5), (7, 9)] {
        let pool = pool_of(&rt, alloc, workers);
        let runs = no_runs(&rt, alloc);
        let job = Errand::new(9, &runs, Deed::Numbers(5)).expect(&rt, "room");
        let found = match pool.install(&rt, alloc, job) {
            Ok(number) => Ok(number),
            Err(CallError::Fault(trouble)) => Err(trouble),
            Err(_) => Err(Trouble::Lost),
        };
        pool.end_and_join(&rt);
        assert_eq!(rt; found, Ok(5));
        assert_eq!(rt; runs.load(Ordering::SeqCst), ran);
    }
    Ok(())
}

// Broadcasts a job of this name, of which the pieces do this, into a scope from outside. Answers the number of its
// first piece.
fn inject_cast<R: Wait>(
    rt: &R,
    alloc: Global,
    pool: &PoolRef<Errand>,
    scope: &mut Scope<Errand>,
    runs: &Arc<AtomicU64>,
    name: u64,
    part: Part,
) -> Result<u64, Trouble> {
    let job = Errand::new(name, runs, Deed::Cast(part))?;
    match scope.inject_broadcast(rt, alloc, pool, job) {
        Ok(number) => Ok(number),
        Err(_) => Err(Trouble::Lost),
    }
}

// A scope whose first job broadcasts one of which the pieces do this. Answers the sum of the outputs, or a fault, and
// how many runs there were.
fn cast_into<R: Threads + Wait + Abort + Copy + Send + 'static>(
    rt: &R,
    alloc: Global,
    workers: usize,
    part: Part,
) -> (Result<u64, Trouble>, u64) {
    let pool = pool_of(rt, alloc, workers);
    let runs = no_runs(rt, alloc);
    let ended = pool.in_place_scope(rt, alloc, |scope| {
        inject(rt, alloc, &pool, scope, &runs, 3, Deed::Cast(part))
    });
    let found = total_of(ended);
    pool.end_and_join(rt);
    (found, runs.load(Ordering::SeqCst))
}

// The sum of the outputs of a scope, or a fault.
fn total_of<B: Drop>(
    ended: Result<Ended<u64, Vec<Done<Errand>>>, CallError<Trouble, B>>,
) -> Result<u64, Trouble> {
    match ended {
        Ok(ended) => Ok(sum_of(&ended.outputs)),
        Err(CallError::Fault(trouble)) => Err(trouble),
        Err(CallError::Refused(_refusal, _body)) => Err(Trouble::Lost),
        Err(CallError::Foreign | CallError::Missing) => Err(Trouble::Lost),
    }
}

// The pieces of a job that was broadcast into a scope have answered once the scope has ended, and those of the jobs
// that these pieces have broadcast into it. The first output is the number of the first piece, 1.
#[test]
fn a_scope_waits_for_pieces(rt: HostRuntime) -> Result<(), Fail> {
    let alloc = rt.alloc();
    for n in [1_usize, 2, 3, 4, 7] {
        let of_one = (n as u64).saturating_mul((n as u64).saturating_sub(1)) / 2;
        let found = cast_into(&rt, alloc, n, Part::Count);
        assert_eq!(rt;
            found,
            (Ok(of_one.saturating_add(1)), (n as u64).saturating_add(1))
        );
        let found = cast_into(&rt, alloc, n, Part::Again);
        let of_all = of_one.saturating_mul(n as u64);
        let ran = (n as u64).saturating_mul((n as u64).saturating_add(1));
        assert_eq!(rt;
            found,
            (Ok(of_all.saturating_add(1)), ran.saturating_add(1))
        );
    }
    Ok(())
}

// Where one piece faults, or some, the scope answers such a fault, once all pieces have run.
#[test]
fn faults_of_pieces_are_the_scopes(rt: HostRuntime) -> Result<(), Fail> {
    let alloc = rt.alloc();
    for (workers, index) in [(1, 0), (2, 1), (4, 2)] {
        let found = cast_into(
            &rt,
            alloc,
            workers,
            Part::Fault(index, index.saturating_add(1)),
        );
        let ran = (workers as u64).saturating_add(1);
        assert_eq!(rt; found, (Err(Trouble::Number(index as u64)), ran));
        let (answer, all) = cast_into(&rt, alloc, workers, Part::Fault(0, index.saturating_add(1)));
        let is_one = match answer {
            Err(Trouble::Number(number)) => number <= index as u64,
            _ => false,
        };
        assert!(rt; is_one);
        assert_eq!(rt; all, ran);
    }
    Ok(())
}

// A scope whose body broadcasts a job of which the pieces do this. Answers the sum of the outputs, or a fault, and how
// many runs there were.
fn cast_by_body<R: Threads + Wait + Abort + Copy + Send + 'static>(
    rt: &R,
    alloc: Global,
    workers: usize,
    part: Part,
) -> (Result<u64, Trouble>, u64) {
    let pool = pool_of(rt, alloc, workers);
    let runs = no_runs(rt, alloc);
    let ended = pool.in_place_scope(rt, alloc, |scope| {
        inject_cast(rt, alloc, &pool, scope, &runs, 3, part)
    });
    let found = total_of(ended);
    pool.end_and_join(rt);
    (found, runs.load(Ordering::SeqCst))
}

// A body that spawns a job from outside and then broadcasts one: that job has the number 0, and the pieces have the
// numbers from 1 on, by the workers' indices, and each its own place.
#[test]
fn pieces_from_outside_have_numbers_in_a_row(rt: HostRuntime) -> Result<(), Fail> {
    let alloc = rt.alloc();
    for (workers, ran) in [(1, 2), (2, 3), (3, 4), (7, 8)] {
        let pool = pool_of(&rt, alloc, workers);
        let runs = no_runs(&rt, alloc);
        let ended = pool.in_place_scope(&rt, alloc, |scope| {
            inject(&rt, alloc, &pool, scope, &runs, 1, Deed::End(Ok(5)))?;
            inject_cast(&rt, alloc, &pool, scope, &runs, 2, Part::Count)
        });
        let found = match ended {
            Ok(ended) => ended.value == 1 && are_numbered(&ended.outputs, 5, workers),
            Err(_) => false,
        };
        pool.end_and_join(&rt);
        assert!(rt; found);
        assert_eq!(rt; runs.load(Ordering::SeqCst), ran);
    }
    Ok(())
}

// A scope waits for the pieces that its body has broadcast, for those that these broadcast, and answers a fault of one
// once all have run.
#[test]
fn a_scope_waits_for_pieces_from_outside(rt: HostRuntime) -> Result<(), Fail> {
    let alloc = rt.alloc();
    for n in [1_usize, 2, 3, 4, 7] {
        let of_one = (n as u64).saturating_mul((n as u64).saturating_sub(1)) / 2;
        let found = cast_by_body(&rt, alloc, n, Part::Count);
        assert_eq!(rt; found, (Ok(of_one), n as u64));
        let found = cast_by_body(&rt, alloc, n, Part::Again);
        let ran = (n as u64).saturating_mul((n as u64).saturating_add(1));
        assert_eq!(rt; found, (Ok(of_one.saturating_mul(n as u64)), ran));
        let last = n.saturating_sub(1);
        let found = cast_by_body(&rt, alloc, n, Part::Fault(last, n));
        assert_eq!(rt; found, (Err(Trouble::Number(last as u64)), n as u64));
    }
    Ok(())
}

// Seven pieces and the body that broadcast them, which is on no worker, meet at one gate; and so do those of a job.
#[test]
fn pieces_and_the_body_meet(rt: HostRuntime) -> Result<(), Fail> {
    let alloc = rt.alloc();
    let pool = pool_of(&rt, alloc, 7);
    let runs = no_runs(&rt, alloc);
    let gate = Arc::new(alloc, Barrier::new(8)).expect(&rt, "room");
    let (first, second) = (
        Arc::try_clone(&gate).expect(&rt, "room"),
        Arc::try_clone(&gate).expect(&rt, "room"),
    );
    let by_body = outcome_of(pool.in_place_scope(&rt, alloc, |scope| {
        let number = inject_cast(&rt, alloc, &pool, scope, &runs, 4, Part::Meet(first))?;
        gate.wait(&rt);
        Ok(number)
    }));
    let by_job = outcome_of(pool.in_place_scope(&rt, alloc, |scope| {
        let deed = Deed::Cast(Part::Meet(second));
        let number = inject(&rt, alloc, &pool, scope, &runs, 4, deed)?;
        gate.wait(&rt);
        Ok(number)
    }));
    pool.end_and_join(&rt);
    assert_eq!(rt; by_body, Outcome::Ended(0, 7));
    assert_eq!(rt; by_job, Outcome::Ended(0, 8));
    assert_eq!(rt; runs.load(Ordering::SeqCst), 15);
    Ok(())
}

// Twenty bodies in turn broadcast to workers that sleep, or are about to: each piece runs.
#[test]
fn sleepers_have_their_pieces(rt: HostRuntime) -> Result<(), Fail> {
    let alloc = rt.alloc();
    let pool = pool_of(&rt, alloc, 4);
    let runs = no_runs(&rt, alloc);
    let mut found = true;
    for round in 0_u64..20 {
        for _ in 0..round.saturating_mul(50) {
            thread::yield_now();
        }
        let ended = pool.in_place_scope(&rt, alloc, |scope| {
            inject_cast(&rt, alloc, &pool, scope, &runs, 4, Part::Count)
        });
        found = found && total_of(ended) == Ok(6);
    }
    pool.end_and_join(&rt);
    assert!(rt; found);
    assert_eq!(rt; runs.load(Ordering::SeqCst), 80);
    Ok(())
}

// Why a broadcast into this scope from outside is refused. None where it is not, or where another job came back.
fn refusal_of<R: Wait>(
    rt: &R,
    alloc: Global,
    pool: &PoolRef<Errand>,
    scope: &mut Scope<Errand>,
    runs: &Arc<AtomicU64>,
) -> Option<Refusal> {
    let job = Errand::new(9, runs, Deed::Cast(Part::Count)).ok()?;
    match scope.inject_broadcast(rt, alloc, pool, job) {
        Err((refusal, job)) if job.tag() == 9 => Some(refusal),
        _ => None,
    }
}

// Another thread broadcasts into a scope by a share of it, while the body waits for that. The scope takes no broadcast
// by another pool, nor any once it has ended: the job comes back, and has not run.
#[test]
fn shares_and_strangers(rt: HostRuntime) -> Result<(), Fail> {
    let alloc = rt.alloc();
    let ids = Ids::new();
    let pool = pool_with(&rt, alloc, 3, &ids);
    let stranger = pool_with(&rt, alloc, 1, &ids);
    let runs = no_runs(&rt, alloc);
    let (mut late, mut strange) = (None, None);
    let ended = pool.in_place_scope(&rt, alloc, |scope| {
        late = scope.share(alloc).ok();
        strange = refusal_of(&rt, alloc, &stranger, scope, &runs);
        cast_by_thread(&rt, alloc, &pool, scope, &runs)
    });
    let found = total_of(ended);
    let refused = match late {
        Some(mut scope) => refusal_of(&rt, alloc, &pool, &mut scope, &runs),
        None => None,
    };
    pool.end_and_join(&rt);
    stranger.end_and_join(&rt);
    assert_eq!(rt; found, Ok(3));
    assert_eq!(rt; strange, Some(Refusal::Ended));
    assert_eq!(rt; refused, Some(Refusal::Ended));
    assert_eq!(rt; runs.load(Ordering::SeqCst), 3);
    Ok(())
}

// Has another thread broadcast a job whose pieces count into the scope, and waits for that thread. Answers the number
// of the first piece.
fn cast_by_thread<R: Threads + Wait + Copy + Send + 'static>(
    rt: &R,
    alloc: Global,
    pool: &PoolRef<Errand>,
    scope: &mut Scope<Errand>,
    runs: &Arc<AtomicU64>,
) -> Result<u64, Trouble> {
    let theirs = *rt;
    let pool = pool.pool_ref().map_err(|_| Trouble::Lost)?;
    let mut share = scope.share(alloc).map_err(|_| Trouble::Lost)?;
    let runs = Arc::try_clone(runs).map_err(|_| Trouble::Lost)?;
    let cast = move || inject_cast(&theirs, alloc, &pool, &mut share, &runs, 5, Part::Count);
    let handle = thread::spawn(rt, cast).map_err(|_| Trouble::Lost)?;
    handle.join(rt)
}
