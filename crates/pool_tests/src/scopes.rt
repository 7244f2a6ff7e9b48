//! The tests of scopes on a worker value.
use crate::errand::{Deed, Trouble};
use crate::scope_parts::Part;
use crate::tests::{installed, pool_of};
use rayon_core::{Ids, Refusal, ThreadPoolBuilder};
use std::alloc::Global;
use std::process::Abort;
use std::sync::Wait;
use std::test::Fail;
use std::thread::Threads;

// What an install of a job that does this on one worker gave, how many runs it began, and the digits that were noted.
fn on_one<R: Threads + Wait + Abort + Copy + Send + 'static>(
    rt: &R,
    alloc: Global,
    part: Part,
) -> (Result<u64, Trouble>, u64, u64) {
    let pool = pool_of(rt, alloc, 1);
    let found = installed(rt, alloc, &pool, Deed::Scope(part));
    pool.end_and_join(rt);
    found
}

// Outputs stand by number, whatever the order of the runs: of two jobs that the body spawned the newer one runs first,
// and the older one spawns a third. An empty scope has no output, and its body's answer comes out.
#[test]
fn outputs_stand_by_number(rt: HostRuntime) -> Result<(), Fail> {
    let alloc = rt.alloc();
    assert_eq!(rt; on_one(&rt, alloc, Part::NewestFirst), (Ok(1_264), 4, 624));
    assert_eq!(rt; on_one(&rt, alloc, Part::Empty), (Ok(5), 1, 0));
    Ok(())
}

// Of 10,000 jobs that are spawned into one scope from wherever they run each output stands at the number that its spawn
// was answered.
#[test]
fn a_tree_in_one_scope(rt: HostRuntime) -> Result<(), Fail> {
    let alloc = rt.alloc();
    for workers in [1, 2, 4, 8] {
        let pool = pool_of(&rt, alloc, workers);
        let found = installed(&rt, alloc, &pool, Deed::Scope(Part::Tree(10_000, false)));
        pool.end_and_join(&rt);
        assert_eq!(rt; found, (Ok(10_000), 10_001, 0));
    }
    Ok(())
}

// The same of jobs that are spawned in order. Each token finds a job.
#[test]
fn a_tree_in_order_in_one_scope(rt: HostRuntime) -> Result<(), Fail> {
    let alloc = rt.alloc();
    for workers in [1, 2, 4, 8] {
        let pool = pool_of(&rt, alloc, workers);
        let found = installed(&rt, alloc, &pool, Deed::Scope(Part::Tree(10_000, true)));
        assert_eq!(rt; pool.strays(&rt), 0);
        pool.end_and_join(&rt);
        assert_eq!(rt; found, (Ok(10_000), 10_001, 0));
    }
    Ok(())
}

// One worker takes its newest task first, and of the jobs that it spawned in order into a scope each of their tokens
// begins the first that is left. Other jobs of the scope begin where they lie.
#[test]
fn jobs_in_order_in_a_scope(rt: HostRuntime) -> Result<(), Fail> {
    let alloc = rt.alloc();
    for (in_order, noted) in [
        ([true, true, true, true], 1_234),
        ([false, false, false, false], 4_321),
        ([true, false, true, false], 4_123),
        ([false, true, false, true], 2_341),
        ([true, true, false, false], 4_312),
        ([false, false, true, true], 3_421),
    ] {
        let found = on_one(&rt, alloc, Part::Row(in_order));
        assert_eq!(rt; found, (Ok(91_234), 5, noted));
    }
    Ok(())
}

// A scope in order has a list of its own: while the inner one waits the worker begins jobs of both, of each in its own
// order. The inner scope ends with its last job, and the outer one goes on with what it has.
#[test]
fn scopes_in_order_in_scopes(rt: HostRuntime) -> Result<(), Fail> {
    let alloc = rt.alloc();
    for (outer, inner, noted) in [
        (false, false, 7_362_541),
        (true, true, 5_162_734),
        (false, true, 5_362_741),
        (true, false, 7_162_534),
    ] {
        let found = on_one(&rt, alloc, Part::Alternate(outer, inner));
        assert_eq!(rt; found, (Ok(95_671_234), 8, noted));
    }
    Ok(())
}

// Jobs of a scope that are pushed by hand into the worker's list of detached jobs run in that list's order, and the
// scope ends with their outputs. Tokens of that list begin no job of the scope's own one, and the other way round: the
// token that was pushed last begins the job that was spawned in order.
#[test]
fn jobs_of_a_scope_in_the_own_list(rt: HostRuntime) -> Result<(), Fail> {
    let alloc = rt.alloc();
    let pool = pool_of(&rt, alloc, 1);
    let found = installed(&rt, alloc, &pool, Deed::Scope(Part::ListedByHand));
    assert_eq!(rt; pool.strays(&rt), 0);
    pool.end_and_join(&rt);
    assert_eq!(rt; found, (Ok(3_345), 4, 534));
    Ok(())
}

// The fault that was stored first is answered, once all jobs have run: of one of two jobs; of the newer of two; of the
// body before that of a job that runs after it. With no fault the outputs come.
#[test]
fn first_fault_is_answered(rt: HostRuntime) -> Result<(), Fail> {
    let alloc = rt.alloc();
    let fault = |digit| (Err(Trouble::Number(digit)), 3, 0);
    for (first, second, ending, found) in [
        (Ok(2), Ok(3), Ok(1), (Ok(123), 3, 0)),
        (Err(2), Ok(3), Ok(1), fault(2)),
        (Ok(2), Err(3), Ok(1), fault(3)),
        (Err(2), Err(3), Ok(1), fault(3)),
        (Ok(2), Ok(3), Err(1), fault(1)),
        (Err(2), Err(3), Err(1), fault(1)),
    ] {
        let part = Part::Pair(first, second, ending);
        assert_eq!(rt; on_one(&rt, alloc, part), found);
    }
    Ok(())
}

// While an inner scope waits the worker runs a job of the outer one that lies above. Its fault was then stored before
// that of the body.
#[test]
fn inner_scope_runs_a_job_of_the_outer(rt: HostRuntime) -> Result<(), Fail> {
    let alloc = rt.alloc();
    let fault = Err(Trouble::Number(7));
    for (job, ending, found) in [
        (Ok(7), Ok(()), (Ok(327), 3, 729)),
        (Ok(7), Err(5), (Err(Trouble::Number(5)), 3, 729)),
        (Err(7), Ok(()), (fault, 3, 29)),
        (Err(7), Err(5), (fault, 3, 29)),
    ] {
        let part = Part::Above(job, ending);
        assert_eq!(rt; on_one(&rt, alloc, part), found);
    }
    Ok(())
}

// A fault of an inner scope is answered by that scope, and by the outer one only where the body passes it on. A job of
// a scope may open one of its own.
#[test]
fn scopes_in_scopes(rt: HostRuntime) -> Result<(), Fail> {
    let alloc = rt.alloc();
    assert_eq!(rt; on_one(&rt, alloc, Part::Nested(false)), (Ok(84), 3, 0));
    let passed = (Err(Trouble::Number(3)), 3, 0);
    assert_eq!(rt; on_one(&rt, alloc, Part::Nested(true)), passed);
    assert_eq!(rt; on_one(&rt, alloc, Part::Within), (Ok(1_234), 5, 0));
    Ok(())
}

// With no level left a scope is refused, and its body has not run and comes back: it is refused again. With one level
// it runs.
#[test]
fn no_level_for_a_scope(rt: HostRuntime) -> Result<(), Fail> {
    let alloc = rt.alloc();
    let deep = Err(Trouble::Refused(Refusal::TooDeep, 0));
    for (limit, found) in [(1, (deep, 1, 7)), (2, (Ok(5), 1, 1))] {
        let builder = ThreadPoolBuilder::new().num_threads(1).depth_limit(limit);
        let pool = builder.build(&rt, alloc, &Ids::new()).expect(&rt, "a pool");
        let retried = installed(&rt, alloc, &pool, Deed::Scope(Part::Retried));
        pool.end_and_join(&rt);
        assert_eq!(rt; retried, found);
    }
    Ok(())
}

// A job of no scope has none to spawn into, and so have both sides of a join of a scope's job, which itself has one.
#[test]
fn who_has_a_scope(rt: HostRuntime) -> Result<(), Fail> {
    let alloc = rt.alloc();
    assert_eq!(rt; on_one(&rt, alloc, Part::HasScope), (Ok(0), 1, 0));
    assert_eq!(rt; on_one(&rt, alloc, Part::SidesWithin), (Ok(10_000), 5, 0));
    Ok(())
}
