//! Tests of the scopes that are written alike inside a run and outside of it.
ghost use Rattle.rayon_core.specs.Worker.{SameWorker};
ghost use Rattle.std.specs.Prelude.{◌≡◌, ◌≤◌};

use crate::deed::{Deed, once};
use rayon_core::{
    CallError, Done, EndAfter, Ended, FnContext, Ids, Receipt, Refusal, ThreadPoolBuilder, Waits,
    WorkerThread,
};
use rayon_global::{
    GlobalPool, Outside, SpawnsInto, in_place_scope, in_place_scope_fifo, install, scope,
    scope_fifo, spawn_fifo_into, spawn_into,
};
use std::alloc::Global;
use std::process::Abort;
use std::sync::Wait;
use std::test::Fail;
use std::thread::Threads;

/// How two jobs of a scope end, how its body does, and whether the jobs are spawned in order.
#[derive(Clone, Copy)]
pub struct Endings {
    first: Result<u64, Refusal>,
    second: Result<u64, Refusal>,
    body: Result<u64, Refusal>,
    in_order: bool,
}

// What the body of a scope answers: a digit, and the numbers of its two jobs.
type Spawned = (u64, u64, u64);

/// Opens a scope in a run that ends so, and answers its digits.
pub fn open<R: Waits<Deed>>(
    rt: &R,
    alloc: Global,
    w: &mut WorkerThread<Deed>,
    ends: Endings,
) -> Result<u64, Refusal>
    requires { w.old.levels ≤ R.levels rt.now }
    ensures same { SameWorker w.old w.new }
{
    digits(in_place_scope_fifo(rt, alloc, w, |w, scope| {
        spawn_two(rt, alloc, w, scope, ends)
    }))
}

// Opens a scope outside that ends so, and answers its digits.
fn open_outside<R: Wait>(
    rt: &R,
    alloc: Global,
    here: &mut Outside<'_, Deed>,
    ends: Endings,
) -> Result<u64, Refusal> {
    digits(in_place_scope(rt, alloc, here, |here, scope| {
        spawn_two(rt, alloc, here, scope, ends)
    }))
}

// Spawns two jobs into a scope, on either side, and ends so.
fn spawn_two<R, C: SpawnsInto<Deed, R>>(
    rt: &R,
    alloc: Global,
    here: &mut C,
    scope: &mut C::Scope,
    ends: Endings,
) -> Result<Spawned, Refusal>
    ensures same { C.same here.old here.new }
{
    let first = spawn_one(rt, alloc, here, scope, Deed::End(ends.first), ends.in_order)?;
    let second = spawn_one(
        rt,
        alloc,
        here,
        scope,
        Deed::End(ends.second),
        ends.in_order,
    )?;
    Ok((ends.body?, first, second))
}

// Spawns a job into a scope, in order or not, and answers its number.
fn spawn_one<R, C: SpawnsInto<Deed, R>>(
    rt: &R,
    alloc: Global,
    here: &mut C,
    scope: &mut C::Scope,
    job: Deed,
    in_order: bool,
) -> Result<u64, Refusal>
    ensures same { C.same here.old here.new }
{
    if in_order {
        number(spawn_fifo_into(rt, alloc, here, scope, job))
    } else {
        number(spawn_into(rt, alloc, here, scope, job))
    }
}

/// Spawns two jobs into the scope that this run's job is of, and ends so. `Ended` where it is of none.
pub fn fill<R: Waits<Deed>>(
    rt: &R,
    alloc: Global,
    w: &mut WorkerThread<Deed>,
    ctx: &mut FnContext<Deed>,
    ends: Endings,
) -> Result<u64, Refusal>
    ensures same { SameWorker w.old w.new }
{
    let Some(scope) = ctx.scope() else {
        return Err(Refusal::Ended);
    };
    let (digit, _first, _second) = spawn_two(rt, alloc, w, scope, ends)?;
    Ok(digit)
}

/// Opens a scope whose body is such a job, on either side, and answers its digits.
pub fn open_by_job<R, C: SpawnsInto<Deed, R, Outputs = Vec<Done<Deed>>>>(
    rt: &R,
    alloc: Global,
    here: &mut C,
    ends: Endings,
) -> Result<u64, Refusal>
    requires { C.has_levels here.old rt.now }
    ensures same { C.same here.old here.new }
{
    all_digits(scope(rt, alloc, here, Deed::Fill(ends)))
}

// The number that a spawn gave, without the job that it handed back.
fn number(spawned: Result<u64, (Refusal, Deed)>) -> Result<u64, Refusal> {
    match spawned {
        Ok(number) => Ok(number),
        Err((refusal, _job)) => Err(refusal),
    }
}

// What a scope gave: the digit that its body answered, and both jobs' outputs, each by its receipt.
fn digits<B: Drop>(
    ended: Result<Ended<Spawned, Vec<Done<Deed>>>, CallError<Refusal, B>>,
) -> Result<u64, Refusal> {
    let ended = once(ended)?;
    let (digit, first, second) = ended.value;
    let (a, b) = (output_at(&ended, first)?, output_at(&ended, second)?);
    Ok(after(after(digit, a), b))
}

// What a scope gave whose body was a job: the body's output, by its receipt, and the others in the order of their
// numbers.
fn all_digits<B: Drop>(
    ended: Result<Ended<u64, Vec<Done<Deed>>>, CallError<Refusal, B>>,
) -> Result<u64, Refusal> {
    let ended = once(ended)?;
    let mut found = output_at(&ended, ended.value)?;
    for done in ended.outputs.iter().skip(1) {
        found = after(found, done.output().copied().unwrap_or(0));
    }
    Ok(found)
}

// The output of the job of this number. `Ended` where there is none that meets its receipt.
fn output_at<V>(ended: &Ended<V, Vec<Done<Deed>>>, number: u64) -> Result<u64, Refusal> {
    let receipt = Receipt {
        number,
        tag: 0,
        place: None,
    };
    ended.output(&receipt).copied().ok_or(Refusal::Ended)
}

// These digits, and one more.
fn after(digits: u64, digit: u64) -> u64 {
    digits.saturating_mul(10).saturating_add(digit)
}

// What a job answers on the pool.
fn installed<R: Wait>(
    rt: &R,
    alloc: Global,
    here: &mut Outside<'_, Deed>,
    job: Deed,
) -> Result<u64, Refusal> {
    once(install(rt, alloc, here, job))
}

// What scopes give that end so: outside of a run and within one, in place and with a job for the body.
fn each_way<R: Wait>(
    rt: &R,
    alloc: Global,
    here: &mut Outside<'_, Deed>,
    ends: Endings,
) -> [Result<u64, Refusal>; 4] {
    [
        open_outside(rt, alloc, here, ends),
        open_by_job(rt, alloc, here, ends),
        installed(rt, alloc, here, Deed::Open(ends)),
        installed(rt, alloc, here, Deed::OpenByJob(ends)),
    ]
}

// The same, on a pool of so many workers.
fn scopes_on<R: Threads + Wait + Abort + Copy + Send + 'static>(
    rt: &R,
    alloc: Global,
    workers: usize,
    ends: Endings,
) -> [Result<u64, Refusal>; 4] {
    let (ids, global) = (Ids::new(), GlobalPool::new());
    global.end_after(rt, |global| {
        let builder = ThreadPoolBuilder::new().num_threads(workers);
        let filled = global.filled(rt, alloc, &ids, builder);
        let mut outside = filled.expect(rt, "a pool");
        each_way(rt, alloc, &mut outside, ends)
    })
}

// What scopes on 1, 2 or 4 workers give that end so, in order or not, where one of them gives anything but this.
fn unlike<R: Threads + Wait + Abort + Copy + Send + 'static>(
    rt: &R,
    alloc: Global,
    ends: Endings,
    wanted: Result<u64, Refusal>,
) -> Option<[Result<u64, Refusal>; 4]> {
    for workers in [1, 2, 4] {
        let found = scopes_on(rt, alloc, workers, ends);
        let ordered = Endings {
            in_order: true,
            ..ends
        };
        let in_order = scopes_on(rt, alloc, workers, ordered);
        if found != [wanted; 4] {
            return Some(found);
        }
        if in_order != [wanted; 4] {
            return Some(in_order);
        }
    }
    None
}

// A scope answers what its body answered, and each job's output at its number, on both sides and on any pool.
#[test]
fn outputs_are_found_by_number(rt: HostRuntime) -> Result<(), Fail> {
    let ends = Endings {
        first: Ok(2),
        second: Ok(3),
        body: Ok(1),
        in_order: false,
    };
    assert_eq!(rt; unlike(&rt, rt.alloc(), ends, Ok(123)), None);
    Ok(())
}

// The fault of a body is answered where its jobs have none, and a job's where the body has none.
#[test]
fn faults_are_answered(rt: HostRuntime) -> Result<(), Fail> {
    let alloc = rt.alloc();
    let body = Endings {
        first: Ok(2),
        second: Ok(3),
        body: Err(Refusal::Full),
        in_order: false,
    };
    let job = Endings {
        second: Err(Refusal::NoRoom),
        body: Ok(1),
        ..body
    };
    assert_eq!(rt; unlike(&rt, alloc, body, Err(Refusal::Full)), None);
    assert_eq!(rt; unlike(&rt, alloc, job, Err(Refusal::NoRoom)), None);
    Ok(())
}

// Whether a scope that is refused `Ended` hands its body back, which has not run.
fn hands_closure_back<R: Wait>(rt: &R, alloc: Global, here: &mut Outside<'_, Deed>) -> bool {
    let mut ran = false;
    let refused = in_place_scope(rt, alloc, here, |_here, _scope| {
        ran = true;
        Ok(1_u64)
    });
    let is_back = matches!(&refused, Err(CallError::Refused(Refusal::Ended, _)));
    drop(refused);
    is_back && !ran
}

// Whether one whose body is a job does so.
fn hands_job_back<R: Wait>(rt: &R, alloc: Global, here: &mut Outside<'_, Deed>) -> bool {
    let refused = scope_fifo(rt, alloc, here, Deed::End(Ok(7)));
    matches!(
        &refused,
        Err(CallError::Refused(Refusal::Ended, Deed::End(Ok(7))))
    )
}

// A pool that has ended opens no scope: the body comes back, and did not run.
#[test]
fn ended_pool_hands_bodies_back(rt: HostRuntime) -> Result<(), Fail> {
    let (alloc, ids, global) = (rt.alloc(), Ids::new(), GlobalPool::new());
    let copy = global.end_after(&rt, |global| {
        let builder = ThreadPoolBuilder::new().num_threads(1);
        let filled = global.filled(&rt, alloc, &ids, builder);
        filled.expect(&rt, "a pool").pool_ref()
    });
    let Ok(copy) = copy else {
        panic!(rt; "room");
    };
    let mut outside = Outside::of(&copy);
    assert!(rt; hands_closure_back(&rt, alloc, &mut outside));
    assert!(rt; hands_job_back(&rt, alloc, &mut outside));
    Ok(())
}
