//! The calls that a job makes on its worker, and what they give.
ghost use Rattle.std.specs.Prelude.{◌≡◌, ℕ, ◌≤◌};

use crate::in_scope::{scope, scope_broadcast, scope_fifo};
use crate::outcome::{Outcome, Report};
use crate::work::{Answer, Deed, Desk, Name, Work, gathered, joined, spawned};
use rayon_core::latch::OwnLatch;
use rayon_core::{CallError, Refusal, Waits, WorkerThread};
use std::alloc::Global;
use std::sync::{Arc, Wait};

/// How many joins stand nested: more than a deque has room for at first.
const DEPTH: u32 = 40;

/// A call on a worker.
#[derive(Clone, Copy, PartialEq, Eq)]
pub enum WorkerCall {
    /// `WorkerThread::join_jobs`.
    Join,
    /// `WorkerThread::install`.
    Install,
    /// `WorkerThread::wait_until`.
    WaitUntil,
    /// `WorkerThread::spawn`.
    Spawn,
    /// `WorkerThread::spawn_fifo`.
    SpawnFifo,
    /// `WorkerThread::spawn_broadcast`.
    Broadcast,
    /// `WorkerThread::broadcast`, which waits.
    Gather,
    /// `ScopeCalls::scope`, with two spawns.
    Scope,
    /// `ScopeCalls::scope_fifo`, likewise.
    ScopeFifo,
    /// `ScopeCalls::scope`, with two broadcasts into it.
    ScopeBroadcast,
    /// `WorkerThread::owner`.
    Owner,
    /// `WorkerThread::push`, of a second side that was taken before.
    Push,
    /// `WorkerThread::push_fifo`, likewise.
    PushFifo,
    /// `WorkerThread::join_jobs` within the first side of another, so often.
    Deep,
}

/// Makes the call on a worker and, where it is refused, the same again. Refused where something before it is refused.
pub fn make_on_worker<R: Waits<Work>>(
    rt: &R,
    alloc: Global,
    w: &mut WorkerThread<Work>,
    desk: &Arc<Desk>,
    call: WorkerCall,
) -> Result<Report, Refusal>
    requires { w.old.levels ≤ R.levels rt.now }
    ensures id { w.new.id ≡ w.old.id }
    ensures level { w.new.levels ≡ w.old.levels }
    ensures units { w.new.units ≡ w.old.units }
    ensures shape { w.new.shape ≡ w.old.shape }
{
    if call == WorkerCall::Deep {
        return deep(rt, alloc, w, desk, DEPTH);
    }
    let first = make_once(rt, alloc, w, desk, call)?;
    let again = match first {
        Outcome::Refused { .. } => Some(make_once(rt, alloc, w, desk, call)?),
        _ => None,
    };
    Ok(Report { first, again })
}

// Makes the call once.
fn make_once<R: Waits<Work>>(
    rt: &R,
    alloc: Global,
    w: &mut WorkerThread<Work>,
    desk: &Arc<Desk>,
    call: WorkerCall,
) -> Result<Outcome, Refusal>
    requires { w.old.levels ≤ R.levels rt.now }
    ensures id { w.new.id ≡ w.old.id }
    ensures level { w.new.levels ≡ w.old.levels }
    ensures units { w.new.units ≡ w.old.units }
    ensures shape { w.new.shape ≡ w.old.shape }
{
    match call {
        WorkerCall::Join => join(rt, alloc, w, desk, Deed::Number(20)),
        WorkerCall::Push => join(rt, alloc, w, desk, Deed::Push),
        WorkerCall::PushFifo => join(rt, alloc, w, desk, Deed::PushFifo),
        WorkerCall::Install => install(rt, alloc, w, desk),
        WorkerCall::WaitUntil => Ok(wait_until(rt, alloc, w, desk)),
        WorkerCall::Owner => Ok(owner(w, desk)),
        WorkerCall::Spawn => spawn(rt, alloc, w, desk, false),
        WorkerCall::SpawnFifo => spawn(rt, alloc, w, desk, true),
        WorkerCall::Broadcast => broadcast(rt, alloc, w, desk),
        WorkerCall::Gather => gather(rt, alloc, w, desk),
        WorkerCall::Scope => Ok(scope(rt, alloc, w, desk)),
        WorkerCall::ScopeFifo => Ok(scope_fifo(rt, alloc, w, desk)),
        WorkerCall::ScopeBroadcast => Ok(scope_broadcast(rt, alloc, w, desk)),
        WorkerCall::Deep => Ok(Outcome::Unlike),
    }
}

// Joins a job that does this, and one that answers 3.
fn join<R: Waits<Work>>(
    rt: &R,
    alloc: Global,
    w: &mut WorkerThread<Work>,
    desk: &Arc<Desk>,
    deed: Deed,
) -> Result<Outcome, Refusal>
    requires { w.old.levels ≤ R.levels rt.now }
    ensures id { w.new.id ≡ w.old.id }
    ensures level { w.new.levels ≡ w.old.levels }
    ensures units { w.new.units ≡ w.old.units }
    ensures shape { w.new.shape ≡ w.old.shape }
{
    let first = Work::new(Name::First, desk, deed)?;
    let second = Work::new(Name::Second, desk, Deed::Number(3))?;
    let answer = w.join_jobs(rt, alloc, first, second);
    Ok(joined(answer, desk, deed, Deed::Number(3)))
}

// Installs a job that answers a number.
fn install<R: Waits<Work>>(
    rt: &R,
    alloc: Global,
    w: &mut WorkerThread<Work>,
    desk: &Arc<Desk>,
) -> Result<Outcome, Refusal>
    requires { w.old.levels ≤ R.levels rt.now }
    ensures id { w.new.id ≡ w.old.id }
    ensures level { w.new.levels ≡ w.old.levels }
    ensures units { w.new.units ≡ w.old.units }
    ensures shape { w.new.shape ≡ w.old.shape }
{
    let job = Work::new(Name::First, desk, Deed::Number(7))?;
    Ok(match w.install(rt, alloc, job) {
        Ok(Answer::Number(number)) => Outcome::Answered(number),
        Err(CallError::Refused(refusal, job)) => Outcome::Refused {
            refusal,
            same_jobs: job.is(Name::First, Deed::Number(7)),
            runs: desk.runs(),
        },
        _ => Outcome::Unlike,
    })
}

// Spawns a job that counts its run, in order or not.
fn spawn<R: Waits<Work>>(
    rt: &R,
    alloc: Global,
    w: &mut WorkerThread<Work>,
    desk: &Arc<Desk>,
    in_order: bool,
) -> Result<Outcome, Refusal>
    ensures id { w.new.id ≡ w.old.id }
    ensures level { w.new.levels ≡ w.old.levels }
    ensures units { w.new.units ≡ w.old.units }
    ensures shape { w.new.shape ≡ w.old.shape }
{
    let job = Work::new(Name::First, desk, Deed::Number(7))?;
    let answer = if in_order {
        w.spawn_fifo(rt, alloc, job)
    } else {
        w.spawn(rt, alloc, job)
    };
    Ok(spawned(answer, desk, Name::First))
}

// Broadcasts a job whose pieces count their runs.
fn broadcast<R: Waits<Work>>(
    rt: &R,
    alloc: Global,
    w: &mut WorkerThread<Work>,
    desk: &Arc<Desk>,
) -> Result<Outcome, Refusal>
    ensures id { w.new.id ≡ w.old.id }
    ensures level { w.new.levels ≡ w.old.levels }
    ensures units { w.new.units ≡ w.old.units }
    ensures shape { w.new.shape ≡ w.old.shape }
{
    let job = Work::new(Name::First, desk, Deed::Number(7))?;
    let answer = w.spawn_broadcast(rt, alloc, job);
    Ok(spawned(answer, desk, Name::First))
}

// Broadcasts a job whose pieces count their runs, and waits for them.
fn gather<R: Waits<Work>>(
    rt: &R,
    alloc: Global,
    w: &mut WorkerThread<Work>,
    desk: &Arc<Desk>,
) -> Result<Outcome, Refusal>
    requires { w.old.levels ≤ R.levels rt.now }
    ensures id { w.new.id ≡ w.old.id }
    ensures level { w.new.levels ≡ w.old.levels }
    ensures units { w.new.units ≡ w.old.units }
    ensures shape { w.new.shape ≡ w.old.shape }
{
    let job = Work::new(Name::First, desk, Deed::Number(7))?;
    let answer = w.broadcast(rt, alloc, job);
    Ok(gathered(answer, desk, Name::First))
}

// Makes a latch, and waits until it is set, which it is.
fn wait_until<R: Waits<Work>>(
    rt: &R,
    alloc: Global,
    w: &mut WorkerThread<Work>,
    desk: &Arc<Desk>,
) -> Outcome
    requires { w.old.levels ≤ R.levels rt.now }
    ensures id { w.new.id ≡ w.old.id }
    ensures level { w.new.levels ≡ w.old.levels }
    ensures units { w.new.units ≡ w.old.units }
    ensures shape { w.new.shape ≡ w.old.shape }
{
    let (latch, mut own) = match OwnLatch::new(alloc) {
        Ok(made) => made,
        Err(refusal) => {
            return Outcome::Refused {
                refusal,
                same_jobs: true,
                runs: desk.runs(),
            };
        }
    };
    latch.set_as_guest();
    match w.wait_until(rt, alloc, &mut own) {
        Ok(()) => Outcome::Answered(1),
        Err(_) => Outcome::Unlike,
    }
}

// Asks for what stands for the worker where a latch is set.
fn owner(w: &WorkerThread<Work>, desk: &Arc<Desk>) -> Outcome {
    match w.owner() {
        Ok(_) => Outcome::Answered(1),
        Err(refusal) => Outcome::Refused {
            refusal,
            same_jobs: true,
            runs: desk.runs(),
        },
    }
}

/// Takes the newest task out of the worker's own deque and pushes it again, and once more where that is refused: then
/// it answers one less than 20.
pub fn push_again<R: Wait>(rt: &R, w: &mut WorkerThread<Work>) -> Result<Answer, Refusal>
    ensures id { w.new.id ≡ w.old.id }
    ensures level { w.new.levels ≡ w.old.levels }
    ensures units { w.new.units ≡ w.old.units }
    ensures shape { w.new.shape ≡ w.old.shape }
{
    let Some(task) = w.take_local_job(rt) else {
        return Ok(Answer::Number(0));
    };
    match w.push(rt, task) {
        Ok(()) => Ok(Answer::Number(20)),
        Err((_, task)) => match w.push(rt, task) {
            Ok(()) => Ok(Answer::Number(19)),
            Err((refusal, _)) => Err(refusal),
        },
    }
}

/// The same, but pushes it into the worker's own FIFO list.
pub fn push_in_order<R: Wait>(
    rt: &R,
    alloc: Global,
    w: &mut WorkerThread<Work>,
) -> Result<Answer, Refusal>
    ensures id { w.new.id ≡ w.old.id }
    ensures level { w.new.levels ≡ w.old.levels }
    ensures units { w.new.units ≡ w.old.units }
    ensures shape { w.new.shape ≡ w.old.shape }
{
    let Some(task) = w.take_local_job(rt) else {
        return Ok(Answer::Number(0));
    };
    match w.push_fifo(rt, alloc, task) {
        Ok(()) => Ok(Answer::Number(20)),
        Err((_, task)) => match w.push_fifo(rt, alloc, task) {
            Ok(()) => Ok(Answer::Number(19)),
            Err((refusal, _)) => Err(refusal),
        },
    }
}

/// Joins the same one less deep, and a job that answers 1, and where that is refused the same again. What the one below
/// reported comes out where this one is not refused.
pub fn deep<R: Waits<Work>>(
    rt: &R,
    alloc: Global,
    w: &mut WorkerThread<Work>,
    desk: &Arc<Desk>,
    depth: u32,
) -> Result<Report, Refusal>
    requires { w.old.levels ≤ R.levels rt.now }
    ensures id { w.new.id ≡ w.old.id }
    ensures level { w.new.levels ≡ w.old.levels }
    ensures units { w.new.units ≡ w.old.units }
    ensures shape { w.new.shape ≡ w.old.shape }
{
    let report = join_below(rt, alloc, w, desk, depth)?;
    match report {
        Report {
            first: Outcome::Refused { .. },
            again: None,
        } => {
            let again = join_below(rt, alloc, w, desk, depth)?;
            Ok(Report {
                first: report.first,
                again: Some(again.first),
            })
        }
        report => Ok(report),
    }
}

// The same, once.
fn join_below<R: Waits<Work>>(
    rt: &R,
    alloc: Global,
    w: &mut WorkerThread<Work>,
    desk: &Arc<Desk>,
    depth: u32,
) -> Result<Report, Refusal>
    requires { w.old.levels ≤ R.levels rt.now }
    ensures id { w.new.id ≡ w.old.id }
    ensures level { w.new.levels ≡ w.old.levels }
    ensures units { w.new.units ≡ w.old.units }
    ensures shape { w.new.shape ≡ w.old.shape }
{
    let Some(below) = depth.checked_sub(1) else {
        return Ok(Report::of(Outcome::Answered(0)));
    };
    let first = Work::new(Name::First, desk, Deed::Deep(below))?;
    let second = Work::new(Name::Second, desk, Deed::Number(1))?;
    match w.join_jobs(rt, alloc, first, second) {
        Ok((Answer::Reported, Answer::Number(number))) => Ok(desk.take(rt).and(number)),
        answer => Ok(Report::of(joined(answer, desk, Deed::Deep(below), Deed::Number(1)))),
    }
}
