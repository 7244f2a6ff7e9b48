//! Scopes of two jobs, or of two broadcasts, of which a spawn may be refused, and what they give.
ghost use Rattle.rayon_core.specs.Worker.{SameWorker};
ghost use Rattle.std.specs.Prelude.{◌≡◌, ℕ, ◌≤◌};

use crate::outcome::Outcome;
use crate::work::{Answer, Deed, Desk, Name, Work};
use rayon_core::{
    CallError, Done, Ended, Receipt, Refusal, Scope, ScopeCalls, ScopeFifo, Waits, WorkerThread,
};
use std::alloc::Global;
use std::sync::{Arc, Wait};

/// The numbers that a body's spawns were answered. None where one was refused.
pub type Numbers = (Option<u64>, Option<u64>);

/// Opens a scope, and spawns a job that answers 20 and one that answers 3 into it. Answers the sum of those that were
/// spawned.
pub fn scope<R: Waits<Work>>(
    rt: &R,
    alloc: Global,
    w: &mut WorkerThread<Work>,
    desk: &Arc<Desk>,
) -> Outcome
    requires levels { w.old.levels ≤ R.levels rt.now }
    ensures same { SameWorker w.old w.new }
{
    ended(
        w.scope(rt, alloc, |w, scope| spawn_both(rt, w, scope, desk)),
        desk,
        None,
    )
}

/// The same, of a scope in order.
pub fn scope_fifo<R: Waits<Work>>(
    rt: &R,
    alloc: Global,
    w: &mut WorkerThread<Work>,
    desk: &Arc<Desk>,
) -> Outcome
    requires levels { w.old.levels ≤ R.levels rt.now }
    ensures same { SameWorker w.old w.new }
{
    ended(
        w.scope_fifo(rt, alloc, |w, scope| spawn_in_order(rt, w, scope, desk)),
        desk,
        None,
    )
}

/// Opens a scope, and broadcasts two jobs into it, whose pieces answer 1 each. Answers the sum of those that were
/// broadcast.
pub fn scope_broadcast<R: Waits<Work>>(
    rt: &R,
    alloc: Global,
    w: &mut WorkerThread<Work>,
    desk: &Arc<Desk>,
) -> Outcome
    requires levels { w.old.levels ≤ R.levels rt.now }
    ensures same { SameWorker w.old w.new }
{
    let workers = w.current_num_threads();
    ended(
        w.scope(rt, alloc, |w, scope| cast_both(rt, alloc, w, scope, desk)),
        desk,
        Some(workers),
    )
}

// Spawns both jobs into a scope. Where the first is refused the second is spawned all the same.
fn spawn_both<R: Wait>(
    rt: &R,
    w: &mut WorkerThread<Work>,
    scope: &mut Scope<Work>,
    desk: &Arc<Desk>,
) -> Result<Numbers, Refusal>
    ensures same { SameWorker w.old w.new }
{
    let first = Work::new(Name::First, desk, Deed::Number(20))?;
    let second = Work::new(Name::Second, desk, Deed::Number(3))?;
    let first = number_of(scope.spawn(rt, w, first), Name::First, Deed::Number(20))?;
    let second = number_of(scope.spawn(rt, w, second), Name::Second, Deed::Number(3))?;
    Ok((first, second))
}

// The same, into a scope in order.
fn spawn_in_order<R: Wait>(
    rt: &R,
    w: &mut WorkerThread<Work>,
    scope: &mut ScopeFifo<Work>,
    desk: &Arc<Desk>,
) -> Result<Numbers, Refusal>
    ensures same { SameWorker w.old w.new }
{
    let first = Work::new(Name::First, desk, Deed::Number(20))?;
    let second = Work::new(Name::Second, desk, Deed::Number(3))?;
    let first = number_of(
        scope.spawn_fifo(rt, w, first),
        Name::First,
        Deed::Number(20),
    )?;
    let second = number_of(
        scope.spawn_fifo(rt, w, second),
        Name::Second,
        Deed::Number(3),
    )?;
    Ok((first, second))
}

// Broadcasts both jobs into a scope. Where the first is refused the second is broadcast all the same.
fn cast_both<R: Wait>(
    rt: &R,
    alloc: Global,
    w: &mut WorkerThread<Work>,
    scope: &mut Scope<Work>,
    desk: &Arc<Desk>,
) -> Result<Numbers, Refusal>
    ensures same { SameWorker w.old w.new }
{
    let first = Work::new(Name::First, desk, Deed::Number(20))?;
    let second = Work::new(Name::Second, desk, Deed::Number(3))?;
    let first = number_of(
        scope.spawn_broadcast(rt, alloc, w, first),
        Name::First,
        Deed::Number(20),
    )?;
    let second = number_of(
        scope.spawn_broadcast(rt, alloc, w, second),
        Name::Second,
        Deed::Number(3),
    )?;
    Ok((first, second))
}

/// The number that a spawn of the job with this name, which does this, was answered. None where want of memory refused
/// it, with that very job back.
pub fn number_of(
    answer: Result<u64, (Refusal, Work)>,
    name: Name,
    deed: Deed,
) -> Result<Option<u64>, Refusal> {
    match answer {
        Ok(number) => Ok(Some(number)),
        Err((Refusal::NoRoom, job)) if job.is(name, deed) => Ok(None),
        Err((refusal, _)) => Err(refusal),
    }
}

/// What a scope gave, whose jobs are pieces on so many workers, or whole ones. Where it was refused its body came back,
/// which has made no job.
pub fn ended<B: Drop>(
    answer: Result<Ended<Numbers, Vec<Done<Work>>>, CallError<Refusal, B>>,
    desk: &Arc<Desk>,
    pieces: Option<usize>,
) -> Outcome {
    match answer {
        Ok(ended) => summed(&ended, desk, pieces),
        Err(CallError::Refused(refusal, _body)) => Outcome::Refused {
            refusal,
            same_jobs: true,
            runs: desk.runs(),
        },
        Err(_) => Outcome::Unlike,
    }
}

/// What a scope gave whose jobs, or their pieces on so many workers, have these outputs: their sum.
pub fn summed(
    ended: &Ended<Numbers, Vec<Done<Work>>>,
    desk: &Arc<Desk>,
    pieces: Option<usize>,
) -> Outcome {
    match sum_of(ended, desk.runs(), pieces) {
        Some(sum) => Outcome::Answered(sum),
        None => Outcome::Unlike,
    }
}

// The sum of the outputs. None unless those that were spawned have the numbers from 0 on, each has its output there,
// and there are as many outputs and runs as spawned jobs, or pieces of them.
fn sum_of(
    ended: &Ended<Numbers, Vec<Done<Work>>>,
    runs: u64,
    pieces: Option<usize>,
) -> Option<u64> {
    let (first, second) = ended.value;
    let each = pieces.unwrap_or(1) as u64;
    let mut spawned = 0u64;
    let mut sum = 0u64;
    for (number, name) in [(first, Name::First), (second, Name::Second)] {
        let Some(number) = number else {
            continue;
        };
        if number != spawned {
            return None;
        }
        spawned = spawned.saturating_add(each);
        sum = sum.saturating_add(sum_of_one(ended, number, name, pieces)?);
    }
    if ended.outputs.len() as u64 == spawned && runs == spawned {
        Some(sum)
    } else {
        None
    }
}

// The output of the job with this name and this number, or the sum of those of its pieces on so many workers, which
// have the numbers from this one on. None where one is missing.
fn sum_of_one(
    ended: &Ended<Numbers, Vec<Done<Work>>>,
    number: u64,
    name: Name,
    pieces: Option<usize>,
) -> Option<u64> {
    let Some(workers) = pieces else {
        return output_of(ended, number, name, None);
    };
    let mut sum = 0u64;
    for index in 0..workers {
        let number = number.saturating_add(index as u64);
        sum = sum.saturating_add(output_of(ended, number, name, Some((index, workers)))?);
    }
    Some(sum)
}

// The output of the job with this name and this number, at this place. None where there is no such.
fn output_of(
    ended: &Ended<Numbers, Vec<Done<Work>>>,
    number: u64,
    name: Name,
    place: Option<(usize, usize)>,
) -> Option<u64> {
    let receipt = Receipt {
        number,
        tag: name.tag(),
        place,
    };
    match ended.output(&receipt) {
        Some(Answer::Number(output)) => Some(*output),
        _ => None,
    }
}
