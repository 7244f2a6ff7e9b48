//! Scopes that the main thread opens on a pool, of which an allocation may be refused, and what they give.

use crate::in_scope::{Numbers, ended, number_of, summed};
use crate::outcome::Outcome;
use crate::work::{Deed, Desk, Name, Work};
use rayon_core::{CallError, Ended, InPlaceCalls, PoolRef, Refusal, Scope};
use std::alloc::Global;
use std::sync::{Arc, Wait};

/// Opens a scope in place, and injects a job that answers 20 and one that answers 3 into it. Answers the sum of those
/// that were injected.
pub fn in_place_scope<R: Wait>(
    rt: &R,
    alloc: Global,
    pool: &PoolRef<Work>,
    desk: &Arc<Desk>,
) -> Outcome {
    ended(
        pool.in_place_scope(rt, alloc, |scope| {
            inject_both(rt, alloc, pool, scope, desk)
        }),
        desk,
        None,
    )
}

/// Opens a scope in place, and broadcasts two jobs into it, whose pieces answer 1 each. Answers the sum of those that
/// were broadcast.
pub fn in_place_broadcast<R: Wait>(
    rt: &R,
    alloc: Global,
    pool: &PoolRef<Work>,
    desk: &Arc<Desk>,
) -> Outcome {
    let workers = pool.current_num_threads();
    ended(
        pool.in_place_scope(rt, alloc, |scope| cast_both(rt, alloc, pool, scope, desk)),
        desk,
        Some(workers),
    )
}

// Injects both jobs into a scope. Where the first is refused the second is injected all the same.
fn inject_both<R: Wait>(
    rt: &R,
    alloc: Global,
    pool: &PoolRef<Work>,
    scope: &mut Scope<Work>,
    desk: &Arc<Desk>,
) -> Result<Numbers, Refusal> {
    let (one, two) = (Deed::Number(20), Deed::Number(3));
    let first = Work::new(Name::First, desk, one)?;
    let second = Work::new(Name::Second, desk, two)?;
    let first = number_of(scope.inject(rt, alloc, pool, first), Name::First, one)?;
    let second = number_of(scope.inject(rt, alloc, pool, second), Name::Second, two)?;
    Ok((first, second))
}

// Broadcasts both jobs into a scope. Where the first is refused the second is broadcast all the same.
fn cast_both<R: Wait>(
    rt: &R,
    alloc: Global,
    pool: &PoolRef<Work>,
    scope: &mut Scope<Work>,
    desk: &Arc<Desk>,
) -> Result<Numbers, Refusal> {
    let (one, two) = (Deed::Number(20), Deed::Number(3));
    let first = Work::new(Name::First, desk, one)?;
    let second = Work::new(Name::Second, desk, two)?;
    let first = number_of(
        scope.inject_broadcast(rt, alloc, pool, first),
        Name::First,
        one,
    )?;
    let second = number_of(
        scope.inject_broadcast(rt, alloc, pool, second),
        Name::Second,
        two,
    )?;
    Ok((first, second))
}

/// Runs a job that answers 20 on the pool, as the body of a scope. Answers its output.
pub fn pool_scope<R: Wait>(
    rt: &R,
    alloc: Global,
    pool: &PoolRef<Work>,
    desk: &Arc<Desk>,
) -> Result<Outcome, Refusal> {
    let body = Work::new(Name::First, desk, Deed::Number(20))?;
    Ok(match pool.scope(rt, alloc, body) {
        Ok(Ended { value, outputs }) => {
            let value = (Some(value), None);
            summed(&Ended { value, outputs }, desk, None)
        }
        Err(CallError::Refused(refusal, body)) => Outcome::Refused {
            refusal,
            same_jobs: body.is(Name::First, Deed::Number(20)),
            runs: desk.runs(),
        },
        Err(_) => Outcome::Unlike,
    })
}
