//! A scope that a thread which is no worker opens on a pool: it spawns one job itself, and another thread one more.
ghost use Rattle.std.specs.Prelude.{◌≡◌, ℕ, ◌+◌, IfOk};

use crate::closure::{Ask, AskFault};
use crate::scopes::double_at;
use rayon_core::{CallError, InPlaceCalls, PoolRef, Scope};
use std::alloc::Global;
use std::sync::Wait;
use std::thread;
use std::thread::Threads;

/// Twice the first number, and how many jobs the scope had in which that was found. Another thread spawns one for the
/// second number, where it can be started.
pub fn double_in_place<R: Threads + Wait + Copy + Send + 'static>(
    rt: &R,
    alloc: Global,
    pool: &PoolRef<Ask>,
    own: u32,
    theirs: u32,
) -> Result<(u32, usize), AskFault>
    ensures { IfOk result (λ r. r.0 ≡ own + own) }
{
    let ended = pool.in_place_scope(rt, alloc, |scope| {
        spawn_both(rt, alloc, pool, scope, own, theirs)
    });
    let ended = ended.map_err(CallError::without_sides)?;
    let double = double_at(&ended, ended.value, own)?;
    Ok((double, ended.outputs.len()))
}

// Spawns a job for each number, the second by another thread, and answers the first job's number in the scope.
fn spawn_both<R: Threads + Wait + Copy + Send + 'static>(
    rt: &R,
    alloc: Global,
    pool: &PoolRef<Ask>,
    scope: &mut Scope<Ask>,
    own: u32,
    theirs: u32,
) -> Result<u64, AskFault> {
    let handle = *rt;
    let (Ok(their_pool), Ok(mut share)) = (pool.pool_ref(), scope.share(alloc)) else {
        return Err(AskFault::Lost);
    };
    let spawn = move || share
        .inject(&handle, alloc, &their_pool, Ask::Double(theirs))
        .is_ok();
    let Ok(other) = thread::spawn(rt, spawn) else {
        return Err(AskFault::Lost);
    };
    let number = scope.inject(rt, alloc, pool, Ask::Double(own))?;
    other.join(rt);
    Ok(number)
}
