//! Several threads call one pool, by a `PoolRef`; what each thread answers is promised to the one that joins it.
ghost use Rattle.std.specs.Prelude.{◌≡◌, ℕ, ◌+◌, IfOk, IfSome};

use crate::closure::{Ask, AskFault};
use rayon_core::{CallError, PoolRef};
use std::alloc::Global;
use std::sync::Wait;
use std::thread;
use std::thread::{Promise, Threads};

/// Three times a number, found on the pool by a thread that is none of its workers.
pub fn triple_of<R: Wait>(
    rt: &R,
    alloc: Global,
    pool: &PoolRef<Ask>,
    n: u32,
) -> Result<u32, AskFault>
    ensures { IfOk result (λ v. v ≡ n + n + n) }
{
    let answer = pool.install(rt, alloc, Ask::Triple(n));
    Ok(answer.map_err(CallError::without_sides)?)
}

// What a thread promises that finds three times this number.
#[derive(Drop)]
struct TripleOf(u32);

impl Promise<Result<u32, AskFault>> for TripleOf {
    ghost kept_by = { λ p r. IfOk r (λ v. v ≡ p.0 + p.0 + p.0) };
}

/// Three times each of two numbers: the first is found by a thread of its own. None where something was refused.
pub fn triples_of<R: Threads + Wait + Copy + Send + 'static>(
    rt: &R,
    alloc: Global,
    pool: &PoolRef<Ask>,
    m: u32,
    n: u32,
) -> Option<(u32, u32)>
    ensures { IfSome result (λ p. (p.0 ≡ m + m + m) × (p.1 ≡ n + n + n)) }
{
    let theirs = *rt;
    let Ok(their_pool) = pool.pool_ref() else {
        return None;
    };
    let find = move || triple_of(&theirs, alloc, &their_pool, m);
    let other = thread::spawn_with(rt, TripleOf(m), find).ok()?;
    let own = triple_of(rt, alloc, pool, n);
    let other = other.join(rt);
    Some((other.ok()?, own.ok()?))
}
