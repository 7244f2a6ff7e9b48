//! How a pool is made for each feature, with as many workers as the environment says, else as there are processors; and
//! how it is lent and ended.
ghost use Rattle.std.specs.Prelude.{◌≡◌, IfOk, false};

use crate::closure::Ask;
use crate::global::halves;
use crate::in_place::double_in_place;
use crate::migrated::Tell;
use crate::server::serve;
use crate::sort::Sort;
use crate::sum::Sum;
use crate::threads::triples_of;
use crate::tree::{Evaluate, Expression, Operator};
use rayon_core::{CallError, EndAfter, Ids};
use rayon_global::builder_of_environment;
use std::alloc::Global;
use std::env::Env;
use std::rt::Runtime;
use std::sync::Wait;
use std::thread::Threads;

// The sum of all numbers, and of each half.
fn sums<R: Threads + Wait + Env + Copy + Send + 'static>(
    rt: &R,
    alloc: Global,
    ids: &Ids,
) -> anyhow::Result<(u64, u64, u64)> {
    let pool = builder_of_environment(rt, alloc)?.build(rt, alloc, ids)?;
    pool.end_after(rt, |pool| {
        let whole = pool.install(rt, alloc, Sum { start: 0, end: 12 });
        let (left, right) = (Sum { start: 0, end: 6 }, Sum { start: 6, end: 12 });
        let halves = pool.join(rt, alloc, left, right);
        let whole = whole.map_err(CallError::without_sides)?;
        let (left, right) = halves.map_err(CallError::without_sides)?;
        Ok((whole, left, right))
    })
}

// Numbers that are owned, in ascending order.
fn ascending<R: Threads + Wait + Env + Copy + Send + 'static>(
    rt: &R,
    alloc: Global,
    ids: &Ids,
    numbers: Vec<u64>,
) -> anyhow::Result<Vec<u64>> {
    let numbers: &'static [u64] = numbers.leak();
    let pool = builder_of_environment(rt, alloc)?.build(rt, alloc, ids)?;
    let sorted = pool.install(rt, alloc, Sort(numbers));
    pool.end_and_join(rt);
    Ok(sorted.map_err(CallError::without_sides)?)
}

// The value of (2 + 3) * (4 + 5).
fn product_of_sums<R: Threads + Wait + Env + Copy + Send + 'static>(
    rt: &R,
    alloc: Global,
    ids: &Ids,
) -> anyhow::Result<u64> {
    let number = Expression::Number;
    let left = Expression::apply(alloc, Operator::Plus, number(2), number(3))?;
    let right = Expression::apply(alloc, Operator::Plus, number(4), number(5))?;
    let whole = Expression::apply(alloc, Operator::Times, left, right)?;
    let job = Evaluate::leaked(alloc, whole)?;
    let pool = builder_of_environment(rt, alloc)?
        .depth_limit(9)
        .build(rt, alloc, ids)?;
    let value = pool.end_after(rt, |pool| pool.install(rt, alloc, job));
    Ok(value.map_err(CallError::without_sides)?)
}

// Three times 5 and three times 7, by two threads.
fn triples<R: Threads + Wait + Env + Copy + Send + 'static>(
    rt: &R,
    alloc: Global,
    ids: &Ids,
) -> anyhow::Result<Option<(u32, u32)>> {
    let pool = builder_of_environment(rt, alloc)?.build(rt, alloc, ids)?;
    pool.end_after(rt, |pool| {
        let shared = pool.pool_ref()?;
        Ok(triples_of(rt, alloc, &shared, 5, 7))
    })
}

// Whether the first side of a join migrated, where it is a job and where it is a closure.
fn first_sides<R: Threads + Wait + Env + Copy + Send + 'static>(
    rt: &R,
    alloc: Global,
    ids: &Ids,
) -> anyhow::Result<(bool, bool)>
    ensures { IfOk result (λ p. (p.0 ≡ false) × (p.1 ≡ false)) }
{
    let pool = builder_of_environment(rt, alloc)?.build(rt, alloc, ids)?;
    let job = pool.install(rt, alloc, Tell::FirstJob);
    let closure = pool.install(rt, alloc, Tell::Closure);
    pool.end_and_join(rt);
    let job = job.map_err(CallError::without_sides)?;
    let closure = closure.map_err(CallError::without_sides)?;
    Ok((job, closure))
}

// Twice the sum of 2, 3 and 6.
fn twice_the_sum<R: Threads + Wait + Env + Copy + Send + 'static>(
    rt: &R,
    alloc: Global,
    ids: &Ids,
) -> anyhow::Result<u32>
    ensures { IfOk result (λ v. v ≡ 22) }
{
    let pool = builder_of_environment(rt, alloc)?.build(rt, alloc, ids)?;
    let sum = pool.install(rt, alloc, Ask::Doubles(2, 3, 6));
    pool.end_and_join(rt);
    Ok(sum.map_err(CallError::without_sides)?)
}

// Twice 8 by a scope from outside, and how many jobs that had.
fn doubled_in_place<R: Threads + Wait + Env + Copy + Send + 'static>(
    rt: &R,
    alloc: Global,
    ids: &Ids,
) -> anyhow::Result<(u32, usize)>
    ensures { IfOk result (λ p. p.0 ≡ 16) }
{
    let pool = builder_of_environment(rt, alloc)?.build(rt, alloc, ids)?;
    let doubled = double_in_place(rt, alloc, &pool, 8, 9);
    pool.end_and_join(rt);
    Ok(doubled?)
}

/// Makes each of these pools in turn, and prints what came of it.
pub fn print_all<R: Runtime + Threads + Wait + Copy + Send + 'static>(
    rt: &R,
    alloc: Global,
) -> anyhow::Result<()> {
    let ids = Ids::new();
    let (whole, left, right) = sums(rt, alloc, &ids)?;
    println!(rt; "sum: {whole} = {left} + {right}")?;
    let sorted = ascending(rt, alloc, &ids, vec![in alloc; 3, 1, 4, 1, 5]?)?;
    println!(rt; "sorted: {sorted:?}")?;
    let value = product_of_sums(rt, alloc, &ids)?;
    println!(rt; "value: {value}")?;
    let triples = triples(rt, alloc, &ids)?;
    println!(rt; "triples: {triples:?}")?;
    let (job, closure) = first_sides(rt, alloc, &ids)?;
    println!(rt; "migrated: {job} {closure}")?;
    let doubled = twice_the_sum(rt, alloc, &ids)?;
    println!(rt; "doubled: {doubled}")?;
    let (doubled, jobs) = doubled_in_place(rt, alloc, &ids)?;
    println!(rt; "in place: {doubled} of {jobs} jobs")?;
    let (left, right) = halves(rt, alloc)?;
    println!(rt; "halves: {left} + {right}")?;
    let batch = [1, 2, 3, u32::MAX, 4, 5, u32::MAX, 6];
    let (begun, ended, total, failed) = serve(rt, alloc, &ids, &batch)?;
    println!(rt; "server: {begun} threads, {ended} ended, {total} paid, {failed} failed")?;
    Ok(())
}
