//! A program that makes no pool itself: the global pool is made where it is first used, and ended once.
use crate::sum::Sum;
use rayon_core::{CallError, EndAfter, Ids};
use rayon_global::{GlobalPool, builder_of_environment, join};
use std::alloc::Global;
use std::env::Env;
use std::sync::Wait;
use std::thread::Threads;

/// The sums of both halves of the numbers, by as many workers as the environment and the processors say.
pub fn halves<R: Threads + Wait + Env + Copy + Send + 'static>(
    rt: &R,
    alloc: Global,
) -> anyhow::Result<(u64, u64)> {
    let ids = Ids::new();
    GlobalPool::new().end_after(rt, |global| {
        let builder = builder_of_environment(rt, alloc)?;
        let mut outside = global.filled(rt, alloc, &ids, builder)?;
        let (left, right) = (Sum { start: 0, end: 6 }, Sum { start: 6, end: 12 });
        let sums = join(rt, alloc, &mut outside, left, right);
        Ok(sums.map_err(CallError::without_sides)?)
    })
}
