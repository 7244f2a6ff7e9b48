//! A first program: two Fibonacci numbers, found beside each other by the global pool. That is made where it is first
//! used, with as many workers as the environment says, else as there are processors; standard error tells how many.
#![tactic(auto)]

use fibonacci::Fib;
use rayon_core::{CallError, EndAfter, Ids};
use rayon_global::{GlobalPool, builder_of_environment, current_num_threads, join};

fn main(rt: HostRuntime) -> anyhow::Result<()> {
    let (alloc, ids) = (rt.alloc(), Ids::new());
    GlobalPool::new().end_after(&rt, |global| {
        let builder = builder_of_environment(&rt, alloc)?;
        let mut pool = global.filled(&rt, alloc, &ids, builder)?;
        let numbers = join(&rt, alloc, &mut pool, Fib(20), Fib(10));
        let (left, right) = numbers.map_err(CallError::without_sides)?;
        eprintln!(rt; "workers: {}", current_num_threads(&pool))?;
        Ok(println!(rt; "{left} {right}")?)
    })
}
