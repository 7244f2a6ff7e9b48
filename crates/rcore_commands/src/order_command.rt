//! The command order.
ghost use Rattle.rcore_commands.specs.Lines.{spaced};
ghost use Rattle.spawn_orders.specs.Orders.{numbers_of};
ghost use Rattle.std.specs.Io.KnownBytes.{Appends};
ghost use Rattle.std.specs.List.Sorted.{IsPermutation};
ghost use Rattle.std.specs.Prelude.{◌≡◌, ℤ, ◌∷◌, ◌++◌, [], List};

use crate::run::{build_error_name, fail};
use crate::spaced::print_numbers;
use rayon_core::Ids;
use spawn_orders::{Order, run_order};
use std::alloc::Global;
use std::io::Write;
use std::sync::Wait;
use std::thread::Threads;

/// Runs the jobs of an order on a pool of one worker, prints their numbers in the order in which they ran, and answers
/// the status.
pub(crate) fn print_order<R: Threads + Wait + Copy + Send + 'static, W: Write, E: Write>(
    rt: &R,
    alloc: Global,
    order: Order,
    out: &mut W,
    err: &mut E,
) -> u8
    ensures done { result ≡ 0 → (ns : List ℤ) × IsPermutation ns (numbers_of order) × Appends (W.contents out.old) (W.contents out.new) (spaced ns ++ 10 ∷ []) }
    ensures status { result ≡ 2 → ⊥ }
{
    let ids = Ids::new();
    let pool = match order.pool().build(rt, alloc, &ids) {
        Ok(pool) => pool,
        Err(error) => return fail(err, build_error_name(&error)),
    };
    let answer = run_order(rt, alloc, &pool, order);
    pool.end_and_join(rt);
    match answer {
        Ok(numbers) => print_numbers(numbers.as_slice(), out, err),
        Err(fault) => fail(err, fault),
    }
}
