//! The command broadcast.
ghost use Rattle.rcore_commands.specs.Lines.{spaced};
ghost use Rattle.rcore_commands.specs.Squares.{squares};
ghost use Rattle.rcore_commands.specs.Words.{AreWorkers};
ghost use Rattle.std.specs.Io.KnownBytes.{Appends};
ghost use Rattle.std.specs.Prelude.{◌≡◌, pos, ◌∷◌, ◌++◌, [], map};

use crate::run::{build_error_name, fail};
use crate::spaced::print_numbers;
use crate::squares::Squares;
use rayon_core::{Ids, ThreadPoolBuilder};
use std::alloc::Global;
use std::io::Write;
use std::sync::Wait;
use std::thread::Threads;

/// Broadcasts one job to a pool of so many workers, prints what each of them answers, by index, and answers the status.
pub(crate) fn print_broadcast<R: Threads + Wait + Copy + Send + 'static, W: Write, E: Write>(
    rt: &R,
    alloc: Global,
    workers: usize,
    out: &mut W,
    err: &mut E,
) -> u8
    requires workers { AreWorkers workers }
    ensures done { result ≡ 0 → Appends (W.contents out.old) (W.contents out.new) (spaced (map pos (squares workers)) ++ 10 ∷ []) }
    ensures status { result ≡ 2 → ⊥ }
{
    let builder = ThreadPoolBuilder::<Squares>::new().num_threads(workers);
    let pool = match builder.build(rt, alloc, &Ids::new()) {
        Ok(pool) => pool,
        Err(error) => return fail(err, build_error_name(&error)),
    };
    let answer = pool.broadcast(rt, alloc, Squares);
    pool.end_and_join(rt);
    match answer {
        Ok(squares) => print_numbers(squares.as_slice(), out, err),
        Err(error) => fail(err, error),
    }
}
