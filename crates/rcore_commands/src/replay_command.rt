//! The command replay.
ghost use Rattle.std.specs.Prelude.{◌≡◌};

use crate::replay::{Replayed, replay};
use crate::replay_print::write_world;
use crate::run::{DONE, FAILED, fail};
use std::alloc::Global;
use std::io::{BufRead, Write};

/// Replays what the reader has, and prints the world that it leads to, or why there is none, and answers the status.
pub(crate) fn print_replay<I: BufRead, W: Write, E: Write>(
    alloc: Global,
    reader: &mut I,
    out: &mut W,
    err: &mut E,
) -> u8
    ensures status { result ≡ 2 → ⊥ }
{
    let (written, status) = match replay(alloc, reader) {
        Ok(Replayed::World(world)) => (write_world(out, &world), DONE),
        Ok(Replayed::RefusedAt(line)) => (writeln!(out, "refused at line {line}"), FAILED),
        Ok(Replayed::NoRoom) => (writeln!(out, "no room"), FAILED),
        Err(_) => return fail(err, "Read"),
    };
    match written {
        Ok(()) => status,
        Err(_) => fail(err, "Write"),
    }
}
