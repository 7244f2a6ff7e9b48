//! The program over any words, reader and writers.
ghost use Rattle.fibonacci.specs.Fib.{fib};
ghost use Rattle.rcore_commands.specs.Words.{AsksFor, AskForNothing, IsPrinted};
ghost use Rattle.rcore_commands.specs.declared.command.Command.{Command};
ghost use Rattle.std.specs.Fmt.{decimal};
ghost use Rattle.std.specs.Io.KnownBytes.{Appends, Keeps};
ghost use Rattle.std.specs.IoError.{error_kind};
ghost use Rattle.std.specs.Prelude.{◌≡◌, ◌≢◌, ℕ, ◌∷◌, ◌++◌, [], IfOk, IfErr, drop, map, string_bytes};
ghost use Rattle.std.specs.Vec.Iter.{into_iter_items};

use crate::broadcast_command::print_broadcast;
use crate::command::Command;
use crate::order_command::print_order;
use crate::replay_command::print_replay;
use fibonacci::Fib;
use rayon_core::{Ids, Refusal, ThreadPoolBuildError, ThreadPoolBuilder};
use rayon_global::builder_of_environment;
use std::alloc::Global;
use std::env::{Args, Env};
use std::fmt::Display;
use std::io;
use std::io::{BufRead, ErrorKind, Write};
use std::sync::Wait;
use std::thread::Threads;

/// The status of a command that was done.
pub(crate) const DONE: u8 = 0;

/// The status of a fault or a refusal.
pub(crate) const FAILED: u8 = 1;

/// The status of bad words.
const BAD_WORDS: u8 = 2;

/// Does what a command line asks for, and answers the status: 0 done; 1 a fault, a refusal or a failed write, with its
/// name on `err`; 2 bad words, with nothing on `out`. The first of the arguments is the program's name. Where memory
/// was refused while they were read the status is 1 with `NoRoom`; an argument that is no text makes them bad words.
pub fn run_args<R: Threads + Wait + Env + Copy + Send + 'static, I: BufRead, W: Write, E: Write>(
    rt: &R,
    alloc: Global,
    args: io::Result<Args>,
    reader: &mut I,
    out: &mut W,
    err: &mut E,
) -> u8
    ensures done { result ≡ 0 → IfErr args (λ e. ⊥) × IfOk args (λ a. (c : Command) × AsksFor (map string_bytes (drop 1 (into_iter_items a))) c × IsPrinted c (λ text. Appends (W.contents out.old) (W.contents out.new) text)) }
    ensures bad_words { result ≡ 2 → IfOk args (λ a. AskForNothing (map string_bytes (drop 1 (into_iter_items a)))) }
    ensures known { IfOk args (λ a. AskForNothing (map string_bytes (drop 1 (into_iter_items a))) → result ≡ 2) }
    ensures no_room { IfErr args (λ e. error_kind e ≡ ErrorKind.OutOfMemory → result ≡ 1) }
    ensures no_text { IfErr args (λ e. error_kind e ≢ ErrorKind.OutOfMemory → result ≡ 2) }
    ensures kept { result ≡ 2 → Keeps (W.contents out.old) (W.contents out.new) }
{
    match args {
        Ok(args) => run(rt, alloc, without_name(args), reader, out, err),
        Err(error) if error.kind() == ErrorKind::OutOfMemory => fail(err, Refusal::NoRoom),
        Err(_) => bad_words(err),
    }
}

// The words after the program's name.
fn without_name(args: Args) -> Args
    ensures { into_iter_items result ≡ drop 1 (into_iter_items args) }
{
    let mut words = args;
    let _ = words.next();
    words
}

/// Does what the words ask for, and answers the status, as `run_args` does.
pub fn run<R: Threads + Wait + Env + Copy + Send + 'static, I: BufRead, W: Write, E: Write>(
    rt: &R,
    alloc: Global,
    words: Args,
    reader: &mut I,
    out: &mut W,
    err: &mut E,
) -> u8
    ensures done { result ≡ 0 → (c : Command) × AsksFor (map string_bytes (into_iter_items words)) c × IsPrinted c (λ text. Appends (W.contents out.old) (W.contents out.new) text) }
    ensures bad_words { result ≡ 2 → AskForNothing (map string_bytes (into_iter_items words)) }
    ensures known { AskForNothing (map string_bytes (into_iter_items words)) → result ≡ 2 }
    ensures kept { result ≡ 2 → Keeps (W.contents out.old) (W.contents out.new) }
{
    match Command::parse(words) {
        None => bad_words(err),
        Some(Command::Fib { workers, n }) => print_fib(rt, alloc, workers, n, out, err),
        Some(Command::Order { order }) => print_order(rt, alloc, order, out, err),
        Some(Command::Broadcast { workers }) => print_broadcast(rt, alloc, workers, out, err),
        Some(Command::Threads { count }) => print_line(count as u64, out, err),
        Some(Command::Replay) => print_replay(alloc, reader, out, err),
    }
}

// Finds a Fibonacci number on a pool of so many workers, or of as many as the surroundings say, and prints it.
fn print_fib<R: Threads + Wait + Env + Copy + Send + 'static, W: Write, E: Write>(
    rt: &R,
    alloc: Global,
    workers: Option<usize>,
    n: u8,
    out: &mut W,
    err: &mut E,
) -> u8
    ensures done { result ≡ 0 → Appends (W.contents out.old) (W.contents out.new) (decimal (fib n) ++ 10 ∷ []) }
    ensures status { result ≡ 2 → ⊥ }
{
    let builder = match workers {
        Some(workers) => ThreadPoolBuilder::<Fib>::new().num_threads(workers),
        None => match builder_of_environment(rt, alloc) {
            Ok(builder) => builder,
            Err(refusal) => return fail(err, refusal),
        },
    };
    let pool = match builder.build(rt, alloc, &Ids::new()) {
        Ok(pool) => pool,
        Err(error) => return fail(err, build_error_name(&error)),
    };
    let answer = pool.install(rt, alloc, Fib(n));
    pool.end_and_join(rt);
    match answer {
        Ok(value) => print_line(value, out, err),
        Err(error) => fail(err, error),
    }
}

// Prints a number on a line of its own.
fn print_line<W: Write, E: Write>(number: u64, out: &mut W, err: &mut E) -> u8
    ensures done { result ≡ 0 → Appends (W.contents out.old) (W.contents out.new) (decimal number ++ 10 ∷ []) }
    ensures status { result ≡ 2 → ⊥ }
{
    match writeln!(out, "{number}") {
        Ok(()) => DONE,
        Err(_) => fail(err, "Write"),
    }
}

/// The name of why a pool was not made, without the system's text.
pub fn build_error_name(error: &ThreadPoolBuildError) -> &'static str {
    match error {
        ThreadPoolBuildError::GlobalPoolAlreadyInitialized => "GlobalPoolAlreadyInitialized",
        ThreadPoolBuildError::CurrentThreadAlreadyInPool => "CurrentThreadAlreadyInPool",
        ThreadPoolBuildError::IOError(_) => "IOError",
        ThreadPoolBuildError::NoRoom => "NoRoom",
        ThreadPoolBuildError::NoIds => "NoIds",
    }
}

// Says that the words are bad, and answers their status.
fn bad_words<E: Write>(err: &mut E) -> u8
    ensures { result ≡ 2 }
{
    complain(err, "bad words");
    BAD_WORDS
}

/// Names what failed on `err`, and answers its status.
pub fn fail<E: Write, D: Display + Drop>(err: &mut E, name: D) -> u8
    ensures { result ≡ 1 }
{
    complain(err, name);
    FAILED
}

// Writes one line on `err`. That this fails changes no status.
fn complain<E: Write, D: Display + Drop>(err: &mut E, text: D) {
    let _ = writeln!(err, "rcore: {text}");
}
