//! The program over any reader and writers.
use crate::error::PlayError;
use crate::house::play;
use pool_script::{ReadError, read, text_of};
use std::alloc::Global;
use std::fmt::Display;
use std::io::{BufRead, ErrorKind, Write};
use std::sync::Wait;
use std::thread::Threads;

/// The status of a script that was played.
const DONE: u8 = 0;

/// The status where something was refused that the play needs.
const FAILED: u8 = 1;

/// The status of a bad script.
const BAD_SCRIPT: u8 = 2;

/// Reads a script to its end, plays it, and writes what it says to `out`. Answers the status: 0 played; 1 memory, a
/// thread, a read or a write was refused, with a line on `err`; 2 a bad script, told on `err`, with nothing on `out`.
pub fn play_script<R: Threads + Wait + Copy + Send + 'static, I: BufRead, W: Write, E: Write>(
    rt: &R,
    alloc: Global,
    reader: &mut I,
    out: &mut W,
    err: &mut E,
) -> u8 {
    let mut bytes = Vec::new(alloc);
    match reader.read_to_end(&mut bytes) {
        Ok(_) => play_bytes(rt, alloc, bytes.as_slice(), out, err),
        Err(error) if error.kind() == ErrorKind::OutOfMemory => fail(err, PlayError::NoMemory),
        Err(_) => fail(err, "the script is not read"),
    }
}

// Plays the script that these bytes are.
fn play_bytes<R: Threads + Wait + Copy + Send + 'static, W: Write, E: Write>(
    rt: &R,
    alloc: Global,
    bytes: &[u8],
    out: &mut W,
    err: &mut E,
) -> u8 {
    let script = match text_of(bytes).and_then(|text| read(alloc, text)) {
        Ok(script) => script,
        Err(ReadError::NoMemory) => return fail(err, PlayError::NoMemory),
        Err(error) => {
            let _ = writeln!(err, "{error}");
            return BAD_SCRIPT;
        }
    };
    match play(rt, alloc, script) {
        Ok(said) => match write!(out, "{said}") {
            Ok(()) => DONE,
            Err(_) => fail(err, "what was said is not written"),
        },
        Err(error) => fail(err, error),
    }
}

// Names what failed on `err`, and answers its status.
fn fail<E: Write, D: Display + Drop>(err: &mut E, name: D) -> u8 {
    let _ = writeln!(err, "pool_player: {name}");
    FAILED
}
