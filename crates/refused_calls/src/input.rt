//! What standard input asks for, and what is printed for it.
use crate::call::{Call, make};
use crate::outcome::Report;
use std::alloc::Global;
use std::io;
use std::io::Read;
use std::rt::Runtime;
use std::sync::Wait;
use std::thread::Threads;

/// The most bytes that standard input may have.
const INPUT_BYTES: usize = 64;

// Makes and gives back so many allocations. False where one was refused.
fn allocate(alloc: Global, count: u32) -> bool {
    for _ in 0..count {
        if Box::new(alloc, count).is_err() {
            return false;
        }
    }
    true
}

/// Makes one call of a pool and, where an allocation of it was refused, the same call again, and prints what each gave.
/// Standard input names the call, and how many allocations are made and given back before anything else.
pub fn answer_input<R: Runtime + Threads + Wait + Copy + Send + 'static>(
    rt: &R,
    alloc: Global,
) -> io::Result<()> {
    let mut input = [0u8; INPUT_BYTES];
    let length = rt.reader().read(&mut input)?;
    let Some((call, before)) = Call::parse(&input[..length]) else {
        return println!(rt; "bad input");
    };
    if !allocate(alloc, before) {
        return println!(rt; "refused before the call");
    }
    match make(rt, alloc, call) {
        Ok(Report { first, again: None }) => println!(rt; "{first}"),
        Ok(
            Report {
                first,
                again: Some(again),
            },
        ) => println!(rt; "{first}; then {again}"),
        Err(refusal) => println!(rt; "{refusal} before the call"),
    }
}
