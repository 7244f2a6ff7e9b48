//! The printed name of each refusal, and what the program says where its words could not be read.

use fibonacci::FibFault;
use rayon_core::{CallError, Refusal, ThreadPoolBuildError};
use rayon_machine::error::{StartError, StepError};
use rcore_commands::run::{build_error_name, fail, run_args};
use rcore_commands::squares::{SquareFault, Squares};
use spawn_orders::OrderFault;
use std::alloc::Global;
use std::env::Args;
use std::fmt::Display;
use std::io::{Error, ErrorKind, Result as IoResult};
use std::process::Abort;
use std::test::Fail;

/// Why a call is refused, and what it prints.
const REFUSALS: [(Refusal, &str); 4] = [
    (Refusal::NoRoom, "NoRoom"),
    (Refusal::Ended, "Ended"),
    (Refusal::TooDeep, "TooDeep"),
    (Refusal::Full, "Full"),
];

// Asserts what a value prints.
fn prints<R: Abort, D: Display>(rt: &R, alloc: Global, value: &D, name: &str) -> Result<(), Fail> {
    let text = format!(in alloc; "{value}")?;
    assert!(rt; text.as_str() == name, "{name}");
    Ok(())
}

#[test]
fn names_of_refused_calls(rt: HostRuntime) -> Result<(), Fail> {
    let alloc = rt.alloc();
    for (refusal, name) in REFUSALS {
        prints(&rt, alloc, &refusal, name)?;
        prints(&rt, alloc, &FibFault::Refused(refusal), name)?;
        prints(&rt, alloc, &OrderFault::Refused(refusal), name)?;
        let error: CallError<FibFault, ()> = CallError::Refused(refusal, ());
        prints(&rt, alloc, &error, name)?;
    }
    Ok(())
}

#[test]
fn names_of_lost_results(rt: HostRuntime) -> Result<(), Fail> {
    let alloc = rt.alloc();
    let foreign: CallError<FibFault, ()> = CallError::Foreign;
    let missing: CallError<FibFault, ()> = CallError::Missing;
    let fault: CallError<FibFault, ()> = CallError::Fault(FibFault::TooLarge);
    prints(&rt, alloc, &foreign, "Foreign")?;
    prints(&rt, alloc, &missing, "Missing")?;
    prints(&rt, alloc, &OrderFault::Foreign, "Foreign")?;
    prints(&rt, alloc, &OrderFault::Missing, "Missing")?;
    prints(&rt, alloc, &fault, "TooLarge")?;
    prints(&rt, alloc, &FibFault::from(foreign), "Foreign")?;
    prints(&rt, alloc, &FibFault::from(missing), "Missing")?;
    prints(&rt, alloc, &FibFault::from(fault), "TooLarge")
}

#[test]
fn names_of_failed_broadcasts(rt: HostRuntime) -> Result<(), Fail> {
    let alloc = rt.alloc();
    for (refusal, name) in REFUSALS {
        let error: CallError<SquareFault, Squares> = CallError::Refused(refusal, Squares);
        prints(&rt, alloc, &error, name)?;
    }
    let fault: CallError<SquareFault, Squares> = CallError::Fault(SquareFault::TooLarge);
    prints(&rt, alloc, &fault, "TooLarge")
}

#[test]
fn names_of_refused_pools_and_worlds(rt: HostRuntime) -> Result<(), Fail> {
    let alloc = rt.alloc();
    let io_error = ThreadPoolBuildError::IOError(Error::from(ErrorKind::WouldBlock));
    let text = format!(in alloc; "IOError: {}", Error::from(ErrorKind::WouldBlock))?;
    prints(&rt, alloc, &io_error, text.as_str())?;
    prints(&rt, alloc, &build_error_name(&io_error), "IOError")?;
    assert!(rt; io_error.text().is_none());
    for (error, name) in [
        (ThreadPoolBuildError::NoRoom, "NoRoom"),
        (ThreadPoolBuildError::NoIds, "NoIds"),
    ] {
        prints(&rt, alloc, &error, name)?;
        prints(&rt, alloc, &build_error_name(&error), name)?;
        assert_eq!(rt; format!(in alloc; "{error:?}")?.as_str(), name);
    }
    let global = ThreadPoolBuildError::GlobalPoolAlreadyInitialized;
    let current = ThreadPoolBuildError::CurrentThreadAlreadyInPool;
    for (error, name, text) in [
        (
            global,
            "GlobalPoolAlreadyInitialized",
            "The global thread pool has already been initialized.",
        ),
        (
            current,
            "CurrentThreadAlreadyInPool",
            "The current thread is already part of another thread pool.",
        ),
    ] {
        prints(&rt, alloc, &error, text)?;
        assert_eq!(rt; error.text(), Some(text));
        prints(&rt, alloc, &build_error_name(&error), name)?;
        assert_eq!(rt; format!(in alloc; "{error:?}")?.as_str(), name);
    }
    let no_shape = "these pools are no shape of a world";
    prints(&rt, alloc, &StartError::BadStart, no_shape)?;
    prints(&rt, alloc, &StartError::NoRoom, "no room for the world")?;
    prints(
        &rt,
        alloc,
        &StepError::NotEnabled,
        "the event is not enabled",
    )?;
    prints(&rt, alloc, &StepError::NoRoom, "no room for the step")
}

#[test]
fn refusals_are_told_on_standard_error(rt: HostRuntime) -> Result<(), Fail> {
    let alloc = rt.alloc();
    for (refusal, name) in REFUSALS {
        let mut err: Vec<u8> = Vec::new(alloc);
        let line = format!(in alloc; "rcore: {name}\n")?;
        assert_eq!(rt; fail(&mut err, refusal), 1, "{name}");
        assert!(rt; err.as_slice() == line.as_bytes(), "{name}");
    }
    Ok(())
}

#[test]
fn words_that_were_not_read(rt: HostRuntime) -> Result<(), Fail> {
    let alloc = rt.alloc();
    for (kind, status, line) in [
        (ErrorKind::OutOfMemory, 1u8, "rcore: NoRoom\n"),
        (ErrorKind::InvalidData, 2u8, "rcore: bad words\n"),
    ] {
        let args: IoResult<Args> = Err(Error::from(kind));
        let mut out: Vec<u8> = Vec::new(alloc);
        let mut err: Vec<u8> = Vec::new(alloc);
        let answered = run_args(&rt, alloc, args, &mut rt.reader(), &mut out, &mut err);
        assert_eq!(rt; answered, status, "{line}");
        assert!(rt; out.is_empty(), "{line}");
        assert!(rt; err.as_slice() == line.as_bytes(), "{line}");
    }
    Ok(())
}

#[test]
fn first_argument_is_the_name_of_the_program(rt: HostRuntime) -> Result<(), Fail> {
    let alloc = rt.alloc();
    for (line, status) in [
        ("rcore fib 1 7", 0u8),
        ("fib fib 1 7", 0),
        ("fib 1 7", 2),
        ("", 2),
    ] {
        let mut words: Vec<String> = Vec::new(alloc);
        for word in line.split_whitespace() {
            words.push(String::from_str(alloc, word)?)?;
        }
        let mut out: Vec<u8> = Vec::new(alloc);
        let mut err: Vec<u8> = Vec::new(alloc);
        let args = Ok(words.into_iter());
        let answered = run_args(&rt, alloc, args, &mut rt.reader(), &mut out, &mut err);
        assert_eq!(rt; answered, status, "{line}");
        assert!(rt; out.is_empty() == (status == 2), "{line}");
    }
    Ok(())
}
