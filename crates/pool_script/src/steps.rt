//! The lines of a thread, and of main.
use crate::bad::{Bad, Stop};
use crate::deeds::plain;
use crate::names::Directory;
use crate::script::{Ask, Call, Lead, Line, Number, Order, Plain, Shape, Shown, Step, Value, Verb};
use crate::words::{call, digits};
use std::alloc::Global;

// A line of a thread. Only main leads.
pub(crate) fn line(
    alloc: Global,
    names: &Directory,
    is_main: bool,
    text: &str,
) -> Result<Line, Stop> {
    let (times, text) = match text.rsplit_once(':') {
        Some((prefix, text)) => (times(prefix)?, text.trim()),
        None => (1, text.trim()),
    };
    let words: Vec<&str> = text.split_whitespace().collect(alloc)?;
    let step = step(names, words.as_slice())?;
    if let (Step::Lead(_), false) = (step, is_main) {
        return Err(Stop::Bad(Bad::MainAlone));
    }
    let text = String::from_str(alloc, text)?;
    Ok(Line { times, step, text })
}

// The number of times that a prefix says.
fn times(prefix: &str) -> Result<u64, Bad> {
    let mut words = prefix.split_whitespace();
    match (words.next(), words.next(), words.next()) {
        (Some(number), Some("times"), None) => digits(number),
        _ => Err(Bad::NoSuchStep),
    }
}

// What a line of a thread does.
fn step(names: &Directory, words: &[&str]) -> Result<Step, Bad> {
    match words {
        ["install", pool, job] => one(names, pool, Verb::Install, job),
        ["spawn", pool, job] => one(names, pool, Verb::Spawn, job),
        ["spawn_fifo", pool, job] => one(names, pool, Verb::SpawnFifo, job),
        ["broadcast", pool, job] => one(names, pool, Verb::Broadcast, job),
        ["spawn_broadcast", pool, job] => one(names, pool, Verb::SpawnBroadcast, job),
        ["join", pool, first, second] => {
            let (first, second) = (call_outside(names, first)?, call_outside(names, second)?);
            Ok(Step::Join(names.pool(pool)?, first, second))
        }
        ["join_context", pool, first, second] => {
            let (first, second) = (call_outside(names, first)?, call_outside(names, second)?);
            Ok(Step::JoinContext(names.pool(pool)?, first, second))
        }
        ["take_fault", pool] => Ok(Step::Ask(names.pool(pool)?, Ask::TakeFault)),
        ["count_faults", pool] => Ok(Step::Ask(names.pool(pool)?, Ask::CountFaults)),
        ["print", "ledger"] => Ok(Step::Print(Shown::Ledger)),
        ["print", "sorted"] => Ok(Step::Print(Shown::Sorted)),
        ["print", gate] => Ok(Step::Print(Shown::Gate(names.gate(gate)?))),
        ["end", pool] => Ok(Step::Lead(Lead::End(names.pool(pool)?))),
        ["end_and_join", pool] => Ok(Step::Lead(Lead::EndAndJoin(names.pool(pool)?))),
        ["start", thread] => Ok(Step::Lead(Lead::Start(names.thread(thread)?))),
        ["finish", thread] => Ok(Step::Lead(Lead::Finish(names.thread(thread)?))),
        ["do", thread] => Ok(Step::Lead(Lead::Do(names.thread(thread)?))),
        _ => scope_or_plain(names, words),
    }
}

// A scope on a pool, or what needs no call.
fn scope_or_plain(names: &Directory, words: &[&str]) -> Result<Step, Bad> {
    match words {
        ["scope", pool, body] => scope(names, pool, Order::Lifo, false, body),
        ["scope_fifo", pool, body] => scope(names, pool, Order::Fifo, false, body),
        ["in_place_scope", pool, body] => scope(names, pool, Order::Lifo, true, body),
        ["in_place_scope_fifo", pool, body] => scope(names, pool, Order::Fifo, true, body),
        _ => match plain(names, words)? {
            Some(plain) => Ok(Step::Plain(plain_outside(plain)?)),
            None => Err(Bad::NoSuchStep),
        },
    }
}

// A scope of this order on a pool, in place or not, whose body the word names.
fn scope(
    names: &Directory,
    pool: &str,
    order: Order,
    in_place: bool,
    body: &str,
) -> Result<Step, Bad> {
    let shape = Shape { order, in_place };
    let pool = names.pool(pool)?;
    Ok(Step::Scope(pool, shape, call_outside(names, body)?))
}

// A call of one job on a pool.
fn one(names: &Directory, pool: &str, verb: Verb, job: &str) -> Result<Step, Bad> {
    Ok(Step::One(names.pool(pool)?, verb, call_outside(names, job)?))
}

// A job that a thread names.
fn call_outside(names: &Directory, word: &str) -> Result<Call, Bad> {
    let call = call(names, word)?;
    outside(call.number)?;
    Ok(call)
}

// What a thread does without a call: it adds nothing, and has no fault.
fn plain_outside(plain: Plain) -> Result<Plain, Bad> {
    match plain {
        Plain::Add(_) | Plain::Fault(_) => return Err(Bad::NoSuchStep),
        Plain::Note(Value::Number(number))
        | Plain::Open(_, number)
        | Plain::Wait(_, number)
        | Plain::Meet(_, number) => outside(number)?,
        Plain::Note(_) => return Err(Bad::JobAlone),
        Plain::Pause => {}
    }
    Ok(plain)
}

// A number that a thread gives: it has none of its own.
fn outside(number: Number) -> Result<(), Bad> {
    if number.own > 0 {
        Err(Bad::JobAlone)
    } else {
        Ok(())
    }
}
