//! The lines of a job.
ghost use Rattle.pool_script.specs.Ends.{GoesDown, GoDown, calls_of};
ghost use Rattle.std.specs.Prelude.{ℕ, IfOk, All};

use crate::bad::{Bad, Stop};
use crate::names::Directory;
use crate::script::{Act, Deed, Entry, Order, Plain, Shape, Verb};
use crate::words::{call_below, digits, number, one, value};
use std::alloc::Global;

// For which runs a line is done, how often, and whether the run goes on where it faults.
#[derive(Clone, Copy)]
struct Prefixes {
    from: u64,
    below: Option<u64>,
    times: u64,
    tries: bool,
}

// A line of the job with this number.
pub(crate) fn deed(alloc: Global, names: &Directory, job: usize, text: &str) -> Result<Deed, Stop>
    ensures { IfOk result (GoDown job) }
{
    let mut prefixes = Prefixes {
        from: 0,
        below: None,
        times: 1,
        tries: false,
    };
    let mut text = text;
    if let Some((before, after)) = text.rsplit_once(':') {
        prefixes = prefixes_of(prefixes, before)?;
        text = after;
    }
    let words: Vec<&str> = text.split_whitespace().collect(alloc)?;
    let act = act(names, job, words.as_slice())?;
    let Prefixes {
        from,
        below,
        times,
        tries,
    } = prefixes;
    Ok(Deed {
        from,
        below,
        times,
        tries,
        act,
    })
}

// The prefixes that a text has, in their order and each once, over what holds without.
fn prefixes_of(without: Prefixes, text: &str) -> Result<Prefixes, Bad> {
    let mut prefixes = without;
    let mut rank = 0;
    for text in text.split(':') {
        let before = rank;
        let mut words = text.split_whitespace();
        match (words.next(), words.next(), words.next()) {
            (Some("from"), Some(number), None) => {
                prefixes.from = digits(number)?;
                rank = 1;
            }
            (Some("below"), Some(number), None) => {
                prefixes.below = Some(digits(number)?);
                rank = 2;
            }
            (Some(number), Some("times"), None) => {
                prefixes.times = digits(number)?;
                rank = 3;
            }
            (Some("try"), None, None) => {
                prefixes.tries = true;
                rank = 4;
            }
            _ => return Err(Bad::NoSuchDeed),
        }
        if rank <= before {
            return Err(Bad::OutOfOrder);
        }
    }
    Ok(prefixes)
}

// What a line of the job with this number does.
fn act(names: &Directory, job: usize, words: &[&str]) -> Result<Act, Bad>
    ensures { IfOk result (λ a. All (GoesDown job) (calls_of a)) }
{
    match words {
        ["serve", gate, times] => Ok(Act::Serve(names.gate(gate)?, number(times)?)),
        ["install", call] => Ok(Act::One(Verb::Install, call_below(names, job, call)?)),
        ["spawn", call] => Ok(Act::One(Verb::Spawn, call_below(names, job, call)?)),
        ["spawn_fifo", call] => Ok(Act::One(Verb::SpawnFifo, call_below(names, job, call)?)),
        ["broadcast", call] => Ok(Act::One(Verb::Broadcast, call_below(names, job, call)?)),
        ["spawn_broadcast", call] => {
            Ok(Act::One(Verb::SpawnBroadcast, call_below(names, job, call)?))
        }
        ["scope", body] => scope(names, job, Order::Lifo, false, body),
        ["scope_fifo", body] => scope(names, job, Order::Fifo, false, body),
        ["in_place_scope", body] => scope(names, job, Order::Lifo, true, body),
        ["in_place_scope_fifo", body] => scope(names, job, Order::Fifo, true, body),
        ["into", call] => Ok(Act::Into(Entry::Spawn, call_below(names, job, call)?)),
        ["into_broadcast", call] => Ok(Act::Into(Entry::Broadcast, call_below(names, job, call)?)),
        ["join", second, "with", "install", first] => {
            let first = call_below(names, job, first)?;
            Ok(Act::JoinInstall(first, call_below(names, job, second)?))
        }
        ["join", second, "with", first @ ..] => {
            let first = plain(names, first)?.ok_or(Bad::NoSuchDeed)?;
            Ok(Act::JoinWith(first, call_below(names, job, second)?))
        }
        ["join", first, second] => {
            let first = call_below(names, job, first)?;
            Ok(Act::Join(first, call_below(names, job, second)?))
        }
        _ => Ok(Act::Plain(plain(names, words)?.ok_or(Bad::NoSuchDeed)?)),
    }
}

// A scope of this order, in place or not, whose body the word names.
fn scope(
    names: &Directory,
    job: usize,
    order: Order,
    in_place: bool,
    body: &str,
) -> Result<Act, Bad>
    ensures { IfOk result (λ a. All (GoesDown job) (calls_of a)) }
{
    let shape = Shape { order, in_place };
    Ok(Act::Scope(shape, call_below(names, job, body)?))
}

// What is done without a call. None where the words are another's.
pub(crate) fn plain(names: &Directory, words: &[&str]) -> Result<Option<Plain>, Bad> {
    let plain = match words {
        ["note", word] => Plain::Note(value(word)?),
        ["add", word] => Plain::Add(value(word)?),
        ["fault", word] => Plain::Fault(value(word)?),
        ["open", gate] => Plain::Open(names.gate(gate)?, one()),
        ["open", gate, times] => Plain::Open(names.gate(gate)?, number(times)?),
        ["wait", gate, times] => Plain::Wait(names.gate(gate)?, number(times)?),
        ["meet", gate, crowd] => Plain::Meet(names.gate(gate)?, number(crowd)?),
        ["pause"] => Plain::Pause,
        _ => return Ok(None),
    };
    Ok(Some(plain))
}
