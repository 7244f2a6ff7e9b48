//! The lines of a replay: what a start line and an event line name.
ghost use Rattle.std.specs.Fmt.{decimal};
ghost use Rattle.std.specs.Prelude.{◌≡◌, ◌≢◌, ◌<◌, ◌^◌, ℕ, IfSome, Some, length, get_or, true, false, All};
ghost use Rattle.std.specs.Int.{IsInRange};

use rayon_machine::event::Event;
use rayon_machine::place::{Ending, Party};
use rayon_machine::shape::{Order, PoolShape};
use std::alloc::{AllocError, Global};

/// What the first line names.
#[derive(Drop)]
pub struct Start {
    /// The bits of each pool's event counter.
    pub jec_bits: u32,
    /// The pools, by number.
    pub pools: Vec<PoolShape>,
}

/// What a line after the first names.
#[derive(Clone, Copy)]
pub struct Line {
    /// The event.
    pub event: Event,
    /// How often it is made, one after the other.
    pub times: u64,
}

/// The most acts that one line may make.
const MAX_TIMES: u64 = 1000;

/// The start line that this text is. None where it is no start line: another word, a word too few, a number or a pool
/// that is not read. Whether a world can have these pools and bits is not asked here.
pub fn read_start(alloc: Global, line: &str) -> Result<Option<Start>, AllocError> {
    let Some(rest) = line.strip_prefix("start ") else {
        return Ok(None);
    };
    let mut words = rest.split(' ');
    let Some(jec_bits) = words
        .next()
        .and_then(number)
        .and_then(|bits| u32::try_from(bits).ok())
    else {
        return Ok(None);
    };
    let mut pools = Vec::new(alloc);
    for word in words {
        match pool(word) {
            Some(shape) => pools.push(shape)?,
            None => return Ok(None),
        }
    }
    Ok(Some(Start { jec_bits, pools }))
}

/// The event line that this text is. None where it is no event.
pub fn read_line(text: &str) -> Option<Line> {
    let (name, words) = text.split_once(' ')?;
    let party = party(name)?;
    match words.split_once(' ') {
        None => Some(Line {
            event: plain_event(party, words)?,
            times: 1,
        }),
        Some(("go", times)) => {
            let times = number(times)?;
            let in_range = (1..=MAX_TIMES).contains(&times);
            in_range.then_some(Line {
                event: Event::Go(party),
                times,
            })
        }
        Some((word, argument)) => Some(Line {
            event: event(party, word, argument)?,
            times: 1,
        }),
    }
}

// The event of a single word.
fn plain_event(party: Party, word: &str) -> Option<Event> {
    match word {
        "go" => Some(Event::Go(party)),
        "refuse" => Some(Event::Refuse(party)),
        "miss" => Some(Event::Miss(party)),
        "ok" => Some(Event::End {
            party,
            ending: Ending::Fine,
        }),
        "fault" => Some(Event::End {
            party,
            ending: Ending::Fault,
        }),
        "join" => Some(Event::Join(party)),
        "yield" => Some(Event::Yield(party)),
        _ => None,
    }
}

// The event of a word with one argument.
fn event(party: Party, word: &str, argument: &str) -> Option<Event> {
    match word {
        "from" => Some(Event::From {
            party,
            victim: index(argument)?,
        }),
        "spawn" => Some(Event::Spawn {
            party,
            pool: index(argument)?,
        }),
        "fifo" => Some(Event::Fifo {
            party,
            pool: index(argument)?,
        }),
        "cast" => Some(Event::Cast {
            party,
            pool: index(argument)?,
        }),
        "broadcast" => Some(Event::Broadcast {
            party,
            pool: index(argument)?,
        }),
        "install" => Some(Event::Install {
            party,
            pool: index(argument)?,
        }),
        "end" => Some(Event::EndPool {
            party,
            pool: index(argument)?,
        }),
        "scope" => Some(Event::Scope {
            party,
            pool: index(argument)?,
        }),
        "into" => event_into(party, argument),
        "yield" if argument == "local" => Some(Event::YieldLocal(party)),
        _ => None,
    }
}

// The event of a call into a scope.
fn event_into(party: Party, words: &str) -> Option<Event> {
    let (scope, word) = words.split_once(' ')?;
    let scope = index(scope)?;
    match word {
        "spawn" => Some(Event::IntoSpawn { party, scope }),
        "fifo" => Some(Event::IntoFifo { party, scope }),
        "cast" => Some(Event::IntoCast { party, scope }),
        _ => None,
    }
}

// The party that a word names: `p.i` is worker i of pool p, `c0`, `c1` and so on are the outside callers.
fn party(word: &str) -> Option<Party> {
    match word.strip_prefix('c') {
        Some(caller) => Some(Party::Caller(index(caller)?)),
        None => {
            let (pool, worker) = word.split_once('.')?;
            Some(Party::Worker {
                pool: index(pool)?,
                index: index(worker)?,
            })
        }
    }
}

// The pool that a word names: workers, limit of rounds and kind, parted by `/`.
fn pool(word: &str) -> Option<PoolShape> {
    let (workers, rest) = word.split_once('/')?;
    let (limit, kind) = rest.split_once('/')?;
    let (order, callers_own) = match kind {
        "l" => (Order::NewestFirst, false),
        "lc" => (Order::NewestFirst, true),
        "b" => (Order::OldestFirst, false),
        "bc" => (Order::OldestFirst, true),
        _ => return None,
    };
    Some(PoolShape {
        workers: index(workers)?,
        limit: number(limit)?,
        order,
        callers_own,
    })
}

// A number that counts or names something in memory.
fn index(word: &str) -> Option<usize> {
    number(word).and_then(|n| usize::try_from(n).ok())
}

/// The number that a word is: decimal digits without sign and without leading zeros. None for other words, and above
/// 2^64 - 1.
#[tactic(auto, using(crate::proofs::Numbers::plain_is_decimal, crate::proofs::Numbers::decimal_is_read, crate::proofs::Numbers::decimal_is_digits, crate::proofs::Numbers::decimal_is_plain))]
pub fn number(word: &str) -> Option<u64>
    ensures text { IfSome result (λ n. word.now ≡ decimal n) }
    ensures read { (n : ℕ) → n < 2 ^ 64 → word.now ≡ decimal n → result ≡ Some n }
{
    if !is_digits(word) {
        return None;
    }
    if has_leading_zero(word) {
        return None;
    }
    word.parse().ok()
}

// Whether each byte is a digit.
fn is_digits(word: &str) -> bool
    ensures digits { result ≡ true → All (IsInRange 48 57) word.now }
    ensures others { result ≡ false → ¬ (All (IsInRange 48 57) word.now) }
{
    word.as_bytes().iter().all(|byte| byte.is_ascii_digit())
}

// Whether a zero stands before further bytes.
fn has_leading_zero(word: &str) -> bool
    ensures leading { result ≡ true → get_or word.now 0 0 ≡ 48 }
    ensures further { result ≡ true → length word.now ≢ 1 }
    ensures none { result ≡ false → get_or word.now 0 0 ≡ 48 → length word.now ≡ 1 }
{
    word.len() > 1 && word.starts_with('0')
}
