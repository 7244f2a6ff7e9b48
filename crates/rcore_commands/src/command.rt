//! What the words of a command line ask for.
ghost use Rattle.rcore_commands.specs.Words.{AreWorkers, AsksFor, AskForNothing, Counts, InRange, broadcast_word, fib_word, kind_word};
ghost use Rattle.spawn_orders.specs.declared.order.Order.{Order};
ghost use Rattle.std.specs.Prelude.{◌≡◌, ◌↔◌, ℕ, IsTrue, IfSome, IfNone, ◌∷◌, [], map, string_bytes};
ghost use Rattle.std.specs.Vec.Iter.{into_iter_items};

use fibonacci::Fib;
use rayon_core::ThreadPoolBuilder;
use spawn_orders::Order;
use std::env::Args;

/// What is asked for.
#[derive(Clone, Copy, Debug, PartialEq, Eq)]
pub enum Command {
    /// `fib <workers> <n>`: the n-th Fibonacci number, on so many workers; `fib <n>`: on as many as the program's
    /// surroundings say.
    Fib {
        /// The pool's workers, if it was said how many.
        workers: Option<usize>,
        /// Which number.
        n: u8,
    },
    /// `order <kind>`: in which order one worker runs spawned jobs. The kinds are `lifo`, `fifo`, `lifo-fifo`,
    /// `fifo-lifo`, `breadth`, `scope-lifo`, `scope-fifo`, `mixed-lifo-fifo` and `mixed-fifo-lifo`.
    Order {
        /// How they are spawned.
        order: Order,
    },
    /// `broadcast <workers>`: one job to each of so many workers, which answers the square of its worker's index.
    Broadcast {
        /// The pool's workers.
        workers: usize,
    },
    /// `threads <num> <word> <word> <cpus>`: how many workers a pool's builder takes that is told this: so many were
    /// asked for, the environment's two words, and so many processors. A word that writes no number stands for an
    /// absent one, as `-` does.
    Threads {
        /// How many workers.
        count: usize,
    },
    /// `replay`: the replay that standard input has.
    Replay,
}

/// The most workers that a command may ask for.
const MAX_WORKERS: usize = 64;

/// The largest index of a Fibonacci number that may be asked for.
const MAX_INDEX: u8 = 30;

impl Command {
    /// The command that the words name. None where they name no command, or a number is not read or out of its range.
    pub fn parse(words: Args) -> Option<Command>
        ensures some { IfSome result (λ c. AsksFor (map string_bytes (into_iter_items words)) c) }
        ensures none { IfNone result (AskForNothing (map string_bytes (into_iter_items words))) }
    {
        let mut words = words;
        let name = words.next()?;
        match name.as_str() {
            "fib" => fib_command(words),
            "order" => Some(Command::Order {
                order: order_named(words)?,
            }),
            "broadcast" => broadcast_command(words),
            "threads" => {
                let asked: usize = words.next()?.parse().ok()?;
                let (first, second) = (words.next()?, words.next()?);
                let processors: usize = words.next()?.parse().ok()?;
                match words.next() {
                    None => Some(Command::Threads {
                        count: worker_count(asked, &first, &second, processors),
                    }),
                    Some(_) => None,
                }
            }
            "replay" => match words.next() {
                None => Some(Command::Replay),
                Some(_) => None,
            },
            _ => None,
        }
    }
}

// What the words after `fib` ask for.
fn fib_command(words: Args) -> Option<Command>
    ensures some { IfSome result (λ c. AsksFor (fib_word ∷ map string_bytes (into_iter_items words)) c) }
    ensures none { IfNone result (AskForNothing (fib_word ∷ map string_bytes (into_iter_items words))) }
{
    let mut words = words;
    let first = words.next()?;
    let Some(second) = words.next() else {
        let n: u8 = first.parse().ok()?;
        return if n <= MAX_INDEX {
            Some(Command::Fib { workers: None, n })
        } else {
            None
        };
    };
    let workers: usize = first.parse().ok()?;
    let n: u8 = second.parse().ok()?;
    if !is_in_range(workers, n) || words.next().is_some() {
        return None;
    }
    Some(Command::Fib {
        workers: Some(workers),
        n,
    })
}

// Whether so many workers and the Fibonacci number with this index may be asked for.
fn is_in_range(workers: usize, n: u8) -> bool
    ensures { IsTrue result ↔ InRange workers n }
{
    are_workers(workers) && n <= MAX_INDEX
}

// Whether so many workers may be asked for.
fn are_workers(workers: usize) -> bool
    ensures { IsTrue result ↔ AreWorkers workers }
{
    (1..=MAX_WORKERS).contains(&workers)
}

// What the words after `broadcast` ask for.
fn broadcast_command(words: Args) -> Option<Command>
    ensures some { IfSome result (λ c. AsksFor (broadcast_word ∷ map string_bytes (into_iter_items words)) c) }
    ensures none { IfNone result (AskForNothing (broadcast_word ∷ map string_bytes (into_iter_items words))) }
{
    let mut words = words;
    let workers: usize = words.next()?.parse().ok()?;
    if !are_workers(workers) || words.next().is_some() {
        return None;
    }
    Some(Command::Broadcast { workers })
}

// The order that these words name: one word, its kind.
fn order_named(words: Args) -> Option<Order>
    ensures some { IfSome result (λ o. map string_bytes (into_iter_items words) ≡ kind_word o ∷ []) }
    ensures none { IfNone result ((o : Order) → map string_bytes (into_iter_items words) ≡ kind_word o ∷ [] → ⊥) }
{
    let mut words = words;
    let kind = words.next()?;
    if words.next().is_some() {
        return None;
    }
    match kind.as_str() {
        "lifo" => Some(Order::Lifo),
        "fifo" => Some(Order::Fifo),
        "lifo-fifo" => Some(Order::LifoFifo),
        "fifo-lifo" => Some(Order::FifoLifo),
        "breadth" => Some(Order::Breadth),
        "scope-lifo" => Some(Order::ScopeLifo),
        "scope-fifo" => Some(Order::ScopeFifo),
        "mixed-lifo-fifo" => Some(Order::MixedLifoFifo),
        "mixed-fifo-lifo" => Some(Order::MixedFifoLifo),
        _ => None,
    }
}

// How many workers a pool has whose builder is told this.
fn worker_count(asked: usize, first: &str, second: &str, processors: usize) -> usize
    ensures { Counts asked first.now second.now processors result }
{
    let builder = ThreadPoolBuilder::<Fib>::new().num_threads(asked);
    let told = builder.environment(Some(first), Some(second), processors);
    told.worker_count()
}
