//! What the words of the command line ask for.
ghost use Rattle.bench_commands.specs.Words.{AsksFor, AskForNothing, InRange, word_of};
ghost use Rattle.bench_commands.specs.declared.command.Timed.{Timed};
ghost use Rattle.std.specs.Prelude.{◌≡◌, ◌↔◌, ℕ, IsTrue, IfSome, IfNone, map, string_bytes};
ghost use Rattle.std.specs.Vec.Iter.{into_iter_items};

use std::env::Args;

/// What is timed.
#[derive(Clone, Copy)]
pub enum Timed {
    /// F(n) by joins in the pool, with no cut-off.
    Join,
    /// F(n) by joins in the pool, down to small numbers that are found by plain recursion.
    Leaves,
    /// F(n) by plain recursion.
    Sequential,
    /// Installs of F(n), one after the other.
    Install,
    /// Joins of F(n) and F(n) from outside, one after the other.
    PoolJoin,
    /// Spawns of jobs that only count, by one job.
    Spawn,
    /// The same, spawned in order.
    SpawnFifo,
    /// Detached broadcasts of a job whose pieces only count, by one job.
    SpawnBroadcast,
    /// Broadcasts of F(n) that wait, one after the other, by a thread that is no worker.
    Broadcast,
    /// The same, by one job.
    WorkerBroadcast,
    /// A scope of empty jobs, by one job.
    Scope,
    /// The same, a scope in order.
    ScopeFifo,
    /// A scope of jobs that answer their numbers, by one job that adds them up.
    ScopeOutputs,
    /// A scope of empty jobs, by a thread that is no worker.
    InPlaceScope,
    /// Broadcasts of F(n) that wait, by a thread that is no worker, before each of which all workers fall asleep.
    Wake,
    /// Nothing: the pool is idle for some seconds after it has found F(n).
    Idle,
}

impl Timed {
    // What this word asks for. None where it asks for nothing.
    fn of_word(word: &str) -> Option<Timed>
        ensures some { IfSome result (λ t. word.now ≡ word_of t) }
        ensures none { IfNone result ((t : Timed) → word.now ≡ word_of t → ⊥) }
    {
        match word {
            "join" => Some(Timed::Join),
            "leaves" => Some(Timed::Leaves),
            "sequential" => Some(Timed::Sequential),
            "install" => Some(Timed::Install),
            "pool_join" => Some(Timed::PoolJoin),
            "spawn" => Some(Timed::Spawn),
            "spawn_fifo" => Some(Timed::SpawnFifo),
            "spawn_broadcast" => Some(Timed::SpawnBroadcast),
            "broadcast" => Some(Timed::Broadcast),
            "worker_broadcast" => Some(Timed::WorkerBroadcast),
            "scope" => Some(Timed::Scope),
            "scope_fifo" => Some(Timed::ScopeFifo),
            "scope_outputs" => Some(Timed::ScopeOutputs),
            "in_place_scope" => Some(Timed::InPlaceScope),
            "wake" => Some(Timed::Wake),
            "idle" => Some(Timed::Idle),
            _ => None,
        }
    }
}

/// The most workers that a command may ask for.
const MAX_WORKERS: usize = 64;

/// The largest index of a Fibonacci number that may be asked for.
const MAX_INDEX: u8 = 40;

/// What the program is asked to do.
#[derive(Clone, Copy)]
pub enum Command {
    /// To print F(20) in three ways, with no time.
    Values,
    /// To time this on a pool.
    Time {
        /// What is timed.
        what: Timed,
        /// How many workers the pool has.
        workers: usize,
        /// Which Fibonacci number.
        n: u8,
    },
}

impl Command {
    /// The command that these words are, the program's name left out. None where they are no command, or a number is
    /// not read or out of its range.
    pub fn parse(words: Args) -> Option<Command>
        ensures some { IfSome result (λ c. AsksFor (map string_bytes (into_iter_items words)) c) }
        ensures none { IfNone result (AskForNothing (map string_bytes (into_iter_items words))) }
    {
        let mut words = words;
        let Some(verb) = words.next() else {
            return Some(Command::Values);
        };
        let what = Timed::of_word(verb.as_str())?;
        let workers: usize = words.next()?.parse().ok()?;
        let n: u8 = words.next()?.parse().ok()?;
        if !is_in_range(workers, n) || words.next().is_some() {
            return None;
        }
        Some(Command::Time { what, workers, n })
    }
}

// Whether so many workers and the Fibonacci number with this index may be asked for.
fn is_in_range(workers: usize, n: u8) -> bool
    ensures { IsTrue result ↔ InRange workers n }
{
    (1..=MAX_WORKERS).contains(&workers) && n <= MAX_INDEX
}
