//! What the program's surroundings say of the number of workers.
ghost use Rattle.std.specs.Prelude.{◌≡◌, ◌^◌, ◌-◌, IfOk, IfErr, None, false};

use rayon_core::{JobKind, Refusal, ThreadPoolBuilder};
use std::alloc::Global;
use std::env::{Env, VarError};
use std::thread::Threads;
use std::{env, thread};

/// A builder that was told of the program's surroundings, and nothing else: the words that the environment has for
/// `RAYON_NUM_THREADS` and `RAYON_RS_NUM_CPUS`, of which one that is no UTF-8 counts as absent, and the number of
/// processors that the system lets the program use, 0 where it does not say. Refused `NoRoom` where there is no memory
/// to read a word into. This is the one call of the library that reads the surroundings, and no clause can say what it
/// reads.
pub fn builder_of_environment<J: JobKind, R: Env + Threads>(
    rt: &R,
    alloc: Global,
) -> Result<ThreadPoolBuilder<J>, Refusal>
    ensures rest { IfOk result (λ b. b ≡ record { num_threads = 0; first = b.first; second = b.second; processors = b.processors; stack_size = None; depth_limit = 2 ^ 64 - 1; steal_seed = 0; breadth_first = false; panic_handler = None; start_handler = None; exit_handler = None; names = b.names; spawn = b.spawn }) }
    ensures refused { IfErr result (λ r. r ≡ Refusal.NoRoom) }
{
    let first = word_of(rt, alloc, "RAYON_NUM_THREADS")?;
    let second = word_of(rt, alloc, "RAYON_RS_NUM_CPUS")?;
    let processors = thread::available_parallelism(rt).map_or(0, |n| n.get());
    Ok(ThreadPoolBuilder::new().environment(first.as_deref(), second.as_deref(), processors))
}

// The word that the environment has for this name, if it has one. Refused `NoRoom`.
fn word_of<R: Env>(rt: &R, alloc: Global, name: &str) -> Result<Option<String>, Refusal>
    ensures refused { IfErr result (λ r. r ≡ Refusal.NoRoom) }
{
    match env::var(&(rt, alloc), name) {
        Ok(word) => Ok(Some(word)),
        Err(VarError::OutOfMemory) => Err(Refusal::NoRoom),
        Err(_) => Ok(None),
    }
}
