//! The calls that are written alike inside a run and outside of it: `here` is the worker value, or an `Outside`.
ghost use Rattle.rayon_core.specs.Answers.{InstallAnswers, JoinAnswers};
ghost use Rattle.rayon_machine_places.specs.declared.place.Ending.{Ending};
ghost use Rattle.rayon_machine_places.specs.declared.place.Ending.TheVariants.{Fault, Fine};
ghost use Rattle.rayon_registry.specs.Acts.{CallMade};
ghost use Rattle.std.specs.Prelude.{◌≡◌, ◌⊎◌, Err, IfOk, IfErr};

use crate::current::{Current, Stands};
use rayon_core::{CallError, JobKind, Refusal};
use std::alloc::Global;

/// Runs two jobs, and answers both outputs: `WorkerThread::join_jobs` inside a run, and `PoolRef::join` outside, which
/// blocks until both have run. Refused as these are, with the sides back, and neither has run. `join_context` is
/// another name of it: jobs are told of their context by either.
pub fn join<J: JobKind, R, C: Current<J, R>>(
    rt: &R,
    alloc: Global,
    here: &mut C,
    a: J,
    b: J,
) -> Result<(J::Output, J::Output), CallError<J::Fault, (J, J)>>
    requires levels { C.has_levels here.old rt.now }
    ensures answers { JoinAnswers (λ r. C.may_first here.old a r) (λ r. J.answers (J.tag_of b) r) (a, b) result }
    ensures lost { (result ≡ Err CallError.Missing) ⊎ (result ≡ Err CallError.Foreign) → C.first_was_fine here.old a }
    ensures kept { (r : _) (sides : _) → result ≡ Err (CallError.Refused r sides) → C.kept here.old here.new }
    ensures deep { C.too_deep_to_join here.old → result ≡ Err (CallError.Refused Refusal.TooDeep (a, b)) }
    ensures shallow { (sides : _) → result ≡ Err (CallError.Refused Refusal.TooDeep sides) → C.too_deep_to_join here.old }
    ensures same { C.same here.old here.new }
    ensures path { CallMade (C.joined Fine here.old here.new) ((e : Ending) × C.joined e here.old here.new) (C.join_handed_back here.old here.new) result }
{
    here.join_here(rt, alloc, a, b)
}

/// Runs a job, and answers its output: at once inside a run, and on the pool outside, where it blocks until the job has
/// run. rayon-core has no such function beside `ThreadPool::install`.
pub fn install<J: JobKind, R, C: Current<J, R>>(
    rt: &R,
    alloc: Global,
    here: &mut C,
    job: J,
) -> Result<J::Output, CallError<J::Fault, J>>
    requires levels { C.has_levels here.old rt.now }
    ensures answers { InstallAnswers (λ r. C.may_first here.old job r) job result }
    ensures kept { (r : _) (j : _) → result ≡ Err (CallError.Refused r j) → C.kept here.old here.new }
    ensures deep { C.too_deep here.old → result ≡ Err (CallError.Refused Refusal.TooDeep job) }
    ensures shallow { (j : _) → result ≡ Err (CallError.Refused Refusal.TooDeep j) → C.too_deep here.old }
    ensures room { (j : _) → result ≡ Err (CallError.Refused Refusal.NoRoom j) → C.sends here.old }
    ensures found { (result ≡ Err CallError.Foreign → C.sends here.old) × (result ≡ Err CallError.Missing → C.sends here.old) }
    ensures same { C.same here.old here.new }
    ensures path { CallMade (C.installed Fine here.old here.new) (C.installed Fault here.old here.new) (C.install_handed_back here.old here.new) result }
{
    here.install_here(rt, alloc, job)
}

/// Spawns a detached job, and waits for nothing: on the worker's own deque inside a run, and on the pool outside.
/// Nobody is answered its output; its fault goes to the pool's handler, or is kept where it has none (`take_fault`).
/// Refused `Full`, `NoRoom`, `Ended`, with the job back.
pub fn spawn<J: JobKind, R, C: Current<J, R>>(
    rt: &R,
    alloc: Global,
    here: &mut C,
    job: J,
) -> Result<(), (Refusal, J)>
    requires levels { C.has_levels here.old rt.now }
    ensures spawned { IfOk result (λ _. C.spawned here.old job here.new) }
    ensures back { IfErr result (λ e. e.1 ≡ job) }
    ensures kept { IfErr result (λ _. C.kept here.old here.new) }
    ensures path { IfErr result (λ _. C.spawn_handed_back here.old here.new) }
    ensures refused { IfErr result (λ e. (e.0 ≡ Refusal.Ended) ⊎ ((e.0 ≡ Refusal.Full) ⊎ (e.0 ≡ Refusal.NoRoom))) }
    ensures same { C.same here.old here.new }
{
    here.spawn_here(rt, alloc, job)
}

/// Spawns a detached job in order, and waits for nothing: a worker's jobs that were spawned so begin in that order
/// where it runs them itself. Outside it is a spawn, and the pool begins its oldest job first. Refused as `spawn` is.
pub fn spawn_fifo<J: JobKind, R, C: Current<J, R>>(
    rt: &R,
    alloc: Global,
    here: &mut C,
    job: J,
) -> Result<(), (Refusal, J)>
    requires levels { C.has_levels here.old rt.now }
    ensures spawned { IfOk result (λ _. C.fed here.old job here.new) }
    ensures back { IfErr result (λ e. e.1 ≡ job) }
    ensures kept { IfErr result (λ _. C.kept here.old here.new) }
    ensures path { IfErr result (λ _. C.feed_handed_back here.old here.new) }
    ensures refused { IfErr result (λ e. (e.0 ≡ Refusal.Ended) ⊎ ((e.0 ≡ Refusal.Full) ⊎ (e.0 ≡ Refusal.NoRoom))) }
    ensures same { C.same here.old here.new }
{
    here.spawn_fifo_here(rt, alloc, job)
}

/// How many workers the pool has in which this run is, or which calls are made on from outside. rayon-core asks for no
/// value, and takes the global pool outside of a run.
pub fn current_num_threads<C: Stands>(here: &C) -> usize
    ensures { result ≡ C.workers here.now }
{
    here.thread_count()
}

/// The index of the worker whose run this is, from 0. None outside.
pub fn current_thread_index<C: Stands>(here: &C) -> Option<usize>
    ensures { result ≡ C.index here.now }
{
    here.thread_index()
}
