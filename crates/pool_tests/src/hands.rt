//! What the jobs of the tests do by hand with tasks.
ghost use Rattle.rayon_core.specs.Worker.{SameWorker};
ghost use Rattle.std.specs.Prelude.{◌≡◌, ℕ, ◌≤◌};

use crate::errand::{Deed, Errand, Marks, Trouble, outcomes};
use rayon_core::{Refusal, Task, Waits, WorkerThread};
use std::alloc::Global;
use std::sync::{Arc, Barrier, Wait};
use std::thread;

/// Does what is done on the worker value.
pub fn run<R: Waits<Errand>>(
    rt: &R,
    alloc: Global,
    w: &mut WorkerThread<Errand>,
    marks: &Arc<Marks>,
    deed: Deed,
) -> Result<u64, Trouble>
    requires { w.old.levels ≤ R.levels rt.now }
    ensures same { SameWorker w.old w.new }
{
    match deed {
        Deed::Meet(gate) => Ok(meet(rt, &gate)),
        Deed::ForkAndMeet(gate) => join(rt, alloc, w, marks, Deed::Meet(gate), Deed::Note(7)),
        Deed::FindAndMeet(gate) => {
            let found = find(rt, w);
            push_again(rt, w, found)?;
            Ok(meet(rt, &gate))
        }
        Deed::PushAndMeet(gate) => {
            let newest = w.take_local_job(rt);
            pause();
            push_again(rt, w, newest)?;
            Ok(meet(rt, &gate))
        }
        Deed::JoinMeet(first, second) => {
            join(
                rt,
                alloc,
                w,
                marks,
                Deed::PushAndMeet(first),
                Deed::Meet(second),
            )
        }
        Deed::Taker(0) => take_and_push(rt, w),
        Deed::Taker(digit) => {
            let below = Deed::Taker(digit.saturating_sub(1));
            join(rt, alloc, w, marks, below, Deed::Note(digit))
        }
        Deed::TakerInOrder(0) => take_and_list(rt, alloc, w),
        Deed::TakerInOrder(digit) => {
            let below = Deed::TakerInOrder(digit.saturating_sub(1));
            join(rt, alloc, w, marks, below, Deed::Note(digit))
        }
        Deed::Tree(depth) => {
            let found = w.find_work(rt);
            push_again(rt, w, found)?;
            let Some(below) = depth.checked_sub(1) else {
                return Ok(1);
            };
            join(rt, alloc, w, marks, Deed::Tree(below), Deed::Tree(below))
        }
        Deed::Chain(0) => Ok(0),
        Deed::Chain(links) => {
            let below = Deed::Chain(links.saturating_sub(1));
            join(rt, alloc, w, marks, below, Deed::End(Ok(1)))
        }
        Deed::FaultByFive(digit) => fault_by_five(rt, alloc, w, marks, digit),
        Deed::End(_) | Deed::IsOn(_) | Deed::Note(_) | Deed::NoteLate(_) | Deed::Scope(_) => Err(
            Trouble::Unlike,
        ),
    }
}

/// Lets other threads run for a while, so that they may fall asleep. No test's outcome depends on it.
pub fn pause() {
    for _ in 0..1_000 {
        thread::yield_now();
    }
}

// Waits at the gate until all others have come.
fn meet<R: Wait>(rt: &R, gate: &Barrier) -> u64 {
    let _ = gate.wait(rt);
    0
}

// Joins two jobs that do this, and answers their sum.
fn join<R: Waits<Errand>>(
    rt: &R,
    alloc: Global,
    w: &mut WorkerThread<Errand>,
    marks: &Arc<Marks>,
    first: Deed,
    second: Deed,
) -> Result<u64, Trouble>
    requires { w.old.levels ≤ R.levels rt.now }
    ensures same { SameWorker w.old w.new }
{
    let a = Errand::new(1, marks, first)?;
    let b = Errand::new(2, marks, second)?;
    match outcomes(w.join_jobs(rt, alloc, a, b)) {
        Ok((first, second)) => Ok(first.saturating_add(second)),
        Err(trouble) => Err(trouble),
    }
}

// Spawns four jobs that fault with this digit, two of them in order, and faults with it.
fn fault_by_five<R: Wait>(
    rt: &R,
    alloc: Global,
    w: &mut WorkerThread<Errand>,
    marks: &Arc<Marks>,
    digit: u64,
) -> Result<u64, Trouble>
    ensures same { SameWorker w.old w.new }
{
    spawn_fault(rt, alloc, w, marks, digit, false)?;
    spawn_fault(rt, alloc, w, marks, digit, true)?;
    spawn_fault(rt, alloc, w, marks, digit, false)?;
    spawn_fault(rt, alloc, w, marks, digit, true)?;
    Err(Trouble::Number(digit))
}

// Spawns a job that faults with this digit, in order or not.
fn spawn_fault<R: Wait>(
    rt: &R,
    alloc: Global,
    w: &mut WorkerThread<Errand>,
    marks: &Arc<Marks>,
    digit: u64,
    in_order: bool,
) -> Result<(), Trouble>
    ensures same { SameWorker w.old w.new }
{
    let job = Errand::new(digit, marks, Deed::End(Err(digit)))?;
    if in_order {
        return spawned(w.spawn_fifo(rt, alloc, job));
    }
    spawned(w.spawn(rt, alloc, job))
}

// What is told of a spawn that gave this.
fn spawned(answer: Result<(), (Refusal, Errand)>) -> Result<(), Trouble> {
    match answer {
        Ok(()) => Ok(()),
        Err(_) => Err(Trouble::NoMemory),
    }
}

// Takes two tasks at most out of the own deque, where at least one lies, pushes each again in the order in which they
// were taken, and answers how many there were.
fn take_and_push<R: Wait>(rt: &R, w: &mut WorkerThread<Errand>) -> Result<u64, Trouble>
    ensures same { SameWorker w.old w.new }
{
    let was_empty = w.local_deque_is_empty();
    let newer = w.take_local_job(rt);
    let older = w.take_local_job(rt);
    let is_empty = w.local_deque_is_empty();
    let newer = push_again(rt, w, newer);
    let older = push_again(rt, w, older);
    match (newer, older) {
        (Ok(newer), Ok(older)) if is_empty && !was_empty => Ok(newer.saturating_add(older)),
        _ => Err(Trouble::Unlike),
    }
}

// Takes two tasks at most out of the own deque, pushes each into the own FIFO list in the order in which they were
// taken, and so too the token of the last one, which it takes out of the deque again. Answers how many tasks there
// were.
fn take_and_list<R: Wait>(
    rt: &R,
    alloc: Global,
    w: &mut WorkerThread<Errand>,
) -> Result<u64, Trouble>
    ensures same { SameWorker w.old w.new }
{
    let newer = w.take_local_job(rt);
    let older = w.take_local_job(rt);
    let is_empty = w.local_deque_is_empty();
    let newer = push_in_order(rt, alloc, w, newer);
    let older = push_in_order(rt, alloc, w, older);
    let token = w.take_local_job(rt);
    let token = push_in_order(rt, alloc, w, token);
    match (newer, older, token) {
        (Ok(newer), Ok(older), Ok(1)) if is_empty => Ok(newer.saturating_add(older)),
        _ => Err(Trouble::Unlike),
    }
}

// Looks for a task by hand until one is found.
fn find<R: Wait>(rt: &R, w: &mut WorkerThread<Errand>) -> Option<Task<Errand>>
    ensures same { SameWorker w.old w.new }
{
    for _ in rt.forever() {
        if let Some(task) = look(rt, w) {
            return Some(task);
        }
    }
    None
}

// Looks for a task by hand once.
fn look<R: Wait>(rt: &R, w: &mut WorkerThread<Errand>) -> Option<Task<Errand>>
    ensures same { SameWorker w.old w.new }
{
    w.find_work(rt)
}

// Pushes a task into the own deque, where there is one, and answers how many there were.
fn push_again<R: Wait>(
    rt: &R,
    w: &mut WorkerThread<Errand>,
    task: Option<Task<Errand>>,
) -> Result<u64, Trouble>
    ensures same { SameWorker w.old w.new }
{
    match task {
        None => Ok(0),
        Some(task) => match w.push(rt, task) {
            Ok(()) => Ok(1),
            Err(_) => Err(Trouble::NoMemory),
        },
    }
}

/// Pushes a task into the own FIFO list, where there is one, and answers how many there were.
pub fn push_in_order<R: Wait>(
    rt: &R,
    alloc: Global,
    w: &mut WorkerThread<Errand>,
    task: Option<Task<Errand>>,
) -> Result<u64, Trouble>
    ensures same { SameWorker w.old w.new }
{
    match task {
        None => Ok(0),
        Some(task) => match w.push_fifo(rt, alloc, task) {
            Ok(()) => Ok(1),
            Err(_) => Err(Trouble::NoMemory),
        },
    }
}
