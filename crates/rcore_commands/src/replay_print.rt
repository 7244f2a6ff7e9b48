//! The text of a world.
use rayon_machine::act::Act;
use rayon_machine::readers::{Next, WorkerState};
use rayon_machine::world::World;
use std::io::{Result, Write};

/// The most pools that a world has.
const MAX_POOLS: usize = 8;

/// The most workers that a pool has.
const MAX_WORKERS: usize = 64;

/// Writes each pool with its workers, and last the jobs.
pub fn write_world<W: Write>(out: &mut W, world: &World) -> Result<()> {
    for pool in 0..MAX_POOLS {
        write_pool(out, world, pool)?;
    }
    let jobs = world.job_totals();
    let (queued, running, done) = (jobs.queued, jobs.running, jobs.done);
    writeln!(out, "jobs {queued} queued {running} running {done} done")
}

// Writes one pool and its workers; nothing where the world has no such pool.
fn write_pool<W: Write>(out: &mut W, world: &World, pool: usize) -> Result<()> {
    let Some(state) = world.pool_at(pool) else {
        return Ok(());
    };
    let (sleeping, inactive, turn) = (state.sleeping, state.inactive, state.turn);
    let (injected, count) = (state.injected, state.count);
    writeln!(
        out,
        "pool {pool} sleeping {sleeping} inactive {inactive} turn {turn} injected {injected} count {count}"
    )?;
    for index in 0..MAX_WORKERS {
        let Some(worker) = world.worker_at(pool, index) else {
            return Ok(());
        };
        write_worker(out, pool, index, worker)?;
    }
    Ok(())
}

// Writes one worker.
fn write_worker<W: Write>(
    out: &mut W,
    pool: usize,
    index: usize,
    worker: WorkerState,
) -> Result<()> {
    let (deque, cast) = (worker.deque, worker.cast);
    let blocked = u8::from(worker.blocked);
    let place = match worker.next {
        Next::Act(act) => act_name(act),
        Next::Free => "Free",
        Next::Stopped => "Stopped",
    };
    writeln!(
        out,
        "{pool}.{index} deque {deque} cast {cast} blocked {blocked} place {place}"
    )
}

// The name of an act.
fn act_name(act: Act) -> &'static str {
    match act {
        Act::Probe(_) => "Probe",
        Act::PopOwn => "PopOwn",
        Act::TakeCast => "TakeCast",
        Act::AddInactive => "AddInactive",
        Act::Pick => "Pick",
        Act::Steal { .. } => "Steal",
        Act::PopInj => "PopInj",
        Act::Announce => "Announce",
        Act::Sleepy(_) => "Sleepy",
        Act::Lock { .. } => "Lock",
        Act::Asleep(_) => "Asleep",
        Act::Load => "Load",
        Act::TryAdd { .. } => "TryAdd",
        Act::LookCast => "LookCast",
        Act::LookInj(_) => "LookInj",
        Act::LookOwn => "LookOwn",
        Act::Block => "Block",
        Act::SubSleeping => "SubSleeping",
        Act::Wakeup(_) => "Wakeup",
        Act::Unlock { .. } => "Unlock",
        Act::SubInactive => "SubInactive",
        Act::Wake { .. } => "Wake",
        Act::Begin(_) => "Begin",
        Act::PushInj { .. } => "PushInj",
        Act::PushOwn { .. } => "PushOwn",
        Act::News { .. } => "News",
        Act::Set { .. } => "Set",
        Act::LockSet(_) => "LockSet",
        Act::LockWait(_) => "LockWait",
        _ => rare_act_name(act),
    }
}

// The name of an act of a call, or on a FIFO list or all broadcast lists or a book.
fn rare_act_name(act: Act) -> &'static str {
    match act {
        Act::FifoIn { .. } => "FifoIn",
        Act::FifoUndo(_) => "FifoUndo",
        Act::FifoOut { .. } => "FifoOut",
        Act::PushCast(_) => "PushCast",
        Act::Lower { .. } | Act::LowerAll(_) => "Lower",
        Act::Raise { .. } | Act::RaiseAll(_) => "Raise",
        Act::Grow(_) => "Grow",
        Act::Store { .. } | Act::StorePiece { .. } => "Store",
        Act::StoreBody { .. } | Act::StoreSlot { .. } => "Store",
        Act::Take(_) => "Take",
        Act::Slot { .. } | Act::SlotAll(_) => "Slot",
        Act::SlotUndo { .. } | Act::SlotUndoAll(_) => "SlotUndo",
        _ => "Idle",
    }
}
