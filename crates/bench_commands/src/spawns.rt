//! The jobs that are spawned: each counts one.
ghost use Rattle.rayon_core.specs.Worker.{SameWorker};
ghost use Rattle.std.specs.Prelude.{◌≡◌, ◌≤◌, ℕ};

use rayon_core::{
    BroadcastContext, FnContext, Job, JobKind, NoHandler, Refusal, Waits, WorkerThread,
};
use std::alloc::Global;
use std::sync::Arc;
use std::sync::atomic::{AtomicU64, Ordering};
use thiserror::Error;

/// Why not all jobs were spawned.
#[derive(Debug, Drop, Error)]
pub enum SpawnFault {
    /// A spawn was refused.
    #[error("{0}")]
    Refused(Refusal),
}

/// By which call the jobs are spawned.
#[derive(Clone, Copy)]
pub enum Manner {
    /// `WorkerThread::spawn`.
    Plain,
    /// `WorkerThread::spawn_fifo`.
    InOrder,
    /// `WorkerThread::spawn_broadcast`: each worker counts one.
    Everywhere,
}

/// A job that spawns so many that count one each, or that counts one itself where that is none.
#[derive(Drop)]
pub struct Spawning {
    counter: Arc<AtomicU64>,
    count: u64,
    manner: Manner,
}

impl Spawning {
    /// A job that spawns so many in this manner.
    pub fn new(counter: Arc<AtomicU64>, count: u64, manner: Manner) -> Spawning {
        Spawning {
            counter,
            count,
            manner,
        }
    }
}

impl JobKind for Spawning {
    type Tag = u64;

    type Output = u64;

    type Fault = SpawnFault;

    type Handler = NoHandler;

    ghost answers = { λ t r. Unit {0} };

    ghost tag_of = { λ j. j.count };

    ghost same_answers = { λ t u e. (λ r h. h, λ i n r h. h) };

    fn tag(&self) -> u64 {
        self.count
    }
}

impl Job for Spawning {
    fn run<R: Waits<Self>>(
        self,
        rt: &R,
        alloc: Global,
        w: &mut WorkerThread<Self>,
        _ctx: &mut FnContext<Self>,
    ) -> Result<u64, SpawnFault> {
        if self.count == 0 {
            self.counter.fetch_add(1, Ordering::SeqCst);
            return Ok(1);
        }
        spawn_all(rt, alloc, w, &self.counter, self.count, self.manner)?;
        match self.manner {
            Manner::Plain | Manner::InOrder => Ok(self.count),
            Manner::Everywhere => Ok(self.count.saturating_mul(w.current_num_threads() as u64)),
        }
    }

    fn run_on<R: Waits<Self>>(
        &self,
        _rt: &R,
        _alloc: Global,
        _w: &mut WorkerThread<Self>,
        _ctx: &mut BroadcastContext<Self>,
    ) -> Result<u64, SpawnFault> {
        self.counter.fetch_add(1, Ordering::SeqCst);
        Ok(1)
    }
}

// Spawns so many jobs that count one, in this manner.
fn spawn_all<R: Waits<Spawning>>(
    rt: &R,
    alloc: Global,
    w: &mut WorkerThread<Spawning>,
    counter: &Arc<AtomicU64>,
    count: u64,
    manner: Manner,
) -> Result<(), SpawnFault>
    ensures same { SameWorker w.old w.new }
{
    for _ in 0..count {
        let Ok(counter) = Arc::try_clone(counter) else {
            return Err(SpawnFault::Refused(Refusal::NoRoom));
        };
        let job = Spawning::new(counter, 0, manner);
        let spawned = match manner {
            Manner::Plain => w.spawn(rt, alloc, job),
            Manner::InOrder => w.spawn_fifo(rt, alloc, job),
            Manner::Everywhere => w.spawn_broadcast(rt, alloc, job),
        };
        if let Err((refusal, _job)) = spawned {
            return Err(SpawnFault::Refused(refusal));
        }
    }
    Ok(())
}
