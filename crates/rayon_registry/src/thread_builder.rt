//! A worker's thread, up to its loop.
ghost use Rattle.std.specs.Arc.{arc_value};
ghost use Rattle.std.specs.Prelude.{◌≡◌, ◌<◌, Some, slice_get};

use crate::faults::SharedFaults;
use crate::ids::PoolId;
use crate::job::Job;
use crate::level::{Level, work_at};
use crate::pool_ref::PoolRef;
use crate::worker_thread::WorkerThread;
use rayon_jobs::JobKind;
use rayon_shared::{Registry, WorkerKit};
use rayon_tasks::Task;
use std::alloc::Global;
use std::marker::Model;
use std::sync::{Arc, Wait};

/// A worker's thread that has not begun its loop yet. Contracts see its pool and its index. What it begins with has the
/// deque that the pool has of this index.
#[derive(Drop)]
pub struct ThreadBuilder<J: JobKind> {
    pool: PoolRef<J>,
    index: usize,
    deque: WorkerKit<Task<J>>,
}

impl<J: JobKind> Model for ThreadBuilder<J> {
    ghost use Rattle.rayon_registry.specs.Worker.{Seat};
    ghost use Rattle.std.specs.Prelude.{◌≡◌, ◌<◌, Some, slice_get};

    ghost Value = { Seat };

    ghost view = { λ t. record { pool = t.pool; index = t.index } };

    ghost invariant = { λ t. (t.index < t.pool.workers) × (slice_get t.pool.deques t.index ≡ Some t.deque.id) };
}

impl<J: JobKind> ThreadBuilder<J> {
    /// The thread of the worker with this index of the pool with this number, by what the pool's threads share and by
    /// what that worker of the pool begins with, and no other one. It is made in the thread itself, of what was sent
    /// there.
    pub fn new(
        id: PoolId,
        index: usize,
        shared: Arc<Registry<Task<J>>, Global>,
        faults: SharedFaults<J::Fault, J::Handler>,
        deque: WorkerKit<Task<J>>,
    ) -> ThreadBuilder<J>
        requires index { index < (arc_value shared).workers }
        requires own { slice_get (arc_value shared).deques index ≡ Some deque.id }
        ensures seat { result ≡ record { pool = record { id = id; workers = (arc_value shared).workers; depth_limit = (arc_value shared).depth_limit; breadth_first = (arc_value shared).breadth_first; deques = (arc_value shared).deques; count = (arc_value shared).count }; index = index } }
    {
        ThreadBuilder {
            pool: PoolRef::of(id, shared, faults),
            index,
            deque,
        }
    }

    /// The worker's index in its pool, from 0.
    pub fn index(&self) -> usize
        ensures { result ≡ self.now.index }
    {
        self.index
    }

    /// Tells the pool's start handler, where it has one; then the worker's loop: runs what is queued, sleeps where
    /// nothing is, and ends when the pool has ended; at last tells the pool's exit handler. A handler's fault goes
    /// where that of a detached job goes, and keeps nothing else from being done.
    pub fn run<R: Wait>(self, rt: &R, alloc: Global)
    where
        J: Job,
    {
        let ThreadBuilder { pool, index, deque } = self;
        pool.faults.started(rt, index);
        let mut worker = WorkerThread::new(pool, index, deque);
        let level = Level::new(worker.levels());
        work_at(rt, &level, alloc, &mut worker);
        worker.faults.exited(rt, index);
    }
}
