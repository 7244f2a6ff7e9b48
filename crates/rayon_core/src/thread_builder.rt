//! A worker's thread, up to where it begins.
ghost use Rattle.std.specs.Arc.{arc_value};
ghost use Rattle.std.specs.Prelude.{◌≡◌, ◌<◌, Some, IfOk, IfErr, option_map, slice_get};
ghost use Rattle.std.specs.String.{string_bytes};

use rayon_jobs::JobKind;
use rayon_registry::{Job, PoolRef, SharedFaults, WorkerId, faults_of, shared_of};
use rayon_shared::{Registry, WorkerKit};
use rayon_tasks::Task;
use rayon_words::Refusal;
use std::alloc::Global;
use std::marker::Model;
use std::sync::{Arc, Wait};

// What a worker's thread begins with, where its pool's queues hold such tasks. It stands apart from the job type, so
// that the checker finds once that it may be sent where its tasks may be.
#[derive(Drop)]
pub(crate) struct ThreadShare<T> {
    pub(crate) shared: Arc<Registry<T>, Global>,
    pub(crate) kit: WorkerKit<T>,
}

// All that a worker's thread begins with.
#[derive(Drop)]
pub(crate) struct Begins<J: JobKind> {
    pub(crate) worker: WorkerId,
    pub(crate) name: Option<String>,
    pub(crate) stack_size: Option<usize>,
    pub(crate) share: ThreadShare<Task<J>>,
    pub(crate) faults: SharedFaults<J::Fault, J::Handler>,
}

/// The thread of a worker that has not begun: it may be sent to the thread that is to call `run`. A closure that
/// `spawn_handler` was given is handed one for each worker, and a worker whose builder is let go never runs. Contracts
/// see the worker's pool and its index there, the name that its thread is to have, by its bytes, and the bytes of
/// stack.
#[derive(Drop)]
pub struct ThreadBuilder<J: JobKind> {
    // in a box: where a user builds a pool the checker compares the layout of this type, as often as it stands in a
    // signature
    begins: Box<Begins<J>, Global>,
}

impl<J: JobKind> Model for ThreadBuilder<J> {
    ghost use Rattle.rayon_core.specs.Threads.{Thread};
    ghost use Rattle.std.specs.Arc.{arc_value};
    ghost use Rattle.std.specs.Prelude.{◌≡◌, ◌<◌, Some, option_map, slice_get};
    ghost use Rattle.std.specs.String.{string_bytes};

    ghost Value = { Thread };

    ghost view = { λ t. record {
      pool = record { id = t.begins.value.worker.pool; workers = (arc_value t.begins.value.share.shared).workers; depth_limit = (arc_value t.begins.value.share.shared).depth_limit; breadth_first = (arc_value t.begins.value.share.shared).breadth_first; deques = (arc_value t.begins.value.share.shared).deques; count = (arc_value t.begins.value.share.shared).count };
      index = t.begins.value.worker.index;
      name = option_map string_bytes t.begins.value.name;
      stack_size = t.begins.value.stack_size;
    } };

    ghost invariant = { λ t. (t.begins.value.worker.index < (arc_value t.begins.value.share.shared).workers) × (slice_get (arc_value t.begins.value.share.shared).deques t.begins.value.worker.index ≡ Some t.begins.value.share.kit.id) };
}

impl<J: JobKind> ThreadBuilder<J> {
    // The thread of the worker with this index of this pool, which begins with this: the pool's own deque of this index.
    // Refused `NoRoom`.
    pub(crate) fn new(
        alloc: Global,
        pool: &PoolRef<J>,
        index: usize,
        name: Option<String>,
        stack_size: Option<usize>,
        kit: WorkerKit<Task<J>>,
    ) -> Result<ThreadBuilder<J>, Refusal>
        requires index { index < pool.now.workers }
        requires own { slice_get pool.now.deques index ≡ Some kit.id }
        ensures made { IfOk result (λ t. t ≡ record { pool = pool.now; index = index; name = option_map string_bytes name; stack_size = stack_size }) }
        ensures refused { IfErr result (λ r. r ≡ Refusal.NoRoom) }
    {
        let shared = shared_of(pool)?;
        let faults = faults_of(pool)?;
        let worker = WorkerId {
            pool: pool.id(),
            index,
        };
        let begins = Begins {
            worker,
            name,
            stack_size,
            share: ThreadShare { shared, kit },
            faults,
        };
        match Box::new(alloc, begins) {
            Ok(begins) => Ok(ThreadBuilder { begins }),
            Err(_) => Err(Refusal::NoRoom),
        }
    }

    // What it begins with.
    pub(crate) fn into_begins(self) -> Begins<J>
        ensures worker { (result.worker.pool ≡ self.pool.id) × (result.worker.index ≡ self.index) }
        ensures told { (option_map string_bytes result.name ≡ self.name) × (result.stack_size ≡ self.stack_size) }
        ensures of_pool { result.worker.index < (arc_value result.share.shared).workers }
        ensures own { slice_get (arc_value result.share.shared).deques result.worker.index ≡ Some result.share.kit.id }
    {
        let ThreadBuilder { begins } = self;
        Box::into_inner(begins)
    }

    /// The worker's index in its pool, from 0.
    pub fn index(&self) -> usize
        ensures { result ≡ self.now.index }
    {
        self.begins.worker.index
    }

    /// The name that `thread_name` of the pool's builder gave for this worker; None where it was not called.
    pub fn name(&self) -> Option<&str>
        ensures { option_map (λ s. s.now) result ≡ self.now.name }
    {
        self.begins.name.as_deref()
    }

    /// How many bytes of stack `stack_size` of the pool's builder asked for; None where it was not called.
    pub fn stack_size(&self) -> Option<usize>
        ensures { result ≡ self.now.stack_size }
    {
        self.begins.stack_size
    }

    /// Is the worker, on the thread that calls this: tells the pool's start handler, runs jobs, and comes back once the
    /// pool has ended and the exit handler was told. The thread's name and stack are its own: whoever started it gave
    /// them to it.
    pub fn run<R: Wait>(self, rt: &R, alloc: Global)
    where
        J: Job,
    {
        let Begins {
            worker,
            name: _,
            stack_size: _,
            share: ThreadShare { shared, kit },
            faults,
        } = self.into_begins();
        let WorkerId { pool, index } = worker;
        rayon_registry::ThreadBuilder::new(pool, index, shared, faults, kit).run(rt, alloc);
    }
}
