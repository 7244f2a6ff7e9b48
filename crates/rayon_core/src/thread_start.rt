//! The ordinary way in which a worker's thread is started.
ghost use Rattle.std.specs.IoError.{error_kind};
ghost use Rattle.std.specs.Arc.{arc_value};
ghost use Rattle.std.specs.Prelude.{◌≡◌, ◌<◌, Some, IfErr, slice_get};
ghost use Rattle.rayon_queues.specs.Deques.{DequeId};

use crate::thread_builder::{Begins, ThreadBuilder, ThreadShare};
use crate::thread_names::given_name;
use rayon_jobs::{JobKind, PoolHandler};
use rayon_queues::WorkerDeque;
use rayon_registry::{Job, SharedFaults, WorkerId};
use rayon_shared::{Registry, WorkerKit, WorkerSeats};
use rayon_tasks::Task;
use std::alloc::Global;
use std::io::ErrorKind;
use std::sync::{Arc, Wait};
use std::thread::{JoinHandle, Threads};
use std::{io, thread};

// Starts a thread in this way, which begins with these four values. They stand in types of their own: the checker finds
// of each that it may be sent, and not of a type that holds two. Each of the functions below puts one of these types in
// its place, since it finds that where little else stands beside the value.
fn start_with<
    S: Drop + Send + 'static,
    N: Drop + Send + 'static,
    D: Drop + Send + 'static,
    K: Drop + Send + 'static,
    R: Threads + Wait + Copy + Send + 'static,
    F: FnOnce(&R, S, N, D, K) + Drop + Send + 'static,
>(
    rt: &R,
    how: thread::Builder,
    shared: S,
    faults: N,
    deque: D,
    seats: K,
    begin: F,
) -> io::Result<JoinHandle<()>>
    requires { (r : _) → F.pre begin r shared faults deque seats }
{
    let theirs = *rt;
    how.spawn(
        rt,
        move ||
            requires { (r : _) → F.pre begin r shared faults deque seats }
        { begin(&theirs, shared, faults, deque, seats) },
    )
}

// A worker's own deque.
trait OwnDeque<J: JobKind>: Drop {
    // Which deque it is.
    ghost which: { Self → DequeId };

    // It itself.
    fn into_deque(self) -> WorkerDeque<Task<J>>
        ensures { result.id ≡ which self };
}

impl<J: JobKind> OwnDeque<J> for WorkerDeque<Task<J>> {
    ghost which = { λ d. d.id };

    fn into_deque(self) -> WorkerDeque<Task<J>> {
        self
    }
}

// A worker's seats.
trait OwnSeats: Drop {
    // They themselves.
    fn into_seats(self) -> WorkerSeats;
}

impl OwnSeats for WorkerSeats {
    fn into_seats(self) -> WorkerSeats {
        self
    }
}

// A share of the faults of a pool's detached jobs, and of its handlers.
trait OwnFaults<F, H>: Drop {
    // It itself.
    fn into_faults(self) -> SharedFaults<F, H>;
}

impl<F: Drop, H: PoolHandler<F>> OwnFaults<F, H> for SharedFaults<F, H> {
    fn into_faults(self) -> SharedFaults<F, H> {
        self
    }
}

// Starts the thread of this worker, which begins with what the pool's threads share, and with these faults, the pool's
// own deque of the worker's index, and these seats.
fn start_sharing<
    J,
    N: OwnFaults<J::Fault, J::Handler> + Send + 'static,
    D: OwnDeque<J> + Send + 'static,
    K: OwnSeats + Send + 'static,
    R: Threads + Wait + Copy + Send + 'static,
>(
    rt: &R,
    alloc: Global,
    worker: WorkerId,
    how: thread::Builder,
    shared: Arc<Registry<Task<J>>, Global>,
    faults: N,
    deque: D,
    seats: K,
) -> io::Result<JoinHandle<()>>
where
    J: Job + Send + Sync + 'static,
    J::Tag: Send + Sync + 'static,
    J::Output: Send + Sync + 'static,
    J::Fault: Send + Sync + 'static,
    J::Handler: Send + Sync + 'static,
    requires index { worker.index < (arc_value shared).workers }
    requires own { slice_get (arc_value shared).deques worker.index ≡ Some (D.which deque) }
{
    start_with(
        rt,
        how,
        shared,
        faults,
        deque,
        seats,
        move |rt, shared, faults, deque, seats|
            requires { (worker.index < (arc_value shared).workers) × (slice_get (arc_value shared).deques worker.index ≡ Some (D.which deque)) }
        {
            let kit = WorkerKit::new(deque.into_deque(), seats.into_seats());
            let WorkerId { pool, index } = worker;
            let faults = faults.into_faults();
            rayon_registry::ThreadBuilder::new(pool, index, shared, faults, kit).run(rt, alloc);
        },
    )
}

// Starts the thread of this worker, whose own deque this is.
fn start_with_deque<
    J,
    N: OwnFaults<J::Fault, J::Handler> + Send + 'static,
    K: OwnSeats + Send + 'static,
    R: Threads + Wait + Copy + Send + 'static,
>(
    rt: &R,
    alloc: Global,
    worker: WorkerId,
    how: thread::Builder,
    shared: Arc<Registry<Task<J>>, Global>,
    faults: N,
    deque: WorkerDeque<Task<J>>,
    seats: K,
) -> io::Result<JoinHandle<()>>
where
    J: Job + Send + Sync + 'static,
    J::Tag: Send + Sync + 'static,
    J::Output: Send + Sync + 'static,
    J::Fault: Send + Sync + 'static,
    J::Handler: Send + Sync + 'static,
    requires index { worker.index < (arc_value shared).workers }
    requires own { slice_get (arc_value shared).deques worker.index ≡ Some deque.id }
{
    start_sharing(rt, alloc, worker, how, shared, faults, deque, seats)
}

// How to start a thread with so many bytes of stack, and this name. Refused where the name holds a NUL.
fn way_to_start(stack_size: Option<usize>, name: Option<String>) -> io::Result<thread::Builder>
    ensures refused { IfErr result (λ e. error_kind e ≡ ErrorKind.InvalidInput) }
{
    let how = match stack_size {
        Some(size) => thread::Builder::new().stack_size(size),
        None => thread::Builder::new(),
    };
    match name {
        Some(name) => Ok(how.name(given_name(name)?)),
        None => Ok(how),
    }
}

// Starts a thread that runs this, with the name and the stack that it says.
pub(crate) fn start_thread<J, R: Threads + Wait + Copy + Send + 'static>(
    rt: &R,
    alloc: Global,
    thread: ThreadBuilder<J>,
) -> io::Result<JoinHandle<()>>
where
    J: Job + Send + Sync + 'static,
    J::Tag: Send + Sync + 'static,
    J::Output: Send + Sync + 'static,
    J::Fault: Send + Sync + 'static,
    J::Handler: Send + Sync + 'static,
{
    let Begins {
        worker,
        name,
        stack_size,
        share: ThreadShare { shared, kit },
        faults,
    } = thread.into_begins();
    let how = way_to_start(stack_size, name)?;
    let (deque, seats) = kit.into_parts();
    start_with_deque(rt, alloc, worker, how, shared, faults, deque, seats)
}

impl<J: JobKind> ThreadBuilder<J> {
    /// Starts a thread that is the worker (`run`), with the name and the bytes of stack that were set, as a pool does
    /// that has no spawn handler. Answers the thread's handle, which nobody else has. Refused as the system refuses a
    /// thread, and `InvalidInput` where the name has a NUL byte: then the worker never runs. rayon-core has no such
    /// call: there each handler starts a thread that calls `run`.
    pub fn start<R: Threads + Wait + Copy + Send + 'static>(
        self,
        rt: &R,
        alloc: Global,
    ) -> io::Result<JoinHandle<()>>
    where
        J: Job + Send + Sync + 'static,
        J::Tag: Send + Sync + 'static,
        J::Output: Send + Sync + 'static,
        J::Fault: Send + Sync + 'static,
        J::Handler: Send + Sync + 'static,
    {
        start_thread(rt, alloc, self)
    }
}
