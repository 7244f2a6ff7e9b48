//! How a pool is made.
ghost use Rattle.rayon_core.specs.Environment.{Says, workers_of};
ghost use Rattle.rayon_core.specs.Texts.{fixed_text};
ghost use Rattle.rayon_core.specs.Threads.{Took, TookFirst};
ghost use Rattle.std.specs.Prelude.{◌≡◌, ℕ, ◌+◌, ◌-◌, ◌^◌, ◌<◌, map, max, length, slice_get, All, is_some, IfOk, IfErr, MatchOption, None, Some, true, false};

use crate::build_error::ThreadPoolBuildError;
use crate::environment::{Environment, number_in};
use crate::thread_builder::ThreadBuilder;
use crate::thread_names::{NamesBy, NoNames, ThreadNames};
use crate::thread_pool::{ThreadPool, end_workers};
use crate::thread_spawn::{CustomSpawn, DefaultSpawn, ThreadSpawn};
use crate::thread_start::start_thread;
use rayon_jobs::JobKind;
use rayon_registry::{Handlers, Ids, Job, PoolRef, new_pool};
use rayon_shared::WorkerKit;
use rayon_tasks::Task;
use std::alloc::{AllocError, AllocFailed, Global};
use std::marker::{Model, PhantomData};
use std::sync::Wait;
use std::thread::{JoinHandle, Threads};

/// What a pool is to be like. Contracts see what was set. `N` is what names its threads: nothing, until `thread_name`
/// is called. `S` is what starts them: the pool itself, until `spawn_handler` is called.
#[derive(Drop)]
pub struct ThreadPoolBuilder<J: JobKind, N = NoNames, S = DefaultSpawn> {
    num_threads: usize,
    environment: Environment,
    stack_size: Option<usize>,
    depth_limit: usize,
    steal_seed: u64,
    breadth_first: bool,
    handlers: Handlers<J::Handler>,
    names: N,
    spawn: S,
    jobs: PhantomData<J>,
}

impl<J: JobKind, N, S> Model for ThreadPoolBuilder<J, N, S> {
    ghost use Rattle.rayon_core.specs.Settings.{Settings};

    ghost Value = { Settings J.Handler N S };

    ghost view = { λ b. record {
      num_threads = b.num_threads;
      first = b.environment.first;
      second = b.environment.second;
      processors = b.environment.processors;
      stack_size = b.stack_size;
      depth_limit = b.depth_limit;
      steal_seed = b.steal_seed;
      breadth_first = b.breadth_first;
      panic_handler = b.handlers.panic;
      start_handler = b.handlers.start;
      exit_handler = b.handlers.exit;
      names = b.names;
      spawn = b.spawn;
    } };
}

impl<J: JobKind> ThreadPoolBuilder<J> {
    /// Settings of which none was made: the builder chooses how many workers, with no word of the environment and an
    /// unknown number of processors, and runs may nest as deep as the stack of a thread allows, which is the system's.
    pub fn new() -> ThreadPoolBuilder<J>
        ensures { result ≡ record { num_threads = 0; first = None; second = None; processors = 0; stack_size = None; depth_limit = 2 ^ 64 - 1; steal_seed = 0; breadth_first = false; panic_handler = None; start_handler = None; exit_handler = None; names = result.names; spawn = result.spawn } }
    {
        ThreadPoolBuilder {
            num_threads: 0,
            environment: Environment::unknown(),
            stack_size: None,
            depth_limit: usize::MAX,
            steal_seed: 0,
            breadth_first: false,
            handlers: Handlers {
                panic: None,
                start: None,
                exit: None,
            },
            names: NoNames,
            spawn: DefaultSpawn,
            jobs: PhantomData,
        }
    }
}

impl<J: JobKind, N, S> ThreadPoolBuilder<J, N, S> {
    /// Asks for this many workers, of which a pool has at most `max_num_threads()`; 0 leaves the choice to the builder
    /// (`worker_count`).
    pub fn num_threads(self, num_threads: usize) -> ThreadPoolBuilder<J, N, S>
        ensures { result ≡ record self { num_threads = num_threads } }
    {
        let mut builder = self;
        builder.num_threads = num_threads;
        builder
    }

    /// Tells what the choice of the number of workers goes by where none was asked for: the word that the environment
    /// has for `RAYON_NUM_THREADS`, the one that it has for `RAYON_RS_NUM_CPUS`, and how many processors there are,
    /// where 0 says that this is unknown. rayon-core reads these by itself; here nothing is read that is not handed in.
    /// A word counts as absent where it is not one or more decimal digits, after a plus or none, or says more than 2^64
    /// - 1.
    pub fn environment(
        self,
        first: Option<&str>,
        second: Option<&str>,
        processors: usize,
    ) -> ThreadPoolBuilder<J, N, S>
        ensures first { MatchOption first.entry (result.first ≡ None) (λ w. Says w.now result.first) }
        ensures second { MatchOption second.entry (result.second ≡ None) (λ w. Says w.now result.second) }
        ensures rest { result ≡ record self { first = result.first; second = result.second; processors = processors } }
    {
        let mut builder = self;
        builder.environment = Environment {
            first: number_in(first),
            second: number_in(second),
            processors,
        };
        builder
    }

    /// How many workers the pool will have, as far as settings were made: those that were asked for. Where none were,
    /// the number of the first word, of which 0 stands for the number of processors; where that word is absent, the
    /// number of the second one; where this is 0 or absent too, the number of processors. There is one worker at least,
    /// and no more than `max_num_threads()`.
    pub fn worker_count(&self) -> usize
        ensures count { result ≡ workers_of self.now }
        ensures range { (0 < result) × (result < 65536) }
    {
        self.environment.worker_count(self.num_threads)
    }

    /// Sets how many bytes the stack of each worker's thread has, rounded up to a multiple of 128 KiB. Where that is
    /// not set the system's limit says it, mostly 8 MiB (`ulimit -s`; 2 MiB where there is no limit). A size that the
    /// system can't give makes `build` answer `IOError`.
    pub fn stack_size(self, stack_size: usize) -> ThreadPoolBuilder<J, N, S>
        ensures { result ≡ record self { stack_size = Some stack_size } }
    {
        let mut builder = self;
        builder.stack_size = Some(stack_size);
        builder
    }

    /// Sets how many runs may stand nested under one worker's own value; 0 counts as 1. What is not set is bounded by
    /// the stack of the worker's thread alone (`stack_size`), and a call that is nested deeper than it allows ends the
    /// process. A level costs about 1,500 bytes of it by `join_jobs`, about 2,600 where a worker that waits takes the
    /// job from a queue, and on top of that what the job's own `run` needs. A limit of 2,000 leaves 4 KiB for a level
    /// of 8 MiB (500 do so of 2 MiB): safe for jobs whose `run` needs less than 1,400 bytes for its own variables.
    pub fn depth_limit(self, depth_limit: usize) -> ThreadPoolBuilder<J, N, S>
        ensures { result ≡ record self { depth_limit = depth_limit } }
    {
        let mut builder = self;
        builder.depth_limit = depth_limit;
        builder
    }

    /// Sets what is added to each worker's index for the seed by which it chooses from whom to steal first.
    pub fn steal_seed(self, steal_seed: u64) -> ThreadPoolBuilder<J, N, S>
        ensures { result ≡ record self { steal_seed = steal_seed } }
    {
        let mut builder = self;
        builder.steal_seed = steal_seed;
        builder
    }

    /// Has each worker take the oldest task of its own deque first, where else it takes the newest. Jobs that spawn
    /// then go breadth first, and the second side of a join is found behind what was queued before it. No answer
    /// depends on it.
    pub fn breadth_first(self) -> ThreadPoolBuilder<J, N, S>
        ensures { result ≡ record self { breadth_first = true } }
    {
        let mut builder = self;
        builder.breadth_first = true;
        builder
    }

    /// Sets what the pool tells the faults of its detached jobs to, and those of the other two handlers, in place of
    /// keeping them for `take_fault`. The worker that ran a job tells it (`PoolHandler::panicked`), with no lock of the
    /// pool held, before the job's unit of the terminate count is given back; several workers may do so at a time.
    /// rayon-core takes a closure, and ends the process where there is none.
    pub fn panic_handler(self, handler: J::Handler) -> ThreadPoolBuilder<J, N, S>
        ensures { result ≡ record self { panic_handler = Some handler } }
    {
        let mut builder = self;
        builder.handlers.panic = Some(handler);
        builder
    }

    /// Sets what each worker's thread tells its index to when it begins (`PoolHandler::started`), before it runs a job;
    /// several threads may do so at a time, and `build` does not wait for it. A fault goes where that of a detached job
    /// goes, and the worker goes on. A build that is refused has each thread that it started tell this and the exit
    /// handler before it answers. rayon-core takes a closure.
    pub fn start_handler(self, handler: J::Handler) -> ThreadPoolBuilder<J, N, S>
        ensures { result ≡ record self { start_handler = Some handler } }
    {
        let mut builder = self;
        builder.handlers.start = Some(handler);
        builder
    }

    /// Sets what each worker's thread tells its index to once it has run its last job (`PoolHandler::exited`), before
    /// it ends: so all was told once the threads are joined (`end_and_join`). A fault goes where that of a detached job
    /// goes. rayon-core takes a closure, which may spawn jobs on a pool that has ended; this one is handed no pool.
    pub fn exit_handler(self, handler: J::Handler) -> ThreadPoolBuilder<J, N, S>
        ensures { result ≡ record self { exit_handler = Some handler } }
    {
        let mut builder = self;
        builder.handlers.exit = Some(handler);
        builder
    }

    /// Sets what the worker's thread is called, by its index: tools such as `ps` show the first 15 bytes. `build` asks
    /// for one name before it starts each thread, in the order of the indices. An error of the closure is want of
    /// memory, and makes `build` answer `NoRoom`; a name with a NUL byte makes it answer `IOError` of the kind
    /// `InvalidInput`, where rayon-core panics. What was started by then is told to end, and is joined where `build`
    /// started it, not a spawn handler.
    pub fn thread_name<F: FnMut(usize) -> Result<String, AllocError>>(
        self,
        name: F,
    ) -> ThreadPoolBuilder<J, NamesBy<F>, S>
    where
        N: Drop,
        ensures { result ≡ record {
          num_threads = self.num_threads;
          first = self.first;
          second = self.second;
          processors = self.processors;
          stack_size = self.stack_size;
          depth_limit = self.depth_limit;
          steal_seed = self.steal_seed;
          breadth_first = self.breadth_first;
          panic_handler = self.panic_handler;
          start_handler = self.start_handler;
          exit_handler = self.exit_handler;
          names = name;
          spawn = self.spawn;
        } }
    {
        ThreadPoolBuilder {
            num_threads: self.num_threads,
            environment: self.environment,
            stack_size: self.stack_size,
            depth_limit: self.depth_limit,
            steal_seed: self.steal_seed,
            breadth_first: self.breadth_first,
            handlers: self.handlers,
            names: NamesBy::new(name),
            spawn: self.spawn,
            jobs: PhantomData,
        }
    }

    /// Sets what starts each worker's thread in place of the pool: a closure of `ThreadBuilder<J>`, whose type it has
    /// to write, that answers `io::Result<()>`. `build` hands it one for each worker, in the order of the indices, and
    /// it sees to it that a thread of its own calls `ThreadBuilder::run`. Its error makes `build` answer `IOError`.
    /// Neither a refused `build` nor `ThreadPool::end_and_join` joins such threads: they leave once the pool has ended,
    /// and whoever has their handles may wait for that. In rayon-core the type is inferred.
    pub fn spawn_handler<F>(self, spawn: F) -> ThreadPoolBuilder<J, N, CustomSpawn<F>>
    where
        S: Drop,
        ensures { result ≡ record {
          num_threads = self.num_threads;
          first = self.first;
          second = self.second;
          processors = self.processors;
          stack_size = self.stack_size;
          depth_limit = self.depth_limit;
          steal_seed = self.steal_seed;
          breadth_first = self.breadth_first;
          panic_handler = self.panic_handler;
          start_handler = self.start_handler;
          exit_handler = self.exit_handler;
          names = self.names;
          spawn = spawn;
        } }
    {
        let ThreadPoolBuilder {
            num_threads,
            environment,
            stack_size,
            depth_limit,
            steal_seed,
            breadth_first,
            handlers,
            names,
            spawn: _,
            jobs,
        } = self;
        ThreadPoolBuilder {
            num_threads,
            environment,
            stack_size,
            depth_limit,
            steal_seed,
            breadth_first,
            handlers,
            names,
            spawn: CustomSpawn::new(spawn),
            jobs,
        }
    }
}

impl<J: JobKind, N> ThreadPoolBuilder<J, N> {
    /// Makes the pool: draws its number, and starts its workers' threads, each after its name was asked for. Refused
    /// `NoIds`, `NoRoom`, `IOError`, in this order where more than one holds before a thread is started; what was
    /// started is ended and joined again, so no thread is left. It asks that a closure which names the threads may be
    /// called with any index, and again after that.
    ///
    /// Which of the three it is no clause can say: the numbers lie behind the lock of `Ids`, and memory and threads are
    /// the system's. That a pool that was begun is ended the types say: its unit of the terminate count has no `Drop`,
    /// and `end_pool` takes that of its own pool alone.
    pub fn build<R: Threads + Wait + Copy + Send + 'static>(
        self,
        rt: &R,
        alloc: Global,
        ids: &Ids,
    ) -> Result<ThreadPool<J>, ThreadPoolBuildError>
    where
        N: ThreadNames,
        J: Job + Send + Sync + 'static,
        J::Tag: Send + Sync + 'static,
        J::Output: Send + Sync + 'static,
        J::Fault: Send + Sync + 'static,
        J::Handler: Send + Sync + 'static,
        requires names { N.can_name self.names }
        ensures workers { IfOk result (λ p. p.workers ≡ workers_of self) }
        ensures depth { IfOk result (λ p. p.depth_limit ≡ max 1 self.depth_limit) }
        ensures order { IfOk result (λ p. p.breadth_first ≡ self.breadth_first) }
        ensures took { IfOk result (λ p. (last : N × DefaultSpawn) × TookFirst N.named (λ s t u. Unit {0}) p self.stack_size (self.names, self.spawn) p.workers last) }
        ensures cause { IfErr result (λ e. fixed_text e ≡ None) }
    {
        build_pool(self, rt, alloc, ids)
    }
}

impl<J: JobKind, N, F> ThreadPoolBuilder<J, N, CustomSpawn<F>> {
    /// Makes the pool as `build` without a spawn handler does, but that each thread is started by the handler. What was
    /// started before a refusal is told to end, and is joined by whoever has the threads' handles.
    pub fn build<R: Threads + Wait + Copy + Send + 'static>(
        self,
        rt: &R,
        alloc: Global,
        ids: &Ids,
    ) -> Result<ThreadPool<J>, ThreadPoolBuildError>
    where
        N: ThreadNames,
        F: Drop,
        CustomSpawn<F>: ThreadSpawn<ThreadBuilder<J>>,
        J: Job + Send + Sync + 'static,
        J::Tag: Send + Sync + 'static,
        J::Output: Send + Sync + 'static,
        J::Fault: Send + Sync + 'static,
        J::Handler: Send + Sync + 'static,
        requires names { N.can_name self.names }
        requires spawn { bound-14.can_spawn self.spawn }
        ensures workers { IfOk result (λ p. p.workers ≡ workers_of self) }
        ensures depth { IfOk result (λ p. p.depth_limit ≡ max 1 self.depth_limit) }
        ensures order { IfOk result (λ p. p.breadth_first ≡ self.breadth_first) }
        ensures took { IfOk result (λ p. (last : N × F) × TookFirst N.named bound-14.took p self.stack_size (self.names, self.spawn) p.workers last) }
        ensures cause { IfErr result (λ e. fixed_text e ≡ None) }
    {
        build_pool(self, rt, alloc, ids)
    }
}

// Makes the pool of these settings.
fn build_pool<
    J,
    N: ThreadNames,
    S: ThreadSpawn<ThreadBuilder<J>>,
    R: Threads + Wait + Copy + Send + 'static,
>(
    builder: ThreadPoolBuilder<J, N, S>,
    rt: &R,
    alloc: Global,
    ids: &Ids,
) -> Result<ThreadPool<J>, ThreadPoolBuildError>
where
    J: Job + Send + Sync + 'static,
    J::Tag: Send + Sync + 'static,
    J::Output: Send + Sync + 'static,
    J::Fault: Send + Sync + 'static,
    J::Handler: Send + Sync + 'static,
    requires names { N.can_name builder.names }
    requires spawn { S.can_spawn builder.spawn }
    ensures workers { IfOk result (λ p. p.workers ≡ workers_of builder) }
    ensures depth { IfOk result (λ p. p.depth_limit ≡ max 1 builder.depth_limit) }
    ensures order { IfOk result (λ p. p.breadth_first ≡ builder.breadth_first) }
    ensures took { IfOk result (λ p. (last : N × S) × TookFirst N.named S.took p builder.stack_size (builder.names, builder.spawn) p.workers last) }
    ensures cause { IfErr result (λ e. fixed_text e ≡ None) }
{
    let Some(id) = ids.next(rt) else {
        return Err(ThreadPoolBuildError::NoIds);
    };
    let num_threads = builder.worker_count();
    let made = new_pool(
        rt,
        alloc,
        id,
        num_threads,
        builder.depth_limit,
        builder.steal_seed,
        builder.breadth_first,
        builder.handlers,
    );
    let Ok((pool, deques, hold)) = made else {
        return Err(ThreadPoolBuildError::NoRoom);
    };
    let (mut names, mut spawn, mut workers) = (builder.names, builder.spawn, Vec::new(alloc));
    let stack_size = builder.stack_size;
    match start_workers(
        rt,
        alloc,
        &pool,
        deques,
        stack_size,
        &mut names,
        &mut spawn,
        &mut workers,
    ) {
        Ok(()) => Ok(ThreadPool::of(pool, hold, workers)),
        Err(Unstarted { error, worker }) => {
            end_workers(rt, &pool, hold, workers);
            if let Some(worker) = worker {
                worker.join(rt);
            }
            Err(error)
        }
    }
}

// Why not all workers were started, and a worker that was, but whose handle found no room beside the others'. It leaves
// its loop once the pool has ended, and can be joined then.
struct Unstarted {
    error: ThreadPoolBuildError,
    worker: Option<JoinHandle<()>>,
}

// Has the thread of the worker with this index started, which has the name that it is given here. Answers its handle,
// if there is one.
fn start_named<
    J,
    N: ThreadNames,
    S: ThreadSpawn<ThreadBuilder<J>>,
    R: Threads + Wait + Copy + Send + 'static,
>(
    rt: &R,
    alloc: Global,
    pool: &PoolRef<J>,
    index: usize,
    kit: WorkerKit<Task<J>>,
    stack_size: Option<usize>,
    names: &mut N,
    spawn: &mut S,
) -> Result<Option<JoinHandle<()>>, ThreadPoolBuildError>
where
    J: Job + Send + Sync + 'static,
    J::Tag: Send + Sync + 'static,
    J::Output: Send + Sync + 'static,
    J::Fault: Send + Sync + 'static,
    J::Handler: Send + Sync + 'static,
    requires index { index < pool.now.workers }
    requires own { slice_get pool.now.deques index ≡ Some kit.id }
    requires names { N.can_name names.old }
    requires spawn { S.can_spawn spawn.old }
    ensures names { N.can_name names.new }
    ensures spawn { S.can_spawn spawn.new }
    ensures handle { IfOk result (λ h. is_some h ≡ S.hands_back) }
    ensures took { IfOk result (λ h. Took N.named S.took pool.now stack_size (names.old, spawn.old) index (names.new, spawn.new)) }
    ensures cause { IfErr result (λ e. fixed_text e ≡ None) }
{
    let Ok(name) = names.name_of(index) else {
        return Err(ThreadPoolBuildError::NoRoom);
    };
    let Ok(thread) = ThreadBuilder::new(alloc, pool, index, name, stack_size, kit) else {
        return Err(ThreadPoolBuildError::NoRoom);
    };
    match spawn.spawn(thread) {
        Ok(Some(thread)) => match start_thread(rt, alloc, thread) {
            Ok(handle) => Ok(Some(handle)),
            Err(error) => Err(ThreadPoolBuildError::IOError(error)),
        },
        Ok(None) => Ok(None),
        Err(error) => Err(ThreadPoolBuildError::IOError(error)),
    }
}

// Has the threads of the workers whose deques these are started, by index, and adds them to those that were started.
fn start_workers<
    J,
    N: ThreadNames,
    S: ThreadSpawn<ThreadBuilder<J>>,
    R: Threads + Wait + Copy + Send + 'static,
>(
    rt: &R,
    alloc: Global,
    pool: &PoolRef<J>,
    deques: Vec<WorkerKit<Task<J>>>,
    stack_size: Option<usize>,
    names: &mut N,
    spawn: &mut S,
    workers: &mut Vec<Option<JoinHandle<()>>>,
) -> Result<(), Unstarted>
where
    J: Job + Send + Sync + 'static,
    J::Tag: Send + Sync + 'static,
    J::Output: Send + Sync + 'static,
    J::Fault: Send + Sync + 'static,
    J::Handler: Send + Sync + 'static,
    requires length { length deques.items ≡ pool.now.workers }
    requires deques { map (λ d. d.id) deques.items ≡ pool.now.deques }
    requires names { N.can_name names.old }
    requires spawn { S.can_spawn spawn.old }
    requires handles { All (λ h. is_some h ≡ S.hands_back) workers.old.items }
    ensures handles { All (λ h. is_some h ≡ S.hands_back) workers.new.items }
    ensures started { IfOk result (λ _. length workers.new.items ≡ length workers.old.items + length deques.items) }
    ensures took { IfOk result (λ _. TookFirst N.named S.took pool.now stack_size (names.old, spawn.old) (length deques.items) (names.new, spawn.new)) }
    ensures cause { IfErr result (λ u. fixed_text u.error ≡ None) }
{
    for (index, deque) in deques.into_iter().enumerate() {
        match start_named(rt, alloc, pool, index, deque, stack_size, names, spawn) {
            Ok(worker) => {
                if let Err(AllocFailed { value: worker }) = workers.push(worker) {
                    return Err(Unstarted {
                        error: ThreadPoolBuildError::NoRoom,
                        worker,
                    });
                }
            }
            Err(error) => {
                return Err(Unstarted {
                    error,
                    worker: None,
                });
            }
        }
    }
    Ok(())
}
