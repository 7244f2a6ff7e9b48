//! The pool of a program that builds none itself.
ghost use Rattle.rayon_core.specs.Environment.{workers_of};
ghost use Rattle.rayon_core.specs.Texts.{fixed_text};
ghost use Rattle.std.specs.Prelude.{◌≡◌, ◌⊎◌, max, None, Ok, IfOk, IfErr};

use crate::outside::Outside;
use rayon_core::{
    Configuration, DetachedPool, EndAfter, Ids, Job, JobKind, PoolRef, ThreadNames,
    ThreadPoolBuildError, ThreadPoolBuilder,
};
use std::alloc::Global;
use std::sync::{Mutex, OnceLock, Wait};
use std::thread::Threads;

/// A pool that is made on first use, or by `build_global` before that. Nothing is global to the process: it is a value
/// that `main` makes and hands on, and it has no `Drop`, so that it must be spent by `end`.
///
/// To a thread that is started hand a copy of its `PoolRef` (`filled(..)?.pool_ref()`): that a function may share the
/// `GlobalPool` itself with two threads is not proved, since the checker's search for `Send` ends at a limit.
pub struct GlobalPool<J: JobKind> {
    // What callers are lent, once there is a pool.
    pool: OnceLock<PoolRef<J>>,
    // The same pool, which has to be ended. Whoever fills has this lock meanwhile, so no second pool is made.
    held: Mutex<Option<DetachedPool<J>>>,
}

// What a fill leaves.
enum Filled<'p, J: JobKind> {
    // The pool that it has made.
    Made(&'p PoolRef<J>),
    // The pool that was there.
    Found(&'p PoolRef<J>),
}

impl<J: JobKind> GlobalPool<J> {
    /// A global pool that is empty: it has no thread and took no memory.
    pub fn new() -> GlobalPool<J> {
        GlobalPool {
            pool: OnceLock::new(),
            held: Mutex::new(None),
        }
    }

    /// The global pool, for a caller outside of its runs. None while it is empty.
    pub fn get(&self) -> Option<Outside<'_, J>> {
        self.pool.get().map(Outside::of)
    }

    /// The global pool, for a caller outside of its runs, which is made by this builder where it is empty: else the
    /// builder is let go. Two threads that call this at once make one pool. Where none can be made the answer is the
    /// builder's, it stays empty, and a later call may fill it. rayon-core makes its own by `ThreadPoolBuilder::new()`,
    /// which reads the environment; here `builder_of_environment` does that.
    pub fn filled<N: ThreadNames, R: Threads + Wait + Copy + Send + 'static>(
        &self,
        rt: &R,
        alloc: Global,
        ids: &Ids,
        builder: ThreadPoolBuilder<J, N>,
    ) -> Result<Outside<'_, J>, ThreadPoolBuildError>
    where
        J: Job + Send + Sync + 'static,
        J::Tag: Send + Sync + 'static,
        J::Output: Send + Sync + 'static,
        J::Fault: Send + Sync + 'static,
        J::Handler: Send + Sync + 'static,
        requires names { N.can_name builder.names }
        ensures cause { IfErr result (λ e. fixed_text e ≡ None) }
    {
        if let Some(outside) = self.get() {
            return Ok(outside);
        }
        match self.fill(rt, alloc, ids, builder)? {
            Filled::Made(pool) | Filled::Found(pool) => Ok(Outside::of(pool)),
        }
    }

    /// Makes the global pool by this builder. Refused `GlobalPoolAlreadyInitialized` where there is one, and then no
    /// number is drawn and no thread started. Where none can be made the answer is the builder's, it stays empty, and a
    /// later call may fill it.
    pub fn build_global<N: ThreadNames, R: Threads + Wait + Copy + Send + 'static>(
        &self,
        rt: &R,
        alloc: Global,
        ids: &Ids,
        builder: ThreadPoolBuilder<J, N>,
    ) -> Result<Outside<'_, J>, ThreadPoolBuildError>
    where
        J: Job + Send + Sync + 'static,
        J::Tag: Send + Sync + 'static,
        J::Output: Send + Sync + 'static,
        J::Fault: Send + Sync + 'static,
        J::Handler: Send + Sync + 'static,
        requires names { N.can_name builder.names }
        ensures workers { IfOk result (λ o. o.workers ≡ workers_of builder) }
        ensures depth { IfOk result (λ o. o.depth_limit ≡ max 1 builder.depth_limit) }
        ensures order { IfOk result (λ o. o.breadth_first ≡ builder.breadth_first) }
        ensures cause { IfErr result (λ e. (e ≡ ThreadPoolBuildError.GlobalPoolAlreadyInitialized) ⊎ (fixed_text e ≡ None)) }
    {
        match self.fill(rt, alloc, ids, builder) {
            Ok(Filled::Made(pool)) => Ok(Outside::of(pool)),
            Ok(Filled::Found(_)) => Err(ThreadPoolBuildError::GlobalPoolAlreadyInitialized),
            Err(error) => Err(error),
        }
    }

    // Makes a pool where there is none. The lock is held meanwhile, in which no job is called: so of two threads that
    // fill at once one makes the pool, and the other finds it. That `held` has one where none is shown does not
    // happen.
    fn fill<N: ThreadNames, R: Threads + Wait + Copy + Send + 'static>(
        &self,
        rt: &R,
        alloc: Global,
        ids: &Ids,
        builder: ThreadPoolBuilder<J, N>,
    ) -> Result<Filled<'_, J>, ThreadPoolBuildError>
    where
        J: Job + Send + Sync + 'static,
        J::Tag: Send + Sync + 'static,
        J::Output: Send + Sync + 'static,
        J::Fault: Send + Sync + 'static,
        J::Handler: Send + Sync + 'static,
        requires names { N.can_name builder.names }
        ensures workers { (p : _) → result ≡ Ok (Filled.Made p) → p.now.workers ≡ workers_of builder }
        ensures depth { (p : _) → result ≡ Ok (Filled.Made p) → p.now.depth_limit ≡ max 1 builder.depth_limit }
        ensures order { (p : _) → result ≡ Ok (Filled.Made p) → p.now.breadth_first ≡ builder.breadth_first }
        ensures cause { IfErr result (λ e. fixed_text e ≡ None) }
    {
        let mut held = self.held.lock(rt);
        if let Some(pool) = self.pool.get() {
            return Ok(Filled::Found(pool));
        }
        let made = builder.build(rt, alloc, ids)?.detach();
        let Ok(shown) = made.pool_ref() else {
            made.end(rt);
            return Err(ThreadPoolBuildError::NoRoom);
        };
        if let Some(earlier) = held.replace(made) {
            earlier.end(rt);
        }
        match self.pool.try_insert(rt, shown) {
            Ok(token) => Ok(Filled::Made(self.pool.value(&token))),
            Err((token, _)) => Ok(Filled::Found(self.pool.value(&token))),
        }
    }

    /// Ends the global pool, if there is one, and waits for no job and no thread, as `ThreadPool::end` does. rayon-core
    /// never ends its own.
    pub fn end<R: Wait>(self, rt: &R) {
        let GlobalPool { pool: _, held } = self;
        if let Some(pool) = held.into_inner() {
            pool.end(rt);
        }
    }
}

impl<J: JobKind> EndAfter for GlobalPool<J> {
    /// Ends the global pool as `GlobalPool::end` does: it joins no thread.
    fn end_lent<R: Threads + Wait>(self, rt: &R) {
        self.end(rt);
    }
}

/// Makes the global pool by these settings, as `GlobalPool::build_global`, whose older name this is: it answers and is
/// refused as that is. As in rayon-core it is out of use, and there it answers no pool.
pub fn initialize<'p, J: JobKind, N: ThreadNames, R: Threads + Wait + Copy + Send + 'static>(
    rt: &R,
    alloc: Global,
    global: &'p GlobalPool<J>,
    configuration: Configuration<J, N>,
    ids: &Ids,
) -> Result<Outside<'p, J>, ThreadPoolBuildError>
where
    J: Job + Send + Sync + 'static,
    J::Tag: Send + Sync + 'static,
    J::Output: Send + Sync + 'static,
    J::Fault: Send + Sync + 'static,
    J::Handler: Send + Sync + 'static,
    requires names { N.can_name configuration.names }
    ensures workers { IfOk result (λ o. o.workers ≡ workers_of configuration) }
    ensures depth { IfOk result (λ o. o.depth_limit ≡ max 1 configuration.depth_limit) }
    ensures order { IfOk result (λ o. o.breadth_first ≡ configuration.breadth_first) }
    ensures cause { IfErr result (λ e. (e ≡ ThreadPoolBuildError.GlobalPoolAlreadyInitialized) ⊎ (fixed_text e ≡ None)) }
{
    global.build_global(rt, alloc, ids, configuration.into_builder())
}
