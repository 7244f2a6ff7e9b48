//! Pools.
ghost use Rattle.std.specs.Prelude.{◌≡◌, length};

use rayon_jobs::JobKind;
use rayon_registry::{PoolRef, end_pool};
use rayon_shared::PoolHold;
use std::marker::Model;
use std::ops::Deref;
use std::sync::Wait;
use std::thread::{JoinHandle, Threads};

/// A pool, held by its value. It has no `Drop`: it must be spent by `end` or `end_and_join`. Contracts see of it what
/// they see of its `PoolRef`, which it lends: so it has all calls that this one has.
pub struct ThreadPool<J: JobKind> {
    pool: PoolRef<J>,
    hold: PoolHold,
    // Of each worker the handle of its thread, or None where a spawn handler started it.
    workers: Vec<Option<JoinHandle<()>>>,
}

impl<J: JobKind> Model for ThreadPool<J> {
    ghost use Rattle.rayon_registry.specs.Worker.{Pool};
    ghost use Rattle.std.specs.Prelude.{◌≡◌, length};

    ghost Value = { Pool };

    ghost view = { λ p. p.pool };

    ghost invariant = { λ p. (length p.workers.items ≡ p.pool.workers) × (p.hold ≡ p.pool.count) };
}

impl<J: JobKind> Deref for ThreadPool<J> {
    type Target = PoolRef<J>;

    ghost deref_gives = { λ p r. r ≡ p };

    fn deref(&self) -> &PoolRef<J> {
        &self.pool
    }
}

impl<J: JobKind> ThreadPool<J> {
    // The pool whose workers were started, each in a thread of its own, by their handles.
    pub(crate) fn of(
        pool: PoolRef<J>,
        hold: PoolHold,
        workers: Vec<Option<JoinHandle<()>>>,
    ) -> ThreadPool<J>
        requires workers { length workers.items ≡ pool.workers }
        requires own { hold ≡ pool.count }
        ensures { result ≡ pool }
    {
        ThreadPool {
            pool,
            hold,
            workers,
        }
    }

    /// Ends the pool, and waits for no job and no thread: gives up the unit of the terminate count that the pool's
    /// value holds, and the handles of the workers' threads. Calls through a `PoolRef` are still answered while other
    /// calls or detached jobs hold the pool; once none does, each further call is refused `Ended`, and the threads
    /// leave. A thread that still runs a job when `main` returns is ended with the process.
    pub fn end<R: Wait>(self, rt: &R) {
        let ThreadPool {
            pool,
            hold,
            workers,
        } = self;
        end_pool(rt, &pool, hold);
        drop(workers);
    }

    /// The same pool without the handles of its workers' threads, which belong to the thread that started them: so any
    /// thread may keep this and end it, and none can join the workers.
    pub fn detach(self) -> DetachedPool<J>
        ensures { result ≡ self }
    {
        let ThreadPool {
            pool,
            hold,
            workers,
        } = self;
        drop(workers);
        DetachedPool { pool, hold }
    }

    /// Ends the pool as `end` does, and joins the workers' threads, which leave once nothing holds the pool. So this
    /// waits for detached jobs and for the waiting calls that other threads have made, and no thread of the pool is
    /// left. Threads that a spawn handler has started it does not join: that is up to whoever has their handles.
    pub fn end_and_join<R: Threads + Wait>(self, rt: &R) {
        let ThreadPool {
            pool,
            hold,
            workers,
        } = self;
        end_workers(rt, &pool, hold, workers);
    }
}

/// A pool whose workers' threads are joined by nobody (`ThreadPool::detach`). It has no `Drop`: it must be spent by
/// `end`. Contracts see of it what they see of its `PoolRef`, which it lends.
pub struct DetachedPool<J: JobKind> {
    pool: PoolRef<J>,
    hold: PoolHold,
}

impl<J: JobKind> Model for DetachedPool<J> {
    ghost use Rattle.rayon_registry.specs.Worker.{Pool};
    ghost use Rattle.std.specs.Prelude.{◌≡◌};

    ghost Value = { Pool };

    ghost view = { λ p. p.pool };

    ghost invariant = { λ p. p.hold ≡ p.pool.count };
}

impl<J: JobKind> Deref for DetachedPool<J> {
    type Target = PoolRef<J>;

    ghost deref_gives = { λ p r. r ≡ p };

    fn deref(&self) -> &PoolRef<J> {
        &self.pool
    }
}

impl<J: JobKind> DetachedPool<J> {
    /// Ends the pool, as `ThreadPool::end` does.
    pub fn end<R: Wait>(self, rt: &R) {
        let DetachedPool { pool, hold } = self;
        end_pool(rt, &pool, hold);
    }
}

// Gives up the unit of the terminate count that stands for this pool's value, and joins those of the workers' threads
// of which there is a handle.
pub(crate) fn end_workers<J: JobKind, R: Threads + Wait>(
    rt: &R,
    pool: &PoolRef<J>,
    hold: PoolHold,
    workers: Vec<Option<JoinHandle<()>>>,
)
    requires { hold ≡ pool.now.count }
{
    end_pool(rt, pool, hold);
    for worker in workers {
        if let Some(worker) = worker {
            worker.join(rt);
        }
    }
}
