//! A pool that is lent to a closure and then ended.
ghost use Rattle.std.specs.Prelude.{◌≡◌};

use crate::thread_pool::ThreadPool;
use rayon_jobs::JobKind;
use std::sync::Wait;
use std::thread::Threads;

/// What has to be ended: a pool. Import it to call `pool.end_after(..)`.
pub trait EndAfter: Sized {
    /// Ends it and joins its threads, as `ThreadPool::end_and_join` does.
    fn end_lent<R: Threads + Wait>(self, rt: &R);

    /// Lends the pool to a closure, ends it and joins its threads once the closure has answered, and answers the same,
    /// whatever that is. So the closure may leave by `?`, which a function that holds a pool by its value may not: that
    /// has to be spent.
    final fn end_after<R: Threads + Wait, T, F: FnOnce(&Self) -> T>(self, rt: &R, with_pool: F) -> T
        requires callable { (pool : _) → pool.now ≡ self → F.pre with_pool pool }
        ensures answer { (pool : _) × (pool.now ≡ self) × F.post with_pool pool result }
    {
        let answer = with_pool(&self);
        self.end_lent(rt);
        answer
    }
}

impl<J: JobKind> EndAfter for ThreadPool<J> {
    fn end_lent<R: Threads + Wait>(self, rt: &R) {
        self.end_and_join(rt);
    }
}
