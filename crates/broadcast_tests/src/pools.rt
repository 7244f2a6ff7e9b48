//! The pools of the tests, and what they have left.
use crate::errand::{Errand, Teller};
use crate::tally::Tally;
use rayon_core::{Ids, ThreadPool, ThreadPoolBuilder};
use std::alloc::Global;
use std::process::Abort;
use std::sync::{Arc, Wait};
use std::thread::Threads;

/// A pool of so many workers, which tells a handler that counts here, if it is to have one.
pub fn pool_with<R: Threads + Wait + Abort + Copy + Send + 'static>(
    rt: &R,
    alloc: Global,
    workers: usize,
    told: Option<&Arc<Tally>>,
) -> ThreadPool<Errand> {
    let builder = ThreadPoolBuilder::new().num_threads(workers);
    let builder = match told {
        Some(tally) => builder.panic_handler(Teller::new(tally).expect(rt, "room")),
        None => builder,
    };
    builder.build(rt, alloc, &Ids::new()).expect(rt, "a pool")
}

/// A pool of so many workers, and what the pieces of its broadcasts leave behind.
pub fn pool_of<R: Threads + Wait + Abort + Copy + Send + 'static>(
    rt: &R,
    alloc: Global,
    workers: usize,
) -> (ThreadPool<Errand>, Arc<Tally>) {
    let tally = Tally::new(alloc, workers).expect(rt, "room");
    (pool_with(rt, alloc, workers, None), tally)
}

/// The same, but no more than so many runs may stand nested on a worker.
pub fn pool_of_depth<R: Threads + Wait + Abort + Copy + Send + 'static>(
    rt: &R,
    alloc: Global,
    workers: usize,
    limit: usize,
) -> (ThreadPool<Errand>, Arc<Tally>) {
    let tally = Tally::new(alloc, workers).expect(rt, "room");
    let builder = ThreadPoolBuilder::new().num_threads(workers);
    let builder = builder.depth_limit(limit);
    let pool = builder.build(rt, alloc, &Ids::new()).expect(rt, "a pool");
    (pool, tally)
}

/// What a pool has left once it was ended.
#[derive(Clone, Copy, Debug, PartialEq, Eq)]
pub struct Left {
    /// The fewest and the most pieces that a worker has run, and how many pieces and faults were wrong.
    pub pieces: (u64, u64, u64),
    /// How many faults it has kept.
    pub faults: u64,
    /// How many jobs were not let go.
    pub jobs: usize,
}

impl Left {
    /// Each worker has run so many pieces, and all went well.
    pub fn each(pieces: u64) -> Left {
        Left {
            pieces: (pieces, pieces, 0),
            faults: 0,
            jobs: 0,
        }
    }
}

/// Ends the pool. Answers what it has left.
pub fn ended<R: Threads + Wait + Abort>(
    rt: &R,
    pool: ThreadPool<Errand>,
    tally: &Arc<Tally>,
) -> Left {
    let shared = pool.pool_ref().expect(rt, "room");
    pool.end_and_join(rt);
    let (_, faults) = shared.take_fault(rt);
    Left {
        pieces: tally.pieces(),
        faults,
        jobs: Arc::strong_count(tally).saturating_sub(1),
    }
}
