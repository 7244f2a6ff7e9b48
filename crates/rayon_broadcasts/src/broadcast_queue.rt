//! The broadcast lists of a pool, as its threads share them.
ghost use Rattle.rayon_broadcasts.specs.Lists.{IsBack};
ghost use Rattle.std.specs.Prelude.{◌≡◌, IfErr, MatchResult};

use crate::broadcast_lists::{BroadcastLists, Unpushed};
use crate::shared_job::SharedJob;
use crossbeam_utils::CachePadded;
use rayon_words::Refusal;
use std::alloc::Global;
use std::sync::atomic::{AtomicU64, Ordering};
use std::sync::{Mutex, Wait};

/// The broadcast lists of a pool, as its threads share them. A worker looks here again and again while it searches and
/// waits, and mostly no broadcast is on its way: it sees that by one word, which only broadcasts write to.
///
/// What each call does to the lists is the contract of the call of `BroadcastLists` that it makes under the lock.
#[derive(Drop)]
pub struct BroadcastQueue<T> {
    lists: Mutex<BroadcastLists<T>>,
    // how many pieces there are in all lists, raised before any of them can be taken: with 0 all lists are empty
    queued: CachePadded<AtomicU64>,
}

impl<T: Drop> BroadcastQueue<T> {
    /// An empty list for each of so many workers. Refused `NoRoom` for want of memory.
    pub fn new(alloc: Global, workers: usize) -> Result<BroadcastQueue<T>, Refusal>
        ensures refused { IfErr result (λ r. r ≡ Refusal.NoRoom) }
    {
        let lists = Mutex::new(BroadcastLists::new(alloc, workers)?);
        let queued = CachePadded::new(AtomicU64::new(0));
        Ok(BroadcastQueue { lists, queued })
    }

    /// Puts the job into the place that the pieces share, and each piece last in the list of the worker with its index,
    /// in one step: no worker takes a piece before all are there. Refused as `BroadcastLists::push_each` is, with the
    /// pieces and the job back, and all lists as before. Else the job is lent as it stands in its place.
    pub fn push_each<'p, R: Wait, J: Drop>(
        &self,
        rt: &R,
        pieces: Vec<T>,
        place: &'p SharedJob<J>,
        job: J,
    ) -> Result<&'p J, (Unpushed<T>, J)>
        ensures { MatchResult result (λ there. there.now ≡ job) (λ e. IsBack pieces e.0 × (e.1 ≡ job)) }
    {
        let count = pieces.len() as u64;
        let mut lists = self.lists.lock(rt);
        let there = lists.push_each(pieces, place, job)?;
        self.queued.fetch_add(count, Ordering::SeqCst);
        Ok(there)
    }

    /// Takes the oldest piece of this worker's list, where it has one. It takes no memory.
    pub fn take_oldest<R: Wait>(&self, rt: &R, worker: usize) -> Option<T> {
        if self.queued.load(Ordering::SeqCst) == 0 {
            return None;
        }
        let mut lists = self.lists.lock(rt);
        let piece = lists.take_oldest(worker)?;
        self.queued.fetch_sub(1, Ordering::SeqCst);
        Some(piece)
    }

    /// Whether this worker's list is empty, or there is no such worker.
    pub fn is_empty<R: Wait>(&self, rt: &R, worker: usize) -> bool {
        self.queued.load(Ordering::SeqCst) == 0 || self.lists.lock(rt).is_empty(worker)
    }
}
