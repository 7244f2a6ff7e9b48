//! What the pieces of the tests leave behind.

use std::alloc::Global;
use std::sync::Arc;
use std::sync::atomic::{AtomicU64, Ordering};

/// Why a job has no answer.
#[derive(Clone, Copy, Debug, PartialEq, Eq)]
pub enum Trouble {
    /// The piece of this index is to fault.
    Piece(usize),
    /// A call or a broadcast was refused, or a result was lost.
    Lost,
}

/// How many pieces each worker of a pool has run, and of how many faults of its pieces a handler was told, by index;
/// how many pieces, and faults, are not as they ought to be; how many broadcasts were too deep; and how many shares of
/// the tally there were when a broadcast by a worker had been answered.
#[derive(Drop)]
pub struct Tally {
    ran: Vec<AtomicU64>,
    told: Vec<AtomicU64>,
    wrong: AtomicU64,
    too_deep: AtomicU64,
    shares: AtomicU64,
}

impl Tally {
    /// No piece yet, on so many workers. Refused `Lost`.
    pub fn new(alloc: Global, workers: usize) -> Result<Arc<Tally>, Trouble> {
        let tally = Tally {
            ran: counts(alloc, workers)?,
            told: counts(alloc, workers)?,
            wrong: AtomicU64::new(0),
            too_deep: AtomicU64::new(0),
            shares: AtomicU64::new(0),
        };
        Arc::new(alloc, tally).map_err(|_| Trouble::Lost)
    }

    /// Counts a piece of the worker with this index, which was told what is so, or was not.
    pub fn count_piece(&self, index: usize, is_right: bool) {
        match self.ran.get(index) {
            Some(count) if is_right => count.fetch_add(1, Ordering::SeqCst),
            _ => self.wrong.fetch_add(1, Ordering::SeqCst),
        };
    }

    /// Counts this fault.
    pub fn count_fault(&self, fault: Trouble) {
        let count = match fault {
            Trouble::Piece(index) => self.told.get(index).unwrap_or(&self.wrong),
            Trouble::Lost => &self.wrong,
        };
        count.fetch_add(1, Ordering::SeqCst);
    }

    /// Counts a broadcast that was refused, since no level was left.
    pub fn count_too_deep(&self) {
        self.too_deep.fetch_add(1, Ordering::SeqCst);
    }

    /// Keeps that there are so many shares of the tally, where a broadcast has been answered.
    pub fn keep_shares(&self, shares: usize) {
        self.shares.store(shares as u64, Ordering::SeqCst);
    }

    /// The fewest and the most pieces that a worker has run, and how many pieces and faults were wrong.
    pub fn pieces(&self) -> (u64, u64, u64) {
        let (mut fewest, mut most) = (u64::MAX, 0);
        for count in self.ran.iter() {
            let count = count.load(Ordering::SeqCst);
            fewest = fewest.min(count);
            most = most.max(count);
        }
        (fewest, most, self.wrong.load(Ordering::SeqCst))
    }

    /// How many broadcasts were refused, since no level was left.
    pub fn too_deep(&self) -> u64 {
        self.too_deep.load(Ordering::SeqCst)
    }

    /// How many shares of the tally there were when the last broadcast by a worker had been answered.
    pub fn shares(&self) -> u64 {
        self.shares.load(Ordering::SeqCst)
    }

    /// Whether a handler was told so many faults of each worker of an even index, and none of the others.
    pub fn told_of_even(&self, times: u64) -> bool {
        let mut wanted = (times, 0);
        for count in self.told.iter() {
            if count.load(Ordering::SeqCst) != wanted.0 {
                return false;
            }
            wanted = (wanted.1, wanted.0);
        }
        true
    }
}

// So many counts at 0.
fn counts(alloc: Global, workers: usize) -> Result<Vec<AtomicU64>, Trouble> {
    let mut counts = Vec::new(alloc);
    for _ in 0..workers {
        counts.push(AtomicU64::new(0)).map_err(|_| Trouble::Lost)?;
    }
    Ok(counts)
}
