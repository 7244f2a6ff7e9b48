//! A batch server in miniature: threads with names and small stacks, which are counted as they begin and end, and jobs
//! for which nobody waits, whose faults are counted too.
ghost use Rattle.std.specs.Prelude.{◌≡◌, ◌+◌, IfOk};
ghost use Rattle.std.proofs.Common.{rules};

use rayon_core::{
    BroadcastContext, FnContext, Ids, Job, JobKind, PoolHandler, PoolRef, Refusal,
    ThreadPoolBuilder, Waits, WorkerThread,
};
use std::alloc::Global;
use std::sync::atomic::{AtomicU64, Ordering};
use std::sync::{Arc, Wait};
use std::thread::Threads;
use thiserror::Error;

/// What a server has done.
#[derive(Drop)]
pub struct Ledger {
    begun: AtomicU64,
    ended: AtomicU64,
    total: AtomicU64,
    failed: AtomicU64,
}

/// What counts a server's threads, and the orders that failed.
#[derive(Drop)]
pub struct Clerk {
    ledger: Arc<Ledger>,
}

impl PoolHandler<TooLarge> for Clerk {
    fn panicked<R: Wait>(&self, _rt: &R, _fault: TooLarge) {
        self.ledger.failed.fetch_add(1, Ordering::SeqCst);
    }

    fn started<R: Wait>(&self, _rt: &R, _index: usize) -> Result<(), TooLarge> {
        self.ledger.begun.fetch_add(1, Ordering::SeqCst);
        Ok(())
    }

    fn exited<R: Wait>(&self, _rt: &R, _index: usize) -> Result<(), TooLarge> {
        self.ledger.ended.fetch_add(1, Ordering::SeqCst);
        Ok(())
    }
}

/// Why an order is not carried out: its price is above 2^32 - 1.
#[derive(Clone, Copy, Debug, PartialEq, Eq, Error)]
#[error("too large")]
pub struct TooLarge;

/// An order of so many pieces, each at a price of 3. It is known by their number.
#[derive(Drop)]
pub struct Order {
    pieces: u32,
    ledger: Arc<Ledger>,
}

impl JobKind for Order {
    type Tag = u32;

    type Output = u32;

    type Fault = TooLarge;

    type Handler = Clerk;

    ghost answers = { λ t r. IfOk r (λ v. v ≡ t + t + t) };

    ghost tag_of = { λ j. j.pieces };

    fn tag(&self) -> u32 {
        self.pieces
    }

    ghost same_answers = { λ t u e. Prim.search rules };
}

impl Job for Order {
    fn run<R: Waits<Self>>(
        self,
        _rt: &R,
        _alloc: Global,
        _w: &mut WorkerThread<Self>,
        _ctx: &mut FnContext<Self>,
    ) -> Result<u32, TooLarge> {
        let price = self.pieces.checked_mul(3).ok_or(TooLarge)?;
        self.ledger
            .total
            .fetch_add(u64::from(price), Ordering::SeqCst);
        Ok(price)
    }

    fn run_on<R: Waits<Self>>(
        &self,
        _rt: &R,
        _alloc: Global,
        _w: &mut WorkerThread<Self>,
        _ctx: &mut BroadcastContext<Self>,
    ) -> Result<u32, TooLarge> {
        Err(TooLarge)
    }
}

/// Why a batch was not carried out.
#[derive(Clone, Copy, Debug, PartialEq, Eq, Error)]
pub enum ServerError {
    /// An order was refused.
    #[error("refused: {0}")]
    Refused(Refusal),
    /// There was no memory for a share of the ledger.
    #[error("no room")]
    NoRoom,
}

// One more share.
fn share(ledger: &Arc<Ledger>) -> Result<Arc<Ledger>, ServerError> {
    Arc::try_clone(ledger).map_err(|_| ServerError::NoRoom)
}

// One more clerk with this ledger.
fn new_clerk(ledger: &Arc<Ledger>) -> Result<Clerk, ServerError> {
    Ok(Clerk {
        ledger: share(ledger)?,
    })
}

// Queues an order for each of these numbers of pieces.
fn queue<R: Wait>(
    rt: &R,
    alloc: Global,
    pool: &PoolRef<Order>,
    ledger: &Arc<Ledger>,
    batch: &[u32],
) -> Result<(), ServerError> {
    for pieces in batch {
        let order = Order {
            pieces: *pieces,
            ledger: share(ledger)?,
        };
        let queued = pool.spawn(rt, alloc, order);
        queued.map_err(|(refusal, _)| ServerError::Refused(refusal))?;
    }
    Ok(())
}

/// Carries out a batch of orders, and answers how many threads began and ended, the sum of the prices, and how many
/// orders failed. All that is told once the threads are joined.
pub fn serve<R: Threads + Wait + Copy + Send + 'static>(
    rt: &R,
    alloc: Global,
    ids: &Ids,
    batch: &[u32],
) -> anyhow::Result<(u64, u64, u64, u64)> {
    let ledger = Ledger {
        begun: AtomicU64::new(0),
        ended: AtomicU64::new(0),
        total: AtomicU64::new(0),
        failed: AtomicU64::new(0),
    };
    let ledger = Arc::new(alloc, ledger).map_err(|_| ServerError::NoRoom)?;
    let pool = ThreadPoolBuilder::new()
        .num_threads(3)
        .stack_size(256 * 1024)
        .thread_name(move |index| format!(in alloc; "clerk {index}"))
        .start_handler(new_clerk(&ledger)?)
        .exit_handler(new_clerk(&ledger)?)
        .panic_handler(new_clerk(&ledger)?)
        .build(rt, alloc, ids)?;
    let queued = queue(rt, alloc, &pool, &ledger, batch);
    pool.end_and_join(rt);
    queued?;
    let load = |number: &AtomicU64| number.load(Ordering::SeqCst);
    let threads = (load(&ledger.begun), load(&ledger.ended));
    Ok((
        threads.0,
        threads.1,
        load(&ledger.total),
        load(&ledger.failed),
    ))
}
