//! What the threads of a pool share.
ghost use Rattle.std.specs.Prelude.{◌≡◌, ◌⊎◌, ◌<◌, ◌≤◌, ◌+◌, ◌^◌, ◌++◌, [], ◌∷◌, All, false, true, map, max, length, is_some, IfOk, IfErr, IfSome, MatchResult};
ghost use Rattle.rayon_atomics.specs.Tallies.{teller};
ghost use Rattle.rayon_shared.specs.Marks.{GivesUnit, GivesUnits, MissesUnit, MissesUnits, TakesUnit, TakesUnits};
ghost use Rattle.rayon_shared.specs.Pools.{shape_of};
ghost use Rattle.rayon_queues.specs.Deques.{IsNew};
ghost use Rattle.rayon_sleep.specs.Berths.{Rests};

use crate::kit::{WorkerKit, WorkerSeats};
use crate::terminate::PoolHold;
use crossbeam_utils::CachePadded;
use rayon_atomics::count::CountSeat;
use rayon_atomics::latch::CoreLatch;
use rayon_atomics::own_latch::OwnLatch;
use rayon_atomics::terminate::TerminateCount;
use rayon_broadcasts::BroadcastQueue;
use rayon_locks::HeldLock;
use rayon_machine_places::shape::{Order, PoolShape};
use rayon_queues::{Injector, JobFifos, Stealers, WorkerDeque};
use rayon_sleep::counters::Chair;
use rayon_sleep::latch::Owner;
use rayon_sleep::sleep::Sleep;
use rayon_tasks::{Names, row_of_names};
use rayon_words::Refusal;
use rayon_words::latch::LatchRef;
use std::alloc::{AllocError, Global};
use std::marker::Model;
use std::sync::{Arc, Mutex, Wait};

// How many searches of an idle worker fail before it announces itself, less one.
const ROUNDS_UNTIL_SLEEPY: u64 = 32;

/// What the threads of a pool share, where its queues hold `T`: tasks. Contracts see how many workers it has, the
/// levels of a worker value that no run was lent yet, and which deques and which injector are its own.
#[derive(Drop)]
pub struct Registry<T> {
    depth_limit: usize,
    num_threads: usize,
    steal_seed: u64,
    breadth_first: bool,
    sleep: Arc<Sleep, Global>,
    injector: Injector<T>,
    stealers: Stealers<T>,
    terminate_count: TerminateCount,
    terminate: Vec<Arc<CoreLatch, Global>>,
    caller_names: Mutex<Names>,
    // by worker and scope, the jobs that it spawned to be run in the order of their spawns, for each of which a token
    // is queued
    fifos: Vec<CachePadded<HeldLock<JobFifos<T>>>>,
    // by worker, the pieces of broadcasts that it is to run
    casts: BroadcastQueue<T>,
}

impl<T> Model for Registry<T> {
    ghost use Rattle.rayon_shared.specs.Pools.{Shared};
    ghost use Rattle.std.specs.Arc.{arc_value};
    ghost use Rattle.std.specs.Prelude.{◌≡◌, ◌<◌, length};

    ghost Value = { Shared };

    ghost view = { λ r. record { workers = r.num_threads; depth_limit = r.depth_limit; breadth_first = r.breadth_first; deques = r.stealers; injector = r.injector; count = r.terminate_count.table } };

    ghost invariant = { λ r. (length r.stealers ≡ r.num_threads) × (length r.terminate.items ≡ r.num_threads) × (length r.fifos.items ≡ r.num_threads) × (0 < r.num_threads) × (r.num_threads < 65536) × (arc_value r.sleep ≡ r.num_threads) };
}

impl<T: Drop> Registry<T> {
    /// The shared part of a pool of so many workers, what each worker begins with by index, and the unit of the
    /// terminate count that the pool's value holds. A `depth_limit` of 0 counts as 1; `breadth_first` has each worker
    /// take the oldest task of its own deque first. Refused `NoRoom`.
    pub fn new(
        alloc: Global,
        num_threads: usize,
        depth_limit: usize,
        steal_seed: u64,
        breadth_first: bool,
    ) -> Result<(Registry<T>, Vec<WorkerKit<T>>, PoolHold), Refusal>
        requires { (0 < num_threads) × (num_threads < 65536) }
        ensures workers { IfOk result (λ r. r.0.workers ≡ num_threads) }
        ensures depth { IfOk result (λ r. r.0.depth_limit ≡ max 1 depth_limit) }
        ensures order { IfOk result (λ r. r.0.breadth_first ≡ breadth_first) }
        ensures length { IfOk result (λ r. length r.1.items ≡ num_threads) }
        ensures deques { IfOk result (λ r. map (λ d. d.id) r.1.items ≡ r.0.deques) }
        ensures empty { IfOk result (λ r. All (IsNew breadth_first 32) r.1.items) }
        ensures hold { IfOk result (λ r. r.2 ≡ r.0.count) }
        ensures refused { IfErr result (λ r. r ≡ Refusal.NoRoom) }
    {
        let (sleep, mut chairs) = Sleep::new(alloc, num_threads)?;
        let (terminate_count, seat) = TerminateCount::new(alloc)?;
        let (Ok(sleep), Ok(injector)) = (Arc::new(alloc, sleep), Injector::new(alloc)) else {
            return Err(Refusal::NoRoom);
        };
        let fifos = new_fifos(alloc, num_threads)?;
        let casts = BroadcastQueue::new(alloc, num_threads)?;
        let mut deques = Vec::new(alloc);
        let mut stealers = Stealers::new(alloc);
        let mut terminate = Vec::new(alloc);
        for _ in 0..num_threads {
            let Some(chair) = chairs.pop() else {
                unreachable!()
            };
            let (latch, own) = OwnLatch::new(alloc)?;
            let Ok(kit) = new_kit(alloc, &mut stealers, breadth_first, chair, own) else {
                return Err(Refusal::NoRoom);
            };
            if deques.push(kit).is_err() {
                return Err(Refusal::NoRoom);
            }
            if terminate.push(latch).is_err() {
                return Err(Refusal::NoRoom);
            }
        }
        let registry = Registry {
            depth_limit: depth_limit.max(1),
            num_threads,
            steal_seed,
            breadth_first,
            sleep,
            injector,
            stealers,
            terminate_count,
            terminate,
            caller_names: Mutex::new(Names::new(num_threads, num_threads + 1)),
            fifos,
            casts,
        };
        Ok((registry, deques, PoolHold::new(seat)))
    }

    /// How many workers the pool has.
    pub fn num_threads(&self) -> usize
        ensures workers { result ≡ self.now.workers }
        ensures some { 0 < result }
    {
        self.num_threads
    }

    /// The levels of a worker value that no run was lent yet.
    pub fn depth_limit(&self) -> usize
        ensures { result ≡ self.now.depth_limit }
    {
        self.depth_limit
    }

    /// What is added to each worker's index for the seed of its choice of victims.
    pub fn steal_seed(&self) -> u64 {
        self.steal_seed
    }

    /// What the table of places asks of the pool.
    pub fn shape(&self) -> PoolShape
        ensures { result ≡ shape_of self.now.workers self.now.breadth_first }
    {
        PoolShape {
            workers: self.num_threads,
            limit: ROUNDS_UNTIL_SLEEPY,
            order: if self.breadth_first {
                Order::OldestFirst
            } else {
                Order::NewestFirst
            },
            callers_own: false,
        }
    }

    /// Where the pool's workers sleep.
    pub fn sleep(&self) -> &Sleep
        ensures { result.now ≡ self.now.workers }
    {
        &self.sleep
    }

    /// What stands for a worker where a latch is set that the worker may sleep on. Refused `NoRoom`.
    pub fn owner(&self, worker: usize) -> Result<Owner, Refusal>
        ensures owner { IfOk result (λ o. o ≡ worker) }
        ensures refused { IfErr result (λ r. r ≡ Refusal.NoRoom) }
    {
        match Arc::try_clone(&self.sleep) {
            Ok(sleep) => Ok(Owner::new(sleep, worker)),
            Err(_) => Err(Refusal::NoRoom),
        }
    }

    /// The injector.
    pub fn injector(&self) -> &Injector<T>
        ensures { result.now ≡ self.now.injector }
    {
        &self.injector
    }

    /// The stealers of the workers' deques.
    pub fn stealers(&self) -> &Stealers<T>
        ensures same { result.now ≡ self.now.deques }
        ensures length { length result.now ≡ self.now.workers }
    {
        &self.stealers
    }

    /// A worker's terminate latch, if the pool has that worker.
    pub fn terminate(&self, worker: usize) -> Option<LatchRef<'_, CoreLatch>>
        ensures { is_some result ≡ false → (length self.now.deques ≤ worker) × (self.now.workers ≤ worker) }
    {
        let latch: &CoreLatch = self.terminate.get(worker)?;
        Some(latch)
    }

    /// A worker's FIFO lists, one of its detached jobs and one for each scope, if the pool has that worker: who holds
    /// their lock has them.
    pub fn fifos(&self, worker: usize) -> Option<&HeldLock<JobFifos<T>>>
        ensures { is_some result ≡ false → self.now.workers ≤ worker }
    {
        let lists: &HeldLock<JobFifos<T>> = self.fifos.get(worker)?;
        Some(lists)
    }

    /// The lists of the pieces of broadcasts, one for each worker.
    pub fn casts(&self) -> &BroadcastQueue<T> {
        &self.casts
    }

    /// A seat of the terminate count, for one party more.
    pub fn count_seat(&self) -> CountSeat
        ensures { result.table_id ≡ self.now.count }
    {
        self.terminate_count.guest_seat()
    }

    /// Takes a unit of the terminate count. Refused `Ended`, `Full`.
    pub fn increment_terminate_count<R: Wait>(
        &self,
        rt: &R,
        seat: &mut CountSeat,
    ) -> Result<(), Refusal>
        requires { seat.old.table_id ≡ self.now.count }
        ensures table { seat.new.table_id ≡ seat.old.table_id }
        ensures raised { MatchResult result (λ _. TakesUnit true (teller seat.old) (teller seat.new)) (λ _. MissesUnit true (teller seat.old) (teller seat.new)) }
        ensures refused { IfErr result (λ r. (r ≡ Refusal.Ended) ⊎ (r ≡ Refusal.Full)) }
    {
        self.terminate_count.increment(rt, seat)
    }

    /// Gives a unit of the terminate count back. True exactly if it was the last.
    pub fn decrement_terminate_count<R: Wait>(&self, rt: &R, seat: &mut CountSeat) -> bool
        requires { seat.old.table_id ≡ self.now.count }
        ensures table { seat.new.table_id ≡ seat.old.table_id }
        ensures lowered { GivesUnit true result (teller seat.old) (teller seat.new) }
    {
        self.terminate_count.decrement(rt, seat)
    }

    /// Takes so many units of the terminate count in one step. Refused `Ended`, `Full`, and then none is taken.
    pub fn raise_terminate_count<R: Wait>(
        &self,
        rt: &R,
        seat: &mut CountSeat,
        units: u64,
    ) -> Result<(), Refusal>
        requires { seat.old.table_id ≡ self.now.count }
        ensures table { seat.new.table_id ≡ seat.old.table_id }
        ensures raised { MatchResult result (λ _. TakesUnits units (teller seat.old) (teller seat.new)) (λ _. MissesUnits (teller seat.old) (teller seat.new)) }
        ensures refused { IfErr result (λ r. (r ≡ Refusal.Ended) ⊎ (r ≡ Refusal.Full)) }
    {
        self.terminate_count.increment_by(rt, seat, units)
    }

    /// Gives so many units of the terminate count back in one step, and none where it is less. True exactly if they
    /// were the last.
    pub fn lower_terminate_count<R: Wait>(&self, rt: &R, seat: &mut CountSeat, units: u64) -> bool
        requires { seat.old.table_id ≡ self.now.count }
        ensures table { seat.new.table_id ≡ seat.old.table_id }
        ensures lowered { GivesUnits units result (teller seat.old) (teller seat.new) }
    {
        self.terminate_count.decrement_by(rt, seat, units)
    }

    /// The first of a row of names for the pieces of an outside caller's broadcast, one for each worker. None where
    /// there is no such row any more.
    pub fn caller_row<R: Wait>(&self, rt: &R) -> Option<u64>
        ensures { IfSome result (λ first. first + self.now.workers < 2 ^ 64) }
    {
        let name = self.caller_name(rt)?;
        row_of_names(self.num_threads, name)
    }

    /// A name for the job of an outside caller. None where all are used up.
    pub fn caller_name<R: Wait>(&self, rt: &R) -> Option<u64> {
        self.caller_names.lock(rt).draw()
    }
}

// What one worker more begins with: its own deque, which gives the oldest task first where it says so, this seat and
// this latch; and the stealer of the deque.
fn new_kit<T: Drop>(
    alloc: Global,
    stealers: &mut Stealers<T>,
    oldest_first: bool,
    chair: Chair,
    terminate: OwnLatch,
) -> Result<WorkerKit<T>, AllocError>
    requires { Rests chair }
    ensures stealer { IfOk result (λ d. stealers.new ≡ stealers.old ++ d.id ∷ []) }
    ensures empty { IfOk result (λ d. IsNew oldest_first 32 d) }
{
    let deque = WorkerDeque::new(alloc, oldest_first)?;
    stealers.add(&deque)?;
    Ok(WorkerKit::new(deque, WorkerSeats::new(chair, terminate)))
}

// For so many workers FIFO lists without jobs, each of which nobody holds. Refused `NoRoom`.
fn new_fifos<T: Drop>(
    alloc: Global,
    count: usize,
) -> Result<Vec<CachePadded<HeldLock<JobFifos<T>>>>, Refusal>
    ensures made { IfOk result (λ fifos. length fifos.items ≡ count) }
    ensures refused { IfErr result (λ r. r ≡ Refusal.NoRoom) }
{
    let mut fifos = Vec::new(alloc);
    for _ in 0..count {
        let lists = HeldLock::new(JobFifos::new(alloc));
        let Ok(()) = fifos.push(CachePadded::new(lists)) else {
            return Err(Refusal::NoRoom);
        };
    }
    Ok(fifos)
}
