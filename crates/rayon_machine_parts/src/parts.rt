//! The parts of a running world that acts touch, and what a reader counts in them.
ghost use Rattle.std.specs.Prelude.{◌≡◌, length};
ghost use Rattle.rayon_machine_parts.specs.State.{job_at, pool_at, seat_at};
ghost use Rattle.rayon_machine_runs.specs.Steps.{has_one as one_left};
ghost use Rattle.rayon_machine_runs.specs.Readers.{is_done, is_job_that, is_queued, is_running};
ghost use Rattle.rayon_machine_runs.specs.World.{count_below};

use rayon_machine_numbers::numbers::{PoolNumbers, WorkerFlags};
use rayon_machine_places::place::Party;
use rayon_machine_runs::state::{Call, Job};
use std::collections::VecDeque;

/// The broadcast list of a worker, the oldest task first.
/// It is the running world's own part, and not for users.
#[derive(Drop)]
pub struct CastList {
    /// Its tasks.
    pub tasks: VecDeque<u64>,
}

/// A pool's injector and its workers' broadcast lists, the oldest task first, and its numbers.
/// It is the running world's own part, and not for users.
#[derive(Drop)]
pub struct Pool {
    /// The tasks of its injector.
    pub injector: VecDeque<u64>,
    /// Its workers' broadcast lists, by index.
    pub casts: Vec<CastList>,
    /// Its numbers.
    pub numbers: PoolNumbers,
}

/// A FIFO list of a worker, the oldest job first, and who holds it.
/// It is the running world's own part, and not for users.
#[derive(Drop)]
pub struct FifoList {
    /// Its jobs.
    pub jobs: VecDeque<u64>,
    /// Who holds it.
    pub holder: Option<Party>,
}

/// A worker's deque, the oldest task first, its FIFO lists, and its flags.
/// It is the running world's own part, and not for users.
#[derive(Drop)]
pub struct Seat {
    /// The tasks of its deque.
    pub own: VecDeque<u64>,
    /// Its FIFO list of detached jobs.
    pub detached: FifoList,
    /// Its FIFO lists of scopes, by the numbers of their calls.
    pub scoped: Vec<FifoList>,
    /// Its flags.
    pub flags: WorkerFlags,
}

/// The seats of a pool's workers, by index.
/// It is the running world's own part, and not for users.
#[derive(Drop)]
pub struct Bench {
    /// The seat of each worker.
    pub seats: Vec<Seat>,
}

/// The parts that acts touch. A pool, seat, call or job that is not here is as at the start.
/// It is the running world's own part, and not for users.
#[derive(Drop)]
pub struct Parts {
    /// The pools, by number.
    pub pools: Vec<Pool>,
    /// The seats of the pools' workers, by pool.
    pub benches: Vec<Bench>,
    /// The calls, by number.
    pub calls: Vec<Call>,
    /// The jobs, by number.
    pub jobs: Vec<Job>,
}

/// How many jobs of a world stand in a queue, run, and are done. Tokens do not count.
#[derive(Clone, Copy)]
pub struct JobTotals {
    /// In a deque, an injector, a FIFO list or a broadcast list.
    pub queued: u64,
    /// Taken or begun, and not ended.
    pub running: u64,
    /// Ended.
    pub done: u64,
}

impl Parts {
    /// How many of the jobs below this number are queued, running and done.
    pub fn totals(&self, jobs: u64) -> JobTotals
        ensures queued { result.queued ≡ count_below jobs (λ t. is_job_that is_queued (job_at self.now.jobs.items t)) }
        ensures running { result.running ≡ count_below jobs (λ t. is_job_that is_running (job_at self.now.jobs.items t)) }
        ensures done { result.done ≡ count_below jobs (λ t. is_job_that is_done (job_at self.now.jobs.items t)) }
    {
        let mut queued = 0u64;
        let mut running = 0u64;
        let mut done = 0u64;
        for number in 0..jobs {
            let job = self.job(number);
            if job.is_queued() {
                queued += 1;
            }
            if job.is_running() {
                running += 1;
            }
            if job.is_done() {
                done += 1;
            }
        }
        JobTotals {
            queued,
            running,
            done,
        }
    }

    /// How many tasks a pool's injector holds.
    pub fn injected_len(&self, pool: usize) -> usize
        ensures { result ≡ length (pool_at self.now.pools.items pool).injector }
    {
        match self.pools.get(pool) {
            Some(pool) => pool.injector.len(),
            None => 0,
        }
    }

    /// How many tasks a worker's broadcast list holds.
    pub fn cast_len(&self, pool: usize, index: usize) -> usize
        ensures { result ≡ length ((pool_at self.now.pools.items pool).casts index) }
    {
        match self.pools.get(pool) {
            Some(pool) => match pool.casts.get(index) {
                Some(cast) => cast.tasks.len(),
                None => 0,
            },
            None => 0,
        }
    }

    /// How many tasks a worker's deque holds.
    pub fn deque_len(&self, pool: usize, index: usize) -> usize
        ensures { result ≡ length (seat_at self.now.benches.items pool index).own }
    {
        match self.benches.get(pool) {
            Some(bench) => match bench.seats.get(index) {
                Some(seat) => seat.own.len(),
                None => 0,
            },
            None => 0,
        }
    }

    /// Whether a worker's deque holds just one task.
    pub fn has_one(&self, pool: usize, worker: usize) -> bool
        ensures { result ≡ one_left (seat_at self.now.benches.items pool worker).own }
    {
        match self.benches.get(pool) {
            Some(bench) => match bench.seats.get(worker) {
                Some(seat) => seat.own.len() == 1,
                None => false,
            },
            None => false,
        }
    }
}
