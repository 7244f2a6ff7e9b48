//! What a world shows: its pools, its workers and how many jobs it has.
ghost use Rattle.std.specs.Prelude.{◌≡◌, ◌<◌, true, false, None, ◌≤◌, length, IfSome, IsSome};
ghost use Rattle.rayon_machine_places.specs.declared.place.Party.TheVariants.{Worker};
ghost use Rattle.rayon_machine_world.specs.Running.{world_of};
ghost use Rattle.rayon_machine_runs.specs.Readers.{is_done, is_queued, is_running, jobs_that};
ghost use Rattle.rayon_machine_places.specs.Places.{next_at};
ghost use Rattle.rayon_machine_runs.specs.Steps.{is_pool};
ghost use Rattle.rayon_machine_runs.specs.World.{counts_at};

use crate::world::World;
pub use rayon_machine_parts::parts::JobTotals;
pub use rayon_machine_places::act::Next;
use rayon_machine_places::place::Party;

/// What a world holds of a pool.
#[derive(Clone, Copy)]
pub struct PoolState {
    /// How many of its workers are counted sleeping.
    pub sleeping: u64,
    /// How many of its workers are counted inactive.
    pub inactive: u64,
    /// Its turn, which never wraps.
    pub turn: u64,
    /// How many tasks its injector holds.
    pub injected: usize,
    /// Its terminate count.
    pub count: u64,
}

/// What a world holds of a worker.
#[derive(Clone, Copy)]
pub struct WorkerState {
    /// How many tasks its deque holds.
    pub deque: usize,
    /// How many tasks its broadcast list holds.
    pub cast: usize,
    /// Whether it is blocked.
    pub blocked: bool,
    /// What it does next.
    pub next: Next,
}

impl World {
    /// What the world holds of a pool. None exactly where it has no pool of this number.
    pub fn pool_at(&self, pool: usize) -> Option<PoolState>
        ensures there { IsSome result → is_pool (world_of self.now).shape pool ≡ true }
        ensures lacking { result ≡ None → is_pool (world_of self.now).shape pool ≡ false }
        ensures sleeping { IfSome result (λ s. s.sleeping ≡ (counts_at (world_of self.now) pool).sleeping) }
        ensures inactive { IfSome result (λ s. s.inactive ≡ (counts_at (world_of self.now) pool).inactive) }
        ensures turn { IfSome result (λ s. s.turn ≡ ((world_of self.now).pool pool).turn) }
        ensures injected { IfSome result (λ s. s.injected ≡ length ((world_of self.now).pool pool).injector) }
        ensures count { IfSome result (λ s. s.count ≡ ((world_of self.now).pool pool).count) }
    {
        if !self.shapes.has_pool(pool) {
            return None;
        }
        let census = self.parts.census(pool, self.shapes.pool(pool).workers);
        let numbers = self.parts.numbers(pool);
        Some(PoolState {
            sleeping: census.sleeping,
            inactive: census.inactive,
            turn: numbers.turn,
            injected: self.parts.injected_len(pool),
            count: numbers.count,
        })
    }

    /// What the world holds of a worker. None exactly where it has no worker of this index in a pool of this number.
    pub fn worker_at(&self, pool: usize, index: usize) -> Option<WorkerState>
        ensures there { IsSome result → index < ((world_of self.now).shape.pool pool).workers }
        ensures lacking { result ≡ None → ((world_of self.now).shape.pool pool).workers ≤ index }
        ensures deque { IfSome result (λ s. s.deque ≡ length ((world_of self.now).seat pool index).own) }
        ensures cast { IfSome result (λ s. s.cast ≡ length (((world_of self.now).pool pool).casts index)) }
        ensures blocked { IfSome result (λ s. s.blocked ≡ ((world_of self.now).seat pool index).blocked) }
        ensures next { IfSome result (λ s. s.next ≡ next_at (Worker pool index) ((world_of self.now).stack (Worker pool index)).top) }
    {
        if index >= self.shapes.pool(pool).workers {
            return None;
        }
        let party = Party::Worker { pool, index };
        Some(WorkerState {
            deque: self.parts.deque_len(pool, index),
            cast: self.parts.cast_len(pool, index),
            blocked: self.parts.flags(pool, index).blocked,
            next: self.parties.top(&self.shapes, party).next_of(party),
        })
    }

    /// How many jobs of the world are queued, running and done. It looks at each job once.
    pub fn job_totals(&self) -> JobTotals
        ensures queued { result.queued ≡ jobs_that (world_of self.now) is_queued }
        ensures running { result.running ≡ jobs_that (world_of self.now) is_running }
        ensures done { result.done ≡ jobs_that (world_of self.now) is_done }
    {
        self.parts.totals(self.jobs)
    }
}
