//! The spot of the world that an act touches: one pool, one worker's seat in it, one call, one job.
ghost use Rattle.std.specs.Prelude.{◌≡◌, if◌then◌else◌};
ghost use Rattle.rayon_machine_numbers.specs.Numbers.{act_list, flags_of, numbers_of, end_task};
ghost use Rattle.rayon_machine_parts.specs.State.{call_at, feeder_of, fifo_of, job_at, pool_at, seat_at, touched_at};
ghost use Rattle.rayon_machine_runs.specs.World.{head_of, last_of};
ghost use Rattle.rayon_machine_places.specs.Targets.{target_pool, target_worker};

use crate::parts::{FifoList, Parts, Seat};
use rayon_machine_numbers::numbers::{PoolNumbers, Touched, WorkerFlags};
use rayon_machine_numbers::queues::{newest, oldest};
use rayon_machine_places::act::Act;
use rayon_machine_places::place::Party;
use rayon_machine_places::shape::Order;
use rayon_machine_runs::state::{Call, Job, Letter};

/// What an act touches.
/// It is the running world's own part, and not for users.
#[derive(Clone, Copy)]
pub struct Spot {
    /// The pool.
    pub pool: usize,
    /// The worker of that pool, by index.
    pub worker: usize,
    /// The call.
    pub call: u64,
    /// The job.
    pub job: u64,
    /// The FIFO list of that worker: that of a scope, or that of detached jobs.
    pub list: Option<u64>,
}

/// The FIFO list that an act touches: that of a scope, or that of detached jobs.
pub(crate) fn list_of(act: Act) -> Option<u64>
    ensures { result ≡ act_list act }
{
    match act {
        Act::FifoIn { scope, .. } | Act::FifoUndo(scope) | Act::FifoOut { scope, .. } => scope,
        Act::PushOwn { book, .. } => book,
        _ => None,
    }
}

impl FifoList {
    /// The oldest job of the list, or the newest if that is wanted.
    fn end(&self, newest_first: bool) -> Option<u64>
        ensures { result ≡ (if newest_first then last_of self.now.jobs.items else head_of self.now.jobs.items) }
    {
        if newest_first {
            newest(&self.jobs)
        } else {
            oldest(&self.jobs)
        }
    }
}

impl Seat {
    /// The oldest job of the FIFO list of a scope, or of detached jobs, or the newest if that is wanted.
    fn list_end(&self, scope: Option<u64>, newest_first: bool) -> Option<u64>
        ensures { result ≡ (if newest_first then last_of (fifo_of self.now.detached self.now.scoped.items scope) else head_of (fifo_of self.now.detached self.now.scoped.items scope)) }
    {
        match scope {
            None => self.detached.end(newest_first),
            Some(call) => match self.scoped.get(call as usize) {
                Some(list) => list.end(newest_first),
                None => None,
            },
        }
    }

    /// Who holds the FIFO list of a scope, or of detached jobs.
    fn list_holder(&self, scope: Option<u64>) -> Option<Party>
        ensures { result ≡ feeder_of self.now.detached self.now.scoped.items scope }
    {
        match scope {
            None => self.detached.holder,
            Some(call) => match self.scoped.get(call as usize) {
                Some(list) => list.holder,
                None => None,
            },
        }
    }
}

impl Parts {
    /// The oldest task of a worker's deque, or the newest if that is wanted.
    fn own_end(&self, pool: usize, worker: usize, newest_first: bool) -> Option<u64>
        ensures { result ≡ (if newest_first then last_of (seat_at self.now.benches.items pool worker).own else head_of (seat_at self.now.benches.items pool worker).own) }
    {
        match self.benches.get(pool) {
            Some(bench) => match bench.seats.get(worker) {
                Some(seat) => if newest_first {
                    newest(&seat.own)
                } else {
                    oldest(&seat.own)
                },
                None => None,
            },
            None => None,
        }
    }

    /// The oldest job of a worker's FIFO list of a scope, or of detached jobs, or the newest if that is wanted.
    fn fifo_end(
        &self,
        pool: usize,
        worker: usize,
        scope: Option<u64>,
        newest_first: bool,
    ) -> Option<u64>
        ensures { result ≡ (if newest_first then last_of ((seat_at self.now.benches.items pool worker).fifo scope) else head_of ((seat_at self.now.benches.items pool worker).fifo scope)) }
    {
        match self.benches.get(pool) {
            Some(bench) => match bench.seats.get(worker) {
                Some(seat) => seat.list_end(scope, newest_first),
                None => None,
            },
            None => None,
        }
    }

    /// Who holds a worker's FIFO list of a scope, or of detached jobs.
    fn holder(&self, pool: usize, worker: usize, scope: Option<u64>) -> Option<Party>
        ensures { result ≡ (seat_at self.now.benches.items pool worker).feeder scope }
    {
        match self.benches.get(pool) {
            Some(bench) => match bench.seats.get(worker) {
                Some(seat) => seat.list_holder(scope),
                None => None,
            },
            None => None,
        }
    }

    /// The oldest task of a pool's injector.
    fn injected(&self, pool: usize) -> Option<u64>
        ensures { result ≡ head_of (pool_at self.now.pools.items pool).injector }
    {
        match self.pools.get(pool) {
            Some(pool) => oldest(&pool.injector),
            None => None,
        }
    }

    /// The oldest task of a worker's broadcast list.
    fn cast(&self, pool: usize, worker: usize) -> Option<u64>
        ensures { result ≡ head_of ((pool_at self.now.pools.items pool).casts worker) }
    {
        match self.pools.get(pool) {
            Some(pool) => match pool.casts.get(worker) {
                Some(list) => oldest(&list.tasks),
                None => None,
            },
            None => None,
        }
    }

    /// The task at the end of the queue that an act takes from or looks at.
    pub(crate) fn peek(&self, act: Act, party: Party, order: Order) -> Option<u64>
        ensures { result ≡ end_task order act party (seat_at self.now.benches.items (target_pool party act) (target_worker party act)).own (seat_at self.now.benches.items (target_pool party act) (target_worker party act)).fifo (pool_at self.now.pools.items (target_pool party act)).injector (pool_at self.now.pools.items (target_pool party act)).casts }
    {
        match act {
            Act::PopOwn => {
                let newest_first = match order {
                    Order::NewestFirst => true,
                    Order::OldestFirst => false,
                };
                self.own_end(party.pool(), party.index(), newest_first)
            }
            Act::LookOwn => self.own_end(party.pool(), party.index(), false),
            Act::Steal { pool, victim } => self.own_end(pool, victim, false),
            Act::TakeCast | Act::LookCast => self.cast(party.pool(), party.index()),
            Act::PopInj => self.injected(party.pool()),
            Act::LookInj(pool) => self.injected(pool),
            Act::FifoUndo(scope) => self.fifo_end(party.pool(), party.index(), scope, true),
            Act::FifoOut { worker, scope, .. } => {
                self.fifo_end(party.pool(), worker, scope, false)
            }
            _ => None,
        }
    }

    /// The numbers of a pool.
    pub fn numbers(&self, pool: usize) -> PoolNumbers
        ensures { result ≡ numbers_of (pool_at self.now.pools.items pool) }
    {
        match self.pools.get(pool) {
            Some(pool) => pool.numbers,
            None => PoolNumbers {
                turn: 0,
                count: 1,
                held: true,
                counted: true,
            },
        }
    }

    /// The flags of a worker.
    pub fn flags(&self, pool: usize, worker: usize) -> WorkerFlags
        ensures { result ≡ flags_of (seat_at self.now.benches.items pool worker) }
    {
        let blank = WorkerFlags {
            inactive: false,
            asleep: false,
            blocked: false,
            latch: Letter::Unset,
            lock: None,
        };
        match self.benches.get(pool) {
            Some(bench) => match bench.seats.get(worker) {
                Some(seat) => seat.flags,
                None => blank,
            },
            None => blank,
        }
    }

    /// The call of a number.
    fn call(&self, number: u64) -> Call
        ensures { result ≡ call_at self.now.calls.items number }
    {
        match self.calls.get(number as usize) {
            Some(call) => *call,
            None => Call::waiting(None, 0),
        }
    }

    /// The job of a number.
    pub(crate) fn job(&self, number: u64) -> Job
        ensures { result ≡ job_at self.now.jobs.items number }
    {
        match self.jobs.get(number as usize) {
            Some(job) => *job,
            None => Job::blank(),
        }
    }

    /// The numbers at a spot.
    pub(crate) fn touched(&self, spot: Spot) -> Touched
        ensures { result ≡ touched_at self.now spot }
    {
        Touched {
            pool: self.numbers(spot.pool),
            worker: self.flags(spot.pool, spot.worker),
            call: self.call(spot.call),
            job: self.job(spot.job),
            holder: self.holder(spot.pool, spot.worker, spot.list),
        }
    }
}
