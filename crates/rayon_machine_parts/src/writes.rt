//! Writes to the parts of a world: a pool, a seat, a call or a job is changed, and all else stays as it was.
ghost use Rattle.std.specs.Prelude.{◌≡◌, ℕ, ◌<◌, vec_len, false, ◌+◌, ◌≤◌, ◌++◌, ◌∷◌, []};
ghost use Rattle.std.specs.VecDeque.{deque_capacity, deque_len};
ghost use Rattle.rayon_machine_runs.specs.Steps.{put, put_seat, put_pieces, mark_pieces, new_piece};
ghost use Rattle.rayon_machine_runs.specs.World.{casts_with, left_by};
ghost use Rattle.rayon_machine_places.specs.declared.act.Act.TheVariants.{PushCast};
ghost use Rattle.rayon_machine_numbers.specs.Numbers.{act_list, is_listing, seat_pushed, pool_queued, list_held, list_queued, seat_listed, seat_queued, with_flags, with_numbers};
ghost use Rattle.rayon_machine_parts.specs.State.{CastsFit, DequeFits, FifoFits, HasPool, HasSeat, InjectorFits, ListFits, MarkFits, SeatFits, call_at, cast_at, job_at, pool_at, pool_of, seat_of, seat_at, seat_in};

use crate::parts::{Bench, CastList, FifoList, Pool, Seat};
use crate::spot::list_of;
use rayon_machine_numbers::numbers::{PoolNumbers, WorkerFlags};
use rayon_machine_numbers::queues::{drop_newest, drop_oldest};
use rayon_machine_places::act::Act;
use rayon_machine_places::place::{Mark, Party, Pieces};
use rayon_machine_places::shape::Order;
use rayon_machine_runs::state::{Call, Job};

impl Pool {
    /// The pool with these numbers, after an act on its queues by the worker of this index.
    fn write(&mut self, numbers: PoolNumbers, act: Act, index: usize)
        requires injector { InjectorFits act (deque_len self.old.injector) (deque_capacity self.old.injector) }
        requires casts { CastsFit act self.old.casts.items }
        ensures { pool_of self.new ≡ pool_queued act index (with_numbers (pool_of self.old) numbers) }
    {
        self.numbers = numbers;
        match act {
            Act::PopInj => drop_oldest(&mut self.injector),
            Act::PushInj { job, .. } => {
                let pushed = self.injector.push_back(job);
                prove!(pushed.is_ok());
            }
            Act::TakeCast => if index < self.casts.len() {
                drop_oldest(&mut self.casts[index].tasks);
            },
            Act::PushCast(pieces) => push_pieces(&mut self.casts, pieces),
            _ => {}
        }
    }
}

impl CastList {
    /// A task is added last.
    fn push(&mut self, task: u64)
        requires { deque_len self.old.tasks < deque_capacity self.old.tasks }
        ensures { self.new.tasks.items ≡ self.old.tasks.items ++ task ∷ [] }
    {
        let pushed = self.tasks.push_back(task);
        prove!(pushed.is_ok());
    }
}

/// Each piece of a broadcast is added to its worker's broadcast list.
fn push_pieces(casts: &mut Vec<CastList>, pieces: Pieces)
    requires { CastsFit (PushCast pieces) casts.old.items }
    ensures { (i : ℕ) → cast_at casts.new.items i ≡ casts_with pieces (cast_at casts.old.items) i }
{
    for index in 0..pieces.workers {
        casts[index].push(pieces.first + index as u64);
    }
}

/// Each piece of a broadcast is as a party's call has made it.
pub fn write_pieces(jobs: &mut Vec<Job>, party: Party, pieces: Pieces)
    requires { pieces.first + pieces.workers ≤ vec_len jobs.old }
    ensures values { (t : ℕ) → job_at jobs.new.items t ≡ put_pieces pieces (λ i j. new_piece party pieces.count pieces.pool i) (job_at jobs.old.items) t }
    ensures len { vec_len jobs.new ≡ vec_len jobs.old }
{
    for index in 0..pieces.workers {
        jobs[pieces.first as usize + index] = Job::piece(party, pieces.count, pieces.pool, index);
    }
}

/// This is made of each piece of a broadcast.
pub(crate) fn write_marks(jobs: &mut Vec<Job>, pieces: Pieces, mark: Mark)
    requires within { pieces.first + pieces.workers ≤ vec_len jobs.old }
    requires numbers { MarkFits pieces mark }
    ensures { (t : ℕ) → job_at jobs.new.items t ≡ mark_pieces pieces mark (job_at jobs.old.items) t }
{
    for index in 0..pieces.workers {
        let number = pieces.first as usize + index;
        jobs[number] = jobs[number].marked(mark, pieces.pool, index);
    }
}

impl FifoList {
    /// The list after a party's act on it.
    fn write(&mut self, act: Act, party: Party)
        requires { FifoFits act self.old }
        ensures jobs { self.new.jobs.items ≡ list_queued act self.old.jobs.items }
        ensures holder { self.new.holder ≡ list_held act party self.old.jobs.items self.old.holder }
    {
        match act {
            Act::FifoIn { job, .. } => {
                let added = self.jobs.push_back(job);
                prove!(added.is_ok());
                self.holder = Some(party);
            }
            Act::FifoUndo(_) => {
                if !self.jobs.is_empty() {
                    self.holder = None;
                }
                drop_newest(&mut self.jobs);
            }
            Act::FifoOut { .. } => drop_oldest(&mut self.jobs),
            Act::PushOwn { .. } => self.holder = left(self.holder, party),
            _ => {}
        }
    }
}

/// Who holds a FIFO list once this party has left it.
fn left(holder: Option<Party>, party: Party) -> Option<Party>
    ensures { result ≡ left_by party holder }
{
    match holder {
        Some(other) if !party.is(other) => holder,
        _ => None,
    }
}

impl Seat {
    /// The seat after a party's act on its FIFO list of this scope, or of detached jobs.
    fn write_list(&mut self, scope: Option<u64>, act: Act, party: Party)
        requires { ListFits act self.old.detached self.old.scoped.items scope }
        ensures { seat_of self.new ≡ seat_listed act party scope (seat_of self.old) }
    {
        match scope {
            None => self.detached.write(act, party),
            Some(call) => self.scoped[call as usize].write(act, party),
        }
    }

    /// The seat with these flags, after an act on its deque.
    fn write_own(&mut self, flags: WorkerFlags, act: Act, order: Order)
        requires { DequeFits act (deque_len self.old.own) (deque_capacity self.old.own) }
        ensures seat { seat_of self.new ≡ seat_pushed act order (with_flags (seat_of self.old) flags) }
        ensures detached { self.new.detached ≡ self.old.detached }
        ensures scoped { self.new.scoped ≡ self.old.scoped }
    {
        self.flags = flags;
        match act {
            Act::PopOwn => match order {
                Order::NewestFirst => drop_newest(&mut self.own),
                Order::OldestFirst => drop_oldest(&mut self.own),
            },
            Act::Steal { .. } => drop_oldest(&mut self.own),
            Act::PushOwn { job, .. } => {
                let pushed = self.own.push_back(job);
                prove!(pushed.is_ok());
            }
            _ => {}
        }
    }

    /// The seat with these flags, after a party's act on its deque or on a FIFO list of it.
    fn write(&mut self, flags: WorkerFlags, act: Act, order: Order, party: Party)
        requires deque { DequeFits act (deque_len self.old.own) (deque_capacity self.old.own) }
        requires list { ListFits act self.old.detached self.old.scoped.items (act_list act) }
        ensures { seat_of self.new ≡ seat_queued act order party (with_flags (seat_of self.old) flags) }
    {
        self.write_own(flags, act, order);
        if touches_list(act) {
            self.write_list(list_of(act), act, party);
        }
    }
}

/// Whether an act touches a FIFO list.
fn touches_list(act: Act) -> bool
    ensures { result ≡ is_listing act }
{
    match act {
        Act::PushOwn { .. } | Act::FifoIn { .. } | Act::FifoUndo(_) | Act::FifoOut { .. } => true,
        _ => false,
    }
}

/// Writes a pool.
pub(crate) fn write_pool(
    pools: &mut Vec<Pool>,
    pool: usize,
    numbers: PoolNumbers,
    act: Act,
    index: usize,
)
    requires { HasPool act pools.old.items pool }
    ensures { (p : ℕ) → pool_at pools.new.items p ≡ put (pool_at pools.old.items) pool (pool_queued act index (with_numbers (pool_at pools.old.items pool) numbers)) p }
{
    pools[pool].write(numbers, act, index)
}

/// Writes a seat in the list of a pool's seats.
fn write_in(
    seats: &mut Vec<Seat>,
    worker: usize,
    flags: WorkerFlags,
    act: Act,
    order: Order,
    party: Party,
)
    requires { SeatFits act seats.old.items worker }
    ensures { (i : ℕ) → seat_in seats.new.items i ≡ put (seat_in seats.old.items) worker (seat_queued act order party (with_flags (seat_in seats.old.items worker) flags)) i }
{
    seats[worker].write(flags, act, order, party)
}

/// Writes a seat.
pub(crate) fn write_seat(
    benches: &mut Vec<Bench>,
    pool: usize,
    worker: usize,
    flags: WorkerFlags,
    act: Act,
    order: Order,
    party: Party,
)
    requires { HasSeat act benches.old.items pool worker }
    ensures { (p i : ℕ) → seat_at benches.new.items p i ≡ put_seat (seat_at benches.old.items) pool worker (seat_queued act order party (with_flags (seat_at benches.old.items pool worker) flags)) p i }
{
    let bench = &mut benches[pool];
    write_in(&mut bench.seats, worker, flags, act, order, party)
}

/// Writes a call.
pub fn write_call(calls: &mut Vec<Call>, number: u64, call: Call)
    requires { number < vec_len calls.old }
    ensures { (c : ℕ) → call_at calls.new.items c ≡ put (call_at calls.old.items) number call c }
{
    calls[number as usize] = call;
}

/// Writes a job.
pub fn write_job(jobs: &mut Vec<Job>, number: u64, job: Job)
    requires { number < vec_len jobs.old }
    ensures values { (t : ℕ) → job_at jobs.new.items t ≡ put (job_at jobs.old.items) number job t }
    ensures len { vec_len jobs.new ≡ vec_len jobs.old }
{
    jobs[number as usize] = job;
}

/// Writes a job, and the one of the next number.
pub fn write_jobs(jobs: &mut Vec<Job>, number: u64, first: Job, second: Job)
    requires { number + 1 < vec_len jobs.old }
    ensures { (t : ℕ) → job_at jobs.new.items t ≡ put (put (job_at jobs.old.items) number first) (number + 1) second t }
{
    write_job(jobs, number, first);
    write_job(jobs, number + 1, second);
}

/// A pool's value is no longer held.
pub fn release(pools: &mut Vec<Pool>, pool: usize)
    requires { pool < vec_len pools.old }
    ensures { (p : ℕ) → pool_at pools.new.items p ≡ put (pool_at pools.old.items) pool (record (pool_at pools.old.items pool) { held = false }) p }
{
    pools[pool].numbers.held = false;
}
