//! Room for what a step touches: a table is filled up to a number with what stands there at the start.
ghost use Rattle.std.specs.Prelude.{◌≡◌, ℕ, None, IsSomeAnd, OnOk, ◌≤◌, ◌<◌, [], slice_get, vec_len, true};
ghost use Rattle.std.specs.VecDeque.{deque_capacity, deque_len};
ghost use Rattle.rayon_machine_numbers.specs.Numbers.{act_list};
ghost use Rattle.rayon_machine_parts.specs.State.{CastsFit, CastsFrom, DequeFits, NumbersFit, FifoFits, HasPool, HasSeat, InjectorFits, ListFits, SeatFits, call_at, holder_in, jobs_in, cast_at, job_at, pool_at, pool_of, seat_of, seat_at, seat_in, shape_of, stack_of, blank_pool, blank_seat, first_stack, caller_in, stack_at, worker_in};
ghost use Rattle.rayon_machine_runs.specs.World.{Shape};
ghost use Rattle.rayon_machine_places.specs.declared.act.Act.TheVariants.{PushCast};

use crate::parties::{Crew, Stack};
use crate::parts::{Bench, CastList, FifoList, Pool, Seat};
use crate::shapes::Shapes;
use crate::spot::list_of;
use rayon_machine_numbers::numbers::{PoolNumbers, WorkerFlags};
use rayon_machine_places::act::Act;
use rayon_machine_places::place::{Party, Pieces};
use rayon_machine_runs::state::{Call, Job, Letter};
use std::alloc::{AllocError, Global};
use std::collections::VecDeque;

/// Room for the job of this number.
pub fn grow_jobs(jobs: &mut Vec<Job>, number: usize) -> Result<(), AllocError>
    ensures same { (n : ℕ) → job_at jobs.new.items n ≡ job_at jobs.old.items n }
    ensures room { OnOk result (number < vec_len jobs.new) }
{
    'fill: while jobs.len() <= number {
        jobs.push(Job::blank())?;
    }
    Ok(())
}

/// Room for the call of this number.
pub fn grow_calls(calls: &mut Vec<Call>, number: usize) -> Result<(), AllocError>
    ensures same { (n : ℕ) → call_at calls.new.items n ≡ call_at calls.old.items n }
    ensures room { OnOk result (number < vec_len calls.new) }
{
    'fill: while calls.len() <= number {
        calls.push(Call::waiting(None, 0))?;
    }
    Ok(())
}

/// Room for the pool of this index.
pub fn grow_pools(alloc: Global, pools: &mut Vec<Pool>, index: usize) -> Result<(), AllocError>
    ensures same { (p : ℕ) → pool_at pools.new.items p ≡ pool_at pools.old.items p }
    ensures room { OnOk result (index < vec_len pools.new) }
{
    'fill: while pools.len() <= index {
        pools.push(Pool::blank(alloc))?;
    }
    Ok(())
}

/// Room for the seats of the pool of this index.
pub(crate) fn grow_benches(
    alloc: Global,
    benches: &mut Vec<Bench>,
    pool: usize,
) -> Result<(), AllocError>
    ensures same { (p i : ℕ) → seat_at benches.new.items p i ≡ seat_at benches.old.items p i }
    ensures room { OnOk result (pool < vec_len benches.new) }
{
    'fill: while benches.len() <= pool {
        benches.push(Bench {
            seats: Vec::new(alloc),
        })?;
    }
    Ok(())
}

/// Whether the numbers of the pieces of a broadcast are none too large.
pub(crate) fn numbers_fit(pieces: Pieces) -> bool
    ensures { result ≡ true → NumbersFit pieces }
{
    pieces.first <= u64::MAX - pieces.workers as u64
}

/// Broadcast lists for so many workers.
fn grow_casts(alloc: Global, casts: &mut Vec<CastList>, workers: usize) -> Result<(), AllocError>
    ensures same { (i : ℕ) → cast_at casts.new.items i ≡ cast_at casts.old.items i }
    ensures room { OnOk result (workers ≤ vec_len casts.new) }
{
    'fill: while casts.len() < workers {
        casts.push(CastList {
            tasks: VecDeque::new(alloc),
        })?;
    }
    Ok(())
}

/// Room for one more task in each of so many broadcast lists.
fn reserve_casts(casts: &mut Vec<CastList>, workers: usize) -> Result<(), AllocError>
    requires { workers ≤ vec_len casts.old }
    ensures same { (i : ℕ) → cast_at casts.new.items i ≡ cast_at casts.old.items i }
    ensures room { OnOk result (CastsFrom 0 workers casts.new.items) }
{
    for index in 0..workers {
        casts[index].tasks.try_reserve(1)?;
    }
    Ok(())
}

/// Room for the pieces of a broadcast.
fn casts_room(alloc: Global, casts: &mut Vec<CastList>, pieces: Pieces) -> Result<(), AllocError>
    ensures same { (i : ℕ) → cast_at casts.new.items i ≡ cast_at casts.old.items i }
    ensures room { OnOk result (CastsFit (PushCast pieces) casts.new.items) }
{
    if !numbers_fit(pieces) {
        return Err(AllocError);
    }
    grow_casts(alloc, casts, pieces.workers)?;
    reserve_casts(casts, pieces.workers)
}

/// Room for the seat of this index.
pub(crate) fn grow_seats(
    alloc: Global,
    seats: &mut Vec<Seat>,
    index: usize,
) -> Result<(), AllocError>
    ensures same { (i : ℕ) → seat_in seats.new.items i ≡ seat_in seats.old.items i }
    ensures room { OnOk result (index < vec_len seats.new) }
{
    'fill: while seats.len() <= index {
        seats.push(Seat::blank(alloc))?;
    }
    Ok(())
}

/// Room for the stacks of the workers of the pool of this index.
pub(crate) fn grow_crews(
    alloc: Global,
    crews: &mut Vec<Crew>,
    pool: usize,
) -> Result<(), AllocError>
    ensures same { (h : Shape) (p i : ℕ) → worker_in h crews.new.items p i ≡ worker_in h crews.old.items p i }
    ensures room { OnOk result (pool < vec_len crews.new) }
{
    'fill: while crews.len() <= pool {
        crews.push(Crew {
            stacks: Vec::new(alloc),
        })?;
    }
    Ok(())
}

/// Room for the stack of a worker.
pub(crate) fn grow_stacks(
    alloc: Global,
    shapes: &Shapes,
    pool: usize,
    stacks: &mut Vec<Stack>,
    index: usize,
) -> Result<(), AllocError>
    ensures same { (i : ℕ) → stack_at (shape_of shapes.now) pool stacks.new.items i ≡ stack_at (shape_of shapes.now) pool stacks.old.items i }
    ensures room { OnOk result (index < vec_len stacks.new) }
{
    'fill: while stacks.len() <= index {
        let party = Party::Worker {
            pool,
            index: stacks.len(),
        };
        stacks.push(Stack::first(alloc, shapes, party))?;
    }
    Ok(())
}

/// Room for the stack of an outside caller.
pub(crate) fn grow_callers(
    alloc: Global,
    shapes: &Shapes,
    callers: &mut Vec<Stack>,
    number: usize,
) -> Result<(), AllocError>
    ensures same { (c : ℕ) → caller_in (shape_of shapes.now) callers.new.items c ≡ caller_in (shape_of shapes.now) callers.old.items c }
    ensures room { OnOk result (number < vec_len callers.new) }
{
    'fill: while callers.len() <= number {
        let party = Party::Caller(callers.len());
        callers.push(Stack::first(alloc, shapes, party))?;
    }
    Ok(())
}

impl Stack {
    /// The stack of a party at the start.
    fn first(alloc: Global, shapes: &Shapes, party: Party) -> Stack
        ensures { stack_of result ≡ first_stack (shape_of shapes.now) party }
    {
        Stack {
            top: shapes.first_place(party),
            below: Vec::new(alloc),
        }
    }
}

/// Room for a pool, and for what an act injects or puts into broadcast lists.
pub(crate) fn pool_room(
    alloc: Global,
    pools: &mut Vec<Pool>,
    pool: usize,
    act: Act,
) -> Result<(), AllocError>
    ensures same { (p : ℕ) → pool_at pools.new.items p ≡ pool_at pools.old.items p }
    ensures room { OnOk result (HasPool act pools.new.items pool) }
{
    grow_pools(alloc, pools, pool)?;
    pool_fits(alloc, pools, pool, act)
}

/// Room in a stored pool for what an act injects or puts into broadcast lists.
fn pool_fits(alloc: Global, pools: &mut Vec<Pool>, pool: usize, act: Act) -> Result<(), AllocError>
    requires { pool < vec_len pools.old }
    ensures same { (p : ℕ) → pool_at pools.new.items p ≡ pool_at pools.old.items p }
    ensures room { OnOk result (HasPool act pools.new.items pool) }
{
    pools[pool].make_room(alloc, act)
}

/// Room for a seat, and for what an act pushes.
pub(crate) fn seat_room(
    alloc: Global,
    benches: &mut Vec<Bench>,
    pool: usize,
    worker: usize,
    act: Act,
) -> Result<(), AllocError>
    ensures same { (p i : ℕ) → seat_at benches.new.items p i ≡ seat_at benches.old.items p i }
    ensures room { OnOk result (HasSeat act benches.new.items pool worker) }
{
    grow_benches(alloc, benches, pool)?;
    let bench = &mut benches[pool];
    grow_seats(alloc, &mut bench.seats, worker)?;
    seat_fits(alloc, &mut bench.seats, worker, act)
}

/// Room in a stored seat for what an act pushes.
fn seat_fits(
    alloc: Global,
    seats: &mut Vec<Seat>,
    worker: usize,
    act: Act,
) -> Result<(), AllocError>
    requires { worker < vec_len seats.old }
    ensures same { (i : ℕ) → seat_in seats.new.items i ≡ seat_in seats.old.items i }
    ensures room { OnOk result (SeatFits act seats.new.items worker) }
{
    seats[worker].make_room(alloc, act)
}

impl Pool {
    /// A pool at the start.
    fn blank(alloc: Global) -> Pool
        ensures { pool_of result ≡ blank_pool }
    {
        Pool {
            injector: VecDeque::new(alloc),
            casts: Vec::new(alloc),
            numbers: PoolNumbers {
                turn: 0,
                count: 1,
                held: true,
                counted: true,
            },
        }
    }

    /// Room for what an act injects or puts into broadcast lists.
    fn make_room(&mut self, alloc: Global, act: Act) -> Result<(), AllocError>
        ensures same { pool_of self.new ≡ pool_of self.old }
        ensures casts { OnOk result (CastsFit act self.new.casts.items) }
        ensures room { OnOk result (InjectorFits act (deque_len self.new.injector) (deque_capacity self.new.injector)) }
    {
        match act {
            Act::PushInj { .. } => self.injector.try_reserve(1),
            Act::PushCast(pieces) => casts_room(alloc, &mut self.casts, pieces),
            _ => Ok(()),
        }
    }
}

impl Seat {
    /// A seat at the start.
    fn blank(alloc: Global) -> Seat
        ensures { seat_of result ≡ blank_seat }
    {
        Seat {
            own: VecDeque::new(alloc),
            detached: FifoList::blank(alloc),
            scoped: Vec::new(alloc),
            flags: WorkerFlags {
                inactive: false,
                asleep: false,
                blocked: false,
                latch: Letter::Unset,
                lock: None,
            },
        }
    }

    /// Room for what an act pushes, and for the FIFO list that it touches.
    fn make_room(&mut self, alloc: Global, act: Act) -> Result<(), AllocError>
        ensures same { seat_of self.new ≡ seat_of self.old }
        ensures deque { OnOk result (DequeFits act (deque_len self.new.own) (deque_capacity self.new.own)) }
        ensures list { OnOk result (ListFits act self.new.detached self.new.scoped.items (act_list act)) }
    {
        if let Act::PushOwn { .. } = act {
            self.own.try_reserve(1)?;
        }
        match list_of(act) {
            None => self.detached.make_room(act),
            Some(call) => list_room(alloc, &mut self.scoped, call as usize, act),
        }
    }
}

impl FifoList {
    /// A list at the start.
    fn blank(alloc: Global) -> FifoList
        ensures jobs { result.jobs.items ≡ [] }
        ensures holder { result.holder ≡ None }
    {
        FifoList {
            jobs: VecDeque::new(alloc),
            holder: None,
        }
    }

    /// Room for what an act adds.
    fn make_room(&mut self, act: Act) -> Result<(), AllocError>
        ensures jobs { self.new.jobs.items ≡ self.old.jobs.items }
        ensures holder { self.new.holder ≡ self.old.holder }
        ensures room { OnOk result (FifoFits act self.new) }
    {
        match act {
            Act::FifoIn { .. } => self.jobs.try_reserve(1),
            _ => Ok(()),
        }
    }
}

/// Room for the FIFO list of this scope, and for what an act adds to it.
fn list_room(
    alloc: Global,
    lists: &mut Vec<FifoList>,
    call: usize,
    act: Act,
) -> Result<(), AllocError>
    ensures jobs { (c : ℕ) → jobs_in lists.new.items c ≡ jobs_in lists.old.items c }
    ensures holder { (c : ℕ) → holder_in lists.new.items c ≡ holder_in lists.old.items c }
    ensures room { OnOk result (IsSomeAnd (slice_get lists.new.items call) (λ l. FifoFits act l)) }
{
    grow_lists(alloc, lists, call)?;
    list_fits(lists, call, act)
}

/// FIFO lists up to the one of this scope.
fn grow_lists(alloc: Global, lists: &mut Vec<FifoList>, call: usize) -> Result<(), AllocError>
    ensures jobs { (c : ℕ) → jobs_in lists.new.items c ≡ jobs_in lists.old.items c }
    ensures holder { (c : ℕ) → holder_in lists.new.items c ≡ holder_in lists.old.items c }
    ensures room { OnOk result (call < vec_len lists.new) }
{
    'fill: while lists.len() <= call {
        lists.push(FifoList::blank(alloc))?;
    }
    Ok(())
}

/// Room in a stored FIFO list for what an act adds to it.
fn list_fits(lists: &mut Vec<FifoList>, call: usize, act: Act) -> Result<(), AllocError>
    requires { call < vec_len lists.old }
    ensures jobs { (c : ℕ) → jobs_in lists.new.items c ≡ jobs_in lists.old.items c }
    ensures holder { (c : ℕ) → holder_in lists.new.items c ≡ holder_in lists.old.items c }
    ensures room { OnOk result (IsSomeAnd (slice_get lists.new.items call) (λ l. FifoFits act l)) }
{
    lists[call].make_room(act)
}
