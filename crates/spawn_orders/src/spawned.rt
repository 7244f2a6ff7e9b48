//! The jobs that are spawned.
ghost use Rattle.rayon_core.specs.Worker.{SameWorker};
ghost use Rattle.spawn_orders.specs.Orders.{children_of, leaves_of};
ghost use Rattle.std.specs.Prelude.{◌≡◌, ◌≤◌, ◌*◌, ℕ, pos, IfOk, IfErr, IfSome, IfNone};

use crate::fault::OrderFault;
use crate::ledger::Ledger;
use rayon_core::{
    BroadcastContext, CallError, FnContext, Job, JobKind, NoHandler, Refusal, Scope, ScopeCalls,
    Waits, WorkerThread,
};
use std::alloc::Global;
use std::sync::Arc;

/// By which call a job is spawned.
#[derive(Clone, Copy, Debug, PartialEq, Eq)]
pub enum SpawnCall {
    /// By `spawn`.
    Spawn,
    /// By `spawn_fifo`: in order.
    SpawnFifo,
}

/// What a job does.
#[derive(Clone, Copy, Debug, PartialEq, Eq)]
pub enum Work {
    /// Spawns the jobs of the tens 0 to 9.
    Tens {
        /// By this call.
        outer: SpawnCall,
        /// And these spawn theirs by this one.
        inner: SpawnCall,
    },
    /// Spawns the jobs of ten numbers.
    Ten {
        /// Their digit of tens.
        ten: i8,
        /// The call.
        call: SpawnCall,
    },
    /// Spawns the jobs of 0, -1, 1, -2, 2, -3 and 3.
    Mixed {
        /// Those below 0 by this call.
        below: SpawnCall,
        /// And the others by this one.
        others: SpawnCall,
    },
    /// Opens a scope, and spawns the jobs of the tens 0 to 9 into it.
    Scope {
        /// By this call, as these do theirs.
        call: SpawnCall,
    },
    /// Spawns the jobs of ten numbers into the scope of its own.
    ScopeTen {
        /// Their digit of tens.
        ten: i8,
        /// The call.
        call: SpawnCall,
    },
    /// Puts this number last into the list.
    Leaf(i8),
}

impl Work {
    /// Spawns the jobs of the tens by one call, and these spawn theirs by another.
    pub(crate) fn tens(outer: SpawnCall, inner: SpawnCall) -> Work
        ensures { leaves_of result ≡ 100 }
    {
        Work::Tens { outer, inner }
    }

    /// How many numbers the job, with the jobs below it, puts into the list.
    pub fn leaves(self) -> u64
        ensures { result ≡ leaves_of self }
    {
        match self {
            Work::Tens { .. } => 100,
            Work::Scope { .. } => 100,
            Work::Ten { .. } | Work::ScopeTen { .. } => 10,
            Work::Mixed { .. } => 7,
            Work::Leaf(_) => 1,
        }
    }

    // How many jobs it spawns.
    fn children(self) -> i8
        ensures { result ≡ pos (children_of self) }
    {
        match self {
            Work::Tens { .. } | Work::Ten { .. } | Work::Scope { .. } | Work::ScopeTen { .. } => 10,
            Work::Mixed { .. } => 7,
            Work::Leaf(_) => 0,
        }
    }

    // What the job does that this one spawns at this place, from 0 on, and the call. None of a job that spawns none.
    fn child(self, place: i8) -> Option<(SpawnCall, Work)>
        ensures some { IfSome result (λ c. leaves_of self ≡ children_of self * leaves_of c.1) }
        ensures none { IfNone result (children_of self ≡ 0) }
    {
        match self {
            Work::Tens { outer, inner } => Some((
                outer,
                Work::Ten {
                    ten: place,
                    call: inner,
                },
            )),
            Work::Scope { call } => Some((call, Work::ScopeTen { ten: place, call })),
            Work::Ten { ten, call } => Some((call, leaf_of(ten, place))),
            Work::ScopeTen { ten, call } => Some((call, leaf_of(ten, place))),
            Work::Mixed { below, others } => {
                let half = place / 2;
                if place % 2 == 0 {
                    Some((others, Work::Leaf(half)))
                } else {
                    Some((below, Work::Leaf((-1i8).saturating_sub(half))))
                }
            }
            Work::Leaf(_) => None,
        }
    }
}

// The job of a ten that puts the number at this place of the ten into the list.
fn leaf_of(ten: i8, place: i8) -> Work
    ensures { leaves_of result ≡ 1 }
{
    Work::Leaf(ten.saturating_mul(10).saturating_add(place))
}

/// A job: its number, which is its tag, what it does, and what it shares with the other jobs of its order.
#[derive(Drop)]
pub struct Spawned {
    number: u64,
    work: Work,
    ledger: Arc<Ledger>,
}

impl Spawned {
    /// A job with this number that does this. Refused `NoRoom`.
    pub(crate) fn new(ledger: &Arc<Ledger>, number: u64, work: Work) -> Result<Spawned, Refusal>
        ensures work { IfOk result (λ j. j.work ≡ work) }
        ensures refused { IfErr result (λ r. r ≡ Refusal.NoRoom) }
    {
        match Arc::try_clone(ledger) {
            Ok(ledger) => Ok(Spawned {
                number,
                work,
                ledger,
            }),
            Err(_) => Err(Refusal::NoRoom),
        }
    }

    // The job that this one spawns at this place, which does this. Each job of an order has a number of its own.
    fn below(&self, place: i8, work: Work) -> Result<Spawned, Refusal> {
        let place = u64::from(place.unsigned_abs());
        let number = self.number.saturating_mul(10).saturating_add(place);
        Spawned::new(&self.ledger, number.saturating_add(1), work)
    }
}

impl JobKind for Spawned {
    type Tag = u64;

    type Output = ();

    type Fault = OrderFault;

    type Handler = NoHandler;

    ghost answers = { λ t r. Unit {0} };

    ghost tag_of = { λ j. j.number };

    ghost same_answers = { λ t u e. (λ r h. h, λ i n r h. h) };

    fn tag(&self) -> u64 {
        self.number
    }
}

impl Job for Spawned {
    fn run<R: Waits<Self>>(
        self,
        rt: &R,
        alloc: Global,
        w: &mut WorkerThread<Self>,
        ctx: &mut FnContext<Self>,
    ) -> Result<(), OrderFault> {
        match self.work {
            Work::Leaf(number) => self.ledger.add(rt, number),
            Work::Scope { call } => return scope_all(rt, alloc, w, &self, call),
            Work::ScopeTen { .. } => match ctx.scope() {
                Some(scope) => enter_all(rt, w, scope, &self),
                // (the share of it was refused)
                None => self.ledger.give_up(rt, Refusal::NoRoom, self.work.leaves()),
            },
            Work::Tens { .. } | Work::Ten { .. } | Work::Mixed { .. } => {
                spawn_all(rt, alloc, w, &self)
            }
        }
        Ok(())
    }

    fn run_on<R: Waits<Self>>(
        &self,
        _rt: &R,
        _alloc: Global,
        _w: &mut WorkerThread<Self>,
        _ctx: &mut BroadcastContext<Self>,
    ) -> Result<(), OrderFault> {
        Err(OrderFault::Missing)
    }
}

// Spawns the jobs of this one.
fn spawn_all<R: Waits<Spawned>>(rt: &R, alloc: Global, w: &mut WorkerThread<Spawned>, job: &Spawned)
    ensures same { SameWorker w.old w.new }
{
    for place in 0..job.work.children() {
        if let Some((call, work)) = job.work.child(place) {
            let below = job.below(place, work);
            let spawned = spawn(rt, alloc, w, call, below);
            settle(rt, job, work, spawned);
        }
    }
}

// Spawns a job by this call, if there was memory for it.
fn spawn<R: Waits<Spawned>>(
    rt: &R,
    alloc: Global,
    w: &mut WorkerThread<Spawned>,
    call: SpawnCall,
    job: Result<Spawned, Refusal>,
) -> Result<(), Refusal>
    ensures same { SameWorker w.old w.new }
{
    match (job, call) {
        (Ok(job), SpawnCall::Spawn) => w.spawn(rt, alloc, job).map_err(|(refusal, _)| refusal),
        (Ok(job), SpawnCall::SpawnFifo) => {
            w.spawn_fifo(rt, alloc, job).map_err(|(refusal, _)| refusal)
        }
        (Err(refusal), _) => Err(refusal),
    }
}

// Where a spawn of a job that does this was refused its numbers are given up.
fn settle<R: Waits<Spawned>>(rt: &R, job: &Spawned, work: Work, spawned: Result<(), Refusal>) {
    if let Err(refusal) = spawned {
        job.ledger.give_up(rt, refusal, work.leaves());
    }
}

// Opens a scope, and spawns the jobs of this one into it by this call.
fn scope_all<R: Waits<Spawned>>(
    rt: &R,
    alloc: Global,
    w: &mut WorkerThread<Spawned>,
    job: &Spawned,
    call: SpawnCall,
) -> Result<(), OrderFault>
    requires levels { w.old.levels ≤ R.levels rt.now }
    ensures same { SameWorker w.old w.new }
{
    match call {
        SpawnCall::Spawn => lifo_scope(rt, alloc, w, job),
        SpawnCall::SpawnFifo => fifo_scope(rt, alloc, w, job),
    }
}

// Opens a scope, and spawns the jobs of this one into it.
fn lifo_scope<R: Waits<Spawned>>(
    rt: &R,
    alloc: Global,
    w: &mut WorkerThread<Spawned>,
    job: &Spawned,
) -> Result<(), OrderFault>
    requires levels { w.old.levels ≤ R.levels rt.now }
    ensures same { SameWorker w.old w.new }
{
    let ended = w.scope(rt, alloc, |w, scope| Ok(enter_all(rt, w, scope, job)));
    ended.map_err(CallError::without_sides)?;
    Ok(())
}

// The same of a scope for jobs in order.
fn fifo_scope<R: Waits<Spawned>>(
    rt: &R,
    alloc: Global,
    w: &mut WorkerThread<Spawned>,
    job: &Spawned,
) -> Result<(), OrderFault>
    requires levels { w.old.levels ≤ R.levels rt.now }
    ensures same { SameWorker w.old w.new }
{
    let ended = w.scope_fifo(rt, alloc, |w, scope| Ok(enter_all(rt, w, scope, job)));
    ended.map_err(CallError::without_sides)?;
    Ok(())
}

// Spawns the jobs of this one into a scope.
fn enter_all<R: Waits<Spawned>>(
    rt: &R,
    w: &mut WorkerThread<Spawned>,
    scope: &mut Scope<Spawned>,
    job: &Spawned,
)
    ensures same { SameWorker w.old w.new }
{
    for place in 0..job.work.children() {
        if let Some((call, work)) = job.work.child(place) {
            let below = job.below(place, work);
            let spawned = enter(rt, w, scope, call, below);
            settle(rt, job, work, spawned);
        }
    }
}

// Spawns a job into a scope by this call, if there was memory for it.
fn enter<R: Waits<Spawned>>(
    rt: &R,
    w: &mut WorkerThread<Spawned>,
    scope: &mut Scope<Spawned>,
    call: SpawnCall,
    job: Result<Spawned, Refusal>,
) -> Result<(), Refusal>
    ensures same { SameWorker w.old w.new }
{
    let number = match (job, call) {
        (Ok(job), SpawnCall::Spawn) => scope.spawn(rt, w, job),
        (Ok(job), SpawnCall::SpawnFifo) => scope.spawn_fifo(rt, w, job),
        (Err(refusal), _) => return Err(refusal),
    };
    match number {
        Ok(_) => Ok(()),
        Err((refusal, _)) => Err(refusal),
    }
}
