//! The scopes that runs spawn into, and what a scope adds.
ghost use Rattle.rayon_core.specs.Worker.{SameWorker};
ghost use Rattle.std.specs.Prelude.{◌≡◌, ◌≤◌, ℕ, IfOk, suc};

use crate::play::Play;
use crate::stage::{Name, Trouble};
use pool_script::script::{Entry, Order, Shape};
use rayon_core::{
    BroadcastContext, CallError, Done, Ended, FnContext, Refusal, Scope, ScopeCalls, Waits,
    WorkerThread,
};
use std::alloc::Global;
use std::sync::Wait;

/// The scope that a run spawns into, and whether it does so in order.
#[derive(Drop)]
pub enum Own<'a> {
    /// The scope that the run's job was spawned into, if it was.
    Job(&'a mut FnContext<Play>, bool),
    /// The scope that the job was broadcast into of which the run is a piece, if it was.
    Piece(&'a mut BroadcastContext<Play>, bool),
    /// The scope whose body runs.
    Body(&'a mut Scope<Play>, bool),
}

impl Own<'_> {
    /// Brings a job into the scope so. Does nothing where there is none. Adds nothing.
    pub fn enter<R: Wait>(
        &mut self,
        rt: &R,
        alloc: Global,
        w: &mut WorkerThread<Play>,
        entry: Entry,
        job: Play,
    ) -> Result<u64, Trouble>
        ensures same { SameWorker w.old w.new }
        ensures nothing { IfOk result (λ added. added ≡ 0) }
    {
        match self {
            Own::Job(ctx, in_order) => {
                let job = job.ordered_if(*in_order);
                enter_any(rt, alloc, w, ctx.scope(), entry, job)
            }
            Own::Piece(ctx, in_order) => {
                let job = job.ordered_if(*in_order);
                enter_any(rt, alloc, w, ctx.scope(), entry, job)
            }
            Own::Body(scope, in_order) => {
                enter(rt, alloc, w, scope, entry, job.ordered_if(*in_order))
            }
        }
    }
}

// Brings a job into a scope so, if there is one.
fn enter_any<R: Wait>(
    rt: &R,
    alloc: Global,
    w: &mut WorkerThread<Play>,
    scope: Option<&mut Scope<Play>>,
    entry: Entry,
    job: Play,
) -> Result<u64, Trouble>
    ensures same { SameWorker w.old w.new }
    ensures nothing { IfOk result (λ added. added ≡ 0) }
{
    match scope {
        Some(scope) => enter(rt, alloc, w, scope, entry, job),
        None => Ok(0),
    }
}

// Brings a job into a scope so, in order where the job is.
fn enter<R: Wait>(
    rt: &R,
    alloc: Global,
    w: &mut WorkerThread<Play>,
    scope: &mut Scope<Play>,
    entry: Entry,
    job: Play,
) -> Result<u64, Trouble>
    ensures same { SameWorker w.old w.new }
    ensures nothing { IfOk result (λ added. added ≡ 0) }
{
    match entry {
        Entry::Broadcast => entered(scope.spawn_broadcast(rt, alloc, w, job)),
        Entry::Spawn if job.is_ordered() => entered(scope.spawn_fifo(rt, w, job)),
        Entry::Spawn => entered(scope.spawn(rt, w, job)),
    }
}

// What is added by bringing a job into a scope: nothing.
fn entered(entered: Result<u64, (Refusal, Play)>) -> Result<u64, Trouble>
    ensures { IfOk result (λ added. added ≡ 0) }
{
    match entered {
        Ok(_number) => Ok(0),
        Err((refusal, job)) => Err(Trouble::Refused(refusal, job.name())),
    }
}

/// Opens a scope of this shape on the worker, and runs this body in it with one level fewer.
pub fn opened<
    R: Waits<Play>,
    B: FnOnce(&mut WorkerThread<Play>, &mut Scope<Play>) -> Result<u64, Trouble>,
>(
    rt: &R,
    alloc: Global,
    w: &mut WorkerThread<Play>,
    shape: Shape,
    body: B,
) -> Result<Ended<u64, Vec<Done<Play>>>, CallError<Trouble, B>>
    requires levels { w.old.levels ≤ R.levels rt.now }
    requires callable { (v : _) (s : _) → suc v.now.levels ≡ w.old.levels → B.pre body v s }
    requires keeps { (v : _) (s : _) (r : _) (x : _) (t : _) → B.post body v s r x t → SameWorker v.now x.now }
    ensures same { SameWorker w.old w.new }
{
    match (shape.order, shape.in_place) {
        (Order::Lifo, false) => w.scope(rt, alloc, body),
        (Order::Lifo, true) => w.in_place_scope(rt, alloc, body),
        (Order::Fifo, false) => w.scope_fifo(rt, alloc, body),
        (Order::Fifo, true) => w.in_place_scope_fifo(rt, alloc, body),
    }
}

/// What a scope with this body adds: what the body answered, and the outputs of the scope's jobs.
pub fn scoped<B: Drop>(
    answer: Result<Ended<u64, Vec<Done<Play>>>, CallError<Trouble, B>>,
    body: Name,
) -> Result<u64, Trouble> {
    let ended = match answer {
        Ok(ended) => ended,
        Err(CallError::Fault(trouble)) => return Err(trouble),
        Err(CallError::Refused(refusal, _body)) => return Err(Trouble::Refused(refusal, body)),
        Err(CallError::Foreign | CallError::Missing) => return Err(Trouble::Lost),
    };
    Ok(ended.value.wrapping_add(sum_of(&ended.outputs)?))
}

/// The sum of what the pieces of a broadcast answered, modulo 2^64.
pub fn sum_of_pieces(answers: &[u64]) -> u64 {
    let mut sum = 0_u64;
    for answer in answers {
        sum = sum.wrapping_add(*answer);
    }
    sum
}

/// The sum of the outputs of a scope's jobs, modulo 2^64.
pub fn sum_of(outputs: &[Done<Play>]) -> Result<u64, Trouble> {
    let mut sum = 0_u64;
    for done in outputs {
        let output = done.output().ok_or(Trouble::Lost)?;
        sum = sum.wrapping_add(*output);
    }
    Ok(sum)
}
