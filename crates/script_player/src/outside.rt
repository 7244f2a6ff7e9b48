//! Scopes that a thread opens which is no worker.
use crate::play::Play;
use crate::scopes::sum_of;
use crate::stage::{Here, Name, Stage, Trouble};
use pool_script::script::{Act, Deed, Entry, Order, Shape};
use rayon_core::{CallError, InPlaceCalls, PoolRef, Scope};
use std::alloc::Global;
use std::sync::{Arc, Wait};

/// What a scope answered.
#[derive(Clone, Copy)]
pub struct Scoped {
    /// What its body answered.
    pub value: u64,
    /// The sum of the outputs of its jobs, modulo 2^64.
    pub sum: u64,
    /// How many its jobs are.
    pub count: usize,
}

/// Opens a scope of this shape on a pool, whose body does what the job does: on a worker, or in place on this thread.
pub fn open_scope<R: Wait>(
    rt: &R,
    alloc: Global,
    stage: &Arc<Stage>,
    pool: &PoolRef<Play>,
    shape: Shape,
    body: Play,
) -> Result<Scoped, CallError<Trouble, Name>> {
    let in_order = matches!(shape.order, Order::Fifo);
    if shape.in_place {
        let place = Place {
            stage,
            pool,
            in_order,
        };
        place.open(rt, alloc, body.name())
    } else {
        on_worker(rt, alloc, pool, in_order, body)
    }
}

// Opens a scope whose body is the job, on a worker. The job's output stands among those of the scope.
fn on_worker<R: Wait>(
    rt: &R,
    alloc: Global,
    pool: &PoolRef<Play>,
    in_order: bool,
    body: Play,
) -> Result<Scoped, CallError<Trouble, Name>> {
    let name = body.name();
    let answer = if in_order {
        pool.scope_fifo(rt, alloc, body.ordered_if(true))
    } else {
        pool.scope(rt, alloc, body)
    };
    let ended = answer.map_err(|error| named(error, name))?;
    let number = usize::try_from(ended.value).map_err(|_| CallError::Missing)?;
    let done = ended.outputs.get(number).ok_or(CallError::Missing)?;
    let value = *done.output().ok_or(CallError::Missing)?;
    let sum = sum_of(&ended.outputs).map_err(CallError::Fault)?;
    Ok(Scoped {
        value,
        sum: sum.wrapping_sub(value),
        count: ended.outputs.len().saturating_sub(1),
    })
}

// The same error with the body's name for the body.
fn named<B: Drop>(error: CallError<Trouble, B>, body: Name) -> CallError<Trouble, Name> {
    match error {
        CallError::Fault(trouble) => CallError::Fault(trouble),
        CallError::Refused(refusal, _body) => CallError::Refused(refusal, body),
        CallError::Foreign => CallError::Foreign,
        CallError::Missing => CallError::Missing,
    }
}

// Where the body of a scope in place runs: on no worker. And whether it spawns in order.
#[derive(Clone, Copy)]
struct Place<'a> {
    stage: &'a Arc<Stage>,
    pool: &'a PoolRef<Play>,
    in_order: bool,
}

impl Place<'_> {
    // Opens a scope whose body does what the job does.
    fn open<R: Wait>(
        self,
        rt: &R,
        alloc: Global,
        body: Name,
    ) -> Result<Scoped, CallError<Trouble, Name>> {
        let run = |scope: &mut Scope<Play>| self.run(rt, alloc, body, scope);
        let answer = if self.in_order {
            self.pool.in_place_scope_fifo(rt, alloc, run)
        } else {
            self.pool.in_place_scope(rt, alloc, run)
        };
        let ended = answer.map_err(|error| named(error, body))?;
        Ok(Scoped {
            value: ended.value,
            sum: sum_of(&ended.outputs).map_err(CallError::Fault)?,
            count: ended.outputs.len(),
        })
    }

    // Does what the job's lines say, and spawns into this scope.
    fn run<R: Wait>(
        self,
        rt: &R,
        alloc: Global,
        job: Name,
        scope: &mut Scope<Play>,
    ) -> Result<u64, Trouble> {
        let here = Here {
            number: job.number,
            turn: 0,
            migrated: false,
            index: 0,
        };
        let Some(plan) = self.stage.script().jobs.get(job.job) else {
            return Err(Trouble::Lost);
        };
        let mut answer = 0_u64;
        for deed in plan.deeds.iter() {
            let added = self.repeat(rt, alloc, here, *deed, scope)?;
            answer = answer.wrapping_add(added);
        }
        Ok(answer)
    }

    // Does this as often as is said, where it is for this run, and answers what is added by it.
    fn repeat<R: Wait>(
        self,
        rt: &R,
        alloc: Global,
        here: Here,
        deed: Deed,
        scope: &mut Scope<Play>,
    ) -> Result<u64, Trouble> {
        let mut added = 0_u64;
        if !deed.is_for(here.number) {
            return Ok(added);
        }
        for turn in 0..deed.times {
            let more = self.attempt(rt, alloc, Here { turn, ..here }, deed, scope)?;
            added = added.wrapping_add(more);
        }
        Ok(added)
    }

    // Does this once. Where the run goes on after a fault or a refusal, nothing is added by it.
    fn attempt<R: Wait>(
        self,
        rt: &R,
        alloc: Global,
        here: Here,
        deed: Deed,
        scope: &mut Scope<Play>,
    ) -> Result<u64, Trouble> {
        match self.act(rt, alloc, here, deed.act, scope) {
            Err(_) if deed.tries => Ok(0),
            answer => answer,
        }
    }

    // Does this once, if no worker is needed for it.
    fn act<R: Wait>(
        self,
        rt: &R,
        alloc: Global,
        here: Here,
        act: Act,
        scope: &mut Scope<Play>,
    ) -> Result<u64, Trouble> {
        match act {
            Act::Plain(plain) => self.stage.plain(rt, here, plain),
            Act::Into(entry, call) => match Play::new(self.stage, here, call)? {
                Some(job) => self.enter(rt, alloc, scope, entry, job),
                None => Ok(0),
            },
            _ => Err(Trouble::NoWorker),
        }
    }

    // Brings a job into the scope so. Adds nothing.
    fn enter<R: Wait>(
        self,
        rt: &R,
        alloc: Global,
        scope: &mut Scope<Play>,
        entry: Entry,
        job: Play,
    ) -> Result<u64, Trouble> {
        let job = job.ordered_if(self.in_order);
        let entered = match entry {
            Entry::Spawn => scope.inject(rt, alloc, self.pool, job),
            Entry::Broadcast => scope.inject_broadcast(rt, alloc, self.pool, job),
        };
        match entered {
            Ok(_number) => Ok(0),
            Err((refusal, job)) => Err(Trouble::Refused(refusal, job.name())),
        }
    }
}
