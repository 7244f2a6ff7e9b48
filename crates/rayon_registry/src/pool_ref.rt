//! What stands for a pool on any thread, and the calls that are made on it from outside.
ghost use Rattle.rayon_jobs.specs.Faults.{Agrees};
ghost use Rattle.rayon_guests.specs.Visits.{plan_of};
ghost use Rattle.rayon_registry.specs.Answers.{joined_pair, InstallAnswers, JoinAnswers};
ghost use Rattle.std.specs.Arc.{arc_value};
ghost use Rattle.std.specs.Prelude.{◌≡◌, ◌⊎◌, ◌<◌, ℕ, Result, Ok, Err, IfOk, IfErr};

use crate::answers::{install_answer, join_answer};
use crate::faults::SharedFaults;
use crate::ids::PoolId;
use crate::pool_parts::{faults_of, shared_of};
use rayon_guests::{Guest, Load};
use rayon_jobs::{JobKind, Lost, claimed};
use rayon_machine_places::place::{OpenCall, Party, Plan};
use rayon_tasks::{Task, Ticket};
use rayon_words::{CallError, Refusal};
use std::alloc::Global;
use std::marker::Model;
use std::sync::{Arc, Wait};

// A pool's number, and a share of what its threads have in common, where its queues hold such tasks. It stands apart
// from the job type, so that the checker finds once that it may be sent where its tasks may be.
#[derive(Drop)]
pub(crate) struct PoolShare<T> {
    pub(crate) id: PoolId,
    pub(crate) shared: Arc<rayon_shared::Registry<T>, Global>,
}

/// A pool as any thread uses it: it can be sent to other threads and shared among them. It keeps no pool from ending.
/// Contracts see the pool's number, how many workers it has, the levels of a worker value that no run was lent yet,
/// whether each worker takes its oldest task first, and which deques and which terminate count it has.
#[derive(Drop)]
pub struct PoolRef<J: JobKind> {
    pub(crate) pool: PoolShare<Task<J>>,
    pub(crate) faults: SharedFaults<J::Fault, J::Handler>,
}

impl<J: JobKind> Model for PoolRef<J> {
    ghost use Rattle.rayon_registry.specs.Worker.{Pool};
    ghost use Rattle.std.specs.Arc.{arc_value};

    ghost Value = { Pool };

    ghost view = { λ r. record { id = r.pool.id; workers = (arc_value r.pool.shared).workers; depth_limit = (arc_value r.pool.shared).depth_limit; breadth_first = (arc_value r.pool.shared).breadth_first; deques = (arc_value r.pool.shared).deques; count = (arc_value r.pool.shared).count } };
}

impl<J: JobKind> PoolRef<J> {
    // The pool with this number, whose threads share this.
    pub(crate) fn of(
        id: PoolId,
        shared: Arc<rayon_shared::Registry<Task<J>>, Global>,
        faults: SharedFaults<J::Fault, J::Handler>,
    ) -> PoolRef<J>
        ensures { result ≡ record { id = id; workers = (arc_value shared).workers; depth_limit = (arc_value shared).depth_limit; breadth_first = (arc_value shared).breadth_first; deques = (arc_value shared).deques; count = (arc_value shared).count } }
    {
        PoolRef {
            pool: PoolShare { id, shared },
            faults,
        }
    }

    /// A copy, for the same pool. Refused `NoRoom`.
    pub fn pool_ref(&self) -> Result<PoolRef<J>, Refusal>
        ensures same { IfOk result (λ p. p ≡ self.now) }
        ensures refused { IfErr result (λ r. r ≡ Refusal.NoRoom) }
    {
        let shared = shared_of(self)?;
        let faults = faults_of(self)?;
        Ok(PoolRef::of(self.id(), shared, faults))
    }

    /// The pool's number.
    pub fn id(&self) -> PoolId
        ensures { result ≡ self.now.id }
    {
        self.pool.id
    }

    /// How many workers the pool has.
    pub fn current_num_threads(&self) -> usize
        ensures { result ≡ self.now.workers }
    {
        self.pool.shared.num_threads()
    }

    // The levels of a worker value that no run was lent yet.
    fn depth_limit(&self) -> usize
        ensures { result ≡ self.now.depth_limit }
    {
        self.pool.shared.depth_limit()
    }

    /// Runs a job on the pool, for a caller that is no worker; it blocks until the job has run, and answers the job's
    /// output. Refused `Ended`, `Full`, `NoRoom`, with the job back.
    pub fn install<R: Wait>(
        &self,
        rt: &R,
        alloc: Global,
        job: J,
    ) -> Result<J::Output, CallError<J::Fault, J>>
        ensures answers { InstallAnswers (λ r. J.answers (J.tag_of job) r) job result }
        ensures shallow { (j : _) → result ≡ Err (CallError.Refused Refusal.TooDeep j) → ⊥ }
    {
        let Some(name) = self.pool.shared.caller_name(rt) else {
            return Err(CallError::Refused(Refusal::Full, job));
        };
        let tag = job.tag();
        let mut guest = Guest::new(&*self.pool.shared);
        match guest.call(rt, alloc, send(name), Load::Job(job)) {
            Ok((_, found)) => install_answer(claimed(found, &tag)),
            Err((refusal, Load::Job(job))) => Err(CallError::Refused(refusal, job)),
            Err(_) => unreachable!(),
        }
    }

    /// Spawns a detached job on the pool, for a caller that is no worker, and waits for nothing. The job keeps the pool
    /// from ending until its run is over. Nobody is answered its output; its fault goes to the pool's handler, or is
    /// kept for `take_fault` where it has none. Refused `Full`, `NoRoom`, `Ended`, with the job back.
    pub fn spawn<R: Wait>(&self, rt: &R, alloc: Global, job: J) -> Result<(), (Refusal, J)>
        ensures back { IfErr result (λ e. e.1 ≡ job) }
        ensures refused { IfErr result (λ e. (e.0 ≡ Refusal.Ended) ⊎ ((e.0 ≡ Refusal.Full) ⊎ (e.0 ≡ Refusal.NoRoom))) }
    {
        let Some(name) = self.pool.shared.caller_name(rt) else {
            return Err((Refusal::Full, job));
        };
        let Ok(ticket) = Ticket::of_detached(alloc, Party::Caller(0), name) else {
            return Err((Refusal::NoRoom, job));
        };
        let plan = Plan::Detach { pool: 0, job: name };
        let mut guest = Guest::new(&*self.pool.shared);
        match guest.call(rt, alloc, plan, Load::Detached(job, ticket)) {
            Ok(_) => Ok(()),
            Err((refusal, Load::Detached(job, _))) => Err((refusal, job)),
            Err(_) => unreachable!(),
        }
    }

    /// Spawns a detached job for a caller that is no worker, which has no FIFO list on the pool: so it is queued as by
    /// `spawn`, among the injected jobs, of which the oldest is taken first. Refused as there.
    pub fn spawn_fifo<R: Wait>(&self, rt: &R, alloc: Global, job: J) -> Result<(), (Refusal, J)>
        ensures back { IfErr result (λ e. e.1 ≡ job) }
        ensures refused { IfErr result (λ e. (e.0 ≡ Refusal.Ended) ⊎ ((e.0 ≡ Refusal.Full) ⊎ (e.0 ≡ Refusal.NoRoom))) }
    {
        self.spawn(rt, alloc, job)
    }

    /// Broadcasts a detached job to the pool, for a caller that is no worker: each worker of the pool runs a piece of
    /// it (`Job::run_on`), and this call waits for nothing. All pieces are queued at once, and each worker is called,
    /// so that none of them sleeps. Each piece keeps the pool from ending until its run is over. Nobody is answered an
    /// output; a fault goes where that of a job goes which was spawned by `spawn`. Who has the job's last share lets it
    /// go, a piece or the call. Refused `Full`, `NoRoom`, `Ended`, with the very job back and no piece queued.
    pub fn spawn_broadcast<R: Wait>(
        &self,
        rt: &R,
        alloc: Global,
        job: J,
    ) -> Result<(), (Refusal, J)>
        ensures back { IfErr result (λ e. e.1 ≡ job) }
        ensures refused { IfErr result (λ e. (e.0 ≡ Refusal.Ended) ⊎ ((e.0 ≡ Refusal.Full) ⊎ (e.0 ≡ Refusal.NoRoom))) }
    {
        let Some(first) = self.pool.shared.caller_row(rt) else {
            return Err((Refusal::Full, job));
        };
        let mut guest = Guest::new(&*self.pool.shared);
        guest.spawn_broadcast(rt, alloc, first, job)
    }

    /// How many tokens of FIFO lists found their list empty, at most 2^64 - 1. In each run of the machine it is 0;
    /// where rayon-core finds such a token it ends the process.
    pub fn strays<R: Wait>(&self, rt: &R) -> u64 {
        self.faults.strays(rt)
    }

    /// The first fault of a detached job since this was asked last, and how many there were; that number stops at
    /// 2^64 - 1. None and 0 are left, and so it is always where the pool has a handler, which is told each fault.
    pub fn take_fault<R: Wait>(&self, rt: &R) -> (Option<J::Fault>, u64)
        ensures { Agrees result.0 result.1 }
    {
        self.faults.take(rt)
    }

    /// Runs two jobs on the pool by a join there, for a caller that is no worker; it blocks until both have run, and
    /// answers both outputs. Refused `TooDeep` exactly where the depth limit is 1, whatever else holds; `Ended`,
    /// `Full`, `NoRoom`; with the sides back, and neither has run.
    pub fn join<R: Wait>(
        &self,
        rt: &R,
        alloc: Global,
        a: J,
        b: J,
    ) -> Result<(J::Output, J::Output), CallError<J::Fault, (J, J)>>
        ensures answers { JoinAnswers (λ r. J.answers (J.tag_of a) r) (λ r. J.answers (J.tag_of b) r) (a, b) result }
        ensures deep { self.now.depth_limit < 2 → result ≡ Err (CallError.Refused Refusal.TooDeep (a, b)) }
        ensures shallow { (sides : _) → result ≡ Err (CallError.Refused Refusal.TooDeep sides) → self.now.depth_limit < 2 }
    {
        if self.depth_limit() < 2 {
            return Err(CallError::Refused(Refusal::TooDeep, (a, b)));
        }
        let Some(name) = self.pool.shared.caller_name(rt) else {
            return Err(CallError::Refused(Refusal::Full, (a, b)));
        };
        let tags = (a.tag(), b.tag());
        let mut guest = Guest::new(&*self.pool.shared);
        match guest.call(rt, alloc, send(name), Load::Sides(a, b)) {
            Ok((first, second)) => {
                pair_answer(claimed(first, &tags.0), claimed(second, &tags.1))
            }
            Err((refusal, Load::Sides(a, b))) => Err(CallError::Refused(refusal, (a, b))),
            Err(_) => unreachable!(),
        }
    }

    /// The same as `join`: both jobs are told that their call came from outside the pool.
    pub fn join_context<R: Wait>(
        &self,
        rt: &R,
        alloc: Global,
        a: J,
        b: J,
    ) -> Result<(J::Output, J::Output), CallError<J::Fault, (J, J)>>
        ensures answers { JoinAnswers (λ r. J.answers (J.tag_of a) r) (λ r. J.answers (J.tag_of b) r) (a, b) result }
        ensures deep { self.now.depth_limit < 2 → result ≡ Err (CallError.Refused Refusal.TooDeep (a, b)) }
        ensures shallow { (sides : _) → result ≡ Err (CallError.Refused Refusal.TooDeep sides) → self.now.depth_limit < 2 }
    {
        self.join(rt, alloc, a, b)
    }
}

// The plan of the call that sends the work of this name.
fn send(name: u64) -> Plan
    ensures { result ≡ plan_of name }
{
    Plan::Send(OpenCall {
        number: name,
        pool: 0,
        job: name,
    })
}

// What a join that was sent to a pool answers: whatever is wrong with the first side's result comes first.
fn pair_answer<X: Drop, Y: Drop, F: Drop, B>(
    first: Result<Result<X, F>, Lost>,
    second: Result<Result<Y, F>, Lost>,
) -> Result<(X, Y), CallError<F, B>>
    ensures { result ≡ joined_pair first second }
{
    match first {
        Err(Lost::Missing) => Err(CallError::Missing),
        Err(Lost::Foreign) => Err(CallError::Foreign),
        Ok(first) => join_answer(first, second),
    }
}
