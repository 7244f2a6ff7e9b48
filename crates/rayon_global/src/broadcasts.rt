//! The broadcasts that are written alike inside a run and outside of it.
ghost use Rattle.rayon_broadcasts.specs.Books.{IsAllowed};
ghost use Rattle.rayon_broadcasts.specs.declared.piece_outputs.NoAnswers.{NoAnswers};
ghost use Rattle.rayon_machine_places.specs.declared.place.Party.TheVariants.{Worker};
ghost use Rattle.rayon_performers.specs.Casts.{Cast};
ghost use Rattle.rayon_shared.specs.Casts.{casting};
ghost use Rattle.rayon_shared.specs.Marks.{KeepsAll, TakesUnits};
ghost use Rattle.rayon_registry.specs.Acts.{CallMade, CastBack, GatherBack, Gathered};
ghost use Rattle.rayon_registry.specs.Answers.{AllAnswered};
ghost use Rattle.rayon_registry.specs.Worker.{Kept, SameWorker};
ghost use Rattle.std.specs.Prelude.{◌≡◌, ◌⊎◌, ◌≤◌, ℕ, Err, IfOk, IfErr};

use crate::current::Stands;
use crate::outside::Outside;
use rayon_core::{CallError, JobKind, Refusal, Waits, WorkerThread};
use std::alloc::Global;
use std::sync::Wait;

/// What broadcasts can be made on: inside a run the worker value, and outside an `Outside`. It stands apart from
/// `Current`, of which the checker has as much as it can take.
pub trait Broadcasts<J: JobKind, R>: Stands {
    /// What a detached broadcast leaves, and which acts are between.
    ghost cast: { Self → Self → Type 0 };

    /// What a refused one leaves, and which acts are between.
    ghost cast_back: { Self → Self → Type 0 };

    /// Broadcasts a detached job.
    fn spawn_broadcast_here(&mut self, rt: &R, alloc: Global, job: J) -> Result<(), (Refusal, J)>
        ensures cast { IfOk result (λ _. cast self.old self.new) }
        ensures back { IfErr result (λ e. (e.1 ≡ job) × cast_back self.old self.new) }
        ensures refused { IfErr result (λ e. (e.0 ≡ Refusal.Ended) ⊎ ((e.0 ≡ Refusal.Full) ⊎ (e.0 ≡ Refusal.NoRoom))) };
}

impl<J: JobKind, R: Wait> Broadcasts<J, R> for WorkerThread<J> {
    ghost cast = { λ v w. ((n : ℕ) × Cast v.shape (Worker 0 v.id.index) (casting n v.shape.workers) v.acts w.acts) × TakesUnits v.shape.workers v.count w.count × (w ≡ record v { count = w.count; acts = w.acts }) };

    ghost cast_back = { λ v w. CastBack v.shape (Worker 0 v.id.index) v.acts w.acts × KeepsAll v.shape.workers v.count w.count × (w ≡ record v { count = w.count; acts = w.acts }) };

    fn spawn_broadcast_here(&mut self, rt: &R, alloc: Global, job: J) -> Result<(), (Refusal, J)> {
        self.spawn_broadcast(rt, alloc, job)
    }
}

impl<'p, J: JobKind, R: Wait> Broadcasts<J, R> for Outside<'p, J> {
    ghost cast = { λ o p. p ≡ o };

    ghost cast_back = { λ o p. p ≡ o };

    fn spawn_broadcast_here(&mut self, rt: &R, alloc: Global, job: J) -> Result<(), (Refusal, J)> {
        self.spawn_broadcast(rt, alloc, job)
    }
}

/// Broadcasts a detached job, and waits for nothing: each worker of the pool runs a piece of it, by `Job::run_on`. The
/// pool is the worker's own inside a run. Nobody is answered an output; faults go where those of jobs go which were
/// spawned by `spawn`. Refused `Full`, `NoRoom`, `Ended`, with the very job back and no piece queued.
pub fn spawn_broadcast<J: JobKind, R, C: Broadcasts<J, R>>(
    rt: &R,
    alloc: Global,
    here: &mut C,
    job: J,
) -> Result<(), (Refusal, J)>
    ensures cast { IfOk result (λ _. C.cast here.old here.new) }
    ensures back { IfErr result (λ e. (e.1 ≡ job) × C.cast_back here.old here.new) }
    ensures refused { IfErr result (λ e. (e.0 ≡ Refusal.Ended) ⊎ ((e.0 ≡ Refusal.Full) ⊎ (e.0 ≡ Refusal.NoRoom))) }
{
    here.spawn_broadcast_here(rt, alloc, job)
}

/// What broadcasts that wait can be made on: inside a run the worker value, and outside an `Outside`. It stands apart
/// from `Broadcasts`, since a worker that waits runs further jobs meanwhile.
pub trait Gathers<J: JobKind, R>: Stands {
    /// Whether the handle has as many levels as the worker value; outside none are wanted.
    ghost has_levels: { Self → R → Type 0 };

    /// Whether a broadcast is too deep.
    ghost too_deep: { Self → Type 0 };

    /// What a broadcast leaves: the same worker with as many levels and units, or the same pool.
    ghost same: { Self → Self → Type 0 };

    /// What a refused broadcast leaves.
    ghost kept: { Self → Self → Type 0 };

    /// Whether the acts between are those of a broadcast that waits.
    ghost gathered: { Self → Self → Type 0 };

    /// Whether the acts between are those of a refused broadcast.
    ghost not_gathered: { Self → Self → Type 0 };

    /// Broadcasts a job, and waits for its pieces.
    fn broadcast_here(
        &mut self,
        rt: &R,
        alloc: Global,
        job: J,
    ) -> Result<Vec<J::Output>, CallError<J::Fault, J>>
        requires levels { has_levels self.old rt.now }
        ensures ok { IfOk result (λ v. AllAnswered (J.answers_on J.answers (J.tag_of job)) (Self.workers self.old) v.items) }
        ensures fault { (f : _) → result ≡ Err (CallError.Fault f) → IsAllowed (J.answers_on J.answers (J.tag_of job)) (Self.workers self.old) (NoAnswers.Fault f) }
        ensures back { (r : _) (b : _) → result ≡ Err (CallError.Refused r b) → (b ≡ job) × kept self.old self.new }
        ensures deep { too_deep self.old → result ≡ Err (CallError.Refused Refusal.TooDeep job) }
        ensures shallow { (b : _) → result ≡ Err (CallError.Refused Refusal.TooDeep b) → too_deep self.old }
        ensures same { same self.old self.new }
        ensures path { CallMade (gathered self.old self.new) (gathered self.old self.new) (not_gathered self.old self.new) result };
}

impl<J: JobKind, R: Waits<J>> Gathers<J, R> for WorkerThread<J> {
    ghost has_levels = { λ w h. w.levels ≤ R.levels h };

    ghost too_deep = { λ w. w.levels ≡ 0 };

    ghost same = { λ v w. SameWorker v w };

    ghost kept = { λ v w. Kept v w };

    ghost gathered = { λ v w. Gathered v.shape v.id.index v.acts w.acts };

    ghost not_gathered = { λ v w. GatherBack v.shape v.id.index v.acts w.acts };

    fn broadcast_here(
        &mut self,
        rt: &R,
        alloc: Global,
        job: J,
    ) -> Result<Vec<J::Output>, CallError<J::Fault, J>> {
        self.broadcast(rt, alloc, job)
    }
}

impl<'p, J: JobKind, R: Wait> Gathers<J, R> for Outside<'p, J> {
    ghost has_levels = { λ o h. Unit {0} };

    ghost too_deep = { λ o. ⊥ };

    ghost same = { λ o p. p ≡ o };

    ghost kept = { λ o p. p ≡ o };

    ghost gathered = { λ o p. Unit {0} };

    ghost not_gathered = { λ o p. Unit {0} };

    fn broadcast_here(
        &mut self,
        rt: &R,
        alloc: Global,
        job: J,
    ) -> Result<Vec<J::Output>, CallError<J::Fault, J>> {
        self.broadcast(rt, alloc, job)
    }
}

/// Broadcasts a job, and waits for it: each worker of the pool runs a piece of it, by `Job::run_on`. The pool is the
/// worker's own inside a run, where the worker works meanwhile; any other thread blocks. Answers what the pieces
/// answered, by the indices of their workers; where pieces have faults the one of the lowest index. Refused `TooDeep`
/// exactly where a worker value has no level left, `Full`, `NoRoom`, `Ended`, with the very job back and no piece
/// queued. rayon-core finds out by itself where its caller stands, and its broadcast cannot be refused.
pub fn broadcast<J: JobKind, R, C: Gathers<J, R>>(
    rt: &R,
    alloc: Global,
    here: &mut C,
    job: J,
) -> Result<Vec<J::Output>, CallError<J::Fault, J>>
    requires levels { C.has_levels here.old rt.now }
    ensures ok { IfOk result (λ v. AllAnswered (J.answers_on J.answers (J.tag_of job)) (C.workers here.old) v.items) }
    ensures fault { (f : _) → result ≡ Err (CallError.Fault f) → IsAllowed (J.answers_on J.answers (J.tag_of job)) (C.workers here.old) (NoAnswers.Fault f) }
    ensures back { (r : _) (b : _) → result ≡ Err (CallError.Refused r b) → (b ≡ job) × C.kept here.old here.new }
    ensures deep { C.too_deep here.old → result ≡ Err (CallError.Refused Refusal.TooDeep job) }
    ensures shallow { (b : _) → result ≡ Err (CallError.Refused Refusal.TooDeep b) → C.too_deep here.old }
    ensures same { C.same here.old here.new }
    ensures path { CallMade (C.gathered here.old here.new) (C.gathered here.old here.new) (C.not_gathered here.old here.new) result }
{
    here.broadcast_here(rt, alloc, job)
}
