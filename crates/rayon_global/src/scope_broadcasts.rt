//! The broadcasts into a scope that are written alike inside a run and outside of it.
ghost use Rattle.rayon_machine_places.specs.declared.place.Party.TheVariants.{Worker};
ghost use Rattle.rayon_performers.specs.Casts.{CastInto};
ghost use Rattle.rayon_shared.specs.Casts.{cast_into};
ghost use Rattle.rayon_performers.specs.Scopes.{entry_of};
ghost use Rattle.rayon_registry.specs.Acts.{PiecesBack};
ghost use Rattle.rayon_registry.specs.Scopes.{piece_receipts};
ghost use Rattle.std.specs.Prelude.{◌≡◌, ◌⊎◌, ℕ, ◌++◌, IfOk, IfErr, true};

use crate::outside::Outside;
use crate::scopes::SpawnsInto;
use rayon_core::{JobKind, Refusal, Scope, Waits, WorkerThread};
use std::alloc::Global;
use std::sync::Wait;

/// What jobs are broadcast into a scope from: inside a run the worker value, and outside an `Outside`.
pub trait BroadcastsInto<J: JobKind, R>: SpawnsInto<J, R> {
    /// What a broadcast into this scope leaves, where the number of its first piece in the scope is this one.
    ghost cast_into: { Self → Self.Scope → ℕ → Self → Type 0 };

    /// What a refused broadcast leaves.
    ghost not_cast_into: { Self → Self.Scope → Self → Type 0 };

    /// Broadcasts a job into a scope.
    fn spawn_broadcast_into_here(
        &mut self,
        rt: &R,
        alloc: Global,
        scope: &mut Self::Scope,
        job: J,
    ) -> Result<u64, (Refusal, J)>
        ensures cast { IfOk result (λ n. cast_into self.old scope.old n self.new) }
        ensures receipts { IfOk result (λ n. Self.keeps scope.old ≡ true → Self.receipts scope.new ≡ Self.receipts scope.old ++ piece_receipts (J.tag_of job) n (Self.workers self.old) (Self.workers self.old)) }
        ensures scope { Self.same_scope scope.old scope.new }
        ensures back { IfErr result (λ e. (e.1 ≡ job) × (scope.new ≡ scope.old)) }
        ensures kept { IfErr result (λ _. not_cast_into self.old scope.old self.new) }
        ensures refused { IfErr result (λ e. (e.0 ≡ Refusal.Ended) ⊎ ((e.0 ≡ Refusal.Full) ⊎ (e.0 ≡ Refusal.NoRoom))) }
        ensures same { Self.same self.old self.new };
}

impl<J: JobKind, R: Waits<J>> BroadcastsInto<J, R> for WorkerThread<J> {
    ghost cast_into = { λ v s n w. (w.id.pool ≡ s.pool) × ((a : ℕ) × CastInto v.shape (Worker 0 v.id.index) (cast_into (entry_of s.call s.owner a) v.shape.workers) n v.acts w.acts) × (w ≡ record v { acts = w.acts }) };

    ghost not_cast_into = { λ v s w. PiecesBack v.shape (Worker 0 v.id.index) (λ a. cast_into (entry_of s.call s.owner a) v.shape.workers) v.acts w.acts × (w ≡ record v { acts = w.acts }) };

    fn spawn_broadcast_into_here(
        &mut self,
        rt: &R,
        alloc: Global,
        scope: &mut Scope<J>,
        job: J,
    ) -> Result<u64, (Refusal, J)> {
        scope.spawn_broadcast(rt, alloc, self, job)
    }
}

impl<'p, J: JobKind, R: Wait> BroadcastsInto<J, R> for Outside<'p, J> {
    ghost cast_into = { λ o s n p. (o.id ≡ s.pool) × (p ≡ o) };

    ghost not_cast_into = { λ o s p. p ≡ o };

    fn spawn_broadcast_into_here(
        &mut self,
        rt: &R,
        alloc: Global,
        scope: &mut Scope<J>,
        job: J,
    ) -> Result<u64, (Refusal, J)> {
        scope.inject_broadcast(rt, alloc, self, job)
    }
}

/// Broadcasts a job into a scope: each worker of the scope's pool runs a piece of it, by `Job::run_on`. The scope waits
/// for the pieces, and answers their outputs at numbers in a row, by the workers' indices, of which this answers the
/// first. Refused `Full`, `NoRoom`, `Ended`, with the very job back and no piece queued; `Ended` also where the scope
/// is of another pool. rayon-core finds out by itself where its caller stands, and answers no number.
pub fn spawn_broadcast_into<J: JobKind, R, C: BroadcastsInto<J, R>>(
    rt: &R,
    alloc: Global,
    here: &mut C,
    scope: &mut C::Scope,
    job: J,
) -> Result<u64, (Refusal, J)>
    ensures cast { IfOk result (λ n. C.cast_into here.old scope.old n here.new) }
    ensures receipts { IfOk result (λ n. C.keeps scope.old ≡ true → C.receipts scope.new ≡ C.receipts scope.old ++ piece_receipts (J.tag_of job) n (C.workers here.old) (C.workers here.old)) }
    ensures scope { C.same_scope scope.old scope.new }
    ensures back { IfErr result (λ e. (e.1 ≡ job) × (scope.new ≡ scope.old)) }
    ensures kept { IfErr result (λ _. C.not_cast_into here.old scope.old here.new) }
    ensures refused { IfErr result (λ e. (e.0 ≡ Refusal.Ended) ⊎ ((e.0 ≡ Refusal.Full) ⊎ (e.0 ≡ Refusal.NoRoom))) }
    ensures same { C.same here.old here.new }
{
    here.spawn_broadcast_into_here(rt, alloc, scope, job)
}
