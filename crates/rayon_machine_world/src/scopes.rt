//! The steps in which a scope is opened, or a job is spawned into one.
ghost use Rattle.std.specs.Prelude.{◌≡◌, Some, OnErr, OnOk, [], ◌∷◌, ◌++◌, slice_get};
ghost use Rattle.rayon_machine_runs.specs.Steps.{after_enter, after_into, after_into_fifo, after_scope};
ghost use Rattle.rayon_machine_world.specs.Running.{IsMade, IsStepOf, after_open_scope, after_own_enter, world_of};

use crate::world::World;
use rayon_machine_parts::growth::{grow_calls, grow_jobs};
use rayon_machine_parts::writes::{write_call, write_job};
use rayon_machine_places::place::{
    Count, Entry, Feeding, JobKind, Move, OpenCall, Party, Place, Plan,
};
use rayon_machine_runs::error::StepError;
use rayon_machine_runs::state::{Call, Job, Scope};
use std::alloc::AllocError;

/// A scope is added last.
fn add_scope(scopes: &mut Vec<Scope>, scope: Scope) -> Result<(), AllocError>
    ensures added { OnOk result (scopes.new.items ≡ scopes.old.items ++ scope ∷ []) }
    ensures same { OnErr result (scopes.new.items ≡ scopes.old.items) }
{
    scopes.push(scope)?;
    Ok(())
}

impl World {
    /// A party opens a scope at a pool.
    pub(crate) fn scope(&mut self, party: Party, pool: usize) -> Result<(), StepError>
        ensures { IsStepOf (after_scope (world_of self.old) party pool ((world_of self.old).stack party)) result (world_of self.old) (world_of self.new) }
    {
        let frame = self.parties.top(&self.shapes, party);
        if !frame.can_call() || !self.shapes.has_pool(pool) {
            return Err(StepError::NotEnabled);
        }
        let call = OpenCall {
            number: self.calls,
            pool,
            job: self.jobs,
        };
        let kind = JobKind::BodyOf {
            call: self.calls,
            owner: party,
        };
        let scope = Scope {
            call: self.calls,
            pool,
            owner: party,
        };
        let body = Job::made(party, pool, kind);
        self.open_scope(party, frame, Plan::Open(call), body, scope)
    }

    /// A call that opens a scope begins.
    fn open_scope(
        &mut self,
        party: Party,
        frame: Place,
        plan: Plan,
        body: Job,
        scope: Scope,
    ) -> Result<(), StepError>
        ensures { IsMade (after_open_scope (world_of self.old) party frame plan body scope) result (world_of self.old) (world_of self.new) }
    {
        if self.jobs == u64::MAX || self.calls == u64::MAX {
            return Err(StepError::NoRoom);
        }
        grow_jobs(&mut self.parts.jobs, self.jobs as usize)?;
        grow_calls(&mut self.parts.calls, self.calls as usize)?;
        self.parties.make_room(self.alloc, &self.shapes, party)?;
        add_scope(&mut self.scopes, scope)?;
        write_job(&mut self.parts.jobs, self.jobs, body);
        write_call(
            &mut self.parts.calls,
            self.calls,
            Call::waiting(None, self.jobs),
        );
        self.parties.turn(
            party,
            Move::Enter {
                frame,
                place: Place::RaiseCount(plan),
            },
        );
        self.jobs += 1;
        self.calls += 1;
        Ok(())
    }

    /// The scope of this number.
    pub(crate) fn scope_of(&self, number: usize) -> Option<Scope>
        ensures { result ≡ slice_get (world_of self.now).scopes number }
    {
        match self.scopes.get(number) {
            Some(scope) => Some(*scope),
            None => None,
        }
    }

    /// A party spawns a job into the scope of this number.
    pub(crate) fn spawn_into(&mut self, party: Party, number: usize) -> Result<(), StepError>
        ensures { IsStepOf (after_into (world_of self.old) party number ((world_of self.old).stack party)) result (world_of self.old) (world_of self.new) }
    {
        let Some(scope) = self.scope_of(number) else {
            return Err(StepError::NotEnabled);
        };
        self.enter(party, scope)
    }

    /// A party spawns a job into the scope of this number in order: a worker of the scope's pool adds it to its own
    /// FIFO list.
    pub(crate) fn fifo_into(&mut self, party: Party, number: usize) -> Result<(), StepError>
        ensures { IsStepOf (after_into_fifo (world_of self.old) party number ((world_of self.old).stack party)) result (world_of self.old) (world_of self.new) }
    {
        let Some(scope) = self.scope_of(number) else {
            return Err(StepError::NotEnabled);
        };
        if party.belongs_to(scope.pool) {
            self.feed_into(scope, party.index())
        } else {
            self.enter(party, scope)
        }
    }

    /// A party spawns a job into a scope.
    fn enter(&mut self, party: Party, scope: Scope) -> Result<(), StepError>
        ensures { IsStepOf (after_enter (world_of self.old) party ((world_of self.old).stack party) (Some scope)) result (world_of self.old) (world_of self.new) }
    {
        let frame = self.parties.top(&self.shapes, party);
        if !frame.can_call() || !self.parties.holds(&self.shapes, party, scope.call) {
            return Err(StepError::NotEnabled);
        }
        let plan = Plan::Enter(Entry {
            call: scope.call,
            owner: scope.owner,
            pool: scope.pool,
            job: self.jobs,
        });
        let kind = JobKind::Scoped {
            call: scope.call,
            owner: scope.owner,
        };
        self.open_job(party, frame, plan, Job::made(party, scope.pool, kind))
    }

    /// A worker of a scope's pool makes a job of the scope for its own FIFO list, and a token of it.
    fn feed_into(&mut self, scope: Scope, index: usize) -> Result<(), StepError>
        ensures { IsStepOf (after_own_enter (world_of self.old) scope index) result (world_of self.old) (world_of self.new) }
    {
        let pool = scope.pool;
        let party = Party::Worker { pool, index };
        let frame = self.parties.top(&self.shapes, party);
        if !frame.can_call() || !self.parties.holds(&self.shapes, party, scope.call) {
            return Err(StepError::NotEnabled);
        }
        if self.jobs == u64::MAX {
            return Err(StepError::NoRoom);
        }
        let count = Count::OfScope {
            call: scope.call,
            owner: scope.owner,
        };
        let plan = Plan::Feed(Feeding {
            count,
            pool,
            job: self.jobs,
            token: self.jobs + 1,
        });
        let job = Job::made(party, pool, count.job_kind());
        let token = Job::made(
            party,
            pool,
            JobKind::TokenOf {
                worker: index,
                scope: count.book(),
            },
        );
        self.open_feed(party, frame, plan, job, token)
    }
}
