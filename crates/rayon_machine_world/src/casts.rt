//! The steps in which a broadcast begins.
ghost use Rattle.std.specs.Prelude.{◌≡◌, ◌+◌, OnErr, OnOk, IfErr};
ghost use Rattle.rayon_machine_runs.specs.Steps.{after_broadcast, after_cast, after_into_cast};
ghost use Rattle.rayon_machine_world.specs.Running.{IsMade, IsStepOf, after_open_cast, after_open_gather, world_of};

use crate::world::World;
use rayon_machine_parts::growth::{grow_calls, grow_jobs};
use rayon_machine_parts::writes::{write_call, write_job, write_pieces};
use rayon_machine_places::place::{Count, Gathering, Move, OpenCall, Party, Pieces, Place, Plan};
use rayon_machine_runs::error::StepError;
use rayon_machine_runs::state::{Call, Job};

impl World {
    /// A party makes a piece for each worker of a pool.
    pub(crate) fn cast(&mut self, party: Party, pool: usize) -> Result<(), StepError>
        ensures { IsStepOf (after_cast (world_of self.old) party pool ((world_of self.old).stack party)) result (world_of self.old) (world_of self.new) }
    {
        let frame = self.parties.top(&self.shapes, party);
        if !frame.can_call() || !self.shapes.has_pool(pool) {
            return Err(StepError::NotEnabled);
        }
        let pieces = Pieces {
            count: Count::OfPool(pool),
            pool,
            first: self.jobs,
            workers: self.shapes.pool(pool).workers,
        };
        self.open_cast(party, frame, pieces)
    }

    /// A party makes a piece for each worker of the pool of the scope of this number.
    pub(crate) fn cast_into(&mut self, party: Party, number: usize) -> Result<(), StepError>
        ensures { IsStepOf (after_into_cast (world_of self.old) party number ((world_of self.old).stack party)) result (world_of self.old) (world_of self.new) }
    {
        let Some(scope) = self.scope_of(number) else {
            return Err(StepError::NotEnabled);
        };
        let frame = self.parties.top(&self.shapes, party);
        if !frame.can_call() || !self.parties.holds(&self.shapes, party, scope.call) {
            return Err(StepError::NotEnabled);
        }
        let pieces = Pieces {
            count: Count::OfScope {
                call: scope.call,
                owner: scope.owner,
            },
            pool: scope.pool,
            first: self.jobs,
            workers: self.shapes.pool(scope.pool).workers,
        };
        self.open_cast(party, frame, pieces)
    }

    /// A broadcast begins.
    fn open_cast(&mut self, party: Party, frame: Place, pieces: Pieces) -> Result<(), StepError>
        requires { pieces.first ≡ self.old.jobs }
        ensures { IsMade (after_open_cast (world_of self.old) party frame pieces) result (world_of self.old) (world_of self.new) }
    {
        let workers = pieces.workers as u64;
        if self.jobs > u64::MAX - workers {
            return Err(StepError::NoRoom);
        }
        grow_jobs(&mut self.parts.jobs, (self.jobs + workers) as usize)?;
        self.parties.make_room(self.alloc, &self.shapes, party)?;
        write_pieces(&mut self.parts.jobs, party, pieces);
        self.parties.turn(
            party,
            Move::Enter {
                frame,
                place: Place::RaiseForAll(pieces),
            },
        );
        self.jobs += workers;
        Ok(())
    }

    /// A party broadcasts to a pool, and will wait.
    pub(crate) fn broadcast(&mut self, party: Party, pool: usize) -> Result<(), StepError>
        ensures { IsStepOf (after_broadcast (world_of self.old) party pool ((world_of self.old).stack party)) result (world_of self.old) (world_of self.new) }
    {
        let frame = self.parties.top(&self.shapes, party);
        if !frame.can_call() || !self.shapes.has_pool(pool) {
            return Err(StepError::NotEnabled);
        }
        let workers = self.shapes.pool(pool).workers;
        if self.jobs >= u64::MAX - workers as u64 {
            return Err(StepError::NoRoom);
        }
        let pieces = Pieces {
            count: Count::OfCast {
                call: self.calls,
                owner: party,
            },
            pool,
            first: self.jobs,
            workers,
        };
        let call = OpenCall {
            number: self.calls,
            pool,
            job: self.jobs + workers as u64,
        };
        self.open_gather(party, frame, Gathering { call, pieces })
    }

    /// A broadcast that waits begins.
    fn open_gather(
        &mut self,
        party: Party,
        frame: Place,
        gathering: Gathering,
    ) -> Result<(), StepError>
        requires first { gathering.pieces.first ≡ self.old.jobs }
        requires whole { gathering.call.job ≡ self.old.jobs + gathering.pieces.workers }
        requires number { gathering.call.number ≡ self.old.calls }
        ensures { IsMade (after_open_gather (world_of self.old) party frame gathering) result (world_of self.old) (world_of self.new) }
    {
        let call = gathering.call;
        if call.job == u64::MAX || self.calls == u64::MAX {
            return Err(StepError::NoRoom);
        }
        grow_jobs(&mut self.parts.jobs, call.job as usize)?;
        grow_calls(&mut self.parts.calls, self.calls as usize)?;
        self.parties.make_room(self.alloc, &self.shapes, party)?;
        write_pieces(&mut self.parts.jobs, party, gathering.pieces);
        write_job(
            &mut self.parts.jobs,
            call.job,
            Job::whole(party, call.pool, call.number),
        );
        write_call(
            &mut self.parts.calls,
            self.calls,
            Call::gathering(gathering.pieces.workers, call.job),
        );
        self.parties.turn(
            party,
            Move::Enter {
                frame,
                place: Place::RaiseCount(Plan::Gather(gathering)),
            },
        );
        self.jobs = call.job + 1;
        self.calls += 1;
        Ok(())
    }
}
