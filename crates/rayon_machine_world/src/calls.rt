//! The steps in which a call begins or a run ends.
ghost use Rattle.std.specs.Prelude.{◌≡◌, OnOk, false, IfErr, None, OnErr, Some};
ghost use Rattle.rayon_machine_runs.specs.Steps.{put, after_move, put_stack, after_close, after_end, after_end_pool, after_fifo, after_install, after_join, after_spawn};
ghost use Rattle.rayon_machine_world.specs.Running.{IsMade, IsStepOf, world_of, after_open_feed, after_open_join, after_open_job, after_open_call, after_own_fifo};
ghost use Rattle.rayon_machine_runs.specs.World.{at_job};
ghost use Rattle.rayon_machine_places.specs.declared.place.Move.TheVariants.{Enter};
ghost use Rattle.rayon_machine_places.specs.declared.place.Place.TheVariants.{LowerCount};
ghost use Rattle.rayon_machine_places.specs.declared.place.Count.TheVariants.{OfPool};
ghost use Rattle.rayon_machine_places.specs.declared.place.Share.TheVariants.{PoolValue};
ghost use Rattle.rayon_machine_places.specs.declared.place.Then.TheVariants.{Resume};
ghost use Rattle.rayon_machine_runs.specs.declared.state.Whereabouts.TheVariants.{Over};

use crate::world::World;
use rayon_machine_parts::commit::move_job;
use rayon_machine_parts::growth::{grow_calls, grow_jobs, grow_pools};
use rayon_machine_parts::writes::{release, write_call, write_job, write_jobs};
use rayon_machine_places::place::{
    Count, Ending, Feeding, JobKind, Move, OpenCall, Party, Place, Plan, Share, Then,
};
use rayon_machine_runs::error::StepError;
use rayon_machine_runs::state::{Call, Job, Whereabouts};

impl World {
    /// A call of one job begins.
    pub(crate) fn open_job(
        &mut self,
        party: Party,
        frame: Place,
        plan: Plan,
        job: Job,
    ) -> Result<(), StepError>
        ensures { IsMade (after_open_job (world_of self.old) party frame plan job) result (world_of self.old) (world_of self.new) }
    {
        if self.jobs == u64::MAX {
            return Err(StepError::NoRoom);
        }
        grow_jobs(&mut self.parts.jobs, self.jobs as usize)?;
        self.parties.make_room(self.alloc, &self.shapes, party)?;
        write_job(&mut self.parts.jobs, self.jobs, job);
        self.parties.turn(
            party,
            Move::Enter {
                frame,
                place: Place::RaiseCount(plan),
            },
        );
        self.jobs += 1;
        Ok(())
    }

    /// A call of one job begins that waits for it.
    fn open_call(
        &mut self,
        party: Party,
        frame: Place,
        plan: Plan,
        job: Job,
    ) -> Result<(), StepError>
        ensures { IsMade (after_open_call (world_of self.old) party frame plan job) result (world_of self.old) (world_of self.new) }
    {
        if self.jobs == u64::MAX || self.calls == u64::MAX {
            return Err(StepError::NoRoom);
        }
        grow_jobs(&mut self.parts.jobs, self.jobs as usize)?;
        grow_calls(&mut self.parts.calls, self.calls as usize)?;
        self.parties.make_room(self.alloc, &self.shapes, party)?;
        write_job(&mut self.parts.jobs, self.jobs, job);
        write_call(
            &mut self.parts.calls,
            self.calls,
            Call::waiting(None, self.jobs),
        );
        self.parties.turn(
            party,
            Move::Enter {
                frame,
                place: Place::RaiseCount(plan),
            },
        );
        self.jobs += 1;
        self.calls += 1;
        Ok(())
    }

    /// A party spawns a detached job.
    pub(crate) fn spawn(&mut self, party: Party, pool: usize) -> Result<(), StepError>
        ensures { IsStepOf (after_spawn (world_of self.old) party pool ((world_of self.old).stack party)) result (world_of self.old) (world_of self.new) }
    {
        let frame = self.parties.top(&self.shapes, party);
        if !frame.can_call() || !self.shapes.has_pool(pool) {
            return Err(StepError::NotEnabled);
        }
        let plan = Plan::Detach {
            pool,
            job: self.jobs,
        };
        self.open_job(
            party,
            frame,
            plan,
            Job::made(party, pool, JobKind::Detached(pool)),
        )
    }

    /// A party spawns a detached job in order: a worker of the pool adds it to its own FIFO list.
    pub(crate) fn fifo(&mut self, party: Party, pool: usize) -> Result<(), StepError>
        ensures { IsStepOf (after_fifo (world_of self.old) party pool ((world_of self.old).stack party)) result (world_of self.old) (world_of self.new) }
    {
        match party {
            Party::Worker { pool: own, index } if own == pool => self.feed(pool, index),
            _ => self.spawn(party, pool),
        }
    }

    /// A worker makes a job for its own FIFO list, and a token of it.
    fn feed(&mut self, pool: usize, index: usize) -> Result<(), StepError>
        ensures { IsStepOf (after_own_fifo (world_of self.old) pool index) result (world_of self.old) (world_of self.new) }
    {
        let party = Party::Worker { pool, index };
        let frame = self.parties.top(&self.shapes, party);
        if !frame.can_call() || !self.shapes.has_pool(pool) {
            return Err(StepError::NotEnabled);
        }
        if self.jobs == u64::MAX {
            return Err(StepError::NoRoom);
        }
        let plan = Plan::Feed(Feeding {
            count: Count::OfPool(pool),
            pool,
            job: self.jobs,
            token: self.jobs + 1,
        });
        let job = Job::made(party, pool, JobKind::Detached(pool));
        let token = Job::made(
            party,
            pool,
            JobKind::TokenOf {
                worker: index,
                scope: None,
            },
        );
        self.open_feed(party, frame, plan, job, token)
    }

    /// A call of a job and its token begins.
    pub(crate) fn open_feed(
        &mut self,
        party: Party,
        frame: Place,
        plan: Plan,
        job: Job,
        token: Job,
    ) -> Result<(), StepError>
        ensures { IsMade (after_open_feed (world_of self.old) party frame plan job token) result (world_of self.old) (world_of self.new) }
    {
        if self.jobs >= u64::MAX - 1 {
            return Err(StepError::NoRoom);
        }
        grow_jobs(&mut self.parts.jobs, (self.jobs + 1) as usize)?;
        self.parties.make_room(self.alloc, &self.shapes, party)?;
        write_jobs(&mut self.parts.jobs, self.jobs, job, token);
        self.parties.turn(
            party,
            Move::Enter {
                frame,
                place: Place::RaiseCount(plan),
            },
        );
        self.jobs += 2;
        Ok(())
    }

    /// A party installs a job.
    pub(crate) fn install(&mut self, party: Party, pool: usize) -> Result<(), StepError>
        ensures { IsStepOf (after_install (world_of self.old) party pool ((world_of self.old).stack party)) result (world_of self.old) (world_of self.new) }
    {
        let frame = self.parties.top(&self.shapes, party);
        if !frame.can_call() || !self.shapes.has_pool(pool) {
            return Err(StepError::NotEnabled);
        }
        if party.belongs_to(pool) {
            let plan = Plan::Here {
                pool,
                job: self.jobs,
            };
            return self.open_job(party, frame, plan, Job::made(party, pool, JobKind::Direct));
        }
        let call = OpenCall {
            number: self.calls,
            pool,
            job: self.jobs,
        };
        let kind = JobKind::Stored {
            call: self.calls,
            owner: party,
        };
        self.open_call(party, frame, Plan::Send(call), Job::made(party, pool, kind))
    }

    /// A worker joins two sides.
    pub(crate) fn join(&mut self, party: Party) -> Result<(), StepError>
        ensures { IsStepOf (after_join (world_of self.old) party ((world_of self.old).stack party)) result (world_of self.old) (world_of self.new) }
    {
        let frame = self.parties.top(&self.shapes, party);
        let Party::Worker { pool, .. } = party else {
            return Err(StepError::NotEnabled);
        };
        if !frame.can_call() {
            return Err(StepError::NotEnabled);
        }
        if self.jobs == u64::MAX {
            return Err(StepError::NoRoom);
        }
        let call = OpenCall {
            number: self.calls,
            pool,
            job: self.jobs + 1,
        };
        let kind = JobKind::Stored {
            call: self.calls,
            owner: party,
        };
        let first = Job::made(party, pool, JobKind::Direct);
        let second = Job::made(party, pool, kind);
        self.open_join(
            party,
            frame,
            Plan::Fork {
                call,
                first: self.jobs,
            },
            first,
            second,
        )
    }

    /// A join of two jobs begins.
    fn open_join(
        &mut self,
        party: Party,
        frame: Place,
        plan: Plan,
        first: Job,
        second: Job,
    ) -> Result<(), StepError>
        ensures { IsMade (after_open_join (world_of self.old) party frame plan first second) result (world_of self.old) (world_of self.new) }
    {
        if self.jobs >= u64::MAX - 1 || self.calls == u64::MAX {
            return Err(StepError::NoRoom);
        }
        grow_jobs(&mut self.parts.jobs, (self.jobs + 1) as usize)?;
        grow_calls(&mut self.parts.calls, self.calls as usize)?;
        self.parties.make_room(self.alloc, &self.shapes, party)?;
        write_jobs(&mut self.parts.jobs, self.jobs, first, second);
        write_call(
            &mut self.parts.calls,
            self.calls,
            Call::waiting(Some(self.jobs), self.jobs + 1),
        );
        self.parties.turn(
            party,
            Move::Enter {
                frame,
                place: Place::RaiseCount(plan),
            },
        );
        self.jobs += 2;
        self.calls += 1;
        Ok(())
    }

    /// A party gives up a pool's value.
    pub(crate) fn end_pool(&mut self, party: Party, pool: usize) -> Result<(), StepError>
        ensures { IsStepOf (after_end_pool (world_of self.old) party pool ((world_of self.old).stack party)) result (world_of self.old) (world_of self.new) }
    {
        let frame = self.parties.top(&self.shapes, party);
        let held = self.parts.numbers(pool).held;
        if !frame.can_call() || !self.shapes.has_pool(pool) || !held {
            return Err(StepError::NotEnabled);
        }
        self.let_go(party, pool, frame)
    }

    /// A pool's value is no longer held, and its share is to be given back.
    fn let_go(&mut self, party: Party, pool: usize, frame: Place) -> Result<(), StepError>
        ensures { IsMade (record (world_of self.old) {
          stack = put_stack ((world_of self.old).stack) party (after_move (Enter frame (LowerCount (OfPool pool) PoolValue Resume)) ((world_of self.old).stack party).below);
          pool = put ((world_of self.old).pool) pool (record ((world_of self.old).pool pool) { held = false });
        }) result (world_of self.old) (world_of self.new) }
    {
        grow_pools(self.alloc, &mut self.parts.pools, pool)?;
        self.parties.make_room(self.alloc, &self.shapes, party)?;
        release(&mut self.parts.pools, pool);
        let place = Place::LowerCount {
            count: Count::OfPool(pool),
            share: Share::PoolValue,
            then: Then::Resume,
        };
        self.parties.turn(party, Move::Enter { frame, place });
        Ok(())
    }

    /// The run on top of a party's stack ends.
    pub(crate) fn end(&mut self, party: Party, ending: Ending) -> Result<(), StepError>
        ensures { IsStepOf (after_end (world_of self.old) party ending ((world_of self.old).stack party) ((world_of self.old).stack party).top) result (world_of self.old) (world_of self.new) }
    {
        match self.parties.top(&self.shapes, party) {
            Place::Run { job, kind } => self.close(party, ending, job, kind),
            _ => Err(StepError::NotEnabled),
        }
    }

    /// A run is over, and what its end sets going begins.
    fn close(
        &mut self,
        party: Party,
        ending: Ending,
        job: u64,
        kind: JobKind,
    ) -> Result<(), StepError>
        ensures { IsMade (record (world_of self.old) {
          stack = put_stack ((world_of self.old).stack) party (after_close job kind ending ((world_of self.old).stack party).below);
          job = put ((world_of self.old).job) job (at_job ((world_of self.old).job job) (Over ending));
        }) result (world_of self.old) (world_of self.new) }
    {
        grow_jobs(&mut self.parts.jobs, job as usize)?;
        self.parties.make_room(self.alloc, &self.shapes, party)?;
        move_job(&mut self.parts.jobs, job, Whereabouts::Over(ending));
        self.parties.close(party, ending, job, kind);
        Ok(())
    }
}
