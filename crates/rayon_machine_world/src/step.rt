//! One step of the running world.
ghost use Rattle.std.specs.Prelude.{◌≡◌, OnOk, IfErr, None, OnErr, Some};
ghost use Rattle.rayon_machine_world.specs.Running.{IsMade, IsStepOf, world_of, IsPerformed};
ghost use Rattle.rayon_machine_runs.specs.Steps.{with_stack, step as step_of, after_move, after_yield};
ghost use Rattle.rayon_machine_runs.specs.declared.event.Event.TheVariants.{From, Go, Miss, Refuse};
ghost use Rattle.rayon_machine_parts.specs.State.{stack_in, shape_of};

use crate::world::World;
use rayon_machine_parts::commit::{last_job, move_jobs, pieces_fit};
use rayon_machine_parts::deed::Deed;
use rayon_machine_places::act::Seen;
use rayon_machine_places::place::{Move, Party, Place};
use rayon_machine_runs::error::StepError;
use rayon_machine_runs::event::Event;

impl World {
    /// Makes one step: an event of one party. NotEnabled exactly where the event is not enabled in this world; NoRoom,
    /// of an event that is enabled, where memory was refused or a number would pass 2^64 - 1. Both leave the world as
    /// it was.
    pub fn step(&mut self, event: Event) -> Result<(), StepError>
        ensures { IsStepOf (step_of (world_of self.old) event) result (world_of self.old) (world_of self.new) }
    {
        match event {
            Event::Go(party) => self.go(party),
            Event::From { party, victim } => self.choose(party, victim),
            Event::Refuse(party) => self.refuse(party),
            Event::Miss(party) => self.miss(party),
            Event::End { party, ending } => self.end(party, ending),
            Event::Spawn { party, pool } => self.spawn(party, pool),
            Event::Fifo { party, pool } => self.fifo(party, pool),
            Event::Cast { party, pool } => self.cast(party, pool),
            Event::Install { party, pool } => self.install(party, pool),
            Event::Join(party) => self.join(party),
            Event::Scope { party, pool } => self.scope(party, pool),
            Event::IntoSpawn { party, scope } => self.spawn_into(party, scope),
            Event::IntoFifo { party, scope } => self.fifo_into(party, scope),
            Event::IntoCast { party, scope } => self.cast_into(party, scope),
            Event::Broadcast { party, pool } => self.broadcast(party, pool),
            Event::Yield(party) => self.give_way(party, Place::YieldPop),
            Event::YieldLocal(party) => self.give_way(party, Place::LocalPop),
            Event::EndPool { party, pool } => self.end_pool(party, pool),
        }
    }

    /// A party's next act.
    fn go(&mut self, party: Party) -> Result<(), StepError>
        ensures { IsStepOf (step_of (world_of self.old) (Go party)) result (world_of self.old) (world_of self.new) }
    {
        let place = self.parties.top(&self.shapes, party);
        let deed = match self.parts.deed(&self.shapes, party, place.act(party)) {
            Ok(deed) => deed,
            Err(error) => return Err(error),
        };
        let step = place.next(party, self.shapes.pool(deed.spot.pool), deed.seen);
        self.perform(party, deed, step)
    }

    /// A deed is done, and the party moves on.
    fn perform(&mut self, party: Party, deed: Deed, step: Move) -> Result<(), StepError>
        ensures ok { OnOk result (IsPerformed self.old self.new party deed step) }
        ensures no_room { IfErr result (λ e. e ≡ StepError.NoRoom) }
        ensures err { OnErr result (world_of self.new ≡ world_of self.old) }
    {
        if !pieces_fit(step) || !self.parts.can_begin(deed.spot.job, deed.after.job, step) {
            return Err(StepError::NoRoom);
        }
        self.parts
            .make_room(self.alloc, deed.spot, deed.act, last_job(step))?;
        self.parties.make_room(self.alloc, &self.shapes, party)?;
        self.parts.commit(deed, party);
        move_jobs(&mut self.parts.jobs, party, step);
        self.parties.turn(party, step);
        Ok(())
    }

    /// A party moves on, and nothing else is changed.
    fn turn(&mut self, party: Party, step: Move) -> Result<(), StepError>
        ensures { IsMade (with_stack (world_of self.old) party (after_move step (stack_in (shape_of self.old.shapes) self.old.parties party).below)) result (world_of self.old) (world_of self.new) }
    {
        self.parties.make_room(self.alloc, &self.shapes, party)?;
        self.parties.turn(party, step);
        Ok(())
    }
}

impl World {
    /// A party chooses a victim.
    fn choose(&mut self, party: Party, victim: usize) -> Result<(), StepError>
        ensures { IsStepOf (step_of (world_of self.old) (From party victim)) result (world_of self.old) (world_of self.new) }
    {
        let place = self.parties.top(&self.shapes, party);
        let shape = self.shapes.pool(party.pool());
        if !place.picks() || victim >= shape.workers {
            return Err(StepError::NotEnabled);
        }
        self.turn(party, place.next(party, shape, Seen::Start(victim)))
    }

    /// A party's next act is refused.
    fn refuse(&mut self, party: Party) -> Result<(), StepError>
        ensures { IsStepOf (step_of (world_of self.old) (Refuse party)) result (world_of self.old) (world_of self.new) }
    {
        let place = self.parties.top(&self.shapes, party);
        if !place.refusable() {
            return Err(StepError::NotEnabled);
        }
        let shape = self.shapes.pool(party.pool());
        self.turn(party, place.next(party, shape, Seen::Refused))
    }

    /// A party's steal misses.
    fn miss(&mut self, party: Party) -> Result<(), StepError>
        ensures { IsStepOf (step_of (world_of self.old) (Miss party)) result (world_of self.old) (world_of self.new) }
    {
        let place = self.parties.top(&self.shapes, party);
        let shape = self.shapes.pool(party.pool());
        let step = place.next(party, shape, Seen::Missing);
        let Party::Worker { pool, .. } = party else {
            return Err(StepError::NotEnabled);
        };
        let Some(victim) = place.victim() else {
            return Err(StepError::NotEnabled);
        };
        if !shape.order.takes_newest() || !self.parts.has_one(pool, victim) {
            return Err(StepError::NotEnabled);
        }
        self.turn(party, step)
    }

    /// A worker yields, beginning at this place.
    fn give_way(&mut self, party: Party, place: Place) -> Result<(), StepError>
        ensures { IsStepOf (after_yield (world_of self.old) party ((world_of self.old).stack party) place) result (world_of self.old) (world_of self.new) }
    {
        let frame = self.parties.top(&self.shapes, party);
        match party {
            Party::Caller(_) => Err(StepError::NotEnabled),
            Party::Worker { .. } => if frame.can_call() {
                self.turn(party, Move::Enter { frame, place })
            } else {
                Err(StepError::NotEnabled)
            },
        }
    }
}
