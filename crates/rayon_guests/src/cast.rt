//! The broadcasts of an outside caller that wait for nothing: one piece for each worker, all queued at once, and then
//! each worker is called. What is done for all pieces in one step is done so for those of a scope too.
ghost use Rattle.std.specs.Prelude.{◌≡◌, ◌⊎◌, ◌<◌, ◌+◌, ◌^◌, None, false, IfOk, IfErr, MatchResult};
ghost use Rattle.rayon_machine_places.specs.declared.act.Act.TheVariants as acts;
ghost use Rattle.rayon_machine_places.specs.declared.act.Seen.TheVariants as saw;
ghost use Rattle.rayon_machine_places.specs.declared.place.Mark.TheVariants.{Queued};
ghost use Rattle.rayon_machine_places.specs.declared.place.Move.TheVariants.{Back, Mark, Stay};
ghost use Rattle.rayon_machine_places.specs.declared.place.Party.TheVariants.{Caller};
ghost use Rattle.rayon_machine_places.specs.declared.place.Place.TheVariants as at;
ghost use Rattle.rayon_machine_places.specs.Places.{call_all};
ghost use Rattle.rayon_shared.specs.Casts.{AreTasksOf, cast_tasks, casting};
ghost use Rattle.rayon_shared.specs.Marks.{KeepsAll, TakesUnits, scope_in};
ghost use Rattle.rayon_guests.specs.Casts.{Casts, CastsNone, HandsBack, Made, Same};
ghost use Rattle.rayon_guests.specs.Paths.{CallerGoes};
ghost use Rattle.rayon_guests.specs.Visiting.{WaitsHere};
ghost use Rattle.rayon_guests.specs.Visits.{HasCount, LowersAll, SharesNone};

use crate::guest::{ALL_BACK, Guest, NO_CALL};
use crate::scope::scope_of;
use rayon_broadcasts::SharedJob;
use rayon_drive::drive::Perform;
use rayon_jobs::JobKind;
use rayon_machine_places::act::{Act, Seen};
use rayon_machine_places::place::{Count, Move, Party, Pieces, Place, Then, Walk};
use rayon_tasks::{Task, Ticket, pieces_of};
use rayon_words::Refusal;
use std::alloc::Global;
use std::sync::Wait;

impl<'a, J: JobKind> Guest<'a, J> {
    /// Broadcasts a job to all workers of the pool, and waits for nothing: one piece for each worker, under names in a
    /// row of which this is the first. All memory is taken first. Then each piece has a unit of the terminate count, in
    /// one step, all pieces are queued in one step, and each worker is called. The units go with the pieces. Refused
    /// `NoRoom` before all that, when nothing was done, or at the push; `Ended`, `Full` at the units; with the job
    /// back and nothing queued. Units that were taken are given back, and where they were the last each worker's
    /// terminate latch is set.
    #[tactic(auto, using(crate::proofs::Casts::are_tasks))]
    pub fn spawn_broadcast<R: Wait>(
        &mut self,
        rt: &R,
        alloc: Global,
        first: u64,
        job: J,
    ) -> Result<(), (Refusal, J)>
        requires idle { (self.old.load ≡ None) × (self.old.holds ≡ false) }
        requires names { first + self.old.shape.workers < 2 ^ 64 }
        ensures path { MatchResult result
            (λ _. Casts (casting first self.old.shape.workers) self.old self.new)
            (λ _. CastsNone (casting first self.old.shape.workers) self.old self.new) }
        ensures units { MatchResult result
            (λ _. TakesUnits self.old.shape.workers self.old.marks.count self.new.marks.count)
            (λ _. KeepsAll self.old.shape.workers self.old.marks.count self.new.marks.count) }
        ensures back { IfErr result (λ e. e.1 ≡ job) }
        ensures refused { IfErr result (λ e. (e.0 ≡ Refusal.Ended) ⊎ (e.0 ≡ Refusal.Full) ⊎ (e.0 ≡ Refusal.NoRoom)) }
        ensures keeps { Same self.old self.new }
    {
        let cast = self.cast_from(first);
        let Ok(place) = SharedJob::new(alloc) else {
            return Err((Refusal::NoRoom, job));
        };
        let Ok(pieces) = detached_pieces(alloc, &place, cast) else {
            return Err((Refusal::NoRoom, job));
        };
        if let Err(refusal) = self.raise_all(rt, cast) {
            return Err((refusal, job));
        }
        match self.push_all(rt, cast, pieces, &place, job) {
            Ok(_) => {
                self.call_all(rt, cast);
                Ok(())
            }
            Err(job) => {
                self.give_all_back(rt, cast);
                Err((Refusal::NoRoom, job))
            }
        }
    }

    // The pieces of a broadcast to the pool, under names in a row of which this is the first.
    fn cast_from(&self, first: u64) -> Pieces
        ensures { result ≡ casting first self.now.shape.workers }
    {
        Pieces {
            count: Count::OfPool(0),
            pool: 0,
            first,
            workers: self.shape.workers,
        }
    }

    // Takes a share for each piece, in one step: of the pool's count, or of a scope's by a seat that is made for it.
    // Refused `Ended`, `Full`.
    pub(crate) fn raise_all<R: Wait>(&mut self, rt: &R, cast: Pieces) -> Result<(), Refusal>
        requires { HasCount cast.count self.old.call }
        ensures step { MatchResult result (λ _. Made (acts.RaiseAll cast) saw.Done self.old self.new) (λ _. Made (acts.RaiseAll cast) saw.Refused self.old self.new) }
        ensures left { self.new ≡ record self.old { marks = record { set = self.old.marks.set; count = self.new.marks.count }; tally = self.new.tally; trace = self.new.trace } }
        ensures refused { IfErr result (λ r. (r ≡ Refusal.Ended) ⊎ (r ≡ Refusal.Full)) }
    {
        let shares = cast.workers as u64;
        let raised = match cast.count {
            Count::OfPool(_) => {
                self.registry
                    .raise_terminate_count(rt, &mut self.count, shares)
            }
            Count::OfScope { .. } => {
                let count = scope_of(&self.call).count();
                let mut seat = count.guest_seat();
                let raised = count.raise(rt, &mut seat, shares);
                self.tally = Some(seat);
                raised
            }
            Count::OfCast { .. } => unreachable!(),
        };
        let seen = if raised.is_ok() {
            Seen::Done
        } else {
            Seen::Refused
        };
        self.trace.add(Act::RaiseAll(cast), seen);
        raised
    }

    // Puts the job into the place that the pieces share, and each piece last into its worker's list, in one step. Lends
    // the job as it stands there.
    pub(crate) fn push_all<'p, R: Wait>(
        &mut self,
        rt: &R,
        cast: Pieces,
        pieces: Vec<Task<J>>,
        place: &'p SharedJob<J>,
        job: J,
    ) -> Result<&'p J, J>
        requires load { self.old.load ≡ None }
        requires pieces { AreTasksOf (Caller 0) self.old.trace cast pieces.items }
        ensures step { MatchResult result (λ _. Made (acts.PushCast cast) saw.Done self.old self.new) (λ _. Made (acts.PushCast cast) saw.Refused self.old self.new) }
        ensures same { self.new ≡ record self.old { trace = self.new.trace } }
        ensures job { MatchResult result (λ there. there.now ≡ job) (λ back. back ≡ job) }
    {
        match self.registry.casts().push_each(rt, pieces, place, job) {
            Ok(there) => {
                self.trace.add(Act::PushCast(cast), Seen::Done);
                Ok(there)
            }
            Err((_, job)) => {
                self.trace.add(Act::PushCast(cast), Seen::Refused);
                Err(job)
            }
        }
    }

    // Gives the shares of all pieces back, in one step: of the pool's count, or of a scope's by a seat that is made for
    // it. True exactly if they were the last.
    pub(crate) fn lower_all<R: Wait>(&mut self, rt: &R, cast: Pieces) -> bool
        requires { HasCount cast.count self.old.call }
        ensures same { self.new ≡ record self.old { marks = record { set = self.old.marks.set; count = self.new.marks.count }; tally = self.new.tally } }
        ensures units { LowersAll cast.count cast.workers result self.old.marks.count self.new.marks.count }
        ensures shares { SharesNone cast.count cast.workers result (scope_in self.old.call) self.old.tally self.new.tally }
    {
        let shares = cast.workers as u64;
        match cast.count {
            Count::OfPool(_) => {
                self.registry
                    .lower_terminate_count(rt, &mut self.count, shares)
            }
            Count::OfScope { .. } => {
                let count = scope_of(&self.call).count();
                let mut seat = count.guest_seat();
                let were_last = count.lower(rt, &mut seat, shares);
                self.tally = Some(seat);
                were_last
            }
            Count::OfCast { .. } => unreachable!(),
        }
    }

    // Calls each worker, from the first one upward.
    pub(crate) fn call_all<R: Wait>(&mut self, rt: &R, cast: Pieces)
        requires idle { (self.old.load ≡ None) × (self.old.holds ≡ false) }
        requires pool { cast.pool ≡ 0 }
        requires all { cast.workers ≡ self.old.shape.workers }
        ensures path { CallerGoes (Mark (call_all self.old.shape cast) cast Queued) self.old self.new Back }
        ensures keeps { Same self.old self.new × (self.new.marks.count ≡ self.old.marks.count) }
    {
        let place = Place::LockToWake(Walk {
            pool: 0,
            owed: cast.workers as u64,
            worker: 0,
            then: Then::Called,
        });
        match self.drive(rt, NO_CALL, place) {
            Move::Back => {}
            _ => unreachable!(),
        }
    }

    // Gives the shares of all pieces back, which were not queued, and where they were the last of their count sets the
    // latches that wait for it.
    pub(crate) fn give_all_back<R: Wait>(&mut self, rt: &R, cast: Pieces)
        requires idle { (self.old.load ≡ None) × (self.old.holds ≡ false) }
        requires count { HasCount cast.count self.old.call × WaitsHere cast.count }
        ensures path { HandsBack (Stay (at.LowerForAll cast)) cast self.old self.new }
        ensures units { (b : _) × LowersAll cast.count cast.workers b self.old.marks.count self.new.marks.count }
        ensures keeps { Same self.old self.new }
    {
        match self.drive(rt, ALL_BACK, Place::LowerForAll(cast)) {
            Move::Back | Move::HandAllBack(_) => {}
            _ => unreachable!(),
        }
    }
}

// The pieces of an outside caller's broadcast that waits for nothing, of this job. Refused `NoRoom`.
fn detached_pieces<J: JobKind>(
    alloc: Global,
    place: &SharedJob<J>,
    cast: Pieces,
) -> Result<Vec<Task<J>>, Refusal>
    requires { cast.first + cast.workers < 2 ^ 64 }
    ensures made { IfOk result (λ pieces. pieces.items ≡ cast_tasks (Caller 0) cast) }
    ensures refused { IfErr result (λ r. r ≡ Refusal.NoRoom) }
{
    let ticket = Ticket::of_detached(alloc, Party::Caller(0), cast.first)?;
    pieces_of(alloc, place, &ticket, cast.first, cast.workers)
}
