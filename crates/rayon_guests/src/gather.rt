//! The broadcasts of an outside caller that wait: one piece for each worker, all queued at once, then each worker is
//! called, and then the caller blocks until all pieces have ended.
ghost use Rattle.std.specs.Prelude.{◌≡◌, ◌⊎◌, ◌<◌, ◌+◌, ◌^◌, None, Some, false, IfErr, IfSome, MatchResult};
ghost use Rattle.rayon_drive.specs.Traces.{Adds};
ghost use Rattle.rayon_machine_places.specs.declared.act.Act.TheVariants as acts;
ghost use Rattle.rayon_machine_places.specs.declared.act.Seen.TheVariants as saw;
ghost use Rattle.rayon_machine_places.specs.declared.place.Move.TheVariants.{Back, HandBack, Stay};
ghost use Rattle.rayon_machine_places.specs.declared.place.Party.TheVariants.{Caller};
ghost use Rattle.rayon_machine_places.specs.declared.place.Place.TheVariants as at;
ghost use Rattle.rayon_guests.specs.declared.load.Load.TheVariants.{Cast};
ghost use Rattle.rayon_guests.specs.Gathers.{gather_plan};
ghost use Rattle.rayon_guests.specs.Paths.{CallerGoes};
ghost use Rattle.rayon_guests.specs.Visiting.{Keeps};
ghost use Rattle.rayon_guests.specs.Visits.{CastsTo, IsCast, IsNewCast, IsTried, if_done};
ghost use Rattle.rayon_shared.specs.Casts.{AreTasksOf};

use crate::guest::Guest;
use crate::load::Load;
use crate::scope::open_call;
use rayon_books::Outcome;
use rayon_broadcasts::SharedJob;
use rayon_jobs::JobKind;
use rayon_machine_places::act::{Act, Seen};
use rayon_machine_places::place::{Count, Gathering, Move, Party, Pieces, Place, Plan};
use rayon_tasks::{Task, Ticket, pieces_of};
use rayon_words::Refusal;
use std::alloc::Global;
use std::sync::Wait;

impl<'a, J: JobKind> Guest<'a, J> {
    /// Broadcasts a job to all workers of the pool, in a call of this name, and waits. Each worker gets one piece, and
    /// `first` is the first of the pieces' names, which are in a row. The call takes a unit of the terminate count,
    /// makes its ticket, and then the place of the job and the pieces. All pieces are queued in one step, and each
    /// worker is called. Then the caller blocks until all pieces have ended, and the unit is given back. Answers what
    /// the broadcast's book gave.
    ///
    /// Refused `Ended`, `Full` at the unit, when none is taken. Refused `NoRoom` at the memory or at the push, when the
    /// unit is given back, and where it was the last each worker's terminate latch is set. The job comes back each
    /// time, and nothing was queued. rayon-core's broadcast refuses nothing.
    pub fn broadcast<R: Wait>(
        &mut self,
        rt: &R,
        alloc: Global,
        name: u64,
        first: u64,
        job: J,
    ) -> Result<Option<Outcome<J>>, (Refusal, J)>
        requires idle { (self.old.load ≡ None) × (self.old.holds ≡ false) }
        requires names { first + self.old.shape.workers < 2 ^ 64 }
        ensures path { MatchResult result
            (λ o. CallerGoes (Stay (at.RaiseCount (gather_plan name first self.old.shape.workers))) (record self.old { load = Some (Cast job) }) (record self.new { outcome = o }) Back)
            (λ e. CallerGoes (Stay (at.RaiseCount (gather_plan name first self.old.shape.workers))) (record self.old { load = Some (Cast job) }) (record self.new { load = Some (Cast e.1) }) (HandBack (gather_plan name first self.old.shape.workers))) }
        ensures back { IfErr result (λ e. e.1 ≡ job) }
        ensures refused { IfErr result (λ e. (e.0 ≡ Refusal.Ended) ⊎ (e.0 ≡ Refusal.Full) ⊎ (e.0 ≡ Refusal.NoRoom)) }
        ensures keeps { Keeps self.old self.new }
        ensures unit { (self.new.holds ≡ false) × (self.new.load ≡ None) }
    {
        let plan = self.gather_plan(name, first);
        self.load = Some(Load::Cast(job));
        self.alloc = Some(alloc);
        match self.drive(rt, plan, Place::RaiseCount(plan)) {
            Move::Back => Ok(self.outcome.take()),
            Move::HandBack(_) => match self.load.take() {
                Some(Load::Cast(job)) => Err((self.refusal, job)),
                _ => unreachable!(),
            },
            _ => unreachable!(),
        }
    }

    // The broadcast to the pool of the call of this name, of whose pieces' names this is the first.
    fn gather_plan(&self, name: u64, first: u64) -> Plan
        ensures { result ≡ gather_plan name first self.now.shape.workers }
    {
        Plan::Gather(Gathering {
            call: open_call(name),
            pieces: Pieces {
                count: Count::OfCast {
                    call: name,
                    owner: Party::Caller(0),
                },
                pool: 0,
                first,
                workers: self.shape.workers,
            },
        })
    }

    // Makes the ticket of a broadcast of this name to all workers.
    pub(crate) fn grow_cast(&mut self, alloc: Global, name: u64) -> Seen
        ensures same { self.new ≡ record self.old { call = self.new.call; first = if_done result None self.old.first } }
        ensures made { elim result [ saw.Done ↦ IsNewCast self.old.shape.workers name self.new.call | _ ↦ self.new.call ≡ self.old.call ] }
        ensures seen { IsTried result }
    {
        let Ok(call) = Ticket::of_callers_broadcast(alloc, 0, name, self.shape.workers) else {
            return Seen::Refused;
        };
        self.call = Some(call);
        self.first = None;
        Seen::Done
    }

    // Makes the pieces of the broadcast whose job is in hand, and queues them, and adds the entry of that. Where there
    // is no room the job stays in hand.
    pub(crate) fn push_cast<R: Wait>(&mut self, rt: &R, cast: Pieces) -> Seen
        requires load { IsCast self.old.load }
        requires row { cast.first + cast.workers < 2 ^ 64 }
        requires called { CastsTo cast self.old.call }
        ensures pushed { self.new ≡ record self.old { load = if_done result None self.old.load; trace = self.new.trace } }
        ensures added { Adds (acts.PushCast cast) result self.old.trace self.new.trace }
        ensures seen { IsTried result }
    {
        self.refusal = Refusal::NoRoom;
        let Some((place, pieces)) = self.pieces_of_call(cast) else {
            self.trace.add(Act::PushCast(cast), Seen::Refused);
            return Seen::Refused;
        };
        let Some(Load::Cast(job)) = self.load.take() else {
            unreachable!()
        };
        match self.push_all(rt, cast, pieces, &place, job) {
            Ok(_) => Seen::Done,
            Err(job) => {
                self.load = Some(Load::Cast(job));
                Seen::Refused
            }
        }
    }

    // An empty place, and these pieces over it, which have shares of the call's ticket. None where there is no room.
    #[tactic(auto, using(crate::proofs::Casts::are_shares))]
    fn pieces_of_call(&self, cast: Pieces) -> Option<(SharedJob<J>, Vec<Task<J>>)>
        requires row { cast.first + cast.workers < 2 ^ 64 }
        requires called { CastsTo cast self.now.call }
        ensures { IfSome result (λ m. AreTasksOf (Caller 0) self.now.trace cast m.1.items) }
    {
        let (alloc, call) = (self.alloc?, self.call.as_ref()?);
        let place = SharedJob::new(alloc).ok()?;
        let pieces = pieces_of(alloc, &place, call, cast.first, cast.workers).ok()?;
        Some((place, pieces))
    }
}
