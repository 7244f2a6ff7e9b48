//! A worker's detached broadcasts: one piece for each worker of the pool, all queued at once, each with a unit of the
//! terminate count of its own, which the end of the piece's run gives back. They stand in the pool's word, and never
//! among those that the worker's calls hold.
ghost use Rattle.std.specs.Prelude.{◌≡◌, ◌⊎◌, ◌+◌, ◌<◌, ◌^◌, Bool, true, IfOk, IfErr, MatchResult};
ghost use Rattle.rayon_drive.specs.Traces.{Adds};
ghost use Rattle.rayon_machine_places.specs.Places.{call_all};
ghost use Rattle.rayon_machine_places.specs.declared.act.Act.TheVariants as acts;
ghost use Rattle.rayon_machine_places.specs.declared.act.Seen.TheVariants as saw;
ghost use Rattle.rayon_machine_places.specs.declared.place.Count.TheVariants.{OfPool};
ghost use Rattle.rayon_machine_places.specs.declared.place.Mark.TheVariants.{Queued};
ghost use Rattle.rayon_machine_places.specs.declared.place.Move.TheVariants.{Back, Mark, Stay};
ghost use Rattle.rayon_machine_places.specs.declared.place.Party.TheVariants.{Worker};
ghost use Rattle.rayon_machine_places.specs.declared.place.Place.TheVariants as at;
ghost use Rattle.rayon_performers.specs.Casts.{Casts, CastsNone, HandsBack};
ghost use Rattle.rayon_shared.specs.Casts.{AreTasksOf, cast_tasks, casting};
ghost use Rattle.rayon_performers.specs.Hands.{Does, Same, Told};
ghost use Rattle.rayon_shared.specs.AtHand.{answer};
ghost use Rattle.rayon_shared.specs.Marks.{GivesUnits, KeepsAll, TakesUnits};
ghost use Rattle.rayon_performers.specs.Paths.{WorkerGoes};
ghost use Rattle.rayon_shared.specs.Seats.{Resting};
ghost use Rattle.rayon_performers.specs.Stands.{EndsIn, Stands};

use crate::bench::Bench;
use rayon_broadcasts::SharedJob;
use rayon_jobs::JobKind;
use rayon_machine_places::act::{Act, Seen};
use rayon_machine_places::place::{Count, Latch, Pieces, Place, Settling, Then, Walk};
use rayon_tasks::{Task, pieces_of};
use rayon_words::Refusal;
use std::alloc::Global;
use std::sync::Wait;

impl<J: JobKind> Bench<J> {
    /// Broadcasts a detached job, whose pieces have names in a row of which this is the first: one Raise for all
    /// pieces, PushCast, and a call to each worker, which wakes it where it sleeps. All memory is taken before that.
    /// Refused `NoRoom` before its Raise or at the push, `Ended`, `Full`, with the very job back and nothing pushed;
    /// units of the terminate count that were taken are given back, and where they were the last the pool ends. The
    /// units that the worker's calls hold are as before.
    pub fn spawn_broadcast<R: Wait>(
        &mut self,
        rt: &R,
        alloc: Global,
        first: u64,
        job: J,
    ) -> Result<(), (Refusal, J)>
        requires row { first + self.old.shape.workers < 2 ^ 64 }
        requires rests { Resting self.old.chair }
        ensures path { MatchResult result
            (λ _. Casts (casting first self.old.shape.workers) self.old self.new)
            (λ _. CastsNone (casting first self.old.shape.workers) self.old self.new) }
        ensures back { IfErr result (λ e. e.1 ≡ job) }
        ensures left { Told self.old self.new }
        ensures unit { MatchResult result
            (λ _. TakesUnits self.old.shape.workers self.old.marks.count self.new.marks.count)
            (λ _. KeepsAll self.old.shape.workers self.old.marks.count self.new.marks.count) }
        ensures rests { Resting self.new.chair }
        ensures refused { IfErr result (λ e. (e.0 ≡ Refusal.Ended) ⊎ ((e.0 ≡ Refusal.Full) ⊎ (e.0 ≡ Refusal.NoRoom))) }
    {
        let (place, tasks) = match self.make_pieces(alloc, first) {
            Ok(made) => made,
            Err(refusal) => return Err((refusal, job)),
        };
        let pieces = Pieces {
            count: Count::OfPool(0),
            pool: 0,
            first,
            workers: self.shape.workers,
        };
        if let Err(refusal) = self.raise_all(rt, pieces) {
            return Err((refusal, job));
        }
        match self.push_cast(rt, pieces, tasks, &place, job) {
            Ok(_there) => {
                self.call_all(rt, pieces);
                Ok(())
            }
            Err(job) => {
                self.hand_back(rt, pieces);
                Err((Refusal::NoRoom, job))
            }
        }
    }

    // The place for the job of a detached broadcast, and its pieces, one for each worker, under names in a row of which
    // this is the first. Refused `NoRoom`.
    fn make_pieces(
        &mut self,
        alloc: Global,
        first: u64,
    ) -> Result<(SharedJob<J>, Vec<Task<J>>), Refusal>
        requires { first + self.old.shape.workers < 2 ^ 64 }
        ensures same { self.new ≡ self.old }
        ensures made { IfOk result (λ made. made.1.items ≡ cast_tasks (Worker 0 self.old.index) (casting first self.old.shape.workers)) }
        ensures refused { IfErr result (λ r. r ≡ Refusal.NoRoom) }
    {
        let ticket = self.ticket_of_detached(alloc, first)?;
        let place = SharedJob::new(alloc)?;
        let tasks = pieces_of(alloc, &place, &ticket, first, self.shape.workers)?;
        Ok((place, tasks))
    }

    // Takes a unit of the terminate count for each piece, all in one step, in the pool's own count. Refused `Ended`,
    // `Full`.
    #[tactic(auto, using(crate::proofs::ScopeCasts::units_raised, crate::proofs::ScopeCasts::units_missed))]
    fn raise_all<R: Wait>(&mut self, rt: &R, pieces: Pieces) -> Result<(), Refusal>
        requires { pieces.count ≡ OfPool 0 }
        ensures does { MatchResult result (λ _. Does (acts.RaiseAll pieces) saw.Done self.old self.new) (λ _. Does (acts.RaiseAll pieces) saw.Refused self.old self.new) }
        ensures left { Told self.old self.new }
        ensures adds { MatchResult result (λ _. Adds (acts.RaiseAll pieces) saw.Done self.old.trace self.new.trace) (λ _. Adds (acts.RaiseAll pieces) saw.Refused self.old.trace self.new.trace) }
        ensures refused { IfErr result (λ r. (r ≡ Refusal.Ended) ⊎ (r ≡ Refusal.Full)) }
    {
        let act = Act::RaiseAll(pieces);
        let units = pieces.workers as u64;
        match self
            .registry
            .raise_terminate_count(rt, &mut self.count, units)
        {
            Ok(()) => {
                self.add(act, Seen::Done);
                Ok(())
            }
            Err(refusal) => {
                self.add(act, Seen::Refused);
                Err(refusal)
            }
        }
    }

    // Puts the job into the place that the pieces share, and each piece into the list of its worker, all in one step.
    // The job is lent as it stands there, or comes back where nothing was pushed.
    pub(crate) fn push_cast<'p, R: Wait>(
        &mut self,
        rt: &R,
        pieces: Pieces,
        tasks: Vec<Task<J>>,
        place: &'p SharedJob<J>,
        job: J,
    ) -> Result<&'p J, J>
        requires { AreTasksOf (Worker 0 self.old.index) self.old.trace pieces tasks.items }
        ensures job { MatchResult result (λ there. there.now ≡ job) (λ back. back ≡ job) }
        ensures same { Same self.old self.new }
        ensures adds { MatchResult result (λ _. Adds (acts.PushCast pieces) saw.Done self.old.trace self.new.trace) (λ _. Adds (acts.PushCast pieces) saw.Refused self.old.trace self.new.trace) }
    {
        let act = Act::PushCast(pieces);
        match self.registry.casts().push_each(rt, tasks, place, job) {
            Ok(there) => {
                self.add(act, Seen::Done);
                Ok(there)
            }
            Err((_unpushed, job)) => {
                self.add(act, Seen::Refused);
                Err(job)
            }
        }
    }

    // Gives the units of all pieces back in one step. True exactly if they were the pool's last.
    #[tactic(auto, using(crate::proofs::ScopeCasts::units_lowered))]
    fn lower_all<R: Wait>(&mut self, rt: &R, pieces: Pieces) -> bool
        requires { pieces.count ≡ OfPool 0 }
        ensures does { Does (acts.LowerAll pieces) (answer result) self.old self.new }
        ensures left { Told self.old self.new }
        ensures adds { Adds (acts.LowerAll pieces) (answer result) self.old.trace self.new.trace }
    {
        let act = Act::LowerAll(pieces);
        let units = pieces.workers as u64;
        if self
            .registry
            .lower_terminate_count(rt, &mut self.count, units)
        {
            self.add(act, Seen::Yes);
            true
        } else {
            self.add(act, Seen::No);
            false
        }
    }

    // Calls each worker of the pool, from the first one upward, to the pieces that were queued.
    pub(crate) fn call_all<R: Wait>(&mut self, rt: &R, pieces: Pieces)
        requires { Resting self.old.chair }
        ensures path { WorkerGoes (Mark (call_all self.old.shape pieces) pieces Queued) self.old self.new Back }
        ensures same { Told self.old self.new }
        ensures count { self.new.marks.count ≡ self.old.marks.count }
    {
        let walk = Walk {
            pool: pieces.pool,
            owed: self.shape.workers as u64,
            worker: 0,
            then: Then::Called,
        };
        self.finish_at(rt, Place::LockToWake(walk));
    }

    // Gives the units of the pieces back, which were not queued, and where they were the pool's last sets the workers'
    // terminate latches.
    fn hand_back<R: Wait>(&mut self, rt: &R, pieces: Pieces)
        requires count { pieces.count ≡ OfPool 0 }
        requires rests { Resting self.old.chair }
        ensures path { HandsBack (Stay (at.LowerForAll pieces)) pieces self.old self.new }
        ensures same { Told self.old self.new }
        ensures units { (b : Bool) × GivesUnits pieces.workers b self.old.marks.count self.new.marks.count }
    {
        if self.lower_all(rt, pieces) {
            let settling = Settling {
                latch: Latch::Terminate,
                pool: 0,
                worker: 0,
                then: Then::Resume,
            };
            self.finish_at(rt, Place::SetLatch(settling));
        }
    }

    // Performs the program from this place on, where workers are woken and latches set, and the frame below goes on
    // after that.
    pub(crate) fn finish_at<R: Wait>(&mut self, rt: &R, place: Place)
        requires hands { Stands self.old (Stay place) }
        requires ends { EndsIn (Worker 0 self.old.index) Back self.old (Stay place) }
        ensures path { WorkerGoes (Stay place) self.old self.new Back }
        ensures same { Told self.old self.new }
        ensures count { self.new.marks.count ≡ self.old.marks.count }
    {
        self.drive(rt, place);
    }
}
