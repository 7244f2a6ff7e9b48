//! A worker's broadcasts that wait: one piece for each worker of the pool, all queued at once, and a count of those
//! that have not ended. The call has a unit of the terminate count, and its pieces have shares of that count of their
//! own. It and the broadcast's book are reached by the ticket at hand.
ghost use Rattle.std.specs.Prelude.{◌≡◌, ◌⊎◌, ◌+◌, ◌==◌, ◌<◌, ◌^◌, None, Some, IsSome, IfErr, IfOk, MatchResult};
ghost use Rattle.rayon_drive.specs.Traces.{Adds};
ghost use Rattle.rayon_machine_places.specs.Places.{gather_all};
ghost use Rattle.rayon_machine_places.specs.declared.act.Act.TheVariants as acts;
ghost use Rattle.rayon_machine_places.specs.declared.act.Seen.TheVariants as saw;
ghost use Rattle.rayon_machine_places.specs.declared.place.Count.TheVariants.{OfCast};
ghost use Rattle.rayon_machine_places.specs.declared.place.Mark.TheVariants.{Dealt};
ghost use Rattle.rayon_machine_places.specs.declared.place.Move.TheVariants.{Back, HandBack, Mark, Stay};
ghost use Rattle.rayon_machine_places.specs.declared.place.Party.TheVariants.{Worker};
ghost use Rattle.rayon_machine_places.specs.declared.place.Pieces.{Pieces as SomePieces};
ghost use Rattle.rayon_machine_places.specs.declared.place.Place.TheVariants as at;
ghost use Rattle.rayon_machine_places.specs.declared.place.Plan.TheVariants.{Gather};
ghost use Rattle.rayon_machine_places.specs.declared.place.Share.TheVariants.{OfJob};
ghost use Rattle.rayon_machine_places.specs.declared.place.Target.TheVariants.{Answer};
ghost use Rattle.rayon_machine_places.specs.declared.place.Then.TheVariants.{Resume};
ghost use Rattle.rayon_performers.specs.Broadcasts.{gathering};
ghost use Rattle.rayon_performers.specs.Calls.{own_call};
ghost use Rattle.rayon_performers.specs.Hands.{Does};
ghost use Rattle.rayon_shared.specs.AtHand.{HasResult, HasTicket, answer};
ghost use Rattle.rayon_shared.specs.Marks.{GivesPart, IsBroadcast, KeepsUnits, TakesUnit, broadcast_in, tally_in};
ghost use Rattle.rayon_performers.specs.Paths.{WorkerGoes};
ghost use Rattle.rayon_shared.specs.Seats.{Resting};
ghost use Rattle.rayon_performers.specs.Stands.{Stands};
ghost use Rattle.rayon_performers.specs.Waits.{SameSeat, Waited, units_after};
ghost use Rattle.rayon_tasks.specs.Pieces.{pieces_for};
ghost use Rattle.rayon_tasks.specs.Tickets.{IsBroadcastOf};

use crate::bench::Bench;
use rayon_atomics::count::CountSeat;
use rayon_broadcasts::SharedJob;
use rayon_jobs::{Done, JobKind};
use rayon_machine_places::act::{Act, Seen};
use rayon_machine_places::place::{
    Count, Ending, Gathering, Move, OpenCall, Party, Pieces, Place, Plan, Share, Then, Walk,
};
use rayon_tasks::{Call, CallCore, Task, pieces_of};
use rayon_words::Refusal;
use std::alloc::Global;
use std::sync::Wait;

// The call of a broadcast that waits, its pieces by the workers' indices, and the place for the job that they share.
struct Grown<J: JobKind> {
    call: Call<J>,
    tasks: Vec<Task<J>>,
    place: SharedJob<J>,
}

impl<J: JobKind> Bench<J> {
    /// Broadcasts a job under this name, whose pieces have names in a row of which `first` is the first: Raise, Grow of
    /// its call, which takes all memory, and the push of a piece for each worker, in one step. Answers the call, which
    /// has to call the workers then (`call_pieces`). Refused `Ended`, `Full`, `NoRoom`, with the very job back, nothing
    /// pushed, and the unit of the terminate count given back.
    pub fn open_broadcast<R: Wait>(
        &mut self,
        rt: &R,
        alloc: Global,
        name: u64,
        first: u64,
        job: J,
    ) -> Result<Call<J>, (Refusal, J)>
        requires row { first + self.old.shape.workers < 2 ^ 64 }
        requires rests { Resting self.old.chair }
        ensures path { MatchResult result
            (λ _. WorkerGoes (Stay (at.RaiseCount (Gather (gathering self.old.index name first self.old.shape.workers)))) self.old self.new (Mark (gather_all self.old.shape (own_call name)) (gathering self.old.index name first self.old.shape.workers).pieces Dealt))
            (λ _. WorkerGoes (Stay (at.RaiseCount (Gather (gathering self.old.index name first self.old.shape.workers)))) self.old self.new (HandBack (Gather (gathering self.old.index name first self.old.shape.workers)))) }
        ensures ticket { IfOk result (λ c. IsBroadcastOf (Worker 0 self.old.index) name self.old.shape.workers c.ticket) }
        ensures back { IfErr result (λ e. e.1 ≡ job) }
        ensures left { MatchResult result
            (λ _. self.new ≡ record self.old { holds = self.old.holds + 1; marks = self.new.marks; trace = self.new.trace })
            (λ _. self.new ≡ record self.old { marks = self.new.marks; trace = self.new.trace }) }
        ensures unit { MatchResult result (λ _. TakesUnit (self.old.holds == 0) self.old.marks.count self.new.marks.count) (λ _. KeepsUnits self.old.marks.count self.new.marks.count) }
        ensures rests { Resting self.new.chair }
        ensures refused { IfErr result (λ e. (e.0 ≡ Refusal.Ended) ⊎ ((e.0 ≡ Refusal.Full) ⊎ (e.0 ≡ Refusal.NoRoom))) }
    {
        let gathering = self.gathering(name, first);
        if let Err(refusal) = self.raise(rt, name) {
            return Err((refusal, job));
        }
        let Grown { call, tasks, place } = match self.grow_broadcast(alloc, name, first) {
            Ok(grown) => grown,
            Err(refusal) => {
                self.lower_then(rt, name, Then::GiveBack(Plan::Gather(gathering)));
                return Err((refusal, job));
            }
        };
        match self.push_cast(rt, gathering.pieces, tasks, &place, job) {
            Ok(_there) => Ok(call),
            Err(job) => {
                self.lower_then(rt, name, Then::GiveBack(Plan::Gather(gathering)));
                Err((Refusal::NoRoom, job))
            }
        }
    }

    // The broadcast under this name, whose pieces have names in a row of which `first` is the first.
    fn gathering(&self, name: u64, first: u64) -> Gathering
        ensures { result ≡ gathering self.now.index name first self.now.shape.workers }
    {
        let call = OpenCall {
            number: name,
            pool: 0,
            job: name,
        };
        let owner = self.party();
        let pieces = Pieces {
            count: Count::OfCast { call: name, owner },
            pool: 0,
            first,
            workers: self.shape.workers,
        };
        Gathering { call, pieces }
    }

    // Makes what such a broadcast needs. Refused `NoRoom`.
    fn grow_broadcast(&mut self, alloc: Global, name: u64, first: u64) -> Result<Grown<J>, Refusal>
        requires { first + self.old.shape.workers < 2 ^ 64 }
        ensures same { self.new ≡ record self.old { trace = self.new.trace } }
        ensures adds { MatchResult result (λ _. Adds (acts.Grow name) saw.Done self.old.trace self.new.trace) (λ _. Adds (acts.Grow name) saw.Refused self.old.trace self.new.trace) }
        ensures grown { IfOk result (λ g. IsBroadcastOf (Worker 0 self.old.index) name self.old.shape.workers g.call.ticket × (g.tasks.items ≡ pieces_for g.call.ticket first self.old.shape.workers)) }
        ensures refused { IfErr result (λ r. r ≡ Refusal.NoRoom) }
    {
        match self.make_broadcast(alloc, name, first) {
            Ok(grown) => {
                self.add(Act::Grow(name), Seen::Done);
                Ok(grown)
            }
            Err(refusal) => {
                self.add(Act::Grow(name), Seen::Refused);
                Err(refusal)
            }
        }
    }

    // What such a broadcast needs. Refused `NoRoom`.
    fn make_broadcast(&self, alloc: Global, name: u64, first: u64) -> Result<Grown<J>, Refusal>
        requires { first + self.now.shape.workers < 2 ^ 64 }
        ensures grown { IfOk result (λ g. IsBroadcastOf (Worker 0 self.now.index) name self.now.shape.workers g.call.ticket × (g.tasks.items ≡ pieces_for g.call.ticket first self.now.shape.workers)) }
        ensures refused { IfErr result (λ r. r ≡ Refusal.NoRoom) }
    {
        let workers = self.shape.workers;
        let call = Call::of_broadcast(alloc, 0, self.index, name, workers)?;
        let place = SharedJob::new(alloc)?;
        let tasks = pieces_of(alloc, &place, &call.ticket, first, workers)?;
        Ok(Grown { call, tasks, place })
    }

    /// Calls each worker to the pieces that were dealt of the broadcast of this call, and waits for them, and works
    /// meanwhile: as far as a task that it has found, or to the end, when what the pieces answered is at hand.
    pub fn call_pieces<R: Wait>(&mut self, rt: &R, call: OpenCall) -> Move
        requires ticket { HasTicket self.old.call (Some call.number) }
        requires rests { Resting self.old.chair }
        ensures path { (c : SomePieces) → WorkerGoes (Mark (gather_all self.old.shape call) c Dealt) self.old self.new result }
        ensures stands { Stands self.new result }
        ensures rests { Resting self.new.chair }
        ensures ends { Waited (Answer call None) result }
        ensures units { self.new.holds ≡ units_after result self.old.holds }
        ensures seat { SameSeat self.old self.new }
    {
        let walk = Walk {
            pool: call.pool,
            owed: self.shape.workers as u64,
            worker: 0,
            then: Then::Gathers(call),
        };
        self.drive(rt, Place::LockToWake(walk))
    }

    // The end of the run of a piece of this name, of a broadcast that waits: its result goes into the broadcast's book,
    // and its share of the broadcast's count is given back.
    pub(crate) fn end_piece<R: Wait>(
        &mut self,
        rt: &R,
        call: u64,
        owner: Party,
        name: u64,
        ending: Ending,
    )
        requires piece { IsBroadcast (broadcast_in self.old.reply) call }
        requires done { HasResult self.old.done (Some ending) }
        requires rests { Resting self.old.chair }
        ensures path { WorkerGoes (Stay (at.StorePiece call owner name ending)) self.old self.new Back }
        ensures same { self.new ≡ record self.old { done = None; tally = self.new.tally; marks = self.new.marks; trace = self.new.trace } }
        ensures count { self.new.marks.count ≡ self.old.marks.count }
        ensures rests { Resting self.new.chair }
    {
        self.store_piece(rt, call, name, ending);
        self.lower_broadcast(rt, call, owner, name);
    }

    // Puts the result at hand into the book of the broadcast that the ticket to answer is of, at the index of its
    // piece.
    fn store_piece<R: Wait>(&mut self, rt: &R, call: u64, name: u64, ending: Ending)
        requires piece { IsBroadcast (broadcast_in self.old.reply) call }
        ensures does { Does (acts.StorePiece call name ending) saw.Done self.old self.new }
        ensures adds { Adds (acts.StorePiece call name ending) saw.Done self.old.trace self.new.trace }
    {
        if let (Some(reply), Some(done)) = (&self.reply, self.done.take()) {
            if let Some(core) = reply.broadcast() {
                keep(rt, core, done);
            }
        }
        let act = Act::StorePiece {
            call,
            job: name,
            ending,
        };
        self.add(act, Seen::Done);
    }

    // Gives back the share of the piece of this name, and where it was the last sets the latch of the broadcast's call.
    fn lower_broadcast<R: Wait>(&mut self, rt: &R, call: u64, owner: Party, name: u64)
        requires piece { IsBroadcast (broadcast_in self.old.reply) call }
        requires rests { Resting self.old.chair }
        ensures path { WorkerGoes (Stay (at.LowerCount (OfCast call owner) (OfJob name) Resume)) self.old self.new Back }
        ensures same { self.new ≡ record self.old { tally = self.new.tally; marks = self.new.marks; trace = self.new.trace } }
        ensures count { self.new.marks.count ≡ self.old.marks.count }
        ensures rests { Resting self.new.chair }
    {
        let shape = self.shape;
        let index = self.index;
        if self.lower_part(rt, call, owner, name) {
            let place = Place::LowerCount {
                count: Count::OfCast { call, owner },
                share: Share::OfJob(name),
                then: Then::Resume,
            };
            self.finish_from(rt, shape, index, place, Seen::Yes, Then::Resume);
        }
    }

    // Gives that share back, by a seat that is made for it. True exactly if it was the last.
    fn lower_part<R: Wait>(&mut self, rt: &R, call: u64, owner: Party, name: u64) -> bool
        requires { IsBroadcast (broadcast_in self.old.reply) call }
        ensures does { Does (acts.Lower (OfCast call owner) (OfJob name)) (answer result) self.old self.new }
        ensures adds { Adds (acts.Lower (OfCast call owner) (OfJob name)) (answer result) self.old.trace self.new.trace }
        ensures left { self.new ≡ record self.old { tally = self.new.tally; trace = self.new.trace } }
    {
        let (was_last, seat) = self.part_given(rt);
        self.tally = Some(seat);
        let seen = if was_last { Seen::Yes } else { Seen::No };
        let count = Count::OfCast { call, owner };
        let share = Share::OfJob(name);
        self.add(Act::Lower { count, share }, seen);
        was_last
    }

    // One share of the broadcast's count fewer, and the seat that gave it back. True exactly if it was the last.
    fn part_given<R: Wait>(&self, rt: &R) -> (bool, CountSeat)
        requires { IsSome (broadcast_in self.now.reply) }
        ensures { GivesPart (broadcast_in self.now.reply) result.0 (tally_in (Some result.1)) }
    {
        let count = self.broadcast_at_hand().count();
        let mut seat = count.guest_seat();
        let was_last = count.set(rt, &mut seat);
        (was_last, seat)
    }

    // The broadcast that the ticket to answer is of.
    fn broadcast_at_hand(&self) -> &CallCore<J>
        requires { IsSome (broadcast_in self.now.reply) }
        ensures { Some result.now ≡ broadcast_in self.now.reply }
    {
        let Some(reply) = &self.reply else {
            unreachable!()
        };
        let Some(core) = reply.broadcast() else {
            unreachable!()
        };
        core
    }
}

// Puts what a piece answered into the broadcast's book, at the index of the worker that ran it. What the book does not
// keep is let go once the book is left.
fn keep<J: JobKind, R: Wait>(rt: &R, core: &CallCore<J>, done: Done<J>) {
    if let Some((index, _workers)) = done.place() {
        let unkept = core.book().with(rt, |book| book.store_piece(index, done));
        drop(unkept);
    }
}
