//! A worker's broadcasts into a scope: one piece for each worker, all queued at once, each with a share of the scope's
//! count and a number of the scope's book. The scope is reached by the ticket that is to answer.
ghost use Rattle.std.specs.Prelude.{◌≡◌, ◌⊎◌, ◌+◌, ◌<◌, ◌≤◌, ◌^◌, [], Some, IsSome, IfErr, IfOk, MatchResult, vec_capacity};
ghost use Rattle.rayon_books.specs.Books.{opened};
ghost use Rattle.rayon_drive.specs.Traces.{Adds};
ghost use Rattle.rayon_machine_places.specs.Places.{call_all, ends_count};
ghost use Rattle.rayon_machine_places.specs.declared.act.Act.TheVariants as acts;
ghost use Rattle.rayon_machine_places.specs.declared.act.Seen.TheVariants as saw;
ghost use Rattle.rayon_machine_places.specs.declared.place.Mark.TheVariants.{Counted, Queued};
ghost use Rattle.rayon_machine_places.specs.declared.place.Move.TheVariants.{Mark, Stay};
ghost use Rattle.rayon_machine_places.specs.declared.place.Place.TheVariants as at;
ghost use Rattle.rayon_performers.specs.Casts.{CastsInto, CastsNone, GoesNumbered, HandsBack, StayUnnumbered};
ghost use Rattle.rayon_shared.specs.Casts.{JustNumbered, cast_into};
ghost use Rattle.rayon_performers.specs.Hands.{Does, Same};
ghost use Rattle.rayon_shared.specs.AtHand.{answer};
ghost use Rattle.rayon_shared.specs.Marks.{GivesShares, IsCountOf, IsScope, MissesShare, TakesShares, scope_in, tally_in};
ghost use Rattle.rayon_performers.specs.Scopes.{EntersForAll, EntersForNone};
ghost use Rattle.rayon_shared.specs.Seats.{Resting};

use crate::bench::Bench;
use rayon_atomics::count::CountSeat;
use rayon_books::ScopeBook;
use rayon_broadcasts::SharedJob;
use rayon_jobs::JobKind;
use rayon_machine_places::act::{Act, Seen};
use rayon_machine_places::place::{Count, Entry, Latch, Party, Pieces, Place, Settling, Then};
use rayon_shared::numbered_pieces;
use rayon_tasks::{Task, Ticket};
use rayon_words::Refusal;
use std::alloc::Global;
use std::sync::Wait;

impl<J: JobKind> Bench<J> {
    /// Broadcasts a job into the scope of this entry, which the ticket handed in is of. The pieces have names in a row
    /// of which the entry's is the first: one Raise of the scope's count for all pieces, Slot for all, PushCast, and a
    /// call to each worker, which wakes it where it sleeps. The scope's book is held from Slot to the push, and the
    /// memory for the pieces is taken before the Raise. Answers the first piece's number in the book, and the others
    /// follow by the workers' indices; and lends the job as it stands in the place that the pieces share. Refused
    /// `NoRoom` before its Raise, at the numbers or at the push, `Full` also for want of numbers, `Ended`, with the
    /// very job back, nothing pushed and no number opened; shares of the count that were taken are given back. The
    /// ticket stands for the one to answer meanwhile.
    pub fn enter_for_all<'p, R: Wait>(
        &mut self,
        rt: &R,
        alloc: Global,
        scope: &mut Option<Ticket<J>>,
        entry: Entry,
        place: &'p SharedJob<J>,
        job: J,
    ) -> Result<(u64, &'p J), (Refusal, J)>
        requires row { entry.job + self.old.shape.workers < 2 ^ 64 }
        requires scope { IsScope (scope_in scope.old) entry.call }
        requires rests { Resting self.old.chair }
        ensures path { MatchResult result
            (λ r. EntersForAll scope.old entry self.old.shape.workers r.0 self.old self.new)
            (λ _. EntersForNone scope.old entry self.old.shape.workers self.old self.new) }
        ensures job { MatchResult result (λ r. r.1.now ≡ job) (λ e. e.1 ≡ job) }
        ensures numbers { IfOk result (λ r. r.0 + self.old.shape.workers ≤ 2 ^ 64) }
        ensures left { self.new ≡ record self.old { tally = self.new.tally; marks = self.new.marks; trace = self.new.trace } }
        ensures count { self.new.marks.count ≡ self.old.marks.count }
        ensures scope { scope.new ≡ scope.old }
        ensures rests { Resting self.new.chair }
        ensures refused { IfErr result (λ e. (e.0 ≡ Refusal.Ended) ⊎ ((e.0 ≡ Refusal.Full) ⊎ (e.0 ≡ Refusal.NoRoom))) }
    {
        self.exchange_reply(scope);
        let entered = self.cast_answering(rt, alloc, entry, place, job);
        self.exchange_reply(scope);
        entered
    }

    // Broadcasts a job into the scope that the ticket to answer is of.
    fn cast_answering<'p, R: Wait>(
        &mut self,
        rt: &R,
        alloc: Global,
        entry: Entry,
        place: &'p SharedJob<J>,
        job: J,
    ) -> Result<(u64, &'p J), (Refusal, J)>
        requires row { entry.job + self.old.shape.workers < 2 ^ 64 }
        requires scope { IsScope (scope_in self.old.reply) entry.call }
        requires rests { Resting self.old.chair }
        ensures path { MatchResult result
            (λ r. CastsInto (cast_into entry self.old.shape.workers) r.0 self.old self.new)
            (λ _. CastsNone (cast_into entry self.old.shape.workers) self.old self.new) }
        ensures job { MatchResult result (λ r. r.1.now ≡ job) (λ e. e.1 ≡ job) }
        ensures numbers { IfOk result (λ r. r.0 + self.old.shape.workers ≤ 2 ^ 64) }
        ensures left { self.new ≡ record self.old { tally = self.new.tally; marks = self.new.marks; trace = self.new.trace } }
        ensures count { self.new.marks.count ≡ self.old.marks.count }
        ensures rests { Resting self.new.chair }
        ensures refused { IfErr result (λ e. (e.0 ≡ Refusal.Ended) ⊎ ((e.0 ≡ Refusal.Full) ⊎ (e.0 ≡ Refusal.NoRoom))) }
    {
        let ticket = match self.share_of_reply(entry.job) {
            Ok(ticket) => ticket,
            Err(refusal) => return Err((refusal, job)),
        };
        let Ok(ready) = Vec::with_capacity(alloc, self.shape.workers) else {
            return Err((Refusal::NoRoom, job));
        };
        let pieces = Pieces {
            count: Count::OfScope {
                call: entry.call,
                owner: entry.owner,
            },
            pool: 0,
            first: entry.job,
            workers: self.shape.workers,
        };
        if let Err(refusal) = self.raise_shares(rt, pieces) {
            return Err((refusal, job));
        }
        match self.number_all(rt, pieces, &ticket, ready, place, job) {
            Ok(numbered) => {
                self.call_all(rt, pieces);
                Ok(numbered)
            }
            Err(refused) => {
                self.hand_shares_back(rt, pieces);
                Err(refused)
            }
        }
    }

    // Takes a share of the scope's count for each piece, all in one step, by a seat that is made for it. Refused
    // `Ended`, `Full`.
    #[tactic(auto, using(crate::proofs::ScopeCasts::shares_raised, crate::proofs::ScopeCasts::shares_missed, rayon_shared::proofs::Shares::scope_some))]
    fn raise_shares<R: Wait>(&mut self, rt: &R, pieces: Pieces) -> Result<(), Refusal>
        requires { IsCountOf (scope_in self.old.reply) pieces.count }
        ensures does { MatchResult result (λ _. Does (acts.RaiseAll pieces) saw.Done self.old self.new) (λ _. Does (acts.RaiseAll pieces) saw.Refused self.old self.new) }
        ensures adds { MatchResult result (λ _. Adds (acts.RaiseAll pieces) saw.Done self.old.trace self.new.trace) (λ _. Adds (acts.RaiseAll pieces) saw.Refused self.old.trace self.new.trace) }
        ensures left { self.new ≡ record self.old { tally = self.new.tally; trace = self.new.trace } }
        ensures refused { IfErr result (λ r. (r ≡ Refusal.Ended) ⊎ (r ≡ Refusal.Full)) }
    {
        let (raised, seat) = self.shares_taken(rt, pieces.workers as u64);
        self.tally = Some(seat);
        match raised {
            Ok(()) => {
                self.add(Act::RaiseAll(pieces), Seen::Done);
                Ok(())
            }
            Err(refusal) => {
                self.add(Act::RaiseAll(pieces), Seen::Refused);
                Err(refusal)
            }
        }
    }

    // So many shares more of the scope's count, and the seat that took them.
    fn shares_taken<R: Wait>(&self, rt: &R, shares: u64) -> (Result<(), Refusal>, CountSeat)
        requires { IsSome (scope_in self.now.reply) }
        ensures taken { MatchResult result.0 (λ _. TakesShares shares (scope_in self.now.reply) (tally_in (Some result.1))) (λ _. MissesShare (scope_in self.now.reply) (tally_in (Some result.1))) }
        ensures refused { IfErr result.0 (λ r. (r ≡ Refusal.Ended) ⊎ (r ≡ Refusal.Full)) }
    {
        let count = self.scope_at_hand().count();
        let mut seat = count.guest_seat();
        let raised = count.raise(rt, &mut seat, shares);
        (raised, seat)
    }

    // With the scope's book held, numbers the pieces and queues them.
    fn number_all<'p, R: Wait>(
        &mut self,
        rt: &R,
        pieces: Pieces,
        ticket: &Ticket<J>,
        ready: Vec<Task<J>>,
        place: &'p SharedJob<J>,
        job: J,
    ) -> Result<(u64, &'p J), (Refusal, J)>
        requires scope { IsSome (scope_in self.old.reply) }
        requires count { IsCountOf ticket.now.scope pieces.count }
        requires empty { ready.items ≡ [] }
        requires room { pieces.workers ≤ vec_capacity ready }
        requires row { pieces.first + pieces.workers < 2 ^ 64 }
        ensures path { MatchResult result
            (λ r. GoesNumbered pieces r.0 (Mark (at.OpenForAll pieces) pieces Counted) self.old self.new (Mark (call_all self.old.shape pieces) pieces Queued))
            (λ _. StayUnnumbered pieces self.old self.new) }
        ensures job { MatchResult result (λ r. r.1.now ≡ job) (λ e. e.1 ≡ job) }
        ensures numbers { IfOk result (λ r. r.0 + pieces.workers ≤ 2 ^ 64) }
        ensures same { Same self.old self.new }
        ensures refused { IfErr result (λ e. (e.0 ≡ Refusal.Full) ⊎ (e.0 ≡ Refusal.NoRoom)) }
    {
        let mut book = self.scope_at_hand().book().hold(rt);
        let numbered = self.number_each(rt, &mut book, pieces, ticket, ready, place, job);
        let _taken = self.scope_at_hand().book().leave(rt, book);
        numbered
    }

    // Opens the next numbers of the scope's book, which the worker holds, one for each piece, and queues the pieces,
    // which have shares of this ticket. Answers the first number, and lends the job. Where there is no room, or no
    // number, the job comes back, and the book is as before.
    fn number_each<'p, R: Wait>(
        &mut self,
        rt: &R,
        book: &mut ScopeBook<J>,
        pieces: Pieces,
        ticket: &Ticket<J>,
        ready: Vec<Task<J>>,
        place: &'p SharedJob<J>,
        job: J,
    ) -> Result<(u64, &'p J), (Refusal, J)>
        requires count { IsCountOf ticket.now.scope pieces.count }
        requires empty { ready.items ≡ [] }
        requires room { pieces.workers ≤ vec_capacity ready }
        requires row { pieces.first + pieces.workers < 2 ^ 64 }
        ensures path { MatchResult result
            (λ r. GoesNumbered pieces r.0 (Mark (at.OpenForAll pieces) pieces Counted) self.old self.new (Mark (call_all self.old.shape pieces) pieces Queued))
            (λ _. StayUnnumbered pieces self.old self.new) }
        ensures book { MatchResult result (λ _. book.new ≡ opened book.old pieces.workers) (λ _. book.new ≡ book.old) }
        ensures job { MatchResult result (λ r. r.1.now ≡ job) (λ e. e.1 ≡ job) }
        ensures numbers { IfOk result (λ r. r.0 + pieces.workers ≤ 2 ^ 64) }
        ensures same { Same self.old self.new }
        ensures refused { IfErr result (λ e. (e.0 ≡ Refusal.Full) ⊎ (e.0 ≡ Refusal.NoRoom)) }
    {
        let open = Act::SlotAll(pieces);
        let number = match book.open_slots(pieces.workers) {
            Ok(number) => number,
            Err(refusal) => {
                self.add(open, Seen::Refused);
                return Err((refusal, job));
            }
        };
        self.add(open, Seen::Opened(number));
        match self.push_numbered(rt, pieces, number, ticket, ready, place, job) {
            Ok(there) => Ok((number, there)),
            Err(job) => {
                book.undo_last_n(pieces.workers);
                self.add(Act::SlotUndoAll(pieces), Seen::Done);
                Err((Refusal::NoRoom, job))
            }
        }
    }

    // Makes the pieces, which have shares of this ticket and numbers from this one on, and queues them all in one step.
    #[tactic(auto, using(rayon_shared::proofs::Shares::are_numbered))]
    fn push_numbered<'p, R: Wait>(
        &mut self,
        rt: &R,
        pieces: Pieces,
        number: u64,
        ticket: &Ticket<J>,
        ready: Vec<Task<J>>,
        place: &'p SharedJob<J>,
        job: J,
    ) -> Result<&'p J, J>
        requires count { IsCountOf ticket.now.scope pieces.count }
        requires numbered { JustNumbered pieces number self.old.trace }
        requires empty { ready.items ≡ [] }
        requires room { pieces.workers ≤ vec_capacity ready }
        requires row { pieces.first + pieces.workers < 2 ^ 64 }
        ensures job { MatchResult result (λ there. there.now ≡ job) (λ back. back ≡ job) }
        ensures numbers { IfOk result (λ _. number + pieces.workers ≤ 2 ^ 64) }
        ensures same { Same self.old self.new }
        ensures adds { MatchResult result (λ _. Adds (acts.PushCast pieces) saw.Done self.old.trace self.new.trace) (λ _. Adds (acts.PushCast pieces) saw.Refused self.old.trace self.new.trace) }
    {
        match numbered_pieces(ready, place, ticket, pieces.first, number, pieces.workers) {
            Some(tasks) => self.push_cast(rt, pieces, tasks, place, job),
            None => {
                self.add(Act::PushCast(pieces), Seen::Refused);
                Err(job)
            }
        }
    }

    // Gives the shares of the pieces back, which were not queued, and where they were the last of the scope's count
    // sets the latch of the scope's call.
    #[tactic(auto, using(crate::proofs::ScopeCasts::scope_ends, crate::proofs::ScopeCasts::shares_ended))]
    fn hand_shares_back<R: Wait>(&mut self, rt: &R, pieces: Pieces)
        requires count { IsCountOf (scope_in self.old.reply) pieces.count }
        requires rests { Resting self.old.chair }
        ensures path { HandsBack (Stay (at.LowerForAll pieces)) pieces self.old self.new }
        ensures same { self.new ≡ record self.old { tally = self.new.tally; marks = self.new.marks; trace = self.new.trace } }
        ensures count { self.new.marks.count ≡ self.old.marks.count }
    {
        if self.lower_shares(rt, pieces) {
            self.finish_at(rt, ends(pieces.count));
        }
    }

    // Gives a share of the scope's count back for each piece, all in one step, by a seat that is made for it. True
    // exactly if they were the last.
    #[tactic(auto, using(crate::proofs::ScopeCasts::shares_lowered, rayon_shared::proofs::Shares::scope_some))]
    fn lower_shares<R: Wait>(&mut self, rt: &R, pieces: Pieces) -> bool
        requires { IsCountOf (scope_in self.old.reply) pieces.count }
        ensures does { Does (acts.LowerAll pieces) (answer result) self.old self.new }
        ensures adds { Adds (acts.LowerAll pieces) (answer result) self.old.trace self.new.trace }
        ensures left { self.new ≡ record self.old { tally = self.new.tally; trace = self.new.trace } }
    {
        let (were_last, seat) = self.shares_given(rt, pieces.workers as u64);
        self.tally = Some(seat);
        let seen = if were_last { Seen::Yes } else { Seen::No };
        self.add(Act::LowerAll(pieces), seen);
        were_last
    }

    // So many shares of the scope's count fewer, and the seat that gave them back. True exactly if they were the last.
    fn shares_given<R: Wait>(&self, rt: &R, shares: u64) -> (bool, CountSeat)
        requires { IsSome (scope_in self.now.reply) }
        ensures { GivesShares shares (scope_in self.now.reply) result.0 (tally_in (Some result.1)) }
    {
        let count = self.scope_at_hand().count();
        let mut seat = count.guest_seat();
        let were_last = count.lower(rt, &mut seat, shares);
        (were_last, seat)
    }
}

// Sets the first of the latches that wait for this count.
fn ends(count: Count) -> Place
    ensures { result ≡ ends_count count }
{
    let (latch, pool, worker) = match count {
        Count::OfPool(pool) => (Latch::Terminate, pool, 0),
        Count::OfScope { call, owner } | Count::OfCast { call, owner } => match owner {
            Party::Worker { pool, index } => (Latch::OfCall(call), pool, index),
            Party::Caller(_) => {
                return Place::SetLockLatch {
                    call,
                    then: Then::Resume,
                };
            }
        },
    };
    Place::SetLatch(Settling {
        latch,
        pool,
        worker,
        then: Then::Resume,
    })
}
