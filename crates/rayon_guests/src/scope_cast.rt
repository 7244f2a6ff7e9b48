//! The broadcasts of an outside caller into a scope: one piece for each worker, all queued at once, each with a share
//! of the scope's count and a number of the scope's book. The scope is reached by the ticket in hand.
ghost use Rattle.std.specs.Prelude.{◌≡◌, ◌⊎◌, ◌+◌, ◌<◌, ◌≤◌, ◌^◌, ◌++◌, [], None, false, IfErr, IfOk, MatchResult, length, vec_capacity};
ghost use Rattle.rayon_books.specs.Books.{opened};
ghost use Rattle.rayon_machine_places.specs.Places.{call_all};
ghost use Rattle.rayon_machine_places.specs.declared.act.Act.TheVariants as acts;
ghost use Rattle.rayon_machine_places.specs.declared.act.Seen.TheVariants as saw;
ghost use Rattle.rayon_machine_places.specs.declared.place.Mark.TheVariants.{Counted, Queued};
ghost use Rattle.rayon_machine_places.specs.declared.place.Move.TheVariants.{Mark, Stay};
ghost use Rattle.rayon_machine_places.specs.declared.place.Place.TheVariants as at;
ghost use Rattle.rayon_shared.specs.Casts.{JustNumbered, cast_into};
ghost use Rattle.rayon_shared.specs.Marks.{IsCountOf, IsScope, scope_in};
ghost use Rattle.rayon_guests.specs.Casts.{CastsInto, EntersForAll, EntersForNone, GoesNumbered, HandsBack, Made, Same, StayUnnumbered};
ghost use Rattle.rayon_guests.specs.Visiting.{IsHere};

use crate::guest::{Guest, share_of};
use crate::scope::scope_of;
use rayon_books::ScopeBook;
use rayon_broadcasts::SharedJob;
use rayon_jobs::JobKind;
use rayon_machine_places::act::{Act, Seen};
use rayon_machine_places::place::{Count, Entry, Pieces};
use rayon_shared::numbered_pieces;
use rayon_tasks::{Task, Ticket};
use rayon_words::Refusal;
use std::alloc::Global;
use std::sync::Wait;

impl<'a, J: JobKind> Guest<'a, J> {
    /// Broadcasts a job into the scope of this entry, which the ticket handed in is of. The pieces have names in a row
    /// of which the entry's is the first: one Raise of the scope's count for all pieces, Slot for all, PushCast, and a
    /// call to each worker, which wakes it where it sleeps. The scope's book is held from Slot to the push, and the
    /// memory for the pieces is taken before the Raise. Answers the first piece's number in the book, and the others
    /// follow by the workers' indices; and lends the job as it stands in the place that the pieces share. Refused
    /// `NoRoom` before its Raise, at the numbers or at the push, `Full` also for want of numbers, `Ended`, with the
    /// very job back, nothing pushed and no number opened; shares of the count that were taken are given back. The
    /// ticket stands for that of the call meanwhile.
    pub fn enter_for_all<'p, R: Wait>(
        &mut self,
        rt: &R,
        alloc: Global,
        scope: &mut Option<Ticket<J>>,
        entry: Entry,
        place: &'p SharedJob<J>,
        job: J,
    ) -> Result<(u64, &'p J), (Refusal, J)>
        requires idle { (self.old.load ≡ None) × (self.old.holds ≡ false) }
        requires row { entry.job + self.old.shape.workers < 2 ^ 64 }
        requires scope { IsScope (scope_in scope.old) entry.call }
        requires here { IsHere entry.owner }
        ensures path { MatchResult result
            (λ r. EntersForAll scope.old entry self.old.shape.workers r.0 self.old self.new)
            (λ _. EntersForNone scope.old entry self.old.shape.workers self.old self.new) }
        ensures job { MatchResult result (λ r. r.1.now ≡ job) (λ e. e.1 ≡ job) }
        ensures numbers { IfOk result (λ r. r.0 + self.old.shape.workers ≤ 2 ^ 64) }
        ensures keeps { Same self.old self.new × (self.new.marks.count ≡ self.old.marks.count) }
        ensures scope { scope.new ≡ scope.old }
        ensures refused { IfErr result (λ e. (e.0 ≡ Refusal.Ended) ⊎ (e.0 ≡ Refusal.Full) ⊎ (e.0 ≡ Refusal.NoRoom)) }
    {
        self.exchange_call(scope);
        let entered = self.cast_at_hand(rt, alloc, entry, place, job);
        self.exchange_call(scope);
        entered
    }

    // Broadcasts a job into the scope whose ticket is in hand.
    #[tactic(auto, using(crate::proofs::ScopeCasts::share_counts))]
    fn cast_at_hand<'p, R: Wait>(
        &mut self,
        rt: &R,
        alloc: Global,
        entry: Entry,
        place: &'p SharedJob<J>,
        job: J,
    ) -> Result<(u64, &'p J), (Refusal, J)>
        requires idle { (self.old.load ≡ None) × (self.old.holds ≡ false) }
        requires row { entry.job + self.old.shape.workers < 2 ^ 64 }
        requires scope { IsScope (scope_in self.old.call) entry.call }
        requires here { IsHere entry.owner }
        ensures path { MatchResult result
            (λ r. CastsInto (cast_into entry self.old.shape.workers) r.0 self.old self.new)
            (λ _. (self.new ≡ self.old) ⊎ HandsBack (Stay (at.RaiseForAll (cast_into entry self.old.shape.workers))) (cast_into entry self.old.shape.workers) self.old self.new) }
        ensures job { MatchResult result (λ r. r.1.now ≡ job) (λ e. e.1 ≡ job) }
        ensures numbers { IfOk result (λ r. r.0 + self.old.shape.workers ≤ 2 ^ 64) }
        ensures keeps { Same self.old self.new × (self.new.marks.count ≡ self.old.marks.count) }
        ensures refused { IfErr result (λ e. (e.0 ≡ Refusal.Ended) ⊎ (e.0 ≡ Refusal.Full) ⊎ (e.0 ≡ Refusal.NoRoom)) }
    {
        let Some(ticket) = share_of(&self.call) else {
            return Err((Refusal::NoRoom, job));
        };
        let Ok(ready) = Vec::with_capacity(alloc, self.shape.workers) else {
            return Err((Refusal::NoRoom, job));
        };
        let cast = self.cast_to_scope(entry);
        if let Err(refusal) = self.raise_all(rt, cast) {
            return Err((refusal, job));
        }
        let mut book = scope_of(&self.call).book().hold(rt);
        let numbered = self.number_each(rt, &mut book, cast, &ticket, ready, place, job);
        let _taken = scope_of(&self.call).book().leave(rt, book);
        match numbered {
            Ok(numbered) => {
                self.call_all(rt, cast);
                Ok(numbered)
            }
            Err(refused) => {
                self.give_all_back(rt, cast);
                Err(refused)
            }
        }
    }

    // The pieces of a broadcast into the scope of this entry.
    fn cast_to_scope(&self, entry: Entry) -> Pieces
        ensures { result ≡ cast_into entry self.now.shape.workers }
    {
        Pieces {
            count: Count::OfScope {
                call: entry.call,
                owner: entry.owner,
            },
            pool: 0,
            first: entry.job,
            workers: self.shape.workers,
        }
    }

    // Opens the next numbers of the scope's book, which the caller holds, one for each piece, and queues the pieces,
    // which have shares of this ticket. Answers the first number, and lends the job. Where there is no room, or no
    // number, the job comes back, and the book is as before.
    fn number_each<'p, R: Wait>(
        &mut self,
        rt: &R,
        book: &mut ScopeBook<J>,
        cast: Pieces,
        ticket: &Ticket<J>,
        ready: Vec<Task<J>>,
        place: &'p SharedJob<J>,
        job: J,
    ) -> Result<(u64, &'p J), (Refusal, J)>
        requires idle { self.old.load ≡ None }
        requires count { IsCountOf ticket.now.scope cast.count }
        requires empty { ready.items ≡ [] }
        requires room { cast.workers ≤ vec_capacity ready }
        requires row { cast.first + cast.workers < 2 ^ 64 }
        ensures path { MatchResult result
            (λ r. GoesNumbered cast r.0 (Mark (at.OpenForAll cast) cast Counted) self.old self.new (Mark (call_all self.old.shape cast) cast Queued))
            (λ _. StayUnnumbered cast self.old self.new) }
        ensures book { MatchResult result (λ _. book.new ≡ opened book.old cast.workers) (λ _. book.new ≡ book.old) }
        ensures job { MatchResult result (λ r. r.1.now ≡ job) (λ e. e.1 ≡ job) }
        ensures numbers { IfOk result (λ r. r.0 + cast.workers ≤ 2 ^ 64) }
        ensures same { self.new ≡ record self.old { trace = self.new.trace } }
        ensures refused { IfErr result (λ e. (e.0 ≡ Refusal.Full) ⊎ (e.0 ≡ Refusal.NoRoom)) }
    {
        let number = match self.open_for_all(book, cast) {
            Ok(number) => number,
            Err(refusal) => return Err((refusal, job)),
        };
        match self.push_numbered(rt, cast, number, ticket, ready, place, job) {
            Ok(there) => Ok((number, there)),
            Err(job) => {
                self.close_for_all(book, cast);
                Err((Refusal::NoRoom, job))
            }
        }
    }

    // Opens the next numbers of the scope's book, which the caller holds, one for each piece. Answers the first one.
    fn open_for_all(&mut self, book: &mut ScopeBook<J>, cast: Pieces) -> Result<u64, Refusal>
        ensures step { MatchResult result
            (λ n. Made (acts.SlotAll cast) (saw.Opened n) self.old self.new)
            (λ _. Made (acts.SlotAll cast) saw.Refused self.old self.new) }
        ensures book { MatchResult result (λ _. book.new ≡ opened book.old cast.workers) (λ _. book.new ≡ book.old) }
        ensures same { self.new ≡ record self.old { trace = self.new.trace } }
        ensures refused { IfErr result (λ r. (r ≡ Refusal.Full) ⊎ (r ≡ Refusal.NoRoom)) }
    {
        let opened = book.open_slots(cast.workers);
        let seen = match opened {
            Ok(number) => Seen::Opened(number),
            Err(_) => Seen::Refused,
        };
        self.trace.add(Act::SlotAll(cast), seen);
        opened
    }

    // Takes the numbers of the pieces back, which were opened last in the scope's book.
    fn close_for_all(&mut self, book: &mut ScopeBook<J>, cast: Pieces)
        ensures step { Made (acts.SlotUndoAll cast) saw.Done self.old self.new }
        ensures last { (list : _) (more : _) → book.old.slots ≡ list ++ more → length more ≡ cast.workers → book.new ≡ record book.old { slots = list } }
        ensures same { self.new ≡ record self.old { trace = self.new.trace } }
    {
        book.undo_last_n(cast.workers);
        self.trace.add(Act::SlotUndoAll(cast), Seen::Done);
    }

    // Makes the pieces, which have shares of this ticket and numbers from this one on, and queues them all in one step.
    #[tactic(auto, using(rayon_shared::proofs::Shares::are_numbered))]
    fn push_numbered<'p, R: Wait>(
        &mut self,
        rt: &R,
        cast: Pieces,
        number: u64,
        ticket: &Ticket<J>,
        ready: Vec<Task<J>>,
        place: &'p SharedJob<J>,
        job: J,
    ) -> Result<&'p J, J>
        requires count { IsCountOf ticket.now.scope cast.count }
        requires idle { self.old.load ≡ None }
        requires numbered { JustNumbered cast number self.old.trace }
        requires empty { ready.items ≡ [] }
        requires room { cast.workers ≤ vec_capacity ready }
        requires row { cast.first + cast.workers < 2 ^ 64 }
        ensures job { MatchResult result (λ there. there.now ≡ job) (λ back. back ≡ job) }
        ensures numbers { IfOk result (λ _. number + cast.workers ≤ 2 ^ 64) }
        ensures same { self.new ≡ record self.old { trace = self.new.trace } }
        ensures step { MatchResult result (λ _. Made (acts.PushCast cast) saw.Done self.old self.new) (λ _. Made (acts.PushCast cast) saw.Refused self.old self.new) }
    {
        match numbered_pieces(ready, place, ticket, cast.first, number, cast.workers) {
            Some(pieces) => self.push_all(rt, cast, pieces, place, job),
            None => {
                self.trace.add(Act::PushCast(cast), Seen::Refused);
                Err(job)
            }
        }
    }
}
