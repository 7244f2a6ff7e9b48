//! A worker's spawns in order into a scope: of those that one worker made, the first begins first.
ghost use Rattle.std.specs.Prelude.{◌≡◌, ◌⊎◌, ◌++◌, [], ◌∷◌, length, false, Some, IsSome, IfErr, MatchResult};
ghost use Rattle.rayon_books.specs.declared.slot.Slot.TheVariants.{Open};
ghost use Rattle.rayon_machine_places.specs.Places.{undo};
ghost use Rattle.rayon_machine_places.specs.declared.place.Move.TheVariants.{Back, HandBack, Stay};
ghost use Rattle.rayon_machine_places.specs.declared.place.Place.TheVariants as at;
ghost use Rattle.rayon_machine_places.specs.declared.place.Plan.TheVariants.{Detach, Feed};
ghost use Rattle.rayon_performers.specs.Fifos.{token_with};
ghost use Rattle.rayon_performers.specs.Finds.{StandsLast};
ghost use Rattle.rayon_shared.specs.Marks.{IsScope, scope_in};
ghost use Rattle.rayon_performers.specs.Paths.{WorkerGoes};
ghost use Rattle.rayon_performers.specs.Scopes.{EntersList, EntersNoList, into, scope_token};
ghost use Rattle.rayon_shared.specs.Seats.{Resting};
ghost use Rattle.rayon_queues.specs.Deques.{SameDeque, Unmoved};
ghost use Rattle.rayon_queues.specs.Lists.{Becomes, SameLists, jobs_of};
ghost use Rattle.rayon_tasks.specs.Tasks.{OneJob};
ghost use Rattle.rayon_tasks.specs.Tickets.{TicketOf};

use crate::bench::Bench;
use crate::stretch::only_job;
use rayon_books::ScopeBook;
use rayon_jobs::JobKind;
use rayon_machine_places::act::{Act, Seen};
use rayon_machine_places::place::{Count, Entry, Feeding, Plan, Share, Then};
use rayon_queues::JobFifos;
use rayon_tasks::{Task, Ticket, task_of_job};
use rayon_words::Refusal;
use std::sync::Wait;

impl<J: JobKind> Bench<J> {
    /// Spawns a job in order into the scope that the ticket handed in is of, with a token of this name: Raise of the
    /// scope's count, Slot, FifoIn, LookOwn, PushOwn of the token, News and its wakes. The scope's book is held from
    /// Slot to the push, and the own FIFO lists from FifoIn to it. Answers the job's number in the book. Refused
    /// `NoRoom` before its Raise, at its number, where the job is added or at the push, `Full` also for want of
    /// numbers, `Ended`, with the job back and nothing added; a share of the count that was taken is given back. The
    /// ticket stands for the one to answer meanwhile.
    pub fn enter_fifo<R: Wait>(
        &mut self,
        rt: &R,
        scope: &mut Option<Ticket<J>>,
        entry: Entry,
        token: u64,
        job: J,
    ) -> Result<u64, (Refusal, J)>
        requires scope { IsScope (scope_in scope.old) entry.call }
        requires rests { Resting self.old.chair }
        ensures path { MatchResult result (λ _. EntersList scope.old entry token self.old self.new) (λ _. EntersNoList scope.old entry token self.old self.new) }
        ensures pushed { MatchResult result
            (λ _. (u : TicketOf) × (scope.old ≡ Some u) × StandsLast self.old.own (scope_token u self.old.index token) self.new.own)
            (λ e. (e.1 ≡ job) × Unmoved self.old.own self.new.own) }
        ensures left { SameDeque self.old.own self.new.own × (self.new ≡ record self.old { own = self.new.own; tally = self.new.tally; marks = self.new.marks; chair = self.new.chair; trace = self.new.trace }) }
        ensures count { self.new.marks.count ≡ self.old.marks.count }
        ensures scope { scope.new ≡ scope.old }
        ensures rests { Resting self.new.chair }
        ensures refused { IfErr result (λ e. (e.0 ≡ Refusal.Ended) ⊎ ((e.0 ≡ Refusal.Full) ⊎ (e.0 ≡ Refusal.NoRoom))) }
    {
        self.exchange_reply(scope);
        let entered = self.enter_list(rt, entry, token, job);
        self.exchange_reply(scope);
        entered
    }

    // Spawns a job in order into the scope that the ticket to answer is of.
    fn enter_list<R: Wait>(
        &mut self,
        rt: &R,
        entry: Entry,
        token: u64,
        job: J,
    ) -> Result<u64, (Refusal, J)>
        requires scope { IsScope (scope_in self.old.reply) entry.call }
        requires rests { Resting self.old.chair }
        ensures path { MatchResult result
            (λ _. WorkerGoes (Stay (at.RaiseCount (Feed (into entry token)))) self.old self.new Back)
            (λ _. (self.new ≡ self.old) ⊎ WorkerGoes (Stay (at.RaiseCount (Feed (into entry token)))) self.old self.new (HandBack (Feed (into entry token)))) }
        ensures pushed { MatchResult result
            (λ _. (u : TicketOf) × (self.old.reply ≡ Some u) × StandsLast self.old.own (scope_token u self.old.index token) self.new.own)
            (λ e. (e.1 ≡ job) × Unmoved self.old.own self.new.own) }
        ensures left { SameDeque self.old.own self.new.own × (self.new ≡ record self.old { own = self.new.own; tally = self.new.tally; marks = self.new.marks; chair = self.new.chair; trace = self.new.trace }) }
        ensures count { self.new.marks.count ≡ self.old.marks.count }
        ensures rests { Resting self.new.chair }
        ensures refused { IfErr result (λ e. (e.0 ≡ Refusal.Ended) ⊎ ((e.0 ≡ Refusal.Full) ⊎ (e.0 ≡ Refusal.NoRoom))) }
    {
        let ticket = match self.share_of_reply(entry.job) {
            Ok(ticket) => ticket,
            Err(refusal) => return Err((refusal, job)),
        };
        let share = match self.share_of_reply(token) {
            Ok(share) => share.numbered(self.index as u64),
            Err(refusal) => return Err((refusal, job)),
        };
        if let Err(refusal) = self.raise_scope(rt, entry.call, entry.owner, entry.job) {
            return Err((refusal, job));
        }
        match self.number_and_list(rt, entry, token, ticket, share, job) {
            Ok((number, was_empty)) => {
                self.tell_pushed(rt, token, was_empty);
                Ok(number)
            }
            Err((refusal, job)) => {
                let then = Then::GiveBack(Plan::Feed(feeding_into(entry, token)));
                let share = Share::OfJob(entry.job);
                self.lower_scope_then(rt, entry.call, entry.owner, share, then);
                Err((refusal, job))
            }
        }
    }

    // With the scope's book and the own FIFO lists held, numbers the job of this ticket, adds it to the scope's list
    // and pushes its token, which is this share's.
    fn number_and_list<R: Wait>(
        &mut self,
        rt: &R,
        entry: Entry,
        token: u64,
        ticket: Ticket<J>,
        share: Ticket<J>,
        job: J,
    ) -> Result<(u64, bool), (Refusal, J)>
        requires scope { IsSome (scope_in self.old.reply) }
        requires name { ticket.number ≡ entry.job }
        requires token { share.number ≡ token }
        ensures path { MatchResult result
            (λ r. WorkerGoes (Stay (at.OpenSlot (Feed (into entry token)))) self.old self.new (Stay (at.TellNews (Detach 0 token) r.1)))
            (λ _. WorkerGoes (Stay (at.OpenSlot (Feed (into entry token)))) self.old self.new (Stay (undo (Feed (into entry token))))) }
        ensures pushed { MatchResult result (λ _. StandsLast self.old.own (token_with share) self.new.own) (λ e. (e.1 ≡ job) × Unmoved self.old.own self.new.own) }
        ensures left { SameDeque self.old.own self.new.own × (self.new ≡ record self.old { own = self.new.own; trace = self.new.trace }) }
        ensures refused { IfErr result (λ e. (e.0 ≡ Refusal.Full) ⊎ (e.0 ≡ Refusal.NoRoom)) }
    {
        let mut book = self.scope_at_hand().book().hold(rt);
        let mut lists = self.hold_lists(rt);
        let numbered = self.number_in_order(
            &mut book, &mut lists, entry, token, ticket, share, job,
        );
        self.leave_lists(rt, lists);
        let _taken = self.scope_at_hand().book().leave(rt, book);
        numbered
    }

    // Opens the next number of the scope's book for this job, adds its task, of this ticket, last to the scope's list,
    // and pushes its token, which is this share's. Answers the number, and whether the deque was empty before. Where
    // there is no room for one of the three, or no number, the job comes back, and book and lists are as before.
    fn number_in_order(
        &mut self,
        book: &mut ScopeBook<J>,
        lists: &mut JobFifos<Task<J>>,
        entry: Entry,
        token: u64,
        ticket: Ticket<J>,
        share: Ticket<J>,
        job: J,
    ) -> Result<(u64, bool), (Refusal, J)>
        requires name { ticket.number ≡ entry.job }
        requires token { share.number ≡ token }
        ensures path { MatchResult result
            (λ r. WorkerGoes (Stay (at.OpenSlot (Feed (into entry token)))) self.old self.new (Stay (at.TellNews (Detach 0 token) r.1)))
            (λ _. WorkerGoes (Stay (at.OpenSlot (Feed (into entry token)))) self.old self.new (Stay (undo (Feed (into entry token))))) }
        ensures book { MatchResult result (λ r. (r.0 ≡ length book.old.slots) × (book.new ≡ record book.old { slots = book.old.slots ++ Open ∷ [] })) (λ _. book.new ≡ book.old) }
        ensures listed { MatchResult result
            (λ r. Becomes lists.old (Some entry.call) (jobs_of lists.old (Some entry.call) ++ record { work = OneJob job; injected = false; ticket = record ticket { slot = r.0 } } ∷ []) lists.new)
            (λ _. SameLists lists.old lists.new) }
        ensures pushed { MatchResult result (λ _. StandsLast self.old.own (token_with share) self.new.own) (λ e. (e.1 ≡ job) × Unmoved self.old.own self.new.own) }
        ensures left { SameDeque self.old.own self.new.own × (self.new ≡ record self.old { own = self.new.own; trace = self.new.trace }) }
        ensures refused { IfErr result (λ e. (e.0 ≡ Refusal.Full) ⊎ (e.0 ≡ Refusal.NoRoom)) }
    {
        let call = entry.call;
        let name = entry.job;
        let open = Act::Slot { call, job: name };
        let number = match book.open_slot() {
            Ok(number) => number,
            Err(refusal) => {
                self.add(open, Seen::Refused);
                return Err((refusal, job));
            }
        };
        self.add(open, Seen::Done);
        let task = task_of_job(job, false, ticket.numbered(number));
        match self.enlist(lists, feeding_into(entry, token), task, share) {
            Ok(was_empty) => Ok((number, was_empty)),
            Err(task) => {
                book.undo_last();
                self.add(Act::SlotUndo { call, job: name }, Seen::Done);
                Err((Refusal::NoRoom, only_job(task)))
            }
        }
    }
}

// The spawn in order of this job into its scope, with a token of this name.
#[inline(always)]
fn feeding_into(entry: Entry, token: u64) -> Feeding
    ensures { result ≡ into entry token }
{
    Feeding {
        count: Count::OfScope {
            call: entry.call,
            owner: entry.owner,
        },
        pool: 0,
        job: entry.job,
        token,
    }
}
