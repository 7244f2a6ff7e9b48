//! A worker's scopes: the call that opens one, the spawns into it, the end of its body and of its jobs. A scope's count
//! and its book are reached by the ticket that is to answer, which is one of the scope's.
ghost use Rattle.std.specs.Prelude.{◌≡◌, ◌⊎◌, ◌+◌, ◌==◌, ◌++◌, [], ◌∷◌, length, None, Some, IsSome, IfErr, IfOk, MatchResult, false};
ghost use Rattle.rayon_books.specs.declared.slot.Slot.TheVariants.{Open};
ghost use Rattle.rayon_drive.specs.Traces.{Adds};
ghost use Rattle.rayon_machine_places.specs.Places.{finish, set_call, undo};
ghost use Rattle.rayon_machine_places.specs.declared.act.Act.TheVariants as acts;
ghost use Rattle.rayon_machine_places.specs.declared.act.Seen.TheVariants as saw;
ghost use Rattle.rayon_machine_places.specs.declared.place.Count.TheVariants.{OfScope};
ghost use Rattle.rayon_machine_places.specs.declared.place.Move.TheVariants.{Back, HandBack, StartRun, Stay};
ghost use Rattle.rayon_machine_places.specs.declared.place.Party.TheVariants.{Worker};
ghost use Rattle.rayon_machine_places.specs.declared.place.Place.TheVariants as at;
ghost use Rattle.rayon_machine_places.specs.declared.place.Plan.TheVariants as plans;
ghost use Rattle.rayon_machine_places.specs.declared.place.Target.TheVariants.{Answer};
ghost use Rattle.rayon_machine_places.specs.declared.place.Then.TheVariants.{Await};
ghost use Rattle.rayon_performers.specs.Calls.{own_call};
ghost use Rattle.rayon_performers.specs.Finds.{StandsLast};
ghost use Rattle.rayon_performers.specs.Hands.{Does, Same};
ghost use Rattle.rayon_shared.specs.AtHand.{HasResult, HasTicket, answer};
ghost use Rattle.rayon_shared.specs.Marks.{GivesShare, IsScope, KeepsUnits, MissesShare, TakesShare, TakesUnit, scope_in, tally_in};
ghost use Rattle.rayon_performers.specs.Paths.{WorkerGoes};
ghost use Rattle.rayon_performers.specs.Scopes.{Enters, EntersNone, answering, entered_task, entering, entry_of};
ghost use Rattle.rayon_shared.specs.Seats.{Resting};
ghost use Rattle.rayon_performers.specs.Stands.{Last, Stands, hand};
ghost use Rattle.rayon_performers.specs.Waits.{SameSeat, Waited, units_after};
ghost use Rattle.rayon_queues.specs.Deques.{SameDeque, Unmoved};
ghost use Rattle.rayon_tasks.specs.Tasks.{OneJob};
ghost use Rattle.rayon_tasks.specs.Tickets.{IsScopeOf, TicketOf};

use crate::bench::Bench;
use crate::stretch::only_job;
use rayon_atomics::count::CountSeat;
use rayon_books::ScopeBook;
use rayon_jobs::JobKind;
use rayon_machine_places::act::{Act, Seen};
use rayon_machine_places::place::{
    Count, Ending, Entry, Move, OpenCall, Party, Place, Plan, Share, Target, Then,
};
use rayon_tasks::{Call, CallCore, Ticket, task_of_job};
use rayon_words::Refusal;
use std::alloc::Global;
use std::mem;
use std::sync::Wait;

impl<J: JobKind> Bench<J> {
    /// Opens a scope of this name: Raise, and Grow of its call, as far as its body's run. Answers the scope's call, and
    /// two shares of its ticket. Refused `Ended`, `Full`, `NoRoom`, with the unit of the terminate count given back.
    pub fn open_scope<R: Wait>(
        &mut self,
        rt: &R,
        alloc: Global,
        name: u64,
    ) -> Result<(Call<J>, Ticket<J>, Ticket<J>), Refusal>
        requires { Resting self.old.chair }
        ensures path { MatchResult result
            (λ _. WorkerGoes (Stay (at.RaiseCount (plans.Open (own_call name)))) self.old self.new (StartRun (at.ScopeBody (own_call name)) name))
            (λ _. WorkerGoes (Stay (at.RaiseCount (plans.Open (own_call name)))) self.old self.new (HandBack (plans.Open (own_call name)))) }
        ensures ticket { IfOk result (λ c. IsScopeOf (Worker 0 self.old.index) name c.0.ticket × (c.1 ≡ c.0.ticket) × (c.2 ≡ c.0.ticket)) }
        ensures left { MatchResult result
            (λ _. self.new ≡ record self.old { holds = self.old.holds + 1; marks = self.new.marks; trace = self.new.trace })
            (λ _. self.new ≡ record self.old { marks = self.new.marks; trace = self.new.trace }) }
        ensures unit { MatchResult result (λ _. TakesUnit (self.old.holds == 0) self.old.marks.count self.new.marks.count) (λ _. KeepsUnits self.old.marks.count self.new.marks.count) }
        ensures rests { Resting self.new.chair }
        ensures refused { IfErr result (λ r. (r ≡ Refusal.Ended) ⊎ ((r ≡ Refusal.Full) ⊎ (r ≡ Refusal.NoRoom))) }
    {
        if let Err(refusal) = self.raise(rt, name) {
            return Err(refusal);
        }
        match self.grow_scope(alloc, name) {
            Ok(grown) => {
                self.add(Act::Grow(name), Seen::Done);
                Ok(grown)
            }
            Err(refusal) => {
                self.add(Act::Grow(name), Seen::Refused);
                let call = OpenCall {
                    number: name,
                    pool: 0,
                    job: name,
                };
                self.lower_then(rt, name, Then::GiveBack(Plan::Open(call)));
                Err(refusal)
            }
        }
    }

    // The call of a scope of this name, and two shares of its ticket. Refused `NoRoom`.
    fn grow_scope(
        &self,
        alloc: Global,
        name: u64,
    ) -> Result<(Call<J>, Ticket<J>, Ticket<J>), Refusal>
        ensures ticket { IfOk result (λ c. IsScopeOf (Worker 0 self.now.index) name c.0.ticket × (c.1 ≡ c.0.ticket) × (c.2 ≡ c.0.ticket)) }
        ensures refused { IfErr result (λ r. r ≡ Refusal.NoRoom) }
    {
        let call = Call::of_scope(alloc, 0, self.index, name)?;
        let share = call.ticket.share()?;
        let another = call.ticket.share()?;
        Ok((call, share, another))
    }

    /// Spawns a job of this name into the scope of this call and this owner, which the ticket handed in is of: Raise of
    /// the scope's count, Slot, LookOwn, PushOwn, News and its wakes. The scope's book is held from Slot to the push.
    /// Answers the job's number in the book. Refused `NoRoom` before its Raise, at its number or at the push, `Full`
    /// also for want of numbers, `Ended`, with the job back and nothing pushed; a share of the count that was taken is
    /// given back. The ticket stands for the one to answer meanwhile.
    pub fn enter<R: Wait>(
        &mut self,
        rt: &R,
        scope: &mut Option<Ticket<J>>,
        call: u64,
        owner: Party,
        name: u64,
        job: J,
    ) -> Result<u64, (Refusal, J)>
        requires scope { IsScope (scope_in scope.old) call }
        requires rests { Resting self.old.chair }
        ensures path { MatchResult result (λ _. Enters scope.old call owner name self.old self.new) (λ _. EntersNone scope.old call owner name self.old self.new) }
        ensures pushed { MatchResult result
            (λ n. (u : TicketOf) × (scope.old ≡ Some u) × StandsLast self.old.own (entered_task job u name n) self.new.own)
            (λ e. (e.1 ≡ job) × Unmoved self.old.own self.new.own) }
        ensures left { SameDeque self.old.own self.new.own × (self.new ≡ record self.old { own = self.new.own; tally = self.new.tally; marks = self.new.marks; chair = self.new.chair; trace = self.new.trace }) }
        ensures count { self.new.marks.count ≡ self.old.marks.count }
        ensures scope { scope.new ≡ scope.old }
        ensures rests { Resting self.new.chair }
        ensures refused { IfErr result (λ e. (e.0 ≡ Refusal.Ended) ⊎ ((e.0 ≡ Refusal.Full) ⊎ (e.0 ≡ Refusal.NoRoom))) }
    {
        self.exchange_reply(scope);
        let entered = self.enter_answering(rt, call, owner, name, job);
        self.exchange_reply(scope);
        entered
    }

    // This ticket stands where the one to answer does, and that where this one did.
    pub(crate) fn exchange_reply(&mut self, ticket: &mut Option<Ticket<J>>)
        ensures bench { self.new ≡ answering ticket.old self.old }
        ensures ticket { ticket.new ≡ self.old.reply }
    {
        mem::swap(&mut self.reply, ticket);
    }

    // Spawns a job into the scope that the ticket to answer is of.
    fn enter_answering<R: Wait>(
        &mut self,
        rt: &R,
        call: u64,
        owner: Party,
        name: u64,
        job: J,
    ) -> Result<u64, (Refusal, J)>
        requires scope { IsScope (scope_in self.old.reply) call }
        requires rests { Resting self.old.chair }
        ensures path { MatchResult result
            (λ _. WorkerGoes (Stay (at.RaiseCount (entering call owner name))) self.old self.new Back)
            (λ _. (self.new ≡ self.old) ⊎ WorkerGoes (Stay (at.RaiseCount (entering call owner name))) self.old self.new (HandBack (entering call owner name))) }
        ensures pushed { MatchResult result
            (λ n. (u : TicketOf) × (self.old.reply ≡ Some u) × StandsLast self.old.own (entered_task job u name n) self.new.own)
            (λ e. (e.1 ≡ job) × Unmoved self.old.own self.new.own) }
        ensures left { SameDeque self.old.own self.new.own × (self.new ≡ record self.old { own = self.new.own; tally = self.new.tally; marks = self.new.marks; chair = self.new.chair; trace = self.new.trace }) }
        ensures count { self.new.marks.count ≡ self.old.marks.count }
        ensures rests { Resting self.new.chair }
        ensures refused { IfErr result (λ e. (e.0 ≡ Refusal.Ended) ⊎ ((e.0 ≡ Refusal.Full) ⊎ (e.0 ≡ Refusal.NoRoom))) }
    {
        let ticket = match self.share_of_reply(name) {
            Ok(ticket) => ticket,
            Err(refusal) => return Err((refusal, job)),
        };
        if let Err(refusal) = self.raise_scope(rt, call, owner, name) {
            return Err((refusal, job));
        }
        let mut book = self.scope_at_hand().book().hold(rt);
        let numbered = self.number(&mut book, call, owner, name, ticket, job);
        let _taken = self.scope_at_hand().book().leave(rt, book);
        match numbered {
            Ok((number, was_empty)) => {
                self.tell_entered(rt, call, owner, name, was_empty);
                Ok(number)
            }
            Err((refusal, job)) => {
                let then = Then::GiveBack(Plan::Enter(entry_of(call, owner, name)));
                self.lower_scope_then(rt, call, owner, Share::OfJob(name), then);
                Err((refusal, job))
            }
        }
    }

    // A share of the ticket to answer, for a job of this name. Refused `NoRoom`.
    pub(crate) fn share_of_reply(&self, name: u64) -> Result<Ticket<J>, Refusal>
        requires { IsSome (scope_in self.now.reply) }
        ensures share { IfOk result (λ t. (u : TicketOf) × (self.now.reply ≡ Some u) × (t ≡ record u { number = name })) }
        ensures refused { IfErr result (λ r. r ≡ Refusal.NoRoom) }
    {
        let Some(reply) = &self.reply else {
            unreachable!()
        };
        let share = reply.share()?;
        Ok(share.renamed(name))
    }

    // The scope that the ticket to answer is of.
    pub(crate) fn scope_at_hand(&self) -> &CallCore<J>
        requires { IsSome (scope_in self.now.reply) }
        ensures { Some result.now ≡ scope_in self.now.reply }
    {
        let Some(reply) = &self.reply else {
            unreachable!()
        };
        let Some(scope) = reply.scope() else {
            unreachable!()
        };
        scope
    }

    // Takes a share of the scope's count for the job of this name, by a seat that is made for it.
    pub(crate) fn raise_scope<R: Wait>(
        &mut self,
        rt: &R,
        call: u64,
        owner: Party,
        name: u64,
    ) -> Result<(), Refusal>
        requires { IsScope (scope_in self.old.reply) call }
        ensures does { MatchResult result (λ _. Does (acts.Raise (OfScope call owner) name) saw.Done self.old self.new) (λ _. Does (acts.Raise (OfScope call owner) name) saw.Refused self.old self.new) }
        ensures adds { MatchResult result (λ _. Adds (acts.Raise (OfScope call owner) name) saw.Done self.old.trace self.new.trace) (λ _. Adds (acts.Raise (OfScope call owner) name) saw.Refused self.old.trace self.new.trace) }
        ensures left { self.new ≡ record self.old { tally = self.new.tally; trace = self.new.trace } }
        ensures refused { IfErr result (λ r. (r ≡ Refusal.Ended) ⊎ (r ≡ Refusal.Full)) }
    {
        let act = Act::Raise {
            count: Count::OfScope { call, owner },
            job: name,
        };
        let (raised, seat) = self.share_taken(rt);
        self.tally = Some(seat);
        match raised {
            Ok(()) => {
                self.add(act, Seen::Done);
                Ok(())
            }
            Err(refusal) => {
                self.add(act, Seen::Refused);
                Err(refusal)
            }
        }
    }

    // One share more of the scope's count, and the seat that took it.
    fn share_taken<R: Wait>(&self, rt: &R) -> (Result<(), Refusal>, CountSeat)
        requires { IsSome (scope_in self.now.reply) }
        ensures taken { MatchResult result.0 (λ _. TakesShare (scope_in self.now.reply) (tally_in (Some result.1))) (λ _. MissesShare (scope_in self.now.reply) (tally_in (Some result.1))) }
        ensures refused { IfErr result.0 (λ r. (r ≡ Refusal.Ended) ⊎ (r ≡ Refusal.Full)) }
    {
        let count = self.scope_at_hand().count();
        let mut seat = count.guest_seat();
        let raised = count.increment(rt, &mut seat);
        (raised, seat)
    }

    // Opens the next number of the scope's book, which the worker holds, for the job of this name, and pushes its task,
    // of this ticket. Answers the number, and whether the deque was empty before. Where there is no room for one of the
    // two, or no number, the job comes back, and the book is as before.
    fn number(
        &mut self,
        book: &mut ScopeBook<J>,
        call: u64,
        owner: Party,
        name: u64,
        ticket: Ticket<J>,
        job: J,
    ) -> Result<(u64, bool), (Refusal, J)>
        ensures path { MatchResult result
            (λ r. WorkerGoes (Stay (at.OpenSlot (entering call owner name))) self.old self.new (Stay (at.TellNews (entering call owner name) r.1)))
            (λ _. WorkerGoes (Stay (at.OpenSlot (entering call owner name))) self.old self.new (Stay (undo (entering call owner name)))) }
        ensures book { MatchResult result (λ r. (r.0 ≡ length book.old.slots) × (book.new ≡ record book.old { slots = book.old.slots ++ Open ∷ [] })) (λ _. book.new ≡ book.old) }
        ensures pushed { MatchResult result
            (λ r. StandsLast self.old.own (record { work = OneJob job; injected = false; ticket = record ticket { slot = r.0 } }) self.new.own)
            (λ e. (e.1 ≡ job) × Unmoved self.old.own self.new.own) }
        ensures left { SameDeque self.old.own self.new.own × (self.new ≡ record self.old { own = self.new.own; trace = self.new.trace }) }
        ensures refused { IfErr result (λ e. (e.0 ≡ Refusal.Full) ⊎ (e.0 ≡ Refusal.NoRoom)) }
    {
        let open = Act::Slot { call, job: name };
        let number = match book.open_slot() {
            Ok(number) => number,
            Err(refusal) => {
                self.add(open, Seen::Refused);
                return Err((refusal, job));
            }
        };
        self.add(open, Seen::Done);
        let was_empty = self.look_own();
        let task = task_of_job(job, false, ticket.numbered(number));
        let Err(task) = self.push_own(name, Some(call), task) else {
            return Ok((number, was_empty));
        };
        book.undo_last();
        self.add(Act::SlotUndo { call, job: name }, Seen::Done);
        Err((Refusal::NoRoom, only_job(task)))
    }

    // Tells that a scope's job was pushed, and wakes whom that owes a wake.
    fn tell_entered<R: Wait>(&mut self, rt: &R, call: u64, owner: Party, name: u64, was_empty: bool)
        requires { Resting self.old.chair }
        ensures path { WorkerGoes (Stay (at.TellNews (entering call owner name) was_empty)) self.old self.new Back }
        ensures same { self.new ≡ record self.old { marks = self.new.marks; chair = self.new.chair; trace = self.new.trace } }
        ensures count { self.new.marks.count ≡ self.old.marks.count }
        ensures rests { Resting self.new.chair }
    {
        let shape = self.shape;
        let index = self.index;
        let owed = self.news(rt, 0, was_empty);
        if owed > 0 {
            let place = Place::TellNews {
                plan: Plan::Enter(entry_of(call, owner, name)),
                was_empty,
            };
            self.finish_from(rt, shape, index, place, Seen::Wakes(owed), Then::Resume);
        }
    }

    // Gives back a share of the count of the scope that the ticket to answer is of, by a seat that is made for it. True
    // exactly if it was the last.
    fn lower_scope<R: Wait>(&mut self, rt: &R, call: u64, owner: Party, share: Share) -> bool
        requires { IsScope (scope_in self.old.reply) call }
        ensures does { Does (acts.Lower (OfScope call owner) share) (answer result) self.old self.new }
        ensures adds { Adds (acts.Lower (OfScope call owner) share) (answer result) self.old.trace self.new.trace }
        ensures left { self.new ≡ record self.old { tally = self.new.tally; trace = self.new.trace } }
    {
        let (was_last, seat) = self.share_given(rt);
        self.tally = Some(seat);
        let seen = if was_last { Seen::Yes } else { Seen::No };
        let count = Count::OfScope { call, owner };
        self.add(Act::Lower { count, share }, seen);
        was_last
    }

    // One share of the scope's count fewer, and the seat that gave it back. True exactly if it was the last.
    fn share_given<R: Wait>(&self, rt: &R) -> (bool, CountSeat)
        requires { IsSome (scope_in self.now.reply) }
        ensures { GivesShare (scope_in self.now.reply) result.0 (tally_in (Some result.1)) }
    {
        let count = self.scope_at_hand().count();
        let mut seat = count.guest_seat();
        let was_last = count.set(rt, &mut seat);
        (was_last, seat)
    }

    // Gives such a share back, and where it was the last sets the latch of the scope's call, before this follows.
    pub(crate) fn lower_scope_then<R: Wait>(
        &mut self,
        rt: &R,
        call: u64,
        owner: Party,
        share: Share,
        then: Then,
    )
        requires scope { IsScope (scope_in self.old.reply) call }
        requires last { Last (hand self.old) (finish (Worker 0 self.old.index) then) }
        requires rests { Resting self.old.chair }
        ensures path { WorkerGoes (Stay (at.LowerCount (OfScope call owner) share then)) self.old self.new (finish (Worker 0 self.old.index) then) }
        ensures same { self.new ≡ record self.old { tally = self.new.tally; marks = self.new.marks; trace = self.new.trace } }
        ensures count { self.new.marks.count ≡ self.old.marks.count }
        ensures rests { Resting self.new.chair }
    {
        let shape = self.shape;
        let index = self.index;
        if self.lower_scope(rt, call, owner, share) {
            let place = Place::LowerCount {
                count: Count::OfScope { call, owner },
                share,
                then,
            };
            self.finish_from(rt, shape, index, place, Seen::Yes, then);
        }
    }

    // The end of the run of a scope's job of this name: its result goes into the scope's book, and its share of the
    // scope's count is given back.
    pub(crate) fn end_scoped<R: Wait>(
        &mut self,
        rt: &R,
        call: u64,
        owner: Party,
        name: u64,
        ending: Ending,
    )
        requires scope { IsScope (scope_in self.old.reply) call }
        requires done { HasResult self.old.done (Some ending) }
        requires rests { Resting self.old.chair }
        ensures path { WorkerGoes (Stay (at.StoreSlot call owner name ending)) self.old self.new Back }
        ensures same { self.new ≡ record self.old { done = None; tally = self.new.tally; marks = self.new.marks; trace = self.new.trace } }
        ensures count { self.new.marks.count ≡ self.old.marks.count }
        ensures rests { Resting self.new.chair }
    {
        self.store_slot(rt, call, name, ending);
        self.lower_scope_then(rt, call, owner, Share::OfJob(name), Then::Resume);
    }

    // Puts the result at hand into the scope's book, at the number of the ticket to answer. What the book does not keep
    // is let go once the book is left.
    fn store_slot<R: Wait>(&mut self, rt: &R, call: u64, name: u64, ending: Ending)
        requires scope { IsScope (scope_in self.old.reply) call }
        ensures does { Does (acts.StoreSlot call name ending) saw.Done self.old self.new }
        ensures adds { Adds (acts.StoreSlot call name ending) saw.Done self.old.trace self.new.trace }
    {
        if let (Some(reply), Some(done)) = (&self.reply, self.done.take()) {
            if let Some(scope) = reply.scope() {
                let number = reply.slot();
                let unkept = scope.book().with(rt, |book| book.close_slot(number, done));
                drop(unkept);
            }
        }
        let act = Act::StoreSlot {
            call,
            job: name,
            ending,
        };
        self.add(act, Seen::Done);
    }

    /// The ticket of the scope whose body has ended is the one to answer.
    pub fn set_scope(&mut self, ticket: Ticket<J>)
        ensures { self.new ≡ record self.old { reply = Some ticket } }
    {
        self.reply = Some(ticket);
    }

    /// The body of the scope of this call has ended so: its fault is marked in the scope's book, and its share of the
    /// scope's count is given back. Then the worker waits for the scope's end, and works meanwhile: as far as a task
    /// that it has found, or to the end, when the outcome of the scope is at hand. The ticket to answer is the scope's
    /// own.
    pub fn end_body<R: Wait>(&mut self, rt: &R, call: OpenCall, ending: Ending) -> Move
        requires scope { IsScope (scope_in self.old.reply) call.number }
        requires ticket { HasTicket self.old.call (Some call.number) }
        requires rests { Resting self.old.chair }
        ensures path { WorkerGoes (Stay (at.StoreBody call ending)) self.old self.new result }
        ensures stands { Stands self.new result }
        ensures rests { Resting self.new.chair }
        ensures ends { Waited (Answer call None) result }
        ensures units { self.new.holds ≡ units_after result self.old.holds }
        ensures seat { SameSeat self.old self.new }
    {
        let owner = self.party();
        self.store_body(rt, call.number, ending);
        if self.lower_scope(rt, call.number, owner, Share::Body) {
            return self.go_on_ended(rt, call, owner);
        }
        self.wait(rt, Target::Answer { call, first: None })
    }

    // The last share of the scope's count was its body's: the scope's latch is set, and the wait for it begins.
    fn go_on_ended<R: Wait>(&mut self, rt: &R, call: OpenCall, owner: Party) -> Move
        requires scope { IsScope (scope_in self.old.reply) call.number }
        requires ticket { HasTicket self.old.call (Some call.number) }
        requires rests { Resting self.old.chair }
        ensures path { WorkerGoes (Stay (set_call call.number owner (Await call))) self.old self.new result }
        ensures stands { Stands self.new result }
        ensures rests { Resting self.new.chair }
        ensures ends { Waited (Answer call None) result }
        ensures units { self.new.holds ≡ units_after result self.old.holds }
        ensures seat { SameSeat self.old self.new }
    {
        let shape = self.shape;
        let index = self.index;
        let place = Place::LowerCount {
            count: Count::OfScope {
                call: call.number,
                owner,
            },
            share: Share::Body,
            then: Then::Await(call),
        };
        self.go_on_from(rt, shape, index, place, Seen::Yes)
    }

    // The body's ending goes into the book of the scope that the ticket to answer is of: a fault is marked as the
    // first, unless another was. The fault itself stays with the call.
    fn store_body<R: Wait>(&mut self, rt: &R, call: u64, ending: Ending)
        requires scope { IsScope (scope_in self.old.reply) call }
        ensures does { Does (acts.StoreBody call ending) saw.Done self.old self.new }
        ensures same { Same self.old self.new }
        ensures adds { Adds (acts.StoreBody call ending) saw.Done self.old.trace self.new.trace }
    {
        if ending == Ending::Fault {
            self.scope_at_hand()
                .book()
                .with(rt, |book| book.keep_fault());
        }
        self.add(Act::StoreBody { call, ending }, Seen::Done);
    }
}

// The spawn of the job of this name into the scope of this call and this owner.
#[inline(always)]
fn entry_of(call: u64, owner: Party, name: u64) -> Entry
    ensures { result ≡ entry_of call owner name }
{
    Entry {
        call,
        owner,
        pool: 0,
        job: name,
    }
}
