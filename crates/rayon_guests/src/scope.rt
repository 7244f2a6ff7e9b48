//! The scopes of an outside caller: the call that opens one, the end of its body, and the spawns into a scope, whoever
//! waits for its end. A scope's count and its book are reached by the ticket in hand.
ghost use Rattle.std.specs.Prelude.{◌≡◌, ◌⊎◌, None, Some, IsSome, is_some, false, true, IfOk, IfErr, MatchResult};
ghost use Rattle.rayon_drive.specs.Paths.{goes};
ghost use Rattle.rayon_machine_places.specs.declared.place.Move.TheVariants.{Stay, Back, HandBack, StartRun};
ghost use Rattle.rayon_machine_places.specs.declared.place.Place.TheVariants as at;
ghost use Rattle.rayon_machine_places.specs.declared.place.Plan.TheVariants.{Enter};
ghost use Rattle.rayon_machine_places.specs.declared.act.Seen.TheVariants as saw;
ghost use Rattle.rayon_shared.specs.Marks.{GivesShare, IsScope, MissesShare, TakesShare, has_book, scope_in};
ghost use Rattle.rayon_guests.specs.Paths.{CallerGoes, Enters, EntersHere, EntersNone, EntersNoneHere};
ghost use Rattle.rayon_guests.specs.Visiting.{InBody, IsHere, Keeps};
ghost use Rattle.rayon_guests.specs.Visits.{IsNewScope, IsTried, Opens, OwnedBy, call_of, hand, if_done, opening, scoped_task, with_pushed};

use crate::guest::{Guest, NO_CALL, share_of};
use crate::load::Load;
use rayon_books::Outcome;
use rayon_jobs::JobKind;
use rayon_machine_places::act::Seen;
use rayon_machine_places::place::{Ending, Entry, Move, OpenCall, Place, Plan};
use rayon_tasks::{CallCore, Ticket};
use rayon_words::Refusal;
use std::alloc::Global;
use std::mem;
use std::sync::Wait;

impl<'a, J: JobKind> Guest<'a, J> {
    /// Opens a scope of this name: Raise, and Grow of its call, as far as its body's run. `lend` gives the share of its
    /// ticket for the body then. Refused `Ended`, `Full`, `NoRoom`, with the unit of the terminate count given back.
    pub fn open_scope<R: Wait>(&mut self, rt: &R, alloc: Global, name: u64) -> Result<(), Refusal>
        requires idle { (self.old.load ≡ None) × (self.old.holds ≡ false) }
        ensures path { MatchResult result
            (λ _. CallerGoes (Stay (at.RaiseCount (opening name))) self.old self.new (StartRun (at.ScopeBody (call_of name)) name))
            (λ _. CallerGoes (Stay (at.RaiseCount (opening name))) self.old self.new (HandBack (opening name))) }
        ensures opened { IfOk result (λ _. InBody (call_of name) (hand self.new)) }
        ensures lent { IfOk result (λ _. self.new.lent ≡ self.new.call) }
        ensures keeps { Keeps self.old self.new }
        ensures unit { IfErr result (λ _. (self.new.holds ≡ false) × (self.new.load ≡ None)) }
        ensures refused { IfErr result (λ r. (r ≡ Refusal.Ended) ⊎ (r ≡ Refusal.Full) ⊎ (r ≡ Refusal.NoRoom)) }
    {
        self.alloc = Some(alloc);
        let plan = Plan::Open(open_call(name));
        match self.drive(rt, plan, Place::RaiseCount(plan)) {
            Move::StartRun { .. } => Ok(()),
            Move::HandBack(_) => Err(self.refusal),
            _ => unreachable!(),
        }
    }

    /// The share of a scope's ticket that its body is lent, once.
    pub fn lend(&mut self) -> Option<Ticket<J>>
        ensures share { result ≡ self.old.lent }
        ensures same { self.new ≡ record self.old { lent = None } }
    {
        self.lent.take()
    }

    /// The body of the scope of this name has ended so: its fault is marked in the scope's book, and its share of the
    /// scope's count is given back. Then the caller blocks until all jobs of the scope have ended, and its unit of the
    /// terminate count is given back. Answers what the scope's book gave.
    pub fn end_body<R: Wait>(&mut self, rt: &R, name: u64, ending: Ending) -> Option<Outcome<J>>
        requires opened { InBody (call_of name) (hand self.old) }
        ensures path { CallerGoes (Stay (at.StoreBody (call_of name) ending)) self.old (record self.new { outcome = result }) Back }
        ensures keeps { Keeps self.old self.new }
        ensures unit { (self.new.holds ≡ false) × (self.new.load ≡ None) }
    {
        let call = open_call(name);
        let place = Place::StoreBody { call, ending };
        match self.drive(rt, NO_CALL, place) {
            Move::Back => self.outcome.take(),
            _ => unreachable!(),
        }
    }

    /// Spawns the job of this entry into a scope, which the ticket handed in is of: Raise of the scope's count, Slot,
    /// LookInj, PushInj, News and its wakes. The scope's book is held from Slot to the push. Answers the job's number
    /// in the book. Refused `NoRoom` before its Raise, at its number or at the push, `Full` also for want of numbers,
    /// `Ended`, with the job back and nothing pushed; a share of the count that was taken is given back.
    pub fn enter<R: Wait>(
        &mut self,
        rt: &R,
        alloc: Global,
        scope: &mut Option<Ticket<J>>,
        entry: Entry,
        job: J,
    ) -> Result<u64, (Refusal, J)>
        requires unit { self.old.holds ≡ false }
        requires scope { IsScope (scope_in scope.old) entry.call }
        requires here { (entry.pool ≡ 0) × IsHere entry.owner }
        requires owner { OwnedBy entry.owner scope.old }
        ensures path { MatchResult result (λ _. Enters scope.old entry self.old self.new) (λ _. EntersNone scope.old entry self.old self.new) }
        ensures pushed { MatchResult result
            (λ n. (u : _) × (scope.old ≡ Some u) × (self.new.inlet ≡ with_pushed self.old.inlet (scoped_task job u entry.job n)))
            (λ _. self.new.inlet ≡ self.old.inlet) }
        ensures back { IfErr result (λ e. e.1 ≡ job) }
        ensures scope { scope.new ≡ scope.old }
        ensures unit { (self.new.holds ≡ false) × (self.new.call ≡ self.old.call) }
        ensures refused { IfErr result (λ e. (e.0 ≡ Refusal.Ended) ⊎ (e.0 ≡ Refusal.Full) ⊎ (e.0 ≡ Refusal.NoRoom)) }
    {
        self.exchange_call(scope);
        let entered = self.enter_at_hand(rt, alloc, entry, job);
        self.exchange_call(scope);
        entered
    }

    // This ticket stands where that of the call does, and that where this one did.
    pub(crate) fn exchange_call(&mut self, ticket: &mut Option<Ticket<J>>)
        ensures guest { self.new ≡ record self.old { call = ticket.old } }
        ensures ticket { ticket.new ≡ self.old.call }
    {
        mem::swap(&mut self.call, ticket);
    }

    // Spawns the job into the scope whose ticket is in hand.
    fn enter_at_hand<R: Wait>(
        &mut self,
        rt: &R,
        alloc: Global,
        entry: Entry,
        job: J,
    ) -> Result<u64, (Refusal, J)>
        requires unit { self.old.holds ≡ false }
        requires scope { IsScope (scope_in self.old.call) entry.call }
        requires here { (entry.pool ≡ 0) × IsHere entry.owner }
        ensures path { MatchResult result (λ _. EntersHere entry self.old self.new) (λ _. (self.new ≡ self.old) ⊎ EntersNoneHere entry self.old self.new) }
        ensures pushed { MatchResult result
            (λ n. (u : _) × (self.old.call ≡ Some u) × (self.new.inlet ≡ with_pushed self.old.inlet (scoped_task job u entry.job n)))
            (λ _. self.new.inlet ≡ self.old.inlet) }
        ensures back { IfErr result (λ e. e.1 ≡ job) }
        ensures unit { (self.new.holds ≡ false) × (self.new.call ≡ self.old.call) }
        ensures refused { IfErr result (λ e. (e.0 ≡ Refusal.Ended) ⊎ (e.0 ≡ Refusal.Full) ⊎ (e.0 ≡ Refusal.NoRoom)) }
    {
        let Some(share) = share_of(&self.call) else {
            return Err((Refusal::NoRoom, job));
        };
        let ticket = share.renamed(entry.job).numbered(0);
        match self.call(rt, alloc, Plan::Enter(entry), Load::Scoped(job, ticket)) {
            Ok(_) => Ok(self.slot),
            Err((refusal, Load::Scoped(job, _))) => Err((refusal, job)),
            Err(_) => unreachable!(),
        }
    }

    // Makes the ticket of a scope of this name, and the share of it that the scope's body is lent.
    pub(crate) fn grow_scope(&mut self, alloc: Global, name: u64) -> Seen
        ensures same { self.new ≡ record self.old { call = self.new.call; first = if_done result None self.old.first; lent = self.new.lent } }
        ensures made { elim result [ saw.Done ↦ IsNewScope name self.new.call × (self.new.lent ≡ self.new.call) | _ ↦ (self.new.call ≡ self.old.call) × (self.new.lent ≡ self.old.lent) ] }
        ensures seen { IsTried result }
    {
        let Ok(call) = Ticket::of_callers_scope(alloc, 0, name) else {
            return Seen::Refused;
        };
        let Ok(lent) = call.share() else {
            return Seen::Refused;
        };
        self.call = Some(call);
        self.first = None;
        self.lent = Some(lent);
        Seen::Done
    }

    // Takes a share of the scope's count, by a seat that is made for it.
    pub(crate) fn raise_scope<R: Wait>(&mut self, rt: &R) -> Seen
        requires { IsSome (scope_in self.old.call) }
        ensures same { self.new ≡ record self.old { tally = self.new.tally } }
        ensures step { elim result [ saw.Done ↦ TakesShare (scope_in self.old.call) self.new.tally | _ ↦ MissesShare (scope_in self.old.call) self.new.tally ] }
        ensures seen { IsTried result }
    {
        let count = scope_of(&self.call).count();
        let mut seat = count.guest_seat();
        let raised = count.increment(rt, &mut seat);
        self.tally = Some(seat);
        match raised {
            Ok(()) => Seen::Done,
            Err(refusal) => {
                self.refusal = refusal;
                Seen::Refused
            }
        }
    }

    // Gives a share of the scope's count back, by a seat that is made for it. True exactly if it was the last.
    pub(crate) fn lower_scope<R: Wait>(&mut self, rt: &R) -> bool
        requires { IsSome (scope_in self.old.call) }
        ensures same { self.new ≡ record self.old { tally = self.new.tally } }
        ensures step { GivesShare (scope_in self.old.call) result self.new.tally }
    {
        let count = scope_of(&self.call).count();
        let mut seat = count.guest_seat();
        let was_last = count.set(rt, &mut seat);
        self.tally = Some(seat);
        was_last
    }

    // Opens the next number of the scope's book, which it holds from then on. Where there is none, or no room, it
    // leaves the book as it was.
    pub(crate) fn open_slot<R: Wait>(&mut self, rt: &R) -> Seen
        requires { IsSome (scope_in self.old.call) }
        ensures same { self.new ≡ record self.old { slot = self.new.slot; book = self.new.book } }
        ensures opened { elim result [ saw.Done ↦ Opens self.new.book self.new.slot × (is_some self.new.book ≡ true) | _ ↦ (self.new.book ≡ self.old.book) × (self.new.slot ≡ self.old.slot) ] }
        ensures seen { IsTried result }
    {
        let mut book = scope_of(&self.call).book().hold(rt);
        match book.open_slot() {
            Ok(number) => {
                self.slot = number;
                self.book = Some(book);
                Seen::Done
            }
            Err(refusal) => {
                let _taken = scope_of(&self.call).book().leave(rt, book);
                self.refusal = refusal;
                Seen::Refused
            }
        }
    }

    // Takes the number back that was opened last, and leaves the scope's book.
    pub(crate) fn close_slot<R: Wait>(&mut self, rt: &R) -> Seen
        requires { IsSome (scope_in self.old.call) }
        ensures same { self.new ≡ record self.old { book = None } }
        ensures seen { result ≡ saw.Done }
    {
        if let Some(book) = &mut self.book {
            book.undo_last();
        }
        self.leave_book(rt);
        Seen::Done
    }

    // Leaves the book of the scope whose ticket is in hand, if it is held.
    pub(crate) fn leave_book<R: Wait>(&mut self, rt: &R)
        ensures { self.new ≡ record self.old { book = None } }
    {
        if let (Some(book), Some(call)) = (self.book.take(), &self.call) {
            if let Some(scope) = call.scope() {
                let _taken = scope.book().leave(rt, book);
            }
        }
    }

    // The body's ending goes into the book of its scope: a fault is marked as the first, unless another was. The fault
    // itself stays with the call.
    pub(crate) fn store_body<R: Wait>(&self, rt: &R, ending: Ending) -> Seen
        requires { IsSome (scope_in self.now.call) }
        ensures seen { result ≡ saw.Done }
    {
        if ending == Ending::Fault {
            scope_of(&self.call)
                .book()
                .with(rt, |book| book.keep_fault());
        }
        Seen::Done
    }

    // What the book of the scope or the broadcast gives whose call it is. None where the call has no book.
    pub(crate) fn outcome_of_call<R: Wait>(&self, rt: &R) -> Option<Outcome<J>>
        ensures { is_some result ≡ has_book self.now.call }
    {
        let call = self.call.as_ref()?;
        if let Some(scope) = call.scope() {
            return Some(scope.book().with(rt, |book| Outcome::of_book(book)));
        }
        let broadcast = call.broadcast()?;
        Some(
            broadcast
                .book()
                .with(rt, |book| Outcome::of_runs(book.runs())),
        )
    }
}

// The call of this name to the one pool that there is.
#[inline(always)]
pub(crate) fn open_call(name: u64) -> OpenCall
    ensures { result ≡ call_of name }
{
    OpenCall {
        number: name,
        pool: 0,
        job: name,
    }
}

// The scope that a ticket is of, which is in hand.
pub(crate) fn scope_of<J: JobKind>(ticket: &Option<Ticket<J>>) -> &CallCore<J>
    requires { IsSome (scope_in ticket.now) }
    ensures { Some result.now ≡ scope_in ticket.now }
{
    let Some(ticket) = ticket else { unreachable!() };
    let Some(scope) = ticket.scope() else {
        unreachable!()
    };
    scope
}
