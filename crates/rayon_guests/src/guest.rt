//! An outside caller, for the time of one call: what it performs the call's acts with, and the calls.
ghost use Rattle.std.specs.Prelude.{◌≡◌, if◌then◌else◌, ◌⊎◌, [], None, Some, is_some, true, false, IfErr, MatchResult};
ghost use Rattle.rayon_atomics.specs.Tallies.{novice};
ghost use Rattle.rayon_drive.specs.declared.trace.Log.TheVariants.{Empty};
ghost use Rattle.rayon_drive.specs.Paths.{goes};
ghost use Rattle.rayon_machine_places.specs.declared.place.Count.TheVariants.{OfPool};
ghost use Rattle.rayon_machine_places.specs.declared.place.Move.TheVariants.{Stay, Back, HandBack};
ghost use Rattle.rayon_machine_places.specs.declared.place.Party.TheVariants.{Caller};
ghost use Rattle.rayon_machine_places.specs.declared.place.Place.TheVariants as at;
ghost use Rattle.rayon_machine_places.specs.declared.place.Share.TheVariants.{PoolValue};
ghost use Rattle.rayon_machine_places.specs.declared.place.Then.TheVariants.{Resume};
ghost use Rattle.rayon_machine_places.specs.declared.act.Seen.TheVariants as saw;
ghost use Rattle.rayon_machine_places.specs.Places.{plan_job};
ghost use Rattle.rayon_shared.specs.AtHand.{answer};
ghost use Rattle.rayon_shared.specs.Marks.{GivesUnit, SetBy, has_book, scope_in, tally_in};
ghost use Rattle.rayon_guests.specs.Paths.{CallerGoes};
ghost use Rattle.rayon_shared.specs.Pools.{shape_of};
ghost use Rattle.rayon_guests.specs.Visiting.{At, Fits, Keeps, KeepsCall, Kept, Stands, guest_needs, guest_on, guest_stays};
ghost use Rattle.rayon_guests.specs.Visits.{Does, GrownFor, HasCall, HasLatch, HasLoad, IsAnswer, IsLoadOf, IsNoCast, IsTried, LentFor, Needs, NoneSuch, Packed, Raises, Takes, TakesOf, TellsBy, first_of, hand, if_done, opening, sent, task_in, ticket_of, unit_after};
ghost use Rattle.rayon_queues.specs.Deques.{visitor};

use crate::load::Load;
use crate::paused::Paused;
use rayon_atomics::count::CountSeat;
use rayon_atomics::latch::LatchSeat;
use rayon_books::{Outcome, ScopeBook};
use rayon_drive::drive::{Perform, drive};
use rayon_drive::trace::Trace;
use rayon_jobs::{Done, JobKind};
use rayon_machine_places::act::{Act, Seen};
use rayon_machine_places::place::{
    Count, Ending, Entry, Latch, Move, OpenCall, Party, Place, Plan, Share, Then,
};
use rayon_machine_places::shape::PoolShape;
use rayon_queues::InjectorPass;
use rayon_shared::{PoolHold, Registry, set_latch};
use rayon_sleep::counters::CounterSeat;
use rayon_tasks::{CallCore, Pair, Task, Ticket, Work, task_of_job, task_of_pair, task_parts};
use rayon_words::Refusal;
use std::alloc::Global;
use std::marker::Model;
use std::mem;
use std::sync::Wait;

/// An outside caller, for the time of one call: its pass of the injector, what the call queues, until it is queued, the
/// tickets of the call, the book of a scope, while it holds it, the results that it found and its unit of the terminate
/// count. Each act of it adds one entry to its trace, and nothing else does.
#[derive(Drop)]
pub struct Guest<'a, J: JobKind> {
    pub(crate) registry: &'a Registry<Task<J>>,
    pub(crate) shape: PoolShape,
    pub(crate) inlet: InjectorPass<Task<J>>,
    // what the call queues, until it is queued
    pub(crate) load: Option<Load<J>>,
    // what its tickets are made of; none before a call
    pub(crate) alloc: Option<Global>,
    // why it was refused, if it was
    pub(crate) refusal: Refusal,
    // the ticket of its call, or of the scope that it spawns into
    pub(crate) call: Option<Ticket<J>>,
    // of two sides, the ticket to whose cell the first one's result goes
    pub(crate) first: Option<Ticket<J>>,
    // of a scope, the share of its ticket that its body is lent
    pub(crate) lent: Option<Ticket<J>>,
    // the number that it opened last in a scope's book
    pub(crate) slot: u64,
    // that book, from the opening of a number to the push of its job
    pub(crate) book: Option<ScopeBook<J>>,
    pub(crate) done: Option<Done<J>>,
    pub(crate) first_done: Option<Done<J>>,
    pub(crate) outcome: Option<Outcome<J>>,
    pub(crate) holds: bool,
    // the seat of the terminate count
    pub(crate) count: CountSeat,
    // the seat by which a latch was set last
    pub(crate) setter: Option<LatchSeat>,
    // the seat by which it stepped on a scope's count last
    pub(crate) tally: Option<CountSeat>,
    // the seat of the counters by which news was told last
    pub(crate) chair: Option<CounterSeat>,
    pub(crate) trace: Trace,
}

impl<'a, J: JobKind> Model for Guest<'a, J> {
    ghost use Rattle.std.specs.Prelude.{◌≡◌, ◌⊎◌};
    ghost use Rattle.std.specs.Coded.{codes};
    ghost use Rattle.rayon_atomics.specs.Tallies.{teller};
    ghost use Rattle.rayon_drive.specs.contracts.trace.Log as logs;
    ghost use Rattle.rayon_shared.specs.Marks.{seat_in, tally_in};
    ghost use Rattle.rayon_words.specs.declared.refusal.Refusal.TheVariants.{Ended, Full, NoRoom};
    ghost use Rattle.rayon_guests.specs.Visits.{Visit, watch_in};

    ghost Value = { Visit J J.Tag J.Output J.Fault J.Handler };

    ghost coded = { Prim.hlevel (codes, logs.the_row.coded) };

    ghost view = { λ g. record {
      count = g.registry.now.count;
      shape = g.shape;
      inlet = g.inlet;
      load = g.load;
      call = g.call;
      first = g.first;
      lent = g.lent;
      slot = g.slot;
      book = g.book;
      done = g.done;
      first_done = g.first_done;
      outcome = g.outcome;
      holds = g.holds;
      marks = record { set = seat_in g.setter; count = teller g.count };
      tally = tally_in g.tally;
      chair = watch_in g.chair;
      trace = g.trace;
    } };

    ghost invariant = { λ g. (g.inlet.injector ≡ g.registry.now.injector) × (g.count.table_id ≡ g.registry.now.count) × (g.shape.workers ≡ g.registry.now.workers) × ((g.refusal ≡ Ended) ⊎ (g.refusal ≡ Full) ⊎ (g.refusal ≡ NoRoom)) };
}

impl<'a, J: JobKind> Perform for Guest<'a, J> {
    ghost needs = { λ s a. Needs a (hand s) };

    ghost performed = { λ s a x t. Does a x s t };

    ghost trace = { λ s. s.trace };

    ghost stands = { λ s q m. (q ≡ Caller 0) × Stands (hand s) m };

    fn perform<R: Wait>(&mut self, rt: &R, act: Act) -> Seen {
        let seen = match act {
            Act::Raise {
                count: Count::OfPool(_),
                ..
            } => self.raise(rt),
            Act::Raise { .. } => self.raise_scope(rt),
            Act::Grow(name) => self.grow(name),
            Act::Slot { .. } => self.open_slot(rt),
            Act::SlotUndo { .. } => self.close_slot(rt),
            Act::LookInj(_) => yes(self.registry.injector().is_empty(&mut self.inlet)),
            Act::PushInj { job, .. } => self.push(rt, job),
            Act::PushCast(cast) => return self.push_cast(rt, cast),
            Act::News { was_empty, .. } => Seen::Wakes(self.news(rt, was_empty)),
            Act::Lock { worker, .. } => {
                self.registry.sleep().lock(rt, worker, false);
                Seen::Done
            }
            Act::Wake { worker, .. } => yes(self.registry.sleep().wake(rt, worker)),
            Act::Unlock { worker, .. } => {
                self.registry.sleep().unlock(rt, worker);
                Seen::Done
            }
            Act::StoreBody { ending, .. } => self.store_body(rt, ending),
            Act::LockWait(_) => self.wait(rt),
            Act::Take(_) => self.take(rt),
            Act::Lower {
                count: Count::OfPool(_),
                ..
            } => yes(self.lower(rt)),
            Act::Lower { .. } => yes(self.lower_scope(rt)),
            Act::LowerAll(cast) => yes(self.lower_all(rt, cast)),
            Act::Set { latch, worker, .. } => yes(self.set(latch, worker)),
            Act::LockSet(_) => self.set_lock_latch(rt),
            _ => unreachable!(),
        };
        self.trace.add(act, seen);
        seen
    }

    ghost stays = { λ s q m p e h. guest_stays s q m p e h };

    ghost can = { λ s q p r h. guest_needs s q p r h };

    ghost keeps = { λ s t h q p x r a d. guest_on s t h q p x r a d };
}

// Yes or no.
#[inline(always)]
fn yes(yes: bool) -> Seen
    ensures answer { result ≡ answer yes }
    ensures seen { IsAnswer result }
{
    if yes { Seen::Yes } else { Seen::No }
}

// An outside caller as a party of the table.
const CALLER: Party = Party::Caller(0);

/// The plan under which a drive goes that begins with no call: it can hand nothing back.
pub(crate) const NO_CALL: Plan = Plan::Detach { pool: 0, job: 0 };

/// The plan under which a drive goes that can hand pieces back.
pub(crate) const ALL_BACK: Plan = Plan::Here { pool: 0, job: 0 };

impl<'a, J: JobKind> Guest<'a, J> {
    /// An outside caller of this pool that has done nothing yet.
    pub fn new(registry: &'a Registry<Task<J>>) -> Guest<'a, J>
        ensures count { result.count ≡ registry.now.count }
        ensures inlet { result.inlet ≡ visitor registry.now.injector [] [] }
        ensures shape { result.shape ≡ shape_of registry.now.workers registry.now.breadth_first }
        ensures empty { (result.load ≡ None) × (result.call ≡ None) × (result.book ≡ None) × (result.holds ≡ false) × (result.trace ≡ Empty) }
    {
        Guest {
            shape: registry.shape(),
            inlet: registry.injector().pass(),
            registry,
            load: None,
            alloc: None,
            refusal: Refusal::NoRoom,
            call: None,
            first: None,
            lent: None,
            slot: 0,
            book: None,
            done: None,
            first_done: None,
            outcome: None,
            holds: false,
            count: registry.count_seat(),
            setter: None,
            tally: None,
            chair: None,
            trace: Trace::new(),
        }
    }

    /// The call of a caller that has nothing to queue, between two stretches of its acts.
    pub fn pause(self) -> Paused<J>
        requires unit { (self.holds ≡ true) × (self.load ≡ None) }
        ensures { result ≡ record { count = self.entry.count; call = self.entry.call; seat = self.entry.marks.count; trace = self.entry.trace } }
    {
        let Guest {
            call,
            count,
            trace,
            ..
        } = self;
        Paused { call, count, trace }
    }

    /// The same caller, who goes on with its call on this pool.
    pub fn resume(registry: &'a Registry<Task<J>>, paused: Paused<J>) -> Guest<'a, J>
        requires own { paused.count ≡ registry.now.count }
        ensures count { result.count ≡ paused.count }
        ensures shape { result.shape ≡ shape_of registry.now.workers registry.now.breadth_first }
        ensures call { (result.call ≡ paused.call) × (result.load ≡ None) }
        ensures unit { (result.holds ≡ true) × (result.marks.count ≡ paused.seat) }
        ensures trace { result.trace ≡ paused.trace }
    {
        let Paused { call, count, trace } = paused;
        let mut guest = Guest::new(registry);
        guest.call = call;
        guest.count = count;
        guest.trace = trace;
        guest.holds = true;
        guest
    }

    // Takes a unit of the terminate count for the call.
    pub(crate) fn raise<R: Wait>(&mut self, rt: &R) -> Seen
        requires { self.old.holds ≡ false }
        ensures same { self.new ≡ record self.old { holds = if_done result true self.old.holds; marks = record { set = self.old.marks.set; count = self.new.marks.count } } }
        ensures step { Raises result self.old.holds self.old.marks.count self.new.marks.count }
        ensures seen { IsTried result }
    {
        match self.registry.increment_terminate_count(rt, &mut self.count) {
            Ok(()) => {
                self.holds = true;
                Seen::Done
            }
            Err(refusal) => {
                self.refusal = refusal;
                Seen::Refused
            }
        }
    }

    // Makes the tickets of a call of this name: one, and where two sides are sent another for the first one's result. A
    // call without a load opens a scope, of whose ticket its body is lent a share.
    fn grow(&mut self, name: u64) -> Seen
        ensures same { self.new ≡ record self.old { call = self.new.call; first = if_done result (first_of name self.old.load) self.old.first; lent = self.new.lent } }
        ensures made { elim result [ saw.Done ↦ GrownFor self.old.shape.workers name self.old.load self.new.call × LentFor self.old.load self.new.call self.old.lent self.new.lent | _ ↦ (self.new.call ≡ self.old.call) × (self.new.lent ≡ self.old.lent) ] }
        ensures seen { IsTried result }
    {
        self.refusal = Refusal::NoRoom;
        let Some(alloc) = self.alloc else {
            return Seen::Refused;
        };
        match &self.load {
            None => self.grow_scope(alloc, name),
            Some(Load::Sides(..)) => self.grow_call(alloc, name, true),
            Some(Load::Cast(_)) => self.grow_cast(alloc, name),
            Some(_) => self.grow_call(alloc, name, false),
        }
    }

    // Makes the ticket of a call of this name that sends a load, and where it is two sides another for the first one's
    // result.
    fn grow_call(&mut self, alloc: Global, name: u64, is_two: bool) -> Seen
        ensures made { self.new ≡ record self.old { call = if_done result (Some (ticket_of name)) self.old.call; first = if_done result (if is_two then Some (ticket_of name) else None) self.old.first } }
        ensures seen { IsTried result }
    {
        let Ok(call) = Ticket::of_caller(alloc, 0, name) else {
            return Seen::Refused;
        };
        let first = if is_two {
            match Ticket::of_caller(alloc, 0, name) {
                Ok(first) => Some(first),
                Err(_) => return Seen::Refused,
            }
        } else {
            None
        };
        self.call = Some(call);
        self.first = first;
        Seen::Done
    }

    // Puts the load last into the injector, as a task with shares of the call's tickets, and leaves the scope's book,
    // if it is held. Where there is no room the load stays in hand, and so does the book.
    fn push<R: Wait>(&mut self, rt: &R, name: u64) -> Seen
        requires packed { Packed name self.old.load self.old.call self.old.first }
        ensures pushed { self.new ≡ record self.old {
          inlet = if_done result (sent name self.old.slot self.old.load self.old.inlet) self.old.inlet;
          load = if_done result None self.old.load;
          holds = if_done result (unit_after self.old.load self.old.holds) self.old.holds;
          book = if_done result None self.old.book;
        } }
        ensures seen { IsTried result }
    {
        self.refusal = Refusal::NoRoom;
        let Some(load) = self.load.take() else {
            unreachable!()
        };
        let detached = matches!(load, Load::Detached(..));
        let task = match self.task_of(name, load) {
            Ok(task) => task,
            Err(load) => {
                self.load = Some(load);
                return Seen::Refused;
            }
        };
        match self.registry.injector().push(rt, &mut self.inlet, task) {
            Ok(()) => {
                if detached {
                    self.holds = false;
                }
                self.leave_book(rt);
                Seen::Done
            }
            Err(task) => {
                self.load = Some(load_of(task));
                Seen::Refused
            }
        }
    }

    // The task of a load, with shares of the call's tickets. Where there is no room the load comes back.
    fn task_of(&self, name: u64, load: Load<J>) -> Result<Task<J>, Load<J>>
        requires { Packed name (Some load) self.now.call self.now.first }
        ensures { MatchResult result (λ t. t ≡ task_in name self.now.slot load) (λ l. l ≡ load) }
    {
        match load {
            Load::Detached(job, ticket) => Ok(task_of_job(job, true, ticket)),
            Load::Scoped(job, ticket) => Ok(task_of_job(job, true, ticket.numbered(self.slot))),
            Load::Cast(_) => unreachable!(),
            Load::Job(job) => match share_of(&self.call) {
                Some(share) => Ok(task_of_job(job, true, share)),
                None => Err(Load::Job(job)),
            },
            Load::Sides(a, b) => {
                let (Some(alloc), Some(first), Some(share)) = (
                    self.alloc,
                    share_of(&self.first),
                    share_of(&self.call),
                ) else {
                    return Err(Load::Sides(a, b));
                };
                match task_of_pair(alloc, a, b, first, share) {
                    Ok(task) => Ok(task),
                    Err((a, b)) => Err(Load::Sides(a, b)),
                }
            }
        }
    }

    // Tells by a seat of its own that the load was pushed. Answers how many are to be woken.
    fn news<R: Wait>(&mut self, rt: &R, was_empty: bool) -> u64
        ensures same { self.new ≡ record self.old { chair = self.new.chair } }
        ensures step { TellsBy was_empty (saw.Wakes result) self.new.chair }
    {
        let counters = self.registry.sleep().counters();
        let mut seat = counters.guest_seat();
        let owed = counters.news(rt, &mut seat, was_empty);
        self.chair = Some(seat);
        owed
    }

    // Blocks until the latch of the call is set.
    fn wait<R: Wait>(&mut self, rt: &R) -> Seen
        requires { (n : _) × HasCall n self.old.call }
        ensures same { self.new ≡ self.old }
        ensures seen { result ≡ saw.Done }
    {
        let Some(call) = &self.call else {
            unreachable!()
        };
        let Some(latch) = call.lock_latch() else {
            unreachable!()
        };
        latch.wait(rt);
        Seen::Done
    }

    // Takes what the cells of the call hold, and of the call of a scope or of a broadcast what its book gives.
    fn take<R: Wait>(&mut self, rt: &R) -> Seen
        ensures same { self.new ≡ record self.old { done = self.new.done; first_done = self.new.first_done; outcome = self.new.outcome } }
        ensures found { TakesOf (has_book self.old.call) result self.old.first self.old.outcome self.new.done self.new.first_done self.new.outcome }
    {
        let Some(outcome) = self.outcome_of_call(rt) else {
            return self.take_cells(rt);
        };
        let ending = outcome.ending();
        self.done = None;
        self.first_done = None;
        self.outcome = Some(outcome);
        Seen::Found(ending)
    }

    // Takes what the cells of the call hold.
    fn take_cells<R: Wait>(&mut self, rt: &R) -> Seen
        ensures same { self.new ≡ record self.old { done = self.new.done; first_done = self.new.first_done } }
        ensures found { Takes result self.old.first self.new.done self.new.first_done }
    {
        self.first_done = match &self.first {
            Some(first) => first.take(rt),
            None => None,
        };
        let found = match &self.call {
            Some(call) => call.take(rt),
            None => None,
        };
        match found {
            Some(done) => {
                let ending = done.ending();
                self.done = Some(done);
                Seen::Found(ending)
            }
            None => {
                self.done = None;
                Seen::Missing
            }
        }
    }

    // Gives the unit of the terminate count back.
    fn lower<R: Wait>(&mut self, rt: &R) -> bool
        ensures same { self.new ≡ record self.old { holds = false; marks = record { set = self.old.marks.set; count = self.new.marks.count } } }
        ensures step { GivesUnit true result self.old.marks.count self.new.marks.count }
    {
        self.holds = false;
        self.registry.decrement_terminate_count(rt, &mut self.count)
    }

    // Sets a worker's terminate latch, or the core latch of the call in hand, by the one step that makes a seat of it.
    fn set(&mut self, latch: Latch, worker: usize) -> bool
        requires { HasLatch latch self.old.call }
        ensures same { self.new ≡ record self.old { marks = record { set = self.new.marks.set; count = self.old.marks.count } } }
        ensures step { SetBy (NoneSuch latch worker self.old.shape.workers self.old.call) result self.new.marks.set }
    {
        let struck = match latch {
            Latch::Terminate => set_latch(self.registry.terminate(worker)),
            Latch::OfCall(_) => {
                let Some(call) = &self.call else {
                    unreachable!()
                };
                set_latch(call.core_latch())
            }
        };
        match struck {
            Some((slept, seat)) => {
                self.setter = Some(seat);
                slept
            }
            None => {
                self.setter = None;
                false
            }
        }
    }

    // Sets the lock latch of the call in hand.
    fn set_lock_latch<R: Wait>(&self, rt: &R) -> Seen
        ensures seen { result ≡ saw.Done }
    {
        if let Some(call) = &self.call {
            if let Some(latch) = call.lock_latch() {
                latch.set(rt);
            }
        }
        Seen::Done
    }

    // Performs a call of this plan from this place on, as far as its end.
    pub(crate) fn drive<R: Wait>(&mut self, rt: &R, plan: Plan, place: Place) -> Move
        requires { At plan (hand self.old) (Stay place) }
        ensures path { CallerGoes (Stay place) self.old self.new result }
        ensures ends { At plan (hand self.new) result × (goes result ≡ false) }
        ensures kept { Kept (plan_job plan) (hand self.old) (hand self.new) × KeepsCall plan self.old.call self.new.call × (self.new.shape ≡ self.old.shape) × (self.new.count ≡ self.old.count) }
    {
        let shape = self.shape;
        drive(rt, shape, CALLER, Move::Stay(place), self)
    }

    /// Makes the call of this plan with this load: it takes its unit of the terminate count, makes its tickets, queues
    /// the load, wakes workers for it, and if it waits blocks until its results are there. Answers the results that
    /// were found, of two sides that of the first one first. Refused `Ended`, `Full`, `NoRoom`, with the load back:
    /// nothing was pushed then, and a unit of the terminate count that was taken is given back.
    pub fn call<R: Wait>(
        &mut self,
        rt: &R,
        alloc: Global,
        plan: Plan,
        load: Load<J>,
    ) -> Result<(Option<Done<J>>, Option<Done<J>>), (Refusal, Load<J>)>
        requires unit { self.old.holds ≡ false }
        requires load { IsNoCast load }
        requires fits { Fits self.old.shape.workers plan (Some load) self.old.call }
        ensures path { MatchResult result
            (λ found. CallerGoes (Stay (at.RaiseCount plan)) (record self.old { load = Some load }) (record self.new { first_done = found.0; done = found.1 }) Back)
            (λ e. CallerGoes (Stay (at.RaiseCount plan)) (record self.old { load = Some load }) (record self.new { load = Some e.1 }) (HandBack plan)) }
        ensures pushed { MatchResult result
            (λ _. self.new.inlet ≡ sent (plan_job plan) self.new.slot (Some load) self.old.inlet)
            (λ _. self.new.inlet ≡ self.old.inlet) }
        ensures back { IfErr result (λ e. e.1 ≡ load) }
        ensures refused { IfErr result (λ e. (e.0 ≡ Refusal.Ended) ⊎ (e.0 ≡ Refusal.Full) ⊎ (e.0 ≡ Refusal.NoRoom)) }
        ensures call { KeepsCall plan self.old.call self.new.call }
        ensures unit { (self.new.holds ≡ false) × (self.new.load ≡ None) }
    {
        self.load = Some(load);
        self.alloc = Some(alloc);
        match self.drive(rt, plan, Place::RaiseCount(plan)) {
            Move::Back => Ok((self.first_done.take(), self.done.take())),
            Move::HandBack(_) => match self.load.take() {
                Some(load) => Err((self.refusal, load)),
                None => unreachable!(),
            },
            _ => unreachable!(),
        }
    }

    /// Gives the unit of the terminate count back that this pool's value holds, by the seat of that unit. Where it was
    /// the last, each worker's terminate latch is set.
    pub fn end<R: Wait>(&mut self, rt: &R, hold: PoolHold)
        requires idle { (self.old.load ≡ None) × (self.old.holds ≡ false) }
        requires own { hold ≡ self.old.count }
        ensures path { CallerGoes (Stay (at.LowerCount (OfPool 0) PoolValue Resume)) (record self.old { holds = true; marks = record { set = self.old.marks.set; count = novice } }) self.new Back }
        ensures keeps { Keeps self.old self.new }
        ensures unit { self.new.holds ≡ false }
    {
        self.count = hold.spend();
        self.holds = true;
        let place = Place::LowerCount {
            count: Count::OfPool(0),
            share: Share::PoolValue,
            then: Then::Resume,
        };
        match self.drive(rt, NO_CALL, place) {
            Move::Back => {}
            _ => unreachable!(),
        }
    }
}

// A share of a ticket, if there is one and there is room for a share more.
pub(crate) fn share_of<J: JobKind>(ticket: &Option<Ticket<J>>) -> Option<Ticket<J>>
    ensures { (t : _) → result ≡ Some t → ticket.now ≡ Some t }
{
    match ticket {
        Some(ticket) => ticket.share().ok(),
        None => None,
    }
}

// The load of a task that was refused.
fn load_of<J: JobKind>(task: Task<J>) -> Load<J>
    requires { HasLoad task.work }
    ensures { IsLoadOf task result }
{
    let (work, _injected, ticket) = task_parts(task);
    match work {
        Work::Job(job) => {
            if ticket.scope().is_some() {
                Load::Scoped(job, ticket.numbered(0))
            } else if ticket.is_detached() {
                Load::Detached(job, ticket)
            } else {
                Load::Job(job)
            }
        }
        Work::Pair(Pair { first, second, .. }) => Load::Sides(first, second),
        Work::Piece(_) | Work::Token => unreachable!(),
    }
}
