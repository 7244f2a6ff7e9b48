//! A worker's acts. Each does what the machine's act of its name does, and adds the one entry of that act to the trace.
ghost use Rattle.std.specs.Prelude.{◌≡◌, ◌⊎◌, ◌+◌, ◌-◌, ◌==◌, ℕ, [], true, false, Some, is_some, IfErr, IfOk, MatchOption, MatchResult};
ghost use Rattle.rayon_drive.specs.Traces.{Adds};
ghost use Rattle.rayon_machine_places.specs.declared.act.Act.TheVariants as acts;
ghost use Rattle.rayon_machine_places.specs.declared.act.Seen.TheVariants as saw;
ghost use Rattle.rayon_machine_places.specs.declared.place.Count.TheVariants.{OfPool};
ghost use Rattle.rayon_machine_places.specs.declared.place.Party.TheVariants.{Worker};
ghost use Rattle.rayon_atomics.specs.Latches.{guard};
ghost use Rattle.rayon_performers.specs.Hands.{Does, Looks, Needs, Told};
ghost use Rattle.rayon_shared.specs.AtHand.{HasTicket, answer, call_latch};
ghost use Rattle.rayon_performers.specs.Keeps.{bench_needs, bench_on, bench_stays};
ghost use Rattle.rayon_shared.specs.Marks.{GivesUnit, MissesUnit, NoLatch, SetBy, TakesUnit, has_book};
ghost use Rattle.rayon_performers.specs.Stands.{Anyhow, At, IsWorker};
ghost use Rattle.rayon_queues.specs.Deques.{Pushed, SameDeque, Unmoved};
ghost use Rattle.rayon_tasks.specs.Tasks.{taken_in};
ghost use Rattle.rayon_tasks.specs.Tickets.{unscoped};

use crate::bench::Bench;
use rayon_atomics::latch::LatchSeat;
use rayon_books::Outcome;
use rayon_drive::drive::Perform;
use rayon_jobs::JobKind;
use rayon_machine_places::act::{Act, Seen};
use rayon_machine_places::place::{Count, Ending, JobKind as Kind, Latch, Party, Share, Taken};
use rayon_shared::set_latch;
use rayon_tasks::{Call, Task, Ticket};
use rayon_words::Refusal;
use std::alloc::Global;
use std::sync::Wait;
use std::thread;

impl<J: JobKind> Perform for Bench<J> {
    ghost needs = { λ s a. Needs a s };

    ghost performed = { λ s a x t. Does a x s t };

    ghost trace = { λ s. s.trace };

    ghost stands = { λ s q m. IsWorker q × At Anyhow q s m };

    fn perform<R: Wait>(&mut self, rt: &R, act: Act) -> Seen {
        match act {
            Act::Probe(latch) => yes(self.probe(latch)),
            Act::Sleepy(latch) => self.get_sleepy(latch),
            Act::Asleep(latch) => self.fall_asleep(latch),
            Act::Wakeup(latch) => self.wake_up(latch),
            Act::PopOwn => self.pop_own(),
            Act::LookOwn => yes(self.look_own()),
            Act::PopInj => self.pop_injected(rt),
            Act::Steal { pool, victim } => self.steal(rt, pool, victim),
            Act::Begin(job) => self.begin(job),
            Act::FifoOut {
                token,
                worker,
                scope,
            } => self.redeem(rt, token, worker, scope),
            Act::Store { call, ending } => {
                self.store(rt, call, ending);
                Seen::Done
            }
            Act::Take(call) => self.take(rt, call),
            Act::Lower {
                count: Count::OfPool(pool),
                share,
            } => yes(self.lower(rt, pool, share)),
            Act::PushOwn { .. }
            | Act::PushInj { .. }
            | Act::FifoIn { .. }
            | Act::FifoUndo(_)
            | Act::RaiseAll(_)
            | Act::PushCast(_)
            | Act::LowerAll(_)
            | Act::Grow(_)
            | Act::LockWait(_)
            | Act::Raise { .. }
            | Act::Lower { .. }
            | Act::Slot { .. }
            | Act::SlotUndo { .. }
            | Act::SlotAll(_)
            | Act::SlotUndoAll(_)
            | Act::StoreBody { .. }
            | Act::StoreSlot { .. }
            | Act::StorePiece { .. }
            | Act::Idle => unreachable!(),
            Act::Pick => self.pick(),
            Act::TakeCast => self.take_cast(rt),
            Act::LookCast => {
                let seen = yes(self.registry.casts().is_empty(rt, self.index));
                self.add(act, seen)
            }
            Act::LookInj(_) => {
                let seen = yes(self.registry.injector().is_empty(&mut self.inlet));
                self.add(act, seen)
            }
            Act::AddInactive => self.add_inactive(),
            Act::SubInactive => self.sub_inactive(),
            Act::Announce => self.announce(rt),
            Act::Load => self.load(),
            Act::TryAdd {
                sleeping,
                inactive,
                jec,
            } => self.try_add(sleeping, inactive, jec),
            Act::SubSleeping => self.sub_sleeping(),
            Act::News { pool, was_empty } => Seen::Wakes(self.news(rt, pool, was_empty)),
            Act::Block => self.block(rt),
            Act::Lock { pool, worker } => self.lock(rt, pool, worker),
            Act::Unlock { .. } | Act::Wake { .. } | Act::LockSet(_) => {
                let seen = self.touch(rt, act);
                self.add(act, seen)
            }
            Act::Set {
                latch,
                pool,
                worker,
            } => self.set(latch, pool, worker),
        }
    }

    ghost stays = { λ s q m p e h. bench_stays s q m p e h };

    ghost can = { λ s q p r h. bench_needs s q p r h };

    ghost keeps = { λ s t h q p x r a d. bench_on s t h q p x r a d };
}

// Yes or no.
#[inline(always)]
fn yes(yes: bool) -> Seen
    ensures { result ≡ answer yes }
{
    if yes { Seen::Yes } else { Seen::No }
}

impl<J: JobKind> Bench<J> {
    // The worker as a party of its pool, which is the only one here.
    #[inline(always)]
    pub(crate) fn party(&self) -> Party
        ensures { result ≡ Worker 0 self.now.index }
    {
        Party::Worker {
            pool: 0,
            index: self.index,
        }
    }

    // Adds the entry of an act that was done.
    #[inline(always)]
    pub(crate) fn add(&mut self, act: Act, seen: Seen) -> Seen
        ensures same { self.new ≡ record self.old { trace = self.new.trace } }
        ensures adds { Adds act seen self.old.trace self.new.trace }
        ensures seen { result ≡ seen }
    {
        self.trace.add(act, seen);
        seen
    }

    // Adds the entry of an act that took a task, which is in hand now.
    #[inline(always)]
    fn took(&mut self, act: Act, task: Task<J>) -> Seen
        ensures same { self.new ≡ record self.old { task = Some task; trace = self.new.trace } }
        ensures seen { result ≡ saw.Task (taken_in task) }
        ensures adds { Adds act result self.old.trace self.new.trace }
    {
        let taken = task.taken();
        self.task = Some(task);
        self.add(act, Seen::Task(taken))
    }

    // Takes the newest task of the own deque.
    #[inline(always)]
    pub(crate) fn pop_own(&mut self) -> Seen
        ensures does { Does acts.PopOwn result self.old self.new }
        ensures adds { Adds acts.PopOwn result self.old.trace self.new.trace }
    {
        match self.own.pop() {
            Some(task) => self.took(Act::PopOwn, task),
            None => self.add(Act::PopOwn, Seen::Missing),
        }
    }

    // Takes the newest task of the own deque, and hands it out: it is in hand by what the caller has.
    #[inline(always)]
    pub(crate) fn pop_out(&mut self) -> Option<Task<J>>
        ensures does { MatchOption result
            (Does acts.PopOwn saw.Missing self.old self.new)
            (λ t. Does acts.PopOwn (saw.Task (taken_in t)) self.old (record self.new { task = Some t })) }
        ensures adds { MatchOption result
            (Adds acts.PopOwn saw.Missing self.old.trace self.new.trace)
            (λ t. Adds acts.PopOwn (saw.Task (taken_in t)) self.old.trace self.new.trace) }
    {
        match self.own.pop() {
            Some(task) => {
                self.add(Act::PopOwn, Seen::Task(task.taken()));
                Some(task)
            }
            None => {
                self.add(Act::PopOwn, Seen::Missing);
                None
            }
        }
    }

    /// Sees whether the own deque is empty.
    #[inline(always)]
    pub fn look_own(&mut self) -> bool
        ensures does { Looks self.old self.new }
        ensures adds { Adds acts.LookOwn (answer result) self.old.trace self.new.trace }
        ensures empty { self.old.own.left ≡ [] → result ≡ true }
    {
        let is_empty = self.own.is_empty();
        self.add(Act::LookOwn, yes(is_empty));
        is_empty
    }

    // Takes the oldest injected task. It is the last look of a search: where nothing was found, other threads run first
    // before the worker searches again.
    fn pop_injected<R: Wait>(&mut self, rt: &R) -> Seen
        ensures does { Does acts.PopInj result self.old self.new }
        ensures adds { Adds acts.PopInj result self.old.trace self.new.trace }
    {
        match self.registry.injector().take(rt, &mut self.inlet) {
            Some(task) => self.took(Act::PopInj, task),
            None => {
                thread::yield_now();
                self.add(Act::PopInj, Seen::Missing)
            }
        }
    }

    // Takes the oldest piece of the worker's own broadcast list.
    #[inline(always)]
    pub(crate) fn take_cast<R: Wait>(&mut self, rt: &R) -> Seen
        ensures does { Does acts.TakeCast result self.old self.new }
        ensures adds { Adds acts.TakeCast result self.old.trace self.new.trace }
    {
        match self.registry.casts().take_oldest(rt, self.index) {
            Some(piece) => self.took(Act::TakeCast, piece),
            None => self.add(Act::TakeCast, Seen::Missing),
        }
    }

    // Chooses the victim to begin with.
    fn pick(&mut self) -> Seen
        ensures does { Does acts.Pick result self.old self.new }
        ensures adds { Adds acts.Pick result self.old.trace self.new.trace }
    {
        let first = self.random.next_usize(self.registry.num_threads());
        self.add(Act::Pick, Seen::Start(first))
    }

    // Takes the oldest task of a victim's deque, by a pass made for it.
    fn steal<R: Wait>(&mut self, rt: &R, pool: usize, victim: usize) -> Seen
        ensures does { Does (acts.Steal pool victim) result self.old self.new }
        ensures adds { Adds (acts.Steal pool victim) result self.old.trace self.new.trace }
    {
        let act = Act::Steal { pool, victim };
        let stealers = self.registry.stealers();
        if victim >= self.registry.num_threads() {
            return self.add(act, Seen::Missing);
        }
        let mut thief = stealers.pass(victim);
        let stolen = stealers.steal(rt, victim, &mut thief);
        self.thief = Some(thief);
        match stolen {
            Some(task) => self.took(act, task),
            None => self.add(act, Seen::Missing),
        }
    }

    // Begins a run: of the task at hand, if there is one.
    #[inline(always)]
    pub(crate) fn begin(&mut self, job: u64) -> Seen
        ensures does { Does (acts.Begin job) result self.old self.new }
        ensures adds { Adds (acts.Begin job) result self.old.trace self.new.trace }
    {
        let kind = match &self.task {
            Some(task) => task.kind(),
            None => Kind::Direct,
        };
        self.add(Act::Begin(job), Seen::Begun(kind))
    }

    // Puts the result at hand into its call's cell, and of two sides the first one's into its own.
    pub(crate) fn store<R: Wait>(&mut self, rt: &R, call: u64, ending: Ending)
        ensures does { Does (acts.Store call ending) saw.Done self.old self.new }
        ensures adds { Adds (acts.Store call ending) saw.Done self.old.trace self.new.trace }
    {
        if let Some((ticket, done)) = self.first.take() {
            ticket.store(rt, done);
        }
        if let (Some(reply), Some(done)) = (&self.reply, self.done.take()) {
            reply.store(rt, done);
        }
        self.add(Act::Store { call, ending }, Seen::Done);
    }

    // Takes what the call's cell holds, and of the call of a scope or a broadcast what its book gives.
    fn take<R: Wait>(&mut self, rt: &R, call: u64) -> Seen
        ensures does { Does (acts.Take call) result self.old self.new }
        ensures adds { Adds (acts.Take call) result self.old.trace self.new.trace }
    {
        if let Some(outcome) = self.outcome_of_call(rt) {
            let ending = outcome.ending();
            self.done = None;
            self.outcome = Some(outcome);
            return self.add(Act::Take(call), Seen::Found(ending));
        }
        let found = match &self.call {
            Some(call) => call.ticket.take(rt),
            None => None,
        };
        match found {
            Some(done) => {
                let ending = done.ending();
                self.done = Some(done);
                self.add(Act::Take(call), Seen::Found(ending))
            }
            None => {
                self.done = None;
                self.add(Act::Take(call), Seen::Missing)
            }
        }
    }

    // What the book of the scope or the broadcast gives whose call is at hand. None where that is of neither.
    #[inline(always)]
    fn outcome_of_call<R: Wait>(&self, rt: &R) -> Option<Outcome<J>>
        ensures { is_some result ≡ has_book self.now.call }
    {
        let ticket = &self.call.as_ref()?.ticket;
        if let Some(scope) = ticket.scope() {
            return Some(scope.book().with(rt, |book| Outcome::of_book(book)));
        }
        let core = ticket.broadcast()?;
        Some(core.book().with(rt, |book| Outcome::of_runs(book.runs())))
    }

    // Takes a unit of the terminate count for a call of this worker. The outermost call's stands in the pool's own
    // count; those of the calls nested in it are counted by the worker alone, since under the outermost one the pool
    // cannot end.
    #[inline(always)]
    pub(crate) fn raise<R: Wait>(&mut self, rt: &R, job: u64) -> Result<(), Refusal>
        ensures does { MatchResult result (λ _. Does (acts.Raise (OfPool 0) job) saw.Done self.old self.new) (λ _. Does (acts.Raise (OfPool 0) job) saw.Refused self.old self.new) }
        ensures left { MatchResult result (λ _. self.new ≡ record self.old { holds = self.old.holds + 1; marks = self.new.marks; trace = self.new.trace }) (λ _. Told self.old self.new) }
        ensures adds { MatchResult result (λ _. Adds (acts.Raise (OfPool 0) job) saw.Done self.old.trace self.new.trace) (λ _. Adds (acts.Raise (OfPool 0) job) saw.Refused self.old.trace self.new.trace) }
        ensures refused { IfErr result (λ r. (r ≡ Refusal.Ended) ⊎ (r ≡ Refusal.Full)) }
    {
        let act = Act::Raise {
            count: Count::OfPool(0),
            job,
        };
        match self.hold(rt) {
            Ok(()) => {
                self.add(act, Seen::Done);
                Ok(())
            }
            Err(refusal) => {
                self.add(act, Seen::Refused);
                Err(refusal)
            }
        }
    }

    // One unit more, in the pool's own count or in the worker's.
    #[inline(always)]
    fn hold<R: Wait>(&mut self, rt: &R) -> Result<(), Refusal>
        ensures same { MatchResult result
            (λ _. self.new ≡ record self.old { holds = self.old.holds + 1; marks = record { set = self.old.marks.set; count = self.new.marks.count } })
            (λ _. self.new ≡ record self.old { marks = record { set = self.old.marks.set; count = self.new.marks.count } }) }
        ensures step { MatchResult result
            (λ _. TakesUnit (self.old.holds == 0) self.old.marks.count self.new.marks.count)
            (λ _. MissesUnit (self.old.holds == 0) self.old.marks.count self.new.marks.count) }
        ensures refused { IfErr result (λ r. (r ≡ Refusal.Ended) ⊎ (r ≡ Refusal.Full)) }
    {
        let Some(holds) = self.holds.checked_add(1) else {
            return Err(Refusal::Full);
        };
        if self.holds == 0 {
            self.registry
                .increment_terminate_count(rt, &mut self.count)?;
        }
        self.holds = holds;
        Ok(())
    }

    // Gives a unit of the terminate count back.
    #[inline(always)]
    pub(crate) fn lower<R: Wait>(&mut self, rt: &R, pool: usize, share: Share) -> bool
        ensures does { Does (acts.Lower (OfPool pool) share) (answer result) self.old self.new }
        ensures adds { Adds (acts.Lower (OfPool pool) share) (answer result) self.old.trace self.new.trace }
        ensures left { self.new ≡ record self.old { holds = self.old.holds - 1; marks = self.new.marks; trace = self.new.trace } }
    {
        let was_last = self.give(rt);
        let count = Count::OfPool(pool);
        self.add(Act::Lower { count, share }, yes(was_last));
        was_last
    }

    // One unit fewer, in the pool's own count or in the worker's. True exactly if it was the pool's last.
    #[inline(always)]
    fn give<R: Wait>(&mut self, rt: &R) -> bool
        ensures same { self.new ≡ record self.old { holds = self.old.holds - 1; marks = record { set = self.old.marks.set; count = self.new.marks.count } } }
        ensures step { GivesUnit (self.old.holds == 1) result self.old.marks.count self.new.marks.count }
    {
        let is_outermost = self.holds == 1;
        self.holds = self.holds.saturating_sub(1);
        if is_outermost {
            self.registry.decrement_terminate_count(rt, &mut self.count)
        } else {
            false
        }
    }

    // Makes the call for the job of this name, and a share of its ticket. Refused where there is no room.
    #[inline(always)]
    pub(crate) fn grow(&mut self, alloc: Global, number: u64) -> Option<(Call<J>, Ticket<J>)>
        ensures same { self.new ≡ record self.old { trace = self.new.trace } }
        ensures grown { MatchOption result (Adds (acts.Grow number) saw.Refused self.old.trace self.new.trace) (λ t. Adds (acts.Grow number) saw.Done self.old.trace self.new.trace × (t.0.ticket ≡ unscoped (Worker 0 self.old.index) number false) × (t.1 ≡ t.0.ticket)) }
    {
        match self.next_call(alloc, number) {
            Ok(grown) => {
                self.add(Act::Grow(number), Seen::Done);
                Some(grown)
            }
            Err(_) => {
                self.add(Act::Grow(number), Seen::Refused);
                None
            }
        }
    }

    // The call for the job of this name, and a share of its ticket: those that were kept last serve it, or new ones.
    // Refused `NoRoom`.
    #[inline(always)]
    fn next_call(&mut self, alloc: Global, number: u64) -> Result<(Call<J>, Ticket<J>), Refusal>
        ensures same { self.new ≡ self.old }
        ensures ticket { IfOk result (λ c. (c.0.ticket ≡ unscoped (Worker 0 self.old.index) number false) × (c.1 ≡ c.0.ticket)) }
    {
        if let Some((Call { ticket, latch }, share)) = self.next_spare() {
            if self.is_own(&ticket) && self.is_own(&share) {
                let ticket = ticket.renamed(number);
                let share = share.renamed(number);
                return Ok((Call { ticket, latch }, share));
            }
        }
        let call = Call::new(alloc, 0, self.index, number)?;
        let share = call.ticket.share()?;
        Ok((call, share))
    }

    // The call that was kept last, and its share.
    #[inline(always)]
    fn next_spare(&mut self) -> Option<(Call<J>, Ticket<J>)>
        ensures { self.new ≡ self.old }
    {
        let Some(spares) = &mut self.spares else {
            return None;
        };
        let last = self.kept.checked_sub(1)?;
        self.kept = last;
        match spares.get_mut(last) {
            Some(place) => place.take(),
            None => None,
        }
    }

    // Whether this is the ticket of a call of the worker's own that is no scope's.
    #[inline(always)]
    fn is_own(&self, ticket: &Ticket<J>) -> bool
        ensures { result ≡ true → ticket.now ≡ unscoped (Worker 0 self.now.index) ticket.now.number false }
    {
        match ticket.owner() {
            Party::Worker { pool: 0, index } => {
                index == self.index && !ticket.is_detached() && ticket.is_alone()
            }
            _ => false,
        }
    }

    // Pushes a task onto the own deque, and leaves the book of the scope of this call, if there is one. Where there is
    // no room the task comes back.
    #[inline(always)]
    pub(crate) fn push_own(
        &mut self,
        job: u64,
        book: Option<u64>,
        task: Task<J>,
    ) -> Result<(), Task<J>>
        ensures same { SameDeque self.old.own self.new.own × (self.new ≡ record self.old { own = self.new.own; trace = self.new.trace }) }
        ensures pushed { MatchResult result (λ _. Pushed self.old.own task self.new.own × Adds (acts.PushOwn job book) saw.Done self.old.trace self.new.trace) (λ back. (back ≡ task) × Unmoved self.old.own self.new.own × Adds (acts.PushOwn job book) saw.Refused self.old.trace self.new.trace) }
    {
        match self.own.push(task) {
            Ok(()) => {
                self.add(Act::PushOwn { job, book }, Seen::Done);
                Ok(())
            }
            Err(task) => {
                self.add(Act::PushOwn { job, book }, Seen::Refused);
                Err(task)
            }
        }
    }

    // An act that touches nothing of the worker's own: sleep locks and latches.
    fn touch<R: Wait>(&self, rt: &R, act: Act) -> Seen {
        let sleep = self.registry.sleep();
        match act {
            Act::Unlock { worker, .. } => {
                sleep.unlock(rt, worker);
                Seen::Done
            }
            Act::Wake { worker, .. } => yes(sleep.wake(rt, worker)),
            Act::LockSet(_) => {
                self.set_lock_latch(rt);
                Seen::Done
            }
            _ => Seen::Done,
        }
    }

    // Sets the lock latch of the ticket to answer.
    fn set_lock_latch<R: Wait>(&self, rt: &R) {
        if let Some(reply) = &self.reply {
            if let Some(latch) = reply.lock_latch() {
                latch.set(rt);
            }
        }
    }

    // Sets a worker's terminate latch, or the core latch of the ticket to answer, by the one step that makes a seat of
    // it.
    fn set(&mut self, latch: Latch, pool: usize, worker: usize) -> Seen
        requires { HasTicket self.old.reply (call_latch latch) }
        ensures does { Does (acts.Set latch pool worker) result self.old self.new }
        ensures adds { Adds (acts.Set latch pool worker) result self.old.trace self.new.trace }
    {
        let act = Act::Set {
            latch,
            pool,
            worker,
        };
        if self.strike(latch, worker) {
            self.add(act, Seen::Yes)
        } else {
            self.add(act, Seen::No)
        }
    }

    // Keeps the seat by which the latch was set. True exactly if its owner slept.
    fn strike(&mut self, latch: Latch, worker: usize) -> bool
        requires { HasTicket self.old.reply (call_latch latch) }
        ensures same { self.new ≡ record self.old { marks = record { set = self.new.marks.set; count = self.old.marks.count } } }
        ensures step { SetBy (NoLatch latch worker self.old.deques self.old.reply) result self.new.marks.set }
    {
        match self.struck(latch, worker) {
            Some((slept, seat)) => {
                self.setter = Some(seat);
                slept
            }
            None => {
                self.setter = None;
                false
            }
        }
    }

    // The one step that sets the latch, and the seat that it makes.
    fn struck(&self, latch: Latch, worker: usize) -> Option<(bool, LatchSeat)>
        requires { HasTicket self.now.reply (call_latch latch) }
        ensures { MatchOption result (NoLatch latch worker self.now.deques self.now.reply) (λ r. SetBy ⊥ r.0 (Some (guard r.1))) }
    {
        match latch {
            Latch::Terminate => set_latch(self.registry.terminate(worker)),
            Latch::OfCall(_) => {
                let Some(reply) = &self.reply else {
                    unreachable!()
                };
                set_latch(reply.core_latch())
            }
        }
    }
}
