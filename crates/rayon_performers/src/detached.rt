//! A worker's detached jobs: each has a unit of the terminate count of its own, which the spawn takes and the end of
//! the job's run gives back. It stands in the pool's word, whatever units the worker's calls hold, since the job may
//! outlast them; so while the spawn and that end last the job's unit stands in the place of theirs. And the end of each
//! run.
ghost use Rattle.std.specs.Prelude.{◌≡◌, ◌⊎◌, ◌+◌, ◌==◌, Bool, true, false, IfOk, IfErr, MatchResult};
ghost use Rattle.rayon_machine_places.specs.declared.place.Count.TheVariants.{OfPool};
ghost use Rattle.rayon_machine_places.specs.declared.place.Move.TheVariants.{Back, HandBack, Stay};
ghost use Rattle.rayon_machine_places.specs.declared.place.Party.TheVariants.{Worker};
ghost use Rattle.rayon_machine_places.specs.declared.place.Place.TheVariants as at;
ghost use Rattle.rayon_machine_places.specs.declared.place.Plan.TheVariants.{Detach};
ghost use Rattle.rayon_machine_places.specs.declared.place.Share.TheVariants.{OfJob};
ghost use Rattle.rayon_machine_places.specs.declared.place.Then.TheVariants.{Resume};
ghost use Rattle.rayon_performers.specs.Finds.{StandsLast};
ghost use Rattle.rayon_performers.specs.Hands.{Told};
ghost use Rattle.rayon_shared.specs.Marks.{GivesUnit, KeepsUnits, TakesUnit};
ghost use Rattle.rayon_performers.specs.Paths.{WorkerGoes};
ghost use Rattle.rayon_shared.specs.Seats.{Resting};
ghost use Rattle.rayon_performers.specs.Spawns.{CanClose, ClosesRun, ClosesUnit, Spawns, SpawnsNone, detached_task, done_after, tally_after, with_units};
ghost use Rattle.rayon_queues.specs.Deques.{SameDeque, Unmoved};
ghost use Rattle.rayon_tasks.specs.Tickets.{unscoped};

use crate::bench::Bench;
use crate::stretch::only_job;
use rayon_jobs::JobKind;
use rayon_machine_places::place::{Ending, JobKind as Kind, Party, Plan, Then};
use rayon_tasks::{Task, Ticket, task_of_job};
use rayon_words::Refusal;
use std::alloc::Global;
use std::mem;
use std::sync::Wait;

impl<J: JobKind> Bench<J> {
    /// Spawns a detached job of this name: Raise, LookOwn, PushOwn, News and its wakes. Refused `NoRoom` before its
    /// Raise or at the push, `Ended`, `Full`, with the job back and nothing pushed; a unit of the terminate count that
    /// was taken is given back. The units that the worker's calls hold are as before.
    pub fn spawn<R: Wait>(
        &mut self,
        rt: &R,
        alloc: Global,
        name: u64,
        job: J,
    ) -> Result<(), (Refusal, J)>
        requires { Resting self.old.chair }
        ensures path { MatchResult result (λ _. Spawns name self.old self.new) (λ _. SpawnsNone name self.old self.new) }
        ensures pushed { MatchResult result
            (λ _. StandsLast self.old.own (detached_task job false (Worker 0 self.old.index) name) self.new.own)
            (λ e. (e.1 ≡ job) × Unmoved self.old.own self.new.own) }
        ensures left { SameDeque self.old.own self.new.own × (self.new ≡ record self.old { own = self.new.own; marks = self.new.marks; chair = self.new.chair; trace = self.new.trace }) }
        ensures unit { MatchResult result (λ _. TakesUnit true self.old.marks.count self.new.marks.count) (λ _. KeepsUnits self.old.marks.count self.new.marks.count) }
        ensures rests { Resting self.new.chair }
        ensures refused { IfErr result (λ e. (e.0 ≡ Refusal.Ended) ⊎ ((e.0 ≡ Refusal.Full) ⊎ (e.0 ≡ Refusal.NoRoom))) }
    {
        let ticket = match self.ticket_of_detached(alloc, name) {
            Ok(ticket) => ticket,
            Err(refusal) => return Err((refusal, job)),
        };
        let held = self.exchange_units(0);
        let spawned = self.queue_job(rt, name, task_of_job(job, false, ticket));
        self.exchange_units(held);
        match spawned {
            Ok(()) => Ok(()),
            Err((refusal, task)) => Err((refusal, only_job(task))),
        }
    }

    // Takes a unit of the terminate count for the job of this name and puts its task into the own deque, by the units
    // at hand. Refused `NoRoom`, `Ended`, `Full`, with the task back and nothing pushed; a unit that was taken is given
    // back.
    #[inline(always)]
    fn queue_job<R: Wait>(
        &mut self,
        rt: &R,
        name: u64,
        task: Task<J>,
    ) -> Result<(), (Refusal, Task<J>)>
        requires name { task.ticket.number ≡ name }
        requires rests { Resting self.old.chair }
        ensures path { MatchResult result
            (λ _. WorkerGoes (Stay (at.RaiseCount (Detach 0 name))) self.old self.new Back)
            (λ _. WorkerGoes (Stay (at.RaiseCount (Detach 0 name))) self.old self.new (HandBack (Detach 0 name))) }
        ensures pushed { MatchResult result (λ _. StandsLast self.old.own task self.new.own) (λ e. (e.1 ≡ task) × Unmoved self.old.own self.new.own) }
        ensures left { SameDeque self.old.own self.new.own × MatchResult result
            (λ _. self.new ≡ record self.old { own = self.new.own; holds = self.old.holds + 1; marks = self.new.marks; chair = self.new.chair; trace = self.new.trace })
            (λ _. self.new ≡ record self.old { own = self.new.own; marks = self.new.marks; chair = self.new.chair; trace = self.new.trace }) }
        ensures unit { MatchResult result (λ _. TakesUnit (self.old.holds == 0) self.old.marks.count self.new.marks.count) (λ _. KeepsUnits self.old.marks.count self.new.marks.count) }
        ensures rests { Resting self.new.chair }
        ensures refused { IfErr result (λ e. (e.0 ≡ Refusal.Ended) ⊎ ((e.0 ≡ Refusal.Full) ⊎ (e.0 ≡ Refusal.NoRoom))) }
    {
        if let Err(refusal) = self.raise(rt, name) {
            return Err((refusal, task));
        }
        match self.push(rt, task) {
            Ok(()) => Ok(()),
            Err(task) => {
                let plan = Plan::Detach { pool: 0, job: name };
                self.lower_then(rt, name, Then::GiveBack(plan));
                Err((Refusal::NoRoom, task))
            }
        }
    }

    /// The end of a run of this kind, whose job has this name and ended so. Where a call waits for the job the result
    /// at hand goes where the call looks for it, the call's latch is set, and its owner is woken where it slept. That
    /// of a scope's job goes into the scope's book, its share of the scope's count is given back, and where it was the
    /// last the scope's latch is set in the same way. So is it with a piece of a broadcast that waits. A detached job's
    /// unit of the terminate count is given back, and where it was the last the workers' terminate latches are set. Of
    /// a job that was in no queue nothing is done: the call below goes on.
    pub fn close<R: Wait>(&mut self, rt: &R, kind: Kind, job: u64, ending: Ending)
        requires asks { CanClose kind ending self.old }
        requires rests { Resting self.old.chair }
        ensures path { ClosesRun kind job ending self.old self.new }
        ensures left { self.new ≡ record self.old { done = done_after kind self.old.done; tally = tally_after kind self.old.tally self.new.tally; marks = self.new.marks; trace = self.new.trace } }
        ensures unit { ClosesUnit kind self.old.marks.count self.new.marks.count }
        ensures rests { Resting self.new.chair }
    {
        match kind {
            Kind::Stored { call, owner } => self.tell(rt, call, owner, ending),
            Kind::Detached(_) => self.end_detached(rt, job),
            Kind::Direct => {}
            Kind::Scoped { call, owner } => self.end_scoped(rt, call, owner, job, ending),
            Kind::PieceOf { call, owner } => self.end_piece(rt, call, owner, job, ending),
            Kind::BodyOf { .. } | Kind::WholeOf { .. } | Kind::TokenOf { .. } => unreachable!(),
        }
    }

    // The end of the run of a detached job of this name.
    #[inline(always)]
    fn end_detached<R: Wait>(&mut self, rt: &R, job: u64)
        requires { Resting self.old.chair }
        ensures path { WorkerGoes (Stay (at.LowerCount (OfPool 0) (OfJob job) Resume)) (with_units 1 self.old) (with_units 0 self.new) Back }
        ensures same { Told self.old self.new }
        ensures unit { (b : Bool) × GivesUnit true b self.old.marks.count self.new.marks.count }
        ensures rests { Resting self.new.chair }
    {
        let kept = self.exchange_units(1);
        self.lower_then(rt, job, Then::Resume);
        self.exchange_units(kept);
    }

    // So many units stand for those that the worker's calls hold. Answers how many stood there.
    #[inline(always)]
    pub(crate) fn exchange_units(&mut self, units: u64) -> u64
        ensures bench { self.new ≡ with_units units self.old }
        ensures given { result ≡ self.old.holds }
    {
        mem::replace(&mut self.holds, units)
    }

    // The ticket of the worker's detached job of this name: a share of the one that it keeps. Refused `NoRoom`.
    pub(crate) fn ticket_of_detached(
        &mut self,
        alloc: Global,
        name: u64,
    ) -> Result<Ticket<J>, Refusal>
        ensures same { self.new ≡ self.old }
        ensures ticket { IfOk result (λ t. t ≡ unscoped (Worker 0 self.old.index) name true) }
        ensures refused { IfErr result (λ r. r ≡ Refusal.NoRoom) }
    {
        if let Some(ticket) = &self.detached {
            if self.is_own_detached(ticket) {
                let share = ticket.share()?;
                return Ok(share.renamed(name));
            }
        }
        let ticket = Ticket::of_detached(alloc, self.party(), name)?;
        let share = ticket.share()?;
        self.detached = Some(ticket);
        Ok(share)
    }

    // Whether this is the ticket of a detached job of the worker's own.
    fn is_own_detached(&self, ticket: &Ticket<J>) -> bool
        ensures { result ≡ true → ticket.now ≡ unscoped (Worker 0 self.now.index) ticket.now.number true }
    {
        match ticket.owner() {
            Party::Worker { pool: 0, index } => {
                index == self.index && ticket.is_detached() && ticket.is_alone()
            }
            _ => false,
        }
    }
}
