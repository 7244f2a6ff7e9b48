//! A worker's jobs in order, detached ones and those of scopes. Each lies in a FIFO list of the worker that spawned it,
//! one for its scope or that of detached jobs, and for each a token lies in a deque: who takes a token begins the first
//! job of its list, which may be another than the one that it was pushed for.
ghost use Rattle.std.specs.Prelude.{◌≡◌, ◌⊎◌, ◌+◌, ◌==◌, ◌++◌, [], ◌∷◌, IfErr, IfOk, IfSome, MatchResult, Some, true};
ghost use Rattle.rayon_drive.specs.Traces.{Adds};
ghost use Rattle.rayon_machine_places.specs.Places.{after_push, count_book, undo};
ghost use Rattle.rayon_machine_places.specs.declared.act.Act.TheVariants as acts;
ghost use Rattle.rayon_machine_places.specs.declared.place.Move.TheVariants.{Back, HandBack, Stay};
ghost use Rattle.rayon_machine_places.specs.declared.place.Party.TheVariants.{Worker};
ghost use Rattle.rayon_machine_places.specs.declared.place.Place.TheVariants as at;
ghost use Rattle.rayon_machine_places.specs.declared.place.Plan.TheVariants.{Detach, Feed};
ghost use Rattle.rayon_performers.specs.Fifos.{FeedsList, FeedsNone, feeding, list_ticket, token_task, token_with};
ghost use Rattle.rayon_performers.specs.Finds.{StandsLast};
ghost use Rattle.rayon_performers.specs.Hands.{Does, OfList};
ghost use Rattle.rayon_shared.specs.Marks.{KeepsUnits, TakesUnit};
ghost use Rattle.rayon_performers.specs.Paths.{WorkerGoes};
ghost use Rattle.rayon_shared.specs.Seats.{Resting};
ghost use Rattle.rayon_queues.specs.Deques.{SameDeque, Unmoved};
ghost use Rattle.rayon_queues.specs.Lists.{Becomes, SameLists, jobs_of};
ghost use Rattle.rayon_tasks.specs.Tasks.{HasJob, taken_in};
ghost use Rattle.rayon_machine_places.specs.declared.place.Taken.TheVariants.{Plain};

use crate::bench::Bench;
use crate::stretch::only_job;
use rayon_jobs::JobKind;
use rayon_machine_places::act::{Act, Seen};
use rayon_machine_places::place::{Count, Feeding, Plan, Then};
use rayon_queues::JobFifos;
use rayon_tasks::{Task, Ticket, task_of_job, token_of};
use rayon_words::Refusal;
use std::alloc::Global;
use std::sync::Wait;

// The call that adds the job of this name to the own FIFO list, and a token of this name.
#[inline(always)]
fn feeding_of(job: u64, token: u64) -> Feeding
    ensures { result ≡ feeding job token }
{
    Feeding {
        count: Count::OfPool(0),
        pool: 0,
        job,
        token,
    }
}

impl<J: JobKind> Bench<J> {
    /// Spawns a detached job of this name in order: Raise, FifoIn, LookOwn, PushOwn of a token of this name, News and
    /// its wakes. The own FIFO list is held from FifoIn to the push. Refused `NoRoom` before its Raise, where the job
    /// is added or at the push, `Ended`, `Full`, with the very job back and nothing added; a unit of the terminate
    /// count that was taken is given back. The units that the worker's calls hold are as before.
    pub fn spawn_fifo<R: Wait>(
        &mut self,
        rt: &R,
        alloc: Global,
        name: u64,
        token: u64,
        job: J,
    ) -> Result<(), (Refusal, J)>
        requires { Resting self.old.chair }
        ensures path { MatchResult result (λ _. FeedsList name token self.old self.new) (λ _. FeedsNone name token self.old self.new) }
        ensures pushed { MatchResult result
            (λ _. StandsLast self.old.own (token_task (Worker 0 self.old.index) token) self.new.own)
            (λ e. (e.1 ≡ job) × Unmoved self.old.own self.new.own) }
        ensures left { SameDeque self.old.own self.new.own × (self.new ≡ record self.old { own = self.new.own; marks = self.new.marks; chair = self.new.chair; trace = self.new.trace }) }
        ensures unit { MatchResult result (λ _. TakesUnit true self.old.marks.count self.new.marks.count) (λ _. KeepsUnits self.old.marks.count self.new.marks.count) }
        ensures rests { Resting self.new.chair }
        ensures refused { IfErr result (λ e. (e.0 ≡ Refusal.Ended) ⊎ ((e.0 ≡ Refusal.Full) ⊎ (e.0 ≡ Refusal.NoRoom))) }
    {
        let ticket = match self.ticket_of_detached(alloc, name) {
            Ok(ticket) => ticket,
            Err(refusal) => return Err((refusal, job)),
        };
        let share = match self.ticket_of_token(alloc, token) {
            Ok(share) => share,
            Err(refusal) => return Err((refusal, job)),
        };
        let held = self.exchange_units(0);
        let task = task_of_job(job, false, ticket);
        let fed = self.feed_job(rt, name, task, share);
        self.exchange_units(held);
        match fed {
            Ok(()) => Ok(()),
            Err((refusal, task)) => Err((refusal, only_job(task))),
        }
    }

    /// Adds a task last to the own FIFO list, and pushes a token of this name: a spawn in order without its Raise, and
    /// as far as its end. Refused for want of room alone, with the task back and nothing added: before any act, or so
    /// that the path leads to where the table has such a call give its unit of the terminate count back. That Lower is
    /// not performed here, as with `push`.
    pub fn push_fifo<R: Wait>(
        &mut self,
        rt: &R,
        alloc: Global,
        token: u64,
        task: Task<J>,
    ) -> Result<(), Task<J>>
        requires job { HasJob task.work }
        requires rests { Resting self.old.chair }
        ensures path { MatchResult result
            (λ _. WorkerGoes (Stay (at.AddToFifo (feeding task.ticket.number token))) self.old self.new Back)
            (λ _. (self.new ≡ self.old) ⊎ WorkerGoes (Stay (at.AddToFifo (feeding task.ticket.number token))) self.old self.new (Stay (undo (Feed (feeding task.ticket.number token))))) }
        ensures pushed { MatchResult result
            (λ _. StandsLast self.old.own (token_task (Worker 0 self.old.index) token) self.new.own)
            (λ back. (back ≡ task) × Unmoved self.old.own self.new.own) }
        ensures left { SameDeque self.old.own self.new.own × (self.new ≡ record self.old { own = self.new.own; marks = self.new.marks; chair = self.new.chair; trace = self.new.trace }) }
        ensures count { self.new.marks.count ≡ self.old.marks.count }
        ensures rests { Resting self.new.chair }
    {
        let name = task.number();
        let ticket = match self.ticket_of_token(alloc, token) {
            Ok(ticket) => ticket,
            Err(_) => return Err(task),
        };
        self.feed(rt, name, task, ticket)
    }

    // The ticket of a token of this name, which stands for the own FIFO list of detached jobs. Refused `NoRoom`.
    fn ticket_of_token(&mut self, alloc: Global, token: u64) -> Result<Ticket<J>, Refusal>
        ensures same { self.new ≡ self.old }
        ensures ticket { IfOk result (λ t. t ≡ list_ticket (Worker 0 self.old.index) token) }
        ensures refused { IfErr result (λ r. r ≡ Refusal.NoRoom) }
    {
        let ticket = self.ticket_of_detached(alloc, token)?;
        Ok(ticket.numbered(self.index as u64))
    }

    // Takes a unit of the terminate count for the job of this name, by the units at hand, adds it last to the own FIFO
    // list, and pushes its token, which is this ticket's. Refused `NoRoom`, `Ended`, `Full`, with the task back and
    // nothing added; a unit that was taken is given back.
    fn feed_job<R: Wait>(
        &mut self,
        rt: &R,
        name: u64,
        task: Task<J>,
        share: Ticket<J>,
    ) -> Result<(), (Refusal, Task<J>)>
        requires name { taken_in task ≡ Plain name }
        requires rests { Resting self.old.chair }
        ensures path { MatchResult result
            (λ _. WorkerGoes (Stay (at.RaiseCount (Feed (feeding name share.number)))) self.old self.new Back)
            (λ _. WorkerGoes (Stay (at.RaiseCount (Feed (feeding name share.number)))) self.old self.new (HandBack (Feed (feeding name share.number)))) }
        ensures pushed { MatchResult result (λ _. StandsLast self.old.own (token_with share) self.new.own) (λ e. (e.1 ≡ task) × Unmoved self.old.own self.new.own) }
        ensures left { SameDeque self.old.own self.new.own × MatchResult result
            (λ _. self.new ≡ record self.old { own = self.new.own; holds = self.old.holds + 1; marks = self.new.marks; chair = self.new.chair; trace = self.new.trace })
            (λ _. self.new ≡ record self.old { own = self.new.own; marks = self.new.marks; chair = self.new.chair; trace = self.new.trace }) }
        ensures unit { MatchResult result (λ _. TakesUnit (self.old.holds == 0) self.old.marks.count self.new.marks.count) (λ _. KeepsUnits self.old.marks.count self.new.marks.count) }
        ensures rests { Resting self.new.chair }
        ensures refused { IfErr result (λ e. (e.0 ≡ Refusal.Ended) ⊎ ((e.0 ≡ Refusal.Full) ⊎ (e.0 ≡ Refusal.NoRoom))) }
    {
        if let Err(refusal) = self.raise(rt, name) {
            return Err((refusal, task));
        }
        let token = share.number();
        match self.feed(rt, name, task, share) {
            Ok(()) => Ok(()),
            Err(task) => {
                let plan = Plan::Feed(feeding_of(name, token));
                self.lower_then(rt, name, Then::GiveBack(plan));
                Err((Refusal::NoRoom, task))
            }
        }
    }

    // Adds a task last to the own FIFO list, pushes its token, which is this ticket's, tells of it, and wakes whom
    // that owes a wake. The list's lock is held from the adding to the push. Refused for want of room alone, with the
    // task back and nothing added.
    fn feed<R: Wait>(
        &mut self,
        rt: &R,
        name: u64,
        task: Task<J>,
        share: Ticket<J>,
    ) -> Result<(), Task<J>>
        requires name { taken_in task ≡ Plain name }
        requires rests { Resting self.old.chair }
        ensures path { MatchResult result
            (λ _. WorkerGoes (Stay (at.AddToFifo (feeding name share.number))) self.old self.new Back)
            (λ _. WorkerGoes (Stay (at.AddToFifo (feeding name share.number))) self.old self.new (Stay (undo (Feed (feeding name share.number))))) }
        ensures pushed { MatchResult result (λ _. StandsLast self.old.own (token_with share) self.new.own) (λ back. (back ≡ task) × Unmoved self.old.own self.new.own) }
        ensures left { SameDeque self.old.own self.new.own × (self.new ≡ record self.old { own = self.new.own; marks = self.new.marks; chair = self.new.chair; trace = self.new.trace }) }
        ensures count { self.new.marks.count ≡ self.old.marks.count }
        ensures rests { Resting self.new.chair }
    {
        let token = share.number();
        let mut lists = self.hold_lists(rt);
        let listed = self.enlist(&mut lists, feeding_of(name, token), task, share);
        self.leave_lists(rt, lists);
        match listed {
            Ok(was_empty) => {
                self.tell_pushed(rt, token, was_empty);
                Ok(())
            }
            Err(task) => Err(task),
        }
    }

    // Adds a task last to the own FIFO list that it is fed to, of those which the worker holds, and pushes its token,
    // which is this ticket's. Answers whether the deque was empty before. Where there is no room for one of the two the
    // task comes back, out of the list again.
    pub(crate) fn enlist(
        &mut self,
        lists: &mut JobFifos<Task<J>>,
        feeding: Feeding,
        task: Task<J>,
        share: Ticket<J>,
    ) -> Result<bool, Task<J>>
        requires name { taken_in task ≡ Plain feeding.job }
        requires token { share.number ≡ feeding.token }
        ensures path { MatchResult result
            (λ was_empty. WorkerGoes (Stay (at.AddToFifo feeding)) self.old self.new (Stay (at.TellNews (Detach feeding.pool feeding.token) was_empty)))
            (λ _. WorkerGoes (Stay (at.AddToFifo feeding)) self.old self.new (Stay (after_push (Feed feeding)))) }
        ensures listed { MatchResult result
            (λ _. Becomes lists.old (count_book feeding.count) (jobs_of lists.old (count_book feeding.count) ++ task ∷ []) lists.new)
            (λ back. (back ≡ task) × SameLists lists.old lists.new) }
        ensures pushed { MatchResult result (λ _. StandsLast self.old.own (token_with share) self.new.own) (λ _. Unmoved self.old.own self.new.own) }
        ensures left { SameDeque self.old.own self.new.own × (self.new ≡ record self.old { own = self.new.own; trace = self.new.trace }) }
    {
        let scope = feeding.count.book();
        let add = Act::FifoIn {
            job: feeding.job,
            scope,
        };
        if let Err(task) = lists.push(scope, task) {
            self.add(add, Seen::Refused);
            return Err(task);
        }
        self.add(add, Seen::Done);
        let was_empty = self.look_own();
        let Err(_refused) = self.push_own(feeding.token, scope, token_of(share)) else {
            return Ok(was_empty);
        };
        let Some(task) = lists.undo_last(scope) else {
            unreachable!()
        };
        self.add(Act::FifoUndo(scope), Seen::Task(task.taken()));
        Err(task)
    }

    // Holds the own FIFO lists, once nobody else does.
    pub(crate) fn hold_lists<R: Wait>(&self, rt: &R) -> JobFifos<Task<J>> {
        match self.registry.fifos(self.index) {
            Some(lists) => lists.hold(rt),
            None => unreachable!(),
        }
    }

    // Leaves the own FIFO lists, which the worker holds: so they are always taken back.
    pub(crate) fn leave_lists<R: Wait>(&self, rt: &R, lists: JobFifos<Task<J>>) {
        match self.registry.fifos(self.index) {
            Some(lock) => {
                let _taken = lock.leave(rt, lists);
            }
            None => unreachable!(),
        }
    }

    // Takes the first job of a worker's FIFO list, the one of this scope or with none that of detached jobs, and begins
    // it, in the place of the token at hand. Where the list is empty nothing is at hand then.
    pub(crate) fn redeem<R: Wait>(
        &mut self,
        rt: &R,
        token: u64,
        worker: usize,
        scope: Option<u64>,
    ) -> Seen
        ensures does { Does (acts.FifoOut token worker scope) result self.old self.new }
        ensures adds { Adds (acts.FifoOut token worker scope) result self.old.trace self.new.trace }
    {
        let act = Act::FifoOut {
            token,
            worker,
            scope,
        };
        match self.first_listed(rt, worker, scope) {
            Some(task) => {
                let job = task.number();
                let kind = task.kind();
                self.task = Some(task);
                self.add(act, Seen::Handed { job, kind })
            }
            None => {
                self.task = None;
                self.add(act, Seen::Missing)
            }
        }
    }

    // The first job of a worker's FIFO list, the one of this scope or with none that of detached jobs, out of the list.
    // None where there is none. Nothing but jobs is ever added, and to a scope's list none but those of the scope;
    // since a lock tells no more than a type, anything else is let go. In the list of detached jobs any job may lie, by
    // hand.
    fn first_listed<R: Wait>(&self, rt: &R, worker: usize, scope: Option<u64>) -> Option<Task<J>>
        ensures job { IfSome result (λ t. HasJob t.work) }
        ensures list { IfSome result (λ t. OfList scope (Some t)) }
    {
        let lock = self.registry.fifos(worker)?;
        let task = lock.with(rt, |lists| lists.take_first(scope))?;
        if !task.has_job() {
            return None;
        }
        match scope {
            None => Some(task),
            Some(_) if task.is_of(scope) => Some(task),
            Some(_) => None,
        }
    }
}
