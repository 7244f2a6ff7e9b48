//! Programs of the table, as far as the next run: by a drive, and the hot ones as straight stretches of a worker's own
//! acts.
ghost use Rattle.std.specs.Prelude.{◌≡◌, ◌⊎◌, ◌↔◌, ◌+◌, ◌-◌, ◌==◌, ◌++◌, [], ◌∷◌, ℕ, Bool, None, Some, IsTrue, IfErr, IfOk, MatchResult, false};
ghost use Rattle.rayon_drive.specs.Paths.{goes};
ghost use Rattle.rayon_machine_places.specs.Places.{finish, fresh, next_of, settle, undo, walk};
ghost use Rattle.rayon_tasks.specs.Tasks.{OneJob, taken_in};
ghost use Rattle.rayon_tasks.specs.Tickets.{call_in, unscoped};
ghost use Rattle.rayon_machine_places.specs.declared.act.Seen.TheVariants as saw;
ghost use Rattle.rayon_machine_places.specs.declared.place.Count.TheVariants.{OfPool};
ghost use Rattle.rayon_machine_places.specs.declared.place.JobKind.TheVariants.{Direct};
ghost use Rattle.rayon_machine_places.specs.declared.place.Move.TheVariants.{Back, Enter, HandBack, StartRun, Stay};
ghost use Rattle.rayon_machine_places.specs.declared.place.Party.TheVariants.{Worker};
ghost use Rattle.rayon_machine_places.specs.declared.place.Place.TheVariants as at;
ghost use Rattle.rayon_machine_places.specs.declared.place.Plan.TheVariants.{Here};
ghost use Rattle.rayon_machine_places.specs.declared.place.Share.TheVariants.{OfJob};
ghost use Rattle.rayon_machine_places.specs.declared.place.Taken.TheVariants.{Plain};
ghost use Rattle.rayon_machine_places.specs.declared.place.Target.TheVariants.{Termination};
ghost use Rattle.rayon_machine_places.specs.declared.place.Ending.TheVariants.{Fine};
ghost use Rattle.rayon_machine_places.specs.declared.place.Then.TheVariants.{Answers, RunFirst};
ghost use Rattle.rayon_performers.specs.Begins.{BringsJob, begins_as};
ghost use Rattle.rayon_performers.specs.Calls.{IsJobOf, IsOneJob, own_call, own_join};
ghost use Rattle.rayon_performers.specs.Finds.{StandsLast};
ghost use Rattle.rayon_performers.specs.Hands.{Does, HasTask, Same, Told};
ghost use Rattle.rayon_shared.specs.AtHand.{HasResult, HasTicket};
ghost use Rattle.rayon_shared.specs.Marks.{GivesUnit, KeepsUnits, MissesUnit, TakesUnit};
ghost use Rattle.rayon_performers.specs.Paths.{WorkerGoes, WorkerGoesIn};
ghost use Rattle.rayon_shared.specs.Seats.{Resting};
ghost use Rattle.rayon_performers.specs.Stands.{Anyhow, At, EndsIn, Last, Stands, call_to, hand};
ghost use Rattle.rayon_performers.specs.Waits.{FoundSo, SameSeat, Waited, holding, rejoins, units_after, waiting_on};
ghost use Rattle.rayon_queues.specs.Deques.{SameDeque, Unmoved};

use crate::bench::Bench;
use crate::reclaimed::{Reclaimed, found_by};
use rayon_atomics::own_latch::OwnLatch;
use rayon_drive::drive::drive;
use rayon_jobs::JobKind;
use rayon_machine_places::act::Seen;
use rayon_machine_places::place::{
    Count, Ending, Move, OpenCall, Party, Place, Plan, Share, Taken, Target, Then,
};
use rayon_machine_places::shape::PoolShape;
use rayon_tasks::{Call, Task, Ticket, Work, task_of_job, task_parts};
use rayon_words::Refusal;
use std::alloc::Global;
use std::sync::Wait;

impl<J: JobKind> Bench<J> {
    /// Performs the program from this place on, as far as the next run or its end.
    pub fn drive<R: Wait>(&mut self, rt: &R, place: Place) -> Move
        requires hands { Stands self.old (Stay place) }
        ensures path { WorkerGoes (Stay place) self.old self.new result }
        ensures stands { Stands self.new result }
        ensures rests { Resting self.new.chair }
        ensures stops { goes result ≡ false }
    {
        let shape = self.shape;
        let party = self.party();
        drive(rt, shape, party, Move::Stay(place), self)
    }

    /// Waits for this, and works meanwhile: as far as a task that it has found, or to the end of the wait. Then the
    /// latch that it waits on was seen set.
    pub fn wait<R: Wait>(&mut self, rt: &R, target: Target) -> Move
        requires ticket { HasTicket self.old.call (call_to target) }
        requires rests { Resting self.old.chair }
        ensures path { WorkerGoes (Stay (at.ProbeWorking (fresh target))) self.old self.new result }
        ensures stands { Stands self.new result }
        ensures rests { Resting self.new.chair }
        ensures ends { Waited target result }
        ensures units { self.new.holds ≡ units_after result self.old.holds }
        ensures seat { SameSeat self.old self.new }
    {
        self.first_looks(rt, target)
    }

    // The first two looks of a wait, of which the second one mostly finds a task, and from there on all others: as far
    // as a task that was found, or to the end of the wait.
    #[inline(always)]
    fn first_looks<R: Wait>(&mut self, rt: &R, target: Target) -> Move
        requires ticket { HasTicket self.old.call (call_to target) }
        requires rests { Resting self.old.chair }
        ensures path { WorkerGoes (Stay (at.ProbeWorking (fresh target))) self.old self.new result }
        ensures stands { Stands self.new result }
        ensures stops { goes result ≡ false }
    {
        let wait = target.wait();
        if self.probe(target.latch()) {
            return self.go_on_waiting(rt, Place::ProbeWorking(wait), Seen::Yes);
        }
        let popped = self.pop_own();
        if let Seen::Task(task) = popped {
            return Move::Enter {
                frame: Place::ProbeWorking(wait),
                place: Place::BeginTask(task),
            };
        }
        self.go_on_waiting(rt, Place::PopWorking(wait), popped)
    }

    // A wait goes on from what a look at this place saw.
    #[cold]
    #[inline(never)]
    fn go_on_waiting<R: Wait>(&mut self, rt: &R, place: Place, seen: Seen) -> Move
        requires { Stands self.old (next_of self.old.shape (Worker 0 self.old.index) place seen) }
        ensures path { WorkerGoes (next_of self.old.shape (Worker 0 self.old.index) place seen) self.old self.new result }
        ensures stands { Stands self.new result }
        ensures stops { goes result ≡ false }
    {
        let shape = self.shape;
        let index = self.index;
        self.go_on_from(rt, shape, index, place, seen)
    }

    /// Waits until this latch is set, which is no call's, and works meanwhile: as far as a task that it has found, or
    /// to the end of the wait. Then the latch's owner has seen it set. Whoever sets it wakes this worker, as
    /// `SpinLatch` does.
    ///
    /// The table has one latch of a worker's that is no call's, so the latch that was handed in stands where the
    /// worker's terminate latch does for as long as the wait lasts. In the trace it stands under the name of that, and
    /// the end of the wait is the place `Stopped`; the worker goes on after it.
    pub fn wait_on<R: Wait>(&mut self, rt: &R, latch: &mut OwnLatch) -> Move
        requires { Resting self.old.chair }
        ensures path { WorkerGoes (Stay (at.ProbeWorking (fresh Termination))) (waiting_on latch.old self.old) (waiting_on latch.new self.new) result }
        ensures stands { Stands (waiting_on latch.new self.new) result }
        ensures rests { Resting self.new.chair }
        ensures ends { Waited Termination result }
        ensures units { self.new.holds ≡ self.old.holds }
        ensures seat { SameSeat self.old self.new }
        ensures own { self.new.guards.own ≡ self.old.guards.own }
    {
        self.exchange_latch(latch);
        let ended = self.wait(rt, Target::Termination);
        self.exchange_latch(latch);
        ended
    }

    // Goes on from what an act saw at this place, as this worker of a pool of this shape.
    #[cold]
    #[inline(never)]
    #[tactic(auto, using(crate::proofs::Drives::rests_there))]
    pub(crate) fn go_on_from<R: Wait>(
        &mut self,
        rt: &R,
        shape: PoolShape,
        index: usize,
        place: Place,
        seen: Seen,
    ) -> Move
        requires hands { At Anyhow (Worker 0 index) self.old (next_of shape (Worker 0 index) place seen) }
        ensures path { WorkerGoesIn shape index (next_of shape (Worker 0 index) place seen) self.old self.new result }
        ensures stands { At Anyhow (Worker 0 index) self.new result }
        ensures rests { Resting self.new.chair }
        ensures stops { goes result ≡ false }
    {
        let party = Party::Worker { pool: 0, index };
        drive(rt, shape, party, place.next(party, shape, seen), self)
    }

    // Goes on in the same way where only workers are woken and latches are set before this follows.
    #[cold]
    #[inline(never)]
    pub(crate) fn finish_from<R: Wait>(
        &mut self,
        rt: &R,
        shape: PoolShape,
        index: usize,
        place: Place,
        seen: Seen,
        then: Then,
    )
        requires hands { At Anyhow (Worker 0 index) self.old (next_of shape (Worker 0 index) place seen) }
        requires ends { EndsIn (Worker 0 index) (finish (Worker 0 index) then) self.old (next_of shape (Worker 0 index) place seen) }
        ensures path { WorkerGoesIn shape index (next_of shape (Worker 0 index) place seen) self.old self.new (finish (Worker 0 index) then) }
        ensures same { Told self.old self.new }
        ensures count { self.new.marks.count ≡ self.old.marks.count }
        ensures rests { Resting self.new.chair }
    {
        self.go_on_from(rt, shape, index, place, seen);
    }

    /// Gives a unit of the terminate count back, and where it was the last sets the workers' terminate latches, before
    /// this follows.
    #[inline(always)]
    pub fn lower_then<R: Wait>(&mut self, rt: &R, job: u64, then: Then)
        requires last { Last (hand self.old) (finish (Worker 0 self.old.index) then) }
        requires rests { Resting self.old.chair }
        ensures path { WorkerGoes (Stay (at.LowerCount (OfPool 0) (OfJob job) then)) self.old self.new (finish (Worker 0 self.old.index) then) }
        ensures same { self.new ≡ record self.old { holds = self.old.holds - 1; marks = self.new.marks; trace = self.new.trace } }
        ensures unit { (b : Bool) × GivesUnit (self.old.holds == 1) b self.old.marks.count self.new.marks.count }
        ensures rests { Resting self.new.chair }
    {
        if self.lower(rt, 0, Share::OfJob(job)) {
            self.end_count(rt, job, then);
        }
    }

    // The unit that was given back was the pool's last: the workers' terminate latches are set, before this follows.
    #[cold]
    #[inline(never)]
    fn end_count<R: Wait>(&mut self, rt: &R, job: u64, then: Then)
        requires hands { At Anyhow (Worker 0 self.old.index) self.old (settle self.old.shape (Worker 0 self.old.index) 0 0 then) }
        requires ends { EndsIn (Worker 0 self.old.index) (finish (Worker 0 self.old.index) then) self.old (settle self.old.shape (Worker 0 self.old.index) 0 0 then) }
        ensures path { WorkerGoes (settle self.old.shape (Worker 0 self.old.index) 0 0 then) self.old self.new (finish (Worker 0 self.old.index) then) }
        ensures same { Told self.old self.new }
        ensures count { self.new.marks.count ≡ self.old.marks.count }
        ensures rests { Resting self.new.chair }
    {
        let shape = self.shape;
        let index = self.index;
        let place = Place::LowerCount {
            count: Count::OfPool(0),
            share: Share::OfJob(job),
            then,
        };
        self.finish_from(rt, shape, index, place, Seen::Yes, then);
    }

    /// The run of a join's own second side has ended so, and the join gives its unit of the terminate count back: as
    /// `lower_then`, before the join's result follows.
    #[inline(always)]
    pub fn lower_joined<R: Wait>(&mut self, rt: &R, call: OpenCall, last: Ending)
        requires rests { Resting self.old.chair }
        ensures path { WorkerGoes (Stay (at.LowerCount (OfPool 0) (OfJob call.job) (Answers call (Some Fine) last))) self.old self.new Back }
        ensures same { self.new ≡ record self.old { holds = self.old.holds - 1; marks = self.new.marks; trace = self.new.trace } }
        ensures rests { Resting self.new.chair }
    {
        if self.lower(rt, 0, Share::OfJob(call.job)) {
            self.end_join(rt, call, last);
        }
    }

    // The unit that such a join gave back was the pool's last: the workers' terminate latches are set first.
    #[cold]
    #[inline(never)]
    fn end_join<R: Wait>(&mut self, rt: &R, call: OpenCall, last: Ending)
        requires hands { At Anyhow (Worker 0 self.old.index) self.old (settle self.old.shape (Worker 0 self.old.index) 0 0 (Answers call (Some Fine) last)) }
        requires ends { EndsIn (Worker 0 self.old.index) Back self.old (settle self.old.shape (Worker 0 self.old.index) 0 0 (Answers call (Some Fine) last)) }
        ensures path { WorkerGoes (settle self.old.shape (Worker 0 self.old.index) 0 0 (Answers call (Some Fine) last)) self.old self.new Back }
        ensures same { Told self.old self.new }
        ensures rests { Resting self.new.chair }
    {
        let then = Then::Answers {
            call,
            first: Some(Ending::Fine),
            last,
        };
        self.end_count(rt, call.job, then);
    }

    /// A join offers its second side, a job that has this name: Raise, Grow, LookOwn, PushOwn, News and its wakes, as
    /// far as the run of its first side. Answers the join's call. Refused `Ended`, `Full`, `NoRoom`, with the job
    /// back, nothing pushed, and the unit of the terminate count given back.
    #[inline(always)]
    pub fn offer<R: Wait>(
        &mut self,
        rt: &R,
        alloc: Global,
        name: u64,
        job: J,
        injected: bool,
    ) -> Result<Call<J>, (Refusal, J)>
        requires { Resting self.old.chair }
        ensures path { MatchResult result
            (λ _. WorkerGoes (Stay (at.RaiseCount (own_join name))) self.old self.new (StartRun (at.FirstSide (own_call name) name) name))
            (λ _. WorkerGoes (Stay (at.RaiseCount (own_join name))) self.old self.new (HandBack (own_join name))) }
        ensures pushed { MatchResult result
            (λ c. StandsLast self.old.own (record { work = OneJob job; injected = injected; ticket = c.ticket }) self.new.own)
            (λ e. (e.1 ≡ job) × Unmoved self.old.own self.new.own) }
        ensures deque { SameDeque self.old.own self.new.own }
        ensures ticket { IfOk result (λ c. c.ticket ≡ unscoped (Worker 0 self.old.index) name false) }
        ensures left { MatchResult result
            (λ _. self.new ≡ record self.old { own = self.new.own; holds = self.old.holds + 1; marks = self.new.marks; chair = self.new.chair; trace = self.new.trace })
            (λ _. self.new ≡ record self.old { own = self.new.own; marks = self.new.marks; trace = self.new.trace }) }
        ensures unit { MatchResult result (λ _. TakesUnit (self.old.holds == 0) self.old.marks.count self.new.marks.count) (λ _. KeepsUnits self.old.marks.count self.new.marks.count) }
        ensures rests { Resting self.new.chair }
        ensures refused { IfErr result (λ e. (e.0 ≡ Refusal.Ended) ⊎ ((e.0 ≡ Refusal.Full) ⊎ (e.0 ≡ Refusal.NoRoom))) }
    {
        if let Err(refusal) = self.raise(rt, name) {
            return Err((refusal, job));
        }
        let Some((held, share)) = self.grow(alloc, name) else {
            self.give_join_back(rt, name);
            return Err((Refusal::NoRoom, job));
        };
        let was_empty = self.look_own();
        if let Err(task) = self.push_own(name, None, task_of_job(job, injected, share)) {
            self.give_join_back(rt, name);
            return Err((Refusal::NoRoom, only_job(task)));
        }
        self.tell_news(rt, name, was_empty);
        Ok(held)
    }

    // A join that finds no room gives its unit of the terminate count back, and its sides.
    #[cold]
    #[inline(never)]
    fn give_join_back<R: Wait>(&mut self, rt: &R, name: u64)
        requires { Resting self.old.chair }
        ensures path { WorkerGoes (Stay (undo (own_join name))) self.old self.new (HandBack (own_join name)) }
        ensures same { self.new ≡ record self.old { holds = self.old.holds - 1; marks = self.new.marks; trace = self.new.trace } }
        ensures unit { (b : Bool) × GivesUnit (self.old.holds == 1) b self.old.marks.count self.new.marks.count }
        ensures rests { Resting self.new.chair }
    {
        let call = OpenCall {
            number: name,
            pool: 0,
            job: name,
        };
        let plan = Plan::Fork { call, first: name };
        self.lower_then(rt, name, Then::GiveBack(plan));
    }

    // Tells that a join's second side was pushed, and wakes whom that owes a wake, before its first side runs.
    #[inline(always)]
    fn tell_news<R: Wait>(&mut self, rt: &R, name: u64, was_empty: bool)
        requires { Resting self.old.chair }
        ensures path { WorkerGoes (Stay (at.TellNews (own_join name) was_empty)) self.old self.new (StartRun (at.FirstSide (own_call name) name) name) }
        ensures same { self.new ≡ record self.old { marks = self.new.marks; chair = self.new.chair; trace = self.new.trace } }
        ensures count { self.new.marks.count ≡ self.old.marks.count }
        ensures rests { Resting self.new.chair }
    {
        let owed = self.news(rt, 0, was_empty);
        if owed > 0 {
            self.wake_for_join(rt, name, was_empty, owed);
        }
    }

    // Wakes so many for a join's second side that was pushed, before its first side runs.
    #[cold]
    #[inline(never)]
    fn wake_for_join<R: Wait>(&mut self, rt: &R, name: u64, was_empty: bool, owed: u64)
        requires { Resting self.old.chair }
        ensures path { WorkerGoes (walk self.old.shape (Worker 0 self.old.index) 0 owed 0 (RunFirst (own_call name) name)) self.old self.new (StartRun (at.FirstSide (own_call name) name) name) }
        ensures same { Told self.old self.new }
        ensures count { self.new.marks.count ≡ self.old.marks.count }
        ensures rests { Resting self.new.chair }
    {
        let shape = self.shape;
        let index = self.index;
        let call = OpenCall {
            number: name,
            pool: 0,
            job: name,
        };
        let place = Place::TellNews {
            plan: Plan::Fork { call, first: name },
            was_empty,
        };
        let then = Then::RunFirst { call, first: name };
        self.finish_from(rt, shape, index, place, Seen::Wakes(owed), then);
    }

    /// An install by a worker of the pool takes its unit of the terminate count, as far as the beginning of its job's
    /// run. Refused `Ended`, `Full`.
    #[inline(always)]
    pub fn open_install<R: Wait>(&mut self, rt: &R, name: u64) -> Result<(), Refusal>
        ensures path { MatchResult result
            (λ _. WorkerGoes (Stay (at.RaiseCount (Here 0 name))) self.old self.new (Enter (at.AtOnce 0 name) (at.BeginHere name)))
            (λ _. WorkerGoes (Stay (at.RaiseCount (Here 0 name))) self.old self.new (HandBack (Here 0 name))) }
        ensures left { MatchResult result (λ _. self.new ≡ record self.old { holds = self.old.holds + 1; marks = self.new.marks; trace = self.new.trace }) (λ _. Told self.old self.new) }
        ensures unit { MatchResult result (λ _. TakesUnit (self.old.holds == 0) self.old.marks.count self.new.marks.count) (λ _. MissesUnit (self.old.holds == 0) self.old.marks.count self.new.marks.count) }
        ensures refused { IfErr result (λ r. (r ≡ Refusal.Ended) ⊎ (r ≡ Refusal.Full)) }
    {
        self.raise(rt, name)
    }

    /// The run of a job that was in no queue, or of the own second side, begins.
    #[inline(always)]
    pub fn begin_here(&mut self, name: u64)
        ensures path { WorkerGoes (Stay (at.BeginHere name)) self.old self.new (Stay (at.Run name Direct)) }
        ensures same { Same self.old self.new }
    {
        self.begin(name);
    }

    /// The run of a task begins that was found and is in hand, above the frame of the program that found it: of a
    /// token that of the first job of its FIFO list, whose lock it waits for. Answers the task whose run begins. None
    /// where that list is empty: the token is spent then, and nothing runs.
    pub fn begin_task<R: Wait>(&mut self, rt: &R, task: Taken) -> Option<Task<J>>
        requires { HasTask self.old.task (Some task) }
        ensures path { WorkerGoes (Stay (at.BeginTask task)) self.old (record self.new { task = result }) (begins_as task result) }
        ensures plain { (n : ℕ) → task ≡ Plain n → result ≡ self.old.task }
        ensures job { BringsJob result }
        ensures left { self.new ≡ record self.old { task = None; trace = self.new.trace } }
    {
        match task {
            Taken::Plain(name) => self.begin(name),
            Taken::Token {
                number,
                worker,
                scope,
            } => self.redeem(rt, number, worker, scope),
        };
        self.take_task()
    }

    // The end of the run of a task for which a call waits.
    pub(crate) fn tell<R: Wait>(&mut self, rt: &R, call: u64, owner: Party, ending: Ending)
        requires reply { HasTicket self.old.reply (Some call) }
        requires done { HasResult self.old.done (Some ending) }
        requires rests { Resting self.old.chair }
        ensures path { WorkerGoes (Stay (at.StoreResult call owner ending)) self.old self.new Back }
        ensures same { self.new ≡ record self.old { done = None; marks = self.new.marks; trace = self.new.trace } }
        ensures count { self.new.marks.count ≡ self.old.marks.count }
        ensures rests { Resting self.new.chair }
    {
        let shape = self.shape;
        let index = self.index;
        self.store(rt, call, ending);
        let place = Place::StoreResult {
            call,
            owner,
            ending,
        };
        self.finish_from(rt, shape, index, place, Seen::Done, Then::Resume);
    }

    /// A join whose first side has ended without a fault looks at its latch, and takes its own second side back where
    /// that is the newest task of the own deque: it answers that task, whose run begins, and the join's call. Else the
    /// call comes to hand, and the join goes on as far as another task, or the result.
    #[inline(always)]
    pub fn reclaim<R: Wait>(
        &mut self,
        rt: &R,
        call: OpenCall,
        mut held: Call<J>,
    ) -> Result<(Task<J>, Call<J>), Reclaimed>
        requires ticket { call_in held.ticket ≡ call.number }
        requires rests { Resting self.old.chair }
        ensures path { MatchResult result
            (λ r. WorkerGoes (Stay (at.JoinProbe call)) (holding held.ticket held.latch self.old) (record (holding r.1.ticket r.1.latch self.new) { task = Some r.0 }) (Enter (at.SecondSide call) (at.BeginHere call.job)))
            (λ r. WorkerGoes (Stay (at.JoinProbe call)) (holding held.ticket held.latch self.old) self.new (rejoins call r)) }
        ensures own { IfOk result (λ r. taken_in r.0 ≡ Plain call.job) }
        ensures found { IfErr result (λ r. FoundSo call self.new r) }
        ensures units { MatchResult result (λ _. self.new.holds ≡ self.old.holds) (λ r. self.new.holds ≡ units_after (rejoins call r) self.old.holds) }
        ensures seat { SameSeat self.old self.new }
        ensures rests { Resting self.new.chair }
    {
        if self.probe_held(&mut held, call.number) {
            self.take_up(held);
            return Err(self.go_on_set(rt, call));
        }
        let Some(task) = self.pop_out() else {
            self.take_up(held);
            return Err(self.go_on_popped(rt, call, Seen::Missing));
        };
        if is_plain(task.taken(), call.job) {
            return Ok((task, held));
        }
        self.take_up(held);
        Err(self.go_on_found(rt, call, task))
    }

    // A join goes on that has taken another task of its own deque than its second side.
    #[cold]
    #[inline(never)]
    fn go_on_found<R: Wait>(&mut self, rt: &R, call: OpenCall, task: Task<J>) -> Reclaimed
        requires hands { Stands (record self.old { task = Some task }) (next_of self.old.shape (Worker 0 self.old.index) (at.JoinPop call) (saw.Task (taken_in task))) }
        requires other { taken_in task ≡ Plain call.job → ⊥ }
        ensures path { WorkerGoes (next_of self.old.shape (Worker 0 self.old.index) (at.JoinPop call) (saw.Task (taken_in task))) (record self.old { task = Some task }) self.new (rejoins call result) }
        ensures found { FoundSo call self.new result }
        ensures units { self.new.holds ≡ units_after (rejoins call result) self.old.holds }
        ensures same { SameSeat self.old self.new }
        ensures rests { Resting self.new.chair }
    {
        let popped = Seen::Task(task.taken());
        self.task = Some(task);
        self.go_on_popped(rt, call, popped)
    }

    // A join goes on that has seen its latch set.
    #[cold]
    #[inline(never)]
    fn go_on_set<R: Wait>(&mut self, rt: &R, call: OpenCall) -> Reclaimed
        requires hands { Stands self.old (next_of self.old.shape (Worker 0 self.old.index) (at.JoinProbe call) saw.Yes) }
        ensures path { WorkerGoes (next_of self.old.shape (Worker 0 self.old.index) (at.JoinProbe call) saw.Yes) self.old self.new (rejoins call result) }
        ensures found { FoundSo call self.new result }
        ensures units { self.new.holds ≡ units_after (rejoins call result) self.old.holds }
        ensures same { SameSeat self.old self.new }
        ensures rests { Resting self.new.chair }
    {
        let shape = self.shape;
        let index = self.index;
        let place = Place::JoinProbe(call);
        found_by(call, self.go_on_from(rt, shape, index, place, Seen::Yes))
    }

    // A join goes on that has taken no task of its own deque, or not its own second side.
    #[cold]
    #[inline(never)]
    fn go_on_popped<R: Wait>(&mut self, rt: &R, call: OpenCall, popped: Seen) -> Reclaimed
        requires hands { Stands self.old (next_of self.old.shape (Worker 0 self.old.index) (at.JoinPop call) popped) }
        requires other { popped ≡ saw.Task (Plain call.job) → ⊥ }
        ensures path { WorkerGoes (next_of self.old.shape (Worker 0 self.old.index) (at.JoinPop call) popped) self.old self.new (rejoins call result) }
        ensures found { FoundSo call self.new result }
        ensures units { self.new.holds ≡ units_after (rejoins call result) self.old.holds }
        ensures same { SameSeat self.old self.new }
        ensures rests { Resting self.new.chair }
    {
        let shape = self.shape;
        let index = self.index;
        let place = Place::JoinPop(call);
        found_by(call, self.go_on_from(rt, shape, index, place, popped))
    }
}

// Whether the task of this name was taken.
#[inline(always)]
fn is_plain(taken: Taken, name: u64) -> bool
    ensures { IsTrue result ↔ (taken ≡ Plain name) }
{
    match taken {
        Taken::Plain(task) => task == name,
        Taken::Token { .. } => false,
    }
}

// The job of a task that has one job.
pub(crate) fn only_job<J: JobKind>(task: Task<J>) -> J
    requires { IsOneJob task.work }
    ensures { IsJobOf task.work result }
{
    let (work, _, _) = task_parts(task);
    match work {
        Work::Job(job) => job,
        Work::Pair(_) | Work::Piece(_) | Work::Token => unreachable!(),
    }
}
