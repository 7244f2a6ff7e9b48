//! The value that stands for a worker.
ghost use Rattle.rayon_performers.specs.Begins.{BringsJob};
ghost use Rattle.rayon_performers.specs.Fifos.{Fed, feeding, token_task};
ghost use Rattle.rayon_shared.specs.AtHand.{HasTicket};
ghost use Rattle.rayon_shared.specs.Marks.{TakesUnit};
ghost use Rattle.rayon_performers.specs.Spawns.{ClosesUnit, Spawned, detached_task};
ghost use Rattle.rayon_performers.specs.Stands.{call_to};
ghost use Rattle.rayon_queues.specs.Deques.{Leaves};
ghost use Rattle.rayon_tasks.specs.Calls.{ticket_in};
ghost use Rattle.rayon_tasks.specs.Tasks.{HasJob, taken_in};
ghost use Rattle.rayon_tasks.specs.Tickets.{kind_in};
ghost use Rattle.rayon_tasks.specs.Works.{work_of};
ghost use Rattle.rayon_machine_places.specs.Places.{fresh, undo};
ghost use Rattle.rayon_machine_places.specs.declared.place.Move.TheVariants.{Back, Stay};
ghost use Rattle.rayon_machine_places.specs.declared.place.Party.TheVariants.{Worker};
ghost use Rattle.rayon_machine_places.specs.declared.place.Place.TheVariants as at;
ghost use Rattle.rayon_machine_places.specs.declared.place.Ending.{Ending};
ghost use Rattle.rayon_machine_places.specs.declared.place.Ending.TheVariants.{Fault, Fine};
ghost use Rattle.rayon_machine_places.specs.declared.place.Plan.TheVariants.{Detach, Feed, Here};
ghost use Rattle.rayon_machine_places.specs.declared.place.Target.TheVariants.{Termination};
ghost use Rattle.rayon_jobs.specs.Endings.{ending_of as ended};
ghost use Rattle.rayon_drive.specs.Traces.{AddsRun};
ghost use Rattle.rayon_drive.specs.declared.trace.Log.{Log};
ghost use Rattle.rayon_drive.specs.declared.trace.Log.TheVariants.{Empty};
ghost use Rattle.rayon_registry.specs.Acts.{CallMade, Closes, HandedBack, Installed, RunOf, Unlisted, Worked, wait_end};
ghost use Rattle.rayon_registry.specs.Answers.{InstallAnswers};
ghost use Rattle.rayon_registry.specs.Worker.{AfterWait, Kept, SameWorker};
ghost use Rattle.std.specs.Prelude.{◌≡◌, ◌⊎◌, ℕ, [], ◌∷◌, ◌++◌, ◌-◌, ◌<◌, ◌≤◌, ◌↔◌, IsTrue, List, Result, Ok, Err, IfOk, IfSome, IfNone, IfErr, MatchOption, MatchResult, Some, slice_get, None, true, false};
ghost use Rattle.rayon_drive.specs.Paths.{Traced};

use crate::context::FnContext;
use crate::faults::SharedFaults;
use crate::ids::WorkerId;
use crate::job::Waits;
use crate::join::PairRun;
use crate::parts::Parts;
use crate::pool_ref::{PoolRef, PoolShare};
use rayon_jobs::{Done, JobKind};
use rayon_machine_places::place::{Ending, JobKind as Kind, Move, Place, Target, Then};
use rayon_performers::{Aside, Bench};
use rayon_shared::WorkerKit;
use rayon_sleep::latch::{OwnLatch, Owner};
use rayon_tasks::{Call, Names, Pair, Task, Ticket, Work, task_parts};
use rayon_words::{CallError, Refusal};
use std::alloc::Global;
use std::marker::Model;
use std::sync::Wait;

/// A worker of a pool, lent to each run. Contracts see whose it is, the levels that are left, the tasks that it pushed,
/// those of them that it did not take back, the units of the terminate count that its calls hold, its seat of that
/// count, and the acts that it made since it was lent.
#[derive(Drop)]
pub struct WorkerThread<J: JobKind> {
    pub(crate) id: WorkerId,
    pub(crate) levels: usize,
    pub(crate) names: Names,
    pub(crate) faults: SharedFaults<J::Fault, J::Handler>,
    pub(crate) bench: Bench<J>,
}

impl<J: JobKind> Model for WorkerThread<J> {
    ghost use Rattle.rayon_registry.specs.Worker.{Worker};
    ghost use Rattle.rayon_tasks.specs.Tasks.{TaskOf};
    ghost use Rattle.std.specs.Coded.{codes};
    ghost use Rattle.std.specs.Prelude.{◌≡◌};
    ghost use Rattle.rayon_drive.specs.contracts.trace.Log as logs;
    ghost use Rattle.rayon_registry.specs.Pushes.{acts_of, count_of, left_to, pushed_by, rests, saw_set, index_of, shape_at, takes_oldest, units_of};

    ghost Value = { Worker (TaskOf J) };

    ghost coded = { Prim.hlevel (codes, logs.the_row.coded) };

    ghost view = { λ w. record { id = record { pool = w.id.pool; index = index_of w.bench }; levels = w.levels; pushed = pushed_by w.bench; left = left_to w.bench; oldest_first = takes_oldest w.bench; units = units_of w.bench; count = count_of w.bench; shape = shape_at w.bench; acts = acts_of w.bench; probed = saw_set w.bench } };

    ghost invariant = { λ w. rests w.bench × (index_of w.bench ≡ w.id.index) };
}

// What a worker value had before it was lent to a run: its levels, and the acts of the program below the run. It has no
// `Drop`: the worker value has to be taken back.
pub(crate) struct Lent {
    levels: usize,
    acts: Aside,
}

impl<J: JobKind> WorkerThread<J> {
    /// The worker with this index of the pool, which begins with this: the deque is the pool's own of this index. There
    /// is one value for each.
    #[tactic(auto, unfolding(crate::specs::Pushes::units_of, crate::specs::Pushes::shape_at, crate::specs::Pushes::index_of, crate::specs::Pushes::acts_of))]
    pub(crate) fn new(pool: PoolRef<J>, index: usize, deque: WorkerKit<Task<J>>) -> WorkerThread<J>
        requires index { index < pool.workers }
        requires own { slice_get pool.deques index ≡ Some deque.id }
        ensures pool { result.id.pool ≡ pool.id }
        ensures index { result.id.index ≡ index }
        ensures levels { result.levels ≡ pool.depth_limit }
        ensures units { result.units ≡ 0 }
        ensures acts { result.acts ≡ Empty }
    {
        let PoolRef {
            pool: PoolShare { id, shared },
            faults,
        } = pool;
        let levels = shared.depth_limit();
        let parties = shared.num_threads().saturating_add(1);
        WorkerThread {
            id: WorkerId { pool: id, index },
            levels,
            names: Names::new(index, parties),
            faults,
            bench: Bench::new(shared, index, deque),
        }
    }

    // Lends the worker value to a run: it has one level fewer, and the run's acts stand apart from those before it.
    #[inline(always)]
    #[tactic(auto, unfolding(crate::specs::Pushes::pushed_by, crate::specs::Pushes::left_to, crate::specs::Pushes::takes_oldest, crate::specs::Pushes::units_of, crate::specs::Pushes::count_of, crate::specs::Pushes::shape_at, crate::specs::Pushes::index_of, crate::specs::Pushes::acts_of, crate::specs::Pushes::saw_set))]
    pub(crate) fn lend(&mut self) -> Lent
        requires { 0 < self.old.levels }
        ensures given { (result.levels ≡ self.old.levels) × (result.acts ≡ self.old.acts) }
        ensures left { self.new ≡ record self.old { levels = self.old.levels - 1; acts = Empty } }
    {
        let lent = Lent {
            levels: self.levels,
            acts: self.bench.set_aside(),
        };
        self.levels -= 1;
        lent
    }

    // Takes the worker value back from a run, as it was lent.
    #[inline(always)]
    #[tactic(auto, unfolding(crate::specs::Pushes::pushed_by, crate::specs::Pushes::left_to, crate::specs::Pushes::takes_oldest, crate::specs::Pushes::units_of, crate::specs::Pushes::count_of, crate::specs::Pushes::shape_at, crate::specs::Pushes::index_of, crate::specs::Pushes::acts_of, crate::specs::Pushes::saw_set))]
    pub(crate) fn take_back(&mut self, lent: Lent)
        ensures run { AddsRun lent.acts self.new.acts }
        ensures left { self.new ≡ record self.old { levels = lent.levels; acts = self.new.acts } }
    {
        let Lent { levels, acts } = lent;
        self.levels = levels;
        self.bench.put_back(acts);
    }

    /// The worker's index in its pool, from 0.
    pub fn index(&self) -> usize
        ensures { result ≡ self.now.id.index }
    {
        self.id.index
    }

    /// The worker's pool and index.
    pub fn id(&self) -> WorkerId
        ensures { result ≡ self.now.id }
    {
        self.id
    }

    /// How many workers its pool has.
    #[tactic(auto, unfolding(crate::specs::Pushes::shape_at))]
    pub fn current_num_threads(&self) -> usize
        ensures { result ≡ self.now.shape.workers }
    {
        self.bench.num_threads()
    }

    /// How many runs may still be nested under the run that was lent this value.
    pub fn levels(&self) -> usize
        ensures { result ≡ self.now.levels }
    {
        self.levels
    }

    /// What stands for the worker where a latch is set that it may sleep on, as another thread does: a `SpinLatch` of
    /// this owner wakes the worker. Refused `NoRoom`.
    #[tactic(auto, unfolding(crate::specs::Pushes::index_of))]
    pub fn owner(&self) -> Result<Owner, Refusal>
        ensures index { IfOk result (λ o. o ≡ self.now.id.index) }
        ensures refused { IfErr result (λ r. r ≡ Refusal.NoRoom) }
    {
        self.bench.owner()
    }

    /// Runs a job at once, with exactly one level fewer. Refused `TooDeep` exactly where no level is left, `Ended`,
    /// `Full`, with the job back and the worker value unchanged. It is never `Foreign` or `Missing`.
    #[tactic(auto, unfolding(crate::specs::Pushes::pushed_by, crate::specs::Pushes::left_to, crate::specs::Pushes::takes_oldest, crate::specs::Pushes::units_of, crate::specs::Pushes::count_of, crate::specs::Pushes::shape_at, crate::specs::Pushes::index_of, crate::specs::Pushes::acts_of, crate::specs::Pushes::saw_set))]
    pub fn install<R: Waits<J>>(
        &mut self,
        rt: &R,
        alloc: Global,
        job: J,
    ) -> Result<J::Output, CallError<J::Fault, J>>
        requires levels { self.old.levels ≤ R.levels rt.now }
        ensures answers { InstallAnswers (λ r. J.answers (J.tag_of job) r × J.answers_at job (self.old.levels - 1) false r) job result }
        ensures kept { (r : _) (j : _) → result ≡ Err (CallError.Refused r j) → Kept self.old self.new }
        ensures deep { self.old.levels ≡ 0 → result ≡ Err (CallError.Refused Refusal.TooDeep job) }
        ensures shallow { (j : _) → result ≡ Err (CallError.Refused Refusal.TooDeep j) → self.old.levels ≡ 0 }
        ensures room { (j : _) → result ≡ Err (CallError.Refused Refusal.NoRoom j) → ⊥ }
        ensures found { (result ≡ Err CallError.Foreign → ⊥) × (result ≡ Err CallError.Missing → ⊥) }
        ensures same { SameWorker self.old self.new }
        ensures path { CallMade
            (Installed self.old.shape (Worker 0 self.old.id.index) Fine self.old.acts self.new.acts)
            (Installed self.old.shape (Worker 0 self.old.id.index) Fault self.old.acts self.new.acts)
            (HandedBack self.old.shape (Worker 0 self.old.id.index) (Here 0) self.old.acts self.new.acts)
            result }
    {
        if self.levels == 0 {
            return Err(CallError::Refused(Refusal::TooDeep, job));
        }
        let Some(name) = self.names.draw() else {
            return Err(CallError::Refused(Refusal::Full, job));
        };
        if let Err(refusal) = self.bench.open_install(rt, name) {
            return Err(CallError::Refused(refusal, job));
        }
        self.bench.begin_here(name);
        let answer = rt.run_job(alloc, self, job, &mut FnContext::new(false));
        let ending = ending_of(&answer);
        self.bench
            .lower_then(rt, name, Then::Ran { job: name, ending });
        match answer {
            Ok(output) => Ok(output),
            Err(fault) => Err(CallError::Fault(fault)),
        }
    }

    /// Whether nothing lies in the worker's own deque. It is so where nothing that the worker pushed is left to it;
    /// else thieves may have taken that.
    #[tactic(auto, unfolding(crate::specs::Pushes::pushed_by, crate::specs::Pushes::left_to, crate::specs::Pushes::takes_oldest, crate::specs::Pushes::units_of, crate::specs::Pushes::count_of, crate::specs::Pushes::shape_at, crate::specs::Pushes::index_of, crate::specs::Pushes::acts_of, crate::specs::Pushes::saw_set))]
    pub fn local_deque_is_empty(&mut self) -> bool
        ensures empty { self.old.left ≡ [] → result ≡ true }
        ensures same { self.new ≡ record self.old { acts = self.new.acts } }
    {
        self.bench.look_own()
    }

    /// Puts a task last into the worker's own deque, and wakes whom that owes a wake. Refused `NoRoom`, with the task
    /// back and nothing added. It raises no count.
    #[tactic(auto, unfolding(crate::specs::Pushes::pushed_by, crate::specs::Pushes::left_to, crate::specs::Pushes::takes_oldest, crate::specs::Pushes::units_of, crate::specs::Pushes::count_of, crate::specs::Pushes::shape_at, crate::specs::Pushes::index_of, crate::specs::Pushes::acts_of, crate::specs::Pushes::saw_set))]
    pub fn push<R: Wait>(&mut self, rt: &R, task: Task<J>) -> Result<(), (Refusal, Task<J>)>
        ensures pushed { MatchResult result (λ _. self.new ≡ record self.old { pushed = self.old.pushed ++ task ∷ []; left = self.old.left ++ task ∷ []; acts = self.new.acts }) (λ e. (e ≡ (Refusal.NoRoom, task)) × (self.new ≡ record self.old { acts = self.new.acts })) }
        ensures path { MatchResult result
            (λ _. Traced self.old.shape (Worker 0 self.old.id.index) (Stay (at.LookQueue (Detach 0 task.ticket.number))) self.old.acts self.new.acts Back)
            (λ _. Traced self.old.shape (Worker 0 self.old.id.index) (Stay (at.LookQueue (Detach 0 task.ticket.number))) self.old.acts self.new.acts (Stay (undo (Detach 0 task.ticket.number)))) }
    {
        match self.bench.push(rt, task) {
            Ok(()) => Ok(()),
            Err(task) => Err((Refusal::NoRoom, task)),
        }
    }

    /// Puts a task last into the worker's own FIFO list, and a token last into its own deque, and wakes whom that owes
    /// a wake: who takes the token runs the first job of the list, as with `spawn_fifo`. A task that is a token itself
    /// has its job in a list already, and is pushed as by `push`. Refused `Full`, `NoRoom`, with the task back and
    /// nothing added. It raises no count: a task that was taken has what it needs.
    #[tactic(auto, unfolding(crate::specs::Pushes::pushed_by, crate::specs::Pushes::left_to, crate::specs::Pushes::takes_oldest, crate::specs::Pushes::units_of, crate::specs::Pushes::count_of, crate::specs::Pushes::shape_at, crate::specs::Pushes::index_of, crate::specs::Pushes::acts_of, crate::specs::Pushes::saw_set))]
    pub fn push_fifo<R: Wait>(
        &mut self,
        rt: &R,
        alloc: Global,
        task: Task<J>,
    ) -> Result<(), (Refusal, Task<J>)>
        ensures listed { HasJob task.work → MatchResult result
            (λ _. (k : ℕ) × Traced self.old.shape (Worker 0 self.old.id.index) (Stay (at.AddToFifo (feeding task.ticket.number k))) self.old.acts self.new.acts Back × (self.new ≡ record self.old { pushed = self.old.pushed ++ token_task (Worker 0 self.old.id.index) k ∷ []; left = self.old.left ++ token_task (Worker 0 self.old.id.index) k ∷ []; acts = self.new.acts }))
            (λ _. Unlisted self.old.shape (Worker 0 self.old.id.index) task.ticket.number self.old.acts self.new.acts) }
        ensures pushed { (HasJob task.work → ⊥) → MatchResult result
            (λ _. Traced self.old.shape (Worker 0 self.old.id.index) (Stay (at.LookQueue (Detach 0 task.ticket.number))) self.old.acts self.new.acts Back × (self.new ≡ record self.old { pushed = self.old.pushed ++ task ∷ []; left = self.old.left ++ task ∷ []; acts = self.new.acts }))
            (λ _. Traced self.old.shape (Worker 0 self.old.id.index) (Stay (at.LookQueue (Detach 0 task.ticket.number))) self.old.acts self.new.acts (Stay (undo (Detach 0 task.ticket.number)))) }
        ensures back { IfErr result (λ e. (e.1 ≡ task) × (self.new ≡ record self.old { acts = self.new.acts })) }
        ensures refused { IfErr result (λ e. (e.0 ≡ Refusal.Full) ⊎ (e.0 ≡ Refusal.NoRoom)) }
    {
        if !task.has_job() {
            return self.push(rt, task);
        }
        let Some(token) = self.names.draw() else {
            return Err((Refusal::Full, task));
        };
        if let Err(task) = self.bench.push_fifo(rt, alloc, token, task) {
            return Err((Refusal::NoRoom, task));
        }
        Ok(())
    }

    /// Spawns a detached job: puts it last into the worker's own deque, and waits for nothing. The job has a unit of
    /// the terminate count, which the end of its run gives back, so that the pool cannot end before. Nobody is answered
    /// its output; its fault goes to the pool's handler, or is kept where it has none (`take_fault`). Refused `Full`,
    /// `NoRoom`, `Ended`, with the job back and nothing added.
    #[tactic(auto, unfolding(crate::specs::Pushes::pushed_by, crate::specs::Pushes::left_to, crate::specs::Pushes::takes_oldest, crate::specs::Pushes::units_of, crate::specs::Pushes::count_of, crate::specs::Pushes::shape_at, crate::specs::Pushes::index_of, crate::specs::Pushes::acts_of, crate::specs::Pushes::saw_set))]
    pub fn spawn<R: Wait>(&mut self, rt: &R, alloc: Global, job: J) -> Result<(), (Refusal, J)>
        ensures spawned { IfOk result (λ _. (n : ℕ) × Spawned self.old.shape (Worker 0 self.old.id.index) n self.old.acts self.new.acts × (self.new ≡ record self.old { pushed = self.old.pushed ++ detached_task job false (Worker 0 self.old.id.index) n ∷ []; left = self.old.left ++ detached_task job false (Worker 0 self.old.id.index) n ∷ []; count = self.new.count; acts = self.new.acts })) }
        ensures unit { IfOk result (λ _. TakesUnit true self.old.count self.new.count) }
        ensures back { IfErr result (λ e. e.1 ≡ job) }
        ensures kept { IfErr result (λ _. Kept self.old self.new) }
        ensures path { IfErr result (λ _. HandedBack self.old.shape (Worker 0 self.old.id.index) (Detach 0) self.old.acts self.new.acts) }
        ensures refused { IfErr result (λ e. (e.0 ≡ Refusal.Ended) ⊎ ((e.0 ≡ Refusal.Full) ⊎ (e.0 ≡ Refusal.NoRoom))) }
    {
        let Some(name) = self.names.draw() else {
            return Err((Refusal::Full, job));
        };
        self.bench.spawn(rt, alloc, name, job)?;
        Ok(())
    }

    /// Spawns a detached job in order: adds it last to the worker's own FIFO list, and puts a token last into its own
    /// deque, and waits for nothing. Who takes a token, this worker or a thief, runs the first job of the list. The
    /// list's lock is held until the token is pushed. The job has a unit of the terminate count and its fault is told
    /// or kept, as with `spawn`. Refused `Full`, `NoRoom`, `Ended`, with the very job back and nothing added.
    ///
    /// What lies in the list no contract sees, since other threads take from it.
    #[tactic(auto, unfolding(crate::specs::Pushes::pushed_by, crate::specs::Pushes::left_to, crate::specs::Pushes::takes_oldest, crate::specs::Pushes::units_of, crate::specs::Pushes::count_of, crate::specs::Pushes::shape_at, crate::specs::Pushes::index_of, crate::specs::Pushes::acts_of, crate::specs::Pushes::saw_set))]
    pub fn spawn_fifo<R: Wait>(&mut self, rt: &R, alloc: Global, job: J) -> Result<(), (Refusal, J)>
        ensures spawned { IfOk result (λ _. (n : ℕ) × (k : ℕ) × Fed self.old.shape (Worker 0 self.old.id.index) n k self.old.acts self.new.acts × (self.new ≡ record self.old { pushed = self.old.pushed ++ token_task (Worker 0 self.old.id.index) k ∷ []; left = self.old.left ++ token_task (Worker 0 self.old.id.index) k ∷ []; count = self.new.count; acts = self.new.acts })) }
        ensures unit { IfOk result (λ _. TakesUnit true self.old.count self.new.count) }
        ensures back { IfErr result (λ e. e.1 ≡ job) }
        ensures kept { IfErr result (λ _. Kept self.old self.new) }
        ensures path { IfErr result (λ _. (k : ℕ) × HandedBack self.old.shape (Worker 0 self.old.id.index) (λ j. Feed (feeding j k)) self.old.acts self.new.acts) }
        ensures refused { IfErr result (λ e. (e.0 ≡ Refusal.Ended) ⊎ ((e.0 ≡ Refusal.Full) ⊎ (e.0 ≡ Refusal.NoRoom))) }
    {
        let Some(name) = self.names.draw() else {
            return Err((Refusal::Full, job));
        };
        let Some(token) = self.names.draw() else {
            return Err((Refusal::Full, job));
        };
        self.bench.spawn_fifo(rt, alloc, name, token, job)?;
        Ok(())
    }

    /// Takes the newest task of the worker's own deque, or the oldest where that is its order. Where nothing lies there
    /// the oldest piece of a broadcast that the worker is to run, if there is one. None where there is neither. It may
    /// be a token.
    #[tactic(auto, unfolding(crate::specs::Pushes::pushed_by, crate::specs::Pushes::left_to, crate::specs::Pushes::takes_oldest, crate::specs::Pushes::units_of, crate::specs::Pushes::count_of, crate::specs::Pushes::shape_at, crate::specs::Pushes::index_of, crate::specs::Pushes::acts_of, crate::specs::Pushes::saw_set))]
    pub fn take_local_job<R: Wait>(&mut self, rt: &R) -> Option<Task<J>>
        ensures some { IfSome result (λ t. Leaves self.old.oldest_first self.old.left t self.new.left ⊎ (self.new.left ≡ self.old.left)) }
        ensures none { IfNone result (self.new.left ≡ self.old.left) }
        ensures empty { self.old.left ≡ [] → self.new.left ≡ [] }
        ensures kept { self.new ≡ record self.old { left = self.new.left; acts = self.new.acts } }
        ensures path { MatchOption result
            (Traced self.old.shape (Worker 0 self.old.id.index) (Stay at.LocalPop) self.old.acts self.new.acts Back)
            (λ t. Traced self.old.shape (Worker 0 self.old.id.index) (Stay at.LocalPop) self.old.acts self.new.acts (Stay (at.BeginTask (taken_in t)))) }
    {
        self.bench.take_local(rt)
    }

    /// Looks for a task: in the worker's own deque, among the pieces of broadcasts that it is to run, in the other
    /// workers' deques, from a chosen one on, each once, and last among the injected ones. None where each look missed.
    /// It may be a token. A piece answers for the worker that runs it.
    #[tactic(auto, unfolding(crate::specs::Pushes::pushed_by, crate::specs::Pushes::left_to, crate::specs::Pushes::takes_oldest, crate::specs::Pushes::units_of, crate::specs::Pushes::count_of, crate::specs::Pushes::shape_at, crate::specs::Pushes::index_of, crate::specs::Pushes::acts_of, crate::specs::Pushes::saw_set))]
    pub fn find_work<R: Wait>(&mut self, rt: &R) -> Option<Task<J>>
        ensures some { IfSome result (λ t. Leaves self.old.oldest_first self.old.left t self.new.left ⊎ (self.new.left ≡ self.old.left)) }
        ensures none { IfNone result (self.new.left ≡ self.old.left) }
        ensures kept { self.new ≡ record self.old { left = self.new.left; acts = self.new.acts } }
        ensures path { MatchOption result
            (Traced self.old.shape (Worker 0 self.old.id.index) (Stay at.YieldPop) self.old.acts self.new.acts Back)
            (λ t. Traced self.old.shape (Worker 0 self.old.id.index) (Stay at.YieldPop) self.old.acts self.new.acts (Stay (at.BeginTask (taken_in t)))) }
    {
        self.bench.find_work(rt)
    }

    /// Runs queued tasks until the latch is set, and sleeps where nothing is queued: who sets the latch wakes the
    /// worker if it does so through its `owner`, as a `SpinLatch` does. Refused `TooDeep` exactly where no level is
    /// left.
    #[tactic(auto, unfolding(crate::specs::Pushes::units_of, crate::specs::Pushes::shape_at, crate::specs::Pushes::index_of))]
    pub fn wait_until<R: Waits<J>>(
        &mut self,
        rt: &R,
        alloc: Global,
        latch: &mut OwnLatch,
    ) -> Result<(), Refusal>
        requires levels { self.old.levels ≤ R.levels rt.now }
        ensures refused { MatchResult result (λ _. 0 < self.old.levels) (λ r. (r ≡ Refusal.TooDeep) × (self.old.levels ≡ 0) × (self.new ≡ self.old)) }
        ensures same { SameWorker self.old self.new }
        ensures path { IfOk result (λ _. Worked self.old.shape (Worker 0 self.old.id.index) (Stay (at.ProbeWorking (fresh Termination))) self.old.acts self.new.acts (Stay at.Stopped)) }
        ensures set { IfOk result (λ _. self.new.probed ≡ true) }
        ensures latch { IfOk result (λ _. latch.new.seen ≡ true) }
    {
        if self.levels == 0 {
            return Err(Refusal::TooDeep);
        }
        for _ in rt.forever() {
            match self.bench.wait_on(rt, latch) {
                Move::Enter {
                    place: Place::BeginTask(name),
                    ..
                } => {
                    let begun = self.bench.begin_task(rt, name);
                    self.run_begun(rt, alloc, begun);
                }
                _ => return Ok(()),
            }
        }
        unreachable!()
    }

    // The worker's loop: it works until the pool has ended.
    pub(crate) fn main_loop<R: Waits<J>>(&mut self, rt: &R, alloc: Global)
        requires levels { self.old.levels ≤ R.levels rt.now }
        ensures same { SameWorker self.old self.new }
        ensures path { 0 < self.old.levels → Worked self.old.shape (Worker 0 self.old.id.index) (Stay (at.ProbeWorking (fresh Termination))) self.old.acts self.new.acts (Stay at.Stopped) }
    {
        if self.levels > 0 {
            self.wait_for(rt, alloc, Target::Termination, None);
        }
    }

    // Waits for this, with the call if it is a call's result, and runs the tasks that it meets meanwhile.
    // Answers the result that was found.
    #[tactic(auto, unfolding(crate::specs::Pushes::units_of, crate::specs::Pushes::shape_at, crate::specs::Pushes::index_of))]
    pub(crate) fn wait_for<R: Waits<J>>(
        &mut self,
        rt: &R,
        alloc: Global,
        target: Target,
        held: Option<Call<J>>,
    ) -> Option<Done<J>>
        requires some { 0 < self.old.levels }
        requires levels { self.old.levels ≤ R.levels rt.now }
        requires ticket { HasTicket (ticket_in held) (call_to target) }
        ensures after { AfterWait target self.old self.new }
        ensures path { Worked self.old.shape (Worker 0 self.old.id.index) (Stay (at.ProbeWorking (fresh target))) self.old.acts self.new.acts (wait_end target) }
    {
        let mut held = held;
        for _ in rt.forever() {
            self.bench.set_call(held);
            match self.bench.wait(rt, target) {
                Move::Enter {
                    place: Place::BeginTask(name),
                    ..
                } => {
                    held = self.bench.take_call();
                    let begun = self.bench.begin_task(rt, name);
                    self.run_begun(rt, alloc, begun);
                }
                _ => return self.bench.take_done(),
            }
        }
        unreachable!()
    }

    // Runs what has begun, if there is something. Else a token was spent whose list was empty: that is counted.
    pub(crate) fn run_begun<R: Waits<J>>(&mut self, rt: &R, alloc: Global, begun: Option<Task<J>>)
        requires some { 0 < self.old.levels }
        requires levels { self.old.levels ≤ R.levels rt.now }
        requires job { BringsJob begun }
        ensures same { SameWorker self.old self.new }
        ensures path { RunOf self.old.shape (Worker 0 self.old.id.index) begun self.old.acts self.new.acts }
    {
        match begun {
            Some(task) => self.run_task(rt, alloc, task),
            None => self.faults.stray(rt),
        }
    }

    // Runs a task that was taken and has begun, and tells its call.
    #[tactic(auto, unfolding(crate::specs::Pushes::units_of, crate::specs::Pushes::shape_at, crate::specs::Pushes::index_of))]
    fn run_task<R: Waits<J>>(&mut self, rt: &R, alloc: Global, task: Task<J>)
        requires some { 0 < self.old.levels }
        requires levels { self.old.levels ≤ R.levels rt.now }
        requires job { HasJob task.work }
        ensures same { SameWorker self.old self.new }
        ensures path { (e : Ending) × (x : Log) × AddsRun self.old.acts x × Closes self.old.shape (Worker 0 self.old.id.index) task.ticket.number (kind_in task.ticket) e x self.new.acts }
    {
        let kind = task.kind();
        let migrated = task.injected() || !task.owner().is_worker(0, self.id.index);
        let (work, _injected, ticket) = task_parts(task);
        let context = FnContext::in_scope(migrated, self.scope_of(alloc, &ticket));
        let (done, first) = self.run_work(rt, alloc, work, context);
        self.end_run(rt, kind, ticket, done, first);
    }

    // The run of this ticket's job, of this kind, has ended so. A detached job's fault is told to the pool's handler,
    // or kept, before its unit of the terminate count is given back; a call that waits for the job is told.
    #[tactic(auto, unfolding(crate::specs::Pushes::units_of, crate::specs::Pushes::count_of, crate::specs::Pushes::shape_at, crate::specs::Pushes::index_of, crate::specs::Pushes::acts_of))]
    fn end_run<R: Wait>(
        &mut self,
        rt: &R,
        kind: Kind,
        ticket: Ticket<J>,
        done: Done<J>,
        first: Option<(Ticket<J>, Done<J>)>,
    )
        requires { kind ≡ kind_in ticket }
        ensures same { SameWorker self.old self.new }
        ensures path { Closes self.old.shape (Worker 0 self.old.id.index) ticket.number kind (ended done.answer) self.old.acts self.new.acts }
        ensures unit { ClosesUnit kind self.old.count self.new.count }
    {
        let (job, ending) = (ticket.number(), done.ending());
        if let Kind::Detached(pool) = kind {
            if let Err(fault) = done.into_result() {
                self.faults.keep(rt, fault);
            }
            self.bench.close(rt, Kind::Detached(pool), job, ending);
        } else {
            self.bench.set_reply(ticket, done, first);
            self.bench.close(rt, kind, job, ending);
        }
    }

    // Runs what there is to run of a task. Answers the result for the call's cell, and of two sides the first one's
    // with the ticket to whose cell that goes.
    pub(crate) fn run_work<R: Waits<J>>(
        &mut self,
        rt: &R,
        alloc: Global,
        work: Work<J>,
        context: FnContext<J>,
    ) -> (Done<J>, Option<(Ticket<J>, Done<J>)>)
        requires some { 0 < self.old.levels }
        requires levels { self.old.levels ≤ R.levels rt.now }
        requires job { HasJob (work_of work) }
        ensures same { SameWorker self.old self.new }
        ensures acts { AddsRun self.old.acts self.new.acts }
    {
        let mut context = context;
        match work {
            Work::Job(job) => (self.run_told(rt, alloc, job, &mut context), None),
            Work::Pair(pair) => self.run_sides(rt, alloc, pair),
            Work::Piece(job) => (self.run_piece(rt, alloc, job, context.take_scope()), None),
            Work::Token => unreachable!(),
        }
    }

    // Joins two sides that were sent to the pool, as one run. Where no result of the second was found there is none for
    // the first one's cell: the caller finds that result missing.
    #[cold]
    #[inline(never)]
    #[tactic(auto, unfolding(crate::specs::Pushes::units_of, crate::specs::Pushes::shape_at, crate::specs::Pushes::index_of, crate::specs::Pushes::acts_of))]
    fn run_sides<R: Waits<J>>(
        &mut self,
        rt: &R,
        alloc: Global,
        pair: Pair<J>,
    ) -> (Done<J>, Option<(Ticket<J>, Done<J>)>)
        requires some { 0 < self.old.levels }
        requires levels { self.old.levels ≤ R.levels rt.now }
        ensures same { SameWorker self.old self.new }
        ensures acts { AddsRun self.old.acts self.new.acts }
    {
        let Pair {
            first,
            second,
            first_result,
        } = pair;
        let before = self.bench.set_aside();
        let PairRun { first, second } = if self.levels > 1 {
            rt.run_parts(alloc, self, &mut Parts::sides(first, second))
        } else {
            self.one_after_the_other(rt, alloc, first, second)
        };
        self.bench.put_back(before);
        match second {
            Some(second) => (second, Some((first_result, first))),
            None => (first, None),
        }
    }

    // Runs a job of no scope, and puts its result beside its tag.
    #[inline(always)]
    pub(crate) fn run_to_done<R: Waits<J>>(
        &mut self,
        rt: &R,
        alloc: Global,
        job: J,
        migrated: bool,
    ) -> Done<J>
        requires some { 0 < self.old.levels }
        requires levels { self.old.levels ≤ R.levels rt.now }
        ensures tag { result.tag ≡ J.tag_of job }
        ensures place { result.place ≡ None }
        ensures lent { J.answers_at job (self.old.levels - 1) migrated result.answer }
        ensures same { SameWorker self.old self.new }
        ensures acts { AddsRun self.old.acts self.new.acts }
    {
        self.run_told(rt, alloc, job, &mut FnContext::new(migrated))
    }

    // Runs a job, which is told this, and puts its result beside its tag.
    #[inline(always)]
    fn run_told<R: Waits<J>>(
        &mut self,
        rt: &R,
        alloc: Global,
        job: J,
        context: &mut FnContext<J>,
    ) -> Done<J>
        requires some { 0 < self.old.levels }
        requires levels { self.old.levels ≤ R.levels rt.now }
        ensures tag { result.tag ≡ J.tag_of job }
        ensures place { result.place ≡ None }
        ensures lent { J.answers_at job (self.old.levels - 1) context.old.migrated result.answer }
        ensures same { SameWorker self.old self.new }
        ensures acts { AddsRun self.old.acts self.new.acts }
    {
        let tag = job.tag();
        let answer = rt.run_job(alloc, self, job, context);
        Done::of_run(tag, answer)
    }
}

// How a run with this answer ended.
#[inline(always)]
pub(crate) fn ending_of<O, F>(answer: &Result<O, F>) -> Ending
    ensures { result ≡ ended answer.now }
{
    match answer {
        Ok(_) => Ending::Fine,
        Err(_) => Ending::Fault,
    }
}
