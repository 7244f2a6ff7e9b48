//! What a caller holds where it stands: a run the worker value, and a caller outside a pool.
ghost use Rattle.rayon_core.specs.Answers.{InstallAnswers, JoinAnswers};
ghost use Rattle.rayon_core.specs.Worker.{Kept, SameWorker};
ghost use Rattle.rayon_machine_places.specs.declared.place.Ending.{Ending};
ghost use Rattle.rayon_machine_places.specs.declared.place.Ending.TheVariants.{Fault, Fine};
ghost use Rattle.rayon_machine_places.specs.declared.place.Party.TheVariants.{Worker};
ghost use Rattle.rayon_machine_places.specs.declared.place.Plan.TheVariants.{Detach, Feed, Here};
ghost use Rattle.rayon_performers.specs.Calls.{own_join};
ghost use Rattle.rayon_performers.specs.Fifos.{Fed, feeding, token_task};
ghost use Rattle.rayon_shared.specs.Marks.{TakesUnit};
ghost use Rattle.rayon_performers.specs.Spawns.{Spawned, detached_task};
ghost use Rattle.rayon_registry.specs.Acts.{CallMade, HandedBack, Installed, Joined};
ghost use Rattle.std.specs.Prelude.{◌≡◌, ◌⊎◌, ℕ, [], ◌∷◌, ◌++◌, ◌-◌, ◌<◌, ◌≤◌, Option, Result, Ok, Err, IfOk, IfErr, Some, None, true, false};

use crate::outside::Outside;
use rayon_core::{CallError, JobKind, Refusal, Waits, WorkerThread};
use std::alloc::Global;
use std::sync::Wait;

/// Where a caller stands.
pub trait Stands {
    /// The index of the worker whose run this is. None outside.
    ghost index: { Self → Option ℕ };

    /// How many workers the pool has.
    ghost workers: { Self → ℕ };

    /// The index of the worker whose run this is. None outside.
    fn thread_index(&self) -> Option<usize>
        ensures { result ≡ index self.now };

    /// How many workers the pool has.
    fn thread_count(&self) -> usize
        ensures { result ≡ workers self.now };
}

impl<J: JobKind> Stands for WorkerThread<J> {
    ghost index = { λ w. Some w.id.index };

    ghost workers = { λ w. w.shape.workers };

    fn thread_index(&self) -> Option<usize> {
        Some(self.index())
    }

    fn thread_count(&self) -> usize {
        self.current_num_threads()
    }
}

impl<'p, J: JobKind> Stands for Outside<'p, J> {
    ghost index = { λ o. None };

    ghost workers = { λ o. o.workers };

    fn thread_index(&self) -> Option<usize> {
        None
    }

    fn thread_count(&self) -> usize {
        self.current_num_threads()
    }
}

/// What calls are made on, by this handle: inside a run the worker value, and outside an `Outside`. The free functions
/// are these calls; their promises are those of the calls that they make, said by what is listed here.
pub trait Current<J: JobKind, R>: Stands {
    /// Whether the handle has as many levels as the worker value; outside none are wanted.
    ghost has_levels: { Self → R → Type 0 };

    /// What the run of a first side, or of an installed job, may answer.
    ghost may_first: { Self → J → Result J.Output J.Fault → Type 0 };

    /// Whether an install is too deep.
    ghost too_deep: { Self → Type 0 };

    /// Whether a join is too deep.
    ghost too_deep_to_join: { Self → Type 0 };

    /// Whether an install is sent to another thread. One that is not takes no memory, and its result can't be lost.
    ghost sends: { Self → Type 0 };

    /// What is known of the first side where the second side's result was lost.
    ghost first_was_fine: { Self → J → Type 0 };

    /// What each call leaves: the same worker with as many levels and units, or the same pool.
    ghost same: { Self → Self → Type 0 };

    /// What a refused call leaves.
    ghost kept: { Self → Self → Type 0 };

    /// Whether the acts between are those of a join that ended so.
    ghost joined: { Ending → Self → Self → Type 0 };

    /// Whether the acts between are those of a refused join.
    ghost join_handed_back: { Self → Self → Type 0 };

    /// Whether the acts between are those of an install whose run ended so.
    ghost installed: { Ending → Self → Self → Type 0 };

    /// Whether the acts between are those of a refused install.
    ghost install_handed_back: { Self → Self → Type 0 };

    /// What a spawn of this job leaves.
    ghost spawned: { Self → J → Self → Type 0 };

    /// Whether the acts between are those of a refused spawn.
    ghost spawn_handed_back: { Self → Self → Type 0 };

    /// What a spawn in order leaves.
    ghost fed: { Self → J → Self → Type 0 };

    /// Whether the acts between are those of a refused spawn in order.
    ghost feed_handed_back: { Self → Self → Type 0 };

    /// Joins two jobs.
    fn join_here(
        &mut self,
        rt: &R,
        alloc: Global,
        a: J,
        b: J,
    ) -> Result<(J::Output, J::Output), CallError<J::Fault, (J, J)>>
        requires levels { has_levels self.old rt.now }
        ensures answers { JoinAnswers (λ r. may_first self.old a r) (λ r. J.answers (J.tag_of b) r) (a, b) result }
        ensures lost { (result ≡ Err CallError.Missing) ⊎ (result ≡ Err CallError.Foreign) → first_was_fine self.old a }
        ensures kept { (r : _) (sides : _) → result ≡ Err (CallError.Refused r sides) → kept self.old self.new }
        ensures deep { too_deep_to_join self.old → result ≡ Err (CallError.Refused Refusal.TooDeep (a, b)) }
        ensures shallow { (sides : _) → result ≡ Err (CallError.Refused Refusal.TooDeep sides) → too_deep_to_join self.old }
        ensures same { same self.old self.new }
        ensures path { CallMade (joined Fine self.old self.new) ((e : Ending) × joined e self.old self.new) (join_handed_back self.old self.new) result };

    /// Installs a job.
    fn install_here(
        &mut self,
        rt: &R,
        alloc: Global,
        job: J,
    ) -> Result<J::Output, CallError<J::Fault, J>>
        requires levels { has_levels self.old rt.now }
        ensures answers { InstallAnswers (λ r. may_first self.old job r) job result }
        ensures kept { (r : _) (j : _) → result ≡ Err (CallError.Refused r j) → kept self.old self.new }
        ensures deep { too_deep self.old → result ≡ Err (CallError.Refused Refusal.TooDeep job) }
        ensures shallow { (j : _) → result ≡ Err (CallError.Refused Refusal.TooDeep j) → too_deep self.old }
        ensures room { (j : _) → result ≡ Err (CallError.Refused Refusal.NoRoom j) → sends self.old }
        ensures found { (result ≡ Err CallError.Foreign → sends self.old) × (result ≡ Err CallError.Missing → sends self.old) }
        ensures same { same self.old self.new }
        ensures path { CallMade (installed Fine self.old self.new) (installed Fault self.old self.new) (install_handed_back self.old self.new) result };

    /// Spawns a detached job.
    fn spawn_here(&mut self, rt: &R, alloc: Global, job: J) -> Result<(), (Refusal, J)>
        requires levels { has_levels self.old rt.now }
        ensures spawned { IfOk result (λ _. spawned self.old job self.new) }
        ensures back { IfErr result (λ e. e.1 ≡ job) }
        ensures kept { IfErr result (λ _. kept self.old self.new) }
        ensures path { IfErr result (λ _. spawn_handed_back self.old self.new) }
        ensures refused { IfErr result (λ e. (e.0 ≡ Refusal.Ended) ⊎ ((e.0 ≡ Refusal.Full) ⊎ (e.0 ≡ Refusal.NoRoom))) }
        ensures same { same self.old self.new };

    /// Spawns a detached job in order.
    fn spawn_fifo_here(&mut self, rt: &R, alloc: Global, job: J) -> Result<(), (Refusal, J)>
        requires levels { has_levels self.old rt.now }
        ensures spawned { IfOk result (λ _. fed self.old job self.new) }
        ensures back { IfErr result (λ e. e.1 ≡ job) }
        ensures kept { IfErr result (λ _. kept self.old self.new) }
        ensures path { IfErr result (λ _. feed_handed_back self.old self.new) }
        ensures refused { IfErr result (λ e. (e.0 ≡ Refusal.Ended) ⊎ ((e.0 ≡ Refusal.Full) ⊎ (e.0 ≡ Refusal.NoRoom))) }
        ensures same { same self.old self.new };
}

impl<J: JobKind, R: Waits<J>> Current<J, R> for WorkerThread<J> {
    ghost has_levels = { λ w h. w.levels ≤ R.levels h };

    ghost may_first = { λ w a r. J.answers (J.tag_of a) r × J.answers_at a (w.levels - 1) false r };

    ghost too_deep = { λ w. w.levels ≡ 0 };

    ghost too_deep_to_join = { λ w. w.levels ≡ 0 };

    ghost sends = { λ w. ⊥ };

    ghost first_was_fine = { λ w a. (x : _) × J.answers (J.tag_of a) (Ok x) };

    ghost same = { λ v w. SameWorker v w };

    ghost kept = { λ v w. Kept v w };

    ghost joined = { λ e v w. Joined v.shape (Worker 0 v.id.index) e v.acts w.acts };

    ghost join_handed_back = { λ v w. HandedBack v.shape (Worker 0 v.id.index) own_join v.acts w.acts };

    ghost installed = { λ e v w. Installed v.shape (Worker 0 v.id.index) e v.acts w.acts };

    ghost install_handed_back = { λ v w. HandedBack v.shape (Worker 0 v.id.index) (Here 0) v.acts w.acts };

    ghost spawned = { λ v job w. ((n : ℕ) × Spawned v.shape (Worker 0 v.id.index) n v.acts w.acts × (w ≡ record v { pushed = v.pushed ++ detached_task job false (Worker 0 v.id.index) n ∷ []; left = v.left ++ detached_task job false (Worker 0 v.id.index) n ∷ []; count = w.count; acts = w.acts })) × TakesUnit true v.count w.count };

    ghost spawn_handed_back = { λ v w. HandedBack v.shape (Worker 0 v.id.index) (Detach 0) v.acts w.acts };

    ghost fed = { λ v job w. ((n : ℕ) × (k : ℕ) × Fed v.shape (Worker 0 v.id.index) n k v.acts w.acts × (w ≡ record v { pushed = v.pushed ++ token_task (Worker 0 v.id.index) k ∷ []; left = v.left ++ token_task (Worker 0 v.id.index) k ∷ []; count = w.count; acts = w.acts })) × TakesUnit true v.count w.count };

    ghost feed_handed_back = { λ v w. (k : ℕ) × HandedBack v.shape (Worker 0 v.id.index) (λ j. Feed (feeding j k)) v.acts w.acts };

    fn join_here(
        &mut self,
        rt: &R,
        alloc: Global,
        a: J,
        b: J,
    ) -> Result<(J::Output, J::Output), CallError<J::Fault, (J, J)>> {
        self.join_jobs(rt, alloc, a, b)
    }

    fn install_here(
        &mut self,
        rt: &R,
        alloc: Global,
        job: J,
    ) -> Result<J::Output, CallError<J::Fault, J>> {
        self.install(rt, alloc, job)
    }

    fn spawn_here(&mut self, rt: &R, alloc: Global, job: J) -> Result<(), (Refusal, J)> {
        self.spawn(rt, alloc, job)
    }

    fn spawn_fifo_here(&mut self, rt: &R, alloc: Global, job: J) -> Result<(), (Refusal, J)> {
        self.spawn_fifo(rt, alloc, job)
    }
}

impl<'p, J: JobKind, R: Wait> Current<J, R> for Outside<'p, J> {
    ghost has_levels = { λ o h. Unit {0} };

    ghost may_first = { λ o a r. J.answers (J.tag_of a) r };

    ghost too_deep = { λ o. ⊥ };

    ghost too_deep_to_join = { λ o. o.depth_limit < 2 };

    ghost sends = { λ o. Unit {0} };

    ghost first_was_fine = { λ o a. Unit {0} };

    ghost same = { λ o p. p ≡ o };

    ghost kept = { λ o p. p ≡ o };

    ghost joined = { λ e o p. Unit {0} };

    ghost join_handed_back = { λ o p. Unit {0} };

    ghost installed = { λ e o p. Unit {0} };

    ghost install_handed_back = { λ o p. Unit {0} };

    ghost spawned = { λ o job p. Unit {0} };

    ghost spawn_handed_back = { λ o p. Unit {0} };

    ghost fed = { λ o job p. Unit {0} };

    ghost feed_handed_back = { λ o p. Unit {0} };

    fn join_here(
        &mut self,
        rt: &R,
        alloc: Global,
        a: J,
        b: J,
    ) -> Result<(J::Output, J::Output), CallError<J::Fault, (J, J)>> {
        self.join(rt, alloc, a, b)
    }

    fn install_here(
        &mut self,
        rt: &R,
        alloc: Global,
        job: J,
    ) -> Result<J::Output, CallError<J::Fault, J>> {
        self.install(rt, alloc, job)
    }

    fn spawn_here(&mut self, rt: &R, alloc: Global, job: J) -> Result<(), (Refusal, J)> {
        self.spawn(rt, alloc, job)
    }

    fn spawn_fifo_here(&mut self, rt: &R, alloc: Global, job: J) -> Result<(), (Refusal, J)> {
        self.spawn_fifo(rt, alloc, job)
    }
}
