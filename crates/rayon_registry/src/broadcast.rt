//! Broadcasts on a worker value: the call that waits for nothing, the one that waits for what the pieces answer, and
//! the run of the worker's own piece.
ghost use Rattle.rayon_broadcasts.specs.Books.{IsAllowed};
ghost use Rattle.rayon_drive.specs.Traces.{AddsRun};
ghost use Rattle.rayon_machine_places.specs.declared.place.Party.TheVariants.{Worker};
ghost use Rattle.rayon_performers.specs.Casts.{Cast};
ghost use Rattle.rayon_shared.specs.Casts.{casting};
ghost use Rattle.rayon_shared.specs.Marks.{KeepsAll, TakesUnits};
ghost use Rattle.rayon_registry.specs.Acts.{CallMade, CastBack, GatherBack, GatherLeft, GatherOpened, Gathered};
ghost use Rattle.rayon_registry.specs.Answers.{AllAnswered};
ghost use Rattle.rayon_registry.specs.Worker.{EndedCall, Kept, SameWorker};
ghost use Rattle.rayon_tasks.specs.Names.{IsRow};
ghost use Rattle.rayon_tasks.specs.Tickets.{call_in};
ghost use Rattle.std.specs.Prelude.{◌≡◌, ◌⊎◌, ℕ, ◌<◌, ◌≤◌, ◌+◌, Err, IfOk, IfErr, IfSome, MatchResult, Some};

use crate::answers::broadcast_answer;
use crate::context::BroadcastContext;
use crate::job::{Job, Waits};
use crate::join::PairRun;
use crate::parts::Parts;
use crate::pool_ref::PoolRef;
use crate::scope::{Scope, given};
use crate::worker_thread::WorkerThread;
use rayon_books::NoOutputs;
use rayon_broadcasts::{NoAnswers, SharedJob};
use rayon_guests::Guest;
use rayon_jobs::{Done, JobKind};
use rayon_machine_places::place::{Move, OpenCall, Place, Target};
use rayon_tasks::{Call, row_of_names};
use rayon_words::{CallError, Refusal};
use std::alloc::Global;
use std::sync::Wait;

impl<J: JobKind> WorkerThread<J> {
    /// Broadcasts a detached job: each worker of the pool runs a piece of it (`Job::run_on`), this one too, and this
    /// call waits for nothing. All pieces are queued at once, and each worker is called, so that none of them sleeps.
    /// Each piece has a unit of the terminate count, which the end of its run gives back. Nobody is answered an output;
    /// a fault goes where that of a job goes which was spawned by `spawn`. Who has the job's last share lets it go, a
    /// piece or the call. Refused `Full`, `NoRoom`, `Ended`, with the very job back and no piece queued.
    #[tactic(auto, unfolding(crate::specs::Pushes::pushed_by, crate::specs::Pushes::left_to, crate::specs::Pushes::takes_oldest, crate::specs::Pushes::units_of, crate::specs::Pushes::count_of, crate::specs::Pushes::shape_at, crate::specs::Pushes::index_of, crate::specs::Pushes::acts_of, crate::specs::Pushes::saw_set))]
    pub fn spawn_broadcast<R: Wait>(
        &mut self,
        rt: &R,
        alloc: Global,
        job: J,
    ) -> Result<(), (Refusal, J)>
        ensures cast { IfOk result (λ _. (n : ℕ) × Cast self.old.shape (Worker 0 self.old.id.index) (casting n self.old.shape.workers) self.old.acts self.new.acts) }
        ensures units { MatchResult result (λ _. TakesUnits self.old.shape.workers self.old.count self.new.count) (λ _. KeepsAll self.old.shape.workers self.old.count self.new.count) }
        ensures back { IfErr result (λ e. e.1 ≡ job) }
        ensures left { self.new ≡ record self.old { count = self.new.count; acts = self.new.acts } }
        ensures path { IfErr result (λ _. CastBack self.old.shape (Worker 0 self.old.id.index) self.old.acts self.new.acts) }
        ensures refused { IfErr result (λ e. (e.0 ≡ Refusal.Ended) ⊎ ((e.0 ≡ Refusal.Full) ⊎ (e.0 ≡ Refusal.NoRoom))) }
    {
        let row = match self.names.draw() {
            Some(name) => row_of_names(self.current_num_threads(), name),
            None => None,
        };
        let Some(first) = row else {
            return Err((Refusal::Full, job));
        };
        self.bench.spawn_broadcast(rt, alloc, first, job)
    }

    /// Broadcasts a job, and waits for it: each worker of the pool runs a piece of it (`Job::run_on`), this one too,
    /// which works meanwhile. All pieces are queued at once, and each worker is called, so that none of them sleeps.
    /// Answers what the pieces answered, by the indices of their workers; where pieces have faults, the one of the
    /// lowest index instead. Who has the job's last share lets it go, a piece or the call. Refused `TooDeep` exactly
    /// where no level is left, `Full`, `NoRoom`, `Ended`, with the very job back, the worker value unchanged and no
    /// piece queued. It is `Missing` where a piece has left no result, and `Foreign` where a result is of another job
    /// or of another piece. rayon-core's broadcast cannot be refused, and answers no faults: it resumes the panic.
    #[tactic(auto, unfolding(crate::specs::Pushes::units_of, crate::specs::Pushes::shape_at, crate::specs::Pushes::index_of, crate::specs::Pushes::acts_of))]
    pub fn broadcast<R: Waits<J>>(
        &mut self,
        rt: &R,
        alloc: Global,
        job: J,
    ) -> Result<Vec<J::Output>, CallError<J::Fault, J>>
        requires levels { self.old.levels ≤ R.levels rt.now }
        ensures ok { IfOk result (λ v. AllAnswered (J.answers_on J.answers (J.tag_of job)) self.old.shape.workers v.items) }
        ensures fault { (f : _) → result ≡ Err (CallError.Fault f) → IsAllowed (J.answers_on J.answers (J.tag_of job)) self.old.shape.workers (NoAnswers.Fault f) }
        ensures back { (r : _) (b : _) → result ≡ Err (CallError.Refused r b) → (b ≡ job) × Kept self.old self.new }
        ensures deep { self.old.levels ≡ 0 → result ≡ Err (CallError.Refused Refusal.TooDeep job) }
        ensures shallow { (b : _) → result ≡ Err (CallError.Refused Refusal.TooDeep b) → self.old.levels ≡ 0 }
        ensures same { SameWorker self.old self.new }
        ensures path { CallMade
            (Gathered self.old.shape self.old.id.index self.old.acts self.new.acts)
            (Gathered self.old.shape self.old.id.index self.old.acts self.new.acts)
            (GatherBack self.old.shape self.old.id.index self.old.acts self.new.acts)
            result }
    {
        if self.levels == 0 {
            return Err(CallError::Refused(Refusal::TooDeep, job));
        }
        let tag = job.tag();
        let workers = self.current_num_threads();
        let Ok(ready) = Vec::with_capacity(alloc, workers) else {
            return Err(CallError::Refused(Refusal::NoRoom, job));
        };
        match self.deal(rt, alloc, job) {
            Ok(held) => {
                let ended = self.gather(rt, alloc, held);
                broadcast_answer(ended, ready, &tag, workers)
            }
            Err((refusal, job)) => Err(CallError::Refused(refusal, job)),
        }
    }

    // Queues the pieces of a broadcast that waits, and answers its call. Refused `Full`, `NoRoom`, `Ended`, with the
    // job back and no piece queued.
    #[tactic(auto, unfolding(crate::specs::Pushes::pushed_by, crate::specs::Pushes::left_to, crate::specs::Pushes::takes_oldest, crate::specs::Pushes::units_of, crate::specs::Pushes::count_of, crate::specs::Pushes::shape_at, crate::specs::Pushes::index_of, crate::specs::Pushes::acts_of, crate::specs::Pushes::saw_set))]
    fn deal<R: Wait>(&mut self, rt: &R, alloc: Global, job: J) -> Result<Call<J>, (Refusal, J)>
        ensures call { IfOk result (λ c. call_in c.ticket ≡ c.ticket.number) }
        ensures left { IfOk result (λ _. self.new ≡ record self.old { units = self.old.units + 1; count = self.new.count; acts = self.new.acts }) }
        ensures opened { IfOk result (λ c. GatherOpened self.old.shape self.old.id.index c.ticket.number self.old.acts self.new.acts) }
        ensures back { IfErr result (λ e. e.1 ≡ job) }
        ensures kept { IfErr result (λ _. Kept self.old self.new) }
        ensures path { IfErr result (λ _. GatherBack self.old.shape self.old.id.index self.old.acts self.new.acts) }
        ensures refused { IfErr result (λ e. (e.0 ≡ Refusal.Ended) ⊎ ((e.0 ≡ Refusal.Full) ⊎ (e.0 ≡ Refusal.NoRoom))) }
    {
        match self.draw_row() {
            Some((name, first)) => self.bench.open_broadcast(rt, alloc, name, first, job),
            None => Err((Refusal::Full, job)),
        }
    }

    // A name, and the first of the row of names that belongs to it, one for each worker. None where either is not had.
    #[tactic(auto, unfolding(crate::specs::Pushes::pushed_by, crate::specs::Pushes::left_to, crate::specs::Pushes::takes_oldest, crate::specs::Pushes::units_of, crate::specs::Pushes::count_of, crate::specs::Pushes::shape_at, crate::specs::Pushes::index_of, crate::specs::Pushes::acts_of, crate::specs::Pushes::saw_set))]
    fn draw_row(&mut self) -> Option<(u64, u64)>
        ensures row { IfSome result (λ r. IsRow self.old.shape.workers r.0 (Some r.1)) }
        ensures same { self.new ≡ self.old }
    {
        let name = self.names.draw()?;
        let first = row_of_names(self.current_num_threads(), name)?;
        Some((name, first))
    }

    // Calls the workers to the pieces of the broadcast of this call, waits for them, and works meanwhile. Answers the
    // runs of the pieces, by index, or why there are none.
    #[tactic(auto, unfolding(crate::specs::Pushes::units_of, crate::specs::Pushes::shape_at, crate::specs::Pushes::index_of, crate::specs::Pushes::acts_of))]
    fn gather<R: Waits<J>>(
        &mut self,
        rt: &R,
        alloc: Global,
        held: Call<J>,
    ) -> Result<Vec<Done<J>>, NoOutputs<J::Fault>>
        requires some { 0 < self.old.levels }
        requires levels { self.old.levels ≤ R.levels rt.now }
        requires call { call_in held.ticket ≡ held.ticket.number }
        ensures ended { EndedCall self.old self.new }
        ensures path { GatherLeft self.old.shape self.old.id.index held.ticket.number self.old.acts self.new.acts }
    {
        let name = held.ticket.number();
        let call = OpenCall {
            number: name,
            pool: 0,
            job: name,
        };
        self.bench.set_call(Some(held));
        match self.bench.call_pieces(rt, call) {
            Move::Enter {
                place: Place::BeginTask(name),
                ..
            } => {
                let held = self.bench.take_call();
                let begun = self.bench.begin_task(rt, name);
                self.run_begun(rt, alloc, begun);
                let target = Target::Answer { call, first: None };
                let _done = self.wait_for(rt, alloc, target, held);
                self.outcome()
            }
            _ => self.outcome(),
        }
    }

    // Runs this worker's piece of a broadcast of the job in this place, one level below, and lets its share of the job
    // go.
    #[cold]
    #[inline(never)]
    pub(crate) fn run_piece<R: Waits<J>>(
        &mut self,
        rt: &R,
        alloc: Global,
        job: SharedJob<J>,
        scope: Option<Scope<J>>,
    ) -> Done<J>
        requires some { 0 < self.old.levels }
        requires levels { self.old.levels ≤ R.levels rt.now }
        ensures place { result.place ≡ Some (self.old.id.index, self.old.shape.workers) }
        ensures same { SameWorker self.old self.new }
        ensures acts { AddsRun self.old.acts self.new.acts }
    {
        let PairRun { first, second: _ } = rt.run_parts(alloc, self, &mut Parts::piece(job, scope));
        first
    }

    // The run of this worker's piece of a broadcast of this job, which is told of the scope that it was spawned into:
    // its result beside the job's tag.
    pub(crate) fn run_on<R: Waits<J>>(
        &mut self,
        rt: &R,
        alloc: Global,
        job: &J,
        scope: Option<Scope<J>>,
    ) -> PairRun<J>
    where
        J: Job,
        requires levels { self.old.levels ≤ R.levels rt.now }
        ensures place { result.first.place ≡ Some (self.old.id.index, self.old.shape.workers) }
        ensures same { SameWorker self.old self.new }
    {
        let (index, workers) = (self.index(), self.current_num_threads());
        let mut context = BroadcastContext::new(index, workers, scope);
        let answer = job.run_on(rt, alloc, self, &mut context);
        PairRun {
            first: Done::of_piece(job.tag(), index, workers, answer),
            second: None,
        }
    }
}

impl<J: JobKind> PoolRef<J> {
    /// Broadcasts a job to the pool, for a caller that is no worker, and blocks until each worker of the pool has run a
    /// piece of it (`Job::run_on`). All pieces are queued at once, and each worker is called, so that none of them
    /// sleeps. Answers what the pieces answered, by the indices of their workers; where pieces have faults, the one of
    /// the lowest index instead. Who has the job's last share lets it go, a piece or the call. Refused `Full`,
    /// `NoRoom`, `Ended`, with the very job back and no piece queued. It is `Missing` where a piece has left no result,
    /// and `Foreign` where a result is of another job or of another piece. rayon-core's broadcast cannot be refused,
    /// and answers no faults: it resumes the panic.
    pub fn broadcast<R: Wait>(
        &self,
        rt: &R,
        alloc: Global,
        job: J,
    ) -> Result<Vec<J::Output>, CallError<J::Fault, J>>
        ensures ok { IfOk result (λ v. AllAnswered (J.answers_on J.answers (J.tag_of job)) self.now.workers v.items) }
        ensures fault { (f : _) → result ≡ Err (CallError.Fault f) → IsAllowed (J.answers_on J.answers (J.tag_of job)) self.now.workers (NoAnswers.Fault f) }
        ensures back { (r : _) (b : _) → result ≡ Err (CallError.Refused r b) → b ≡ job }
        ensures shallow { (b : _) → result ≡ Err (CallError.Refused Refusal.TooDeep b) → ⊥ }
    {
        let tag = job.tag();
        let workers = self.current_num_threads();
        let Ok(ready) = Vec::with_capacity(alloc, workers) else {
            return Err(CallError::Refused(Refusal::NoRoom, job));
        };
        let Some((name, first)) = self.draw_row(rt) else {
            return Err(CallError::Refused(Refusal::Full, job));
        };
        let mut guest = Guest::new(&*self.pool.shared);
        match guest.broadcast(rt, alloc, name, first, job) {
            Ok(Some(outcome)) => broadcast_answer(given(outcome), ready, &tag, workers),
            Ok(None) => Err(CallError::Missing),
            Err((refusal, job)) => Err(CallError::Refused(refusal, job)),
        }
    }

    // A name, and the first of the row of names that belongs to it, one for each worker. None where either is not had.
    fn draw_row<R: Wait>(&self, rt: &R) -> Option<(u64, u64)>
        ensures { IfSome result (λ r. IsRow self.now.workers r.0 (Some r.1)) }
    {
        let name = self.pool.shared.caller_name(rt)?;
        let first = row_of_names(self.current_num_threads(), name)?;
        Some((name, first))
    }
}
