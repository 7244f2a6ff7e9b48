//! Two sides on one worker value.
ghost use Rattle.rayon_drive.specs.Traces.{AddsRun};
ghost use Rattle.rayon_drive.specs.declared.trace.Log.{Log};
ghost use Rattle.rayon_machine_places.specs.declared.shape.PoolShape.{PoolShape};
ghost use Rattle.rayon_machine_places.specs.declared.place.Ending.{Ending};
ghost use Rattle.rayon_machine_places.specs.declared.place.Ending.TheVariants.{Fine};
ghost use Rattle.rayon_machine_places.specs.declared.place.Move.TheVariants.{Back, Stay};
ghost use Rattle.rayon_machine_places.specs.declared.place.Party.TheVariants.{Worker};
ghost use Rattle.rayon_machine_places.specs.declared.place.Place.TheVariants as at;
ghost use Rattle.rayon_machine_places.specs.declared.place.Target.TheVariants.{Answer};
ghost use Rattle.rayon_machine_places.specs.Places.{fresh};
ghost use Rattle.rayon_performers.specs.Begins.{BringsJob};
ghost use Rattle.rayon_performers.specs.Calls.{own_join};
ghost use Rattle.rayon_shared.specs.Marks.{TakesUnit};
ghost use Rattle.rayon_registry.specs.Acts.{CallMade, HandedBack, Joined, Lowered, Met, Offered, RunOf, Worked, ended_so};
ghost use Rattle.rayon_registry.specs.Joins.{joins_by};
ghost use Rattle.rayon_registry.specs.Answers.{joined, JoinAnswers};
ghost use Rattle.rayon_registry.specs.Worker.{EndedCall, Kept, SameWorker};
ghost use Rattle.rayon_shared.specs.AtHand.{HasTicket};
ghost use Rattle.rayon_tasks.specs.Calls.{ticket_in};
ghost use Rattle.rayon_tasks.specs.Tasks.{HasJob, OneJob};
ghost use Rattle.rayon_tasks.specs.Tickets.{call_in};
ghost use Rattle.std.specs.Prelude.{◌≡◌, ◌⊎◌, ℕ, ◌≤◌, ◌<◌, [], ◌∷◌, ◌++◌, ◌+◌, ◌-◌, ◌==◌, if◌then◌else◌, Bool, Result, Ok, Err, IfOk, IfErr, MatchResult, Some, suc, true, false};

use crate::answers::join_answer;
use crate::context::{Context, FnContext};
use crate::job::Waits;
use crate::scope::Scope;
use crate::worker_thread::{Lent, WorkerThread};
use rayon_jobs::{Done, JobKind, Lost, claimed};
use rayon_machine_places::place::{Ending, OpenCall, Target, Then};
use rayon_performers::Reclaimed;
use rayon_tasks::{Call, Task, single_parts, task_parts};
use rayon_words::{CallError, Refusal};
use std::alloc::Global;
use std::marker::Model;
use std::sync::Wait;

/// What the two sides of a join that was sent to a pool gave.
#[derive(Drop)]
pub struct PairRun<J: JobKind> {
    pub(crate) first: Done<J>,
    pub(crate) second: Option<Done<J>>,
}

impl<J: JobKind> Model for PairRun<J> {
    ghost use Rattle.rayon_registry.specs.Worker.{PairOfRuns};

    ghost Value = { PairOfRuns J.Tag J.Output J.Fault };

    ghost view = { λ p. record { first = p.first; second = p.second } };
}

/// A second side that was pushed. It has no `Drop`: the join has to be finished. By its type its ticket answers for its
/// own name, and for no scope's.
pub struct Fork<J: JobKind> {
    call: Call<J>,
    tag: J::Tag,
}

impl<J: JobKind> Model for Fork<J> {
    ghost use Rattle.rayon_registry.specs.Worker.{ForkOf};
    ghost use Rattle.rayon_tasks.specs.Tickets.{call_in};
    ghost use Rattle.std.specs.Prelude.{◌≡◌};

    ghost Value = { ForkOf J.Tag };

    ghost view = { λ f. record { ticket = f.call.ticket; tag = f.tag } };

    ghost invariant = { λ f. call_in f.call.ticket ≡ f.call.ticket.number };
}

/// A second side that was pushed, and what the worker value had before it was lent to the first side, a closure. It has
/// no `Drop` either.
pub struct ClosureFork<J: JobKind> {
    fork: Fork<J>,
    lent: Lent,
}

impl<J: JobKind> WorkerThread<J> {
    /// Runs two jobs, the first with exactly one level fewer, and answers both outputs. Refused `TooDeep` exactly where
    /// no level is left, `Ended`, `Full`, `NoRoom`, with the sides back and the worker value unchanged, and neither has
    /// run.
    pub fn join_jobs<R: Waits<J>>(
        &mut self,
        rt: &R,
        alloc: Global,
        a: J,
        b: J,
    ) -> Result<(J::Output, J::Output), CallError<J::Fault, (J, J)>>
        requires levels { self.old.levels ≤ R.levels rt.now }
        ensures answers { JoinAnswers (λ r. J.answers (J.tag_of a) r × J.answers_at a (self.old.levels - 1) false r) (λ r. J.answers (J.tag_of b) r) (a, b) result }
        ensures lost { (result ≡ Err CallError.Missing) ⊎ (result ≡ Err CallError.Foreign) → (x : _) × J.answers (J.tag_of a) (Ok x) }
        ensures kept { (r : _) (sides : _) → result ≡ Err (CallError.Refused r sides) → Kept self.old self.new }
        ensures deep { self.old.levels ≡ 0 → result ≡ Err (CallError.Refused Refusal.TooDeep (a, b)) }
        ensures shallow { (sides : _) → result ≡ Err (CallError.Refused Refusal.TooDeep sides) → self.old.levels ≡ 0 }
        ensures same { SameWorker self.old self.new }
        ensures path { CallMade
            (Joined self.old.shape (Worker 0 self.old.id.index) Fine self.old.acts self.new.acts)
            ((e : Ending) × Joined self.old.shape (Worker 0 self.old.id.index) e self.old.acts self.new.acts)
            (HandedBack self.old.shape (Worker 0 self.old.id.index) own_join self.old.acts self.new.acts)
            result }
    {
        let Fork { call, tag } = match self.fork(rt, alloc, b, false) {
            Ok(fork) => fork,
            Err((refusal, b)) => return Err(CallError::Refused(refusal, (a, b))),
        };
        let first = rt.run_job(alloc, self, a, &mut FnContext::new(false));
        let second = self.meet(rt, alloc, call, &tag, first.is_err());
        join_answer(first, second)
    }
}

impl<J: JobKind> WorkerThread<J> {
    // Takes a unit of the terminate count, makes the ticket, pushes the second side, and tells the others of it.
    // Refused as a join is.
    #[inline(always)]
    #[tactic(auto, unfolding(crate::specs::Pushes::pushed_by, crate::specs::Pushes::left_to, crate::specs::Pushes::takes_oldest, crate::specs::Pushes::units_of, crate::specs::Pushes::count_of, crate::specs::Pushes::shape_at, crate::specs::Pushes::index_of, crate::specs::Pushes::acts_of, crate::specs::Pushes::saw_set))]
    fn fork<R: Wait>(
        &mut self,
        rt: &R,
        alloc: Global,
        b: J,
        injected: bool,
    ) -> Result<Fork<J>, (Refusal, J)>
        ensures forked { IfOk result (λ f. (f.tag ≡ J.tag_of b) × (0 < self.old.levels)) }
        ensures pushed { IfOk result (λ f. self.new ≡ record self.old { pushed = self.old.pushed ++ record { work = OneJob b; injected = injected; ticket = f.ticket } ∷ []; left = self.old.left ++ record { work = OneJob b; injected = injected; ticket = f.ticket } ∷ []; units = self.old.units + 1; count = self.new.count; acts = self.new.acts }) }
        ensures unit { IfOk result (λ _. TakesUnit (self.old.units == 0) self.old.count self.new.count) }
        ensures back { IfErr result (λ e. e.1 ≡ b) }
        ensures kept { IfErr result (λ _. Kept self.old self.new) }
        ensures deep { self.old.levels ≡ 0 → result ≡ Err (Refusal.TooDeep, b) }
        ensures shallow { IfErr result (λ e. e.0 ≡ Refusal.TooDeep → self.old.levels ≡ 0) }
        ensures path { MatchResult result
            (λ f. Offered self.old.shape (Worker 0 self.old.id.index) f.ticket.number self.old.acts self.new.acts)
            (λ _. HandedBack self.old.shape (Worker 0 self.old.id.index) own_join self.old.acts self.new.acts) }
    {
        if self.levels == 0 {
            return Err((Refusal::TooDeep, b));
        }
        let Some(name) = self.names.draw() else {
            return Err((Refusal::Full, b));
        };
        let tag = b.tag();
        let call = self.bench.offer(rt, alloc, name, b, injected)?;
        Ok(Fork { call, tag })
    }

    // Waits for the second side, claims its result by the tag that was handed in, and gives the count back.
    #[inline(always)]
    fn meet<R: Waits<J>>(
        &mut self,
        rt: &R,
        alloc: Global,
        held: Call<J>,
        tag: &J::Tag,
        first_faulted: bool,
    ) -> Result<Result<J::Output, J::Fault>, Lost>
        requires some { 0 < self.old.levels }
        requires levels { self.old.levels ≤ R.levels rt.now }
        requires ticket { call_in held.ticket ≡ held.ticket.number }
        ensures ok { IfOk result (λ r. J.answers tag.now r) }
        ensures ended { EndedCall self.old self.new }
        ensures path { Met self.old.shape (Worker 0 self.old.id.index) held.ticket.number (ended_so first_faulted) self.old.acts self.new.acts }
    {
        let name = held.ticket.number();
        let call = OpenCall {
            number: name,
            pool: 0,
            job: name,
        };
        if first_faulted {
            self.wait_for_answer(rt, alloc, call, Ending::Fault, Some(held), tag)
        } else {
            self.second_side(rt, alloc, call, held, tag)
        }
    }

    // Takes the own second side back and runs it, or goes on from what it has found in its place. Claims the result.
    //
    // A function that may wait clears all its locals that lie in memory where it begins, whichever way it takes. So each
    // way but the first is a function of its own.
    #[inline(always)]
    #[tactic(auto, unfolding(crate::specs::Pushes::units_of, crate::specs::Pushes::shape_at, crate::specs::Pushes::index_of, crate::specs::Pushes::acts_of))]
    fn second_side<R: Waits<J>>(
        &mut self,
        rt: &R,
        alloc: Global,
        call: OpenCall,
        held: Call<J>,
        tag: &J::Tag,
    ) -> Result<Result<J::Output, J::Fault>, Lost>
        requires some { 0 < self.old.levels }
        requires levels { self.old.levels ≤ R.levels rt.now }
        requires ticket { call_in held.ticket ≡ call.number }
        requires pool { call.pool ≡ 0 }
        ensures ok { IfOk result (λ r. J.answers tag.now r) }
        ensures ended { EndedCall self.old self.new }
        ensures path { Worked self.old.shape (Worker 0 self.old.id.index) (Stay (at.JoinProbe call)) self.old.acts self.new.acts Back }
    {
        match self.bench.reclaim(rt, call, held) {
            Ok((task, ended)) => self.run_second(rt, alloc, call, ended, task, tag),
            Err(Reclaimed::Other { task: name, waits }) => {
                let held = self.bench.take_call();
                let begun = self.bench.begin_task(rt, name);
                self.run_other(rt, alloc, call, held, begun, waits, tag)
            }
            Err(Reclaimed::Answered) => self.claim_found(tag),
        }
    }

    // Runs the task that a join has found in place of its second side, which has begun. Then it waits for the worker
    // that took that, or looks for it once more. Claims the result.
    #[cold]
    #[inline(never)]
    fn run_other<R: Waits<J>>(
        &mut self,
        rt: &R,
        alloc: Global,
        call: OpenCall,
        held: Option<Call<J>>,
        begun: Option<Task<J>>,
        waits: bool,
        tag: &J::Tag,
    ) -> Result<Result<J::Output, J::Fault>, Lost>
        requires some { 0 < self.old.levels }
        requires levels { self.old.levels ≤ R.levels rt.now }
        requires ticket { HasTicket (ticket_in held) (Some call.number) }
        requires job { BringsJob begun }
        requires pool { call.pool ≡ 0 }
        ensures ok { IfOk result (λ r. J.answers tag.now r) }
        ensures ended { EndedCall self.old self.new }
        ensures path { (w : Log) × RunOf self.old.shape (Worker 0 self.old.id.index) begun self.old.acts w × Worked self.old.shape (Worker 0 self.old.id.index) (Stay (if waits then at.ProbeWorking (fresh (Answer call (Some Fine))) else at.JoinProbe call)) w self.new.acts Back }
    {
        self.run_begun(rt, alloc, begun);
        if waits {
            self.wait_for_answer(rt, alloc, call, Ending::Fine, held, tag)
        } else {
            self.look_again(rt, alloc, call, held, tag)
        }
    }

    // Looks for the own second side, and runs what lies above it, until that is met or taken. Claims the result.
    #[cold]
    #[inline(never)]
    #[tactic(auto, unfolding(crate::specs::Pushes::units_of, crate::specs::Pushes::shape_at, crate::specs::Pushes::index_of, crate::specs::Pushes::acts_of))]
    fn look_again<R: Waits<J>>(
        &mut self,
        rt: &R,
        alloc: Global,
        call: OpenCall,
        held: Option<Call<J>>,
        tag: &J::Tag,
    ) -> Result<Result<J::Output, J::Fault>, Lost>
        requires some { 0 < self.old.levels }
        requires levels { self.old.levels ≤ R.levels rt.now }
        requires ticket { HasTicket (ticket_in held) (Some call.number) }
        requires pool { call.pool ≡ 0 }
        ensures ok { IfOk result (λ r. J.answers tag.now r) }
        ensures ended { EndedCall self.old self.new }
        ensures path { Worked self.old.shape (Worker 0 self.old.id.index) (Stay (at.JoinProbe call)) self.old.acts self.new.acts Back }
    {
        let mut held = held;
        for _ in rt.forever() {
            let Some(waiting) = held else { unreachable!() };
            match self.bench.reclaim(rt, call, waiting) {
                Ok((task, ended)) => {
                    return self.run_second(rt, alloc, call, ended, task, tag);
                }
                Err(Reclaimed::Other { task: name, waits }) => {
                    held = self.bench.take_call();
                    let begun = self.bench.begin_task(rt, name);
                    self.run_begun(rt, alloc, begun);
                    if waits {
                        return self.wait_for_answer(rt, alloc, call, Ending::Fine, held, tag);
                    }
                }
                Err(Reclaimed::Answered) => return self.claim_found(tag),
            }
        }
        unreachable!()
    }

    // Waits for the answer of the worker that took the second side, once the first one ended so. Claims the result.
    #[cold]
    #[inline(never)]
    fn wait_for_answer<R: Waits<J>>(
        &mut self,
        rt: &R,
        alloc: Global,
        call: OpenCall,
        first: Ending,
        held: Option<Call<J>>,
        tag: &J::Tag,
    ) -> Result<Result<J::Output, J::Fault>, Lost>
        requires some { 0 < self.old.levels }
        requires levels { self.old.levels ≤ R.levels rt.now }
        requires ticket { HasTicket (ticket_in held) (Some call.number) }
        ensures ok { IfOk result (λ r. J.answers tag.now r) }
        ensures ended { EndedCall self.old self.new }
        ensures path { Worked self.old.shape (Worker 0 self.old.id.index) (Stay (at.ProbeWorking (fresh (Answer call (Some first))))) self.old.acts self.new.acts Back }
    {
        let target = Target::Answer {
            call,
            first: Some(first),
        };
        claimed(self.wait_for(rt, alloc, target, held), tag)
    }

    // Claims the result of the second side that was found.
    #[cold]
    #[inline(never)]
    #[tactic(auto, unfolding(crate::specs::Pushes::pushed_by, crate::specs::Pushes::left_to, crate::specs::Pushes::takes_oldest, crate::specs::Pushes::units_of, crate::specs::Pushes::count_of, crate::specs::Pushes::shape_at, crate::specs::Pushes::index_of, crate::specs::Pushes::acts_of, crate::specs::Pushes::saw_set))]
    fn claim_found(&mut self, tag: &J::Tag) -> Result<Result<J::Output, J::Fault>, Lost>
        ensures ok { IfOk result (λ r. J.answers tag.now r) }
        ensures same { self.new ≡ self.old }
    {
        claimed(self.bench.take_done(), tag)
    }

    // Runs the own second side, which was taken back, gives the unit of the terminate count back, and claims the
    // result.
    #[inline(always)]
    #[tactic(auto, unfolding(crate::specs::Pushes::units_of, crate::specs::Pushes::shape_at, crate::specs::Pushes::index_of, crate::specs::Pushes::acts_of))]
    fn run_second<R: Waits<J>>(
        &mut self,
        rt: &R,
        alloc: Global,
        call: OpenCall,
        ended: Call<J>,
        task: Task<J>,
        tag: &J::Tag,
    ) -> Result<Result<J::Output, J::Fault>, Lost>
        requires some { 0 < self.old.levels }
        requires levels { self.old.levels ≤ R.levels rt.now }
        requires job { HasJob task.work }
        ensures ok { IfOk result (λ r. J.answers tag.now r) }
        ensures ended { EndedCall self.old self.new }
        ensures path { Lowered self.old.shape (Worker 0 self.old.id.index) call self.old.acts self.new.acts }
    {
        if !task.is_single() {
            return claimed(
                Some(self.run_second_pair(rt, alloc, call, ended, task)),
                tag,
            );
        }
        let (job, injected, share) = single_parts(task);
        self.bench.keep_call(alloc, ended, share);
        self.bench.begin_here(call.job);
        let done = self.run_to_done(rt, alloc, job, injected);
        self.bench.lower_joined(rt, call, done.ending());
        claimed(Some(done), tag)
    }

    // The same for a task of two sides, which no join of the worker's own queues.
    #[cold]
    #[inline(never)]
    #[tactic(auto, unfolding(crate::specs::Pushes::units_of, crate::specs::Pushes::shape_at, crate::specs::Pushes::index_of, crate::specs::Pushes::acts_of))]
    fn run_second_pair<R: Waits<J>>(
        &mut self,
        rt: &R,
        alloc: Global,
        call: OpenCall,
        ended: Call<J>,
        task: Task<J>,
    ) -> Done<J>
        requires some { 0 < self.old.levels }
        requires levels { self.old.levels ≤ R.levels rt.now }
        requires job { HasJob task.work }
        ensures ended { EndedCall self.old self.new }
        ensures path { Lowered self.old.shape (Worker 0 self.old.id.index) call self.old.acts self.new.acts }
    {
        let name = call.job;
        let (work, injected, share) = task_parts(task);
        self.bench.keep_call(alloc, ended, share);
        self.bench.begin_here(name);
        let (done, first) = self.run_work(rt, alloc, work, FnContext::new(injected));
        if let Some((ticket, done)) = first {
            ticket.store(rt, done);
        }
        let then = Then::Answers {
            call,
            first: Some(Ending::Fine),
            last: done.ending(),
        };
        self.bench.lower_then(rt, name, then);
        done
    }

    // Joins two sides that were sent to the pool; where the join is refused, they run one after the other.
    pub(crate) fn join_pair<R: Waits<J>>(
        &mut self,
        rt: &R,
        alloc: Global,
        first: J,
        second: J,
    ) -> PairRun<J>
        requires some { 0 < self.old.levels }
        requires levels { self.old.levels ≤ R.levels rt.now }
        ensures first { (result.first.tag ≡ J.tag_of first) × J.answers_at first (self.old.levels - 1) true result.first.answer }
        ensures same { SameWorker self.old self.new }
    {
        match self.fork(rt, alloc, second, true) {
            Ok(
                Fork {
                    call,
                    tag: handed_in,
                },
            ) => {
                let tag = first.tag();
                let answer = rt.run_job(alloc, self, first, &mut FnContext::new(true));
                let second = match self.meet(rt, alloc, call, &handed_in, answer.is_err()) {
                    Ok(answer) => Some(Done::of_run(handed_in, answer)),
                    Err(_) => None,
                };
                PairRun {
                    first: Done::of_run(tag, answer),
                    second,
                }
            }
            Err((_, second)) => self.one_after_the_other(rt, alloc, first, second),
        }
    }

    // Runs two sides that were sent to the pool, one after the other.
    pub(crate) fn one_after_the_other<R: Waits<J>>(
        &mut self,
        rt: &R,
        alloc: Global,
        first: J,
        second: J,
    ) -> PairRun<J>
        requires some { 0 < self.old.levels }
        requires levels { self.old.levels ≤ R.levels rt.now }
        ensures first { (result.first.tag ≡ J.tag_of first) × J.answers_at first (self.old.levels - 1) true result.first.answer }
        ensures same { SameWorker self.old self.new }
    {
        let first = self.run_to_done(rt, alloc, first, true);
        let second = self.run_to_done(rt, alloc, second, true);
        PairRun {
            first,
            second: Some(second),
        }
    }
}

/// What the calls that lend a worker value to a closure ask of it. It is not open to users, who call `ForkJoin` and
/// `ScopeCalls`.
pub trait Lends<J: JobKind> {
    /// The type of scopes.
    type Scope: Drop;

    /// The levels of the worker value.
    ghost height: { Self → ℕ };

    /// The pool's number, the worker's index, by which its acts are told too, and its pool's shape.
    ghost id: { Self → ℕ × ℕ × PoolShape };

    /// The units of the terminate count that the worker's calls hold.
    ghost units: { Self → ℕ };

    /// Whether the second is the first, but for the acts that the worker has made since.
    ghost kept: { Self → Self → Type 0 };
}

impl<J: JobKind> Lends<J> for WorkerThread<J> {
    type Scope = Scope<J>;

    ghost height = { λ w. w.levels };

    ghost id = { λ w. (w.id.pool.number, w.id.index, w.shape) };

    ghost units = { λ w. w.units };

    ghost kept = { λ v w. Kept v w };
}

/// What a join with a closure is made of. It is not open to users, who call `ForkJoin`.
pub trait Sides<J: JobKind>: Lends<J> {
    /// A second side that was pushed.
    type Fork;

    /// Whether the acts that the second has more are those of a refused join.
    ghost handed_back: { Self → Self → Type 0 };

    /// Whether the acts that the second has more are those of a join whose first side ended so.
    ghost joined: { Ending → Self → Self → Type 0 };

    /// Whether the acts from this worker value on lead to where this second side was pushed and the first side runs.
    ghost offered: { Self → Self.Fork → Type 0 };

    /// Whether the run of the first side, which ended so, and the acts after it lead to the end of the join.
    ghost met: { Ending → Self.Fork → Self → Type 0 };

    /// The tag of the job that was handed in as the second side.
    ghost fork_tag: { Self.Fork → J.Tag };

    /// The levels of the worker value before it was lent.
    ghost fork_levels: { Self.Fork → ℕ };

    /// Pushes the second side, and lends the worker value: it has one level fewer.
    fn begin_join<R: Wait>(
        &mut self,
        rt: &R,
        alloc: Global,
        b: J,
    ) -> Result<Self::Fork, (Refusal, J)>
        ensures forked { IfOk result (λ f. (fork_tag f ≡ J.tag_of b) × (fork_levels f ≡ Self.height self.old) × (suc (Self.height self.new) ≡ Self.height self.old)) }
        ensures back { IfErr result (λ e. (e.1 ≡ b) × Self.kept self.old self.new × (Self.height self.new ≡ Self.height self.old) × (Self.units self.new ≡ Self.units self.old)) }
        ensures deep { Self.height self.old ≡ 0 → result ≡ Err (Refusal.TooDeep, b) }
        ensures shallow { IfErr result (λ e. e.0 ≡ Refusal.TooDeep → Self.height self.old ≡ 0) }
        ensures id { Self.id self.new ≡ Self.id self.old }
        ensures units { IfOk result (λ f. Self.units self.new ≡ Self.units self.old + 1) }
        ensures path { MatchResult result (λ f. offered self.old f) (λ _. handed_back self.old self.new) };

    /// Takes the worker value back, waits for the second side, and claims its result.
    fn end_join<R: Waits<J>>(
        &mut self,
        rt: &R,
        alloc: Global,
        fork: Self::Fork,
        first_faulted: bool,
    ) -> Result<Result<J::Output, J::Fault>, Lost>
        requires some { 0 < fork_levels fork }
        requires levels { fork_levels fork ≤ R.levels rt.now }
        ensures ok { IfOk result (λ r. J.answers (fork_tag fork) r) }
        ensures height { Self.height self.new ≡ fork_levels fork }
        ensures id { Self.id self.new ≡ Self.id self.old }
        ensures units { Self.units self.new ≡ Self.units self.old - 1 }
        ensures path { met (ended_so first_faulted) fork self.new };

    /// Both together are the acts of the join.
    ghost joins: { (e : Ending) (v w : Self) (f : Self.Fork) → Self.id w ≡ Self.id v → offered v f → met e f w → joined e v w };
}

impl<J: JobKind> Sides<J> for WorkerThread<J> {
    type Fork = ClosureFork<J>;

    ghost handed_back = { λ v w. HandedBack v.shape (Worker 0 v.id.index) own_join v.acts w.acts };

    ghost joined = { λ e v w. Joined v.shape (Worker 0 v.id.index) e v.acts w.acts };

    ghost offered = { λ v f. Offered v.shape (Worker 0 v.id.index) f.fork.ticket.number v.acts f.lent.acts };

    ghost met = { λ e f w. (x : Log) × AddsRun f.lent.acts x × Met w.shape (Worker 0 w.id.index) f.fork.ticket.number e x w.acts };

    ghost joins = { λ e v w f same a b. joins_by e v w f.fork.ticket.number f.lent.acts same a b };

    ghost fork_tag = { λ f. f.fork.tag };

    ghost fork_levels = { λ f. f.lent.levels };

    fn begin_join<R: Wait>(
        &mut self,
        rt: &R,
        alloc: Global,
        b: J,
    ) -> Result<ClosureFork<J>, (Refusal, J)> {
        let fork = self.fork(rt, alloc, b, false)?;
        let lent = self.lend();
        Ok(ClosureFork { fork, lent })
    }

    fn end_join<R: Waits<J>>(
        &mut self,
        rt: &R,
        alloc: Global,
        fork: ClosureFork<J>,
        first_faulted: bool,
    ) -> Result<Result<J::Output, J::Fault>, Lost> {
        let ClosureFork { fork, lent } = fork;
        self.take_back(lent);
        let Fork { call, tag } = fork;
        self.meet(rt, alloc, call, &tag, first_faulted)
    }
}

/// The calls of a worker value that fork into a closure and a job.
pub trait ForkJoin<J: JobKind>: Sides<J> {
    /// Runs a closure and a job, each with one level fewer, and answers both outputs. Refused `TooDeep` exactly where
    /// no level is left, `Ended`, `Full`, `NoRoom`, with the sides back and the worker value unchanged, and neither has
    /// run.
    final fn join<
        R: Waits<J>,
        RA: Drop,
        A: FnOnce(&mut Self, &mut Context<Self::Scope>) -> Result<RA, J::Fault>,
    >(
        &mut self,
        rt: &R,
        alloc: Global,
        a: A,
        b: J,
    ) -> Result<(RA, J::Output), CallError<J::Fault, (A, J)>>
        requires levels { Self.height self.old ≤ R.levels rt.now }
        requires callable { (w : _) (ctx : _) → ctx.now.migrated ≡ false → suc (Self.height w.now) ≡ Self.height self.old → Self.id w.now ≡ Self.id self.old → A.pre a w ctx }
        requires keeps { (w : _) (ctx : _) (r : _) (v : _) (k : _) → A.post a w ctx r v k → (Self.height v.now ≡ Self.height w.now) × (Self.id v.now ≡ Self.id w.now) × (Self.units v.now ≡ Self.units w.now) }
        ensures answers { JoinAnswers (λ r. (w : _) × (ctx : _) × (v : _) × (k : _) × A.post a w ctx r v k × (ctx.now.migrated ≡ false)) (λ r. J.answers (J.tag_of b) r) (a, b) result }
        ensures lost { (result ≡ Err CallError.Missing) ⊎ (result ≡ Err CallError.Foreign) → (x : _) × (w : _) × (ctx : _) × (v : _) × (k : _) × A.post a w ctx (Ok x) v k }
        ensures kept { (r : _) (sides : _) → result ≡ Err (CallError.Refused r sides) → Self.kept self.old self.new }
        ensures deep { Self.height self.old ≡ 0 → result ≡ Err (CallError.Refused Refusal.TooDeep (a, b)) }
        ensures shallow { (sides : _) → result ≡ Err (CallError.Refused Refusal.TooDeep sides) → Self.height self.old ≡ 0 }
        ensures height { Self.height self.new ≡ Self.height self.old }
        ensures id { Self.id self.new ≡ Self.id self.old }
        ensures units { Self.units self.new ≡ Self.units self.old }
        ensures path { CallMade (Self.joined Fine self.old self.new) ((e : Ending) × Self.joined e self.old self.new) (Self.handed_back self.old self.new) result }
    {
        let fork = match self.begin_join(rt, alloc, b) {
            Ok(fork) => fork,
            Err((refusal, b)) => return Err(CallError::Refused(refusal, (a, b))),
        };
        let first = a(self, &mut Context::new(false));
        let second = self.end_join(rt, alloc, fork, first.is_err());
        join_answer(first, second)
    }

    /// The same as `join`: both sides are told of their context there too.
    final fn join_context<
        R: Waits<J>,
        RA: Drop,
        A: FnOnce(&mut Self, &mut Context<Self::Scope>) -> Result<RA, J::Fault>,
    >(
        &mut self,
        rt: &R,
        alloc: Global,
        a: A,
        b: J,
    ) -> Result<(RA, J::Output), CallError<J::Fault, (A, J)>>
        requires levels { Self.height self.old ≤ R.levels rt.now }
        requires callable { (w : _) (ctx : _) → ctx.now.migrated ≡ false → suc (Self.height w.now) ≡ Self.height self.old → Self.id w.now ≡ Self.id self.old → A.pre a w ctx }
        requires keeps { (w : _) (ctx : _) (r : _) (v : _) (k : _) → A.post a w ctx r v k → (Self.height v.now ≡ Self.height w.now) × (Self.id v.now ≡ Self.id w.now) × (Self.units v.now ≡ Self.units w.now) }
        ensures answers { JoinAnswers (λ r. (w : _) × (ctx : _) × (v : _) × (k : _) × A.post a w ctx r v k × (ctx.now.migrated ≡ false)) (λ r. J.answers (J.tag_of b) r) (a, b) result }
        ensures lost { (result ≡ Err CallError.Missing) ⊎ (result ≡ Err CallError.Foreign) → (x : _) × (w : _) × (ctx : _) × (v : _) × (k : _) × A.post a w ctx (Ok x) v k }
        ensures kept { (r : _) (sides : _) → result ≡ Err (CallError.Refused r sides) → Self.kept self.old self.new }
        ensures deep { Self.height self.old ≡ 0 → result ≡ Err (CallError.Refused Refusal.TooDeep (a, b)) }
        ensures shallow { (sides : _) → result ≡ Err (CallError.Refused Refusal.TooDeep sides) → Self.height self.old ≡ 0 }
        ensures height { Self.height self.new ≡ Self.height self.old }
        ensures id { Self.id self.new ≡ Self.id self.old }
        ensures units { Self.units self.new ≡ Self.units self.old }
        ensures path { CallMade (Self.joined Fine self.old self.new) ((e : Ending) × Self.joined e self.old self.new) (Self.handed_back self.old self.new) result }
    {
        self.join(rt, alloc, a, b)
    }
}

impl<J: JobKind> ForkJoin<J> for WorkerThread<J> {}
