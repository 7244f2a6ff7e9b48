//! The scopes that are written alike inside a run and outside of it.
ghost use Rattle.rayon_books.specs.Books.{Allowed};
ghost use Rattle.rayon_books.specs.Receipts.{MetBy};
ghost use Rattle.rayon_books.specs.declared.receipt.Receipt.{Receipt};
ghost use Rattle.rayon_core.specs.Worker.{Kept, SameWorker};
ghost use Rattle.rayon_jobs.specs.Within.{Run, Within};
ghost use Rattle.rayon_machine_places.specs.declared.place.Ending.{Ending};
ghost use Rattle.rayon_machine_places.specs.declared.place.Ending.TheVariants.{Fine};
ghost use Rattle.rayon_machine_places.specs.declared.place.Party.TheVariants.{Worker};
ghost use Rattle.rayon_machine_places.specs.declared.place.Plan.TheVariants as plans;
ghost use Rattle.rayon_performers.specs.Calls.{own_call};
ghost use Rattle.rayon_performers.specs.Scopes.{Entered, EnteredInOrder, entered_task, entering, entry_of, into, scope_token};
ghost use Rattle.rayon_registry.specs.Acts.{CallMade, HandedBack, Scoped, ended_so};
ghost use Rattle.rayon_tasks.specs.Tickets.{TicketOf};
ghost use Rattle.std.proofs.Common.{rules};
ghost use Rattle.std.specs.Prelude.{◌≡◌, ◌⊎◌, ℕ, [], ◌∷◌, ◌++◌, ◌+◌, ◌≤◌, Bool, List, None, Some, Ok, Err, IfOk, IfErr, suc, true};

use crate::current::Stands;
use crate::outside::Outside;
use rayon_books::{Ended, NoOutputs};
use rayon_core::{CallError, Done, JobKind, Refusal, Scope, Waits, WorkerThread};
use rayon_registry::{InPlace, Opened, Opens, OpensInPlace, scope_answer};
use std::alloc::Global;
use std::sync::Wait;

/// What scopes can be opened on: inside a run the worker value, and outside an `Outside`. It stands apart from
/// `Current`, of which the checker has as much as it can take.
pub trait Scopes<J: JobKind, R>: Stands {
    /// The scope that its body is lent.
    type Scope: Drop;

    /// A scope that was opened.
    type Opened;

    /// What the scope's jobs answered, by number.
    type Outputs: Drop;

    /// The receipts that a scope has kept.
    ghost receipts: { Self.Scope → List (Receipt J.Tag) };

    /// Whether it keeps receipts.
    ghost keeps: { Self.Scope → Bool };

    /// The runs of the scope's jobs, by number.
    ghost runs: { Self.Outputs → List (Run J.Tag J.Output J.Fault) };

    /// Whether the handle has as many levels as the worker value; outside none are wanted.
    ghost has_levels: { Self → R → Type 0 };

    /// Whether a scope is too deep.
    ghost too_deep: { Self → Type 0 };

    /// What a body is lent: the same worker with one level fewer, or the same pool.
    ghost lent: { Self → Self → Type 0 };

    /// What a body has to leave, and what a scope leaves: the same worker with as many levels and units, or the same
    /// pool.
    ghost same: { Self → Self → Type 0 };

    /// What a refused scope leaves.
    ghost kept: { Self → Self → Type 0 };

    /// Whether the acts between are those of a scope whose body ended so.
    ghost scoped: { Ending → Self → Self → Type 0 };

    /// Whether the acts between are those of a refused scope.
    ghost not_opened: { Self → Self → Type 0 };

    /// Whether this scope was opened between.
    ghost opens: { Self → Self.Opened → Self → Type 0 };

    /// Opens a scope, and lends what it was called on.
    fn begin_scope_here(
        &mut self,
        rt: &R,
        alloc: Global,
    ) -> Result<(Self::Opened, Self::Scope), Refusal>
        ensures empty { IfOk result (λ o. (receipts o.1 ≡ []) × (keeps o.1 ≡ true)) }
        ensures opened { IfOk result (λ o. opens self.old o.0 self.new × lent self.old self.new) }
        ensures refused { IfErr result (λ _. kept self.old self.new × same self.old self.new × not_opened self.old self.new) }
        ensures deep { too_deep self.old → result ≡ Err Refusal.TooDeep }
        ensures shallow { IfErr result (λ r. r ≡ Refusal.TooDeep → too_deep self.old) };

    /// Takes it back, waits for the scope's jobs, and compares their outputs with the receipts of its body.
    fn end_scope_here(
        &mut self,
        rt: &R,
        alloc: Global,
        opened: Self::Opened,
        scope: Self::Scope,
        body_faulted: bool,
    ) -> Result<Self::Outputs, NoOutputs<J::Fault>>
        requires begun { (v : Self) × (w : Self) × has_levels v rt.now × opens v opened w × same w self.old }
        ensures met { IfOk result (λ o. MetBy J.Tag.eq (runs o) (receipts scope)) }
        ensures fault { IfErr result (Allowed J.answers (J.answers_on J.answers)) }
        ensures foreign { result ≡ Err NoOutputs.Foreign → (o : Self.Outputs) × (MetBy J.Tag.eq (runs o) (receipts scope) → ⊥) }
        ensures left { (v : Self) (w : Self) → opens v opened w → same w self.old → same v self.new × scoped (ended_so body_faulted) v self.new };

    /// What nothing was called on is the same.
    ghost stays: { (v : Self) → same v v };

    /// What two calls leave, one after the other, is the same.
    ghost goes_on: { (u : Self) (v : Self) (w : Self) → same u v → same v w → same u w };

    /// Where the handle has as many levels, it has as many as what is lent to a body.
    ghost lent_levels: { (v : Self) (w : Self) (h : R) → has_levels v h → lent v w → has_levels w h };

    /// And as what a call leaves.
    ghost same_levels: { (v : Self) (w : Self) (h : R) → has_levels v h → same v w → has_levels w h };
}

impl<J: JobKind, R: Waits<J>> Scopes<J, R> for WorkerThread<J> {
    type Scope = Scope<J>;

    type Opened = Opened<J>;

    type Outputs = Vec<Done<J>>;

    ghost receipts = { λ s. s.receipts };

    ghost keeps = { λ s. s.keeps };

    ghost runs = { λ o. o.items };

    ghost has_levels = { λ w h. w.levels ≤ R.levels h };

    ghost too_deep = { λ w. w.levels ≡ 0 };

    ghost lent = { λ v w. (suc w.levels ≡ v.levels) × (w.id ≡ v.id) × (w.shape ≡ v.shape) };

    ghost same = { λ v w. SameWorker v w };

    ghost kept = { λ v w. Kept v w };

    ghost scoped = { λ e v w. Scoped v.shape (Worker 0 v.id.index) e v.acts w.acts };

    ghost not_opened = { λ v w. HandedBack v.shape (Worker 0 v.id.index) (λ n. plans.Open (own_call n)) v.acts w.acts };

    ghost opens = { λ v o w. (suc w.levels ≡ v.levels) × (w.id ≡ v.id) × (w.shape ≡ v.shape) × (w.units ≡ v.units + 1) × (⟦<WorkerThread<J> as Opens<J>>⟧.opened_levels o ≡ v.levels) × ⟦<WorkerThread<J> as Opens<J>>⟧.opens v o };

    ghost stays = { λ v. Prim.search rules };

    ghost goes_on = { λ u v w a b. Prim.search rules };

    ghost lent_levels = { λ v w h a b. Prim.search rules };

    ghost same_levels = { λ v w h a b. Prim.search rules };

    fn begin_scope_here(
        &mut self,
        rt: &R,
        alloc: Global,
    ) -> Result<(Opened<J>, Scope<J>), Refusal> {
        self.begin_scope(rt, alloc)
    }

    fn end_scope_here(
        &mut self,
        rt: &R,
        alloc: Global,
        opened: Opened<J>,
        scope: Scope<J>,
        body_faulted: bool,
    ) -> Result<Vec<Done<J>>, NoOutputs<J::Fault>> {
        self.end_scope(rt, alloc, opened, scope, body_faulted)
    }
}

impl<'p, J: JobKind, R: Wait> Scopes<J, R> for Outside<'p, J> {
    type Scope = Scope<J>;

    type Opened = InPlace<J>;

    type Outputs = Vec<Done<J>>;

    ghost receipts = { λ s. s.receipts };

    ghost keeps = { λ s. s.keeps };

    ghost runs = { λ o. o.items };

    ghost has_levels = { λ o h. Unit {0} };

    ghost too_deep = { λ o. ⊥ };

    ghost lent = { λ o p. p ≡ o };

    ghost same = { λ o p. p ≡ o };

    ghost kept = { λ o p. p ≡ o };

    ghost scoped = { λ e o p. Unit {0} };

    ghost not_opened = { λ o p. Unit {0} };

    ghost opens = { λ o i p. (i ≡ o.count) × (p ≡ o) };

    ghost stays = { λ v. Prim.search rules };

    ghost goes_on = { λ u v w a b. Prim.search rules };

    ghost lent_levels = { λ v w h a b. Prim.search rules };

    ghost same_levels = { λ v w h a b. Prim.search rules };

    fn begin_scope_here(
        &mut self,
        rt: &R,
        alloc: Global,
    ) -> Result<(InPlace<J>, Scope<J>), Refusal> {
        self.begin_in_place(rt, alloc)
    }

    fn end_scope_here(
        &mut self,
        rt: &R,
        _alloc: Global,
        opened: InPlace<J>,
        scope: Scope<J>,
        body_faulted: bool,
    ) -> Result<Vec<Done<J>>, NoOutputs<J::Fault>> {
        self.end_in_place(rt, opened, scope, body_faulted)
    }
}

/// Opens a scope, runs its body on the caller's own thread, and waits for all jobs that the body and these jobs spawned
/// into it: a worker works meanwhile, and any other thread blocks. The body is lent `here` and the scope. Answers what
/// the body answered, and the jobs' outputs by number: they meet each receipt that the body's own spawns gave. Where
/// the body or a job has a fault that is answered: the one that was stored first, of several. Refused `TooDeep` exactly
/// where a worker value has no level left, `Ended`, `Full`, `NoRoom`, with the body back and `here` unchanged, and the
/// body has not run. rayon-core's scope answers no outputs, and its body is lent the scope alone.
///
/// `in_place_scope_fifo` is another name of it: any scope takes jobs that are spawned in order too, by
/// `spawn_fifo_into`. rayon-core has a type of its own for each kind.
pub fn in_place_scope<
    J: JobKind,
    R,
    C: Scopes<J, R>,
    V: Drop,
    B: FnOnce(&mut C, &mut C::Scope) -> Result<V, J::Fault>,
>(
    rt: &R,
    alloc: Global,
    here: &mut C,
    body: B,
) -> Result<Ended<V, C::Outputs>, CallError<J::Fault, B>>
    requires levels { C.has_levels here.old rt.now }
    requires callable { (w : _) (s : _) → C.lent here.old w.now → C.receipts s.now ≡ [] → C.keeps s.now ≡ true → B.pre body w s }
    requires keeps { (w : _) (s : _) (r : _) (v : _) (t : _) → B.post body w s r v t → C.same w.now v.now }
    ensures ok { IfOk result (λ e. (w : _) × (s : _) × (v : _) × (t : _) × (C.receipts s.now ≡ []) × (C.keeps s.now ≡ true) × B.post body w s (Ok e.value) v t × MetBy J.Tag.eq (C.runs e.outputs) (C.receipts t.now)) }
    ensures fault { (f : _) → result ≡ Err (CallError.Fault f) → ((w : _) × (s : _) × (v : _) × (t : _) × B.post body w s (Err f) v t) ⊎ ((r : Run J.Tag J.Output J.Fault) × Within J.answers (J.answers_on J.answers) r × (r.answer ≡ Err f)) }
    ensures missing { result ≡ Err CallError.Missing → (w : _) × (s : _) × (x : _) × (v : _) × (t : _) × B.post body w s (Ok x) v t }
    ensures foreign { result ≡ Err CallError.Foreign → (w : _) × (s : _) × (x : _) × (v : _) × (t : _) × (o : C.Outputs) × B.post body w s (Ok x) v t × (MetBy J.Tag.eq (C.runs o) (C.receipts t.now) → ⊥) }
    ensures back { (r : _) (b : _) → result ≡ Err (CallError.Refused r b) → (b ≡ body) × C.kept here.old here.new }
    ensures deep { C.too_deep here.old → result ≡ Err (CallError.Refused Refusal.TooDeep body) }
    ensures shallow { (b : _) → result ≡ Err (CallError.Refused Refusal.TooDeep b) → C.too_deep here.old }
    ensures same { C.same here.old here.new }
    ensures path { CallMade (C.scoped Fine here.old here.new) ((e : Ending) × C.scoped e here.old here.new) (C.not_opened here.old here.new) result }
{
    let (opened, mut scope) = match here.begin_scope_here(rt, alloc) {
        Ok(begun) => begun,
        Err(refusal) => return Err(CallError::Refused(refusal, body)),
    };
    let answer = body(here, &mut scope);
    let ended = here.end_scope_here(rt, alloc, opened, scope, answer.is_err());
    scope_answer(answer, ended)
}

/// What jobs are spawned into a scope from: inside a run the worker value, and outside an `Outside`.
pub trait SpawnsInto<J: JobKind, R>: Scopes<J, R> {
    /// What a spawn of this job into this scope leaves, where the job's number in the scope is this one.
    ghost entered: { Self → Self.Scope → J → ℕ → Self → Type 0 };

    /// What a spawn in order leaves.
    ghost entered_in_order: { Self → Self.Scope → Self → Type 0 };

    /// What a refused spawn leaves.
    ghost not_entered: { Self → Self.Scope → Self → Type 0 };

    /// What a refused spawn in order leaves.
    ghost not_entered_in_order: { Self → Self.Scope → Self → Type 0 };

    /// Whether the second is the same scope, whatever receipts it has.
    ghost same_scope: { Self.Scope → Self.Scope → Type 0 };

    /// Spawns a job into a scope.
    fn spawn_into_here(
        &mut self,
        rt: &R,
        alloc: Global,
        scope: &mut Self::Scope,
        job: J,
    ) -> Result<u64, (Refusal, J)>
        ensures entered { IfOk result (λ n. entered self.old scope.old job n self.new) }
        ensures receipt { IfOk result (λ n. Self.keeps scope.old ≡ true → Self.receipts scope.new ≡ Self.receipts scope.old ++ record { number = n; tag = J.tag_of job; place = None } ∷ []) }
        ensures scope { same_scope scope.old scope.new }
        ensures back { IfErr result (λ e. (e.1 ≡ job) × (scope.new ≡ scope.old)) }
        ensures kept { IfErr result (λ _. not_entered self.old scope.old self.new) }
        ensures refused { IfErr result (λ e. (e.0 ≡ Refusal.Ended) ⊎ ((e.0 ≡ Refusal.Full) ⊎ (e.0 ≡ Refusal.NoRoom))) }
        ensures same { Self.same self.old self.new };

    /// Spawns a job into a scope in order.
    fn spawn_fifo_into_here(
        &mut self,
        rt: &R,
        alloc: Global,
        scope: &mut Self::Scope,
        job: J,
    ) -> Result<u64, (Refusal, J)>
        ensures entered { IfOk result (λ _. entered_in_order self.old scope.old self.new) }
        ensures receipt { IfOk result (λ n. Self.keeps scope.old ≡ true → Self.receipts scope.new ≡ Self.receipts scope.old ++ record { number = n; tag = J.tag_of job; place = None } ∷ []) }
        ensures scope { same_scope scope.old scope.new }
        ensures back { IfErr result (λ e. (e.1 ≡ job) × (scope.new ≡ scope.old)) }
        ensures kept { IfErr result (λ _. not_entered_in_order self.old scope.old self.new) }
        ensures refused { IfErr result (λ e. (e.0 ≡ Refusal.Ended) ⊎ ((e.0 ≡ Refusal.Full) ⊎ (e.0 ≡ Refusal.NoRoom))) }
        ensures same { Self.same self.old self.new };
}

impl<J: JobKind, R: Waits<J>> SpawnsInto<J, R> for WorkerThread<J> {
    ghost entered = { λ v s job n w. (w.id.pool ≡ s.pool) × ((u : TicketOf) × (k : ℕ) × (s.ticket ≡ Some u) × Entered v.shape (Worker 0 v.id.index) s.call s.owner k v.acts w.acts × (w ≡ record v { pushed = v.pushed ++ entered_task job u k n ∷ []; left = v.left ++ entered_task job u k n ∷ []; acts = w.acts })) };

    ghost entered_in_order = { λ v s w. (w.id.pool ≡ s.pool) × ((u : TicketOf) × (k : ℕ) × (m : ℕ) × (s.ticket ≡ Some u) × EnteredInOrder v.shape (Worker 0 v.id.index) (entry_of s.call s.owner k) m v.acts w.acts × (w ≡ record v { pushed = v.pushed ++ scope_token u v.id.index m ∷ []; left = v.left ++ scope_token u v.id.index m ∷ []; acts = w.acts })) };

    ghost not_entered = { λ v s w. HandedBack v.shape (Worker 0 v.id.index) (entering s.call s.owner) v.acts w.acts × (w ≡ record v { acts = w.acts }) };

    ghost not_entered_in_order = { λ v s w. ((m : ℕ) × HandedBack v.shape (Worker 0 v.id.index) (λ k. plans.Feed (into (entry_of s.call s.owner k) m)) v.acts w.acts) × (w ≡ record v { acts = w.acts }) };

    ghost same_scope = { λ s t. t ≡ record s { receipts = t.receipts } };

    fn spawn_into_here(
        &mut self,
        rt: &R,
        _alloc: Global,
        scope: &mut Scope<J>,
        job: J,
    ) -> Result<u64, (Refusal, J)> {
        scope.spawn(rt, self, job)
    }

    fn spawn_fifo_into_here(
        &mut self,
        rt: &R,
        _alloc: Global,
        scope: &mut Scope<J>,
        job: J,
    ) -> Result<u64, (Refusal, J)> {
        scope.spawn_fifo(rt, self, job)
    }
}

impl<'p, J: JobKind, R: Wait> SpawnsInto<J, R> for Outside<'p, J> {
    ghost entered = { λ o s job n p. (o.id ≡ s.pool) × (p ≡ o) };

    ghost entered_in_order = { λ o s p. (o.id ≡ s.pool) × (p ≡ o) };

    ghost not_entered = { λ o s p. p ≡ o };

    ghost not_entered_in_order = { λ o s p. p ≡ o };

    ghost same_scope = { λ s t. t ≡ record s { receipts = t.receipts } };

    fn spawn_into_here(
        &mut self,
        rt: &R,
        alloc: Global,
        scope: &mut Scope<J>,
        job: J,
    ) -> Result<u64, (Refusal, J)> {
        scope.inject(rt, alloc, self, job)
    }

    fn spawn_fifo_into_here(
        &mut self,
        rt: &R,
        alloc: Global,
        scope: &mut Scope<J>,
        job: J,
    ) -> Result<u64, (Refusal, J)> {
        scope.inject(rt, alloc, self, job)
    }
}

/// Spawns a job into a scope: puts it last into the worker's own deque inside a run, and outside last into the pool's
/// injector, from where any worker takes it. The scope waits for the job, and answers its output at the number that
/// this answers. Refused `Full`, `NoRoom`, `Ended`, with the job back and nothing added; `Ended` also where the scope
/// is of another pool. rayon-core finds out by itself where its caller stands, and answers no number.
pub fn spawn_into<J: JobKind, R, C: SpawnsInto<J, R>>(
    rt: &R,
    alloc: Global,
    here: &mut C,
    scope: &mut C::Scope,
    job: J,
) -> Result<u64, (Refusal, J)>
    ensures entered { IfOk result (λ n. C.entered here.old scope.old job n here.new) }
    ensures receipt { IfOk result (λ n. C.keeps scope.old ≡ true → C.receipts scope.new ≡ C.receipts scope.old ++ record { number = n; tag = J.tag_of job; place = None } ∷ []) }
    ensures scope { C.same_scope scope.old scope.new }
    ensures back { IfErr result (λ e. (e.1 ≡ job) × (scope.new ≡ scope.old)) }
    ensures kept { IfErr result (λ _. C.not_entered here.old scope.old here.new) }
    ensures refused { IfErr result (λ e. (e.0 ≡ Refusal.Ended) ⊎ ((e.0 ≡ Refusal.Full) ⊎ (e.0 ≡ Refusal.NoRoom))) }
    ensures same { C.same here.old here.new }
{
    here.spawn_into_here(rt, alloc, scope, job)
}

/// Spawns a job into a scope in order: of the jobs that one worker spawned so into the scope, the first begins first.
/// Outside it is `spawn_into`, and the pool begins its oldest injected job first. Answers and refusals are as there.
pub fn spawn_fifo_into<J: JobKind, R, C: SpawnsInto<J, R>>(
    rt: &R,
    alloc: Global,
    here: &mut C,
    scope: &mut C::Scope,
    job: J,
) -> Result<u64, (Refusal, J)>
    ensures entered { IfOk result (λ _. C.entered_in_order here.old scope.old here.new) }
    ensures receipt { IfOk result (λ n. C.keeps scope.old ≡ true → C.receipts scope.new ≡ C.receipts scope.old ++ record { number = n; tag = J.tag_of job; place = None } ∷ []) }
    ensures scope { C.same_scope scope.old scope.new }
    ensures back { IfErr result (λ e. (e.1 ≡ job) × (scope.new ≡ scope.old)) }
    ensures kept { IfErr result (λ _. C.not_entered_in_order here.old scope.old here.new) }
    ensures refused { IfErr result (λ e. (e.0 ≡ Refusal.Ended) ⊎ ((e.0 ≡ Refusal.Full) ⊎ (e.0 ≡ Refusal.NoRoom))) }
    ensures same { C.same here.old here.new }
{
    here.spawn_fifo_into_here(rt, alloc, scope, job)
}

/// Runs a job as the body of a scope, and waits for it and for all jobs that were spawned into the scope: a worker
/// works meanwhile, and any other thread blocks. The body is a job, since a closure can't be sent to another thread: it
/// is the first job of the scope, which it has by its `FnContext`, and any worker may run it. Answers the outputs by
/// number, and as the value the body's own number among them. Where the body or a job has a fault that is answered: the
/// one that was stored first, of several. Refused `TooDeep` exactly where a worker value has no level left, `Ended`,
/// `Full`, `NoRoom`, with the body back, and it has not run. rayon-core's scope answers what its body answers alone.
///
/// `scope_fifo` is another name of it: any scope takes jobs that are spawned in order too, by `spawn_fifo_into`.
pub fn scope<J: JobKind, R, C: SpawnsInto<J, R>>(
    rt: &R,
    alloc: Global,
    here: &mut C,
    body: J,
) -> Result<Ended<u64, C::Outputs>, CallError<J::Fault, J>>
    requires levels { C.has_levels here.old rt.now }
    ensures ok { IfOk result (λ e. MetBy J.Tag.eq (C.runs e.outputs) (record { number = e.value; tag = J.tag_of body; place = None } ∷ [])) }
    ensures fault { (f : _) → result ≡ Err (CallError.Fault f) → (r : Run J.Tag J.Output J.Fault) × Within J.answers (J.answers_on J.answers) r × (r.answer ≡ Err f) }
    ensures back { (r : _) (b : _) → result ≡ Err (CallError.Refused r b) → b ≡ body }
    ensures deep { C.too_deep here.old → result ≡ Err (CallError.Refused Refusal.TooDeep body) }
    ensures shallow { (b : _) → result ≡ Err (CallError.Refused Refusal.TooDeep b) → C.too_deep here.old }
    ensures same { C.same here.old here.new }
    ensures path { CallMade (C.scoped Fine here.old here.new) (C.scoped Fine here.old here.new) (C.not_opened here.old here.new ⊎ C.scoped Fine here.old here.new) result }
{
    let (opened, mut scope) = match here.begin_scope_here(rt, alloc) {
        Ok(begun) => begun,
        Err(refusal) => return Err(CallError::Refused(refusal, body)),
    };
    let entered = here.spawn_into_here(rt, alloc, &mut scope, body);
    let outputs = here.end_scope_here(rt, alloc, opened, scope, false);
    match entered {
        Ok(number) => scope_answer(Ok(number), outputs),
        Err((refusal, body)) => Err(CallError::Refused(refusal, body)),
    }
}
