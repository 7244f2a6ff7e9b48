//! Scopes that a caller who is no worker opens on a pool, and spawns into a scope by such callers.
ghost use Rattle.rayon_books.specs.Books.{Allowed};
ghost use Rattle.rayon_books.specs.Receipts.{MetBy};
ghost use Rattle.rayon_books.specs.declared.receipt.Receipt.{Receipt};
ghost use Rattle.rayon_guests.specs.Visiting.{IsHere};
ghost use Rattle.rayon_guests.specs.Visits.{OwnedBy};
ghost use Rattle.rayon_jobs.specs.Within.{Run, Within};
ghost use Rattle.rayon_shared.specs.Marks.{IsScope, scope_in};
ghost use Rattle.std.specs.Prelude.{◌≡◌, ◌⊎◌, [], ◌∷◌, ◌++◌, Bool, List, None, Ok, Err, IfOk, IfErr, false, true};

use crate::answers::scope_answer;
use crate::pool_ref::PoolRef;
use crate::scope::{Scope, compared, ending_if, given};
use rayon_books::{Ended, NoOutputs, Receipt};
use rayon_guests::{Guest, Paused};
use rayon_jobs::{Done, JobKind};
use rayon_machine_places::place::{Ending, Entry, Party};
use rayon_tasks::Ticket;
use rayon_words::{CallError, Refusal};
use std::alloc::Global;
use std::marker::Model;
use std::sync::Wait;

impl<J: JobKind> Scope<J> {
    /// Spawns a job into the scope for a caller who is no worker of the scope's pool, which is handed in: puts it last
    /// into the pool's injector, from where any worker takes it. The scope waits for the job, and answers its output at
    /// the number that this answers. Refused `Full`, `NoRoom`, `Ended`, with the job back and nothing added; `Ended`
    /// also where the scope is of another pool. rayon-core finds out by itself whether a worker of the pool calls.
    pub fn inject<R: Wait>(
        &mut self,
        rt: &R,
        alloc: Global,
        pool: &PoolRef<J>,
        job: J,
    ) -> Result<u64, (Refusal, J)>
        ensures receipt { IfOk result (λ n. self.old.keeps ≡ true → self.new.receipts ≡ self.old.receipts ++ record { number = n; tag = J.tag_of job; place = None } ∷ []) }
        ensures scope { self.new ≡ record self.old { receipts = self.new.receipts } }
        ensures pool { IfOk result (λ _. pool.now.id ≡ self.old.pool) }
        ensures back { IfErr result (λ e. (e.1 ≡ job) × (self.new ≡ self.old)) }
        ensures refused { IfErr result (λ e. (e.0 ≡ Refusal.Ended) ⊎ ((e.0 ≡ Refusal.Full) ⊎ (e.0 ≡ Refusal.NoRoom))) }
    {
        if pool.id() != self.pool {
            return Err((Refusal::Ended, job));
        }
        if !self.keeps {
            return pool.enter(rt, alloc, &mut self.ticket, self.call, self.owner, job);
        }
        if self.receipts.reserve(1).is_err() {
            return Err((Refusal::NoRoom, job));
        }
        let tag = job.tag();
        let number = pool.enter(rt, alloc, &mut self.ticket, self.call, self.owner, job)?;
        self.receipts.push_reserved(Receipt {
            number,
            tag,
            place: None,
        });
        Ok(number)
    }

    /// One more value of the same scope, as it can be sent to another thread. It keeps no receipts. Once the scope has
    /// ended each spawn into it is refused `Ended`. Refused `NoRoom`. rayon-core shares its scopes by reference.
    pub fn share(&self, alloc: Global) -> Result<Scope<J>, Refusal>
        ensures same { IfOk result (λ s. s ≡ record self.now { keeps = false; receipts = [] }) }
        ensures refused { IfErr result (λ r. r ≡ Refusal.NoRoom) }
    {
        let Some(ticket) = &self.ticket else {
            unreachable!()
        };
        Ok(Scope {
            pool: self.pool,
            call: self.call,
            owner: self.owner,
            ticket: Some(ticket.share()?),
            keeps: false,
            receipts: Vec::new(alloc),
        })
    }
}

impl<J: JobKind> PoolRef<J> {
    // Spawns a job into the scope of this call and this owner, which the ticket is of, by the injector.
    fn enter<R: Wait>(
        &self,
        rt: &R,
        alloc: Global,
        ticket: &mut Option<Ticket<J>>,
        call: u64,
        owner: Party,
        job: J,
    ) -> Result<u64, (Refusal, J)>
        requires scope { IsScope (scope_in ticket.old) call }
        requires owner { OwnedBy owner ticket.old }
        ensures ticket { ticket.new ≡ ticket.old }
        ensures back { IfErr result (λ e. e.1 ≡ job) }
        ensures refused { IfErr result (λ e. (e.0 ≡ Refusal.Ended) ⊎ ((e.0 ≡ Refusal.Full) ⊎ (e.0 ≡ Refusal.NoRoom))) }
    {
        if !is_here(owner) {
            return Err((Refusal::Ended, job));
        }
        let Some(name) = self.pool.shared.caller_name(rt) else {
            return Err((Refusal::Full, job));
        };
        let entry = Entry {
            call,
            owner,
            pool: 0,
            job: name,
        };
        let mut guest = Guest::new(&*self.pool.shared);
        guest.enter(rt, alloc, ticket, entry, job)
    }
}

// Whether the party is a worker of the one pool that a pool's threads know, or an outside caller.
pub(crate) fn is_here(party: Party) -> bool
    ensures { result ≡ true → IsHere party }
{
    match party {
        Party::Worker { pool, .. } => pool == 0,
        Party::Caller(_) => true,
    }
}

impl<J: JobKind> PoolRef<J> {
    /// Runs a job on the pool as the body of a scope, for a caller who is no worker; it blocks until the body and all
    /// jobs that were spawned into the scope have ended. The body is the first job of the scope: it has the scope by
    /// its `FnContext`. Answers the outputs by number, and as the value the body's own number among them. Where the
    /// body or a job has a fault that is answered: the one that was stored first, of several. Refused `Ended`, `Full`,
    /// `NoRoom`, with the body back, and it has not run. rayon-core's scope answers what its body answers alone.
    pub fn scope<R: Wait>(
        &self,
        rt: &R,
        alloc: Global,
        body: J,
    ) -> Result<Ended<u64, Vec<Done<J>>>, CallError<J::Fault, J>>
        ensures ok { IfOk result (λ e. MetBy J.Tag.eq e.outputs.items (record { number = e.value; tag = J.tag_of body; place = None } ∷ [])) }
        ensures fault { (f : _) → result ≡ Err (CallError.Fault f) → (r : Run J.Tag J.Output J.Fault) × Within J.answers (J.answers_on J.answers) r × (r.answer ≡ Err f) }
        ensures back { (r : _) (b : _) → result ≡ Err (CallError.Refused r b) → b ≡ body }
        ensures shallow { (b : _) → result ≡ Err (CallError.Refused Refusal.TooDeep b) → ⊥ }
    {
        let (opened, mut scope) = match self.begin_in_place(rt, alloc) {
            Ok(begun) => begun,
            Err(refusal) => return Err(CallError::Refused(refusal, body)),
        };
        let entered = scope.inject(rt, alloc, self, body);
        let outputs = self.end_in_place(rt, opened, scope, false);
        match entered {
            Ok(number) => scope_answer(Ok(number), outputs),
            Err((refusal, body)) => Err(CallError::Refused(refusal, body)),
        }
    }

    /// The same as `scope`, for jobs that the body spawns in order, by `spawn_fifo`: any scope takes both kinds of
    /// spawns.
    pub fn scope_fifo<R: Wait>(
        &self,
        rt: &R,
        alloc: Global,
        body: J,
    ) -> Result<Ended<u64, Vec<Done<J>>>, CallError<J::Fault, J>>
        ensures ok { IfOk result (λ e. MetBy J.Tag.eq e.outputs.items (record { number = e.value; tag = J.tag_of body; place = None } ∷ [])) }
        ensures fault { (f : _) → result ≡ Err (CallError.Fault f) → (r : Run J.Tag J.Output J.Fault) × Within J.answers (J.answers_on J.answers) r × (r.answer ≡ Err f) }
        ensures back { (r : _) (b : _) → result ≡ Err (CallError.Refused r b) → b ≡ body }
        ensures shallow { (b : _) → result ≡ Err (CallError.Refused Refusal.TooDeep b) → ⊥ }
    {
        self.scope(rt, alloc, body)
    }
}

/// The call of a scope that a caller outside the pool opened. It has no `Drop`: the scope has to be ended.
pub struct InPlace<J: JobKind> {
    call: Paused<J>,
    name: u64,
}

impl<J: JobKind> Model for InPlace<J> {
    ghost use Rattle.atomic_table.specs.Seated.{TableId};
    ghost use Rattle.rayon_guests.specs.Visiting.{OpensScope};
    ghost use Rattle.rayon_guests.specs.Visits.{call_of};

    ghost Value = { TableId };

    ghost view = { λ o. o.call.count };

    ghost invariant = { λ o. OpensScope (call_of o.name) o.call.call };
}

impl<J: JobKind> PoolRef<J> {
    // The body of this scope has ended so: waits for the scope's jobs. Answers the outputs, by number, or why there are
    // none.
    fn finish<R: Wait>(
        &self,
        rt: &R,
        opened: InPlace<J>,
        ending: Ending,
    ) -> Result<Vec<Done<J>>, NoOutputs<J::Fault>>
        requires own { opened ≡ self.now.count }
        ensures fault { IfErr result (Allowed J.answers (J.answers_on J.answers)) }
        ensures own { result ≡ Err NoOutputs.Foreign → ⊥ }
    {
        let InPlace { call, name } = opened;
        let mut guest = Guest::resume(&*self.pool.shared, call);
        match guest.end_body(rt, name, ending) {
            Some(outcome) => given(outcome),
            None => Err(NoOutputs::Missing),
        }
    }
}

/// What a scope on a pool is made of that a caller outside it opens. It is not open to users, who call `InPlaceCalls`.
pub trait OpensInPlace<J: JobKind> {
    /// A scope that was opened.
    type Opened;

    /// The scope that its body is lent.
    type Scope;

    /// What the scope's jobs answered, by number.
    type Outputs: Drop;

    /// The receipts that a scope has kept.
    ghost receipts: { Self.Scope → List (Receipt J.Tag) };

    /// Whether it keeps receipts.
    ghost keeps: { Self.Scope → Bool };

    /// The runs of the scope's jobs, by number.
    ghost runs: { Self.Outputs → List (Run J.Tag J.Output J.Fault) };

    /// Whether it was opened on this pool.
    ghost opened_on: { Self → Self.Opened → Type 0 };

    /// Opens a scope.
    fn begin_in_place<R: Wait>(
        &self,
        rt: &R,
        alloc: Global,
    ) -> Result<(Self::Opened, Self::Scope), Refusal>
        ensures own { IfOk result (λ o. opened_on self.now o.0) }
        ensures opened { IfOk result (λ o. (receipts o.1 ≡ []) × (keeps o.1 ≡ true)) }
        ensures refused { IfErr result (λ r. (r ≡ Refusal.Ended) ⊎ ((r ≡ Refusal.Full) ⊎ (r ≡ Refusal.NoRoom))) };

    /// Waits for the scope's jobs, and compares their outputs with the receipts of its body.
    fn end_in_place<R: Wait>(
        &self,
        rt: &R,
        opened: Self::Opened,
        scope: Self::Scope,
        body_faulted: bool,
    ) -> Result<Self::Outputs, NoOutputs<J::Fault>>
        requires own { opened_on self.now opened }
        ensures met { IfOk result (λ o. MetBy J.Tag.eq (runs o) (receipts scope)) }
        ensures fault { IfErr result (Allowed J.answers (J.answers_on J.answers)) }
        ensures foreign { result ≡ Err NoOutputs.Foreign → (o : Self.Outputs) × (MetBy J.Tag.eq (runs o) (receipts scope) → ⊥) };
}

impl<J: JobKind> OpensInPlace<J> for PoolRef<J> {
    type Opened = InPlace<J>;

    type Scope = Scope<J>;

    type Outputs = Vec<Done<J>>;

    ghost receipts = { λ s. s.receipts };

    ghost keeps = { λ s. s.keeps };

    ghost runs = { λ o. o.items };

    ghost opened_on = { λ p o. o ≡ p.count };

    fn begin_in_place<R: Wait>(
        &self,
        rt: &R,
        alloc: Global,
    ) -> Result<(InPlace<J>, Scope<J>), Refusal> {
        let Some(name) = self.pool.shared.caller_name(rt) else {
            return Err(Refusal::Full);
        };
        let mut guest = Guest::new(&*self.pool.shared);
        guest.open_scope(rt, alloc, name)?;
        let scope = Scope {
            pool: self.id(),
            call: name,
            owner: Party::Caller(0),
            ticket: guest.lend(),
            keeps: true,
            receipts: Vec::new(alloc),
        };
        let call = guest.pause();
        Ok((InPlace { call, name }, scope))
    }

    fn end_in_place<R: Wait>(
        &self,
        rt: &R,
        opened: InPlace<J>,
        scope: Scope<J>,
        body_faulted: bool,
    ) -> Result<Vec<Done<J>>, NoOutputs<J::Fault>> {
        let outputs = self.finish(rt, opened, ending_if(body_faulted));
        compared(outputs, &scope.receipts)
    }
}

/// The calls of a pool that open a scope for a caller who is no worker of it.
pub trait InPlaceCalls<J: JobKind>: OpensInPlace<J> {
    /// Opens a scope on the pool, runs its body on the caller's own thread, which then blocks until all jobs that were
    /// spawned into the scope have ended. Answers what the body answered, and the jobs' outputs by number: they meet
    /// each receipt that the body's own spawns gave. Where the body or a job has a fault that is answered: the one that
    /// was stored first, of several. Refused `Ended`, `Full`, `NoRoom`, with the body back, and the body has not run.
    /// rayon-core's scope answers no outputs.
    final fn in_place_scope<R: Wait, V: Drop, B: FnOnce(&mut Self::Scope) -> Result<V, J::Fault>>(
        &self,
        rt: &R,
        alloc: Global,
        body: B,
    ) -> Result<Ended<V, Self::Outputs>, CallError<J::Fault, B>>
        requires callable { (s : _) → Self.receipts s.now ≡ [] → Self.keeps s.now ≡ true → B.pre body s }
        ensures ok { IfOk result (λ e. (s : _) × (t : _) × (Self.receipts s.now ≡ []) × (Self.keeps s.now ≡ true) × B.post body s (Ok e.value) t × MetBy J.Tag.eq (Self.runs e.outputs) (Self.receipts t.now)) }
        ensures fault { (f : _) → result ≡ Err (CallError.Fault f) → ((s : _) × (t : _) × B.post body s (Err f) t) ⊎ ((r : Run J.Tag J.Output J.Fault) × Within J.answers (J.answers_on J.answers) r × (r.answer ≡ Err f)) }
        ensures missing { result ≡ Err CallError.Missing → (s : _) × (x : _) × (t : _) × B.post body s (Ok x) t }
        ensures foreign { result ≡ Err CallError.Foreign → (s : _) × (x : _) × (t : _) × (o : Self.Outputs) × B.post body s (Ok x) t × (MetBy J.Tag.eq (Self.runs o) (Self.receipts t.now) → ⊥) }
        ensures back { (r : _) (b : _) → result ≡ Err (CallError.Refused r b) → b ≡ body }
        ensures shallow { (b : _) → result ≡ Err (CallError.Refused Refusal.TooDeep b) → ⊥ }
    {
        let (opened, mut scope) = match self.begin_in_place(rt, alloc) {
            Ok(begun) => begun,
            Err(refusal) => return Err(CallError::Refused(refusal, body)),
        };
        let answer = body(&mut scope);
        let ended = self.end_in_place(rt, opened, scope, answer.is_err());
        scope_answer(answer, ended)
    }

    /// The same as `in_place_scope`, for jobs that are spawned into it in order: any scope takes both kinds of spawns.
    /// What its body spawns is injected in any case, and the oldest injected job is taken first.
    final fn in_place_scope_fifo<
        R: Wait,
        V: Drop,
        B: FnOnce(&mut Self::Scope) -> Result<V, J::Fault>,
    >(
        &self,
        rt: &R,
        alloc: Global,
        body: B,
    ) -> Result<Ended<V, Self::Outputs>, CallError<J::Fault, B>>
        requires callable { (s : _) → Self.receipts s.now ≡ [] → Self.keeps s.now ≡ true → B.pre body s }
        ensures ok { IfOk result (λ e. (s : _) × (t : _) × (Self.receipts s.now ≡ []) × (Self.keeps s.now ≡ true) × B.post body s (Ok e.value) t × MetBy J.Tag.eq (Self.runs e.outputs) (Self.receipts t.now)) }
        ensures fault { (f : _) → result ≡ Err (CallError.Fault f) → ((s : _) × (t : _) × B.post body s (Err f) t) ⊎ ((r : Run J.Tag J.Output J.Fault) × Within J.answers (J.answers_on J.answers) r × (r.answer ≡ Err f)) }
        ensures missing { result ≡ Err CallError.Missing → (s : _) × (x : _) × (t : _) × B.post body s (Ok x) t }
        ensures foreign { result ≡ Err CallError.Foreign → (s : _) × (x : _) × (t : _) × (o : Self.Outputs) × B.post body s (Ok x) t × (MetBy J.Tag.eq (Self.runs o) (Self.receipts t.now) → ⊥) }
        ensures back { (r : _) (b : _) → result ≡ Err (CallError.Refused r b) → b ≡ body }
        ensures shallow { (b : _) → result ≡ Err (CallError.Refused Refusal.TooDeep b) → ⊥ }
    {
        self.in_place_scope(rt, alloc, body)
    }
}

impl<J: JobKind> InPlaceCalls<J> for PoolRef<J> {}
