//! Scopes on one worker value: jobs that are spawned into a scope, and waited for at its end.
ghost use Rattle.rayon_books.specs.Books.{Allowed};
ghost use Rattle.rayon_books.specs.Receipts.{MetBy};
ghost use Rattle.rayon_books.specs.declared.receipt.Receipt.{Receipt};
ghost use Rattle.rayon_drive.specs.Traces.{AddsRun};
ghost use Rattle.rayon_drive.specs.declared.trace.Log.{Log};
ghost use Rattle.rayon_jobs.specs.Within.{Run, Within};
ghost use Rattle.rayon_machine_places.specs.declared.place.Ending.{Ending};
ghost use Rattle.rayon_machine_places.specs.declared.place.Ending.TheVariants.{Fine};
ghost use Rattle.rayon_machine_places.specs.declared.place.Party.TheVariants.{Worker};
ghost use Rattle.rayon_machine_places.specs.declared.place.Plan.TheVariants as plans;
ghost use Rattle.rayon_performers.specs.Calls.{own_call};
ghost use Rattle.rayon_shared.specs.Marks.{IsScope, TakesUnit, scope_in};
ghost use Rattle.rayon_performers.specs.Scopes.{Entered, EnteredInOrder, entered_task, entering, entry_of, into, scope_token};
ghost use Rattle.rayon_registry.specs.Acts.{CallMade, HandedBack, ScopeLeft, ScopeOpened, Scoped, ended_so};
ghost use Rattle.rayon_registry.specs.Scopes.{scopes_by};
ghost use Rattle.rayon_registry.specs.Worker.{EndedCall, Kept};
ghost use Rattle.rayon_tasks.specs.Tickets.{TicketOf};
ghost use Rattle.std.specs.Prelude.{◌≡◌, ◌⊎◌, ℕ, ◌≤◌, ◌<◌, [], ◌∷◌, ◌++◌, ◌+◌, ◌-◌, ◌==◌, Bool, List, None, Ok, Err, Some, IfOk, IfErr, IfSome, MatchResult, suc, true};

use crate::answers::scope_answer;
use crate::ids::PoolId;
use crate::job::Waits;
use crate::join::Lends;
use crate::worker_thread::{Lent, WorkerThread};
use rayon_books::{Ended, NoOutputs, Outcome, Receipt, are_met};
use rayon_jobs::{Done, JobKind};
use rayon_machine_places::place::{Ending, Entry, Move, OpenCall, Party, Place, Target};
use rayon_tasks::{Call, Ticket};
use rayon_words::{CallError, Refusal};
use std::alloc::Global;
use std::marker::Model;
use std::sync::Wait;

/// A scope of jobs, lent to its body and to each job that was spawned into it. The one that is lent to the body keeps a
/// receipt of each job that the body spawns. Contracts see these receipts, and of what call the scope is.
#[derive(Drop)]
pub struct Scope<J: JobKind> {
    pub(crate) pool: PoolId,
    pub(crate) call: u64,
    pub(crate) owner: Party,
    // a share of the ticket of the scope's call, but while somebody has it at hand to spawn
    pub(crate) ticket: Option<Ticket<J>>,
    pub(crate) keeps: bool,
    pub(crate) receipts: Vec<Receipt<J::Tag>>,
}

/// A scope whose jobs are spawned into it in order. rayon-core's is a type of its own; here any scope takes both kinds
/// of spawns.
pub type ScopeFifo<J> = Scope<J>;

impl<J: JobKind> Model for Scope<J> {
    ghost use Rattle.rayon_guests.specs.Visits.{OwnedBy};
    ghost use Rattle.rayon_shared.specs.Marks.{IsScope, scope_in};
    ghost use Rattle.rayon_registry.specs.Scopes.{ScopeValue};

    ghost Value = { ScopeValue J.Tag };

    ghost view = { λ s. record { pool = s.pool; call = s.call; owner = s.owner; ticket = s.ticket; keeps = s.keeps; receipts = s.receipts.items } };

    ghost invariant = { λ s. IsScope (scope_in s.ticket) s.call × OwnedBy s.owner s.ticket };
}

impl<J: JobKind> Scope<J> {
    /// Spawns a job into the scope, by the worker that calls: puts it last into that worker's own deque. The scope
    /// waits for the job, and answers its output at the number that this answers. Refused `Full`, `NoRoom`, `Ended`,
    /// with the job back and nothing added; `Ended` also to a worker of another pool.
    #[tactic(auto, unfolding(crate::specs::Pushes::pushed_by, crate::specs::Pushes::left_to, crate::specs::Pushes::takes_oldest, crate::specs::Pushes::units_of, crate::specs::Pushes::count_of, crate::specs::Pushes::shape_at, crate::specs::Pushes::index_of, crate::specs::Pushes::acts_of, crate::specs::Pushes::saw_set))]
    pub fn spawn<R: Wait>(
        &mut self,
        rt: &R,
        by: &mut WorkerThread<J>,
        job: J,
    ) -> Result<u64, (Refusal, J)>
        ensures entered { IfOk result (λ n. (u : TicketOf) × (k : ℕ) × (self.old.ticket ≡ Some u) × Entered by.old.shape (Worker 0 by.old.id.index) self.old.call self.old.owner k by.old.acts by.new.acts × (by.new ≡ record by.old { pushed = by.old.pushed ++ entered_task job u k n ∷ []; left = by.old.left ++ entered_task job u k n ∷ []; acts = by.new.acts })) }
        ensures receipt { IfOk result (λ n. self.old.keeps ≡ true → self.new.receipts ≡ self.old.receipts ++ record { number = n; tag = J.tag_of job; place = None } ∷ []) }
        ensures scope { self.new ≡ record self.old { receipts = self.new.receipts } }
        ensures pool { IfOk result (λ _. by.old.id.pool ≡ self.old.pool) }
        ensures back { IfErr result (λ e. (e.1 ≡ job) × (self.new ≡ self.old)) }
        ensures path { IfErr result (λ _. HandedBack by.old.shape (Worker 0 by.old.id.index) (entering self.old.call self.old.owner) by.old.acts by.new.acts) }
        ensures kept { IfErr result (λ _. by.new ≡ record by.old { acts = by.new.acts }) }
        ensures refused { IfErr result (λ e. (e.0 ≡ Refusal.Ended) ⊎ ((e.0 ≡ Refusal.Full) ⊎ (e.0 ≡ Refusal.NoRoom))) }
    {
        if by.id().pool != self.pool {
            return Err((Refusal::Ended, job));
        }
        if !self.keeps {
            return by.enter(rt, &mut self.ticket, self.call, self.owner, job);
        }
        if self.receipts.reserve(1).is_err() {
            return Err((Refusal::NoRoom, job));
        }
        let tag = job.tag();
        let number = by.enter(rt, &mut self.ticket, self.call, self.owner, job)?;
        self.receipts.push_reserved(Receipt {
            number,
            tag,
            place: None,
        });
        Ok(number)
    }

    /// Spawns a job into the scope in order, by the worker that calls: adds it last to that worker's FIFO list of this
    /// scope, and puts a token last into its own deque. Who takes a token, this worker or a thief, runs the first job
    /// of the list: of the jobs that one worker spawned so into the scope, the first begins first. The scope waits for
    /// the job, and answers its output at the number that this answers, as with `spawn`. Refused `Full`, `NoRoom`,
    /// `Ended`, with the job back and nothing added; `Ended` also to a worker of another pool. rayon-core has it of
    /// `ScopeFifo` alone.
    #[tactic(auto, unfolding(crate::specs::Pushes::pushed_by, crate::specs::Pushes::left_to, crate::specs::Pushes::takes_oldest, crate::specs::Pushes::units_of, crate::specs::Pushes::count_of, crate::specs::Pushes::shape_at, crate::specs::Pushes::index_of, crate::specs::Pushes::acts_of, crate::specs::Pushes::saw_set))]
    pub fn spawn_fifo<R: Wait>(
        &mut self,
        rt: &R,
        by: &mut WorkerThread<J>,
        job: J,
    ) -> Result<u64, (Refusal, J)>
        ensures entered { IfOk result (λ _. (u : TicketOf) × (k : ℕ) × (m : ℕ) × (self.old.ticket ≡ Some u) × EnteredInOrder by.old.shape (Worker 0 by.old.id.index) (entry_of self.old.call self.old.owner k) m by.old.acts by.new.acts × (by.new ≡ record by.old { pushed = by.old.pushed ++ scope_token u by.old.id.index m ∷ []; left = by.old.left ++ scope_token u by.old.id.index m ∷ []; acts = by.new.acts })) }
        ensures receipt { IfOk result (λ n. self.old.keeps ≡ true → self.new.receipts ≡ self.old.receipts ++ record { number = n; tag = J.tag_of job; place = None } ∷ []) }
        ensures scope { self.new ≡ record self.old { receipts = self.new.receipts } }
        ensures pool { IfOk result (λ _. by.old.id.pool ≡ self.old.pool) }
        ensures back { IfErr result (λ e. (e.1 ≡ job) × (self.new ≡ self.old)) }
        ensures path { IfErr result (λ _. (m : ℕ) × HandedBack by.old.shape (Worker 0 by.old.id.index) (λ k. plans.Feed (into (entry_of self.old.call self.old.owner k) m)) by.old.acts by.new.acts) }
        ensures kept { IfErr result (λ _. by.new ≡ record by.old { acts = by.new.acts }) }
        ensures refused { IfErr result (λ e. (e.0 ≡ Refusal.Ended) ⊎ ((e.0 ≡ Refusal.Full) ⊎ (e.0 ≡ Refusal.NoRoom))) }
    {
        if by.id().pool != self.pool {
            return Err((Refusal::Ended, job));
        }
        if !self.keeps {
            return by.enter_fifo(rt, &mut self.ticket, self.call, self.owner, job);
        }
        if self.receipts.reserve(1).is_err() {
            return Err((Refusal::NoRoom, job));
        }
        let tag = job.tag();
        let number = by.enter_fifo(rt, &mut self.ticket, self.call, self.owner, job)?;
        self.receipts.push_reserved(Receipt {
            number,
            tag,
            place: None,
        });
        Ok(number)
    }
}

/// The call of a scope that was opened, and a share of its ticket, which answers for its body. It has no `Drop`: the
/// scope has to be ended. Contracts see the call's name.
pub struct Opening<J: JobKind> {
    call: Call<J>,
    share: Ticket<J>,
}

impl<J: JobKind> Model for Opening<J> {
    ghost use Rattle.rayon_shared.specs.Marks.{IsScope};
    ghost use Rattle.std.specs.Prelude.{◌≡◌, ℕ};

    ghost Value = { ℕ };

    ghost view = { λ o. o.call.ticket.number };

    ghost invariant = { λ o. IsScope o.call.ticket.scope o.call.ticket.number × (o.share ≡ o.call.ticket) };
}

/// The same, and what the worker value had before it was lent to the body.
pub struct Opened<J: JobKind> {
    opening: Opening<J>,
    lent: Lent,
}

impl<J: JobKind> WorkerThread<J> {
    // Spawns a job into the scope of this call and this owner, which the ticket is of.
    #[tactic(auto, unfolding(crate::specs::Pushes::pushed_by, crate::specs::Pushes::left_to, crate::specs::Pushes::takes_oldest, crate::specs::Pushes::units_of, crate::specs::Pushes::count_of, crate::specs::Pushes::shape_at, crate::specs::Pushes::index_of, crate::specs::Pushes::acts_of, crate::specs::Pushes::saw_set))]
    fn enter<R: Wait>(
        &mut self,
        rt: &R,
        ticket: &mut Option<Ticket<J>>,
        call: u64,
        owner: Party,
        job: J,
    ) -> Result<u64, (Refusal, J)>
        requires { IsScope (scope_in ticket.old) call }
        ensures ticket { ticket.new ≡ ticket.old }
        ensures entered { IfOk result (λ n. (u : TicketOf) × (k : ℕ) × (ticket.old ≡ Some u) × Entered self.old.shape (Worker 0 self.old.id.index) call owner k self.old.acts self.new.acts × (self.new ≡ record self.old { pushed = self.old.pushed ++ entered_task job u k n ∷ []; left = self.old.left ++ entered_task job u k n ∷ []; acts = self.new.acts })) }
        ensures back { IfErr result (λ e. e.1 ≡ job) }
        ensures path { IfErr result (λ _. HandedBack self.old.shape (Worker 0 self.old.id.index) (entering call owner) self.old.acts self.new.acts) }
        ensures kept { IfErr result (λ _. self.new ≡ record self.old { acts = self.new.acts }) }
        ensures refused { IfErr result (λ e. (e.0 ≡ Refusal.Ended) ⊎ ((e.0 ≡ Refusal.Full) ⊎ (e.0 ≡ Refusal.NoRoom))) }
    {
        let Some(name) = self.names.draw() else {
            return Err((Refusal::Full, job));
        };
        let number = self.bench.enter(rt, ticket, call, owner, name, job)?;
        Ok(number)
    }

    // Spawns a job in order into the scope of this call and this owner, which the ticket is of.
    #[tactic(auto, unfolding(crate::specs::Pushes::pushed_by, crate::specs::Pushes::left_to, crate::specs::Pushes::takes_oldest, crate::specs::Pushes::units_of, crate::specs::Pushes::count_of, crate::specs::Pushes::shape_at, crate::specs::Pushes::index_of, crate::specs::Pushes::acts_of, crate::specs::Pushes::saw_set))]
    fn enter_fifo<R: Wait>(
        &mut self,
        rt: &R,
        ticket: &mut Option<Ticket<J>>,
        call: u64,
        owner: Party,
        job: J,
    ) -> Result<u64, (Refusal, J)>
        requires { IsScope (scope_in ticket.old) call }
        ensures ticket { ticket.new ≡ ticket.old }
        ensures entered { IfOk result (λ _. (u : TicketOf) × (k : ℕ) × (m : ℕ) × (ticket.old ≡ Some u) × EnteredInOrder self.old.shape (Worker 0 self.old.id.index) (entry_of call owner k) m self.old.acts self.new.acts × (self.new ≡ record self.old { pushed = self.old.pushed ++ scope_token u self.old.id.index m ∷ []; left = self.old.left ++ scope_token u self.old.id.index m ∷ []; acts = self.new.acts })) }
        ensures back { IfErr result (λ e. e.1 ≡ job) }
        ensures path { IfErr result (λ _. (m : ℕ) × HandedBack self.old.shape (Worker 0 self.old.id.index) (λ k. plans.Feed (into (entry_of call owner k) m)) self.old.acts self.new.acts) }
        ensures kept { IfErr result (λ _. self.new ≡ record self.old { acts = self.new.acts }) }
        ensures refused { IfErr result (λ e. (e.0 ≡ Refusal.Ended) ⊎ ((e.0 ≡ Refusal.Full) ⊎ (e.0 ≡ Refusal.NoRoom))) }
    {
        let Some(name) = self.names.draw() else {
            return Err((Refusal::Full, job));
        };
        let Some(token) = self.names.draw() else {
            return Err((Refusal::Full, job));
        };
        let entry = Entry {
            call,
            owner,
            pool: 0,
            job: name,
        };
        let number = self.bench.enter_fifo(rt, ticket, entry, token, job)?;
        Ok(number)
    }

    // The scope that the job of this ticket was spawned into, as it is lent to the job's run. None of any other job,
    // and where no share of it can be had.
    pub(crate) fn scope_of(&self, alloc: Global, ticket: &Ticket<J>) -> Option<Scope<J>>
        ensures pool { IfSome result (λ s. s.pool ≡ self.now.id.pool) }
    {
        let call = ticket.scope()?.call();
        let share = ticket.share().ok()?;
        Some(Scope {
            pool: self.id.pool,
            call,
            owner: ticket.owner(),
            ticket: Some(share),
            keeps: false,
            receipts: Vec::new(alloc),
        })
    }

    // Opens a scope, and lends the worker value: it has one level fewer. Refused as a join is.
    #[tactic(auto, unfolding(crate::specs::Pushes::pushed_by, crate::specs::Pushes::left_to, crate::specs::Pushes::takes_oldest, crate::specs::Pushes::units_of, crate::specs::Pushes::count_of, crate::specs::Pushes::shape_at, crate::specs::Pushes::index_of, crate::specs::Pushes::acts_of, crate::specs::Pushes::saw_set))]
    fn open<R: Wait>(&mut self, rt: &R, alloc: Global) -> Result<(Opening<J>, Scope<J>), Refusal>
        ensures scope { IfOk result (λ o. (o.1.pool ≡ self.old.id.pool) × (o.1.receipts ≡ []) × (o.1.keeps ≡ true)) }
        ensures left { IfOk result (λ _. self.new ≡ record self.old { units = self.old.units + 1; count = self.new.count; acts = self.new.acts }) }
        ensures some { IfOk result (λ _. 0 < self.old.levels) }
        ensures unit { IfOk result (λ _. TakesUnit (self.old.units == 0) self.old.count self.new.count) }
        ensures kept { IfErr result (λ _. Kept self.old self.new) }
        ensures deep { self.old.levels ≡ 0 → result ≡ Err Refusal.TooDeep }
        ensures shallow { IfErr result (λ r. r ≡ Refusal.TooDeep → self.old.levels ≡ 0) }
        ensures opened { IfOk result (λ o. ScopeOpened self.old.shape (Worker 0 self.old.id.index) o.0 self.old.acts self.new.acts) }
        ensures path { IfErr result (λ _. HandedBack self.old.shape (Worker 0 self.old.id.index) (λ n. plans.Open (own_call n)) self.old.acts self.new.acts) }
    {
        if self.levels == 0 {
            return Err(Refusal::TooDeep);
        }
        let Some(name) = self.names.draw() else {
            return Err(Refusal::Full);
        };
        let (call, share, theirs) = self.bench.open_scope(rt, alloc, name)?;
        let scope = Scope {
            pool: self.id.pool,
            call: name,
            owner: theirs.owner(),
            ticket: Some(theirs),
            keeps: true,
            receipts: Vec::new(alloc),
        };
        Ok((Opening { call, share }, scope))
    }

    // The body has ended so: waits for the jobs of the scope of this call, and works meanwhile. Answers the outputs, by
    // number, or why there are none.
    #[tactic(auto, unfolding(crate::specs::Pushes::units_of, crate::specs::Pushes::shape_at, crate::specs::Pushes::index_of, crate::specs::Pushes::acts_of))]
    fn finish<R: Waits<J>>(
        &mut self,
        rt: &R,
        alloc: Global,
        opening: Opening<J>,
        ending: Ending,
    ) -> Result<Vec<Done<J>>, NoOutputs<J::Fault>>
        requires some { 0 < self.old.levels }
        requires levels { self.old.levels ≤ R.levels rt.now }
        ensures fault { IfErr result (Allowed J.answers (J.answers_on J.answers)) }
        ensures own { result ≡ Err NoOutputs.Foreign → ⊥ }
        ensures ended { EndedCall self.old self.new }
        ensures path { ScopeLeft self.old.shape (Worker 0 self.old.id.index) opening ending self.old.acts self.new.acts }
    {
        let Opening { call: held, share } = opening;
        let name = held.ticket.number();
        let call = OpenCall {
            number: name,
            pool: 0,
            job: name,
        };
        self.bench.set_call(Some(held));
        self.bench.set_scope(share);
        match self.bench.end_body(rt, call, ending) {
            Move::Enter {
                place: Place::BeginTask(name),
                ..
            } => {
                let held = self.bench.take_call();
                let begun = self.bench.begin_task(rt, name);
                self.run_begun(rt, alloc, begun);
                let target = Target::Answer { call, first: None };
                let _done = self.wait_for(rt, alloc, target, held);
                self.outcome()
            }
            _ => self.outcome(),
        }
    }

    // What the book of the scope or the broadcast that has ended gave.
    #[tactic(auto, unfolding(crate::specs::Pushes::pushed_by, crate::specs::Pushes::left_to, crate::specs::Pushes::takes_oldest, crate::specs::Pushes::units_of, crate::specs::Pushes::count_of, crate::specs::Pushes::shape_at, crate::specs::Pushes::index_of, crate::specs::Pushes::acts_of, crate::specs::Pushes::saw_set))]
    pub(crate) fn outcome(&mut self) -> Result<Vec<Done<J>>, NoOutputs<J::Fault>>
        ensures same { self.new ≡ self.old }
        ensures fault { IfErr result (Allowed J.answers (J.answers_on J.answers)) }
        ensures own { result ≡ Err NoOutputs.Foreign → ⊥ }
    {
        match self.bench.take_outcome() {
            Some(outcome) => given(outcome),
            None => Err(NoOutputs::Missing),
        }
    }
}

/// What a scope on a worker value is made of. It is not open to users, who call `ScopeCalls`.
pub trait Opens<J: JobKind>: Lends<J> {
    /// A scope that was opened.
    type Opened;

    /// What the scope's jobs answered, by number.
    type Outputs: Drop;

    /// The receipts that a scope has kept.
    ghost receipts: { Self.Scope → List (Receipt J.Tag) };

    /// Whether it keeps receipts.
    ghost keeps: { Self.Scope → Bool };

    /// The runs of the scope's jobs, by number.
    ghost runs: { Self.Outputs → List (Run J.Tag J.Output J.Fault) };

    /// The levels of the worker value before it was lent.
    ghost opened_levels: { Self.Opened → ℕ };

    /// Whether the acts that the second has more are those of a refused scope.
    ghost not_opened: { Self → Self → Type 0 };

    /// Whether the acts that the second has more are those of a scope whose body ended so.
    ghost scoped: { Ending → Self → Self → Type 0 };

    /// Whether the acts from this worker value on lead to where this scope was opened and its body runs.
    ghost opens: { Self → Self.Opened → Type 0 };

    /// Whether the body's run, which ended so, and the acts after it lead to the end of the scope.
    ghost closes: { Ending → Self.Opened → Self → Type 0 };

    /// Opens a scope, and lends the worker value: it has one level fewer.
    fn begin_scope<R: Wait>(
        &mut self,
        rt: &R,
        alloc: Global,
    ) -> Result<(Self::Opened, Self::Scope), Refusal>
        ensures opened { IfOk result (λ o. (receipts o.1 ≡ []) × (keeps o.1 ≡ true) × (opened_levels o.0 ≡ Self.height self.old) × (suc (Self.height self.new) ≡ Self.height self.old)) }
        ensures refused { IfErr result (λ _. Self.kept self.old self.new × (Self.height self.new ≡ Self.height self.old) × (Self.units self.new ≡ Self.units self.old)) }
        ensures deep { Self.height self.old ≡ 0 → result ≡ Err Refusal.TooDeep }
        ensures shallow { IfErr result (λ r. r ≡ Refusal.TooDeep → Self.height self.old ≡ 0) }
        ensures id { Self.id self.new ≡ Self.id self.old }
        ensures units { IfOk result (λ _. Self.units self.new ≡ Self.units self.old + 1) }
        ensures path { MatchResult result (λ o. opens self.old o.0) (λ _. not_opened self.old self.new) };

    /// Takes the worker value back, waits for the scope's jobs, and compares their outputs with the receipts of its
    /// body.
    fn end_scope<R: Waits<J>>(
        &mut self,
        rt: &R,
        alloc: Global,
        opened: Self::Opened,
        scope: Self::Scope,
        body_faulted: bool,
    ) -> Result<Self::Outputs, NoOutputs<J::Fault>>
        requires some { 0 < opened_levels opened }
        requires levels { opened_levels opened ≤ R.levels rt.now }
        ensures met { IfOk result (λ o. MetBy J.Tag.eq (runs o) (receipts scope)) }
        ensures fault { IfErr result (Allowed J.answers (J.answers_on J.answers)) }
        ensures foreign { result ≡ Err NoOutputs.Foreign → (o : Self.Outputs) × (MetBy J.Tag.eq (runs o) (receipts scope) → ⊥) }
        ensures height { Self.height self.new ≡ opened_levels opened }
        ensures id { Self.id self.new ≡ Self.id self.old }
        ensures units { Self.units self.new ≡ Self.units self.old - 1 }
        ensures path { closes (ended_so body_faulted) opened self.new };

    /// Both together are the acts of the scope.
    ghost scopes: { (e : Ending) (v w : Self) (o : Self.Opened) → Self.id w ≡ Self.id v → opens v o → closes e o w → scoped e v w };
}

impl<J: JobKind> Opens<J> for WorkerThread<J> {
    type Opened = Opened<J>;

    type Outputs = Vec<Done<J>>;

    ghost receipts = { λ s. s.receipts };

    ghost keeps = { λ s. s.keeps };

    ghost runs = { λ o. o.items };

    ghost opened_levels = { λ o. o.lent.levels };

    ghost not_opened = { λ v w. HandedBack v.shape (Worker 0 v.id.index) (λ n. plans.Open (own_call n)) v.acts w.acts };

    ghost scoped = { λ e v w. Scoped v.shape (Worker 0 v.id.index) e v.acts w.acts };

    ghost opens = { λ v o. ScopeOpened v.shape (Worker 0 v.id.index) o.opening v.acts o.lent.acts };

    ghost closes = { λ e o w. (x : Log) × AddsRun o.lent.acts x × ScopeLeft w.shape (Worker 0 w.id.index) o.opening e x w.acts };

    ghost scopes = { λ e v w o same a b. scopes_by e v w o.opening o.lent.acts same a b };

    fn begin_scope<R: Wait>(
        &mut self,
        rt: &R,
        alloc: Global,
    ) -> Result<(Opened<J>, Scope<J>), Refusal> {
        let (opening, scope) = self.open(rt, alloc)?;
        let lent = self.lend();
        Ok((Opened { opening, lent }, scope))
    }

    fn end_scope<R: Waits<J>>(
        &mut self,
        rt: &R,
        alloc: Global,
        opened: Opened<J>,
        scope: Scope<J>,
        body_faulted: bool,
    ) -> Result<Vec<Done<J>>, NoOutputs<J::Fault>> {
        let Opened { opening, lent } = opened;
        self.take_back(lent);
        let outputs = self.finish(rt, alloc, opening, ending_if(body_faulted));
        compared(outputs, &scope.receipts)
    }
}

// How a body ended that faulted, or did not.
pub(crate) fn ending_if(faulted: bool) -> Ending
    ensures { result ≡ ended_so faulted }
{
    if faulted { Ending::Fault } else { Ending::Fine }
}

// The outputs that the book of an ended scope gave. That one is another job's is known by receipts alone.
pub(crate) fn given<J: JobKind>(outcome: Outcome<J>) -> Result<Vec<Done<J>>, NoOutputs<J::Fault>>
    ensures given { (v : _) → result ≡ Ok v → outcome ≡ Ok v.items }
    ensures fault { IfErr result (Allowed J.answers (J.answers_on J.answers)) }
    ensures own { result ≡ Err NoOutputs.Foreign → ⊥ }
{
    match outcome.into_result() {
        Err(NoOutputs::Foreign) => Err(NoOutputs::Missing),
        result => result,
    }
}

// These outputs where they meet each of the receipts, else `Foreign`; or why there are none.
pub(crate) fn compared<J: JobKind>(
    outputs: Result<Vec<Done<J>>, NoOutputs<J::Fault>>,
    receipts: &[Receipt<J::Tag>],
) -> Result<Vec<Done<J>>, NoOutputs<J::Fault>>
    requires fault { IfErr outputs (Allowed J.answers (J.answers_on J.answers)) }
    requires own { outputs ≡ Err NoOutputs.Foreign → ⊥ }
    ensures met { IfOk result (λ v. (outputs ≡ Ok v) × MetBy J.Tag.eq v.items receipts.now) }
    ensures fault { IfErr result (Allowed J.answers (J.answers_on J.answers)) }
    ensures kept { (e : _) → outputs ≡ Err e → result ≡ Err e }
    ensures foreign { result ≡ Err NoOutputs.Foreign → (v : _) × (outputs ≡ Ok v) × (MetBy J.Tag.eq v.items receipts.now → ⊥) }
{
    let outputs = outputs?;
    if are_met(&outputs, receipts) {
        Ok(outputs)
    } else {
        Err(NoOutputs::Foreign)
    }
}

/// The calls of a worker value that open a scope.
pub trait ScopeCalls<J: JobKind>: Opens<J> {
    /// Opens a scope, runs its body with one level fewer, and waits for all jobs that the body and these jobs spawned
    /// into it. Answers what the body answered, and the jobs' outputs by number: they meet each receipt that the body's
    /// own spawns gave. Where the body or a job has a fault that is answered: the one that was stored first, of
    /// several. Refused `TooDeep` exactly where no level is left, `Ended`, `Full`, `NoRoom`, with the body back and the
    /// worker value unchanged, and the body has not run. rayon-core's scope answers no outputs.
    final fn scope<
        R: Waits<J>,
        V: Drop,
        B: FnOnce(&mut Self, &mut Self::Scope) -> Result<V, J::Fault>,
    >(
        &mut self,
        rt: &R,
        alloc: Global,
        body: B,
    ) -> Result<Ended<V, Self::Outputs>, CallError<J::Fault, B>>
        requires levels { Self.height self.old ≤ R.levels rt.now }
        requires callable { (w : _) (s : _) → suc (Self.height w.now) ≡ Self.height self.old → Self.id w.now ≡ Self.id self.old → Self.receipts s.now ≡ [] → Self.keeps s.now ≡ true → B.pre body w s }
        requires keeps { (w : _) (s : _) (r : _) (v : _) (t : _) → B.post body w s r v t → (Self.height v.now ≡ Self.height w.now) × (Self.id v.now ≡ Self.id w.now) × (Self.units v.now ≡ Self.units w.now) }
        ensures ok { IfOk result (λ e. (w : _) × (s : _) × (v : _) × (t : _) × (Self.receipts s.now ≡ []) × (Self.keeps s.now ≡ true) × B.post body w s (Ok e.value) v t × MetBy J.Tag.eq (Self.runs e.outputs) (Self.receipts t.now)) }
        ensures fault { (f : _) → result ≡ Err (CallError.Fault f) → ((w : _) × (s : _) × (v : _) × (t : _) × B.post body w s (Err f) v t) ⊎ ((r : Run J.Tag J.Output J.Fault) × Within J.answers (J.answers_on J.answers) r × (r.answer ≡ Err f)) }
        ensures missing { result ≡ Err CallError.Missing → (w : _) × (s : _) × (x : _) × (v : _) × (t : _) × B.post body w s (Ok x) v t }
        ensures foreign { result ≡ Err CallError.Foreign → (w : _) × (s : _) × (x : _) × (v : _) × (t : _) × (o : Self.Outputs) × B.post body w s (Ok x) v t × (MetBy J.Tag.eq (Self.runs o) (Self.receipts t.now) → ⊥) }
        ensures back { (r : _) (b : _) → result ≡ Err (CallError.Refused r b) → (b ≡ body) × Self.kept self.old self.new }
        ensures deep { Self.height self.old ≡ 0 → result ≡ Err (CallError.Refused Refusal.TooDeep body) }
        ensures shallow { (b : _) → result ≡ Err (CallError.Refused Refusal.TooDeep b) → Self.height self.old ≡ 0 }
        ensures height { Self.height self.new ≡ Self.height self.old }
        ensures id { Self.id self.new ≡ Self.id self.old }
        ensures units { Self.units self.new ≡ Self.units self.old }
        ensures path { CallMade (Self.scoped Fine self.old self.new) ((e : Ending) × Self.scoped e self.old self.new) (Self.not_opened self.old self.new) result }
    {
        let (opened, mut scope) = match self.begin_scope(rt, alloc) {
            Ok(begun) => begun,
            Err(refusal) => return Err(CallError::Refused(refusal, body)),
        };
        let answer = body(self, &mut scope);
        let ended = self.end_scope(rt, alloc, opened, scope, answer.is_err());
        scope_answer(answer, ended)
    }

    /// The same as `scope`: on a worker the body runs in place there too.
    final fn in_place_scope<
        R: Waits<J>,
        V: Drop,
        B: FnOnce(&mut Self, &mut Self::Scope) -> Result<V, J::Fault>,
    >(
        &mut self,
        rt: &R,
        alloc: Global,
        body: B,
    ) -> Result<Ended<V, Self::Outputs>, CallError<J::Fault, B>>
        requires levels { Self.height self.old ≤ R.levels rt.now }
        requires callable { (w : _) (s : _) → suc (Self.height w.now) ≡ Self.height self.old → Self.id w.now ≡ Self.id self.old → Self.receipts s.now ≡ [] → Self.keeps s.now ≡ true → B.pre body w s }
        requires keeps { (w : _) (s : _) (r : _) (v : _) (t : _) → B.post body w s r v t → (Self.height v.now ≡ Self.height w.now) × (Self.id v.now ≡ Self.id w.now) × (Self.units v.now ≡ Self.units w.now) }
        ensures ok { IfOk result (λ e. (w : _) × (s : _) × (v : _) × (t : _) × (Self.receipts s.now ≡ []) × (Self.keeps s.now ≡ true) × B.post body w s (Ok e.value) v t × MetBy J.Tag.eq (Self.runs e.outputs) (Self.receipts t.now)) }
        ensures fault { (f : _) → result ≡ Err (CallError.Fault f) → ((w : _) × (s : _) × (v : _) × (t : _) × B.post body w s (Err f) v t) ⊎ ((r : Run J.Tag J.Output J.Fault) × Within J.answers (J.answers_on J.answers) r × (r.answer ≡ Err f)) }
        ensures missing { result ≡ Err CallError.Missing → (w : _) × (s : _) × (x : _) × (v : _) × (t : _) × B.post body w s (Ok x) v t }
        ensures foreign { result ≡ Err CallError.Foreign → (w : _) × (s : _) × (x : _) × (v : _) × (t : _) × (o : Self.Outputs) × B.post body w s (Ok x) v t × (MetBy J.Tag.eq (Self.runs o) (Self.receipts t.now) → ⊥) }
        ensures back { (r : _) (b : _) → result ≡ Err (CallError.Refused r b) → (b ≡ body) × Self.kept self.old self.new }
        ensures deep { Self.height self.old ≡ 0 → result ≡ Err (CallError.Refused Refusal.TooDeep body) }
        ensures shallow { (b : _) → result ≡ Err (CallError.Refused Refusal.TooDeep b) → Self.height self.old ≡ 0 }
        ensures height { Self.height self.new ≡ Self.height self.old }
        ensures id { Self.id self.new ≡ Self.id self.old }
        ensures units { Self.units self.new ≡ Self.units self.old }
        ensures path { CallMade (Self.scoped Fine self.old self.new) ((e : Ending) × Self.scoped e self.old self.new) (Self.not_opened self.old self.new) result }
    {
        self.scope(rt, alloc, body)
    }

    /// The same as `scope`, for jobs that are spawned into it in order, by `spawn_fifo`: any scope takes both kinds of
    /// spawns. rayon-core has a type of its own for each.
    final fn scope_fifo<
        R: Waits<J>,
        V: Drop,
        B: FnOnce(&mut Self, &mut Self::Scope) -> Result<V, J::Fault>,
    >(
        &mut self,
        rt: &R,
        alloc: Global,
        body: B,
    ) -> Result<Ended<V, Self::Outputs>, CallError<J::Fault, B>>
        requires levels { Self.height self.old ≤ R.levels rt.now }
        requires callable { (w : _) (s : _) → suc (Self.height w.now) ≡ Self.height self.old → Self.id w.now ≡ Self.id self.old → Self.receipts s.now ≡ [] → Self.keeps s.now ≡ true → B.pre body w s }
        requires keeps { (w : _) (s : _) (r : _) (v : _) (t : _) → B.post body w s r v t → (Self.height v.now ≡ Self.height w.now) × (Self.id v.now ≡ Self.id w.now) × (Self.units v.now ≡ Self.units w.now) }
        ensures ok { IfOk result (λ e. (w : _) × (s : _) × (v : _) × (t : _) × (Self.receipts s.now ≡ []) × (Self.keeps s.now ≡ true) × B.post body w s (Ok e.value) v t × MetBy J.Tag.eq (Self.runs e.outputs) (Self.receipts t.now)) }
        ensures fault { (f : _) → result ≡ Err (CallError.Fault f) → ((w : _) × (s : _) × (v : _) × (t : _) × B.post body w s (Err f) v t) ⊎ ((r : Run J.Tag J.Output J.Fault) × Within J.answers (J.answers_on J.answers) r × (r.answer ≡ Err f)) }
        ensures missing { result ≡ Err CallError.Missing → (w : _) × (s : _) × (x : _) × (v : _) × (t : _) × B.post body w s (Ok x) v t }
        ensures foreign { result ≡ Err CallError.Foreign → (w : _) × (s : _) × (x : _) × (v : _) × (t : _) × (o : Self.Outputs) × B.post body w s (Ok x) v t × (MetBy J.Tag.eq (Self.runs o) (Self.receipts t.now) → ⊥) }
        ensures back { (r : _) (b : _) → result ≡ Err (CallError.Refused r b) → (b ≡ body) × Self.kept self.old self.new }
        ensures deep { Self.height self.old ≡ 0 → result ≡ Err (CallError.Refused Refusal.TooDeep body) }
        ensures shallow { (b : _) → result ≡ Err (CallError.Refused Refusal.TooDeep b) → Self.height self.old ≡ 0 }
        ensures height { Self.height self.new ≡ Self.height self.old }
        ensures id { Self.id self.new ≡ Self.id self.old }
        ensures units { Self.units self.new ≡ Self.units self.old }
        ensures path { CallMade (Self.scoped Fine self.old self.new) ((e : Ending) × Self.scoped e self.old self.new) (Self.not_opened self.old self.new) result }
    {
        self.scope(rt, alloc, body)
    }

    /// The same as `scope_fifo`: on a worker the body runs in place there too.
    final fn in_place_scope_fifo<
        R: Waits<J>,
        V: Drop,
        B: FnOnce(&mut Self, &mut Self::Scope) -> Result<V, J::Fault>,
    >(
        &mut self,
        rt: &R,
        alloc: Global,
        body: B,
    ) -> Result<Ended<V, Self::Outputs>, CallError<J::Fault, B>>
        requires levels { Self.height self.old ≤ R.levels rt.now }
        requires callable { (w : _) (s : _) → suc (Self.height w.now) ≡ Self.height self.old → Self.id w.now ≡ Self.id self.old → Self.receipts s.now ≡ [] → Self.keeps s.now ≡ true → B.pre body w s }
        requires keeps { (w : _) (s : _) (r : _) (v : _) (t : _) → B.post body w s r v t → (Self.height v.now ≡ Self.height w.now) × (Self.id v.now ≡ Self.id w.now) × (Self.units v.now ≡ Self.units w.now) }
        ensures ok { IfOk result (λ e. (w : _) × (s : _) × (v : _) × (t : _) × (Self.receipts s.now ≡ []) × (Self.keeps s.now ≡ true) × B.post body w s (Ok e.value) v t × MetBy J.Tag.eq (Self.runs e.outputs) (Self.receipts t.now)) }
        ensures fault { (f : _) → result ≡ Err (CallError.Fault f) → ((w : _) × (s : _) × (v : _) × (t : _) × B.post body w s (Err f) v t) ⊎ ((r : Run J.Tag J.Output J.Fault) × Within J.answers (J.answers_on J.answers) r × (r.answer ≡ Err f)) }
        ensures missing { result ≡ Err CallError.Missing → (w : _) × (s : _) × (x : _) × (v : _) × (t : _) × B.post body w s (Ok x) v t }
        ensures foreign { result ≡ Err CallError.Foreign → (w : _) × (s : _) × (x : _) × (v : _) × (t : _) × (o : Self.Outputs) × B.post body w s (Ok x) v t × (MetBy J.Tag.eq (Self.runs o) (Self.receipts t.now) → ⊥) }
        ensures back { (r : _) (b : _) → result ≡ Err (CallError.Refused r b) → (b ≡ body) × Self.kept self.old self.new }
        ensures deep { Self.height self.old ≡ 0 → result ≡ Err (CallError.Refused Refusal.TooDeep body) }
        ensures shallow { (b : _) → result ≡ Err (CallError.Refused Refusal.TooDeep b) → Self.height self.old ≡ 0 }
        ensures height { Self.height self.new ≡ Self.height self.old }
        ensures id { Self.id self.new ≡ Self.id self.old }
        ensures units { Self.units self.new ≡ Self.units self.old }
        ensures path { CallMade (Self.scoped Fine self.old self.new) ((e : Ending) × Self.scoped e self.old self.new) (Self.not_opened self.old self.new) result }
    {
        self.scope(rt, alloc, body)
    }
}

impl<J: JobKind> ScopeCalls<J> for WorkerThread<J> {}
