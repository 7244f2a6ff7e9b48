//! Broadcasts into a scope: jobs of which each worker of the pool runs a piece, and for which the scope waits.
ghost use Rattle.rayon_machine_places.specs.declared.place.Party.TheVariants.{Worker};
ghost use Rattle.rayon_performers.specs.Casts.{CastInto};
ghost use Rattle.rayon_shared.specs.Casts.{cast_into};
ghost use Rattle.rayon_shared.specs.Marks.{IsScope, scope_in};
ghost use Rattle.rayon_performers.specs.Scopes.{entry_of};
ghost use Rattle.rayon_registry.specs.Acts.{PiecesBack};
ghost use Rattle.rayon_registry.specs.Scopes.{piece_receipts};
ghost use Rattle.std.specs.Prelude.{◌≡◌, ◌⊎◌, ℕ, ◌≤◌, ◌++◌, ◌+◌, ◌^◌, IfOk, IfErr, MatchResult, true, vec_len, vec_capacity};

use crate::in_place::is_here;
use crate::pool_ref::PoolRef;
use crate::scope::Scope;
use crate::worker_thread::WorkerThread;
use rayon_books::Receipt;
use rayon_broadcasts::SharedJob;
use rayon_guests::Guest;
use rayon_jobs::JobKind;
use rayon_machine_places::place::{Entry, Party};
use rayon_tasks::{Ticket, row_of_names};
use rayon_words::Refusal;
use std::alloc::Global;
use std::sync::Wait;

impl<J: JobKind> Scope<J> {
    /// Broadcasts a job into the scope, by the worker that calls: each worker of the scope's pool runs a piece of it
    /// (`Job::run_on`), that one too, and the piece's `BroadcastContext` has the scope. All pieces are queued at once,
    /// and each worker is called, so that none of them sleeps. The pieces have numbers in a row, in the order of the
    /// workers' indices, and this answers the first one's. The scope waits for each piece, and answers its output at
    /// its number, at the place of its worker's index and the number of workers. Who has the job's last share lets it
    /// go, a piece or the call. Refused `Full`, `NoRoom`, `Ended`, with the very job back and no piece queued; `Ended`
    /// also to a worker of another pool. rayon-core's is called by any thread, and cannot be refused.
    #[tactic(auto, unfolding(crate::specs::Pushes::pushed_by, crate::specs::Pushes::left_to, crate::specs::Pushes::takes_oldest, crate::specs::Pushes::units_of, crate::specs::Pushes::count_of, crate::specs::Pushes::shape_at, crate::specs::Pushes::index_of, crate::specs::Pushes::acts_of, crate::specs::Pushes::saw_set))]
    pub fn spawn_broadcast<R: Wait>(
        &mut self,
        rt: &R,
        alloc: Global,
        by: &mut WorkerThread<J>,
        job: J,
    ) -> Result<u64, (Refusal, J)>
        ensures cast { IfOk result (λ n. (a : ℕ) × CastInto by.old.shape (Worker 0 by.old.id.index) (cast_into (entry_of self.old.call self.old.owner a) by.old.shape.workers) n by.old.acts by.new.acts) }
        ensures receipts { IfOk result (λ n. self.old.keeps ≡ true → self.new.receipts ≡ self.old.receipts ++ piece_receipts (J.tag_of job) n by.old.shape.workers by.old.shape.workers) }
        ensures scope { self.new ≡ record self.old { receipts = self.new.receipts } }
        ensures pool { IfOk result (λ _. by.old.id.pool ≡ self.old.pool) }
        ensures back { IfErr result (λ e. (e.1 ≡ job) × (self.new ≡ self.old)) }
        ensures path { IfErr result (λ _. PiecesBack by.old.shape (Worker 0 by.old.id.index) (λ a. cast_into (entry_of self.old.call self.old.owner a) by.old.shape.workers) by.old.acts by.new.acts) }
        ensures left { by.new ≡ record by.old { acts = by.new.acts } }
        ensures refused { IfErr result (λ e. (e.0 ≡ Refusal.Ended) ⊎ ((e.0 ≡ Refusal.Full) ⊎ (e.0 ≡ Refusal.NoRoom))) }
    {
        if by.id().pool != self.pool {
            return Err((Refusal::Ended, job));
        }
        let workers = by.current_num_threads();
        let kept = kept_of(self.keeps, workers);
        if self.receipts.reserve(kept).is_err() {
            return Err((Refusal::NoRoom, job));
        }
        let place = match SharedJob::new(alloc) {
            Ok(place) => place,
            Err(refusal) => return Err((refusal, job)),
        };
        let (call, owner) = (self.call, self.owner);
        let entered = by.enter_for_all(rt, alloc, &mut self.ticket, call, owner, &place, job)?;
        let (number, there) = entered;
        keep_receipts(&mut self.receipts, there, number, kept, workers);
        Ok(number)
    }

    /// Broadcasts a job into the scope for a caller who is no worker of the scope's pool, which is handed in: each
    /// worker of the pool runs a piece of it, as of `spawn_broadcast`, and the scope waits for the pieces. Answers the
    /// first piece's number; those of the others follow by the workers' indices. Refused `Full`, `NoRoom`, `Ended`,
    /// with the very job back and no piece queued; `Ended` also where the scope is of another pool. rayon-core finds
    /// out by itself whether a worker of the pool calls, and refuses nothing.
    pub fn inject_broadcast<R: Wait>(
        &mut self,
        rt: &R,
        alloc: Global,
        pool: &PoolRef<J>,
        job: J,
    ) -> Result<u64, (Refusal, J)>
        ensures receipts { IfOk result (λ n. self.old.keeps ≡ true → self.new.receipts ≡ self.old.receipts ++ piece_receipts (J.tag_of job) n pool.now.workers pool.now.workers) }
        ensures scope { self.new ≡ record self.old { receipts = self.new.receipts } }
        ensures pool { IfOk result (λ _. pool.now.id ≡ self.old.pool) }
        ensures back { IfErr result (λ e. (e.1 ≡ job) × (self.new ≡ self.old)) }
        ensures refused { IfErr result (λ e. (e.0 ≡ Refusal.Ended) ⊎ ((e.0 ≡ Refusal.Full) ⊎ (e.0 ≡ Refusal.NoRoom))) }
    {
        if pool.id() != self.pool {
            return Err((Refusal::Ended, job));
        }
        let workers = pool.current_num_threads();
        let kept = kept_of(self.keeps, workers);
        if self.receipts.reserve(kept).is_err() {
            return Err((Refusal::NoRoom, job));
        }
        let place = match SharedJob::new(alloc) {
            Ok(place) => place,
            Err(refusal) => return Err((refusal, job)),
        };
        let (call, owner) = (self.call, self.owner);
        let entered = pool.enter_for_all(rt, alloc, &mut self.ticket, call, owner, &place, job)?;
        let (number, there) = entered;
        keep_receipts(&mut self.receipts, there, number, kept, workers);
        Ok(number)
    }
}

impl<J: JobKind> PoolRef<J> {
    // Broadcasts a job into the scope of this call and this owner, which the ticket is of, by the lists of broadcasts.
    // Answers the first piece's number, and lends the job as it stands in the place that the pieces share.
    fn enter_for_all<'p, R: Wait>(
        &self,
        rt: &R,
        alloc: Global,
        ticket: &mut Option<Ticket<J>>,
        call: u64,
        owner: Party,
        place: &'p SharedJob<J>,
        job: J,
    ) -> Result<(u64, &'p J), (Refusal, J)>
        requires { IsScope (scope_in ticket.old) call }
        ensures ticket { ticket.new ≡ ticket.old }
        ensures numbers { IfOk result (λ r. r.0 + self.now.workers ≤ 2 ^ 64) }
        ensures job { MatchResult result (λ r. r.1.now ≡ job) (λ e. e.1 ≡ job) }
        ensures refused { IfErr result (λ e. (e.0 ≡ Refusal.Ended) ⊎ ((e.0 ≡ Refusal.Full) ⊎ (e.0 ≡ Refusal.NoRoom))) }
    {
        if !is_here(owner) {
            return Err((Refusal::Ended, job));
        }
        let Some(first) = self.pool.shared.caller_row(rt) else {
            return Err((Refusal::Full, job));
        };
        let entry = Entry {
            call,
            owner,
            pool: 0,
            job: first,
        };
        let mut guest = Guest::new(&*self.pool.shared);
        guest.enter_for_all(rt, alloc, ticket, entry, place, job)
    }
}

impl<J: JobKind> WorkerThread<J> {
    // Broadcasts a job into the scope of this call and this owner, which the ticket is of. Answers the first piece's
    // number, and lends the job as it stands in the place that the pieces share.
    #[tactic(auto, unfolding(crate::specs::Pushes::pushed_by, crate::specs::Pushes::left_to, crate::specs::Pushes::takes_oldest, crate::specs::Pushes::units_of, crate::specs::Pushes::count_of, crate::specs::Pushes::shape_at, crate::specs::Pushes::index_of, crate::specs::Pushes::acts_of, crate::specs::Pushes::saw_set))]
    fn enter_for_all<'p, R: Wait>(
        &mut self,
        rt: &R,
        alloc: Global,
        ticket: &mut Option<Ticket<J>>,
        call: u64,
        owner: Party,
        place: &'p SharedJob<J>,
        job: J,
    ) -> Result<(u64, &'p J), (Refusal, J)>
        requires { IsScope (scope_in ticket.old) call }
        ensures ticket { ticket.new ≡ ticket.old }
        ensures cast { IfOk result (λ r. (a : ℕ) × CastInto self.old.shape (Worker 0 self.old.id.index) (cast_into (entry_of call owner a) self.old.shape.workers) r.0 self.old.acts self.new.acts) }
        ensures numbers { IfOk result (λ r. r.0 + self.old.shape.workers ≤ 2 ^ 64) }
        ensures job { MatchResult result (λ r. r.1.now ≡ job) (λ e. e.1 ≡ job) }
        ensures path { IfErr result (λ _. PiecesBack self.old.shape (Worker 0 self.old.id.index) (λ a. cast_into (entry_of call owner a) self.old.shape.workers) self.old.acts self.new.acts) }
        ensures left { self.new ≡ record self.old { acts = self.new.acts } }
        ensures refused { IfErr result (λ e. (e.0 ≡ Refusal.Ended) ⊎ ((e.0 ≡ Refusal.Full) ⊎ (e.0 ≡ Refusal.NoRoom))) }
    {
        let row = match self.names.draw() {
            Some(name) => row_of_names(self.current_num_threads(), name),
            None => None,
        };
        let Some(first) = row else {
            return Err((Refusal::Full, job));
        };
        let entry = Entry {
            call,
            owner,
            pool: 0,
            job: first,
        };
        self.bench
            .enter_for_all(rt, alloc, ticket, entry, place, job)
    }
}

// How many receipts a scope keeps of a broadcast to so many workers.
fn kept_of(keeps: bool, workers: usize) -> usize
    ensures all { keeps ≡ true → result ≡ workers }
    ensures most { result ≤ workers }
{
    if keeps { workers } else { 0 }
}

// Keeps a receipt of each of so many pieces of a broadcast of this job to these workers, of which the first has this
// number. There is room for them.
fn keep_receipts<J: JobKind>(
    receipts: &mut Vec<Receipt<J::Tag>>,
    job: &J,
    first: u64,
    kept: usize,
    workers: usize,
)
    requires room { vec_len receipts.old + kept ≤ vec_capacity receipts.old }
    requires numbers { first + kept ≤ 2 ^ 64 }
    ensures { receipts.new.items ≡ receipts.old.items ++ piece_receipts (J.tag_of job.now) first workers kept }
{
    for index in 0..kept {
        receipts.push_reserved(Receipt {
            number: first + index as u64,
            tag: job.tag(),
            place: Some((index, workers)),
        });
    }
}
