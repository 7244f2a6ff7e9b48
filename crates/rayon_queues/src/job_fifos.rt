//! A worker's lists of the jobs that tokens stand for: one of detached jobs, and one for each scope.
ghost use Rattle.rayon_queues.specs.Lists.{Lists, ScopeList, jobs_of, Becomes, SameLists, Lacks};
ghost use Rattle.std.specs.Prelude.{◌≡◌, ℕ, [], ◌∷◌, ◌++◌, slice_get, Option, Some, MatchOption, MatchResult};

use crate::job_fifo::JobFifo;
use std::alloc::Global;
use std::marker::Model;

// The list of one scope's jobs.
#[derive(Drop)]
struct ScopeFifo<T> {
    scope: u64,
    jobs: JobFifo<T>,
}

impl<T> Model for ScopeFifo<T> {
    ghost use Rattle.rayon_queues.specs.Lists.{ScopeList};

    ghost Value = { ScopeList T };

    ghost view = { λ f. record { scope = f.scope; jobs = f.jobs } };
}

/// A worker's lists of jobs, each in the order in which they came: one for each scope, by the scope's number, and one
/// of detached jobs, under `None`.
///
/// A list that becomes empty stays, and the next scope that has none takes it, with its memory. So there are at most as
/// many lists as the worker had scopes with jobs at one time, and one more where memory was refused.
///
/// To a contract it is the lists, of which `jobs_of` says the jobs by scope.
#[derive(Drop)]
pub struct JobFifos<T> {
    alloc: Global,
    detached: JobFifo<T>,
    scoped: Vec<ScopeFifo<T>>,
}

impl<T> Model for JobFifos<T> {
    ghost use Rattle.rayon_queues.specs.Lists.{Lists, Distinct};

    ghost Value = { Lists T };

    ghost view = { λ f. record { detached = f.detached; scoped = f.scoped.items } };

    ghost invariant = { λ f. Distinct f.scoped.items };
}

impl<T: Drop> JobFifos<T> {
    /// Lists without jobs. They take no memory.
    pub fn new(alloc: Global) -> JobFifos<T>
        ensures { (o : Option ℕ) → jobs_of result o ≡ [] }
    {
        JobFifos {
            alloc,
            detached: JobFifo::new(alloc),
            scoped: Vec::new(alloc),
        }
    }

    /// Puts a job last in its scope's list. Where memory is refused the job comes back, and all lists are as before.
    pub fn push(&mut self, scope: Option<u64>, job: T) -> Result<(), T>
        ensures { MatchResult result
            (λ _. Becomes self.old scope (jobs_of self.old scope ++ job ∷ []) self.new)
            (λ back. (back ≡ job) × SameLists self.old self.new) }
    {
        let Some(number) = scope else {
            return self.detached.push(job);
        };
        let Some(index) = self.place_for(number) else {
            return Err(job);
        };
        self.scoped[index].jobs.push(job)
    }

    /// Takes the first job of a scope's list. None exactly where there is none. It takes no memory.
    pub fn take_first(&mut self, scope: Option<u64>) -> Option<T>
        ensures taken { MatchOption result
            ((jobs_of self.old scope ≡ []) × SameLists self.old self.new)
            (λ job. (jobs_of self.old scope ≡ job ∷ jobs_of self.new scope)
            × Becomes self.old scope (jobs_of self.new scope) self.new) }
        ensures first { (job : _) (rest : _) → jobs_of self.old scope ≡ job ∷ rest
            → (result ≡ Some job) × Becomes self.old scope rest self.new }
    {
        let Some(number) = scope else {
            return self.detached.take_first();
        };
        let index = place_of(&self.scoped, number)?;
        self.scoped[index].jobs.take_first()
    }

    /// Takes the last job of a scope's list, as where its token could not be pushed. None exactly where there is none.
    /// It takes no memory.
    pub fn undo_last(&mut self, scope: Option<u64>) -> Option<T>
        ensures taken { MatchOption result
            ((jobs_of self.old scope ≡ []) × SameLists self.old self.new)
            (λ job. (jobs_of self.old scope ≡ jobs_of self.new scope ++ job ∷ [])
            × Becomes self.old scope (jobs_of self.new scope) self.new) }
        ensures last { (job : _) (rest : _) → jobs_of self.old scope ≡ rest ++ job ∷ []
            → (result ≡ Some job) × Becomes self.old scope rest self.new }
    {
        let Some(number) = scope else {
            return self.detached.undo_last();
        };
        let index = place_of(&self.scoped, number)?;
        self.scoped[index].jobs.undo_last()
    }

    // The index of the scope's list: where it had none, of an empty one or of a new one. None where memory is refused.
    fn place_for(&mut self, scope: u64) -> Option<usize>
        ensures same { SameLists self.old self.new }
        ensures place { MatchOption result
            (Unit {0})
            (λ i. (list : ScopeList T) × (slice_get self.new.scoped i ≡ Some list) × (list.scope ≡ scope)) }
    {
        if let Some(index) = place_of(&self.scoped, scope) {
            return Some(index);
        }
        if let Some(index) = empty_place(&self.scoped) {
            self.scoped[index].scope = scope;
            return Some(index);
        }
        self.scoped.reserve(1).ok()?;
        let index = self.scoped.len();
        self.scoped.push_reserved(ScopeFifo {
            scope,
            jobs: JobFifo::new(self.alloc),
        });
        Some(index)
    }
}

// The index of the scope's list.
fn place_of<T>(lists: &[ScopeFifo<T>], scope: u64) -> Option<usize>
    ensures { MatchOption result
        (Lacks lists.now scope)
        (λ i. (list : ScopeList T) × (slice_get lists.now i ≡ Some list) × (list.scope ≡ scope)) }
{
    lists.iter().position(|list| list.scope == scope)
}

// The index of a list without jobs.
fn empty_place<T: Drop>(lists: &[ScopeFifo<T>]) -> Option<usize>
    ensures { MatchOption result
        (Unit {0})
        (λ i. (list : ScopeList T) × (slice_get lists.now i ≡ Some list) × (list.jobs ≡ [])) }
{
    lists.iter().position(|list| list.jobs.is_empty())
}
