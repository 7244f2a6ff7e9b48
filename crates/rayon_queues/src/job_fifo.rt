//! The list of the jobs that tokens stand for: the first that came in is the first that is taken.
ghost use Rattle.std.specs.Prelude.{◌≡◌, ◌↔◌, IsTrue, [], ◌∷◌, ◌++◌, Some, MatchOption, MatchResult};

use std::alloc::Global;
use std::collections::VecDeque;
use std::marker::Model;

/// Jobs in the order in which they came. For each of them a token lies in some queue, and who runs a token takes the
/// first job.
///
/// To a contract it is the list of its jobs. rayon-core's is a queue of many threads; this one is held by one at a
/// time.
#[derive(Drop)]
pub struct JobFifo<T> {
    jobs: VecDeque<T>,
}

impl<T> Model for JobFifo<T> {
    ghost use Rattle.std.specs.Prelude.{List};

    ghost Value = { List T };

    ghost view = { λ f. f.jobs.items };
}

impl<T: Drop> JobFifo<T> {
    /// A list without jobs. It takes no memory.
    pub fn new(alloc: Global) -> JobFifo<T>
        ensures { result ≡ [] }
    {
        JobFifo {
            jobs: VecDeque::new(alloc),
        }
    }

    /// Whether there is no job.
    pub fn is_empty(&self) -> bool
        ensures { IsTrue result ↔ (self.now ≡ []) }
    {
        self.jobs.is_empty()
    }

    /// Puts a job last. Where memory is refused the job comes back, and the list is as before.
    pub fn push(&mut self, job: T) -> Result<(), T>
        ensures { MatchResult result
            (λ _. self.new ≡ self.old ++ job ∷ [])
            (λ back. (back ≡ job) × (self.new ≡ self.old)) }
    {
        self.jobs.push_back(job).map_err(|failed| failed.value)
    }

    /// Takes the first job. None exactly where there is none. It takes no memory.
    pub fn take_first(&mut self) -> Option<T>
        ensures taken { MatchOption result ((self.old ≡ []) × (self.new ≡ [])) (λ job. self.old ≡ job ∷ self.new) }
        ensures first { (job : _) (rest : _) → self.old ≡ job ∷ rest → (result ≡ Some job) × (self.new ≡ rest) }
    {
        self.jobs.pop_front()
    }

    /// Takes the last job, as where its token could not be pushed. None exactly where there is none. It takes no
    /// memory.
    pub fn undo_last(&mut self) -> Option<T>
        ensures taken { MatchOption result ((self.old ≡ []) × (self.new ≡ [])) (λ job. self.old ≡ self.new ++ job ∷ []) }
        ensures last { (job : _) (rest : _) → self.old ≡ rest ++ job ∷ [] → (result ≡ Some job) × (self.new ≡ rest) }
    {
        self.jobs.pop_back()
    }
}
