//! The jobs of the tests.
ghost use Rattle.std.specs.Prelude.{◌≡◌, ℕ};

use crate::scope_parts::Part;
use crate::{hands, scope_parts};
use rayon_core::{
    BroadcastContext, CallError, FnContext, Job, JobKind, PoolHandler, Refusal, Waits, WorkerId,
    WorkerThread,
};
use std::alloc::Global;
use std::sync::atomic::{AtomicU64, Ordering};
use std::sync::{Arc, Barrier, Wait};

/// What the runs of a test's jobs leave behind: how many have begun, the digits that were noted, how many faults a
/// pool's handler was told, and of which workers' threads it was told that they began, and that they end.
#[derive(Drop)]
pub struct Marks {
    runs: AtomicU64,
    noted: AtomicU64,
    told: AtomicU64,
    started: AtomicU64,
    exited: AtomicU64,
}

impl Marks {
    /// No run yet. Refused `NoMemory`.
    pub fn new(alloc: Global) -> Result<Arc<Marks>, Trouble> {
        let marks = Marks {
            runs: AtomicU64::new(0),
            noted: AtomicU64::new(0),
            told: AtomicU64::new(0),
            started: AtomicU64::new(0),
            exited: AtomicU64::new(0),
        };
        Arc::new(alloc, marks).map_err(|_| Trouble::NoMemory)
    }

    /// How many runs have begun.
    pub fn runs(&self) -> u64 {
        self.runs.load(Ordering::SeqCst)
    }

    /// Notes a digit after those that were noted, while no other job notes one.
    pub fn note(&self, digit: u64) {
        let noted = self.noted.load(Ordering::SeqCst);
        let after = noted.saturating_mul(10).saturating_add(digit);
        self.noted.store(after, Ordering::SeqCst);
    }

    /// The digits that were noted.
    pub fn noted(&self) -> u64 {
        self.noted.load(Ordering::SeqCst)
    }

    /// How many faults a pool's handler was told.
    pub fn told(&self) -> u64 {
        self.told.load(Ordering::SeqCst)
    }

    /// The sum of 2^i over each time that a handler was told of the beginning of the thread of worker i, below 64.
    pub fn started(&self) -> u64 {
        self.started.load(Ordering::SeqCst)
    }

    /// The same of the ends.
    pub fn exited(&self) -> u64 {
        self.exited.load(Ordering::SeqCst)
    }
}

/// A handler that counts the faults that it is told, notes the digit of each that has one, and marks the threads of
/// which it is told. It may answer a fault for each of these.
#[derive(Drop)]
pub struct Teller {
    marks: Arc<Marks>,
    faults: bool,
}

impl Teller {
    /// A handler that leaves its marks there. Refused `NoMemory`.
    pub fn new(marks: &Arc<Marks>) -> Result<Teller, Trouble> {
        Teller::of(marks, false)
    }

    /// The same, which faults with the number of each worker that it is told of where `faults` says so.
    pub fn of(marks: &Arc<Marks>, faults: bool) -> Result<Teller, Trouble> {
        match Arc::try_clone(marks) {
            Ok(marks) => Ok(Teller { marks, faults }),
            Err(_) => Err(Trouble::NoMemory),
        }
    }

    // Marks the thread of this worker.
    fn mark(&self, threads: &AtomicU64, index: usize) -> Result<(), Trouble> {
        threads.fetch_add(1 << (index % 64), Ordering::SeqCst);
        if self.faults {
            return Err(Trouble::Number(index as u64));
        }
        Ok(())
    }
}

impl PoolHandler<Trouble> for Teller {
    fn panicked<R: Wait>(&self, _rt: &R, fault: Trouble) {
        if let Trouble::Number(digit) = fault {
            self.marks.note(digit);
        }
        self.marks.told.fetch_add(1, Ordering::SeqCst);
    }

    fn started<R: Wait>(&self, _rt: &R, index: usize) -> Result<(), Trouble> {
        self.mark(&self.marks.started, index)
    }

    fn exited<R: Wait>(&self, _rt: &R, index: usize) -> Result<(), Trouble> {
        self.mark(&self.marks.exited, index)
    }
}

/// Why a job has no answer.
#[derive(Clone, Copy, Debug, PartialEq, Eq)]
pub enum Trouble {
    /// This number.
    Number(u64),
    /// A call was refused, and a job with this name came back.
    Refused(Refusal, u64),
    /// A call was refused, and two jobs with these names came back.
    BothRefused(Refusal, u64, u64),
    /// No result was found, or another job's.
    Lost,
    /// Memory was refused.
    NoMemory,
    /// Something is not as it ought to be.
    Unlike,
}

/// What a job does.
#[derive(Drop)]
pub enum Deed {
    /// Answers, or faults with, this number.
    End(Result<u64, u64>),
    /// Answers 1 on this worker, and 0 on another.
    IsOn(WorkerId),
    /// Notes a digit, and answers it.
    Note(u64),
    /// The same after a while.
    NoteLate(u64),
    /// Waits at the gate until all others have come.
    Meet(Arc<Barrier>),
    /// Joins a job that waits at the gate, and one that notes the digit 7.
    ForkAndMeet(Arc<Barrier>),
    /// Looks for a task by hand until one is found, wherever it lies, pushes it into the own deque, and waits at the
    /// gate.
    FindAndMeet(Arc<Barrier>),
    /// Takes the newest task out of the own deque and pushes it again after a while, and waits at the gate.
    PushAndMeet(Arc<Barrier>),
    /// Joins two jobs that meet at the gate of these two shares, the first of which pushes the second one again.
    JoinMeet(Arc<Barrier>, Arc<Barrier>),
    /// Joins one of these, one less, and a job that notes this digit; at 0 takes two tasks at most out of the own
    /// deque, and pushes each again in the order in which they were taken. Answers their number and the digits' sum.
    Taker(u64),
    /// The same, but pushes each into the own FIFO list, and at last once more what was pushed last: a token.
    TakerInOrder(u64),
    /// Takes a task by hand and pushes it again, and joins two of these, one less, as long as it is more than 0.
    /// Answers how many the last ones were.
    Tree(u64),
    /// Joins one of these, one less, and a job that answers 1, as long as it is more than 0. Answers how many joins
    /// stood nested.
    Chain(u64),
    /// Spawns four jobs that fault with this digit, two of them in order, and faults with it.
    FaultByFive(u64),
    /// Does this with scopes.
    Scope(Part),
}

/// A job: its name, which is its tag, where it leaves its marks, and what it does.
#[derive(Drop)]
pub struct Errand {
    name: u64,
    marks: Arc<Marks>,
    deed: Deed,
}

impl Errand {
    /// A job with this name. Refused `NoMemory`.
    pub fn new(name: u64, marks: &Arc<Marks>, deed: Deed) -> Result<Errand, Trouble> {
        match Arc::try_clone(marks) {
            Ok(marks) => Ok(Errand { name, marks, deed }),
            Err(_) => Err(Trouble::NoMemory),
        }
    }
}

impl JobKind for Errand {
    type Tag = u64;

    type Output = u64;

    type Fault = Trouble;

    type Handler = Teller;

    ghost answers = { λ t r. Unit {0} };

    ghost tag_of = { λ j. j.name };

    fn tag(&self) -> u64 {
        self.name
    }

    ghost same_answers = { λ t u e. (λ r h. h, λ i n r h. h) };
}

impl Job for Errand {
    fn run<R: Waits<Self>>(
        self,
        rt: &R,
        alloc: Global,
        w: &mut WorkerThread<Self>,
        ctx: &mut FnContext<Self>,
    ) -> Result<u64, Trouble> {
        let Errand {
            name: _,
            marks,
            deed,
        } = self;
        marks.runs.fetch_add(1, Ordering::SeqCst);
        match deed {
            Deed::End(ending) => ending.map_err(Trouble::Number),
            Deed::IsOn(id) => Ok(u64::from(w.id() == id && w.index() == id.index)),
            Deed::Note(digit) => {
                marks.note(digit);
                Ok(digit)
            }
            Deed::NoteLate(digit) => {
                hands::pause();
                marks.note(digit);
                Ok(digit)
            }
            Deed::Scope(part) => scope_parts::run(rt, alloc, w, ctx, &marks, part),
            deed => hands::run(rt, alloc, w, &marks, deed),
        }
    }

    fn run_on<R: Waits<Self>>(
        &self,
        _rt: &R,
        _alloc: Global,
        _w: &mut WorkerThread<Self>,
        _ctx: &mut BroadcastContext<Self>,
    ) -> Result<u64, Trouble> {
        Err(Trouble::Unlike)
    }
}

/// What the call that was made of one job gave.
pub fn outcome(answer: Result<u64, CallError<Trouble, Errand>>) -> Result<u64, Trouble> {
    match answer {
        Ok(answer) => Ok(answer),
        Err(CallError::Fault(trouble)) => Err(trouble),
        Err(CallError::Refused(refusal, job)) => Err(Trouble::Refused(refusal, job.name)),
        Err(CallError::Foreign | CallError::Missing) => Err(Trouble::Lost),
    }
}

/// What the call that was made of two jobs gave.
pub fn outcomes(
    answer: Result<(u64, u64), CallError<Trouble, (Errand, Errand)>>,
) -> Result<(u64, u64), Trouble> {
    match answer {
        Ok(answers) => Ok(answers),
        Err(CallError::Fault(trouble)) => Err(trouble),
        Err(CallError::Refused(refusal, (a, b))) => {
            Err(Trouble::BothRefused(refusal, a.name, b.name))
        }
        Err(CallError::Foreign | CallError::Missing) => Err(Trouble::Lost),
    }
}
