//! The jobs of the tests, and what they leave behind.

use rayon_core::{BroadcastContext, FnContext, Job, JobKind, PoolHandler, Waits, WorkerThread};
use std::alloc::Global;
use std::sync::atomic::{AtomicU64, Ordering};
use std::sync::{Arc, Wait};

/// What the runs of jobs and the threads of a pool leave behind: how many jobs have run, how many faults a handler was
/// told, and of which workers' threads it was told that they began, and that they end.
#[derive(Drop)]
pub struct Marks {
    runs: AtomicU64,
    told: AtomicU64,
    started: AtomicU64,
    exited: AtomicU64,
}

impl Marks {
    /// Nothing yet. Refused `NoMemory`.
    pub fn new(alloc: Global) -> Result<Arc<Marks>, Trouble> {
        let marks = Marks {
            runs: AtomicU64::new(0),
            told: AtomicU64::new(0),
            started: AtomicU64::new(0),
            exited: AtomicU64::new(0),
        };
        Arc::new(alloc, marks).map_err(|_| Trouble::NoMemory)
    }

    /// How many jobs have run.
    pub fn runs(&self) -> u64 {
        self.runs.load(Ordering::SeqCst)
    }

    /// How many faults a handler was told.
    pub fn told(&self) -> u64 {
        self.told.load(Ordering::SeqCst)
    }

    /// The sum of 2^i over each time that a handler was told of the beginning of the thread of worker i, below 64.
    pub fn started(&self) -> u64 {
        self.started.load(Ordering::SeqCst)
    }

    /// The same of the ends.
    pub fn exited(&self) -> u64 {
        self.exited.load(Ordering::SeqCst)
    }
}

/// A handler that counts the faults that it is told, and marks the threads of which it is told.
#[derive(Drop)]
pub struct Teller {
    marks: Arc<Marks>,
}

impl Teller {
    /// A handler that leaves its marks there. Refused `NoMemory`.
    pub fn new(marks: &Arc<Marks>) -> Result<Teller, Trouble> {
        match Arc::try_clone(marks) {
            Ok(marks) => Ok(Teller { marks }),
            Err(_) => Err(Trouble::NoMemory),
        }
    }
}

impl PoolHandler<Trouble> for Teller {
    fn panicked<R: Wait>(&self, _rt: &R, _fault: Trouble) {
        self.marks.told.fetch_add(1, Ordering::SeqCst);
    }

    fn started<R: Wait>(&self, _rt: &R, index: usize) -> Result<(), Trouble> {
        self.marks
            .started
            .fetch_add(1 << (index % 64), Ordering::SeqCst);
        Ok(())
    }

    fn exited<R: Wait>(&self, _rt: &R, index: usize) -> Result<(), Trouble> {
        self.marks
            .exited
            .fetch_add(1 << (index % 64), Ordering::SeqCst);
        Ok(())
    }
}

/// Why a job has no answer.
#[derive(Clone, Copy, Debug, PartialEq, Eq)]
pub enum Trouble {
    /// It is to fault.
    Odd,
    /// Memory was refused.
    NoMemory,
}

/// A job that counts itself, and answers its digit, or faults where that is odd.
#[derive(Drop)]
pub struct Errand {
    digit: u64,
    marks: Arc<Marks>,
}

impl Errand {
    /// A job with this digit. Refused `NoMemory`.
    pub fn new(digit: u64, marks: &Arc<Marks>) -> Result<Errand, Trouble> {
        match Arc::try_clone(marks) {
            Ok(marks) => Ok(Errand { digit, marks }),
            Err(_) => Err(Trouble::NoMemory),
        }
    }
}

impl JobKind for Errand {
    type Tag = u64;

    type Output = u64;

    type Fault = Trouble;

    type Handler = Teller;

    ghost answers = { λ t r. Unit {0} };

    ghost tag_of = { λ j. j.digit };

    ghost same_answers = { λ t u e. (λ r h. h, λ i n r h. h) };

    fn tag(&self) -> u64 {
        self.digit
    }
}

impl Job for Errand {
    fn run<R: Waits<Self>>(
        self,
        _rt: &R,
        _alloc: Global,
        _w: &mut WorkerThread<Self>,
        _ctx: &mut FnContext<Self>,
    ) -> Result<u64, Trouble> {
        self.marks.runs.fetch_add(1, Ordering::SeqCst);
        if self.digit % 2 == 1 {
            return Err(Trouble::Odd);
        }
        Ok(self.digit)
    }

    fn run_on<R: Waits<Self>>(
        &self,
        _rt: &R,
        _alloc: Global,
        _w: &mut WorkerThread<Self>,
        _ctx: &mut BroadcastContext<Self>,
    ) -> Result<u64, Trouble> {
        Err(Trouble::Odd)
    }
}
