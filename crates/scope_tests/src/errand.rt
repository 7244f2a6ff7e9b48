//! The jobs of the tests.
ghost use Rattle.rayon_core.specs.Worker.{SameWorker};
ghost use Rattle.std.specs.Prelude.{◌≤◌};

use rayon_core::{
    BroadcastContext, Done, FnContext, Job, JobKind, NoHandler, Scope, ScopeCalls, Waits,
    WorkerThread,
};
use std::alloc::Global;
use std::sync::atomic::{AtomicU64, Ordering};
use std::sync::{Arc, Barrier, Wait};

/// Why a job has no answer.
#[derive(Clone, Copy, Debug, PartialEq, Eq)]
pub enum Trouble {
    /// This number.
    Number(u64),
    /// A call or a spawn was refused, or a result was lost.
    Lost,
}

/// What a job does.
#[derive(Drop)]
pub enum Deed {
    /// Answers, or faults with, this number.
    End(Result<u64, u64>),
    /// Waits at the gate until all others have come, and answers 1.
    Meet(Arc<Barrier>),
    /// Spawns those of twice this number, and one more, into its own scope, where they are at most that many, and
    /// answers its number.
    Twig(u64, u64),
    /// Opens a scope on its worker, spawns the first twig of so many into it, and answers the sum of what they all
    /// answered.
    Tree(u64),
    /// Broadcasts itself into its own scope, and answers the number of its first piece. Each piece does this.
    Cast(Part),
    /// Opens a scope on its worker, spawns a job into it that answers this number, and then broadcasts one. Answers
    /// this number where each output has its own place, and its pieces have the numbers from 1 on.
    Numbers(u64),
}

/// What a piece does, before it answers its index.
#[derive(Drop)]
pub enum Part {
    /// Nothing.
    Count,
    /// Waits at the gate until all others have come.
    Meet(Arc<Barrier>),
    /// Faults with its index, where that is at least the first number and below the second.
    Fault(usize, usize),
    /// Broadcasts a job whose pieces count into the scope, and answers 0.
    Again,
}

/// A job: its name, which is its tag, the count of all runs, and what it does.
#[derive(Drop)]
pub struct Errand {
    name: u64,
    runs: Arc<AtomicU64>,
    deed: Deed,
}

impl Errand {
    /// A job with this name. Refused `Lost`.
    pub fn new(name: u64, runs: &Arc<AtomicU64>, deed: Deed) -> Result<Errand, Trouble> {
        match Arc::try_clone(runs) {
            Ok(runs) => Ok(Errand { name, runs, deed }),
            Err(_) => Err(Trouble::Lost),
        }
    }
}

impl JobKind for Errand {
    type Tag = u64;

    type Output = u64;

    type Fault = Trouble;

    type Handler = NoHandler;

    ghost answers = { λ t r. Unit {0} };

    ghost tag_of = { λ j. j.name };

    fn tag(&self) -> u64 {
        self.name
    }

    ghost same_answers = { λ t u e. (λ r h. h, λ i n r h. h) };
}

// Spawns the twig of this number into the job's own scope, by the worker, if there is such a one.
fn grow<R: Wait>(
    rt: &R,
    w: &mut WorkerThread<Errand>,
    ctx: &mut FnContext<Errand>,
    runs: &Arc<AtomicU64>,
    number: u64,
    most: u64,
) -> Result<(), Trouble>
    ensures same { SameWorker w.old w.new }
{
    if number > most {
        return Ok(());
    }
    let twig = Errand::new(number, runs, Deed::Twig(number, most))?;
    let Some(scope) = ctx.scope() else {
        return Err(Trouble::Lost);
    };
    match scope.spawn(rt, w, twig) {
        Ok(_) => Ok(()),
        Err(_) => Err(Trouble::Lost),
    }
}

// Opens a scope on the worker, whose jobs are so many twigs. Answers the sum of what they answered.
fn tree<R: Waits<Errand>>(
    rt: &R,
    alloc: Global,
    w: &mut WorkerThread<Errand>,
    runs: &Arc<AtomicU64>,
    most: u64,
) -> Result<u64, Trouble>
    requires levels { w.old.levels ≤ R.levels rt.now }
    ensures same { SameWorker w.old w.new }
{
    let ended = w.scope(rt, alloc, |w, scope| {
        let twig = Errand::new(1, runs, Deed::Twig(1, most))?;
        match scope.spawn(rt, w, twig) {
            Ok(number) => Ok(number),
            Err(_) => Err(Trouble::Lost),
        }
    });
    match ended {
        Ok(ended) => Ok(sum_of(&ended.outputs)),
        Err(_) => Err(Trouble::Lost),
    }
}

// Broadcasts the job into a scope by the worker. Answers the number of its first piece.
fn cast<R: Wait>(
    rt: &R,
    alloc: Global,
    w: &mut WorkerThread<Errand>,
    scope: Option<&mut Scope<Errand>>,
    job: Errand,
) -> Result<u64, Trouble>
    ensures same { SameWorker w.old w.new }
{
    let Some(scope) = scope else {
        return Err(Trouble::Lost);
    };
    match scope.spawn_broadcast(rt, alloc, w, job) {
        Ok(first) => Ok(first),
        Err(_) => Err(Trouble::Lost),
    }
}

// Opens a scope on the worker, spawns a job into it that answers this number, and then broadcasts one.
fn numbers<R: Waits<Errand>>(
    rt: &R,
    alloc: Global,
    w: &mut WorkerThread<Errand>,
    runs: &Arc<AtomicU64>,
    number: u64,
) -> Result<u64, Trouble>
    requires levels { w.old.levels ≤ R.levels rt.now }
    ensures same { SameWorker w.old w.new }
{
    let workers = w.current_num_threads();
    let ended = w.scope(rt, alloc, |w, scope| {
        spawn_and_cast(rt, alloc, w, scope, runs, number)
    });
    let Ok(ended) = ended else {
        return Err(Trouble::Lost);
    };
    if ended.value == 1 && are_numbered(&ended.outputs, number, workers) {
        Ok(number)
    } else {
        Err(Trouble::Lost)
    }
}

// Spawns a job into a scope that answers this number, and then broadcasts one. Answers the number of its first piece.
fn spawn_and_cast<R: Wait>(
    rt: &R,
    alloc: Global,
    w: &mut WorkerThread<Errand>,
    scope: &mut Scope<Errand>,
    runs: &Arc<AtomicU64>,
    number: u64,
) -> Result<u64, Trouble>
    ensures same { SameWorker w.old w.new }
{
    let one = Errand::new(1, runs, Deed::End(Ok(number)))?;
    let many = Errand::new(2, runs, Deed::Cast(Part::Count))?;
    if scope.spawn(rt, w, one).is_err() {
        return Err(Trouble::Lost);
    }
    match scope.spawn_broadcast(rt, alloc, w, many) {
        Ok(first) => Ok(first),
        Err(_) => Err(Trouble::Lost),
    }
}

/// Whether these are the output of a whole job, which is this number, and then those of the pieces of so many workers,
/// by their indices.
pub fn are_numbered(outputs: &[Done<Errand>], number: u64, workers: usize) -> bool {
    let mut wanted = (1, None, number);
    let mut found = 0_usize;
    for done in outputs {
        if (*done.tag(), done.place(), done.output().copied())
            != (wanted.0, wanted.1, Some(wanted.2))
        {
            return false;
        }
        wanted = (2, Some((found, workers)), found as u64);
        found = found.saturating_add(1);
    }
    found == workers.saturating_add(1)
}

/// The sum of these outputs.
pub fn sum_of(outputs: &[Done<Errand>]) -> u64 {
    let mut sum = 0u64;
    for done in outputs {
        sum = sum.saturating_add(done.output().copied().unwrap_or(0));
    }
    sum
}

impl Job for Errand {
    fn run<R: Waits<Self>>(
        self,
        rt: &R,
        alloc: Global,
        w: &mut WorkerThread<Self>,
        ctx: &mut FnContext<Self>,
    ) -> Result<u64, Trouble> {
        self.runs.fetch_add(1, Ordering::SeqCst);
        if matches!(&self.deed, Deed::Cast(_)) {
            return cast(rt, alloc, w, ctx.scope(), self);
        }
        let Errand {
            name: _,
            runs,
            deed,
        } = self;
        match deed {
            Deed::Cast(_) => Err(Trouble::Lost),
            Deed::End(ending) => ending.map_err(Trouble::Number),
            Deed::Meet(gate) => {
                gate.wait(rt);
                Ok(1)
            }
            Deed::Twig(number, most) => {
                let twice = number.saturating_mul(2);
                grow(rt, w, ctx, &runs, twice, most)?;
                grow(rt, w, ctx, &runs, twice.saturating_add(1), most)?;
                Ok(number)
            }
            Deed::Tree(most) => tree(rt, alloc, w, &runs, most),
            Deed::Numbers(number) => numbers(rt, alloc, w, &runs, number),
        }
    }

    fn run_on<R: Waits<Self>>(
        &self,
        rt: &R,
        alloc: Global,
        w: &mut WorkerThread<Self>,
        ctx: &mut BroadcastContext<Self>,
    ) -> Result<u64, Trouble> {
        self.runs.fetch_add(1, Ordering::SeqCst);
        let index = ctx.index();
        match &self.deed {
            Deed::Cast(Part::Count) => Ok(index as u64),
            Deed::Cast(Part::Meet(gate)) => {
                gate.wait(rt);
                Ok(index as u64)
            }
            Deed::Cast(Part::Fault(from, to)) if *from <= index && index < *to => {
                Err(Trouble::Number(index as u64))
            }
            Deed::Cast(Part::Fault(_, _)) => Ok(index as u64),
            Deed::Cast(Part::Again) => {
                let job = Errand::new(self.name, &self.runs, Deed::Cast(Part::Count))?;
                cast(rt, alloc, w, ctx.scope(), job)?;
                Ok(0)
            }
            _ => Err(Trouble::Lost),
        }
    }
}
