//! The jobs of the tests.
ghost use Rattle.rayon_core.specs.Worker.{SameWorker};
ghost use Rattle.std.proofs.Common.{rules};
ghost use Rattle.std.specs.Prelude.{◌≡◌, ◌+◌, ◌≤◌, IfOk};

use crate::tally::{Tally, Trouble};
use rayon_core::{
    BroadcastContext, CallError, FnContext, Job, JobKind, PoolHandler, Refusal, Waits, WorkerThread,
};
use std::alloc::Global;
use std::sync::{Arc, Barrier, Wait};
use std::thread;

// The depth at which a job of a tree of joins broadcasts.
const CASTING: u64 = 5;

/// What each piece of a job does, once it has counted itself.
#[derive(Drop)]
pub enum Deed {
    /// Nothing more.
    Count,
    /// Waits at the gate until all others have come.
    Meet(Arc<Barrier>),
    /// Faults, where its index is even.
    Fault,
    /// Faults, where its index is this one.
    FaultAt(usize),
    /// Lets other threads run for a while, and counts itself once more.
    Twice,
    /// Is the last one to end, where its index is 0: it broadcasts the others of `Others` to this gate, which waits for
    /// nothing, and comes there too. Then it is as `Fault`, if that is so, or else as `Count`.
    Last(Arc<Barrier>, bool),
    /// Waits at the gate until all others have come, unless its index is 0.
    Others(Arc<Barrier>),
    /// Broadcasts one of these, one less, where its index is below the first number and the second is more than 0.
    Again(usize, u64),
    /// Broadcasts one of these, one less, and waits for it, as long as it is more than 0; so does a run of the whole
    /// job. Where no level is left, and nowhere else, that has to be refused, with the very job back.
    Dig(u64),
    /// Nothing more. A run of the whole job joins two of these, one less, as long as it is more than 0, and answers how
    /// many the last ones were. At 5 it broadcasts a job that counts first.
    Tree(u64),
    /// Nothing more. A run of the whole job spawns so many that count themselves as pieces of their worker. Then it
    /// answers its name; or, if it is to wait, broadcasts a job that counts, and answers the fewest that a worker has
    /// counted when that is answered.
    Spawn(u64),
    /// Nothing more. A run of the whole job counts itself as a piece of its worker.
    Mark,
    /// Nothing more. A run of the whole job first lets other threads run so often; then it answers its name, or, if it
    /// is to wait, broadcasts the job.
    Nap(u64),
}

/// A job: its name, which is its tag, what its pieces leave behind, what they do, and whether a run of the whole job
/// waits for those that it broadcasts. Where its deed says no more of it, such a run broadcasts the job itself: after a
/// while, and answers its name; or waits for it, and answers the pieces' last digits in one number. The piece of index
/// i answers the name and i.
#[derive(Drop)]
pub struct Errand {
    name: u64,
    tally: Arc<Tally>,
    deed: Deed,
    waits: bool,
}

impl Errand {
    /// A job with this name, which waits for no broadcast. Refused `Lost`.
    pub fn new(name: u64, tally: &Arc<Tally>, deed: Deed) -> Result<Errand, Trouble> {
        match Arc::try_clone(tally) {
            Ok(tally) => Ok(Errand {
                name,
                tally,
                deed,
                waits: false,
            }),
            Err(_) => Err(Trouble::Lost),
        }
    }

    /// The same, but it waits.
    pub fn waiting(name: u64, tally: &Arc<Tally>, deed: Deed) -> Result<Errand, Trouble> {
        let mut job = Errand::new(name, tally, deed)?;
        job.waits = true;
        Ok(job)
    }

    // Whether this is the job of this name that digs as deep as its name says.
    fn digs(&self, name: u64) -> bool {
        self.name == name && matches!(self.deed, Deed::Dig(left) if left == name)
    }
}

/// A handler that counts the faults that it is told.
#[derive(Drop)]
pub struct Teller {
    tally: Arc<Tally>,
}

impl Teller {
    /// A handler that counts there. Refused `Lost`.
    pub fn new(tally: &Arc<Tally>) -> Result<Teller, Trouble> {
        match Arc::try_clone(tally) {
            Ok(tally) => Ok(Teller { tally }),
            Err(_) => Err(Trouble::Lost),
        }
    }
}

impl PoolHandler<Trouble> for Teller {
    fn panicked<R: Wait>(&self, _rt: &R, fault: Trouble) {
        self.tally.count_fault(fault);
    }
}

impl JobKind for Errand {
    type Tag = u64;

    type Output = u64;

    type Fault = Trouble;

    type Handler = Teller;

    ghost answers = { λ t r. Unit {0} };

    ghost answers_on = { λ plain t i n r. IfOk r (λ o. o ≡ t + i) };

    ghost tag_of = { λ j. j.name };

    ghost same_answers = { λ t u e. Prim.search rules };

    fn tag(&self) -> u64 {
        self.name
    }
}

/// Lets other threads run so often, so that they may fall asleep. No test's outcome depends on it.
pub fn pause(turns: u64) {
    for _ in 0..turns {
        thread::yield_now();
    }
}

// Broadcasts the job by the worker, and answers its name.
fn cast<R: Wait>(
    rt: &R,
    alloc: Global,
    w: &mut WorkerThread<Errand>,
    job: Errand,
) -> Result<u64, Trouble>
    ensures same { SameWorker w.old w.new }
{
    let name = job.name;
    match w.spawn_broadcast(rt, alloc, job) {
        Ok(()) => Ok(name),
        Err(_) => Err(Trouble::Lost),
    }
}

// Broadcasts the job by the worker, and waits for it. Answers the last digits of what its pieces answered, and keeps
// how many shares of the tally there are then.
fn ask<R: Waits<Errand>>(
    rt: &R,
    alloc: Global,
    w: &mut WorkerThread<Errand>,
    job: Errand,
) -> Result<u64, Trouble>
    requires levels { w.old.levels ≤ R.levels rt.now }
    ensures same { SameWorker w.old w.new }
{
    let Ok(tally) = Arc::try_clone(&job.tally) else {
        return Err(Trouble::Lost);
    };
    let answer = w.broadcast(rt, alloc, job);
    tally.keep_shares(Arc::strong_count(&tally));
    digits(answer)
}

// Broadcasts a job that counts, at the depth where a tree does so, and waits for it, if it is to.
fn cast_at<R: Waits<Errand>>(
    rt: &R,
    alloc: Global,
    w: &mut WorkerThread<Errand>,
    tally: &Arc<Tally>,
    waits: bool,
    depth: u64,
) -> Result<(), Trouble>
    requires levels { w.old.levels ≤ R.levels rt.now }
    ensures same { SameWorker w.old w.new }
{
    if depth != CASTING {
        return Ok(());
    }
    let job = Errand::new(depth, tally, Deed::Count)?;
    if waits {
        ask(rt, alloc, w, job)?;
    } else {
        cast(rt, alloc, w, job)?;
    }
    Ok(())
}

// Runs a tree of this depth, and answers how many jobs have no join of their own.
fn tree<R: Waits<Errand>>(
    rt: &R,
    alloc: Global,
    w: &mut WorkerThread<Errand>,
    tally: &Arc<Tally>,
    waits: bool,
    depth: u64,
) -> Result<u64, Trouble>
    requires levels { w.old.levels ≤ R.levels rt.now }
    ensures same { SameWorker w.old w.new }
{
    cast_at(rt, alloc, w, tally, waits, depth)?;
    let Some(below) = depth.checked_sub(1) else {
        return Ok(1);
    };
    let mut a = Errand::new(1, tally, Deed::Tree(below))?;
    let mut b = Errand::new(2, tally, Deed::Tree(below))?;
    a.waits = waits;
    b.waits = waits;
    match w.join_jobs(rt, alloc, a, b) {
        Ok((first, second)) => Ok(first.saturating_add(second)),
        Err(_) => Err(Trouble::Lost),
    }
}

// Broadcasts a job of one broadcast less by the piece of this index, where it is one of those that do so.
fn cast_again<R: Wait>(
    rt: &R,
    alloc: Global,
    w: &mut WorkerThread<Errand>,
    tally: &Arc<Tally>,
    index: usize,
    casters: usize,
    left: u64,
) -> Result<(), Trouble>
    ensures same { SameWorker w.old w.new }
{
    if index >= casters {
        return Ok(());
    }
    let Some(left) = left.checked_sub(1) else {
        return Ok(());
    };
    let job = Errand::new(left, tally, Deed::Again(casters, left))?;
    cast(rt, alloc, w, job)?;
    Ok(())
}

// Broadcasts a job that digs one less deep, and waits for it, where there is any depth left. Counts where that is too
// deep, which it has to be exactly where no level is left, with the very job back.
fn dig<R: Waits<Errand>>(
    rt: &R,
    alloc: Global,
    w: &mut WorkerThread<Errand>,
    tally: &Arc<Tally>,
    left: u64,
) -> Result<(), Trouble>
    requires levels { w.old.levels ≤ R.levels rt.now }
    ensures same { SameWorker w.old w.new }
{
    let Some(below) = left.checked_sub(1) else {
        return Ok(());
    };
    let job = Errand::new(below, tally, Deed::Dig(below))?;
    let is_bottom = w.levels() == 0;
    let is_refused = match w.broadcast(rt, alloc, job) {
        Ok(_outputs) => false,
        Err(error) => {
            if !is_too_deep(error, below) {
                return Err(Trouble::Lost);
            }
            tally.count_too_deep();
            true
        }
    };
    if is_refused == is_bottom {
        Ok(())
    } else {
        Err(Trouble::Lost)
    }
}

// Whether a broadcast was too deep, and hands back a job that digs so deep.
fn is_too_deep(error: CallError<Trouble, Errand>, below: u64) -> bool {
    match error {
        CallError::Refused(refusal, job) => refusal == Refusal::TooDeep && job.digs(below),
        CallError::Fault(_fault) => false,
        CallError::Foreign | CallError::Missing => false,
    }
}

// The piece of this index of a job of which that of index 0 ends last: it broadcasts a job of which the others' pieces
// come to this gate, and comes there too.
fn end_last<R: Wait>(
    rt: &R,
    alloc: Global,
    w: &mut WorkerThread<Errand>,
    tally: &Arc<Tally>,
    gate: &Arc<Barrier>,
    index: usize,
) -> Result<(), Trouble>
    ensures same { SameWorker w.old w.new }
{
    if index != 0 {
        return Ok(());
    }
    let Ok(theirs) = Arc::try_clone(gate) else {
        return Err(Trouble::Lost);
    };
    let job = Errand::new(0, tally, Deed::Others(theirs))?;
    cast(rt, alloc, w, job)?;
    gate.wait(rt);
    Ok(())
}

// Spawns so many jobs that count themselves.
fn spawn_marks<R: Wait>(
    rt: &R,
    alloc: Global,
    w: &mut WorkerThread<Errand>,
    tally: &Arc<Tally>,
    times: u64,
) -> Result<(), Trouble>
    ensures same { SameWorker w.old w.new }
{
    for name in 0..times {
        spawn_mark(rt, alloc, w, tally, name)?;
    }
    Ok(())
}

// Spawns a job of this name that counts itself.
fn spawn_mark<R: Wait>(
    rt: &R,
    alloc: Global,
    w: &mut WorkerThread<Errand>,
    tally: &Arc<Tally>,
    name: u64,
) -> Result<(), Trouble>
    ensures same { SameWorker w.old w.new }
{
    let job = Errand::new(name, tally, Deed::Mark)?;
    match w.spawn(rt, alloc, job) {
        Ok(()) => Ok(()),
        Err(_refused) => Err(Trouble::Lost),
    }
}

// The run of a job that spawns so many: whether it waits, it broadcasts one that counts, and answers how many its
// worker has counted then.
fn spawn_and_ask<R: Waits<Errand>>(
    rt: &R,
    alloc: Global,
    w: &mut WorkerThread<Errand>,
    errand: &Errand,
    times: u64,
) -> Result<u64, Trouble>
    requires levels { w.old.levels ≤ R.levels rt.now }
    ensures same { SameWorker w.old w.new }
{
    spawn_marks(rt, alloc, w, &errand.tally, times)?;
    if !errand.waits {
        return Ok(errand.name);
    }
    let job = Errand::new(errand.name, &errand.tally, Deed::Count)?;
    ask(rt, alloc, w, job)?;
    let (fewest, _most, _wrong) = errand.tally.pieces();
    Ok(fewest)
}

// The run of a job that lets other threads run so often first.
fn nap<R: Waits<Errand>>(
    rt: &R,
    alloc: Global,
    w: &mut WorkerThread<Errand>,
    job: Errand,
    turns: u64,
) -> Result<u64, Trouble>
    requires levels { w.old.levels ≤ R.levels rt.now }
    ensures same { SameWorker w.old w.new }
{
    pause(turns);
    if job.waits {
        ask(rt, alloc, w, job)
    } else {
        Ok(job.name)
    }
}

// What the piece of this index does, once it has counted itself.
fn do_piece<R: Waits<Errand>>(
    rt: &R,
    alloc: Global,
    w: &mut WorkerThread<Errand>,
    errand: &Errand,
    index: usize,
) -> Result<(), Trouble>
    requires levels { w.old.levels ≤ R.levels rt.now }
    ensures same { SameWorker w.old w.new }
{
    let tally = &errand.tally;
    match &errand.deed {
        Deed::Meet(gate) => come(rt, gate),
        Deed::Others(gate) if index != 0 => come(rt, gate),
        Deed::Twice => {
            pause(1_000);
            tally.count_piece(index, true);
            Ok(())
        }
        Deed::Last(gate, faults) => {
            end_last(rt, alloc, w, tally, gate, index)?;
            fault_if(*faults && index % 2 == 0, index)
        }
        Deed::Fault => fault_if(index % 2 == 0, index),
        Deed::FaultAt(at) => fault_if(index == *at, index),
        Deed::Again(casters, left) => cast_again(rt, alloc, w, tally, index, *casters, *left),
        Deed::Dig(left) => dig(rt, alloc, w, tally, *left),
        _ => Ok(()),
    }
}

// Waits at the gate until all others have come.
fn come<R: Wait>(rt: &R, gate: &Barrier) -> Result<(), Trouble> {
    gate.wait(rt);
    Ok(())
}

// The fault of the piece of this index, if that is so.
fn fault_if(is_so: bool, index: usize) -> Result<(), Trouble> {
    if is_so {
        Err(Trouble::Piece(index))
    } else {
        Ok(())
    }
}

impl Job for Errand {
    fn run<R: Waits<Self>>(
        self,
        rt: &R,
        alloc: Global,
        w: &mut WorkerThread<Self>,
        _ctx: &mut FnContext<Self>,
    ) -> Result<u64, Trouble> {
        match self.deed {
            Deed::Tree(depth) => tree(rt, alloc, w, &self.tally, self.waits, depth),
            Deed::Spawn(times) => spawn_and_ask(rt, alloc, w, &self, times),
            Deed::Mark => {
                self.tally.count_piece(w.index(), true);
                Ok(self.name)
            }
            Deed::Dig(left) => {
                dig(rt, alloc, w, &self.tally, left)?;
                Ok(self.name)
            }
            Deed::Nap(turns) => nap(rt, alloc, w, self, turns),
            _ if self.waits => ask(rt, alloc, w, self),
            _ => {
                pause(1_000);
                cast(rt, alloc, w, self)
            }
        }
    }

    fn run_on<R: Waits<Self>>(
        &self,
        rt: &R,
        alloc: Global,
        w: &mut WorkerThread<Self>,
        ctx: &mut BroadcastContext<Self>,
    ) -> Result<u64, Trouble> {
        let (index, workers) = (ctx.index(), ctx.num_threads());
        let is_here = index == w.index() && workers == w.current_num_threads();
        let is_right = is_here && ctx.scope().is_none();
        self.tally.count_piece(index, is_right);
        do_piece(rt, alloc, w, self, index)?;
        self.name.checked_add(index as u64).ok_or(Trouble::Lost)
    }
}

/// What a broadcast gave that was waited for: the last digits of the outputs in one number, by index.
pub fn digits(answer: Result<Vec<u64>, CallError<Trouble, Errand>>) -> Result<u64, Trouble> {
    match answer {
        Ok(outputs) => {
            let mut digits = 0u64;
            for output in outputs {
                digits = digits.saturating_mul(10).saturating_add(output % 10);
            }
            Ok(digits)
        }
        Err(CallError::Fault(trouble)) => Err(trouble),
        Err(_) => Err(Trouble::Lost),
    }
}

/// What the call that was made of one job gave.
pub fn outcome(answer: Result<u64, CallError<Trouble, Errand>>) -> Result<u64, Trouble> {
    match answer {
        Ok(answer) => Ok(answer),
        Err(CallError::Fault(trouble)) => Err(trouble),
        Err(_) => Err(Trouble::Lost),
    }
}
