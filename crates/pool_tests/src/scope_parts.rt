//! What the jobs of the tests do with scopes on a worker value.
ghost use Rattle.rayon_core.specs.Worker.{SameWorker};
ghost use Rattle.std.specs.Prelude.{◌≡◌, ℕ, ◌≤◌};

use crate::errand::{Deed, Errand, Marks, Trouble, outcomes};
use crate::scope_rows;
use rayon_core::{
    CallError, Done, Ended, FnContext, ForkJoin, JobKind, Refusal, Scope, ScopeCalls, Waits,
    WorkerThread,
};
use std::alloc::Global;
use std::sync::atomic::{AtomicU64, Ordering};
use std::sync::{Arc, Wait};

/// The names of the jobs of a tree, each at the number that its spawn was answered, and whether they are spawned in
/// order.
#[derive(Drop)]
pub struct Names {
    names: Vec<AtomicU64>,
    in_order: bool,
}

impl Names {
    // No name yet, and room for so many.
    fn new(alloc: Global, count: u64, in_order: bool) -> Result<Arc<Names>, Trouble> {
        let mut names = Vec::new(alloc);
        for _ in 0..count {
            names
                .push(AtomicU64::new(0))
                .map_err(|_| Trouble::NoMemory)?;
        }
        Arc::new(alloc, Names { names, in_order }).map_err(|_| Trouble::NoMemory)
    }

    // The place of this number.
    fn at(&self, number: u64) -> Option<&AtomicU64> {
        let index = usize::try_from(number).ok()?;
        self.names.get(index)
    }
}

/// What a job does with scopes. The answer of one that opens a scope is a number: the digits of what the body answered,
/// and of the outputs in the order of their numbers.
#[derive(Drop)]
pub enum Part {
    /// Opens a scope whose body answers 5.
    Empty,
    /// Opens a scope, spawns a `SpawnFour` and a job that notes 6, and answers both numbers.
    NewestFirst,
    /// Notes 2, spawns a job that notes 4 into the own scope, and answers its number.
    SpawnFour,
    /// Opens a scope of so many jobs of a tree, spawned in order or not, and answers how many outputs stand where the
    /// spawn of their job was answered.
    Tree(u64, bool),
    /// The tree's job of this name: spawns those of twice the name, and one more, where there are such.
    Twig(u64, Arc<Names>),
    /// Opens a scope, spawns two jobs that end so, and ends so.
    Pair(Result<u64, u64>, Result<u64, u64>, Result<u64, u64>),
    /// Opens a scope and another in it, spawns a job that notes 2 into the inner one, and then into the outer one
    /// one that notes this or faults; notes 9 after the inner scope, and ends with its answer, or faults.
    Above(Result<u64, u64>, Result<(), u64>),
    /// Opens a scope, spawns a job that answers 4, and opens a scope whose job faults with 3. Passes that on, or else
    /// answers 8.
    Nested(bool),
    /// Opens a scope, and spawns a `Pair` and a job that answers 4.
    Within,
    /// Opens a scope whose body notes 1 and answers 5. Where that is refused notes 7, and tries that body once more.
    Retried,
    /// Answers 1 where the job has a scope, and else 0.
    HasScope,
    /// Opens a scope, and spawns a `Sides`.
    SidesWithin,
    /// Answers the digits of whether there is a scope: for the job, for both sides of a join of jobs, and for both of a
    /// join with a closure.
    Sides,
    /// Opens a scope whose body answers 9, and spawns four jobs that note 1, 2, 3 and 4, each in order where this says
    /// so.
    Row([bool; 4]),
    /// Opens a scope and another in it, and spawns in turn the jobs that note 1 to 4 into the outer one, in order where
    /// the first says so, and those that note 5 to 7 into the inner one, in order where the second does: 1 before the
    /// inner scope, 5, 2, 6, 3 and 7 in its body, which answers 9, and 4 after it.
    Alternate(bool, bool),
    /// Opens a scope, spawns jobs that note 3 and 4, and takes both out of the own deque and pushes them into the own
    /// FIFO list, the older one first. Then spawns one that notes 5 in order, and takes and pushes its token so.
    /// Answers how many tasks were pushed.
    ListedByHand,
}

/// Does what is done with scopes.
pub fn run<R: Waits<Errand>>(
    rt: &R,
    alloc: Global,
    w: &mut WorkerThread<Errand>,
    ctx: &mut FnContext<Errand>,
    marks: &Arc<Marks>,
    part: Part,
) -> Result<u64, Trouble>
    requires { w.old.levels ≤ R.levels rt.now }
    ensures same { SameWorker w.old w.new }
{
    match part {
        Part::Empty => ended(w.in_place_scope(rt, alloc, |_w, _scope| Ok(5))),
        Part::NewestFirst => newest_first(rt, alloc, w, marks),
        Part::SpawnFour => {
            marks.note(2);
            spawn_own(rt, w, ctx, marks, Deed::Note(4))
        }
        Part::Tree(count, in_order) => tree(rt, alloc, w, marks, count, in_order),
        Part::Twig(name, names) => {
            let twice = name.saturating_mul(2);
            let plus_one = twice.saturating_add(1);
            grow(rt, w, ctx, marks, twice, &names)?;
            grow(rt, w, ctx, marks, plus_one, &names)?;
            Ok(name)
        }
        Part::Pair(first, second, ending) => pair(rt, alloc, w, marks, first, second, ending),
        Part::Above(job, ending) => above(rt, alloc, w, marks, job, ending),
        Part::Nested(passes) => nested(rt, alloc, w, marks, passes),
        Part::Within => within(rt, alloc, w, marks),
        Part::Retried => retried(rt, alloc, w, marks),
        Part::HasScope => Ok(u64::from(ctx.scope().is_some())),
        Part::SidesWithin => sides_within(rt, alloc, w, marks),
        Part::Sides => sides(rt, alloc, w, ctx, marks),
        Part::Row(in_order) => scope_rows::row(rt, alloc, w, marks, in_order),
        Part::Alternate(outer, inner) => scope_rows::alternate(rt, alloc, w, marks, outer, inner),
        Part::ListedByHand => scope_rows::listed_by_hand(rt, alloc, w, marks),
    }
}

// Spawns a job that does this into a scope, and answers its number.
fn spawn<R: Wait>(
    rt: &R,
    w: &mut WorkerThread<Errand>,
    scope: &mut Scope<Errand>,
    marks: &Arc<Marks>,
    deed: Deed,
) -> Result<u64, Trouble>
    ensures same { SameWorker w.old w.new }
{
    spawn_by(rt, w, scope, marks, deed, false)
}

/// Spawns a job that does this into a scope, in order or not, and answers its number.
pub fn spawn_by<R: Wait>(
    rt: &R,
    w: &mut WorkerThread<Errand>,
    scope: &mut Scope<Errand>,
    marks: &Arc<Marks>,
    deed: Deed,
    in_order: bool,
) -> Result<u64, Trouble>
    ensures same { SameWorker w.old w.new }
{
    let job = Errand::new(1, marks, deed)?;
    let spawned = if in_order {
        scope.spawn_fifo(rt, w, job)
    } else {
        scope.spawn(rt, w, job)
    };
    match spawned {
        Ok(number) => Ok(number),
        Err((refusal, job)) => Err(Trouble::Refused(refusal, job.tag())),
    }
}

// The same, into the scope of the job that runs.
fn spawn_own<R: Wait>(
    rt: &R,
    w: &mut WorkerThread<Errand>,
    ctx: &mut FnContext<Errand>,
    marks: &Arc<Marks>,
    deed: Deed,
) -> Result<u64, Trouble>
    ensures same { SameWorker w.old w.new }
{
    match ctx.scope() {
        Some(scope) => spawn(rt, w, scope, marks, deed),
        None => Err(Trouble::Unlike),
    }
}

/// The digits of what a scope gave.
pub fn ended<B: Drop>(
    answer: Result<Ended<u64, Vec<Done<Errand>>>, CallError<Trouble, B>>,
) -> Result<u64, Trouble> {
    let ended = match answer {
        Ok(ended) => ended,
        Err(CallError::Fault(trouble)) => return Err(trouble),
        Err(CallError::Refused(refusal, _)) => return Err(Trouble::Refused(refusal, 0)),
        Err(CallError::Foreign | CallError::Missing) => return Err(Trouble::Lost),
    };
    let mut digits = ended.value;
    for done in &ended.outputs {
        let output = done.output().ok_or(Trouble::Unlike)?;
        digits = digits.saturating_mul(10).saturating_add(*output);
    }
    Ok(digits)
}

fn newest_first<R: Waits<Errand>>(
    rt: &R,
    alloc: Global,
    w: &mut WorkerThread<Errand>,
    marks: &Arc<Marks>,
) -> Result<u64, Trouble>
    requires { w.old.levels ≤ R.levels rt.now }
    ensures same { SameWorker w.old w.new }
{
    ended(w.scope(rt, alloc, |w, scope| {
        let first = spawn(rt, w, scope, marks, Deed::Scope(Part::SpawnFour))?;
        let second = spawn(rt, w, scope, marks, Deed::Note(6))?;
        Ok(first.saturating_mul(10).saturating_add(second))
    }))
}

fn pair<R: Waits<Errand>>(
    rt: &R,
    alloc: Global,
    w: &mut WorkerThread<Errand>,
    marks: &Arc<Marks>,
    first: Result<u64, u64>,
    second: Result<u64, u64>,
    ending: Result<u64, u64>,
) -> Result<u64, Trouble>
    requires { w.old.levels ≤ R.levels rt.now }
    ensures same { SameWorker w.old w.new }
{
    ended(w.scope(rt, alloc, |w, scope| {
        spawn(rt, w, scope, marks, Deed::End(first))?;
        spawn(rt, w, scope, marks, Deed::End(second))?;
        ending.map_err(Trouble::Number)
    }))
}

fn within<R: Waits<Errand>>(
    rt: &R,
    alloc: Global,
    w: &mut WorkerThread<Errand>,
    marks: &Arc<Marks>,
) -> Result<u64, Trouble>
    requires { w.old.levels ≤ R.levels rt.now }
    ensures same { SameWorker w.old w.new }
{
    ended(w.scope(rt, alloc, |w, scope| {
        let inner = Part::Pair(Ok(2), Ok(3), Ok(1));
        spawn(rt, w, scope, marks, Deed::Scope(inner))?;
        spawn(rt, w, scope, marks, Deed::End(Ok(4)))?;
        Ok(0)
    }))
}

fn above<R: Waits<Errand>>(
    rt: &R,
    alloc: Global,
    w: &mut WorkerThread<Errand>,
    marks: &Arc<Marks>,
    job: Result<u64, u64>,
    ending: Result<(), u64>,
) -> Result<u64, Trouble>
    requires { w.old.levels ≤ R.levels rt.now }
    ensures same { SameWorker w.old w.new }
{
    ended(w.scope(rt, alloc, |w, outer| {
        below(rt, alloc, w, outer, marks, job, ending)
    }))
}

// Opens a scope, and spawns a job that notes 2 into it, and then one into the outer one that notes this or faults.
// Notes 9 after that scope, and ends with its answer, or faults.
fn below<R: Waits<Errand>>(
    rt: &R,
    alloc: Global,
    w: &mut WorkerThread<Errand>,
    outer: &mut Scope<Errand>,
    marks: &Arc<Marks>,
    job: Result<u64, u64>,
    ending: Result<(), u64>,
) -> Result<u64, Trouble>
    requires { w.old.levels ≤ R.levels rt.now }
    ensures same { SameWorker w.old w.new }
{
    let deed = match job {
        Ok(digit) => Deed::Note(digit),
        Err(fault) => Deed::End(Err(fault)),
    };
    let inner = ended(w.scope(rt, alloc, |w, inner| {
        spawn(rt, w, inner, marks, Deed::Note(2))?;
        spawn(rt, w, outer, marks, deed)?;
        Ok(3)
    }))?;
    marks.note(9);
    ending.map_err(Trouble::Number)?;
    Ok(inner)
}

fn nested<R: Waits<Errand>>(
    rt: &R,
    alloc: Global,
    w: &mut WorkerThread<Errand>,
    marks: &Arc<Marks>,
    passes: bool,
) -> Result<u64, Trouble>
    requires { w.old.levels ≤ R.levels rt.now }
    ensures same { SameWorker w.old w.new }
{
    ended(w.scope(rt, alloc, |w, outer| {
        match faulty(rt, alloc, w, outer, marks) {
            Err(Trouble::Number(3)) if !passes => Ok(8),
            answer => answer,
        }
    }))
}

// Spawns a job that answers 4 into the outer scope, and opens a scope whose job faults with 3.
fn faulty<R: Waits<Errand>>(
    rt: &R,
    alloc: Global,
    w: &mut WorkerThread<Errand>,
    outer: &mut Scope<Errand>,
    marks: &Arc<Marks>,
) -> Result<u64, Trouble>
    requires { w.old.levels ≤ R.levels rt.now }
    ensures same { SameWorker w.old w.new }
{
    spawn(rt, w, outer, marks, Deed::End(Ok(4)))?;
    ended(w.scope(rt, alloc, |w, inner| {
        spawn(rt, w, inner, marks, Deed::End(Err(3)))
    }))
}

fn retried<R: Waits<Errand>>(
    rt: &R,
    alloc: Global,
    w: &mut WorkerThread<Errand>,
    marks: &Arc<Marks>,
) -> Result<u64, Trouble>
    requires { w.old.levels ≤ R.levels rt.now }
    ensures same { SameWorker w.old w.new }
{
    let answer = w.scope(rt, alloc, |_w, _scope| {
        marks.note(1);
        Ok(5)
    });
    match answer {
        Err(CallError::Refused(Refusal::TooDeep, body)) => {
            marks.note(7);
            ended(w.scope(rt, alloc, body))
        }
        answer => ended(answer),
    }
}

fn sides_within<R: Waits<Errand>>(
    rt: &R,
    alloc: Global,
    w: &mut WorkerThread<Errand>,
    marks: &Arc<Marks>,
) -> Result<u64, Trouble>
    requires { w.old.levels ≤ R.levels rt.now }
    ensures same { SameWorker w.old w.new }
{
    ended(w.scope(rt, alloc, |w, scope| {
        spawn(rt, w, scope, marks, Deed::Scope(Part::Sides))?;
        Ok(0)
    }))
}

fn sides<R: Waits<Errand>>(
    rt: &R,
    alloc: Global,
    w: &mut WorkerThread<Errand>,
    ctx: &mut FnContext<Errand>,
    marks: &Arc<Marks>,
) -> Result<u64, Trouble>
    requires { w.old.levels ≤ R.levels rt.now }
    ensures same { SameWorker w.old w.new }
{
    let own = u64::from(ctx.scope().is_some());
    let a = Errand::new(1, marks, Deed::Scope(Part::HasScope))?;
    let b = Errand::new(2, marks, Deed::Scope(Part::HasScope))?;
    let c = Errand::new(3, marks, Deed::Scope(Part::HasScope))?;
    let (first, second) = outcomes(w.join_jobs(rt, alloc, a, b))?;
    let both = w.join(rt, alloc, |_w, ctx| Ok(u64::from(ctx.scope().is_some())), c);
    let Ok((third, fourth)) = both else {
        return Err(Trouble::Lost);
    };
    let mut digits = own;
    for digit in [first, second, third, fourth] {
        digits = digits.saturating_mul(10).saturating_add(digit);
    }
    Ok(digits)
}

fn tree<R: Waits<Errand>>(
    rt: &R,
    alloc: Global,
    w: &mut WorkerThread<Errand>,
    marks: &Arc<Marks>,
    count: u64,
    in_order: bool,
) -> Result<u64, Trouble>
    requires { w.old.levels ≤ R.levels rt.now }
    ensures same { SameWorker w.old w.new }
{
    let names = Names::new(alloc, count, in_order)?;
    let answer = w.scope(rt, alloc, |w, scope| {
        plant(rt, w, scope, marks, 1, &names)
    });
    let Ok(ended) = answer else {
        return Err(Trouble::Lost);
    };
    let mut right = 0u64;
    for (number, done) in ended.outputs.iter().enumerate() {
        let name = names.at(number as u64).ok_or(Trouble::Unlike)?;
        if done.output() == Some(&name.load(Ordering::SeqCst)) {
            right = right.saturating_add(1);
        }
    }
    Ok(right)
}

// Spawns the tree's job of this name into a scope, and keeps the name at the number.
fn plant<R: Wait>(
    rt: &R,
    w: &mut WorkerThread<Errand>,
    scope: &mut Scope<Errand>,
    marks: &Arc<Marks>,
    name: u64,
    names: &Arc<Names>,
) -> Result<(), Trouble>
    ensures same { SameWorker w.old w.new }
{
    let share = Arc::try_clone(names).map_err(|_| Trouble::NoMemory)?;
    let twig = Deed::Scope(Part::Twig(name, share));
    let number = spawn_by(rt, w, scope, marks, twig, names.in_order)?;
    let place = names.at(number).ok_or(Trouble::Unlike)?;
    place.store(name, Ordering::SeqCst);
    Ok(())
}

// The same, into the scope of the job that runs, where the tree has a job of this name.
fn grow<R: Wait>(
    rt: &R,
    w: &mut WorkerThread<Errand>,
    ctx: &mut FnContext<Errand>,
    marks: &Arc<Marks>,
    name: u64,
    names: &Arc<Names>,
) -> Result<(), Trouble>
    ensures same { SameWorker w.old w.new }
{
    if name > names.names.len() as u64 {
        return Ok(());
    }
    match ctx.scope() {
        Some(scope) => plant(rt, w, scope, marks, name, names),
        None => Err(Trouble::Unlike),
    }
}
