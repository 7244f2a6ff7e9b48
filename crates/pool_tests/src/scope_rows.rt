//! What the jobs of the tests do with spawns in order into scopes.
ghost use Rattle.rayon_core.specs.Worker.{SameWorker};
ghost use Rattle.std.specs.Prelude.{◌≡◌, ℕ, ◌≤◌};

use crate::errand::{Deed, Errand, Marks, Trouble};
use crate::hands::push_in_order;
use crate::scope_parts::{ended, spawn_by};
use rayon_core::{Scope, ScopeCalls, Waits, WorkerThread};
use std::alloc::Global;
use std::sync::{Arc, Wait};

/// Opens a scope, and spawns a job for each of these, in order where it says so.
pub fn row<R: Waits<Errand>>(
    rt: &R,
    alloc: Global,
    w: &mut WorkerThread<Errand>,
    marks: &Arc<Marks>,
    in_order: [bool; 4],
) -> Result<u64, Trouble>
    requires { w.old.levels ≤ R.levels rt.now }
    ensures same { SameWorker w.old w.new }
{
    ended(w.scope_fifo(rt, alloc, |w, scope| {
        spawn_row(rt, w, scope, marks, in_order)
    }))
}

// Spawns four jobs that note 1, 2, 3 and 4, each in order where this says so, and answers 9.
fn spawn_row<R: Wait>(
    rt: &R,
    w: &mut WorkerThread<Errand>,
    scope: &mut Scope<Errand>,
    marks: &Arc<Marks>,
    in_order: [bool; 4],
) -> Result<u64, Trouble>
    ensures same { SameWorker w.old w.new }
{
    let mut digit = 0u64;
    for is_in_order in in_order {
        digit = digit.saturating_add(1);
        spawn_by(rt, w, scope, marks, Deed::Note(digit), is_in_order)?;
    }
    Ok(9)
}

/// Opens a scope and another in it, and spawns jobs into both in turn, in order where these say so.
pub fn alternate<R: Waits<Errand>>(
    rt: &R,
    alloc: Global,
    w: &mut WorkerThread<Errand>,
    marks: &Arc<Marks>,
    outer: bool,
    inner: bool,
) -> Result<u64, Trouble>
    requires { w.old.levels ≤ R.levels rt.now }
    ensures same { SameWorker w.old w.new }
{
    ended(w.scope_fifo(rt, alloc, |w, scope| {
        around(rt, alloc, w, scope, marks, outer, inner)
    }))
}

// Spawns jobs into the outer scope before and after an inner one, and answers what that does.
fn around<R: Waits<Errand>>(
    rt: &R,
    alloc: Global,
    w: &mut WorkerThread<Errand>,
    scope: &mut Scope<Errand>,
    marks: &Arc<Marks>,
    outer: bool,
    inner: bool,
) -> Result<u64, Trouble>
    requires { w.old.levels ≤ R.levels rt.now }
    ensures same { SameWorker w.old w.new }
{
    spawn_by(rt, w, scope, marks, Deed::Note(1), outer)?;
    let answer = within(rt, alloc, w, scope, marks, outer, inner)?;
    spawn_by(rt, w, scope, marks, Deed::Note(4), outer)?;
    Ok(answer)
}

// Opens the inner scope.
fn within<R: Waits<Errand>>(
    rt: &R,
    alloc: Global,
    w: &mut WorkerThread<Errand>,
    scope: &mut Scope<Errand>,
    marks: &Arc<Marks>,
    outer: bool,
    inner: bool,
) -> Result<u64, Trouble>
    requires { w.old.levels ≤ R.levels rt.now }
    ensures same { SameWorker w.old w.new }
{
    ended(w.in_place_scope_fifo(rt, alloc, |w, own| {
        spawn_in_turn(rt, w, scope, own, marks, outer, inner)
    }))
}

// Spawns the jobs that note 5, 6 and 7 into the inner scope, and in turn those that note 2 and 3 into the outer one.
// Answers 9.
fn spawn_in_turn<R: Wait>(
    rt: &R,
    w: &mut WorkerThread<Errand>,
    outer: &mut Scope<Errand>,
    inner: &mut Scope<Errand>,
    marks: &Arc<Marks>,
    outer_in_order: bool,
    inner_in_order: bool,
) -> Result<u64, Trouble>
    ensures same { SameWorker w.old w.new }
{
    for digit in [5, 2, 6, 3, 7] {
        let deed = Deed::Note(digit);
        if digit > 4 {
            spawn_by(rt, w, inner, marks, deed, inner_in_order)?;
        } else {
            spawn_by(rt, w, outer, marks, deed, outer_in_order)?;
        }
    }
    Ok(9)
}

/// Opens a scope whose jobs are taken and pushed by hand.
pub fn listed_by_hand<R: Waits<Errand>>(
    rt: &R,
    alloc: Global,
    w: &mut WorkerThread<Errand>,
    marks: &Arc<Marks>,
) -> Result<u64, Trouble>
    requires { w.old.levels ≤ R.levels rt.now }
    ensures same { SameWorker w.old w.new }
{
    ended(w.scope(rt, alloc, |w, scope| {
        let jobs = list_jobs(rt, alloc, w, scope, marks)?;
        let token = push_token(rt, alloc, w, scope, marks)?;
        Ok(jobs.saturating_add(token))
    }))
}

// Spawns jobs that note 3 and 4 into a scope, takes both out of the own deque and pushes them into the own FIFO list,
// the older one first. Answers how many tasks there were.
fn list_jobs<R: Wait>(
    rt: &R,
    alloc: Global,
    w: &mut WorkerThread<Errand>,
    scope: &mut Scope<Errand>,
    marks: &Arc<Marks>,
) -> Result<u64, Trouble>
    ensures same { SameWorker w.old w.new }
{
    spawn_by(rt, w, scope, marks, Deed::Note(3), false)?;
    spawn_by(rt, w, scope, marks, Deed::Note(4), false)?;
    let newer = w.take_local_job(rt);
    let older = w.take_local_job(rt);
    let older = push_in_order(rt, alloc, w, older)?;
    let newer = push_in_order(rt, alloc, w, newer)?;
    Ok(newer.saturating_add(older))
}

// Spawns a job that notes 5 into a scope, in order, takes its token out of the own deque and pushes it as if into the
// own FIFO list. Answers how many tasks there were.
fn push_token<R: Wait>(
    rt: &R,
    alloc: Global,
    w: &mut WorkerThread<Errand>,
    scope: &mut Scope<Errand>,
    marks: &Arc<Marks>,
) -> Result<u64, Trouble>
    ensures same { SameWorker w.old w.new }
{
    spawn_by(rt, w, scope, marks, Deed::Note(5), true)?;
    let token = w.take_local_job(rt);
    push_in_order(rt, alloc, w, token)
}
