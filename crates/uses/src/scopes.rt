//! A scope on a worker value: three jobs are spawned into it, and each output is read at its job's number.
ghost use Rattle.rayon_core.specs.Worker.{SameWorker};
ghost use Rattle.std.specs.Prelude.{◌≡◌, ℕ, ◌+◌, ◌≤◌, IfOk};

use crate::closure::{Ask, AskFault};
use rayon_core::{CallError, Done, Ended, Receipt, Scope, ScopeCalls, Waits, WorkerThread};
use std::alloc::Global;

/// Twice each of three numbers. Each is found by a job of one scope.
pub fn doubles<R: Waits<Ask>>(
    rt: &R,
    alloc: Global,
    w: &mut WorkerThread<Ask>,
    a: u32,
    b: u32,
    c: u32,
) -> Result<(u32, u32, u32), AskFault>
    requires levels { w.old.levels ≤ R.levels rt.now }
    ensures doubles { IfOk result (λ r. (r.0 ≡ a + a) × (r.1 ≡ b + b) × (r.2 ≡ c + c)) }
    ensures same { SameWorker w.old w.new }
{
    let ended = w.scope(rt, alloc, |w, scope| spawn_doubles(rt, w, scope, a, b, c));
    let ended = ended.map_err(CallError::without_sides)?;
    let (first, second, third) = ended.value;
    Ok((
        double_at(&ended, first, a)?,
        double_at(&ended, second, b)?,
        double_at(&ended, third, c)?,
    ))
}

// Spawns a job for each of the numbers, and answers the jobs' numbers in the scope.
fn spawn_doubles<R: Waits<Ask>>(
    rt: &R,
    w: &mut WorkerThread<Ask>,
    scope: &mut Scope<Ask>,
    a: u32,
    b: u32,
    c: u32,
) -> Result<(u64, u64, u64), AskFault>
    ensures same { SameWorker w.old w.new }
{
    let first = scope.spawn(rt, w, Ask::Double(a))?;
    let second = scope.spawn(rt, w, Ask::Double(b))?;
    let third = scope.spawn(rt, w, Ask::Double(c))?;
    Ok((first, second, third))
}

// Twice a number, by the job of this number in the scope that has ended.
pub(crate) fn double_at<V>(
    ended: &Ended<V, Vec<Done<Ask>>>,
    number: u64,
    n: u32,
) -> Result<u32, AskFault>
    ensures { IfOk result (λ v. v ≡ n + n) }
{
    let receipt = Receipt {
        number,
        tag: Ask::Double(n),
        place: None,
    };
    ended.output(&receipt).copied().ok_or(AskFault::Lost)
}
