//! The job of the command broadcast.
ghost use Rattle.rcore_commands.specs.Squares.{AnswersSquare};
ghost use Rattle.std.proofs.Common.{rules};
ghost use Rattle.std.specs.Prelude.{◌≡◌, ℕ};

use rayon_core::{BroadcastContext, FnContext, Job, JobKind, NoHandler, Waits, WorkerThread};
use std::alloc::Global;
use thiserror::Error;

/// The job of squaring the index of the worker that runs it. It is its own tag.
#[derive(Clone, Copy, Debug, PartialEq, Eq)]
pub struct Squares;

/// Why there is no square.
#[derive(Debug, Drop, Error)]
pub enum SquareFault {
    /// The square is above 2^32 - 1.
    #[error("TooLarge")]
    TooLarge,
}

impl JobKind for Squares {
    type Tag = Squares;

    type Output = u32;

    type Fault = SquareFault;

    type Handler = NoHandler;

    ghost answers = { λ t r. (i : ℕ) × AnswersSquare i r };

    ghost answers_on = { λ plain t i n r. AnswersSquare i r };

    ghost tag_of = { λ j. j };

    ghost same_answers = { λ t u e. Prim.search rules };

    fn tag(&self) -> Squares {
        *self
    }
}

impl Job for Squares {
    fn run<R: Waits<Self>>(
        self,
        _rt: &R,
        _alloc: Global,
        w: &mut WorkerThread<Self>,
        _ctx: &mut FnContext<Self>,
    ) -> Result<u32, SquareFault> {
        square(w.index())
    }

    fn run_on<R: Waits<Self>>(
        &self,
        _rt: &R,
        _alloc: Global,
        _w: &mut WorkerThread<Self>,
        ctx: &mut BroadcastContext<Self>,
    ) -> Result<u32, SquareFault> {
        square(ctx.index())
    }
}

// The square of an index. It is too large of no worker's index, since a pool has at most 65,535 workers.
fn square(index: usize) -> Result<u32, SquareFault>
    ensures { AnswersSquare index result }
{
    let index = u32::try_from(index).map_err(|_| SquareFault::TooLarge)?;
    index.checked_mul(index).ok_or(SquareFault::TooLarge)
}
