//! What lies in the queues of a pool.
ghost use Rattle.rayon_tasks.specs.Pieces.{pieces_for};
ghost use Rattle.rayon_tasks.specs.Tasks.{HasJob, IsSingle, NoJob, OneJob, OnePiece, TwoSides, sides_with, taken_in};
ghost use Rattle.rayon_tasks.specs.Tickets.{kind_in, scope_call};
ghost use Rattle.rayon_tasks.specs.Works.{work_of};
ghost use Rattle.std.specs.Prelude.{◌≡◌, ◌↔◌, ◌<◌, ◌+◌, ◌^◌, ⊤, IsTrue, None, Some, true, false, IfOk, IfErr};

use crate::ticket::Ticket;
use crate::work::{Pair, Work};
use rayon_broadcasts::SharedJob;
use rayon_jobs::JobKind;
use rayon_machine_places::place::{JobKind as Kind, Party, Taken};
use rayon_words::Refusal;
use std::alloc::Global;
use std::marker::Model;

// What a task brings: its job and where its call was made, the job of which it is a piece, or no job.
#[derive(Drop)]
pub(crate) enum Load<J> {
    // of a call by a worker of the pool
    Inside(J),
    // of a call from outside the pool
    Injected(J),
    // of a broadcast: all its pieces share the job
    Piece(SharedJob<J>),
    // the first job of a worker's FIFO list is to run
    Token,
}

/// What a call queued: a second side, a job that was sent to the pool, two sides that were sent to the pool, a detached
/// job, a scope's job, a piece of a broadcast, or a token, which stands for the first job of a worker's FIFO list.
///
/// Users of the pool see this type alone of the crate, and to them it is opaque. Tasks are made and taken apart by
/// functions beside the type, not by its methods, so who has a task and not this crate can neither take its ticket out
/// nor make a task with it: no task answers for a call but the one that the call queued.
#[derive(Drop)]
pub struct Task<J: JobKind> {
    load: Load<J>,
    ticket: Ticket<J>,
    // of two sides, the first side's task: the job above is then the second one
    first: Option<Box<Task<J>, Global>>,
}

impl<J: JobKind> Model for Task<J> {
    ghost use Rattle.rayon_tasks.specs.Loads.{BringsJob, is_injected, work_with};
    ghost use Rattle.rayon_tasks.specs.Tasks.{IsSingle, TaskOf, sides_of};
    ghost use Rattle.std.specs.Prelude.{⊤, Some, None};

    ghost Value = { TaskOf J };

    ghost view = { λ t. record { work = elim t.first [ None ↦ work_with t.load None | Some b ↦ work_with t.load (Some b.value) ]; injected = is_injected t.load; ticket = t.ticket } };

    ghost invariant = { λ t. elim t.first [ None ↦ ⊤ | Some b ↦ IsSingle b.value.work × BringsJob t.load ] };

    ghost size = { λ t. sides_of t.work };

    ghost use Rattle.std.proofs.Common.{arith};

    ghost size_decreases = { λ a h. Prim.grind (arith) };
}

impl<J: JobKind> Task<J> {
    /// The name of the job.
    pub fn number(&self) -> u64
        ensures { result ≡ self.now.ticket.number }
    {
        self.ticket.number()
    }

    /// Who made the call.
    pub fn owner(&self) -> Party
        ensures { result ≡ self.now.ticket.owner }
    {
        self.ticket.owner()
    }

    /// What is seen of the task where it is taken: its name, and of a token which worker's FIFO list it stands for, and
    /// of which scope: with none, that of detached jobs.
    #[inline(always)]
    pub fn taken(&self) -> Taken
        ensures { result ≡ taken_in self.now }
    {
        let number = self.number();
        match &self.load {
            Load::Token => Taken::Token {
                number,
                worker: self.ticket.slot() as usize,
                scope: self.ticket.scope_call(),
            },
            Load::Inside(_) | Load::Injected(_) | Load::Piece(_) => Taken::Plain(number),
        }
    }

    /// Whether it brings a job or a piece of one, and so is no token.
    #[inline(always)]
    pub fn has_job(&self) -> bool
        ensures { IsTrue result ↔ HasJob self.now.work }
    {
        match &self.load {
            Load::Token => false,
            Load::Inside(_) | Load::Injected(_) | Load::Piece(_) => true,
        }
    }

    /// Whether it is of the scope of this call, or with none of no scope.
    pub fn is_of(&self, scope: Option<u64>) -> bool
        ensures { IsTrue result ↔ (scope_call self.now.ticket ≡ scope) }
    {
        self.ticket.scope_call() == scope
    }

    /// What the end of the run sets going: of a scope's job that its result is stored in the scope's book, of a piece
    /// of a broadcast that waits that its result is stored in the broadcast's, of a detached job that its unit of the
    /// terminate count is given back, else that its result is stored for the call that waits for it.
    #[inline(always)]
    pub fn kind(&self) -> Kind
        ensures { result ≡ kind_in self.now.ticket }
    {
        let owner = self.owner();
        if let Some(scope) = self.ticket.scope() {
            return Kind::Scoped {
                call: scope.call(),
                owner,
            };
        }
        if let Some(core) = self.ticket.broadcast() {
            return Kind::PieceOf {
                call: core.call(),
                owner,
            };
        }
        if self.ticket.is_detached() {
            return Kind::Detached(0);
        }
        Kind::Stored {
            call: self.number(),
            owner,
        }
    }

    /// Whether the call was made outside the pool. It is false of a token, and of a piece of a broadcast.
    pub fn injected(&self) -> bool
        ensures { result ≡ self.now.injected }
    {
        match &self.load {
            Load::Injected(_) => true,
            Load::Inside(_) | Load::Piece(_) | Load::Token => false,
        }
    }

    /// Whether there is one job to run, which is the task's alone.
    pub fn is_single(&self) -> bool
        ensures { IsTrue result ↔ IsSingle self.now.work }
    {
        match (&self.load, &self.first) {
            (Load::Inside(_) | Load::Injected(_), None) => true,
            _ => false,
        }
    }
}

/// The task of one job, whose result goes to the cell of this ticket.
#[inline(always)]
pub fn task_of_job<J: JobKind>(job: J, injected: bool, ticket: Ticket<J>) -> Task<J>
    ensures { result ≡ record { work = OneJob job; injected = injected; ticket = ticket } }
{
    let load = if injected {
        Load::Injected(job)
    } else {
        Load::Inside(job)
    };
    Task {
        load,
        ticket,
        first: None,
    }
}

/// The piece of a broadcast of this job that has this ticket.
pub fn task_of_piece<J: JobKind>(job: SharedJob<J>, ticket: Ticket<J>) -> Task<J>
    ensures { result ≡ record { work = OnePiece; injected = false; ticket = ticket } }
{
    Task {
        load: Load::Piece(job),
        ticket,
        first: None,
    }
}

/// The pieces of a broadcast of this job to so many workers, by the workers' indices: each has a share of this ticket,
/// under a name of its own, of which the first is `first` and each further one is one more. Refused `NoRoom`.
pub fn pieces_of<J: JobKind>(
    alloc: Global,
    job: &SharedJob<J>,
    ticket: &Ticket<J>,
    first: u64,
    workers: usize,
) -> Result<Vec<Task<J>>, Refusal>
    requires { first + workers < 2 ^ 64 }
    ensures made { IfOk result (λ pieces. pieces.items ≡ pieces_for ticket.now first workers) }
    ensures refused { IfErr result (λ r. r ≡ Refusal.NoRoom) }
{
    let Ok(mut pieces) = Vec::with_capacity(alloc, workers) else {
        return Err(Refusal::NoRoom);
    };
    for index in 0..workers {
        let share = ticket.share()?;
        let name = first + index as u64;
        pieces.push_reserved(task_of_piece(job.share()?, share.renamed(name)));
    }
    Ok(pieces)
}

/// The token of this ticket, which stands for the first job of a FIFO list: that of the worker whose index the ticket
/// has in the place of a number, of the jobs of the ticket's scope, or where it has none of detached jobs. Nobody waits
/// for a token.
pub fn token_of<J: JobKind>(ticket: Ticket<J>) -> Task<J>
    ensures { result ≡ record { work = NoJob; injected = false; ticket = ticket } }
{
    Task {
        load: Load::Token,
        ticket,
        first: None,
    }
}

/// The task of two sides that an outside caller joins: the first side's result goes to the cell of `first_result`, the
/// second's to that of `ticket`. Where memory is refused it gives the sides back, and lets the tickets go.
pub fn task_of_pair<J: JobKind>(
    alloc: Global,
    first: J,
    second: J,
    first_result: Ticket<J>,
    ticket: Ticket<J>,
) -> Result<Task<J>, (J, J)>
    ensures made { IfOk result (λ t. t ≡ record { work = TwoSides first second first_result; injected = true; ticket = ticket }) }
    ensures back { IfErr result (λ sides. sides ≡ (first, second)) }
{
    let first = task_of_job(first, true, first_result);
    match Box::new(alloc, first) {
        Ok(first) => Ok(Task {
            load: Load::Injected(second),
            ticket,
            first: Some(first),
        }),
        Err(refused) => {
            let (first, _, _) = single_parts(refused.value);
            Err((first, second))
        }
    }
}

/// The job of a task that has one alone, whether the call was made outside the pool, and the call's ticket.
#[inline(always)]
pub fn single_parts<J: JobKind>(task: Task<J>) -> (J, bool, Ticket<J>)
    requires { IsSingle task.work }
    ensures work { OneJob result.0 ≡ task.work }
    ensures injected { result.1 ≡ task.injected }
    ensures ticket { result.2 ≡ task.ticket }
{
    let Task {
        load,
        ticket,
        first,
    } = task;
    match (load, first) {
        (Load::Inside(job), None) => (job, false, ticket),
        (Load::Injected(job), None) => (job, true, ticket),
        _ => unreachable!(),
    }
}

/// What there is to run, whether the call was made outside the pool, and the call's ticket.
#[inline(always)]
pub fn task_parts<J: JobKind>(task: Task<J>) -> (Work<J>, bool, Ticket<J>)
    ensures work { work_of result.0 ≡ task.work }
    ensures injected { result.1 ≡ task.injected }
    ensures ticket { result.2 ≡ task.ticket }
{
    let Task {
        load,
        ticket,
        first,
    } = task;
    match load {
        Load::Inside(job) => (work_beside(job, first), false, ticket),
        Load::Injected(job) => (work_beside(job, first), true, ticket),
        Load::Piece(job) => (Work::Piece(job), false, ticket),
        Load::Token => (Work::Token, false, ticket),
    }
}

// What there is to run of this job, and of the first side's task if it is one of two sides.
#[inline(always)]
fn work_beside<J: JobKind>(job: J, first: Option<Box<Task<J>, Global>>) -> Work<J>
    requires { elim first [ None ↦ ⊤ | Some b ↦ IsSingle b.value.work ] }
    ensures { work_of result ≡ elim first [ None ↦ OneJob job | Some b ↦ sides_with job b.value ] }
{
    match first {
        None => Work::Job(job),
        Some(first) => {
            let (first, _, first_result) = single_parts(Box::into_inner(first));
            Work::Pair(Pair {
                first,
                second: job,
                first_result,
            })
        }
    }
}
