//! Tests of tickets and tasks: that the shares of a ticket have one latch and one cell between them, that a stored
//! result is taken once, and that tasks are made at all. What a task is made of stands in the contracts.
ghost use Rattle.std.proofs.Common.{rules};

use rayon_broadcasts::SharedJob;
use rayon_jobs::{Done, JobKind, NoHandler};
use rayon_machine_places::place::{Ending, Party};
use rayon_tasks::{
    Call, Ticket, Work, pieces_of, row_of_names, task_of_job, task_of_pair, task_parts,
};
use std::alloc::Global;
use std::sync::Wait;
use std::test::*;

// A job that is known by its number. Its runs may answer anything.
#[derive(Drop)]
struct Errand(u64);

impl JobKind for Errand {
    type Tag = u64;

    type Output = u64;

    type Fault = ();

    type Handler = NoHandler;

    ghost answers = { λ t r. Unit {0} };

    ghost tag_of = { λ j. j.0 };

    ghost same_answers = { λ t u e. Prim.search rules };

    fn tag(&self) -> u64 {
        self.0
    }
}

// The ticket of the job with this number, of a worker's call or of an outside caller's.
fn ticket(alloc: Global, worker: bool, number: u64) -> Result<Ticket<Errand>, Fail> {
    if worker {
        return Ok(Call::new(alloc, 0, 1, number)?.ticket);
    }
    Ok(Ticket::of_caller(alloc, 0, number)?)
}

// Takes the result from the cell: the tag, and the output where there is one.
fn taken<R: Wait>(rt: &R, ticket: &Ticket<Errand>) -> Option<(u64, Option<u64>)> {
    let done = ticket.take(rt)?;
    let tag = *done.tag();
    Some((tag, done.into_result().ok()))
}

#[test]
fn a_stored_result_is_taken_once(rt: HostRuntime) -> Result<(), Fail> {
    for worker in [true, false] {
        let ticket = ticket(rt.alloc(), worker, 7)?;
        let share = ticket.share()?;
        assert!(rt; taken(&rt, &ticket).is_none());
        share.store(&rt, Done::of_run(7, Ok(49)));
        assert!(rt; taken(&rt, &ticket) == Some((7, Some(49))));
        assert!(rt; taken(&rt, &share).is_none());
        let fault = Done::of_run(8, Err(()));
        assert!(rt; fault.ending() == Ending::Fault);
        ticket.store(&rt, fault);
        assert!(rt; taken(&rt, &share) == Some((8, None)));
    }
    Ok(())
}

#[test]
fn the_shares_of_a_ticket_have_one_latch(rt: HostRuntime) -> Result<(), Fail> {
    let of_worker = ticket(rt.alloc(), true, 1)?;
    let share = of_worker.share()?;
    if let (Some(latch), Some(same)) = (of_worker.core_latch(), share.core_latch()) {
        let mut seat = same.guest_seat();
        assert!(rt; !same.probe(&mut seat));
        assert!(rt; !latch.set_as_guest().0);
        assert!(rt; same.probe(&mut seat));
    }
    let of_caller = ticket(rt.alloc(), false, 2)?;
    let share = of_caller.share()?;
    if let (Some(latch), Some(same)) = (of_caller.lock_latch(), share.lock_latch()) {
        latch.set(&rt);
        same.wait_and_reset(&rt);
        latch.set(&rt);
        same.wait(&rt);
    }
    Ok(())
}

#[test]
fn a_task_leads_to_the_cell_of_its_call(rt: HostRuntime) -> Result<(), Fail> {
    let own = ticket(rt.alloc(), true, 3)?;
    let task = task_of_job(Errand(3), false, own.share()?);
    let (_, _, theirs) = task_parts(task);
    theirs.store(&rt, Done::of_run(3, Ok(9)));
    assert!(rt; taken(&rt, &own) == Some((3, Some(9))));
    Ok(())
}

#[test]
fn the_sides_of_a_pair_have_a_cell_each(rt: HostRuntime) -> Result<(), Fail> {
    let first = ticket(rt.alloc(), false, 4)?;
    let second = ticket(rt.alloc(), false, 5)?;
    let made = task_of_pair(
        rt.alloc(),
        Errand(4),
        Errand(5),
        first.share()?,
        second.share()?,
    );
    assert!(rt; made.is_ok());
    if let Ok(task) = made {
        let (work, _, ticket) = task_parts(task);
        if let Work::Pair(pair) = work {
            pair.first_result.store(&rt, Done::of_run(4, Ok(16)));
        }
        ticket.store(&rt, Done::of_run(5, Ok(25)));
    }
    assert!(rt; taken(&rt, &first) == Some((4, Some(16))));
    assert!(rt; taken(&rt, &second) == Some((5, Some(25))));
    Ok(())
}

#[test]
fn pieces_have_names_in_a_row_and_one_job(rt: HostRuntime) -> Result<(), Fail> {
    let ticket: Ticket<Errand> = Ticket::of_detached(rt.alloc(), Party::Caller(0), 3)?;
    let place = SharedJob::new(rt.alloc())?;
    let pieces = pieces_of(rt.alloc(), &place, &ticket, 100, 3)?;
    let mut names = 100..103;
    for piece in pieces {
        assert_eq!(rt; Some(piece.number()), names.next());
        assert!(rt; piece.has_job() && !piece.is_single() && !piece.injected());
        let (work, _, share) = task_parts(piece);
        assert!(rt; matches!(work, Work::Piece(_)));
        assert!(rt; share.is_detached() && share.is_alone());
    }
    assert_eq!(rt; names.next(), None);
    Ok(())
}

#[test]
fn rows_of_names_lie_above_all_names(rt: HostRuntime) -> Result<(), Fail> {
    let half = 1 << 63;
    assert_eq!(rt; row_of_names(3, 0), Some(half));
    assert_eq!(rt; row_of_names(3, 7), Some(half + 21));
    assert_eq!(rt; row_of_names(1, half - 2), Some(u64::MAX - 1));
    assert_eq!(rt; row_of_names(1, half - 1), None);
    assert_eq!(rt; row_of_names(65_535, half), None);
    Ok(())
}
