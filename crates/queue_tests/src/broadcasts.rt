//! Tests of what broadcasts are made of: the lists of their pieces by worker, and the book of what these answered. The
//! function with a clause shows what a caller may conclude from the calls' contracts.
ghost use Rattle.std.proofs.Common.{rules};
ghost use Rattle.std.specs.Prelude.{◌≡◌, ◌+◌, ℕ, slice_get, IfOk, IfSome, Some};

use rayon_books::ScopeBook;
use rayon_broadcasts::{
    BroadcastLists, BroadcastQueue, NoAnswers, SharedJob, Unpushed, outputs_of,
};
use rayon_jobs::{Done, JobKind, NoHandler};
use rayon_tasks::{CallCore, Ticket};
use rayon_words::Refusal;
use std::alloc::Global;
use std::sync::{Arc, Wait};
use std::test::*;
use std::thread;
use std::thread::Threads;

// A job whose piece of index i answers its number and i. Its fault may be any number.
#[derive(Drop)]
struct Share(u64);

impl JobKind for Share {
    type Tag = u64;

    type Output = u64;

    type Fault = u64;

    type Handler = NoHandler;

    ghost answers = { λ t r. Unit {0} };

    ghost answers_on = { λ plain t i n r. IfOk r (λ o. o ≡ t + i) };

    ghost tag_of = { λ j. j.0 };

    ghost same_answers = { λ t u e. Prim.search rules };

    fn tag(&self) -> u64 {
        self.0
    }
}

// Pushes the pieces, which share a place of their own, and tells whether they are in the lists.
fn push(lists: &mut BroadcastLists<u64>, pieces: Vec<u64>, alloc: Global) -> bool {
    match SharedJob::new(alloc) {
        Ok(place) => lists.push_each(pieces, &place, Share(0)).is_ok(),
        Err(_) => false,
    }
}

// Puts the job into this place, as the push of a piece does. Whether it stands there now.
fn fill(alloc: Global, place: &SharedJob<Share>, job: Share) -> bool {
    let Ok(mut lists) = BroadcastLists::new(alloc, 1) else {
        return false;
    };
    match Vec::from_slice(alloc, &[0]) {
        Ok(pieces) => lists.push_each(pieces, place, job).is_ok(),
        Err(_) => false,
    }
}

// What a whole run of the job with this number answers.
fn whole(number: u64) -> Done<Share> {
    Done::of_run(number, Ok(number))
}

// What the piece of this index, of so many, of the job with this number answers.
fn piece(number: u64, index: usize, workers: usize) -> Done<Share> {
    let answer = number.checked_add(index as u64).ok_or(0);
    Done::of_piece(number, index, workers, answer)
}

// What such a piece answers that has a fault.
fn failed(number: u64, index: usize, workers: usize, fault: u64) -> Done<Share> {
    Done::of_piece(number, index, workers, Err(fault))
}

// Runs the piece of this index, of so many: it answers by the job that was put in. Whether it was the last to end.
fn run_piece<R: Wait>(
    rt: &R,
    core: &CallCore<Share>,
    job: &SharedJob<Share>,
    index: usize,
    workers: usize,
) -> Option<bool> {
    let number = job.job()?.tag();
    let mut book = core.book().hold(rt);
    let unstored = book.store_piece(index, piece(number, index, workers));
    let left = core.book().leave(rt, book);
    let mut seat = core.count().guest_seat();
    let was_last = core.count().set(rt, &mut seat);
    (unstored.is_none() && left.is_ok()).then_some(was_last)
}

// Runs the pieces of a broadcast to so many workers, each on a thread of its own. Answers how many were the last to
// end, where none failed.
fn run_on_threads<R: Threads + Wait + Copy + Send + 'static>(
    rt: &R,
    alloc: Global,
    call: &Ticket<Share>,
    job: &SharedJob<Share>,
    workers: usize,
) -> Option<usize> {
    let mut threads = Vec::new(alloc);
    for index in 0..workers {
        let theirs = *rt;
        let ticket = call.share().ok()?;
        let their_job = job.share().ok()?;
        let run = move || {
            let core = ticket.broadcast()?;
            run_piece(&theirs, core, &their_job, index, workers)
        };
        threads.push(thread::spawn(rt, run).ok()?).ok()?;
    }
    let mut last = 0_usize;
    for thread in threads {
        last = last.saturating_add(usize::from(thread.join(rt)?));
    }
    Some(last)
}

// What the broadcast with this number gives to so many workers, by its book. `Missing` for want of memory.
fn answers(
    alloc: Global,
    book: &mut ScopeBook<Share>,
    number: u64,
    workers: usize,
) -> Result<Vec<u64>, NoAnswers<u64>>
    ensures { IfOk result (λ v. (i : ℕ) (o : _) → slice_get v.items i ≡ Some o → o ≡ number + i) }
{
    let Ok(ready) = Vec::with_capacity(alloc, workers) else {
        return Err(NoAnswers::Missing);
    };
    outputs_of(book.runs(), ready, &number, workers)
}

// The output of the piece of this index, where the broadcast with this number to so many workers has one.
fn share_of(
    alloc: Global,
    book: &mut ScopeBook<Share>,
    number: u64,
    workers: usize,
    index: usize,
) -> Option<u64>
    ensures { IfSome result (λ o. o ≡ number + index) }
{
    let outputs = answers(alloc, book, number, workers).ok()?;
    let output = outputs.get(index)?;
    Some(*output)
}

#[test]
fn pieces_are_taken_by_worker_the_oldest_first(rt: HostRuntime) -> Result<(), Fail> {
    let mut lists = BroadcastLists::new(rt.alloc(), 3)?;
    assert_eq!(rt; lists.workers(), 3);
    assert!(rt; lists.is_empty(1));
    for broadcast in [10, 20] {
        let pieces = Vec::from_slice(rt.alloc(), &[broadcast, broadcast + 1, broadcast + 2])?;
        assert!(rt; push(&mut lists, pieces, rt.alloc()));
    }
    assert_eq!(rt; lists.take_oldest(1), Some(11));
    assert_eq!(rt; lists.take_oldest(0), Some(10));
    assert_eq!(rt; lists.take_oldest(0), Some(20));
    assert_eq!(rt; lists.take_oldest(0), None);
    assert!(rt; lists.is_empty(0));
    assert!(rt; !lists.is_empty(1));
    assert_eq!(rt; lists.take_oldest(2), Some(12));
    let pieces = Vec::from_slice(rt.alloc(), &[30, 31, 32])?;
    assert!(rt; push(&mut lists, pieces, rt.alloc()));
    assert_eq!(rt; lists.take_oldest(0), Some(30));
    assert_eq!(rt; lists.take_oldest(1), Some(21));
    assert_eq!(rt; lists.take_oldest(1), Some(31));
    assert_eq!(rt; lists.take_oldest(2), Some(22));
    assert_eq!(rt; lists.take_oldest(2), Some(32));
    assert_eq!(rt; lists.take_oldest(3), None);
    assert!(rt; lists.is_empty(3));
    Ok(())
}

#[test]
fn pieces_of_a_wrong_number_come_back(rt: HostRuntime) -> Result<(), Fail> {
    for workers in 0..4usize {
        let mut lists = BroadcastLists::new(rt.alloc(), workers)?;
        for numbers in [[].as_slice(), [5].as_slice(), [5, 6, 7].as_slice()] {
            let pieces = Vec::from_slice(rt.alloc(), numbers)?;
            let place = SharedJob::new(rt.alloc())?;
            match lists.push_each(pieces, &place, Share(5)) {
                Ok(there) => {
                    assert_eq!(rt; numbers.len(), workers);
                    assert_eq!(rt; there.0, 5);
                    assert!(rt; matches!(place.job(), Some(Share(5))));
                }
                Err((Unpushed::WrongNumber(back), Share(5))) => {
                    assert!(rt; numbers.len() != workers);
                    assert_eq!(rt; back.as_slice(), numbers);
                    assert!(rt; place.job().is_none());
                }
                Err(_) => panic!(rt; "another refusal, or another job"),
            }
        }
        for worker in 0..workers {
            let pushed: Option<u64> = lists.take_oldest(worker);
            assert_eq!(rt; pushed.is_some(), workers == 1 || workers == 3);
            assert!(rt; lists.is_empty(worker));
        }
    }
    Ok(())
}

#[test]
fn a_filled_place_refuses_its_pieces(rt: HostRuntime) -> Result<(), Fail> {
    let mut lists = BroadcastLists::new(rt.alloc(), 2)?;
    let place = SharedJob::new(rt.alloc())?;
    assert!(rt; fill(rt.alloc(), &place, Share(5)));
    let pieces = Vec::from_slice(rt.alloc(), &[10, 11])?;
    match lists.push_each(pieces, &place, Share(6)) {
        Err((Unpushed::Filled(back), Share(6))) => {
            assert_eq!(rt; back.as_slice(), [10, 11].as_slice());
        }
        _ => panic!(rt; "another answer"),
    }
    assert!(rt; matches!(place.job(), Some(Share(5))));
    assert!(rt; lists.is_empty(0) && lists.is_empty(1));
    Ok(())
}

#[test]
fn a_queue_gives_each_worker_its_pieces(rt: HostRuntime) -> Result<(), Fail> {
    let queue = BroadcastQueue::new(rt.alloc(), 2)?;
    assert!(rt; queue.is_empty(&rt, 0) && queue.is_empty(&rt, 2));
    assert_eq!(rt; queue.take_oldest(&rt, 0), None);
    for broadcast in [10, 20] {
        let pieces = Vec::from_slice(rt.alloc(), &[broadcast, broadcast + 1])?;
        let place = SharedJob::new(rt.alloc())?;
        assert!(rt; queue.push_each(&rt, pieces, &place, Share(5)).is_ok());
        assert!(rt; matches!(place.job(), Some(Share(5))));
    }
    assert!(rt; !queue.is_empty(&rt, 0) && !queue.is_empty(&rt, 1) && queue.is_empty(&rt, 2));
    assert_eq!(rt; queue.take_oldest(&rt, 1), Some(11));
    assert_eq!(rt; queue.take_oldest(&rt, 1), Some(21));
    assert_eq!(rt; queue.take_oldest(&rt, 1), None);
    assert!(rt; queue.is_empty(&rt, 1) && !queue.is_empty(&rt, 0));
    assert_eq!(rt; queue.take_oldest(&rt, 2), None);
    let pieces = Vec::from_slice(rt.alloc(), &[30])?;
    let place = SharedJob::new(rt.alloc())?;
    match queue.push_each(&rt, pieces, &place, Share(6)) {
        Err((Unpushed::WrongNumber(back), Share(6))) => {
            assert_eq!(rt; back.as_slice(), [30].as_slice());
        }
        _ => panic!(rt; "another answer"),
    }
    assert_eq!(rt; queue.take_oldest(&rt, 0), Some(10));
    assert_eq!(rt; queue.take_oldest(&rt, 0), Some(20));
    assert!(rt; queue.is_empty(&rt, 0) && queue.is_empty(&rt, 1));
    Ok(())
}

// Takes so many pieces of this worker as they come, and tells whether they were its own, the oldest first, and all.
fn take_all<R: Wait>(rt: &R, queue: &BroadcastQueue<u64>, worker: usize, number: u64) -> bool {
    let mut taken = 0_u64;
    for _ in rt.forever() {
        if taken == number {
            return queue.is_empty(rt, worker);
        }
        match queue.take_oldest(rt, worker) {
            Some(piece) if piece != taken.saturating_mul(10).saturating_add(worker as u64) => {
                return false;
            }
            Some(_) => taken = taken.saturating_add(1),
            None => thread::yield_now(),
        }
    }
    false
}

// Broadcasts so often to three workers, and tells whether each broadcast was pushed.
fn push_all<R: Wait>(rt: &R, alloc: Global, queue: &BroadcastQueue<u64>, number: u64) -> bool {
    for broadcast in 0..number {
        let first = broadcast.saturating_mul(10);
        let numbers = [first, first.saturating_add(1), first.saturating_add(2)];
        let (Ok(pieces), Ok(place)) = (Vec::from_slice(alloc, &numbers), SharedJob::new(alloc))
        else {
            return false;
        };
        if queue
            .push_each(rt, pieces, &place, Share(broadcast))
            .is_err()
        {
            return false;
        }
    }
    true
}

// Three threads take the pieces of a thousand broadcasts while these are pushed.
#[test]
fn workers_take_pieces_while_others_come(rt: HostRuntime) -> Result<(), Fail> {
    let queue = Arc::new(rt.alloc(), BroadcastQueue::new(rt.alloc(), 3)?)?;
    let mut threads = Vec::new(rt.alloc());
    for worker in 0..3 {
        let theirs = rt;
        let their_queue = Arc::try_clone(&queue)?;
        let take = move || take_all(&theirs, &their_queue, worker, 1000);
        threads.push(thread::spawn(&rt, take)?)?;
    }
    assert!(rt; push_all(&rt, rt.alloc(), &queue, 1000));
    for thread in threads {
        assert!(rt; thread.join(&rt));
    }
    Ok(())
}

#[test]
fn too_many_workers_are_refused(rt: HostRuntime) -> Result<(), Fail> {
    let lists: Result<BroadcastLists<u64>, Refusal> = BroadcastLists::new(rt.alloc(), usize::MAX);
    assert!(rt; matches!(lists, Err(Refusal::NoRoom)));
    let book: Result<ScopeBook<Share>, Refusal> = ScopeBook::of_pieces(rt.alloc(), usize::MAX);
    assert!(rt; matches!(book, Err(Refusal::NoRoom)));
    Ok(())
}

#[test]
fn a_place_takes_one_result(rt: HostRuntime) -> Result<(), Fail> {
    let mut book = ScopeBook::of_pieces(rt.alloc(), 2)?;
    assert!(rt; book.store_piece(1, whole(5)).is_none());
    assert!(rt; matches!(book.store_piece(1, whole(6)), Some(back) if *back.tag() == 6));
    assert!(rt; matches!(book.store_piece(2, whole(7)), Some(back) if *back.tag() == 7));
    assert!(rt;
        matches!(
            answers(rt.alloc(), &mut book, 5, 2),
            Err(NoAnswers::Missing)
        )
    );
    assert!(rt; matches!(book.store_piece(1, whole(8)), Some(back) if *back.tag() == 8));
    assert!(rt; matches!(answers(rt.alloc(), &mut book, 5, 0), Ok(outputs) if outputs.is_empty()));
    Ok(())
}

#[test]
fn outputs_stand_by_index_whenever_they_are_stored(rt: HostRuntime) -> Result<(), Fail> {
    for order in [
        [0, 1, 2],
        [0, 2, 1],
        [1, 0, 2],
        [1, 2, 0],
        [2, 0, 1],
        [2, 1, 0],
    ] {
        let mut book = ScopeBook::of_pieces(rt.alloc(), 3)?;
        for index in order {
            assert!(rt; book.store_piece(index, piece(5, index, 3)).is_none());
        }
        assert!(rt;
            matches!(
                answers(rt.alloc(), &mut book, 5, 3),
                Ok(outputs) if outputs.as_slice() == [5, 6, 7].as_slice()
            )
        );
    }
    Ok(())
}

#[test]
fn the_fault_of_the_lowest_index_is_answered(rt: HostRuntime) -> Result<(), Fail> {
    for order in [
        [1, 2, 3],
        [1, 3, 2],
        [2, 1, 3],
        [2, 3, 1],
        [3, 1, 2],
        [3, 2, 1],
    ] {
        let mut book = ScopeBook::of_pieces(rt.alloc(), 4)?;
        let mut back = 0_u64;
        for index in order {
            let unkept = book.store_piece(index, failed(5, index, 4, index as u64));
            back = back.saturating_add(u64::from(unkept.is_some()));
        }
        assert_eq!(rt; back, 2);
        assert!(rt; book.store_piece(0, piece(5, 0, 4)).is_none());
        assert!(rt;
            matches!(
                answers(rt.alloc(), &mut book, 5, 4),
                Err(NoAnswers::Fault(1))
            )
        );
    }
    Ok(())
}

#[test]
fn a_piece_of_another_place_or_broadcast_is_foreign(rt: HostRuntime) -> Result<(), Fail> {
    for other in [piece(5, 0, 2), piece(5, 1, 3), piece(6, 1, 2), whole(5)] {
        let mut book = ScopeBook::of_pieces(rt.alloc(), 2)?;
        assert!(rt; book.store_piece(0, piece(5, 0, 2)).is_none());
        assert!(rt; book.store_piece(1, other).is_none());
        assert!(rt;
            matches!(
                answers(rt.alloc(), &mut book, 5, 2),
                Err(NoAnswers::Foreign)
            )
        );
    }
    Ok(())
}

#[test]
fn the_first_place_without_an_output_decides(rt: HostRuntime) -> Result<(), Fail> {
    let mut first = ScopeBook::of_pieces(rt.alloc(), 2)?;
    assert!(rt; first.store_piece(0, whole(5)).is_none());
    assert!(rt;
        matches!(
            answers(rt.alloc(), &mut first, 5, 2),
            Err(NoAnswers::Foreign)
        )
    );
    let mut second = ScopeBook::of_pieces(rt.alloc(), 2)?;
    assert!(rt; second.store_piece(1, whole(5)).is_none());
    assert!(rt;
        matches!(
            answers(rt.alloc(), &mut second, 5, 2),
            Err(NoAnswers::Missing)
        )
    );
    let mut third = ScopeBook::of_pieces(rt.alloc(), 2)?;
    assert!(rt; third.store_piece(1, failed(5, 1, 2, 9)).is_none());
    assert!(rt;
        matches!(
            answers(rt.alloc(), &mut third, 5, 2),
            Err(NoAnswers::Missing)
        )
    );
    let mut fourth = ScopeBook::of_pieces(rt.alloc(), 2)?;
    assert!(rt; fourth.store_piece(0, failed(5, 1, 2, 9)).is_none());
    assert!(rt;
        matches!(
            answers(rt.alloc(), &mut fourth, 5, 2),
            Err(NoAnswers::Missing)
        )
    );
    let mut none = ScopeBook::of_pieces(rt.alloc(), 0)?;
    assert_eq!(rt; share_of(rt.alloc(), &mut none, 5, 0, 0), None);
    let mut one = ScopeBook::of_pieces(rt.alloc(), 1)?;
    assert!(rt; one.store_piece(0, piece(5, 0, 1)).is_none());
    assert_eq!(rt; share_of(rt.alloc(), &mut one, 5, 1, 0), Some(5));
    Ok(())
}

#[test]
fn runs_of_another_number_are_missing(rt: HostRuntime) -> Result<(), Fail> {
    for workers in [2, 4] {
        let mut book = ScopeBook::of_pieces(rt.alloc(), 3)?;
        for index in 0..3 {
            assert!(rt; book.store_piece(index, piece(5, index, workers)).is_none());
        }
        assert!(rt;
            matches!(
                answers(rt.alloc(), &mut book, 5, workers),
                Err(NoAnswers::Missing)
            )
        );
    }
    Ok(())
}

#[test]
fn runs_are_given_as_far_as_the_first_empty_place(rt: HostRuntime) -> Result<(), Fail> {
    let mut book = ScopeBook::of_pieces(rt.alloc(), 4)?;
    for index in [3, 1, 0] {
        assert!(rt; book.store_piece(index, piece(5, index, 4)).is_none());
    }
    let runs = book.runs();
    let places = (
        runs.get(0).and_then(|run| run.place()),
        runs.get(1).and_then(|run| run.place()),
    );
    assert_eq!(rt; (places, runs.len()), ((Some((0, 4)), Some((1, 4))), 2));
    assert!(rt; book.runs().is_empty());
    Ok(())
}

#[test]
fn a_shared_job_is_put_in_once(rt: HostRuntime) -> Result<(), Fail> {
    let job = SharedJob::new(rt.alloc())?;
    let share = job.share()?;
    assert!(rt; share.job().is_none());
    assert!(rt; fill(rt.alloc(), &job, Share(5)));
    assert!(rt; matches!(share.job(), Some(Share(5))));
    assert!(rt; !fill(rt.alloc(), &share, Share(6)));
    assert!(rt; matches!(job.job(), Some(Share(5))));
    drop(job);
    assert!(rt; matches!(share.job(), Some(Share(5))));
    let other: SharedJob<Share> = SharedJob::new(rt.alloc())?;
    assert!(rt; other.job().is_none());
    assert!(rt; matches!(share.wait(&rt), Share(5)));
    Ok(())
}

// Who waits for a job is lent it once another thread has put it in.
#[test]
fn a_shared_job_is_waited_for(rt: HostRuntime) -> Result<(), Fail> {
    let job = SharedJob::new(rt.alloc())?;
    let (theirs, share) = (rt, job.share()?);
    let waiter = thread::Builder::new()
        .spawn(&rt, move || matches!(share.wait(&theirs), Share(5)))
        .expect(&rt, "a thread");
    for _ in 0..1_000 {
        thread::yield_now();
    }
    assert!(rt; fill(rt.alloc(), &job, Share(5)));
    assert!(rt; waiter.join(&rt));
    Ok(())
}

#[test]
fn pieces_that_have_not_ended_are_counted(rt: HostRuntime) -> Result<(), Fail> {
    let call: Ticket<Share> = Ticket::of_callers_broadcast(rt.alloc(), 2, 7, 3)?;
    assert!(rt; call.scope().is_none());
    let core = call.broadcast().expect(&rt, "a broadcast");
    assert_eq!(rt; core.call(), 7);
    let mut seat = core.count().guest_seat();
    assert_eq!(rt; core.count().load(&mut seat), 3);
    let mut book = core.book().hold(&rt);
    assert!(rt; book.store_piece(2, piece(5, 2, 3)).is_none());
    assert!(rt; book.store_piece(3, piece(5, 3, 3)).is_some());
    assert!(rt; core.book().leave(&rt, book).is_ok());
    assert!(rt; !core.count().set(&rt, &mut seat));
    assert!(rt; !core.count().set(&rt, &mut seat));
    assert!(rt; core.count().set(&rt, &mut seat));
    let huge: Result<Ticket<Share>, Refusal> = Ticket::of_callers_broadcast(
        rt.alloc(),
        2,
        7,
        usize::MAX,
    );
    assert!(rt; matches!(huge, Err(Refusal::NoRoom)));
    Ok(())
}

#[test]
fn pieces_on_threads_share_a_job(rt: HostRuntime) -> Result<(), Fail> {
    for workers in [1, 2, 4, 16] {
        let call = Ticket::of_callers_broadcast(rt.alloc(), 2, 7, workers)?;
        let job = SharedJob::new(rt.alloc())?;
        assert!(rt; fill(rt.alloc(), &job, Share(5)));
        assert_eq!(rt;
            run_on_threads(&rt, rt.alloc(), &call, &job, workers),
            Some(1)
        );
        let core = call.broadcast().expect(&rt, "a broadcast");
        let mut book = core.book().hold(&rt);
        let outputs = answers(rt.alloc(), &mut book, 5, workers).ok();
        assert!(rt; core.book().leave(&rt, book).is_ok());
        let mut found = 0_u64;
        for output in outputs.into_iter().flatten() {
            assert_eq!(rt; output, found.saturating_add(5));
            found = found.saturating_add(1);
        }
        assert_eq!(rt; found, workers as u64);
    }
    Ok(())
}
