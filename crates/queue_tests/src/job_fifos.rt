//! Tests of the lists of jobs that tokens stand for: that jobs come out in the order in which they came in, of one list
//! and of one for each scope. The functions with clauses show what a caller may conclude from the calls' contracts.
ghost use Rattle.rayon_queues.specs.Lists.{SameLists};
ghost use Rattle.std.specs.Prelude.{◌≡◌, Some};

use rayon_queues::{JobFifo, JobFifos};
use std::test::*;

// A job is put into a list and taken back: the list is as before.
fn pushes_in_vain(jobs: &mut JobFifo<u64>, job: u64) -> Option<u64>
    ensures list { jobs.new ≡ jobs.old }
    ensures job { result ≡ Some job }
{
    match jobs.push(job) {
        Ok(()) => jobs.undo_last(),
        Err(job) => Some(job),
    }
}

#[test]
fn jobs_are_taken_in_order(rt: HostRuntime) -> Result<(), Fail> {
    let mut jobs = JobFifo::new(rt.alloc());
    for number in 0..3 {
        assert_eq!(rt; jobs.push(number), Ok(()));
    }
    assert_eq!(rt; pushes_in_vain(&mut jobs, 9), Some(9));
    assert!(rt; !jobs.is_empty());
    assert_eq!(rt; jobs.take_first(), Some(0));
    assert_eq!(rt; jobs.undo_last(), Some(2));
    assert_eq!(rt; jobs.take_first(), Some(1));
    assert_eq!(rt; jobs.take_first(), None);
    assert_eq!(rt; jobs.undo_last(), None);
    assert!(rt; jobs.is_empty());
    Ok(())
}

// A job is put into a scope's list and taken back: all lists are as before.
fn pushes_for_a_scope_in_vain(jobs: &mut JobFifos<u64>, scope: Option<u64>, job: u64) -> Option<u64>
    ensures lists { SameLists jobs.old jobs.new }
    ensures job { result ≡ Some job }
{
    match jobs.push(scope, job) {
        Ok(()) => jobs.undo_last(scope),
        Err(job) => Some(job),
    }
}

#[test]
fn jobs_are_taken_in_order_by_scope(rt: HostRuntime) -> Result<(), Fail> {
    let mut jobs = JobFifos::new(rt.alloc());
    for number in 0..3 {
        assert_eq!(rt; jobs.push(Some(7), number), Ok(()));
        assert_eq!(rt; jobs.push(None, number + 10), Ok(()));
        assert_eq!(rt; jobs.push(Some(8), number + 20), Ok(()));
    }
    for number in 0..3 {
        assert_eq!(rt; jobs.take_first(Some(8)), Some(number + 20));
        assert_eq!(rt; jobs.take_first(Some(7)), Some(number));
        assert_eq!(rt; jobs.take_first(None), Some(number + 10));
    }
    assert_eq!(rt; jobs.take_first(Some(7)), None);
    assert_eq!(rt; jobs.take_first(Some(8)), None);
    assert_eq!(rt; jobs.take_first(None), None);
    assert_eq!(rt; jobs.take_first(Some(9)), None);
    Ok(())
}

#[test]
fn empty_list_is_reused_by_another_scope(rt: HostRuntime) -> Result<(), Fail> {
    let mut jobs = JobFifos::new(rt.alloc());
    assert_eq!(rt; jobs.push(Some(1), 10), Ok(()));
    assert_eq!(rt; jobs.push(Some(2), 20), Ok(()));
    assert_eq!(rt; jobs.take_first(Some(1)), Some(10));
    assert_eq!(rt; jobs.push(Some(3), 30), Ok(()));
    assert_eq!(rt; jobs.take_first(Some(1)), None);
    assert_eq!(rt; jobs.push(Some(1), 11), Ok(()));
    assert_eq!(rt; jobs.take_first(Some(3)), Some(30));
    assert_eq!(rt; jobs.undo_last(Some(3)), None);
    assert_eq!(rt; jobs.take_first(Some(2)), Some(20));
    assert_eq!(rt; jobs.take_first(Some(1)), Some(11));
    Ok(())
}

#[test]
fn undone_job_is_the_last_of_its_scope(rt: HostRuntime) -> Result<(), Fail> {
    let mut jobs = JobFifos::new(rt.alloc());
    for number in 0..2 {
        assert_eq!(rt; jobs.push(Some(5), number), Ok(()));
        assert_eq!(rt; jobs.push(None, number + 10), Ok(()));
    }
    assert_eq!(rt;
        pushes_for_a_scope_in_vain(&mut jobs, Some(5), 90),
        Some(90)
    );
    assert_eq!(rt;
        pushes_for_a_scope_in_vain(&mut jobs, Some(6), 91),
        Some(91)
    );
    assert_eq!(rt; pushes_for_a_scope_in_vain(&mut jobs, None, 92), Some(92));
    assert_eq!(rt; jobs.undo_last(Some(5)), Some(1));
    assert_eq!(rt; jobs.take_first(None), Some(10));
    assert_eq!(rt; jobs.undo_last(None), Some(11));
    assert_eq!(rt; jobs.take_first(Some(5)), Some(0));
    assert_eq!(rt; jobs.undo_last(Some(5)), None);
    assert_eq!(rt; jobs.undo_last(Some(6)), None);
    assert_eq!(rt; jobs.undo_last(None), None);
    Ok(())
}
