//! Tests of what a scope is made of: its book and its receipts. The functions with clauses show what a caller may
//! conclude from the calls' contracts.
ghost use Rattle.std.proofs.Common.{rules};
ghost use Rattle.std.specs.Prelude.{◌≡◌, ◌*◌, ◌<◌, IfOk, IfSome, None};

use rayon_books::{Ended, NoOutputs, Receipt, ScopeBook, are_met};
use rayon_jobs::{Done, JobKind, NoHandler};
use std::alloc::Global;
use std::test::*;

// A job whose output is the square of its number. Its fault may be any number.
#[derive(Drop)]
struct Square(u64);

impl JobKind for Square {
    type Tag = u64;

    type Output = u64;

    type Fault = u64;

    type Handler = NoHandler;

    ghost answers = { λ t r. IfOk r (λ o. o ≡ t * t) };

    ghost tag_of = { λ j. j.0 };

    ghost same_answers = { λ t u e. Prim.search rules };

    fn tag(&self) -> u64 {
        self.0
    }
}

// What the run of a small job answers.
fn done(number: u64) -> Done<Square>
    requires { number < 1000 }
{
    Done::of_run(number, Ok(number * number))
}

// What the run of a job answers that has a fault.
fn failed(number: u64, fault: u64) -> Done<Square> {
    Done::of_run(number, Err(fault))
}

// The receipt of a job that was spawned alone.
fn receipt(number: u64, tag: u64) -> Receipt<u64>
    ensures { result ≡ record { number = number; tag = tag; place = None } }
{
    Receipt {
        number,
        tag,
        place: None,
    }
}

// A book with so many open slots, the numbers from 0 on.
fn book(alloc: Global, slots: usize) -> Result<ScopeBook<Square>, Fail> {
    let mut book = ScopeBook::new(alloc);
    book.open_slots(slots)?;
    Ok(book)
}

// A slot is opened and taken back: the book is as before.
fn opens_in_vain(book: &mut ScopeBook<Square>)
    ensures { book.new ≡ book.old }
{
    if book.open_slot().is_ok() {
        book.undo_last();
    }
}

// So are several.
fn opens_some_in_vain(book: &mut ScopeBook<Square>, count: usize)
    ensures { book.new ≡ book.old }
{
    if book.open_slots(count).is_ok() {
        book.undo_last_n(count);
    }
}

// The output of the job with this number, where the scope has it: the square, whatever equal tag stood beside it.
fn square_of<V>(ended: &Ended<V, Vec<Done<Square>>>, number: u64, tag: u64) -> Option<u64>
    ensures { IfSome result (λ o. o ≡ tag * tag) }
{
    let square = ended.output(&receipt(number, tag))?;
    Some(*square)
}

#[test]
fn outputs_stand_by_number(rt: HostRuntime) -> Result<(), Fail> {
    let mut book = book(rt.alloc(), 2)?;
    assert_eq!(rt; book.open_slot(), Ok(2));
    book.close_slot(2, done(7));
    book.close_slot(0, done(5));
    book.close_slot(1, done(6));
    book.close_slot(1, done(9));
    book.close_slot(3, done(9));
    let Ok(outputs) = book.outputs() else {
        panic!(rt; "no outputs")
    };
    let tags = outputs
        .iter()
        .map(|done| *done.tag())
        .collect::<Vec<u64>>(rt.alloc())?;
    assert_eq!(rt; tags.as_slice(), [5, 6, 7].as_slice());
    assert_eq!(rt; book.open_slots(3), Ok(0));
    Ok(())
}

#[test]
fn the_first_fault_is_kept(rt: HostRuntime) -> Result<(), Fail> {
    let mut book = book(rt.alloc(), 3)?;
    book.close_slot(1, failed(6, 60));
    book.close_slot(0, failed(5, 50));
    assert!(rt; !book.keep_fault());
    assert!(rt; matches!(book.outputs(), Err(NoOutputs::Fault(60))));
    Ok(())
}

#[test]
fn the_fault_of_the_body_is_kept_first(rt: HostRuntime) -> Result<(), Fail> {
    let mut book = book(rt.alloc(), 1)?;
    assert!(rt; book.keep_fault());
    assert!(rt; !book.keep_fault());
    book.close_slot(0, failed(5, 50));
    assert!(rt; matches!(book.outputs(), Err(NoOutputs::Body)));
    Ok(())
}

#[test]
fn an_open_slot_is_missing_until_it_is_taken_back(rt: HostRuntime) -> Result<(), Fail> {
    let mut first = book(rt.alloc(), 2)?;
    first.close_slot(1, done(6));
    assert!(rt; matches!(first.outputs(), Err(NoOutputs::Missing)));
    let mut second = book(rt.alloc(), 3)?;
    second.close_slot(0, done(6));
    second.undo_last();
    second.undo_last_n(1);
    opens_in_vain(&mut second);
    opens_some_in_vain(&mut second, 4);
    assert!(rt; matches!(second.outputs(), Ok(outputs) if outputs.len() == 1));
    second.undo_last_n(7);
    second.undo_last();
    assert_eq!(rt; second.open_slot(), Ok(0));
    Ok(())
}

#[test]
fn receipts_are_met_by_number_tag_and_place(rt: HostRuntime) -> Result<(), Fail> {
    let mut book = book(rt.alloc(), 2)?;
    book.close_slot(1, done(6));
    book.close_slot(0, done(5));
    let Ok(outputs) = book.outputs() else {
        panic!(rt; "no outputs")
    };
    let piece = Receipt {
        number: 0,
        tag: 5,
        place: Some((0, 1)),
    };
    assert!(rt; are_met(&outputs, &[]));
    assert!(rt; are_met(&outputs, &[receipt(1, 6), receipt(0, 5)]));
    assert!(rt; !are_met(&outputs, &[receipt(1, 6), receipt(0, 6)]));
    assert!(rt; !are_met(&outputs, &[receipt(2, 5)]));
    assert!(rt; !are_met(&outputs, &[piece]));
    let ended = Ended { value: (), outputs };
    assert_eq!(rt; square_of(&ended, 1, 6), Some(36));
    assert_eq!(rt; square_of(&ended, 0, 6), None);
    assert_eq!(rt; square_of(&ended, 2, 5), None);
    Ok(())
}
