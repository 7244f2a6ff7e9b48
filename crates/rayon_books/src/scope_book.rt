//! The book of a scope: the results of its jobs, by number.
ghost use Rattle.rayon_books.specs.Books.{no_book, opened, without_last, unopened, body_failed, slot_of, first_after, later_of, stored, unkept, ending_by, is_filled, IsShut, Lacks, Allowed};
ghost use Rattle.rayon_jobs.specs.Within.{Within};
ghost use Rattle.std.specs.Prelude.{◌≡◌, ◌≤◌, ◌<◌, ◌+◌, ◌^◌, length, map, replicate, slice_get, vec_len, vec_capacity, is_none, false, All, Contains, IfOk, IfErr, IsOk, IsErr, MatchOption, MatchResult, Err, Some, None, [], ◌∷◌, ◌++◌};

use crate::slot::{First, NoOutputs, Slot};
use rayon_jobs::{Done, JobKind};
use rayon_machine_places::place::Ending;
use rayon_words::Refusal;
use std::alloc::Global;
use std::marker::Model;
use std::mem;

/// The results of a scope's jobs, by number, and whose fault came first. Or those of a broadcast's pieces, by index,
/// and the fault of the lowest index that has one (`of_pieces`).
///
/// Only the opening of slots takes memory: it also makes the room for the outputs. To a contract it is a list of slots,
/// and the one whose fault was the first.
#[derive(Drop)]
pub struct ScopeBook<J: JobKind> {
    pub(crate) alloc: Global,
    pub(crate) slots: Vec<Slot<Done<J>>>,
    pub(crate) first: Option<First<Done<J>>>,
    pub(crate) ready: Vec<Done<J>>,
}

impl<J: JobKind> Model for ScopeBook<J> {
    ghost use Rattle.rayon_books.specs.Books.{Book, Kept};
    ghost use Rattle.rayon_jobs.specs.Within.{Run};
    ghost use Rattle.std.specs.Prelude.{◌≡◌, ◌≤◌, [], vec_len, vec_capacity};

    ghost Value = { Book (Run J.Tag J.Output J.Fault) };

    ghost view = { λ b. record { slots = b.slots.items; first = b.first } };

    ghost invariant = { λ b. (b.ready.items ≡ []) × (vec_len b.slots ≤ vec_capacity b.ready) × Kept (record { slots = b.slots.items; first = b.first }) };
}

impl<J: JobKind> ScopeBook<J> {
    /// A book without slots. It takes no memory.
    pub fn new(alloc: Global) -> ScopeBook<J>
        ensures { result ≡ no_book }
    {
        ScopeBook {
            alloc,
            slots: Vec::new(alloc),
            first: None,
            ready: Vec::new(alloc),
        }
    }

    /// Opens a slot for one job more, and answers its number. Refused `NoRoom` for want of memory, and `Full` where the
    /// number would pass 2^64 - 1, with no change.
    pub fn open_slot(&mut self) -> Result<u64, Refusal>
        ensures { MatchResult result
            (λ n. (n ≡ length self.old.slots) × (self.new ≡ record self.old { slots = self.old.slots ++ Slot.Open ∷ [] }))
            (λ r. (r ≡ unopened (length self.old.slots) 1) × (self.new ≡ self.old)) }
    {
        self.open_slots(1)
    }

    /// Opens so many slots, for the pieces of a broadcast, and answers the number of the first one; the others follow.
    /// Refused `NoRoom` for want of memory, and `Full` where a number would pass 2^64 - 1: then none is opened.
    pub fn open_slots(&mut self, count: usize) -> Result<u64, Refusal>
        ensures { MatchResult result
            (λ n. (n ≡ length self.old.slots) × (self.new ≡ opened self.old count))
            (λ r. (r ≡ unopened (length self.old.slots) count) × (self.new ≡ self.old)) }
    {
        let len = self.slots.len();
        let Some(wanted) = len.checked_add(count) else {
            return Err(over(len, count));
        };
        make_room(&mut self.ready, wanted)?;
        make_room(&mut self.slots, count)?;
        push_open(&mut self.slots, count);
        Ok(len as u64)
    }

    /// Takes the last slot out, with what it holds. Nothing changes where there is none. What was kept first stays.
    pub fn undo_last(&mut self)
        ensures last { (list : _) (s : _) → self.old.slots ≡ list ++ s ∷ [] → self.new ≡ record self.old { slots = list } }
        ensures none { self.old.slots ≡ [] → self.new ≡ self.old }
        ensures both { self.new ≡ without_last self.old 1 }
    {
        let _ = self.slots.pop();
    }

    /// Takes the last so many slots out, with what they hold, or all where they are fewer. What was kept first stays.
    pub fn undo_last_n(&mut self, count: usize)
        ensures last { (list : _) (more : _) → self.old.slots ≡ list ++ more → length more ≡ count → self.new ≡ record self.old { slots = list } }
        ensures both { self.new ≡ without_last self.old count }
    {
        let left = self.slots.len().saturating_sub(count);
        self.slots.truncate(left);
    }

    /// The body had a fault: marks that it is the first, unless another was. True exactly if it is. The fault itself
    /// stays with the call.
    pub fn keep_fault(&mut self) -> bool
        ensures answer { result ≡ is_none self.old.first }
        ensures kept { self.new ≡ body_failed self.old }
    {
        if self.first.is_some() {
            return false;
        }
        self.first = Some(First::Body);
        true
    }

    /// Stores what the job of this number answered, and keeps its fault where that is the first. Nothing changes where
    /// the slot was never opened or is filled. What the book does not keep comes back, a later fault or what no slot
    /// takes: so its value is let go where the book is not held any more.
    pub fn close_slot(&mut self, number: u64, done: Done<J>) -> Option<Done<J>>
        ensures stored { self.new ≡ stored self.old number done }
        ensures unkept { result ≡ unkept self.old number done }
    {
        let Some(index) = open_at(&self.slots, number) else {
            return Some(done);
        };
        let (slot, first, unkept) = settled(self.first.take(), done);
        self.slots[index] = slot;
        self.first = first;
        unkept
    }

    /// How the scope ends, as far as its book knows: with a fault where one is kept.
    pub fn ending(&self) -> Ending
        ensures { result ≡ ending_by self.now }
    {
        match self.first {
            Some(_) => Ending::Fault,
            None => Ending::Fine,
        }
    }

    /// The outputs by number, where each job has one. The first fault comes before that a slot is open. The book is
    /// empty afterwards.
    pub fn outputs(&mut self) -> Result<Vec<Done<J>>, NoOutputs<J::Fault>>
        ensures given { MatchResult result
            (λ v. (self.old.first ≡ None) × (map Slot.Filled v.items ≡ self.old.slots))
            (λ e. Lacks self.old e) }
        ensures fine { IfOk result (λ v. All (λ d. IsOk d.answer) v.items) }
        ensures fault { IfErr result (Allowed J.answers (J.answers_on J.answers)) }
        ensures empty { self.new ≡ no_book }
    {
        let slots = mem::replace(&mut self.slots, Vec::new(self.alloc));
        let ready = mem::replace(&mut self.ready, Vec::new(self.alloc));
        match self.first.take() {
            Some(First::Body) => Err(NoOutputs::Body),
            Some(First::Job(done)) => Err(NoOutputs::Fault(fault_of(done))),
            None => match taken_out(slots, ready) {
                Some(outputs) => Ok(outputs),
                None => Err(NoOutputs::Missing),
            },
        }
    }
}

// Why so many slots can't have so many more, where that is no number of slots.
fn over(len: usize, count: usize) -> Refusal
    requires { 2 ^ 64 ≤ len + count }
    ensures { result ≡ unopened len count }
{
    if count - 1 > usize::MAX - len {
        Refusal::Full
    } else {
        Refusal::NoRoom
    }
}

// Room for so many more. Refused `NoRoom`.
fn make_room<T>(list: &mut Vec<T>, count: usize) -> Result<(), Refusal>
    ensures items { list.new.items ≡ list.old.items }
    ensures len { vec_len list.new ≡ vec_len list.old }
    ensures room { IfOk result (λ _. vec_len list.new + count ≤ vec_capacity list.new) }
    ensures capacity { vec_capacity list.old ≤ vec_capacity list.new }
    ensures refused { IfErr result (λ r. r ≡ Refusal.NoRoom) }
{
    match list.reserve(count) {
        Ok(()) => Ok(()),
        Err(_) => Err(Refusal::NoRoom),
    }
}

// So many open slots more, for which there is room.
fn push_open<D>(slots: &mut Vec<Slot<D>>, count: usize)
    requires { vec_len slots.old + count ≤ vec_capacity slots.old }
    ensures slots { slots.new.items ≡ slots.old.items ++ replicate count Slot.Open }
    ensures len { vec_len slots.new ≡ vec_len slots.old + count }
    ensures capacity { vec_capacity slots.new ≡ vec_capacity slots.old }
{
    for _ in 0..count {
        slots.push_reserved(Slot::Open);
    }
}

// What the slots hold, in a list in which there is room for it, where each is filled.
fn taken_out<D: Drop>(slots: Vec<Slot<D>>, mut ready: Vec<D>) -> Option<Vec<D>>
    requires empty { ready.items ≡ [] }
    requires room { vec_len slots ≤ vec_capacity ready }
    ensures { MatchOption result
        ((s : _) × Contains slots.items s × (is_filled s ≡ false))
        (λ v. map Slot.Filled v.items ≡ slots.items) }
{
    for slot in slots {
        match slot {
            Slot::Filled(output) => ready.push_reserved(output),
            Slot::Open | Slot::Faulted => return None,
        }
    }
    Some(ready)
}

// The index of the slot of this number, if that is open.
fn open_at<D>(slots: &[Slot<D>], number: u64) -> Option<usize>
    ensures { MatchOption result
        (IsShut (slice_get slots.now number))
        (λ i. (i ≡ number) × (i < length slots.now) × (slice_get slots.now number ≡ Some Slot.Open)) }
{
    let index = usize::try_from(number).ok()?;
    match slots.get(index)? {
        Slot::Open => Some(index),
        Slot::Filled(_) | Slot::Faulted => None,
    }
}

// What a run leaves at its number, whose fault is the first after it, and the run where neither keeps it.
fn settled<J: JobKind>(
    first: Option<First<Done<J>>>,
    done: Done<J>,
) -> (Slot<Done<J>>, Option<First<Done<J>>>, Option<Done<J>>)
    ensures { (result.0 ≡ slot_of done) × (result.1 ≡ first_after first done) × (result.2 ≡ later_of first done) }
{
    if done.ending() == Ending::Fine {
        return (Slot::Filled(done), first, None);
    }
    match first {
        None => (Slot::Faulted, Some(First::Job(done)), None),
        Some(earlier) => (Slot::Faulted, Some(earlier), Some(done)),
    }
}

// The fault that a run answered.
fn fault_of<J: JobKind>(done: Done<J>) -> J::Fault
    requires { IsErr done.answer }
    ensures answer { done.answer ≡ Err result }
    ensures within { Within J.answers (J.answers_on J.answers) done }
{
    match done.into_result() {
        Ok(_) => unreachable!(),
        Err(fault) => fault,
    }
}
