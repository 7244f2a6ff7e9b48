//! The book of a broadcast: what its pieces answered, by index, and the fault of the lowest index that has one.
ghost use Rattle.rayon_books.specs.Books.{no_book, opened, slot_of};
ghost use Rattle.rayon_books.specs.Pieces.{AreOutputs, AreRuns, dropped_by, fault_at, higher_of, is_at, is_before, lower_of, lowest_after, piece_stored, piece_unkept};
ghost use Rattle.rayon_books.specs.declared.slot.Slot.TheVariants.{Faulted, Filled};
ghost use Rattle.rayon_words.specs.declared.refusal.Refusal.TheVariants.{NoRoom};
ghost use Rattle.std.specs.Prelude.{◌≡◌, ◌↔◌, ◌≤◌, ◌++◌, IsErr, IsTrue, MatchResult, None, Some, [], length, vec_capacity, vec_len};

use crate::scope_book::ScopeBook;
use crate::slot::{First, Slot};
use rayon_jobs::{Done, JobKind};
use rayon_machine_places::place::Ending;
use rayon_words::Refusal;
use std::alloc::Global;
use std::mem;

impl<J: JobKind> ScopeBook<J> {
    /// The book of a broadcast to so many workers: an open slot for the piece of each. It takes all the memory that the
    /// book ever takes. Refused `NoRoom` for want of it.
    pub fn of_pieces(alloc: Global, workers: usize) -> Result<ScopeBook<J>, Refusal>
        ensures { MatchResult result (λ book. book ≡ opened no_book workers) (λ r. r ≡ NoRoom) }
    {
        let mut book = ScopeBook::new(alloc);
        match book.open_slots(workers) {
            Ok(_) => Ok(book),
            Err(_) => Err(Refusal::NoRoom),
        }
    }

    /// Stores what the piece of this index answered, and keeps its fault where no piece of a lower index has one.
    /// Nothing changes where there is no such slot, or it is filled. What the book does not keep comes back: a fault of
    /// a higher index, or what no slot takes.
    pub fn store_piece(&mut self, index: usize, done: Done<J>) -> Option<Done<J>>
        ensures stored { self.new ≡ piece_stored self.old index done }
        ensures unkept { result ≡ piece_unkept self.old index done }
    {
        let Some(Slot::Open) = self.slots.get(index) else {
            return Some(done);
        };
        let (slot, first, unkept) = settled_piece(self.first.take(), done);
        self.slots[index] = slot;
        self.first = first;
        unkept
    }

    /// What the pieces answered, by index, as far as each has an output; and where the fault of the piece that comes
    /// next was kept, that one's run too. The book is empty afterwards. It takes no memory.
    pub fn runs(&mut self) -> Vec<Done<J>>
        ensures given { AreRuns self.old result.items }
        ensures empty { self.new ≡ no_book }
    {
        let slots = mem::replace(&mut self.slots, Vec::new(self.alloc));
        let ready = mem::replace(&mut self.ready, Vec::new(self.alloc));
        let first = self.first.take();
        let workers = slots.len();
        with_fault(first_outputs(slots, ready), first, workers)
    }
}

// What a piece's run leaves at its index, whose fault is kept after it, and the run that is kept no more.
fn settled_piece<J: JobKind>(
    first: Option<First<Done<J>>>,
    done: Done<J>,
) -> (Slot<Done<J>>, Option<First<Done<J>>>, Option<Done<J>>)
    ensures { (result.0 ≡ slot_of done) × (result.1 ≡ lowest_after first done) × (result.2 ≡ dropped_by first done) }
{
    if done.ending() == Ending::Fine {
        return (Slot::Filled(done), first, None);
    }
    let (kept, unkept) = lower(first, done);
    (Slot::Faulted, Some(kept), unkept)
}

// Of the fault that is kept and this one the one of the lower index, and the other one.
fn lower<J: JobKind>(
    first: Option<First<Done<J>>>,
    done: Done<J>,
) -> (First<Done<J>>, Option<Done<J>>)
    ensures { (result.0 ≡ lower_of first done) × (result.1 ≡ higher_of first done) }
{
    match first {
        None => (First::Job(done), None),
        Some(First::Body) => (First::Body, Some(done)),
        Some(First::Job(kept)) => {
            if is_before(&done, &kept) {
                (First::Job(done), Some(kept))
            } else {
                (First::Job(kept), Some(done))
            }
        }
    }
}

// Whether a run is of a piece of a lower index than another's, or of a piece where the other is of none.
fn is_before<J: JobKind>(run: &Done<J>, other: &Done<J>) -> bool
    ensures { result ≡ is_before run.now other.now }
{
    match (run.place(), other.place()) {
        (Some((index, _)), Some((than, _))) => index < than,
        (Some(_), None) => true,
        (None, _) => false,
    }
}

// Whether a run is of the piece of this index.
fn is_at<J: JobKind>(run: &Done<J>, index: usize) -> bool
    ensures { result ≡ is_at run.now index }
{
    match run.place() {
        Some((at, _)) => at == index,
        None => false,
    }
}

// The outputs of the first slots, as far as each has one, in a list in which there is room for all.
fn first_outputs<J: JobKind>(slots: Vec<Slot<Done<J>>>, mut ready: Vec<Done<J>>) -> Vec<Done<J>>
    requires empty { ready.items ≡ [] }
    requires room { vec_len slots ≤ vec_capacity ready }
    ensures outputs { AreOutputs slots.items result.items }
    ensures room { vec_capacity result ≡ vec_capacity ready }
{
    for slot in slots {
        match slot {
            Slot::Filled(run) => ready.push_reserved(run),
            Slot::Open | Slot::Faulted => return ready,
        }
    }
    ready
}

// These runs, and the one whose fault is kept, if it is of the piece that comes next, of so many.
fn with_fault<J: JobKind>(
    mut runs: Vec<Done<J>>,
    first: Option<First<Done<J>>>,
    workers: usize,
) -> Vec<Done<J>>
    requires { workers ≤ vec_capacity runs }
    ensures { result.items ≡ runs.items ++ fault_at first (length runs.items) workers }
{
    let next = runs.len();
    if next >= workers {
        return runs;
    }
    if let Some(First::Job(run)) = first {
        if is_at(&run, next) {
            runs.push_reserved(run);
        }
    }
    runs
}
