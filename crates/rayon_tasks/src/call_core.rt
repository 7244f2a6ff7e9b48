//! What the jobs of a call share, where they are more than one.
ghost use Rattle.std.specs.Prelude.{◌≡◌, IfOk, IfErr};
ghost use Rattle.rayon_words.specs.declared.refusal.Refusal.TheVariants.{NoRoom};

use rayon_atomics::count::CountWord;
use rayon_books::ScopeBook;
use rayon_jobs::JobKind;
use rayon_locks::HeldLock;
use rayon_words::Refusal;
use std::alloc::Global;
use std::marker::Model;

/// What the body and the jobs of a scope share, or the pieces of a broadcast that waits: the count of those of them
/// that have not ended, and the book of their results, which is held over several acts or changed by a step of one.
/// Contracts see the number of the call, and its count.
#[derive(Drop)]
pub struct CallCore<J: JobKind> {
    call: u64,
    count: CountWord,
    book: HeldLock<ScopeBook<J>>,
}

impl<J: JobKind> Model for CallCore<J> {
    ghost use Rattle.rayon_tasks.specs.Tickets.{CoreOf};

    ghost Value = { CoreOf };

    ghost view = { λ s. record { call = s.call; count = s.count } };
}

impl<J: JobKind> CallCore<J> {
    // Of the scope of this call, whose body alone has not ended, and into which nothing was spawned. Refused `NoRoom`.
    pub(crate) fn of_scope(alloc: Global, call: u64) -> Result<CallCore<J>, Refusal>
        ensures made { IfOk result (λ s. (s.call ≡ call) × (s.count.start ≡ 1)) }
        ensures refused { IfErr result (λ r. r ≡ NoRoom) }
    {
        let (count, _seat) = CountWord::new(alloc, 1)?;
        let book = HeldLock::new(ScopeBook::new(alloc));
        Ok(CallCore { call, count, book })
    }

    // Of the broadcast of this call to so many workers, none of whose pieces has ended. It takes all the memory that
    // the book ever takes. Refused `NoRoom`.
    pub(crate) fn of_broadcast(
        alloc: Global,
        call: u64,
        workers: usize,
    ) -> Result<CallCore<J>, Refusal>
        ensures made { IfOk result (λ c. (c.call ≡ call) × (c.count.start ≡ workers)) }
        ensures refused { IfErr result (λ r. r ≡ NoRoom) }
    {
        let (count, _seat) = CountWord::new(alloc, workers as u64)?;
        let book = HeldLock::new(ScopeBook::of_pieces(alloc, workers)?);
        Ok(CallCore { call, count, book })
    }

    /// The number of the call.
    pub fn call(&self) -> u64
        ensures { result ≡ self.now.call }
    {
        self.call
    }

    /// The count of the body and the jobs, or of the pieces, that have not ended.
    pub fn count(&self) -> &CountWord
        ensures { result.now ≡ self.now.count }
    {
        &self.count
    }

    /// The book of their results: who holds its lock has it.
    pub fn book(&self) -> &HeldLock<ScopeBook<J>> {
        &self.book
    }
}
