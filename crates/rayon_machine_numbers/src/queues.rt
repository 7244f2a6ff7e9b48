//! What an act on a queue finds there, and the numbers after it.
ghost use Rattle.std.specs.Prelude.{◌≡◌, ℕ, Option, true, IfErr, IfOk};
ghost use Rattle.rayon_machine_places.specs.declared.shape.Order.{Order as AnyOrder};
ghost use Rattle.rayon_machine_places.specs.declared.act.Act.TheVariants.{FifoOut, FifoUndo};
ghost use Rattle.rayon_machine_runs.specs.World.{but_first, but_last, head_of, last_of, is_open};
ghost use Rattle.rayon_machine_places.specs.Sleepers.{Counts};
ghost use Rattle.rayon_machine_numbers.specs.Numbers.{Acts, Can, DoesNot, after_handle, after_take, is_feeding, with_left_book};

use crate::numbers::{Outcome, Touched};
use rayon_machine_places::act::{Act, Seen};
use rayon_machine_places::place::{Party, Taken};
use rayon_machine_runs::error::StepError;
use rayon_machine_runs::state::Whereabouts;
use std::collections::VecDeque;

/// The oldest task of a queue.
/// It is the running world's own part, and not for users.
pub fn oldest(queue: &VecDeque<u64>) -> Option<u64>
    ensures { result ≡ head_of queue.now.items }
{
    match queue.front() {
        Some(task) => Some(*task),
        None => None,
    }
}

/// The newest task of a queue.
/// It is the running world's own part, and not for users.
pub fn newest(queue: &VecDeque<u64>) -> Option<u64>
    ensures { result ≡ last_of queue.now.items }
{
    match queue.back() {
        Some(task) => Some(*task),
        None => None,
    }
}

/// A task is taken, if there is one.
fn take(touched: Touched, party: Party, found: Option<u64>) -> (Seen, Touched)
    ensures { result ≡ after_take party touched found }
{
    match found {
        None => (Seen::Missing, touched),
        Some(task) => (
            Seen::Task(touched.job.kind.taken(task)),
            touched.with_job_at(Whereabouts::Running(party)),
        ),
    }
}

impl Touched {
    /// Whether no other party holds the FIFO list.
    fn is_open_to(self, party: Party) -> bool
        ensures { result ≡ is_open party self.holder }
    {
        match self.holder {
            Some(holder) => party.is(holder),
            None => true,
        }
    }

    /// The first job of a FIFO list begins, where this job stands first in it.
    fn hand_out(self, party: Party, found: Option<u64>) -> Outcome
        ensures ok { IfOk result (λ r. (token worker : ℕ) (scope : Option ℕ) (c : Counts) (jec_bits : ℕ) (o : AnyOrder) → is_open party self.holder ≡ true → Acts o (FifoOut token worker scope) party c jec_bits found self (r.0) (r.1)) }
        ensures no_room { IfErr result (λ e. e ≡ StepError.NoRoom) }
        ensures enabled { IfErr result (λ e. (token worker : ℕ) (scope : Option ℕ) (c : Counts) → is_open party self.holder ≡ true → Can (FifoOut token worker scope) party c self) }
    {
        match found {
            None => Ok((Seen::Missing, self)),
            Some(_) if self.job.runs == u64::MAX => Err(StepError::NoRoom),
            Some(job) => {
                let seen = Seen::Handed {
                    job,
                    kind: self.job.kind,
                };
                let begun = self.job.begun(party);
                Ok((seen, Touched { job: begun, ..self }))
            }
        }
    }

    /// The job that was added last comes out of a FIFO list, where this job stands last in it.
    fn take_back(self, party: Party, found: Option<u64>) -> (Seen, Touched)
        ensures { (scope : Option ℕ) (c : Counts) (jec_bits : ℕ) (o : AnyOrder) → is_open party self.holder ≡ true → Acts o (FifoUndo scope) party c jec_bits found self (result.0) (result.1) }
    {
        match found {
            None => (Seen::Missing, self),
            Some(job) => (
                Seen::Task(Taken::Plain(job)),
                self.with_job_at(Whereabouts::Retaken(party)),
            ),
        }
    }

    /// What an act on a FIFO list sees, and the numbers after it, where this job stands first in the list.
    pub(crate) fn feeds(self, act: Act, party: Party, found: Option<u64>) -> Outcome
        ensures ok { IfOk result (λ r. is_feeding act ≡ true → (c : Counts) (jec_bits : ℕ) (o : AnyOrder) → Acts o act party c jec_bits found self (r.0) (r.1)) }
        ensures not_enabled { IfErr result (λ e. is_feeding act ≡ true → e ≡ StepError.NotEnabled → (c : Counts) → DoesNot act party c self) }
        ensures enabled { IfErr result (λ e. is_feeding act ≡ true → e ≡ StepError.NoRoom → (c : Counts) → Can act party c self) }
    {
        if !self.is_open_to(party) {
            return Err(StepError::NotEnabled);
        }
        match act {
            Act::FifoIn { scope, .. } => {
                let at = Whereabouts::InFifo {
                    pool: party.pool(),
                    worker: party.index(),
                    scope,
                };
                Ok((Seen::Done, self.with_job_at(at)))
            }
            Act::FifoUndo(_) => Ok(self.take_back(party, found)),
            Act::FifoOut { .. } => self.hand_out(party, found),
            _ => Err(StepError::NotEnabled),
        }
    }

    /// What an act on a queue sees, and the numbers after it, where this task stands at the end of
    /// the queue.
    pub(crate) fn handle(self, act: Act, party: Party, found: Option<u64>) -> (Seen, Touched)
        ensures { result ≡ after_handle act party self found }
    {
        match act {
            Act::PopOwn | Act::TakeCast | Act::Steal { .. } | Act::PopInj => {
                take(self, party, found)
            }
            Act::LookCast | Act::LookInj(_) | Act::LookOwn => {
                let seen = if found.is_none() { Seen::Yes } else { Seen::No };
                (seen, self)
            }
            Act::PushInj { pool, book, .. } => (
                Seen::Done,
                self.leaving_book(party, book)
                    .with_job_at(Whereabouts::Injected(pool)),
            ),
            Act::PushOwn { book, .. } => {
                let at = Whereabouts::InDeque {
                    pool: party.pool(),
                    worker: party.index(),
                };
                (Seen::Done, self.leaving_book(party, book).with_job_at(at))
            }
            Act::PushCast(pieces) => (Seen::Done, self.dealing(party, pieces)),
            _ => (Seen::Done, self),
        }
    }
}

/// The oldest task leaves a queue, if there is one.
/// It is the running world's own part, and not for users.
pub fn drop_oldest(queue: &mut VecDeque<u64>)
    ensures { queue.new.items ≡ but_first queue.old.items }
{
    let _ = queue.pop_front();
}

/// The newest task leaves a queue, if there is one.
/// It is the running world's own part, and not for users.
pub fn drop_newest(queue: &mut VecDeque<u64>)
    ensures { queue.new.items ≡ but_last queue.old.items }
{
    let _ = queue.pop_back();
}
