//! What a scope's body keeps of each job that it spawned, and what it gets for it at the end.
ghost use Rattle.rayon_books.specs.Receipts.{IsMet, MetBy};
ghost use Rattle.rayon_jobs.specs.Within.{Within};
ghost use Rattle.std.specs.Prelude.{◌≡◌, ◌↔◌, IsTrue, IsOk, IsSome, IfSome, HoldsAt, Ok};

use rayon_jobs::{Done, JobKind};

/// What a scope's body keeps of a job that it spawned.
#[derive(Drop)]
pub struct Receipt<T> {
    /// The job's number in its scope.
    pub number: u64,
    /// The job's tag.
    pub tag: T,
    /// The worker's index and the number of workers of a piece of a broadcast.
    pub place: Option<(usize, usize)>,
}

/// Whether the output at the receipt's number is one of its job: there is one, of that tag and at that place.
pub fn is_met<J: JobKind>(outputs: &[Done<J>], receipt: &Receipt<J::Tag>) -> bool
    ensures { IsTrue result ↔ IsMet J.Tag.eq outputs.now receipt.now }
{
    let Ok(index) = usize::try_from(receipt.number) else {
        return false;
    };
    let Some(done) = outputs.get(index) else {
        return false;
    };
    done.place() == receipt.place && *done.tag() == receipt.tag
}

/// Whether each of the receipts is met.
pub fn are_met<J: JobKind>(outputs: &[Done<J>], receipts: &[Receipt<J::Tag>]) -> bool
    ensures { IsTrue result ↔ MetBy J.Tag.eq outputs.now receipts.now }
{
    for receipt in receipts {
        if !is_met(outputs, receipt) {
            return false;
        }
    }
    true
}

/// What a scope answers.
#[derive(Drop)]
pub struct Ended<V, O> {
    /// What the body answered.
    pub value: V,
    /// What the jobs answered, by number.
    pub outputs: O,
}

impl<V, J: JobKind> Ended<V, Vec<Done<J>>> {
    /// The output of the job of this receipt: the one at its number, which the job's relation allows at the receipt's
    /// own tag and place. None where the outputs don't meet the receipt.
    pub fn output(&self, receipt: &Receipt<J::Tag>) -> Option<&J::Output>
        ensures within { IfSome result (λ o. Within J.answers (J.answers_on J.answers) (record { tag = receipt.now.tag; place = receipt.now.place; answer = Ok o.now })) }
        ensures at { IfSome result (λ o. HoldsAt (λ d. d.answer ≡ Ok o.now) self.now.outputs.items receipt.now.number) }
        ensures there { IsSome result ↔ (IsMet J.Tag.eq self.now.outputs.items receipt.now × HoldsAt (λ d. IsOk d.answer) self.now.outputs.items receipt.now.number) }
    {
        if !is_met(&self.outputs, receipt) {
            return None;
        }
        let index = usize::try_from(receipt.number).ok()?;
        self.outputs.get(index)?.output()
    }
}
