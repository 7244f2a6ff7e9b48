//! What the book of a scope gives once the scope has ended, and that of a broadcast.
ghost use Rattle.rayon_books.specs.Books.{Allowed, Lacks};
ghost use Rattle.rayon_books.specs.Outcomes.{ending_in, ending_of_all};
ghost use Rattle.std.specs.Prelude.{◌≡◌, All, IfErr, IfOk, IsOk, MatchResult, Err, None, Ok, map};
ghost use Rattle.rayon_books.specs.Books.{no_book, ending_by};
ghost use Rattle.rayon_books.specs.declared.slot.Slot.TheVariants.{Filled};

use crate::scope_book::ScopeBook;
use crate::slot::NoOutputs;
use rayon_jobs::{Done, JobKind};
use rayon_machine_places::place::Ending;
use std::marker::Model;

/// What a scope's book gave once the scope had ended: its outputs by number, or why it has none. Or what a broadcast's
/// gave: the runs of its pieces by index, faults among them. By its type a job's fault is one that the job's relation
/// allows.
#[derive(Drop)]
pub struct Outcome<J: JobKind> {
    result: Result<Vec<Done<J>>, NoOutputs<J::Fault>>,
    ending: Ending,
}

impl<J: JobKind> Model for Outcome<J> {
    ghost use Rattle.rayon_books.specs.Books.{Allowed};
    ghost use Rattle.rayon_books.specs.Outcomes.{ending_in};
    ghost use Rattle.rayon_books.specs.declared.slot.NoOutputs.{NoOutputs};
    ghost use Rattle.rayon_jobs.specs.Within.{Run};
    ghost use Rattle.std.specs.Prelude.{◌≡◌, IfErr, List, Result, Err, Ok};

    ghost Value = { Result (List (Run J.Tag J.Output J.Fault)) (NoOutputs J.Fault) };

    ghost view = { λ o. elim o.result [ Ok v ↦ Ok v.items | Err e ↦ Err e ] };

    ghost invariant = { λ o. (o.ending ≡ ending_in (elim o.result [ Ok v ↦ Ok v.items | Err e ↦ Err e ])) × IfErr o.result (Allowed J.answers (J.answers_on J.answers)) };
}

impl<J: JobKind> Outcome<J> {
    /// What this book gives: the outputs by number, where each job has one. The first fault comes before that a slot is
    /// open. The book is empty afterwards.
    pub fn of_book(book: &mut ScopeBook<J>) -> Outcome<J>
        ensures given { MatchResult result
            (λ v. (book.old.first ≡ None) × (map Filled v ≡ book.old.slots))
            (λ e. Lacks book.old e) }
        ensures ending { ending_in result ≡ ending_by book.old }
        ensures fine { IfOk result (λ v. All (λ d. IsOk d.answer) v) }
        ensures empty { book.new ≡ no_book }
    {
        match book.outputs() {
            Ok(outputs) => Outcome {
                result: Ok(outputs),
                ending: Ending::Fine,
            },
            Err(none) => {
                let ending = none.ending();
                Outcome {
                    result: Err(none),
                    ending,
                }
            }
        }
    }

    /// What a broadcast's book gave: the runs of its pieces by index, faults among them.
    pub fn of_runs(runs: Vec<Done<J>>) -> Outcome<J>
        ensures { result ≡ Ok runs.items }
    {
        let ending = ending_of_all(&runs);
        Outcome {
            result: Ok(runs),
            ending,
        }
    }

    /// How the scope or the broadcast ended: with a fault where the body or a job had one.
    pub fn ending(&self) -> Ending
        ensures { result ≡ ending_in self.now }
    {
        self.ending
    }

    /// The outputs of the scope, or the runs of the broadcast; or why there are none.
    pub fn into_result(self) -> Result<Vec<Done<J>>, NoOutputs<J::Fault>>
        ensures same { MatchResult result (λ v. self ≡ Ok v.items) (λ e. self ≡ Err e) }
        ensures fault { IfErr result (Allowed J.answers (J.answers_on J.answers)) }
    {
        let Outcome { result, ending: _ } = self;
        result
    }
}

// How runs ended all together: with a fault where one of them did.
fn ending_of_all<J: JobKind>(runs: &[Done<J>]) -> Ending
    ensures { result ≡ ending_of_all runs.now }
{
    for run in runs {
        if run.ending() == Ending::Fault {
            return Ending::Fault;
        }
    }
    Ending::Fine
}
