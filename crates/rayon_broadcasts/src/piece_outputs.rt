//! What a broadcast gives that waits: the outputs of its pieces, by the indices of the workers that ran them.
ghost use Rattle.rayon_broadcasts.specs.Books.{IsOf, Answered, Bars, AreOutputs, Lacks, LacksAt, IsAllowed};
ghost use Rattle.std.specs.Prelude.{◌≡◌, ◌↔◌, ◌≤◌, ℕ, length, slice_get, vec_len, vec_capacity, IfOk, IfErr, IsTrue, MatchResult, Ok, Some, []};

use rayon_jobs::{Done, JobKind};
use rayon_words::Refusal;

/// Why a broadcast has no outputs.
#[derive(Drop)]
pub enum NoAnswers<F> {
    /// There are not as many results as workers.
    Missing,
    /// A result is of another tag than the broadcast's, or of another piece.
    Foreign,
    /// A piece answered this fault.
    Fault(F),
}

/// The outputs of a broadcast's pieces by index, where these are their runs, in a list in which there is room for them.
/// Else the first index decides that has no such output: `Foreign` where its run is of another tag or of another piece
/// than the one of that index, `Fault` where the piece answered one, and `Missing` where there is no run. So of several
/// faults it is the one of the lowest index. Of more runs than workers it is `Missing`. It takes no memory.
pub fn outputs_of<J: JobKind>(
    runs: Vec<Done<J>>,
    ready: Vec<J::Output>,
    tag: &J::Tag,
    workers: usize,
) -> Result<Vec<J::Output>, NoAnswers<J::Fault>>
    requires empty { ready.items ≡ [] }
    requires room { workers ≤ vec_capacity ready }
    ensures given { MatchResult result
        (λ v. AreOutputs J.Tag.eq (J.answers_on J.answers tag.now) tag.now workers runs.items v.items)
        (λ e. Lacks J.Tag.eq (J.answers_on J.answers tag.now) tag.now workers runs.items e) }
    ensures number { IfOk result (λ v. length v.items ≡ workers) }
    ensures allowed { IfOk result (λ v. (i : ℕ) (o : J.Output) → slice_get v.items i ≡ Some o
        → J.answers_on J.answers tag.now i workers (Ok o)) }
    ensures fault { IfErr result (IsAllowed (J.answers_on J.answers tag.now) workers) }
{
    let number = runs.len();
    if number > workers {
        return Err(NoAnswers::Missing);
    }
    let outputs = in_order(runs, ready, tag, workers)?;
    if number == workers {
        Ok(outputs)
    } else {
        Err(NoAnswers::Missing)
    }
}

// The outputs of as many runs as workers, in a list in which there is room for them.
fn in_order<J: JobKind>(
    runs: Vec<Done<J>>,
    mut ready: Vec<J::Output>,
    tag: &J::Tag,
    workers: usize,
) -> Result<Vec<J::Output>, NoAnswers<J::Fault>>
    requires empty { ready.items ≡ [] }
    requires room { vec_len runs ≤ vec_capacity ready }
    ensures { MatchResult result
        (λ v. AreOutputs J.Tag.eq (J.answers_on J.answers tag.now) tag.now workers runs.items v.items)
        (λ e. LacksAt J.Tag.eq (J.answers_on J.answers tag.now) tag.now workers runs.items e) }
{
    for done in runs {
        let index = ready.len();
        let output = output_of(done, tag, index, workers)?;
        ready.push_reserved(output);
    }
    Ok(ready)
}

// The output of the piece of this index, of so many, where this run is its own and has one.
fn output_of<J: JobKind>(
    run: Done<J>,
    tag: &J::Tag,
    index: usize,
    workers: usize,
) -> Result<J::Output, NoAnswers<J::Fault>>
    ensures { MatchResult result
        (λ o. Answered J.Tag.eq (J.answers_on J.answers tag.now) tag.now workers index run (Ok o))
        (λ e. Bars J.Tag.eq (J.answers_on J.answers tag.now) tag.now workers index run e) }
{
    if !is_of(&run, tag, index, workers) {
        return Err(NoAnswers::Foreign);
    }
    match run.into_result() {
        Ok(output) => Ok(output),
        Err(fault) => Err(NoAnswers::Fault(fault)),
    }
}

// Whether a run is of the piece of this index, of so many, of a broadcast with this tag.
fn is_of<J: JobKind>(done: &Done<J>, tag: &J::Tag, index: usize, workers: usize) -> bool
    ensures { IsTrue result ↔ IsOf J.Tag.eq tag.now workers index done.now }
{
    done.place() == Some((index, workers)) && *done.tag() == *tag
}
