//! What a scope's book has at a job's number, whose fault it keeps, and why it gives no outputs.
ghost use Rattle.rayon_books.specs.Outcomes.{ending_without};
ghost use Rattle.std.specs.Prelude.{◌≡◌};

use rayon_machine_places::place::Ending;

/// What a scope's book has at the number of a job.
#[derive(Drop)]
pub enum Slot<D> {
    /// Nothing yet.
    Open,
    /// What the job's run answered: an output.
    Filled(D),
    /// That the job's run answered a fault. The book keeps the first one apart.
    Faulted,
}

/// Whose fault was the first in a scope.
#[derive(Drop)]
pub enum First<D> {
    /// The body's. The fault itself stays with the scope's call.
    Body,
    /// A job's: what its run answered.
    Job(D),
}

/// Why a scope has no outputs.
#[derive(Drop)]
pub enum NoOutputs<F> {
    /// The body's fault was the first.
    Body,
    /// This fault of a job was the first.
    Fault(F),
    /// There was no fault, and a job has stored no result.
    Missing,
    /// There was no fault, and a result is not the one that was to be there.
    Foreign,
}

impl<F> NoOutputs<F> {
    /// How the scope ended: with a fault where the body's or a job's was the first.
    pub fn ending(&self) -> Ending
        ensures { result ≡ ending_without self.now }
    {
        match self {
            NoOutputs::Body | NoOutputs::Fault(_) => Ending::Fault,
            NoOutputs::Missing | NoOutputs::Foreign => Ending::Fine,
        }
    }
}
