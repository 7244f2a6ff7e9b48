//! What a task brings that is no one job.
ghost use Rattle.rayon_registry.specs.Parts.{OnePiece, Spent, TwoSides, brought};
ghost use Rattle.std.specs.Prelude.{◌≡◌};

use rayon_broadcasts::SharedJob;
use std::marker::Model;
use std::mem;

/// What there is to run of a task that brings no one job.
#[derive(Drop)]
pub enum Brings<J, S> {
    /// The two sides of a join that an outside caller sent.
    Sides(J, J),
    /// A piece of a broadcast: the job that all its pieces share, and the scope that it was spawned into, if it was.
    Piece(SharedJob<J>, Option<S>),
    /// Nothing: it was taken out.
    Nothing,
}

/// What a task brings that is no one job, `S` being the type of scopes.
#[derive(Drop)]
pub struct Parts<J, S> {
    brings: Brings<J, S>,
}

impl<J, S> Model for Parts<J, S> {
    ghost use Rattle.rayon_registry.specs.Parts.{PartsOf, brought};

    ghost Value = { PartsOf J };

    ghost view = { λ p. brought p.brings };
}

impl<J, S> Parts<J, S> {
    // The two sides of a join.
    pub(crate) fn sides(first: J, second: J) -> Parts<J, S>
        ensures { result ≡ TwoSides first second }
    {
        Parts {
            brings: Brings::Sides(first, second),
        }
    }

    // A piece of a broadcast of this job, into this scope, if it is.
    pub(crate) fn piece(job: SharedJob<J>, scope: Option<S>) -> Parts<J, S>
        ensures { result ≡ OnePiece }
    {
        Parts {
            brings: Brings::Piece(job, scope),
        }
    }

    // Takes out what there is to run.
    pub(crate) fn take(&mut self) -> Parts<J, S>
        ensures given { result ≡ self.old }
        ensures left { self.new ≡ Spent }
    {
        Parts {
            brings: mem::replace(&mut self.brings, Brings::Nothing),
        }
    }

    // What there is to run.
    pub(crate) fn into_brings(self) -> Brings<J, S>
        ensures { brought result ≡ self }
    {
        let Parts { brings } = self;
        brings
    }
}
