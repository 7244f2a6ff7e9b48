//! What a call lends to its performer until it is queued.
use rayon_jobs::JobKind;
use rayon_tasks::Ticket;

/// What a call made outside the pool queues there.
#[derive(Drop)]
pub enum Load<J: JobKind> {
    /// A job, for whose result the call waits.
    Job(J),
    /// Two sides, which a worker joins: the call waits for the results of both.
    Sides(J, J),
    /// A detached job, with its ticket.
    Detached(J, Ticket<J>),
    /// A job of a scope, with its ticket, which has no number of the scope's book yet.
    Scoped(J, Ticket<J>),
    /// A job of which each worker gets a piece: the call waits for the results of all pieces.
    Cast(J),
}
