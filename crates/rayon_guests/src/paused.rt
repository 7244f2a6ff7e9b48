//! What an outside caller keeps of a call while it performs nothing of it.
use rayon_atomics::count::CountSeat;
use rayon_drive::trace::Trace;
use rayon_jobs::JobKind;
use rayon_tasks::Ticket;
use std::marker::Model;

/// The call of an outside caller between two stretches of its acts, with its unit of the terminate count: its ticket,
/// its seat of that count, and its trace. It has no `Drop`: the call has to go on. Contracts see all of it.
pub struct Paused<J: JobKind> {
    pub(crate) call: Option<Ticket<J>>,
    pub(crate) count: CountSeat,
    pub(crate) trace: Trace,
}

impl<J: JobKind> Model for Paused<J> {
    ghost use Rattle.std.specs.Coded.{codes};
    ghost use Rattle.rayon_atomics.specs.Tallies.{teller};
    ghost use Rattle.rayon_drive.specs.contracts.trace.Log as logs;
    ghost use Rattle.rayon_guests.specs.Visits.{Pause};

    ghost Value = { Pause };

    ghost coded = { Prim.hlevel (codes, logs.the_row.coded) };

    ghost view = { λ p. record { count = p.count.table_id; call = p.call; seat = teller p.count; trace = p.trace } };
}
