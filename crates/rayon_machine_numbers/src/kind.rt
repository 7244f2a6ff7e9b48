//! The kinds of acts, by what they touch.
ghost use Rattle.rayon_machine_numbers.specs.Numbers.{kind_holds};

use rayon_machine_places::act::Act;

/// The kinds of acts, by what they touch.
#[derive(Clone, Copy)]
pub(crate) enum Kind {
    /// A queue.
    Queueing,
    /// A FIFO list.
    Feeding,
    /// The book of a scope.
    Booking,
    /// The counters of inactive and sleeping workers, or the turn.
    Counting,
    /// A latch or a cell.
    Latching,
    /// A sleep lock.
    Locking,
    /// Shares of a count, the run of a job, or nothing.
    Sharing,
}

impl Kind {
    /// The kind of an act.
    pub(crate) fn of(act: Act) -> Kind
        ensures { kind_holds result act }
    {
        match act {
            Act::PopOwn | Act::TakeCast | Act::Steal { .. } | Act::PopInj => Kind::Queueing,
            Act::LookCast | Act::LookInj(_) | Act::LookOwn => Kind::Queueing,
            Act::PushInj { .. } | Act::PushOwn { .. } | Act::PushCast(_) => Kind::Queueing,
            Act::FifoIn { .. } | Act::FifoUndo(_) | Act::FifoOut { .. } => Kind::Feeding,
            Act::Slot { .. } | Act::SlotUndo { .. } => Kind::Booking,
            Act::SlotAll(_) | Act::SlotUndoAll(_) => Kind::Booking,
            Act::StoreBody { .. } | Act::StoreSlot { .. } => Kind::Booking,
            Act::AddInactive
            | Act::Announce
            | Act::Load
            | Act::TryAdd { .. }
            | Act::SubSleeping
            | Act::SubInactive
            | Act::News { .. } => Kind::Counting,
            Act::Probe(_)
            | Act::Sleepy(_)
            | Act::Asleep(_)
            | Act::Wakeup(_)
            | Act::Set { .. }
            | Act::LockSet(_)
            | Act::LockWait(_)
            | Act::Grow(_)
            | Act::Store { .. }
            | Act::StorePiece { .. }
            | Act::Take(_) => Kind::Latching,
            Act::Lock { .. } | Act::Block | Act::Unlock { .. } | Act::Wake { .. } => Kind::Locking,
            Act::Begin(_)
            | Act::Lower { .. }
            | Act::Raise { .. }
            | Act::LowerAll(_)
            | Act::RaiseAll(_)
            | Act::Pick
            | Act::Idle => Kind::Sharing,
        }
    }
}
