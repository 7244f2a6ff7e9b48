//! What a join finds that looks for its own second side, where it does not find that.
ghost use Rattle.std.specs.Prelude.{◌≡◌};
ghost use Rattle.rayon_performers.specs.Waits.{Rejoined, rejoins};

use rayon_machine_places::place::{Move, OpenCall, Place, Taken};

/// What a join finds that looks for its own second side in vain, and where it goes on from there.
#[derive(Clone, Copy, Drop)]
pub enum Reclaimed {
    /// Another task, which is in hand and begins.
    Other {
        /// The task.
        task: Taken,
        /// Whether the join waits on after it for the answer of the worker that took its second side. Else it looks for
        /// its second side once more.
        waits: bool,
    },
    /// The result of the second side, which is at hand if there is one.
    Answered,
}

// What a join has found that has moved so.
#[cold]
#[inline(never)]
pub(crate) fn found_by(call: OpenCall, moved: Move) -> Reclaimed
    requires { Rejoined call moved }
    ensures { rejoins call result ≡ moved }
{
    match moved {
        Move::Enter {
            frame: Place::ProbeWorking(_),
            place: Place::BeginTask(task),
        } => Reclaimed::Other { task, waits: true },
        Move::Enter {
            place: Place::BeginTask(task),
            ..
        } => Reclaimed::Other { task, waits: false },
        _ => Reclaimed::Answered,
    }
}
