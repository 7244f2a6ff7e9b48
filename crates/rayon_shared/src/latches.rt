//! The setting of a core latch by whoever has no seat of it.
ghost use Rattle.std.specs.Prelude.{◌≡◌, Some, false, is_some, MatchOption};
ghost use Rattle.rayon_atomics.specs.Latches.{guard};
ghost use Rattle.rayon_shared.specs.Marks.{SetBy};

use rayon_atomics::latch::{CoreLatch, LatchSeat};

/// Sets the latch, if there is one, by the one step that makes a seat of it. Answers whether its owner slept, and that
/// seat.
pub fn set_latch(latch: Option<&CoreLatch>) -> Option<(bool, LatchSeat)>
    ensures { MatchOption result (is_some latch.entry ≡ false) (λ r. SetBy ⊥ r.0 (Some (guard r.1))) }
{
    Some(latch?.set_as_guest())
}
