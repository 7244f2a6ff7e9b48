//! The unit of the terminate count that a pool's value holds.
ghost use Rattle.rayon_atomics.specs.Tallies.{novice, teller};
ghost use Rattle.std.specs.Prelude.{◌≡◌};

use rayon_atomics::count::CountSeat;
use std::marker::Model;

/// The unit of the terminate count that a pool's value holds, and the seat by which it is given back. It has no `Drop`:
/// whoever has it has to give it back. Contracts see which count it is of.
pub struct PoolHold {
    seat: CountSeat,
}

impl Model for PoolHold {
    ghost use Rattle.atomic_table.specs.Seated.{TableId};
    ghost use Rattle.rayon_atomics.specs.Tallies.{novice, teller};
    ghost use Rattle.std.specs.Prelude.{◌≡◌};

    ghost Value = { TableId };

    ghost view = { λ h. h.seat.table_id };

    ghost invariant = { λ h. teller h.seat ≡ novice };
}

impl PoolHold {
    // The unit of a pool that begins, of the count that this is the first seat of.
    pub(crate) fn new(seat: CountSeat) -> PoolHold
        requires { teller seat ≡ novice }
        ensures { result ≡ seat.table_id }
    {
        PoolHold { seat }
    }

    /// It is given back, by this seat, which has made no step yet.
    pub fn spend(self) -> CountSeat
        ensures count { result.table_id ≡ self }
        ensures seat { teller result ≡ novice }
    {
        let PoolHold { seat } = self;
        seat
    }
}
