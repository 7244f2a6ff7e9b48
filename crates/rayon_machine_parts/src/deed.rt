//! What a party's next act sees, and what it leaves, before anything is changed.
ghost use Rattle.std.specs.Prelude.{◌≡◌, true, IfErr, IfOk};
ghost use Rattle.rayon_machine_numbers.specs.Numbers.{census_counts, is_census};
ghost use Rattle.rayon_machine_parts.specs.State.{seat_at, shape_of, IsDeed, IsNoDeed, counts_in};
ghost use Rattle.rayon_machine_runs.specs.World.{count_below};

use crate::parts::Parts;
use crate::shapes::Shapes;
use crate::spot::{Spot, list_of};
use rayon_machine_numbers::numbers::{Census, Touched};
use rayon_machine_numbers::outcome::looks_at_counts;
use rayon_machine_places::act::{Act, Seen};
use rayon_machine_places::place::Party;
use rayon_machine_places::shape::Order;
use rayon_machine_runs::error::StepError;

/// What an act touches, what it sees, and the numbers after it. `order` is the order in which the
/// party's pool takes tasks.
/// It is the running world's own part, and not for users.
#[derive(Clone, Copy)]
pub struct Deed {
    /// The act.
    pub act: Act,
    /// What it touches.
    pub spot: Spot,
    /// The order in which the party's pool takes tasks.
    pub order: Order,
    /// What it sees.
    pub seen: Seen,
    /// The numbers after it.
    pub after: Touched,
}

impl Parts {
    /// How many of a pool's workers sleep, and how many are inactive.
    pub fn census(&self, pool: usize, workers: usize) -> Census
        ensures sleeping { result.sleeping ≡ count_below workers (λ i. (seat_at self.now.benches.items pool i).asleep) }
        ensures inactive { result.inactive ≡ count_below workers (λ i. (seat_at self.now.benches.items pool i).inactive) }
    {
        let mut sleeping = 0;
        let mut inactive = 0;
        for index in 0..workers {
            let flags = self.flags(pool, index);
            if flags.asleep {
                sleeping += 1;
            }
            if flags.inactive {
                inactive += 1;
            }
        }
        Census { sleeping, inactive }
    }

    /// The counts of a pool, where the act looks at them.
    fn census_for(&self, shapes: &Shapes, act: Act, pool: usize) -> Census
        ensures { is_census act ≡ true → census_counts result ≡ counts_in (shape_of shapes.now) self.now pool }
    {
        if looks_at_counts(act) {
            self.census(pool, shapes.pool(pool).workers)
        } else {
            Census {
                sleeping: 0,
                inactive: 0,
            }
        }
    }

    /// What a party's act does here.
    pub fn deed(&self, shapes: &Shapes, party: Party, act: Act) -> Result<Deed, StepError>
        ensures ok { IfOk result (λ d. IsDeed (shape_of shapes.now) self.now party act d) }
        ensures not_enabled { IfErr result (λ e. e ≡ StepError.NotEnabled → IsNoDeed (shape_of shapes.now) self.now party act) }
        ensures enabled { IfErr result (λ e. e ≡ StepError.NoRoom → ¬ (IsNoDeed (shape_of shapes.now) self.now party act)) }
    {
        let order = shapes.pool(party.pool()).order;
        let found = self.peek(act, party, order);
        let spot = Spot {
            pool: act.pool(party),
            worker: act.worker(party),
            call: act.call(),
            job: act.job(found),
            list: list_of(act),
        };
        let census = self.census_for(shapes, act, spot.pool);
        let touched = self.touched(spot);
        match touched.outcome(act, party, found, census, shapes.jec_bits) {
            Ok((seen, after)) => Ok(Deed {
                act,
                spot,
                order,
                seen,
                after,
            }),
            Err(error) => Err(error),
        }
    }
}
