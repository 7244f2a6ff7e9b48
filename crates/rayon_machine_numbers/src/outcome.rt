//! What an act sees, and the numbers after it, whatever its kind.
ghost use Rattle.std.specs.Prelude.{◌≡◌, IfErr, IfOk};
ghost use Rattle.rayon_machine_numbers.specs.Numbers.{Acts, Can, DoesNot, census_counts, is_census};
ghost use Rattle.rayon_machine_places.specs.declared.shape.Order.{Order as AnyOrder};

use crate::kind::Kind;
use crate::numbers::{Census, Touched};
use rayon_machine_places::act::{Act, Seen};
use rayon_machine_places::place::Party;
use rayon_machine_runs::error::StepError;

/// Whether an act looks at the counts of sleeping and inactive workers.
/// It is the running world's own part, and not for users.
pub fn looks_at_counts(act: Act) -> bool
    ensures { result ≡ is_census act }
{
    match act {
        Act::Load | Act::TryAdd { .. } | Act::SubInactive | Act::News { .. } => true,
        _ => false,
    }
}

impl Touched {
    /// What a party's act sees, and the numbers after it, where this task stands at the end of the queue that the act
    /// takes from or looks at. It is `NotEnabled` where the act is not, and `NoRoom` where a number would pass
    /// 2^64 - 1. It is the running world's own part, and not for users.
    pub fn outcome(
        self,
        act: Act,
        party: Party,
        found: Option<u64>,
        census: Census,
        jec_bits: u32,
    ) -> Result<(Seen, Touched), StepError>
        ensures ok { IfOk result (λ r. (o : AnyOrder) → Acts o act party (census_counts census) jec_bits found self (r.0) (r.1)) }
        ensures not_enabled { IfErr result (λ e. e ≡ StepError.NotEnabled → DoesNot act party (census_counts census) self) }
        ensures enabled { IfErr result (λ e. e ≡ StepError.NoRoom → Can act party (census_counts census) self) }
    {
        match Kind::of(act) {
            Kind::Queueing => Ok(self.handle(act, party, found)),
            Kind::Feeding => self.feeds(act, party, found),
            Kind::Booking => self.books(act, party),
            Kind::Counting => self.counters(act, census, jec_bits),
            Kind::Latching => self.latches(act),
            Kind::Locking => self.locks(act, party),
            Kind::Sharing => self.shares(act, party),
        }
    }
}
