//! The laws of sleep and waking, each the contract of a call without arguments: it holds in every world of every run.
ghost use Rattle.rayon_machine_laws.specs.Attended.{IsCastAttended, IsEmptyHanded, IsInjectorAttended, IsLatchAttended};
ghost use Rattle.rayon_machine_laws.specs.Leavers.{LeaverLaw, TellerLaw};
ghost use Rattle.rayon_machine_runs.specs.Runs.{Always};
ghost use Rattle.rayon_machine_sleep_laws.specs.Announced.{AnnouncedLaw};
ghost use Rattle.rayon_machine_sleep_laws.specs.Parity.{RaiseLaw};
ghost use Rattle.rayon_machine_sleep_laws.specs.Searched.{SearchLaw};
ghost use Rattle.rayon_machine_sleep_laws.specs.Walks.{WalkLaw};
ghost use Rattle.rayon_machine_laws.specs.Turn.{TurnLaw};

/// No worker sleeps beside work that nobody attends to, in any world of any run. Where a pool's injector is filled and
/// a worker of the pool is about to block itself or is blocked, another worker of it looks for work, or some party has
/// pushed a job and not yet told of it, or still owes a wake to a worker that it has not passed. A blocked worker
/// waits on a latch, and where that latch is set, the party that has set it has not yet woken the worker. Where a
/// worker that is about to block itself or is blocked has a filled broadcast list, some party has put tasks there and
/// has not passed the worker. A blocked worker's own deque is empty. Between a worker's last Announce and its Block
/// its last looks are a whole search of its own that found nothing. A worker that leaves its search, with a task or
/// without, owes its pool then a wake for each worker that sleeps there, but no more than two (`leavers`). A party
/// that tells a pool's news owes it then one wake, but none where nobody sleeps, or where the queue was empty before
/// its push and an inactive worker is awake (`tellers`). Who owes wakes to a pool walks from worker to worker: it
/// takes the worker's lock, makes the Wake there, by which it owes one wake less exactly where the worker was blocked,
/// and leaves the lock; where it still owes a wake it goes on to the next worker, and where it owes none, or there is
/// no next one, the walk is over (`walks`). Before a worker blocks itself it has announced itself, and since then it
/// has not become inactive, nor blocked itself, nor been counted as sleeping no more (`announced`).
pub fn law_attended()
    ensures injector { Always IsInjectorAttended }
    ensures latch { Always IsLatchAttended }
    ensures cast { Always IsCastAttended }
    ensures own { Always IsEmptyHanded }
    ensures search { SearchLaw }
    ensures leavers { LeaverLaw }
    ensures tellers { TellerLaw }
    ensures walks { WalkLaw }
    ensures announced { AnnouncedLaw }
{}

/// The event counter's turn tells a worker that falls asleep whether there was news since its last Announce, as long as
/// the counter has not gone round: where fewer raises of the pool's turn than the counter has values lie between a
/// worker's last Announce and its TryAdd that is done, there is no raise and no News of the pool between. The counter
/// may have any number of bits. In each step an Announce leaves the turn of its pool even, by one raise where it was
/// odd; a News leaves the turn of the pool that it tells of odd, by one raise where it was even; and no other step
/// changes a turn (`raises`).
pub fn law_turn()
    ensures turn { TurnLaw }
    ensures raises { RaiseLaw }
{}
