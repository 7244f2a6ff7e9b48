//! The laws of the machine, each the contract of a call without arguments: it holds in every world of every run.
ghost use Rattle.rayon_machine_runs.specs.Runs.{Always};
ghost use Rattle.rayon_machine_laws.specs.Committed.{CommittedHold, CommittedSleep, SleepersAreInactive};
ghost use Rattle.rayon_machine_laws.specs.Counted.{ScopesCounted};
ghost use Rattle.rayon_machine_laws.specs.Ends.{EndsLaw};
ghost use Rattle.rayon_machine_laws.specs.Fixed.{FixedLaw};
ghost use Rattle.rayon_machine_laws.specs.Holders.{HolderLaw, IsHolding};
ghost use Rattle.rayon_machine_laws.specs.Latch.{IsGathered, IsLatched, IsSetOnce, SetLaw};
ghost use Rattle.rayon_machine_laws.specs.Letters.{IsLettered, StopsOnSet};
ghost use Rattle.rayon_machine_laws.specs.Moves.{MovesLaw};
ghost use Rattle.rayon_machine_laws.specs.Near.{IsNear};
ghost use Rattle.rayon_machine_laws.specs.Once.{IsBound, IsOnce, IsRedeemed};
ghost use Rattle.rayon_machine_laws.specs.Seats.{IsSeated};
ghost use Rattle.rayon_machine_laws.specs.Stays.{StaysLaw};

/// In every world of every run each number that was given out is a job or a token, and its record says where it is. Its
/// run has begun at most once: a job that is over has run once, and one that was made, queued or handed back has not
/// begun. A job or token that is not over, spent or handed back stands exactly once where its record says, and nowhere
/// else: in that worker's deque, in that worker's FIFO list, in that worker's broadcast list, in that pool's injector,
/// or with that party, in its hand until its run begins and under its run from then on. One that is over, spent or
/// handed back stands nowhere. So no job and no token is lost and none is doubled.
/// A worker has one FIFO list for detached jobs, and one for each scope; a job stands in the one that its record names.
/// No party that is to redeem a token finds the token's FIFO list empty (`redeemed`), be it a scope's or the one of
/// detached jobs: the tokens of a list that are queued or in a hand are no more than the jobs that stand in it.
/// Each piece of a broadcast is bound to one worker (`bound`): it stands in no list but that worker's broadcast list,
/// and once it is taken with no party but that worker, in its hand or under its run. No step changes which worker that
/// is, nor the pool that a job's call was made at, nor what the end of its run sets going; and a job's number of its
/// book stays, unless it is taken back, and once it is filled it stays so (`fixed`).
/// A job whose run ends is over as its run ended, and comes to be over only so; and a step adds one to the number of
/// its runs only where a party comes to stand at its run (`ends`). So a job that has run has stood at its run.
/// A job that is over stays over, with the same ending; a spent token stays spent, and what was handed back stays so
/// (`stays`). So no job runs again. A step leaves a job or a token where it is, or moves it by one of few ways
/// (`moves`): what a party's call has made that party queues, begins or hands back; what is queued is taken by a party
/// to be run; of a FIFO list it is also taken back, and then handed back; a run ends; and a token that was taken is
/// spent. So no job that was queued is handed back but by the party whose call took it back.
/// Each job is queued and run at its own pool, a job of a FIFO list in the one of its own kind, a token in its own
/// worker's deque, and each piece in its own worker's broadcast list; what is run at once is in no list (`near`).
/// It does not say that a job ever runs.
pub fn law_once()
    ensures once { Always IsOnce }
    ensures redeemed { Always IsRedeemed }
    ensures bound { Always IsBound }
    ensures fixed { FixedLaw }
    ensures ends { EndsLaw }
    ensures stays { StaysLaw }
    ensures moves { MovesLaw }
    ensures near { Always IsNear }
{}

/// In every world of every run the latch of a call is set only when the job that the call waits for is over, and the
/// call's cell holds an ending only where that job ended so. The latch of a scope is set only when the scope has ended:
/// no job of it has a share of its count, is queued or runs. The latch of a broadcast that waits is set only when each
/// piece of it is over, and its cell holds an ending only where a piece ended so.
/// A broadcast whose latch is set keeps no fault exactly where each piece has ended without one, and else that of the
/// lowest piece that ended with one; and its Take, which takes its cell, sees a fault exactly where one is kept
/// (`gathered`).
/// Each latch, a call's and each worker's terminate latch, is set once at most, and by one party: whose next act sets
/// it finds it unset, and is the only party whose next act does (`once`); and in each step of each run a latch that is
/// set stays set, and comes to be set by such an act alone, which leaves it set (`sets`).
/// It does not say that a latch is ever set.
pub fn law_latch()
    ensures latched { Always IsLatched }
    ensures gathered { Always IsGathered }
    ensures once { Always IsSetOnce }
    ensures sets { SetLaw }
{}

/// In every world of every run each scope's count is the number of its shares: 1 for its body, at least until that is
/// over, and 1 for each job of the scope with a share, which each has that is queued or runs. So a scope whose count is
/// 0 has ended: its body is over, and no job of it is queued or runs. The jobs of a scope are those spawned into it, in
/// order or not, and the pieces of broadcasts into it.
/// The count of a broadcast that waits is the number of its pieces: until they are dealt so many shares wait in it, and
/// from then on each piece has its own until it is over. So a broadcast whose count is 0 has ended: each piece is over.
/// It does not say that a scope or a broadcast ever ends.
pub fn law_scope()
    ensures { Always ScopesCounted }
{}

/// In every world of every run each sleeping worker is inactive, and each worker that is about to block itself or is
/// blocked is counted as sleeping, and holds its own sleep lock unless it is blocked.
/// A worker is inactive exactly where it stands in its search, from the act by which it becomes inactive to the one by
/// which it leaves; it counts as sleeping exactly from its TryAdd to the act by which it blocks or takes itself out,
/// and while it is blocked; and it is blocked only where it is to take its own lock again (`seated`).
/// A worker stops only once its terminate latch is set, and leaves its search without a task only once the latch that
/// it waits for is set (`stops`).
/// A latch that is not set is sleepy exactly where its worker is about to take its own lock and to fall asleep for it,
/// sleeping exactly from there to the act by which the worker wakes up, and else unset (`letters`).
/// A party holds a sleep lock exactly where it stands between its Lock and its Unlock or Block, and so with a scope's
/// book and a FIFO list, between the act that takes it and the one that leaves it (`holders`). No step of a run is an
/// act on what another party holds, nor leaves a lock that its party does not hold (`guards`).
pub fn law_sleep()
    ensures inactive { Always SleepersAreInactive }
    ensures asleep { Always CommittedSleep }
    ensures held { Always CommittedHold }
    ensures seated { Always IsSeated }
    ensures stops { Always StopsOnSet }
    ensures letters { Always IsLettered }
    ensures holders { Always IsHolding }
    ensures guards { HolderLaw }
{}
