//! The law of completions, the contract of a call without arguments: it holds in every world of every run.
ghost use Rattle.rayon_machine_runs.specs.Runs.{Always};
ghost use Rattle.rayon_machine_sleep_laws.specs.Done.{IsJobDone, IsPoolDone, IsScopeDone};

/// No completion is lost, in any world of any run. Where a job is over that an install or a join has queued and waits
/// for, and its share is not given back, the latch of that call is set, or some party's next act sets it, or stores how
/// the job ended, which comes before that; or the next act of the call's own party, which has run the job itself, gives
/// the share back (`job`).
/// Where the count of a call is 0, be it a scope's or that of a broadcast that waits, its latch is set, or some party's
/// next act sets it (`scope`). Where the terminate count of a pool is 0, each worker's terminate latch is set, or some
/// party that sets the pool's terminate latches one after the other has not passed it: it is about to set that latch or
/// one of a worker before, or wakes a worker before (`pool`).
/// It does not say that a party ever takes its next step.
pub fn law_done()
    ensures job { Always IsJobDone }
    ensures scope { Always IsScopeDone }
    ensures pool { Always IsPoolDone }
{}
