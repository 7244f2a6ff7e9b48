//! The laws of steps, each the contract of a call without arguments: it holds in every world of every run.
ghost use Rattle.rayon_machine_runs.specs.Runs.{Always};
ghost use Rattle.rayon_machine_step_laws.specs.Alone.{OthersLaw};
ghost use Rattle.rayon_machine_step_laws.specs.Enabled.{AllowsActs, AllowsCalls, AllowsChoices, AllowsEnds};
ghost use Rattle.rayon_machine_step_laws.specs.Enabled.{AllowsGo, AllowsHolders, AllowsRefusals};
ghost use Rattle.rayon_machine_step_laws.specs.Lowest.{BlocksCallers, IsFounded};
ghost use Rattle.rayon_machine_step_laws.specs.Yields.{LocalLaw, YieldLaw};

/// Which events each world of each run allows, so that no law is met by a machine that stands still.
/// Each party runs a job, is free, has stopped, or stands at a place with an act; and no outside caller stops (`acts`).
/// The lowest place of a worker's stack is one of its wait for the end of its pool, or where it has stopped; that of an
/// outside caller, and of a caller's own worker, is where it is free; and no such place stands above the lowest
/// (`lowest`). Only an outside caller waits for its call by blocking on a lock latch: a worker works meanwhile
/// (`blocks`).
/// A party can make its next act but in three cases: it is to take a sleep lock that is held, or its own while it is
/// blocked; it is to pass a lock latch that is not set; or it is to open or fill a number of a book, or to redeem a
/// token of a FIFO list, and another party holds that book or list (`goes`). Who holds such a lock, book or list can
/// make its own next act, so nobody waits for one who waits for another's (`holders`).
/// An act can be refused exactly where it is one for which room may be wanting (`refusals`). A run can end either way,
/// and nothing else ends (`ends`). A search can begin at each worker of the pool, and a steal can miss exactly where
/// the newest is taken first and the victim has one task (`choices`). A free party can make each call (`calls`).
/// A step is one party's alone: every other party stands where it stood (`others`).
/// No progress and no fairness is claimed: a party that can take a step need not take it.
pub fn law_enabled()
    ensures acts { Always AllowsActs }
    ensures lowest { Always IsFounded }
    ensures blocks { Always BlocksCallers }
    ensures goes { Always AllowsGo }
    ensures holders { Always AllowsHolders }
    ensures refusals { Always AllowsRefusals }
    ensures ends { Always AllowsEnds }
    ensures choices { Always AllowsChoices }
    ensures calls { Always AllowsCalls }
    ensures others { OthersLaw }
{}

/// A yield of a worker is one search in order: its own deque, its own broadcast list, each other worker's deque from
/// some other worker upward and round, the injector (`search`); one that is local looks at the first two (`local`). In
/// each world from its event on it goes on and each of its looks has found nothing; or its last look has found a task,
/// which the worker begins next, and each look before found nothing; or it has made the whole search, has found
/// nothing, and the worker is where it was. Each look is of the list as it was at its own step; a steal that misses the
/// one task of a deque found nothing too. It does not say that a yield comes to its end.
pub fn law_yield()
    ensures search { YieldLaw }
    ensures local { LocalLaw }
{}
