//! The laws of the terminate count and of how calls end, each the contract of a call without arguments: it holds in
//! every world of every run.
ghost use Rattle.rayon_machine_runs.specs.Runs.{Always};
ghost use Rattle.rayon_machine_laws.specs.Counted.{IsCounted};
ghost use Rattle.rayon_machine_laws.specs.End.{IsEnd, IsRefused, IsReturned};
ghost use Rattle.rayon_machine_laws.specs.Shares.{NoEarlyEnd};
ghost use Rattle.rayon_machine_orders.specs.Books.{IsBooked};
ghost use Rattle.rayon_machine_orders.specs.Calls.{CallLaw};
ghost use Rattle.rayon_machine_orders.specs.Casts.{CastLaw};
ghost use Rattle.rayon_machine_orders.specs.Faults.{FaultLaw, IsKept};
ghost use Rattle.rayon_machine_orders.specs.Latched.{TakesOnSet};
ghost use Rattle.rayon_machine_orders.specs.Makes.{MakeLaw};
ghost use Rattle.rayon_machine_orders.specs.Numbers.{NumberLaw};
ghost use Rattle.rayon_machine_orders.specs.Values.{ValueLaw};

/// In every world of every run a pool's terminate count is the number of the shares in it: one for the pool's value
/// until its Lower, and one for each job at the pool that has a share, but the jobs of scopes, whose shares are in
/// their scope's count. Each share is kept exactly once, and no other is kept. The value's share is kept by the held
/// value, or by the one Lower that gives it back. A job's share is kept by the one call that waits for it, from its
/// Raise to its Lower; where no call waits for the job, or it is of a scope, by its call before it is queued or stands
/// in a FIFO list or in a broadcast list, and again once the call has taken it back from there; then by the job itself
/// while it is queued, in one of these lists, in a hand or running, and last by the Lower that follows its run, or the
/// one act by which a refused broadcast gives back the shares of all its pieces. A token has no share. So no share is
/// lost, and none stays in the count that nobody keeps. The pieces of a broadcast that waits have shares of its own
/// count, from the act that queues them on, and the number that stands for the whole has the pool's, which the call
/// that waits keeps. A spawn in order into a scope, and a piece of a scope, have shares of the scope's count.
/// The share that a scope's body has of the scope's count is kept exactly once too, by the party that opened the scope,
/// from the scope's event to its Lower; but once a refused scope has handed its body back nobody is to give that share
/// back. Where a piece of a broadcast that waits is queued, in a hand, running or over, no share waits in its call's
/// count: each is that of a piece.
/// It does not say that a share is ever given back.
pub fn law_count()
    ensures { Always IsCounted }
{}

/// In every world of every run, a call that was not refused and makes its last steps has run each of its jobs once:
/// each is over, what the call took from its cell is how its own job ended, and the fault that it answers is its first
/// side's, else its own job's; but a scope takes, and answers, a fault exactly where its book keeps one. No call finds
/// its cell empty when it takes from it, and none answers that its result is missing. A call takes from its cell only
/// once its latch is set (`latched`), so nobody is to set it any more. A call that is refused has jobs
/// that stand in no list and have never run, before its last step and for ever after. The share of the terminate count
/// that it took is given back: from the act after the one that does it, none of its jobs is in the count, and for ever
/// after its last step. A pool's terminate latch is set only when the pool has ended: its value is given up, no call
/// made at it keeps a share of a count, no job made at it has one, those of scopes and the pieces of broadcasts that
/// wait neither, and no detached job of it is queued, in a FIFO list or running. A pool's value is given up by its
/// EndPool alone, and then it is (`value`).
/// The same is said of calls, with places named by their acts alone (`calls`): from the event by which a party begins a
/// spawn, in order or into a scope or both, an install, a join, a scope or a broadcast that waits, to the first world
/// in which the party's stack is again what it was, the stack stands on what it was. There each job that the event made
/// has run once and is over, as has a scope's body and each piece of a broadcast, one for each worker of the pool and
/// bound to it, or, of a spawn, is queued, in a FIFO list, in a hand, running or over, and of a spawn in order so is
/// the token, or it is spent; but if a step of the call itself was refused, each is handed back, has never run, and has
/// no share of a count and no number of a scope's book that is open. What the call takes from a cell is how the last of
/// its jobs ended, and of a broadcast a fault exactly where a piece ended with one. An install, a join, a scope or a
/// broadcast that nothing refused has its answer where it is to lower the terminate count, and the fault is the one
/// that comes first, but a scope's is the one that its book keeps, and a broadcast's that of its lowest piece; where a
/// scope is to lower its own count its body has run. Once it is over, its share is given back; and no job of a scope,
/// or piece of a broadcast, that nothing refused has a share of its count then, is queued or runs.
/// And so it is of broadcasts that wait for nothing, at a pool or into a scope (`casts`): the event gives out a piece
/// for each worker of the pool, bound to that worker. Once the party's stack is again what it was, each piece is
/// queued, in a hand, running or over; but if a step of the broadcast itself was refused, each is handed back, has
/// never run, and has no share of the pool's or the scope's count, and no number of the scope's book that is open.
/// What an event names is what it makes (`makes`): each number that it gives out is that of a job of the kind, the pool
/// and the worker that the call says, scopes are listed in the order of their openings, and no other event gives out a
/// number or lists a scope.
/// Each number of a scope's book is that of one job, and none below the next one is without a job (`books`). Who is to
/// raise a scope's count for a job, or for the pieces of a broadcast, finds that it is not 0; who is to take numbers
/// back holds the book, and they are its last; who stores how a job of a scope ended finds the job's number open; and
/// where a scope is to take from its cell its count is 0, nobody holds its book,
/// and no number of its jobs is open.
/// A spawn into a scope opens the next number of the scope's book, and a broadcast into one the next numbers, in the
/// order of its workers; the pieces of a broadcast that waits have those from 0 on, each that of its worker
/// (`numbers`).
/// There the book keeps no fault exactly where the scope's body and each job of it that is over ended without one, and
/// else that of the body or of a job that ended so; and the Take sees a fault exactly where one is kept (`faults`). So
/// it is of a broadcast that waited: each piece has run once, and the fault is that of the lowest piece that ended with
/// one. The fault of a scope is the first that was stored (`first`): over each step a fault that is kept stays, and one
/// comes to be kept only by the act that stores the fault of that very job, where none was kept. That of a broadcast
/// gives way to a lower piece's alone.
/// It does not say that a call ever comes to its last step, nor that a pool ever ends.
pub fn law_end()
    ensures ends { Always IsEnd }
    ensures latched { Always TakesOnSet }
    ensures refused { Always IsRefused }
    ensures returned { Always IsReturned }
    ensures early { Always NoEarlyEnd }
    ensures value { ValueLaw }
    ensures calls { CallLaw }
    ensures casts { CastLaw }
    ensures makes { MakeLaw }
    ensures books { Always IsBooked }
    ensures numbers { NumberLaw }
    ensures faults { Always IsKept }
    ensures first { FaultLaw }
{}
