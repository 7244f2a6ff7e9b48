//! The law of the order of jobs on one worker, the contract of a call without arguments: it holds in every stretch of
//! every run.
ghost use Rattle.rayon_machine_orders.specs.Lists.{ListLaw};
ghost use Rattle.rayon_machine_orders.specs.Looks.{MissLaw, TellLaw};
ghost use Rattle.rayon_machine_orders.specs.Order.{LevelLaw, TokenLaw, TreeLaw};
ghost use Rattle.rayon_machine_orders.specs.Placed.{DealtLaw, PlacedLaw};
ghost use Rattle.rayon_machine_orders.specs.Queue.{QueueLaw};

/// In a pool of one worker the jobs of the worker's own deque begin, and the tokens in it are redeemed, in the order in
/// which a token list hands them out, from what stood in the deque on: what is added stands last, and the last comes
/// next, or the first in a pool that is oldest first. Beside it stand the worker's FIFO lists, from what stood in them
/// on: a token that is redeemed begins the first job of its list. That holds of every stretch of every run, whatever
/// the worker and other parties do in it, and at its end the list has what stands in the deque, and at most one job or
/// token more, which the worker has taken and neither begun nor redeemed; the FIFO lists are the worker's.
/// Where the stretch begins between two runs of the worker, and the worker makes no call in it but spawns that are not
/// in order, refused or not, and redeems no token, its jobs begin in the order of a walk of the trees of spawns: in
/// preorder with children reversed, or level by level in a pool that is oldest first. First come the trees under what
/// stood in the deque, and then, one after the other, those of the jobs that came from elsewhere. Of a stretch that is
/// cut off before the deque is empty this is the order in which jobs have begun, and then the order in which the deque
/// would hand out what is left.
/// Where the stretch begins between two runs, only tokens of one FIFO list of the worker stand in its deque, and it
/// makes no call but spawns in order for that list, refused or not, its jobs begin level by level, whatever the order
/// of the pool (`levels`): first the trees under what stood in the list, then those of the jobs that came from
/// elsewhere; and what is left is what the list holds. The list may be that of detached jobs, or that of a scope.
/// Each worker's FIFO lists are queues, in every pool, whatever its order (`queue`): a job that is added stands last, a
/// refused call takes the last back, each token that is redeemed begins the first, and no other step changes a list.
/// Own deques, injectors and broadcast lists are queues too, in every pool (`lists`): a worker pushes onto its own
/// deque last, and pops the last, or the first in a pool that is oldest first; a thief takes the first. What is pushed
/// into an injector stands last there, and the pool's workers take the first, as each worker does from its own
/// broadcast list, to which a broadcast adds that worker's piece last. Who takes has the job or token in hand then, a
/// list that is not empty gives one, and no other step changes a list.
/// A steal misses only in a pool that is newest first, at a deque with exactly one task (`misses`). Who pushes a job or
/// a token has looked at the very queue that the push goes to, and tells of that pool next, with what the queue was:
/// empty or not (`told`).
/// A call that nothing refused, and that is over, has queued its job just once, where it belongs (`placed`): a worker
/// of the pool on its own deque, or of a job in order in its FIFO list and the token on its deque, others in the pool's
/// injector; a join queues its second side, a broadcast that waits all its pieces at once, a scope and an install by a
/// worker of the pool nothing. So a job that a worker spawns at its pool reaches it through its own deque alone. A
/// broadcast that waits for nothing has queued its pieces once, all at once, in the broadcast lists of its pool
/// (`dealt`).
/// It does not say that a job ever begins.
pub fn law_order()
    ensures tokens { TokenLaw }
    ensures trees { TreeLaw }
    ensures levels { LevelLaw }
    ensures queue { QueueLaw }
    ensures lists { ListLaw }
    ensures misses { MissLaw }
    ensures told { TellLaw }
    ensures placed { PlacedLaw }
    ensures dealt { DealtLaw }
{}
