//! The tests.
ghost use Rattle.rayon_shared.specs.Seats.{Resting};
ghost use Rattle.std.specs.Arc.{arc_value};
ghost use Rattle.std.specs.Prelude.{◌≡◌, ◌<◌};

use crate::errand::Errand;
use rayon_broadcasts::SharedJob;
use rayon_guests::{Guest, Load};
use rayon_machine_places::place::{Ending, OpenCall, Party, Plan, Then};
use rayon_performers::Bench;
use rayon_queues::XorShift64Star;
use rayon_shared::{PoolHold, Registry, WorkerKit};
use rayon_tasks::{Task, Ticket, Work, pieces_of, task_parts};
use rayon_words::Refusal;
use std::alloc::Global;
use std::process::Abort;
use std::sync::{Arc, Wait};
use std::test::Fail;

// The number of a task's errand, and that of nothing else.
fn number_of(task: Option<Task<Errand>>) -> Option<u8> {
    match task {
        Some(task) => match task_parts(task) {
            (Work::Job(job), _, _) => Some(job.0),
            (Work::Pair(_) | Work::Piece(_) | Work::Token, _, _) => None,
        },
        None => None,
    }
}

// Ends the pool.
fn end<R: Wait>(rt: &R, registry: &Registry<Task<Errand>>, hold: PoolHold)
    requires { hold ≡ registry.now.count }
{
    let mut guest = Guest::new(registry);
    guest.end(rt, hold);
}

// A pool of one worker, what that begins with, and the unit of the terminate count of the pool's value.
struct Lone {
    registry: Arc<Registry<Task<Errand>>, Global>,
    kit: WorkerKit<Task<Errand>>,
    hold: PoolHold,
    ghost workers: { (arc_value registry).workers ≡ 1 },
    ghost own: { hold ≡ (arc_value registry).count },
}

impl Lone {
    fn new<R: Wait + Abort>(rt: &R, alloc: Global) -> Lone {
        let (registry, kits, hold) = Registry::new(alloc, 1, 8, 0, false).expect(rt, "room");
        let registry = Arc::new(alloc, registry).expect(rt, "room");
        let mut kits = kits.into_iter();
        let kit = kits.next().expect(rt, "a deque");
        Lone {
            registry,
            kit,
            hold,
        }
    }

    // The worker, one more share of what the pool has in common, and the unit.
    fn into_parts<R: Abort>(
        self,
        rt: &R,
    ) -> (Bench<Errand>, Arc<Registry<Task<Errand>>, Global>, PoolHold)
        ensures rests { Resting result.0.chair }
        ensures own { result.2 ≡ (arc_value result.1).count }
        ensures one { (result.0.shape.workers ≡ 1) × ((arc_value result.1).workers ≡ 1) }
    {
        let Lone {
            registry,
            kit,
            hold,
        } = self;
        let share = Arc::try_clone(&registry).expect(rt, "room");
        (Bench::new(registry, 0, kit), share, hold)
    }
}

// A pool of one worker that has ended, since the units of the worker and of the pool's value were given back, and the
// worker.
fn ended_pool<R: Wait + Abort>(
    rt: &R,
    alloc: Global,
) -> (Bench<Errand>, Arc<Registry<Task<Errand>>, Global>)
    ensures rests { Resting result.0.chair }
    ensures one { (result.0.shape.workers ≡ 1) × ((arc_value result.1).workers ≡ 1) }
{
    let (mut bench, registry, hold) = Lone::new(rt, alloc).into_parts(rt);
    assert_eq!(rt; bench.open_install(rt, 0), Ok(()));
    let then = Then::Ran {
        job: 0,
        ending: Ending::Fine,
    };
    bench.lower_then(rt, 0, then);
    end(rt, &registry, hold);
    (bench, registry)
}

// A worker's installs and joins on a pool that has ended are refused, with the job back, and a caller's too.
#[test]
fn an_ended_pool_refuses(rt: HostRuntime) -> Result<(), Fail> {
    let alloc = rt.alloc();
    let (mut bench, registry) = ended_pool(&rt, alloc);
    let installed = bench.open_install(&rt, 2);
    let offered = match bench.offer(&rt, alloc, 4, Errand(7), false) {
        Ok(_) => None,
        Err((refusal, job)) => Some((refusal, job.0)),
    };
    let plan = Plan::Send(OpenCall {
        number: 5,
        pool: 0,
        job: 5,
    });
    let sent = match Guest::new(&registry).call(&rt, alloc, plan, Load::Job(Errand(6))) {
        Err((refusal, Load::Job(job))) => Some((refusal, job.0)),
        _ => None,
    };
    assert_eq!(rt; installed, Err(Refusal::Ended));
    assert_eq!(rt; offered, Some((Refusal::Ended, 7)));
    assert_eq!(rt; sent, Some((Refusal::Ended, 6)));
    Ok(())
}

// So is a broadcast that waits, by the worker or a caller: the job comes back, and no piece is queued.
#[test]
fn an_ended_pool_refuses_broadcasts(rt: HostRuntime) -> Result<(), Fail> {
    let alloc = rt.alloc();
    let (mut bench, registry) = ended_pool(&rt, alloc);
    let by_worker = match bench.open_broadcast(&rt, alloc, 2, 4, Errand(7)) {
        Ok(_) => None,
        Err((refusal, job)) => Some((refusal, job.0)),
    };
    let from_outside = match Guest::new(&registry).broadcast(&rt, alloc, 1, 3, Errand(6)) {
        Ok(_) => None,
        Err((refusal, job)) => Some((refusal, job.0)),
    };
    assert_eq!(rt; by_worker, Some((Refusal::Ended, 7)));
    assert_eq!(rt; from_outside, Some((Refusal::Ended, 6)));
    assert_eq!(rt; name_and_errand(bench.take_local(&rt)), None);
    Ok(())
}

// Each outside caller draws a name that no other has, and that the worker does not draw.
#[test]
fn callers_have_names_of_their_own(rt: HostRuntime) -> Result<(), Fail> {
    let (_, registry, hold) = Lone::new(&rt, rt.alloc()).into_parts(&rt);
    let names = (registry.caller_name(&rt), registry.caller_name(&rt));
    end(&rt, &registry, hold);
    assert_eq!(rt; names, (Some(1), Some(3)));
    Ok(())
}

// Whose task a thief takes in a pool of four workers with this seed, where each of the others has one: the errand's
// number is the index of the worker that pushed it.
fn robbed<R: Wait + Abort>(rt: &R, alloc: Global, steal_seed: u64, thief: usize) -> Option<u8> {
    let (registry, kits, hold) = Registry::new(alloc, 4, 8, steal_seed, false).expect(rt, "room");
    let registry = Arc::new(alloc, registry).expect(rt, "room");
    let mut taker = None;
    for (index, kit) in kits.into_iter().enumerate() {
        let share = Arc::try_clone(&registry).expect(rt, "room");
        if index >= share.num_threads() {
            break;
        }
        let mut bench = Bench::new(share, index, kit);
        if index == thief {
            taker = Some(bench);
        } else {
            let offered = bench.offer(rt, alloc, index as u64, Errand(index as u8), false);
            assert!(rt; offered.is_ok(), "room");
        }
    }
    let mut taker: Bench<Errand> = taker.expect(rt, "a worker of this index");
    let task = taker.find_work(rt);
    end(rt, &registry, hold);
    number_of(task)
}

// With whom a worker of this index begins by the generator: the next one upward where it names itself.
fn named(steal_seed: u64, thief: usize) -> Option<u8> {
    let first = XorShift64Star::of_worker(steal_seed, thief).next_usize(4);
    if first == thief {
        Some(((first + 1) % 4) as u8)
    } else {
        Some(first as u8)
    }
}

// The pool's seed and the worker's index say from whom a thief steals first.
#[test]
fn the_seed_says_from_whom_a_thief_steals_first(rt: HostRuntime) -> Result<(), Fail> {
    let alloc = rt.alloc();
    for steal_seed in 0..12 {
        assert_eq!(rt; robbed(&rt, alloc, steal_seed, 0), named(steal_seed, 0));
        assert_eq!(rt; robbed(&rt, alloc, steal_seed, 3), named(steal_seed, 3));
    }
    let mut seeds = 0..12;
    assert!(rt;
        seeds.any(|steal_seed| named(steal_seed, 0) != named(0, 0)),
        "one victim for all"
    );
    Ok(())
}

// The name of a task, and the number of the errand of which it is a piece, if it is one.
fn name_and_errand(task: Option<Task<Errand>>) -> Option<(u64, Option<u8>)> {
    let task = task?;
    let name = task.number();
    let (work, _injected, _ticket) = task_parts(task);
    let errand = match work {
        Work::Piece(place) => match place.job() {
            Some(job) => Some(job.0),
            None => None,
        },
        Work::Job(_) | Work::Pair(_) | Work::Token => None,
    };
    Some((name, errand))
}

// A pool of two workers, each of which has a task in its own deque, whose name is the worker's index.
fn two_benches<R: Wait + Abort>(
    rt: &R,
    alloc: Global,
) -> (
    Arc<Registry<Task<Errand>>, Global>,
    Vec<Bench<Errand>>,
    PoolHold,
)
    ensures own { result.2 ≡ (arc_value result.0).count }
{
    let (registry, kits, hold) = Registry::new(alloc, 2, 8, 0, false).expect(rt, "room");
    let registry = Arc::new(alloc, registry).expect(rt, "room");
    let mut benches = Vec::new(alloc);
    for (index, kit) in kits.into_iter().enumerate() {
        let share = Arc::try_clone(&registry).expect(rt, "room");
        if index >= share.num_threads() {
            break;
        }
        let mut bench = Bench::new(share, index, kit);
        let offered = bench.offer(rt, alloc, index as u64, Errand(index as u8), false);
        assert!(rt; offered.is_ok(), "room");
        assert!(rt; benches.push(bench).is_ok(), "room");
    }
    (registry, benches, hold)
}

// Puts a piece of this errand into each of two workers' lists, under this name and the next one.
fn push_pieces<R: Wait + Abort>(
    rt: &R,
    alloc: Global,
    registry: &Registry<Task<Errand>>,
    first: u64,
    errand: u8,
)
    requires { first < 1000 }
{
    let ticket = Ticket::of_detached(alloc, Party::Caller(0), first).expect(rt, "room");
    let place = SharedJob::new(alloc).expect(rt, "room");
    let pieces = pieces_of(alloc, &place, &ticket, first, 2).expect(rt, "room");
    let pushed = registry
        .casts()
        .push_each(rt, pieces, &place, Errand(errand));
    assert!(rt; pushed.is_ok(), "room");
}

// A worker finds its own pieces of broadcasts, the oldest first, once its own deque is empty and before it steals, and
// no piece of another worker.
#[test]
fn pieces_come_after_the_own_deque(rt: HostRuntime) -> Result<(), Fail> {
    let alloc = rt.alloc();
    let (registry, mut benches, hold) = two_benches(&rt, alloc);
    push_pieces(&rt, alloc, &registry, 100, 7);
    push_pieces(&rt, alloc, &registry, 200, 8);
    let mut thief = benches.pop().expect(&rt, "a worker");
    let mut other = benches.pop().expect(&rt, "a worker");
    let found = [
        name_and_errand(thief.find_work(&rt)),
        name_and_errand(thief.find_work(&rt)),
        name_and_errand(thief.find_work(&rt)),
        name_and_errand(thief.find_work(&rt)),
        name_and_errand(thief.find_work(&rt)),
    ];
    let left = [
        name_and_errand(other.find_work(&rt)),
        name_and_errand(other.take_local(&rt)),
        name_and_errand(other.take_local(&rt)),
    ];
    end(&rt, &registry, hold);
    let [own, piece, next, stolen, none] = found;
    assert_eq!(rt; own, Some((1, None)));
    assert_eq!(rt; (piece, next), (Some((101, Some(7))), Some((201, Some(8)))));
    assert_eq!(rt; (stolen, none), (Some((0, None)), None));
    assert_eq!(rt; left, [Some((100, Some(7))), Some((200, Some(8))), None]);
    Ok(())
}

// A look at the own tasks gives the own deque's first, then the worker's pieces, the oldest first, and no more.
#[test]
fn a_local_look_gives_the_deque_before_pieces(rt: HostRuntime) -> Result<(), Fail> {
    let alloc = rt.alloc();
    let (registry, mut benches, hold) = two_benches(&rt, alloc);
    push_pieces(&rt, alloc, &registry, 100, 7);
    push_pieces(&rt, alloc, &registry, 200, 8);
    let mut bench = benches.pop().expect(&rt, "a worker");
    let found = [
        name_and_errand(bench.take_local(&rt)),
        name_and_errand(bench.take_local(&rt)),
        name_and_errand(bench.take_local(&rt)),
        name_and_errand(bench.take_local(&rt)),
    ];
    end(&rt, &registry, hold);
    let [own, piece, next, none] = found;
    assert_eq!(rt; (own, none), (Some((1, None)), None));
    assert_eq!(rt; (piece, next), (Some((101, Some(7))), Some((201, Some(8)))));
    Ok(())
}
