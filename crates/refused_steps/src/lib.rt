//! Lists of steps on the pure machine, of which an allocation may be refused, and how often they had no room.
#![tactic(auto)]

use rayon_machine::error::{StartError, StepError};
use rayon_machine::event::Event;
use rayon_machine::place::{Ending, Party};
use rayon_machine::shape::{Order, PoolShape};
use rayon_machine::world::World;
use std::alloc::Global;
use std::io::Read;
use std::rt::Runtime;
use std::{fmt, io, str};

/// The most bytes that standard input may have.
const INPUT_BYTES: usize = 64;

const WORKER: Party = Party::Worker { pool: 0, index: 0 };

const CALLER: Party = Party::Caller(0);

const SHAPE: PoolShape = PoolShape {
    workers: 1,
    limit: 0,
    order: Order::NewestFirst,
    callers_own: false,
};

const FINE: Event = Event::End {
    party: WORKER,
    ending: Ending::Fine,
};

const FAULT: Event = Event::End {
    party: WORKER,
    ending: Ending::Fault,
};

/// An install whose job joins two sides, and then a spawn: each event, and how often it is made.
const STEPS: [(Event, u32); 14] = [
    (
        Event::Install {
            party: CALLER,
            pool: 0,
        },
        1,
    ),
    (Event::Go(CALLER), 5),
    (Event::Go(WORKER), 10),
    (Event::Join(WORKER), 1),
    (Event::Go(WORKER), 5),
    (FINE, 1),
    (Event::Go(WORKER), 3),
    (FINE, 1),
    (Event::Go(WORKER), 1),
    (FINE, 1),
    (Event::Go(WORKER), 2),
    (Event::Go(CALLER), 3),
    (
        Event::Spawn {
            party: CALLER,
            pool: 0,
        },
        1,
    ),
    (Event::Go(CALLER), 4),
];

/// An install whose job opens a scope, spawns into it, in order too, and broadcasts into it, and spawns in order and
/// broadcasts beside it. The jobs run, one of them faults, and a piece broadcasts and waits. Last the caller
/// broadcasts.
const SCOPES: [(Event, u32); 36] = [
    (
        Event::Install {
            party: CALLER,
            pool: 0,
        },
        1,
    ),
    (Event::Go(CALLER), 5),
    (Event::Go(WORKER), 10),
    (
        Event::Scope {
            party: WORKER,
            pool: 0,
        },
        1,
    ),
    (Event::Go(WORKER), 2),
    (
        Event::IntoSpawn {
            party: WORKER,
            scope: 0,
        },
        1,
    ),
    (Event::Go(WORKER), 5),
    (
        Event::IntoFifo {
            party: WORKER,
            scope: 0,
        },
        1,
    ),
    (Event::Go(WORKER), 6),
    (
        Event::IntoCast {
            party: WORKER,
            scope: 0,
        },
        1,
    ),
    (Event::Go(WORKER), 6),
    (
        Event::Fifo {
            party: WORKER,
            pool: 0,
        },
        1,
    ),
    (Event::Go(WORKER), 5),
    (
        Event::Cast {
            party: WORKER,
            pool: 0,
        },
        1,
    ),
    (Event::Go(WORKER), 5),
    // the body ends, and in its wait the newest job begins: the detached one
    (FINE, 1),
    (Event::Go(WORKER), 5),
    (FINE, 1),
    (Event::Go(WORKER), 4),
    // then the scope's two jobs and its piece, which faults
    (FINE, 1),
    (Event::Go(WORKER), 5),
    (FINE, 1),
    (Event::Go(WORKER), 6),
    (FAULT, 1),
    (Event::Go(WORKER), 6),
    // the installed job ends, and the detached piece begins
    (FINE, 1),
    (Event::Go(WORKER), 6),
    (
        Event::Broadcast {
            party: WORKER,
            pool: 0,
        },
        1,
    ),
    (Event::Go(WORKER), 10),
    (FINE, 1),
    (Event::Go(WORKER), 6),
    (FAULT, 1),
    (Event::Go(WORKER), 1),
    (Event::Go(CALLER), 3),
    (
        Event::Cast {
            party: CALLER,
            pool: 0,
        },
        1,
    ),
    (Event::Go(CALLER), 5),
];

/// What the world shows of its pool, its worker and its jobs.
#[derive(Clone, Copy, PartialEq, Eq)]
struct View {
    sleeping: u64,
    inactive: u64,
    turn: u64,
    injected: usize,
    count: u64,
    deque: usize,
    queued: u64,
    running: u64,
    done: u64,
}

impl View {
    /// What this world shows. None where it has no pool or no worker.
    fn of(world: &World) -> Option<View> {
        let pool = world.pool_at(0)?;
        let worker = world.worker_at(0, 0)?;
        let jobs = world.job_totals();
        Some(View {
            sleeping: pool.sleeping,
            inactive: pool.inactive,
            turn: pool.turn,
            injected: pool.injected,
            count: pool.count,
            deque: worker.deque,
            queued: jobs.queued,
            running: jobs.running,
            done: jobs.done,
        })
    }
}

impl fmt::Display for View {
    fn fmt<W: fmt::Write>(&self, f: &mut fmt::Formatter<W>) -> fmt::Result {
        let View {
            turn,
            injected,
            count,
            queued,
            done,
            ..
        } = *self;
        write!(
            f,
            "turn {turn} injected {injected} count {count} queued {queued} done {done}"
        )
    }
}

/// How a step went.
#[derive(Clone, Copy, PartialEq, Eq)]
enum Stepped {
    /// At once.
    Made,
    /// It had no room, the world was as before, and the same step was made then.
    MadeAgain,
    /// It was not made, or the world was another one after a refusal.
    Failed,
}

// Makes a step and, where it has no room, the same again.
fn step(world: &mut World, event: Event) -> Stepped {
    let before = View::of(world);
    match world.step(event) {
        Ok(()) => Stepped::Made,
        Err(StepError::NoRoom) if View::of(world) == before && world.step(event).is_ok() => {
            Stepped::MadeAgain
        }
        Err(_) => Stepped::Failed,
    }
}

// Makes an event so often. How many of the steps had no room at first, or None where one failed.
fn repeat(world: &mut World, event: Event, times: u32) -> Option<u32> {
    let mut refused = 0u32;
    for _ in 0..times {
        match step(world, event) {
            Stepped::Made => {}
            Stepped::MadeAgain => refused = refused.saturating_add(1),
            Stepped::Failed => return None,
        }
    }
    Some(refused)
}

// Makes all steps. How many of them had no room at first, or None where one failed.
fn replay(world: &mut World, steps: &[(Event, u32)]) -> Option<u32> {
    let mut refused = 0u32;
    for (event, times) in steps {
        refused = refused.saturating_add(repeat(world, *event, *times)?);
    }
    Some(refused)
}

// Makes and gives back so many allocations. False where one was refused.
fn allocate(alloc: Global, count: u32) -> bool {
    for _ in 0..count {
        if Box::new(alloc, count).is_err() {
            return false;
        }
    }
    true
}

// The start world, and how often it had no room. None where it is not made the second time either.
fn start(alloc: Global) -> Option<(World, u32)> {
    match World::start(alloc, &[SHAPE], 32) {
        Ok(world) => Some((world, 0)),
        Err(StartError::NoRoom) => Some((World::start(alloc, &[SHAPE], 32).ok()?, 1)),
        Err(StartError::BadStart) => None,
    }
}

// Whether the input names the list with scopes, and its number.
fn words(input: &[u8]) -> Option<(bool, u32)> {
    let (name, number) = str::from_utf8(input).ok()?.trim().split_once(' ')?;
    let number = number.parse().ok()?;
    match name {
        "steps" => Some((false, number)),
        "scopes" => Some((true, number)),
        _ => None,
    }
}

/// Makes a list of steps on the pure machine and, where an allocation of the start or of a step was refused, looks
/// whether the world is as before and makes the same call again. It prints how often that was, and what the world shows
/// at the end. Standard input has the name of the list, `steps` or `scopes`, and the number of allocations that are
/// made and given back before anything else.
pub fn answer_input<R: Runtime>(rt: &R, alloc: Global) -> io::Result<()> {
    let mut input = [0u8; INPUT_BYTES];
    let length = rt.reader().read(&mut input)?;
    let Some((with_scopes, before)) = words(&input[..length]) else {
        return println!(rt; "bad input");
    };
    if !allocate(alloc, before) {
        return println!(rt; "refused before the start");
    }
    let Some((mut world, starts)) = start(alloc) else {
        return println!(rt; "no start");
    };
    let steps = if with_scopes {
        replay(&mut world, &SCOPES)
    } else {
        replay(&mut world, &STEPS)
    };
    match (steps, View::of(&world)) {
        (Some(steps), Some(view)) => {
            println!(rt; "no room at {starts} starts and {steps} steps; {view}")
        }
        _ => println!(rt; "a step failed"),
    }
}
