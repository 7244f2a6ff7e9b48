//! Tests of `drive` with a performer that sees what a list says.
use rayon_drive::drive::{Perform, drive};
use rayon_drive::trace::Trace;
use rayon_machine_places::act::{Act, Seen};
use rayon_machine_places::place::{Move, Party, Place, Taken, Target};
use rayon_machine_places::shape::{Order, PoolShape};
use std::sync::Wait;
use std::test::Fail;

// The acts that the tests look for.
#[derive(Clone, Copy, Debug, PartialEq, Eq)]
enum Made {
    Probe,
    PopOwn,
    TakeCast,
    AddInactive,
    SubInactive,
    Other,
}

impl Made {
    fn of(act: Act) -> Made {
        match act {
            Act::Probe(_) => Made::Probe,
            Act::PopOwn => Made::PopOwn,
            Act::TakeCast => Made::TakeCast,
            Act::AddInactive => Made::AddInactive,
            Act::SubInactive => Made::SubInactive,
            _ => Made::Other,
        }
    }
}

// Sees what its list says, the last first and then that a latch is set, and keeps the acts that it made.
#[derive(Drop)]
struct Script {
    sees: Vec<Seen>,
    made: Vec<Made>,
    trace: Trace,
}

impl Perform for Script {
    ghost use Rattle.std.specs.Prelude.{⊤};

    ghost needs = { λ s a. ⊤ };

    ghost performed = { λ s a x t. ⊤ };

    ghost trace = { λ s. s.trace };

    ghost stands = { λ s q m. ⊤ };

    fn perform<R: Wait>(&mut self, _rt: &R, act: Act) -> Seen {
        let seen = self.sees.pop().unwrap_or(Seen::Yes);
        if self.made.push(Made::of(act)).is_err() {
            self.sees.clear();
        }
        self.trace.add(act, seen);
        seen
    }

    ghost stays = { λ s q m p e h. tt };

    ghost can = { λ s q p r h. tt };

    ghost keeps = { λ s t h q p x r a d. tt };
}

// Where a worker's loop leads that sees these things, the last first, and the acts that it makes.
fn driven<R: Wait>(rt: &R, sees: Vec<Seen>, made: Vec<Made>) -> (Move, Vec<Made>) {
    let shape = PoolShape {
        workers: 2,
        limit: 32,
        order: Order::NewestFirst,
        callers_own: false,
    };
    let party = Party::Worker { pool: 0, index: 1 };
    let place = Place::ProbeWorking(Target::Termination.wait());
    let mut script = Script {
        sees,
        made,
        trace: Trace::new(),
    };
    let to = drive(rt, shape, party, Move::Stay(place), &mut script);
    (to, script.made)
}

// A worker whose latch is set stops after the one look.
#[test]
fn a_worker_with_a_set_latch_stops(rt: HostRuntime) -> Result<(), Fail> {
    let alloc = rt.alloc();
    let (to, made) = driven(&rt, Vec::new(alloc), Vec::new(alloc));
    assert!(rt; matches!(to, Move::Stay(Place::Stopped)));
    assert_eq!(rt; made.as_slice(), [Made::Probe].as_slice());
    Ok(())
}

// A worker that finds a task in its own deque begins it, above its wait, and makes no act more.
#[test]
fn a_popped_task_begins(rt: HostRuntime) -> Result<(), Fail> {
    let alloc = rt.alloc();
    let sees = vec![in alloc; Seen::Task(Taken::Plain(7)), Seen::No]?;
    let (to, made) = driven(&rt, sees, Vec::new(alloc));
    assert!(rt;
        matches!(
            to,
            Move::Enter {
                frame: Place::ProbeWorking(_),
                place: Place::BeginTask(Taken::Plain(7))
            }
        )
    );
    assert_eq!(rt; made.as_slice(), [Made::Probe, Made::PopOwn].as_slice());
    Ok(())
}

// A worker that finds nothing counts itself as inactive, and as active again where its latch is set then, and stops.
#[test]
fn a_worker_without_work_becomes_inactive(rt: HostRuntime) -> Result<(), Fail> {
    let alloc = rt.alloc();
    let idle = [Seen::Wakes(0), Seen::Yes, Seen::Done];
    let busy = [Seen::Missing, Seen::Missing, Seen::No];
    let mut sees = Vec::new(alloc);
    for seen in idle.into_iter().chain(busy) {
        sees.push(seen)?;
    }
    let (to, made) = driven(&rt, sees, Vec::new(alloc));
    assert!(rt; matches!(to, Move::Stay(Place::Stopped)));
    let want = [
        Made::Probe,
        Made::PopOwn,
        Made::TakeCast,
        Made::AddInactive,
        Made::Probe,
        Made::SubInactive,
    ];
    assert_eq!(rt; made.as_slice(), want.as_slice());
    Ok(())
}
