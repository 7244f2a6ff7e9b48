//! The order in which one worker begins its jobs, told by the number that each job's share has at its end.

use rayon_machine::act::Act;
use rayon_machine::event::Event;
use rayon_machine::place::{Ending, Party, Share};
use rayon_machine::readers::Next;
use rayon_machine::shape::{Order, PoolShape};
use rayon_machine::world::World;
use std::alloc::{AllocError, Global};
use std::test::Fail;

const WORKER: Party = Party::Worker { pool: 0, index: 0 };

const CALLER: Party = Party::Caller(0);

/// How a job is spawned: newest first or in order, into scope 0 or detached.
#[derive(Clone, Copy)]
enum Way {
    Newest,
    InOrder,
    NewestInto,
    InOrderInto,
}

impl Way {
    fn event(self) -> Event {
        let party = WORKER;
        match self {
            Way::Newest => Event::Spawn { party, pool: 0 },
            Way::InOrder => Event::Fifo { party, pool: 0 },
            Way::NewestInto => Event::IntoSpawn { party, scope: 0 },
            Way::InOrderInto => Event::IntoFifo { party, scope: 0 },
        }
    }

    /// The acts of the call.
    fn acts(self) -> u32 {
        match self {
            Way::Newest => 4,
            Way::InOrder => 5,
            Way::NewestInto => 5,
            Way::InOrderInto => 6,
        }
    }
}

/// A job that spawns ten others, by its place, or one that spawns none, by its number.
#[derive(Clone, Copy, PartialEq, Eq)]
enum Name {
    Outer(u8),
    Leaf(i32),
}

/// A job that an outer one spawns.
fn leaf(outer: u8, place: u8) -> Name {
    Name::Leaf(i32::from(outer) * 10 + i32::from(place))
}

fn act(world: &mut World, party: Party, times: u32) -> bool {
    for _ in 0..times {
        if world.step(Event::Go(party)).is_err() {
            return false;
        }
    }
    true
}

/// The worker's next act.
fn next_act(world: &World) -> Option<Act> {
    match world.worker_at(0, 0)?.next {
        Next::Act(act) => Some(act),
        _ => None,
    }
}

/// The number of a job that the worker spawns.
fn spawned(world: &mut World, way: Way) -> Option<u64> {
    if world.step(way.event()).is_err() {
        return None;
    }
    let Some(Act::Raise { job, .. }) = next_act(world) else {
        return None;
    };
    act(world, WORKER, way.acts()).then_some(job)
}

/// The number of the job whose run the worker ends: a job of a scope stores its ending, and each gives its share back.
fn ended(world: &mut World, scoped: bool) -> Option<u64> {
    let party = WORKER;
    let ending = Ending::Fine;
    if world.step(Event::End { party, ending }).is_err() {
        return None;
    }
    if !act(world, WORKER, u32::from(scoped)) {
        return None;
    }
    let Some(Act::Lower { share, .. }) = next_act(world) else {
        return None;
    };
    let Share::OfJob(job) = share else {
        return None;
    };
    act(world, WORKER, 1).then_some(job)
}

/// A world of one worker that runs an installed job, or in it the body of a scope.
fn installed(alloc: Global, order: Order, scoped: bool) -> Option<World> {
    let shape = PoolShape {
        workers: 1,
        limit: 0,
        order,
        callers_own: false,
    };
    let mut world = World::start(alloc, &[shape], 32).ok()?;
    let install = Event::Install {
        party: CALLER,
        pool: 0,
    };
    if world.step(install).is_err() || !act(&mut world, CALLER, 5) || !act(&mut world, WORKER, 10) {
        return None;
    }
    if scoped {
        let scope = Event::Scope {
            party: WORKER,
            pool: 0,
        };
        if world.step(scope).is_err() || !act(&mut world, WORKER, 2) {
            return None;
        }
    }
    Some(world)
}

/// Spawns jobs in these ways, and adds each job's number with its name; whether the machine takes all.
fn spawn_named(
    world: &mut World,
    spawns: &[(Way, Name)],
    names: &mut Vec<(u64, Name)>,
) -> Result<bool, AllocError> {
    for (way, name) in spawns {
        match spawned(world, *way) {
            Some(job) => names.push((job, *name))?,
            None => return Ok(false),
        }
    }
    Ok(true)
}

/// Spawns the ten jobs of an outer one in this way, likewise.
fn spawn_leaves(
    world: &mut World,
    way: Way,
    outer: u8,
    names: &mut Vec<(u64, Name)>,
) -> Result<bool, AllocError> {
    for place in 0..10 {
        match spawned(world, way) {
            Some(job) => names.push((job, leaf(outer, place)))?,
            None => return Ok(false),
        }
    }
    Ok(true)
}

/// Whether jobs that are spawned so begin in this order. An outer job spawns its ten in this way.
fn begin_so(
    alloc: Global,
    order: Order,
    scoped: bool,
    spawns: &[(Way, Name)],
    inner: Way,
    wanted: &[Name],
) -> Result<bool, AllocError> {
    let Some(mut world) = installed(alloc, order, scoped) else {
        return Ok(false);
    };
    let mut names = Vec::new(alloc);
    if !spawn_named(&mut world, spawns, &mut names)? {
        return Ok(false);
    }
    let party = WORKER;
    let ending = Ending::Fine;
    if world.step(Event::End { party, ending }).is_err() || !act(&mut world, WORKER, 2) {
        return Ok(false);
    }
    for name in wanted {
        if !act(&mut world, WORKER, 3) {
            return Ok(false);
        }
        if let Name::Outer(outer) = *name {
            if !spawn_leaves(&mut world, inner, outer, &mut names)? {
                return Ok(false);
            }
        }
        let Some(ended) = ended(&mut world, scoped) else {
            return Ok(false);
        };
        if !names
            .iter()
            .any(|(job, other)| *job == ended && other == name)
        {
            return Ok(false);
        }
    }
    Ok(true)
}

/// The outer jobs, spawned in this way.
fn outers(alloc: Global, way: Way) -> Result<Vec<(Way, Name)>, AllocError> {
    let mut spawns = Vec::new(alloc);
    for outer in 0..10 {
        spawns.push((way, Name::Outer(outer)))?;
    }
    Ok(spawns)
}

/// Each outer job before its ten, which come from the first or from the last, as the outer jobs do.
fn trees(alloc: Global, last_outer: bool, last_leaf: bool) -> Result<Vec<Name>, AllocError> {
    let mut wanted = Vec::new(alloc);
    for i in 0u8..10 {
        let outer = if last_outer { 9 - i } else { i };
        wanted.push(Name::Outer(outer))?;
        for j in 0u8..10 {
            wanted.push(leaf(outer, if last_leaf { 9 - j } else { j }))?;
        }
    }
    Ok(wanted)
}

/// All outer jobs, and then all others.
fn levels(alloc: Global) -> Result<Vec<Name>, AllocError> {
    let mut wanted = Vec::new(alloc);
    for outer in 0..10 {
        wanted.push(Name::Outer(outer))?;
    }
    for outer in 0..10 {
        for place in 0..10 {
            wanted.push(leaf(outer, place))?;
        }
    }
    Ok(wanted)
}

#[test]
fn trees_of_jobs(rt: HostRuntime) -> Result<(), Fail> {
    let alloc = rt.alloc();
    let newest = outers(alloc, Way::Newest)?;
    let in_order = outers(alloc, Way::InOrder)?;
    let first = Order::NewestFirst;
    let wanted = trees(alloc, true, true)?;
    assert!(rt; begin_so(alloc, first, false, &newest, Way::Newest, &wanted)?);
    let wanted = trees(alloc, true, false)?;
    assert!(rt; begin_so(alloc, first, false, &newest, Way::InOrder, &wanted)?);
    let wanted = trees(alloc, false, true)?;
    assert!(rt; begin_so(alloc, first, false, &in_order, Way::Newest, &wanted)?);
    let wanted = levels(alloc)?;
    assert!(rt; begin_so(alloc, first, false, &in_order, Way::InOrder, &wanted)?);
    assert!(rt;
        begin_so(
            alloc,
            Order::OldestFirst,
            false,
            &newest,
            Way::Newest,
            &wanted
        )?
    );
    // An order that the jobs do not come in.
    assert!(rt; !begin_so(alloc, first, false, &newest, Way::Newest, &wanted)?);
    Ok(())
}

#[test]
fn jobs_of_both_kinds_in_turn(rt: HostRuntime) -> Result<(), Fail> {
    let alloc = rt.alloc();
    let order = Order::NewestFirst;
    let numbers = [0, -1, 1, -2, 2, -3, 3];
    let rows = [
        (Way::Newest, Way::InOrder, [3, -1, 2, -2, 1, -3, 0]),
        (Way::InOrder, Way::Newest, [0, -3, 1, -2, 2, -1, 3]),
    ];
    for (way, other, wanted) in rows {
        let mut spawns = Vec::new(alloc);
        for number in numbers {
            let way = if number < 0 { other } else { way };
            spawns.push((way, Name::Leaf(number)))?;
        }
        let mut names = Vec::new(alloc);
        for number in wanted {
            names.push(Name::Leaf(number))?;
        }
        assert!(rt; begin_so(alloc, order, false, &spawns, way, &names)?);
    }
    Ok(())
}

#[test]
fn jobs_of_a_scope(rt: HostRuntime) -> Result<(), Fail> {
    let alloc = rt.alloc();
    let order = Order::NewestFirst;
    let numbers = [0, 1, 2, 3, 4, 5, 6, 7, 8, 9];
    let rows = [
        (Way::NewestInto, [9, 8, 7, 6, 5, 4, 3, 2, 1, 0]),
        (Way::InOrderInto, numbers),
    ];
    for (way, wanted) in rows {
        let mut spawns = Vec::new(alloc);
        for number in numbers {
            spawns.push((way, Name::Leaf(number)))?;
        }
        let mut names = Vec::new(alloc);
        for number in wanted {
            names.push(Name::Leaf(number))?;
        }
        assert!(rt; begin_so(alloc, order, true, &spawns, way, &names)?);
    }
    Ok(())
}
