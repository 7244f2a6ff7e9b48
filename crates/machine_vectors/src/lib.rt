//! Replays whose outcomes are known from outside the specification.
#![tactic(auto)]

#[cfg(test)]
mod orders;

#[cfg(test)]
mod tests {
    use rayon_machine::act::{Act, Seen};
    use rayon_machine::event::Event;
    use rayon_machine::place::{Count, Ending, Move, OpenCall, Party, Place, Share, Then};
    use rayon_machine::shape::{Order, PoolShape};
    use rayon_machine::world::World;
    use std::alloc::{AllocError, Global};

    const A: Party = Party::Worker { pool: 0, index: 0 };

    const B: Party = Party::Worker { pool: 0, index: 1 };

    const C: Party = Party::Caller(0);

    /// A line of a replay: so many acts of a party, or another event.
    #[derive(Clone, Copy)]
    enum Line {
        Go(Party, u32),
        Other(Event),
    }

    const SPAWN: Line = Line::Other(Event::Spawn { party: C, pool: 0 });

    const INSTALL: Line = Line::Other(Event::Install { party: C, pool: 0 });

    const FINE: Line = Line::Other(Event::End {
        party: A,
        ending: Ending::Fine,
    });

    const FAULT: Line = Line::Other(Event::End {
        party: A,
        ending: Ending::Fault,
    });

    fn act(world: &mut World, party: Party, times: u32) -> bool {
        for _ in 0..times {
            if world.step(Event::Go(party)).is_err() {
                return false;
            }
        }
        true
    }

    /// How many lines are made before one is refused.
    fn made(world: &mut World, lines: &[Line]) -> usize {
        for (index, line) in lines.iter().enumerate() {
            let went = match *line {
                Line::Go(party, times) => act(world, party, times),
                Line::Other(event) => world.step(event).is_ok(),
            };
            if !went {
                return index;
            }
        }
        lines.len()
    }

    fn pool_of(workers: usize) -> PoolShape {
        PoolShape {
            workers,
            limit: 0,
            order: Order::NewestFirst,
            callers_own: false,
        }
    }

    /// Sleeping, inactive, turn, injected, count.
    fn pool_line(world: &World) -> Option<(u64, u64, u64, usize, u64)> {
        let pool = world.pool_at(0)?;
        Some((
            pool.sleeping,
            pool.inactive,
            pool.turn,
            pool.injected,
            pool.count,
        ))
    }

    /// Queued, running, done.
    fn job_line(world: &World) -> (u64, u64, u64) {
        let totals = world.job_totals();
        (totals.queued, totals.running, totals.done)
    }

    /// Whether a worker of the pool is blocked.
    fn blocked(world: &World, index: usize) -> Option<bool> {
        let worker = world.worker_at(0, index)?;
        Some(worker.blocked)
    }

    #[test]
    fn one_worker_sleeps_and_is_woken(rt: HostRuntime) {
        let Ok(mut world) = World::start(rt.alloc(), &[pool_of(1)], 32) else {
            return assert!(rt; false);
        };
        assert_eq!(rt; made(&mut world, &[Line::Go(A, 21)]), 1);
        assert!(rt; pool_line(&world) == Some((1, 1, 0, 0, 1)));
        assert!(rt; blocked(&world, 0) == Some(true));
        assert_eq!(rt; made(&mut world, &[Line::Go(A, 1)]), 0);
        assert_eq!(rt; made(&mut world, &[SPAWN, Line::Go(C, 7)]), 2);
        assert!(rt; pool_line(&world) == Some((0, 1, 1, 1, 2)));
        assert!(rt; job_line(&world) == (1, 0, 0));
        let rest = [
            Line::Go(A, 9),
            FINE,
            Line::Go(A, 1),
            Line::Other(Event::EndPool { party: C, pool: 0 }),
            Line::Go(C, 2),
            Line::Go(A, 1),
        ];
        assert_eq!(rt; made(&mut world, &rest), 6);
        assert!(rt; pool_line(&world) == Some((0, 0, 1, 0, 0)));
        assert!(rt; job_line(&world) == (0, 0, 1));
    }

    #[test]
    fn the_counter_makes_a_whole_turn(rt: HostRuntime) {
        for bits in [1, 32] {
            let Ok(mut world) = World::start(rt.alloc(), &[pool_of(2)], bits) else {
                return assert!(rt; false);
            };
            let lines = [
                Line::Go(A, 20),
                Line::Go(B, 10),
                SPAWN,
                Line::Go(C, 4),
                Line::Go(B, 1),
                Line::Go(A, 5),
            ];
            assert_eq!(rt; made(&mut world, &lines), 6);
            assert!(rt; pool_line(&world) == Some((0, 2, 2, 1, 2)));
            assert!(rt; job_line(&world) == (1, 0, 0));
        }
    }

    #[test]
    fn a_join_in_an_install(rt: HostRuntime) {
        for (first, want) in [(FINE, 12), (FAULT, 9)] {
            let Ok(mut world) = World::start(rt.alloc(), &[pool_of(1)], 32) else {
                return assert!(rt; false);
            };
            let lines = [
                INSTALL,
                Line::Go(C, 5),
                Line::Go(A, 10),
                Line::Other(Event::Join(A)),
                Line::Go(A, 5),
                first,
                Line::Go(A, 3),
                FINE,
                Line::Go(A, 1),
                FINE,
                Line::Go(A, 2),
                Line::Go(C, 3),
            ];
            assert_eq!(rt; made(&mut world, &lines), want);
            if want == 12 {
                assert!(rt; pool_line(&world) == Some((0, 0, 1, 0, 1)));
                assert!(rt; job_line(&world) == (0, 0, 3));
            }
        }
    }

    #[test]
    fn a_refused_push_in_a_join(rt: HostRuntime) {
        let Ok(mut world) = World::start(rt.alloc(), &[pool_of(1)], 32) else {
            return assert!(rt; false);
        };
        let lines = [
            INSTALL,
            Line::Go(C, 5),
            Line::Go(A, 10),
            Line::Other(Event::Join(A)),
            Line::Go(A, 3),
            Line::Other(Event::Refuse(A)),
            Line::Go(A, 1),
        ];
        assert_eq!(rt; made(&mut world, &lines), 7);
        assert!(rt; pool_line(&world) == Some((0, 0, 1, 0, 2)));
        assert!(rt; job_line(&world) == (0, 1, 0));
    }

    /// A call that waits at pool 1.
    const CALL: OpenCall = OpenCall {
        number: 3,
        pool: 1,
        job: 5,
    };

    #[test]
    fn a_call_with_an_empty_cell_lowers_its_share_and_answers_missing(rt: HostRuntime) {
        let place = Place::TakeResult {
            call: CALL,
            first: Some(Ending::Fine),
        };
        let Move::Stay(next) = place.next(C, pool_of(2), Seen::Missing) else {
            return assert!(rt; false);
        };
        let Place::LowerCount { count, share, then } = next else {
            return assert!(rt; false);
        };
        assert!(rt; matches!(count, Count::OfPool(1)));
        assert!(rt; matches!(share, Share::OfJob(5)));
        let Then::Missing { call, first } = then else {
            return assert!(rt; false);
        };
        assert_eq!(rt; call.number, 3);
        assert!(rt; first == Some(Ending::Fine));
    }

    #[test]
    fn a_place_at_rest_has_no_act(rt: HostRuntime) {
        for place in [Place::Free, Place::Stopped, Place::SecondSide(CALL)] {
            assert!(rt; place.rests());
            assert!(rt; matches!(place.act(A), Act::Idle));
        }
        for place in [
            Place::YieldPop,
            Place::JoinProbe(CALL),
            Place::WaitForLock(CALL),
        ] {
            assert!(rt; !place.rests());
            assert!(rt; !matches!(place.act(A), Act::Idle));
        }
    }

    #[test]
    fn an_act_touches_the_pool_that_it_names_or_the_own_one(rt: HostRuntime) {
        let party = Party::Worker { pool: 7, index: 0 };
        assert_eq!(rt; Act::LookInj(4).pool(party), 4);
        assert_eq!(rt; Act::PopInj.pool(party), 7);
        assert_eq!(rt; Act::Take(4).pool(C), 0);
    }
}
