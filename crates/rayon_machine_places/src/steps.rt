//! Steps along the table that are made in place.
//!
//! A move is wide, and each function that answers one clears it and copies it out. So the rows that an idle worker, an
//! outside caller, a broadcast and the end of a run come by most often are made here, where the place stands.
ghost use Rattle.std.specs.Prelude.{◌≡◌, true, false};
ghost use Rattle.rayon_machine_places.specs.Places.{finish, next_of, walk};
ghost use Rattle.rayon_machine_places.specs.declared.place.Move.TheVariants.{Stay};

use crate::act::Seen;
use crate::place::{Count, Party, Place, Plan, Share, Then, Walk};
use crate::shape::PoolShape;

impl Then {
    /// Leads the party on to what follows once others are woken, if that is a place of its own, and answers whether it
    /// is.
    fn lead(self, party: Party, place: &mut Place) -> bool
        ensures stays { result ≡ true → Stay place.new ≡ finish party self }
        ensures left { result ≡ false → place.new ≡ place.old }
    {
        match self {
            Then::LeaveWait(target) => {
                *place = target.after_wait();
                true
            }
            Then::Await(call) | Then::Gathers(call) => {
                *place = party.awaiting(call);
                true
            }
            _ => false,
        }
    }
}

impl PoolShape {
    /// Leads the party on to wake so many of the workers from the first one upward, or to what follows if that is a
    /// place of its own, and answers whether it did.
    fn lead_walk(self, party: Party, pool: usize, owed: u64, then: Then, place: &mut Place) -> bool
        ensures stays { result ≡ true → Stay place.new ≡ walk self party pool owed 0 then }
        ensures left { result ≡ false → place.new ≡ place.old }
    {
        if owed > 0 && self.workers > 0 {
            *place = Place::LockToWake(Walk {
                pool,
                owed,
                worker: 0,
                then,
            });
            true
        } else {
            then.lead(party, place)
        }
    }
}

impl Place {
    /// Leads the party on to where `next` leads it, in place, and answers whether it did. It does at the commonest rows
    /// of the table alone: where it answers no, nothing has changed, and `next` says where the party goes.
    pub fn step(&mut self, party: Party, shape: PoolShape, seen: Seen) -> bool
        ensures stays { result ≡ true → Stay self.new ≡ next_of shape party self.old seen }
        ensures left { result ≡ false → self.new ≡ self.old }
    {
        match *self {
            Place::ProbeWorking(_) => self.step_probe_working(party, shape, seen),
            Place::PopWorking(_) => self.step_pop_working(party, shape, seen),
            Place::TakeCastWorking(_) => self.step_take_cast_working(party, shape, seen),
            Place::BecomeInactive(_) => self.step_become_inactive(party, shape, seen),
            Place::ProbeIdle(_) => self.step_probe_idle(party, shape, seen),
            Place::PopIdle(_) => self.step_pop_idle(party, shape, seen),
            Place::TakeCastIdle(_) => self.step_take_cast_idle(party, shape, seen),
            Place::PopInjected(_) => self.step_pop_injected(party, shape, seen),
            Place::RaiseCount(_) => self.step_raise_count(party, shape, seen),
            Place::GrowCall(_) => self.step_grow_call(party, shape, seen),
            Place::LookQueue(_) => self.step_look_queue(party, shape, seen),
            Place::PushJob { .. } => self.step_push_job(party, shape, seen),
            Place::WaitForLock(_) => self.step_wait_for_lock(party, shape, seen),
            Place::TakeResult { .. } => self.step_take_result(party, shape, seen),
            Place::PickVictim(_) => self.step_pick_victim(party, shape, seen),
            Place::StealFrom { .. } => self.step_steal_from(party, shape, seen),
            Place::LeaveSearch(_) => self.step_leave_search(party, shape, seen),
            Place::GrowCast(_) => self.step_grow_cast(party, shape, seen),
            Place::TellNews { .. } => self.step_tell_news(party, shape, seen),
            Place::LockToWake(_) => self.step_lock_to_wake(party, shape, seen),
            Place::WakeWorker(_) => self.step_wake_worker(party, shape, seen),
            Place::UnlockWoken(_) => self.step_unlock_woken(party, shape, seen),
            Place::StorePiece { .. } => self.step_store_piece(party, shape, seen),
            Place::StoreSlot { .. } => self.step_store_slot(party, shape, seen),
            Place::StoreResult { .. } => self.step_store_result(party, shape, seen),
            Place::LowerCount { .. } => self.step_lower_count(party, shape, seen),
            Place::SetLatch(_) => self.step_set_latch(party, shape, seen),
            _ => false,
        }
    }

    /// A worker that works has looked at its latch.
    #[inline(never)]
    fn step_probe_working(&mut self, party: Party, shape: PoolShape, seen: Seen) -> bool
        ensures stays { result ≡ true → Stay self.new ≡ next_of shape party self.old seen }
        ensures left { result ≡ false → self.new ≡ self.old }
    {
        let Place::ProbeWorking(wait) = *self else {
            return false;
        };
        match seen {
            Seen::Yes => *self = wait.target.after_wait(),
            _ => *self = Place::PopWorking(wait),
        }
        true
    }

    /// It has looked in its own deque.
    #[inline(never)]
    fn step_pop_working(&mut self, party: Party, shape: PoolShape, seen: Seen) -> bool
        ensures stays { result ≡ true → Stay self.new ≡ next_of shape party self.old seen }
        ensures left { result ≡ false → self.new ≡ self.old }
    {
        let Place::PopWorking(wait) = *self else {
            return false;
        };
        match seen {
            Seen::Task(_) => false,
            _ => {
                *self = Place::TakeCastWorking(wait);
                true
            }
        }
    }

    /// It has looked in its own broadcast list.
    #[inline(never)]
    fn step_take_cast_working(&mut self, party: Party, shape: PoolShape, seen: Seen) -> bool
        ensures stays { result ≡ true → Stay self.new ≡ next_of shape party self.old seen }
        ensures left { result ≡ false → self.new ≡ self.old }
    {
        let Place::TakeCastWorking(wait) = *self else {
            return false;
        };
        match seen {
            Seen::Task(_) => false,
            _ => {
                *self = Place::BecomeInactive(wait);
                true
            }
        }
    }

    /// It has counted itself inactive, and begins to search.
    #[inline(never)]
    fn step_become_inactive(&mut self, party: Party, shape: PoolShape, seen: Seen) -> bool
        ensures stays { result ≡ true → Stay self.new ≡ next_of shape party self.old seen }
        ensures left { result ≡ false → self.new ≡ self.old }
    {
        let Place::BecomeInactive(wait) = *self else {
            return false;
        };
        *self = Place::ProbeIdle(wait.again_from(0));
        true
    }

    /// A worker that searches has looked at its latch.
    #[inline(never)]
    fn step_probe_idle(&mut self, party: Party, shape: PoolShape, seen: Seen) -> bool
        ensures stays { result ≡ true → Stay self.new ≡ next_of shape party self.old seen }
        ensures left { result ≡ false → self.new ≡ self.old }
    {
        let Place::ProbeIdle(wait) = *self else {
            return false;
        };
        match seen {
            Seen::Yes => *self = wait.leaving(None),
            _ => *self = Place::PopIdle(wait),
        }
        true
    }

    /// It has looked in its own deque.
    #[inline(never)]
    fn step_pop_idle(&mut self, party: Party, shape: PoolShape, seen: Seen) -> bool
        ensures stays { result ≡ true → Stay self.new ≡ next_of shape party self.old seen }
        ensures left { result ≡ false → self.new ≡ self.old }
    {
        let Place::PopIdle(wait) = *self else {
            return false;
        };
        match seen {
            Seen::Task(task) => *self = wait.leaving(Some(task)),
            _ => *self = Place::TakeCastIdle(wait),
        }
        true
    }

    /// It has looked in its own broadcast list.
    #[inline(never)]
    fn step_take_cast_idle(&mut self, party: Party, shape: PoolShape, seen: Seen) -> bool
        ensures stays { result ≡ true → Stay self.new ≡ next_of shape party self.old seen }
        ensures left { result ≡ false → self.new ≡ self.old }
    {
        let Place::TakeCastIdle(wait) = *self else {
            return false;
        };
        match seen {
            Seen::Task(task) => *self = wait.leaving(Some(task)),
            _ if shape.workers == 1 => *self = Place::PopInjected(wait),
            _ => *self = Place::PickVictim(wait),
        }
        true
    }

    /// It has looked in the injector.
    #[inline(never)]
    fn step_pop_injected(&mut self, party: Party, shape: PoolShape, seen: Seen) -> bool
        ensures stays { result ≡ true → Stay self.new ≡ next_of shape party self.old seen }
        ensures left { result ≡ false → self.new ≡ self.old }
    {
        let Place::PopInjected(wait) = *self else {
            return false;
        };
        match seen {
            Seen::Task(task) => *self = wait.leaving(Some(task)),
            _ => *self = shape.after_failure(wait),
        }
        true
    }

    /// A call has its share of a count.
    #[inline(never)]
    fn step_raise_count(&mut self, party: Party, shape: PoolShape, seen: Seen) -> bool
        ensures stays { result ≡ true → Stay self.new ≡ next_of shape party self.old seen }
        ensures left { result ≡ false → self.new ≡ self.old }
    {
        let Place::RaiseCount(plan) = *self else {
            return false;
        };
        match seen {
            Seen::Done => match plan {
                Plan::Send(_) => {
                    *self = Place::GrowCall(plan);
                    true
                }
                Plan::Detach { .. } => {
                    *self = Place::LookQueue(plan);
                    true
                }
                Plan::Gather(gathering) => {
                    *self = Place::GrowCast(gathering);
                    true
                }
                _ => false,
            },
            _ => false,
        }
    }

    /// A call has made its cell and latch.
    #[inline(never)]
    fn step_grow_call(&mut self, party: Party, shape: PoolShape, seen: Seen) -> bool
        ensures stays { result ≡ true → Stay self.new ≡ next_of shape party self.old seen }
        ensures left { result ≡ false → self.new ≡ self.old }
    {
        let Place::GrowCall(plan) = *self else {
            return false;
        };
        match seen {
            Seen::Done => {
                *self = Place::LookQueue(plan);
                true
            }
            _ => false,
        }
    }

    /// It has looked whether the queue is empty.
    #[inline(never)]
    fn step_look_queue(&mut self, party: Party, shape: PoolShape, seen: Seen) -> bool
        ensures stays { result ≡ true → Stay self.new ≡ next_of shape party self.old seen }
        ensures left { result ≡ false → self.new ≡ self.old }
    {
        let Place::LookQueue(plan) = *self else {
            return false;
        };
        match seen {
            Seen::Yes => {
                *self = Place::PushJob {
                    plan,
                    was_empty: true,
                };
                true
            }
            _ => {
                *self = Place::PushJob {
                    plan,
                    was_empty: false,
                };
                true
            }
        }
    }

    /// It has queued its job.
    #[inline(never)]
    fn step_push_job(&mut self, party: Party, shape: PoolShape, seen: Seen) -> bool
        ensures stays { result ≡ true → Stay self.new ≡ next_of shape party self.old seen }
        ensures left { result ≡ false → self.new ≡ self.old }
    {
        let Place::PushJob { plan, was_empty } = *self else {
            return false;
        };
        match seen {
            Seen::Done => {
                *self = Place::TellNews { plan, was_empty };
                true
            }
            _ => false,
        }
    }

    /// An outside caller has waited for its lock latch.
    #[inline(never)]
    fn step_wait_for_lock(&mut self, party: Party, shape: PoolShape, seen: Seen) -> bool
        ensures stays { result ≡ true → Stay self.new ≡ next_of shape party self.old seen }
        ensures left { result ≡ false → self.new ≡ self.old }
    {
        let Place::WaitForLock(call) = *self else {
            return false;
        };
        *self = Place::TakeResult { call, first: None };
        true
    }

    /// It has taken its result.
    #[inline(never)]
    fn step_take_result(&mut self, party: Party, shape: PoolShape, seen: Seen) -> bool
        ensures stays { result ≡ true → Stay self.new ≡ next_of shape party self.old seen }
        ensures left { result ≡ false → self.new ≡ self.old }
    {
        let Place::TakeResult { call, first } = *self else {
            return false;
        };
        match seen {
            Seen::Found(last) => {
                *self = call.answered(first, last);
                true
            }
            _ => false,
        }
    }
    /// A worker that searches has chosen whom to steal from first.
    #[inline(never)]
    fn step_pick_victim(&mut self, party: Party, shape: PoolShape, seen: Seen) -> bool
        ensures stays { result ≡ true → Stay self.new ≡ next_of shape party self.old seen }
        ensures left { result ≡ false → self.new ≡ self.old }
    {
        let Place::PickVictim(wait) = *self else {
            return false;
        };
        match seen {
            Seen::Start(first) => {
                *self = shape.first_steal(party, wait, first);
                true
            }
            _ => false,
        }
    }

    /// It has tried to steal.
    #[inline(never)]
    fn step_steal_from(&mut self, party: Party, shape: PoolShape, seen: Seen) -> bool
        ensures stays { result ≡ true → Stay self.new ≡ next_of shape party self.old seen }
        ensures left { result ≡ false → self.new ≡ self.old }
    {
        let Place::StealFrom { wait, left } = *self else {
            return false;
        };
        match seen {
            Seen::Task(task) => *self = wait.leaving(Some(task)),
            _ => *self = shape.after_miss(party, wait, left),
        }
        true
    }

    /// It has counted itself active again, and wakes others or leaves its wait.
    #[inline(never)]
    fn step_leave_search(&mut self, party: Party, shape: PoolShape, seen: Seen) -> bool
        ensures stays { result ≡ true → Stay self.new ≡ next_of shape party self.old seen }
        ensures left { result ≡ false → self.new ≡ self.old }
    {
        let Place::LeaveSearch(wait) = *self else {
            return false;
        };
        match seen {
            Seen::Wakes(owed) => {
                let then = wait.target.after_search(wait.found);
                shape.lead_walk(party, party.pool(), owed, then, self)
            }
            _ => false,
        }
    }

    /// A broadcast that waits has made its count, its book and its latch.
    #[inline(never)]
    fn step_grow_cast(&mut self, party: Party, shape: PoolShape, seen: Seen) -> bool
        ensures stays { result ≡ true → Stay self.new ≡ next_of shape party self.old seen }
        ensures left { result ≡ false → self.new ≡ self.old }
    {
        let Place::GrowCast(gathering) = *self else {
            return false;
        };
        match seen {
            Seen::Done => {
                *self = Place::DealPieces(gathering);
                true
            }
            _ => false,
        }
    }

    /// A call has told the sleepers' counters of its job, and wakes others or waits.
    #[inline(never)]
    fn step_tell_news(&mut self, party: Party, shape: PoolShape, seen: Seen) -> bool
        ensures stays { result ≡ true → Stay self.new ≡ next_of shape party self.old seen }
        ensures left { result ≡ false → self.new ≡ self.old }
    {
        let Place::TellNews { plan, .. } = *self else {
            return false;
        };
        match seen {
            Seen::Wakes(owed) => {
                shape.lead_walk(party, plan.pool(), owed, plan.after_news(), self)
            }
            _ => false,
        }
    }

    /// A party that wakes others has a worker's lock.
    #[inline(never)]
    fn step_lock_to_wake(&mut self, party: Party, shape: PoolShape, seen: Seen) -> bool
        ensures stays { result ≡ true → Stay self.new ≡ next_of shape party self.old seen }
        ensures left { result ≡ false → self.new ≡ self.old }
    {
        let Place::LockToWake(walk) = *self else {
            return false;
        };
        *self = Place::WakeWorker(walk);
        true
    }

    /// It has tried to wake that worker.
    #[inline(never)]
    fn step_wake_worker(&mut self, party: Party, shape: PoolShape, seen: Seen) -> bool
        ensures stays { result ≡ true → Stay self.new ≡ next_of shape party self.old seen }
        ensures left { result ≡ false → self.new ≡ self.old }
    {
        let Place::WakeWorker(walk) = *self else {
            return false;
        };
        match seen {
            Seen::Yes => {
                let owed = walk.owed.saturating_sub(1);
                *self = Place::UnlockWoken(Walk { owed, ..walk });
            }
            _ => *self = Place::UnlockWoken(walk),
        }
        true
    }

    /// It has left the lock, and goes on to the next worker or to what follows.
    #[inline(never)]
    fn step_unlock_woken(&mut self, party: Party, shape: PoolShape, seen: Seen) -> bool
        ensures stays { result ≡ true → Stay self.new ≡ next_of shape party self.old seen }
        ensures left { result ≡ false → self.new ≡ self.old }
    {
        let Place::UnlockWoken(walk) = *self else {
            return false;
        };
        if walk.owed > 0 && walk.worker < shape.workers.saturating_sub(1) {
            *self = Place::LockToWake(Walk {
                worker: walk.worker + 1,
                ..walk
            });
            true
        } else {
            walk.then.lead(party, self)
        }
    }

    /// The ending of a piece of a broadcast is stored.
    #[inline(never)]
    fn step_store_piece(&mut self, party: Party, shape: PoolShape, seen: Seen) -> bool
        ensures stays { result ≡ true → Stay self.new ≡ next_of shape party self.old seen }
        ensures left { result ≡ false → self.new ≡ self.old }
    {
        let Place::StorePiece {
            call,
            owner,
            job,
            ..
        } = *self
        else {
            return false;
        };
        *self = Place::LowerCount {
            count: Count::OfCast { call, owner },
            share: Share::OfJob(job),
            then: Then::Resume,
        };
        true
    }

    /// The ending of a job of a scope is stored.
    #[inline(never)]
    fn step_store_slot(&mut self, party: Party, shape: PoolShape, seen: Seen) -> bool
        ensures stays { result ≡ true → Stay self.new ≡ next_of shape party self.old seen }
        ensures left { result ≡ false → self.new ≡ self.old }
    {
        let Place::StoreSlot {
            call,
            owner,
            job,
            ..
        } = *self
        else {
            return false;
        };
        *self = Place::LowerCount {
            count: Count::OfScope { call, owner },
            share: Share::OfJob(job),
            then: Then::Resume,
        };
        true
    }

    /// The ending of a job that a call waits for is stored.
    #[inline(never)]
    fn step_store_result(&mut self, party: Party, shape: PoolShape, seen: Seen) -> bool
        ensures stays { result ≡ true → Stay self.new ≡ next_of shape party self.old seen }
        ensures left { result ≡ false → self.new ≡ self.old }
    {
        let Place::StoreResult { call, owner, .. } = *self else {
            return false;
        };
        *self = owner.latch_set(call, Then::Resume);
        true
    }

    /// A share is given back: the latch is set that waits for the last one of a scope or a broadcast.
    #[inline(never)]
    fn step_lower_count(&mut self, party: Party, shape: PoolShape, seen: Seen) -> bool
        ensures stays { result ≡ true → Stay self.new ≡ next_of shape party self.old seen }
        ensures left { result ≡ false → self.new ≡ self.old }
    {
        let Place::LowerCount { count, then, .. } = *self else {
            return false;
        };
        match seen {
            Seen::Yes => match count {
                Count::OfPool(_) => false,
                Count::OfScope { call, owner } | Count::OfCast { call, owner } => {
                    *self = owner.latch_set(call, then);
                    true
                }
            },
            _ => then.lead(party, self),
        }
    }

    /// A core latch is set whose worker slept.
    #[inline(never)]
    fn step_set_latch(&mut self, party: Party, shape: PoolShape, seen: Seen) -> bool
        ensures stays { result ≡ true → Stay self.new ≡ next_of shape party self.old seen }
        ensures left { result ≡ false → self.new ≡ self.old }
    {
        let Place::SetLatch(set) = *self else {
            return false;
        };
        match seen {
            Seen::Yes => {
                *self = Place::LockToSettle(set);
                true
            }
            _ => false,
        }
    }
}
