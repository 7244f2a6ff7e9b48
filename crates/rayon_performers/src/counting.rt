//! A worker's acts on the counters and on sleep locks: each makes one step of its seat, gives the seat to the worker's
//! own sleep lock or takes it back, and adds the one entry of that act to the trace.
ghost use Rattle.std.specs.Prelude.{◌≡◌};
ghost use Rattle.rayon_drive.specs.Traces.{Adds};
ghost use Rattle.rayon_machine_places.specs.declared.act.Act.TheVariants as acts;
ghost use Rattle.rayon_machine_places.specs.declared.act.Seen.TheVariants as saw;
ghost use Rattle.rayon_performers.specs.Hands.{Does};
ghost use Rattle.rayon_shared.specs.Seats.{Resting, Searching, Sleeping};

use crate::bench::Bench;
use rayon_jobs::JobKind;
use rayon_machine_places::act::{Act, Seen};
use rayon_sleep::counters::Counters;
use std::sync::Wait;

impl<J: JobKind> Bench<J> {
    // The worker is inactive from now on.
    pub(crate) fn add_inactive(&mut self) -> Seen
        requires { Resting self.old.chair }
        ensures does { Does acts.AddInactive result self.old self.new }
        ensures adds { Adds acts.AddInactive result self.old.trace self.new.trace }
    {
        let Some(chair) = &mut self.chair else {
            unreachable!()
        };
        chair.add_inactive_thread();
        self.add(Act::AddInactive, Seen::Done)
    }

    // The worker is active again. It is seen how many are to be woken.
    pub(crate) fn sub_inactive(&mut self) -> Seen
        requires { Searching self.old.chair }
        ensures does { Does acts.SubInactive result self.old self.new }
        ensures adds { Adds acts.SubInactive result self.old.trace self.new.trace }
    {
        let Some(chair) = &mut self.chair else {
            unreachable!()
        };
        let owed = chair.sub_inactive_thread();
        self.add(Act::SubInactive, Seen::Wakes(owed))
    }

    // The worker announces that it may sleep. The event counter is seen.
    pub(crate) fn announce<R: Wait>(&mut self, rt: &R) -> Seen
        requires { Searching self.old.chair }
        ensures does { Does acts.Announce result self.old self.new }
        ensures adds { Adds acts.Announce result self.old.trace self.new.trace }
    {
        let Some(chair) = &mut self.chair else {
            unreachable!()
        };
        let kept = u64::from(chair.announce(rt));
        self.add(Act::Announce, Seen::Jec(kept))
    }

    // Sees what the counters say.
    pub(crate) fn load(&mut self) -> Seen
        requires { Searching self.old.chair }
        ensures does { Does acts.Load result self.old self.new }
        ensures adds { Adds acts.Load result self.old.trace self.new.trace }
    {
        let Some(chair) = &mut self.chair else {
            unreachable!()
        };
        let found = chair.load();
        let seen = Seen::Word {
            sleeping: found.sleeping,
            inactive: found.inactive,
            jec: u64::from(found.jec),
        };
        self.add(Act::Load, seen)
    }

    // The worker is counted among the sleeping ones, where the counters are still these. No counters have an event
    // counter of more than 32 bits, so those are only looked at.
    pub(crate) fn try_add(&mut self, sleeping: u64, inactive: u64, jec: u64) -> Seen
        requires { Searching self.old.chair }
        ensures does { Does (acts.TryAdd sleeping inactive jec) result self.old self.new }
        ensures adds { Adds (acts.TryAdd sleeping inactive jec) result self.old.trace self.new.trace }
    {
        let Some(chair) = &mut self.chair else {
            unreachable!()
        };
        let act = Act::TryAdd {
            sleeping,
            inactive,
            jec,
        };
        let Ok(jec) = u32::try_from(jec) else {
            chair.load();
            return self.add(act, Seen::Refused);
        };
        let seen = Counters {
            sleeping,
            inactive,
            jec,
        };
        if chair.try_add_sleeping_thread(seen) {
            self.add(act, Seen::Done)
        } else {
            self.add(act, Seen::Refused)
        }
    }

    // The worker is no longer counted among the sleeping ones.
    pub(crate) fn sub_sleeping(&mut self) -> Seen
        requires { Sleeping self.old.chair }
        ensures does { Does acts.SubSleeping result self.old self.new }
        ensures adds { Adds acts.SubSleeping result self.old.trace self.new.trace }
    {
        let Some(chair) = &mut self.chair else {
            unreachable!()
        };
        chair.sub_sleeping_thread();
        self.add(Act::SubSleeping, Seen::Done)
    }

    // Tells that a task was pushed onto a queue of the pool. Answers how many are to be woken.
    #[inline(always)]
    pub(crate) fn news<R: Wait>(&mut self, rt: &R, pool: usize, was_empty: bool) -> u64
        requires { Resting self.old.chair }
        ensures does { Does (acts.News pool was_empty) (saw.Wakes result) self.old self.new }
        ensures adds { Adds (acts.News pool was_empty) (saw.Wakes result) self.old.trace self.new.trace }
        ensures same { self.new ≡ record self.old { chair = self.new.chair; trace = self.new.trace } }
        ensures rests { Resting self.new.chair }
    {
        let Some(chair) = &mut self.chair else {
            unreachable!()
        };
        let owed = chair.news(rt, was_empty);
        self.add(Act::News { pool, was_empty }, Seen::Wakes(owed));
        owed
    }

    // The worker is blocked: its seat lies under its sleep lock, and that is left.
    pub(crate) fn block<R: Wait>(&mut self, rt: &R) -> Seen
        requires { Sleeping self.old.chair }
        ensures does { Does acts.Block result self.old self.new }
        ensures adds { Adds acts.Block result self.old.trace self.new.trace }
    {
        let Some(chair) = self.chair.take() else {
            unreachable!()
        };
        match self.registry.sleep().block(rt, self.index, chair) {
            Ok(()) => self.add(Act::Block, Seen::Done),
            Err(_) => unreachable!(),
        }
    }

    // Takes a worker's sleep lock, once nobody holds it. Where the worker is blocked that is its own, once it was
    // woken, and its seat is at hand again.
    pub(crate) fn lock<R: Wait>(&mut self, rt: &R, pool: usize, worker: usize) -> Seen
        ensures does { Does (acts.Lock pool worker) result self.old self.new }
        ensures adds { Adds (acts.Lock pool worker) result self.old.trace self.new.trace }
    {
        let sleep = self.registry.sleep();
        match &self.chair {
            Some(_) => sleep.lock(rt, worker, worker == self.index),
            None => match sleep.relock(rt, self.index) {
                Some(chair) => self.chair = Some(chair),
                None => unreachable!(),
            },
        }
        self.add(Act::Lock { pool, worker }, Seen::Done)
    }
}
