//! A worker's acts on the latches that it waits on: each makes one step of its own seat of the latch, and adds the one
//! entry of that act to the trace.
ghost use Rattle.std.specs.Prelude.{◌≡◌, Some};
ghost use Rattle.rayon_atomics.specs.declared.views.Guard.{Guard};
ghost use Rattle.rayon_drive.specs.Traces.{Adds};
ghost use Rattle.rayon_machine_places.specs.declared.act.Act.TheVariants as acts;
ghost use Rattle.rayon_performers.specs.Hands.{Does};
ghost use Rattle.rayon_shared.specs.AtHand.{HasTicket, answer, call_latch};
ghost use Rattle.rayon_performers.specs.Sights.{CallSteps, Finds, Turns, Wakes, Watches};
ghost use Rattle.rayon_machine_places.specs.declared.place.Latch.TheVariants.{OfCall};
ghost use Rattle.rayon_performers.specs.Waits.{holding, waiting_on};
ghost use Rattle.rayon_tasks.specs.Calls.{latch_in, ticket_in};

use crate::bench::Bench;
use rayon_atomics::own_latch::OwnLatch;
use rayon_jobs::JobKind;
use rayon_machine_places::act::{Act, Seen};
use rayon_machine_places::place::Latch;
use rayon_tasks::Call;
use std::mem;

impl<J: JobKind> Bench<J> {
    // Looks at a latch of the worker.
    #[inline(always)]
    pub(crate) fn probe(&mut self, latch: Latch) -> bool
        requires { HasTicket self.old.call (call_latch latch) }
        ensures does { Does (acts.Probe latch) (answer result) self.old self.new }
        ensures adds { Adds (acts.Probe latch) (answer result) self.old.trace self.new.trace }
    {
        let is_set = self.look_at(latch);
        self.saw(latch, is_set);
        is_set
    }

    // Looks at the latch of a call of the worker that is not in hand: the look is told as that at a call in hand.
    #[inline(always)]
    pub(crate) fn probe_held(&mut self, held: &mut Call<J>, call: u64) -> bool
        ensures does { Does (acts.Probe (OfCall call)) (answer result) (holding held.old.ticket held.old.latch self.old) (holding held.new.ticket held.new.latch self.new) }
        ensures adds { Adds (acts.Probe (OfCall call)) (answer result) self.old.trace self.new.trace }
        ensures ticket { held.new.ticket ≡ held.old.ticket }
    {
        let is_set = held.latch.probe();
        self.saw(Latch::OfCall(call), is_set);
        is_set
    }

    // The worker prepares to sleep on a latch.
    pub(crate) fn get_sleepy(&mut self, latch: Latch) -> Seen
        requires { HasTicket self.old.call (call_latch latch) }
        ensures does { Does (acts.Sleepy latch) result self.old self.new }
        ensures adds { Adds (acts.Sleepy latch) result self.old.trace self.new.trace }
    {
        if self.try_sleepy(latch) {
            self.add(Act::Sleepy(latch), Seen::Done)
        } else {
            self.add(Act::Sleepy(latch), Seen::Refused)
        }
    }

    // The worker falls asleep on a latch.
    pub(crate) fn fall_asleep(&mut self, latch: Latch) -> Seen
        requires { HasTicket self.old.call (call_latch latch) }
        ensures does { Does (acts.Asleep latch) result self.old self.new }
        ensures adds { Adds (acts.Asleep latch) result self.old.trace self.new.trace }
    {
        if self.try_asleep(latch) {
            self.add(Act::Asleep(latch), Seen::Done)
        } else {
            self.add(Act::Asleep(latch), Seen::Refused)
        }
    }

    // The worker is awake again.
    pub(crate) fn wake_up(&mut self, latch: Latch) -> Seen
        requires { HasTicket self.old.call (call_latch latch) }
        ensures does { Does (acts.Wakeup latch) result self.old self.new }
        ensures adds { Adds (acts.Wakeup latch) result self.old.trace self.new.trace }
    {
        self.rise(latch);
        self.add(Act::Wakeup(latch), Seen::Done)
    }

    // This latch stands where the terminate latch does, and that where this one did.
    #[inline(always)]
    pub(crate) fn exchange_latch(&mut self, latch: &mut OwnLatch)
        ensures bench { self.new ≡ waiting_on latch.old self.old }
        ensures latch { latch.new ≡ self.old.guards.own }
    {
        mem::swap(&mut self.terminate, latch);
    }

    // It was seen whether this latch is set.
    #[inline(always)]
    fn saw(&mut self, latch: Latch, is_set: bool)
        ensures same { self.new ≡ record self.old { probed = is_set; trace = self.new.trace } }
        ensures adds { Adds (acts.Probe latch) (answer is_set) self.old.trace self.new.trace }
    {
        self.probed = is_set;
        let seen = if is_set { Seen::Yes } else { Seen::No };
        self.add(Act::Probe(latch), seen);
    }

    // One look at the latch by the worker's own seat.
    #[inline(always)]
    fn look_at(&mut self, latch: Latch) -> bool
        requires { HasTicket self.old.call (call_latch latch) }
        ensures same { self.new ≡ record self.old { guards = self.new.guards } }
        ensures step { Watches latch (Finds result) self.old.guards self.new.guards }
    {
        match latch {
            Latch::Terminate => self.terminate.probe(),
            Latch::OfCall(name) => probe_call(&mut self.call, name),
        }
    }

    // One exchange of Unset for Sleepy.
    fn try_sleepy(&mut self, latch: Latch) -> bool
        requires { HasTicket self.old.call (call_latch latch) }
        ensures same { self.new ≡ record self.old { guards = self.new.guards } }
        ensures step { Watches latch (Turns 0 1 result) self.old.guards self.new.guards }
    {
        match latch {
            Latch::Terminate => self.terminate.get_sleepy(),
            Latch::OfCall(name) => get_sleepy_call(&mut self.call, name),
        }
    }

    // One exchange of Sleepy for Sleeping.
    fn try_asleep(&mut self, latch: Latch) -> bool
        requires { HasTicket self.old.call (call_latch latch) }
        ensures same { self.new ≡ record self.old { guards = self.new.guards } }
        ensures step { Watches latch (Turns 1 2 result) self.old.guards self.new.guards }
    {
        match latch {
            Latch::Terminate => self.terminate.fall_asleep(),
            Latch::OfCall(name) => fall_asleep_call(&mut self.call, name),
        }
    }

    // One exchange of Sleeping for Unset.
    fn rise(&mut self, latch: Latch)
        requires { HasTicket self.old.call (call_latch latch) }
        ensures same { self.new ≡ record self.old { guards = self.new.guards } }
        ensures step { Watches latch Wakes self.old.guards self.new.guards }
    {
        match latch {
            Latch::Terminate => self.terminate.wake_up(),
            Latch::OfCall(name) => wake_up_call(&mut self.call, name),
        }
    }
}

// One look at the latch of the call of this name.
#[inline(always)]
fn probe_call<J: JobKind>(call: &mut Option<Call<J>>, name: u64) -> bool
    requires { HasTicket (ticket_in call.old) (Some name) }
    ensures ticket { ticket_in call.new ≡ ticket_in call.old }
    ensures step { CallSteps (Finds result) (latch_in call.old) (latch_in call.new) }
{
    match call {
        Some(call) => call.latch.probe(),
        None => unreachable!(),
    }
}

// One exchange of Unset for Sleepy, of the latch of the call of this name.
fn get_sleepy_call<J: JobKind>(call: &mut Option<Call<J>>, name: u64) -> bool
    requires { HasTicket (ticket_in call.old) (Some name) }
    ensures ticket { ticket_in call.new ≡ ticket_in call.old }
    ensures step { CallSteps (Turns 0 1 result) (latch_in call.old) (latch_in call.new) }
{
    match call {
        Some(call) => call.latch.get_sleepy(),
        None => unreachable!(),
    }
}

// One exchange of Sleepy for Sleeping, of the latch of the call of this name.
fn fall_asleep_call<J: JobKind>(call: &mut Option<Call<J>>, name: u64) -> bool
    requires { HasTicket (ticket_in call.old) (Some name) }
    ensures ticket { ticket_in call.new ≡ ticket_in call.old }
    ensures step { CallSteps (Turns 1 2 result) (latch_in call.old) (latch_in call.new) }
{
    match call {
        Some(call) => call.latch.fall_asleep(),
        None => unreachable!(),
    }
}

// One exchange of Sleeping for Unset, of the latch of the call of this name.
fn wake_up_call<J: JobKind>(call: &mut Option<Call<J>>, name: u64)
    requires { HasTicket (ticket_in call.old) (Some name) }
    ensures ticket { ticket_in call.new ≡ ticket_in call.old }
    ensures step { CallSteps Wakes (latch_in call.old) (latch_in call.new) }
{
    match call {
        Some(call) => call.latch.wake_up(),
        None => unreachable!(),
    }
}
