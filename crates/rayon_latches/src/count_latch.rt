//! A latch that is set once a count is 0: what the end of a scope or a broadcast is waited for by.
ghost use Rattle.rayon_atomics.specs.Latches.{own};
ghost use Rattle.rayon_atomics.specs.Tallies.{teller, novice, lowered_at, Moved, StaysEnded};
ghost use Rattle.rayon_latches.specs.Awaited.{Settles};
ghost use Rattle.std.specs.Prelude.{◌≡◌, ◌<◌, ◌^◌, ◌-◌, ◌↔◌, ◌⊎◌, ◌==◌, true, [], IsTrue, IsSome, IfSome, IfOk, IfErr, None, MatchBool, MatchOption, MatchResult, option_copied, option_map, is_some, is_none};

use rayon_atomics::count::{CountSeat, CountWord};
use rayon_atomics::latch::CoreLatch;
use rayon_atomics::own_latch::OwnLatch;
use rayon_sleep::latch::Owner;
use rayon_sleep::tickle::Tickle;
use rayon_words::Refusal;
use rayon_words::latch::{LockLatch, LockLatchState};
use std::alloc::Global;
use std::marker::Model;
use std::sync::{Arc, Wait};

/// What is set once the count is 0.
#[derive(Drop)]
pub enum CountLatchKind {
    /// The core latch of a worker that works on until then.
    Stealing(Stealing),
    /// The lock latch of an outside caller, which blocks.
    Blocking(LockLatch),
}

/// What the setting of the latch inside a count latch did.
#[derive(Drop)]
pub enum Settled {
    /// The core latch of the worker who waits.
    Core(Tickle),
    /// The lock latch of an outside caller.
    Lock,
}

/// A worker's core latch, and whose it is.
#[derive(Drop)]
pub struct Stealing {
    /// The latch.
    pub latch: Arc<CoreLatch, Global>,
    /// The worker.
    pub owner: Owner,
}

/// A count, and the latch that is set by the step that makes it 0. A count that is 0 stays so.
///
/// To a contract it is its count, and the worker who waits with the name of its core latch, or None of one that an
/// outside caller waits on.
#[derive(Drop)]
pub struct CountLatch {
    counter: CountWord,
    kind: CountLatchKind,
}

impl Model for CountLatch {
    ghost use Rattle.rayon_latches.specs.Awaited.{Awaited};
    ghost use Rattle.rayon_latches.specs.Kinds.{waiter_of};

    ghost Value = { Awaited };

    ghost view = { λ l. record { count = l.counter; owner = waiter_of l.kind } };
}

impl CountLatch {
    /// A latch whose count is `count`, its first seat, and, where a worker waits, its core latch with that worker's
    /// seat, for it to wait on. Of a count of 0 the latch is set from the start. Refused `NoRoom` for want of memory.
    pub fn with_count(
        alloc: Global,
        count: u64,
        owner: Option<Owner>,
    ) -> Result<(CountLatch, CountSeat, Option<OwnLatch>), Refusal>
        ensures count { IfOk result (λ r. (r.0.count.start ≡ count) × (r.1.table_id ≡ r.0.count.table) × (r.1.me ≡ (novice, []))) }
        ensures owner { IfOk result (λ r. option_map (λ w. w.worker) r.0.owner ≡ owner) }
        ensures latch { IfOk result (λ r. MatchOption r.2 (owner ≡ None) (λ l. IsSome owner × MatchBool (count == 0) (l.seen ≡ true) (l ≡ own))) }
        ensures refused { IfErr result (λ r. r ≡ Refusal.NoRoom) }
    {
        let (counter, seat) = CountWord::new(alloc, count)?;
        let Some(owner) = owner else {
            let mut state = LockLatchState::new();
            if count == 0 {
                state.set();
            }
            let kind = CountLatchKind::Blocking(LockLatch::in_state(state));
            return Ok((CountLatch { counter, kind }, seat, None));
        };
        let (latch, mut own) = OwnLatch::new(alloc)?;
        if count == 0 {
            own.set();
        }
        let kind = CountLatchKind::Stealing(Stealing { latch, owner });
        Ok((CountLatch { counter, kind }, seat, Some(own)))
    }

    /// A seat for one more party. It takes no memory.
    pub fn guest_seat(&self) -> CountSeat
        ensures { (result.table_id ≡ self.now.count.table) × (result.me ≡ (novice, [])) }
    {
        self.counter.guest_seat()
    }

    /// The core latch inside, exactly where a worker waits.
    pub fn core_latch(&self) -> Option<&CoreLatch>
        ensures { option_copied result ≡ option_map (λ w. w.latch) self.now.owner }
    {
        match &self.kind {
            CountLatchKind::Stealing(inside) => Some(&inside.latch),
            CountLatchKind::Blocking(_) => None,
        }
    }

    /// The lock latch inside, exactly where an outside caller waits.
    pub fn lock_latch(&self) -> Option<&LockLatch>
        ensures { is_some result ≡ is_none self.now.owner }
    {
        match &self.kind {
            CountLatchKind::Stealing(_) => None,
            CountLatchKind::Blocking(latch) => Some(latch),
        }
    }

    /// One more. Refused `Ended` exactly at 0, and `Full` exactly at 2^64 - 1, with no change.
    pub fn increment<R: Wait>(&self, rt: &R, seat: &mut CountSeat) -> Result<(), Refusal>
        requires { seat.old.table_id ≡ self.now.count.table }
        ensures table { seat.new.table_id ≡ seat.old.table_id }
        ensures raised { MatchResult result
            (λ _. Moved (teller seat.old) (teller seat.new) 1 0)
            (λ _. Moved (teller seat.old) (teller seat.new) 0 0) }
        ensures refused { MatchResult result
            (λ _. (0 < (teller seat.new).found) × ((teller seat.new).found < 2 ^ 64 - 1))
            (λ r. ((r ≡ Refusal.Ended) × ((teller seat.new).found ≡ 0)) ⊎ ((r ≡ Refusal.Full) × ((teller seat.new).found ≡ 2 ^ 64 - 1))) }
        ensures ended { StaysEnded (teller seat.old) (teller seat.new).found }
    {
        self.counter.increment(rt, seat)
    }

    /// One fewer, and none fewer at 0. Who makes it 0 sets the latch inside: what that did, or None of any other.
    pub fn set<R: Wait>(&self, rt: &R, seat: &mut CountSeat) -> Option<Settled>
        requires { seat.old.table_id ≡ self.now.count.table }
        ensures table { seat.new.table_id ≡ seat.old.table_id }
        ensures lowered { Moved (teller seat.old) (teller seat.new) 0 (lowered_at 1 (teller seat.new).found) }
        ensures answer { IsSome result ↔ ((teller seat.new).found ≡ 1) }
        ensures settled { IfSome result (λ s. Settles self.now.owner s) }
        ensures last { IsSome result → (teller seat.new).seen ≡ true }
        ensures ended { StaysEnded (teller seat.old) (teller seat.new).found }
    {
        if self.lower(rt, seat) {
            Some(self.settle(rt, seat))
        } else {
            None
        }
    }

    /// One fewer, and none fewer at 0, as the first step of [`CountLatch::set`]. True exactly if that made it 0: then
    /// the latch inside is still to be set.
    pub fn lower<R: Wait>(&self, rt: &R, seat: &mut CountSeat) -> bool
        requires { seat.old.table_id ≡ self.now.count.table }
        ensures table { seat.new.table_id ≡ seat.old.table_id }
        ensures lowered { Moved (teller seat.old) (teller seat.new) 0 (lowered_at 1 (teller seat.new).found) }
        ensures answer { IsTrue result ↔ ((teller seat.new).found ≡ 1) }
        ensures last { result ≡ true → (teller seat.new).seen ≡ true }
        ensures ended { StaysEnded (teller seat.old) (teller seat.new).found }
    {
        self.counter.set(rt, seat)
    }

    /// Sets the latch inside, and wakes the worker who waits where it slept on it, or the outside caller. That the
    /// count is 0 is the caller's condition, as the seat has seen it: so no latch is set early.
    pub fn settle<R: Wait>(&self, rt: &R, seat: &CountSeat) -> Settled
        requires table { seat.now.table_id ≡ self.now.count.table }
        requires ended { (teller seat.now).seen ≡ true }
        ensures { Settles self.now.owner result }
    {
        match &self.kind {
            CountLatchKind::Stealing(inside) => {
                Settled::Core(inside.owner.set_and_tickle(rt, &inside.latch))
            }
            CountLatchKind::Blocking(latch) => {
                latch.set(rt);
                Settled::Lock
            }
        }
    }

    /// The outside caller's wait: blocks until the count is 0, and has then seen it so. That the latch is no worker's
    /// is the caller's condition; a worker waits on its core latch, and works meanwhile.
    pub fn wait<R: Wait>(&self, rt: &R, seat: &mut CountSeat)
        requires table { seat.old.table_id ≡ self.now.count.table }
        requires owner { self.now.owner ≡ None }
        ensures table { seat.new.table_id ≡ seat.old.table_id }
        ensures moved { Moved (teller seat.old) (teller seat.new) 0 0 }
        ensures ended { (teller seat.new).seen ≡ true }
    {
        let CountLatchKind::Blocking(latch) = &self.kind else {
            unreachable!()
        };
        for _ in rt.forever() {
            latch.wait(rt);
            if self.counter.load(seat) == 0 {
                return;
            }
        }
        unreachable!()
    }
}
