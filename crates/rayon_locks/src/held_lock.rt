//! A lock that is held from one act to the next.
ghost use Rattle.std.specs.Sync.Mutex.{mutex_guard_value};
ghost use Rattle.std.specs.Fn.{FnOnceReturnsAtMut};
ghost use Rattle.std.specs.Prelude.{◌≡◌, true, None, Some, is_some, not, IfErr, MatchResult};

use crossbeam_utils::Backoff;
use std::marker::Model;
use std::mem;
use std::sync::{Condvar, Mutex, MutexGuard, Wait};

// How often a thread tries to hold a lock before it sleeps until the lock is left. Who holds it leaves it after a few
// steps as a rule. Each pause is twice as long as the one before, all together about as long as to sleep and be woken.
const TRIES: u32 = 7;

/// What stands under a held lock: the value, but while somebody holds it. To a contract it is that value, if it is
/// there.
#[derive(Drop)]
pub struct HeldLockState<T> {
    value: Option<T>,
}

impl<T> Model for HeldLockState<T> {
    ghost use Rattle.std.specs.Prelude.{Option};

    ghost Value = { Option T };

    ghost view = { λ s. s.value };
}

impl<T: Drop> HeldLockState<T> {
    /// Nobody holds it, and this value is there.
    pub fn new(value: T) -> HeldLockState<T>
        ensures { result ≡ Some value }
    {
        HeldLockState { value: Some(value) }
    }

    /// Whether somebody holds it.
    pub fn is_held(&self) -> bool
        ensures { result ≡ not (is_some self.now) }
    {
        self.value.is_none()
    }

    /// Takes the value out: who has it holds the lock. None where somebody does already.
    pub fn take(&mut self) -> Option<T>
        ensures given { result ≡ self.old }
        ensures held { self.new ≡ None }
    {
        mem::replace(&mut self.value, None)
    }

    /// Puts a value back. Where nobody holds the lock it comes back, and the one that is there stays.
    pub fn put_back(&mut self, value: T) -> Result<(), T>
        ensures { MatchResult result
            (λ _. (self.old ≡ None) × (self.new ≡ Some value))
            (λ back. (back ≡ value) × (is_some self.old ≡ true) × (self.new ≡ self.old)) }
    {
        if self.value.is_some() {
            return Err(value);
        }
        self.value = Some(value);
        Ok(())
    }
}

/// A lock that is held from one act to the next: who holds it has the value, and nobody else can have it meanwhile.
/// What each step does to what stands under it is the contract of `HeldLockState`'s call.
///
/// It stands where a guard of a `Mutex` can't: one that lives longer than a call would have to be kept in the value of
/// who holds it.
#[derive(Drop)]
pub struct HeldLock<T> {
    state: Mutex<HeldLockState<T>>,
    left: Condvar,
}

impl<T: Drop> HeldLock<T> {
    /// A lock of this value that nobody holds. It takes no memory.
    pub fn new(value: T) -> HeldLock<T> {
        HeldLock {
            state: Mutex::new(HeldLockState::new(value)),
            left: Condvar::new(),
        }
    }

    /// Holds the lock once nobody else does, and gives its value. A thread that has tried for a few microseconds
    /// sleeps.
    pub fn hold<R: Wait>(&self, rt: &R) -> T {
        match self.lock_left(rt).take() {
            Some(value) => value,
            None => unreachable!(),
        }
    }

    /// Does this to the value once nobody holds the lock, and answers what it answers: nobody else has the value
    /// meanwhile. It is for one step, as `hold` is for several. A thread waits as there.
    pub fn with<R: Wait, O, F: FnOnce(&mut T) -> O>(&self, rt: &R, step: F) -> O
        requires { F.IsAlwaysCallable step }
        ensures { (before : T) × (after : T) × FnOnceReturnsAtMut F.FnOnce step before result after }
    {
        match &mut self.lock_left(rt).value {
            Some(value) => step(value),
            None => unreachable!(),
        }
    }

    // The state, once nobody holds the lock.
    fn lock_left<R: Wait>(&self, rt: &R) -> MutexGuard<'_, HeldLockState<T>>
        ensures { is_some (mutex_guard_value result) ≡ true }
    {
        let backoff = Backoff::new();
        for _ in 0..TRIES {
            let state = self.state.lock(rt);
            if !state.is_held() {
                return state;
            }
            drop(state);
            backoff.spin();
        }
        self.left
            .wait_while(rt, self.state.lock(rt), |state| state.is_held())
    }

    /// Leaves the lock with this value, and wakes all that wait for it. Where nobody holds the lock the value comes
    /// back, and nothing is changed.
    pub fn leave<R: Wait>(&self, rt: &R, value: T) -> Result<(), T>
        ensures { IfErr result (λ back. back ≡ value) }
    {
        let mut state = self.state.lock(rt);
        state.put_back(value)?;
        drop(state);
        self.left.notify_all();
        Ok(())
    }
}
