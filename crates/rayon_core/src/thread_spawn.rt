//! What starts the threads of a pool's workers.
ghost use Rattle.std.specs.Prelude.{◌≡◌, Bool, true, false, is_some, IfOk, IfSome, Ok};

use std::io;
use std::marker::Model;

/// What starts the threads of a pool's workers: `DefaultSpawn`, or `CustomSpawn` by a closure. `T` is a thread that has
/// not begun, a `ThreadBuilder` where a pool is built. In rayon-core nobody else can have this trait, and the pool is
/// handed nothing back.
pub trait ThreadSpawn<T>: Drop {
    /// Whether it hands threads back, for the pool to start, or has them started itself.
    ghost hands_back: { Bool };

    /// Whether it may be handed a thread, now and after each.
    ghost can_spawn: { Self → Type 0 };

    /// What a call with this thread that answers Ok may do: to what it is after, from what it was before.
    ghost took: { Self → T → Self → Type 0 };

    /// Has this thread started, or hands it back, and then whoever called starts it in the ordinary way. Where it is
    /// refused it counts as not started.
    fn spawn(&mut self, thread: T) -> io::Result<Option<T>>
        requires { can_spawn self.old }
        ensures again { can_spawn self.new }
        ensures took { IfOk result (λ o. took self.old thread self.new) }
        ensures handed { IfOk result (λ o. is_some o ≡ hands_back) }
        ensures back { IfOk result (λ o. IfSome o (λ t. t ≡ thread)) };
}

/// Each thread is handed back, so that the pool starts it, with its name and its size of stack.
#[derive(Clone, Copy, Debug, Default, PartialEq, Eq)]
pub struct DefaultSpawn;

impl<T: Drop> ThreadSpawn<T> for DefaultSpawn {
    ghost hands_back = { true };

    ghost can_spawn = { λ s. Unit {0} };

    ghost took = { λ s t u. Unit {0} };

    fn spawn(&mut self, thread: T) -> io::Result<Option<T>> {
        Ok(Some(thread))
    }
}

/// Each thread is handed to a closure, which has it started. Contracts see the closure.
#[derive(Drop)]
pub struct CustomSpawn<F> {
    spawn: F,
}

impl<F> Model for CustomSpawn<F> {
    ghost Value = { F };

    ghost view = { λ s. s.spawn };
}

impl<F> CustomSpawn<F> {
    // What hands each thread to this closure.
    pub(crate) fn new(spawn: F) -> CustomSpawn<F>
        ensures { result ≡ spawn }
    {
        CustomSpawn { spawn }
    }
}

impl<T: Drop, F: FnMut(T) -> io::Result<()> + Drop> ThreadSpawn<T> for CustomSpawn<F> {
    ghost hands_back = { false };

    ghost can_spawn = { λ s. F.IsAlwaysCallable s };

    ghost took = { λ s t u. F.step s t (Ok tt) u };

    fn spawn(&mut self, thread: T) -> io::Result<Option<T>> {
        (self.spawn)(thread)?;
        Ok(None)
    }
}
