//! What the threads of a pool's workers are called.
ghost use Rattle.rayon_core.specs.Texts.{has_nul};
ghost use Rattle.std.specs.IoError.{error_kind};
ghost use Rattle.std.specs.Prelude.{◌≡◌, ℕ, List, Option, IfOk, IfErr, Ok, Some, None, option_map, true, false};
ghost use Rattle.std.specs.String.{string_bytes};

use std::alloc::AllocError;
use std::io::{Error, ErrorKind};
use std::marker::Model;

/// What names the threads of a pool's workers: `NoNames`, or `NamesBy` a closure.
pub trait ThreadNames: Drop {
    /// Whether it may be asked for a name, now and after each name.
    ghost can_name: { Self → Type 0 };

    /// What a call for this index that answers Ok may do: the bytes of the name that it answers, or none; and what
    /// names the threads after it, from what it was before.
    ghost named: { Self → ℕ → Option (List ℕ) → Self → Type 0 };

    /// The name of the thread of the worker with this index; None where it has none. Refused for want of memory.
    fn name_of(&mut self, index: usize) -> Result<Option<String>, AllocError>
        requires { can_name self.old }
        ensures again { can_name self.new }
        ensures named { IfOk result (λ n. named self.old index (option_map string_bytes n) self.new) };
}

/// No thread has a name of its own.
#[derive(Clone, Copy, Debug, Default, PartialEq, Eq)]
pub struct NoNames;

impl ThreadNames for NoNames {
    ghost can_name = { λ n. Unit {0} };

    ghost named = { λ n i name m. name ≡ None };

    fn name_of(&mut self, _index: usize) -> Result<Option<String>, AllocError> {
        Ok(None)
    }
}

/// Each thread has the name that a closure answers for its worker's index. Contracts see the closure.
#[derive(Drop)]
pub struct NamesBy<F> {
    name: F,
}

impl<F> Model for NamesBy<F> {
    ghost Value = { F };

    ghost view = { λ n. n.name };
}

impl<F> NamesBy<F> {
    // The names that this closure answers.
    pub(crate) fn new(name: F) -> NamesBy<F>
        ensures { result ≡ name }
    {
        NamesBy { name }
    }
}

impl<F: FnMut(usize) -> Result<String, AllocError> + Drop> ThreadNames for NamesBy<F> {
    ghost can_name = { λ n. F.IsAlwaysCallable n };

    ghost named = { λ n i name m. (text : _) × (name ≡ Some (string_bytes text)) × F.step n i (Ok text) m };

    fn name_of(&mut self, index: usize) -> Result<Option<String>, AllocError> {
        let name = (self.name)(index)?;
        Ok(Some(name))
    }
}

// The name, where the system can give it to a thread. Refused `InvalidInput` where it holds a NUL.
pub(crate) fn given_name(name: String) -> Result<String, Error>
    ensures kept { IfOk result (λ n. (n ≡ name) × (has_nul name ≡ false)) }
    ensures refused { IfErr result (λ e. (has_nul name ≡ true) × (error_kind e ≡ ErrorKind.InvalidInput)) }
{
    if name.as_bytes().contains(&0) {
        let text = "thread name may not contain interior null bytes";
        return Err(Error::new(ErrorKind::InvalidInput, text));
    }
    Ok(name)
}
