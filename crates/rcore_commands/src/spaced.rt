//! Numbers on a line of their own.
ghost use Rattle.rcore_commands.specs.Lines.{spaced, after_spaces};
ghost use Rattle.std.specs.Io.KnownBytes.{Appends};
ghost use Rattle.std.specs.Prelude.{◌≡◌, ℤ, pos, ◌∷◌, ◌++◌, [], Some, map};

use crate::run::{DONE, fail};
use std::fmt;
use std::io::Write;

/// A number of a line.
pub(crate) trait Number {
    /// Which number it is.
    ghost value: { Self → ℤ };

    /// The number, as it is printed.
    fn value(&self) -> i64
        ensures { result ≡ value self.now };
}

impl Number for i8 {
    ghost value = { λ n. n };

    fn value(&self) -> i64 {
        i64::from(*self)
    }
}

impl Number for u32 {
    ghost value = { pos };

    fn value(&self) -> i64 {
        i64::from(*self)
    }
}

/// Prints numbers on a line of their own, with single spaces between, and answers the status.
pub(crate) fn print_numbers<T: Number, W: Write, E: Write>(
    numbers: &[T],
    out: &mut W,
    err: &mut E,
) -> u8
    ensures done { result ≡ 0 → Appends (W.contents out.old) (W.contents out.new) (spaced (map T.value numbers.now) ++ 10 ∷ []) }
    ensures status { result ≡ 2 → ⊥ }
{
    match writeln!(out, "{}", Spaced(numbers)) {
        Ok(()) => DONE,
        Err(_) => fail(err, "Write"),
    }
}

// Numbers, as they are printed: with single spaces between.
#[derive(Clone, Copy)]
struct Spaced<'a, T>(&'a [T]);

impl<T: Number> fmt::Display for Spaced<'_, T> {
    ghost output = { λ s. Some (spaced (map T.value s.0.now)) };

    fn fmt<W: fmt::Write>(&self, f: &mut fmt::Formatter<W>) -> fmt::Result {
        match self.0.split_first() {
            None => Ok(()),
            Some((first, rest)) => write!(f, "{}{}", first.value(), AfterSpaces(rest)),
        }
    }
}

// Numbers, as they are printed: each after a space.
#[derive(Clone, Copy)]
struct AfterSpaces<'a, T>(&'a [T]);

impl<T: Number> fmt::Display for AfterSpaces<'_, T> {
    ghost output = { λ s. Some (after_spaces (map T.value s.0.now)) };

    fn fmt<W: fmt::Write>(&self, f: &mut fmt::Formatter<W>) -> fmt::Result {
        for number in self.0 {
            write!(f, " {}", number.value())?;
        }
        Ok(())
    }
}
