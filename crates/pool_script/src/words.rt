//! The words of a line: numbers, values, and jobs with their numbers.
ghost use Rattle.pool_script.specs.Ends.{GoesDown};
ghost use Rattle.std.specs.Prelude.{ℕ, IfOk};

use crate::bad::Bad;
use crate::names::Directory;
use crate::script::{Call, Number, Value};

// The number that digits are.
pub(crate) fn digits(word: &str) -> Result<u64, Bad> {
    if word.is_empty() || !word.as_bytes().iter().all(u8::is_ascii_digit) {
        return Err(Bad::NoNumber);
    }
    word.parse().map_err(|_| Bad::TooLarge)
}

// The same, of what lies in memory.
pub(crate) fn size(word: &str) -> Result<usize, Bad> {
    usize::try_from(digits(word)?).map_err(|_| Bad::TooLarge)
}

// How many times: 1 where nothing is said.
fn factor(word: &str) -> Result<u64, Bad> {
    if word.is_empty() { Ok(1) } else { digits(word) }
}

// The sum of two numbers.
fn add(first: u64, second: u64) -> Result<u64, Bad> {
    first.checked_add(second).ok_or(Bad::TooLarge)
}

// The number that a word is: `n` is the run's, `k` the turn's, and `10n+k-1` has all forms.
pub(crate) fn number(word: &str) -> Result<Number, Bad> {
    let (sum, minus) = match word.split_once('-') {
        Some((sum, minus)) => (sum, digits(minus)?),
        None => (word, 0),
    };
    let mut number = Number {
        own: 0,
        turn: 0,
        plus: 0,
        minus,
    };
    for term in sum.split('+') {
        if let Some(times) = term.strip_suffix('n') {
            number.own = add(number.own, factor(times)?)?;
        } else if let Some(times) = term.strip_suffix('k') {
            number.turn = add(number.turn, factor(times)?)?;
        } else {
            number.plus = add(number.plus, digits(term)?)?;
        }
    }
    Ok(number)
}

// The number that is always 1.
pub(crate) fn one() -> Number {
    Number {
        own: 0,
        turn: 0,
        plus: 1,
        minus: 0,
    }
}

// The value that a word is.
pub(crate) fn value(word: &str) -> Result<Value, Bad> {
    match word {
        "migrated" => Ok(Value::Migrated),
        "index" => Ok(Value::Index),
        "bit" => Ok(Value::Bit),
        _ => Ok(Value::Number(number(word)?)),
    }
}

// The job that a word names, with its number in brackets or with 0.
pub(crate) fn call(names: &Directory, word: &str) -> Result<Call, Bad> {
    let (name, inside) = match (word.split_once('('), word.strip_suffix(')')) {
        (Some((name, inside)), Some(_)) => (name, inside.strip_suffix(')').unwrap_or("")),
        (None, None) => (word, "0"),
        _ => return Err(Bad::OneBracket),
    };
    Ok(Call {
        job: names.job(name)?,
        number: number(inside)?,
    })
}

// The same in a line of the job with this number: the named one stands further down, or is the same with a smaller
// number. So each script comes to an end.
pub(crate) fn call_below(names: &Directory, job: usize, word: &str) -> Result<Call, Bad>
    ensures { IfOk result (GoesDown job) }
{
    let call = call(names, word)?;
    if call.job > job || call.job == job && call.number.is_less() {
        Ok(call)
    } else {
        Err(Bad::NamesAbove)
    }
}
