//! What a run answers, where a script says it: jobs whose lines only add numbers.
ghost use Rattle.pool_script.specs.Sums.{act_adds, deed_adds, plain_adds, plus, sum_of, takes};
ghost use Rattle.std.specs.Prelude.{◌≡◌, ℕ};

use crate::script::{Act, Deed, JobPlan, Plain, Value, Verb};

impl Plain {
    // What is added by it in this run and turn, if the script says it.
    fn adds(self, own: u64, turn: u64) -> Option<u64>
        ensures { result ≡ plain_adds self own turn }
    {
        match self {
            Plain::Add(Value::Number(number)) => Some(number.at(own, turn).unwrap_or(0)),
            Plain::Add(Value::Migrated | Value::Index | Value::Bit) => None,
            Plain::Note(_)
            | Plain::Fault(_)
            | Plain::Open(..)
            | Plain::Wait(..)
            | Plain::Meet(..)
            | Plain::Pause => Some(0),
        }
    }
}

impl Act {
    // The same of what a line does.
    fn adds(self, own: u64, turn: u64) -> Option<u64>
        ensures { result ≡ act_adds self own turn }
    {
        match self {
            Act::Plain(plain) => plain.adds(own, turn),
            Act::One(Verb::Spawn | Verb::SpawnFifo | Verb::SpawnBroadcast, _) => Some(0),
            Act::Serve(..) | Act::Into(..) => Some(0),
            Act::One(Verb::Install | Verb::Broadcast, _)
            | Act::Join(..)
            | Act::JoinWith(..)
            | Act::JoinInstall(..)
            | Act::Scope(..) => None,
        }
    }
}

impl Deed {
    /// Whether the run with this number does it.
    pub fn is_for(self, number: u64) -> bool
        ensures { result ≡ takes self number }
    {
        self.from <= number && self.below.is_none_or(|below| number < below)
    }

    // What is added by it in the run with this number, if the script says it.
    #[tactic(auto, using(crate::proofs::Adding::over_turns_more))]
    fn adds(self, number: u64) -> Option<u64>
        ensures { result ≡ deed_adds number self }
    {
        let mut sum = Some(0);
        if !self.is_for(number) {
            return sum;
        }
        for turn in 0..self.times {
            sum = plus(sum, self.act.adds(number, turn));
        }
        sum
    }
}

// The sum of two numbers, if the script says both.
fn plus(first: Option<u64>, second: Option<u64>) -> Option<u64>
    ensures { result ≡ plus first second }
{
    Some(first?.wrapping_add(second?))
}

impl JobPlan {
    /// What the run with this number answers where it comes to its end, if the script says it: the sum of what its
    /// lines add, where none adds what a call answers or what is told of its worker.
    pub fn sum(&self, number: u64) -> Option<u64>
        ensures { result ≡ sum_of self.now.deeds.items number }
    {
        let mut sum = Some(0);
        for deed in self.deeds.iter() {
            sum = plus(sum, deed.adds(number));
        }
        sum
    }
}
