//! The list of the jobs that ran.
ghost use Rattle.std.specs.Prelude.{◌≡◌, ◌∷◌, ◌++◌, [], None, Some, IfOk, IfErr, MatchOption};

use crate::fault::OrderFault;
use rayon_core::Refusal;
use std::alloc::Global;
use std::mem;

/// The numbers of the jobs that ran, in the order in which they did, and the first refusal of those that could not run.
#[derive(Drop)]
pub(crate) struct Ran {
    numbers: Vec<i8>,
    refusal: Option<Refusal>,
}

impl Ran {
    /// No job ran, and none was refused.
    pub(crate) fn new(alloc: Global) -> Ran
        ensures { (result.numbers.items ≡ []) × (result.refusal ≡ None) }
    {
        Ran {
            numbers: Vec::new(alloc),
            refusal: None,
        }
    }

    /// A job ran last, with this number. Without memory for the number that is kept as a refusal.
    pub(crate) fn add(&mut self, number: i8)
        ensures added { self.new.refusal ≡ None → (self.old.refusal ≡ None) × (self.new.numbers.items ≡ self.old.numbers.items ++ number ∷ []) }
        ensures kept { MatchOption self.old.refusal (Unit {0}) (λ r. self.new.refusal ≡ Some r) }
    {
        if self.numbers.push(number).is_err() {
            self.refuse(Refusal::NoRoom);
        }
    }

    /// A job could not run, since this was refused. The first refusal is kept.
    pub(crate) fn refuse(&mut self, refusal: Refusal)
        ensures kept { MatchOption self.old.refusal (self.new.refusal ≡ Some refusal) (λ r. self.new.refusal ≡ Some r) }
        ensures numbers { self.new.numbers ≡ self.old.numbers }
    {
        if self.refusal.is_none() {
            self.refusal = Some(refusal);
        }
    }

    /// The numbers, of which none stays, or the refusal that is kept.
    pub(crate) fn take(&mut self, alloc: Global) -> Result<Vec<i8>, OrderFault>
        ensures list { IfOk result (λ ns. (self.old.refusal ≡ None) × (ns.items ≡ self.old.numbers.items)) }
        ensures refused { IfErr result (λ e. MatchOption self.old.refusal ⊥ (λ r. e ≡ OrderFault.Refused r)) }
    {
        match self.refusal {
            None => Ok(mem::replace(&mut self.numbers, Vec::new(alloc))),
            Some(refusal) => Err(OrderFault::Refused(refusal)),
        }
    }
}
