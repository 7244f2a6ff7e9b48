//! What an act on the book of a scope sees, and how it leaves the numbers that it touches.
ghost use Rattle.std.specs.Prelude.{◌≡◌, ℕ, true, IfErr, IfOk, Some, None, ◌-◌};
ghost use Rattle.rayon_machine_runs.specs.declared.state.Slot.TheVariants.{Closed};
ghost use Rattle.rayon_machine_places.specs.declared.place.Party.{Party as AnyParty};
ghost use Rattle.rayon_machine_places.specs.declared.act.Act.TheVariants.{Slot as OpenSlot, SlotAll, StorePiece};
ghost use Rattle.rayon_machine_runs.specs.World.{filled as filled_of, first_fault, is_open, lowest_fault, with_piece as with_piece_of, told as told_of};
ghost use Rattle.rayon_machine_places.specs.Sleepers.{Counts};
ghost use Rattle.rayon_machine_numbers.specs.Numbers.{Can, Does, DoesNot, is_booking, with_dealt, with_left_book};

use crate::numbers::{Outcome, Touched};
use rayon_machine_places::act::{Act, Seen};
use rayon_machine_places::place::{Count, Ending, Party, Pieces};
use rayon_machine_runs::error::StepError;
use rayon_machine_runs::state::{Call, Job, Slot};

/// The job whose fault a book keeps, once this job has ended so.
fn kept_fault(kept: Option<u64>, job: u64, ending: Ending) -> Option<u64>
    ensures { result ≡ first_fault kept job ending }
{
    match (kept, ending) {
        (None, Ending::Fault) => Some(job),
        _ => kept,
    }
}

/// The piece whose fault a broadcast keeps, once this piece has ended so.
fn kept_of_pieces(kept: Option<u64>, job: u64, ending: Ending) -> Option<u64>
    ensures { result ≡ lowest_fault kept job ending }
{
    match (kept, ending) {
        (_, Ending::Fine) => kept,
        (Some(lower), Ending::Fault) if lower < job => kept,
        _ => Some(job),
    }
}

/// How the pieces of a broadcast have ended so far, once one more has ended so.
fn with_piece(cell: Option<Ending>, ending: Ending) -> Ending
    ensures { result ≡ with_piece_of cell ending }
{
    match cell {
        Some(Ending::Fault) => Ending::Fault,
        _ => ending,
    }
}

/// What a call takes whose cell holds this ending: a fault where its book keeps one.
pub(crate) fn told(kept: Option<u64>, ending: Ending) -> Ending
    ensures { result ≡ told_of kept ending }
{
    match kept {
        Some(_) => Ending::Fault,
        None => ending,
    }
}

/// A number of a book once its ending is stored.
fn filled(slot: Slot) -> Slot
    ensures { result ≡ filled_of slot }
{
    match slot {
        Slot::Open(number) => Slot::Filled(number),
        _ => slot,
    }
}

impl Touched {
    /// Whether no other party holds the book.
    fn is_book_open_to(self, party: Party) -> bool
        ensures { result ≡ is_open party self.call.writer }
    {
        match self.call.writer {
            Some(holder) => party.is(holder),
            None => true,
        }
    }

    /// The same with this holder of the book.
    fn with_writer(self, writer: Option<Party>) -> Touched
        ensures { result ≡ record self { call = record (self.call) { writer = writer } } }
    {
        self.with_call(Call {
            writer,
            ..self.call
        })
    }

    /// The same with the book left by this party, if it is the one of the scope whose job it pushes and the party holds
    /// it.
    pub(crate) fn leaving_book(self, party: Party, book: Option<u64>) -> Touched
        ensures { result ≡ with_left_book party book self }
    {
        if book.is_none() {
            return self;
        }
        match self.call.writer {
            Some(holder) if party.is(holder) => self.with_writer(None),
            _ => self,
        }
    }

    /// The same with the pieces of a broadcast dealt: the book of its scope is left, and the shares of a broadcast that
    /// waits are its pieces'.
    pub(crate) fn dealing(self, party: Party, pieces: Pieces) -> Touched
        ensures { result ≡ with_dealt party pieces self }
    {
        match pieces.count {
            Count::OfPool(_) => self,
            Count::OfScope { call, .. } => self.leaving_book(party, Some(call)),
            Count::OfCast { .. } => self.with_call(Call {
                undealt: 0,
                ..self.call
            }),
        }
    }

    /// The same with how a piece of a broadcast ended.
    pub(crate) fn piece_stored(self, job: u64, ending: Ending) -> (Seen, Touched)
        ensures { (q : AnyParty) (c : Counts) (jec_bits call : ℕ) → Does (StorePiece call job ending) q c jec_bits self (result.0) (result.1) }
    {
        let call = Call {
            cell: Some(with_piece(self.call.cell, ending)),
            fault: kept_of_pieces(self.call.fault, job, ending),
            ..self.call
        };
        (
            Seen::Done,
            self.with_call(call).with_slot(filled(self.job.slot)),
        )
    }

    /// The same with this number of the job in its book.
    fn with_slot(self, slot: Slot) -> Touched
        ensures { result ≡ record self { job = record (self.job) { slot = slot } } }
    {
        Touched {
            job: Job { slot, ..self.job },
            ..self
        }
    }

    /// The next number of a book that no other party holds is opened.
    fn open_slot(self, party: Party) -> Outcome
        ensures ok { IfOk result (λ r. (call job : ℕ) (c : Counts) (jec_bits : ℕ) → is_open party self.call.writer ≡ true → Does (OpenSlot call job) party c jec_bits self (r.0) (r.1)) }
        ensures no_room { IfErr result (λ e. e ≡ StepError.NoRoom) }
        ensures enabled { IfErr result (λ e. (call job : ℕ) (c : Counts) → is_open party self.call.writer ≡ true → Can (OpenSlot call job) party c self) }
    {
        if self.call.slots == u64::MAX {
            return Err(StepError::NoRoom);
        }
        let call = Call {
            slots: self.call.slots + 1,
            writer: Some(party),
            ..self.call
        };
        let job = Job {
            slot: Slot::Open(self.call.slots),
            ..self.job
        };
        Ok((Seen::Done, Touched { call, job, ..self }))
    }

    /// The next numbers of a book that no other party holds are opened, one for each piece of a broadcast.
    fn open_slots(self, party: Party, pieces: Pieces) -> Outcome
        ensures ok { IfOk result (λ r. (c : Counts) (jec_bits : ℕ) → is_open party self.call.writer ≡ true → Does (SlotAll pieces) party c jec_bits self (r.0) (r.1)) }
        ensures no_room { IfErr result (λ e. e ≡ StepError.NoRoom) }
        ensures enabled { IfErr result (λ e. (c : Counts) → is_open party self.call.writer ≡ true → Can (SlotAll pieces) party c self) }
    {
        let numbers = pieces.workers as u64;
        if self.call.slots > u64::MAX - numbers {
            return Err(StepError::NoRoom);
        }
        let call = Call {
            slots: self.call.slots + numbers,
            writer: Some(party),
            ..self.call
        };
        Ok((Seen::Opened(self.call.slots), self.with_call(call)))
    }

    /// The same with these last numbers of the book closed, and the book left.
    fn closing_slots(self, pieces: Pieces) -> Touched
        ensures { result ≡ record self { call = record (self.call) { slots = self.call.slots - pieces.workers; writer = None } } }
    {
        self.with_call(Call {
            slots: self.call.slots.saturating_sub(pieces.workers as u64),
            writer: None,
            ..self.call
        })
    }

    /// The same with the last number of the book closed, and the book left.
    fn closing_slot(self) -> Touched
        ensures { result ≡ record self { call = record (self.call) { slots = self.call.slots - 1; writer = None }; job = record (self.job) { slot = Closed } } }
    {
        let call = Call {
            slots: self.call.slots.saturating_sub(1),
            writer: None,
            ..self.call
        };
        self.with_call(call).with_slot(Slot::Closed)
    }

    /// The same with the fault that the book keeps, once this job has ended so.
    fn keeping_fault(self, job: u64, ending: Ending) -> Touched
        ensures { result ≡ record self { call = record (self.call) { fault = first_fault self.call.fault job ending } } }
    {
        self.with_call(Call {
            fault: kept_fault(self.call.fault, job, ending),
            ..self.call
        })
    }

    /// The same with how a scope's body ended.
    fn with_body_ended(self, ending: Ending) -> Touched
        ensures { result ≡ record self { call = record (self.call) { cell = Some ending; fault = first_fault self.call.fault self.call.job ending } } }
    {
        let after = self.keeping_fault(self.call.job, ending);
        after.with_call(Call {
            cell: Some(ending),
            ..after.call
        })
    }

    /// What an act on the book of a scope sees, and the numbers after it.
    pub(crate) fn books(self, act: Act, party: Party) -> Outcome
        ensures ok { IfOk result (λ r. is_booking act ≡ true → (c : Counts) (jec_bits : ℕ) → Does act party c jec_bits self (r.0) (r.1)) }
        ensures not_enabled { IfErr result (λ e. is_booking act ≡ true → e ≡ StepError.NotEnabled → (c : Counts) → DoesNot act party c self) }
        ensures enabled { IfErr result (λ e. is_booking act ≡ true → e ≡ StepError.NoRoom → (c : Counts) → Can act party c self) }
    {
        if !self.is_book_open_to(party) {
            return Err(StepError::NotEnabled);
        }
        match act {
            Act::Slot { .. } => self.open_slot(party),
            Act::SlotUndo { .. } => Ok((Seen::Done, self.closing_slot())),
            Act::SlotAll(pieces) => self.open_slots(party, pieces),
            Act::SlotUndoAll(pieces) => Ok((Seen::Done, self.closing_slots(pieces))),
            Act::StoreBody { ending, .. } => Ok((Seen::Done, self.with_body_ended(ending))),
            Act::StoreSlot { job, ending, .. } => {
                let after = self.keeping_fault(job, ending);
                Ok((Seen::Done, after.with_slot(filled(self.job.slot))))
            }
            _ => Err(StepError::NotEnabled),
        }
    }
}
