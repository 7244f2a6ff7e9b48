//! The parties' stacks: where each party stands, and its moves.
ghost use Rattle.std.specs.Prelude.{◌≡◌, ℕ, OnOk, if◌then◌else◌, ◌==◌, ◌<◌, vec_len, reverse, vec_capacity, ◌∷◌};
ghost use Rattle.std.specs.List.{list_any};
ghost use Rattle.rayon_machine_places.specs.declared.place.Party.{Party as AnyParty};
ghost use Rattle.rayon_machine_runs.specs.Steps.{after_move, put_stack, after_resume, back as back_to, after_close, holds};
ghost use Rattle.rayon_machine_places.specs.Places.{holds_scope};
ghost use Rattle.rayon_machine_parts.specs.State.{stack_in, shape_of, HasRoom, RoomAt, stack_of, stack_or};
ghost use Rattle.rayon_machine_runs.specs.World.{Shape, Stack as AnyStack};

use crate::growth::{grow_callers, grow_crews, grow_stacks};
use crate::shapes::Shapes;
use rayon_machine_places::place::{Count, Ending, JobKind, Move, Party, Place, Share, Then};
use std::alloc::{AllocError, Global};

/// Where a party stands, and the frames that it goes back to, the one that it entered last at the
/// end.
/// It is the running world's own part, and not for users.
#[derive(Drop)]
pub struct Stack {
    /// Where the party stands.
    pub top: Place,
    /// The frames that it goes back to, the one that it entered last at the end.
    pub below: Vec<Place>,
}

/// The stacks of a pool's workers, by index.
/// It is the running world's own part, and not for users.
#[derive(Drop)]
pub struct Crew {
    /// The stack of each worker.
    pub stacks: Vec<Stack>,
}

/// The stacks of the parties. A stack that is not here is as at the start.
/// It is the running world's own part, and not for users.
#[derive(Drop)]
pub struct Parties {
    /// The stacks of the workers, by pool.
    pub crews: Vec<Crew>,
    /// The stacks of the outside callers, by number.
    pub callers: Vec<Stack>,
}

impl Parties {
    /// Where a party stands.
    pub fn top(&self, shapes: &Shapes, party: Party) -> Place
        ensures { result ≡ (stack_in (shape_of shapes.now) self.now party).top }
    {
        match party {
            Party::Worker { pool, index } => match self.crews.get(pool) {
                Some(crew) => match crew.stacks.get(index) {
                    Some(stack) => stack.top,
                    None => shapes.first_place(party),
                },
                None => shapes.first_place(party),
            },
            Party::Caller(number) => match self.callers.get(number) {
                Some(stack) => stack.top,
                None => shapes.first_place(party),
            },
        }
    }

    /// Whether a party's stack holds the body of the scope of this call, or a job of the scope.
    pub fn holds(&self, shapes: &Shapes, party: Party, call: u64) -> bool
        ensures { result ≡ holds call (stack_in (shape_of shapes.now) self.now party) }
    {
        match party {
            Party::Worker { pool, index } => match self.crews.get(pool) {
                Some(crew) => match crew.stacks.get(index) {
                    Some(stack) => stack.holds(call),
                    None => shapes.first_place(party).holds_scope(call),
                },
                None => shapes.first_place(party).holds_scope(call),
            },
            Party::Caller(number) => match self.callers.get(number) {
                Some(stack) => stack.holds(call),
                None => shapes.first_place(party).holds_scope(call),
            },
        }
    }

    /// Room for a frame on a party's stack.
    pub fn make_room(
        &mut self,
        alloc: Global,
        shapes: &Shapes,
        party: Party,
    ) -> Result<(), AllocError>
        ensures same { (q : AnyParty) → stack_in (shape_of shapes.now) self.new q ≡ stack_in (shape_of shapes.now) self.old q }
        ensures room { OnOk result (HasRoom self.new party) }
    {
        match party {
            Party::Worker { pool, index } => {
                grow_crews(alloc, &mut self.crews, pool)?;
                let crew = &mut self.crews[pool];
                grow_stacks(alloc, shapes, pool, &mut crew.stacks, index)?;
                make_room_at(&mut crew.stacks, index)
            }
            Party::Caller(number) => {
                grow_callers(alloc, shapes, &mut self.callers, number)?;
                make_room_at(&mut self.callers, number)
            }
        }
    }

    /// A party goes where a move leads.
    pub fn turn(&mut self, party: Party, step: Move)
        requires { HasRoom self.old party }
        ensures { (h : Shape) (q : AnyParty) → stack_in h self.new q ≡ put_stack (stack_in h self.old) party (after_move step (stack_in h self.old party).below) q }
    {
        match party {
            Party::Worker { pool, index } => {
                let crew = &mut self.crews[pool];
                turn_at(&mut crew.stacks, index, step)
            }
            Party::Caller(number) => turn_at(&mut self.callers, number, step),
        }
    }

    /// The frame below a party's run goes on.
    pub(crate) fn resume(&mut self, party: Party, ending: Ending)
        requires { HasRoom self.old party }
        ensures { (h : Shape) (q : AnyParty) → stack_in h self.new q ≡ put_stack (stack_in h self.old) party (after_resume (stack_in h self.old party).below ending) q }
    {
        match party {
            Party::Worker { pool, index } => {
                let crew = &mut self.crews[pool];
                resume_at(&mut crew.stacks, index, ending)
            }
            Party::Caller(number) => resume_at(&mut self.callers, number, ending),
        }
    }

    /// What the end of a run sets going.
    pub fn close(&mut self, party: Party, ending: Ending, job: u64, kind: JobKind)
        requires { HasRoom self.old party }
        ensures { (h : Shape) (q : AnyParty) → stack_in h self.new q ≡ put_stack (stack_in h self.old) party (after_close job kind ending (stack_in h self.old party).below) q }
    {
        match kind {
            JobKind::Detached(pool) => self.turn(
                party,
                Move::Stay(Place::LowerCount {
                    count: Count::OfPool(pool),
                    share: Share::OfJob(job),
                    then: Then::Resume,
                }),
            ),
            JobKind::Stored { call, owner } => self.turn(
                party,
                Move::Stay(Place::StoreResult {
                    call,
                    owner,
                    ending,
                }),
            ),
            JobKind::Scoped { call, owner } => self.turn(
                party,
                Move::Stay(Place::StoreSlot {
                    call,
                    owner,
                    job,
                    ending,
                }),
            ),
            JobKind::PieceOf { call, owner } => self.turn(
                party,
                Move::Stay(Place::StorePiece {
                    call,
                    owner,
                    job,
                    ending,
                }),
            ),
            JobKind::Direct | JobKind::BodyOf { .. } => self.resume(party, ending),
            JobKind::WholeOf { .. } | JobKind::TokenOf { .. } => self.resume(party, ending),
        }
    }
}

/// Whether the body of the scope of this call, or a job of the scope, runs at one of these frames.
fn any_holds(frames: &[Place], call: u64) -> bool
    ensures { result ≡ list_any (holds_scope call) frames.now }
{
    frames.iter().any(|frame| frame.holds_scope(call))
}

impl Stack {
    /// Whether the stack holds the body of the scope of this call, or a job of the scope.
    fn holds(&self, call: u64) -> bool
        ensures { result ≡ holds call (stack_of self.now) }
    {
        self.top.holds_scope(call) || any_holds(&self.below, call)
    }

    /// Goes to a place above a frame.
    fn enter(&mut self, frame: Place, place: Place)
        requires { vec_len self.old.below < vec_capacity self.old.below }
        ensures { stack_of self.new ≡ record { top = place; below = frame ∷ reverse self.old.below.items } }
    {
        let pushed = self.below.push(frame);
        prove!(pushed.is_ok());
        self.top = place;
    }

    /// Goes back to the frame that was entered last.
    pub(crate) fn back(&mut self)
        ensures { stack_of self.new ≡ back_to (reverse self.old.below.items) }
    {
        self.top = self.below.pop().unwrap_or(Place::Stopped);
    }

    /// Goes where a move leads.
    pub(crate) fn turn(&mut self, step: Move)
        requires { vec_len self.old.below < vec_capacity self.old.below }
        ensures { stack_of self.new ≡ after_move step (reverse self.old.below.items) }
    {
        match step {
            Move::Stay(place) | Move::HandIn { place, .. } | Move::Mark { place, .. } => {
                self.top = place
            }
            Move::Enter { frame, place } => self.enter(frame, place),
            Move::StartRun { frame, job } => self.enter(
                frame,
                Place::Run {
                    job,
                    kind: JobKind::Direct,
                },
            ),
            Move::Back | Move::HandBack(_) | Move::Discard(_) | Move::HandAllBack(_) => {
                self.back()
            }
        }
    }

    /// The frame below a run goes on.
    fn resume(&mut self, ending: Ending)
        ensures { stack_of self.new ≡ after_resume (reverse self.old.below.items) ending }
    {
        self.back();
        self.top = self.top.resume(ending);
    }

    /// Room for one more frame.
    fn make_room(&mut self) -> Result<(), AllocError>
        ensures same { stack_of self.new ≡ stack_of self.old }
        ensures room { OnOk result (vec_len self.new.below < vec_capacity self.new.below) }
    {
        self.below.try_reserve(1)
    }
}

/// Room for one more frame on the stack of this index.
fn make_room_at(stacks: &mut Vec<Stack>, index: usize) -> Result<(), AllocError>
    requires { index < vec_len stacks.old }
    ensures same { (blank : ℕ → AnyStack) (i : ℕ) → stack_or blank stacks.new.items i ≡ stack_or blank stacks.old.items i }
    ensures room { OnOk result (RoomAt stacks.new.items index) }
{
    stacks[index].make_room()
}

/// The stack of this index goes where a move leads.
fn turn_at(stacks: &mut Vec<Stack>, index: usize, step: Move)
    requires { RoomAt stacks.old.items index }
    ensures { (blank : ℕ → AnyStack) (i : ℕ) → stack_or blank stacks.new.items i ≡ (if i == index then after_move step (stack_or blank stacks.old.items index).below else stack_or blank stacks.old.items i) }
{
    stacks[index].turn(step)
}

/// The frame below the run on the stack of this index goes on.
fn resume_at(stacks: &mut Vec<Stack>, index: usize, ending: Ending)
    requires { RoomAt stacks.old.items index }
    ensures { (blank : ℕ → AnyStack) (i : ℕ) → stack_or blank stacks.new.items i ≡ (if i == index then after_resume (stack_or blank stacks.old.items index).below ending else stack_or blank stacks.old.items i) }
{
    stacks[index].resume(ending)
}
