//! What a worker looks for and pushes without running it. Each is a stretch of the table as far as a task's beginning,
//! which is not performed, or to its end.
ghost use Rattle.std.specs.Prelude.{◌≡◌, ◌⊎◌, [], MatchOption, MatchResult, Some, None};
ghost use Rattle.rayon_machine_places.specs.Places.{undo, walk};
ghost use Rattle.rayon_machine_places.specs.declared.place.Move.TheVariants.{Back, Stay};
ghost use Rattle.rayon_machine_places.specs.declared.place.Party.TheVariants.{Worker};
ghost use Rattle.rayon_machine_places.specs.declared.place.Place.TheVariants as at;
ghost use Rattle.rayon_machine_places.specs.declared.place.Plan.TheVariants.{Detach};
ghost use Rattle.rayon_machine_places.specs.declared.place.Then.TheVariants.{Resume};
ghost use Rattle.rayon_performers.specs.Hands.{Does, Told};
ghost use Rattle.rayon_performers.specs.Finds.{Found, Kept, StandsLast};
ghost use Rattle.rayon_performers.specs.Paths.{WorkerGoes};
ghost use Rattle.rayon_shared.specs.Seats.{Resting};
ghost use Rattle.rayon_queues.specs.Deques.{Popped, SameDeque, Unmoved};
ghost use Rattle.rayon_tasks.specs.Tasks.{taken_in};

use crate::bench::Bench;
use rayon_drive::drive::Perform;
use rayon_jobs::JobKind;
use rayon_machine_places::act::Seen;
use rayon_machine_places::place::{Move, Place, Plan, Then};
use rayon_tasks::Task;
use std::sync::Wait;

impl<J: JobKind> Bench<J> {
    /// Takes the newest task of the own deque, or the oldest where that is its order, and does not run it: the look of
    /// a yield to the own tasks. Where the deque gives none, the oldest piece of the worker's broadcast list is taken,
    /// if there is one. It refuses nothing: None says that neither gave one. Where nothing is left of what the worker
    /// pushed, what is given is a piece. The path with a task leads as far as that task's beginning, in the state with
    /// the task in hand, out of which it is given. A task may be a token.
    #[inline(always)]
    pub fn take_local<R: Wait>(&mut self, rt: &R) -> Option<Task<J>>
        ensures path { MatchOption result
            (WorkerGoes (Stay at.LocalPop) self.old self.new Back)
            (λ t. WorkerGoes (Stay at.LocalPop) self.old (record self.new { task = Some t }) (Stay (at.BeginTask (taken_in t)))) }
        ensures popped { MatchOption result (Unmoved self.old.own self.new.own) (λ t. Popped self.old.own t self.new.own ⊎ Unmoved self.old.own self.new.own) }
        ensures empty { self.old.own.left ≡ [] → Unmoved self.old.own self.new.own }
        ensures same { SameDeque self.old.own self.new.own }
        ensures left { MatchOption result
            (self.new ≡ record self.old { own = self.new.own; trace = self.new.trace })
            (λ _. self.new ≡ record self.old { own = self.new.own; task = None; trace = self.new.trace }) }
    {
        if let Seen::Task(_) = self.pop_own() {
            return self.take_task();
        }
        if let Seen::Task(_) = self.take_cast(rt) {
            return self.take_task();
        }
        None
    }

    /// Looks for a task in all places of a yield, and does not run it: the own deque, the worker's broadcast list,
    /// which gives pieces, the other workers' deques from a chosen one on, each once, and last the injector. It refuses
    /// nothing: None says that each look missed. Before that answer other threads run first, as after each search that
    /// has found nothing; that is no act, and changes nothing of the answer. The path with a task leads as far as that
    /// task's beginning, in the state with the task in hand, out of which it is given. A task may be a token.
    pub fn find_work<R: Wait>(&mut self, rt: &R) -> Option<Task<J>>
        ensures path { MatchOption result
            (WorkerGoes (Stay at.YieldPop) self.old self.new Back)
            (λ t. WorkerGoes (Stay at.YieldPop) self.old (record self.new { task = Some t }) (Stay (at.BeginTask (taken_in t)))) }
        ensures found { MatchOption result (Kept self.old self.new) (λ t. Found t self.old self.new) }
        ensures left { MatchOption result
            (self.new ≡ record self.old { own = self.new.own; thief = self.new.thief; trace = self.new.trace })
            (λ _. self.new ≡ record self.old { own = self.new.own; inlet = self.new.inlet; thief = self.new.thief; task = None; trace = self.new.trace }) }
    {
        let shape = self.shape;
        let party = self.party();
        let mut place = Place::YieldPop;
        for _ in rt.forever() {
            let seen = self.perform(rt, place.act(party));
            match place.next(party, shape, seen) {
                Move::Stay(next) => {
                    if let Place::BeginTask(_) = next {
                        return self.take_task();
                    }
                    place = next;
                }
                _ => return None,
            }
        }
        unreachable!()
    }

    /// Pushes a task onto the own deque, tells that it is there, and wakes whom that owes a wake: a call that does not
    /// wait, after its Raise and as far as its end. Refused for want of room alone, with the task back and nothing
    /// added: the path then leads to where the table has such a call give its unit of the terminate count back. That
    /// Lower is not performed here, since the Raise was not: whoever took a unit for the task still has it.
    #[inline(always)]
    pub fn push<R: Wait>(&mut self, rt: &R, task: Task<J>) -> Result<(), Task<J>>
        requires { Resting self.old.chair }
        ensures path { MatchResult result
            (λ _. WorkerGoes (Stay (at.LookQueue (Detach 0 task.ticket.number))) self.old self.new Back)
            (λ _. WorkerGoes (Stay (at.LookQueue (Detach 0 task.ticket.number))) self.old self.new (Stay (undo (Detach 0 task.ticket.number)))) }
        ensures pushed { MatchResult result (λ _. StandsLast self.old.own task self.new.own) (λ back. (back ≡ task) × Unmoved self.old.own self.new.own) }
        ensures left { SameDeque self.old.own self.new.own × (self.new ≡ record self.old { own = self.new.own; marks = self.new.marks; chair = self.new.chair; trace = self.new.trace }) }
        ensures count { self.new.marks.count ≡ self.old.marks.count }
        ensures rests { Resting self.new.chair }
    {
        let name = task.number();
        let was_empty = self.look_own();
        self.push_own(name, None, task)?;
        self.tell_pushed(rt, name, was_empty);
        Ok(())
    }

    // Tells that the task of a call that does not wait was pushed, and wakes whom that owes a wake.
    #[inline(always)]
    pub(crate) fn tell_pushed<R: Wait>(&mut self, rt: &R, name: u64, was_empty: bool)
        requires { Resting self.old.chair }
        ensures path { WorkerGoes (Stay (at.TellNews (Detach 0 name) was_empty)) self.old self.new Back }
        ensures same { self.new ≡ record self.old { marks = self.new.marks; chair = self.new.chair; trace = self.new.trace } }
        ensures count { self.new.marks.count ≡ self.old.marks.count }
        ensures rests { Resting self.new.chair }
    {
        let owed = self.news(rt, 0, was_empty);
        if owed > 0 {
            self.wake_for_job(rt, name, was_empty, owed);
        }
    }

    // Wakes so many for the task of a call that does not wait, which was pushed.
    #[cold]
    #[inline(never)]
    fn wake_for_job<R: Wait>(&mut self, rt: &R, name: u64, was_empty: bool, owed: u64)
        requires { Resting self.old.chair }
        ensures path { WorkerGoes (walk self.old.shape (Worker 0 self.old.index) 0 owed 0 Resume) self.old self.new Back }
        ensures same { Told self.old self.new }
        ensures count { self.new.marks.count ≡ self.old.marks.count }
        ensures rests { Resting self.new.chair }
    {
        let shape = self.shape;
        let index = self.index;
        let place = Place::TellNews {
            plan: Plan::Detach { pool: 0, job: name },
            was_empty,
        };
        self.finish_from(rt, shape, index, place, Seen::Wakes(owed), Then::Resume);
    }
}
