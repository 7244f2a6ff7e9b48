//! What a worker performs its acts with.
ghost use Rattle.std.specs.Prelude.{◌≡◌, ◌<◌, [], None, Some, IfErr, IfOk};
ghost use Rattle.std.specs.Arc.{arc_value};
ghost use Rattle.rayon_drive.specs.Traces.{AddsRun};
ghost use Rattle.rayon_drive.specs.declared.trace.Log.TheVariants.{Empty};
ghost use Rattle.rayon_performers.specs.Hands.{Hands};
ghost use Rattle.rayon_performers.specs.Waits.{holding};
ghost use Rattle.rayon_shared.specs.Pools.{shape_of};
ghost use Rattle.rayon_shared.specs.Seats.{Resting};
ghost use Rattle.rayon_queues.specs.Deques.{visitor};
ghost use Rattle.rayon_tasks.specs.Calls.{latch_in, ticket_in};

use rayon_atomics::count::CountSeat;
use rayon_atomics::latch::LatchSeat;
use rayon_atomics::own_latch::OwnLatch;
use rayon_books::Outcome;
use rayon_drive::trace::Trace;
use rayon_jobs::{Done, JobKind};
use rayon_machine_places::shape::PoolShape;
use rayon_queues::{InjectorPass, StealPass, WorkerDeque, XorShift64Star};
use rayon_shared::{Registry, WorkerKit};
use rayon_sleep::counters::Chair;
use rayon_sleep::latch::Owner;
use rayon_tasks::{Call, Task, Ticket};
use rayon_words::Refusal;
use std::alloc::Global;
use std::marker::Model;
use std::mem;
use std::sync::Arc;

// How many calls that have ended a worker keeps: as deep as joins mostly stand nested.
const SPARES: usize = 64;

/// What a worker performs its acts with: its own deque and its passes of the other queues, and what the program at hand
/// has. Each act of it adds one entry to its trace, and so does a run that the worker was lent to; meanwhile the trace
/// is set aside.
#[derive(Drop)]
pub struct Bench<J: JobKind> {
    pub(crate) registry: Arc<Registry<Task<J>>, Global>,
    pub(crate) shape: PoolShape,
    pub(crate) index: usize,
    pub(crate) random: XorShift64Star,
    pub(crate) own: WorkerDeque<Task<J>>,
    pub(crate) inlet: InjectorPass<Task<J>>,
    pub(crate) thief: Option<StealPass<Task<J>>>,
    pub(crate) task: Option<Task<J>>,
    pub(crate) call: Option<Call<J>>,
    // calls that have ended, each with the share of its ticket that went with the task and came back: they serve the
    // next ones
    pub(crate) spares: Option<Vec<Option<(Call<J>, Ticket<J>)>>>,
    // how many of these places are filled: the first ones
    pub(crate) kept: usize,
    pub(crate) reply: Option<Ticket<J>>,
    // the ticket of the worker's detached jobs, of which each has a share
    pub(crate) detached: Option<Ticket<J>>,
    pub(crate) done: Option<Done<J>>,
    // of two sides, the first side's result, and the ticket to whose cell it goes
    pub(crate) first: Option<(Ticket<J>, Done<J>)>,
    // what the book of a scope or a broadcast that has ended gave
    pub(crate) outcome: Option<Outcome<J>>,
    // the terminate latch, with the worker's own seat of it
    pub(crate) terminate: OwnLatch,
    pub(crate) probed: bool,
    pub(crate) holds: u64,
    // the seat by which the count of a scope or a broadcast was stepped on last
    pub(crate) tally: Option<CountSeat>,
    // the seat of the terminate count
    pub(crate) count: CountSeat,
    // the seat by which a latch was set last
    pub(crate) setter: Option<LatchSeat>,
    // the seat of the counters, but while it lies under the worker's sleep lock
    pub(crate) chair: Option<Chair>,
    pub(crate) trace: Trace,
}

impl<J: JobKind> Model for Bench<J> {
    ghost use Rattle.std.specs.Arc.{arc_value};
    ghost use Rattle.std.specs.Prelude.{◌≡◌, ◌<◌};
    ghost use Rattle.std.specs.Coded.{codes};
    ghost use Rattle.rayon_atomics.specs.Tallies.{teller};
    ghost use Rattle.rayon_drive.specs.contracts.trace.Log as logs;
    ghost use Rattle.rayon_performers.specs.Hands.{Hands};
    ghost use Rattle.rayon_shared.specs.Marks.{seat_in, tally_in};
    ghost use Rattle.rayon_tasks.specs.Calls.{latch_in, ticket_in};

    ghost Value = { Hands J J.Tag J.Output J.Fault };

    ghost coded = { Prim.hlevel (codes, logs.the_row.coded) };

    ghost view = { λ b. record {
      index = b.index;
      shape = b.shape;
      deques = (arc_value b.registry).deques;
      own = b.own;
      inlet = b.inlet;
      thief = b.thief;
      task = b.task;
      call = ticket_in b.call;
      reply = b.reply;
      done = b.done;
      outcome = b.outcome;
      guards = record { own = b.terminate; call = latch_in b.call };
      probed = b.probed;
      holds = b.holds;
      tally = tally_in b.tally;
      marks = record { set = seat_in b.setter; count = teller b.count };
      chair = b.chair;
      trace = b.trace;
    } };

    ghost invariant = { λ b. (b.inlet.injector ≡ (arc_value b.registry).injector) × (b.index < (arc_value b.registry).workers) × (b.count.table_id ≡ (arc_value b.registry).count) };
}

/// A worker's trace while it is lent to a run. Nobody can add to it, and it has no `Drop`: `Bench::put_back` alone
/// takes it, to go on with it after the run.
pub struct Aside {
    trace: Trace,
}

impl Model for Aside {
    ghost use Rattle.rayon_drive.specs.contracts.trace.Log as logs;
    ghost use Rattle.rayon_drive.specs.declared.trace.Log.{Log};

    ghost Value = { Log };

    ghost coded = { logs.the_row.coded };

    ghost view = { λ a. a.trace };
}

impl<J: JobKind> Bench<J> {
    /// What the worker of this index begins with: nothing at hand, and nothing done. It is made where the worker's
    /// thread runs, of a share of what the threads have in common.
    pub fn new(
        registry: Arc<Registry<Task<J>>, Global>,
        index: usize,
        own: WorkerKit<Task<J>>,
    ) -> Bench<J>
        requires { index < (arc_value registry).workers }
        ensures index { result.index ≡ index }
        ensures pool { (result.deques ≡ (arc_value registry).deques) × (result.shape ≡ shape_of (arc_value registry).workers (arc_value registry).breadth_first) }
        ensures passes { (result.own ≡ own) × (result.inlet ≡ visitor (arc_value registry).injector [] []) }
        ensures rests { Resting result.chair }
        ensures empty { (result.task ≡ None) × (result.holds ≡ 0) × (result.trace ≡ Empty) }
    {
        let inlet = registry.injector().pass();
        let (own, seats) = own.into_parts();
        let (chair, terminate) = seats.into_parts();
        Bench {
            shape: registry.shape(),
            index,
            random: XorShift64Star::of_worker(registry.steal_seed(), index),
            own,
            inlet,
            thief: None,
            task: None,
            call: None,
            spares: None,
            kept: 0,
            reply: None,
            detached: None,
            done: None,
            first: None,
            outcome: None,
            terminate,
            probed: false,
            holds: 0,
            tally: None,
            count: registry.count_seat(),
            setter: None,
            chair: Some(chair),
            trace: Trace::new(),
            registry,
        }
    }

    /// How many workers the pool has.
    pub fn num_threads(&self) -> usize
        ensures { result ≡ self.now.shape.workers }
    {
        self.shape.workers
    }

    /// What stands for the worker where a latch is set that it may sleep on. Refused `NoRoom`.
    pub fn owner(&self) -> Result<Owner, Refusal>
        ensures owner { IfOk result (λ o. o ≡ self.now.index) }
        ensures refused { IfErr result (λ r. r ≡ Refusal.NoRoom) }
    {
        self.registry.owner(self.index)
    }

    /// Takes the trace out, and begins a new one: for a run that the worker is lent to.
    #[inline(always)]
    pub fn set_aside(&mut self) -> Aside
        ensures given { result ≡ self.old.trace }
        ensures left { self.new ≡ record self.old { trace = Empty } }
    {
        Aside {
            trace: mem::replace(&mut self.trace, Trace::new()),
        }
    }

    /// Goes on with a trace that was set aside, after the run.
    #[inline(always)]
    pub fn put_back(&mut self, aside: Aside)
        ensures run { AddsRun aside self.new.trace }
        ensures left { self.new ≡ record self.old { trace = self.new.trace } }
    {
        let Aside { trace } = aside;
        self.trace = trace;
        self.trace.add_run();
    }

    /// The call that is waited for next.
    #[inline(always)]
    pub fn set_call(&mut self, call: Option<Call<J>>)
        ensures { self.new ≡ record self.old { call = ticket_in call; guards = record { own = self.old.guards.own; call = latch_in call } } }
    {
        self.call = call;
    }

    /// Takes the call out.
    #[inline(always)]
    pub fn take_call(&mut self) -> Option<Call<J>>
        ensures given { (ticket_in result ≡ self.old.call) × (latch_in result ≡ self.old.guards.call) }
        ensures left { self.new ≡ record self.old { call = None; guards = record { own = self.old.guards.own; call = None } } }
    {
        self.call.take()
    }

    /// A call that waits comes to hand.
    #[cold]
    #[inline(never)]
    pub(crate) fn take_up(&mut self, held: Call<J>)
        ensures { self.new ≡ holding held.ticket held.latch self.old }
    {
        self.call = Some(held);
    }

    /// A call has ended, and the one other share of its ticket came back, which was never used: its block, its latch
    /// and both shares serve a later call. Where there is no room they are let go.
    #[inline(always)]
    pub fn keep_call(&mut self, alloc: Global, call: Call<J>, share: Ticket<J>)
        ensures { self.new ≡ self.old }
    {
        if self.spares.is_none() {
            self.spares = Some(Vec::new(alloc));
        }
        if let Some(spares) = &mut self.spares {
            if let Some(place) = spares.get_mut(self.kept) {
                *place = Some((call, share));
                self.kept += 1;
            } else if self.kept < SPARES && spares.push(Some((call, share))).is_ok() {
                self.kept = spares.len();
            }
        }
    }

    /// The result of a run that has ended, of two sides the first one's too, and the ticket of the call to answer.
    pub fn set_reply(
        &mut self,
        ticket: Ticket<J>,
        done: Done<J>,
        first: Option<(Ticket<J>, Done<J>)>,
    )
        ensures { self.new ≡ record self.old { reply = Some ticket; done = Some done } }
    {
        self.reply = Some(ticket);
        self.done = Some(done);
        self.first = first;
    }

    /// Takes the task that was taken and begun.
    #[inline(always)]
    pub fn take_task(&mut self) -> Option<Task<J>>
        ensures given { result ≡ self.old.task }
        ensures left { self.new ≡ record self.old { task = None } }
    {
        self.task.take()
    }

    /// Takes what the book of a scope gave that has ended.
    pub fn take_outcome(&mut self) -> Option<Outcome<J>>
        ensures given { result ≡ self.old.outcome }
        ensures left { self.new ≡ record self.old { outcome = None } }
    {
        self.outcome.take()
    }

    /// Takes the result that was found.
    #[inline(always)]
    pub fn take_done(&mut self) -> Option<Done<J>>
        ensures given { result ≡ self.old.done }
        ensures left { self.new ≡ record self.old { done = None } }
    {
        self.done.take()
    }
}
