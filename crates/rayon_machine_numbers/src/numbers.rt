//! What an act sees, and how it leaves the numbers that it touches: those of one pool, one worker,
//! one call and one job.
ghost use Rattle.std.specs.Prelude.{◌≡◌, ℕ, true, IfErr, IfOk, min, List, ◌%◌, ◌^◌};
ghost use Rattle.rayon_machine_places.specs.declared.place.Party.{Party as AnyParty};
ghost use Rattle.rayon_machine_runs.specs.World.{at_job, all_lowered as all_lowered_of, count_in, is_set as set_seen, body_stays as body_stays_of, call_less as call_less_of, job_stays as job_stays_of, lowered as lowered_of, pool_less as pool_less_of, value_stays as value_stays_of, letter as letter_of, with_letter as with_letter_of};
ghost use Rattle.rayon_machine_places.specs.Sleepers.{wakes_for_one as wakes_of, Counts};
ghost use Rattle.rayon_machine_numbers.specs.Numbers.{Can, Does, DoesNot, FifoLists, census_counts, full, is_counting, is_latching, is_locking, is_sharing};
ghost use Rattle.rayon_machine_places.specs.declared.act.Seen.TheVariants.{Word};
ghost use Rattle.rayon_machine_places.specs.declared.act.Act.TheVariants.{Announce, Asleep, Begin, Lock, Lower, LowerAll, News, Raise, RaiseAll, Set, Sleepy, Take, TryAdd, Unlock, Wake, Wakeup};

use crate::books::told;
use rayon_machine_places::act::{Act, Seen};
use rayon_machine_places::place::{Count, Latch, Party, Pieces, Share};
use rayon_machine_runs::error::StepError;
use rayon_machine_runs::state::{Call, Job, Letter, Whereabouts};

/// The numbers of a pool.
#[derive(Clone, Copy)]
pub struct PoolNumbers {
    /// The turn, which never wraps.
    pub turn: u64,
    /// The terminate count.
    pub count: u64,
    /// Whether the pool's value is held.
    pub held: bool,
    /// Whether the value's share is in the count.
    pub counted: bool,
}

/// What is true of a worker.
#[derive(Clone, Copy)]
pub struct WorkerFlags {
    /// It is counted inactive.
    pub inactive: bool,
    /// It is counted sleeping.
    pub asleep: bool,
    /// It is blocked.
    pub blocked: bool,
    /// Its terminate latch.
    pub latch: Letter,
    /// Who holds its sleep lock.
    pub lock: Option<Party>,
}

/// The numbers that an act touches.
#[derive(Clone, Copy)]
pub struct Touched {
    /// Those of a pool.
    pub pool: PoolNumbers,
    /// Those of a worker of the pool.
    pub worker: WorkerFlags,
    /// A call.
    pub call: Call,
    /// A job.
    pub job: Job,
    /// Who holds the FIFO list of the worker that the act touches.
    pub holder: Option<Party>,
}

/// How many workers of a pool sleep, and how many are inactive.
#[derive(Clone, Copy)]
pub struct Census {
    /// The sleeping ones.
    pub sleeping: u64,
    /// The inactive ones, the sleeping ones among them.
    pub inactive: u64,
}

/// The event counter: the turn without the bits above so many.
fn event_counter(jec_bits: u32, turn: u64) -> u64
    ensures { result ≡ turn % (2 ^ jec_bits) }
{
    if jec_bits < 64 {
        turn % (1 << jec_bits)
    } else {
        turn
    }
}

/// How many to wake for one new task.
fn wakes_for_one(was_empty: bool, census: Census) -> u64
    ensures { result ≡ wakes_of was_empty (census_counts census) }
{
    if census.sleeping == 0 {
        0
    } else if !was_empty || census.inactive <= census.sleeping {
        1
    } else {
        0
    }
}

impl Census {
    /// The counters' word.
    fn word(self, jec: u64) -> Seen
        ensures { result ≡ Word self.sleeping self.inactive jec }
    {
        Seen::Word {
            sleeping: self.sleeping,
            inactive: self.inactive,
            jec,
        }
    }
}

/// How many to wake when a search is left: two, or all that sleep.
fn wakes_on_leaving(census: Census) -> u64
    ensures { result ≡ min 2 census.sleeping }
{
    if census.sleeping < 2 {
        census.sleeping
    } else {
        2
    }
}

/// The answer to a look at a latch.
fn is_set(letter: Letter) -> Seen
    ensures { result ≡ set_seen letter }
{
    match letter {
        Letter::Set => Seen::Yes,
        _ => Seen::No,
    }
}

impl Touched {
    /// The letter of a core latch.
    fn letter(self, latch: Latch) -> Letter
        ensures { (own : List ℕ) (fifo : FifoLists) (injector : List ℕ) (casts : ℕ → List ℕ) → letter_of latch (full self own fifo injector casts) ≡ result }
    {
        match latch {
            Latch::Terminate => self.worker.latch,
            Latch::OfCall(_) => self.call.latch,
        }
    }

    /// The same with this letter at a core latch.
    fn with_letter(self, latch: Latch, letter: Letter) -> Touched
        ensures { (own : List ℕ) (fifo : FifoLists) (injector : List ℕ) (casts : ℕ → List ℕ) → with_letter_of latch (full self own fifo injector casts) letter ≡ full result own fifo injector casts }
    {
        match latch {
            Latch::Terminate => Touched {
                worker: WorkerFlags {
                    latch: letter,
                    ..self.worker
                },
                ..self
            },
            Latch::OfCall(_) => Touched {
                call: Call {
                    latch: letter,
                    ..self.call
                },
                ..self
            },
        }
    }

    /// The same with the job elsewhere.
    pub(crate) fn with_job_at(self, at: Whereabouts) -> Touched
        ensures { result ≡ record self { job = at_job (self.job) at } }
    {
        Touched {
            job: Job { at, ..self.job },
            ..self
        }
    }
}

/// The number of a pool's count once so many shares of this count are less.
fn pool_less(count: Count, shares: u64, number: u64) -> u64
    ensures { result ≡ pool_less_of count shares number }
{
    match count {
        Count::OfPool(_) => number.saturating_sub(shares),
        Count::OfScope { .. } | Count::OfCast { .. } => number,
    }
}

/// The number of a call's count once so many shares of this count are less.
fn call_less(count: Count, shares: u64, number: u64) -> u64
    ensures { result ≡ call_less_of count shares number }
{
    match count {
        Count::OfPool(_) => number,
        Count::OfScope { .. } | Count::OfCast { .. } => number.saturating_sub(shares),
    }
}

/// Whether the share of a pool's value is in its count once this one is not.
fn value_stays(share: Share, counted: bool) -> bool
    ensures { result ≡ value_stays_of share counted }
{
    match share {
        Share::PoolValue => false,
        _ => counted,
    }
}

/// Whether the share of a scope's body is in its count once this one is not.
fn body_stays(share: Share, counted: bool) -> bool
    ensures { result ≡ body_stays_of share counted }
{
    match share {
        Share::Body => false,
        _ => counted,
    }
}

/// Whether the share of a job is in its count once this one is not.
fn job_stays(share: Share, counted: bool) -> bool
    ensures { result ≡ job_stays_of share counted }
{
    match share {
        Share::OfJob(_) => false,
        _ => counted,
    }
}

/// What an act saw, and the numbers after it.
pub(crate) type Outcome = Result<(Seen, Touched), StepError>;

impl Touched {
    /// The same with another turn.
    fn with_turn(self, turn: u64) -> Touched
        ensures { result ≡ record self { pool = record (self.pool) { turn = turn } } }
    {
        Touched {
            pool: PoolNumbers { turn, ..self.pool },
            ..self
        }
    }

    /// Raises an odd turn, and sees the event counter.
    fn announce(self, jec_bits: u32) -> Outcome
        ensures ok { IfOk result (λ r. (q : AnyParty) (c : Counts) → Does Announce q c jec_bits self (r.0) (r.1)) }
        ensures no_room { IfErr result (λ e. e ≡ StepError.NoRoom) }
        ensures enabled { IfErr result (λ e. (q : AnyParty) (c : Counts) → Can Announce q c self) }
    {
        if self.pool.turn % 2 == 0 {
            return Ok((Seen::Jec(event_counter(jec_bits, self.pool.turn)), self));
        }
        if self.pool.turn == u64::MAX {
            return Err(StepError::NoRoom);
        }
        let after = self.with_turn(self.pool.turn + 1);
        Ok((Seen::Jec(event_counter(jec_bits, after.pool.turn)), after))
    }

    /// Raises an even turn, and sees how many to wake.
    fn news(self, was_empty: bool, census: Census) -> (Seen, Touched)
        ensures { (q : AnyParty) (pool jec_bits : ℕ) → Does (News pool was_empty) q (census_counts census) jec_bits self (result.0) (result.1) }
    {
        let wakes = Seen::Wakes(wakes_for_one(was_empty, census));
        if self.pool.turn % 2 == 0 {
            (wakes, self.with_turn(self.pool.turn + 1))
        } else {
            (wakes, self)
        }
    }

    /// Counts the worker asleep, if the word is still the one read.
    fn try_add(self, read: (u64, u64, u64), census: Census, jec_bits: u32) -> (Seen, Touched)
        ensures { (q : AnyParty) → Does (TryAdd (read.0) (read.1) (read.2)) q (census_counts census) jec_bits self (result.0) (result.1) }
    {
        let (sleeping, inactive, jec) = read;
        if sleeping == census.sleeping
            && inactive == census.inactive
            && jec == event_counter(jec_bits, self.pool.turn)
        {
            let worker = WorkerFlags {
                asleep: true,
                ..self.worker
            };
            (Seen::Done, Touched { worker, ..self })
        } else {
            (Seen::Refused, self)
        }
    }

    /// The same with another worker.
    pub(crate) fn with_worker(self, worker: WorkerFlags) -> Touched
        ensures { result ≡ record self { worker = worker } }
    {
        Touched { worker, ..self }
    }

    /// The acts on the counters of inactive and sleeping workers, and on the turn.
    pub(crate) fn counters(self, act: Act, census: Census, jec_bits: u32) -> Outcome
        ensures ok { IfOk result (λ r. is_counting act ≡ true → (q : AnyParty) → Does act q (census_counts census) jec_bits self (r.0) (r.1)) }
        ensures no_room { IfErr result (λ e. is_counting act ≡ true → e ≡ StepError.NoRoom) }
        ensures enabled { IfErr result (λ e. is_counting act ≡ true → (q : AnyParty) (c : Counts) → Can act q c self) }
    {
        let worker = self.worker;
        match act {
            Act::AddInactive => Ok((
                Seen::Done,
                self.with_worker(WorkerFlags {
                    inactive: true,
                    ..worker
                }),
            )),
            Act::Announce => self.announce(jec_bits),
            Act::Load => Ok((census.word(event_counter(jec_bits, self.pool.turn)), self)),
            Act::TryAdd {
                sleeping,
                inactive,
                jec,
            } => { Ok(self.try_add((sleeping, inactive, jec), census, jec_bits)) }
            Act::SubSleeping => Ok((
                Seen::Done,
                self.with_worker(WorkerFlags {
                    asleep: false,
                    ..worker
                }),
            )),
            Act::SubInactive => Ok((
                Seen::Wakes(wakes_on_leaving(census)),
                self.with_worker(WorkerFlags {
                    inactive: false,
                    ..worker
                }),
            )),
            Act::News { was_empty, .. } => Ok(self.news(was_empty, census)),
            _ => Err(StepError::NotEnabled),
        }
    }

    /// A core latch whose worker is about to sleep.
    fn get_sleepy(self, latch: Latch) -> (Seen, Touched)
        ensures { (q : AnyParty) (c : Counts) (jec_bits : ℕ) → Does (Sleepy latch) q c jec_bits self (result.0) (result.1) }
    {
        match self.letter(latch) {
            Letter::Unset => (Seen::Done, self.with_letter(latch, Letter::Sleepy)),
            _ => (Seen::Refused, self),
        }
    }

    /// A core latch whose worker falls asleep.
    fn fall_asleep(self, latch: Latch) -> (Seen, Touched)
        ensures { (q : AnyParty) (c : Counts) (jec_bits : ℕ) → Does (Asleep latch) q c jec_bits self (result.0) (result.1) }
    {
        match self.letter(latch) {
            Letter::Sleepy => (Seen::Done, self.with_letter(latch, Letter::Sleeping)),
            _ => (Seen::Refused, self),
        }
    }

    /// A core latch whose worker wakes up.
    fn wake_up(self, latch: Latch) -> (Seen, Touched)
        ensures { (q : AnyParty) (c : Counts) (jec_bits : ℕ) → Does (Wakeup latch) q c jec_bits self (result.0) (result.1) }
    {
        match self.letter(latch) {
            Letter::Set => (Seen::Done, self),
            _ => (Seen::Done, self.with_letter(latch, Letter::Unset)),
        }
    }

    /// Sets a core latch, and sees whether its worker slept.
    fn set(self, latch: Latch) -> (Seen, Touched)
        ensures { (q : AnyParty) (c : Counts) (jec_bits pool worker : ℕ) → Does (Set latch pool worker) q c jec_bits self (result.0) (result.1) }
    {
        match self.letter(latch) {
            Letter::Sleeping => (Seen::Yes, self.with_letter(latch, Letter::Set)),
            _ => (Seen::No, self.with_letter(latch, Letter::Set)),
        }
    }

    /// The same with another call.
    pub(crate) fn with_call(self, call: Call) -> Touched
        ensures { result ≡ record self { call = call } }
    {
        Touched { call, ..self }
    }

    /// Takes what the call's cell holds, and sees a fault where the call's book keeps one.
    fn take(self) -> (Seen, Touched)
        ensures { (q : AnyParty) (c : Counts) (jec_bits call : ℕ) → Does (Take call) q c jec_bits self (result.0) (result.1) }
    {
        match self.call.cell {
            None => (Seen::Missing, self),
            Some(ending) => (
                Seen::Found(told(self.call.fault, ending)),
                self.with_call(Call {
                    cell: None,
                    ..self.call
                }),
            ),
        }
    }

    /// The acts on latches and cells.
    pub(crate) fn latches(self, act: Act) -> Outcome
        ensures ok { IfOk result (λ r. is_latching act ≡ true → (q : AnyParty) (c : Counts) (jec_bits : ℕ) → Does act q c jec_bits self (r.0) (r.1)) }
        ensures not_enabled { IfErr result (λ e. is_latching act ≡ true → (q : AnyParty) (c : Counts) → DoesNot act q c self) }
        ensures err { IfErr result (λ e. e ≡ StepError.NotEnabled) }
    {
        let call = self.call;
        match act {
            Act::Probe(latch) => Ok((is_set(self.letter(latch)), self)),
            Act::Sleepy(latch) => Ok(self.get_sleepy(latch)),
            Act::Asleep(latch) => Ok(self.fall_asleep(latch)),
            Act::Wakeup(latch) => Ok(self.wake_up(latch)),
            Act::Set { latch, .. } => Ok(self.set(latch)),
            Act::LockSet(_) => Ok((
                Seen::Done,
                self.with_call(Call {
                    latch: Letter::Set,
                    ..call
                }),
            )),
            Act::LockWait(_) => match call.latch {
                Letter::Set => Ok((Seen::Done, self)),
                _ => Err(StepError::NotEnabled),
            },
            Act::Grow(_) => Ok((
                Seen::Done,
                self.with_call(Call {
                    latch: Letter::Unset,
                    cell: None,
                    ..call
                }),
            )),
            Act::Store { ending, .. } => Ok((
                Seen::Done,
                self.with_call(Call {
                    cell: Some(ending),
                    ..call
                }),
            )),
            Act::StorePiece { job, ending, .. } => Ok(self.piece_stored(job, ending)),
            Act::Take(_) => Ok(self.take()),
            _ => Err(StepError::NotEnabled),
        }
    }

    /// Takes a worker's sleep lock, if it is free. Its own worker cannot while it is blocked.
    fn lock(self, party: Party, pool: usize, worker: usize) -> Outcome
        ensures ok { IfOk result (λ r. (c : Counts) (jec_bits : ℕ) → Does (Lock pool worker) party c jec_bits self (r.0) (r.1)) }
        ensures not_enabled { IfErr result (λ e. (c : Counts) → DoesNot (Lock pool worker) party c self) }
        ensures err { IfErr result (λ e. e ≡ StepError.NotEnabled) }
    {
        let own = party.is_worker(pool, worker);
        if self.worker.lock.is_none() && !(own && self.worker.blocked) {
            Ok((
                Seen::Done,
                self.with_worker(WorkerFlags {
                    lock: Some(party),
                    ..self.worker
                }),
            ))
        } else {
            Err(StepError::NotEnabled)
        }
    }

    /// Leaves a worker's sleep lock.
    fn unlock(self, party: Party) -> Outcome
        ensures ok { IfOk result (λ r. (c : Counts) (jec_bits pool worker : ℕ) → Does (Unlock pool worker) party c jec_bits self (r.0) (r.1)) }
        ensures not_enabled { IfErr result (λ e. (c : Counts) (pool worker : ℕ) → DoesNot (Unlock pool worker) party c self) }
        ensures err { IfErr result (λ e. e ≡ StepError.NotEnabled) }
    {
        match self.worker.lock {
            Some(holder) if party.is(holder) => Ok((
                Seen::Done,
                self.with_worker(WorkerFlags {
                    lock: None,
                    ..self.worker
                }),
            )),
            _ => Err(StepError::NotEnabled),
        }
    }

    /// Wakes a worker, if it is blocked.
    fn wake(self) -> (Seen, Touched)
        ensures { (q : AnyParty) (c : Counts) (jec_bits pool worker : ℕ) → Does (Wake pool worker) q c jec_bits self (result.0) (result.1) }
    {
        if self.worker.blocked {
            let worker = WorkerFlags {
                blocked: false,
                asleep: false,
                ..self.worker
            };
            (Seen::Yes, self.with_worker(worker))
        } else {
            (Seen::No, self)
        }
    }

    /// The acts on a worker's sleep lock, and on whether it is blocked.
    pub(crate) fn locks(self, act: Act, party: Party) -> Outcome
        ensures ok { IfOk result (λ r. is_locking act ≡ true → (c : Counts) (jec_bits : ℕ) → Does act party c jec_bits self (r.0) (r.1)) }
        ensures not_enabled { IfErr result (λ e. is_locking act ≡ true → (c : Counts) → DoesNot act party c self) }
        ensures err { IfErr result (λ e. e ≡ StepError.NotEnabled) }
    {
        match act {
            Act::Lock { pool, worker } => self.lock(party, pool, worker),
            Act::Block => {
                let worker = WorkerFlags {
                    blocked: true,
                    lock: None,
                    ..self.worker
                };
                Ok((Seen::Done, self.with_worker(worker)))
            }
            Act::Unlock { .. } => self.unlock(party),
            Act::Wake { .. } => Ok(self.wake()),
            _ => Err(StepError::NotEnabled),
        }
    }

    /// The number of a count.
    fn count(self, count: Count) -> u64
        ensures { (own : List ℕ) (fifo : FifoLists) (injector : List ℕ) (casts : ℕ → List ℕ) → count_in (full self own fifo injector casts) count ≡ result }
    {
        match count {
            Count::OfPool(_) => self.pool.count,
            Count::OfScope { .. } | Count::OfCast { .. } => self.call.count,
        }
    }

    /// Gives a share of a count back, and sees whether it was the last.
    fn lower(self, count: Count, share: Share) -> (Seen, Touched)
        ensures { (q : AnyParty) (c : Counts) (jec_bits : ℕ) → Does (Lower count share) q c jec_bits self (result.0) (result.1) }
    {
        let after = self.lowered(count, share);
        if self.count(count) == 1 {
            (Seen::Yes, after)
        } else {
            (Seen::No, after)
        }
    }

    /// The same with a share less in a count.
    fn lowered(self, count: Count, share: Share) -> Touched
        ensures { (own : List ℕ) (fifo : FifoLists) (injector : List ℕ) (casts : ℕ → List ℕ) → lowered_of (full self own fifo injector casts) count share ≡ full result own fifo injector casts }
    {
        let pool = PoolNumbers {
            count: pool_less(count, 1, self.pool.count),
            counted: value_stays(share, self.pool.counted),
            ..self.pool
        };
        let call = Call {
            count: call_less(count, 1, self.call.count),
            counted: body_stays(share, self.call.counted),
            ..self.call
        };
        let job = Job {
            counted: job_stays(share, self.job.counted),
            ..self.job
        };
        Touched {
            pool,
            call,
            job,
            ..self
        }
    }

    /// Takes a share of a count for a job, unless the count is 0.
    fn raise(self, count: Count) -> Outcome
        ensures ok { IfOk result (λ r. (q : AnyParty) (c : Counts) (jec_bits job : ℕ) → Does (Raise count job) q c jec_bits self (r.0) (r.1)) }
        ensures no_room { IfErr result (λ e. e ≡ StepError.NoRoom) }
        ensures enabled { IfErr result (λ e. (q : AnyParty) (c : Counts) (job : ℕ) → Can (Raise count job) q c self) }
    {
        let number = self.count(count);
        if number == 0 {
            return Ok((Seen::Refused, self));
        }
        if number == u64::MAX {
            return Err(StepError::NoRoom);
        }
        let job = Job {
            counted: true,
            ..self.job
        };
        match count {
            Count::OfPool(_) => {
                let pool = PoolNumbers {
                    count: number + 1,
                    ..self.pool
                };
                Ok((Seen::Done, Touched { pool, job, ..self }))
            }
            Count::OfScope { .. } | Count::OfCast { .. } => {
                let call = Call {
                    count: number + 1,
                    ..self.call
                };
                Ok((Seen::Done, Touched { call, job, ..self }))
            }
        }
    }

    /// Gives the shares of the pieces of a broadcast back, and sees whether they were the last.
    fn lower_all(self, pieces: Pieces) -> (Seen, Touched)
        ensures { (q : AnyParty) (c : Counts) (jec_bits : ℕ) → Does (LowerAll pieces) q c jec_bits self (result.0) (result.1) }
    {
        let after = self.all_lowered(pieces);
        if self.count(pieces.count) == pieces.workers as u64 {
            (Seen::Yes, after)
        } else {
            (Seen::No, after)
        }
    }

    /// The same with the shares of these pieces less in their count.
    fn all_lowered(self, pieces: Pieces) -> Touched
        ensures { (own : List ℕ) (fifo : FifoLists) (injector : List ℕ) (casts : ℕ → List ℕ) → all_lowered_of (full self own fifo injector casts) pieces ≡ full result own fifo injector casts }
    {
        let shares = pieces.workers as u64;
        let pool = PoolNumbers {
            count: pool_less(pieces.count, shares, self.pool.count),
            ..self.pool
        };
        let call = Call {
            count: call_less(pieces.count, shares, self.call.count),
            ..self.call
        };
        Touched { pool, call, ..self }
    }

    /// Takes a share of their count for each piece of a broadcast, unless the count is 0.
    fn raise_all(self, pieces: Pieces) -> Outcome
        ensures ok { IfOk result (λ r. (q : AnyParty) (c : Counts) (jec_bits : ℕ) → Does (RaiseAll pieces) q c jec_bits self (r.0) (r.1)) }
        ensures no_room { IfErr result (λ e. e ≡ StepError.NoRoom) }
        ensures enabled { IfErr result (λ e. (q : AnyParty) (c : Counts) → Can (RaiseAll pieces) q c self) }
    {
        let number = self.count(pieces.count);
        if number == 0 {
            return Ok((Seen::Refused, self));
        }
        let shares = pieces.workers as u64;
        if number > u64::MAX - shares {
            return Err(StepError::NoRoom);
        }
        match pieces.count {
            Count::OfPool(_) => {
                let pool = PoolNumbers {
                    count: number + shares,
                    ..self.pool
                };
                Ok((Seen::Done, Touched { pool, ..self }))
            }
            Count::OfScope { .. } | Count::OfCast { .. } => {
                let call = Call {
                    count: number + shares,
                    ..self.call
                };
                Ok((Seen::Done, Touched { call, ..self }))
            }
        }
    }

    /// Begins the run of the job.
    fn begin(self, party: Party) -> Outcome
        ensures ok { IfOk result (λ r. (c : Counts) (jec_bits job : ℕ) → Does (Begin job) party c jec_bits self (r.0) (r.1)) }
        ensures no_room { IfErr result (λ e. e ≡ StepError.NoRoom) }
        ensures enabled { IfErr result (λ e. (c : Counts) (job : ℕ) → Can (Begin job) party c self) }
    {
        if self.job.runs == u64::MAX {
            return Err(StepError::NoRoom);
        }
        let job = self.job.begun(party);
        Ok((Seen::Begun(self.job.kind), Touched { job, ..self }))
    }

    /// The acts on shares of a count, the begin of a run, and the choice of a victim.
    pub(crate) fn shares(self, act: Act, party: Party) -> Outcome
        ensures ok { IfOk result (λ r. is_sharing act ≡ true → (c : Counts) (jec_bits : ℕ) → Does act party c jec_bits self (r.0) (r.1)) }
        ensures not_enabled { IfErr result (λ e. is_sharing act ≡ true → e ≡ StepError.NotEnabled → (c : Counts) → DoesNot act party c self) }
        ensures enabled { IfErr result (λ e. is_sharing act ≡ true → e ≡ StepError.NoRoom → (c : Counts) → Can act party c self) }
    {
        match act {
            Act::Begin(_) => self.begin(party),
            Act::Lower { count, share } => Ok(self.lower(count, share)),
            Act::Raise { count, .. } => self.raise(count),
            Act::LowerAll(pieces) => Ok(self.lower_all(pieces)),
            Act::RaiseAll(pieces) => self.raise_all(pieces),
            Act::Pick => Ok((Seen::Start(0), self)),
            _ => Err(StepError::NotEnabled),
        }
    }
}
