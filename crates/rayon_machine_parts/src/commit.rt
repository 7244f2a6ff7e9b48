//! How a deed and a move change the parts of the world.
ghost use Rattle.std.specs.Prelude.{◌≡◌, ℕ, OnOk, ◌<◌, vec_len, true, ◌≤◌};
ghost use Rattle.rayon_machine_runs.specs.Steps.{put, put_seat, handed_back, jobs_after};
ghost use Rattle.rayon_machine_numbers.specs.Numbers.{pool_queued, seat_queued, with_flags, with_numbers};
ghost use Rattle.rayon_machine_parts.specs.State.{HasPool, HasSeat, call_at, job_at, pool_at, seat_at, MarkFits, MoveWithin, PiecesFit, PlanFits, PlanWithin, RunsFit};
ghost use Rattle.rayon_machine_places.specs.Places.{own_index};
ghost use Rattle.rayon_machine_runs.specs.World.{at_job};
ghost use Rattle.rayon_machine_runs.specs.declared.state.Whereabouts.TheVariants.{HandedBack};

use crate::deed::Deed;
use crate::growth::{grow_calls, grow_jobs, numbers_fit, pool_room, seat_room};
use crate::parts::Parts;
use crate::spot::Spot;
use crate::writes::{write_call, write_job, write_marks, write_pool, write_seat};
use rayon_machine_places::act::Act;
use rayon_machine_places::place::{Mark, Move, Party, Pieces, Plan};
use rayon_machine_runs::state::{Job, Whereabouts};
use std::alloc::{AllocError, Global};

/// The larger of two numbers.
fn larger(first: u64, second: u64) -> u64
    ensures first { first ≤ result }
    ensures second { second ≤ result }
{
    if first < second { second } else { first }
}

/// The last number of a call's jobs. Of a broadcast it is one after those of its pieces.
fn last_of_call(plan: Plan) -> u64
    requires { PlanFits plan }
    ensures { (n : ℕ) → result < n → PlanWithin plan n }
{
    match plan {
        Plan::Detach { job, .. } | Plan::Here { job, .. } => job,
        Plan::Send(call) => call.job,
        Plan::Fork { call, first } => larger(call.job, first),
        Plan::Feed(feeding) => larger(feeding.job, feeding.token),
        Plan::Open(call) => call.job,
        Plan::Enter(entry) => entry.job,
        Plan::Gather(gathering) => gathering.pieces.first + gathering.pieces.workers as u64,
    }
}

/// Whether the numbers of a book that pieces get are none too large.
fn mark_fits(pieces: Pieces, mark: Mark) -> bool
    ensures { result ≡ true → MarkFits pieces mark }
{
    match mark {
        Mark::Numbered(first) => first <= u64::MAX - pieces.workers as u64,
        _ => true,
    }
}

/// Whether the numbers of the pieces that a refused call hands back are none too large.
fn plan_fits(plan: Plan) -> bool
    ensures { result ≡ true → PlanFits plan }
{
    match plan {
        Plan::Gather(gathering) => numbers_fit(gathering.pieces),
        _ => true,
    }
}

/// Whether the numbers of the pieces of which a move makes something are none too large, and the numbers that they get.
pub fn pieces_fit(step: Move) -> bool
    ensures { result ≡ true → PiecesFit step }
{
    match step {
        Move::Mark { pieces, mark, .. } => numbers_fit(pieces) && mark_fits(pieces, mark),
        Move::HandAllBack(pieces) => numbers_fit(pieces),
        Move::HandBack(plan) => plan_fits(plan),
        _ => true,
    }
}

/// The last number of the jobs that a move begins or hands back or of the token that it spends, a number after those of
/// the pieces of which it makes something, and 0 if it does none of these.
pub fn last_job(step: Move) -> u64
    requires { PiecesFit step }
    ensures { (n : ℕ) → result < n → MoveWithin step n }
{
    match step {
        Move::StartRun { job, .. } => job,
        Move::HandBack(plan) => last_of_call(plan),
        Move::HandIn { token, .. } | Move::Discard(token) => token,
        Move::Mark { pieces, .. } | Move::HandAllBack(pieces) => {
            pieces.first + pieces.workers as u64
        }
        _ => 0,
    }
}

/// A job goes elsewhere.
pub fn move_job(jobs: &mut Vec<Job>, number: u64, at: Whereabouts)
    requires { number < vec_len jobs.old }
    ensures { (t : ℕ) → job_at jobs.new.items t ≡ put (job_at jobs.old.items) number (at_job (job_at jobs.old.items number) at) t }
{
    let job = jobs[number as usize];
    jobs[number as usize] = Job { at, ..job };
}

/// The jobs of a refused call are handed back.
fn hand_back(jobs: &mut Vec<Job>, plan: Plan)
    requires { PlanWithin plan (vec_len jobs.old) }
    ensures { (t : ℕ) → job_at jobs.new.items t ≡ handed_back plan (job_at jobs.old.items) t }
{
    match plan {
        Plan::Detach { job, .. } | Plan::Here { job, .. } => {
            move_job(jobs, job, Whereabouts::HandedBack)
        }
        Plan::Send(call) => move_job(jobs, call.job, Whereabouts::HandedBack),
        Plan::Fork { call, first } => hand_both(jobs, first, call.job),
        Plan::Feed(feeding) => hand_both(jobs, feeding.job, feeding.token),
        Plan::Open(call) => move_job(jobs, call.job, Whereabouts::HandedBack),
        Plan::Enter(entry) => move_job(jobs, entry.job, Whereabouts::HandedBack),
        Plan::Gather(gathering) => write_marks(jobs, gathering.pieces, Mark::Returned),
    }
}

/// Two jobs are handed back.
fn hand_both(jobs: &mut Vec<Job>, first: u64, second: u64)
    requires first { first < vec_len jobs.old }
    requires second { second < vec_len jobs.old }
    ensures { (t : ℕ) → job_at jobs.new.items t ≡ put (put (job_at jobs.old.items) first (at_job (job_at jobs.old.items first) HandedBack)) second (at_job (job_at jobs.old.items second) HandedBack) t }
{
    let job = jobs[second as usize];
    let back = Job {
        at: Whereabouts::HandedBack,
        ..job
    };
    let job = jobs[first as usize];
    jobs[first as usize] = Job {
        at: Whereabouts::HandedBack,
        ..job
    };
    jobs[second as usize] = back;
}

/// The run of a job begins, a refused call's jobs are handed back, a token is spent, or something is made of each piece
/// of a broadcast.
pub fn move_jobs(jobs: &mut Vec<Job>, party: Party, step: Move)
    requires within { MoveWithin step (vec_len jobs.old) }
    requires numbers { PiecesFit step }
    requires runs { RunsFit step (job_at jobs.old.items) }
    ensures { (t : ℕ) → job_at jobs.new.items t ≡ jobs_after party step (job_at jobs.old.items) t }
{
    match step {
        Move::StartRun { job, .. } => {
            let begun = jobs[job as usize].begun(party);
            jobs[job as usize] = begun;
        }
        Move::HandBack(plan) => hand_back(jobs, plan),
        Move::HandIn { token, .. } | Move::Discard(token) => {
            move_job(jobs, token, Whereabouts::Spent)
        }
        Move::Mark { pieces, mark, .. } => write_marks(jobs, pieces, mark),
        Move::HandAllBack(pieces) => write_marks(jobs, pieces, Mark::Returned),
        _ => {}
    }
}

impl Parts {
    /// Whether the number of runs of the job that a move begins can grow, once this job is as here.
    pub fn can_begin(&self, number: u64, job: Job, step: Move) -> bool
        ensures { result ≡ true → RunsFit step (put (job_at self.now.jobs.items) number job) }
    {
        match step {
            Move::StartRun { job: begun, .. } => {
                let runs = if begun == number {
                    job.runs
                } else {
                    self.job(begun).runs
                };
                runs < u64::MAX
            }
            _ => true,
        }
    }

    /// Room at a spot, and for jobs up to a number.
    pub fn make_room(
        &mut self,
        alloc: Global,
        spot: Spot,
        act: Act,
        last: u64,
    ) -> Result<(), AllocError>
        ensures pools { (p : ℕ) → pool_at self.new.pools.items p ≡ pool_at self.old.pools.items p }
        ensures seats { (p i : ℕ) → seat_at self.new.benches.items p i ≡ seat_at self.old.benches.items p i }
        ensures calls { (n : ℕ) → call_at self.new.calls.items n ≡ call_at self.old.calls.items n }
        ensures jobs { (n : ℕ) → job_at self.new.jobs.items n ≡ job_at self.old.jobs.items n }
        ensures pool { OnOk result (HasPool act self.new.pools.items spot.pool) }
        ensures seat { OnOk result (HasSeat act self.new.benches.items spot.pool spot.worker) }
        ensures call { OnOk result (spot.call < vec_len self.new.calls) }
        ensures job { OnOk result (spot.job < vec_len self.new.jobs) }
        ensures last { OnOk result (last < vec_len self.new.jobs) }
    {
        pool_room(alloc, &mut self.pools, spot.pool, act)?;
        seat_room(alloc, &mut self.benches, spot.pool, spot.worker, act)?;
        grow_calls(&mut self.calls, spot.call as usize)?;
        grow_jobs(&mut self.jobs, larger(spot.job, last) as usize)
    }

    /// A deed of this party is done.
    pub fn commit(&mut self, deed: Deed, party: Party)
        requires pool { HasPool deed.act self.old.pools.items deed.spot.pool }
        requires seat { HasSeat deed.act self.old.benches.items deed.spot.pool deed.spot.worker }
        requires call { deed.spot.call < vec_len self.old.calls }
        requires job { deed.spot.job < vec_len self.old.jobs }
        ensures pools { (p : ℕ) → pool_at self.new.pools.items p ≡ put (pool_at self.old.pools.items) deed.spot.pool (pool_queued deed.act (own_index party) (with_numbers (pool_at self.old.pools.items deed.spot.pool) deed.after.pool)) p }
        ensures seats { (p i : ℕ) → seat_at self.new.benches.items p i ≡ put_seat (seat_at self.old.benches.items) deed.spot.pool deed.spot.worker (seat_queued deed.act deed.order party (with_flags (seat_at self.old.benches.items deed.spot.pool deed.spot.worker) deed.after.worker)) p i }
        ensures calls { (n : ℕ) → call_at self.new.calls.items n ≡ put (call_at self.old.calls.items) deed.spot.call deed.after.call n }
        ensures jobs { (n : ℕ) → job_at self.new.jobs.items n ≡ put (job_at self.old.jobs.items) deed.spot.job deed.after.job n }
        ensures len { vec_len self.new.jobs ≡ vec_len self.old.jobs }
    {
        let spot = deed.spot;
        let index = party.index();
        write_pool(&mut self.pools, spot.pool, deed.after.pool, deed.act, index);
        write_seat(
            &mut self.benches,
            spot.pool,
            spot.worker,
            deed.after.worker,
            deed.act,
            deed.order,
            party,
        );
        write_call(&mut self.calls, spot.call, deed.after.call);
        write_job(&mut self.jobs, spot.job, deed.after.job);
    }
}
