//! The jobs of the program.
ghost use Rattle.std.specs.Prelude.{◌≡◌, ℕ};

use crate::on_worker::{WorkerCall, deep, make_on_worker, push_again, push_in_order};
use crate::outcome::{Outcome, Report};
use rayon_core::{
    BroadcastContext, CallError, FnContext, Job, JobKind, NoHandler, Refusal, Waits, WorkerThread,
};
use std::alloc::Global;
use std::mem;
use std::sync::atomic::{AtomicU64, Ordering};
use std::sync::{Arc, Mutex, Wait};

/// What a job is called.
#[derive(Clone, Copy, PartialEq, Eq)]
pub enum Name {
    /// A job that is installed.
    Installed,
    /// The first side of a join, or the job of an install on the worker.
    First,
    /// The second side of a join.
    Second,
}

impl Name {
    /// The tag of the jobs with this name.
    pub fn tag(self) -> u64 {
        match self {
            Name::Installed => 0,
            Name::First => 1,
            Name::Second => 2,
        }
    }
}

/// What the jobs of a call share: how many runs were counted, and what a job leaves of the call that it made.
#[derive(Drop)]
pub struct Desk {
    runs: AtomicU64,
    report: Mutex<Option<Report>>,
}

impl Desk {
    /// No run was counted, and nothing is left.
    pub fn new() -> Desk {
        Desk {
            runs: AtomicU64::new(0),
            report: Mutex::new(None),
        }
    }

    /// How many runs were counted.
    pub fn runs(&self) -> u64 {
        self.runs.load(Ordering::SeqCst)
    }

    // Counts a run.
    fn count(&self) {
        self.runs.fetch_add(1, Ordering::SeqCst);
    }

    // Leaves what a call gave.
    fn leave<R: Wait>(&self, rt: &R, report: Report) {
        *self.report.lock(rt) = Some(report);
    }

    /// Takes what a job left last. Something else, where none did.
    pub fn take<R: Wait>(&self, rt: &R) -> Report {
        let left = mem::replace(&mut *self.report.lock(rt), None);
        left.unwrap_or(Report::of(Outcome::Unlike))
    }
}

/// What a job does.
#[derive(Clone, Copy, PartialEq, Eq)]
pub enum Deed {
    /// Counts its run, and answers this number. A piece of a broadcast counts its run too.
    Number(u64),
    /// Makes a call on its worker, and again where that was refused.
    Call(WorkerCall),
    /// Takes the newest task out of its worker's deque, and pushes it again.
    Push,
    /// The same, but pushes it into its worker's FIFO list.
    PushFifo,
    /// Joins the same one less deep, and a job that answers 1.
    Deep(u32),
}

/// A job: its tag, what it shares with the others, and what it does.
#[derive(Drop)]
pub struct Work {
    tag: u64,
    desk: Arc<Desk>,
    deed: Deed,
}

/// What a job answers.
#[derive(Clone, Copy)]
pub enum Answer {
    /// A number.
    Number(u64),
    /// It left what a call on the worker gave.
    Reported,
}

impl Answer {
    // Whether it is this number.
    fn is_number(self, number: u64) -> bool {
        match self {
            Answer::Number(given) => given == number,
            Answer::Reported => false,
        }
    }
}

impl Work {
    /// A job with this name that shares this with the others. Refused `NoRoom`.
    pub fn new(name: Name, desk: &Arc<Desk>, deed: Deed) -> Result<Work, Refusal> {
        match Arc::try_clone(desk) {
            Ok(desk) => Ok(Work {
                tag: name.tag(),
                desk,
                deed,
            }),
            Err(_) => Err(Refusal::NoRoom),
        }
    }

    /// Whether this is the job with this name that does this.
    pub fn is(&self, name: Name, deed: Deed) -> bool {
        self.tag == name.tag() && self.deed == deed
    }
}

/// What a join gave of a first side that does the first of these, and a second side that does the other.
pub fn joined(
    answer: Result<(Answer, Answer), CallError<Refusal, (Work, Work)>>,
    desk: &Arc<Desk>,
    first_deed: Deed,
    second_deed: Deed,
) -> Outcome {
    match answer {
        Ok((Answer::Number(first), Answer::Number(second))) => {
            Outcome::Answered(first.saturating_add(second))
        }
        Err(CallError::Refused(refusal, (first, second))) => Outcome::Refused {
            refusal,
            same_jobs: first.is(Name::First, first_deed) && second.is(Name::Second, second_deed),
            runs: desk.runs(),
        },
        _ => Outcome::Unlike,
    }
}

/// What a spawn or a broadcast gave of a job with this name: 0 where it was queued, to which its runs are added once
/// they are over.
pub fn spawned(answer: Result<(), (Refusal, Work)>, desk: &Arc<Desk>, name: Name) -> Outcome {
    match answer {
        Ok(()) => Outcome::Answered(0),
        Err((refusal, job)) => Outcome::Refused {
            refusal,
            same_jobs: job.is(name, Deed::Number(7)),
            runs: desk.runs(),
        },
    }
}

/// What a broadcast that waits gave of a job with this name: how many pieces have run, where as many have answered,
/// each the index of its worker, in this order.
pub fn gathered(
    answer: Result<Vec<Answer>, CallError<Refusal, Work>>,
    desk: &Arc<Desk>,
    name: Name,
) -> Outcome {
    match answer {
        Ok(answers) => {
            for (index, answer) in answers.iter().enumerate() {
                if !answer.is_number(index as u64) {
                    return Outcome::Unlike;
                }
            }
            if answers.len() as u64 == desk.runs() {
                Outcome::Answered(desk.runs())
            } else {
                Outcome::Unlike
            }
        }
        Err(CallError::Refused(refusal, job)) => Outcome::Refused {
            refusal,
            same_jobs: job.is(name, Deed::Number(7)),
            runs: desk.runs(),
        },
        _ => Outcome::Unlike,
    }
}

impl JobKind for Work {
    type Tag = u64;

    type Output = Answer;

    type Fault = Refusal;

    type Handler = NoHandler;

    ghost answers = { λ t r. Unit {0} };

    ghost tag_of = { λ j. j.tag };

    fn tag(&self) -> u64 {
        self.tag
    }

    ghost same_answers = { λ t u e. (λ r h. h, λ i n r h. h) };
}

impl Job for Work {
    fn run<R: Waits<Self>>(
        self,
        rt: &R,
        alloc: Global,
        w: &mut WorkerThread<Self>,
        _ctx: &mut FnContext<Self>,
    ) -> Result<Answer, Refusal> {
        match self.deed {
            Deed::Number(number) => {
                self.desk.count();
                Ok(Answer::Number(number))
            }
            Deed::Call(call) => {
                let report = make_on_worker(rt, alloc, w, &self.desk, call)?;
                self.desk.leave(rt, report);
                Ok(Answer::Reported)
            }
            Deed::Push => push_again(rt, w),
            Deed::PushFifo => push_in_order(rt, alloc, w),
            Deed::Deep(depth) => {
                let report = deep(rt, alloc, w, &self.desk, depth)?;
                self.desk.leave(rt, report);
                Ok(Answer::Reported)
            }
        }
    }

    fn run_on<R: Waits<Self>>(
        &self,
        _rt: &R,
        _alloc: Global,
        _w: &mut WorkerThread<Self>,
        ctx: &mut BroadcastContext<Self>,
    ) -> Result<Answer, Refusal> {
        self.desk.count();
        Ok(Answer::Number(ctx.index() as u64))
    }
}
