//! The threads of a script that are no workers.
use crate::outside::{Scoped, open_scope};
use crate::play::{Play, trouble_of, trouble_of_both};
use crate::stage::{Here, Name, Stage, Told, Trouble};
use pool_script::script::{Ask, Call, Line, Plain, Shape, Shown, Step, Verb};
use rayon_core::{CallError, PoolRef, Refusal};
use std::alloc::{AllocError, Global};
use std::fmt::Write;
use std::sync::{Arc, Wait};

/// What was said, line by line. A line that comes again at once is counted.
#[derive(Drop)]
pub struct Log {
    text: String,
    last: String,
    times: u64,
}

impl Log {
    /// Nothing was said.
    pub fn new(alloc: Global) -> Log {
        Log {
            text: String::new(alloc),
            last: String::new(alloc),
            times: 0,
        }
    }

    /// Says a line.
    pub fn say(&mut self, line: String) -> Result<(), AllocError> {
        if self.times > 0 && self.last.as_str() == line.as_str() {
            self.times = self.times.saturating_add(1);
            return Ok(());
        }
        self.close()?;
        self.last = line;
        self.times = 1;
        Ok(())
    }

    // Writes the last line down.
    fn close(&mut self) -> Result<(), AllocError> {
        match self.times {
            0 => {}
            1 => {
                self.text.push_str(self.last.as_str())?;
                self.text.push_str("\n")?;
            }
            times => writeln!(self.text, "{} x{times}", self.last)?,
        }
        self.times = 0;
        Ok(())
    }

    /// All that was said.
    pub fn into_text(self) -> Result<String, AllocError> {
        let mut log = self;
        log.close()?;
        Ok(log.text)
    }
}

/// A thread that is no worker, with what it said.
#[derive(Drop)]
pub struct Actor {
    stage: Arc<Stage>,
    pools: Vec<PoolRef<Play>>,
    log: Log,
}

impl Actor {
    /// A thread that said nothing.
    pub fn new(alloc: Global, stage: Arc<Stage>, pools: Vec<PoolRef<Play>>) -> Actor {
        let log = Log::new(alloc);
        Actor { stage, pools, log }
    }

    /// What another thread shares with this one.
    pub fn share(&self, alloc: Global) -> Result<(Arc<Stage>, Vec<PoolRef<Play>>), AllocError> {
        let mut pools = Vec::new(alloc);
        for pool in self.pools.iter() {
            pools.push(pool.pool_ref().map_err(|_| AllocError)?)?;
        }
        Ok((Arc::try_clone(&self.stage)?, pools))
    }

    /// Whether a token of one of the pools found its FIFO list empty.
    pub fn has_strays<R: Wait>(&self, rt: &R) -> bool {
        self.pools.iter().any(|pool| pool.strays(rt) > 0)
    }

    /// All that it said.
    pub fn into_text(self) -> Result<String, AllocError> {
        let Actor {
            stage: _,
            pools: _,
            log,
        } = self;
        log.into_text()
    }

    /// Says each line of a text.
    pub fn say_all(&mut self, alloc: Global, text: &str) -> Result<(), AllocError> {
        for line in text.lines() {
            self.log.say(String::from_str(alloc, line)?)?;
        }
        Ok(())
    }

    /// Takes the lines of the thread with this number.
    pub fn take_all<R: Wait>(
        &mut self,
        rt: &R,
        alloc: Global,
        thread: usize,
    ) -> Result<(), AllocError> {
        let stage = Arc::try_clone(&self.stage)?;
        if let Some(thread) = stage.script().threads.get(thread) {
            for line in thread.lines.iter() {
                for turn in 0..line.times {
                    self.take(rt, alloc, line, turn)?;
                }
            }
        }
        Ok(())
    }

    /// Takes a line once.
    pub fn take<R: Wait>(
        &mut self,
        rt: &R,
        alloc: Global,
        line: &Line,
        turn: u64,
    ) -> Result<(), AllocError> {
        let here = Here {
            number: 0,
            turn,
            migrated: false,
            index: 0,
        };
        let mut said = String::from_str(alloc, line.text.as_str())?;
        said.push_str(" ->")?;
        if self.answer(rt, alloc, here, line.step, &mut said)? {
            self.log.say(said)?;
        }
        Ok(())
    }

    // Writes what a step is answered. False where nothing is to be said.
    fn answer<R: Wait>(
        &self,
        rt: &R,
        alloc: Global,
        here: Here,
        step: Step,
        said: &mut String,
    ) -> Result<bool, AllocError> {
        match step {
            Step::Plain(plain) => self.plain(rt, here, plain, said),
            Step::One(pool, verb, call) => match (self.pools.get(pool), self.job(here, call)?) {
                (Some(pool), Some(job)) => self.one(rt, alloc, pool, verb, job, said),
                _ => Ok(false),
            },
            Step::Join(pool, first, second) => {
                match (self.pools.get(pool), self.jobs(here, first, second)?) {
                    (Some(pool), Some((first, second))) => {
                        self.both(pool.join(rt, alloc, first, second), said)
                    }
                    _ => Ok(false),
                }
            }
            Step::JoinContext(pool, first, second) => {
                match (self.pools.get(pool), self.jobs(here, first, second)?) {
                    (Some(pool), Some((first, second))) => {
                        self.both(pool.join_context(rt, alloc, first, second), said)
                    }
                    _ => Ok(false),
                }
            }
            Step::Scope(pool, shape, body) => match (self.pools.get(pool), self.job(here, body)?) {
                (Some(pool), Some(body)) => self.scope(rt, alloc, pool, shape, body, said),
                _ => Ok(false),
            },
            Step::Ask(pool, ask) => self.ask(rt, pool, ask, said),
            Step::Print(shown) => self.show(rt, alloc, shown, said),
            Step::Lead(_) => Ok(false),
        }
    }

    // Does what needs no call, and writes why it is refused where it is.
    fn plain<R: Wait>(
        &self,
        rt: &R,
        here: Here,
        plain: Plain,
        said: &mut String,
    ) -> Result<bool, AllocError> {
        match self.stage.plain(rt, here, plain) {
            Ok(_) => Ok(false),
            Err(trouble) => self.tell(false, trouble, said),
        }
    }

    // The job that a step names. None where its number would be below 0.
    fn job(&self, here: Here, call: Call) -> Result<Option<Play>, AllocError> {
        Play::new(&self.stage, here, call).map_err(|_| AllocError)
    }

    // The same of two jobs.
    fn jobs(
        &self,
        here: Here,
        first: Call,
        second: Call,
    ) -> Result<Option<(Play, Play)>, AllocError> {
        Play::pair(&self.stage, here, first, second).map_err(|_| AllocError)
    }

    // Calls one job, and writes what is answered.
    fn one<R: Wait>(
        &self,
        rt: &R,
        alloc: Global,
        pool: &PoolRef<Play>,
        verb: Verb,
        job: Play,
        said: &mut String,
    ) -> Result<bool, AllocError> {
        match verb {
            Verb::Install => match pool.install(rt, alloc, job) {
                Ok(answer) => {
                    write!(said, " {answer}")?;
                    Ok(true)
                }
                Err(error) => self.tell(is_fault(&error), trouble_of(error), said),
            },
            Verb::Spawn => self.spawned(pool.spawn(rt, alloc, job), said),
            Verb::SpawnFifo => self.spawned(pool.spawn_fifo(rt, alloc, job), said),
            Verb::Broadcast => self.each(pool.broadcast(rt, alloc, job), said),
            Verb::SpawnBroadcast => self.spawned(pool.spawn_broadcast(rt, alloc, job), said),
        }
    }

    // Writes what the pieces of a broadcast answered, by the indices of their workers.
    fn each(
        &self,
        answers: Result<Vec<u64>, CallError<Trouble, Play>>,
        said: &mut String,
    ) -> Result<bool, AllocError> {
        match answers {
            Ok(answers) => {
                for answer in answers.iter() {
                    write!(said, " {answer}")?;
                }
                Ok(true)
            }
            Err(error) => self.tell(is_fault(&error), trouble_of(error), said),
        }
    }

    // Writes why a spawn was refused. One that was not has no answer.
    fn spawned(
        &self,
        spawned: Result<(), (Refusal, Play)>,
        said: &mut String,
    ) -> Result<bool, AllocError> {
        match spawned {
            Ok(()) => Ok(false),
            Err((refusal, job)) => self.tell(false, Trouble::Refused(refusal, job.name()), said),
        }
    }

    // Writes what a join was answered.
    fn both(
        &self,
        answers: Result<(u64, u64), CallError<Trouble, (Play, Play)>>,
        said: &mut String,
    ) -> Result<bool, AllocError> {
        match answers {
            Ok((first, second)) => {
                write!(said, " {first} and {second}")?;
                Ok(true)
            }
            Err(error) => self.tell(is_fault(&error), trouble_of_both(error), said),
        }
    }

    // Opens a scope, and writes what is answered.
    fn scope<R: Wait>(
        &self,
        rt: &R,
        alloc: Global,
        pool: &PoolRef<Play>,
        shape: Shape,
        body: Play,
        said: &mut String,
    ) -> Result<bool, AllocError> {
        match open_scope(rt, alloc, &self.stage, pool, shape, body) {
            Ok(Scoped { value, sum, count }) => {
                write!(said, " {value}, and {sum} of {count}")?;
                Ok(true)
            }
            Err(error) => self.tell(is_fault(&error), trouble_of_scope(error), said),
        }
    }

    // Writes what is to be shown.
    fn show<R: Wait>(
        &self,
        rt: &R,
        alloc: Global,
        shown: Shown,
        said: &mut String,
    ) -> Result<bool, AllocError> {
        self.stage.show(rt, alloc, shown, said)?;
        Ok(true)
    }

    // Writes what a pool answers without a job.
    fn ask<R: Wait>(
        &self,
        rt: &R,
        pool: usize,
        ask: Ask,
        said: &mut String,
    ) -> Result<bool, AllocError> {
        let Some(pool) = self.pools.get(pool) else {
            return Ok(false);
        };
        let (first, count) = pool.take_fault(rt);
        match (ask, first) {
            (Ask::CountFaults, _) => write!(said, " {count}")?,
            (Ask::TakeFault, None) => write!(said, " none, {count} in all")?,
            (Ask::TakeFault, Some(trouble)) => {
                self.tell(true, trouble, said)?;
                write!(said, ", {count} in all")?;
            }
        }
        Ok(true)
    }

    // Writes why a call has no answer.
    fn tell(
        &self,
        is_fault: bool,
        trouble: Trouble,
        said: &mut String,
    ) -> Result<bool, AllocError> {
        let script = self.stage.script();
        let told = Told {
            script,
            is_fault,
            trouble,
        };
        write!(said, " {told}")?;
        Ok(true)
    }
}

// Why a scope gave no answer, whose body has this name where it is refused.
fn trouble_of_scope(error: CallError<Trouble, Name>) -> Trouble {
    match error {
        CallError::Fault(trouble) => trouble,
        CallError::Refused(refusal, body) => Trouble::Refused(refusal, body),
        CallError::Foreign | CallError::Missing => Trouble::Lost,
    }
}

// Whether the jobs have run.
fn is_fault<B>(error: &CallError<Trouble, B>) -> bool {
    match error {
        CallError::Fault(_) => true,
        CallError::Refused(..) | CallError::Foreign | CallError::Missing => false,
    }
}
