//! Tests of the queues: that tasks move at all, in which order they come to thieves and takers, and that none is lost
//! or doubled between threads. What each pass took, and the order of the owner's pops, stand in the contracts.
ghost use Rattle.std.specs.Prelude.{◌<◌, length};

use rayon_queues::{Injector, Stealers, WorkerDeque, XorShift64Star};
use std::alloc::Global;
use std::process::Abort;
use std::sync::Wait;
use std::sync::atomic::{AtomicU64, Ordering};
use std::test::Fail;
use std::thread;
use std::thread::Threads;

// How many tasks go through a queue that threads share.
const TASKS: usize = 50_000;

// How often each task was taken, and what the threads tell each other.
#[derive(Drop)]
struct Marks {
    taken: Vec<AtomicU64>,
    // How many threads are still going to push.
    pushers: AtomicU64,
    // How many threads have taken a task, and how many are going to.
    takers: AtomicU64,
    all_takers: u64,
}

impl Marks {
    // Nothing was taken, and so many threads are going to push, and to take.
    fn new(alloc: Global, pushers: u64, takers: u64) -> Result<Marks, Fail> {
        let mut taken = Vec::new(alloc);
        for _ in 0..TASKS {
            taken.push(AtomicU64::new(0))?;
        }
        Ok(Marks {
            taken,
            pushers: AtomicU64::new(pushers),
            takers: AtomicU64::new(0),
            all_takers: takers,
        })
    }

    fn mark(&self, task: usize) {
        if let Some(mark) = self.taken.get(task) {
            mark.fetch_add(1, Ordering::SeqCst);
        }
    }

    // How many tasks were taken exactly once.
    fn taken_once(&self) -> usize {
        let mut once = 0;
        for mark in self.taken.iter() {
            if mark.load(Ordering::SeqCst) == 1 && once < TASKS {
                once += 1;
            }
        }
        once
    }

    // Waits until each taker has taken a task.
    fn wait_for_takers<R: Wait>(&self, rt: &R) {
        for _ in rt.forever() {
            if self.takers.load(Ordering::SeqCst) >= self.all_takers {
                break;
            }
            thread::yield_now();
        }
    }

    // One thread pushes no more.
    fn pushed_all(&self) {
        self.pushers.fetch_sub(1, Ordering::SeqCst);
    }

    // Whether a thread is still going to push.
    fn pushing(&self) -> bool {
        self.pushers.load(Ordering::SeqCst) > 0
    }
}

// The owner pushes all tasks and pops one in three; what is left at the end it pops too.
fn own_all<R: Wait>(rt: &R, own: &mut WorkerDeque<usize>, marks: &Marks) {
    for task in 0..TASKS {
        if let Err(back) = own.push(task) {
            marks.mark(back);
        }
        if task == 100 {
            marks.wait_for_takers(rt);
        }
        if task % 3 == 0 {
            if let Some(popped) = own.pop() {
                marks.mark(popped);
            }
        }
    }
    for _ in rt.forever() {
        match own.pop() {
            Some(popped) => marks.mark(popped),
            None => break,
        }
    }
    marks.pushed_all();
}

// What one taker has seen.
#[derive(Drop)]
struct Taker {
    first: bool,
}

impl Taker {
    fn new() -> Taker {
        Taker { first: true }
    }

    // Marks what was taken, and after its first task waits for the other takers. False where nothing was taken after
    // all had been pushed.
    fn goes_on<R: Wait>(
        &mut self,
        rt: &R,
        marks: &Marks,
        pushing: bool,
        taken: Option<usize>,
    ) -> bool {
        match taken {
            Some(task) => {
                marks.mark(task);
                if self.first {
                    marks.takers.fetch_add(1, Ordering::SeqCst);
                    marks.wait_for_takers(rt);
                }
                self.first = false;
                true
            }
            None => {
                thread::yield_now();
                pushing
            }
        }
    }
}

// A thief, which makes a pass for each steal.
fn steal_all<R: Wait>(rt: &R, stealers: &Stealers<usize>, marks: &Marks)
    requires { 0 < length stealers.now }
{
    let mut taker = Taker::new();
    for _ in rt.forever() {
        let pushing = marks.pushing();
        let mut pass = stealers.pass(0);
        let taken = stealers.steal(rt, 0, &mut pass);
        if !taker.goes_on(rt, marks, pushing, taken) {
            break;
        }
    }
}

// A party that takes from the injector.
fn take_all<R: Wait>(rt: &R, injector: &Injector<usize>, marks: &Marks) {
    let mut taker = Taker::new();
    for _ in rt.forever() {
        let pushing = marks.pushing();
        let mut pass = injector.pass();
        let taken = injector.take(rt, &mut pass);
        if !taker.goes_on(rt, marks, pushing, taken) {
            break;
        }
    }
}

// A party that injects every second task, from this one on.
fn inject_all<R: Wait>(rt: &R, injector: &Injector<usize>, marks: &Marks, from: usize) {
    for task in 0..TASKS {
        if task % 2 == from {
            let mut pass = injector.pass();
            if let Err(back) = injector.push(rt, &mut pass, task) {
                marks.mark(back);
            }
        }
        if task == 100 {
            marks.wait_for_takers(rt);
        }
    }
    marks.pushed_all();
}

// An owner and three thieves take each task once, in either order of the owner's pops, and every thief takes some.
#[test]
fn each_task_of_a_deque_is_taken_once(rt: HostRuntime) -> Result<(), Fail> {
    let alloc = rt.alloc();
    for oldest_first in [false, true] {
        let marks = Marks::new(alloc, 1, 3)?;
        let mut own = WorkerDeque::new(alloc, oldest_first)?;
        let mut stealers = Stealers::new(alloc);
        stealers.add(&own)?;
        let (owner, shared, seen, handle) = (&mut own, &stealers, &marks, &rt);
        thread::join(
            &rt,
            move || own_all(handle, owner, seen),
            move || -> ()
                requires { 0 < length shared.now }
            {
                thread::join(
                    handle,
                    move || -> ()
                        requires { 0 < length shared.now }
                    { steal_all(handle, shared, seen) },
                    move || -> ()
                        requires { 0 < length shared.now }
                    {
                        thread::join(
                            handle,
                            move || -> ()
                                requires { 0 < length shared.now }
                            { steal_all(handle, shared, seen) },
                            move || -> ()
                                requires { 0 < length shared.now }
                            { steal_all(handle, shared, seen) },
                        );
                    },
                );
            },
        );
        assert_eq!(rt; marks.taken_once(), TASKS);
        assert_eq!(rt;
            marks.takers.load(Ordering::SeqCst),
            3,
            "each thief took some"
        );
        assert!(rt; own.is_empty(), "nothing is left");
    }
    Ok(())
}

// Two parties inject and two take, and each task is taken once.
#[test]
fn each_injected_task_is_taken_once(rt: HostRuntime) -> Result<(), Fail> {
    let alloc = rt.alloc();
    let marks = Marks::new(alloc, 2, 2)?;
    let injector = Injector::new(alloc)?;
    let (shared, seen, handle) = (&injector, &marks, &rt);
    thread::join(
        &rt,
        move || {
            thread::join(
                handle,
                move || inject_all(handle, shared, seen, 0),
                move || inject_all(handle, shared, seen, 1),
            );
        },
        move || {
            thread::join(
                handle,
                move || take_all(handle, shared, seen),
                move || take_all(handle, shared, seen),
            );
        },
    );
    assert_eq!(rt; marks.taken_once(), TASKS);
    assert_eq!(rt;
        marks.takers.load(Ordering::SeqCst),
        2,
        "each taker took some"
    );
    let rest = injector.is_empty(&mut injector.pass());
    assert!(rt; rest, "nothing is left");
    Ok(())
}

// A deque gives back what was pushed, also where it had to grow, and is empty before and after.
#[test]
fn a_deque_gives_back_what_was_pushed(rt: HostRuntime) -> Result<(), Fail> {
    for oldest_first in [false, true] {
        let mut own = WorkerDeque::new(rt.alloc(), oldest_first)?;
        assert!(rt; own.is_empty());
        for task in 0..100u32 {
            assert_eq!(rt; own.push(task), Ok(()));
            assert!(rt; !own.is_empty(), "a task lies there");
        }
        for turn in 0..100u32 {
            let want = if oldest_first { turn } else { 99 - turn };
            assert_eq!(rt; own.pop(), Some(want));
        }
        assert_eq!(rt; own.pop(), None);
        assert!(rt; own.is_empty());
    }
    Ok(())
}

// A deque that could not grow hands the task back and adds nothing: what was taken in comes out, in its order, and no
// more. Run as it is nothing is refused here; with each of the first allocations refused in turn, the growths are.
#[test]
fn a_refused_push_adds_nothing(rt: HostRuntime) {
    for oldest_first in [false, true] {
        let Ok(mut own) = WorkerDeque::new(rt.alloc(), oldest_first) else {
            return;
        };
        let mut taken_in = 0u64;
        for task in 1..=200u32 {
            match own.push(task) {
                Ok(()) => taken_in = taken_in.wrapping_add(u64::from(task)),
                Err(back) => assert_eq!(rt; back, task),
            }
        }
        let (mut out, mut last) = (0u64, if oldest_first { 0 } else { u32::MAX });
        for _ in 0..200u32 {
            if let Some(task) = own.pop() {
                assert!(rt; (task > last) == oldest_first && task != last, "in order");
                out = out.wrapping_add(u64::from(task));
                last = task;
            }
        }
        assert_eq!(rt; (out, own.pop()), (taken_in, None));
    }
}

// An injector that has no room hands the task back and adds nothing.
#[test]
fn a_refused_injection_adds_nothing(rt: HostRuntime) {
    let Ok(injector) = Injector::new(rt.alloc()) else {
        return;
    };
    let mut taken_in = 0u64;
    for task in 1..=200u32 {
        match inject(&rt, &injector, task) {
            Ok(()) => taken_in = taken_in.wrapping_add(u64::from(task)),
            Err(back) => assert_eq!(rt; back, task),
        }
    }
    let mut out = 0u64;
    for _ in 0..200u32 {
        out = out.wrapping_add(u64::from(taken(&rt, &injector).unwrap_or(0)));
    }
    assert_eq!(rt; (out, taken(&rt, &injector)), (taken_in, None));
}

// What one steal from a victim gives.
fn stolen<R: Wait>(rt: &R, stealers: &Stealers<u32>, victim: usize) -> Option<u32>
    requires { victim < length stealers.now }
{
    stealers.steal(rt, victim, &mut stealers.pass(victim))
}

// A thief takes the oldest task of the victim that it names, and the owner has the others.
fn steals_the_oldest<R: Wait + Abort>(
    rt: &R,
    alloc: Global,
    oldest_first: bool,
) -> Result<(), Fail> {
    let mut one = WorkerDeque::new(alloc, oldest_first)?;
    let mut two = WorkerDeque::new(alloc, oldest_first)?;
    for task in 0..4u32 {
        assert_eq!(rt; one.push(task), Ok(()));
        assert_eq!(rt; two.push(10 + task), Ok(()));
    }
    let mut stealers = Stealers::new(alloc);
    stealers.add(&one)?;
    stealers.add(&two)?;
    assert_eq!(rt; stolen(rt, &stealers, 1), Some(10));
    assert_eq!(rt; stolen(rt, &stealers, 1), Some(11));
    assert_eq!(rt; stolen(rt, &stealers, 0), Some(0));
    let (mine, theirs) = if oldest_first { (1, 12) } else { (3, 13) };
    assert_eq!(rt; (one.pop(), two.pop()), (Some(mine), Some(theirs)));
    assert!(rt; two.pop().is_some(), "the fourth of the second");
    assert_eq!(rt; (two.pop(), stolen(rt, &stealers, 1)), (None, None));
    Ok(())
}

#[test]
fn thieves_take_the_oldest_of_their_victim(rt: HostRuntime) -> Result<(), Fail> {
    steals_the_oldest(&rt, rt.alloc(), false)?;
    steals_the_oldest(&rt, rt.alloc(), true)
}

// Injects a task, and what one take of a party gives.
fn inject<R: Wait>(rt: &R, injector: &Injector<u32>, task: u32) -> Result<(), u32> {
    injector.push(rt, &mut injector.pass(), task)
}

fn taken<R: Wait>(rt: &R, injector: &Injector<u32>) -> Option<u32> {
    injector.take(rt, &mut injector.pass())
}

fn is_empty(injector: &Injector<u32>) -> bool {
    injector.is_empty(&mut injector.pass())
}

// What is injected comes out, the oldest first.
#[test]
fn the_injector_gives_its_oldest(rt: HostRuntime) -> Result<(), Fail> {
    let injector = Injector::new(rt.alloc())?;
    assert!(rt; is_empty(&injector));
    assert_eq!(rt; taken(&rt, &injector), None);
    for task in 0..100u32 {
        assert_eq!(rt; inject(&rt, &injector, task), Ok(()));
        assert!(rt; !is_empty(&injector), "a task lies there");
    }
    for turn in 0..100u32 {
        assert_eq!(rt; taken(&rt, &injector), Some(turn));
    }
    assert!(rt; is_empty(&injector));
    Ok(())
}

// The first three numbers of a generator.
fn first_numbers(mut generator: XorShift64Star) -> (u64, u64, u64) {
    (generator.next(), generator.next(), generator.next())
}

// The numbers of xorshift64*, by a program of another language; the seed 0 counts as 1.
#[test]
fn numbers_of_the_generator(rt: HostRuntime) {
    let of_one = (
        0x47E4_CE4B_896C_DD1D,
        0xABCF_A6A8_E079_651D,
        0xB9D1_0D8F_EB73_1F57,
    );
    assert_eq!(rt; first_numbers(XorShift64Star::new(1)), of_one);
    assert_eq!(rt; first_numbers(XorShift64Star::new(0)), of_one);
    assert_eq!(rt;
        first_numbers(XorShift64Star::new(u64::MAX)),
        (
            0xF92C_C9E5_C600_0000,
            0x8FF4_84D8_FD1E_AEE3,
            0x346C_95F3_326F_ABC6,
        )
    );
}

// Worker i's seed is the pool's plus i, wrapping, so the seeds before 0 and 0 itself give what 1 gives at index 1 and
// 2.
#[test]
fn workers_have_seeds_of_their_own(rt: HostRuntime) {
    let of_one = first_numbers(XorShift64Star::new(1));
    for (seed, index) in [(1, 0), (0, 1), (u64::MAX, 1), (u64::MAX, 2)] {
        let generator = XorShift64Star::of_worker(seed, index);
        assert_eq!(rt;
            first_numbers(generator),
            of_one,
            "seed {seed}, worker {index}"
        );
    }
    let mut generator = XorShift64Star::of_worker(0, 2);
    assert_eq!(rt; generator.next_usize(10), 0x8FC9_9C97_12D9_BA3A % 10);
}
