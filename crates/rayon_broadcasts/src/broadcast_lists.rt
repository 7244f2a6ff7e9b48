//! The lists of the pieces of broadcasts: one for each worker, oldest first.
ghost use Rattle.rayon_broadcasts.specs.Lists.{list_of, items_of, PushedEach, BackBy, HasRoom};
ghost use Rattle.std.specs.Prelude.{◌≡◌, ◌↔◌, ◌≤◌, length, map, replicate, slice_set, vec_len, vec_capacity, All, IfOk, IfErr, IsTrue, MatchOption, MatchResult, Some, [], ◌∷◌, ◌++◌};

use crate::shared_job::SharedJob;
use rayon_words::Refusal;
use std::alloc::Global;
use std::collections::VecDeque;
use std::marker::Model;

/// Why no piece was pushed, with the pieces as they were handed in.
#[derive(Drop)]
pub enum Unpushed<T> {
    /// Memory was refused.
    NoRoom(Vec<T>),
    /// There are fewer pieces than workers, or more.
    WrongNumber(Vec<T>),
    /// The place that the pieces share has a job already.
    Filled(Vec<T>),
}

/// The pieces of broadcasts that wait to be run, in a list for each worker, the oldest first. A broadcast has one piece
/// for each worker, and the piece of an index is in the list of the worker with that index.
///
/// To a contract it is the list of the workers' lists.
#[derive(Drop)]
pub struct BroadcastLists<T> {
    lists: Vec<VecDeque<T>>,
}

impl<T> Model for BroadcastLists<T> {
    ghost use Rattle.std.specs.Prelude.{List, map};

    ghost Value = { List (List T) };

    ghost view = { λ b. map (λ q. q.items) b.lists.items };
}

impl<T: Drop> BroadcastLists<T> {
    /// An empty list for each of so many workers. Refused `NoRoom` for want of memory.
    pub fn new(alloc: Global, workers: usize) -> Result<BroadcastLists<T>, Refusal>
        ensures { MatchResult result (λ lists. lists ≡ replicate workers []) (λ r. r ≡ Refusal.NoRoom) }
    {
        let Ok(mut lists) = Vec::with_capacity(alloc, workers) else {
            return Err(Refusal::NoRoom);
        };
        for _ in 0..workers {
            lists.push_reserved(VecDeque::new(alloc));
        }
        Ok(BroadcastLists { lists })
    }

    /// The number of workers.
    pub fn workers(&self) -> usize
        ensures { result ≡ length self.now }
    {
        self.lists.len()
    }

    /// Puts the job into the place that the pieces share, and each piece last in the list of the worker with its index.
    /// Refused `NoRoom` for want of memory, `WrongNumber` where there are not just as many pieces as workers, and
    /// `Filled` where the place has a job already: pieces and job come back, and all lists are as before. Else the job
    /// is lent as it stands there.
    pub fn push_each<'p, J: Drop>(
        &mut self,
        pieces: Vec<T>,
        place: &'p SharedJob<J>,
        job: J,
    ) -> Result<&'p J, (Unpushed<T>, J)>
        ensures { MatchResult result
            (λ there. (there.now ≡ job) × PushedEach self.old pieces.items self.new)
            (λ e. BackBy self.old pieces e.0 × (e.1 ≡ job) × (self.new ≡ self.old)) }
    {
        if pieces.len() != self.lists.len() {
            return Err((Unpushed::WrongNumber(pieces), job));
        }
        if make_room(&mut self.lists).is_err() {
            return Err((Unpushed::NoRoom(pieces), job));
        }
        let there = match place.put(job) {
            Ok(there) => there,
            Err(job) => return Err((Unpushed::Filled(pieces), job)),
        };
        push_reserved_each(&mut self.lists, pieces);
        Ok(there)
    }

    /// Takes the oldest piece of this worker's list. None exactly where that is empty, or there is no such worker. It
    /// takes no memory.
    pub fn take_oldest(&mut self, worker: usize) -> Option<T>
        ensures taken { MatchOption result
            ((list_of self.old worker ≡ []) × (self.new ≡ self.old))
            (λ piece. (list_of self.old worker ≡ piece ∷ list_of self.new worker)
            × (self.new ≡ slice_set self.old worker (list_of self.new worker))) }
        ensures oldest { (piece : _) (rest : _) → list_of self.old worker ≡ piece ∷ rest
            → (result ≡ Some piece) × (self.new ≡ slice_set self.old worker rest) }
    {
        self.lists.get_mut(worker)?.pop_front()
    }

    /// Whether this worker's list is empty, or there is no such worker.
    pub fn is_empty(&self, worker: usize) -> bool
        ensures { IsTrue result ↔ (list_of self.now worker ≡ []) }
    {
        self.lists.get(worker).is_none_or(|list| list.is_empty())
    }
}

// Room for one piece more in each list. Refused `NoRoom`.
fn make_room<T>(lists: &mut [VecDeque<T>]) -> Result<(), Refusal>
    ensures items { items_of lists.new ≡ items_of lists.old }
    ensures room { IfOk result (λ _. All HasRoom lists.new) }
{
    for list in lists.iter_mut() {
        if list.reserve(1).is_err() {
            return Err(Refusal::NoRoom);
        }
    }
    Ok(())
}

// Puts each piece last in the list with its index, where each has room.
fn push_reserved_each<T: Drop>(lists: &mut [VecDeque<T>], pieces: Vec<T>)
    requires number { length pieces.items ≡ length lists.old }
    requires room { All HasRoom lists.old }
    ensures { PushedEach (items_of lists.old) pieces.items (items_of lists.new) }
{
    for (worker, piece) in pieces.into_iter().enumerate() {
        lists[worker].push_back_reserved(piece);
    }
}
