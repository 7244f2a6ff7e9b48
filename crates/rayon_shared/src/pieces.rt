//! The pieces of a broadcast into a scope.
ghost use Rattle.std.specs.Prelude.{◌≡◌, ◌+◌, ◌<◌, ◌≤◌, ◌^◌, [], IfSome, vec_capacity};
ghost use Rattle.rayon_shared.specs.Casts.{numbered_pieces};

use rayon_broadcasts::SharedJob;
use rayon_jobs::JobKind;
use rayon_tasks::{Task, Ticket, task_of_piece};

/// The pieces of a broadcast of this job into a scope, to so many workers, by the workers' indices: each has a share of
/// this ticket, under a name of its own and with a number of its own in the scope's book. The first piece has `first`
/// and `slot`, and each further one has one more of both. They come into a list in which there is room for them. It
/// takes no memory. None where there are too many shares of one thing, or no such number. Not in rayon-core.
pub fn numbered_pieces<J: JobKind>(
    mut ready: Vec<Task<J>>,
    job: &SharedJob<J>,
    ticket: &Ticket<J>,
    first: u64,
    slot: u64,
    workers: usize,
) -> Option<Vec<Task<J>>>
    requires empty { ready.items ≡ [] }
    requires room { workers ≤ vec_capacity ready }
    requires names { first + workers < 2 ^ 64 }
    ensures made { IfSome result (λ pieces. pieces.items ≡ numbered_pieces ticket.now first slot workers) }
    ensures numbers { IfSome result (λ _. slot + workers ≤ 2 ^ 64) }
{
    for index in 0..workers {
        let number = slot.checked_add(index as u64)?;
        let share = ticket.share().ok()?.renamed(first + index as u64);
        let place = job.share().ok()?;
        ready.push_reserved(task_of_piece(place, share.numbered(number)));
    }
    Some(ready)
}
