//! What a pool's builder is told of the program's surroundings, and how many workers follow from it.
ghost use Rattle.rayon_core.specs.Environment.{Says, workers_for};
ghost use Rattle.std.specs.Prelude.{◌≡◌, MatchOption, None};

/// The most workers that a pool may have: 65,535. As in rayon-core, whose counters have 16 bits for a number of
/// workers.
pub fn max_num_threads() -> usize
    ensures { result ≡ 65535 }
{
    65_535
}

// The numbers that the two words of the environment say, and how many processors there are, where 0 says that this is
// unknown.
#[derive(Clone, Copy)]
pub(crate) struct Environment {
    pub(crate) first: Option<usize>,
    pub(crate) second: Option<usize>,
    pub(crate) processors: usize,
}

impl Environment {
    // No word, and an unknown number of processors.
    pub(crate) fn unknown() -> Environment
        ensures { result ≡ record { first = None; second = None; processors = 0 } }
    {
        Environment {
            first: None,
            second: None,
            processors: 0,
        }
    }

    // How many workers a pool has for which so many were asked.
    pub(crate) fn worker_count(self, asked: usize) -> usize
        ensures { result ≡ workers_for asked self.first self.second self.processors }
    {
        let processors = self.processors.max(1);
        let wanted = match (asked, self.first, self.second) {
            (0, Some(0), _) | (0, None, Some(0) | None) => processors,
            (0, Some(first), _) => first,
            (0, None, Some(second)) => second,
            (asked, _, _) => asked,
        };
        wanted.min(max_num_threads())
    }
}

// The number that a word says. None of an absent one, of one that writes no number, and of a number above 2^64 - 1.
pub(crate) fn number_in(word: Option<&str>) -> Option<usize>
    ensures { MatchOption word.entry (result ≡ None) (λ w. Says w.now result) }
{
    word?.parse().ok()
}
