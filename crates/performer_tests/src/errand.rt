//! The job of the tests.
use rayon_jobs::{JobKind, NoHandler};

/// A job that is known by its number.
#[derive(Drop)]
pub struct Errand(pub u8);

impl JobKind for Errand {
    type Tag = u8;

    type Output = u8;

    type Fault = u8;

    type Handler = NoHandler;

    ghost answers = { λ t r. Unit {0} };

    ghost tag_of = { λ j. j.0 };

    ghost same_answers = { λ t u e. ((λ r a. a), (λ i n r a. a)) };

    fn tag(&self) -> u8 {
        self.0
    }
}
