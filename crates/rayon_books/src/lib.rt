//! What a scope keeps of its jobs: the book of their results by number, and the receipts that its body holds of what it
//! spawned, each met by the output at its number. And what a broadcast keeps of its pieces: such a book, by index.
#![tactic(auto)]

mod outcome;
mod piece_runs;
mod receipt;
mod scope_book;
mod slot;

pub use outcome::Outcome;
pub use receipt::{Ended, Receipt, are_met, is_met};
pub use scope_book::ScopeBook;
pub use slot::{First, NoOutputs, Slot};
