//! Tests of the queues, of the tasks, of what scopes and broadcasts keep and of the drive of a pool of many workers.
//! They have a crate of their own, since a crate with tests is proved twice.
#![tactic(auto)]

#[cfg(test)]
mod books;
#[cfg(test)]
mod broadcasts;
#[cfg(test)]
mod drives;
#[cfg(test)]
mod job_fifos;
#[cfg(test)]
mod queues;
#[cfg(test)]
mod tasks;
