//! The names that a script declares.
use crate::bad::{Bad, Stop};
use std::alloc::Global;
use std::collections::BTreeMap;

// The names of one kind, each with its number: how many were declared before it.
#[derive(Drop)]
pub(crate) struct Names {
    places: BTreeMap<String, usize>,
}

impl Names {
    // No name.
    fn new(alloc: Global) -> Names {
        Names {
            places: BTreeMap::new(alloc),
        }
    }

    // The number of a name.
    pub(crate) fn place(&self, name: &str) -> Option<usize> {
        self.places.get(name).copied()
    }

    // Declares a name.
    pub(crate) fn declare(&mut self, alloc: Global, name: &str) -> Result<(), Stop> {
        if name.contains('(') || name.contains(')') || name.contains(':') {
            return Err(Stop::Bad(Bad::BadName));
        }
        if self.place(name).is_some() {
            return Err(Stop::Bad(Bad::Twice));
        }
        let place = self.places.len();
        self.places.insert(String::from_str(alloc, name)?, place)?;
        Ok(())
    }
}

// The names of all kinds, and whether main was declared.
#[derive(Drop)]
pub(crate) struct Directory {
    pub(crate) pools: Names,
    pub(crate) gates: Names,
    pub(crate) jobs: Names,
    pub(crate) threads: Names,
    pub(crate) has_main: bool,
}

impl Directory {
    // Nothing is declared.
    pub(crate) fn new(alloc: Global) -> Directory {
        Directory {
            pools: Names::new(alloc),
            gates: Names::new(alloc),
            jobs: Names::new(alloc),
            threads: Names::new(alloc),
            has_main: false,
        }
    }

    // The pool that a word names.
    pub(crate) fn pool(&self, word: &str) -> Result<usize, Bad> {
        self.pools.place(word).ok_or(Bad::NoSuchPool)
    }

    // The gate that a word names.
    pub(crate) fn gate(&self, word: &str) -> Result<usize, Bad> {
        self.gates.place(word).ok_or(Bad::NoSuchGate)
    }

    // The job that a word names.
    pub(crate) fn job(&self, word: &str) -> Result<usize, Bad> {
        self.jobs.place(word).ok_or(Bad::NoSuchJob)
    }

    // The thread that a word names.
    pub(crate) fn thread(&self, word: &str) -> Result<usize, Bad> {
        self.threads.place(word).ok_or(Bad::NoSuchThread)
    }
}
