//! Forms that members took.

use std::alloc::{AllocError, Global};

/// A form that a member took.
#[derive(Clone, Copy, Drop)]
pub struct Taken {
    pub number: u64,
    pub value: u64,
    pub place: usize,
    pub life: u64,
}

/// Forms by their numbers.
#[derive(Drop)]
pub struct Forms {
    last: u64,
    taken: Vec<Taken>,
}

impl Forms {
    /// None came yet.
    pub fn new(alloc: Global) -> Forms {
        Forms {
            last: 0,
            taken: Vec::new(alloc),
        }
    }

    /// The number of the next one.
    pub fn next(&mut self) -> u64 {
        self.last = self.last.saturating_add(1);
        self.last
    }

    pub fn take(&mut self, form: Taken) -> Result<(), AllocError> {
        self.taken.push(form)?;
        Ok(())
    }

    /// How many were taken.
    pub fn count(&self) -> usize {
        self.taken.len()
    }

    pub fn at(&self, at: usize) -> Option<Taken> {
        self.taken.get(at).copied()
    }
}
