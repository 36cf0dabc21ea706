//! The starts of a member that a disk has, as a run sees them.

use crate::recall::Mark;
use std::alloc::{AllocError, Global};

/// Starts, each with its saves.
#[derive(Drop)]
pub struct History {
    marks: Vec<Mark>,
}

impl History {
    /// That of an empty disk.
    pub fn new(alloc: Global) -> History {
        History {
            marks: Vec::new(alloc),
        }
    }

    /// Whether it has that start with so many saves.
    pub fn has(&self, mark: Mark) -> bool {
        for own in self.marks.iter() {
            if own.start == mark.start && own.saves >= mark.saves {
                return true;
            }
        }
        false
    }

    /// Whether it has all that another has.
    pub fn has_all_of(&self, other: &History) -> bool {
        for mark in other.marks.iter() {
            if !self.has(*mark) {
                return false;
            }
        }
        true
    }

    /// A start has made so many saves.
    pub fn note(&mut self, mark: Mark) -> Result<(), AllocError> {
        for own in self.marks.iter_mut() {
            if own.start == mark.start {
                own.saves = own.saves.max(mark.saves);
                return Ok(());
            }
        }
        self.marks.push(mark)?;
        Ok(())
    }

    pub fn copy(&self, alloc: Global) -> Result<History, AllocError> {
        let mut marks = Vec::new(alloc);
        for mark in self.marks.iter() {
            marks.push(*mark)?;
        }
        Ok(History { marks })
    }
}
