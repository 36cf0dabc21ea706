//! What was heard of the other members since the last save.

use press_starts::{Mark, Sighting};
use press_wire::{MOST_MEMBERS, MemberId};
use std::alloc::{AllocError, Global};
use std::cell::Cell;

const MEMBERS: usize = MOST_MEMBERS as usize;

/// The marks that were heard of the other members and that no save has kept yet. Who hears them
/// shares it with the store.
#[derive(Drop)]
pub struct Notes {
    marks: Cell<[Option<Mark>; MEMBERS]>,
}

impl Notes {
    pub fn new() -> Notes {
        Notes {
            marks: Cell::new([None; MEMBERS]),
        }
    }

    /// The mark was heard of the member; the next save keeps it.
    pub fn note(&self, sighting: Sighting) {
        let mut marks = self.marks.get();
        marks[usize::from(sighting.member.number()) - 1] = Some(sighting.mark);
        self.marks.set(marks);
    }

    /// What no save has kept yet.
    pub fn sightings(&self, alloc: Global) -> Result<Vec<Sighting>, AllocError> {
        let marks = self.marks.get();
        let mut sightings = Vec::new(alloc);
        for n in 0..MOST_MEMBERS {
            if let (Some(member), Some(mark)) = (MemberId::new(n + 1), marks[usize::from(n)]) {
                sightings.push(Sighting { member, mark })?;
            }
        }
        Ok(sightings)
    }

    /// All of it is kept.
    pub fn clear(&self) {
        self.marks.set([None; MEMBERS]);
    }
}
