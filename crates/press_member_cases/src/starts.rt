//! What a disk has of starts, and what a member and its store tell each other of them.

use press_simulation as simulation;
use press_starts::{Mark, Recall, Sighting, Witness};
use press_wire::{MOST_MEMBERS, MemberId};
use std::alloc::{AllocError, Global};
use std::cell::Cell;
use std::rc::Rc;

/// How many members a cluster has at most.
pub const MEMBERS: usize = MOST_MEMBERS as usize;

/// The last mark that was heard of each member.
pub type Ears = [Option<Mark>; MEMBERS];

/// What is to be kept of the others with the next save, and how many saves of the start that runs
/// its store has.
#[derive(Clone, Copy)]
struct Notes {
    ears: Ears,
    saves: u64,
}

/// Where a member and its store note that.
pub struct Register {
    notes: Rc<Cell<Notes>>,
}

impl Drop for Register {
    fn drop(self) {
        let Register { notes: _ } = self;
    }
}

impl Register {
    /// Nothing was heard of the others but that, and nothing saved.
    pub fn new(alloc: Global, ears: Ears) -> Result<Register, AllocError> {
        let notes = Notes { ears, saves: 0 };
        Ok(Register {
            notes: Rc::new(alloc, Cell::new(notes))?,
        })
    }

    /// Leads to the same notes.
    pub fn copy(&self) -> Result<Register, AllocError> {
        Ok(Register {
            notes: self.notes.clone()?,
        })
    }

    pub fn saves(&self) -> u64 {
        self.notes.get().saves
    }

    pub fn ears(&self) -> Ears {
        self.notes.get().ears
    }

    /// The store has so many saves.
    pub fn save(&self, saves: u64) {
        let notes = self.notes.get();
        self.notes.set(Notes { saves, ..notes });
    }

    /// That was heard of a member.
    pub fn hear(&self, member: MemberId, mark: Option<Mark>) {
        let mut notes = self.notes.get();
        if let Some(heard) = notes.ears.get_mut(place_of(member)) {
            *heard = mark;
        }
        self.notes.set(notes);
    }
}

/// The place of a member, from 0.
pub fn place_of(member: MemberId) -> usize {
    usize::from(member.number()).saturating_sub(1)
}

/// What a disk has of starts: those of its member, the running one first, and what was heard of the
/// others.
#[derive(Drop)]
pub struct StartFile {
    marks: Vec<Mark>,
    ears: Ears,
}

impl StartFile {
    /// That of an empty disk.
    pub fn new(alloc: Global) -> StartFile {
        StartFile {
            marks: Vec::new(alloc),
            ears: [None; MEMBERS],
        }
    }

    pub fn copy(&self, alloc: Global) -> Result<StartFile, AllocError> {
        Ok(StartFile {
            marks: copies(alloc, &self.marks)?,
            ears: self.ears,
        })
    }

    /// What a member knows whose start of that name begins; it is on the disk from then on.
    pub fn begin(&mut self, alloc: Global, start: u64) -> Result<Witness, AllocError> {
        let mark = Mark { start, saves: 0 };
        let mut witness = Witness::new(mark, copies(alloc, &self.marks)?);
        for (place, heard) in self.ears.iter().enumerate() {
            if let Some(sighting) = sighting_of(place, *heard) {
                witness.remember(sighting);
            }
        }
        self.marks.push(mark)?;
        Ok(witness)
    }

    pub fn ears(&self) -> Ears {
        self.ears
    }

    /// The running start saves once more, and what was heard of others with it.
    pub fn save(&mut self, register: &Register) {
        self.ears = register.ears();
        if let Some(mark) = self.marks.last_mut() {
            mark.saves = mark.saves.saturating_add(1);
            register.save(mark.saves);
        }
    }
}

fn copies(alloc: Global, marks: &[Mark]) -> Result<Vec<Mark>, AllocError> {
    let mut all = Vec::new(alloc);
    for mark in marks.iter() {
        all.push(*mark)?;
    }
    Ok(all)
}

/// That mark of the member at a place.
pub fn sighting_of(place: usize, heard: Option<Mark>) -> Option<Sighting> {
    let member = MemberId::new(u8::try_from(place.saturating_add(1)).ok()?)?;
    Some(Sighting {
        member,
        mark: heard?,
    })
}

fn mark_of(mark: simulation::Mark) -> Mark {
    Mark {
        start: mark.start,
        saves: mark.saves,
    }
}

fn simulated(mark: Mark) -> simulation::Mark {
    simulation::Mark {
        start: mark.start,
        saves: mark.saves,
    }
}

/// A recall in the member's words.
pub fn recall_of(recall: simulation::Recall) -> Recall {
    Recall {
        mark: mark_of(recall.mark),
        number: recall.number,
        heard: recall.heard.map(mark_of),
        answered: recall.answered.map(mark_of),
    }
}

/// A recall in the simulation's words.
pub fn recall_as_simulated(recall: Recall) -> simulation::Recall {
    simulation::Recall {
        mark: simulated(recall.mark),
        number: recall.number,
        heard: recall.heard.map(simulated),
        answered: recall.answered.map(simulated),
    }
}
