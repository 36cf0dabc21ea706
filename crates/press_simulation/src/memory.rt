//! What a member and its disk have of starts, of its own and of the others, as a run sees it.

use crate::history::History;
use crate::recall::Mark;
use crate::scenario::MOST_MEMBERS;
use std::alloc::{AllocError, Global};

const MEMBERS: usize = MOST_MEMBERS as usize;

// No start is named so.
const NOBODY: Mark = Mark { start: 0, saves: 0 };

// The last mark that was heard of each member.
type Ears = [Option<Mark>; MEMBERS];

// What a disk has.
#[derive(Drop)]
struct Disk {
    own: History,
    ears: Ears,
}

impl Disk {
    fn new(alloc: Global) -> Disk {
        Disk {
            own: History::new(alloc),
            ears: [None; MEMBERS],
        }
    }

    fn copy(&self, alloc: Global) -> Result<Disk, AllocError> {
        Ok(Disk {
            own: self.own.copy(alloc)?,
            ears: self.ears,
        })
    }
}

/// What a member has, its disk, and the copies of that.
pub struct Memory {
    alloc: Global,
    // Its starts with saves, but those of a start that lacked some and that nobody heard.
    all: History,
    // The starts that lacked nothing.
    sound: History,
    disk: Disk,
    copies: Vec<Disk>,
    mark: Mark,
    ears: Ears,
    // Whether the disk had all of it as the start began that runs.
    is_whole: bool,
}

impl Drop for Memory {
    fn drop(self) {
        let Memory {
            alloc: _,
            all: _,
            sound: _,
            disk: _,
            copies: _,
            mark: _,
            ears: _,
            is_whole: _,
        } = self;
    }
}

impl Memory {
    /// That of a member that never started.
    pub fn new(alloc: Global) -> Memory {
        Memory {
            alloc,
            all: History::new(alloc),
            sound: History::new(alloc),
            disk: Disk::new(alloc),
            copies: Vec::new(alloc),
            mark: NOBODY,
            ears: [None; MEMBERS],
            is_whole: true,
        }
    }

    // The disk has the mark of the start that runs.
    fn note(&mut self) -> Result<(), AllocError> {
        self.disk.own.note(self.mark)?;
        if self.is_whole && self.mark.saves > 0 {
            self.all.note(self.mark)?;
        }
        Ok(())
    }

    /// A start of that name begins over the disk.
    pub fn begin(&mut self, start: u64) -> Result<(), AllocError> {
        self.is_whole = self.disk.own.has_all_of(&self.all);
        self.mark = Mark { start, saves: 0 };
        self.ears = self.disk.ears;
        if self.is_whole {
            self.sound.note(self.mark)?;
        }
        self.note()
    }

    /// The start has made so many saves: each writes what was heard too.
    pub fn save(&mut self, saves: u64) -> Result<(), AllocError> {
        if saves == self.mark.saves {
            return Ok(());
        }
        self.mark.saves = saves;
        self.disk.ears = self.ears;
        self.note()
    }

    /// The start that runs, and its saves.
    pub fn mark(&self) -> Mark {
        self.mark
    }

    /// Whether that start of it lacked nothing as it began.
    pub fn was_whole(&self, start: u64) -> bool {
        self.sound.has(Mark { start, saves: 0 })
    }

    /// Another member heard that mark of it.
    pub fn be_heard(&mut self, mark: Mark) -> Result<(), AllocError> {
        self.all.note(mark)
    }

    /// It hears that mark of the member at a place.
    pub fn hear(&mut self, place: usize, mark: Mark) {
        if let Some(heard) = self.ears.get_mut(place) {
            *heard = Some(mark);
        }
    }

    /// The last mark that it heard of the member at a place.
    pub fn heard_of(&self, place: usize) -> Option<Mark> {
        self.ears.get(place).copied().flatten()
    }

    /// Whether its disk lacks what another heard of it.
    pub fn lacks(&self, heard: Option<Mark>) -> bool {
        match heard {
            Some(mark) => !self.disk.own.has(mark),
            None => false,
        }
    }

    /// Whether the start that runs began on a disk that had all.
    pub fn is_whole(&self) -> bool {
        self.is_whole
    }

    /// Whether the disk, as it is, has all.
    pub fn is_disk_whole(&self) -> bool {
        self.disk.own.has_all_of(&self.all)
    }

    /// The disk is emptied. No start runs.
    pub fn empty(&mut self) {
        self.mark = NOBODY;
        self.disk = Disk::new(self.alloc);
    }

    /// A copy of the disk is taken.
    pub fn keep(&mut self) -> Result<(), AllocError> {
        let copy = self.disk.copy(self.alloc)?;
        self.copies.push(copy)?;
        Ok(())
    }

    /// That copy of the disk is put back, if it was taken. No start runs.
    pub fn put_back(&mut self, copy: usize) -> Result<(), AllocError> {
        self.mark = NOBODY;
        if let Some(copy) = self.copies.get(copy) {
            self.disk = copy.copy(self.alloc)?;
        }
        Ok(())
    }
}
