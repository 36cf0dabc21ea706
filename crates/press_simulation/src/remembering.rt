//! What members tell each other of their starts, and what has to hold of that.

use crate::actor::Actor;
use crate::memory::Memory;
use crate::recall::{Hearing, Mark, Told};
use crate::world::World;
use std::alloc::AllocError;

// Within so many milliseconds of a connection with who had heard it, a member is told what its disk
// lacks.
const SOON: u64 = 2_000;

impl<A: Actor> World<A> {
    fn memory(&self, place: usize) -> Option<&Memory> {
        Some(self.seats.get(place)?.memory())
    }

    // The last mark of another that a member heard.
    fn heard_of(&self, place: usize, other: usize) -> Option<Mark> {
        self.memory(place)?.heard_of(other)
    }

    // Whether the disk of a member lacks what was heard of it.
    fn lacks(&self, place: usize, heard: Option<Mark>) -> bool {
        match self.memory(place) {
            Some(memory) => memory.lacks(heard),
            None => false,
        }
    }

    /// Whether the start of a member that runs began on a disk that had all of its saves.
    pub fn is_whole(&self, place: usize) -> bool {
        match self.memory(place) {
            Some(memory) => memory.is_whole(),
            None => true,
        }
    }

    // A member is told that its disk lacks some of its saves, and ends.
    fn find(&mut self, place: usize) -> Result<(), AllocError>
        requires always { Unit {0} }
    {
        if self.is_disk_whole(place) {
            self.accuse(
                place,
                "is found forgetful, and its disk has all of its saves",
            )?;
        }
        self.tally.found = self.tally.found.saturating_add(1);
        self.changed = self.now;
        self.kill(place)?;
        if let Some(seat) = self.seats.get_mut(place) {
            seat.be_found();
        }
        Ok(())
    }

    // Where a member whose disk lacks some of its saves is heard, or hears, nothing is promised of
    // what is chosen from then on.
    fn note_heard(&mut self, place: usize, other: usize, told: Told) -> Result<(), AllocError> {
        let is_whole = self.is_whole(place);
        let Some(seat) = self.seats.get_mut(other) else {
            return Ok(());
        };
        if !is_whole || !seat.memory().was_whole(told.mark.start) {
            self.judge.loosen();
        }
        seat.be_heard(told)
    }

    // A member has heard another, of which it had heard that before.
    fn check_heard(
        &mut self,
        place: usize,
        other: usize,
        told: Told,
        had: Option<Mark>,
    ) -> Result<(), AllocError> {
        let is_running = match self.memory(other) {
            Some(memory) => memory.mark().start == told.mark.start,
            None => false,
        };
        if is_running && self.lacks(other, had) {
            self.accuse(place, "hears one whose disk lacks what it had heard of it")?;
        }
        self.links.hear(place, other, self.now);
        self.note_heard(place, other, told)
    }

    /// Another tells a member something; what it hears of that. It ends if it is told what its disk
    /// lacks.
    pub fn be_told(&mut self, place: usize, other: usize, told: Told) -> Result<Hearing, AllocError>
        requires always { Unit {0} }
    {
        let had = self.heard_of(place, other);
        let lacks = self.lacks(place, told.heard);
        let hearing = match self.seats.get_mut(place) {
            Some(seat) => seat.hear(other, told),
            None => Hearing::Nothing,
        };
        if self.standing(place).has_forgotten {
            self.find(place)?;
            return Ok(Hearing::Nothing);
        }
        if lacks {
            self.accuse(place, "is told what its disk lacks, and goes on")?;
        }
        if hearing != Hearing::Nothing {
            self.check_heard(place, other, told, had)?;
        }
        Ok(hearing)
    }

    fn is_up(&self, place: usize) -> bool {
        self.is_awake(place) && !self.standing(place).is_down
    }

    // Whether all goes from the one to the other and back.
    fn is_linked(&self, place: usize, other: usize) -> bool {
        self.is_up(place)
            && self.is_up(other)
            && self.cluster(place) == self.cluster(other)
            && self.network.is_open(place, other, self.now)
            && self.network.is_open(other, place, self.now)
    }

    // So long a member that is connected with another may hear nothing of it.
    fn patience(&self) -> u64 {
        u64::from(self.tick).saturating_mul(3).saturating_add(3_000)
    }

    fn check_linked(&mut self, place: usize, other: usize) -> Result<(), AllocError> {
        let heard = self.heard_of(other, place);
        if self.links.age(place, other, self.now) > SOON && self.lacks(place, heard) {
            self.accuse(place, "lacks what one had heard that it is connected with")?;
        }
        if self.links.silence(place, other, self.now) > self.patience() {
            self.accuse(place, "hears nothing of one that it is connected with")?;
        }
        Ok(())
    }

    fn check_link(&mut self, place: usize, other: usize) -> Result<(), AllocError> {
        if self.is_linked(place, other) {
            return self.check_linked(place, other);
        }
        self.links.part(place, other, self.now);
        Ok(())
    }

    /// A member has heard those lately that it is connected with, and none of them had heard what
    /// its disk lacks.
    pub fn check_links(&mut self, place: usize) -> Result<(), AllocError> {
        for other in 0..self.count() {
            if other != place {
                self.check_link(place, other)?;
            }
        }
        Ok(())
    }
}
