//! What has to hold once faults are over.

use crate::actor::Actor;
use crate::forms::Taken;
use crate::world::World;
use std::alloc::AllocError;

impl<A: Actor> World<A> {
    // Whether a member has ended because its disk lacks some of its saves.
    fn is_found(&self, place: usize) -> bool {
        self.seats.get(place).is_some_and(|seat| seat.is_found())
    }

    /// How many have ended for that.
    pub fn found_count(&self) -> usize {
        let mut count: usize = 0;
        for place in 0..self.count() {
            count = count.saturating_add(usize::from(self.is_found(place)));
        }
        count
    }

    /// Whether all can be applied: a majority is there, and what is chosen is promised.
    pub fn can_settle(&self) -> bool {
        !self.judge.is_loose() && self.found_count() < self.count().div_ceil(2)
    }

    // Whether a member is done: it is up, ready, has proposed all, and has applied all but so many;
    // or its disk lacks some of its saves.
    fn is_done(&self, place: usize, but: u64) -> bool {
        if self.is_found(place) {
            return true;
        }
        let standing = self.standing(place);
        standing.is_running
            && !standing.is_waiting
            && standing.applied.saturating_add(but) >= self.judge.chosen_count()
            && (self.is_ready(place) || self.may_wait(but))
    }

    // Where one is gone for good by whose vote the last slot was chosen, who started behind that may
    // not be ready before another form comes.
    fn may_wait(&self, but: u64) -> bool {
        but > 0 && self.found_count() > 0
    }

    /// Whether all members are ready, and have applied everything but so many slots.
    pub fn is_settled(&self, but: u64) -> bool {
        for place in 0..self.count() {
            if !self.is_done(place, but) {
                return false;
            }
        }
        true
    }

    // What a member lacks.
    fn complain_of(&mut self, place: usize, within: u64) -> Result<(), AllocError> {
        let (standing, all) = (self.standing(place), self.judge.chosen_count());
        let (applied, said, waits) = (standing.applied, standing.chosen, standing.is_waiting);
        let text = format!(in self.alloc;
            "is not done within {within} ms: applied {applied} of {all}, says {said}, waits {waits}"
        )?;
        self.complain(place, text.as_str())
    }

    /// What each member that isn't done lacks.
    pub fn complain_of_rest(&mut self, within: u64) -> Result<(), AllocError> {
        for place in 0..self.count() {
            if !self.is_done(place, 0) {
                self.complain_of(place, within)?;
            }
        }
        Ok(())
    }

    // Whether the member that took a form has lived on.
    fn has_lived(&self, form: &Taken) -> bool {
        let standing = self.standing(form.place);
        self.life(form.place) == form.life && standing.is_running && !standing.is_down
    }

    // Whether a form waits at the member that took it.
    fn waits(&self, form: &Taken) -> bool {
        self.has_lived(form) && self.judge.count_of(form.value) == 0
    }

    /// How many forms wait at the members that took them.
    pub fn waiting_form_count(&self) -> u64 {
        let mut count: u64 = 0;
        for at in 0..self.forms.count() {
            if let Some(form) = self.forms.at(at) {
                count = count.saturating_add(u64::from(self.waits(&form)));
            }
        }
        count
    }

    // Whether each member that is there knows what became of a form.
    fn is_known(&self, form: &Taken) -> bool {
        for seat in self.seats.iter() {
            if !seat.is_found() && !seat.knows(form.number) {
                return false;
            }
        }
        true
    }

    fn complain_of_form(&mut self, form: &Taken, count: usize) -> Result<(), AllocError> {
        let number = form.number;
        let text = format!(in self.alloc;
            "took form {number}, which is chosen {count} times, or lost, or not known of"
        )?;
        self.complain(form.place, text.as_str())
    }

    // Whether a form that was chosen so often has come to what it should: if its member lived on it is
    // chosen, and each member knows of it exactly if it is.
    fn is_right(&self, form: &Taken, count: usize) -> bool {
        let is_lost = count == 0 && self.has_lived(form);
        !is_lost && (count > 0) == self.is_known(form)
    }

    // A form is chosen at most once, and comes to what it should where all could be applied.
    fn check_form(&mut self, form: &Taken) -> Result<(), AllocError> {
        let count = self.judge.count_of(form.value);
        if count > 1 || (self.can_settle() && !self.is_right(form, count)) {
            self.complain_of_form(form, count)?;
        }
        Ok(())
    }

    /// Whether the disk of a member has all of its saves.
    pub fn is_disk_whole(&self, place: usize) -> bool {
        self.seats
            .get(place)
            .is_some_and(|seat| seat.memory().is_disk_whole())
    }

    // A member ends; what its disk keeps is looked at.
    fn check_disk(&mut self, place: usize) -> Result<(), AllocError>
        requires always { Unit {0} }
    {
        self.note(place)?;
        if !self.is_disk_whole(place) {
            return Ok(());
        }
        let last = self.judge.slots();
        let votes = match self.seats.get_mut(place) {
            Some(seat) => seat.votes(last),
            None => None,
        };
        match votes {
            Some(votes) => self.judge.check_disk(place, &votes),
            None => self.complain(place, "leaves a disk that can't be read"),
        }
    }

    /// All members end; what their disks keep has to be what was chosen.
    pub fn check_disks(&mut self) -> Result<(), AllocError>
        requires always { Unit {0} }
    {
        for place in 0..self.count() {
            self.check_disk(place)?;
        }
        Ok(())
    }

    /// Looks at each form that was taken.
    pub fn check_forms(&mut self) -> Result<(), AllocError> {
        for at in 0..self.forms.count() {
            if let Some(form) = self.forms.at(at) {
                self.check_form(&form)?;
            }
        }
        Ok(())
    }
}
