//! A millisecond of all members.

use crate::actor::{Actor, Input, Standing};
use crate::world::World;
use std::alloc::AllocError;

// How often a member hears itself in one millisecond.
const TURNS: u32 = 8;

// For so many milliseconds it may do that without an end.
const MOST_BUSY: u64 = 1_000;

// Every so many milliseconds it is looked at whether a member is ready.
const EVERY: u64 = 16;

impl<A: Actor> World<A> {
    fn clock(&self, place: usize) -> u64 {
        match self.seats.get(place) {
            Some(seat) => seat.clock(self.now),
            None => 0,
        }
    }

    // A member hears itself, until it has sent nothing more, or for some turns.
    fn turn(&mut self, place: usize) -> Result<(), AllocError>
        requires always { Unit {0} }
    {
        for _ in 0..TURNS {
            if !self.standing(place).has_more {
                return Ok(());
            }
            self.on(place, Input::Sent)?;
            self.flush(place)?;
        }
        Ok(())
    }

    // Time passes for a member, which then hears itself.
    fn pass(&mut self, place: usize) -> Result<(), AllocError>
        requires always { Unit {0} }
    {
        if !self.is_awake(place) {
            return Ok(());
        }
        let clock = self.clock(place);
        self.on(place, Input::Time(clock))?;
        self.flush(place)?;
        self.turn(place)
    }

    // The next vote that a member has saved.
    fn next_note(&mut self, place: usize) -> Result<(), AllocError> {
        let note = match self.seats.get_mut(place) {
            Some(seat) => seat.next_note(),
            None => None,
        };
        match note {
            // Votes count where the disk has all that its member saved.
            Some(note) if self.is_whole(place) => self.judge.note(place, note),
            _ => Ok(()),
        }
    }

    /// Notes what a member has saved.
    pub fn note(&mut self, place: usize) -> Result<(), AllocError> {
        let count = match self.seats.get(place) {
            Some(seat) => seat.new_notes(),
            None => 0,
        };
        for _ in 0..count {
            self.next_note(place)?;
        }
        Ok(())
    }

    // The store of a member has failed: it starts again later.
    fn fall(&mut self, place: usize) {
        self.tally.falls = self.tally.falls.saturating_add(1);
        let at = self.now.saturating_add(self.network.draw(1, 2_000));
        if let Some(seat) = self.seats.get_mut(place) {
            seat.start_at(at);
        }
    }

    // Looks at the page of a member that has applied so many slots.
    fn see(&mut self, place: usize, applied: u64) -> Result<(), AllocError> {
        let page = match self.seats.get(place) {
            Some(seat) => seat.page(),
            None => None,
        };
        match page {
            Some(page) => self.judge.see(place, applied, page),
            None => Ok(()),
        }
    }

    // Looks whether a member has failed, or has applied more.
    fn look_at(&mut self, place: usize, standing: Standing) -> Result<(), AllocError> {
        let (falls, moves) = match self.seats.get_mut(place) {
            Some(seat) => (seat.falls(standing), seat.moves(standing)),
            None => (false, false),
        };
        if falls {
            self.fall(place);
        }
        if moves {
            self.see(place, standing.applied)?;
        }
        Ok(())
    }

    // Looks at what a member sends, to whom, and whether it comes to an end.
    fn look_at_sent(&mut self, place: usize, standing: Standing) -> Result<(), AllocError> {
        let (strays, busy) = match self.seats.get_mut(place) {
            Some(seat) => (seat.strays(), seat.note_busy(standing.has_more)),
            None => (false, 0),
        };
        if strays {
            self.complain(place, "sends for another, to itself, or twice")?;
        }
        if busy == MOST_BUSY {
            self.complain(place, "hears itself without an end")?;
        }
        Ok(())
    }

    // What is seen of a member at the end of a millisecond.
    fn look(&mut self, place: usize) -> Result<(), AllocError> {
        let standing = self.standing(place);
        if !standing.is_running {
            return Ok(());
        }
        self.note(place)?;
        self.look_at(place, standing)?;
        if self.now % EVERY == 0 {
            self.check_links(place)?;
        }
        if self.wait(place) > 0 {
            return Ok(());
        }
        self.look_at_sent(place, standing)?;
        self.check(place, standing)?;
        if self.now % EVERY == 0 {
            self.check_ready(place, standing)?;
        }
        Ok(())
    }

    // A pause ends for a member: it looks at its clock first.
    fn resume(&mut self, place: usize) -> Result<(), AllocError>
        requires always { Unit {0} }
    {
        let is_over = match self.seats.get_mut(place) {
            Some(seat) => seat.resumes(self.now),
            None => false,
        };
        if is_over {
            self.pass(place)?;
        }
        Ok(())
    }

    // A member starts again, if that is due.
    fn start_due(&mut self, place: usize) -> Result<(), AllocError>
        requires always { Unit {0} }
    {
        let is_due = match self.seats.get(place) {
            Some(seat) => seat.is_due(self.now),
            None => false,
        };
        if is_due {
            self.start(place)?;
        }
        Ok(())
    }

    fn receive_all(&mut self) -> Result<(), AllocError>
        requires always { Unit {0} }
    {
        for parcel in self.network.take(self.now) {
            self.receive(parcel)?;
        }
        Ok(())
    }

    /// The next millisecond, up to what comes from outside.
    pub fn begin(&mut self) -> Result<(), AllocError>
        requires always { Unit {0} }
    {
        self.now = self.now.saturating_add(1);
        for place in 0..self.count() {
            self.start_due(place)?;
            self.resume(place)?;
        }
        self.receive_all()
    }

    /// The end of the millisecond.
    pub fn end(&mut self) -> Result<(), AllocError>
        requires always { Unit {0} }
    {
        for place in 0..self.count() {
            self.pass(place)?;
            self.look(place)?;
            if self.now % 1_000 == 0 {
                self.end_second(place)?;
            }
        }
        Ok(())
    }
}
