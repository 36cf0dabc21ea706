//! Faults as they happen.

use crate::actor::{Actor, Begins, Condition};
use crate::scenario::{Fault, Wire};
use crate::world::World;
use std::alloc::AllocError;

impl<A: Actor> World<A> {
    /// A member ends.
    pub fn kill(&mut self, place: usize) -> Result<(), AllocError>
        requires always { Unit {0} }
    {
        self.note(place)?;
        if self.liar == Some(place) {
            self.changed = self.now;
        }
        match self.seats.get_mut(place) {
            Some(seat) => seat.stop(),
            None => Ok(()),
        }
    }

    // What a member's disk is like, where it isn't to stop: it may have no room.
    fn condition(&self, place: usize) -> Condition {
        match self.seats.get(place) {
            Some(seat) if seat.is_full() => Condition::Fills(0),
            _ => Condition::Sound,
        }
    }

    // How one starts on such a disk, as the member of a place.
    fn begins(&self, disk: Condition, number: usize) -> Begins {
        Begins {
            disk,
            number,
            cluster: 0,
            tick: self.tick,
            start: 0,
        }
    }

    fn open(&mut self, place: usize, disk: Condition, is_foreign: bool) -> Result<(), AllocError>
        requires always { Unit {0} }
    {
        self.kill(place)?;
        let begins = self.begins(disk, place);
        let clock = self.network.draw(0, 999_999);
        let again = self.now.saturating_add(100);
        if let Some(seat) = self.seats.get_mut(place) {
            if !seat.start(clock, is_foreign, begins)? {
                seat.start_at(again);
            }
        }
        self.tally.starts = self.tally.starts.saturating_add(1);
        self.heard.forget(place);
        self.links.begin(place, self.now);
        self.changed = self.now;
        Ok(())
    }

    /// A member starts anew.
    pub fn start(&mut self, place: usize) -> Result<(), AllocError>
        requires always { Unit {0} }
    {
        let disk = self.condition(place);
        self.open(place, disk, false)
    }

    // A member starts anew, whose disk stops behind so many writes if that is planned.
    fn start_on(&mut self, place: usize, stops: Option<u64>) -> Result<(), AllocError>
        requires always { Unit {0} }
    {
        match stops {
            Some(writes) => self.open(place, Condition::Stops(writes), false),
            None => self.start(place),
        }
    }

    // A member starts anew with other digests.
    fn start_as_another(&mut self, place: usize) -> Result<(), AllocError>
        requires always { Unit {0} }
    {
        let disk = self.condition(place);
        self.open(place, disk, true)
    }

    // A member's files are given to another, which is not to run over them, and then to it again.
    fn give(&mut self, place: usize, to: usize) -> Result<(), AllocError>
        requires always { Unit {0} }
    {
        self.kill(place)?;
        let begins = self.begins(self.condition(place), to);
        let runs = match self.seats.get_mut(place) {
            Some(seat) => seat.start(0, false, begins)?,
            None => false,
        };
        if runs && place != to {
            self.complain(place, "has files over which another member runs")?;
        }
        self.start(place)
    }

    // A member starts over a disk with room for that many writes, and for none whenever it starts
    // again.
    fn fill(&mut self, place: usize, room: u64) -> Result<(), AllocError>
        requires always { Unit {0} }
    {
        if let Some(seat) = self.seats.get_mut(place) {
            seat.fill(true);
        }
        self.open(place, Condition::Fills(room), false)
    }

    fn make_room(&mut self, place: usize) {
        if let Some(seat) = self.seats.get_mut(place) {
            seat.fill(false);
        }
    }

    // A copy of a member's disk is taken while it doesn't run.
    fn keep(&mut self, place: usize) -> Result<(), AllocError>
        requires always { Unit {0} }
    {
        self.kill(place)?;
        if let Some(seat) = self.seats.get_mut(place) {
            seat.keep()?;
        }
        self.start(place)
    }

    // A member's disk is emptied, or a copy of it is put back, before the member starts again.
    fn set_back(&mut self, place: usize, copy: Option<usize>) -> Result<(), AllocError>
        requires always { Unit {0} }
    {
        self.kill(place)?;
        if let Some(seat) = self.seats.get_mut(place) {
            match copy {
                Some(copy) => seat.put_back(copy)?,
                None => seat.empty(),
            }
        }
        if self.count() == 1 && !self.is_disk_whole(place) {
            self.judge.loosen();
        }
        self.start(place)
    }

    fn lie(&mut self, place: usize, more: u64) {
        let is_other = match self.liar {
            Some(liar) => liar != place,
            None => false,
        };
        if self.count() < 3 || is_other {
            return;
        }
        self.liar = Some(place);
        if let Some(seat) = self.seats.get_mut(place) {
            seat.lie(more);
        }
    }

    fn start_at(&mut self, place: usize, at: u64) {
        if let Some(seat) = self.seats.get_mut(place) {
            seat.start_at(at);
        }
    }

    // All members end, and start again soon.
    fn stop_all(&mut self) -> Result<(), AllocError>
        requires always { Unit {0} }
    {
        for place in 0..self.count() {
            self.kill(place)?;
            let wait = self.network.draw(1, 1_500);
            self.start_at(place, self.now.saturating_add(wait));
        }
        Ok(())
    }

    fn pause(&mut self, place: usize, millis: u64) {
        let until = self.now.saturating_add(millis);
        if let Some(seat) = self.seats.get_mut(place) {
            seat.pause(until);
        }
    }

    fn jump(&mut self, place: usize, millis: u64) {
        self.heard.age(place, millis);
        if let Some(seat) = self.seats.get_mut(place) {
            seat.jump(millis);
        }
    }

    // A fault of the network, of a clock, or of what is said happens, or there is room on a disk,
    // if it is one of these.
    fn happen_between(&mut self, fault: Fault) {
        let members = self.count();
        match fault {
            Fault::Cut { from, to } => self.network.cut(from, to),
            Fault::Part(side) => self.network.part(side, members),
            Fault::Heal => self.network.heal(),
            Fault::Pause { place, millis } => self.pause(place, millis),
            Fault::Jump { place, millis } => self.jump(place, millis),
            Fault::Lie { place, more } => self.lie(place, more),
            Fault::Room(place) => self.make_room(place),
            _ => {}
        }
    }

    /// A fault happens.
    pub fn happen(&mut self, fault: Fault) -> Result<(), AllocError>
        requires always { Unit {0} }
    {
        self.changed = self.now;
        match fault {
            Fault::Kill(place) => self.kill(place),
            Fault::Start { place, stops } => self.start_on(place, stops),
            Fault::Fill { place, room } => self.fill(place, room),
            Fault::Foreign(place) => self.start_as_another(place),
            Fault::Give { place, to } => self.give(place, to),
            Fault::Burst { place, count } => self.submit_often(place, count),
            Fault::Outage => self.stop_all(),
            Fault::Everywhere => self.submit_everywhere(),
            Fault::Keep(place) => self.keep(place),
            Fault::Empty(place) => self.set_back(place, None),
            Fault::Back { place, copy } => self.set_back(place, Some(copy)),
            _ => {
                self.happen_between(fault);
                Ok(())
            }
        }
    }

    // Faults of a member end; whether it runs, and its store is not to fail.
    fn mend(&mut self, place: usize) -> bool {
        let now = self.now;
        match self.seats.get_mut(place) {
            Some(seat) => {
                seat.go_on(now);
                seat.lie(0);
                seat.fill(false);
                let standing = seat.standing();
                standing.is_running && !standing.is_down && !seat.is_foreign() && !seat.is_armed()
            }
            None => true,
        }
    }

    /// Faults end: all run, and the network is that good.
    pub fn calm(&mut self, rest: Wire) -> Result<(), AllocError>
        requires always { Unit {0} }
    {
        self.network.be(rest);
        self.changed = self.now;
        for place in 0..self.count() {
            if !self.mend(place) {
                self.start(place)?;
            }
        }
        Ok(())
    }
}
