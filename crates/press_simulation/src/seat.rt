//! A place among the members, with its clock, and with what was seen of who runs there.

use crate::actor::{Actor, Answer, Begins, Condition, Input, Report, Standing};
use crate::lanes::{Lane, Lanes};
use crate::memory::Memory;
use crate::note::Note;
use crate::recall::{Hearing, Told};
use crate::tally::Second;
use std::alloc::{AllocError, Global};

// By which members of one cluster know each other.
const OURS: u64 = 22;

// The clock of a member.
#[derive(Clone, Copy, Drop)]
struct Timing {
    // By how much it is ahead.
    ahead: u64,
    // When a pause ends; 0 for none.
    until: u64,
    // When a member whose store failed starts again.
    again: Option<u64>,
}

// What was done to a member.
#[derive(Clone, Copy, Drop)]
struct Guise {
    // How often one has started there.
    life: u64,
    cluster: u64,
    // How many more slots it reports than are chosen.
    more: u64,
    // Whether its store is to fail.
    is_armed: bool,
    // Whether its disk has no room, however often it starts.
    is_full: bool,
    // Whether it ended because its disk lacked some of its saves.
    is_found: bool,
}

// What was seen of a member.
#[derive(Clone, Copy, Drop)]
struct Seen {
    notes: usize,
    applied: u64,
    is_down: bool,
    strays: u64,
    // For how many milliseconds it has heard itself without an end.
    busy: u64,
}

impl Seen {
    fn nothing() -> Seen {
        Seen {
            notes: 0,
            applied: 0,
            is_down: false,
            strays: 0,
            busy: 0,
        }
    }
}

/// A place among the members.
pub struct Seat<A: Actor> {
    alloc: Global,
    place: usize,
    members: u8,
    actor: A,
    lanes: Lanes<A::Letter>,
    timing: Timing,
    guise: Guise,
    seen: Seen,
    second: Second,
    memory: Memory,
}

impl<A: Actor> Drop for Seat<A> {
    fn drop(self) {
        let Seat {
            alloc: _,
            place: _,
            members: _,
            actor: _,
            lanes: _,
            timing: _,
            guise: _,
            seen: _,
            second: _,
            memory: _,
        } = self;
    }
}

// The name of a start: none of two is the same, nor are they in order.
fn name_of(life: u64) -> u64 {
    life.wrapping_mul(0x9e37_79b9_7f4a_7c15)
}

// What its clock and its disk are like as one starts.
impl<A: Actor> Seat<A> {
    /// The place, from 0, of one of so many members, who starts then.
    pub fn new(alloc: Global, place: usize, members: u8, at: u64) -> Result<Seat<A>, AllocError> {
        let lanes = Lanes::new(alloc, place, members)?;
        Ok(Seat {
            alloc,
            place,
            members,
            actor: A::new(alloc, place, members),
            lanes,
            timing: Timing {
                ahead: 0,
                until: 0,
                again: Some(at),
            },
            guise: Guise {
                life: 0,
                cluster: OURS,
                more: 0,
                is_armed: false,
                is_full: false,
                is_found: false,
            },
            seen: Seen::nothing(),
            second: Second::new(0, false),
            memory: Memory::new(alloc),
        })
    }

    /// What is seen of the member.
    pub fn standing(&self) -> Standing {
        self.actor.standing()
    }

    /// Whether it answers for the site as well as any.
    pub fn is_ready(&self) -> bool {
        self.actor.is_ready()
    }

    /// The digest of the page that it shows.
    pub fn page(&self) -> Option<u64> {
        self.actor.page()
    }

    /// Whether it knows what became of the form of that number.
    pub fn knows(&self, form: u64) -> bool {
        self.actor.knows(form)
    }

    /// The digest of the form of that number.
    pub fn value_of(&self, form: u64) -> u64 {
        self.actor.value_of(form)
    }

    /// How often one has started there.
    pub fn life(&self) -> u64 {
        self.guise.life
    }

    pub fn cluster(&self) -> u64 {
        self.guise.cluster
    }

    /// Whether it counts or runs anything else than the others.
    pub fn is_foreign(&self) -> bool {
        self.guise.cluster != OURS
    }

    /// Whether its store is to fail.
    pub fn is_armed(&self) -> bool {
        self.guise.is_armed
    }

    /// Its disk has no room, or has some again.
    pub fn fill(&mut self, is_full: bool) {
        self.guise.is_full = is_full;
    }

    /// Whether its disk has no room.
    pub fn is_full(&self) -> bool {
        self.guise.is_full
    }

    /// The member ends; the votes that its disk keeps, of slots up to that one.
    pub fn votes(&mut self, last: u64) -> Option<Vec<Note>>
        requires always { Unit {0} }
    {
        self.actor.votes(last)
    }

    /// How far it is, as it says.
    pub fn report(&self) -> Report {
        let report = self.actor.report();
        Report {
            chosen: report.chosen.saturating_add(self.guise.more),
            cluster: self.guise.cluster,
            ..report
        }
    }

    /// The member ends.
    pub fn stop(&mut self) -> Result<(), AllocError>
        requires always { Unit {0} }
    {
        self.actor.stop();
        self.lanes = Lanes::new(self.alloc, self.place, self.members)?;
        self.timing.until = 0;
        self.timing.again = None;
        self.guise.more = 0;
        Ok(())
    }

    // A member begins, of which nothing was seen.
    fn begin(&mut self, clock: u64, cluster: u64, is_armed: bool) {
        self.timing.ahead = clock;
        self.guise.life = self.guise.life.saturating_add(1);
        self.guise.cluster = cluster;
        self.guise.is_armed = is_armed;
        self.guise.is_found = false;
        self.seen = Seen::nothing();
        self.second = Second::new(0, false);
    }

    /// A member starts, whose clock shows that; whether it runs.
    pub fn start(
        &mut self,
        clock: u64,
        is_foreign: bool,
        begins: Begins,
    ) -> Result<bool, AllocError>
        requires always { Unit {0} }
    {
        let other = (self.place as u64).saturating_add(OURS).saturating_add(1);
        let cluster = if is_foreign { other } else { OURS };
        self.begin(clock, cluster, begins.disk != Condition::Sound);
        let start = name_of(self.guise.life);
        let begins = Begins {
            cluster,
            start,
            ..begins
        };
        let runs = self.actor.start(begins);
        if runs {
            self.memory.begin(start)?;
        }
        Ok(runs)
    }
}

// What its clock does.
impl<A: Actor> Seat<A> {
    /// What time it is for the member.
    pub fn clock(&self, now: u64) -> u64 {
        now.saturating_add(self.timing.ahead)
    }

    /// It does nothing until then.
    pub fn pause(&mut self, until: u64) {
        self.timing.until = self.timing.until.max(until);
    }

    /// Its clock goes forward by so many milliseconds.
    pub fn jump(&mut self, millis: u64) {
        self.timing.ahead = self.timing.ahead.saturating_add(millis);
    }

    /// How long a pause still is.
    pub fn wait(&self, now: u64) -> u64 {
        self.timing.until.saturating_sub(now)
    }

    /// A pause ends now.
    pub fn go_on(&mut self, now: u64) {
        self.timing.until = self.timing.until.min(now);
    }

    /// Whether a pause has ended since it was asked last.
    pub fn resumes(&mut self, now: u64) -> bool {
        let is_over = self.timing.until > 0 && self.timing.until <= now;
        if is_over {
            self.timing.until = 0;
        }
        is_over
    }

    /// It starts again then.
    pub fn start_at(&mut self, at: u64) {
        self.timing.again = Some(at);
    }

    /// Whether it starts again now.
    pub fn is_due(&self, now: u64) -> bool {
        match self.timing.again {
            Some(at) => at <= now,
            None => false,
        }
    }

    /// It says from now on that so many more slots are chosen than are.
    pub fn lie(&mut self, more: u64) {
        self.guise.more = more;
    }
}

// What happens to it, and what is seen of it.
impl<A: Actor> Seat<A> {
    /// What happens to the member.
    pub fn on(&mut self, input: Input<A::Letter>) -> Result<Answer, AllocError>
        requires always { Unit {0} }
    {
        self.lanes.begin();
        let answer = self.actor.on(input, &mut self.lanes)?;
        self.memory.save(self.actor.standing().saves)?;
        Ok(answer)
    }

    /// What waits to go to the member at that place, if anything, and what it is told with that.
    pub fn take_telling(&mut self, to: usize) -> Option<(Lane<A::Letter>, Told)> {
        let lane = self.lanes.take(to)?;
        Some((lane, self.tell(to)))
    }

    /// A request goes out.
    pub fn count(&mut self, letters: u64, questions: u64, looks: u64) {
        self.second.count(letters, questions, looks);
    }

    /// What it sent in the second that ends.
    pub fn end_second(&mut self, is_down: bool) -> Second {
        let second = self.second;
        self.second = Second::new(self.seen.applied, is_down);
        second
    }

    /// How many slots it had applied when that was looked at last.
    pub fn applied(&self) -> u64 {
        self.seen.applied
    }

    /// The next vote that it saved, if there is one that wasn't looked at.
    pub fn next_note(&mut self) -> Option<Note> {
        let note = self.actor.notes().get(self.seen.notes).copied()?;
        self.seen.notes = self.seen.notes.saturating_add(1);
        Some(note)
    }

    /// How many votes it saved that weren't looked at.
    pub fn new_notes(&self) -> usize {
        self.actor.notes().len().saturating_sub(self.seen.notes)
    }

    /// Notes how many slots it has applied; whether that is news.
    pub fn moves(&mut self, standing: Standing) -> bool {
        let is_news = standing.applied != self.seen.applied && !standing.is_down;
        if is_news {
            self.seen.applied = standing.applied;
        }
        is_news
    }

    /// Notes that the store has failed; whether that is news.
    pub fn falls(&mut self, standing: Standing) -> bool {
        let is_news = standing.is_down && !self.seen.is_down;
        self.seen.is_down |= is_news;
        is_news
    }

    /// Whether it sent for another, to itself, or something twice, since it was asked last.
    pub fn strays(&mut self) -> bool {
        let strays = self.lanes.strays();
        let is_news = strays != self.seen.strays;
        self.seen.strays = strays;
        is_news
    }

    /// For how many milliseconds it has heard itself without an end.
    pub fn note_busy(&mut self, is_busy: bool) -> u64 {
        self.seen.busy = if is_busy {
            self.seen.busy.saturating_add(1)
        } else {
            0
        };
        self.seen.busy
    }
}

// What it and its disk have of starts.
impl<A: Actor> Seat<A> {
    /// What is known of its starts, and of those that it heard.
    pub fn memory(&self) -> &Memory {
        &self.memory
    }

    /// What it tells the member at a place.
    pub fn tell(&mut self, to: usize) -> Told {
        Told {
            recall: self.actor.recall(to),
            cluster: self.guise.cluster,
            mark: self.memory.mark(),
            heard: self.memory.heard_of(to),
        }
    }

    /// The member at a place tells it that; what it hears of it.
    pub fn hear(&mut self, from: usize, told: Told) -> Hearing
        requires always { Unit {0} }
    {
        let hearing = self.actor.hear(from, told.recall);
        if hearing == Hearing::All {
            self.memory.hear(from, told.mark);
        }
        hearing
    }

    /// Another heard that mark of it.
    pub fn be_heard(&mut self, told: Told) -> Result<(), AllocError> {
        self.memory.be_heard(told.mark)
    }

    /// It ends because its disk lacks some of its saves.
    pub fn be_found(&mut self) {
        self.guise.is_found = true;
    }

    /// Whether it has ended for that.
    pub fn is_found(&self) -> bool {
        self.guise.is_found
    }

    /// A copy of its disk is taken. Nobody runs there.
    pub fn keep(&mut self) -> Result<(), AllocError> {
        self.actor.keep();
        self.memory.keep()
    }

    /// Its disk is emptied. Nobody runs there.
    pub fn empty(&mut self) {
        self.actor.empty();
        self.memory.empty();
    }

    /// That copy of its disk is put back. Nobody runs there.
    pub fn put_back(&mut self, copy: usize) -> Result<(), AllocError> {
        self.actor.put_back(copy);
        self.memory.put_back(copy)
    }
}
