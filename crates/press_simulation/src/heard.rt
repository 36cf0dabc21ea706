//! Whom each member has heard lately, and how far these said they are, as a run sees it.

use std::alloc::{AllocError, Global};

// Who was heard within so many milliseconds may be near.
const LATELY: u64 = 2_001;

// Who told how far it is within so many milliseconds is believed by any member.
const FRESH: u64 = 1_990;

// Room for more members than a cluster has, which are seven at most.
const MEMBER_ROOM: usize = 8;

// How far a member said it is, when, and by how much the clock of who heard it went forward since.
#[derive(Clone, Copy, Drop)]
struct Told {
    at: u64,
    aged: u64,
    chosen: u64,
}

impl Told {
    fn age(&self, now: u64) -> u64 {
        now.saturating_sub(self.at).saturating_add(self.aged)
    }
}

// What one member has heard of another.
#[derive(Clone, Copy, Drop)]
struct Word {
    heard: Option<u64>,
    told: Option<Told>,
}

impl Word {
    fn none() -> Word {
        Word {
            heard: None,
            told: None,
        }
    }

    fn is_near(&self, now: u64) -> bool {
        match self.heard {
            Some(at) => now.saturating_sub(at) <= LATELY,
            None => false,
        }
    }

    fn has_told(&self, now: u64) -> bool {
        match self.told {
            Some(told) => told.age(now) <= LATELY,
            None => false,
        }
    }

    // How many slots are chosen, as it said lately, and before this millisecond, in which it may be
    // heard behind what is looked at.
    fn claim(&self, now: u64) -> Option<u64> {
        match self.told {
            Some(told) if told.at < now && told.age(now) <= FRESH => Some(told.chosen),
            _ => None,
        }
    }

    fn age(&mut self, millis: u64) {
        if let Some(told) = &mut self.told {
            told.aged = told.aged.saturating_add(millis);
        }
    }

    // Whether it said lately that so many are.
    fn says(&self, least: u64, now: u64) -> bool {
        match self.claim(now) {
            Some(chosen) => least <= chosen,
            None => false,
        }
    }
}

// What one member has heard of all.
#[derive(Drop)]
struct Ear {
    words: Vec<Word>,
    is_open: bool,
    // Whether a majority has once told it how far it is.
    is_known: bool,
}

impl Ear {
    fn new(alloc: Global, is_known: bool) -> Result<Ear, AllocError> {
        let mut words = Vec::new(alloc);
        for _ in 0..MEMBER_ROOM {
            words.push(Word::none())?;
        }
        Ok(Ear {
            words,
            is_open: false,
            is_known,
        })
    }

    fn forget(&mut self, is_known: bool) {
        for word in self.words.iter_mut() {
            *word = Word::none();
        }
        self.is_open = false;
        self.is_known = is_known;
    }

    fn age(&mut self, millis: u64) {
        for word in self.words.iter_mut() {
            word.age(millis);
        }
    }

    fn hear(&mut self, other: usize, now: u64) {
        if let Some(word) = self.words.get_mut(other) {
            word.heard = Some(now);
        }
    }

    fn note(&mut self, other: usize, chosen: u64, now: u64) {
        if let Some(word) = self.words.get_mut(other) {
            word.told = Some(Told {
                at: now,
                aged: 0,
                chosen,
            });
        }
    }

    fn lose(&mut self, other: usize) {
        if let Some(word) = self.words.get_mut(other) {
            *word = Word::none();
        }
    }

    fn count_near(&self, now: u64) -> usize {
        let mut count: usize = 0;
        for word in self.words.iter() {
            count = count.saturating_add(usize::from(word.is_near(now)));
        }
        count
    }

    fn count_told(&self, now: u64) -> usize {
        let mut count: usize = 0;
        for word in self.words.iter() {
            count = count.saturating_add(usize::from(word.has_told(now)));
        }
        count
    }

    fn count_saying(&self, least: u64, now: u64) -> usize {
        let mut count: usize = 0;
        for word in self.words.iter() {
            count = count.saturating_add(usize::from(word.says(least, now)));
        }
        count
    }

    // The most slots of which so many others say lately that they are chosen.
    fn said_by(&self, others: usize, now: u64) -> u64 {
        let mut most: u64 = 0;
        for word in self.words.iter() {
            let claim = word.claim(now).unwrap_or(0);
            if self.count_saying(claim, now) >= others {
                most = most.max(claim);
            }
        }
        most
    }
}

/// Whom each has heard, and who has told it how far it is.
#[derive(Drop)]
pub struct Heard {
    members: usize,
    ears: Vec<Ear>,
}

impl Heard {
    /// Nobody has heard anybody.
    pub fn new(alloc: Global, members: usize) -> Result<Heard, AllocError> {
        let mut ears = Vec::new(alloc);
        for _ in 0..members {
            ears.push(Ear::new(alloc, members <= 1)?)?;
        }
        Ok(Heard { members, ears })
    }

    /// A member hears another.
    pub fn hear(&mut self, member: usize, other: usize, now: u64) {
        if let Some(ear) = self.ears.get_mut(member) {
            ear.hear(other, now);
        }
    }

    /// Another tells a member how far it is.
    pub fn be_told(&mut self, member: usize, other: usize, chosen: u64, now: u64) {
        let most = self.members / 2;
        if let Some(ear) = self.ears.get_mut(member) {
            ear.hear(other, now);
            ear.note(other, chosen, now);
            ear.is_known |= ear.count_told(now) >= most;
        }
    }

    /// Another turns out to be of another cluster: what a member heard of it before counts no more.
    pub fn lose(&mut self, member: usize, other: usize) {
        if let Some(ear) = self.ears.get_mut(member) {
            ear.lose(other);
        }
    }

    /// A member starts anew.
    pub fn forget(&mut self, member: usize) {
        let is_known = self.members <= 1;
        if let Some(ear) = self.ears.get_mut(member) {
            ear.forget(is_known);
        }
    }

    /// For a member it is so many milliseconds later.
    pub fn age(&mut self, member: usize, millis: u64) {
        if let Some(ear) = self.ears.get_mut(member) {
            ear.age(millis);
        }
    }

    /// Whether a member that is open, or isn't, has opened since it was asked last.
    pub fn opens(&mut self, member: usize, is_open: bool) -> bool {
        match self.ears.get_mut(member) {
            Some(ear) => {
                let is_news = is_open && !ear.is_open;
                ear.is_open = is_open;
                is_news
            }
            None => false,
        }
    }

    /// Whether a member may have heard a majority lately, itself among it.
    pub fn has_majority(&self, member: usize, now: u64) -> bool {
        match self.ears.get(member) {
            Some(ear) => ear.count_near(now) >= self.members / 2,
            None => false,
        }
    }

    /// Whether a majority may once have told it how far it is.
    pub fn is_told(&self, member: usize) -> bool {
        match self.ears.get(member) {
            Some(ear) => ear.is_known,
            None => false,
        }
    }

    /// So many slots are chosen at least, by what a majority of members has told this one lately,
    /// which says itself that so many are.
    pub fn borne_out(&self, member: usize, own: u64, now: u64) -> u64 {
        let half = self.members / 2;
        match self.ears.get(member) {
            Some(ear) => {
                let with_own = ear.said_by(half, now).min(own);
                with_own.max(ear.said_by(half.saturating_add(1), now))
            }
            None => 0,
        }
    }
}
