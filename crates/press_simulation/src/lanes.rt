//! What waits at a member to go out, by who it is for.

use std::alloc::{AllocError, Global};
use std::mem;

/// What is seen of a letter from one member to another.
#[derive(Clone, Copy)]
pub struct Envelope {
    pub from: usize,
    pub to: usize,
    /// What it is known by.
    pub mark: u64,
    /// Whether it asks for a vote.
    pub is_question: bool,
}

// What waits for one member.
pub struct Lane<L> {
    pub letters: Vec<L>,
    pub looks: u32,
    pub questions: u32,
    // Of which input the last letter is, and what it is known by.
    input: u64,
    mark: u64,
}

impl<L: Drop> Drop for Lane<L> {
    fn drop(self) {
        let Lane {
            letters: _,
            looks: _,
            questions: _,
            input: _,
            mark: _,
        } = self;
    }
}

impl<L: Drop> Lane<L> {
    fn new(alloc: Global) -> Lane<L> {
        Lane {
            letters: Vec::new(alloc),
            looks: 0,
            questions: 0,
            input: 0,
            mark: 0,
        }
    }

    // Whether the same input has just brought the same letter.
    fn has_just(&self, input: u64, mark: u64) -> bool {
        self.input == input && self.mark == mark
    }

    fn put(&mut self, input: u64, envelope: Envelope, letter: L) -> Result<(), AllocError> {
        self.input = input;
        self.mark = envelope.mark;
        self.questions = self
            .questions
            .saturating_add(u32::from(envelope.is_question));
        self.letters.push(letter)?;
        Ok(())
    }

    fn is_empty(&self) -> bool {
        self.letters.is_empty() && self.looks == 0
    }

    /// What waits, and how many looks and questions are in it.
    pub fn into_parts(self) -> (Vec<L>, u32, u32) {
        let Lane {
            letters,
            looks,
            questions,
            input: _,
            mark: _,
        } = self;
        (letters, looks, questions)
    }
}

/// What waits to go to each member.
pub struct Lanes<L> {
    alloc: Global,
    own: usize,
    all: Vec<Lane<L>>,
    // How many inputs came.
    input: u64,
    strays: u64,
}

impl<L: Drop> Drop for Lanes<L> {
    fn drop(self) {
        let Lanes {
            alloc: _,
            own: _,
            all: _,
            input: _,
            strays: _,
        } = self;
    }
}

impl<L: Drop> Lanes<L> {
    /// Nothing waits at the member of that place, of so many.
    pub fn new(alloc: Global, own: usize, members: u8) -> Result<Lanes<L>, AllocError> {
        let mut all = Vec::new(alloc);
        for _ in 0..members {
            all.push(Lane::new(alloc))?;
        }
        Ok(Lanes {
            alloc,
            own,
            all,
            input: 0,
            strays: 0,
        })
    }

    /// Another input comes.
    pub fn begin(&mut self) {
        self.input = self.input.saturating_add(1);
    }

    fn has_just(&self, envelope: Envelope) -> bool {
        match self.all.get(envelope.to) {
            Some(lane) => lane.has_just(self.input, envelope.mark),
            None => true,
        }
    }

    /// A letter waits to go out. It has to be this member's, to another, and another letter than
    /// the one before.
    pub fn put(&mut self, envelope: Envelope, letter: L) -> Result<(), AllocError> {
        let is_own = envelope.from == self.own && envelope.to != self.own;
        if !is_own || self.has_just(envelope) {
            self.strays = self.strays.saturating_add(1);
        }
        match self.all.get_mut(envelope.to) {
            Some(lane) => lane.put(self.input, envelope, letter),
            None => Ok(()),
        }
    }

    /// A member is asked how far it is.
    pub fn look(&mut self, to: usize) {
        if let Some(lane) = self.all.get_mut(to) {
            lane.looks = lane.looks.saturating_add(1);
        }
    }

    /// What waits to go to a member, if anything.
    pub fn take(&mut self, to: usize) -> Option<Lane<L>> {
        let alloc = self.alloc;
        match self.all.get_mut(to) {
            Some(lane) if !lane.is_empty() => Some(mem::replace(lane, Lane::new(alloc))),
            _ => None,
        }
    }

    /// How many letters were another's, for itself, or twice the same.
    pub fn strays(&self) -> u64 {
        self.strays
    }
}
