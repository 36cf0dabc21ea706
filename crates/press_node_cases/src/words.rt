use crate::store::Plan;
use crate::word::{Word, number_behind};
use std::alloc::{AllocError, Global};

/// With what the nodes begin.
#[derive(Clone, Copy, PartialEq, Eq)]
pub enum Start<'w> {
    /// An empty kit, and a store that doesn't fail.
    New,
    /// The kit of a file.
    Kit(&'w str),
    /// A store whose save of that number, counted from 1, fails before it took.
    FailsBefore(u32),
    /// A store whose save of that number fails after it took.
    FailsAfter(u32),
    /// No node, but the schedule of a file.
    Replay(&'w str),
    /// The schedule of a file whose second line stands that many times.
    Long(u32, &'w str),
    /// The schedules that a file's lines are with each of some numbers.
    Numbers(&'w str),
    /// What a play file has, over closures that run out of memory.
    Wants(&'w str),
    /// Schedules over the kit of a file, whose closures run out of memory.
    WantsIn(&'w str),
    /// The schedule of a file, over a reader and a writer that fail.
    Fails(&'w str),
}

impl<'w> Start<'w> {
    /// When the stores fail.
    pub fn plan(self) -> Plan {
        match self {
            Start::FailsBefore(number) => Plan::Before(number),
            Start::FailsAfter(number) => Plan::After(number),
            _ => Plan::Never,
        }
    }

    pub fn from_word(word: &'w str) -> Option<Start<'w>> {
        if word == "new" {
            return Some(Start::New);
        }
        if let Some(name) = word.strip_prefix("kit=") {
            return Some(Start::Kit(name));
        }
        if let Some(name) = word.strip_prefix("replay=") {
            return Some(Start::Replay(name));
        }
        if let Some(name) = word.strip_prefix("numbers=") {
            return Some(Start::Numbers(name));
        }
        if let Some(rest) = word.strip_prefix("long=") {
            let (count, name) = rest.split_once(':')?;
            return Some(Start::Long(count.parse().ok()?, name));
        }
        if let Some(name) = word.strip_prefix("wants=") {
            return Some(Start::Wants(name));
        }
        if let Some(name) = word.strip_prefix("wants-in=") {
            return Some(Start::WantsIn(name));
        }
        if let Some(name) = word.strip_prefix("replay-fails=") {
            return Some(Start::Fails(name));
        }
        if let Some(number) = number_behind("fails-before=", word) {
            return Some(Start::FailsBefore(number));
        }
        if let Some(number) = number_behind("fails-after=", word) {
            return Some(Start::FailsAfter(number));
        }
        None
    }
}

/// What is played on new nodes.
#[derive(Drop)]
pub struct Scene<'w> {
    pub start: Start<'w>,
    pub words: Vec<Word<'w>>,
}

impl<'w> Scene<'w> {
    pub fn new(alloc: Global, start: Start<'w>) -> Scene<'w> {
        Scene {
            start,
            words: Vec::new(alloc),
        }
    }

    pub fn push(&mut self, word: &'w str) -> Result<(), AllocError> {
        self.words.push(Word::from_word(word))?;
        Ok(())
    }
}
