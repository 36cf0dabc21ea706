//! A member, as it is simulated.

use crate::lanes::Lanes;
use crate::note::Note;
use crate::recall::{Hearing, Recall};
use std::alloc::{AllocError, Global};

/// What a member's disk is like as it starts.
#[derive(Clone, Copy, PartialEq, Eq)]
pub enum Condition {
    Sound,
    /// It stops behind so many writes: nothing is written or read any more.
    Stops(u64),
    /// It has room for so many writes, and can be read behind them.
    Fills(u64),
}

/// How a member starts.
#[derive(Clone, Copy)]
pub struct Begins {
    pub disk: Condition,
    /// The place whose number it has: its own, but where its files are given to another.
    pub number: usize,
    /// By which members of one cluster know each other.
    pub cluster: u64,
    /// Milliseconds from one look at the others to the next.
    pub tick: u32,
    /// The name of the start, which is no other's of that member, and not 0.
    pub start: u64,
}

/// How far a member says it is.
#[derive(Clone, Copy, Drop)]
pub struct Report {
    pub applied: u64,
    pub chosen: u64,
    pub cluster: u64,
    /// Of what it has applied, and of that up to the last place where it keeps one.
    pub digest: [u8; 32],
    pub block_digest: [u8; 32],
}

impl Report {
    /// Nobody runs.
    pub fn nobody() -> Report {
        Report {
            applied: 0,
            chosen: 0,
            cluster: 0,
            digest: [0; 32],
            block_digest: [0; 32],
        }
    }
}

/// What happens to a member. Members are named by their places, from 0.
#[derive(Drop)]
pub enum Input<L> {
    Time(u64),
    /// It hears what it sent to itself.
    Sent,
    Letter(L),
    Report {
        from: usize,
        report: Report,
    },
    /// A request that it sent has ended, with so many looks and questions.
    Ended {
        to: usize,
        asked: u32,
        is_taken: bool,
    },
    /// The form of that number.
    Form(u64),
    Page,
}

/// What is said to whoever brought an input.
#[derive(Clone, Copy, PartialEq, Eq)]
pub enum Answer {
    Nothing,
    Taken,
    Refused,
    NotYet,
    Foreign,
    Page,
}

/// What is seen of a member.
#[derive(Clone, Copy)]
pub struct Standing {
    pub is_running: bool,
    /// A fault of its store has stopped it.
    pub is_down: bool,
    /// It was told that its disk lacks some of its saves.
    pub has_forgotten: bool,
    /// It takes forms and shows pages.
    pub is_open: bool,
    /// A form that it took waits.
    pub is_waiting: bool,
    /// It has sent something to itself.
    pub has_more: bool,
    pub applied: u64,
    /// How many slots are chosen, as it says.
    pub chosen: u64,
    /// How often it has saved since it started.
    pub saves: u64,
}

impl Standing {
    /// Nobody runs.
    pub fn nobody() -> Standing {
        Standing {
            is_running: false,
            is_down: false,
            has_forgotten: false,
            is_open: false,
            is_waiting: false,
            has_more: false,
            applied: 0,
            chosen: 0,
            saves: 0,
        }
    }
}

/// A place among members: one that runs there, or what its disk kept.
pub trait Actor: Drop {
    /// What members send each other.
    type Letter: Drop;

    /// The place, from 0, of one of so many members, over an empty disk. Nobody runs there.
    fn new(alloc: Global, place: usize, members: u8) -> Self;

    /// Starts over what the disk kept; whether it runs, which nobody does over another's files.
    fn start(&mut self, begins: Begins) -> bool
        requires always { Unit {0} };

    /// Ends. The disk keeps what was saved.
    fn stop(&mut self)
        requires always { Unit {0} };

    /// What happens to who runs there. What that brings waits in the lanes.
    fn on(
        &mut self,
        input: Input<Self::Letter>,
        out: &mut Lanes<Self::Letter>,
    ) -> Result<Answer, AllocError>
        requires always { Unit {0} };

    /// What goes to the member at a place, with a request or a reply.
    fn recall(&mut self, to: usize) -> Option<Recall>;

    /// The member at a place tells something; what is heard of it.
    fn hear(&mut self, from: usize, recall: Option<Recall>) -> Hearing
        requires always { Unit {0} };

    fn standing(&self) -> Standing;

    /// How far it is, as it says.
    fn report(&self) -> Report;

    /// Whether it answers for the site as well as any.
    fn is_ready(&self) -> bool;

    /// The digest of the page that it shows.
    fn page(&self) -> Option<u64>;

    /// Whether it knows what became of the form of that number.
    fn knows(&self, form: u64) -> bool;

    /// The digest of the form of that number.
    fn value_of(&self, form: u64) -> u64;

    /// The votes that were saved since it started, the oldest first.
    fn notes(&self) -> &[Note];

    /// A copy of the disk is taken, behind the others. Nobody runs there.
    fn keep(&mut self);

    /// The disk is emptied. Nobody runs there.
    fn empty(&mut self);

    /// That copy of the disk, from 0, is put back. Nobody runs there.
    fn put_back(&mut self, copy: usize);

    /// Ends; the votes that the disk keeps, of slots up to that one. None where it can't be read.
    fn votes(&mut self, last: u64) -> Option<Vec<Note>>
        requires always { Unit {0} };

    fn copy(alloc: Global, letter: &Self::Letter) -> Result<Self::Letter, AllocError>;
}
