//! A store whose votes are noted as they are saved.

ghost use Rattle.std.specs.Prelude.{◌≡◌};

use crate::forms::digest_of_value;
use crate::shelf::Shelf;
use press_acceptor::{Block, PromiseStore, StoreFault};
use press_simulation::Note;
use press_wire::{BLOCK_SLOTS, Ballot, Round, Slot, Vote, is_first};
use std::alloc::Global;

const BLOCK: u64 = BLOCK_SLOTS as u64;

// What is noted of a vote for a slot.
fn note_of(alloc: Global, slot: Slot, vote: &Vote) -> Note {
    Note {
        slot: slot.number(),
        round: vote.ballot.round.number(),
        node: vote.ballot.node.number(),
        value: digest_of_value(alloc, &vote.value),
    }
}

/// A store, and the votes that it saved.
pub struct Watched<S> {
    inner: S,
    alloc: Global,
    notes: Vec<Note>,
    // How often it has saved.
    saves: u64,
    // The last vote whose save failed: the disk may have it.
    perhaps: Option<Note>,
}

impl<S: Drop> Drop for Watched<S> {
    fn drop(self) {
        let Watched {
            inner: _,
            alloc: _,
            notes: _,
            saves: _,
            perhaps: _,
        } = self;
    }
}

/// What a member that ended leaves.
pub struct Left<K> {
    pub kept: K,
    pub perhaps: Option<Note>,
}

impl<K: Drop> Drop for Left<K> {
    fn drop(self) {
        let Left {
            kept: _,
            perhaps: _,
        } = self;
    }
}

impl<K> Left<K> {
    /// What the disk kept, and the vote that it may have.
    pub fn into_parts(self) -> (K, Option<Note>) {
        let Left { kept, perhaps } = self;
        (kept, perhaps)
    }
}

impl<S: Shelf> Watched<S> {
    /// A store that has saved nothing yet.
    pub fn new(alloc: Global, inner: S) -> Watched<S> {
        Watched {
            inner,
            alloc,
            notes: Vec::new(alloc),
            saves: 0,
            perhaps: None,
        }
    }

    /// What it leaves if its member ends now.
    pub fn close(self) -> Left<S::Kept> {
        let Watched {
            inner,
            alloc: _,
            notes: _,
            saves: _,
            perhaps,
        } = self;
        Left {
            kept: inner.close(),
            perhaps,
        }
    }

    // The block of a slot, as the disk has it.
    fn block(&mut self, slot: Slot) -> Option<Block> {
        let first = slot.first();
        if !is_first(first) {
            return None;
        }
        self.inner.load(first).ok()
    }

    // The vote for a slot, as the disk has it.
    fn vote(&mut self, slot: Slot) -> Option<Note> {
        let block = self.block(slot)?;
        let vote = block.votes.get(slot)?;
        Some(note_of(self.alloc, slot, vote))
    }

    // Puts the votes of a slot's block behind those.
    fn add_votes(&mut self, slot: Slot, votes: &mut Vec<Note>) -> Option<()> {
        let block = self.block(slot)?;
        for one in block.votes.as_slice() {
            let note = note_of(self.alloc, one.slot, &one.vote);
            votes.push(note).ok()?;
        }
        Some(())
    }

    /// The votes that the disk has, of blocks up to that of a slot. None where it can't be read.
    pub fn votes(&mut self, last: u64) -> Option<Vec<Note>> {
        let mut votes = Vec::new(self.alloc);
        for block in 0..last.div_ceil(BLOCK) {
            let number = u32::try_from(block.saturating_mul(BLOCK).saturating_add(1)).ok()?;
            let slot = Slot::new(number)?;
            self.add_votes(slot, &mut votes)?;
        }
        Some(votes)
    }

    /// Notes the vote if the disk has it.
    pub fn look_for(&mut self, perhaps: Note) {
        let Some(slot) = Slot::new(perhaps.slot) else {
            return;
        };
        if let Some(note) = self.vote(slot) {
            if note.is(&perhaps) {
                let _ = self.notes.push(note);
            }
        }
    }
}

impl<S> Watched<S> {
    /// The votes that were saved, the oldest first.
    pub fn notes(&self) -> &[Note] {
        self.notes.as_slice()
    }

    /// How often it has saved.
    pub fn saves(&self) -> u64 {
        self.saves
    }

    fn count(&mut self, saved: Result<(), StoreFault>) -> Result<(), StoreFault>
        ensures result { result ≡ saved }
        ensures inner { self.new.inner ≡ self.old.inner }
    {
        self.saves = self.saves.saturating_add(u64::from(saved.is_ok()));
        saved
    }
}

impl<S: PromiseStore> PromiseStore for Watched<S> {
    ghost seen = { λ s. S.seen s.inner };

    fn faults(&self) -> u64 {
        self.inner.faults()
    }

    fn load(&mut self, first: Slot) -> Result<Block, StoreFault> {
        self.inner.load(first)
    }

    fn save_promise(&mut self, first: Slot, ballot: Ballot) -> Result<(), StoreFault> {
        let saved = self.inner.save_promise(first, ballot);
        self.count(saved)
    }

    fn save_vote(&mut self, slot: Slot, vote: &Vote) -> Result<(), StoreFault> {
        let note = note_of(self.alloc, slot, vote);
        let saved = self.inner.save_vote(slot, vote);
        if saved.is_ok() {
            let _ = self.notes.push(note);
        } else {
            self.perhaps = Some(note);
        }
        self.count(saved)
    }

    fn last_round(&mut self) -> Result<u64, StoreFault> {
        self.inner.last_round()
    }

    fn save_round(&mut self, round: Round) -> Result<(), StoreFault> {
        let saved = self.inner.save_round(round);
        self.count(saved)
    }

    ghost shows = { λ store. S.shows store.inner };
}
