//! A store in memory whose disk fails as planned: from one save on nothing is saved or read any
//! more.

use crate::shelf::{Faults, Opened, Opener, Shelf};
use crate::starts::{Register, StartFile};
use press_acceptor::{Block, MemoryStore, PromiseStore, StoreFault};
use press_fakes::{Device, FailingStore, Fate};
use press_simulation::Condition;
use press_starts::Witness;
use press_store::Owner;
use press_wire::{BLOCK_SLOTS, Ballot, Round, Slot, Vote, is_first};
use std::alloc::Global;

// A disk in memory, the last slot with a vote there, and whose it is.
pub struct MemoryDisk {
    memory: MemoryStore,
    starts: StartFile,
    last: u32,
    owner: Option<Owner>,
}

impl Drop for MemoryDisk {
    fn drop(self) {
        let MemoryDisk {
            memory: _,
            starts: _,
            last: _,
            owner: _,
        } = self;
    }
}

// So many blocks behind the last vote may have a promise.
const MORE_BLOCKS: u32 = 4;

// Puts the votes of a block into another store.
fn put_votes(block: &Block, memory: &mut MemoryStore) -> Option<()> {
    for one in block.votes.as_slice() {
        memory.save_vote(one.slot, &one.vote).ok()?;
    }
    Some(())
}

impl MemoryDisk {
    fn into_parts(self) -> (MemoryStore, StartFile, u32) {
        let MemoryDisk {
            memory,
            starts,
            last,
            owner: _,
        } = self;
        (memory, starts, last)
    }

    // Puts what is kept of the block of that number, from 0, into another store.
    fn copy_block(&self, number: u32, memory: &mut MemoryStore) -> Option<()> {
        let first = Slot::new(number.saturating_mul(BLOCK_SLOTS).saturating_add(1))?;
        if !is_first(first) {
            return None;
        }
        let Some(block) = self.memory.block(first) else {
            return Some(());
        };
        put_votes(block, memory)?;
        if let Some(ballot) = block.promised {
            memory.save_promise(first, ballot).ok()?;
        }
        Some(())
    }

    fn copy(&self, alloc: Global) -> Option<MemoryDisk> {
        let mut memory = MemoryStore::new(alloc);
        let count = (self.last / BLOCK_SLOTS).saturating_add(MORE_BLOCKS);
        for number in 0..count {
            self.copy_block(number, &mut memory)?;
        }
        if let Some(round) = Round::new(self.memory.round()) {
            memory.save_round(round).ok()?;
        }
        Some(MemoryDisk {
            memory,
            starts: self.starts.copy(alloc).ok()?,
            last: self.last,
            owner: self.owner,
        })
    }
}

/// The disk of a running member: what it is like now, the last slot with a vote there, and whose it
/// is.
#[derive(Drop)]
pub struct RunningDisk {
    condition: Condition,
    starts: StartFile,
    register: Register,
    last: u32,
    owner: Owner,
}

/// A store in memory over a disk that may fail. Its contract promises nothing of what it keeps,
/// which the cases look at; that of `FailingStore` does. (Whether a type with a type in it that has
/// to be dropped gives what `Shelf` wants, the checker can't say.)
#[derive(Drop)]
pub struct MemoryShelf {
    store: FailingStore<RunningDisk>,
    faults: Faults,
}

impl PromiseStore for MemoryShelf {
    ghost use Rattle.std.specs.Prelude.{false};
    ghost use Rattle.press_acceptor.specs.StoreMap.{new_store};

    ghost seen = { λ s. record {
      is_honest = ⊥;
      is_open = false;
      kept = new_store;
      may_leave = λ left. Unit {0};
      faults = s.faults.number;
      ends = λ call fault. Unit {0};
    } };

    fn faults(&self) -> u64 {
        self.faults.number()
    }

    fn load(&mut self, first: Slot) -> Result<Block, StoreFault> {
        match self.store.load(first) {
            Ok(block) => Ok(block),
            Err(fault) => Err(self.faults.count(fault)),
        }
    }

    fn save_promise(&mut self, first: Slot, ballot: Ballot) -> Result<(), StoreFault> {
        match self.store.save_promise(first, ballot) {
            Ok(()) => Ok(()),
            Err(fault) => Err(self.faults.count(fault)),
        }
    }

    fn save_vote(&mut self, slot: Slot, vote: &Vote) -> Result<(), StoreFault> {
        match self.store.save_vote(slot, vote) {
            Ok(()) => Ok(()),
            Err(fault) => Err(self.faults.count(fault)),
        }
    }

    fn last_round(&mut self) -> Result<u64, StoreFault> {
        match self.store.last_round() {
            Ok(round) => Ok(round),
            Err(fault) => Err(self.faults.count(fault)),
        }
    }

    fn save_round(&mut self, round: Round) -> Result<(), StoreFault> {
        match self.store.save_round(round) {
            Ok(()) => Ok(()),
            Err(fault) => Err(self.faults.count(fault)),
        }
    }

    ghost shows = { λ store honest is_open. absurd honest };
}

// What a disk is like behind a save, and what happens to that. A disk that stops may have taken the
// last one.
fn next(disk: Condition, last: u32) -> (Condition, Fate) {
    match disk {
        Condition::Sound => (Condition::Sound, Fate::Takes),
        Condition::Stops(0) => (Condition::Stops(0), Fate::FailsBefore),
        Condition::Stops(1) if last % 2 == 0 => (Condition::Stops(0), Fate::FailsAfter),
        Condition::Stops(left) => (Condition::Stops(left.saturating_sub(1)), Fate::Takes),
        Condition::Fills(0) => (Condition::Fills(0), Fate::FailsBefore),
        Condition::Fills(left) => (Condition::Fills(left.saturating_sub(1)), Fate::Takes),
    }
}

impl Device for RunningDisk {
    fn next_fate(&mut self) -> Fate {
        let (condition, fate) = next(self.condition, self.last);
        self.condition = condition;
        if fate != Fate::FailsBefore {
            self.starts.save(&self.register);
        }
        fate
    }

    fn note_vote(&mut self, slot: Slot) {
        self.last = self.last.max(slot.number());
    }
}

// A store over a disk on which its start has begun.
fn open_at(
    kept: MemoryDisk,
    condition: Condition,
    owner: Owner,
    known: (Witness, Register),
) -> Result<Opened<MemoryShelf>, MemoryDisk> {
    let (witness, register) = known;
    let Ok(copy) = register.copy() else {
        return Err(kept);
    };
    let (memory, starts, last) = kept.into_parts();
    let running = RunningDisk {
        condition,
        starts,
        register: copy,
        last,
        owner,
    };
    Ok(Opened {
        store: MemoryShelf {
            store: FailingStore::new(memory, running),
            faults: Faults::new(),
        },
        chosen: u64::from(last).saturating_sub(1),
        witness,
        register,
    })
}

impl Shelf for MemoryShelf {
    type Kept = MemoryDisk;

    fn empty(alloc: Global) -> MemoryDisk {
        MemoryDisk {
            memory: MemoryStore::new(alloc),
            starts: StartFile::new(alloc),
            last: 0,
            owner: None,
        }
    }

    fn copy(alloc: Global, kept: &MemoryDisk) -> Option<MemoryDisk> {
        kept.copy(alloc)
    }

    fn open(
        alloc: Global,
        kept: MemoryDisk,
        disk: Condition,
        opener: Opener,
    ) -> Result<Opened<MemoryShelf>, MemoryDisk> {
        let Opener { owner, start } = opener;
        let (condition, fate) = next(disk, kept.last);
        if kept.owner.unwrap_or(owner) != owner || fate == Fate::FailsBefore {
            return Err(kept);
        }
        let mut kept = kept;
        let Ok(register) = Register::new(alloc, kept.starts.ears()) else {
            return Err(kept);
        };
        let Ok(witness) = kept.starts.begin(alloc, start) else {
            return Err(kept);
        };
        if fate == Fate::FailsAfter {
            return Err(kept);
        }
        open_at(kept, condition, owner, (witness, register))
    }

    fn close(self) -> MemoryDisk {
        let MemoryShelf { store, faults: _ } = self;
        let (memory, running) = store.into_parts();
        let RunningDisk {
            condition: _,
            starts,
            register: _,
            last,
            owner,
        } = running;
        MemoryDisk {
            memory,
            starts,
            last,
            owner: Some(owner),
        }
    }
}
