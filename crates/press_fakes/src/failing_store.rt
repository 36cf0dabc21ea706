//! A store in memory over a device that may fail, and is shut from then on.

ghost use Rattle.std.specs.Prelude.{◌≡◌, ◌⊎◌, ◌<◌, ◌≤◌, true, false};
ghost use Rattle.press_acceptor.specs.declared.fault.StoreFault.TheVariants.{Damaged, Disk};

use press_acceptor::{Block, MemoryStore, PromiseStore, StoreFault};
use press_wire::{Ballot, Round, Slot, Vote};

/// What happens to a save.
#[derive(Clone, Copy, Debug, PartialEq, Eq)]
pub enum Fate {
    Takes,
    FailsBefore,
    /// It takes, and is told as failed.
    FailsAfter,
}

/// What a store in memory stands on.
pub trait Device: Drop {
    /// What happens to the save that begins.
    fn next_fate(&mut self) -> Fate;

    /// A vote for this slot was saved.
    fn note_vote(&mut self, slot: Slot);
}

/// A store in memory over a device. A save that fails shuts it, and then each call fails.
#[derive(Debug)]
pub struct FailingStore<D> {
    memory: MemoryStore,
    device: D,
    works: bool,
    faults: u64,
}

impl<D: Drop> Drop for FailingStore<D> {
    fn drop(self) {
        let FailingStore {
            memory: _,
            device: _,
            works: _,
            faults: _,
        } = self;
    }
}

impl<D: Device> FailingStore<D> {
    /// Over what the device keeps, none of whose calls has failed.
    pub fn new(memory: MemoryStore, device: D) -> FailingStore<D> {
        FailingStore {
            memory,
            device,
            works: true,
            faults: 0,
        }
    }

    pub fn memory(&self) -> &MemoryStore {
        &self.memory
    }

    /// What is kept, and the device.
    pub fn into_parts(self) -> (MemoryStore, D) {
        let FailingStore {
            memory,
            device,
            works: _,
            faults: _,
        } = self;
        (memory, device)
    }

    /// What is kept, over a device that is shut.
    pub fn shut(self) -> FailingStore<D> {
        let FailingStore {
            memory,
            device,
            works: _,
            faults,
        } = self;
        FailingStore {
            memory,
            device,
            works: false,
            faults,
        }
    }

    // The device fails, and is shut. A failure past the greatest count is reported as damage.
    fn fails(&mut self) -> StoreFault
        ensures memory { self.new.memory ≡ self.old.memory }
        ensures shut { self.new.works ≡ false }
        ensures fault { (result ≡ Disk) ⊎ (result ≡ Damaged) }
        ensures disk { result ≡ Disk → self.old.faults < self.new.faults }
        ensures counts { self.old.faults ≤ self.new.faults }
    {
        self.works = false;
        match self.faults.checked_add(1) {
            Some(faults) => {
                self.faults = faults;
                StoreFault::Disk
            }
            None => StoreFault::Damaged,
        }
    }
}

impl<D: Device> PromiseStore for FailingStore<D> {
    ghost use Rattle.std.specs.Prelude.{◌≡◌, ◌⊎◌, IfSome};
    ghost use Rattle.press_acceptor.specs.declared.fault.StoreFault.TheVariants.{Damaged, Disk, NoMemory};

    ghost seen = { λ s. record {
      is_honest = Unit {0};
      is_open = s.works;
      kept = s.memory;
      may_leave = λ left. left ≡ s.memory;
      faults = s.faults;
      ends = λ call fault. IfSome fault (λ f. (f ≡ Disk) ⊎ (f ≡ Damaged) ⊎ (f ≡ NoMemory));
    } };

    fn faults(&self) -> u64 {
        self.faults
    }

    fn load(&mut self, first: Slot) -> Result<Block, StoreFault> {
        if !self.works {
            return Err(self.fails());
        }
        self.memory.load(first)
    }

    fn save_promise(&mut self, first: Slot, ballot: Ballot) -> Result<(), StoreFault> {
        if !self.works {
            return Err(self.fails());
        }
        match self.device.next_fate() {
            Fate::Takes => self.memory.save_promise(first, ballot),
            Fate::FailsBefore => Err(self.fails()),
            Fate::FailsAfter => {
                self.memory.save_promise(first, ballot)?;
                Err(self.fails())
            }
        }
    }

    fn save_vote(&mut self, slot: Slot, vote: &Vote) -> Result<(), StoreFault> {
        if !self.works {
            return Err(self.fails());
        }
        match self.device.next_fate() {
            Fate::Takes => {
                self.memory.save_vote(slot, vote)?;
                self.device.note_vote(slot);
                Ok(())
            }
            Fate::FailsBefore => Err(self.fails()),
            Fate::FailsAfter => {
                self.memory.save_vote(slot, vote)?;
                self.device.note_vote(slot);
                Err(self.fails())
            }
        }
    }

    fn last_round(&mut self) -> Result<u64, StoreFault> {
        if !self.works {
            return Err(self.fails());
        }
        self.memory.last_round()
    }

    fn save_round(&mut self, round: Round) -> Result<(), StoreFault> {
        if !self.works {
            return Err(self.fails());
        }
        match self.device.next_fate() {
            Fate::Takes => self.memory.save_round(round),
            Fate::FailsBefore => Err(self.fails()),
            Fate::FailsAfter => {
                self.memory.save_round(round)?;
                Err(self.fails())
            }
        }
    }

    ghost use Rattle.std.specs.Prelude.{refl};

    ghost shows = { λ store honest is_open. refl };
}
