//! Stores that members stand on, and what their disks keep when a member ends.

ghost use Rattle.std.specs.Prelude.{◌≡◌, ◌<◌, ◌≤◌};
ghost use Rattle.press_acceptor.specs.declared.fault.StoreFault.TheVariants.{Disk};

use crate::starts::Register;
use press_acceptor::{PromiseStore, StoreFault};
use press_simulation::Condition;
use press_starts::Witness;
use press_store::Owner;
use std::alloc::Global;

/// Who opens a store: the member that it is of, and the name of its start.
#[derive(Clone, Copy)]
pub struct Opener {
    pub owner: Owner,
    pub start: u64,
}

/// A store that was opened.
pub struct Opened<S> {
    pub store: S,
    /// How many slots are chosen by its votes.
    pub chosen: u64,
    /// What its disk has of starts.
    pub witness: Witness,
    pub register: Register,
}

impl<S> Opened<S> {
    /// The store, with how many slots are chosen, and what is known of starts.
    pub fn into_parts(self) -> (S, u64, Witness, Register) {
        let Opened {
            store,
            chosen,
            witness,
            register,
        } = self;
        (store, chosen, witness, register)
    }
}

impl<S: Drop> Drop for Opened<S> {
    fn drop(self) {
        let Opened {
            store: _,
            chosen: _,
            witness: _,
            register: _,
        } = self;
    }
}

/// How often the calls of a store have failed.
#[derive(Clone, Copy)]
pub struct Faults {
    number: u64,
}

impl Faults {
    /// None has.
    pub fn new() -> Faults {
        Faults { number: 0 }
    }

    pub fn number(&self) -> u64
        ensures { result ≡ self.now.number }
    {
        self.number
    }

    /// One more has. A failure past the greatest count is told as damage.
    pub fn count(&mut self, fault: StoreFault) -> StoreFault
        ensures disk { result ≡ Disk → self.old.number < self.new.number }
        ensures counts { self.old.number ≤ self.new.number }
    {
        if fault != StoreFault::Disk {
            return fault;
        }
        match self.number.checked_add(1) {
            Some(number) => {
                self.number = number;
                fault
            }
            None => StoreFault::Damaged,
        }
    }
}

/// A store that is opened over what a disk kept, and leaves that again.
pub trait Shelf: PromiseStore + Drop {
    type Kept: Drop;

    /// An empty disk.
    fn empty(alloc: Global) -> Self::Kept;

    /// A copy of a disk. None without memory.
    fn copy(alloc: Global, kept: &Self::Kept) -> Option<Self::Kept>;

    /// The store of a member over a disk of that condition; the disk, where it can't be opened, is
    /// another's, or has no room for a start.
    fn open(
        alloc: Global,
        kept: Self::Kept,
        disk: Condition,
        opener: Opener,
    ) -> Result<Opened<Self>, Self::Kept>;

    /// What the disk keeps, if the member ends now.
    fn close(self) -> Self::Kept;
}
