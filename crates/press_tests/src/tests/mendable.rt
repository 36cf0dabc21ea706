//! A store in memory whose device can be shut.

use press_acceptor::MemoryStore;
use press_fakes::{Device, FailingStore, Fate};
use press_wire::Slot;
use std::alloc::Global;

/// A device none of whose saves fails by itself.
#[derive(Drop)]
pub struct Sound;

impl Device for Sound {
    fn next_fate(&mut self) -> Fate {
        Fate::Takes
    }

    fn note_vote(&mut self, _slot: Slot) {}
}

pub type Mendable = FailingStore<Sound>;

/// A store of which nothing is kept.
pub fn new_store(alloc: Global) -> Mendable {
    FailingStore::new(MemoryStore::new(alloc), Sound)
}

/// What is kept, over a device that works.
pub fn mend(store: Mendable) -> Mendable {
    let (memory, device) = store.into_parts();
    FailingStore::new(memory, device)
}
