//! A store in memory whose device fails once, if that is planned.

ghost use Rattle.std.specs.Prelude.{◌≡◌, true};
ghost use Rattle.press_wire.specs.Blocks.{is_first};

use press_acceptor::{MemoryStore, PromiseStore, StoreFault};
use press_fakes::{Device, FailingStore, Fate};
use press_wire::{Round, Slot, is_first};
use std::alloc::Global;

/// When the device fails: at the save of that number, counted from 1, before or after it took.
#[derive(Clone, Copy, Debug, PartialEq, Eq)]
pub enum Plan {
    Never,
    Before(u32),
    After(u32),
}

/// A device that fails as planned.
#[derive(Debug, Drop)]
pub struct Planned {
    plan: Plan,
    saves: u32,
}

impl Device for Planned {
    fn next_fate(&mut self) -> Fate {
        self.saves = self.saves.saturating_add(1);
        match self.plan {
            Plan::Before(number) if number == self.saves => Fate::FailsBefore,
            Plan::After(number) if number == self.saves => Fate::FailsAfter,
            Plan::Never | Plan::Before(_) | Plan::After(_) => Fate::Takes,
        }
    }

    fn note_vote(&mut self, _slot: Slot) {}
}

pub type Failing = FailingStore<Planned>;

/// What is kept, over a device that fails by this plan.
pub fn store_over(memory: MemoryStore, plan: Plan) -> Failing {
    FailingStore::new(memory, Planned { plan, saves: 0 })
}

/// What is kept, over a device that doesn't fail.
pub fn mend(store: Failing) -> Failing {
    let (memory, _) = store.into_parts();
    store_over(memory, Plan::Never)
}

// Saves in one store what another keeps of the block with this first slot.
fn copy_block(to: &mut MemoryStore, from: &MemoryStore, first: Slot) -> Result<(), StoreFault>
    requires { is_first first ≡ true }
{
    let Some(block) = from.block(first) else {
        return Ok(());
    };
    for vote in block.votes.as_slice() {
        to.save_vote(vote.slot, &vote.vote)?;
    }
    match block.promised {
        Some(ballot) => to.save_promise(first, ballot),
        None => Ok(()),
    }
}

/// A store that keeps what this one does, up to the block of this slot, over a device that doesn't
/// fail.
pub fn copy_to(alloc: Global, store: &Failing, last: u32) -> Result<Failing, StoreFault> {
    let kept = store.memory();
    let mut memory = MemoryStore::new(alloc);
    if let Some(round) = Round::new(kept.round()) {
        memory.save_round(round)?;
    }
    for number in 1..=last {
        match Slot::new(number) {
            Some(first) if is_first(first) => copy_block(&mut memory, kept, first)?,
            _ => {}
        }
    }
    Ok(store_over(memory, Plan::Never))
}
