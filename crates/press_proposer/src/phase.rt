ghost use Rattle.std.specs.Prelude.{◌≡◌, ◌+◌, OnOk, OnErr};
ghost use Rattle.press_proposer.specs.Phases.{awaits, can_ask, is_current, leading_phase, promises_in, with_promise};

use crate::promises::{Promise, Promises};
use press_wire::{Ballot, MemberId, Slot};
use std::alloc::AllocError;
use std::mem;

/// What a proposer is doing.
#[derive(Debug, Drop)]
pub enum Phase {
    Idle,
    /// It sent Prepare for the block with this first slot, and counts promises.
    Preparing {
        first: Slot,
        ballot: Ballot,
        promises: Promises,
    },
    /// It leads the block, and sent Accept for slots of it up to this one.
    Leading {
        first: Slot,
        ballot: Ballot,
        promises: Promises,
        asked: Slot,
    },
}

impl Phase {
    /// Whether it is about the block of this slot, in this ballot.
    pub fn is_current(&self, slot: Slot, ballot: Ballot) -> bool
        ensures { result ≡ is_current self.now slot ballot }
    {
        match self {
            Phase::Idle => false,
            Phase::Preparing {
                first,
                ballot: b,
                ..
            }
            | Phase::Leading {
                first,
                ballot: b,
                ..
            } => *first == slot.first() && b.is(ballot),
        }
    }

    /// Whether the member's promise for the block is the first for what it prepares.
    pub fn awaits(&self, from: MemberId, first: Slot, ballot: &Ballot) -> bool
        ensures { result ≡ awaits self.now from first ballot.now }
    {
        match self {
            Phase::Idle => false,
            Phase::Leading { .. } => false,
            Phase::Preparing {
                first: f,
                ballot: b,
                promises,
            } => *f == first && b.is(*ballot) && !promises.has(from),
        }
    }

    /// The promises that came so far.
    pub fn promises(&self) -> &[Promise]
        ensures { result.now ≡ promises_in self.now }
    {
        match self {
            Phase::Idle => &[],
            Phase::Leading { .. } => &[],
            Phase::Preparing { promises, .. } => promises.as_slice(),
        }
    }

    /// One promise more, where it counts them.
    pub fn push(&mut self, promise: Promise) -> Result<(), AllocError>
        ensures pushed { OnOk result (self.new ≡ with_promise self.old promise) }
        ensures unchanged { OnErr result (self.new ≡ self.old) }
    {
        match self {
            Phase::Idle => Ok(()),
            Phase::Leading { .. } => Ok(()),
            Phase::Preparing { promises, .. } => promises.push(promise),
        }
    }

    /// Whether it leads, and hasn't yet asked for votes for the slot after so many.
    pub fn can_ask(&self, applied: u32) -> bool
        ensures { result ≡ can_ask self.now (applied + 1) }
    {
        match self {
            Phase::Idle => false,
            Phase::Preparing { .. } => false,
            Phase::Leading { asked, .. } => asked.number() <= applied,
        }
    }

    /// From now on it leads its block, and has asked for votes for the slot.
    pub fn lead(&mut self, slot: Slot)
        ensures { self.new ≡ leading_phase self.old slot }
    {
        match mem::replace(self, Phase::Idle) {
            Phase::Idle => {}
            Phase::Preparing {
                first,
                ballot,
                promises,
            }
            | Phase::Leading {
                first,
                ballot,
                promises,
                ..
            } => {
                *self = Phase::Leading {
                    first,
                    ballot,
                    promises,
                    asked: slot,
                };
            }
        }
    }
}
