//! A store in memory.

ghost use Rattle.std.specs.Prelude.{◌≡◌, ◌≢◌, true, false, None, Some, MatchBool, IfNone, IfSome, IsSome, OnOk, OnErr, IfOk};
ghost use Rattle.press_wire.specs.Blocks.{is_first, block_of};
ghost use Rattle.press_wire.specs.Copies.{HasVotes};
ghost use Rattle.press_wire.specs.Votes.{cast_again, put, vote_in};
ghost use Rattle.press_acceptor.specs.InMemory.{IsNewBlock, IsNewValue, value_of};
ghost use Rattle.press_acceptor.specs.StoreMap.{block_at, block_votes, new_block, new_store, with_promise, with_vote};

use crate::block::Block;
use crate::fault::StoreFault;
use crate::store::PromiseStore;
use press_apply::{Value, same_values_are_equal};
use press_wire::{Ballot, Round, Slot, Vote};
use std::alloc::{AllocError, Global};
use std::collections::BTreeMap;
use std::marker::Model;

// A block in a store.
#[derive(Debug)]
struct Kept {
    block: Block,
}

impl Drop for Kept {
    fn drop(self) {
        let Kept { block: _ } = self;
    }
}

impl Model for Kept {
    ghost use Rattle.press_acceptor.specs.declared.block.Block.{Block};

    ghost Value = { Block };

    ghost view = { λ k. k.block };
}

impl Kept {
    fn as_block(&self) -> &Block
        ensures { result.now ≡ self.now }
    {
        &self.block
    }

    fn has_value(&self, slot: Slot, value: &Value) -> bool
        ensures { MatchBool result (value_of (vote_in self.now.votes slot) ≡ Some value.now)
            (value_of (vote_in self.now.votes slot) ≢ Some value.now) }
    {
        same_values_are_equal();
        match self.block.votes.get(slot) {
            Some(vote) => vote.value.is(value),
            None => false,
        }
    }

    fn promise(&mut self, ballot: Ballot)
        ensures { self.new ≡ record { promised = Some ballot; votes = self.old.votes } }
    {
        self.block.promised = Some(ballot);
    }

    // Casts the vote for the slot again, where it is for the same value; says whether it is. It
    // takes no memory.
    fn cast_again(&mut self, slot: Slot, vote: &Vote) -> bool
        ensures same { result ≡ true → self.new ≡ record {
          promised = Some vote.now.ballot;
          votes = cast_again slot vote.now.ballot self.old.votes;
        } }
        ensures left { result ≡ false → self.new ≡ self.old }
        ensures value { MatchBool result
            (value_of (vote_in self.old.votes slot) ≡ Some vote.now.value)
            (value_of (vote_in self.old.votes slot) ≢ Some vote.now.value) }
    {
        if !self.has_value(slot, &vote.value) {
            return false;
        }
        self.block.votes.cast_again(slot, vote.ballot);
        self.block.promised = Some(vote.ballot);
        true
    }

    // Puts in a vote, which is a promise too.
    fn put(&mut self, slot: Slot, vote: Vote) -> Result<(), AllocError>
        ensures put { OnOk result (self.new ≡ record {
          promised = Some vote.ballot;
          votes = put slot vote self.old.votes;
        }) }
        ensures unchanged { OnErr result (self.new ≡ self.old) }
    {
        let ballot = vote.ballot;
        self.block.votes.put(slot, vote)?;
        self.block.promised = Some(ballot);
        Ok(())
    }
}

/// A store in memory. Its device never fails, and nothing is lost but by dropping it. To save
/// another promise for a block, the same value in another ballot, or a round takes no memory.
#[derive(Debug)]
pub struct MemoryStore {
    blocks: BTreeMap<u32, Kept>,
    last_round: u64,
    alloc: Global,
}

impl Drop for MemoryStore {
    fn drop(self) {
        let MemoryStore {
            blocks: _,
            last_round: _,
            alloc: _,
        } = self;
    }
}

impl Model for MemoryStore {
    ghost use Rattle.std.specs.Coded.{codes};
    ghost use Rattle.press_acceptor.specs.Codes.{store_code};
    ghost use Rattle.press_acceptor.specs.InMemory.{AreBlocks, store_of};
    ghost use Rattle.press_acceptor.specs.StoreMap.{StoreMap};

    ghost Value = { StoreMap };

    ghost coded = { store_code (Prim.hlevel codes) (Prim.hlevel codes) };

    ghost view = { λ s. store_of s.blocks.entries s.last_round };

    ghost invariant = { λ s. AreBlocks s.blocks.entries };
}

impl MemoryStore {
    /// An empty store.
    pub fn new(alloc: Global) -> MemoryStore
        ensures { result ≡ new_store }
    {
        MemoryStore {
            blocks: BTreeMap::new(alloc),
            last_round: 0,
            alloc,
        }
    }

    /// What is kept of the block with this first slot, if anything was saved.
    pub fn block(&self, first: Slot) -> Option<&Block>
        requires { is_first first ≡ true }
        ensures is { IfSome result (λ block. block.now ≡ block_at self.now first) }
        ensures saved { IfSome result (λ block. IsSome block.now.promised) }
        ensures none { IfNone result (block_at self.now first ≡ new_block) }
    {
        match self.blocks.get(&first.number()) {
            Some(kept) => Some(kept.as_block()),
            None => None,
        }
    }

    /// The round that was saved last, or 0.
    pub fn round(&self) -> u64
        ensures { result ≡ self.now.last_round }
    {
        self.last_round
    }

    // A copy of what is kept of the block.
    fn copy_of(&self, first: Slot) -> Result<Block, AllocError>
        requires { is_first first ≡ true }
        ensures block { IfOk result (λ block. block ≡ block_at self.now first) }
        ensures memory { OnErr result (HasVotes (block_votes self.now first)) }
    {
        match self.block(first) {
            Some(block) => block.copy(self.alloc),
            None => Ok(Block::new(self.alloc)),
        }
    }

    // Puts a promise in the place of another for the block; says whether there is one. It takes no
    // memory.
    fn promise_again(&mut self, first: Slot, ballot: &Ballot) -> bool
        requires { is_first first ≡ true }
        ensures same { result ≡ true → self.new ≡ with_promise self.old first ballot.now }
        ensures left { result ≡ false → self.new ≡ self.old }
        ensures none { result ≡ false → block_at self.old first ≡ new_block }
    {
        let Some(kept) = self.blocks.get_mut(&first.number()) else {
            return false;
        };
        kept.promise(*ballot);
        true
    }

    // Casts the vote for the slot again, where it is for the same value; says whether it is. It
    // takes no memory.
    fn cast_again(&mut self, slot: Slot, vote: &Vote) -> bool
        ensures same { result ≡ true → self.new ≡ with_vote self.old slot vote.now }
        ensures left { result ≡ false → self.new ≡ self.old }
        ensures other { result ≡ false → IsNewValue self.old slot vote.now.value }
    {
        let first = slot.first();
        let Some(kept) = self.blocks.get_mut(&first.number()) else {
            return false;
        };
        kept.cast_again(slot, vote)
    }

    // Puts a vote among those of its block.
    fn put(&mut self, slot: Slot, vote: Vote) -> Result<(), AllocError>
        ensures put { OnOk result (self.new ≡ with_vote self.old slot vote) }
        ensures unchanged { OnErr result (self.new ≡ self.old) }
    {
        let first = slot.first();
        let Some(kept) = self.blocks.get_mut(&first.number()) else {
            return self.begin(slot, vote);
        };
        kept.put(slot, vote)?;
        Ok(())
    }

    // Puts in a vote for a slot of a block of which nothing is kept.
    fn begin(&mut self, slot: Slot, vote: Vote) -> Result<(), AllocError>
        requires { block_at self.old (block_of slot) ≡ new_block }
        ensures put { OnOk result (self.new ≡ with_vote self.old slot vote) }
        ensures unchanged { OnErr result (self.new ≡ self.old) }
    {
        let first = slot.first();
        let mut kept = Kept {
            block: Block::new(self.alloc),
        };
        kept.put(slot, vote)?;
        self.blocks.insert(first.number(), kept)?;
        Ok(())
    }
}

impl PromiseStore for MemoryStore {
    ghost use Rattle.press_acceptor.specs.InMemory.{seen_of};
    ghost use Rattle.press_acceptor.specs.Seen.{Calls, Saves, fault_in};
    ghost use Rattle.press_acceptor.specs.Seen.Call.{SavesPromise, SavesVote};

    ghost seen = { seen_of };

    fn faults(&self) -> u64 {
        0
    }

    fn load(&mut self, first: Slot) -> Result<Block, StoreFault> {
        Ok(self.copy_of(first)?)
    }

    fn save_promise(&mut self, first: Slot, ballot: Ballot) -> Result<(), StoreFault>
        requires { is_first first ≡ true }
        ensures calls { Calls (SavesPromise first) (seen_of self.old) (seen_of self.new)
            (fault_in result) }
        ensures saves { (seen_of self.new).is_honest →
            Saves (seen_of self.old) (seen_of self.new)
            (with_promise (seen_of self.old).kept first ballot) (fault_in result) }
        ensures memory { OnErr result (IsNewBlock self.old first) }
    {
        if self.promise_again(first, &ballot) {
            return Ok(());
        }
        let mut kept = Kept {
            block: Block::new(self.alloc),
        };
        kept.promise(ballot);
        self.blocks.insert(first.number(), kept)?;
        Ok(())
    }

    fn save_vote(&mut self, slot: Slot, vote: &Vote) -> Result<(), StoreFault>
        ensures calls { Calls (SavesVote slot) (seen_of self.old) (seen_of self.new)
            (fault_in result) }
        ensures saves { (seen_of self.new).is_honest →
            Saves (seen_of self.old) (seen_of self.new)
            (with_vote (seen_of self.old).kept slot vote.now) (fault_in result) }
        ensures memory { OnErr result (IsNewValue self.old slot vote.now.value) }
    {
        if self.cast_again(slot, vote) {
            return Ok(());
        }
        let vote = vote.copy(self.alloc)?;
        self.put(slot, vote)?;
        Ok(())
    }

    fn last_round(&mut self) -> Result<u64, StoreFault> {
        Ok(self.last_round)
    }

    fn save_round(&mut self, round: Round) -> Result<(), StoreFault> {
        self.last_round = round.number();
        Ok(())
    }

    ghost use Rattle.std.specs.Prelude.{refl};

    ghost shows = { λ store honest is_open. refl };
}
