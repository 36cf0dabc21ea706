//! Votes for slots.

ghost use Rattle.std.specs.Prelude.{◌≡◌, ◌++◌, ◌∷◌, [], ◌==◌, ℕ, cond, Some, IfOk, OnOk, OnErr, option_copied, ◌<◌, IfSome, length, nat_le, position};
ghost use Rattle.press_wire.specs.Copies.{HasVotes};
ghost use Rattle.press_wire.specs.Votes.{cast_again, of_pairs, pairs_of, put, vote_in};

use crate::ballot::Ballot;
use crate::slot::Slot;
use crate::vote::Vote;
use press_text::Copied;
use std::alloc::{AllocError, Global};
use std::marker::Model;

/// A vote for a slot.
#[derive(Debug, Drop)]
pub struct SlotVote {
    pub slot: Slot,
    pub vote: Vote,
}

impl SlotVote {
    fn copy(&self, alloc: Global) -> Result<SlotVote, AllocError>
        ensures { IfOk result (λ v. v ≡ self.now) }
    {
        Ok(SlotVote {
            slot: self.slot,
            vote: self.vote.copy(alloc)?,
        })
    }
}

impl Copied for SlotVote {
    fn copy_in(&self, alloc: Global) -> Result<SlotVote, AllocError> {
        self.copy(alloc)
    }
}

/// Votes for slots, which contracts see as that list.
#[derive(Debug)]
pub struct Votes {
    votes: Vec<SlotVote>,
}

impl Drop for Votes {
    fn drop(self) {
        let Votes { votes: _ } = self;
    }
}

impl Model for Votes {
    ghost use Rattle.std.specs.Prelude.{List};
    ghost use Rattle.press_wire.specs.declared.votes.SlotVote.{SlotVote};

    ghost Value = { List SlotVote };

    ghost view = { λ v. v.votes.items };
}

impl Votes {
    pub fn new(alloc: Global) -> Votes
        ensures { result ≡ [] }
    {
        Votes {
            votes: Vec::new(alloc),
        }
    }

    /// Votes for the slots of these numbers, in this order; None where a number is out of range.
    pub fn from_vec(alloc: Global, pairs: Vec<(u32, Vote)>) -> Result<Option<Votes>, AllocError>
        ensures { IfOk result (λ votes. votes ≡ of_pairs pairs.items) }
    {
        let mut votes = Votes::new(alloc);
        for (number, vote) in pairs {
            let Some(slot) = Slot::new(number) else {
                return Ok(None);
            };
            votes.push(SlotVote { slot, vote })?;
        }
        Ok(Some(votes))
    }

    /// The votes, each with the number of its slot.
    pub fn into_vec(self, alloc: Global) -> Result<Vec<(u32, Vote)>, AllocError>
        ensures { IfOk result (λ pairs. pairs.items ≡ pairs_of self) }
    {
        let Votes { votes } = self;
        let mut pairs = Vec::new(alloc);
        for vote in votes {
            pairs.push((vote.slot.number(), vote.vote))?;
        }
        Ok(pairs)
    }

    pub fn as_slice(&self) -> &[SlotVote]
        ensures { result.now ≡ self.now }
    {
        self.votes.as_slice()
    }

    /// One more, at the end.
    pub fn push(&mut self, vote: SlotVote) -> Result<(), AllocError>
        ensures pushed { OnOk result (self.new ≡ self.old ++ vote ∷ []) }
        ensures unchanged { OnErr result (self.new ≡ self.old) }
    {
        self.votes.push(vote)?;
        Ok(())
    }

    /// The vote for the slot.
    pub fn get(&self, slot: Slot) -> Option<&Vote>
        ensures { option_copied result ≡ vote_in self.now slot }
    {
        for vote in &self.votes {
            if vote.slot == slot {
                return Some(&vote.vote);
            }
        }
        None
    }

    /// The vote for the slot, and none of the others.
    pub fn take(self, slot: Slot) -> Option<Vote>
        ensures { result ≡ vote_in self slot }
    {
        let Votes { votes } = self;
        for vote in votes {
            if vote.slot == slot {
                return Some(vote.vote);
            }
        }
        None
    }

    /// Puts in a vote, before those for later slots; one for the same slot goes.
    pub fn put(&mut self, slot: Slot, vote: Vote) -> Result<(), AllocError>
        ensures put { OnOk result (self.new ≡ put slot vote self.old) }
        ensures unchanged { OnErr result (self.new ≡ self.old) }
    {
        let vote = SlotVote { slot, vote };
        let Some(place) = place_of(&self.votes, slot) else {
            return self.push(vote);
        };
        if self.votes[place].slot == slot {
            self.votes[place] = vote;
            return Ok(());
        }
        self.votes.insert(place, vote)?;
        Ok(())
    }

    /// Casts the vote for the slot, if there is one, in another ballot.
    pub fn cast_again(&mut self, slot: Slot, ballot: Ballot)
        ensures { self.new ≡ cast_again slot ballot self.old }
    {
        if let Some(place) = place_in(&self.votes, slot) {
            self.votes[place].vote.ballot = ballot;
        }
    }

    /// A copy. Of no votes this takes no memory.
    pub fn copy(&self, alloc: Global) -> Result<Votes, AllocError>
        ensures same { IfOk result (λ v. v ≡ self.now) }
        ensures memory { OnErr result (HasVotes self.now) }
    {
        let mut votes = Vec::new(alloc);
        for vote in &self.votes {
            votes.push(vote.copy(alloc)?)?;
        }
        Ok(Votes { votes })
    }
}

// Where the first stands that isn't for an earlier slot.
fn place_of(votes: &[SlotVote], slot: Slot) -> Option<usize>
    ensures place { result ≡ position (λ vote. nat_le slot vote.slot) votes.now }
    ensures within { IfSome result (λ place. place < length votes.now) }
{
    votes.iter().position(|vote| slot <= vote.slot)
}

// Where the vote for the slot stands.
fn place_in(votes: &[SlotVote], slot: Slot) -> Option<usize>
    ensures place { result ≡ position (λ vote. vote.slot == slot) votes.now }
    ensures within { IfSome result (λ place. place < length votes.now) }
{
    votes.iter().position(|vote| vote.slot == slot)
}
