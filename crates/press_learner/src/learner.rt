//! The votes that a node keeps.

ghost use Rattle.std.specs.Prelude.{◌≡◌, ◌<◌, ◌≤◌, ◌*◌, nat_lt, IsTrue, IsSome, IfSome, OnOk, OnErr, None, option_copied};
ghost use Rattle.press_learner.specs.Chosen.{has_ballot, ballot_count, majority_value, chosen_next, has_gap};
ghost use Rattle.press_learner.specs.InRing.{has_place};
ghost use Rattle.press_learner.specs.Kept.{IsInPlace, IsWindow, KeepsNone, new_learner, vote_at, is_in_window, is_news, kept_with, with_vote, after_next_slot, next_slot};
ghost use Rattle.press_wire.specs.Ranges.{last_slot, most_members};

use crate::ring::{WINDOW, empty_slot, has_other, make_room, put_vote, vote_in};
use press_apply::Value;
use press_wire::{Ballot, MemberId, Slot, Vote};
use std::alloc::{AllocError, Global};
use std::marker::Model;

/// The votes of a cluster's members for the next 64 slots, and how many slots are applied. They are
/// in a ring, with a place for each of these slots and members: the place of an applied slot is
/// used again for the slot 64 after it.
#[derive(Debug)]
pub struct Learner {
    members: u8,
    ring: Vec<Option<Vote>>,
    applied: u32,
    alloc: Global,
}

impl Drop for Learner {
    fn drop(self) {
        let Learner {
            members: _,
            ring: _,
            applied: _,
            alloc: _,
        } = self;
    }
}

impl Model for Learner {
    ghost use Rattle.std.specs.Coded.{codes};
    ghost use Rattle.std.specs.Prelude.{◌≤◌};
    ghost use Rattle.press_learner.specs.Codes.{kept_code};
    ghost use Rattle.press_learner.specs.InRing.{HasRoom, kept_in};
    ghost use Rattle.press_learner.specs.Kept.{KeptVotes, IsWindow};
    ghost use Rattle.press_wire.specs.Ranges.{last_slot, most_members};

    ghost Value = { KeptVotes };

    ghost coded = { kept_code (Prim.hlevel codes) };

    ghost view = { λ a. kept_in a.members a.applied a.ring.items };

    ghost invariant = { λ a. (a.members ≤ most_members) × (a.applied ≤ last_slot)
        × IsWindow (kept_in a.members a.applied a.ring.items)
        × HasRoom a.members a.ring.items };
}

impl Learner {
    /// A learner of a cluster with that many members, which has no votes yet and takes no memory.
    pub fn new(alloc: Global, members: u8) -> Learner
        requires { members ≤ most_members }
        ensures value { result ≡ new_learner members }
        ensures none { chosen_next result ≡ None }
    {
        Learner {
            members,
            ring: Vec::new(alloc),
            applied: 0,
            alloc,
        }
    }

    /// How many slots are applied.
    pub fn applied(&self) -> u64
        ensures value { result ≡ self.now.applied }
        ensures range { result ≤ last_slot }
        ensures window { IsWindow self.now }
    {
        u64::from(self.applied)
    }

    fn is_within(&self, slot: u32) -> bool
        ensures { result ≡ is_in_window self.now.applied slot }
    {
        self.applied < slot && slot <= self.applied + WINDOW
    }

    fn has_place(&self, slot: u32, member: u8) -> bool
        ensures { result ≡ has_place self.now.members self.now.applied slot member }
    {
        self.is_within(slot) && 1 <= member && member <= self.members
    }

    fn vote(&self, slot: u32, member: u8) -> Option<&Vote>
        ensures { option_copied result ≡ vote_at self.now slot member }
    {
        let votes = &self.ring;
        if !self.has_place(slot, member) {
            return None;
        }
        vote_in(votes, slot, member)
    }

    fn has_ballot(&self, slot: u32, member: u8, ballot: Ballot) -> bool
        ensures { result ≡ has_ballot (vote_at self.now slot member) ballot }
    {
        match self.vote(slot, member) {
            Some(vote) => vote.ballot.is(ballot),
            None => false,
        }
    }

    fn count(&self, slot: u32, ballot: Ballot) -> usize
        ensures count { result ≡ ballot_count self.now slot ballot }
        ensures small { result ≤ most_members }
    {
        (1..self.members + 1)
            .filter(|member| self.has_ballot(slot, *member, ballot))
            .count()
    }

    fn is_majority(&self, slot: u32, ballot: Ballot) -> bool
        ensures { result ≡ nat_lt self.now.members (2 * ballot_count self.now slot ballot) }
    {
        usize::from(self.members) < 2 * self.count(slot, ballot)
    }

    fn majority_value(&self, slot: u32, member: u8) -> Option<&Value>
        ensures { option_copied result ≡ majority_value self.now slot
            (vote_at self.now slot member) }
    {
        let vote = self.vote(slot, member)?;
        if self.is_majority(slot, vote.ballot) {
            return Some(&vote.value);
        }
        None
    }

    /// The value that is chosen for the next slot, by the kept votes. None once 1,000,000 slots are
    /// applied.
    pub fn next_chosen(&self) -> Option<&Value>
        ensures value { option_copied result ≡ chosen_next self.now }
        ensures last { IsSome result → self.now.applied < last_slot }
    {
        for i in 0..self.members {
            match self.majority_value(self.applied + 1, i + 1) {
                Some(value) => return Some(value),
                None => {}
            }
        }
        None
    }

    fn is_news(&self, from: u8, slot: u32, ballot: Ballot) -> bool
        ensures { result ≡ is_news (vote_at self.now slot from) ballot }
    {
        match self.vote(slot, from) {
            Some(old) => old.ballot.is_less(ballot),
            None => true,
        }
    }

    fn put(&mut self, from: u8, slot: u32, vote: Vote) -> Result<(), AllocError>
        requires { IsInPlace self.old slot from }
        ensures ok { OnOk result (self.new ≡ kept_with self.old from slot vote) }
        ensures err { OnErr result (self.new ≡ self.old) }
        ensures members { self.new.members ≡ self.old.members }
        ensures memory { OnErr result (KeepsNone self.old) }
    {
        make_room(&mut self.ring, self.alloc, self.members)?;
        put_vote(&mut self.ring, slot, from, vote);
        Ok(())
    }

    /// Takes a vote that came. It is kept if its slot is one of the next 64 and the member has no
    /// kept vote of as great a ballot for it, and else dropped. The first vote that is kept takes
    /// memory, for all that come.
    pub fn on_vote(&mut self, from: MemberId, slot: Slot, vote: Vote) -> Result<(), AllocError>
        requires { from ≤ self.old.members }
        ensures ok { OnOk result (self.new ≡ with_vote self.old from slot vote) }
        ensures err { OnErr result (self.new ≡ self.old) }
        ensures members { self.new.members ≡ self.old.members }
        ensures memory { OnErr result (IsTrue (is_in_window self.old.applied slot)
            × KeepsNone self.old) }
    {
        let (from, slot) = (from.number(), slot.number());
        if self.is_within(slot) && self.is_news(from, slot, vote.ballot) {
            return self.put(from, slot, vote);
        }
        Ok(())
    }

    /// Counts the next slot as applied, and drops the votes for it.
    pub fn advance(&mut self)
        requires { IsSome (chosen_next self.old) }
        ensures { self.new ≡ after_next_slot self.old }
    {
        let slot = self.applied + 1;
        empty_slot(&mut self.ring, slot, self.members);
        self.applied = slot;
    }

    /// Whether a vote is kept for a slot after the next one. False once 999,999 slots are applied.
    pub fn has_gap(&self) -> bool
        ensures value { result ≡ has_gap self.now }
        ensures last { IsTrue result → self.now.applied < 999999 }
    {
        has_other(&self.ring, self.applied + 1)
    }
}
