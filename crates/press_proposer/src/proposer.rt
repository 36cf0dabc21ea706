//! What a proposer does at each event: at most one save, and the messages that go out after it.

ghost use Rattle.std.specs.Prelude.{◌≡◌, ◌≢◌, ◌<◌, ◌≤◌, ◌^◌, ◌+◌, Err, IfOk, IfErr, IsTrue, OnOk, OnErr, false, length, nat_lt, not, true, if◌then◌else◌};
ghost use Rattle.press_acceptor.specs.Messages as messages;
ghost use Rattle.press_acceptor.specs.Seen.{Calls, Looks, fault_in};
ghost use Rattle.press_acceptor.specs.Seen.Call.{LoadsRound};
ghost use Rattle.press_acceptor.specs.StoreMap.{StoreMap};
ghost use Rattle.press_acceptor.specs.Turned.{Says, store_move};
ghost use Rattle.press_acceptor.specs.declared.fault.StoreFault.TheVariants.{NoMemory};
ghost use Rattle.press_wire.specs.Ranges.{round_of, last_slot, most_members};
ghost use Rattle.press_wire.specs.declared.message.Body.TheVariants.{Accept};
ghost use Rattle.press_proposer.specs.Faults.{store_fault};
ghost use Rattle.press_proposer.specs.Phases.{awaits};
ghost use Rattle.press_proposer.specs.Proposing.{new_proposer, in_phase};
ghost use Rattle.press_proposer.specs.Queues.{is_empty, is_full};
ghost use Rattle.press_proposer.specs.Turns.{queued_by, is_content, is_used_up, next_round, wake_turn, promise_turn, nacked_by, applied_by, accepts_in};
ghost use Rattle.press_proposer.specs.Wakes.{Wakes, wake_calls};

use crate::fault::ProposerFault;
use crate::phase::Phase;
use crate::promises::{Promise, Promises, lacks_one, value_of, value_with};
use crate::queue::Queue;
use press_acceptor::{Heading, PromiseStore, StoreFault, to_all};
use press_apply::{Stamped, Value};
use press_wire::{Ballot, Body, MemberId, Message, Round, Slot, Votes};
use std::alloc::{AllocError, Global};
use std::marker::Model;

/// The proposer of Paxos Made Simple (2.2 to 2.5): it prepares a ballot for the block of the next
/// slot, and with a majority of promises it leads the block, and asks for votes slot by slot.
#[derive(Debug)]
pub struct Proposer {
    id: MemberId,
    members: u8,
    queue: Queue,
    phase: Phase,
    nacked: u64,
    alloc: Global,
}

impl Drop for Proposer {
    fn drop(self) {
        let Proposer {
            id: _,
            members: _,
            queue: _,
            phase: _,
            nacked: _,
            alloc: _,
        } = self;
    }
}

impl Model for Proposer {
    ghost use Rattle.std.specs.Prelude.{◌≤◌};
    ghost use Rattle.press_proposer.specs.Proposing.{ProposerState};
    ghost use Rattle.press_wire.specs.Ranges.{most_members};

    ghost Value = { ProposerState };

    ghost view = { λ p. record {
      id = p.id;
      members = p.members;
      queue = p.queue;
      phase = p.phase;
      nacked = p.nacked;
    } };

    ghost invariant = { λ p. p.members ≤ most_members };
}

impl Proposer {
    /// A new, idle proposer of the node `id` of `members`.
    ///
    /// `last_round` is the last round of the store: no round up to it is used again, whatever the
    /// store answers later.
    pub fn new(alloc: Global, id: MemberId, members: u8, last_round: u64) -> Proposer
        requires { members ≤ most_members }
        ensures { result ≡ new_proposer id members last_round }
    {
        Proposer {
            id,
            members,
            queue: Queue::new(alloc),
            phase: Phase::Idle,
            nacked: last_round,
            alloc,
        }
    }

    /// Whether 256 commands wait, so that no further one is taken.
    pub fn is_full(&self) -> bool
        ensures { result ≡ is_full self.now.queue }
    {
        self.queue.is_full()
    }

    /// Whether a command waits to be chosen.
    pub fn is_waiting(&self) -> bool
        ensures { result ≡ not (is_empty self.now.queue) }
    {
        !self.queue.is_empty()
    }

    /// How many commands wait to be chosen, 256 at most.
    pub fn waiting_count(&self) -> usize
        ensures { result ≡ length self.now.queue }
    {
        self.queue.len()
    }

    /// Whether a wake would want a round, and none is left, where this is the last round of the
    /// store and so many slots have values.
    pub fn is_used_up(&self, last_round: u64, applied: u32, gap: bool) -> bool
        ensures { (store : StoreMap) → store.last_round ≡ last_round →
            result ≡ is_used_up store self.now applied gap }
    {
        !self.is_content(gap)
            && !self.phase.can_ask(applied)
            && round_after(last_round.max(self.nacked)).is_none()
    }

    /// Puts a command at the end of the queue. Full where 256 wait, which is checked before any
    /// memory is taken.
    pub fn submit(&mut self, command: Stamped) -> Result<(), ProposerFault>
        ensures queued { OnOk result (self.new ≡ queued_by self.old command) }
        ensures room { IfOk result (λ _. is_full self.old.queue ≡ false) }
        ensures fault { IfErr result
            (λ fault. fault ≡
            (if is_full self.old.queue then ProposerFault.Full else ProposerFault.Store NoMemory)) }
        ensures unchanged { OnErr result (self.new ≡ self.old) }
    {
        if self.is_full() {
            return Err(ProposerFault::Full);
        }
        self.queue.push(command)?;
        Ok(())
    }

    /// With a queue or a gap it asks for votes for the next slot, where it leads the block and
    /// hasn't yet; else it begins a round: the round is saved, and Prepare for the block goes to
    /// all members. With neither it asks them for their votes. `applied` slots have values; a gap
    /// is a vote for a slot beyond the next one.
    ///
    /// RoundsUsedUp where the round would pass 2^40. A fault leaves the store as it was before or
    /// after the save.
    pub fn wake<S: PromiseStore>(
        &mut self,
        store: &mut S,
        applied: u32,
        gap: bool,
    ) -> Result<Vec<Message>, ProposerFault>
        requires { applied < last_slot }
        ensures kept { self.new ≡ in_phase self.old self.new.phase }
        ensures after { Says (wake_calls self.old applied gap) (λ _. self.new)
            (λ kept. (wake_turn kept self.old applied gap).after)
            (store_move S.seen store.old store.new) result }
        ensures out { Says (wake_calls self.old applied gap) (λ out. out.items)
            (λ kept. (wake_turn kept self.old applied gap).out)
            (store_move S.seen store.old store.new) result }
        ensures unchanged { OnErr result (self.new ≡ self.old) }
        ensures wakes { Wakes self.old applied gap (store_move S.seen store.old store.new)
            (fault_in result) }
    {
        let slot = slot_after(applied);
        if self.is_content(gap) {
            let out = self.to_all(slot, Body::Query)?;
            return Ok(out);
        }
        if self.phase.can_ask(applied) {
            let out = self.ask_as_leader(slot)?;
            self.phase.lead(slot);
            return Ok(out);
        }
        let first = slot.first();
        let round = self.next_round(store)?;
        let out = self.to_all(first, Body::Prepare { round })?;
        store.save_round(round)?;
        let ballot = Ballot {
            round,
            node: self.id,
        };
        self.phase = Phase::Preparing {
            first,
            ballot,
            promises: Promises::new(self.alloc),
        };
        Ok(out)
    }

    /// Takes a member's promise for the block with this first slot. At a majority it leads the
    /// block, and Accept for the next slot goes to all members.
    pub fn on_promise(
        &mut self,
        from: MemberId,
        first: Slot,
        ballot: Ballot,
        votes: Votes,
        applied: u32,
    ) -> Result<Vec<Message>, AllocError>
        requires member { from ≤ self.old.members }
        requires left { applied < last_slot }
        ensures kept { self.new ≡ in_phase self.old self.new.phase }
        ensures after { OnOk result (self.new
            ≡ (promise_turn self.old from first ballot votes applied).after) }
        ensures out { IfOk result (λ out. out.items
            ≡ (promise_turn self.old from first ballot votes applied).out) }
        ensures unchanged { OnErr result (self.new ≡ self.old) }
        ensures memory { OnErr result (IsTrue (awaits self.old.phase from first ballot)) }
    {
        if !self.phase.awaits(from, first, &ballot) {
            return Ok(Vec::new(self.alloc));
        }
        let promise = Promise { from, votes };
        if lacks_one(self.phase.promises(), self.members) {
            let slot = slot_after(applied);
            let promises = self.phase.promises();
            let value = value_with(self.alloc, promises, &promise, slot, &self.queue)?;
            let out = self.accept_messages(slot, &ballot, value)?;
            self.phase.push(promise)?;
            self.phase.lead(slot);
            return Ok(out);
        }
        self.phase.push(promise)?;
        Ok(Vec::new(self.alloc))
    }

    /// Takes a refusal, which reports the ballot that was promised.
    pub fn on_nack(&mut self, slot: Slot, ballot: Ballot, promised: Ballot)
        ensures { self.new ≡ nacked_by self.old slot ballot promised }
    {
        if self.phase.is_current(slot, ballot) {
            self.phase = Phase::Idle;
        }
        self.nacked = self.nacked.max(promised.round.number());
    }

    /// The slot's value was applied: with the last of a block the proposer is idle, and the first
    /// command that is the value leaves the queue.
    pub fn on_applied(&mut self, slot: Slot, value: &Value)
        ensures { self.new ≡ applied_by self.old slot value.now }
    {
        if slot.is_last() {
            self.phase = Phase::Idle;
        }
        self.queue.remove(value);
    }

    // Whether nothing waits, and no vote is kept beyond the next slot.
    fn is_content(&self, gap: bool) -> bool
        ensures { result ≡ is_content self.now gap }
    {
        self.queue.is_empty() && !gap
    }

    // The round after the greatest that was saved or reported.
    fn next_round<S: PromiseStore>(&self, store: &mut S) -> Result<Round, ProposerFault>
        ensures opened { store_fault (fault_in result) ≡ None → (S.seen store.new).is_honest →
            IsTrue (S.seen store.new).is_open }
        ensures calls { Calls LoadsRound (S.seen store.old) (S.seen store.new)
            (store_fault (fault_in result)) }
        ensures looks { (S.seen store.new).is_honest → Looks (S.seen store.old) (S.seen store.new) }
        ensures round { (S.seen store.new).is_honest →
            IfOk result (λ round. round ≡ next_round (S.seen store.old).kept self.now) }
        ensures left { (S.seen store.new).is_honest →
            IfOk result (λ _. nat_lt (2 ^ 40)
            (next_round (S.seen store.old).kept self.now) ≡ false) }
        ensures used_up { (S.seen store.new).is_honest → result ≡ Err ProposerFault.RoundsUsedUp →
            nat_lt (2 ^ 40) (next_round (S.seen store.old).kept self.now) ≡ true }
        ensures fault { IfErr result (λ fault. fault ≢ ProposerFault.Full) }
    {
        let last = store.last_round()?.max(self.nacked);
        let Some(round) = round_after(last) else {
            return Err(ProposerFault::RoundsUsedUp);
        };
        Ok(round)
    }

    // Asks each member for a vote for the slot, in the ballot of the block that it leads.
    fn ask_as_leader(&self, slot: Slot) -> Result<Vec<Message>, AllocError>
        ensures { IfOk result
            (λ out. out.items ≡ accepts_in self.now self.now.phase slot) }
    {
        match &self.phase {
            Phase::Leading {
                ballot,
                promises,
                ..
            } => {
                let value = value_of(self.alloc, promises, slot, &self.queue)?;
                self.accept_messages(slot, ballot, value)
            }
            Phase::Idle | Phase::Preparing { .. } => Ok(Vec::new(self.alloc)),
        }
    }

    // Asks each member for a vote.
    fn accept_messages(
        &self,
        slot: Slot,
        ballot: &Ballot,
        value: Value,
    ) -> Result<Vec<Message>, AllocError>
        ensures { IfOk result
            (λ out. out.items ≡ messages.to_all self.now.members self.now.id slot
            (Accept ballot.now.round value)) }
    {
        let round = ballot.round;
        self.to_all(slot, Body::Accept { round, value })
    }

    // A message to each member.
    fn to_all(&self, slot: Slot, body: Body) -> Result<Vec<Message>, AllocError>
        ensures { IfOk result
            (λ out. out.items ≡ messages.to_all self.now.members self.now.id slot body) }
    {
        let heading = Heading {
            from: self.id,
            slot,
        };
        to_all(self.alloc, self.members, heading, &body)
    }
}

// The slot after this many.
fn slot_after(applied: u32) -> Slot
    requires { applied < last_slot }
    ensures { result ≡ applied + 1 }
{
    let Some(slot) = Slot::new(applied + 1) else {
        unreachable!()
    };
    slot
}

// The round after the last one, if one is left.
fn round_after(last: u64) -> Option<Round>
    ensures { result ≡ round_of (last + 1) }
{
    Round::new(last.checked_add(1)?)
}
