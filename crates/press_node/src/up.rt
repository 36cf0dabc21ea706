//! What a running node has in memory, and what each event does to it.

ghost use Rattle.std.specs.Prelude.{◌≡◌, ◌⊎◌, ◌≤◌, ◌+◌, ◌<◌, length, IsTrue, IsSome, IfOk, IfErr, IfSome, OnOk, OnErr, None, Some, true, false, Err, MatchResult};
ghost use Rattle.press_callbacks.specs.Kits.{kit_view};
ghost use Rattle.press_acceptor.specs.Answers.{acceptor_answer};
ghost use Rattle.press_acceptor.specs.Plans.{answer_calls, answer_plan};
ghost use Rattle.press_acceptor.specs.StoreMap.{StoreMap};
ghost use Rattle.press_acceptor.specs.Turned.{Says, Turned, store_move};
ghost use Rattle.press_acceptor.specs.declared.fault.StoreFault.{StoreFault};
ghost use Rattle.press_learner.specs.Chosen.{chosen_next, has_gap};
ghost use Rattle.press_learner.specs.Kept.{with_vote};
ghost use Rattle.press_proposer.specs.Turns.{queued_by, nacked_by};
ghost use Rattle.press_site.specs.Effects.{no_site};
ghost use Rattle.press_node.specs.EventPlans.{TakesForPromise, TakesForVote, body_plan};
ghost use Rattle.press_node.specs.Faults.{of_store, stops};
ghost use Rattle.press_node.specs.NodeEvent.{fresh, is_for, on_body, promise_answer, with_all_applied, with_learner};
ghost use Rattle.press_node.specs.Plays.{Plays, PlaysBy, PlaysUp, messages_of_result};
ghost use Rattle.press_node.specs.Refusals.{is_at_end, refusal, refusal_up};
ghost use Rattle.press_node.specs.Views.{Applies, IsBeside, IsUpAt, IsUpFolded, running_of, up_move};
ghost use Rattle.press_wire.specs.Ranges.{last_slot, most_members};

use crate::event::Event;
use crate::fault::NodeFault;
use crate::fixed::Fixed;
use press_acceptor::{Acceptor, PromiseStore};
use press_apply::{Stamped, Value, apply};
use press_callbacks::Kit;
use press_learner::{Learner, WINDOW, none_is_chosen_after_64};
use press_proposer::Proposer;
use press_site::Site;
use press_wire::{
    Ballot, Body, LAST_SLOT, MemberId, Message, Slot, Vote, Votes, is_command_too_long,
};
use std::alloc::Global;

pub(crate) struct Up {
    pub(crate) proposer: Proposer,
    pub(crate) learner: Learner,
    pub(crate) values: Vec<Value>,
    pub(crate) site: Site,
}

impl Drop for Up {
    fn drop(self) {
        let Up {
            proposer: _,
            learner: _,
            values: _,
            site: _,
        } = self;
    }
}

// The slot after this many.
fn slot_behind(applied: u64) -> Slot
    requires { applied < last_slot }
    ensures { result ≡ applied + 1 }
{
    let Some(slot) = Slot::new(applied as u32 + 1) else {
        unreachable!()
    };
    slot
}

// What the acceptor answers to a request or a query.
fn answer_of_acceptor<S: PromiseStore>(
    fixed: &Fixed<'_>,
    store: &mut S,
    message: &Message,
) -> Result<Vec<Message>, NodeFault>
    requires { fixed.now.members ≤ most_members }
    ensures out { Says (answer_calls message.now.slot message.now.body) (λ out. out.items)
        (λ kept. (acceptor_answer fixed.now.members fixed.now.id kept message.now).out)
        (store_move S.seen store.old store.new) result }
    ensures turned { MatchResult result
        (λ _. Turned (answer_plan fixed.now.members fixed.now.id message.now)
        (store_move S.seen store.old store.new) None)
        (λ fault. (by : StoreFault) × (fault ≡ of_store by) ×
        Turned (answer_plan fixed.now.members fixed.now.id message.now)
        (store_move S.seen store.old store.new) (Some by)) }
{
    match Acceptor::answer(fixed.alloc, store, fixed.members, fixed.id, message) {
        Ok(out) => Ok(out),
        Err(fault) => Err(NodeFault::of_store(fault)),
    }
}

// Whether the message is for this node and from a member.
fn is_for(members: u8, id: MemberId, message: &Message) -> bool
    ensures { result ≡ is_for members id message.now }
{
    message.to == id && message.from.number() <= members
}

impl Up {
    pub(crate) fn new(alloc: Global, id: MemberId, members: u8, last_round: u64) -> Up
        requires { members ≤ most_members }
        ensures running { running_of result ≡ fresh members id last_round }
        ensures none { chosen_next result.learner ≡ None }
        ensures site { result.site ≡ no_site }
    {
        Up {
            proposer: Proposer::new(alloc, id, members, last_round),
            learner: Learner::new(alloc, members),
            values: Vec::new(alloc),
            site: Site::new(alloc),
        }
    }

    // Applies the next slot's value, if one is chosen; returns whether one was.
    fn apply_next(&mut self, alloc: Global, kit: &Kit) -> Result<bool, NodeFault>
        requires count { self.old.learner.applied ≡ length self.old.values.items }
        ensures id { self.new.proposer.id ≡ self.old.proposer.id }
        ensures members { self.new.proposer.members ≡ self.old.proposer.members }
        ensures learner_members { self.new.learner.members ≡ self.old.learner.members }
        ensures count { OnOk result (self.new.learner.applied ≡ length self.new.values.items) }
        ensures stops { IfErr result (λ fault. stops fault ≡ true) }
        ensures memory { IfErr result
            (λ fault. (fault ≡ NodeFault.NoMemory) × IsSome (chosen_next self.old.learner)) }
        ensures applies { IfOk result (λ more. Applies (kit_view kit.now) self.old more self.new) }
    {
        let value = match self.learner.next_chosen() {
            None => return Ok(false),
            Some(value) => match value.copy(alloc) {
                Ok(value) => value,
                Err(_) => return Err(NodeFault::NoMemory),
            },
        };
        match apply(alloc, &mut self.site, kit, &value) {
            Ok(_) => {}
            Err(_) => {
                drop(value);
                return Err(NodeFault::NoMemory);
            }
        }
        let slot = slot_behind(self.learner.applied());
        self.proposer.on_applied(slot, &value);
        match self.values.push(value) {
            Ok(()) => {}
            Err(_) => return Err(NodeFault::NoMemory),
        }
        self.learner.advance();
        Ok(true)
    }

    // Applies chosen values as long as the next slot has one.
    fn settle(&mut self, alloc: Global, kit: &Kit) -> Result<(), NodeFault>
        requires count { self.old.learner.applied ≡ length self.old.values.items }
        ensures none { OnOk result (chosen_next self.new.learner ≡ None) }
        ensures id { self.new.proposer.id ≡ self.old.proposer.id }
        ensures members { self.new.proposer.members ≡ self.old.proposer.members }
        ensures learner_members { self.new.learner.members ≡ self.old.learner.members }
        ensures count { OnOk result (self.new.learner.applied ≡ length self.new.values.items) }
        ensures stops { IfErr result (λ fault. stops fault ≡ true) }
        ensures memory { IfErr result
            (λ fault. (fault ≡ NodeFault.NoMemory) × IsSome (chosen_next self.old.learner)) }
        ensures settled { OnOk result
            (running_of self.new ≡ with_all_applied (running_of self.old)) }
        ensures folded { OnOk result
            (IsUpFolded (kit_view kit.now) self.old → IsUpFolded (kit_view kit.now) self.new) }
    {
        none_is_chosen_after_64();
        // Its contract says that each kept vote is in the window.
        let _ = self.learner.applied();
        for i in 0..WINDOW {
            match self.apply_next(alloc, kit) {
                Ok(true) => {}
                Ok(false) => return Ok(()),
                Err(fault) => return Err(fault),
            }
        }
        Ok(())
    }

    fn on_vote(
        &mut self,
        fixed: &Fixed<'_>,
        from: MemberId,
        slot: Slot,
        vote: Vote,
    ) -> Result<(), NodeFault>
        requires count { self.old.learner.applied ≡ length self.old.values.items }
        requires member { from ≤ self.old.learner.members }
        ensures none { OnOk result (chosen_next self.new.learner ≡ None) }
        ensures id { self.new.proposer.id ≡ self.old.proposer.id }
        ensures members { self.new.proposer.members ≡ self.old.proposer.members }
        ensures learner_members { self.new.learner.members ≡ self.old.learner.members }
        ensures count { OnOk result (self.new.learner.applied ≡ length self.new.values.items) }
        ensures stops { IfErr result (λ fault. stops fault ≡ true) }
        ensures memory { IfErr result
            (λ fault. (fault ≡ NodeFault.NoMemory) × TakesForVote self.old.learner from slot vote) }
        ensures voted { OnOk result
            (running_of self.new ≡ with_all_applied
            (with_learner (running_of self.old) (with_vote self.old.learner from slot vote))) }
        ensures folded { OnOk result
            (IsUpFolded (kit_view fixed.now.kit.now) self.old
            → IsUpFolded (kit_view fixed.now.kit.now) self.new) }
    {
        match self.learner.on_vote(from, slot, vote) {
            Ok(()) => self.settle(fixed.alloc, fixed.kit),
            Err(_) => Err(NodeFault::NoMemory),
        }
    }

    /// Why a command is refused, if it is.
    pub(crate) fn refusal_of_command(&self, command: &Stamped) -> Option<NodeFault>
        ensures { result ≡ refusal_up (running_of self.now) (Event.Submit command.now) }
    {
        if is_command_too_long(command) {
            return Some(NodeFault::TooLong);
        }
        if self.proposer.is_full() {
            return Some(NodeFault::Full);
        }
        None
    }

    fn submit(&mut self, alloc: Global, command: Stamped) -> Result<(), NodeFault>
        ensures rest { IsBeside self.old self.new }
        ensures queued { OnOk result (self.new.proposer ≡ queued_by self.old.proposer command) }
        ensures refused { IfSome (refusal_up (running_of self.old) (Event.Submit command))
            (λ fault. result ≡ Err fault) }
        ensures fault { IfErr result
            (λ fault. stops fault ≡ false →
            refusal_up (running_of self.old) (Event.Submit command) ≡ Some fault) }
        ensures passes { OnOk result (refusal_up (running_of self.old) (Event.Submit command)
            ≡ None) }
        ensures memory { IfErr result (λ fault. stops fault ≡ true → fault ≡ NodeFault.NoMemory) }
        ensures err { OnErr result (self.new ≡ self.old) }
    {
        if let Some(fault) = self.refusal_of_command(&command) {
            drop(command);
            return Err(fault);
        }
        match self.proposer.submit(command) {
            Ok(()) => Ok(()),
            Err(fault) => Err(NodeFault::of_proposer(fault)),
        }
    }

    // Whether every slot has its value.
    #[tactic(auto, unfolding(crate::specs::Refusals::is_at_end))]
    fn is_at_end(&self) -> bool
        ensures value { result ≡ is_at_end (running_of self.now) }
        ensures more { result ≡ false → self.now.learner.applied < last_slot }
    {
        self.learner.applied() >= LAST_SLOT as u64
    }

    /// Why a wake is refused, if it is, where this is the last round of the store.
    pub(crate) fn refusal_of_wake(&self, last_round: u64) -> Option<NodeFault>
        ensures { (store : StoreMap) → store.last_round ≡ last_round →
            result ≡ refusal store (Some (running_of self.now)) Event.Wake }
    {
        if self.is_at_end() {
            return Some(NodeFault::SlotsUsedUp);
        }
        let (applied, gap) = (self.learner.applied() as u32, self.learner.has_gap());
        if self.proposer.is_used_up(last_round, applied, gap) {
            return Some(NodeFault::RoundsUsedUp);
        }
        None
    }

    fn wake<S: PromiseStore>(
        &mut self,
        store: &mut S,
        id: MemberId,
        members: u8,
    ) -> Result<Vec<Message>, NodeFault>
        ensures rest { IsBeside self.old self.new }
        ensures plays { Plays (store_move S.seen store.old store.new)
            (up_move id members self.old self.new) Event.Wake
            (messages_of_result (λ out. out.items) result) }
    {
        if self.is_at_end() {
            return Err(NodeFault::SlotsUsedUp);
        }
        let (applied, gap) = (self.learner.applied(), self.learner.has_gap());
        match self.proposer.wake(store, applied as u32, gap) {
            Ok(out) => Ok(out),
            Err(fault) => Err(NodeFault::of_proposer(fault)),
        }
    }

    fn promise(
        &mut self,
        alloc: Global,
        from: MemberId,
        first: Slot,
        ballot: Ballot,
        votes: Votes,
    ) -> Result<Vec<Message>, NodeFault>
        requires { from ≤ self.old.proposer.members }
        ensures rest { IsBeside self.old self.new }
        ensures out { IfOk result (λ out. out.items
            ≡ (promise_answer (running_of self.old) from first ballot votes).out) }
        ensures after { OnOk result (running_of self.new ≡
            (promise_answer (running_of self.old) from first ballot votes).after) }
        ensures stops { IfErr result (λ fault. stops fault ≡ true) }
        ensures memory { IfErr result
            (λ fault. (fault ≡ NodeFault.NoMemory) ×
            TakesForPromise (running_of self.old) from first ballot) }
    {
        if self.is_at_end() {
            drop(votes);
            return Ok(Vec::new(alloc));
        }
        let applied = self.learner.applied() as u32;
        match self
            .proposer
            .on_promise(from, first, ballot, votes, applied)
        {
            Ok(out) => Ok(out),
            Err(_) => Err(NodeFault::NoMemory),
        }
    }

    fn nack(&mut self, slot: Slot, refused: Ballot, promised: Ballot)
        ensures rest { IsBeside self.old self.new }
        ensures after { self.new.proposer ≡ nacked_by self.old.proposer slot refused promised }
    {
        self.proposer.on_nack(slot, refused, promised);
    }

    // Takes a message for this node from a member.
    fn on_body<S: PromiseStore>(
        &mut self,
        fixed: &Fixed<'_>,
        store: &mut S,
        message: Message,
    ) -> Result<Vec<Message>, NodeFault>
        requires up { IsUpAt fixed.now.id fixed.now.members self.old }
        requires member { message.from ≤ fixed.now.members }
        ensures up { OnOk result (IsUpAt fixed.now.id fixed.now.members self.new) }
        ensures folded { OnOk result
            (IsUpFolded (kit_view fixed.now.kit.now) self.old
            → IsUpFolded (kit_view fixed.now.kit.now) self.new) }
        ensures plays { PlaysBy
            (body_plan fixed.now.members fixed.now.id (running_of self.old) message message.body)
            (λ kept. on_body fixed.now.members fixed.now.id kept (running_of self.old) message
            message.body)
            ⊥ (λ _. None) (store_move S.seen store.old store.new)
            (up_move fixed.now.id fixed.now.members self.old self.new)
            (messages_of_result (λ out. out.items) result) }
    {
        let Message {
            from,
            to,
            slot,
            body,
        } = message;
        match body {
            Body::Promise { ballot, votes } => {
                self.promise(fixed.alloc, from, slot, ballot, votes)
            }
            Body::Nack { refused, promised } => {
                self.nack(slot, refused, promised);
                Ok(Vec::new(fixed.alloc))
            }
            Body::Accepted { vote } => match self.on_vote(fixed, from, slot, vote) {
                Ok(()) => Ok(Vec::new(fixed.alloc)),
                Err(fault) => Err(fault),
            },
            body @ (Body::Prepare { .. } | Body::Accept { .. } | Body::Query) => {
                let request = Message {
                    from,
                    to,
                    slot,
                    body,
                };
                let answer = answer_of_acceptor(fixed, store, &request);
                drop(request);
                answer
            }
        }
    }

    // Takes a message, which is ignored if it is for another node or not from a member.
    fn on_message<S: PromiseStore>(
        &mut self,
        fixed: &Fixed<'_>,
        store: &mut S,
        message: Message,
    ) -> Result<Vec<Message>, NodeFault>
        requires { IsUpAt fixed.now.id fixed.now.members self.old }
        ensures up { OnOk result (IsUpAt fixed.now.id fixed.now.members self.new) }
        ensures folded { OnOk result
            (IsUpFolded (kit_view fixed.now.kit.now) self.old
            → IsUpFolded (kit_view fixed.now.kit.now) self.new) }
        ensures plays { Plays (store_move S.seen store.old store.new)
            (up_move fixed.now.id fixed.now.members self.old self.new) (Event.Deliver message)
            (messages_of_result (λ out. out.items) result) }
    {
        if !is_for(fixed.members, fixed.id, &message) {
            drop(message);
            return Ok(Vec::new(fixed.alloc));
        }
        self.on_body(fixed, store, message)
    }

    /// Plays an event. After a fault that stops the node nothing is said of what is in memory.
    pub(crate) fn on<S: PromiseStore>(
        &mut self,
        fixed: &Fixed<'_>,
        store: &mut S,
        event: Event,
    ) -> Result<Vec<Message>, NodeFault>
        requires { IsUpAt fixed.now.id fixed.now.members self.old }
        ensures up { IfOk result (λ _. IsUpAt fixed.now.id fixed.now.members self.new) }
        ensures unchanged { IfErr result (λ fault. stops fault ≡ false → self.new ≡ self.old) }
        ensures folded { OnOk result
            (IsUpFolded (kit_view fixed.now.kit.now) self.old
            → IsUpFolded (kit_view fixed.now.kit.now) self.new) }
        ensures plays { Plays (store_move S.seen store.old store.new)
            (up_move fixed.now.id fixed.now.members self.old self.new) event
            (messages_of_result (λ out. out.items) result) }
    {
        match event {
            Event::Submit(command) => match self.submit(fixed.alloc, command) {
                Ok(()) => Ok(Vec::new(fixed.alloc)),
                Err(fault) => Err(fault),
            },
            Event::Wake => self.wake(store, fixed.id, fixed.members),
            Event::Deliver(message) => self.on_message(fixed, store, message),
        }
    }
}
