//! What a member's turns change, and what each deed of a turn does to it.

ghost use Rattle.std.specs.Prelude.{◌≡◌, ℕ, IsTrue, is_ok};
ghost use Rattle.press_acceptor.specs.Trace.{IsMember};
ghost use Rattle.press_node.specs.Nodes.{kit_of, node_move};
ghost use Rattle.press_node.specs.Plays.{messages_of_result};
ghost use Rattle.press_node.specs.Faults.{stop_of};
ghost use Rattle.press_member.specs.Deeds.{later_stop};
ghost use Rattle.press_member.specs.Turns.{AreQuestions, HearsAll, IsDeed, MayWake, Turned};
ghost use Rattle.press_member.specs.Played.{SaysRefused, moment_of, refusal_in};
ghost use Rattle.press_member.specs.Acts.{taken_answer};

use crate::letters::put_all;
use crate::output::Answer;
use crate::pace::Pace;
use crate::signs::is_query;
use press_acceptor::{PromiseStore, StoreFault};
use press_node::{Event, Node, NodeFault};
use press_wire::{Body, MemberId, Message, Slot};
use std::alloc::{AllocError, Global};
use std::collections::VecDeque;

// The most messages that it hears of itself in one turn.
const MOST_OWN: u32 = 1_000;

/// A node, why it has stopped if it has, what it has sent to itself and not heard yet, the oldest
/// first, and its pace.
pub struct Player<S> {
    pub alloc: Global,
    pub id: MemberId,
    pub node: Node<S>,
    pub stopped_by: Option<StoreFault>,
    pub own: VecDeque<Message>,
    pub pace: Pace,
}

impl<S: Drop> Drop for Player<S> {
    fn drop(self) {
        let Player {
            alloc: _,
            id: _,
            node: _,
            stopped_by: _,
            own: _,
            pace: _,
        } = self;
    }
}

/// What became of an event.
#[derive(Clone, Copy)]
pub enum Played {
    Refused(NodeFault),
    /// It was done; whether it queries members for their votes.
    Done { queries: bool },
}

impl<S> Player<S> {
    /// Ends it, and returns its node.
    pub fn into_node(self) -> Node<S>
        ensures { result ≡ self.node }
    {
        let Player {
            alloc: _,
            id: _,
            node,
            stopped_by: _,
            own: _,
            pace: _,
        } = self;
        node
    }
}

impl Played {
    // Whether the node proposes something.
    fn proposes(self) -> bool {
        matches!(self, Played::Done { queries: false })
    }

    /// Whether it was done.
    pub fn is_done(self) -> bool {
        matches!(self, Played::Done { .. })
    }

    /// What is said of it.
    pub fn answer(self) -> Answer
        ensures { result ≡ taken_answer (refusal_in self) }
    {
        match self {
            Played::Refused(fault) => Answer::Refused(fault),
            Played::Done { .. } => Answer::Taken,
        }
    }
}

// Plays an event.
fn play_event<S: PromiseStore>(node: &mut Node<S>, event: Event) -> Result<Vec<Message>, NodeFault>
    requires always { Unit {0} }
    ensures kit { kit_of node.new ≡ kit_of node.old }
    ensures plays { (node_move S.seen node.old node.new).plays event
        (messages_of_result (λ v. v.items) result) }
{
    match node.on(event) {
        Ok(out) => Ok(out),
        Err(fault) => Err(fault),
    }
}

// What stopped a node last, behind an event that ended with this fault.
fn stop_behind(stop: Option<StoreFault>, fault: NodeFault) -> Option<StoreFault>
    ensures { result ≡ later_stop stop (stop_of fault) }
{
    match fault.stop() {
        Some(by) => Some(by),
        None => stop,
    }
}

impl<S: PromiseStore> Player<S> {
    /// Plays an event, and puts what it sends where it goes.
    pub fn play(&mut self, event: Event, out: &mut Vec<Message>) -> Result<Played, AllocError>
        requires always { Unit {0} }
        ensures id { self.new.id ≡ self.old.id }
        ensures kit { kit_of self.new.node ≡ kit_of self.old.node }
        ensures deed { IsDeed (λ a b. node_move S.seen a b) self.old.id event
            (SaysRefused result) (IsTrue (is_ok result)) (moment_of self.old)
            (moment_of self.new) out.old.items out.new.items }
    {
        match play_event(&mut self.node, event) {
            Err(fault) => {
                self.stopped_by = stop_behind(self.stopped_by, fault);
                Ok(Played::Refused(fault))
            }
            Ok(sent) => {
                let queries = sent.iter().any(is_query);
                self.pace.note_all(&sent, self.id);
                put_all(self.id, sent, &mut self.own, out)?;
                Ok(Played::Done { queries })
            }
        }
    }

    /// Wakes the node.
    pub fn wake(&mut self, out: &mut Vec<Message>) -> Result<(), AllocError>
        requires always { Unit {0} }
        ensures id { self.new.id ≡ self.old.id }
        ensures kit { kit_of self.new.node ≡ kit_of self.old.node }
        ensures turned { (n : ℕ) → Turned (λ a b. node_move S.seen a b) n self.old.id MayWake
            (IsTrue (is_ok result)) (moment_of self.old) (moment_of self.new) out.old.items
            out.new.items }
    {
        let is_filling = !self.node.is_waiting();
        let played = self.play(Event::Wake, out)?;
        self.pace.note_wake(is_filling, played.proposes());
        Ok(())
    }

    /// Tells the pace what is applied, and wakes the node where that is due at once: who leads goes
    /// on without a timer.
    pub fn follow(&mut self, out: &mut Vec<Message>) -> Result<(), AllocError>
        requires always { Unit {0} }
        ensures id { self.new.id ≡ self.old.id }
        ensures kit { kit_of self.new.node ≡ kit_of self.old.node }
        ensures turned { (n : ℕ) → Turned (λ a b. node_move S.seen a b) n self.old.id MayWake
            (IsTrue (is_ok result)) (moment_of self.old) (moment_of self.new) out.old.items
            out.new.items }
    {
        let applied = self.node.applied();
        let waits = self.node.is_waiting();
        self.pace.note_applied(applied, waits);
        if !self.pace.is_due() {
            return Ok(());
        }
        self.wake(out)
    }

    /// Delivers what it has sent to itself, the oldest first, until nothing waits, or up to a
    /// limit.
    pub fn hear_own(&mut self, out: &mut Vec<Message>) -> Result<(), AllocError>
        requires always { Unit {0} }
        ensures id { self.new.id ≡ self.old.id }
        ensures kit { kit_of self.new.node ≡ kit_of self.old.node }
        ensures turned { (n : ℕ) → Turned (λ a b. node_move S.seen a b) n self.old.id
            (HearsAll self.old.id (IsTrue (is_ok result)) self.old.own.items)
            (IsTrue (is_ok result)) (moment_of self.old) (moment_of self.new) out.old.items
            out.new.items }
    {
        for count in 0..MOST_OWN {
            match self.own.pop_front() {
                None => return Ok(()),
                Some(message) => {
                    self.play(Event::Deliver(message), out)?;
                }
            }
        }
        Ok(())
    }

    /// Asks a member for its vote for a slot.
    fn ask(&mut self, to: MemberId, slot: Slot, out: &mut Vec<Message>) -> Result<(), AllocError>
        ensures node { self.new.node ≡ self.old.node }
        ensures id { self.new.id ≡ self.old.id }
        ensures turned { (n : ℕ) → IsMember n to → Turned (λ a b. node_move S.seen a b) n
            self.old.id AreQuestions (IsTrue (is_ok result)) (moment_of self.old)
            (moment_of self.new) out.old.items out.new.items }
    {
        let from = self.id;
        let body = Body::Query;
        let mut sent = Vec::new(self.alloc);
        sent.push(Message {
            from,
            to,
            slot,
            body,
        })?;
        put_all(from, sent, &mut self.own, out)
    }

    // Asks a member for its vote for the slot of a number, if it is one.
    fn ask_for(
        &mut self,
        to: MemberId,
        number: u64,
        out: &mut Vec<Message>,
    ) -> Result<(), AllocError>
        ensures node { self.new.node ≡ self.old.node }
        ensures id { self.new.id ≡ self.old.id }
        ensures turned { (n : ℕ) → IsMember n to → Turned (λ a b. node_move S.seen a b) n
            self.old.id AreQuestions (IsTrue (is_ok result)) (moment_of self.old)
            (moment_of self.new) out.old.items out.new.items }
    {
        let number = u32::try_from(number).unwrap_or(u32::MAX);
        match Slot::new(number) {
            None => Ok(()),
            Some(slot) => self.ask(to, slot, out),
        }
    }

    /// Asks a member for its votes for the slots from one to before another.
    pub fn ask_from(
        &mut self,
        to: MemberId,
        next: u64,
        end: u64,
        out: &mut Vec<Message>,
    ) -> Result<(), AllocError>
        ensures node { self.new.node ≡ self.old.node }
        ensures id { self.new.id ≡ self.old.id }
        ensures turned { (n : ℕ) → IsMember n to → Turned (λ a b. node_move S.seen a b) n
            self.old.id AreQuestions (IsTrue (is_ok result)) (moment_of self.old)
            (moment_of self.new) out.old.items out.new.items }
    {
        for number in next..end {
            self.ask_for(to, number, out)?;
        }
        Ok(())
    }
}
