//! A node, from its start to its end.

ghost use Rattle.std.specs.Prelude.{◌≡◌, ◌⊎◌, ◌≤◌, IfOk, IfErr, true, Err, None, Some, MatchResult};
ghost use Rattle.press_callbacks.specs.Kits.{kit_view};
ghost use Rattle.press_acceptor.specs.Seen.{Calls, Looks};
ghost use Rattle.press_acceptor.specs.Seen.Call.{LoadsRound};
ghost use Rattle.press_node.specs.Nodes.{IsDeskAt, IsPageAt, NodePlays, kit_of, state_of, store_of};
ghost use Rattle.press_node.specs.States.{IsMemberOf, IsWhole, applied_count, applied_values, is_down, is_waiting, started_at, waiting_count};
ghost use Rattle.press_wire.specs.Ranges.{most_members};

use crate::event::Event;
use crate::fault::NodeFault;
use crate::node::Node;
use crate::start_fault::StartFault;
use crate::state::State;
use press_acceptor::PromiseStore;
use press_apply::Value;
use press_callbacks::Kit;
use press_page::{Desk, Reply, Target};
use press_wire::{MemberId, Message};
use std::alloc::Global;

impl<S> Node<S> {
    /// Whether a fault has stopped it.
    pub fn is_down(&self) -> bool
        ensures { result ≡ is_down (state_of self.now) }
    {
        self.state.is_down()
    }

    /// How many values it has applied since its start; 0 where it is down.
    pub fn applied(&self) -> u64
        ensures value { result ≡ applied_count (state_of self.now) }
        ensures whole { IsWhole (state_of self.now) }
    {
        self.state.applied()
    }

    /// The values that it has applied since its start, in the order of their slots; none where it
    /// is down.
    pub fn values(&self) -> &[Value]
        ensures { result.now ≡ applied_values (state_of self.now) }
    {
        self.state.values()
    }

    /// Whether a command that was submitted to it waits to be chosen; false where it is down.
    pub fn is_waiting(&self) -> bool
        ensures { result ≡ is_waiting (state_of self.now) }
    {
        self.state.is_waiting()
    }

    /// How many commands that were submitted to it wait to be chosen, 256 at most; none where it is
    /// down.
    pub fn waiting_count(&self) -> usize
        ensures { result ≡ waiting_count (state_of self.now) }
    {
        self.state.waiting_count()
    }

    pub fn store(&self) -> &S
        ensures { result.now ≡ store_of self.now }
    {
        &self.store
    }

    /// Ends the node, and returns kit and store.
    pub fn down(self) -> (Kit, S)
        ensures kit { kit_view result.0 ≡ kit_of self }
        ensures store { result.1 ≡ store_of self }
    {
        let Node { kit, store, .. } = self;
        (kit, store)
    }

    /// The reply to a request for a page of what the applied values make. Nothing changes.
    pub fn get(&self, target: &Target) -> Result<Reply, NodeFault>
        ensures page { IfOk result
            (λ reply. IsPageAt (kit_of self.now) (state_of self.now).up target.now reply) }
        ensures down { is_down (state_of self.now) ≡ true → result ≡ Err NodeFault.Down }
        ensures fault { IfErr result
            (λ fault. ((fault ≡ NodeFault.Down) × (is_down (state_of self.now) ≡ true)) ⊎
            (fault ≡ NodeFault.NoMemory)) }
    {
        self.state.get(&self.kit, target)
    }

    /// The reply to an editor, over what the applied values make. Nothing changes.
    pub fn show_desk(&self, asked: Desk) -> Result<Reply, NodeFault>
        ensures desk { IfOk result
            (λ reply. IsDeskAt (kit_of self.now) (state_of self.now).up asked reply) }
        ensures down { is_down (state_of self.now) ≡ true → result ≡ Err NodeFault.Down }
        ensures fault { IfErr result
            (λ fault. ((fault ≡ NodeFault.Down) × (is_down (state_of self.now) ≡ true)) ⊎
            (fault ≡ NodeFault.NoMemory)) }
    {
        self.state.show_desk(&self.kit, asked)
    }
}

impl<S: PromiseStore> Node<S> {
    /// Starts the node `id` of `members` over its store, of which it asks the last round. No value
    /// is applied and nothing waits.
    pub fn start(
        alloc: Global,
        id: MemberId,
        members: u8,
        kit: Kit,
        mut store: S,
    ) -> Result<Node<S>, StartFault<S>>
        requires few { members ≤ most_members }
        requires member { id ≤ members }
        ensures kit { MatchResult result (λ node. kit_of node ≡ kit_view kit)
            (λ e. kit_view e.kit ≡ kit_view kit) }
        ensures state { IfOk result (λ node. (S.seen (store_of node)).is_honest →
            state_of node ≡ started_at id members (S.seen store).kept.last_round) }
        ensures calls { MatchResult result
            (λ node. Calls LoadsRound (S.seen store) (S.seen (store_of node)) None)
            (λ e. Calls LoadsRound (S.seen store) (S.seen e.store) (Some e.fault)) }
        ensures looks { MatchResult result
            (λ node. (S.seen (store_of node)).is_honest →
            Looks (S.seen store) (S.seen (store_of node)))
            (λ e. (S.seen e.store).is_honest → Looks (S.seen store) (S.seen e.store)) }
    {
        match store.last_round() {
            Ok(last_round) => {
                let state = State::new(alloc, id, members, last_round);
                Ok(Node {
                    alloc,
                    kit,
                    store,
                    state,
                })
            }
            Err(fault) => Err(StartFault { fault, kit, store }),
        }
    }

    /// Plays an event, and returns the messages that it sends, after what they say was saved: at
    /// most 7, with those to the node itself, which the caller delivers too. Down, TooLong, Full,
    /// SlotsUsedUp and RoundsUsedUp leave the node and its store as they were; after Disk, Damaged
    /// or NoMemory the node is down, and the store is that before or that after the event's save.
    pub fn on(&mut self, event: Event) -> Result<Vec<Message>, NodeFault>
        ensures kit { kit_of self.new ≡ kit_of self.old }
        ensures member { IsMemberOf (state_of self.old) (state_of self.new) }
        ensures whole { IsWhole (state_of self.new) }
        ensures plays { NodePlays S.seen self.old self.new event (λ out. out.items) result }
    {
        self.state.on(&self.kit, &mut self.store, event)
    }
}
