//! A node without its kit and its store.

ghost use Rattle.std.specs.Prelude.{◌≡◌, ◌⊎◌, ◌≤◌, Err, IfOk, IfErr, true, option_map, option_copied};
ghost use Rattle.press_acceptor.specs.StoreMap.{StoreMap};
ghost use Rattle.press_callbacks.specs.Kits.{kit_view};
ghost use Rattle.press_node.specs.Nodes.{IsDeskAt, IsPageAt};
ghost use Rattle.press_node.specs.Plays.{StatePlays};
ghost use Rattle.press_node.specs.Refusals.{refusal};
ghost use Rattle.press_node.specs.States.{
  applied_count,
  applied_values,
  is_down,
  is_waiting,
  IsFolded,
  IsMemberOf,
  IsWhole,
  running_in,
  started_at,
  stopped_state,
  waiting_count,
};
ghost use Rattle.press_wire.specs.Ranges.{most_members};

use crate::event::Event;
use crate::fault::NodeFault;
use crate::fixed::Fixed;
use crate::up::Up;
use press_acceptor::PromiseStore;
use press_apply::{Stamped, Value};
use press_callbacks::Kit;
use press_page::{Applied, Desk, Reply, Target, page, show_desk};
use press_site::Site;
use press_wire::{MemberId, Message};
use std::alloc::Global;
use std::marker::Model;

/// Which member a node is, and what it has in memory while it is up. (It holds no kit, so it has a
/// model.)
pub struct State {
    id: MemberId,
    members: u8,
    up: Option<Up>,
    alloc: Global,
}

impl Drop for State {
    fn drop(self) {
        let State {
            id: _,
            members: _,
            up: _,
            alloc: _,
        } = self;
    }
}

impl Model for State {
    ghost use Rattle.std.specs.Coded.{codes};
    ghost use Rattle.press_learner.specs.Codes.{kept_code};
    ghost use Rattle.press_node.specs.Codes.{state_code};
    ghost use Rattle.press_node.specs.States.{NodeState};

    ghost Value = { NodeState };

    ghost coded = { state_code (Prim.hlevel codes) (kept_code (Prim.hlevel codes)) (Prim.hlevel codes) (Prim.hlevel codes) };

    ghost use Rattle.press_node.specs.Views.{view_up, IsUp};

    ghost view = { λ s. record { id = s.id; members = s.members; up = view_up s.up } };

    ghost invariant = { λ s. IsUp s.id s.members s.up };
}

impl State {
    /// A node that has just started.
    pub fn new(alloc: Global, id: MemberId, members: u8, last_round: u64) -> State
        requires few { members ≤ most_members }
        requires member { id ≤ members }
        ensures { result ≡ started_at id members last_round }
    {
        let up = Up::new(alloc, id, members, last_round);
        State {
            id,
            members,
            up: Some(up),
            alloc,
        }
    }

    /// Whether a fault has stopped it.
    pub fn is_down(&self) -> bool
        ensures { result ≡ is_down self.now }
    {
        match &self.up {
            Some(_) => false,
            None => true,
        }
    }

    /// The site, while the node is up.
    pub fn site(&self) -> Option<&Site>
        ensures { option_copied result ≡ option_map (λ up. up.site) self.now.up }
    {
        match &self.up {
            Some(up) => Some(&up.site),
            None => None,
        }
    }

    /// How many values were applied; 0 where the node is down.
    pub fn applied(&self) -> u64
        ensures value { result ≡ applied_count self.now }
        ensures whole { IsWhole self.now }
    {
        match &self.up {
            Some(up) => up.values.len() as u64,
            None => 0,
        }
    }

    /// The values that were applied, in the order of their slots; none where the node is down.
    pub fn values(&self) -> &[Value]
        ensures { result.now ≡ applied_values self.now }
    {
        match &self.up {
            Some(up) => &up.values,
            None => &[],
        }
    }

    /// Whether a command waits to be chosen; false where the node is down.
    pub fn is_waiting(&self) -> bool
        ensures { result ≡ is_waiting self.now }
    {
        match &self.up {
            Some(up) => up.proposer.is_waiting(),
            None => false,
        }
    }

    /// How many commands wait to be chosen; none where the node is down.
    pub fn waiting_count(&self) -> usize
        ensures { result ≡ waiting_count self.now }
    {
        match &self.up {
            Some(up) => up.proposer.waiting_count(),
            None => 0,
        }
    }

    /// The reply to a request for a page of what the applied values make.
    pub fn get(&self, kit: &Kit, target: &Target) -> Result<Reply, NodeFault>
        ensures page { IsFolded (kit_view kit.now) self.now →
            IfOk result (λ reply. IsPageAt (kit_view kit.now) self.now.up target.now reply) }
        ensures down { is_down self.now ≡ true → result ≡ Err NodeFault.Down }
        ensures fault { IfErr result (λ fault. ((fault ≡ NodeFault.Down)
            × (is_down self.now ≡ true)) ⊎ (fault ≡ NodeFault.NoMemory)) }
    {
        let Some(up) = &self.up else {
            return Err(NodeFault::Down);
        };
        match page(self.alloc, &up.site, kit, target) {
            Ok(reply) => Ok(reply),
            Err(_) => Err(NodeFault::NoMemory),
        }
    }

    /// The reply to an editor, over what the applied values make.
    pub fn show_desk(&self, kit: &Kit, asked: Desk) -> Result<Reply, NodeFault>
        ensures desk { IsFolded (kit_view kit.now) self.now →
            IfOk result (λ reply. IsDeskAt (kit_view kit.now) self.now.up asked reply) }
        ensures down { is_down self.now ≡ true → result ≡ Err NodeFault.Down }
        ensures fault { IfErr result (λ fault. ((fault ≡ NodeFault.Down)
            × (is_down self.now ≡ true)) ⊎ (fault ≡ NodeFault.NoMemory)) }
    {
        let Some(up) = &self.up else {
            return Err(NodeFault::Down);
        };
        let applied = Applied {
            count: up.values.len() as u64,
            site: &up.site,
            kit,
        };
        match show_desk(self.alloc, applied, asked) {
            Ok(reply) => Ok(reply),
            Err(_) => Err(NodeFault::NoMemory),
        }
    }

    /// Why a command is refused, if it is. It takes no memory.
    pub fn refusal_of_command(&self, command: &Stamped) -> Option<NodeFault>
        ensures { (store : StoreMap) →
            result ≡ refusal store (running_in self.now) (Event.Submit command.now) }
    {
        match &self.up {
            Some(up) => up.refusal_of_command(command),
            None => Some(NodeFault::Down),
        }
    }

    /// Why a wake is refused, if it is, where this is the last round of the store. It takes no
    /// memory.
    pub fn refusal_of_wake(&self, last_round: u64) -> Option<NodeFault>
        ensures { (store : StoreMap) → store.last_round ≡ last_round →
            result ≡ refusal store (running_in self.now) Event.Wake }
    {
        match &self.up {
            Some(up) => up.refusal_of_wake(last_round),
            None => Some(NodeFault::Down),
        }
    }

    /// Why a message is refused, if it is: only since the node is down.
    pub fn refusal_of_message(&self) -> Option<NodeFault>
        ensures { (store : StoreMap) (message : Message) →
            result ≡ refusal store (running_in self.now) (Event.Deliver message) }
    {
        match &self.up {
            Some(_) => None,
            None => Some(NodeFault::Down),
        }
    }

    /// Stops the node, which is down from now on.
    pub fn stop(&mut self)
        ensures { self.new ≡ stopped_state self.old }
    {
        drop(self.up.take());
    }

    /// Plays an event. After a fault of the store, or out of memory, the node is down.
    pub fn on<S: PromiseStore>(
        &mut self,
        kit: &Kit,
        store: &mut S,
        event: Event,
    ) -> Result<Vec<Message>, NodeFault>
        ensures member { IsMemberOf self.old self.new }
        ensures whole { IsWhole self.new }
        ensures plays { StatePlays S.seen store.old store.new self.old self.new event
            (λ out. out.items) result }
        ensures folded { IsFolded (kit_view kit.now) self.old
            → IsFolded (kit_view kit.now) self.new }
    {
        let (alloc, id, members) = (self.alloc, self.id, self.members);
        let fixed = Fixed {
            alloc,
            kit,
            id,
            members,
        };
        let done = match &mut self.up {
            None => {
                drop(event);
                return Err(NodeFault::Down);
            }
            Some(up) => up.on(&fixed, store, event),
        };
        match done {
            Ok(out) => Ok(out),
            Err(fault) => {
                if !fault.stops() {
                    return Err(fault);
                }
                drop(self.up.take());
                Err(fault)
            }
        }
    }
}
