//! A node of a cluster, from its start on.

ghost use Rattle.std.specs.Prelude.{◌≡◌, ◌≤◌, ◌⊎◌, IfOk, IfErr, Err, None, Some, [], length, take, true};
ghost use Rattle.press_callbacks.specs.Kits.{kit_view};
ghost use Rattle.press_acceptor.specs.StoreMap.{new_store};
ghost use Rattle.press_node.specs.Nodes.{IsPageAt};
ghost use Rattle.press_node.specs.Refusals.{refusal};
ghost use Rattle.press_node.specs.States.{IsWhole, applied_count, is_down, running_in};
ghost use Rattle.press_node.specs.declared.event.Event.TheVariants.{Submit, Wake, Deliver};
ghost use Rattle.press_world.specs.Acts.{DoesAt, FailsAt};
ghost use Rattle.press_world.specs.Refusing.{refusal_where};
ghost use Rattle.press_world.specs.Seats.{place_of, static_of};
ghost use Rattle.press_world.specs.Telling.{applied_count_at};
ghost use Rattle.press_world.specs.Worlds.{restarted_place};
ghost use Rattle.press_world.specs.declared.step.Cut.TheVariants.{
  BeforeSave,
  AfterSave,
  AfterMessages,
};
ghost use Rattle.press_wire.specs.Ranges.{most_members};

use crate::seat::Seat;
use crate::step::Cut;
use press_acceptor::MemoryStore;
use press_apply::Stamped;
use press_callbacks::Kit;
use press_node::{Event, NodeFault, State, few_messages_go_out};
use press_page::{Reply, Target};
use press_wire::{MemberId, Message};
use std::alloc::Global;

fn no_messages(alloc: Global) -> Vec<Message>
    ensures { result.items ≡ [] }
{
    Vec::new(alloc)
}

// The first `count` messages, or all where there are fewer.
fn first_of(out: Vec<Message>, count: u32) -> Vec<Message>
    ensures { result.items ≡ take count out.items }
{
    let mut out = out;
    out.truncate(count as usize);
    out
}

impl Seat {
    /// Starts the node `id` of `members` over an empty store.
    pub(crate) fn start(alloc: Global, id: MemberId, members: u8, kit: Kit) -> Seat
        requires few { members ≤ most_members }
        requires member { id ≤ members }
        ensures place { place_of result ≡ restarted_place members id new_store }
        ensures fixed { static_of result ≡
            record { id = id; members = members; kit = kit_view kit } }
    {
        let store = MemoryStore::new(alloc);
        let state = State::new(alloc, id, members, store.round());
        Seat {
            alloc,
            kit,
            store,
            state,
        }
    }

    /// Starts it again over its store.
    pub(crate) fn restart(&mut self, id: MemberId, members: u8)
        requires few { members ≤ most_members }
        requires member { id ≤ members }
        requires id { self.old.state.id ≡ id }
        requires members { self.old.state.members ≡ members }
        ensures fixed { static_of self.new ≡ static_of self.old }
        ensures place { place_of self.new ≡ restarted_place members id self.old.store }
    {
        self.state = State::new(self.alloc, id, members, self.store.round());
    }

    /// How many values it has applied since its start; 0 where it is down.
    pub(crate) fn applied(&self) -> u64
        ensures value { result ≡ applied_count self.now.state }
        ensures whole { IsWhole self.now.state }
    {
        self.state.applied()
    }

    pub(crate) fn is_down(&self) -> bool
        ensures { result ≡ is_down self.now.state }
    {
        self.state.is_down()
    }

    /// How many values it has applied since its start, where it is up.
    pub(crate) fn applied_where_up(&self) -> Option<u64>
        ensures { result ≡ applied_count_at (place_of self.now) }
    {
        if self.is_down() {
            None
        } else {
            Some(self.applied())
        }
    }

    /// The reply to a request for a page.
    pub(crate) fn get(&self, target: &Target) -> Result<Reply, NodeFault>
        ensures page { IfOk result
            (λ reply. IsPageAt (kit_view self.now.kit) self.now.state.up target.now reply) }
        ensures down { is_down self.now.state ≡ true → result ≡ Err NodeFault.Down }
        ensures fault { IfErr result
            (λ fault. ((fault ≡ NodeFault.Down) × (is_down self.now.state ≡ true))
            ⊎ (fault ≡ NodeFault.NoMemory)) }
    {
        self.state.get(&self.kit, target)
    }

    // Why an event is refused, given why it would be without a stop: only a node that is down
    // refuses one that a stop cuts before its save.
    fn unless_first(&self, cut: Option<Cut>, fault: Option<NodeFault>) -> Option<NodeFault>
        ensures { (event : Event) →
            fault ≡ refusal self.now.store (running_in self.now.state) event →
            result ≡ refusal_where self.now.store (running_in self.now.state) event cut }
    {
        if self.is_down() {
            return Some(NodeFault::Down);
        }
        match cut {
            Some(Cut::BeforeSave) => None,
            None | Some(Cut::AfterSave | Cut::AfterMessages(_)) => fault,
        }
    }

    /// Why a command is refused, if it is. It takes no memory.
    pub(crate) fn refusal_of_command(
        &self,
        command: &Stamped,
        cut: Option<Cut>,
    ) -> Option<NodeFault>
        ensures { result ≡ refusal_where self.now.store (running_in self.now.state)
            (Submit command.now) cut }
    {
        self.unless_first(cut, self.state.refusal_of_command(command))
    }

    /// Why a wake is refused, if it is. It takes no memory.
    pub(crate) fn refusal_of_wake(&self, cut: Option<Cut>) -> Option<NodeFault>
        ensures { result ≡ refusal_where self.now.store (running_in self.now.state) Wake cut }
    {
        self.unless_first(cut, self.state.refusal_of_wake(self.store.round()))
    }

    /// Why a message is refused, if it is.
    pub(crate) fn refusal_of_message(&self, cut: Option<Cut>) -> Option<NodeFault>
        ensures { (message : Message) → result ≡
            refusal_where self.now.store (running_in self.now.state) (Deliver message) cut }
    {
        self.unless_first(cut, self.state.refusal_of_message())
    }

    // Plays an event, without a stop.
    fn on(&mut self, event: Event) -> Result<Vec<Message>, NodeFault>
        ensures fixed { static_of self.new ≡ static_of self.old }
        ensures few { IfOk result (λ out. length out.items ≤ most_members) }
        ensures ok { IfOk result (λ out. DoesAt self.old.state.members self.old.state.id
            self.old.store (running_in self.old.state) event None out.items (place_of self.new)) }
        ensures err { IfErr result (λ fault. FailsAt self.old.state.members self.old.state.id
            self.old.store (running_in self.old.state) event None fault (place_of self.new)) }
    {
        few_messages_go_out();
        // Its contract says that the node is whole.
        let _ = self.state.applied();
        self.state.on(&self.kit, &mut self.store, event)
    }

    // Stops it, so that it is down from now on.
    fn stop(&mut self)
        ensures fixed { static_of self.new ≡ static_of self.old }
        ensures place { place_of self.new ≡ record { store = self.old.store; up = None } }
    {
        self.state.stop();
    }

    // Plays an event, with a stop after the first messages.
    fn on_first(&mut self, event: Event, count: u32) -> Result<Vec<Message>, NodeFault>
        ensures fixed { static_of self.new ≡ static_of self.old }
        ensures few { IfOk result (λ out. length out.items ≤ most_members) }
        ensures ok { IfOk result (λ out. DoesAt self.old.state.members self.old.state.id
            self.old.store (running_in self.old.state) event (Some (AfterMessages count))
            out.items (place_of self.new)) }
        ensures err { IfErr result (λ fault. FailsAt self.old.state.members self.old.state.id
            self.old.store (running_in self.old.state) event (Some (AfterMessages count)) fault
            (place_of self.new)) }
    {
        match self.on(event) {
            Ok(out) => {
                self.stop();
                Ok(first_of(out, count))
            }
            Err(fault) => Err(fault),
        }
    }

    // Plays an event, with a stop after its save.
    fn on_silent(&mut self, event: Event) -> Result<Vec<Message>, NodeFault>
        ensures fixed { static_of self.new ≡ static_of self.old }
        ensures few { IfOk result (λ out. length out.items ≤ most_members) }
        ensures ok { IfOk result (λ out. DoesAt self.old.state.members self.old.state.id
            self.old.store (running_in self.old.state) event (Some AfterSave) out.items
            (place_of self.new)) }
        ensures err { IfErr result (λ fault. FailsAt self.old.state.members self.old.state.id
            self.old.store (running_in self.old.state) event (Some AfterSave) fault
            (place_of self.new)) }
    {
        match self.on(event) {
            Ok(out) => {
                self.stop();
                Ok(first_of(out, 0))
            }
            Err(fault) => Err(fault),
        }
    }

    // Stops before an event. A node that is down refuses it, and nothing changes.
    fn stop_before(&mut self, event: Event) -> Result<Vec<Message>, NodeFault>
        ensures fixed { static_of self.new ≡ static_of self.old }
        ensures few { IfOk result (λ out. length out.items ≤ most_members) }
        ensures ok { IfOk result (λ out. DoesAt self.old.state.members self.old.state.id
            self.old.store (running_in self.old.state) event (Some BeforeSave) out.items
            (place_of self.new)) }
        ensures err { IfErr result (λ fault. FailsAt self.old.state.members self.old.state.id
            self.old.store (running_in self.old.state) event (Some BeforeSave) fault
            (place_of self.new)) }
    {
        let was_down = self.state.is_down();
        self.stop();
        match self.on(event) {
            Ok(out) => Ok(out),
            Err(fault) => {
                if was_down {
                    Err(fault)
                } else {
                    Ok(no_messages(self.alloc))
                }
            }
        }
    }

    /// Plays an event, which a stop may cut; returns its messages.
    pub(crate) fn act(&mut self, event: Event, cut: Option<Cut>) -> Result<Vec<Message>, NodeFault>
        ensures fixed { static_of self.new ≡ static_of self.old }
        ensures few { IfOk result (λ out. length out.items ≤ most_members) }
        ensures ok { IfOk result (λ out. DoesAt self.old.state.members self.old.state.id
            self.old.store (running_in self.old.state) event cut out.items (place_of self.new)) }
        ensures err { IfErr result (λ fault. FailsAt self.old.state.members self.old.state.id
            self.old.store (running_in self.old.state) event cut fault (place_of self.new)) }
    {
        match cut {
            None => self.on(event),
            Some(Cut::BeforeSave) => self.stop_before(event),
            Some(Cut::AfterSave) => self.on_silent(event),
            Some(Cut::AfterMessages(count)) => self.on_first(event, count),
        }
    }
}
