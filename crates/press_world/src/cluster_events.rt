//! A turn of one node of a cluster, which records what it saves and sends.

ghost use Rattle.std.specs.Prelude.{◌≡◌, ◌<◌, ◌≤◌, ◌+◌, OnOk, IfErr, IfOk, length, slice_get, None, Some};
ghost use Rattle.press_callbacks.specs.Kits.{KitView};
ghost use Rattle.press_node.specs.Faults.{stops};
ghost use Rattle.press_world.specs.Acts.{DoesAt, FailsAt};
ghost use Rattle.press_world.specs.Changes.{IsActed};
ghost use Rattle.press_world.specs.Models.{kept_in};
ghost use Rattle.press_world.specs.Refusing.{event_refusal};
ghost use Rattle.press_world.specs.Seats.{places_of, statics_of};
ghost use Rattle.press_world.specs.Stepped.{FailsBy};
ghost use Rattle.press_world.specs.Seen.{IsAbout, seen_at};
ghost use Rattle.press_world.specs.Sound.{AreMembers};
ghost use Rattle.press_world.specs.Stored.{stored_does, stored_restarts};
ghost use Rattle.press_world.specs.Worlds.{Place};
ghost use Rattle.press_wire.specs.Ranges.{most_members};

use crate::cluster::Cluster;
use crate::seat::Seat;
use crate::seen::{Seen, look, proposal_entry, send, write_down};
use crate::step::Cut;
use press_node::{Event, NodeFault};
use press_wire::{MOST_MEMBERS, MemberId, Message, Slot};

/// What comes to a node, and the slot that it is about.
#[derive(Drop)]
pub(crate) struct EventAtSlot {
    pub event: Event,
    pub slot: Slot,
    /// Which message brought it, if one did, counted from 0.
    pub message_index: usize,
}

/// The member at this index.
pub(crate) fn member_at(index: usize) -> MemberId
    requires { index < most_members }
    ensures { result ≡ index + 1 }
{
    let Some(member) = MemberId::new(index as u8 + 1) else {
        unreachable!()
    };
    member
}

// Plays an event of the node at this index, which a stop may cut.
fn act(
    seats: &mut Vec<Seat>,
    index: usize,
    event: Event,
    cut: Option<Cut>,
) -> Result<Vec<Message>, NodeFault>
    requires inside { index < length seats.old.items }
    requires members { ∥ ((kit : KitView) × AreMembers kit (statics_of seats.old.items)) ∥₁ }
    ensures statics { statics_of seats.new.items ≡ statics_of seats.old.items }
    ensures few { IfOk result (λ out. length out.items ≤ most_members) }
    ensures ok { IfOk result (λ out.
        IsActed index (places_of seats.old.items) (places_of seats.new.items)
        (λ old new. DoesAt (length seats.old.items) (index + 1) old.store old.up event cut
        out.items new)) }
    ensures err { IfErr result (λ fault.
        IsActed index (places_of seats.old.items) (places_of seats.new.items)
        (λ old new. FailsAt (length seats.old.items) (index + 1) old.store old.up event cut
        fault new)) }
{
    seats[index].act(event, cut)
}

// What can be seen of the store of the node at this index.
fn look_at(seats: &Vec<Seat>, index: usize, slot: Slot) -> Seen
    requires { index < length seats.now.items }
    ensures { (p : Place) → slice_get (places_of seats.now.items) index ≡ Some p →
        result ≡ seen_at p.store slot }
{
    look(&seats[index].store, slot)
}

impl Cluster {
    /// Plays an event that the node at this index doesn't refuse, which a stop may cut; returns how
    /// many messages it sent.
    pub(crate) fn play_event(
        &mut self,
        index: usize,
        coming: EventAtSlot,
        cut: Option<Cut>,
    ) -> Result<usize, NodeFault>
        requires inside { index < length self.old.seats.items }
        requires members { ∥ ((kit : KitView)
            × AreMembers kit (statics_of self.old.seats.items)) ∥₁ }
        requires few { length self.old.seats.items ≤ most_members }
        requires about { (p : Place) → slice_get (places_of self.old.seats.items) index ≡ Some p →
            IsAbout p.up coming.event coming.slot }
        requires passes { event_refusal
            (slice_get (places_of self.old.seats.items) index) coming.event cut ≡ None }
        ensures statics { statics_of self.new.seats.items ≡ statics_of self.old.seats.items }
        ensures count { IfOk result (λ count.
            length self.new.sent.items ≡ length self.old.sent.items + count) }
        ensures ok { OnOk result (kept_in self.new ≡
            stored_does (length self.old.seats.items) (kept_in self.old) coming.message_index index
            (slice_get (places_of self.old.seats.items) index) coming.event cut) }
        ensures err { IfErr result (λ fault. FailsBy (kept_in self.old)
            (λ stop. stored_does (length self.old.seats.items) (kept_in self.old)
            coming.message_index index
            (slice_get (places_of self.old.seats.items) index) coming.event stop)
            (event_refusal (slice_get (places_of self.old.seats.items) index) coming.event cut)
            fault (stops fault) (kept_in self.new)) }
    {
        let EventAtSlot {
            event,
            slot,
            message_index,
        } = coming;
        let member = member_at(index);
        match self.trace.reserve(2) {
            Ok(()) => {}
            Err(_) => {
                drop(event);
                return Err(NodeFault::NoMemory);
            }
        }
        match self.sent.reserve(MOST_MEMBERS as usize) {
            Ok(()) => {}
            Err(_) => {
                drop(event);
                return Err(NodeFault::NoMemory);
            }
        }
        let before = look_at(&self.seats, index, slot);
        let result = act(&mut self.seats, index, event, cut);
        let after = look_at(&self.seats, index, slot);
        write_down(
            &mut self.trace,
            before.entry_between(after, member, message_index, slot),
        );
        match result {
            Err(fault) => Err(fault),
            Ok(out) => {
                let count = out.len();
                write_down(&mut self.trace, proposal_entry(&out, self.sent.len()));
                send(&mut self.sent, out);
                Ok(count)
            }
        }
    }

    /// Starts the node at this index again over its store.
    pub(crate) fn restart(&mut self, index: usize)
        requires inside { index < length self.old.seats.items }
        requires members { ∥ ((kit : KitView)
            × AreMembers kit (statics_of self.old.seats.items)) ∥₁ }
        ensures statics { statics_of self.new.seats.items ≡ statics_of self.old.seats.items }
        ensures restarted { kept_in self.new ≡ stored_restarts (length self.old.seats.items)
            (kept_in self.old) index (slice_get (places_of self.old.seats.items) index) }
    {
        let members = self.seats.len() as u8;
        self.seats[index].restart(member_at(index), members);
    }
}
