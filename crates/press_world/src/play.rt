//! What happens to a cluster.

ghost use Rattle.std.specs.Prelude.{◌≡◌, ◌<◌, ◌≤◌, ◌+◌, ◌^◌, IfOk, IfErr, OnOk, None, Some, length, option_copied, slice_get};
ghost use Rattle.press_callbacks.specs.Kits.{KitView};
ghost use Rattle.press_world.specs.Adding.{Adds};
ghost use Rattle.press_world.specs.Happening.{Happens};
ghost use Rattle.press_world.specs.Models.{facts, model, size, statics};
ghost use Rattle.press_world.specs.Refusing.{message_numbered, place_numbered, event_refusal, TakesMemory};
ghost use Rattle.press_world.specs.Seats.{place_of};
ghost use Rattle.press_world.specs.Seen.{IsAbout};
ghost use Rattle.press_world.specs.Sound.{IsSound};
ghost use Rattle.press_world.specs.Stepped.{FailsBy, Steps};
ghost use Rattle.press_world.specs.Stored.{stored_does, stored_step};
ghost use Rattle.press_world.specs.Telling.{applied_count_in, first_of, is_cut, or_none};
ghost use Rattle.press_world.specs.Whole.{AppliesChosen, ChoosesOnce, HaveKit, IsAnswered, ShowsAlike};
ghost use Rattle.press_world.specs.Worlds.{Place, index_of};
ghost use Rattle.press_world.specs.declared.step.Step.{Step};
ghost use Rattle.press_world.specs.declared.step.Step.TheVariants.{
  Submit,
  Wake,
  Deliver,
  Restart,
  Get,
};
ghost use Rattle.press_node.specs.Faults.{stops};
ghost use Rattle.press_wire.specs.Ranges.{last_slot};

use crate::cluster_events::EventAtSlot;
use crate::fault::WorldFault;
use crate::played::Played;
use crate::seat::Seat;
use crate::step::{Cut, Step};
use crate::world::World;
use press_apply::Stamped;
use press_learner::{chosen_by_majority, only_votes_that_came_are_kept};
use press_node::{Event, NodeFault};
use press_page::Target;
use press_wire::{LAST_SLOT, Message, Slot};

const SLOTS: u64 = LAST_SLOT as u64;

// The index of the item with this number, of `count` that are numbered from 1.
fn index_of(number: u64, count: usize) -> Option<usize>
    ensures { result ≡ index_of count number }
{
    if 1 <= number && number <= count as u64 {
        Some((number - 1) as usize)
    } else {
        None
    }
}

fn first_slot() -> Slot
    ensures { result ≡ 1 }
{
    let Some(slot) = Slot::new(1) else {
        unreachable!()
    };
    slot
}

// The slot after this many; the last one where there is none.
fn slot_after(applied: u64) -> Slot
    ensures { applied < last_slot → applied + 1 ≡ result }
{
    let next = if applied < SLOTS { applied + 1 } else { SLOTS };
    let Some(slot) = Slot::new(next as u32) else {
        unreachable!()
    };
    slot
}

// The number of the first of `count` messages; 0 where there are none.
fn first_of(before: usize, count: usize) -> u64
    requires { before + count < 2 ^ 64 }
    ensures { result ≡ first_of before count }
{
    if count == 0 { 0 } else { before as u64 + 1 }
}

fn is_cut(cut: Option<Cut>) -> bool
    ensures { result ≡ is_cut cut }
{
    match cut {
        None => false,
        Some(_) => true,
    }
}

impl World {
    /// The message with this number, counted from 1 in the order of sending.
    pub fn sent(&self, number: u64) -> Option<&Message>
        ensures { option_copied result ≡ message_numbered (model self.now) number }
    {
        let index = index_of(number, self.cluster.sent.len())?;
        self.cluster.sent.as_slice().get(index)
    }

    /// How many slots a node has applied since its start; None where it is down or doesn't exist.
    pub fn applied(&self, node: u64) -> Option<u64>
        ensures { result ≡ applied_count_in (place_numbered (model self.now) node) }
    {
        let index = index_of(node, self.cluster.seats.len())?;
        self.cluster.seats.as_slice().get(index)?.applied_where_up()
    }

    fn seat(&self, index: usize) -> &Seat
        requires inside { index < size self.now }
        ensures { slice_get (model self.now).places index ≡ Some (place_of result.now) }
    {
        &self.cluster.seats[index]
    }

    // Plays an event that the node at this index doesn't refuse, which a stop may cut.
    fn play_event(
        &mut self,
        index: usize,
        coming: EventAtSlot,
        cut: Option<Cut>,
    ) -> Result<usize, NodeFault>
        requires inside { index < size self.old }
        requires about { (p : Place) → slice_get (model self.old).places index ≡ Some p →
            IsAbout p.up coming.event coming.slot }
        requires passes { event_refusal (slice_get (model self.old).places index) coming.event cut
            ≡ None }
        requires step { (stop : _) → (x : Step) × (stored_step (size self.old) (model self.old) x ≡
            stored_does (size self.old) (model self.old) coming.message_index index
            (slice_get (model self.old).places index) coming.event stop) }
        ensures statics { statics self.new ≡ statics self.old }
        ensures count { IfOk result (λ count.
            length (model self.new).sent ≡ length (model self.old).sent + count) }
        ensures ok { OnOk result (model self.new ≡
            stored_does (size self.old) (model self.old) coming.message_index index
            (slice_get (model self.old).places index) coming.event cut) }
        ensures err { IfErr result (λ fault. FailsBy (model self.old)
            (λ stop. stored_does (size self.old) (model self.old) coming.message_index index
            (slice_get (model self.old).places index) coming.event stop)
            (event_refusal (slice_get (model self.old).places index) coming.event cut) fault
            (stops fault) (model self.new)) }
    {
        chosen_by_majority();
        only_votes_that_came_are_kept();
        self.cluster.play_event(index, coming, cut)
    }

    // The report of an event that was done, before which there were `before` messages.
    fn report_of_event(&self, index: usize, before: usize, count: usize, cut: Option<Cut>) -> Played
        requires inside { index < size self.now }
        requires sent { before + count ≤ length (model self.now).sent }
        ensures { result ≡ record {
          node = index + 1;
          first = first_of before count;
          count = count;
          stopped = is_cut cut;
          applied = or_none (applied_count_in (slice_get (model self.now).places index));
          reply = None;
        } }
    {
        Played {
            node: index as u64 + 1,
            first: first_of(before, count),
            count: count as u64,
            stopped: is_cut(cut),
            applied: self.cluster.seats[index].applied(),
            reply: None,
        }
    }

    // Plays an event that the node at this index doesn't refuse, which a stop may cut; returns its
    // report.
    fn happen(
        &mut self,
        index: usize,
        coming: EventAtSlot,
        cut: Option<Cut>,
    ) -> Result<Played, WorldFault>
        requires inside { index < size self.old }
        requires about { (p : Place) → slice_get (model self.old).places index ≡ Some p →
            IsAbout p.up coming.event coming.slot }
        requires passes { event_refusal (slice_get (model self.old).places index) coming.event cut
            ≡ None }
        requires step { (stop : _) → (x : Step) × (stored_step (size self.old) (model self.old) x ≡
            stored_does (size self.old) (model self.old) coming.message_index index
            (slice_get (model self.old).places index) coming.event stop) }
        ensures statics { statics self.new ≡ statics self.old }
        ensures happens { Happens (size self.old) (model self.old) coming.message_index index
            coming.event cut (model self.new) result }
    {
        let before = self.cluster.sent.len();
        match self.play_event(index, coming, cut) {
            Ok(count) => Ok(self.report_of_event(index, before, count, cut)),
            Err(fault) => Err(WorldFault::Node(fault)),
        }
    }

    fn index(&self, number: u64) -> Option<usize>
        ensures { result ≡ index_of (length (model self.now).places) number }
    {
        index_of(number, self.cluster.seats.len())
    }

    // Submits a command to a node.
    fn submit(
        &mut self,
        number: u64,
        command: &Stamped,
        cut: Option<Cut>,
    ) -> Result<Played, WorldFault>
        ensures statics { statics self.new ≡ statics self.old }
        ensures memory { IfErr result (λ fault. fault ≡ WorldFault.Node NodeFault.NoMemory →
            TakesMemory (model self.old) (Submit number command.now cut)) }
        ensures steps { (kit : KitView) → Steps kit (size self.old) (model self.old)
            (Submit number command.now cut) (model self.new) result }
    {
        let Some(index) = self.index(number) else {
            return Err(WorldFault::NoSuchNode);
        };
        if let Some(fault) = self.seat(index).refusal_of_command(command, cut) {
            return Err(WorldFault::Node(fault));
        }
        let Ok(command) = command.copy(self.alloc) else {
            return Err(WorldFault::Node(NodeFault::NoMemory));
        };
        let coming = EventAtSlot {
            event: Event::Submit(command),
            slot: first_slot(),
            message_index: 0,
        };
        self.happen(index, coming, cut)
    }

    // The slot after those that the node at this index has applied.
    fn next_slot(&self, index: usize) -> Slot
        requires inside { index < size self.now }
        ensures { (p : Place) → slice_get (model self.now).places index ≡ Some p →
            IsAbout p.up Event.Wake result }
    {
        slot_after(self.cluster.seats[index].applied())
    }

    fn wake(&mut self, number: u64, cut: Option<Cut>) -> Result<Played, WorldFault>
        ensures statics { statics self.new ≡ statics self.old }
        ensures memory { IfErr result (λ fault. fault ≡ WorldFault.Node NodeFault.NoMemory →
            TakesMemory (model self.old) (Wake number cut)) }
        ensures steps { (kit : KitView) → Steps kit (size self.old) (model self.old)
            (Wake number cut) (model self.new) result }
    {
        let Some(index) = self.index(number) else {
            return Err(WorldFault::NoSuchNode);
        };
        if let Some(fault) = self.seat(index).refusal_of_wake(cut) {
            return Err(WorldFault::Node(fault));
        }
        let coming = EventAtSlot {
            event: Event::Wake,
            slot: self.next_slot(index),
            message_index: 0,
        };
        self.happen(index, coming, cut)
    }

    // Delivers a message that was sent to the node that it is to.
    fn deliver(&mut self, number: u64, cut: Option<Cut>) -> Result<Played, WorldFault>
        ensures statics { statics self.new ≡ statics self.old }
        ensures memory { IfErr result (λ fault. fault ≡ WorldFault.Node NodeFault.NoMemory →
            TakesMemory (model self.old) (Deliver number cut)) }
        ensures steps { (kit : KitView) → Steps kit (size self.old) (model self.old)
            (Deliver number cut) (model self.new) result }
    {
        let Some(message_index) = index_of(number, self.cluster.sent.len()) else {
            return Err(WorldFault::NoSuchMessage);
        };
        let sent = &self.cluster.sent[message_index];
        let Some(index) = self.index(sent.to.number() as u64) else {
            return Err(WorldFault::NoSuchNode);
        };
        if let Some(fault) = self.seat(index).refusal_of_message(cut) {
            return Err(WorldFault::Node(fault));
        }
        let Ok(message) = sent.copy(self.alloc) else {
            return Err(WorldFault::Node(NodeFault::NoMemory));
        };
        let coming = EventAtSlot {
            slot: message.slot,
            event: Event::Deliver(message),
            message_index,
        };
        self.happen(index, coming, cut)
    }

    // Starts a node again over its store, whether it runs or not.
    fn restart(&mut self, number: u64) -> Result<Played, WorldFault>
        ensures statics { statics self.new ≡ statics self.old }
        ensures memory { IfErr result (λ fault. fault ≡ WorldFault.Node NodeFault.NoMemory →
            TakesMemory (model self.old) (Restart number)) }
        ensures steps { (kit : KitView) → Steps kit (size self.old) (model self.old)
            (Restart number) (model self.new) result }
    {
        let Some(index) = self.index(number) else {
            return Err(WorldFault::NoSuchNode);
        };
        chosen_by_majority();
        only_votes_that_came_are_kept();
        let before = self.cluster.sent.len();
        self.cluster.restart(index);
        Ok(self.report_of_event(index, before, 0, None))
    }

    // Answers a page request at a node. Nothing changes.
    fn get(&self, number: u64, target: &Target) -> Result<Played, WorldFault>
        ensures memory { IfErr result (λ fault. fault ≡ WorldFault.Node NodeFault.NoMemory →
            TakesMemory (model self.now) (Get number target.now)) }
        ensures steps { (kit : KitView) → HaveKit kit (statics self.now) →
            Steps kit (size self.now) (model self.now) (Get number target.now) (model self.now)
            result }
    {
        let Some(index) = self.index(number) else {
            return Err(WorldFault::NoSuchNode);
        };
        match self.cluster.seats[index].get(target) {
            Ok(reply) => {
                let told = self.report_of_event(index, self.cluster.sent.len(), 0, None);
                Ok(told.with_reply(reply))
            }
            Err(fault) => Err(WorldFault::Node(fault)),
        }
    }

    fn dispatch(&mut self, step: &Step) -> Result<Played, WorldFault>
        ensures statics { statics self.new ≡ statics self.old }
        ensures memory { IfErr result (λ fault. fault ≡ WorldFault.Node NodeFault.NoMemory →
            TakesMemory (model self.old) step.now) }
        ensures step { (kit : KitView) → HaveKit kit (statics self.old) →
            Steps kit (size self.old) (model self.old) step.now (model self.new) result }
    {
        match step {
            Step::Submit { node, command, cut } => self.submit(*node, command, *cut),
            Step::Wake { node, cut } => self.wake(*node, *cut),
            Step::Deliver { message, cut } => self.deliver(*message, *cut),
            Step::Restart { node } => self.restart(*node),
            Step::Get { node, target } => self.get(*node, target),
        }
    }

    /// Plays a step. Messages are numbered from 1 in the order of sending.
    pub fn play(&mut self, step: &Step) -> Result<Played, WorldFault>
        requires always { Unit {0} }
        ensures statics { statics self.new ≡ statics self.old }
        ensures step { (kit : KitView) → HaveKit kit (statics self.old) →
            Steps kit (size self.old) (model self.old) step.now (model self.new) result }
        ensures memory { IfErr result (λ fault. fault ≡ WorldFault.Node NodeFault.NoMemory →
            TakesMemory (model self.old) step.now) }
        ensures sound { ∥ IsSound (model self.new) ∥₁ }
        ensures added { ∥ Adds (facts self.old) (facts self.new) ∥₁ }
        ensures applied { ∥ AppliesChosen (size self.new) (facts self.new)
            (model self.new).places ∥₁ }
        ensures once { ChoosesOnce (size self.new) (facts self.old) (facts self.new) }
        ensures equal { ShowsAlike (model self.old).places (model self.new).places }
        ensures headline { (kit : KitView) → HaveKit kit (statics self.old) →
            IsAnswered kit (size self.new) (facts self.new) (model self.new) step.now result }
    {
        self.dispatch(step)
    }
}
