//! The values of a store's votes, in the order of their slots.

ghost use Rattle.std.specs.Prelude.{◌*◌, ◌+◌, ◌<◌, ◌≡◌, true, IfOk, IsTrue, OnOk};
ghost use Rattle.press_acceptor.specs.Seen.{Looks};
ghost use Rattle.press_wire.specs.Blocks.{is_first};
ghost use Rattle.press_handover.specs.Voted as spec;
ghost use Rattle.press_acceptor.specs.StoreMap.{block_at};

use press_acceptor::{PromiseStore, StoreFault};
use press_apply::Value;
use press_wire::{BLOCK_SLOTS, LAST_SLOT, Slot, SlotVote};
use std::alloc::{AllocError, Global};

/// Whoever is shown values, one after the other.
pub trait Visitor {
    ghost use Rattle.press_apply.specs.declared.value.Value.{Value as Shown};

    /// What one value makes of it.
    ghost visits: { Self → Shown → Self → Type 0 };

    fn visit(&mut self, value: &Value) -> Result<(), AllocError>
        ensures { IfOk result (λ _. visits self.old value.now self.new) };
}

// The values of votes whose slots follow one another from this one on.
#[tactic(auto, using(crate::proofs::Blocks::ends, crate::proofs::Blocks::goes_on, crate::proofs::Blocks::stops))]
fn front_values(alloc: Global, first: Slot, votes: &[SlotVote]) -> Result<Vec<Value>, AllocError>
    ensures { IfOk result (λ values. values.items ≡ spec.front_values first votes.now) }
{
    let mut values = Vec::new(alloc);
    let mut next = first.number();
    for it in votes {
        let slot = it.slot.number();
        if slot != next {
            return Ok(values);
        }
        let value = it.vote.value.copy(alloc)?;
        values.push(value)?;
        next = slot + 1;
    }
    Ok(values)
}

// The values of the votes in a block, from its first slot up to one that has none.
fn block_values<S: PromiseStore>(
    alloc: Global,
    store: &mut S,
    first: Slot,
) -> Result<Vec<Value>, StoreFault>
    requires { is_first first ≡ true }
    ensures values { (S.seen store.new).is_honest → IfOk result (λ values.
        values.items ≡ spec.front_values first (block_at (S.seen store.old).kept first).votes) }
    ensures honest { (S.seen store.new).is_honest → (S.seen store.old).is_honest }
    ensures opened { (S.seen store.new).is_honest
        → OnOk result (IsTrue (S.seen store.new).is_open) }
    ensures looks { (S.seen store.new).is_honest → Looks (S.seen store.old) (S.seen store.new) }
{
    let block = store.load(first)?;
    Ok(front_values(alloc, first, block.votes.as_slice())?)
}

// The first slot of the block with this number, from 0 on.
fn first_of(block: u32) -> Slot
    requires { block < 62500 }
    ensures value { result ≡ 16 * block + 1 }
    ensures first { is_first result ≡ true }
{
    let Some(first) = Slot::new(block * BLOCK_SLOTS + 1) else {
        unreachable!()
    };
    first
}

fn visit_values<V: Visitor>(visitor: &mut V, values: &[Value]) -> Result<(), AllocError>
    ensures { IfOk result (λ _. spec.Visits V.visits visitor.old values.now visitor.new) }
{
    for value in values {
        visitor.visit(value)?;
    }
    Ok(())
}

/// Shows the values of the store's votes, from slot 1 up to the first slot without one. Each vote
/// of a node by itself is for what is chosen; a member's last ones may be for other values.
pub fn visit_all<S: PromiseStore, V: Visitor>(
    alloc: Global,
    store: &mut S,
    visitor: &mut V,
) -> Result<(), StoreFault>
    ensures visits { (S.seen store.new).is_honest → IfOk result (λ _. spec.Visits V.visits
        visitor.old (spec.voted_values (S.seen store.old).kept) visitor.new) }
    ensures looks { (S.seen store.new).is_honest → Looks (S.seen store.old) (S.seen store.new) }
{
    for block in 0..LAST_SLOT / BLOCK_SLOTS {
        let values = block_values(alloc, store, first_of(block))?;
        visit_values(visitor, &values)?;
        if values.len() < BLOCK_SLOTS as usize {
            return Ok(());
        }
    }
    Ok(())
}
