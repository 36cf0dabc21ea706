//! The rows of version 1, moved block by block into the tables of blocks and votes.

ghost use Rattle.std.specs.Prelude.{◌≡◌, ◌≤◌, ◌<◌, ◌+◌, ◌*◌, true, [], ◌∷◌, IsTrue};
ghost use Rattle.sqlite.specs.State.{Survives};
ghost use Rattle.sqlite.specs.Held.{state};
ghost use Rattle.press_wire.specs.Blocks.{is_first};
ghost use Rattle.press_wire.specs.Ranges.{last_slot};
ghost use Rattle.press_store.specs.Moving.{AreEmpty, BlockMoved, BlocksMoved, Does, EndAt, IsDamagedOr, RowMoved, SlotMoved, VotesMoved, all_blocks, first_behind};
ghost use Rattle.press_store.specs.Slots.{shown_row};
ghost use Rattle.press_store.specs.Steps.{GoesOn, Keeps};

use crate::block::raise_promise;
use crate::version_1_rows::{
    damage, find_slot, greater, last_slot, perhaps_ballot, rows_outside, spelled_vote,
};
use crate::vote::add_vote;
use press_wire::{BLOCK_SLOTS, Ballot, LAST_SLOT, Slot};
use sqlite::types::ValueRef;
use sqlite::{Alter, Error, Row as Shown, Transaction};
use std::alloc::Global;

// How many blocks there are.
const BLOCKS: u32 = LAST_SLOT / BLOCK_SLOTS;

// Moves the vote of a row, and returns its greatest ballot.
fn move_row<S: Alter>(
    alloc: Global,
    tx: &mut Transaction<'_, S>,
    slot: Slot,
    row: &Shown,
) -> Result<Option<Ballot>, Error>
    ensures same_reference { tx.new.conn.ghost_name ≡ tx.old.conn.ghost_name }
    ensures kept { Keeps S.Store tx.old.conn.now tx.new.conn.now }
    ensures goes_on { GoesOn S.Store tx.old.conn.now tx.new.conn.now result }
    ensures moved { Does S.Store tx.old.conn.now tx.new.conn.now result (λ old new greatest.
        IsDamagedOr (shown_row (row.now ∷ [])) (λ r. RowMoved slot r old new greatest)) }
    ensures survives { Survives (state S.Store tx.old.conn.now) (state S.Store tx.new.conn.now)
        (λ _. ⊥) }
{
    let Some(promised) = perhaps_ballot(row.get_ref(0)?, row.get_ref(1)?) else {
        return Err(damage());
    };
    let voted = perhaps_ballot(row.get_ref(2)?, row.get_ref(3)?);
    match (voted, row.get_ref(4)?) {
        (Some(None), ValueRef::Null) => Ok(promised),
        (Some(Some(ballot)), ValueRef::Blob(bytes)) => {
            let vote = spelled_vote(alloc, ballot, bytes)?;
            add_vote(tx, slot, &vote, bytes)?;
            Ok(greater(promised, Some(ballot)))
        }
        _ => Err(damage()),
    }
}

// Moves the vote of a slot, and returns the greatest ballot of its row.
fn move_slot<S: Alter>(
    alloc: Global,
    tx: &mut Transaction<'_, S>,
    slot: Slot,
) -> Result<Option<Ballot>, Error>
    ensures same_reference { tx.new.conn.ghost_name ≡ tx.old.conn.ghost_name }
    ensures kept { Keeps S.Store tx.old.conn.now tx.new.conn.now }
    ensures goes_on { GoesOn S.Store tx.old.conn.now tx.new.conn.now result }
    ensures moved { Does S.Store tx.old.conn.now tx.new.conn.now result
        (λ old new greatest. SlotMoved slot old new greatest) }
    ensures survives { Survives (state S.Store tx.old.conn.now) (state S.Store tx.new.conn.now)
        (λ _. ⊥) }
{
    let rows = find_slot(tx, slot)?;
    match rows.as_slice() {
        [] => Ok(None),
        [row] => move_row(alloc, tx, slot, row),
        _ => Err(damage()),
    }
}

// The slot that stands so many behind the first one of the block behind so many.
fn slot_behind(count: u32, n: u32) -> Slot
    requires { (count < all_blocks) × (n < 16) }
    ensures { result ≡ first_behind count + n }
{
    let Some(slot) = Slot::new(BLOCK_SLOTS * count + 1 + n) else {
        unreachable!()
    };
    slot
}

// The first slot of the block behind so many.
fn first_behind(count: u32) -> Slot
    requires { count < all_blocks }
    ensures number { result ≡ first_behind count }
    ensures first { is_first result ≡ true }
{
    slot_behind(count, 0)
}

// Moves the votes of the block behind so many, and returns the greatest ballot of its rows.
fn move_votes<S: Alter>(
    alloc: Global,
    tx: &mut Transaction<'_, S>,
    count: u32,
) -> Result<Option<Ballot>, Error>
    requires { count < all_blocks }
    ensures same_reference { tx.new.conn.ghost_name ≡ tx.old.conn.ghost_name }
    ensures kept { Keeps S.Store tx.old.conn.now tx.new.conn.now }
    ensures goes_on { GoesOn S.Store tx.old.conn.now tx.new.conn.now result }
    ensures moved { Does S.Store tx.old.conn.now tx.new.conn.now result
        (λ old new greatest. VotesMoved (first_behind count) 16 old new greatest) }
    ensures survives { Survives (state S.Store tx.old.conn.now) (state S.Store tx.new.conn.now)
        (λ _. ⊥) }
{
    let mut greatest = None;
    for n in 0..BLOCK_SLOTS {
        let here = move_slot(alloc, tx, slot_behind(count, n))?;
        greatest = greater(greatest, here);
    }
    Ok(greatest)
}

// Moves the block behind so many: its votes, and then its promise.
fn move_block<S: Alter>(alloc: Global, tx: &mut Transaction<'_, S>, count: u32) -> Result<(), Error>
    requires { count < all_blocks }
    ensures same_reference { tx.new.conn.ghost_name ≡ tx.old.conn.ghost_name }
    ensures kept { Keeps S.Store tx.old.conn.now tx.new.conn.now }
    ensures goes_on { GoesOn S.Store tx.old.conn.now tx.new.conn.now result }
    ensures moved { Does S.Store tx.old.conn.now tx.new.conn.now result
        (λ old new _. BlockMoved (first_behind count) old new) }
    ensures survives { Survives (state S.Store tx.old.conn.now) (state S.Store tx.new.conn.now)
        (λ _. ⊥) }
{
    match move_votes(alloc, tx, count)? {
        Some(ballot) => {
            raise_promise(tx, first_behind(count), ballot)?;
            Ok(())
        }
        None => Ok(()),
    }
}

// Moves so many blocks.
fn move_blocks<S: Alter>(
    alloc: Global,
    tx: &mut Transaction<'_, S>,
    count: u32,
) -> Result<(), Error>
    requires { count ≤ all_blocks }
    ensures same_reference { tx.new.conn.ghost_name ≡ tx.old.conn.ghost_name }
    ensures kept { Keeps S.Store tx.old.conn.now tx.new.conn.now }
    ensures goes_on { GoesOn S.Store tx.old.conn.now tx.new.conn.now result }
    ensures moved { Does S.Store tx.old.conn.now tx.new.conn.now result
        (λ old new _. AreEmpty old → BlocksMoved count old new) }
    ensures survives { Survives (state S.Store tx.old.conn.now) (state S.Store tx.new.conn.now)
        (λ _. ⊥) }
{
    for j in 0..count {
        move_block(alloc, tx, j)?;
    }
    Ok(())
}

// How many blocks there are up to the slot that the row shows. Nothing rests on it: whether all
// were moved is asked afterwards.
fn blocks_to(rows: &[Shown]) -> u32
    ensures { result ≤ all_blocks }
{
    let [row] = rows else {
        return 0;
    };
    match row.get_ref(0) {
        Ok(ValueRef::Int(n)) if 1 <= n && n <= LAST_SLOT as i64 => {
            (n as u32 + (BLOCK_SLOTS - 1)) / BLOCK_SLOTS
        }
        _ => BLOCKS,
    }
}

fn is_none(rows: &[Shown]) -> bool
    ensures { IsTrue result → rows.now ≡ [] }
{
    rows.is_empty()
}

/// Moves all blocks, up to that of the last slot. A row at a number that is no slot is damage.
pub fn move_all_blocks<S: Alter>(alloc: Global, tx: &mut Transaction<'_, S>) -> Result<(), Error>
    ensures same_reference { tx.new.conn.ghost_name ≡ tx.old.conn.ghost_name }
    ensures kept { Keeps S.Store tx.old.conn.now tx.new.conn.now }
    ensures goes_on { GoesOn S.Store tx.old.conn.now tx.new.conn.now result }
    ensures moved { Does S.Store tx.old.conn.now tx.new.conn.now result
        (λ old new _. AreEmpty old → BlocksMoved all_blocks old new × EndAt last_slot (old 0)) }
    ensures survives { Survives (state S.Store tx.old.conn.now) (state S.Store tx.new.conn.now)
        (λ _. ⊥) }
{
    let last = last_slot(tx)?;
    let count = blocks_to(&last);
    move_blocks(alloc, tx, count)?;
    let outside = rows_outside(tx, BLOCK_SLOTS * count)?;
    if !is_none(&outside) {
        return Err(damage());
    }
    Ok(())
}
