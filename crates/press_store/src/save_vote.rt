//! A vote and the promise of its block, saved in one transaction.

ghost use Rattle.std.specs.Prelude.{◌≡◌, false, Ok};
ghost use Rattle.sqlite.specs.State.{Survives};
ghost use Rattle.sqlite.specs.Held.{state};
ghost use Rattle.press_wire.specs.Reading.{read_command};
ghost use Rattle.press_wire.specs.Spelling.{spelled_command};
ghost use Rattle.press_acceptor.specs.StoreMap.{with_vote};
ghost use Rattle.press_store.specs.Attempt.{Doubts, Saves, StaysReady};
ghost use Rattle.press_store.specs.Counting.{SparesStarts};
ghost use Rattle.press_store.specs.Steps.{Commits, GoesOn, IsTurned, Keeps, Turns, Undone, WasOpen, WasUp};

use crate::block::raise_promise;
use crate::vote::add_vote;
use press_wire::{Slot, Vote};
use sqlite::{Alter, Connection, Error, Transaction};

/// The promise first: a vote is added where its block has promised.
pub fn put_both<S: Alter>(
    tx: &mut Transaction<'_, S>,
    slot: Slot,
    vote: &Vote,
    bytes: &[u8],
) -> Result<usize, Error>
    requires bytes { bytes.now ≡ spelled_command vote.now.value }
    requires reads { read_command bytes.now ≡ Ok vote.now.value }
    ensures same_reference { tx.new.conn.ghost_name ≡ tx.old.conn.ghost_name }
    ensures turns { Turns S.Store tx.old.conn.now tx.new.conn.now
        (λ old new. new ≡ with_vote old slot vote.now) result }
    ensures spares { SparesStarts S.Store tx.old.conn.now tx.new.conn.now result }
    ensures kept { Keeps S.Store tx.old.conn.now tx.new.conn.now }
    ensures goes_on { GoesOn S.Store tx.old.conn.now tx.new.conn.now result }
    ensures up { WasUp S.Store tx.old.conn.now tx.new.conn.now result }
    ensures survives { Survives (state S.Store tx.old.conn.now) (state S.Store tx.new.conn.now)
        (λ _. ⊥) }
{
    raise_promise(tx, slot.first(), vote.ballot)?;
    add_vote(tx, slot, vote, bytes)
}

fn commit_both<S: Alter>(
    conn: &mut Connection<S>,
    slot: Slot,
    vote: &Vote,
    bytes: &[u8],
) -> Result<(), Error>
    requires bytes { bytes.now ≡ spelled_command vote.now.value }
    requires reads { read_command bytes.now ≡ Ok vote.now.value }
    requires quiet { conn.old.in_transaction ≡ false }
    ensures commits { Commits S.Store conn.old conn.new
        (λ store. with_vote store slot vote.now) result }
    ensures up { WasOpen S.Store conn.old conn.new result }
    ensures ended { conn.new.in_transaction ≡ false }
    ensures undone { Undone S.Store conn.old conn.new result }
    ensures survives { Survives (state S.Store conn.old) (state S.Store conn.new)
        (IsTurned (state S.Store conn.old) (λ store. with_vote store slot vote.now)) }
{
    let mut tx = conn.transaction();
    put_both(&mut tx, slot, vote, bytes)?;
    tx.commit()
}

/// Saves the vote, whose value has these bytes, and its ballot as the promise of its block.
pub fn put_vote<S: Alter>(
    conn: &mut Connection<S>,
    slot: Slot,
    vote: &Vote,
    bytes: &[u8],
) -> Result<(), Error>
    requires bytes { bytes.now ≡ spelled_command vote.now.value }
    requires reads { read_command bytes.now ≡ Ok vote.now.value }
    ensures saves { Saves S.Store conn.old conn.new
        (λ store. with_vote store slot vote.now) result }
    ensures ready { StaysReady S.Store conn.old conn.new }
    ensures clean { Doubts S.Store conn.old conn.new }
{
    if !conn.is_autocommit() {
        return Err(Error::InvalidQuery);
    }
    commit_both(conn, slot, vote, bytes)
}
