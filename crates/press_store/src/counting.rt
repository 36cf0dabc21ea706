//! The saves of a start, each in one transaction with its count.

ghost use Rattle.std.specs.Prelude.{◌≡◌, true, false, Ok};
ghost use Rattle.sqlite.specs.State.{Survives};
ghost use Rattle.sqlite.specs.Held.{state};
ghost use Rattle.press_wire.specs.Blocks.{is_first};
ghost use Rattle.press_wire.specs.Reading.{read_command};
ghost use Rattle.press_wire.specs.Spelling.{spelled_command};
ghost use Rattle.press_acceptor.specs.StoreMap.{with_promise, with_vote, with_round};
ghost use Rattle.press_store.specs.Attempt.{Doubts};
ghost use Rattle.press_store.specs.Counting.{Acts, CommitsAll, Counts, IsActed, IsCounted, counted};
ghost use Rattle.press_store.specs.Starts.{is_start};
ghost use Rattle.press_store.specs.Steps.{GoesOn, Keeps, Undone, WasOpen, WasUp};
ghost use Rattle.press_store.specs.Tables.{HasStarts};

use crate::block::raise_promise;
use crate::count::{Count, put_count};
use crate::meta::set_round;
use crate::save_vote::put_both;
use press_wire::{Ballot, Round, Slot, Vote};
use sqlite::{Alter, Connection, Error, Transaction};

fn put_promise_counted<S: Alter>(
    tx: &mut Transaction<'_, S>,
    first: Slot,
    ballot: Ballot,
    count: &Count,
) -> Result<(), Error>
    requires first { is_first first ≡ true }
    requires start { is_start count.now.mark.start ≡ true }
    ensures same_reference { tx.new.conn.ghost_name ≡ tx.old.conn.ghost_name }
    ensures acts { Acts S.Store HasStarts
        (IsCounted (λ store. with_promise store first ballot)
        (counted count.now.mark count.now.heard.items))
        tx.old.conn.now tx.new.conn.now result }
    ensures kept { Keeps S.Store tx.old.conn.now tx.new.conn.now }
    ensures goes_on { GoesOn S.Store tx.old.conn.now tx.new.conn.now result }
    ensures up { WasUp S.Store tx.old.conn.now tx.new.conn.now result }
    ensures survives { Survives (state S.Store tx.old.conn.now) (state S.Store tx.new.conn.now)
        (λ _. ⊥) }
{
    raise_promise(tx, first, ballot)?;
    put_count(tx, count)
}

fn commit_promise<S: Alter>(
    conn: &mut Connection<S>,
    first: Slot,
    ballot: Ballot,
    count: &Count,
) -> Result<(), Error>
    requires first { is_first first ≡ true }
    requires start { is_start count.now.mark.start ≡ true }
    requires quiet { conn.old.in_transaction ≡ false }
    ensures commits { CommitsAll S.Store HasStarts
        (IsCounted (λ store. with_promise store first ballot)
        (counted count.now.mark count.now.heard.items))
        conn.old conn.new result }
    ensures up { WasOpen S.Store conn.old conn.new result }
    ensures ended { conn.new.in_transaction ≡ false }
    ensures undone { Undone S.Store conn.old conn.new result }
    ensures survives { Survives (state S.Store conn.old) (state S.Store conn.new)
        (IsActed HasStarts (IsCounted (λ store. with_promise store first ballot)
        (counted count.now.mark count.now.heard.items))
        (state S.Store conn.old)) }
{
    let mut tx = conn.transaction();
    put_promise_counted(&mut tx, first, ballot, count)?;
    tx.commit()
}

/// Saves the promise with its count, from a file that has the start.
pub fn count_promise<S: Alter>(
    conn: &mut Connection<S>,
    first: Slot,
    ballot: Ballot,
    count: &Count,
) -> Result<(), Error>
    requires first { is_first first ≡ true }
    requires start { is_start count.now.mark.start ≡ true }
    ensures counts { Counts S.Store conn.old conn.new count.now.mark.start
        (IsCounted (λ store. with_promise store first ballot)
        (counted count.now.mark count.now.heard.items)) result }
    ensures clean { Doubts S.Store conn.old conn.new }
{
    if !conn.is_autocommit() {
        return Err(Error::InvalidQuery);
    }
    commit_promise(conn, first, ballot, count)
}

fn put_vote_counted<S: Alter>(
    tx: &mut Transaction<'_, S>,
    slot: Slot,
    vote: &Vote,
    bytes: &[u8],
    count: &Count,
) -> Result<(), Error>
    requires bytes { bytes.now ≡ spelled_command vote.now.value }
    requires reads { read_command bytes.now ≡ Ok vote.now.value }
    requires start { is_start count.now.mark.start ≡ true }
    ensures same_reference { tx.new.conn.ghost_name ≡ tx.old.conn.ghost_name }
    ensures acts { Acts S.Store HasStarts
        (IsCounted (λ store. with_vote store slot vote.now)
        (counted count.now.mark count.now.heard.items))
        tx.old.conn.now tx.new.conn.now result }
    ensures kept { Keeps S.Store tx.old.conn.now tx.new.conn.now }
    ensures goes_on { GoesOn S.Store tx.old.conn.now tx.new.conn.now result }
    ensures up { WasUp S.Store tx.old.conn.now tx.new.conn.now result }
    ensures survives { Survives (state S.Store tx.old.conn.now) (state S.Store tx.new.conn.now)
        (λ _. ⊥) }
{
    put_both(tx, slot, vote, bytes)?;
    put_count(tx, count)
}

fn commit_vote<S: Alter>(
    conn: &mut Connection<S>,
    slot: Slot,
    vote: &Vote,
    bytes: &[u8],
    count: &Count,
) -> Result<(), Error>
    requires bytes { bytes.now ≡ spelled_command vote.now.value }
    requires reads { read_command bytes.now ≡ Ok vote.now.value }
    requires start { is_start count.now.mark.start ≡ true }
    requires quiet { conn.old.in_transaction ≡ false }
    ensures commits { CommitsAll S.Store HasStarts
        (IsCounted (λ store. with_vote store slot vote.now)
        (counted count.now.mark count.now.heard.items))
        conn.old conn.new result }
    ensures up { WasOpen S.Store conn.old conn.new result }
    ensures ended { conn.new.in_transaction ≡ false }
    ensures undone { Undone S.Store conn.old conn.new result }
    ensures survives { Survives (state S.Store conn.old) (state S.Store conn.new)
        (IsActed HasStarts (IsCounted (λ store. with_vote store slot vote.now)
        (counted count.now.mark count.now.heard.items))
        (state S.Store conn.old)) }
{
    let mut tx = conn.transaction();
    put_vote_counted(&mut tx, slot, vote, bytes, count)?;
    tx.commit()
}

/// Saves the vote with its count, from a file that has the start.
pub fn count_vote<S: Alter>(
    conn: &mut Connection<S>,
    slot: Slot,
    vote: &Vote,
    bytes: &[u8],
    count: &Count,
) -> Result<(), Error>
    requires bytes { bytes.now ≡ spelled_command vote.now.value }
    requires reads { read_command bytes.now ≡ Ok vote.now.value }
    requires start { is_start count.now.mark.start ≡ true }
    ensures counts { Counts S.Store conn.old conn.new count.now.mark.start
        (IsCounted (λ store. with_vote store slot vote.now)
        (counted count.now.mark count.now.heard.items)) result }
    ensures clean { Doubts S.Store conn.old conn.new }
{
    if !conn.is_autocommit() {
        return Err(Error::InvalidQuery);
    }
    commit_vote(conn, slot, vote, bytes, count)
}

fn put_round_counted<S: Alter>(
    tx: &mut Transaction<'_, S>,
    round: Round,
    count: &Count,
) -> Result<(), Error>
    requires start { is_start count.now.mark.start ≡ true }
    ensures same_reference { tx.new.conn.ghost_name ≡ tx.old.conn.ghost_name }
    ensures acts { Acts S.Store HasStarts
        (IsCounted (λ store. with_round store round)
        (counted count.now.mark count.now.heard.items))
        tx.old.conn.now tx.new.conn.now result }
    ensures kept { Keeps S.Store tx.old.conn.now tx.new.conn.now }
    ensures goes_on { GoesOn S.Store tx.old.conn.now tx.new.conn.now result }
    ensures up { WasUp S.Store tx.old.conn.now tx.new.conn.now result }
    ensures survives { Survives (state S.Store tx.old.conn.now) (state S.Store tx.new.conn.now)
        (λ _. ⊥) }
{
    set_round(tx, round)?;
    put_count(tx, count)
}

fn commit_round<S: Alter>(
    conn: &mut Connection<S>,
    round: Round,
    count: &Count,
) -> Result<(), Error>
    requires start { is_start count.now.mark.start ≡ true }
    requires quiet { conn.old.in_transaction ≡ false }
    ensures commits { CommitsAll S.Store HasStarts
        (IsCounted (λ store. with_round store round)
        (counted count.now.mark count.now.heard.items))
        conn.old conn.new result }
    ensures up { WasOpen S.Store conn.old conn.new result }
    ensures ended { conn.new.in_transaction ≡ false }
    ensures undone { Undone S.Store conn.old conn.new result }
    ensures survives { Survives (state S.Store conn.old) (state S.Store conn.new)
        (IsActed HasStarts (IsCounted (λ store. with_round store round)
        (counted count.now.mark count.now.heard.items))
        (state S.Store conn.old)) }
{
    let mut tx = conn.transaction();
    put_round_counted(&mut tx, round, count)?;
    tx.commit()
}

/// Saves the round with its count, from a file that has the start.
pub fn count_round<S: Alter>(
    conn: &mut Connection<S>,
    round: Round,
    count: &Count,
) -> Result<(), Error>
    requires start { is_start count.now.mark.start ≡ true }
    ensures counts { Counts S.Store conn.old conn.new count.now.mark.start
        (IsCounted (λ store. with_round store round)
        (counted count.now.mark count.now.heard.items)) result }
    ensures clean { Doubts S.Store conn.old conn.new }
{
    if !conn.is_autocommit() {
        return Err(Error::InvalidQuery);
    }
    commit_round(conn, round, count)
}
