//! The votes for slots, in the table `vote`.

ghost use Rattle.std.specs.Prelude.{◌≡◌, ◌≤◌, ◌+◌, true, pos, Ok, IfOk, IfSome};
ghost use Rattle.sqlite.specs.declared.types.Value.TheVariants.{Int};
ghost use Rattle.sqlite.specs.State.{Survives};
ghost use Rattle.sqlite.specs.Held.{state};
ghost use Rattle.sqlite.specs.Value.{owned};
ghost use Rattle.press_wire.specs.Blocks.{is_first};
ghost use Rattle.press_wire.specs.Ranges.{last_slot};
ghost use Rattle.press_wire.specs.Reading.{read_command};
ghost use Rattle.press_wire.specs.Spelling.{spelled_command};
ghost use Rattle.press_acceptor.specs.StoreMap.{block_votes};
ghost use Rattle.press_store.specs.Attempt.{Answers, Doubts, Looks, Opens, StaysReady};
ghost use Rattle.press_store.specs.Counting.{SparesStarts};
ghost use Rattle.press_store.specs.Moving.{Does, VotePut};
ghost use Rattle.press_store.specs.Saving.{AddsVote};
ghost use Rattle.press_store.specs.Shown.{vote_in, shown_vote, shown_votes};
ghost use Rattle.press_store.specs.Steps.{GoesOn, Keeps, Turns, WasUp};

use crate::rows::{ballot, bytes_value, node_value, round_value, slot, slot_value};
use crate::statement::read;
use press_wire::{Ballot, Slot, SlotVote, Vote, Votes, WireFault, decode_cmd};
use sqlite::types::ValueRef;
use sqlite::{Alter, Connection, Error, ErrorCode, Row as Shown, Transaction};
use std::alloc::Global;

/// Adds the vote, whose value has these bytes, where its block has promised.
pub fn add_vote<S: Alter>(
    tx: &mut Transaction<'_, S>,
    slot: Slot,
    vote: &Vote,
    bytes: &[u8],
) -> Result<usize, Error>
    requires bytes { bytes.now ≡ spelled_command vote.now.value }
    requires reads { read_command bytes.now ≡ Ok vote.now.value }
    ensures same_reference { tx.new.conn.ghost_name ≡ tx.old.conn.ghost_name }
    ensures turns { Turns S.Store tx.old.conn.now tx.new.conn.now (AddsVote slot vote.now) result }
    ensures spares { SparesStarts S.Store tx.old.conn.now tx.new.conn.now result }
    ensures puts { Does S.Store tx.old.conn.now tx.new.conn.now result
        (λ old new _. VotePut slot vote.now old new) }
    ensures kept { Keeps S.Store tx.old.conn.now tx.new.conn.now }
    ensures goes_on { GoesOn S.Store tx.old.conn.now tx.new.conn.now result }
    ensures up { WasUp S.Store tx.old.conn.now tx.new.conn.now result }
    ensures survives { Survives (state S.Store tx.old.conn.now) (state S.Store tx.new.conn.now)
        (λ _. ⊥) }
{
    let params = [
        slot_value(slot),
        round_value(vote.ballot.round),
        node_value(vote.ballot.node),
        bytes_value(bytes),
    ];
    tx.execute(
        "INSERT OR REPLACE INTO vote (slot, round, node, value) VALUES (?1, ?2, ?3, ?4)",
        &params,
    )
}

// The last slot of the block with this first one.
fn last_value<'a>(first: Slot) -> ValueRef<'a>
    ensures { owned result ≡ Int (pos (first + 15)) }
{
    ValueRef::Int(i64::from(first.number() + 15))
}

fn find_votes<S: Alter>(conn: &mut Connection<S>, first: Slot) -> Result<Vec<Shown>, Error>
    requires { is_first first ≡ true }
    ensures opened { Opens S.Store conn.old conn.new result }
    ensures looks { Looks S.Store conn.old conn.new }
    ensures votes { Answers S.Store conn.old conn.new result
        (λ store rows. IfSome (shown_votes first (first + 15) rows.items)
        (λ votes. votes ≡ block_votes store first)) }
    ensures ready { StaysReady S.Store conn.old conn.new }
    ensures clean { Doubts S.Store conn.old conn.new }
{
    let params = [slot_value(first), last_value(first)];
    read(
        conn,
        "SELECT slot, round, node, value FROM vote WHERE slot >= ?1 AND slot <= ?2 ORDER BY slot",
        &params,
    )
}

// The vote in this ballot for the value that these bytes spell; None where they are damaged.
fn vote(alloc: Global, ballot: Option<Ballot>, bytes: ValueRef<'_>) -> Result<Option<Vote>, Error>
    ensures { IfOk result (λ vote. vote ≡ vote_in ballot (owned bytes.entry)) }
{
    let (Some(ballot), ValueRef::Blob(bytes)) = (ballot, bytes) else {
        return Ok(None);
    };
    match decode_cmd(alloc, bytes) {
        Ok(value) => Ok(Some(Vote { ballot, value })),
        Err(WireFault::NoMemory) => Err(Error::SqliteFailure(ErrorCode::OutOfMemory)),
        Err(_) => Ok(None),
    }
}

// The vote in a row, for a slot from the least one to the last; None where it is damaged.
fn slot_vote(alloc: Global, row: &Shown, least: u32, last: u32) -> Result<Option<SlotVote>, Error>
    requires { (1 ≤ least) × (last ≤ last_slot) }
    ensures { IfOk result (λ found. found ≡ shown_vote least last row.now) }
{
    let slot = slot(row.get_ref(0)?, least, last);
    let ballot = ballot(row.get_ref(1)?, row.get_ref(2)?);
    match (slot, vote(alloc, ballot, row.get_ref(3)?)?) {
        (Some(slot), Some(vote)) => Ok(Some(SlotVote { slot, vote })),
        _ => Ok(None),
    }
}

fn decode(alloc: Global, rows: &[Shown], first: Slot) -> Result<Option<Votes>, Error>
    requires { is_first first ≡ true }
    ensures { IfOk result (λ found. found ≡ shown_votes first (first + 15) rows.now) }
{
    let mut votes = Votes::new(alloc);
    let mut least = first.number();
    let last = least + 15;
    for row in rows {
        let Some(vote) = slot_vote(alloc, row, least, last)? else {
            return Ok(None);
        };
        least = vote.slot.number() + 1;
        votes.push(vote)?;
    }
    Ok(Some(votes))
}

/// Reads the votes of the block with this first slot; None where one is damaged.
pub fn read_votes<S: Alter>(
    alloc: Global,
    conn: &mut Connection<S>,
    first: Slot,
) -> Result<Option<Votes>, Error>
    requires { is_first first ≡ true }
    ensures opened { Opens S.Store conn.old conn.new result }
    ensures looks { Looks S.Store conn.old conn.new }
    ensures votes { Answers S.Store conn.old conn.new result
        (λ store found. IfSome found (λ votes. votes ≡ block_votes store first)) }
    ensures ready { StaysReady S.Store conn.old conn.new }
    ensures clean { Doubts S.Store conn.old conn.new }
{
    let rows = find_votes(conn, first)?;
    decode(alloc, &rows, first)
}
