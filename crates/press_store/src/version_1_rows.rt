//! The rows of version 1, in the table `promise`: each has the promise and the vote of a slot.

ghost use Rattle.std.specs.Prelude.{◌≡◌, pos, Ok, IfOk};
ghost use Rattle.sqlite.specs.State.{Survives};
ghost use Rattle.sqlite.specs.Held.{state};
ghost use Rattle.sqlite.specs.Ops.{is_null};
ghost use Rattle.sqlite.specs.Value.{owned};
ghost use Rattle.sqlite.specs.declared.types.Value.TheVariants.{Int};
ghost use Rattle.press_wire.specs.Reading.{read_command};
ghost use Rattle.press_wire.specs.Spelling.{spelled_command};
ghost use Rattle.press_store.specs.Moving.{Does, FindsRow, ShowsOutside};
ghost use Rattle.press_store.specs.Slots as spec;
ghost use Rattle.press_store.specs.Steps.{GoesOn, Keeps};

use crate::rows::{ballot, slot_value};
use press_wire::{Ballot, Slot, Vote, WireFault, decode_cmd};
use sqlite::types::ValueRef;
use sqlite::{Alter, Error, ErrorCode, Row as Shown, Transaction};
use std::alloc::Global;

/// What ends a migration where a row is damaged.
pub fn damage() -> Error {
    Error::InvalidQuery
}

fn number_value<'a>(n: u32) -> ValueRef<'a>
    ensures { owned result ≡ Int (pos n) }
{
    ValueRef::Int(i64::from(n))
}

/// The row of a slot.
pub fn find_slot<S: Alter>(tx: &mut Transaction<'_, S>, slot: Slot) -> Result<Vec<Shown>, Error>
    ensures same_reference { tx.new.conn.ghost_name ≡ tx.old.conn.ghost_name }
    ensures kept { Keeps S.Store tx.old.conn.now tx.new.conn.now }
    ensures goes_on { GoesOn S.Store tx.old.conn.now tx.new.conn.now result }
    ensures found { Does S.Store tx.old.conn.now tx.new.conn.now result
        (λ old new rows. FindsRow slot old new rows.items) }
    ensures survives { Survives (state S.Store tx.old.conn.now) (state S.Store tx.new.conn.now)
        (λ _. ⊥) }
{
    let params = [slot_value(slot)];
    tx.query_all(
        "SELECT round, node, vround, vnode, value FROM promise WHERE slot = ?1",
        &params,
    )
}

/// The row of the last slot, or none. What it shows is no more than a guess: the rows behind it are
/// asked for.
pub fn last_slot<S: Alter>(tx: &mut Transaction<'_, S>) -> Result<Vec<Shown>, Error>
    ensures same_reference { tx.new.conn.ghost_name ≡ tx.old.conn.ghost_name }
    ensures kept { Keeps S.Store tx.old.conn.now tx.new.conn.now }
    ensures goes_on { GoesOn S.Store tx.old.conn.now tx.new.conn.now result }
    ensures looks { Does S.Store tx.old.conn.now tx.new.conn.now result (λ old new _. new ≡ old) }
    ensures survives { Survives (state S.Store tx.old.conn.now) (state S.Store tx.new.conn.now)
        (λ _. ⊥) }
{
    tx.query_all("SELECT slot FROM promise ORDER BY slot DESC LIMIT 1", &[])
}

/// The rows that stand outside the slots from 1 to this number.
pub fn rows_outside<S: Alter>(tx: &mut Transaction<'_, S>, slot: u32) -> Result<Vec<Shown>, Error>
    ensures same_reference { tx.new.conn.ghost_name ≡ tx.old.conn.ghost_name }
    ensures kept { Keeps S.Store tx.old.conn.now tx.new.conn.now }
    ensures goes_on { GoesOn S.Store tx.old.conn.now tx.new.conn.now result }
    ensures found { Does S.Store tx.old.conn.now tx.new.conn.now result
        (λ old new rows. ShowsOutside slot old new rows.items) }
    ensures survives { Survives (state S.Store tx.old.conn.now) (state S.Store tx.new.conn.now)
        (λ _. ⊥) }
{
    let params = [number_value(slot)];
    tx.query_all(
        "SELECT slot FROM promise WHERE slot < 1 OR slot > ?1",
        &params,
    )
}

fn is_null(value: ValueRef<'_>) -> bool
    ensures { result ≡ is_null (owned value.entry) }
{
    matches!(value, ValueRef::Null)
}

/// The ballot of two values, where they have one; None where they are damaged.
pub fn perhaps_ballot(of_round: ValueRef<'_>, of_node: ValueRef<'_>) -> Option<Option<Ballot>>
    ensures { result ≡ spec.perhaps_ballot (owned of_round.entry) (owned of_node.entry) }
{
    if is_null(of_round) && is_null(of_node) {
        return Some(None);
    }
    ballot(of_round, of_node).map(Some)
}

/// The vote in the ballot for the value that the bytes spell.
pub fn spelled_vote(alloc: Global, ballot: Ballot, bytes: &[u8]) -> Result<Vote, Error>
    ensures ballot { IfOk result (λ vote. vote.ballot ≡ ballot) }
    ensures spelled { IfOk result (λ vote. bytes.now ≡ spelled_command vote.value) }
    ensures reads { IfOk result (λ vote. read_command bytes.now ≡ Ok vote.value) }
{
    match decode_cmd(alloc, bytes) {
        Ok(value) => Ok(Vote { ballot, value }),
        Err(WireFault::NoMemory) => Err(Error::SqliteFailure(ErrorCode::OutOfMemory)),
        Err(_) => Err(damage()),
    }
}

/// The greater one of two ballots, where there are any.
pub fn greater(a: Option<Ballot>, b: Option<Ballot>) -> Option<Ballot>
    ensures { result ≡ spec.greater a b }
{
    match (a, b) {
        (Some(a), Some(b)) => Some(if a.is_less(b) { b } else { a }),
        (None, b) => b,
        (a, None) => a,
    }
}
