//! The promises of blocks, in the table `block`.

ghost use Rattle.std.specs.Prelude.{◌≡◌, true, IfOk, IfSome};
ghost use Rattle.sqlite.specs.State.{Survives};
ghost use Rattle.sqlite.specs.Held.{state};
ghost use Rattle.press_wire.specs.Blocks.{is_first};
ghost use Rattle.press_acceptor.specs.StoreMap.{with_promise};
ghost use Rattle.press_store.specs.Attempt.{Answers, Doubts, Looks, Opens, Saves, StaysReady};
ghost use Rattle.press_store.specs.Counting.{SparesStarts};
ghost use Rattle.press_store.specs.Moving.{BallotPut, Does};
ghost use Rattle.press_store.specs.Saving.{PutsPromise};
ghost use Rattle.press_store.specs.Shown.{ballot_in, shown_promise, IsPromiseShown};
ghost use Rattle.press_store.specs.Steps.{GoesOn, Keeps, Turns, WasUp};
ghost use Rattle.sqlite.specs.Order.{column};

use crate::rows::{ballot, node_value, round_value, slot_value};
use crate::statement::{read, write};
use press_wire::{Ballot, Slot};
use sqlite::{Alter, Connection, Error, Row as Shown, Transaction};

const SAVE: &str = "INSERT OR REPLACE INTO block (first, round, node) VALUES (?1, ?2, ?3)";

/// Saves the promise of the block with this first slot.
pub fn put_promise<S: Alter>(
    conn: &mut Connection<S>,
    first: Slot,
    ballot: Ballot,
) -> Result<usize, Error>
    requires { is_first first ≡ true }
    ensures saves { Saves S.Store conn.old conn.new
        (λ store. with_promise store first ballot) result }
    ensures ready { StaysReady S.Store conn.old conn.new }
    ensures clean { Doubts S.Store conn.old conn.new }
{
    let params = [
        slot_value(first),
        round_value(ballot.round),
        node_value(ballot.node),
    ];
    write(conn, SAVE, &params)
}

/// The same within a transaction.
pub fn raise_promise<S: Alter>(
    tx: &mut Transaction<'_, S>,
    first: Slot,
    ballot: Ballot,
) -> Result<usize, Error>
    requires { is_first first ≡ true }
    ensures same_reference { tx.new.conn.ghost_name ≡ tx.old.conn.ghost_name }
    ensures turns { Turns S.Store tx.old.conn.now tx.new.conn.now
        (PutsPromise first ballot) result }
    ensures spares { SparesStarts S.Store tx.old.conn.now tx.new.conn.now result }
    ensures puts { Does S.Store tx.old.conn.now tx.new.conn.now result
        (λ old new _. BallotPut first ballot old new) }
    ensures kept { Keeps S.Store tx.old.conn.now tx.new.conn.now }
    ensures goes_on { GoesOn S.Store tx.old.conn.now tx.new.conn.now result }
    ensures up { WasUp S.Store tx.old.conn.now tx.new.conn.now result }
    ensures survives { Survives (state S.Store tx.old.conn.now) (state S.Store tx.new.conn.now)
        (λ _. ⊥) }
{
    let params = [
        slot_value(first),
        round_value(ballot.round),
        node_value(ballot.node),
    ];
    tx.execute(SAVE, &params)
}

fn find_promise<S: Alter>(conn: &mut Connection<S>, first: Slot) -> Result<Vec<Shown>, Error>
    requires { is_first first ≡ true }
    ensures opened { Opens S.Store conn.old conn.new result }
    ensures looks { Looks S.Store conn.old conn.new }
    ensures promise { Answers S.Store conn.old conn.new result
        (λ store rows. IfSome (shown_promise rows.items) (IsPromiseShown store first)) }
    ensures ready { StaysReady S.Store conn.old conn.new }
    ensures clean { Doubts S.Store conn.old conn.new }
{
    let params = [slot_value(first)];
    read(
        conn,
        "SELECT round, node FROM block WHERE first = ?1",
        &params,
    )
}

fn ballot_of(row: &Shown) -> Option<Ballot>
    ensures { result ≡ ballot_in (column row.now 0) (column row.now 1) }
{
    match (row.get_ref(0), row.get_ref(1)) {
        (Ok(round), Ok(node)) => ballot(round, node),
        _ => None,
    }
}

fn promise_in(rows: &[Shown]) -> Option<Option<Ballot>>
    ensures { result ≡ shown_promise rows.now }
{
    match rows {
        [] => Some(None),
        [row] => ballot_of(row).map(Some),
        _ => None,
    }
}

/// Reads the row of the block with this first slot; None where it is damaged.
pub fn read_promise<S: Alter>(
    conn: &mut Connection<S>,
    first: Slot,
) -> Result<Option<Option<Ballot>>, Error>
    requires { is_first first ≡ true }
    ensures opened { Opens S.Store conn.old conn.new result }
    ensures looks { Looks S.Store conn.old conn.new }
    ensures promise { Answers S.Store conn.old conn.new result
        (λ store found. IfSome found (IsPromiseShown store first)) }
    ensures ready { StaysReady S.Store conn.old conn.new }
    ensures clean { Doubts S.Store conn.old conn.new }
{
    let rows = find_promise(conn, first)?;
    Ok(promise_in(&rows))
}
