//! The last round, in the table `meta`.

ghost use Rattle.std.specs.Prelude.{◌≡◌, IfSome};
ghost use Rattle.sqlite.specs.State.{Survives};
ghost use Rattle.sqlite.specs.Held.{state};
ghost use Rattle.sqlite.specs.Order.{column};
ghost use Rattle.sqlite.specs.Value.{owned};
ghost use Rattle.press_acceptor.specs.StoreMap.{with_round};
ghost use Rattle.press_store.specs.Attempt.{Answers, Doubts, Looks, Opens, Saves, StaysReady};
ghost use Rattle.press_store.specs.Counting.{SparesStarts};
ghost use Rattle.press_store.specs.Steps.{GoesOn, Keeps, Turns, WasUp};
ghost use Rattle.press_store.specs.Shown.{most_rounds, number_in, IsRoundRow};

use crate::rows::round_value;
use crate::statement::{read, write};
use press_wire::{GREATEST_ROUND, Round};
use sqlite::types::ValueRef;
use sqlite::{Alter, Connection, Error, Row as Shown, Transaction};

const SAVE: &str = "UPDATE meta SET n = ?1 WHERE name = 'last_round'";

pub fn put_round<S: Alter>(conn: &mut Connection<S>, round: Round) -> Result<usize, Error>
    ensures saves { Saves S.Store conn.old conn.new (λ store. with_round store round) result }
    ensures ready { StaysReady S.Store conn.old conn.new }
    ensures clean { Doubts S.Store conn.old conn.new }
{
    let params = [round_value(round)];
    write(conn, SAVE, &params)
}

/// The same within a transaction.
pub fn set_round<S: Alter>(tx: &mut Transaction<'_, S>, round: Round) -> Result<usize, Error>
    ensures same_reference { tx.new.conn.ghost_name ≡ tx.old.conn.ghost_name }
    ensures turns { Turns S.Store tx.old.conn.now tx.new.conn.now
        (λ old new. new ≡ with_round old round) result }
    ensures spares { SparesStarts S.Store tx.old.conn.now tx.new.conn.now result }
    ensures kept { Keeps S.Store tx.old.conn.now tx.new.conn.now }
    ensures goes_on { GoesOn S.Store tx.old.conn.now tx.new.conn.now result }
    ensures up { WasUp S.Store tx.old.conn.now tx.new.conn.now result }
    ensures survives { Survives (state S.Store tx.old.conn.now) (state S.Store tx.new.conn.now)
        (λ _. ⊥) }
{
    let params = [round_value(round)];
    tx.execute(SAVE, &params)
}

fn find_round<S: Alter>(conn: &mut Connection<S>) -> Result<Vec<Shown>, Error>
    ensures opened { Opens S.Store conn.old conn.new result }
    ensures looks { Looks S.Store conn.old conn.new }
    ensures round { Answers S.Store conn.old conn.new result
        (λ store rows. IsRoundRow store rows.items) }
    ensures ready { StaysReady S.Store conn.old conn.new }
    ensures clean { Doubts S.Store conn.old conn.new }
{
    read(conn, "SELECT n FROM meta WHERE name = 'last_round'", &[])
}

/// The round that a value gives, which may be 0.
pub fn number(value: ValueRef<'_>) -> Option<u64>
    ensures { result ≡ number_in 0 most_rounds (owned value.entry) }
{
    let ValueRef::Int(n) = value else {
        return None;
    };
    if n < 0 {
        return None;
    }
    let n = n as u64;
    if n <= GREATEST_ROUND { Some(n) } else { None }
}

fn round_of(row: &Shown) -> Option<u64>
    ensures { result ≡ number_in 0 most_rounds (column row.now 0) }
{
    match row.get_ref(0) {
        Ok(value) => number(value),
        Err(_) => None,
    }
}

/// Reads the last round; None where it is damaged.
pub fn read_round<S: Alter>(conn: &mut Connection<S>) -> Result<Option<u64>, Error>
    ensures opened { Opens S.Store conn.old conn.new result }
    ensures looks { Looks S.Store conn.old conn.new }
    ensures round { Answers S.Store conn.old conn.new result
        (λ store found. IfSome found (λ n. n ≡ store.last_round)) }
    ensures ready { StaysReady S.Store conn.old conn.new }
    ensures clean { Doubts S.Store conn.old conn.new }
{
    let rows = find_round(conn)?;
    match rows.first() {
        Some(row) => Ok(round_of(row)),
        None => Ok(None),
    }
}
