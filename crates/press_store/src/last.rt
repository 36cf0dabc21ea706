//! The last slot with a vote, in the table `vote`.

ghost use Rattle.std.specs.Prelude.{◌≡◌, IfSome};
ghost use Rattle.sqlite.specs.Order.{column};
ghost use Rattle.press_wire.specs.Ranges.{last_slot};
ghost use Rattle.press_store.specs.Attempt.{Answers, Doubts, Looks, StaysReady};
ghost use Rattle.press_store.specs.Shown.{number_in};
ghost use Rattle.press_store.specs.Voted as spec;
ghost use Rattle.press_store.specs.Voted.{IsLastVote};

use crate::rows::slot;
use crate::statement::read;
use press_wire::{LAST_SLOT, Slot};
use sqlite::{Alter, Connection, Error, Row as Shown};

fn find_last<S: Alter>(conn: &mut Connection<S>) -> Result<Vec<Shown>, Error>
    ensures looks { Looks S.Store conn.old conn.new }
    ensures last { Answers S.Store conn.old conn.new result
        (λ store rows. IfSome (spec.last_in rows.items) (IsLastVote store)) }
    ensures ready { StaysReady S.Store conn.old conn.new }
    ensures clean { Doubts S.Store conn.old conn.new }
{
    read(
        conn,
        "SELECT slot FROM vote ORDER BY slot DESC LIMIT 1",
        &[],
    )
}

fn slot_of(row: &Shown) -> Option<Slot>
    ensures { result ≡ number_in 1 last_slot (column row.now 0) }
{
    match row.get_ref(0) {
        Ok(value) => slot(value, 1, LAST_SLOT),
        Err(_) => None,
    }
}

fn last_in(rows: &[Shown]) -> Option<Option<Slot>>
    ensures { result ≡ spec.last_in rows.now }
{
    match rows {
        [] => Some(None),
        [row] => slot_of(row).map(Some),
        _ => None,
    }
}

/// The last slot with a vote; None where a slot is damaged.
pub fn read_last<S: Alter>(conn: &mut Connection<S>) -> Result<Option<Option<Slot>>, Error>
    ensures looks { Looks S.Store conn.old conn.new }
    ensures last { Answers S.Store conn.old conn.new result
        (λ store found. IfSome found (IsLastVote store)) }
    ensures ready { StaysReady S.Store conn.old conn.new }
    ensures clean { Doubts S.Store conn.old conn.new }
{
    let rows = find_last(conn)?;
    Ok(last_in(&rows))
}
