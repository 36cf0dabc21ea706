//! The table of version 1, emptied.

ghost use Rattle.std.specs.Prelude.{◌≡◌, [], IsTrue};
ghost use Rattle.sqlite.specs.State.{Survives};
ghost use Rattle.sqlite.specs.Held.{state};
ghost use Rattle.press_store.specs.Moving.{Does, IsCleared, OthersKept, ShowsNone};
ghost use Rattle.press_store.specs.Steps.{GoesOn, Keeps};

use crate::version_1_rows::damage;
use sqlite::{Alter, Error, Row as Shown, Transaction};

// Nothing is said of what stays in the table itself: that is asked afterwards.
fn delete_rows<S: Alter>(tx: &mut Transaction<'_, S>) -> Result<usize, Error>
    ensures same_reference { tx.new.conn.ghost_name ≡ tx.old.conn.ghost_name }
    ensures kept { Keeps S.Store tx.old.conn.now tx.new.conn.now }
    ensures goes_on { GoesOn S.Store tx.old.conn.now tx.new.conn.now result }
    ensures cleared { Does S.Store tx.old.conn.now tx.new.conn.now result
        (λ old new _. OthersKept old new) }
    ensures survives { Survives (state S.Store tx.old.conn.now) (state S.Store tx.new.conn.now)
        (λ _. ⊥) }
{
    tx.execute("DELETE FROM promise", &[])
}

fn rows_left<S: Alter>(tx: &mut Transaction<'_, S>) -> Result<Vec<Shown>, Error>
    ensures same_reference { tx.new.conn.ghost_name ≡ tx.old.conn.ghost_name }
    ensures kept { Keeps S.Store tx.old.conn.now tx.new.conn.now }
    ensures goes_on { GoesOn S.Store tx.old.conn.now tx.new.conn.now result }
    ensures found { Does S.Store tx.old.conn.now tx.new.conn.now result
        (λ old new rows. ShowsNone old new rows.items) }
    ensures survives { Survives (state S.Store tx.old.conn.now) (state S.Store tx.new.conn.now)
        (λ _. ⊥) }
{
    tx.query_all("SELECT slot FROM promise LIMIT 1", &[])
}

fn is_none(rows: &[Shown]) -> bool
    ensures { IsTrue result → rows.now ≡ [] }
{
    rows.is_empty()
}

/// Empties the table of version 1.
pub fn clear<S: Alter>(tx: &mut Transaction<'_, S>) -> Result<(), Error>
    ensures same_reference { tx.new.conn.ghost_name ≡ tx.old.conn.ghost_name }
    ensures kept { Keeps S.Store tx.old.conn.now tx.new.conn.now }
    ensures goes_on { GoesOn S.Store tx.old.conn.now tx.new.conn.now result }
    ensures cleared { Does S.Store tx.old.conn.now tx.new.conn.now result
        (λ old new _. IsCleared old new) }
    ensures survives { Survives (state S.Store tx.old.conn.now) (state S.Store tx.new.conn.now)
        (λ _. ⊥) }
{
    delete_rows(tx)?;
    let rows = rows_left(tx)?;
    if !is_none(&rows) {
        return Err(damage());
    }
    Ok(())
}
