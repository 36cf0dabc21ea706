//! The tables of a new store, made in one transaction.

ghost use Rattle.std.specs.Prelude.{◌≡◌, false};
ghost use Rattle.sqlite.specs.State.{Survives};
ghost use Rattle.sqlite.specs.Held.{state};
ghost use Rattle.press_store.specs.Attempt.{IsSettled};
ghost use Rattle.press_store.specs.Making.{IsNewIn, Makes, MakesRows, MakesTables, Unmade};
ghost use Rattle.press_store.specs.Steps.{GoesOn, Keeps, WasUp};

use sqlite::{Alter, Connection, Error, Transaction};

pub const MAKE_BLOCK: &str =
    "CREATE TABLE block (first INTEGER PRIMARY KEY, round INTEGER NOT NULL, node INTEGER NOT NULL) STRICT";

pub const MAKE_VOTE: &str =
    "CREATE TABLE vote (slot INTEGER PRIMARY KEY, round INTEGER NOT NULL, node INTEGER NOT NULL, value BLOB NOT NULL) STRICT";

fn make_tables<S: Alter>(tx: &mut Transaction<'_, S>) -> Result<usize, Error>
    ensures same_reference { tx.new.conn.ghost_name ≡ tx.old.conn.ghost_name }
    ensures made { MakesTables S.Store tx.old.conn.now tx.new.conn.now result }
    ensures up { WasUp S.Store tx.old.conn.now tx.new.conn.now result }
    ensures kept { Keeps S.Store tx.old.conn.now tx.new.conn.now }
    ensures goes_on { GoesOn S.Store tx.old.conn.now tx.new.conn.now result }
    ensures survives { Survives (state S.Store tx.old.conn.now) (state S.Store tx.new.conn.now)
        (λ _. ⊥) }
{
    tx.execute(MAKE_BLOCK, &[])?;
    tx.execute(MAKE_VOTE, &[])?;
    tx.execute(
        "CREATE TABLE meta (name TEXT PRIMARY KEY, n INTEGER NOT NULL) STRICT",
        &[],
    )
}

fn make_rows<S: Alter>(tx: &mut Transaction<'_, S>) -> Result<usize, Error>
    ensures same_reference { tx.new.conn.ghost_name ≡ tx.old.conn.ghost_name }
    ensures made { MakesRows S.Store tx.old.conn.now tx.new.conn.now result }
    ensures kept { Keeps S.Store tx.old.conn.now tx.new.conn.now }
    ensures goes_on { GoesOn S.Store tx.old.conn.now tx.new.conn.now result }
    ensures survives { Survives (state S.Store tx.old.conn.now) (state S.Store tx.new.conn.now)
        (λ _. ⊥) }
{
    tx.execute("INSERT INTO meta (name, n) VALUES ('version', 2)", &[])?;
    tx.execute("INSERT INTO meta (name, n) VALUES ('last_round', 0)", &[])
}

/// Makes the three tables, or nothing.
pub fn make<S: Alter>(conn: &mut Connection<S>) -> Result<(), Error>
    requires quiet { conn.old.in_transaction ≡ false }
    requires settled { IsSettled (state S.Store conn.old) }
    ensures made { Makes S.Store conn.old conn.new result }
    ensures ended { conn.new.in_transaction ≡ false }
    ensures unmade { Unmade S.Store conn.old conn.new result }
    ensures survives { Survives (state S.Store conn.old) (state S.Store conn.new)
        (IsNewIn (state S.Store conn.old)) }
{
    let mut tx = conn.transaction();
    make_tables(&mut tx)?;
    make_rows(&mut tx)?;
    tx.commit()
}
