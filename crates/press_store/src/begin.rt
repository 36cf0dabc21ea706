//! A start of a member, which its file has from then on.

ghost use Rattle.std.specs.Prelude.{◌≡◌, true, false};
ghost use Rattle.sqlite.specs.State.{Survives};
ghost use Rattle.sqlite.specs.Held.{state};
ghost use Rattle.press_store.specs.Attempt.{Doubts};
ghost use Rattle.press_store.specs.Counting.{Acts, BeginsStart, CommitsAll, IsActed, IsWritten, LacksStarts, WritesWhole, first_mark};
ghost use Rattle.press_store.specs.Starts.{is_start};
ghost use Rattle.press_store.specs.Steps.{GoesOn, Keeps, Undone, WasOpen, WasUp};
ghost use Rattle.press_store.specs.Tables.{HasStarts};

use crate::count::put_mark;
use crate::ours::has_starts;
use press_starts::Mark;
use sqlite::{Alter, Connection, Error, Transaction};

const MAKE_START: &str =
    "CREATE TABLE start (name INTEGER PRIMARY KEY, saves INTEGER NOT NULL) STRICT";

const MAKE_MARK: &str =
    "CREATE TABLE mark (member INTEGER PRIMARY KEY, start INTEGER NOT NULL, saves INTEGER NOT NULL) STRICT";

const MAKE_NOTE: &str =
    "CREATE TABLE note (id INTEGER PRIMARY KEY, name TEXT NOT NULL, value BLOB NOT NULL) STRICT";

/// The mark of a start that has saved nothing yet.
pub fn first_mark(start: u64) -> Mark
    ensures { result ≡ first_mark start }
{
    Mark { start, saves: 0 }
}

/// Whether it is the number of a start.
pub fn is_start(start: u64) -> bool
    ensures { result ≡ is_start start }
{
    start != 0
}

/// Makes the tables of starts, behind those of the store.
pub fn add_tables<S: Alter>(tx: &mut Transaction<'_, S>) -> Result<usize, Error>
    ensures same_reference { tx.new.conn.ghost_name ≡ tx.old.conn.ghost_name }
    ensures acts { Acts S.Store LacksStarts (IsWritten (λ store. store) (λ map. map))
        tx.old.conn.now tx.new.conn.now result }
    ensures kept { Keeps S.Store tx.old.conn.now tx.new.conn.now }
    ensures goes_on { GoesOn S.Store tx.old.conn.now tx.new.conn.now result }
    ensures up { WasUp S.Store tx.old.conn.now tx.new.conn.now result }
    ensures survives { Survives (state S.Store tx.old.conn.now) (state S.Store tx.new.conn.now)
        (λ _. ⊥) }
{
    tx.execute(MAKE_START, &[])?;
    tx.execute(MAKE_MARK, &[])?;
    tx.execute(MAKE_NOTE, &[])
}

// The tables, and in them the row of the start.
fn put_first<S: Alter>(tx: &mut Transaction<'_, S>, start: u64) -> Result<usize, Error>
    requires { is_start start ≡ true }
    ensures same_reference { tx.new.conn.ghost_name ≡ tx.old.conn.ghost_name }
    ensures acts { Acts S.Store LacksStarts (BeginsStart start)
        tx.old.conn.now tx.new.conn.now result }
    ensures kept { Keeps S.Store tx.old.conn.now tx.new.conn.now }
    ensures goes_on { GoesOn S.Store tx.old.conn.now tx.new.conn.now result }
    ensures up { WasUp S.Store tx.old.conn.now tx.new.conn.now result }
    ensures survives { Survives (state S.Store tx.old.conn.now) (state S.Store tx.new.conn.now)
        (λ _. ⊥) }
{
    add_tables(tx)?;
    put_mark(tx, first_mark(start))
}

fn commit_first<S: Alter>(conn: &mut Connection<S>, start: u64) -> Result<(), Error>
    requires start { is_start start ≡ true }
    requires quiet { conn.old.in_transaction ≡ false }
    ensures commits { CommitsAll S.Store LacksStarts (BeginsStart start) conn.old conn.new result }
    ensures up { WasOpen S.Store conn.old conn.new result }
    ensures ended { conn.new.in_transaction ≡ false }
    ensures undone { Undone S.Store conn.old conn.new result }
    ensures survives { Survives (state S.Store conn.old) (state S.Store conn.new)
        (IsActed LacksStarts (BeginsStart start) (state S.Store conn.old)) }
{
    let mut tx = conn.transaction();
    put_first(&mut tx, start)?;
    tx.commit()
}

fn commit_further<S: Alter>(conn: &mut Connection<S>, start: u64) -> Result<(), Error>
    requires start { is_start start ≡ true }
    requires quiet { conn.old.in_transaction ≡ false }
    ensures commits { CommitsAll S.Store HasStarts (BeginsStart start) conn.old conn.new result }
    ensures up { WasOpen S.Store conn.old conn.new result }
    ensures ended { conn.new.in_transaction ≡ false }
    ensures undone { Undone S.Store conn.old conn.new result }
    ensures survives { Survives (state S.Store conn.old) (state S.Store conn.new)
        (IsActed HasStarts (BeginsStart start) (state S.Store conn.old)) }
{
    let mut tx = conn.transaction();
    put_mark(&mut tx, first_mark(start))?;
    tx.commit()
}

/// Puts the row of the start, and makes the tables of starts where they aren't there yet.
pub fn begin<S: Alter>(conn: &mut Connection<S>, start: u64) -> Result<(), Error>
    requires { is_start start ≡ true }
    ensures begins { WritesWhole S.Store conn.old conn.new (BeginsStart start) result }
    ensures clean { Doubts S.Store conn.old conn.new }
{
    if !conn.is_autocommit() {
        return Err(Error::InvalidQuery);
    }
    if has_starts(conn.schema()) {
        return commit_further(conn, start);
    }
    commit_first(conn, start)
}
