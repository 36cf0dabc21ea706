//! The table `note`: its rows, each put in a transaction of its own, and read.

ghost use Rattle.std.specs.Prelude.{◌≡◌, true, false, codes, option_map, IfOk};
ghost use Rattle.sqlite.specs.State.{Survives};
ghost use Rattle.sqlite.specs.Held.{state};
ghost use Rattle.sqlite.specs.Order.{column};
ghost use Rattle.press_store.specs.Adopted.{has_table};
ghost use Rattle.press_store.specs.Attempt.{Doubts, Looks};
ghost use Rattle.press_store.specs.Counting.{Acts, CommitsAll, IsActed, LacksStarts, PutsNote, Says, WritesWhole};
ghost use Rattle.press_store.specs.Noted.{bytes_of, id_of};
ghost use Rattle.press_store.specs.Starts.{bytes_in, shown_note};
ghost use Rattle.press_store.specs.Steps.{GoesOn, Keeps, Undone, WasOpen, WasUp};
ghost use Rattle.press_store.specs.Tables.{HasStarts};

use crate::begin::add_tables;
use crate::note::{Note, id_value, noted_name};
use crate::ours::has_starts;
use crate::rows::bytes_value;
use crate::statement::read;
use sqlite::types::ValueRef;
use sqlite::{Alter, Connection, Error, Row as Shown, Transaction};
use std::alloc::{AllocError, Global};

fn put_row<S: Alter>(tx: &mut Transaction<'_, S>, which: Note, bytes: &[u8]) -> Result<usize, Error>
    ensures same_reference { tx.new.conn.ghost_name ≡ tx.old.conn.ghost_name }
    ensures acts { Acts S.Store HasStarts (PutsNote (id_of which) bytes.now)
        tx.old.conn.now tx.new.conn.now result }
    ensures kept { Keeps S.Store tx.old.conn.now tx.new.conn.now }
    ensures goes_on { GoesOn S.Store tx.old.conn.now tx.new.conn.now result }
    ensures up { WasUp S.Store tx.old.conn.now tx.new.conn.now result }
    ensures survives { Survives (state S.Store tx.old.conn.now) (state S.Store tx.new.conn.now)
        (λ _. ⊥) }
{
    let params = [id_value(which), noted_name(which), bytes_value(bytes)];
    tx.execute(
        "INSERT OR REPLACE INTO note (id, name, value) VALUES (?1, ?2, ?3)",
        &params,
    )
}

// The tables, and in them the row.
fn put_first<S: Alter>(
    tx: &mut Transaction<'_, S>,
    which: Note,
    bytes: &[u8],
) -> Result<usize, Error>
    ensures same_reference { tx.new.conn.ghost_name ≡ tx.old.conn.ghost_name }
    ensures acts { Acts S.Store LacksStarts (PutsNote (id_of which) bytes.now)
        tx.old.conn.now tx.new.conn.now result }
    ensures kept { Keeps S.Store tx.old.conn.now tx.new.conn.now }
    ensures goes_on { GoesOn S.Store tx.old.conn.now tx.new.conn.now result }
    ensures up { WasUp S.Store tx.old.conn.now tx.new.conn.now result }
    ensures survives { Survives (state S.Store tx.old.conn.now) (state S.Store tx.new.conn.now)
        (λ _. ⊥) }
{
    add_tables(tx)?;
    put_row(tx, which, bytes)
}

fn commit_first<S: Alter>(conn: &mut Connection<S>, which: Note, bytes: &[u8]) -> Result<(), Error>
    requires quiet { conn.old.in_transaction ≡ false }
    ensures commits { CommitsAll S.Store LacksStarts (PutsNote (id_of which) bytes.now)
        conn.old conn.new result }
    ensures up { WasOpen S.Store conn.old conn.new result }
    ensures ended { conn.new.in_transaction ≡ false }
    ensures undone { Undone S.Store conn.old conn.new result }
    ensures survives { Survives (state S.Store conn.old) (state S.Store conn.new)
        (IsActed LacksStarts (PutsNote (id_of which) bytes.now) (state S.Store conn.old)) }
{
    let mut tx = conn.transaction();
    put_first(&mut tx, which, bytes)?;
    tx.commit()
}

fn commit_further<S: Alter>(
    conn: &mut Connection<S>,
    which: Note,
    bytes: &[u8],
) -> Result<(), Error>
    requires quiet { conn.old.in_transaction ≡ false }
    ensures commits { CommitsAll S.Store HasStarts (PutsNote (id_of which) bytes.now)
        conn.old conn.new result }
    ensures up { WasOpen S.Store conn.old conn.new result }
    ensures ended { conn.new.in_transaction ≡ false }
    ensures undone { Undone S.Store conn.old conn.new result }
    ensures survives { Survives (state S.Store conn.old) (state S.Store conn.new)
        (IsActed HasStarts (PutsNote (id_of which) bytes.now) (state S.Store conn.old)) }
{
    let mut tx = conn.transaction();
    put_row(&mut tx, which, bytes)?;
    tx.commit()
}

/// Puts the row of a note in the place of the one that is there, and makes the tables of starts
/// where they aren't there yet.
pub fn put_note<S: Alter>(conn: &mut Connection<S>, which: Note, bytes: &[u8]) -> Result<(), Error>
    ensures puts { WritesWhole S.Store conn.old conn.new
        (PutsNote (id_of which) bytes.now) result }
    ensures clean { Doubts S.Store conn.old conn.new }
{
    if !conn.is_autocommit() {
        return Err(Error::InvalidQuery);
    }
    if has_starts(conn.schema()) {
        return commit_further(conn, which, bytes);
    }
    commit_first(conn, which, bytes)
}

fn bytes_at(row: &Shown, at: usize) -> Option<&[u8]>
    ensures { option_map (λ bytes. bytes.now) result ≡ bytes_in (column row.now at) }
{
    match row.get_ref(at) {
        Ok(ValueRef::Blob(bytes)) => Some(bytes),
        _ => None,
    }
}

// The bytes in these rows, where there is one; None where it is damaged.
fn note_in(alloc: Global, rows: &[Shown]) -> Result<Option<Option<Vec<u8>>>, AllocError>
    ensures { IfOk result (λ found. option_map bytes_of found ≡ shown_note rows.now) }
{
    match rows {
        [] => Ok(Some(None)),
        [row] => match bytes_at(row, 0) {
            Some(bytes) => Ok(Some(Some(Vec::from_slice(alloc, bytes)?))),
            None => Ok(None),
        },
        _ => Ok(None),
    }
}

fn find_note<S: Alter>(conn: &mut Connection<S>, which: Note) -> Result<Vec<Shown>, Error>
    requires { has_table (state S.Store conn.old).now.schema (codes "start") ≡ true }
    ensures looks { Looks S.Store conn.old conn.new }
    ensures note { Says S.Store conn.old conn.new result
        (λ map rows. shown_note rows.items ≡ map.notes (id_of which)) }
    ensures clean { Doubts S.Store conn.old conn.new }
{
    let params = [id_value(which)];
    read(conn, "SELECT value FROM note WHERE id = ?1", &params)
}

/// The bytes of a note, where the file has it; None where its row is damaged.
pub fn read_note<S: Alter>(
    alloc: Global,
    conn: &mut Connection<S>,
    which: Note,
) -> Result<Option<Option<Vec<u8>>>, Error>
    ensures looks { Looks S.Store conn.old conn.new }
    ensures note { Says S.Store conn.old conn.new result
        (λ map found. option_map bytes_of found ≡ map.notes (id_of which)) }
    ensures clean { Doubts S.Store conn.old conn.new }
{
    if !has_starts(conn.schema()) {
        return Ok(Some(None));
    }
    let rows = find_note(conn, which)?;
    let found = note_in(alloc, &rows)?;
    Ok(found)
}
