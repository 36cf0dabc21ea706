//! A store of version 1, migrated in one transaction.

ghost use Rattle.std.specs.Prelude.{◌≡◌, false};
ghost use Rattle.sqlite.specs.State.{Survives};
ghost use Rattle.sqlite.specs.Held.{state};
ghost use Rattle.press_store.specs.Attempt.{IsSettled};
ghost use Rattle.press_store.specs.Making.{Unmade};
ghost use Rattle.press_store.specs.Migrated.{IsMigratedFrom, Migrated, Migrates};
ghost use Rattle.press_store.specs.Moving.{DoesFrom, TablesAdded};
ghost use Rattle.press_store.specs.Steps.{GoesOn, Keeps, WasUp};
ghost use Rattle.press_store.specs.Tables.{old_schema};

use crate::clearing::clear;
use crate::make::{MAKE_BLOCK, MAKE_VOTE};
use crate::marking::mark;
use crate::moving::move_all_blocks;
use sqlite::{Alter, Connection, Error, Transaction};
use std::alloc::Global;

// Makes the tables of blocks and votes beside those of version 1.
fn add_tables<S: Alter>(tx: &mut Transaction<'_, S>) -> Result<usize, Error>
    ensures same_reference { tx.new.conn.ghost_name ≡ tx.old.conn.ghost_name }
    ensures kept { Keeps S.Store tx.old.conn.now tx.new.conn.now }
    ensures goes_on { GoesOn S.Store tx.old.conn.now tx.new.conn.now result }
    ensures added { DoesFrom S.Store tx.old.conn.now tx.new.conn.now old_schema result
        (λ old new _. TablesAdded old new) }
    ensures up { WasUp S.Store tx.old.conn.now tx.new.conn.now result }
    ensures survives { Survives (state S.Store tx.old.conn.now) (state S.Store tx.new.conn.now)
        (λ _. ⊥) }
{
    tx.execute(MAKE_BLOCK, &[])?;
    tx.execute(MAKE_VOTE, &[])
}

// Moves the rows, empties their table, and marks it.
fn move_all<S: Alter>(alloc: Global, tx: &mut Transaction<'_, S>) -> Result<(), Error>
    ensures same_reference { tx.new.conn.ghost_name ≡ tx.old.conn.ghost_name }
    ensures kept { Keeps S.Store tx.old.conn.now tx.new.conn.now }
    ensures goes_on { GoesOn S.Store tx.old.conn.now tx.new.conn.now result }
    ensures migrated { DoesFrom S.Store tx.old.conn.now tx.new.conn.now old_schema result
        (λ old new _. Migrated old new) }
    ensures up { WasUp S.Store tx.old.conn.now tx.new.conn.now result }
    ensures survives { Survives (state S.Store tx.old.conn.now) (state S.Store tx.new.conn.now)
        (λ _. ⊥) }
{
    add_tables(tx)?;
    move_all_blocks(alloc, tx)?;
    clear(tx)?;
    mark(tx)
}

/// Migrates the tables of version 1, or leaves them as they are.
pub fn migrate<S: Alter>(alloc: Global, conn: &mut Connection<S>) -> Result<(), Error>
    requires quiet { conn.old.in_transaction ≡ false }
    requires settled { IsSettled (state S.Store conn.old) }
    ensures migrated { Migrates S.Store conn.old conn.new result }
    ensures ended { conn.new.in_transaction ≡ false }
    ensures unmade { Unmade S.Store conn.old conn.new result }
    ensures survives { Survives (state S.Store conn.old) (state S.Store conn.new)
        (IsMigratedFrom (state S.Store conn.old)) }
{
    let mut tx = conn.transaction();
    move_all(alloc, &mut tx)?;
    tx.commit()
}
