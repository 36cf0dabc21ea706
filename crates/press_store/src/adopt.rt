//! The tables of a database that is to be a store.

ghost use Rattle.std.specs.Prelude.{◌≡◌, pos, [], true, false, None, Err, IsTrue, IfOk, OnErr};
ghost use Rattle.sqlite.specs.declared.types.Value.TheVariants.{Int};
ghost use Rattle.sqlite.specs.Order.{column};
ghost use Rattle.sqlite.specs.Held.{state};
ghost use Rattle.press_acceptor.specs.declared.fault.StoreFault.TheVariants.{Damaged};
ghost use Rattle.press_store.specs.Attempt.{Doubts, IsSettled};
ghost use Rattle.sqlite.specs.State.{IsLive};
ghost use Rattle.press_store.specs.Shown.{IsKept, IsOurVersion, IsEmptied};
ghost use Rattle.press_store.specs.Adopted.{IsOld, IsOurs, IsServed, IsAdopted, IsHandedBack, is_half};
ghost use Rattle.press_store.specs.Adopting.{AdoptsFrom, HandsBackFrom, IsNothing, IsMoved, IsPassed};
ghost use Rattle.press_store.specs.Adopting.{IsOneNumber, IsOneTwo, LooksAt, OnlyReads, Shows, Tells};

use crate::fault::fault_of;
use crate::make::make;
use crate::migrate::migrate;
use crate::ours::{has_block, has_old, is_empty, is_half, is_old, is_ours};
use crate::statement::read;
use press_acceptor::StoreFault;
use sqlite::types::ValueRef;
use sqlite::{Alter, Connection, Error, Row as Shown};
use std::alloc::Global;

fn begins_with_number(row: &Shown) -> bool
    ensures { IsTrue result → (id : _) × (column row.now 0 ≡ Int id) }
{
    matches!(row.get_ref(0), Ok(ValueRef::Int(_)))
}

fn is_one_number(rows: &[Shown]) -> bool
    ensures { IsTrue result → IsOneNumber rows.now }
{
    match rows {
        [row] => begins_with_number(row),
        _ => false,
    }
}

fn begins_with_two(row: &Shown) -> bool
    ensures { IsTrue result → column row.now 0 ≡ Int (pos 2) }
{
    matches!(row.get_ref(0), Ok(ValueRef::Int(2)))
}

fn is_one_two(rows: &[Shown]) -> bool
    ensures { IsTrue result → IsOneTwo rows.now }
{
    match rows {
        [row] => begins_with_two(row),
        _ => false,
    }
}

fn is_none(rows: &[Shown]) -> bool
    ensures { IsTrue result → rows.now ≡ [] }
{
    rows.is_empty()
}

// Whether `meta` has a last round.
fn has_round<D: Alter>(conn: &mut Connection<D>) -> Result<bool, Error>
    ensures looks { LooksAt D.Store IsOurs conn.old conn.new }
    ensures shows { Shows D.Store IsOurs conn.old conn.new result }
    ensures tells { Tells D.Store IsOurs conn.old conn.new IsKept result }
    ensures clean { Doubts D.Store conn.old conn.new }
{
    let rows = read(
        conn,
        "SELECT rowid, n FROM meta WHERE name = 'last_round'",
        &[],
    )?;
    Ok(is_one_number(&rows))
}

// Whether `meta` has the version of these tables.
fn has_version<D: Alter>(conn: &mut Connection<D>) -> Result<bool, Error>
    ensures looks { LooksAt D.Store IsOurs conn.old conn.new }
    ensures shows { Shows D.Store IsOurs conn.old conn.new result }
    ensures tells { Tells D.Store IsOurs conn.old conn.new IsOurVersion result }
    ensures clean { Doubts D.Store conn.old conn.new }
{
    let rows = read(conn, "SELECT n FROM meta WHERE name = 'version'", &[])?;
    Ok(is_one_two(&rows))
}

// Whether the table of version 1 has no row.
fn is_emptied<D: Alter>(conn: &mut Connection<D>) -> Result<bool, Error>
    ensures looks { LooksAt D.Store IsMoved conn.old conn.new }
    ensures shows { Shows D.Store IsMoved conn.old conn.new result }
    ensures tells { Tells D.Store IsMoved conn.old conn.new IsEmptied result }
    ensures clean { Doubts D.Store conn.old conn.new }
{
    let rows = read(conn, "SELECT slot FROM promise LIMIT 1", &[])?;
    Ok(is_none(&rows))
}

// Whether `meta` has its two rows.
fn has_both<D: Alter>(conn: &mut Connection<D>) -> Result<bool, Error>
    ensures looks { LooksAt D.Store IsOurs conn.old conn.new }
    ensures shows { Shows D.Store IsOurs conn.old conn.new result }
    ensures tells { Tells D.Store IsOurs conn.old conn.new
        (λ db. IsKept db × IsOurVersion db) result }
    ensures clean { Doubts D.Store conn.old conn.new }
{
    if !has_round(conn)? {
        return Ok(false);
    }
    has_version(conn)
}

// Whether `meta` has its two rows, and no row of version 1 is left.
fn is_whole<D: Alter>(conn: &mut Connection<D>) -> Result<bool, Error>
    requires quiet { conn.old.in_transaction ≡ false }
    requires unlimited { conn.old.step_limit ≡ None }
    requires settled { IsSettled (state D.Store conn.old) }
    requires live { IsLive (state D.Store conn.old) }
    ensures passed { IsPassed D.Store IsOurs conn.old conn.new result }
    ensures back { OnlyReads D.Store IsOurs conn.old conn.new }
    ensures clean { Doubts D.Store conn.old conn.new }
{
    if !has_both(conn)? {
        return Ok(false);
    }
    if !has_old(conn.schema()) {
        return Ok(true);
    }
    is_emptied(conn)
}

// Refused unless the tables are whole.
fn prepare_ours<D: Alter>(conn: &mut Connection<D>) -> Result<(), StoreFault>
    requires quiet { conn.old.in_transaction ≡ false }
    requires unlimited { conn.old.step_limit ≡ None }
    requires settled { IsSettled (state D.Store conn.old) }
    requires live { IsLive (state D.Store conn.old) }
    ensures adopts { AdoptsFrom D.Store IsOurs conn.old conn.new result }
    ensures back { HandsBackFrom D.Store IsOurs conn.old conn.new result }
    ensures clean { Doubts D.Store conn.old conn.new }
{
    match is_whole(conn) {
        Ok(true) => Ok(()),
        Ok(false) => Err(StoreFault::Damaged),
        Err(error) => Err(fault_of(error)),
    }
}

// Adopts a database with nothing in it.
fn prepare_empty<D: Alter>(conn: &mut Connection<D>) -> Result<(), StoreFault>
    requires quiet { conn.old.in_transaction ≡ false }
    requires unlimited { conn.old.step_limit ≡ None }
    requires settled { IsSettled (state D.Store conn.old) }
    requires live { IsLive (state D.Store conn.old) }
    ensures adopts { AdoptsFrom D.Store IsNothing conn.old conn.new result }
    ensures back { HandsBackFrom D.Store IsNothing conn.old conn.new result }
    ensures clean { Doubts D.Store conn.old conn.new }
{
    make(conn).map_err(fault_of)
}

// Adopts a database of version 1, which is one of this version then.
fn prepare_old<D: Alter>(alloc: Global, conn: &mut Connection<D>) -> Result<(), StoreFault>
    requires quiet { conn.old.in_transaction ≡ false }
    requires unlimited { conn.old.step_limit ≡ None }
    requires settled { IsSettled (state D.Store conn.old) }
    requires live { IsLive (state D.Store conn.old) }
    ensures adopts { AdoptsFrom D.Store IsOld conn.old conn.new result }
    ensures back { HandsBackFrom D.Store IsOld conn.old conn.new result }
    ensures clean { Doubts D.Store conn.old conn.new }
{
    migrate(alloc, conn).map_err(fault_of)
}

// Adopts a database with other tables, of which no clause speaks, and with all of a store's, of
// either version, or none.
fn prepare_other<D: Alter>(alloc: Global, conn: &mut Connection<D>) -> Result<(), StoreFault>
    requires quiet { conn.old.in_transaction ≡ false }
    requires unlimited { conn.old.step_limit ≡ None }
    requires settled { IsSettled (state D.Store conn.old) }
    requires live { IsLive (state D.Store conn.old) }
    ensures clean { Doubts D.Store conn.old conn.new }
{
    if has_block(conn.schema()) {
        return prepare_ours(conn);
    }
    if has_old(conn.schema()) {
        return migrate(alloc, conn).map_err(fault_of);
    }
    make(conn).map_err(fault_of)
}

/// Makes the tables if there are none, and migrates those of version 1. Returns whether they are
/// those that a store makes, with nothing else.
pub fn prepare<D: Alter>(alloc: Global, conn: &mut Connection<D>) -> Result<bool, StoreFault>
    ensures ours { IfOk result (λ is_ours. IsServed (state D.Store conn.old) → IsTrue is_ours) }
    ensures adopts { IfOk result (λ is_ours. IsTrue is_ours → IsAdopted D.Store conn.old conn.new) }
    ensures half { is_half (state D.Store conn.old).now.schema ≡ true →
        (result ≡ Err Damaged) × (conn.new ≡ conn.old) }
    ensures back { OnErr result (IsHandedBack D.Store conn.old conn.new) }
    ensures clean { Doubts D.Store conn.old conn.new }
{
    if !conn.is_autocommit() {
        return Err(StoreFault::Damaged);
    }
    if is_half(conn.schema()) {
        return Err(StoreFault::Damaged);
    }
    conn.set_step_limit(None);
    if is_ours(conn.schema()) {
        prepare_ours(conn)?;
        return Ok(true);
    }
    if is_empty(conn.schema()) {
        prepare_empty(conn)?;
        return Ok(true);
    }
    if is_old(conn.schema()) {
        prepare_old(alloc, conn)?;
        return Ok(true);
    }
    prepare_other(alloc, conn)?;
    Ok(false)
}
