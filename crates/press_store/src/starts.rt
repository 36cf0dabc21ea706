//! What a file says of starts, in its tables `start` and `mark`.

ghost use Rattle.std.specs.Prelude.{◌≡◌, true, codes};
ghost use Rattle.sqlite.specs.Held.{state};
ghost use Rattle.sqlite.specs.Order.{column};
ghost use Rattle.press_store.specs.Adopted.{has_table};
ghost use Rattle.press_store.specs.Attempt.{Doubts, Looks};
ghost use Rattle.press_store.specs.Counting.{Says};
ghost use Rattle.press_store.specs.Starts.{bits_in, is_start, mark_of, shown_mark, shown_saves};

use crate::ours::has_starts;
use crate::rows::{bits, digest_value, node_value};
use crate::statement::read;
use press_starts::Mark;
use press_wire::MemberId;
use sqlite::{Alter, Connection, Error, Row as Shown};
use std::alloc::{AllocError, Global};

fn bits_at(row: &Shown, at: usize) -> Option<u64>
    ensures { result ≡ bits_in (column row.now at) }
{
    match row.get_ref(at) {
        Ok(value) => bits(value),
        Err(_) => None,
    }
}

fn saves_in(rows: &[Shown]) -> Option<Option<u64>>
    ensures { result ≡ shown_saves rows.now }
{
    match rows {
        [] => Some(None),
        [row] => bits_at(row, 0).map(Some),
        _ => None,
    }
}

fn mark_at(row: &Shown) -> Option<Mark>
    ensures { result ≡ mark_of (bits_in (column row.now 0)) (bits_in (column row.now 1)) }
{
    match (bits_at(row, 0), bits_at(row, 1)) {
        (Some(start), Some(saves)) => Some(Mark { start, saves }),
        _ => None,
    }
}

fn mark_in(rows: &[Shown]) -> Option<Option<Mark>>
    ensures { result ≡ shown_mark rows.now }
{
    match rows {
        [] => Some(None),
        [row] => mark_at(row).map(Some),
        _ => None,
    }
}

fn find_saves<S: Alter>(conn: &mut Connection<S>, start: u64) -> Result<Vec<Shown>, Error>
    requires start { is_start start ≡ true }
    requires there { has_table (state S.Store conn.old).now.schema (codes "start") ≡ true }
    ensures looks { Looks S.Store conn.old conn.new }
    ensures saves { Says S.Store conn.old conn.new result
        (λ map rows. shown_saves rows.items ≡ map.saves start) }
    ensures clean { Doubts S.Store conn.old conn.new }
{
    let params = [digest_value(start)];
    read(conn, "SELECT saves FROM start WHERE name = ?1", &params)
}

fn find_mark<S: Alter>(conn: &mut Connection<S>, member: MemberId) -> Result<Vec<Shown>, Error>
    requires { has_table (state S.Store conn.old).now.schema (codes "start") ≡ true }
    ensures looks { Looks S.Store conn.old conn.new }
    ensures mark { Says S.Store conn.old conn.new result
        (λ map rows. shown_mark rows.items ≡ map.heard member) }
    ensures clean { Doubts S.Store conn.old conn.new }
{
    let params = [node_value(member)];
    read(
        conn,
        "SELECT start, saves FROM mark WHERE member = ?1",
        &params,
    )
}

fn find_names<S: Alter>(conn: &mut Connection<S>) -> Result<Vec<Shown>, Error>
    requires { has_table (state S.Store conn.old).now.schema (codes "start") ≡ true }
    ensures looks { Looks S.Store conn.old conn.new }
    ensures clean { Doubts S.Store conn.old conn.new }
{
    read(conn, "SELECT name FROM start", &[])
}

// The names in these rows; None where one is damaged.
fn names_in(alloc: Global, rows: &[Shown]) -> Result<Option<Vec<u64>>, AllocError> {
    let mut names = Vec::new(alloc);
    for row in rows {
        let Some(name) = bits_at(row, 0) else {
            return Ok(None);
        };
        names.push(name)?;
    }
    Ok(Some(names))
}

/// The names of the starts that the file has; None where one is damaged.
pub fn read_names<S: Alter>(
    alloc: Global,
    conn: &mut Connection<S>,
) -> Result<Option<Vec<u64>>, Error>
    ensures looks { Looks S.Store conn.old conn.new }
    ensures clean { Doubts S.Store conn.old conn.new }
{
    if !has_starts(conn.schema()) {
        return Ok(Some(Vec::new(alloc)));
    }
    let rows = find_names(conn)?;
    let names = names_in(alloc, &rows)?;
    Ok(names)
}

/// How many saves the start made, where the file has it; None where its row is damaged.
pub fn read_saves<S: Alter>(
    conn: &mut Connection<S>,
    start: u64,
) -> Result<Option<Option<u64>>, Error>
    requires { is_start start ≡ true }
    ensures looks { Looks S.Store conn.old conn.new }
    ensures saves { Says S.Store conn.old conn.new result (λ map found. found ≡ map.saves start) }
    ensures clean { Doubts S.Store conn.old conn.new }
{
    if !has_starts(conn.schema()) {
        return Ok(Some(None));
    }
    let rows = find_saves(conn, start)?;
    Ok(saves_in(&rows))
}

/// The last mark that was heard of the member; None where its row is damaged.
pub fn read_mark<S: Alter>(
    conn: &mut Connection<S>,
    member: MemberId,
) -> Result<Option<Option<Mark>>, Error>
    ensures looks { Looks S.Store conn.old conn.new }
    ensures mark { Says S.Store conn.old conn.new result (λ map found. found ≡ map.heard member) }
    ensures clean { Doubts S.Store conn.old conn.new }
{
    if !has_starts(conn.schema()) {
        return Ok(Some(None));
    }
    let rows = find_mark(conn, member)?;
    Ok(mark_in(&rows))
}
