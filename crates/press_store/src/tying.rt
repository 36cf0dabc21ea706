//! The rows of `meta` that say whose file it is.

ghost use Rattle.std.specs.Prelude.{◌≡◌, None, Some, IfSome};
ghost use Rattle.sqlite.specs.Order.{column};
ghost use Rattle.press_store.specs.Attempt.{Doubts, Looks, Opens, StaysReady};
ghost use Rattle.press_store.specs.declared.owner.Tie.TheVariants.{Taken};
ghost use Rattle.press_store.specs.Owned as spec;
ghost use Rattle.press_store.specs.Owned.{entry_in, int_in, owner_in, shown_entry};
ghost use Rattle.press_store.specs.Tying.{Fails, Finds, KeepsVersion, Owns, Spares, SparesTied, Stops, Ties};

use crate::marking::name_value;
use crate::owner::{Owner, Tie, tie_of};
use crate::rows::{
    digest_value, member_count, member_number, node_value, small_value, unsigned_number,
};
use crate::statement::{read, write};
use sqlite::types::ValueRef;
use sqlite::{Alter, Connection, Error, Row as Shown};

fn find_entry<S: Alter>(conn: &mut Connection<S>, name: &[u8]) -> Result<Vec<Shown>, Error>
    ensures opened { Opens S.Store conn.old conn.new result }
    ensures looks { Looks S.Store conn.old conn.new }
    ensures spares { Spares S.Store conn.old conn.new }
    ensures entry { Finds S.Store conn.old conn.new result
        (λ db rows. shown_entry rows.items ≡ entry_in name.now db) }
    ensures ready { StaysReady S.Store conn.old conn.new }
    ensures clean { Doubts S.Store conn.old conn.new }
{
    let params = [name_value(name)];
    read(conn, "SELECT n FROM meta WHERE name = ?1", &params)
}

fn int_of(row: &Shown) -> Option<i64>
    ensures { result ≡ int_in (column row.now 0) }
{
    match row.get_ref(0) {
        Ok(ValueRef::Int(n)) => Some(n),
        _ => None,
    }
}

// The number in these rows, where there is one; None where it is damaged.
fn entry(rows: &[Shown]) -> Option<Option<i64>>
    ensures { result ≡ shown_entry rows.now }
{
    match rows {
        [] => Some(None),
        [row] => int_of(row).map(Some),
        _ => None,
    }
}

fn read_entry<S: Alter>(conn: &mut Connection<S>, name: &[u8]) -> Result<Option<Option<i64>>, Error>
    ensures opened { Opens S.Store conn.old conn.new result }
    ensures looks { Looks S.Store conn.old conn.new }
    ensures spares { Spares S.Store conn.old conn.new }
    ensures entry { Finds S.Store conn.old conn.new result
        (λ db found. found ≡ entry_in name.now db) }
    ensures ready { StaysReady S.Store conn.old conn.new }
    ensures clean { Doubts S.Store conn.old conn.new }
{
    let rows = find_entry(conn, name)?;
    Ok(entry(&rows))
}

fn owner_from(number: i64, members: i64, peers: i64) -> Option<Owner>
    ensures { result ≡ spec.owner_from number members peers }
{
    let number = member_number(number)?;
    let members = member_count(members)?;
    Some(Owner {
        number,
        members,
        peers: unsigned_number(peers),
    })
}

fn owner_by(
    number: Option<Option<i64>>,
    members: Option<Option<i64>>,
    peers: Option<Option<i64>>,
) -> Option<Option<Owner>>
    ensures { result ≡ spec.owner_by number members peers }
{
    match (number?, members?, peers?) {
        (None, None, None) => Some(None),
        (Some(number), Some(members), Some(peers)) => owner_from(number, members, peers).map(Some),
        _ => None,
    }
}

/// Reads whose file it is; None where its rows are damaged.
#[tactic(auto, unfolding(crate::specs::Owned::owner_in))]
pub fn read_owner<S: Alter>(conn: &mut Connection<S>) -> Result<Option<Option<Owner>>, Error>
    ensures opened { Opens S.Store conn.old conn.new result }
    ensures looks { Looks S.Store conn.old conn.new }
    ensures spares { Spares S.Store conn.old conn.new }
    ensures owner { Finds S.Store conn.old conn.new result (λ db found. found ≡ owner_in db) }
    ensures ready { StaysReady S.Store conn.old conn.new }
    ensures clean { Doubts S.Store conn.old conn.new }
{
    let number = read_entry(conn, b"member")?;
    let members = read_entry(conn, b"members")?;
    let peers = read_entry(conn, b"peers")?;
    Ok(owner_by(number, members, peers))
}

fn put_owner<S: Alter>(conn: &mut Connection<S>, owner: Owner) -> Result<usize, Error>
    ensures opened { Opens S.Store conn.old conn.new result }
    ensures looks { Looks S.Store conn.old conn.new }
    ensures ties { Ties S.Store conn.old conn.new owner result }
    ensures version { KeepsVersion S.Store conn.old conn.new }
    ensures ready { StaysReady S.Store conn.old conn.new }
    ensures clean { Doubts S.Store conn.old conn.new }
{
    let params = [
        node_value(owner.number),
        small_value(owner.members),
        digest_value(owner.peers),
    ];
    write(
        conn,
        "INSERT INTO meta (name, n) VALUES ('member', ?1), ('members', ?2), ('peers', ?3)",
        &params,
    )
}

// The answer to whoever asks; None where the rows are damaged.
fn answer<S: Alter>(conn: &mut Connection<S>, asked: &Option<Owner>) -> Result<Option<Tie>, Error>
    ensures opened { Opens S.Store conn.old conn.new result }
    ensures looks { Looks S.Store conn.old conn.new }
    ensures spares { Spares S.Store conn.old conn.new }
    ensures answer { Finds S.Store conn.old conn.new result
        (λ db found. found ≡ spec.tie_of (owner_in db) asked.now) }
    ensures ready { StaysReady S.Store conn.old conn.new }
    ensures clean { Doubts S.Store conn.old conn.new }
{
    let said = read_owner(conn)?;
    Ok(tie_of(said, *asked))
}

// The member that takes the file, where it is answered so.
fn taker(found: Option<Tie>, asked: &Option<Owner>) -> Option<Owner>
    ensures taken { IfSome result (λ owner. (found ≡ Some Taken) × (asked.now ≡ Some owner)) }
    ensures other { result ≡ None → found ≡ Some Taken → asked.now ≡ None }
{
    match (found, asked) {
        (Some(Tie::Taken), Some(owner)) => Some(*owner),
        _ => None,
    }
}

/// The answer to whoever asks for the file, whose rows are written where it is nobody's and a
/// member asks; None where they are damaged.
pub fn tie_file<S: Alter>(
    conn: &mut Connection<S>,
    asked: Option<Owner>,
) -> Result<Option<Tie>, Error>
    ensures opened { Opens S.Store conn.old conn.new result }
    ensures looks { Looks S.Store conn.old conn.new }
    ensures answer { Finds S.Store conn.old conn.new result
        (λ db found. found ≡ spec.tie_of (owner_in db) asked) }
    ensures spares { SparesTied S.Store conn.old conn.new asked }
    ensures owns { Owns S.Store conn.old conn.new asked result }
    ensures fails { Fails S.Store conn.old conn.new result }
    ensures stops { Stops S.Store conn.old conn.new asked }
    ensures version { KeepsVersion S.Store conn.old conn.new }
    ensures ready { StaysReady S.Store conn.old conn.new }
    ensures clean { Doubts S.Store conn.old conn.new }
{
    let found = answer(conn, &asked)?;
    match taker(found, &asked) {
        Some(owner) => match put_owner(conn, owner) {
            Ok(_) => Ok(Some(Tie::Taken)),
            Err(error) => Err(error),
        },
        None => Ok(found),
    }
}
