//! One statement on a connection. Its text is prepared first, so a connection that is shut runs
//! nothing.

ghost use Rattle.std.specs.Prelude.{◌≡◌, false};
ghost use Rattle.sqlite.specs.Values.{bound};
ghost use Rattle.press_store.specs.Attempt.{Asked, Doubts, Ran};

use sqlite::types::ValueRef;
use sqlite::{Alter, Connection, Error, Row as Shown};

pub fn write<S: Alter>(
    conn: &mut Connection<S>,
    sql: &str,
    params: &[ValueRef<'_>],
) -> Result<usize, Error>
    ensures ran { Ran S.Store conn.old conn.new sql.now (bound params.now) result }
    ensures clean { Doubts S.Store conn.old conn.new }
{
    let statement = conn.prepare(sql)?;
    statement.execute(conn, params)
}

/// All rows of a query.
pub fn read<S: Alter>(
    conn: &mut Connection<S>,
    sql: &str,
    params: &[ValueRef<'_>],
) -> Result<Vec<Shown>, Error>
    ensures asked { Asked S.Store conn.old conn.new sql.now (bound params.now) result }
    ensures quiet { conn.old.in_transaction ≡ false → conn.new.in_transaction ≡ false }
    ensures clean { Doubts S.Store conn.old conn.new }
{
    let statement = conn.prepare(sql)?;
    statement.query_all(conn, params)
}
