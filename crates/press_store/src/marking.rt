//! The numbers in `meta`, of which a migration changes the version.

ghost use Rattle.std.specs.Prelude.{◌≡◌, pos, Some, IfSome, IsSome, IsTrue};
ghost use Rattle.sqlite.specs.State.{Survives};
ghost use Rattle.sqlite.specs.Held.{state};
ghost use Rattle.sqlite.specs.Order.{column};
ghost use Rattle.sqlite.specs.Value.{owned};
ghost use Rattle.sqlite.specs.declared.types.Value.TheVariants.{Int, Text};
ghost use Rattle.press_store.specs.Moving.{Does, IsMarked, IsOneOf, SetsMeta, ShowsMeta, ShowsNumber};
ghost use Rattle.press_store.specs.Shown.{most_rounds, number_in};
ghost use Rattle.press_store.specs.Steps.{GoesOn, Keeps};

use crate::meta::number;
use crate::version_1_rows::damage;
use sqlite::types::ValueRef;
use sqlite::{Alter, Error, Row as Shown, Transaction};

pub fn name_value(name: &[u8]) -> ValueRef<'_>
    ensures { owned result ≡ Text name.now }
{
    ValueRef::Text(name)
}

fn find_number<S: Alter>(tx: &mut Transaction<'_, S>, name: &[u8]) -> Result<Vec<Shown>, Error>
    ensures same_reference { tx.new.conn.ghost_name ≡ tx.old.conn.ghost_name }
    ensures kept { Keeps S.Store tx.old.conn.now tx.new.conn.now }
    ensures goes_on { GoesOn S.Store tx.old.conn.now tx.new.conn.now result }
    ensures found { Does S.Store tx.old.conn.now tx.new.conn.now result
        (λ old new rows. ShowsMeta name.now old new rows.items) }
    ensures survives { Survives (state S.Store tx.old.conn.now) (state S.Store tx.new.conn.now)
        (λ _. ⊥) }
{
    let params = [name_value(name)];
    tx.query_all("SELECT rowid, n FROM meta WHERE name = ?1", &params)
}

fn is_numbered(row: &Shown) -> bool
    ensures { IsTrue result → (id : _) × (column row.now 0 ≡ Int id) }
{
    matches!(row.get_ref(0), Ok(ValueRef::Int(_)))
}

fn int_in(row: &Shown) -> Option<i64>
    ensures { IfSome result (λ n. column row.now 1 ≡ Int n) }
{
    match row.get_ref(1) {
        Ok(ValueRef::Int(n)) => Some(n),
        _ => None,
    }
}

fn one_int(rows: &[Shown]) -> Option<i64>
    ensures { IfSome result (IsOneOf rows.now) }
{
    match rows {
        [row] if is_numbered(row) => int_in(row),
        _ => None,
    }
}

// The number under this name, where there is one row with one.
fn number_of<S: Alter>(tx: &mut Transaction<'_, S>, name: &[u8]) -> Result<Option<i64>, Error>
    ensures same_reference { tx.new.conn.ghost_name ≡ tx.old.conn.ghost_name }
    ensures kept { Keeps S.Store tx.old.conn.now tx.new.conn.now }
    ensures goes_on { GoesOn S.Store tx.old.conn.now tx.new.conn.now result }
    ensures found { Does S.Store tx.old.conn.now tx.new.conn.now result
        (λ old new found. ShowsNumber name.now old new found) }
    ensures survives { Survives (state S.Store tx.old.conn.now) (state S.Store tx.new.conn.now)
        (λ _. ⊥) }
{
    let rows = find_number(tx, name)?;
    Ok(one_int(&rows))
}

// Nothing is said of the numbers: they are asked for afterwards.
fn set_version<S: Alter>(tx: &mut Transaction<'_, S>) -> Result<usize, Error>
    ensures same_reference { tx.new.conn.ghost_name ≡ tx.old.conn.ghost_name }
    ensures kept { Keeps S.Store tx.old.conn.now tx.new.conn.now }
    ensures goes_on { GoesOn S.Store tx.old.conn.now tx.new.conn.now result }
    ensures set { Does S.Store tx.old.conn.now tx.new.conn.now result
        (λ old new _. SetsMeta old new) }
    ensures survives { Survives (state S.Store tx.old.conn.now) (state S.Store tx.new.conn.now)
        (λ _. ⊥) }
{
    tx.execute("UPDATE meta SET n = 2 WHERE name = 'version'", &[])
}

// Whether both are one number, which a last round may be.
fn is_same_round(a: Option<i64>, b: Option<i64>) -> bool
    ensures { IsTrue result → (n : _) × (a ≡ Some n) × (b ≡ Some n)
        × IsSome (number_in 0 most_rounds (Int n)) }
{
    match (a, b) {
        (Some(m), Some(n)) => m == n && number(ValueRef::Int(n)).is_some(),
        _ => false,
    }
}

fn is_one(a: Option<i64>) -> bool
    ensures { IsTrue result → a ≡ Some (pos 1) }
{
    matches!(a, Some(1))
}

fn is_two(a: Option<i64>) -> bool
    ensures { IsTrue result → a ≡ Some (pos 2) }
{
    matches!(a, Some(2))
}

/// Marks the tables, which were of version 1, as those of version 2. The last round stays.
pub fn mark<S: Alter>(tx: &mut Transaction<'_, S>) -> Result<(), Error>
    ensures same_reference { tx.new.conn.ghost_name ≡ tx.old.conn.ghost_name }
    ensures kept { Keeps S.Store tx.old.conn.now tx.new.conn.now }
    ensures goes_on { GoesOn S.Store tx.old.conn.now tx.new.conn.now result }
    ensures marked { Does S.Store tx.old.conn.now tx.new.conn.now result
        (λ old new _. IsMarked old new) }
    ensures survives { Survives (state S.Store tx.old.conn.now) (state S.Store tx.new.conn.now)
        (λ _. ⊥) }
{
    let held = number_of(tx, b"version")?;
    let before = number_of(tx, b"last_round")?;
    set_version(tx)?;
    let after = number_of(tx, b"last_round")?;
    let version = number_of(tx, b"version")?;
    if !is_one(held) || !is_same_round(before, after) || !is_two(version) {
        return Err(damage());
    }
    Ok(())
}
