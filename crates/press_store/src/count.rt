//! A save, counted: in the transaction of the save itself the start has one save more, and what was
//! heard of the other members is kept.

ghost use Rattle.std.specs.Prelude.{◌≡◌, true};
ghost use Rattle.sqlite.specs.State.{Survives};
ghost use Rattle.sqlite.specs.Held.{state};
ghost use Rattle.press_store.specs.Counting.{Acts, IsWritten, counted};
ghost use Rattle.press_store.specs.Starts.{is_start, with_all_heard, with_heard, with_mark};
ghost use Rattle.press_store.specs.Steps.{GoesOn, Keeps, WasUp};
ghost use Rattle.press_store.specs.Tables.{HasStarts};

use crate::rows::{digest_value, node_value};
use press_starts::{Mark, Sighting};
use sqlite::{Alter, Error, Transaction};

/// With what a save is counted: how many saves the start has made with it, and what was heard.
#[derive(Debug, Drop)]
pub struct Count {
    pub mark: Mark,
    pub heard: Vec<Sighting>,
}

/// Puts the row of a start.
pub fn put_mark<S: Alter>(tx: &mut Transaction<'_, S>, mark: Mark) -> Result<usize, Error>
    requires { is_start mark.start ≡ true }
    ensures same_reference { tx.new.conn.ghost_name ≡ tx.old.conn.ghost_name }
    ensures acts { Acts S.Store HasStarts (IsWritten (λ store. store) (with_mark mark))
        tx.old.conn.now tx.new.conn.now result }
    ensures kept { Keeps S.Store tx.old.conn.now tx.new.conn.now }
    ensures goes_on { GoesOn S.Store tx.old.conn.now tx.new.conn.now result }
    ensures up { WasUp S.Store tx.old.conn.now tx.new.conn.now result }
    ensures survives { Survives (state S.Store tx.old.conn.now) (state S.Store tx.new.conn.now)
        (λ _. ⊥) }
{
    let params = [digest_value(mark.start), digest_value(mark.saves)];
    tx.execute(
        "INSERT OR REPLACE INTO start (name, saves) VALUES (?1, ?2)",
        &params,
    )
}

fn put_heard<S: Alter>(tx: &mut Transaction<'_, S>, it: Sighting) -> Result<usize, Error>
    ensures same_reference { tx.new.conn.ghost_name ≡ tx.old.conn.ghost_name }
    ensures acts { Acts S.Store HasStarts (IsWritten (λ store. store) (with_heard it))
        tx.old.conn.now tx.new.conn.now result }
    ensures kept { Keeps S.Store tx.old.conn.now tx.new.conn.now }
    ensures goes_on { GoesOn S.Store tx.old.conn.now tx.new.conn.now result }
    ensures survives { Survives (state S.Store tx.old.conn.now) (state S.Store tx.new.conn.now)
        (λ _. ⊥) }
{
    let params = [
        node_value(it.member),
        digest_value(it.mark.start),
        digest_value(it.mark.saves),
    ];
    tx.execute(
        "INSERT OR REPLACE INTO mark (member, start, saves) VALUES (?1, ?2, ?3)",
        &params,
    )
}

fn put_all_heard<S: Alter>(tx: &mut Transaction<'_, S>, heard: &[Sighting]) -> Result<(), Error>
    ensures same_reference { tx.new.conn.ghost_name ≡ tx.old.conn.ghost_name }
    ensures acts { Acts S.Store HasStarts (IsWritten (λ store. store) (with_all_heard heard.now))
        tx.old.conn.now tx.new.conn.now result }
    ensures kept { Keeps S.Store tx.old.conn.now tx.new.conn.now }
    ensures goes_on { GoesOn S.Store tx.old.conn.now tx.new.conn.now result }
    ensures survives { Survives (state S.Store tx.old.conn.now) (state S.Store tx.new.conn.now)
        (λ _. ⊥) }
{
    for it in heard {
        put_heard(tx, *it)?;
    }
    Ok(())
}

/// Puts the row of the start, and those of what was heard.
pub fn put_count<S: Alter>(tx: &mut Transaction<'_, S>, count: &Count) -> Result<(), Error>
    requires { is_start count.now.mark.start ≡ true }
    ensures same_reference { tx.new.conn.ghost_name ≡ tx.old.conn.ghost_name }
    ensures acts { Acts S.Store HasStarts
        (IsWritten (λ store. store) (counted count.now.mark count.now.heard.items))
        tx.old.conn.now tx.new.conn.now result }
    ensures kept { Keeps S.Store tx.old.conn.now tx.new.conn.now }
    ensures goes_on { GoesOn S.Store tx.old.conn.now tx.new.conn.now result }
    ensures survives { Survives (state S.Store tx.old.conn.now) (state S.Store tx.new.conn.now)
        (λ _. ⊥) }
{
    put_mark(tx, count.mark)?;
    put_all_heard(tx, &count.heard)
}
