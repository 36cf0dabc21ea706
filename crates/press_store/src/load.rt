//! A block, from the rows of two tables.

ghost use Rattle.std.specs.Prelude.{◌≡◌, true, IfSome};
ghost use Rattle.press_wire.specs.Blocks.{is_first};
ghost use Rattle.press_acceptor.specs.StoreMap.{block_at};
ghost use Rattle.press_store.specs.Attempt.{Answers, Doubts, Looks, Opens, StaysReady};
ghost use Rattle.press_store.specs.Shown.{block_from};

use crate::block::read_promise;
use crate::vote::read_votes;
use press_acceptor::Block;
use press_wire::{Ballot, Slot, Votes};
use sqlite::{Alter, Connection, Error};
use std::alloc::Global;

// A block has votes only where it has promised.
fn whole_block(promised: Option<Ballot>, votes: Votes) -> Option<Block>
    ensures { result ≡ block_from promised votes }
{
    if promised.is_none() && !votes.as_slice().is_empty() {
        return None;
    }
    Some(Block { promised, votes })
}

/// Reads the block with this first slot; None where it is damaged.
pub fn read_block<S: Alter>(
    alloc: Global,
    conn: &mut Connection<S>,
    first: Slot,
) -> Result<Option<Block>, Error>
    requires { is_first first ≡ true }
    ensures opened { Opens S.Store conn.old conn.new result }
    ensures looks { Looks S.Store conn.old conn.new }
    ensures block { Answers S.Store conn.old conn.new result
        (λ store found. IfSome found (λ block. block ≡ block_at store first)) }
    ensures ready { StaysReady S.Store conn.old conn.new }
    ensures clean { Doubts S.Store conn.old conn.new }
{
    let Some(promised) = read_promise(conn, first)? else {
        return Ok(None);
    };
    let Some(votes) = read_votes(alloc, conn, first)? else {
        return Ok(None);
    };
    Ok(whole_block(promised, votes))
}
