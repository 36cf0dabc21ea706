//! What an acceptor does with each request: at most one save, and what it says after it.

ghost use Rattle.std.specs.Prelude.{◌≡◌, true, IfOk, IsTrue, OnOk};
ghost use Rattle.press_wire.specs.Blocks.{is_first, block_of};
ghost use Rattle.press_wire.specs.declared.vote.Vote.{Vote};
ghost use Rattle.press_acceptor.specs.Plans.{accept_plan, prepare_plan, query_plan, reads, reads_and_promises, reads_and_votes};
ghost use Rattle.press_acceptor.specs.Seen.{Calls, Looks, fault_in};
ghost use Rattle.press_acceptor.specs.Seen.Call.{LoadsBlock};
ghost use Rattle.press_acceptor.specs.StoreMap.{promise_of, vote_of};
ghost use Rattle.press_acceptor.specs.Turned.{Says, Turned, store_move};
ghost use Rattle.press_acceptor.specs.Turns.{accept_turn, prepare_turn, query_turn};

use crate::fault::StoreFault;
use crate::row::Row;
use crate::said::Said;
use crate::store::PromiseStore;
use press_apply::Value;
use press_wire::{Ballot, Slot, Vote};
use std::alloc::Global;

/// The acceptor of Paxos Made Simple (2.2 and 2.3): all that it knows is in its store.
///
/// What an answer says was saved before it is given. A fault leaves the store as it was before or
/// after the save.
#[derive(Clone, Copy, Debug)]
pub struct Acceptor;

impl Acceptor {
    /// Promises a ballot that is greater than the promise for the block, and reports the votes for
    /// its slots.
    pub fn on_prepare<S: PromiseStore>(
        store: &mut S,
        first: Slot,
        ballot: Ballot,
    ) -> Result<Said, StoreFault>
        requires { is_first first ≡ true }
        ensures said { Says (reads_and_promises first) (λ said. said)
            (λ kept. (prepare_turn kept first ballot).said) (store_move S.seen store.old store.new)
            result }
        ensures turned { Turned (prepare_plan first ballot) (store_move S.seen store.old store.new)
            (fault_in result) }
    {
        let block = store.load(first)?;
        if let Some(promised) = block.refuses_prepare(&ballot) {
            return Ok(Said::Nack(promised));
        }
        store.save_promise(first, ballot)?;
        Ok(Said::Promise(block.votes))
    }

    /// Votes for a proposal in a ballot that is at least the promise for its block; a repeated
    /// request is answered with the vote that was cast.
    pub fn on_accept<S: PromiseStore>(
        alloc: Global,
        store: &mut S,
        slot: Slot,
        ballot: Ballot,
        value: &Value,
    ) -> Result<Said, StoreFault>
        ensures said { let vote : Vote = record { ballot = ballot; value = value.now } in
            Says (reads_and_votes slot) (λ said. said) (λ kept. (accept_turn kept slot vote).said)
            (store_move S.seen store.old store.new) result }
        ensures turned { let vote : Vote = record { ballot = ballot; value = value.now } in
            Turned (accept_plan slot vote) (store_move S.seen store.old store.new)
            (fault_in result) }
    {
        let row = row_of(store, slot)?;
        let refused = row.refuses_accept(&ballot);
        if let Some(cast) = row.into_vote_in(&ballot) {
            return Ok(Said::Accepted(cast));
        }
        if let Some(promised) = refused {
            return Ok(Said::Nack(promised));
        }
        let value = value.copy(alloc)?;
        let vote = Vote { ballot, value };
        store.save_vote(slot, &vote)?;
        Ok(Said::Accepted(vote))
    }

    /// Reports the vote for the slot, if there is one.
    pub fn on_query<S: PromiseStore>(store: &mut S, slot: Slot) -> Result<Said, StoreFault>
        ensures said { Says (reads slot) (λ said. said) (λ kept. (query_turn kept slot).said)
            (store_move S.seen store.old store.new) result }
        ensures turned { Turned (query_plan slot) (store_move S.seen store.old store.new)
            (fault_in result) }
    {
        let row = row_of(store, slot)?;
        Ok(Said::of_vote(row.vote))
    }
}

// What is kept for the slot, out of its block.
#[tactic(auto, using(crate::proofs::Rows::row_read))]
fn row_of<S: PromiseStore>(store: &mut S, slot: Slot) -> Result<Row, StoreFault>
    ensures opened { (S.seen store.new).is_honest →
        OnOk result (IsTrue (S.seen store.new).is_open) }
    ensures calls { Calls (LoadsBlock (block_of slot)) (S.seen store.old) (S.seen store.new)
        (fault_in result) }
    ensures row { (S.seen store.new).is_honest →
        IfOk result (λ row. row ≡ record {
          promised = promise_of (S.seen store.old).kept (block_of slot);
          vote = vote_of (S.seen store.old).kept slot;
        }) }
    ensures looks { (S.seen store.new).is_honest → Looks (S.seen store.old) (S.seen store.new) }
{
    let block = store.load(slot.first())?;
    Ok(Row::of_block(block, slot))
}
