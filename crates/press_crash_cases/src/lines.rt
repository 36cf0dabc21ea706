use press_acceptor::{Block, StoreFault};
use press_apply::Value;
use press_wire::{Ballot, Slot, SlotVote, Vote};
use std::alloc::{AllocError, Global};

fn ballot_text(alloc: Global, ballot: Ballot) -> Result<String, AllocError> {
    let (round, node) = (ballot.round.number(), ballot.node.number());
    format!(in alloc; "({round}, {node})")
}

fn promise_text(alloc: Global, promised: Option<Ballot>) -> Result<String, AllocError> {
    match promised {
        Some(ballot) => ballot_text(alloc, ballot),
        None => String::from_str(alloc, "nothing"),
    }
}

// What the vote is for, unless it is nothing but the moment of its round's number.
fn value_text(vote: &Vote) -> &'static str {
    match &vote.value {
        Value::Noop { at } if at.seconds() == vote.ballot.round.number() => "",
        Value::Noop { at: _ } => " for another moment",
        Value::Cmd(_) => " for a command",
    }
}

fn votes_text(alloc: Global, votes: &[SlotVote]) -> Result<String, AllocError> {
    let mut text = String::new(alloc);
    for SlotVote { slot, vote } in votes {
        if !text.is_empty() {
            text.push_str(", ")?;
        }
        let (slot, ballot) = (slot.number(), ballot_text(alloc, vote.ballot)?);
        let value = value_text(vote);
        let one = format!(in alloc; "{slot} in {ballot}{value}")?;
        text.push_str(one.as_str())?;
    }
    if text.is_empty() {
        text.push_str("nowhere")?;
    }
    Ok(text)
}

/// What a store keeps of the block with this first slot.
pub fn block_text(alloc: Global, first: Slot, block: &Block) -> Result<String, AllocError> {
    let first = first.number();
    let promised = promise_text(alloc, block.promised)?;
    let voted = votes_text(alloc, block.votes.as_slice())?;
    format!(in alloc; "block {first} promised {promised}, voted {voted}")
}

/// A fault of a store.
pub fn fault_text(alloc: Global, fault: StoreFault) -> Result<String, AllocError> {
    let number = fault.number();
    format!(in alloc; "fault {number} {fault}")
}
