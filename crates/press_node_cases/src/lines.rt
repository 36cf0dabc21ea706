use press_acceptor::{Block, MemoryStore};
use press_node::NodeFault;
use press_wire::{Ballot, Body, Slot, SlotVote};
use std::alloc::{AllocError, Global};

/// The name of a message.
pub fn kind_of(body: &Body) -> &'static str {
    match body {
        Body::Prepare { .. } => "Prepare",
        Body::Promise { .. } => "Promise",
        Body::Nack { .. } => "Nack",
        Body::Accept { .. } => "Accept",
        Body::Accepted { .. } => "Accepted",
        Body::Query => "Query",
    }
}

/// How many messages an event sent, or why it did nothing.
pub fn sent_line(
    alloc: Global,
    what: &str,
    applied: u64,
    done: Result<usize, NodeFault>,
) -> Result<String, AllocError> {
    match done {
        Ok(count) => format!(in alloc; "{what}: {count} to send, k={applied}\n"),
        Err(fault) => {
            let number = fault.number();
            format!(in alloc; "{what}: {number} {fault}\n")
        }
    }
}

/// How many of the same events were done, and the fault that ended them.
pub fn done_line(
    alloc: Global,
    what: &str,
    applied: u64,
    fault: Option<NodeFault>,
) -> Result<String, AllocError> {
    match fault {
        None => format!(in alloc; "{what}, k={applied}\n"),
        Some(fault) => {
            let number = fault.number();
            format!(in alloc; "{what}, then {number} {fault}\n")
        }
    }
}

fn ballot_text(alloc: Global, ballot: Ballot) -> Result<String, AllocError> {
    let (round, node) = (ballot.round.number(), ballot.node.number());
    format!(in alloc; "({round}, {node})")
}

fn promise_text(alloc: Global, promised: Option<Ballot>) -> Result<String, AllocError> {
    match promised {
        Some(ballot) => ballot_text(alloc, ballot),
        None => String::from_str(alloc, "nothing"),
    }
}

fn votes_text(alloc: Global, votes: &[SlotVote]) -> Result<String, AllocError> {
    let mut text = String::new(alloc);
    for SlotVote { slot, vote } in votes {
        if !text.is_empty() {
            text.push_str(", ")?;
        }
        let (slot, ballot) = (slot.number(), ballot_text(alloc, vote.ballot)?);
        let one = format!(in alloc; "{slot} in {ballot}")?;
        text.push_str(one.as_str())?;
    }
    if text.is_empty() {
        text.push_str("nowhere")?;
    }
    Ok(text)
}

// What a store keeps of the block of the first slot.
fn block_text(alloc: Global, block: &Block) -> Result<String, AllocError> {
    let promised = promise_text(alloc, block.promised)?;
    let voted = votes_text(alloc, block.votes.as_slice())?;
    format!(in alloc; "block 1 promised {promised}, voted {voted}")
}

fn first_block(store: &MemoryStore) -> Option<&Block> {
    store.block(Slot::new(1)?.first())
}

/// What a store keeps: its last round, and of the block of the first slot its promise and its
/// votes.
pub fn store_line(alloc: Global, store: &MemoryStore) -> Result<String, AllocError> {
    let round = store.round();
    let block = match first_block(store) {
        Some(block) => block_text(alloc, block)?,
        None => block_text(alloc, &Block::new(alloc))?,
    };
    format!(in alloc; "stop: last round {round}, {block}\n")
}
