//! One turn of a server: a connection, and after a command that was taken a wake with what the node
//! sends to itself.

ghost use Rattle.std.specs.Prelude.{◌≡◌, ◌++◌, OnOk};
ghost use Rattle.press_acceptor.specs.Seen.{fault_in};
ghost use Rattle.press_node.specs.Nodes.{kit_of, node_move, state_of};
ghost use Rattle.press_node.specs.Plays.{messages_of_result};
ghost use Rattle.press_node.specs.States.{applied_count};
ghost use Rattle.press_server.specs.Turns.{CatchesUp, Delivers, ServesTurn, Wakes, fault_of};

use press_acceptor::{PromiseStore, StoreFault};
use press_http::HttpFault;
use press_node::{Event, Node, NodeFault, serve_one};
use press_wire::Message;
use std::alloc::{AllocError, Global};
use std::collections::VecDeque;
use std::io::{Read, Write};

// The most deliveries that follow a wake of a node of seven, whose seven questions bring it a
// promise, seven calls for a vote and seven votes.
const MOST_DELIVERIES: u32 = 22;

// Plays an event.
fn play_event<S: PromiseStore>(node: &mut Node<S>, event: Event) -> Result<Vec<Message>, NodeFault>
    requires always { Unit {0} }
    ensures kit { kit_of node.new ≡ kit_of node.old }
    ensures plays { (node_move S.seen node.old node.new).plays event
        (messages_of_result (λ v. v.items) result) }
{
    match node.on(event) {
        Ok(out) => Ok(out),
        Err(fault) => Err(fault),
    }
}

// Puts messages at the end of those that wait.
fn wait(waiting: &mut VecDeque<Message>, sent: Vec<Message>) -> Result<(), AllocError>
    ensures { OnOk result (waiting.new.items ≡ waiting.old.items ++ sent.items) }
{
    for message in sent {
        waiting.push_back(message)?;
    }
    Ok(())
}

// Delivers what waits, the oldest first, up to a limit.
fn deliver<S: PromiseStore>(
    node: &mut Node<S>,
    waiting: &mut VecDeque<Message>,
    most: u32,
) -> Result<(), NodeFault>
    requires always { Unit {0} }
    ensures kit { kit_of node.new ≡ kit_of node.old }
    ensures delivers { Delivers (λ a b. node_move S.seen a b) most waiting.old.items
        node.old node.new (fault_of result) }
{
    for count in 0..most {
        match waiting.pop_front() {
            None => return Ok(()),
            Some(message) => match play_event(node, Event::Deliver(message)) {
                Err(fault) => return Err(fault),
                Ok(sent) => match wait(waiting, sent) {
                    Ok(()) => {}
                    Err(AllocError) => return Err(NodeFault::NoMemory),
                },
            },
        }
    }
    Ok(())
}

/// Wakes the node, and delivers its own messages, the oldest first, until none is left, 22 at most.
/// The first fault ends it.
pub fn wake<S: PromiseStore>(alloc: Global, node: &mut Node<S>) -> Result<(), NodeFault>
    requires always { Unit {0} }
    ensures kit { kit_of node.new ≡ kit_of node.old }
    ensures wakes { Wakes (λ a b. node_move S.seen a b) node.old node.new (fault_of result) }
{
    match play_event(node, Event::Wake) {
        Err(fault) => Err(fault),
        Ok(sent) => {
            let mut waiting = VecDeque::new(alloc);
            match wait(&mut waiting, sent) {
                Ok(()) => deliver(node, &mut waiting, MOST_DELIVERIES),
                Err(AllocError) => Err(NodeFault::NoMemory),
            }
        }
    }
}

/// Has what its store keeps chosen again, and applied: wakes it until a wake applies nothing more
/// or is refused. Out of memory, or a fault of the store, in one of them is returned.
pub fn catch_up<S: PromiseStore>(alloc: Global, node: &mut Node<S>) -> Result<(), StoreFault>
    requires always { Unit {0} }
    ensures kit { kit_of node.new ≡ kit_of node.old }
    ensures catches_up { CatchesUp (λ a b. node_move S.seen a b)
        (λ n. applied_count (state_of n)) node.old node.new (fault_in result) }
{
    'wakes: loop {
        let applied = node.applied();
        if let Err(fault) = wake(alloc, node) {
            return match fault.stop() {
                Some(stop) => Err(stop),
                None => Ok(()),
            };
        }
        if node.applied() <= applied {
            return Ok(());
        }
    }
}

/// Serves one connection, and returns its status; after a command that was taken the node is woken.
/// A fault in that wake ends the wake alone: the command was taken all the same.
pub fn serve_turn<S: PromiseStore, R: Read, W: Write>(
    alloc: Global,
    node: &mut Node<S>,
    reader: &mut R,
    writer: &mut W,
) -> Result<u16, HttpFault>
    requires always { Unit {0} }
    ensures kit { kit_of node.new ≡ kit_of node.old }
    ensures turn { ServesTurn (λ a b. node_move S.seen a b) node.old node.new
        (R.remaining reader.old) (R.remaining reader.new)
        (W.contents writer.old) (W.contents writer.new) result }
{
    match serve_one(node, reader, writer) {
        Err(fault) => Err(fault),
        Ok(served) => {
            let status = served.status;
            drop(served);
            if status == 202 {
                let _ = wake(alloc, node);
            }
            Ok(status)
        }
    }
}
