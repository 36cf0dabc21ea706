//! A command of a node by itself, over any store, which is given back on each way out.

ghost use Rattle.std.specs.Prelude.{◌≡◌};

use crate::posts::{post, token};
use press_acceptor::PromiseStore;
use press_callbacks::Kit;
use press_node::{Event, Node, NodeFault};
use press_page::Target;
use press_wire::{MemberId, Message};
use std::alloc::Global;
use std::collections::VecDeque;

// More deliveries than follow a wake.
const MOST_DELIVERIES: u32 = 100;

// The only member.
fn member() -> MemberId
    ensures { result ≡ 1 }
{
    let Some(member) = MemberId::new(1) else {
        unreachable!()
    };
    member
}

fn play<S: PromiseStore>(
    node: &mut Node<S>,
    event: Event,
    waiting: &mut VecDeque<Message>,
) -> Result<(), NodeFault>
    requires always { Unit {0} }
{
    for message in node.on(event)? {
        if waiting.push_back(message).is_err() {
            return Err(NodeFault::NoMemory);
        }
    }
    Ok(())
}

// Submits the command of that number, wakes the node, and delivers what it sends until nothing
// waits, or so many events are done; returns how many were.
fn run_command<S: PromiseStore>(alloc: Global, node: &mut Node<S>, seq: u32, most: u32) -> u32
    requires always { Unit {0} }
{
    let mut waiting = VecDeque::new(alloc);
    for count in 0..most {
        let event = match count {
            0 => match post(alloc, seq) {
                Ok(command) => Event::Submit(command),
                Err(_) => return count,
            },
            1 => Event::Wake,
            _ => match waiting.pop_front() {
                Some(message) => Event::Deliver(message),
                None => return count,
            },
        };
        if play(node, event, &mut waiting).is_err() {
            return count;
        }
    }
    most
}

// Whether it applies what it voted for before, where it did, and else a new command.
fn goes_on<S: PromiseStore>(
    alloc: Global,
    node: &mut Node<S>,
    has_voted: bool,
) -> anyhow::Result<bool>
    requires always { Unit {0} }
{
    run_command(alloc, node, 2, MOST_DELIVERIES);
    let first = node.get(&Target::Result(token(alloc, 1)?))?.status;
    let second = node.get(&Target::Result(token(alloc, 2)?))?.status;
    let wanted = if has_voted { (200, 404) } else { (404, 200) };
    Ok(node.applied() == 1 && (first, second) == wanted)
}

/// Starts a node over the store, which takes a command by as many events at most; returns how many
/// of them were done.
pub fn command_over<S: PromiseStore>(alloc: Global, store: S, most: u32) -> (S, u32) {
    let Ok(kit) = Kit::build(alloc, Vec::new(alloc), Vec::new(alloc)) else {
        return (store, 0);
    };
    match Node::start(alloc, member(), 1, kit, store) {
        Ok(mut node) => {
            let done = run_command(alloc, &mut node, 1, most);
            let (_kit, store) = node.down();
            (store, done)
        }
        Err(refused) => (refused.store, 0),
    }
}

/// Whether a node that starts over the store goes on with what it voted for before, where it did,
/// and else with a new command.
pub fn goes_on_over<S: PromiseStore>(alloc: Global, store: S, has_voted: bool) -> (S, bool) {
    let Ok(kit) = Kit::build(alloc, Vec::new(alloc), Vec::new(alloc)) else {
        return (store, false);
    };
    match Node::start(alloc, member(), 1, kit, store) {
        Ok(mut node) => {
            let does = goes_on(alloc, &mut node, has_voted).unwrap_or(false);
            let (_kit, store) = node.down();
            (store, does)
        }
        Err(refused) => (refused.store, false),
    }
}
