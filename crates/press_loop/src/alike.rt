//! Whether a message is one that was sent.

ghost use Rattle.std.specs.Prelude.{◌≡◌, ◌↔◌, IsTrue, Some};
ghost use Rattle.press_world.specs.Models.{model};
ghost use Rattle.press_world.specs.Refusing.{message_numbered};

use press_apply::same_values_are_equal;
use press_wire::{Body, Message, SlotVote, Vote};
use press_world::World;

fn is_same_vote(a: &Vote, b: &Vote) -> bool
    ensures { IsTrue result ↔ (a.now ≡ b.now) }
{
    same_values_are_equal();
    a.ballot == b.ballot && a.value.is(&b.value)
}

fn is_same_slot_vote(a: &SlotVote, b: &SlotVote) -> bool
    ensures { IsTrue result ↔ (a.now ≡ b.now) }
{
    a.slot == b.slot && is_same_vote(&a.vote, &b.vote)
}

fn are_same_votes(votes: &[SlotVote], others: &[SlotVote]) -> bool
    ensures { IsTrue result ↔ (votes.now ≡ others.now) }
{
    if votes.len() != others.len() {
        return false;
    }
    for i in 0..votes.len() {
        if !is_same_slot_vote(&votes[i], &others[i]) {
            return false;
        }
    }
    true
}

fn is_same_body(a: &Body, b: &Body) -> bool
    ensures { IsTrue result ↔ (a.now ≡ b.now) }
{
    same_values_are_equal();
    match (a, b) {
        (Body::Prepare { round }, Body::Prepare { round: other }) => round == other,
        (
            Body::Promise { ballot, votes },
            Body::Promise {
                ballot: other,
                votes: others,
            },
        ) => ballot == other && are_same_votes(votes.as_slice(), others.as_slice()),
        (
            Body::Nack { refused, promised },
            Body::Nack {
                refused: other,
                promised: another,
            },
        ) => refused == other && promised == another,
        (
            Body::Accept { round, value },
            Body::Accept {
                round: other,
                value: another,
            },
        ) => round == other && value.is(another),
        (Body::Accepted { vote }, Body::Accepted { vote: other }) => is_same_vote(vote, other),
        (Body::Query, Body::Query) => true,
        (_, _) => false,
    }
}

// Whether the two are one message.
fn is_same_message(a: &Message, b: &Message) -> bool
    ensures { IsTrue result ↔ (a.now ≡ b.now) }
{
    a.from == b.from && a.to == b.to && a.slot == b.slot && is_same_body(&a.body, &b.body)
}

/// Whether the message is the one of that number.
pub fn is_sent(world: &World, number: u64, message: &Message) -> bool
    ensures { IsTrue result ↔ (message_numbered (model world.now) number ≡ Some message.now) }
{
    match world.sent(number) {
        Some(sent) => is_same_message(sent, message),
        None => false,
    }
}
