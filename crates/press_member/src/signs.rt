//! What a member's own messages say of who proposes.

ghost use Rattle.std.specs.Prelude.{◌≡◌, Some, IfSome};
ghost use Rattle.press_member.specs.Hearing.{proposed_slot};
ghost use Rattle.press_member.specs.Turns.{command_of_vote};

use press_apply::{Stamped, Value};
use press_wire::{Body, MemberId, Message};
use std::alloc::Global;

/// What a message that a node sends says of who proposes.
pub enum Sign {
    Nothing,
    /// It prepares a block itself.
    Prepares,
    /// It asks for votes itself.
    Accepts,
    /// The member of that number proposes.
    Other(MemberId),
    /// Another would, and is refused.
    Refuses,
    /// It refuses its own proposal.
    RefusesOwn,
}

/// What a message of this member says. A vote that goes to all members is one for a proposal that
/// came; one that goes to a single member answers a question.
pub fn sign_of(message: &Message, own: MemberId, is_for_all: bool) -> Sign {
    match &message.body {
        Body::Prepare { .. } => Sign::Prepares,
        Body::Accept { .. } => Sign::Accepts,
        Body::Promise { .. } if message.to != own => Sign::Other(message.to),
        Body::Accepted { vote } if is_for_all && vote.ballot.node != own => {
            Sign::Other(vote.ballot.node)
        }
        Body::Nack { .. } if message.to == own => Sign::RefusesOwn,
        Body::Nack { .. } => Sign::Refuses,
        Body::Promise { .. } | Body::Accepted { .. } | Body::Query => Sign::Nothing,
    }
}

/// Whether the message asks for a vote that was cast.
pub fn is_query(message: &Message) -> bool {
    matches!(message.body, Body::Query)
}

/// The slots before this one are chosen, by a message about it: who proposes for a slot has applied
/// those before it. A question and a refusal say nothing of that.
pub fn proposed_slot(message: &Message) -> Option<u64>
    ensures { result ≡ proposed_slot message.now.body message.now.slot }
{
    match message.body {
        Body::Prepare { .. } | Body::Accept { .. } | Body::Accepted { .. } => {
            Some(u64::from(message.slot.number()))
        }
        Body::Promise { .. } | Body::Nack { .. } | Body::Query => None,
    }
}

/// A copy of the command of the vote that a message tells of. None where it tells of none, or
/// without memory.
pub fn command_of_vote(alloc: Global, message: &Message) -> Option<Stamped>
    ensures { IfSome result (λ command. command_of_vote message.now.body ≡ Some command) }
{
    let Body::Accepted { vote } = &message.body else {
        return None;
    };
    match &vote.value {
        Value::Cmd(command) => command.copy(alloc).ok(),
        Value::Noop { .. } => None,
    }
}
