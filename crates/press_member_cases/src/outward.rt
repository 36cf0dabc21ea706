//! What happens to a member, and what it sends, in its words and in those of the simulation.

use crate::forms::form;
use crate::place::digests_of;
use press_batch::Report;
use press_member as member;
use press_member::Outputs;
use press_page::Target;
use press_simulation as simulation;
use press_simulation::{Envelope, Lanes};
use press_wire::{Body, MemberId, Message};
use std::alloc::{AllocError, Global};

/// The member at a place, from 0.
pub fn id_at(place: usize) -> Option<MemberId> {
    MemberId::new(u8::try_from(place.saturating_add(1)).ok()?)
}

fn place_of(id: MemberId) -> usize {
    usize::from(id.number()).saturating_sub(1)
}

fn report_of(report: simulation::Report) -> Report {
    let simulation::Report {
        applied,
        chosen,
        cluster,
        digest,
        block_digest,
    } = report;
    Report {
        applied,
        chosen,
        digests: digests_of(cluster),
        digest,
        block_digest,
    }
}

/// What a member says of itself, in the simulation's words.
pub fn report_as_simulated(report: Report) -> simulation::Report {
    let Report {
        applied,
        chosen,
        digests,
        digest,
        block_digest,
    } = report;
    simulation::Report {
        applied,
        chosen,
        cluster: digests.kit,
        digest,
        block_digest,
    }
}

/// What happens, in the member's words. None where it is nothing of a member's, or memory is
/// wanting.
pub fn input_of(alloc: Global, input: simulation::Input<Message>) -> Option<member::Input> {
    match input {
        simulation::Input::Time(clock) => Some(member::Input::Time(clock)),
        simulation::Input::Sent => Some(member::Input::HearOwn),
        simulation::Input::Letter(message) => Some(member::Input::Message(message)),
        simulation::Input::Report { from, report } => Some(member::Input::Report {
            from: id_at(from)?,
            report: report_of(report),
        }),
        simulation::Input::Ended {
            to,
            asked,
            is_taken,
        } => Some(member::Input::Ended {
            to: id_at(to)?,
            asked,
            is_taken,
        }),
        simulation::Input::Form(number) => Some(member::Input::Command(form(alloc, number)?)),
        simulation::Input::Page => Some(member::Input::Page(Target::Front)),
    }
}

/// What is said to whoever brought an input.
pub fn answer_of(outputs: &Outputs) -> simulation::Answer {
    match &outputs.answer {
        member::Answer::Nothing => simulation::Answer::Nothing,
        member::Answer::Taken => simulation::Answer::Taken,
        member::Answer::Refused(_) => simulation::Answer::Refused,
        member::Answer::NotYet => simulation::Answer::NotYet,
        member::Answer::Foreign => simulation::Answer::Foreign,
        member::Answer::Page(_) => simulation::Answer::Page,
    }
}

// The kind of a message, and the round and the node that it names.
fn kind_of(body: &Body) -> (u64, u64, u8) {
    match body {
        Body::Prepare { round } => (1, round.number(), 0),
        Body::Promise { ballot, .. } => (2, ballot.round.number(), ballot.node.number()),
        Body::Nack { refused, .. } => (3, refused.round.number(), refused.node.number()),
        Body::Accept { round, .. } => (4, round.number(), 0),
        Body::Accepted { vote } => (5, vote.ballot.round.number(), vote.ballot.node.number()),
        Body::Query => (6, 0, 0),
    }
}

// What a message is known by among those to one member.
fn mark_of(message: &Message) -> u64 {
    let (kind, round, node) = kind_of(&message.body);
    u64::from(message.slot.number())
        .wrapping_mul(8)
        .wrapping_add(kind)
        .wrapping_mul(1_000_003)
        .wrapping_add(round)
        .wrapping_mul(8)
        .wrapping_add(u64::from(node))
}

fn envelope_of(message: &Message) -> Envelope {
    Envelope {
        from: place_of(message.from),
        to: place_of(message.to),
        mark: mark_of(message),
        is_question: matches!(message.body, Body::Query),
    }
}

/// What an input brings waits to go out.
pub fn send(outputs: Outputs, out: &mut Lanes<Message>) -> Result<(), AllocError> {
    for to in outputs.looks.iter() {
        out.look(place_of(*to));
    }
    for message in outputs.messages {
        let envelope = envelope_of(&message);
        out.put(envelope, message)?;
    }
    Ok(())
}
