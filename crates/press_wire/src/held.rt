//! What the types hold, as facts for the law that spellings read back. Nothing here does anything.

ghost use Rattle.std.specs.Prelude.{◌≡◌};
ghost use Rattle.press_wire.specs.Held.{IsText, IsDraft, IsCommand, IsStamped, IsValue, IsBallot, IsVote, IsSlot, AreVotes, IsBody, IsMessage};

use crate::ballot::Ballot;
use crate::message::{Body, Message};
use crate::vote::Vote;
use crate::votes::SlotVote;
use press_apply::{Command, Stamped, Value};
use press_posts::Draft;
use press_text::Text;

#[tactic(auto, using(crate::proofs::Names::text_is_utf8))]
fn hold_text(text: &Text)
    ensures { IsText text.now }
{
    let _text = text.as_str();
}

fn hold_draft(draft: &Draft)
    ensures { IsDraft draft.now }
{
    hold_text(&draft.title);
    hold_text(&draft.content);
    let _date = draft.date.seconds();
}

fn hold_command(command: &Command)
    ensures { IsCommand command.now }
{
    match command {
        Command::Insert(draft) => hold_draft(draft),
        Command::Update { id, draft } => {
            let _id = *id;
            hold_draft(draft);
        }
        Command::Trash { id } => {
            let _id = *id;
        }
        Command::Untrash { id } => {
            let _id = *id;
        }
        Command::Delete { id } => {
            let _id = *id;
        }
        Command::SetOption { name, value } => {
            let _name = name.as_str();
            hold_text(value);
        }
        Command::Activate { plugin } => {
            let _plugin = plugin.as_str();
        }
        Command::Deactivate { plugin } => {
            let _plugin = plugin.as_str();
        }
        Command::Tick => {}
        Command::Profile(to) => {
            let _to = *to;
        }
    }
}

fn hold_stamped(stamped: &Stamped)
    ensures { IsStamped stamped.now }
{
    let _editor = stamped.token.editor.as_str();
    let _seq = stamped.token.seq;
    let _at = stamped.at.seconds();
    hold_command(&stamped.command);
}

pub fn hold_value(value: &Value)
    ensures { IsValue value.now }
{
    match value {
        Value::Noop { at } => {
            let _at = at.seconds();
        }
        Value::Cmd(stamped) => hold_stamped(stamped),
    }
}

fn hold_ballot(ballot: Ballot)
    ensures { IsBallot ballot }
{
    let _round = ballot.round.number();
    let _node = ballot.node.number();
}

fn hold_vote(vote: &Vote)
    ensures { IsVote vote.now }
{
    hold_ballot(vote.ballot);
    hold_value(&vote.value);
}

fn hold_slot_vote(vote: &SlotVote)
    ensures slot { IsSlot vote.now.slot }
    ensures vote { IsVote vote.now.vote }
{
    let _slot = vote.slot.number();
    hold_vote(&vote.vote);
}

fn hold_votes(votes: &[SlotVote])
    ensures { AreVotes votes.now }
{
    for vote in votes {
        hold_slot_vote(vote);
    }
}

fn hold_body(body: &Body)
    ensures { IsBody body.now }
{
    match body {
        Body::Prepare { round } => {
            let _round = round.number();
        }
        Body::Promise { ballot, votes } => {
            hold_ballot(*ballot);
            hold_votes(votes.as_slice());
        }
        Body::Nack { refused, promised } => {
            hold_ballot(*refused);
            hold_ballot(*promised);
        }
        Body::Accept { round, value } => {
            let _round = round.number();
            hold_value(value);
        }
        Body::Accepted { vote } => hold_vote(vote),
        Body::Query => {}
    }
}

pub fn hold_message(message: &Message)
    ensures { IsMessage message.now }
{
    let _from = message.from.number();
    let _to = message.to.number();
    let _slot = message.slot.number();
    hold_body(&message.body);
}
