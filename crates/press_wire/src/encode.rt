//! From values and messages to bytes.

ghost use Rattle.std.specs.Prelude.{◌≡◌, ◌≤◌, true, false, Ok, IfOk, IfErr, MatchOption, if◌then◌else◌};
ghost use Rattle.press_apply.specs.declared.value.Value.TheVariants.{Cmd};
ghost use Rattle.press_wire.specs.Held.{IsFormed, IsShort};
ghost use Rattle.press_wire.specs.Reading.{read_command, read_message};
ghost use Rattle.press_wire.specs.Spelling as spell;
ghost use Rattle.press_wire.specs.Spelling.{spelled_command, spelled_message, is_too_long, is_too_long_message, is_too_long_report};

use crate::fault::WireFault;
use crate::held::{hold_message, hold_value};
use crate::message::{Body, Message};
use crate::slot::BLOCK_SLOTS;
use crate::votes::SlotVote;
use crate::write_value::{spelled_len, stamped_len};
use crate::writer::Writer;
use press_apply::{Stamped, Value};
use std::alloc::{AllocError, Global};

// The most bytes of a message beside those of the value or the votes in it.
const BESIDE: usize = 30;

/// Whether more than 16,384 bytes spell the command as a value, which `encode_cmd` refuses. It
/// takes no memory.
pub fn is_command_too_long(command: &Stamped) -> bool
    ensures { result ≡ spell.is_too_long (Cmd command.now) }
{
    stamped_len(command).is_none()
}

/// The bytes that spell the value. TooLong where they are more than 16,384, which is checked before
/// any memory is taken.
#[tactic(auto, using(crate::proofs::Lengths::is_short))]
pub fn encode_cmd(alloc: Global, value: &Value) -> Result<Vec<u8>, WireFault>
    ensures spelled { IfOk result (λ bytes. bytes.items ≡ spelled_command value.now) }
    ensures short { IfOk result (λ _. is_too_long value.now ≡ false) }
    // What is written is read as the value.
    ensures reads { IfOk result (λ bytes. read_command bytes.items ≡ Ok value.now) }
    ensures fault { IfErr result (λ fault. fault
        ≡ (if is_too_long value.now then WireFault.TooLong else WireFault.NoMemory)) }
{
    hold_value(value);
    let Some(len) = spelled_len(value) else {
        return Err(WireFault::TooLong);
    };
    let bytes = written_value(alloc, value, len)?;
    Ok(bytes)
}

/// The bytes that spell the message. TooLong where a value in it is spelled by more than 16,384, or
/// where it has more than 16 votes, which is checked before any memory is taken.
pub fn encode_msg(alloc: Global, message: &Message) -> Result<Vec<u8>, WireFault>
    ensures spelled { IfOk result (λ bytes. bytes.items ≡ spelled_message message.now) }
    ensures short { IfOk result (λ _. is_too_long_message message.now ≡ false) }
    // What is written is read as the message, where it is in form.
    ensures reads { IsFormed message.now →
        IfOk result (λ bytes. read_message bytes.items ≡ Ok message.now) }
    ensures fault { IfErr result (λ fault. fault
        ≡ (if is_too_long_message message.now then WireFault.TooLong else WireFault.NoMemory)) }
{
    hold_message(message);
    let Some(len) = len_inside(message) else {
        return Err(WireFault::TooLong);
    };
    let bytes = written_message(alloc, message, BESIDE + len)?;
    Ok(bytes)
}

fn written_value(alloc: Global, value: &Value, room: usize) -> Result<Vec<u8>, AllocError>
    requires { IsShort value.now }
    ensures { IfOk result (λ bytes. bytes.items ≡ spelled_command value.now) }
{
    let mut writer = Writer::with_room(alloc, room)?;
    writer.value(value)?;
    Ok(writer.into_bytes())
}

fn written_message(alloc: Global, message: &Message, room: usize) -> Result<Vec<u8>, AllocError>
    requires { is_too_long_message message.now ≡ false }
    ensures { IfOk result (λ bytes. bytes.items ≡ spelled_message message.now) }
{
    let mut writer = Writer::with_room(alloc, room)?;
    writer.message(message)?;
    Ok(writer.into_bytes())
}

// How many bytes spell the values in the message, 0 without one; None where they are too many.
fn len_inside(message: &Message) -> Option<usize>
    ensures { MatchOption result (is_too_long_message message.now ≡ true)
        (λ len. (is_too_long_message message.now ≡ false) × (len ≤ 524288)) }
{
    match &message.body {
        Body::Promise { votes, .. } => len_of_votes(votes.as_slice()),
        Body::Accept { value, .. } => len_of(value),
        Body::Accepted { vote } => len_of(&vote.value),
        Body::Prepare { .. } | Body::Nack { .. } | Body::Query => Some(0),
    }
}

fn len_of(value: &Value) -> Option<usize>
    ensures { MatchOption result (spell.is_too_long value.now ≡ true)
        (λ len. (spell.is_too_long value.now ≡ false) × (len ≤ 524288)) }
{
    spelled_len(value)
}

// How many bytes the votes take, with their slots and ballots.
fn len_of_votes(votes: &[SlotVote]) -> Option<usize>
    ensures { MatchOption result (is_too_long_report votes.now ≡ true)
        (λ len. (is_too_long_report votes.now ≡ false) × (len ≤ 524288)) }
{
    if votes.len() > BLOCK_SLOTS as usize {
        return None;
    }
    let mut len = 0;
    for vote in votes {
        len += 17 + spelled_len(&vote.vote.value)?;
    }
    Some(len)
}
