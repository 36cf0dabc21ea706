//! From heads and batches to bytes.

ghost use Rattle.std.specs.Prelude.{◌≡◌, ◌≤◌, ◌++◌, None, Ok, length, IfOk, IfErr, MatchResult, OnOk};
ghost use Rattle.press_batch.specs.Carried.{carried_by};
ghost use Rattle.press_batch.specs.Held.{AreFormed, ReadBack};
ghost use Rattle.press_batch.specs.Reading.{read_batch, read_head};
ghost use Rattle.press_batch.specs.Refusals.{IsRefusal};
ghost use Rattle.press_batch.specs.Spelling.{most_bytes, refusal, refusal_behind, spelled_batch, spelled_head, spelled_messages};

use crate::batch::Batch;
use crate::batch_writer::BatchWriter;
use crate::fault::BatchFault;
use crate::head::Head;
use crate::pieces::{head_bytes, hold_head};
use press_wire::Message;
use std::alloc::Global;

/// The bytes that spell the head.
pub fn encode_head(alloc: Global, head: &Head) -> Result<Vec<u8>, BatchFault>
    ensures spelled { IfOk result (λ bytes. bytes.items ≡ spelled_head head.now) }
    // What is written is read as the head.
    ensures reads { IfOk result (λ bytes. read_head bytes.items ≡ Ok head.now) }
    ensures fault { IfErr result (λ fault. fault ≡ BatchFault.NoMemory) }
{
    hold_head(head);
    let bytes = head_bytes(alloc, head)?;
    Ok(bytes)
}

/// The bytes that spell the batch. BadMessage where a message in it is too long to have any,
/// TooLong where one ends past 1,048,576 bytes: what comes first.
#[tactic(auto, unfolding(crate::specs::Spelling::spelled_batch))]
pub fn encode_batch(alloc: Global, batch: &Batch) -> Result<Vec<u8>, BatchFault>
    ensures spelled { IfOk result (λ bytes. bytes.items ≡ spelled_batch (carried_by batch.now)) }
    ensures most { IfOk result (λ bytes. length bytes.items ≤ most_bytes) }
    // What is written is read as the batch, where its messages are in form.
    ensures reads { AreFormed batch.now.messages.items →
        IfOk result (λ bytes. read_batch bytes.items ≡ Ok (carried_by batch.now)) }
    ensures fault { MatchResult result (λ _. refusal (carried_by batch.now) ≡ None)
        (λ fault. IsRefusal (refusal (carried_by batch.now)) fault) }
{
    hold_head(&batch.head);
    let mut writer = BatchWriter::new(alloc, &batch.head)?;
    push_all(&mut writer, batch.messages.as_slice())?;
    let bytes = writer.into_bytes();
    Ok(bytes)
}

// Puts each message behind the others.
fn push_all(writer: &mut BatchWriter, messages: &[Message]) -> Result<(), BatchFault>
    ensures written { OnOk result (writer.new.bytes
        ≡ writer.old.bytes ++ spelled_messages messages.now) }
    ensures reads { OnOk result (ReadBack messages.now) }
    ensures fault { MatchResult result
        (λ _. refusal_behind (length writer.old.bytes) messages.now ≡ None)
        (λ fault. IsRefusal (refusal_behind (length writer.old.bytes) messages.now) fault) }
{
    for message in messages {
        if !writer.push(message)? {
            return Err(BatchFault::TooLong);
        }
    }
    Ok(())
}
