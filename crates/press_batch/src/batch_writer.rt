ghost use Rattle.std.specs.Prelude.{◌≡◌, ◌≤◌, true, false, length, IfOk, IfErr, OnErr, if◌then◌else◌};
ghost use Rattle.press_wire.specs.Spelling.{is_too_long_message};
ghost use Rattle.press_batch.specs.Held.{ReadsBack};
ghost use Rattle.press_batch.specs.Spelling.{fits, head_alone, most_bytes, with_message};

use crate::fault::BatchFault;
use crate::head::Head;
use crate::pieces::{MOST_BATCH_BYTES, head_bytes, hold_head, message_bytes, put_piece};
use press_wire::Message;
use std::alloc::Global;
use std::marker::Model;

/// A batch that is written message by message: its bytes so far, and how many messages are in them.
#[derive(Debug)]
pub struct BatchWriter {
    alloc: Global,
    bytes: Vec<u8>,
    count: usize,
}

impl Drop for BatchWriter {
    fn drop(self) {
        let BatchWriter {
            alloc: _,
            bytes: _,
            count: _,
        } = self;
    }
}

impl Model for BatchWriter {
    ghost use Rattle.std.specs.Prelude.{◌≤◌, length};
    ghost use Rattle.press_batch.specs.Spelling.{WrittenBatch};

    ghost Value = { WrittenBatch };

    ghost view = { λ w. record { bytes = w.bytes.items; count = w.count } };

    ghost invariant = { λ w. (w.count ≤ length w.bytes.items) × (length w.bytes.items ≤ 1048576) };
}

impl BatchWriter {
    /// The head, with no message yet.
    #[tactic(auto, using(crate::proofs::Lengths::length_head))]
    pub fn new(alloc: Global, head: &Head) -> Result<BatchWriter, BatchFault>
        ensures begun { IfOk result (λ w. w ≡ head_alone head.now) }
        ensures fault { IfErr result (λ fault. fault ≡ BatchFault.NoMemory) }
    {
        hold_head(head);
        let bytes = head_bytes(alloc, head)?;
        Ok(BatchWriter {
            alloc,
            bytes,
            count: 0,
        })
    }

    /// Puts the message behind the others: true. Where it doesn't fit any more nothing changes:
    /// false.
    #[tactic(auto, using(crate::proofs::Lengths::length_piece))]
    pub fn push(&mut self, message: &Message) -> Result<bool, BatchFault>
        ensures put { IfOk result (λ is_put. self.new
            ≡ (if is_put then with_message message.now self.old else self.old)) }
        ensures fits { IfOk result (λ is_put. is_put
            ≡ fits (length self.old.bytes) message.now) }
        ensures short { IfOk result (λ _. is_too_long_message message.now ≡ false) }
        ensures stays { OnErr result (self.new ≡ self.old) }
        ensures fault { IfErr result (λ fault. fault
            ≡ (if is_too_long_message message.now then BatchFault.BadMessage
            else BatchFault.NoMemory)) }
        // What is put is read back, where it is in form.
        ensures reads { IfOk result (λ _. ReadsBack message.now) }
    {
        let spelled = message_bytes(self.alloc, message)?;
        let room = MOST_BATCH_BYTES - self.bytes.len();
        if room < 4 || room - 4 < spelled.len() {
            return Ok(false);
        }
        put_piece(&mut self.bytes, &spelled)?;
        self.count += 1;
        Ok(true)
    }

    /// How many messages are in it.
    pub fn count(&self) -> usize
        ensures { result ≡ self.now.count }
    {
        self.count
    }

    /// The bytes, 1,048,576 at most.
    pub fn into_bytes(self) -> Vec<u8>
        ensures bytes { result.items ≡ self.bytes }
        ensures most { length result.items ≤ most_bytes }
    {
        let BatchWriter {
            alloc: _,
            bytes,
            count: _,
        } = self;
        bytes
    }
}
