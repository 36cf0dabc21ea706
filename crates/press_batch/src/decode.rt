//! From bytes to heads and batches.

ghost use Rattle.std.specs.Prelude.{◌≡◌, ◌≢◌, ◌<◌, length, Err, Ok, IfOk, IsOk, IsErrOf};
ghost use Rattle.press_text.specs.Gives.{Gives};
ghost use Rattle.press_batch.specs.Carried.{carried_by};
ghost use Rattle.press_batch.specs.Memory.{some_behind};
ghost use Rattle.press_batch.specs.Reading.{batch_in, read_batch, read_head};
ghost use Rattle.press_batch.specs.Refusals.{Refuses};
ghost use Rattle.press_batch.specs.Spelling.{most_bytes, spelled_batch, spelled_head};

use crate::batch::Batch;
use crate::fault::BatchFault;
use crate::head::Head;
use crate::pieces::MOST_BATCH_BYTES;
use crate::reader::Reader;
use std::alloc::Global;

/// The head that all of the bytes spell; else the fault of the first field that fails. It takes no
/// memory.
#[tactic(auto, unfolding(crate::specs::Reading::read_head))]
pub fn decode_head(bytes: &[u8]) -> Result<Head, BatchFault>
    ensures read { Gives Refuses Ok result (read_head bytes.now) }
    ensures memory { result ≢ Err BatchFault.NoMemory }
    // No other bytes are read as this head.
    ensures spelled { IfOk result (λ head. bytes.now ≡ spelled_head head) }
{
    let mut reader = Reader::new(bytes);
    let head = reader.head()?;
    if !reader.is_at_end() {
        return Err(BatchFault::Extra);
    }
    Ok(head)
}

/// The batch that all of the bytes spell; else TooLong for more than 1,048,576 bytes, and then the
/// fault of the first field or message that fails. Memory is taken for messages alone.
#[tactic(auto, unfolding(crate::specs::Reading::read_batch))]
pub fn decode_batch(alloc: Global, bytes: &[u8]) -> Result<Batch, BatchFault>
    ensures read { Gives Refuses (λ b. Ok (carried_by b)) result (read_batch bytes.now) }
    ensures long { most_bytes < length bytes.now → IsErrOf result BatchFault.TooLong }
    // Out of memory comes only where something comes behind the head.
    ensures memory { result ≡ Err BatchFault.NoMemory → IsOk (some_behind bytes.now) }
    // No other bytes are read as this batch.
    ensures spelled { IfOk result (λ b. bytes.now ≡ spelled_batch (carried_by b)) }
{
    if bytes.len() > MOST_BATCH_BYTES {
        return Err(BatchFault::TooLong);
    }
    short_batch(alloc, bytes)
}

#[tactic(auto, unfolding(crate::specs::Reading::batch_in, crate::specs::Memory::some_behind))]
fn short_batch(alloc: Global, bytes: &[u8]) -> Result<Batch, BatchFault>
    ensures read { Gives Refuses (λ b. Ok (carried_by b)) result (batch_in bytes.now) }
    ensures memory { result ≡ Err BatchFault.NoMemory → IsOk (some_behind bytes.now) }
    ensures spelled { IfOk result (λ b. bytes.now ≡ spelled_batch (carried_by b)) }
{
    let mut reader = Reader::new(bytes);
    let head = reader.head()?;
    let messages = reader.messages(alloc)?;
    Ok(Batch { head, messages })
}
