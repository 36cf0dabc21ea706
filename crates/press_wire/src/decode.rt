//! From bytes to values and messages.

ghost use Rattle.std.specs.Prelude.{◌≡◌, ◌<◌, length, Err, IfOk, IsOk, IsErrOf};
ghost use Rattle.press_text.specs.Gives.{Gives};
ghost use Rattle.press_wire.specs.Memory.{editor_at, editor_of_message};
ghost use Rattle.press_wire.specs.Refusals.{Refuses};
ghost use Rattle.press_wire.specs.Reading.{read_command, read_message};
ghost use Rattle.press_wire.specs.Spelling.{longest, spelled_command, spelled_message};

use crate::fault::WireFault;
use crate::message::Message;
use crate::read_message::whole_message;
use crate::read_value::short_value;
use press_apply::Value;
use std::alloc::Global;

/// The value that all of the bytes spell; else TooLong for more than 16,384 bytes, and then the
/// fault of the first field that fails. Memory is taken for names and for texts past 22 bytes
/// alone.
pub fn decode_cmd(alloc: Global, bytes: &[u8]) -> Result<Value, WireFault>
    ensures read { Gives Refuses Ok result (read_command bytes.now) }
    ensures long { longest < length bytes.now → IsErrOf result WireFault.TooLong }
    // Out of memory comes only behind an editor's name.
    ensures memory { result ≡ Err WireFault.NoMemory → IsOk (editor_at bytes.now) }
    // No other bytes are read as this value.
    ensures spelled { IfOk result (λ v. bytes.now ≡ spelled_command v) }
{
    short_value(alloc, bytes)
}

/// The message that all of the bytes spell; else the fault of the first field that fails. A fault
/// inside a value is one of the field. Memory is taken for names, for texts past 22 bytes and for a
/// list of votes alone.
pub fn decode_msg(alloc: Global, bytes: &[u8]) -> Result<Message, WireFault>
    ensures read { Gives Refuses Ok result (read_message bytes.now) }
    // Out of memory comes only behind the name of a value's editor, or behind the number of a
    // promise's votes, if it has any.
    ensures memory { result ≡ Err WireFault.NoMemory → IsOk (editor_of_message bytes.now) }
    // No other bytes are read as this message.
    ensures spelled { IfOk result (λ m. bytes.now ≡ spelled_message m) }
{
    whole_message(alloc, bytes)
}
