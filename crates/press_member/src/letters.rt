//! Where what a member sends goes: to itself, or out.

ghost use Rattle.std.specs.Prelude.{◌≡◌, ◌∷◌, [], IsTrue, is_ok};
ghost use Rattle.press_member.specs.Turns.{IsSorted};

use press_wire::{MemberId, Message};
use std::alloc::AllocError;
use std::collections::VecDeque;

// Puts a message where it goes.

fn put(
    id: MemberId,
    message: Message,
    own: &mut VecDeque<Message>,
    out: &mut Vec<Message>,
) -> Result<(), AllocError>
    ensures { IsSorted id (message ∷ []) (IsTrue (is_ok result)) own.old.items own.new.items
        out.old.items out.new.items }
{
    if message.to == id {
        own.push_back(message)?;
    } else {
        out.push(message)?;
    }
    Ok(())
}

/// Puts each of the messages where it goes, up to the first for which there is no memory.
pub fn put_all(
    id: MemberId,
    sent: Vec<Message>,
    own: &mut VecDeque<Message>,
    out: &mut Vec<Message>,
) -> Result<(), AllocError>
    ensures { IsSorted id sent.items (IsTrue (is_ok result)) own.old.items own.new.items
        out.old.items out.new.items }
{
    for message in sent {
        put(id, message, own, out)?;
    }
    Ok(())
}
