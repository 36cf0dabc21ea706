//! Messages of one node, to one member or to all.

ghost use Rattle.std.specs.Prelude.{◌≡◌, ◌≤◌, IfOk};
ghost use Rattle.press_acceptor.specs.Messages as model;
ghost use Rattle.press_wire.specs.Ranges.{most_members};

use press_wire::{Body, MemberId, Message, Slot};
use std::alloc::{AllocError, Global};

// The member with that number.
fn member(number: u8) -> MemberId
    requires least { 1 ≤ number }
    requires most { number ≤ most_members }
    ensures { result ≡ number }
{
    let Some(node) = MemberId::new(number) else {
        unreachable!()
    };
    node
}

/// The message, alone.
pub fn to_one(alloc: Global, message: Message) -> Result<Vec<Message>, AllocError>
    ensures { IfOk result (λ out. out.items
        ≡ model.to_one message.from message.slot message.body message.to) }
{
    let mut out = Vec::new(alloc);
    out.push(message)?;
    Ok(out)
}

/// Who sends messages, and about which slot.
#[derive(Clone, Copy, Debug)]
pub struct Heading {
    pub from: MemberId,
    pub slot: Slot,
}

/// A message to each member, by number, the sender included.
pub fn to_all(
    alloc: Global,
    members: u8,
    heading: Heading,
    body: &Body,
) -> Result<Vec<Message>, AllocError>
    requires { members ≤ most_members }
    ensures { IfOk result
        (λ out. out.items ≡ model.to_all members heading.from heading.slot body.now) }
{
    let Heading { from, slot } = heading;
    let mut out = Vec::new(alloc);
    for i in 0..members {
        let to = member(i + 1);
        let body = body.copy(alloc)?;
        out.push(Message {
            from,
            to,
            slot,
            body,
        })?;
    }
    Ok(out)
}
