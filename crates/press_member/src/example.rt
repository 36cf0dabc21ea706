//! A member that moves: what holds after any moves is said of something.

ghost use Rattle.std.specs.Prelude.{[], ◌≤◌};
ghost use Rattle.press_acceptor.specs.InMemory.{seen_of};
ghost use Rattle.press_node.specs.Nodes.{state_of, store_of};
ghost use Rattle.press_node.specs.Plays.{messages_of_result};
ghost use Rattle.press_member.specs.Members.{AreMoves, Comes, new_members};
ghost use Rattle.press_member.specs.Moving.{first_moves};
ghost use Rattle.press_wire.specs.Ranges.{most_members};

use press_acceptor::MemoryStore;
use press_callbacks::Kit;
use press_node::{Event, Node, NodeFault};
use press_wire::{MemberId, Message};
use std::alloc::Global;

/// Starts the member `id` of `members` over a new store in memory, which never fails, and plays an
/// event. Both are moves of members of which none had started, unless the event is a message: none
/// was sent yet.
pub fn start_and_play(
    alloc: Global,
    id: MemberId,
    members: u8,
    kit: Kit,
    event: Event,
) -> (Node<MemoryStore>, Result<Vec<Message>, NodeFault>)
    requires few { members ≤ most_members }
    requires member { id ≤ members }
    ensures { Comes [] event → AreMoves seen_of members (new_members members)
        (first_moves members id event (messages_of_result (λ out. out.items) result.1)
        (store_of result.0)
        (state_of result.0)) }
{
    let number = id.number();
    prove!(1 <= number);
    match Node::start(alloc, id, members, kit, MemoryStore::new(alloc)) {
        Ok(mut node) => {
            let outcome = node.on(event);
            (node, outcome)
        }
        Err(_) => unreachable!(),
    }
}
