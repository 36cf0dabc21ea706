//! The type of a member; its calls are in `calls.rt`.

ghost use Rattle.std.proofs.Props.{props};
ghost use Rattle.press_node.specs.Nodes.{kit_of, state_of};
ghost use Rattle.press_member.specs.Shown.{IsShown};

use crate::peers::Peers;
use crate::player::Player;
use press_chain::Chain;
use press_page::Reply;
use std::alloc::Global;

/// A node with what it has beside it.
#[derive(Drop)]
pub struct Member<S> {
    pub(crate) alloc: Global,
    pub(crate) player: Player<S>,
    pub(crate) peers: Peers,
    pub(crate) time: u64,
    // The digests of what its node has applied.
    pub(crate) chain: Chain,
    // The front page, where it was shown since the node changed last.
    pub(crate) front: Option<Reply>,
    pub(crate) ghost shown: { IsShown (kit_of player.node) (state_of player.node) front } by { Prim.hlevel props },
}
