//! The type of a node; its calls are in `calls.rt`.

ghost use Rattle.std.specs.Prelude.{◌≡◌};
ghost use Rattle.std.proofs.Props.{props};
ghost use Rattle.press_callbacks.specs.Kits.{kit_view};
ghost use Rattle.press_node.specs.States.{IsFolded};

use crate::state::State;
use press_callbacks::Kit;
use std::alloc::Global;

/// A node of a cluster: its kit, its store, and what it has in memory while it is up.
#[derive(Drop)]
pub struct Node<S> {
    pub(crate) alloc: Global,
    pub(crate) kit: Kit,
    pub(crate) store: S,
    pub(crate) state: State,
    pub(crate) ghost folded: { IsFolded (kit_view kit) state } by { Prim.hlevel props },
}
