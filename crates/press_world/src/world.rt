//! The type of a cluster; its calls are in `play.rt`.

ghost use Rattle.press_callbacks.specs.Kits.{KitView};
ghost use Rattle.press_world.specs.Seats.{stored_of, statics_of};
ghost use Rattle.press_world.specs.Sound.{AreMembers, IsSound};

use crate::cluster::Cluster;
use std::alloc::Global;

/// A cluster of one to seven nodes over stores in memory, with every message that was ever sent.
#[derive(Drop)]
pub struct World {
    pub(crate) alloc: Global,
    pub(crate) cluster: Cluster,
    pub(crate) ghost sound: { ∥ IsSound
        (stored_of cluster.seats.items cluster.sent.items cluster.trace.items) ∥₁ },
    pub(crate) ghost members: { ∥ ((kit : KitView)
        × AreMembers kit (statics_of cluster.seats.items)) ∥₁ },
}
