//! The beginning of a cluster.

ghost use Rattle.std.specs.Prelude.{◌≡◌, ◌≤◌, IfOk, length, vec_len};
ghost use Rattle.press_callbacks.specs.Kits.{KitView};
ghost use Rattle.press_world.specs.Models.{model, statics};
ghost use Rattle.press_world.specs.Seats.{places_of, statics_of};
ghost use Rattle.press_world.specs.Starts.{AreKit, statics_from, views_of};
ghost use Rattle.press_world.specs.Stored.{new_stored};
ghost use Rattle.press_world.specs.Worlds.{new_places};
ghost use Rattle.press_wire.specs.Ranges.{most_members};

use crate::cluster::Cluster;
use crate::cluster_events::member_at;
use crate::seat::Seat;
use crate::world::World;
use press_callbacks::Kit;
use press_learner::{chosen_by_majority, only_votes_that_came_are_kept};
use std::alloc::{AllocError, Global};

// A node for each kit.
fn start_all(alloc: Global, kits: Vec<Kit>, members: u8) -> Result<Vec<Seat>, AllocError>
    requires few { members ≤ most_members }
    requires count { length kits.items ≤ members }
    ensures places { IfOk result (λ seats.
        places_of seats.items ≡ new_places members 1 (length kits.items)) }
    ensures statics { IfOk result (λ seats.
        statics_of seats.items ≡ statics_from 1 members (views_of kits.items)) }
{
    let mut seats = Vec::new(alloc);
    for kit in kits {
        let member = member_at(seats.len());
        seats.push(Seat::start(alloc, member, members, kit))?;
    }
    Ok(seats)
}

impl World {
    /// A cluster of new nodes, one for each kit. A message has not been sent yet.
    pub fn new(alloc: Global, kits: Vec<Kit>) -> Result<World, AllocError>
        requires some { 1 ≤ length kits.items }
        requires few { length kits.items ≤ most_members }
        requires alike { (kit : KitView) × AreKit kit (views_of kits.items) }
        ensures new { IfOk result (λ world. model world ≡ new_stored (length kits.items)) }
        ensures statics { IfOk result (λ world.
            statics world ≡ statics_from 1 (length kits.items) (views_of kits.items)) }
    {
        chosen_by_majority();
        only_votes_that_came_are_kept();
        let members = kits.len() as u8;
        let seats = start_all(alloc, kits, members)?;
        Ok(World {
            alloc,
            cluster: Cluster {
                seats,
                sent: Vec::new(alloc),
                trace: Vec::new(alloc),
            },
        })
    }
}
