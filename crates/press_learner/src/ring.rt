//! The places of the kept votes: each member has 64, in which the slots of the window come round.

ghost use Rattle.std.specs.Prelude.{◌≡◌, ◌*◌, ◌<◌, length, replicate, slice_set, IfOk, OnOk, OnErr, MatchBool, None, Some, [], option_copied};
ghost use Rattle.press_learner.specs.InRing.{HasRoom, HasOther, IsAlike, HasNoOther, without_slot_votes, place_of, vote_in_ring};

use press_wire::Vote;
use std::alloc::{AllocError, Global};

/// For how many slots votes are kept.
pub const WINDOW: u32 = 64;

const PLACES: usize = WINDOW as usize;

#[tactic(auto, unfolding(crate::specs::InRing::place_of))]
fn place_of(slot: u32, member: u8) -> usize
    ensures { result ≡ place_of slot member }
{
    usize::from(member.saturating_sub(1)) * PLACES + slot as usize % PLACES
}

fn empty_ring(alloc: Global, members: u8) -> Result<Vec<Option<Vote>>, AllocError>
    ensures { IfOk result (λ ring. ring.items ≡ replicate (64 * members) None) }
{
    let places = PLACES * usize::from(members);
    let mut ring = Vec::with_capacity(alloc, places)?;
    for _ in 0..places {
        ring.push(None)?;
    }
    Ok(ring)
}

/// Makes room for the members' votes, if there is none yet: it takes memory once. What is in the
/// ring stays.
pub(crate) fn make_room(
    ring: &mut Vec<Option<Vote>>,
    alloc: Global,
    members: u8,
) -> Result<(), AllocError>
    requires { HasRoom members ring.old.items }
    ensures room { OnOk result (length ring.new.items ≡ 64 * members) }
    ensures same { IsAlike ring.old.items ring.new.items }
    ensures err { OnErr result (ring.new ≡ ring.old) }
    ensures memory { OnErr result (ring.old.items ≡ []) }
{
    if ring.is_empty() {
        *ring = empty_ring(alloc, members)?;
    }
    Ok(())
}

pub(crate) fn vote_in(ring: &[Option<Vote>], slot: u32, member: u8) -> Option<&Vote>
    ensures { option_copied result ≡ vote_in_ring ring.now slot member }
{
    match ring.get(place_of(slot, member)) {
        Some(vote) => vote.as_ref(),
        None => None,
    }
}

pub(crate) fn put_vote(ring: &mut Vec<Option<Vote>>, slot: u32, member: u8, vote: Vote)
    requires { place_of slot member < length ring.old.items }
    ensures { ring.new.items ≡ slice_set ring.old.items (place_of slot member) (Some vote) }
{
    ring[place_of(slot, member)] = Some(vote);
}

/// Drops the members' votes for the slot.
#[tactic(auto, using(crate::proofs::Rings::emptied_none, crate::proofs::Rings::emptied_more, crate::proofs::Rings::emptied_past))]
pub(crate) fn empty_slot(ring: &mut Vec<Option<Vote>>, slot: u32, members: u8)
    requires { members < 255 }
    ensures { ring.new.items ≡ without_slot_votes members slot ring.old.items }
{
    for i in 0..members {
        let place = place_of(slot, i + 1);
        if place < ring.len() {
            ring[place] = None;
        }
    }
}

/// Whether a vote for another slot is in the ring.
pub(crate) fn has_other(ring: &[Option<Vote>], slot: u32) -> bool
    ensures { MatchBool result (HasOther ring.now slot) (HasNoOther ring.now slot) }
{
    let own = slot as usize % PLACES;
    for (place, vote) in ring.iter().enumerate() {
        if vote.is_some() && place % PLACES != own {
            return true;
        }
    }
    false
}
