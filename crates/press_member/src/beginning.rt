//! What a member begins with.

use press_batch::Digests;
use press_wire::MemberId;

/// What a member begins with, beside its node.
#[derive(Clone, Copy, Debug)]
pub struct Beginning {
    pub id: MemberId,
    pub members: u8,
    /// Milliseconds from one look at the others to the next.
    pub tick: u32,
    pub digests: Digests,
    /// How many slots are chosen, by what its store keeps.
    pub chosen: u64,
}
