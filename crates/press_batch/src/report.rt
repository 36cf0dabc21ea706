/// Which members a member counts, and which kit it runs. Members whose digests differ don't hear
/// each other.
#[derive(Clone, Copy, Debug, PartialEq, Eq)]
pub struct Digests {
    pub peers: u64,
    pub kit: u64,
}

/// How far a member is, as it says of itself.
#[derive(Clone, Copy, Debug, PartialEq, Eq)]
pub struct Report {
    /// How many slots it has applied.
    pub applied: u64,
    /// How many slots are chosen, as far as it knows.
    pub chosen: u64,
    pub digests: Digests,
    /// Of the values that it has applied.
    pub digest: [u8; 32],
    /// Of those up to the last multiple of 64.
    pub block_digest: [u8; 32],
}
