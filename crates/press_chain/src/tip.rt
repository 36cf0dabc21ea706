/// What a chain tells of itself.
#[derive(Clone, Copy, Debug, PartialEq, Eq)]
pub struct Tip {
    /// Of how many values it is.
    pub count: u64,
    /// The digest of so many values.
    pub digest: [u8; 32],
    /// That of the last multiple of 64 of them.
    pub block_digest: [u8; 32],
}
