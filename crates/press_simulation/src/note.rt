/// The digest of some bytes (FNV-1a).
pub fn digest_of(bytes: &[u8]) -> u64 {
    let mut digest: u64 = 0xcbf2_9ce4_8422_2325;
    for byte in bytes.iter() {
        digest = (digest ^ u64::from(*byte)).wrapping_mul(0x0000_0100_0000_01b3);
    }
    digest
}

/// A vote that was saved.
#[derive(Clone, Copy, Drop)]
pub struct Note {
    pub slot: u32,
    pub round: u64,
    pub node: u8,
    /// The digest of its value.
    pub value: u64,
}

impl Note {
    /// Whether it is the same vote.
    pub fn is(&self, other: &Note) -> bool {
        self.slot == other.slot
            && self.round == other.round
            && self.node == other.node
            && self.value == other.value
    }
}
