//! Numbers by chance, the same for the same seed (SplitMix64).

/// What the next number comes of.
#[derive(Clone, Copy, Drop)]
pub struct Dice {
    state: u64,
}

impl Dice {
    /// The numbers that come of a seed.
    pub fn new(seed: u64) -> Dice {
        Dice { state: seed }
    }

    fn next(&mut self) -> u64 {
        self.state = self.state.wrapping_add(0x9e37_79b9_7f4a_7c15);
        let a = (self.state ^ (self.state >> 30)).wrapping_mul(0xbf58_476d_1ce4_e5b9);
        let b = (a ^ (a >> 27)).wrapping_mul(0x94d0_49bb_1331_11eb);
        b ^ (b >> 31)
    }

    /// One of the numbers below this one, or 0.
    pub fn below(&mut self, count: u64) -> u64 {
        let next = self.next();
        match next.checked_rem(count) {
            Some(number) => number,
            None => 0,
        }
    }

    /// One of the numbers from the one to the other.
    pub fn between(&mut self, least: u64, most: u64) -> u64 {
        let count = most.saturating_sub(least).saturating_add(1);
        least.saturating_add(self.below(count))
    }

    /// Whether it is one of so many in a thousand.
    pub fn is_in_thousand(&mut self, count: u64) -> bool {
        self.below(1_000) < count
    }
}
