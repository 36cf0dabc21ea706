ghost use Rattle.std.specs.Prelude.{◌≡◌, ◌≤◌, ◌^◌};
ghost use Rattle.press_wire.specs.Ranges.{round_of};

use std::marker::Model;

/// The greatest round.
pub const GREATEST_ROUND: u64 = 1 << 40;

/// A round of ballots: 1 to 2^40.
#[derive(Clone, Copy, Debug, PartialEq, Eq, PartialOrd, Ord)]
pub struct Round {
    number: u64,
}

impl Model for Round {
    ghost use Rattle.std.specs.Prelude.{ℕ, ◌≤◌, ◌^◌};

    ghost Value = { ℕ };

    ghost view = { λ x. x.number };

    ghost invariant = { λ x. (1 ≤ x.number) × (x.number ≤ 2 ^ 40) };

    ghost inverse = { λ n. record { number = n } };
}

impl Round {
    /// None outside 1 to 2^40.
    pub fn new(number: u64) -> Option<Round>
        ensures { result ≡ round_of number }
    {
        if 1 <= number && number <= GREATEST_ROUND {
            Some(Round { number })
        } else {
            None
        }
    }

    /// From 1 to 2^40.
    pub fn number(self) -> u64
        ensures value { result ≡ self }
        ensures range { (1 ≤ result) × (result ≤ 2 ^ 40) }
    {
        self.number
    }
}
