ghost use Rattle.std.specs.Prelude.{◌≡◌, ◌≤◌};
ghost use Rattle.press_wire.specs.Ranges.{member_id_of, most_members};

use std::marker::Model;

/// The most members that a cluster has.
pub const MOST_MEMBERS: u8 = 7;

/// A node of a cluster: 1 to 7.
#[derive(Clone, Copy, Debug, PartialEq, Eq, PartialOrd, Ord)]
pub struct MemberId {
    number: u8,
}

impl Model for MemberId {
    ghost use Rattle.std.specs.Prelude.{ℕ, ◌≤◌};
    ghost use Rattle.press_wire.specs.Ranges.{most_members};

    ghost Value = { ℕ };

    ghost view = { λ x. x.number };

    ghost invariant = { λ x. (1 ≤ x.number) × (x.number ≤ most_members) };

    ghost inverse = { λ n. record { number = n } };
}

impl MemberId {
    /// None outside 1 to 7.
    pub fn new(number: u8) -> Option<MemberId>
        ensures { result ≡ member_id_of number }
    {
        if 1 <= number && number <= MOST_MEMBERS {
            Some(MemberId { number })
        } else {
            None
        }
    }

    /// From 1 to 7.
    pub fn number(self) -> u8
        ensures value { result ≡ self }
        ensures range { (1 ≤ result) × (result ≤ most_members) }
    {
        self.number
    }
}
