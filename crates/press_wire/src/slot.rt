ghost use Rattle.std.specs.Prelude.{◌≡◌, ◌≤◌, true};
ghost use Rattle.press_wire.specs.Blocks.{block_of, is_first, is_last};
ghost use Rattle.press_wire.specs.Ranges.{slot_of, last_slot};

use std::marker::Model;

/// The last slot: a cluster chooses no more values.
pub const LAST_SLOT: u32 = 1_000_000;

/// How many slots a block has, which share a promise.
pub const BLOCK_SLOTS: u32 = 16;

/// The place of a value among those chosen: 1 to 1,000,000.
#[derive(Clone, Copy, Debug, PartialEq, Eq, PartialOrd, Ord)]
pub struct Slot {
    number: u32,
}

impl Model for Slot {
    ghost use Rattle.std.specs.Prelude.{ℕ, ◌≤◌};
    ghost use Rattle.press_wire.specs.Ranges.{last_slot};

    ghost Value = { ℕ };

    ghost view = { λ x. x.number };

    ghost invariant = { λ x. (1 ≤ x.number) × (x.number ≤ last_slot) };

    ghost inverse = { λ n. record { number = n } };
}

impl Slot {
    /// None outside 1 to 1,000,000.
    pub fn new(number: u32) -> Option<Slot>
        ensures { result ≡ slot_of number }
    {
        if 1 <= number && number <= LAST_SLOT {
            Some(Slot { number })
        } else {
            None
        }
    }

    /// From 1 to 1,000,000.
    pub fn number(self) -> u32
        ensures value { result ≡ self }
        ensures range { (1 ≤ result) × (result ≤ last_slot) }
    {
        self.number
    }

    /// The first slot of its block.
    #[tactic(auto, unfolding(crate::specs::Blocks::block_of))]
    pub fn first(self) -> Slot
        ensures block { result ≡ block_of self }
        ensures first { is_first result ≡ true }
    {
        let number = self.number();
        let Some(first) = Slot::new(number - (number - 1) % BLOCK_SLOTS) else {
            unreachable!()
        };
        first
    }

    /// Whether it is the last slot of its block.
    #[tactic(auto, unfolding(crate::specs::Blocks::is_last))]
    pub fn is_last(self) -> bool
        ensures { result ≡ is_last self }
    {
        self.number() % BLOCK_SLOTS == 0
    }
}

/// Whether it is the first slot of a block.
pub fn is_first(slot: Slot) -> bool
    ensures { result ≡ is_first slot }
{
    slot.first() == slot
}
