ghost use Rattle.std.specs.Prelude.{◌≡◌};
ghost use Rattle.press_wire.specs.Ballots.{is_less, is_same};

use crate::member_id::MemberId;
use crate::round::Round;

/// A proposal number: ballots are ordered by round, then by node (Paxos Made Simple, 2.2).
#[derive(Clone, Copy, Debug, PartialEq, Eq, PartialOrd, Ord)]
pub struct Ballot {
    pub round: Round,
    pub node: MemberId,
}

impl Ballot {
    /// Whether it comes before the other.
    pub fn is_less(self, other: Ballot) -> bool
        ensures { result ≡ is_less self other }
    {
        self.round < other.round || (self.round == other.round && self.node < other.node)
    }

    /// Whether the two are one ballot.
    pub fn is(self, other: Ballot) -> bool
        ensures { result ≡ is_same self other }
    {
        self.round == other.round && self.node == other.node
    }
}
