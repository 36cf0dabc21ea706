ghost use Rattle.std.specs.Prelude.{◌≡◌, MatchOption, false, true};
ghost use Rattle.press_node.specs.Faults.{node_fault_number, of_proposer, of_store, stop_of, stops};

use press_acceptor::StoreFault;
use press_proposer::ProposerFault;
use thiserror::Error;

/// Why a node does nothing with an event, or has no reply.
#[derive(Clone, Copy, Debug, PartialEq, Eq, Error)]
pub enum NodeFault {
    #[error("the node is down")]
    Down,
    /// The command takes more than 16,384 bytes on the wire.
    #[error("too long a command")]
    TooLong,
    #[error("too many commands wait")]
    Full,
    /// Every slot has its value.
    #[error("no slot is left")]
    SlotsUsedUp,
    #[error("no round is left")]
    RoundsUsedUp,
    /// Only where the device of the store has failed during the call.
    #[error("the disk failed")]
    Disk,
    #[error("what is stored is damaged")]
    Damaged,
    #[error("no memory")]
    NoMemory,
}

impl NodeFault {
    /// Its number in the table of faults.
    pub fn number(self) -> u8
        ensures { result ≡ node_fault_number self }
    {
        match self {
            NodeFault::NoMemory => 0,
            NodeFault::TooLong => 2,
            NodeFault::Disk => 50,
            NodeFault::Damaged => 51,
            NodeFault::Full => 60,
            NodeFault::RoundsUsedUp => 61,
            NodeFault::SlotsUsedUp => 62,
            NodeFault::Down => 63,
        }
    }

    /// Whether the node is down after it.
    pub fn stops(self) -> bool
        ensures { result ≡ stops self }
    {
        match self {
            NodeFault::Disk | NodeFault::Damaged | NodeFault::NoMemory => true,
            NodeFault::Down
            | NodeFault::TooLong
            | NodeFault::Full
            | NodeFault::SlotsUsedUp
            | NodeFault::RoundsUsedUp => false,
        }
    }

    /// What stopped the node, where it is more than a refusal.
    pub fn stop(self) -> Option<StoreFault>
        ensures stop { result ≡ stop_of self }
        ensures tells { MatchOption result (stops self ≡ false) (λ by. self ≡ of_store by) }
    {
        match self {
            NodeFault::NoMemory => Some(StoreFault::NoMemory),
            NodeFault::Disk => Some(StoreFault::Disk),
            NodeFault::Damaged => Some(StoreFault::Damaged),
            NodeFault::Down
            | NodeFault::TooLong
            | NodeFault::Full
            | NodeFault::SlotsUsedUp
            | NodeFault::RoundsUsedUp => None,
        }
    }

    pub(crate) fn of_store(fault: StoreFault) -> NodeFault
        ensures value { result ≡ of_store fault }
        ensures stops { stops result ≡ true }
    {
        match fault {
            StoreFault::Disk => NodeFault::Disk,
            StoreFault::Damaged => NodeFault::Damaged,
            StoreFault::NoMemory => NodeFault::NoMemory,
        }
    }

    pub(crate) fn of_proposer(fault: ProposerFault) -> NodeFault
        ensures { result ≡ of_proposer fault }
    {
        match fault {
            ProposerFault::Full => NodeFault::Full,
            ProposerFault::RoundsUsedUp => NodeFault::RoundsUsedUp,
            ProposerFault::Store(fault) => NodeFault::of_store(fault),
        }
    }
}
