ghost use Rattle.std.specs.Prelude.{◌≡◌};
ghost use Rattle.press_world.specs.WorldFaults.{world_fault_number};

use press_node::NodeFault;
use thiserror::Error;

/// Why a step isn't played.
#[derive(Clone, Copy, Debug, PartialEq, Eq, Error)]
pub enum WorldFault {
    #[error("no such message")]
    NoSuchMessage,
    #[error("no such node")]
    NoSuchNode,
    #[error("{0}")]
    Node(NodeFault),
}

impl WorldFault {
    /// Its number in the table of faults.
    pub fn number(self) -> u8
        ensures { result ≡ world_fault_number self }
    {
        match self {
            WorldFault::NoSuchMessage => 70,
            WorldFault::NoSuchNode => 71,
            WorldFault::Node(fault) => fault.number(),
        }
    }
}
