ghost use Rattle.std.specs.Prelude.{◌≡◌};
ghost use Rattle.press_acceptor.specs.declared.fault.StoreFault.TheVariants.{NoMemory};
ghost use Rattle.press_proposer.specs.Faults.{proposer_fault_number};
ghost use Rattle.press_proposer.specs.declared.fault.ProposerFault.TheVariants.{Store};

use press_acceptor::StoreFault;
use std::alloc::AllocError;
use thiserror::Error;

/// Why a call of a proposer fails.
#[derive(Clone, Copy, Debug, PartialEq, Eq, Error)]
pub enum ProposerFault {
    #[error("the queue is full")]
    Full,
    #[error("no round is left")]
    RoundsUsedUp,
    /// The store failed, or there is no memory.
    #[error("the store: {0}")]
    Store(StoreFault),
}

impl ProposerFault {
    /// Its number in the table of faults.
    pub fn number(self) -> u8
        ensures { result ≡ proposer_fault_number self }
    {
        match self {
            ProposerFault::Full => 60,
            ProposerFault::RoundsUsedUp => 61,
            ProposerFault::Store(fault) => fault.number(),
        }
    }
}

impl From<StoreFault> for ProposerFault {
    ghost from_gives = { λ f e. e ≡ Store f };

    fn from(fault: StoreFault) -> ProposerFault {
        ProposerFault::Store(fault)
    }
}

impl From<AllocError> for ProposerFault {
    ghost from_gives = { λ _ e. e ≡ Store NoMemory };

    fn from(_e: AllocError) -> ProposerFault {
        ProposerFault::Store(StoreFault::NoMemory)
    }
}
