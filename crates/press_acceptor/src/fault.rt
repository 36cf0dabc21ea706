ghost use Rattle.std.specs.Prelude.{◌≡◌};
ghost use Rattle.press_acceptor.specs.Faults.{store_fault_number};
ghost use Rattle.press_acceptor.specs.declared.fault.StoreFault.TheVariants.{NoMemory};

use std::alloc::{AllocError, AllocFailed};
use thiserror::Error;

/// Why a call of a store fails.
#[derive(Clone, Copy, Debug, PartialEq, Eq, Error)]
pub enum StoreFault {
    #[error("no memory")]
    NoMemory,
    /// Only where the device has failed during the call.
    #[error("the disk failed")]
    Disk,
    #[error("what is stored is damaged")]
    Damaged,
}

impl StoreFault {
    /// Its number in the table of faults.
    pub fn number(self) -> u8
        ensures { result ≡ store_fault_number self }
    {
        match self {
            StoreFault::NoMemory => 0,
            StoreFault::Disk => 50,
            StoreFault::Damaged => 51,
        }
    }
}

impl From<AllocError> for StoreFault {
    ghost from_gives = { λ _ e. e ≡ NoMemory };

    fn from(_e: AllocError) -> StoreFault {
        StoreFault::NoMemory
    }
}

impl<T: Drop> From<AllocFailed<T>> for StoreFault {
    ghost from_gives = { λ _ e. e ≡ NoMemory };

    fn from(_e: AllocFailed<T>) -> StoreFault {
        StoreFault::NoMemory
    }
}
