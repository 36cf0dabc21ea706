//! Why a run ends without an answer.

ghost use Rattle.std.specs.Prelude.{◌≡◌};
ghost use Rattle.press_world.specs.ReplayFaults.{fault_number, fault_of_file, fault_of_reading};
ghost use Rattle.press_world.specs.declared.replay_fault.ReplayFault.TheVariants as fault;

use press_kit::KitFileFault;
use press_text::{ReadLimitedFault, WriteFault};
use std::alloc::{AllocError, AllocFailed};
use thiserror::Error;

/// Why a file could not be read, or an answer could not be written.
#[derive(Clone, Copy, Debug, PartialEq, Eq, Error)]
pub enum ReplayFault {
    #[error("no memory")]
    NoMemory,
    #[error("a read failed")]
    ReadFault,
    #[error("a write failed")]
    WriteFault,
    #[error("the file is bad")]
    BadSchedule,
}

impl ReplayFault {
    /// Its number in the table of faults, which the program prints.
    pub fn number(self) -> u8
        ensures { result ≡ fault_number self }
    {
        match self {
            ReplayFault::NoMemory => 0,
            ReplayFault::ReadFault => 40,
            ReplayFault::WriteFault => 42,
            ReplayFault::BadSchedule => 72,
        }
    }
}

impl From<AllocError> for ReplayFault {
    ghost from_gives = { λ _ e. e ≡ fault.NoMemory };

    fn from(_e: AllocError) -> ReplayFault {
        ReplayFault::NoMemory
    }
}

impl<T: Drop> From<AllocFailed<T>> for ReplayFault {
    ghost from_gives = { λ _ e. e ≡ fault.NoMemory };

    fn from(_e: AllocFailed<T>) -> ReplayFault {
        ReplayFault::NoMemory
    }
}

impl From<ReadLimitedFault> for ReplayFault {
    ghost from_gives = { λ f e. e ≡ fault_of_reading f };

    fn from(f: ReadLimitedFault) -> ReplayFault {
        match f {
            ReadLimitedFault::NoMemory => ReplayFault::NoMemory,
            ReadLimitedFault::ReadFault => ReplayFault::ReadFault,
            ReadLimitedFault::TooLong => ReplayFault::BadSchedule,
        }
    }
}

impl From<KitFileFault> for ReplayFault {
    ghost from_gives = { λ f e. e ≡ fault_of_file f };

    fn from(f: KitFileFault) -> ReplayFault {
        match f {
            KitFileFault::NoMemory => ReplayFault::NoMemory,
            KitFileFault::BadKitFile(_) => ReplayFault::BadSchedule,
        }
    }
}

impl From<WriteFault> for ReplayFault {
    ghost from_gives = { λ _ e. e ≡ fault.WriteFault };

    fn from(_f: WriteFault) -> ReplayFault {
        ReplayFault::WriteFault
    }
}
