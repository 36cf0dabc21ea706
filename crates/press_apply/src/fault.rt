ghost use Rattle.std.specs.Prelude.{◌≡◌};
ghost use Rattle.press_apply.specs.Faults.{apply_fault_number, of_run, of_site};
ghost use Rattle.press_apply.specs.declared.fault.ApplyFault.TheVariants.{NoMemory};

use press_run::RunFault;
use press_site::SiteFault;
use std::alloc::{AllocError, AllocFailed};
use thiserror::Error;

/// Why a command is refused.
#[derive(Clone, Copy, Debug, PartialEq, Eq, Error)]
pub enum ApplyFault {
    #[error("no memory")]
    NoMemory,
    #[error("a limit of open callbacks, turns or bytes")]
    Limit,
    #[error("no such plugin")]
    NoSuchPlugin,
    #[error("the site refuses it")]
    Site(SiteFault),
}

impl ApplyFault {
    /// Its number in the table of faults.
    pub fn number(self) -> u8
        ensures { result ≡ apply_fault_number self }
    {
        match self {
            ApplyFault::NoMemory => 0,
            ApplyFault::Limit => 20,
            ApplyFault::NoSuchPlugin => 15,
            ApplyFault::Site(fault) => fault.number(),
        }
    }
}

impl From<AllocError> for ApplyFault {
    ghost from_gives = { λ _ e. e ≡ NoMemory };

    fn from(_e: AllocError) -> ApplyFault {
        ApplyFault::NoMemory
    }
}

impl<T: Drop> From<AllocFailed<T>> for ApplyFault {
    ghost from_gives = { λ _ e. e ≡ NoMemory };

    fn from(_e: AllocFailed<T>) -> ApplyFault {
        ApplyFault::NoMemory
    }
}

impl From<RunFault> for ApplyFault {
    ghost from_gives = { λ f e. e ≡ of_run f };

    fn from(fault: RunFault) -> ApplyFault {
        match fault {
            RunFault::NoMemory => ApplyFault::NoMemory,
            RunFault::Limit => ApplyFault::Limit,
        }
    }
}

impl From<SiteFault> for ApplyFault {
    ghost from_gives = { λ f e. e ≡ of_site f };

    fn from(fault: SiteFault) -> ApplyFault {
        match fault {
            SiteFault::NoMemory => ApplyFault::NoMemory,
            refused => ApplyFault::Site(refused),
        }
    }
}
