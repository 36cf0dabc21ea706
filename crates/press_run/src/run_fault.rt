ghost use Rattle.std.specs.Prelude.{◌≡◌};
ghost use Rattle.press_run.specs.Faults.{run_fault_number};
ghost use Rattle.press_run.specs.Outcome.{is_limit};
ghost use Rattle.press_run.specs.declared.run_fault.RunFault.TheVariants.{NoMemory};

use std::alloc::{AllocError, AllocFailed};
use thiserror::Error;

/// Why a run gave nothing.
#[derive(Clone, Copy, Debug, PartialEq, Eq, Error)]
pub enum RunFault {
    #[error("no memory")]
    NoMemory,
    #[error("a limit of open callbacks, turns or bytes")]
    Limit,
}

impl RunFault {
    /// Its number in the table of faults.
    pub fn number(self) -> u8
        ensures { result ≡ run_fault_number self }
    {
        match self {
            RunFault::NoMemory => 0,
            RunFault::Limit => 20,
        }
    }
}

/// Whether a limit was met.
pub(crate) fn is_limit(given: &Result<(), RunFault>) -> bool
    ensures { result ≡ is_limit given.now }
{
    match given {
        Ok(_) => false,
        Err(RunFault::Limit) => true,
        Err(RunFault::NoMemory) => false,
    }
}

impl From<AllocError> for RunFault {
    ghost from_gives = { λ _ e. e ≡ NoMemory };

    fn from(_e: AllocError) -> RunFault {
        RunFault::NoMemory
    }
}

impl<T: Drop> From<AllocFailed<T>> for RunFault {
    ghost from_gives = { λ _ e. e ≡ NoMemory };

    fn from(_e: AllocFailed<T>) -> RunFault {
        RunFault::NoMemory
    }
}
