ghost use Rattle.std.specs.Prelude.{◌≡◌};
ghost use Rattle.press_text.specs.Faults.{name_fault_number};
ghost use Rattle.press_text.specs.declared.name_fault.NameFault.TheVariants.{NoMemory};

use std::alloc::AllocError;
use thiserror::Error;

/// Why a text is no name.
#[derive(Clone, Copy, Debug, PartialEq, Eq, Error)]
pub enum NameFault {
    #[error("no memory")]
    NoMemory,
    #[error("not a name")]
    BadName,
    #[error("too long for a name")]
    TooLong,
}

impl NameFault {
    /// Its number in the table of faults.
    pub fn number(self) -> u8
        ensures { result ≡ name_fault_number self }
    {
        match self {
            NameFault::NoMemory => 0,
            NameFault::BadName => 1,
            NameFault::TooLong => 2,
        }
    }
}

impl From<AllocError> for NameFault {
    ghost from_gives = { λ _ e. e ≡ NoMemory };

    fn from(_e: AllocError) -> NameFault {
        NameFault::NoMemory
    }
}
