ghost use Rattle.std.specs.Prelude.{◌≡◌};
ghost use Rattle.press_callbacks.specs.Faults.{kit_fault_number};
ghost use Rattle.press_callbacks.specs.declared.kit_fault.KitFault.TheVariants.{NoMemory};

use std::alloc::{AllocError, AllocFailed};
use thiserror::Error;

/// Why callbacks and plugins make no kit.
#[derive(Clone, Copy, Debug, PartialEq, Eq, Error)]
pub enum KitFault {
    #[error("no memory")]
    NoMemory,
    #[error("two callbacks or two plugins of one name, or a callback with a built-in name")]
    TwoNames,
    #[error("a load or a script names a callback that the kit lacks")]
    UnknownCallback,
    #[error("more than 1000 hook loads or 128 tag loads")]
    BadLoad,
}

impl KitFault {
    /// Its number in the table of faults.
    pub fn number(self) -> u8
        ensures { result ≡ kit_fault_number self }
    {
        match self {
            KitFault::NoMemory => 0,
            KitFault::TwoNames => 3,
            KitFault::UnknownCallback => 4,
            KitFault::BadLoad => 5,
        }
    }
}

impl From<AllocError> for KitFault {
    ghost from_gives = { λ _ e. e ≡ NoMemory };

    fn from(_e: AllocError) -> KitFault {
        KitFault::NoMemory
    }
}

impl<T: Drop> From<AllocFailed<T>> for KitFault {
    ghost from_gives = { λ _ e. e ≡ NoMemory };

    fn from(_e: AllocFailed<T>) -> KitFault {
        KitFault::NoMemory
    }
}
