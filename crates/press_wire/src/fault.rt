ghost use Rattle.std.specs.Prelude.{◌≡◌};
ghost use Rattle.press_wire.specs.Faults.{wire_fault_number};
ghost use Rattle.press_wire.specs.declared.fault.WireFault.TheVariants.{NoMemory};

use std::alloc::{AllocError, AllocFailed};
use thiserror::Error;

/// Why a value has no spelling, or bytes are the spelling of nothing.
#[derive(Clone, Copy, Debug, PartialEq, Eq, Error)]
pub enum WireFault {
    #[error("no memory")]
    NoMemory,
    #[error("too long")]
    TooLong,
    /// The bytes end inside a field.
    #[error("too short")]
    Short,
    #[error("of no kind")]
    BadKind,
    /// A number out of its range, a bad name, or bytes that aren't UTF-8.
    #[error("a bad field")]
    BadField,
    /// Bytes after the last field.
    #[error("more bytes than fields")]
    Extra,
}

impl WireFault {
    /// Its number in the table of faults.
    pub fn number(self) -> u8
        ensures { result ≡ wire_fault_number self }
    {
        match self {
            WireFault::NoMemory => 0,
            WireFault::TooLong => 2,
            WireFault::Short => 30,
            WireFault::BadKind => 31,
            WireFault::BadField => 32,
            WireFault::Extra => 33,
        }
    }
}

impl From<AllocError> for WireFault {
    ghost from_gives = { λ _ e. e ≡ NoMemory };

    fn from(_e: AllocError) -> WireFault {
        WireFault::NoMemory
    }
}

impl<T: Drop> From<AllocFailed<T>> for WireFault {
    ghost from_gives = { λ _ e. e ≡ NoMemory };

    fn from(_e: AllocFailed<T>) -> WireFault {
        WireFault::NoMemory
    }
}
