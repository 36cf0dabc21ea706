ghost use Rattle.std.specs.Prelude.{◌≡◌};
ghost use Rattle.press_fields.specs.declared.fault.FieldFault.TheVariants.{NoMemory};

use std::alloc::{AllocError, AllocFailed};
use thiserror::Error;

/// Why fields give no command.
#[derive(Clone, Copy, Debug, PartialEq, Eq, Error)]
pub enum FieldFault {
    #[error("no memory")]
    NoMemory,
    #[error("a field is missing or bad")]
    BadField,
}

impl From<AllocError> for FieldFault {
    ghost from_gives = { λ _ e. e ≡ NoMemory };

    fn from(_e: AllocError) -> FieldFault {
        FieldFault::NoMemory
    }
}

impl<T: Drop> From<AllocFailed<T>> for FieldFault {
    ghost from_gives = { λ _ e. e ≡ NoMemory };

    fn from(_e: AllocFailed<T>) -> FieldFault {
        FieldFault::NoMemory
    }
}
