//! Why a kit file is refused.

ghost use Rattle.std.specs.Prelude.{◌≡◌};
ghost use Rattle.press_lint.specs.declared.fault.LintFault.TheVariants.{NoMemory};

use std::alloc::{AllocError, AllocFailed};
use thiserror::Error;

/// Why a kit file is refused.
#[derive(Debug, Drop, Error)]
pub enum LintFault {
    #[error("no memory")]
    NoMemory,
    /// The number of its fault, and the message.
    #[error("fault {number}: {text}")]
    Refused { number: u8, text: String },
}

impl From<AllocError> for LintFault {
    ghost from_gives = { λ _ e. e ≡ NoMemory };

    fn from(_e: AllocError) -> LintFault {
        LintFault::NoMemory
    }
}

impl<T: Drop> From<AllocFailed<T>> for LintFault {
    ghost from_gives = { λ _ e. e ≡ NoMemory };

    fn from(_e: AllocFailed<T>) -> LintFault {
        LintFault::NoMemory
    }
}
