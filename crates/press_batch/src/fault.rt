ghost use Rattle.std.specs.Prelude.{◌≡◌};
ghost use Rattle.press_batch.specs.declared.fault.BatchFault.TheVariants.{NoMemory};

use std::alloc::{AllocError, AllocFailed};
use thiserror::Error;

/// Why a batch has no spelling, or bytes are the spelling of nothing.
#[derive(Clone, Copy, Debug, PartialEq, Eq, Error)]
pub enum BatchFault {
    #[error("no memory")]
    NoMemory,
    /// Over 1,048,576 bytes.
    #[error("too long")]
    TooLong,
    /// The bytes end inside a field.
    #[error("too short")]
    Short,
    #[error("of another version")]
    BadVersion,
    /// The sender's number is none of a node.
    #[error("no member")]
    BadMember,
    /// A byte that says whether there is a recall, or a mark in it, is neither 0 nor 1.
    #[error("a bad recall")]
    BadRecall,
    /// The bytes of a message are none, or the message is too long to have any.
    #[error("a bad message")]
    BadMessage,
    /// Bytes after the head.
    #[error("more bytes than fields")]
    Extra,
}

impl From<AllocError> for BatchFault {
    ghost from_gives = { λ _ e. e ≡ NoMemory };

    fn from(_e: AllocError) -> BatchFault {
        BatchFault::NoMemory
    }
}

impl<T: Drop> From<AllocFailed<T>> for BatchFault {
    ghost from_gives = { λ _ e. e ≡ NoMemory };

    fn from(_e: AllocFailed<T>) -> BatchFault {
        BatchFault::NoMemory
    }
}
