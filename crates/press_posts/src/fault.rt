ghost use Rattle.std.specs.Prelude.{◌≡◌};
ghost use Rattle.press_posts.specs.Faults.{post_fault_number};
ghost use Rattle.press_posts.specs.declared.fault.PostFault.TheVariants.{NoMemory};

use std::alloc::{AllocError, AllocFailed};
use thiserror::Error;

/// Why a change of posts is refused.
#[derive(Clone, Copy, Debug, PartialEq, Eq, Error)]
pub enum PostFault {
    #[error("no memory")]
    NoMemory,
    #[error("too long")]
    TooLong,
    #[error("no such post")]
    NoSuchPost,
    #[error("not in the trash")]
    NotTrashed,
    #[error("in the trash")]
    IsTrashed,
    #[error("too many posts")]
    TooManyPosts,
}

impl PostFault {
    /// Its number in the table of faults.
    pub fn number(self) -> u8
        ensures { result ≡ post_fault_number self }
    {
        match self {
            PostFault::NoMemory => 0,
            PostFault::TooLong => 2,
            PostFault::NoSuchPost => 10,
            PostFault::NotTrashed => 11,
            PostFault::IsTrashed => 12,
            PostFault::TooManyPosts => 13,
        }
    }
}

impl From<AllocError> for PostFault {
    ghost from_gives = { λ _ e. e ≡ NoMemory };

    fn from(_e: AllocError) -> PostFault {
        PostFault::NoMemory
    }
}

impl<T: Drop> From<AllocFailed<T>> for PostFault {
    ghost from_gives = { λ _ e. e ≡ NoMemory };

    fn from(_e: AllocFailed<T>) -> PostFault {
        PostFault::NoMemory
    }
}
