ghost use Rattle.std.specs.Prelude.{◌≡◌};
ghost use Rattle.press_site.specs.Faults.{site_fault_number, of_posts, of_events};
ghost use Rattle.press_site.specs.declared.fault.SiteFault.TheVariants.{NoMemory};

use press_events::EventFault;
use press_posts::PostFault;
use std::alloc::{AllocError, AllocFailed};
use thiserror::Error;

/// Why a change of a site is refused.
#[derive(Clone, Copy, Debug, PartialEq, Eq, Error)]
pub enum SiteFault {
    #[error("no memory")]
    NoMemory,
    #[error("too long")]
    TooLong,
    #[error("no such post")]
    NoSuchPost,
    #[error("not in the trash")]
    NotTrashed,
    #[error("in the trash")]
    IsTrashed,
    #[error("too many posts")]
    TooManyPosts,
    #[error("too many events")]
    TooManyEvents,
    #[error("the plugin is active already")]
    AlreadyActive,
    #[error("the plugin isn't active")]
    NotActive,
    #[error("too many options")]
    TooManyOptions,
    #[error("not the next profile")]
    BadProfile,
}

impl SiteFault {
    /// Its number in the table of faults.
    pub fn number(self) -> u8
        ensures { result ≡ site_fault_number self }
    {
        match self {
            SiteFault::NoMemory => 0,
            SiteFault::TooLong => 2,
            SiteFault::NoSuchPost => 10,
            SiteFault::NotTrashed => 11,
            SiteFault::IsTrashed => 12,
            SiteFault::TooManyPosts => 13,
            SiteFault::TooManyEvents => 14,
            SiteFault::AlreadyActive => 16,
            SiteFault::NotActive => 17,
            SiteFault::TooManyOptions => 18,
            SiteFault::BadProfile => 19,
        }
    }
}

impl From<AllocError> for SiteFault {
    ghost from_gives = { λ _ e. e ≡ NoMemory };

    fn from(_e: AllocError) -> SiteFault {
        SiteFault::NoMemory
    }
}

impl<T: Drop> From<AllocFailed<T>> for SiteFault {
    ghost from_gives = { λ _ e. e ≡ NoMemory };

    fn from(_e: AllocFailed<T>) -> SiteFault {
        SiteFault::NoMemory
    }
}

impl From<PostFault> for SiteFault {
    ghost from_gives = { λ f e. e ≡ of_posts f };

    fn from(fault: PostFault) -> SiteFault {
        match fault {
            PostFault::NoMemory => SiteFault::NoMemory,
            PostFault::TooLong => SiteFault::TooLong,
            PostFault::NoSuchPost => SiteFault::NoSuchPost,
            PostFault::NotTrashed => SiteFault::NotTrashed,
            PostFault::IsTrashed => SiteFault::IsTrashed,
            PostFault::TooManyPosts => SiteFault::TooManyPosts,
        }
    }
}

impl From<EventFault> for SiteFault {
    ghost from_gives = { λ f e. e ≡ of_events f };

    fn from(fault: EventFault) -> SiteFault {
        match fault {
            EventFault::NoMemory => SiteFault::NoMemory,
            EventFault::TooLong => SiteFault::TooLong,
            EventFault::TooManyEvents => SiteFault::TooManyEvents,
        }
    }
}
