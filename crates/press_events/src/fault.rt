ghost use Rattle.std.specs.Prelude.{◌≡◌};
ghost use Rattle.press_events.specs.Faults.{event_fault_number};
ghost use Rattle.press_events.specs.declared.fault.EventFault.TheVariants.{NoMemory};

use std::alloc::AllocFailed;
use thiserror::Error;

/// Why an event isn't scheduled.
#[derive(Clone, Copy, Debug, PartialEq, Eq, Error)]
pub enum EventFault {
    #[error("no memory")]
    NoMemory,
    #[error("too long")]
    TooLong,
    #[error("too many events")]
    TooManyEvents,
}

impl EventFault {
    /// Its number in the table of faults.
    pub fn number(self) -> u8
        ensures { result ≡ event_fault_number self }
    {
        match self {
            EventFault::NoMemory => 0,
            EventFault::TooLong => 2,
            EventFault::TooManyEvents => 14,
        }
    }
}

impl<T: Drop> From<AllocFailed<T>> for EventFault {
    ghost from_gives = { λ _ e. e ≡ NoMemory };

    fn from(_e: AllocFailed<T>) -> EventFault {
        EventFault::NoMemory
    }
}
