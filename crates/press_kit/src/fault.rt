ghost use Rattle.std.specs.Prelude.{◌≡◌};
ghost use Rattle.press_kit.specs.declared.fault.KitFileFault.TheVariants.{NoMemory, BadKitFile};

use crate::place::Place;
use std::alloc::{AllocError, AllocFailed};
use thiserror::Error;

/// Why a file gives no kit.
#[derive(Clone, Copy, Debug, PartialEq, Eq, Error)]
pub enum KitFileFault {
    #[error("no memory")]
    NoMemory,
    #[error("the file is bad at a place")]
    BadKitFile(Place),
}

impl From<Place> for KitFileFault {
    ghost from_gives = { λ place e. e ≡ BadKitFile place };

    fn from(place: Place) -> KitFileFault {
        KitFileFault::BadKitFile(place)
    }
}

impl From<AllocError> for KitFileFault {
    ghost from_gives = { λ _ e. e ≡ NoMemory };

    fn from(_e: AllocError) -> KitFileFault {
        KitFileFault::NoMemory
    }
}

impl<T: Drop> From<AllocFailed<T>> for KitFileFault {
    ghost from_gives = { λ _ e. e ≡ NoMemory };

    fn from(_e: AllocFailed<T>) -> KitFileFault {
        KitFileFault::NoMemory
    }
}
