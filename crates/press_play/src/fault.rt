//! Why a play file gives no lines.

ghost use Rattle.std.specs.Prelude.{◌≡◌};
ghost use Rattle.press_kit.specs.declared.fault.KitFileFault.TheVariants as kit_file;
ghost use Rattle.press_play.specs.Faults.{fault_number, of_kit, place_in};
ghost use Rattle.press_play.specs.declared.fault.PlayFault.TheVariants.{NoMemory, ReadFault, BadKitFile};

use press_callbacks::KitFault;
use press_kit::{KitFileFault, Place};
use std::alloc::{AllocError, AllocFailed};
use thiserror::Error;

/// Why a play file gives no lines.
#[derive(Clone, Copy, Debug, PartialEq, Eq, Error)]
pub enum PlayFault {
    #[error("no memory")]
    NoMemory,
    #[error("two callbacks or two plugins of one name, or a callback with a built-in name")]
    TwoNames,
    #[error("a load or a script names a callback that the kit lacks")]
    UnknownCallback,
    #[error("more than 1000 hook loads or 128 tag loads")]
    BadLoad,
    #[error("the file can't be read")]
    ReadFault,
    #[error("the file is bad at a place")]
    BadKitFile(Place),
}

impl PlayFault {
    /// Its number in the table of faults.
    pub fn number(self) -> u8
        ensures { result ≡ fault_number self }
    {
        match self {
            PlayFault::NoMemory => 0,
            PlayFault::TwoNames => 3,
            PlayFault::UnknownCallback => 4,
            PlayFault::BadLoad => 5,
            PlayFault::ReadFault => 40,
            PlayFault::BadKitFile(_) => 73,
        }
    }

    /// Where the file is bad.
    pub fn place(self) -> Option<Place>
        ensures { result ≡ place_in self }
    {
        match self {
            PlayFault::BadKitFile(place) => Some(place),
            PlayFault::NoMemory | PlayFault::TwoNames | PlayFault::UnknownCallback => None,
            PlayFault::BadLoad | PlayFault::ReadFault => None,
        }
    }
}

impl From<AllocError> for PlayFault {
    ghost from_gives = { λ _ e. e ≡ NoMemory };

    fn from(_e: AllocError) -> PlayFault {
        PlayFault::NoMemory
    }
}

impl<T: Drop> From<AllocFailed<T>> for PlayFault {
    ghost from_gives = { λ _ e. e ≡ NoMemory };

    fn from(_e: AllocFailed<T>) -> PlayFault {
        PlayFault::NoMemory
    }
}

impl From<KitFault> for PlayFault {
    ghost from_gives = { λ f e. e ≡ of_kit f };

    fn from(f: KitFault) -> PlayFault {
        match f {
            KitFault::NoMemory => PlayFault::NoMemory,
            KitFault::TwoNames => PlayFault::TwoNames,
            KitFault::UnknownCallback => PlayFault::UnknownCallback,
            KitFault::BadLoad => PlayFault::BadLoad,
        }
    }
}
