ghost use Rattle.std.specs.Prelude.{◌≡◌, ◌≤◌, ◌^◌};
ghost use Rattle.press_text.specs.Moments.{moment_of};

use std::marker::Model;

const LATEST: u64 = 1 << 40;

/// A moment: whole seconds from 0 to 2^40.
#[derive(Clone, Copy, Debug, PartialEq, Eq, PartialOrd, Ord)]
pub struct Moment {
    seconds: u64,
}

impl Model for Moment {
    ghost use Rattle.std.specs.Prelude.{ℕ, ◌≤◌, ◌^◌};

    ghost Value = { ℕ };

    ghost view = { λ m. m.seconds };

    ghost invariant = { λ m. m.seconds ≤ 2 ^ 40 };

    ghost inverse = { λ n. record { seconds = n } };
}

impl Moment {
    /// The first moment.
    pub fn zero() -> Moment
        ensures { result ≡ 0 }
    {
        Moment { seconds: 0 }
    }

    /// None past 2^40 seconds.
    pub fn new(seconds: u64) -> Option<Moment>
        ensures { result ≡ moment_of seconds }
    {
        if seconds <= LATEST {
            Some(Moment { seconds })
        } else {
            None
        }
    }

    /// From 0 to 2^40.
    pub fn seconds(self) -> u64
        ensures value { result ≡ self }
        ensures range { result ≤ 2 ^ 40 }
    {
        self.seconds
    }
}
