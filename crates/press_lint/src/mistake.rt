//! A mistake in a kit.

ghost use Rattle.std.specs.Prelude.{◌≡◌};
ghost use Rattle.press_lint.specs.Mistakes.{why_number};

use press_kit::Place;
use press_text::CallbackId;

/// A sort of loads.
#[derive(Clone, Copy, Debug, PartialEq, Eq)]
pub enum Sort {
    Hooks,
    Tags,
}

/// What is wrong with a kit at a place.
#[derive(Clone, Copy, Debug)]
pub enum Why {
    /// A later callback or plugin has the same name.
    SameName,
    /// A callback has the name of a built-in one.
    BuiltInName,
    /// A step or a load names a callback that is neither in the kit nor built in.
    Unknown(CallbackId),
    /// All plugins together have more loads of that sort than a kit may have.
    TooMany(Sort),
}

impl Why {
    /// Its number in the table of faults.
    pub fn number(&self) -> u8
        ensures { result ≡ why_number self.now }
    {
        match self {
            Why::SameName | Why::BuiltInName => 3,
            Why::Unknown(_) => 4,
            Why::TooMany(_) => 5,
        }
    }
}

/// What is wrong with a kit, and where.
#[derive(Clone, Copy, Debug)]
pub struct Mistake {
    pub at: Place,
    pub why: Why,
}
