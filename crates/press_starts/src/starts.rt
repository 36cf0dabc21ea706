ghost use Rattle.std.specs.Prelude.{◌≡◌};

use crate::mark::Mark;

/// A store that may keep the starts of its member.
pub trait Starts {
    ghost use Rattle.std.specs.Prelude.{Option};
    ghost use Rattle.press_starts.specs.declared.mark.Mark.{Mark};

    /// What contracts see of it.
    ghost marked: { Self → Option Mark };

    /// The start that runs, and how many saves of it the store has. None where no start began.
    fn mark(&self) -> Option<Mark>
        ensures { result ≡ marked self.now };
}
