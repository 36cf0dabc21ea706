ghost use Rattle.std.specs.Prelude.{◌≡◌};
ghost use Rattle.press_starts.specs.Files.{has_made, has_saves};
ghost use Rattle.press_starts.specs.Peers.{is_same_mark};

/// A start of a member, by a random name that is never 0, and how many saves it made.
#[derive(Clone, Copy, Debug, PartialEq, Eq)]
pub struct Mark {
    pub start: u64,
    pub saves: u64,
}

impl Mark {
    /// Whether it is of the same start, and of as many saves.
    pub fn is_same(self, other: Mark) -> bool
        ensures { result ≡ is_same_mark self other }
    {
        self.start == other.start && self.saves == other.saves
    }

    /// Whether this start made the saves of a mark.
    pub fn has_saves(self, mark: Mark) -> bool
        ensures { result ≡ has_saves mark self }
    {
        self.start == mark.start && mark.saves <= self.saves
    }
}

/// Whether a file with these starts has the mark: they are the one of its start, and at least as
/// many saves.
pub fn has_made(file: &[Mark], mark: Mark) -> bool
    ensures { result ≡ has_made file.now mark }
{
    file.iter().any(|made| made.has_saves(mark))
}
