ghost use Rattle.std.specs.Prelude.{◌≡◌};
ghost use Rattle.press_client.specs.Delivering.{ending_of};

use press_site::Outcome;

/// What became of a command that was sent.
#[derive(Clone, Copy, Debug, PartialEq, Eq)]
pub enum Ending {
    /// It was done, to the post with that id, or to none, 0.
    Done(u64),
    /// It was refused when it was applied, with that fault.
    Refused(u8),
    /// It was never taken: a member replied with that status.
    NotTaken(u16),
}

impl Ending {
    /// That of a command with this outcome.
    pub fn of(outcome: Outcome) -> Ending
        ensures { result ≡ ending_of outcome }
    {
        match outcome {
            Outcome::Done(id) => Ending::Done(id),
            Outcome::Refused(fault) => Ending::Refused(fault),
        }
    }
}
