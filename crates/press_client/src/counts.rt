ghost use Rattle.std.specs.Prelude.{◌≡◌, count_by};
ghost use Rattle.press_client.specs.Reporting.{are_done, counts_of, is_done, is_refused};

use crate::ending::Ending;

/// How many commands ended how.
#[derive(Clone, Copy, Debug, PartialEq, Eq)]
pub struct Counts {
    pub done: usize,
    pub refused: usize,
    pub not_taken: usize,
    /// Of which it isn't known.
    pub left: usize,
}

fn is_done(ending: &Ending) -> bool
    ensures { result ≡ is_done ending.now }
{
    match ending {
        Ending::Done(_) => true,
        Ending::Refused(_) | Ending::NotTaken(_) => false,
    }
}

fn is_refused(ending: &Ending) -> bool
    ensures { result ≡ is_refused ending.now }
{
    match ending {
        Ending::Refused(_) => true,
        Ending::Done(_) | Ending::NotTaken(_) => false,
    }
}

fn count_done(endings: &[Ending]) -> usize
    ensures { result ≡ count_by is_done endings.now }
{
    endings.iter().filter(|ending| is_done(*ending)).count()
}

fn count_refused(endings: &[Ending]) -> usize
    ensures { result ≡ count_by is_refused endings.now }
{
    endings.iter().filter(|ending| is_refused(*ending)).count()
}

impl Counts {
    /// Those of so many commands, of which the first ended so.
    pub fn of(commands: usize, endings: &[Ending]) -> Counts
        ensures { result ≡ counts_of commands endings.now }
    {
        let (done, refused) = (count_done(endings), count_refused(endings));
        Counts {
            done,
            refused,
            not_taken: endings.len().saturating_sub(done).saturating_sub(refused),
            left: commands.saturating_sub(endings.len()),
        }
    }

    /// Whether each was done.
    pub fn are_done(&self) -> bool
        ensures { result ≡ are_done self.now }
    {
        self.refused == 0 && self.not_taken == 0 && self.left == 0
    }
}
