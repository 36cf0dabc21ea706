ghost use Rattle.std.specs.Prelude.{◌≡◌};
ghost use Rattle.press_starts.specs.Peers.{has_answered, is_mark, is_stale, known_hearing, or_mark, peer_after};

use crate::hearing::Hearing;
use crate::mark::Mark;
use crate::recall::Recall;

/// What a member knows of another's starts, and which of its own the other told it.
#[derive(Clone, Copy, Debug, PartialEq, Eq)]
pub struct Peer {
    /// The last mark that was heard.
    pub known: Option<Mark>,
    /// The number of the last recall of that start that was heard, or 0.
    pub number: u64,
    /// The last mark of this member that the other told to have heard, and that the file has.
    pub answer: Option<Mark>,
}

fn is_mark(mark: Mark, other: Option<Mark>) -> bool
    ensures { result ≡ is_mark mark other }
{
    match other {
        Some(other) => mark.is_same(other),
        None => false,
    }
}

fn or_mark(mark: Option<Mark>, before: Option<Mark>) -> Option<Mark>
    ensures { result ≡ or_mark mark before }
{
    match mark {
        Some(mark) => Some(mark),
        None => before,
    }
}

impl Peer {
    /// One of which nothing was heard, and which told nothing.
    pub const STRANGER: Peer = Peer {
        known: None,
        number: 0,
        answer: None,
    };

    // Whether it is of the start that was heard last, and not newer than what was heard of that.
    fn is_stale(self, recall: &Recall) -> bool
        ensures { result ≡ is_stale self.known self.number recall.now }
    {
        match self.known {
            Some(known) => {
                known.start == recall.mark.start
                    && (recall.number <= self.number || recall.mark.saves < known.saves)
            }
            None => false,
        }
    }

    // Whether it is of the start that was heard last, or has answered what was heard last.
    fn has_answered(self, recall: &Recall) -> bool
        ensures { result ≡ has_answered self.known recall.now }
    {
        match self.known {
            Some(known) => known.start == recall.mark.start || is_mark(known, recall.answered),
            None => true,
        }
    }

    /// What becomes of its batch, where the file has what it was told.
    pub fn hearing(self, recall: &Recall) -> Hearing
        ensures { result ≡ known_hearing self recall.now }
    {
        if self.is_stale(recall) {
            Hearing::Stale
        } else if self.has_answered(recall) {
            Hearing::Heard
        } else {
            Hearing::Unanswered
        }
    }

    /// What is known of it after its batch.
    pub fn after(self, hearing: Hearing, recall: &Recall) -> Peer
        ensures { result ≡ peer_after hearing recall.now self }
    {
        match hearing {
            Hearing::Heard => Peer {
                known: Some(recall.mark),
                number: recall.number,
                answer: or_mark(recall.heard, self.answer),
            },
            Hearing::Unanswered => Peer {
                answer: or_mark(recall.heard, self.answer),
                ..self
            },
            Hearing::Stale | Hearing::Forgotten => self,
        }
    }
}
