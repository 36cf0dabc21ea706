//! How many requests were answered with each status.

ghost use Rattle.std.specs.Prelude.{◌≡◌};
ghost use Rattle.press_operator.specs.Counting.{with_count, counts_after, none_of, none_yet, with_one};

use press_http::HttpFault;

/// How many requests were answered with a status.
#[derive(Clone, Copy, Debug, PartialEq, Eq)]
pub struct Count {
    pub status: u16,
    pub requests: u64,
}

impl Count {
    fn none_of(status: u16) -> Count
        ensures { result ≡ none_of status }
    {
        Count {
            status,
            requests: 0,
        }
    }

    fn note(&mut self, status: u16)
        ensures { self.new ≡ with_one status self.old }
    {
        if self.status == status {
            self.requests = self.requests.saturating_add(1);
        }
    }
}

fn note_in(counts: &mut [Count], status: u16)
    ensures { counts.new ≡ with_count status counts.old }
{
    for count in counts.iter_mut() {
        count.note(status);
    }
}

/// How many requests were answered with each status. None of these numbers goes past the most that
/// 64 bits hold.
#[derive(Debug, Drop)]
pub struct Counts {
    all: [Count; 11],
}

impl Counts {
    /// None yet.
    pub fn new() -> Counts
        ensures { result.all ≡ none_yet }
    {
        Counts {
            all: [
                Count::none_of(200),
                Count::none_of(202),
                Count::none_of(400),
                Count::none_of(404),
                Count::none_of(405),
                Count::none_of(411),
                Count::none_of(413),
                Count::none_of(431),
                Count::none_of(500),
                Count::none_of(501),
                Count::none_of(503),
            ],
        }
    }

    /// Each status, and how many requests were answered with it.
    pub fn all(&self) -> &[Count]
        ensures { result.now ≡ self.now.all }
    {
        &self.all
    }

    /// What came of a request. One that got no reply is not counted.
    pub fn note(&mut self, replied: &Result<u16, HttpFault>)
        ensures { self.new.all ≡ counts_after replied.now self.old.all }
    {
        if let Ok(status) = replied {
            note_in(&mut self.all, *status);
        }
    }
}
