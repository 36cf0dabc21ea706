//! What members tell each other of their starts.

/// A start of a member, and how many saves it made.
#[derive(Clone, Copy, PartialEq, Eq, Drop)]
pub struct Mark {
    pub start: u64,
    pub saves: u64,
}

/// What goes with each request, and with each reply.
#[derive(Clone, Copy, Drop)]
pub struct Recall {
    pub mark: Mark,
    pub number: u64,
    pub heard: Option<Mark>,
    pub answered: Option<Mark>,
}

/// What is heard of who tells something.
#[derive(Clone, Copy, PartialEq, Eq)]
pub enum Hearing {
    All,
    /// Letters, and nothing else.
    Letters,
    Nothing,
}

/// A recall, and what a run knows of its sender at that moment.
#[derive(Clone, Copy, Drop)]
pub struct Told {
    pub recall: Option<Recall>,
    pub cluster: u64,
    /// The start of the sender, and its saves.
    pub mark: Mark,
    /// The last mark of the receiver that the sender had heard.
    pub heard: Option<Mark>,
}
