use crate::mark::Mark;

/// What a member tells another of both their starts, with each batch.
#[derive(Clone, Copy, Debug, PartialEq, Eq)]
pub struct Recall {
    /// The sender's start, and its saves so far.
    pub mark: Mark,
    /// It rises with each batch of that start.
    pub number: u64,
    /// The last mark of the receiver that the sender heard.
    pub heard: Option<Mark>,
    /// The last mark that the receiver told the sender to have heard of it, and that the sender's
    /// file has.
    pub answered: Option<Mark>,
}
