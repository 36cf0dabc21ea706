/// What becomes of a batch, by its recall.
#[derive(Clone, Copy, Debug, PartialEq, Eq)]
pub enum Hearing {
    /// It is heard.
    Heard,
    /// It is of the start that was heard last, and not newer than what was heard of that: its
    /// report and its recall are dropped. Its messages are heard, since that start has answered.
    Stale,
    /// It is of another start than the one that was heard last, and that start hasn't answered yet
    /// what was heard last: it is dropped.
    Unanswered,
    /// The file of this member lacks what the sender heard of it: the member has forgotten.
    Forgotten,
}
