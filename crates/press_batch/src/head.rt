use crate::report::Report;
use press_starts::Recall;
use press_wire::MemberId;

/// What stands before the messages of a batch.
#[derive(Clone, Copy, Debug, PartialEq, Eq)]
pub struct Head {
    /// The sender.
    pub from: MemberId,
    pub report: Report,
    /// None of a member whose store keeps no starts.
    pub recall: Option<Recall>,
}
