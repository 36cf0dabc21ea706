use crate::mark::Mark;
use press_wire::MemberId;

/// A mark, and the member that it is of.
#[derive(Clone, Copy, Debug, PartialEq, Eq)]
pub struct Sighting {
    pub member: MemberId,
    pub mark: Mark,
}
