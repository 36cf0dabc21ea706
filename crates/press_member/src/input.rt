use press_apply::Stamped;
use press_batch::Report;
use press_page::Target;
use press_wire::{MemberId, Message};

/// What happens to a member.
#[derive(Debug, Drop)]
pub enum Input {
    /// An editor's command comes.
    Command(Stamped),
    /// A page of the site is asked for, or a reply in JSON.
    Page(Target),
    /// A message comes to it from another member.
    Message(Message),
    /// A member says how far it is.
    Report {
        from: MemberId,
        report: Report,
    },
    /// A request that went to a member has ended, taken or lost; so many looks and questions were
    /// in it.
    Ended {
        to: MemberId,
        asked: u32,
        is_taken: bool,
    },
    /// What it has sent is on its way: it may hear what it has sent to itself.
    HearOwn,
    /// Milliseconds of a clock that doesn't go back.
    Time(u64),
}
