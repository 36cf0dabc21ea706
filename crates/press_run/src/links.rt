//! The changes of a site that a callback asks for.

ghost use Rattle.std.specs.Prelude.{◌≡◌, IfOk, OnErr};
ghost use Rattle.press_run.specs.Links.{or_no_change, publishes, schedules};
ghost use Rattle.press_site.specs.Contents.{ChangesSome};

use crate::link::SiteLink;
use press_events::Event;
use press_posts::Move;
use press_site::{Changed, Effect, SiteFault};
use press_text::{Every, HookName, Items, Moment, Text, dec_u64};
use std::alloc::{AllocError, Global};

/// A change through the link; a refused one changes nothing, and takes no memory.
pub fn change<L: SiteLink>(
    alloc: Global,
    link: &mut L,
    effect: Effect,
) -> Result<Changed, AllocError>
    ensures changed { IfOk result (λ c. (L.view link.new, c)
        ≡ or_no_change (L.view link.old) (L.changes (L.view link.old) effect)) }
    ensures fixed { L.fixed link.new ≡ L.fixed link.old }
    ensures memory { OnErr result (ChangesSome (L.changes (L.view link.old) effect)) }
{
    match link.change(alloc, effect) {
        Ok(changed) => Ok(changed),
        Err(SiteFault::NoMemory) => Err(AllocError),
        Err(_) => {
            let (id, did, fires) = (0, false, Items::new(alloc));
            Ok(Changed { id, did, fires })
        }
    }
}

/// The change that publishes the post with that id in decimal, if it is future and due at that
/// moment.
pub fn publishes(id: &Text, now: Moment) -> Option<Effect>
    ensures { result ≡ publishes id.now now }
{
    match dec_u64(id.as_str()) {
        None => None,
        Some(id) => Some(Effect::Move {
            id,
            to: Move::PublishDue(now),
        }),
    }
}

/// An event that a callback asks for, so many seconds from now.
pub struct FromNow {
    pub after: u64,
    pub every: Every,
    pub hook: HookName,
    pub arg: Text,
}

impl FromNow {
    /// The change that schedules it, if it comes at a moment.
    pub fn effect(self, now: Moment) -> Option<Effect>
        ensures { result ≡ schedules self.after self.every self.hook self.arg now }
    {
        let FromNow {
            after,
            every,
            hook,
            arg,
        } = self;
        let seconds = now.seconds().checked_add(after)?;
        let time = Moment::new(seconds)?;
        Some(Effect::Schedule(Event {
            time,
            hook,
            arg,
            every,
        }))
    }
}
