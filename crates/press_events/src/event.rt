ghost use Rattle.std.specs.Prelude.{◌≡◌, ◌<◌, ◌≤◌, IfSome};
ghost use Rattle.press_events.specs.DueEvents.{is_same, is_of, is_earlier, is_later, is_due, interval, moment_after, moment_next};
ghost use Rattle.press_events.specs.Shifts.{event_at};

use press_text::{Copied, Every, HookName, Moment, Text};
use std::alloc::{AllocError, Global};

/// A hook that is to run with an argument at a time. Time, hook and argument are its identity.
#[derive(Debug)]
pub struct Event {
    pub time: Moment,
    pub hook: HookName,
    pub arg: Text,
    pub every: Every,
}

impl Drop for Event {
    fn drop(self) {
        let Event {
            time: _,
            hook: _,
            arg: _,
            every: _,
        } = self;
    }
}

impl Event {
    /// Whether the two have one identity.
    pub fn is_same(&self, other: &Event) -> bool
        ensures { result ≡ is_same self.now other.now }
    {
        self.is_at(other.time, other.hook.as_str(), other.arg.as_str())
    }

    /// Whether it runs that hook with that argument at that time.
    pub fn is_at(&self, time: Moment, hook: &str, arg: &str) -> bool
        ensures { result ≡ is_same self.now (event_at time hook.now arg.now) }
    {
        self.time.seconds() == time.seconds() && self.is_of(hook, arg)
    }

    /// Whether it runs that hook with that argument, at whatever time.
    pub fn is_of(&self, hook: &str, arg: &str) -> bool
        ensures { result ≡ is_of hook.now arg.now self.now }
    {
        self.hook.as_str() == hook && self.arg.as_str() == arg
    }

    /// Whether its time is before that moment.
    pub fn is_earlier(&self, moment: Moment) -> bool
        ensures { result ≡ is_earlier moment self.now }
    {
        self.time.seconds() < moment.seconds()
    }

    /// Whether its time is after that moment.
    pub fn is_later(&self, moment: Moment) -> bool
        ensures { result ≡ is_later moment self.now }
    {
        moment.seconds() < self.time.seconds()
    }

    /// Whether its time has come.
    pub fn is_due(&self, now: Moment) -> bool
        ensures { result ≡ is_due now self.now }
    {
        self.time.seconds() <= now.seconds()
    }

    /// When it comes again, where it does and that is a moment.
    pub fn next(&self, now: Moment) -> Option<Moment>
        ensures { result ≡ moment_next now self.now }
    {
        match interval(self.every) {
            Some(interval) => Moment::new(moment_after(interval, self.time, now)),
            None => None,
        }
    }
}

// After how many seconds an event comes again.
fn interval(every: Every) -> Option<u64>
    ensures value { result ≡ interval every }
    ensures range { IfSome result (λ n. (0 < n) × (n ≤ 86400)) }
{
    match every {
        Every::Once => None,
        Every::Hourly => Some(3_600),
        Every::TwiceDaily => Some(43_200),
        Every::Daily => Some(86_400),
    }
}

fn moment_after(interval: u64, time: Moment, now: Moment) -> u64
    requires { (0 < interval) × (interval ≤ 86400) }
    ensures { result ≡ moment_after interval time now }
{
    let passed = now.seconds().saturating_sub(time.seconds()) / interval;
    time.seconds() + (passed + 1) * interval
}

impl Copied for Event {
    fn copy_in(&self, alloc: Global) -> Result<Event, AllocError> {
        Ok(Event {
            time: self.time,
            hook: self.hook.copy(alloc)?,
            arg: self.arg.copy(alloc)?,
            every: self.every,
        })
    }
}
