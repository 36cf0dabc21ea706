ghost use Rattle.std.specs.Prelude.{◌≡◌, List, [], ℕ, ◌<◌, ◌≤◌, length, IfOk};
ghost use Rattle.press_events.specs.declared.event.Event.{Event};
ghost use Rattle.press_events.specs.DueEvents.{HasEachOnce, IsLeastAfter, IsSchedule, add_all, add_event, moment_after, take_event};

/// A recurring event comes again at the first moment after now that is one interval or more behind
/// its time, counted in whole intervals.
pub fn comes_again_first()
    ensures { (interval time now : ℕ) → 0 < interval
        → IsLeastAfter interval time now (moment_after interval time now) }
{}

/// Of events that have each identity once, scheduling one more leaves each once.
pub fn schedules_each_once()
    ensures { (event : Event) (events : List Event) → HasEachOnce events
        → IfOk (add_event event events) (λ after. HasEachOnce after.0) }
{}

/// Of events that have each identity once, taking one leaves each once.
pub fn takes_each_once()
    ensures { (event : Event) (now : ℕ) (events : List Event) → HasEachOnce events
        → HasEachOnce (take_event event now events) }
{}

/// Where at most 4,096 events are scheduled, there are no more than that after another one.
pub fn schedules_few()
    ensures { (event : Event) (events : List Event) → length events ≤ 4096
        → IfOk (add_event event events) (λ after. length after.0 ≤ 4096) }
{}

/// Of events such as scheduling makes, scheduling one more leaves such.
pub fn schedules_such()
    ensures { (event : Event) (events : List Event) → IsSchedule events
        → IfOk (add_event event events) (λ after. IsSchedule after.0) }
{}

/// And all such are made by scheduling: each of them, one by one, where none was.
pub fn are_made_by_scheduling()
    ensures { (events : List Event) → IsSchedule events → add_all events [] ≡ events }
{}
