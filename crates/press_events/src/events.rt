//! The scheduled events.

ghost use Rattle.std.specs.Prelude.{◌≡◌, ℕ, [], ◌<◌, ◌≤◌, length, take, true, false, IfOk, IfErr, OnOk, OnErr, IfSome, IfNone, insert, remove, slice_index_or, is_some, not, option_map, vec_len, vec_capacity};
ghost use Rattle.std.specs.List.Sorted.{IsPartitionPoint};
ghost use Rattle.press_events.specs.DueEvents.{is_earlier, is_later, place_of, stands, place_in, HasEachOnce, IsByTime, IsSchedule, Adds, add_event, cancel_events, cancels, is_full_without, due, take_event, put_again, insert_event};
ghost use Rattle.press_events.specs.Shifts.{comes_again, Enters, IsOnly, MayGoBack, MayShiftBack, ShiftsBack, event_at, move_event, shift_back, stands_alone};
ghost use Rattle.press_events.specs.declared.fault.EventFault.TheVariants.{NoMemory};
ghost use Rattle.press_events.specs.declared.shift.Shift.TheVariants.{Moved, Went};

use crate::event::Event;
use crate::fault::EventFault;
use crate::marks::{Marks, mark};
use crate::shift::Shift;
use press_text::{Copied, Every, HookName, Items, Moment, copy_all};
use std::alloc::{AllocError, Global};
use std::marker::Model;

const MOST_ARG: usize = 256;

const MOST_EVENTS: usize = 4096;

/// The scheduled events, by time, then in the order in which they were scheduled.
#[derive(Debug)]
pub struct Events {
    alloc: Global,
    events: Vec<Event>,
    marks: Marks,
}

impl Drop for Events {
    fn drop(self) {
        let Events {
            alloc: _,
            events: _,
            marks: _,
        } = self;
    }
}

impl Model for Events {
    ghost use Rattle.std.specs.Prelude.{List};
    ghost use Rattle.press_events.specs.DueEvents.{IsSchedule};
    ghost use Rattle.press_events.specs.Marks.{Covers};
    ghost use Rattle.press_events.specs.declared.event.Event.{Event};

    ghost Value = { List Event };

    ghost view = { λ e. e.events.items };

    ghost invariant = { λ e. IsSchedule e.events.items × Covers e.marks e.events.items };
}

impl Events {
    /// No events, which takes no memory.
    pub fn new(alloc: Global) -> Events
        ensures { result ≡ [] }
    {
        Events {
            alloc,
            events: Vec::new(alloc),
            marks: Marks::new(alloc),
        }
    }

    /// Whatever was called before, the events are such as scheduling makes.
    pub fn are_scheduled(&self)
        ensures { IsSchedule self.now }
    {
        let _events = &self.events;
    }

    /// Schedules an event; false, and no change, where one of its identity is scheduled already
    /// (`wp_schedule_event`).
    pub fn add(&mut self, event: Event) -> Result<bool, EventFault>
        ensures { Adds result (add_event event self.old) self.old self.new }
    {
        let entered = self.enter(event)?;
        Ok(entered.is_some())
    }

    /// The same, with what takes it back; None where one of its identity is scheduled already.
    pub fn enter(&mut self, event: Event) -> Result<Option<Shift>, EventFault>
        ensures does { Enters result (add_event event self.old) self.old self.new }
        ensures back { IfOk result (λ s. MayGoBack s self.new self.old) }
    {
        if event.arg.len() > MOST_ARG {
            return Err(EventFault::TooLong);
        }
        if stands(&self.events, &event) {
            return Ok(None);
        }
        if self.events.len() >= MOST_EVENTS {
            return Err(EventFault::TooManyEvents);
        }
        let came = self.put_in(event)?;
        Ok(Some(came))
    }

    // Schedules an event that may be scheduled; what takes that back.
    fn put_in(&mut self, event: Event) -> Result<Shift, EventFault>
        requires short { length event.arg ≤ 256 }
        requires new { stands event self.old ≡ false }
        requires room { length self.old < 4096 }
        ensures ok { OnOk result (self.new ≡ insert_event event self.old) }
        ensures back { IfOk result (λ s. ShiftsBack s self.new self.old) }
        ensures err { IfErr result (λ f. (f ≡ NoMemory) × (self.new ≡ self.old)) }
    {
        let mark = mark(event.arg.as_str());
        let Ok(()) = self.marks.add(mark) else {
            return Err(EventFault::NoMemory);
        };
        let place = place_in(&self.events, event.time);
        let Ok(()) = self.events.insert(place, event) else {
            self.marks.remove(mark);
            return Err(EventFault::NoMemory);
        };
        Ok(Shift::Came { place })
    }

    /// Takes an event as `take` does, where it comes again; what takes that back. None, and no
    /// change, where it isn't scheduled or goes. Takes no memory.
    pub fn take_again(&mut self, event: &Event, now: Moment) -> Option<Shift>
        ensures told { is_some result ≡ comes_again event.now now self.old }
        ensures did { IfSome result (λ _. is_some (place_of event.now self.old) ≡ true) }
        ensures after { IfSome result (λ _. self.new ≡ take_event event.now now self.old) }
        ensures back { IfSome result (λ s. ShiftsBack s self.new self.old) }
        ensures stays { IfNone result (self.new ≡ self.old) }
    {
        let place = place_of(&self.events, event)?;
        let stood = &self.events[place];
        let (time, every) = (stood.next(now)?, stood.every);
        self.move_to(place, time, every)
    }

    /// The place of the event of that time, hook and argument, where no other has that hook and
    /// argument. None also where another argument has the number of that one, since no other event
    /// is looked at.
    pub fn only_place(&self, time: Moment, hook: &str, arg: &str) -> Option<usize>
        ensures told { is_some result ≡ stands_alone time hook.now arg.now self.now }
        ensures place { IfSome result (λ place. IsOnly hook.now arg.now place self.now) }
    {
        let mark = mark(arg);
        if !self.marks.has(mark) {
            return None;
        }
        if !self.marks.is_single(mark) {
            return None;
        }
        place_at(&self.events, time, hook, arg)
    }

    /// Gives the event at a place another time and recurrence; what takes that back. None, and no
    /// change, where no event is at that place, or another has the identity that it would get.
    /// Takes no memory.
    pub fn move_to(&mut self, place: usize, time: Moment, every: Every) -> Option<Shift>
        ensures does { option_map (λ _. self.new) result ≡ move_event place time every self.old }
        ensures back { MayGoBack result self.new self.old }
    {
        if place >= self.events.len() {
            return None;
        }
        if stands_beside(&self.events, place, time) {
            return None;
        }
        Some(self.give_time(place, time, every))
    }

    /// Takes out the event at a place; what takes that back, for which there is room then.
    pub fn leave(&mut self, place: usize) -> Result<Shift, AllocError>
        requires { place < length self.old }
        ensures ok { OnOk result (self.new ≡ remove self.old place) }
        ensures back { IfOk result (λ s. ShiftsBack s self.new self.old) }
        ensures err { OnErr result (self.new ≡ self.old) }
    {
        let room = Vec::with_capacity(self.alloc, self.events.len())?;
        let marks = Vec::with_capacity(self.alloc, self.events.len())?;
        let event = self.events.remove(place);
        self.marks.remove(mark(event.arg.as_str()));
        Ok(Shift::Went {
            place,
            event,
            room,
            marks,
        })
    }

    /// Takes an event that doesn't come again; what takes that back. None, and no change, where it
    /// isn't scheduled.
    pub fn take_away(&mut self, event: &Event) -> Result<Option<Shift>, AllocError>
        ensures told { IfOk result (λ s. is_some s ≡ is_some (place_of event.now self.old)) }
        ensures after { OnOk result ((now : ℕ) → comes_again event.now now self.old ≡ false
            → self.new ≡ take_event event.now now self.old) }
        ensures back { IfOk result (λ s. MayGoBack s self.new self.old) }
        ensures err { OnErr result (self.new ≡ self.old) }
        ensures memory { OnErr result (is_some (place_of event.now self.old) ≡ true) }
    {
        let Some(place) = place_of(&self.events, event) else {
            return Ok(None);
        };
        let went = self.leave(place)?;
        Ok(Some(went))
    }

    /// Takes a change back. Takes no memory.
    pub fn go_back(&mut self, shift: Shift)
        requires { MayShiftBack shift self.old }
        ensures { self.new ≡ shift_back shift self.old }
    {
        match shift {
            Shift::Came { place } => self.take_out(place),
            Shift::Moved {
                to,
                from,
                time,
                every,
            } => self.move_back(to, from, time, every),
            Shift::Went {
                place,
                event,
                room,
                marks,
            } => self.come_back(place, event, room, marks),
            Shift::All(stood) => *self = stood,
        }
    }

    /// Whether an event of that hook and argument is scheduled.
    pub fn has(&self, hook: &str, arg: &str) -> bool
        ensures { result ≡ cancels hook.now arg.now self.now }
    {
        self.marks.has(mark(arg)) && any_of(&self.events, hook, arg)
    }

    /// Removes every event of that hook and argument; returns whether there was one
    /// (`wp_clear_scheduled_hook`).
    pub fn cancel(&mut self, hook: &HookName, arg: &str) -> bool
        ensures answer { result ≡ cancels hook.now arg.now self.old }
        ensures after { self.new ≡ cancel_events hook.now arg.now self.old }
    {
        let all = self.events.len();
        cancel(&mut self.events, hook, arg);
        let left = self.events.len();
        self.marks.remove_times(mark(arg), all - left);
        left < all
    }

    /// Whether there is no room for another event once every event of that hook and argument is
    /// removed.
    pub fn is_full_without(&self, hook: &str, arg: &str) -> bool
        ensures { result ≡ is_full_without hook.now arg.now self.now }
    {
        self.events.len() >= MOST_EVENTS && others(&self.events, hook, arg) >= MOST_EVENTS
    }

    /// All of them, by time, then in the order in which they were scheduled.
    pub fn as_slice(&self) -> &[Event]
        ensures { result.now ≡ self.now }
    {
        self.events.as_slice()
    }

    /// The events whose time has come. Where there is none, this takes no memory.
    pub fn due(&self, now: Moment) -> Result<Items<Event>, AllocError>
        ensures events { IfOk result (λ es. es ≡ due now self.now) }
        ensures order { IfOk result (λ es. IsByTime es) }
        ensures memory { OnErr result (0 < length (due now self.now)) }
    {
        due(self.alloc, self.events.as_slice(), now)
    }

    /// Removes the event of that identity if it is scheduled as Once, and else moves it to its
    /// first time after now (`wp_reschedule_event`). False, and no change, where it isn't
    /// scheduled. Takes no memory.
    pub fn take(&mut self, event: &Event, now: Moment) -> bool
        ensures answer { result ≡ is_some (place_of event.now self.old) }
        ensures after { self.new ≡ take_event event.now now self.old }
    {
        let Some(place) = place_of(&self.events, event) else {
            return false;
        };
        let mut taken = self.events.remove(place);
        let mark = mark(taken.arg.as_str());
        let Some(time) = taken.next(now) else {
            self.marks.remove(mark);
            return true;
        };
        taken.time = time;
        if !put_again(&mut self.events, taken) {
            self.marks.remove(mark);
        }
        true
    }

    // Gives the event at a place another time and recurrence.
    fn give_time(&mut self, place: usize, time: Moment, every: Every) -> Shift
        requires within { place < length self.old }
        requires free { (d : Event) → stands (record (slice_index_or self.old place d)
            { time = time }) (remove self.old place) ≡ false }
        ensures after { (d : Event) → self.new ≡ insert_event
            (record (slice_index_or self.old place d) { time = time; every = every })
            (remove self.old place) }
        ensures back { ShiftsBack result self.new self.old }
    {
        let mut event = self.events.remove(place);
        let (stood, came) = (event.time, event.every);
        event.time = time;
        event.every = every;
        let to = put_over(&mut self.events, event);
        Shift::Moved {
            to,
            from: place,
            time: stood,
            every: came,
        }
    }

    // Takes out the event at a place.
    fn take_out(&mut self, place: usize)
        requires { place < length self.old }
        ensures { self.new ≡ remove self.old place }
    {
        let taken = self.events.remove(place);
        self.marks.remove(mark(taken.arg.as_str()));
    }

    fn move_back(&mut self, to: usize, from: usize, time: Moment, every: Every)
        requires { MayShiftBack (Moved to from time every) self.old }
        ensures { self.new ≡ shift_back (Moved to from time every) self.old }
    {
        let mut event = self.events.remove(to);
        event.time = time;
        event.every = every;
        let Ok(()) = self.events.insert(from, event) else {
            unreachable!()
        };
    }

    // Puts the event that went in again: all move into the room that was kept for them.
    fn come_back(&mut self, place: usize, event: Event, room: Vec<Event>, marks: Vec<u64>)
        requires { MayShiftBack (Went place event room marks) self.old }
        ensures { self.new ≡ insert self.old place event }
    {
        self.marks.add_in(mark(event.arg.as_str()), marks);
        let mut room = room;
        let Ok(()) = room.append(&mut self.events) else {
            unreachable!()
        };
        let Ok(()) = room.insert(place, event) else {
            unreachable!()
        };
        self.events = room;
    }

    /// A copy of the events. Without an event this takes no memory.
    pub fn copy(&self) -> Result<Events, AllocError>
        ensures same { IfOk result (λ e. e ≡ self.now) }
        ensures memory { OnErr result (0 < length self.now) }
    {
        if self.events.is_empty() {
            return Ok(Events::new(self.alloc));
        }
        Ok(Events {
            alloc: self.alloc,
            events: copy_all(self.alloc, self.events.as_slice())?,
            marks: self.marks.copy()?,
        })
    }
}

fn any_of(events: &[Event], hook: &str, arg: &str) -> bool
    ensures { result ≡ cancels hook.now arg.now events.now }
{
    events.iter().any(|e| e.is_of(hook, arg))
}

fn cancel(events: &mut Vec<Event>, hook: &HookName, arg: &str)
    ensures { events.new.items ≡ cancel_events hook.now arg.now events.old.items }
{
    events.retain(|e| !e.is_of(hook.as_str(), arg));
}

// How many events are not of that hook and argument.
fn others(events: &[Event], hook: &str, arg: &str) -> usize
    ensures { result ≡ length (cancel_events hook.now arg.now events.now) }
{
    events.iter().filter(|e| !e.is_of(hook, arg)).count()
}

fn stands(events: &[Event], event: &Event) -> bool
    requires { IsByTime events.now }
    ensures { result ≡ stands event.now events.now }
{
    place_of(events, event).is_some()
}

fn place_of(events: &[Event], event: &Event) -> Option<usize>
    requires { IsByTime events.now }
    ensures place { result ≡ place_of event.now events.now }
    ensures within { IfSome result (λ i. i < length events.now) }
{
    place_at(events, event.time, event.hook.as_str(), event.arg.as_str())
}

// Only the events of that time are searched.
fn place_at(events: &[Event], time: Moment, hook: &str, arg: &str) -> Option<usize>
    requires { IsByTime events.now }
    ensures place { result ≡ place_of (event_at time hook.now arg.now) events.now }
    ensures within { IfSome result (λ i. i < length events.now) }
{
    let start = start_of(events, time);
    let end = place_in(events, time);
    let place = place_among(&events[start..end], time, hook, arg)?;
    Some(start + place)
}

fn place_among(events: &[Event], time: Moment, hook: &str, arg: &str) -> Option<usize>
    ensures place { result ≡ place_of (event_at time hook.now arg.now) events.now }
    ensures within { IfSome result (λ i. i < length events.now) }
{
    events.iter().position(|e| e.is_at(time, hook, arg))
}

// Whether another event than that at a place has its hook and argument at a time.
fn stands_beside(events: &[Event], place: usize, time: Moment) -> bool
    requires order { IsByTime events.now }
    requires once { HasEachOnce events.now }
    requires within { place < length events.now }
    ensures { (d : Event) → result ≡ stands (record (slice_index_or events.now place d)
        { time = time }) (remove events.now place) }
{
    let event = &events[place];
    match place_at(events, time, event.hook.as_str(), event.arg.as_str()) {
        Some(other) => other != place,
        None => false,
    }
}

// Where the earlier events end, by binary search.
fn start_of(events: &[Event], time: Moment) -> usize
    requires { IsByTime events.now }
    ensures parts { IsPartitionPoint (λ e. is_earlier time e ≡ true)
        (λ e. is_earlier time e ≡ false) events.now result }
    ensures within { result ≤ length events.now }
{
    events.partition_point(|e| e.is_earlier(time))
}

// Where the later events begin, by binary search.
fn place_in(events: &[Event], time: Moment) -> usize
    requires { IsByTime events.now }
    ensures place { result ≡ place_in time events.now }
    ensures parts { IsPartitionPoint (λ e. is_later time e ≡ false)
        (λ e. is_later time e ≡ true) events.now result }
    ensures within { result ≤ length events.now }
{
    events.partition_point(|e| !e.is_later(time))
}

// Schedules an event in the room that it left, if none of its identity exists; whether none did.
fn put_again(events: &mut Vec<Event>, event: Event) -> bool
    requires order { IsByTime events.old.items }
    requires room { vec_len events.old < vec_capacity events.old }
    ensures after { events.new.items ≡ put_again event events.old.items }
    ensures put { result ≡ not (stands event events.old.items) }
{
    if stands(events, &event) {
        return false;
    }
    put_over(events, event);
    true
}

// Schedules an event in the room that one left; where it went.
fn put_over(events: &mut Vec<Event>, event: Event) -> usize
    requires order { IsByTime events.old.items }
    requires room { vec_len events.old < vec_capacity events.old }
    ensures after { events.new.items ≡ insert_event event events.old.items }
    ensures place { result ≡ place_in event.time events.old.items }
    ensures within { result ≤ length events.old.items }
{
    let place = place_in(events, event.time);
    let Ok(()) = events.insert(place, event) else {
        unreachable!()
    };
    place
}

// How many are due. They are the first ones, and are found by binary search.
fn due_end(events: &[Event], now: Moment) -> usize
    requires { IsByTime events.now }
    ensures front { take result events.now ≡ due now events.now }
    ensures within { result ≤ length events.now }
{
    events.partition_point(|e| e.is_due(now))
}

fn due(alloc: Global, events: &[Event], now: Moment) -> Result<Items<Event>, AllocError>
    requires { IsByTime events.now }
    ensures events { IfOk result (λ es. es ≡ due now events.now) }
    ensures memory { OnErr result (0 < length (due now events.now)) }
{
    let end = due_end(events, now);
    if end == 0 {
        return Ok(Items::new(alloc));
    }
    Ok(Items::from_vec(copy_all(alloc, &events[..end])?))
}
