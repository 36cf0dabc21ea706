//! What an open site keeps, so that it can go back.

ghost use Rattle.std.specs.Prelude.{◌≡◌, ◌<◌, [], ◌∷◌, ◌++◌, ◌||◌, ◌&&◌, Some, None, true, is_none, is_some, vec_len, vec_capacity, OnOk, OnErr, IfErr, IfOk, unwrap_or};
ghost use Rattle.press_site.specs.Back.{MayEventsGoBack, MayLogGoBack, MayPostsGoBack, events_back, options_back, posts_back};
ghost use Rattle.press_site.specs.Log.{all_of, fills, first_kept, fresh, note_grows, note_change, where_filled, with_shift, with_stood};

use crate::content::Content;
use crate::options::Options;
use crate::plugins::Plugins;
use crate::stood::{Stood, Undone};
use press_events::{Events, Shift};
use std::alloc::{AllocError, Global};
use std::marker::Model;

/// What stood before what changed since a site was begun.
#[derive(Debug)]
pub struct Undo {
    stood: Vec<Stood>,
    shifts: Vec<Shift>,
    events: Option<Events>,
    active: Option<Plugins>,
    profile: Option<u8>,
}

impl Drop for Undo {
    fn drop(self) {
        let Undo {
            stood: _,
            shifts: _,
            events: _,
            active: _,
            profile: _,
        } = self;
    }
}

impl Model for Undo {
    ghost use Rattle.press_site.specs.Log.{Log};

    ghost Value = { Log };

    ghost view = { λ u. record {
      stood = u.stood.items;
      shifts = u.shifts.items;
      events = u.events;
      active = u.active;
      profile = u.profile;
    } };
}

impl Undo {
    /// Nothing changed since; takes no memory.
    pub fn new(alloc: Global) -> Undo
        ensures { result ≡ fresh }
    {
        Undo {
            stood: Vec::new(alloc),
            shifts: Vec::new(alloc),
            events: None,
            active: None,
            profile: None,
        }
    }

    /// Whether changes of events are yet to be noted: not once all that stood are kept.
    pub fn wants_events(&self) -> bool
        ensures { result ≡ is_none self.now.events }
    {
        self.events.is_none()
    }

    /// Keeps what stood before a change, after which these events stand; without memory it comes
    /// back.
    pub fn note(&mut self, undone: Undone, events: &Events) -> Result<(), Undone>
        ensures ok { OnOk result (self.new ≡ note_change undone events.now self.old) }
        ensures err { IfErr result (λ u. u ≡ undone) }
        ensures stays { OnErr result (self.new ≡ self.old) }
        ensures why { OnErr result ((is_none self.old.events || is_some undone.stood) ≡ true) }
        ensures memory { OnErr result (note_grows undone ≡ true) }
    {
        let wants = self.events.is_none();
        if undone.stood.is_some() && !has_room(&mut self.stood) {
            return Err(undone);
        }
        if wants && undone.shift.is_some() && !has_room(&mut self.shifts) {
            return Err(undone);
        }
        let Ok(all) = self.all_where_filled(&undone.shift, events) else {
            return Err(undone);
        };
        let Undone {
            stood,
            shift,
            active,
            profile,
        } = undone;
        push(&mut self.stood, stood);
        if wants {
            keep_events(&mut self.shifts, &mut self.events, shift);
        }
        keep(&mut self.events, all);
        keep(&mut self.active, active);
        keep(&mut self.profile, profile);
        Ok(())
    }

    // All events, where one went and there is room for all in what is kept already.
    fn all_where_filled(
        &self,
        shift: &Option<Shift>,
        events: &Events,
    ) -> Result<Option<Events>, AllocError>
        ensures all { IfOk result (λ all. all ≡ where_filled
            (is_none self.now.events && fills shift.now self.now.shifts) events.now) }
        ensures why { OnErr result (is_none self.now.events ≡ true) }
        ensures memory { OnErr result (is_some shift.now ≡ true) }
    {
        if !self.wants_events() {
            return Ok(None);
        }
        if !fills(shift, &self.shifts) {
            return Ok(None);
        }
        Ok(Some(events.copy()?))
    }

    /// Puts posts, events and options back. Takes no memory.
    pub fn back_content(&mut self, content: &mut Content, options: &mut Options)
        requires { MayLogGoBack self.old content.old.posts content.old.events }
        ensures back { content.new ≡ record {
          posts = posts_back self.old.stood content.old.posts;
          events = events_back self.old.shifts (unwrap_or self.old.events content.old.events);
        } }
        ensures options { options.new ≡ options_back self.old.stood options.old }
        ensures left { self.new ≡ record self.old { stood = []; shifts = []; events = None } }
    {
        put_back(&mut self.stood, content, options);
        if let Some(events) = self.events.take() {
            content.set_events(events);
        }
        shift_back(&mut self.shifts, content);
    }

    /// Puts the active plugins back.
    pub fn back_plugins(&mut self, plugins: &mut Plugins)
        ensures back { plugins.new ≡ unwrap_or self.old.active plugins.old }
        ensures left { self.new ≡ record self.old { active = None } }
    {
        if let Some(stood) = self.active.take() {
            *plugins = stood;
        }
    }

    /// Puts the profile back.
    pub fn back_profile(&mut self, profile: &mut u8)
        ensures back { profile.new ≡ unwrap_or self.old.profile profile.old }
        ensures left { self.new ≡ record self.old { profile = None } }
    {
        if let Some(stood) = self.profile.take() {
            *profile = stood;
        }
    }
}

// Keeps what stood, where nothing is kept yet.
fn keep<T: Drop>(kept: &mut Option<T>, stood: Option<T>)
    ensures { kept.new ≡ first_kept kept.old stood }
{
    if kept.is_none() {
        *kept = stood;
    }
}

// Whether it is of an event that went, for which there is room for all, and others are kept.
fn fills(shift: &Option<Shift>, kept: &[Shift]) -> bool
    ensures { result ≡ fills shift.now kept.now }
{
    match shift {
        Some(Shift::Went { .. }) => !kept.is_empty(),
        _ => false,
    }
}

// Whether one more fits in, once there was memory for it.
fn has_room<T>(list: &mut Vec<T>) -> bool
    ensures items { list.new.items ≡ list.old.items }
    ensures room { result ≡ true → vec_len list.new < vec_capacity list.new }
{
    list.reserve(1).is_ok()
}

// Puts what stood behind, if anything stood.
fn push(list: &mut Vec<Stood>, stood: Option<Stood>)
    requires { is_some stood ≡ true → vec_len list.old < vec_capacity list.old }
    ensures { list.new.items ≡ with_stood stood list.old.items }
{
    if let Some(stood) = stood {
        let Ok(()) = list.push(stood) else {
            unreachable!()
        };
    }
}

// Keeps the way back of events: behind the others, or all that stood.
fn keep_events(shifts: &mut Vec<Shift>, events: &mut Option<Events>, shift: Option<Shift>)
    requires room { is_some shift ≡ true → vec_len shifts.old < vec_capacity shifts.old }
    requires none { events.old ≡ None }
    ensures shifts { shifts.new.items ≡ with_shift shift shifts.old.items }
    ensures events { events.new ≡ all_of shift }
{
    match shift {
        Some(Shift::All(stood)) => *events = Some(stood),
        Some(shift) => add(shifts, shift),
        None => {}
    }
}

fn add(shifts: &mut Vec<Shift>, shift: Shift)
    requires { vec_len shifts.old < vec_capacity shifts.old }
    ensures { shifts.new.items ≡ shifts.old.items ++ shift ∷ [] }
{
    let Ok(()) = shifts.push(shift) else {
        unreachable!()
    };
}

// Takes the changes of events back, the last first.
fn shift_back(shifts: &mut Vec<Shift>, content: &mut Content)
    requires { MayEventsGoBack shifts.old.items content.old.events }
    ensures back { content.new ≡ record content.old
        { events = events_back shifts.old.items content.old.events } }
    ensures left { shifts.new.items ≡ [] }
{
    while let Some(last) = shifts.pop() {
        content.shift_back(last);
    }
}

// Puts back what stood, the last first.
fn put_back(stood: &mut Vec<Stood>, content: &mut Content, options: &mut Options)
    requires { MayPostsGoBack stood.old.items content.old.posts }
    ensures back { content.new ≡ record content.old
        { posts = posts_back stood.old.items content.old.posts } }
    ensures options { options.new ≡ options_back stood.old.items options.old }
    ensures left { stood.new.items ≡ [] }
{
    while let Some(last) = stood.pop() {
        last.put_back(content, options);
    }
}
