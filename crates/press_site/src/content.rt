//! Posts and events as one: each change of a post takes its event of `publish_future_post` along.

ghost use Rattle.std.specs.Prelude.{◌≡◌, ◌<◌, ◌+◌, OnErr, ℕ, Bool, [], IfOk, None, Some, Ok, Err, is_some, true, false, length, nat_le, if◌then◌else◌, codes, decimal, option_map, take, IfSome, IfErr, OnOk};
ghost use Rattle.press_events.specs.DueEvents.{due, cancels, place_of};
ghost use Rattle.press_events.specs.Shifts.{IsOnly, MayGoBack, MayShiftBack, shift_back};
ghost use Rattle.press_posts.specs.PostChange.{comes, post_at};
ghost use Rattle.press_posts.specs.PostChange.Change.{Insert, Edit, Moves, Delete};
ghost use Rattle.press_posts.specs.Published.{published};
ghost use Rattle.press_posts.specs.Restored.{restore_post, IsRestorable};
ghost use Rattle.press_site.specs.declared.stood.Stood.TheVariants.{OfPost};
ghost use Rattle.press_site.specs.Back.{ContentGoesBack, Does};
ghost use Rattle.press_site.specs.declared.fault.SiteFault.TheVariants.{NoMemory};
ghost use Rattle.press_site.specs.Becomes.{Refuses};
ghost use Rattle.press_site.specs.Beside.{MayStandBeside, events_beside};
ghost use Rattle.press_text.specs.Gives.{Gives};
ghost use Rattle.press_site.specs.Contents.{ChangesSome, MovesPost, beside_move, events_of, events_without, post_effect, publish_event, add_event_effect, take_event_effect};

use crate::changed::Changed;
use crate::fault::SiteFault;
use crate::stood::{Done, Stood, Undone};
use itoa::Buffer;
use press_events::{Event, Events, Shift};
use press_posts::{Draft, Fire, Move, Post, Posts, Status, changes_are_taken_back};
use press_text::{Copied, Every, HookName, Items, Moment, Text};
use std::alloc::{AllocError, Global};
use std::marker::Model;
use std::mem;

// The hook that is done when a post's moment comes.
const PUBLISH_HOOK: &str = "publish_future_post";

/// Posts and events.
#[derive(Debug)]
pub struct Content {
    alloc: Global,
    posts: Posts,
    events: Events,
}

impl Drop for Content {
    fn drop(self) {
        let Content {
            alloc: _,
            posts: _,
            events: _,
        } = self;
    }
}

impl Model for Content {
    ghost use Rattle.press_site.specs.ContentView.{ContentView};

    ghost Value = { ContentView };

    ghost view = { λ c. record { posts = c.posts; events = c.events } };
}

impl Content {
    /// No posts and no events, which takes no memory.
    pub fn new(alloc: Global) -> Content
        ensures { result ≡ record { posts = []; events = [] } }
    {
        Content {
            alloc,
            posts: Posts::new(alloc),
            events: Events::new(alloc),
        }
    }

    pub fn post(&self, id: u64) -> Option<&Post>
        ensures { option_map (λ p. p.now) result ≡ post_at self.now.posts id }
    {
        self.posts.get(id)
    }

    /// The published posts, newest date first, then greatest id.
    pub fn published(&self) -> Result<Items<u64>, AllocError>
        ensures posts { IfOk result (λ ids. ids ≡ published self.now.posts) }
        ensures memory { OnErr result (0 < length (published self.now.posts)) }
    {
        self.posts.published()
    }

    /// The first `most` of them.
    pub fn newest(&self, most: usize) -> Result<Items<u64>, AllocError>
        ensures posts { IfOk result (λ ids. ids ≡ take most (published self.now.posts)) }
        ensures memory { OnErr result (0 < length (take most (published self.now.posts))) }
    {
        self.posts.newest(most)
    }

    /// The greatest id that was given to a post; 0 where none was.
    pub fn last_id(&self) -> u64
        ensures { result ≡ length self.now.posts }
    {
        self.posts.last_id()
    }

    pub fn events(&self) -> &Events
        ensures { result.now ≡ self.now.events }
    {
        &self.events
    }

    /// The events whose time has come.
    pub fn due(&self, now: Moment) -> Result<Items<Event>, AllocError>
        ensures events { IfOk result (λ es. es ≡ due now self.now.events) }
        ensures memory { OnErr result (0 < length (due now self.now.events)) }
    {
        self.events.due(now)
    }

    pub fn insert(&mut self, draft: Draft, now: Moment) -> Result<Done, SiteFault>
        ensures does { Does result (post_effect self.old (Insert draft) now) self.old self.new }
        ensures back { IfOk result (λ d. ContentGoesBack true d.undone self.new self.old) }
    {
        if let Some(fault) = self.posts.insert_fault(&draft) {
            return Err(SiteFault::from(fault));
        }
        let id = self.posts.next_id();
        let beside = self.beside(
            id,
            draft.status.settle(draft.date, now),
            draft.date,
            draft.date,
        )?;
        let (id, fires) = self.posts.insert(draft, now)?;
        changes_are_taken_back();
        self.end(id, fires, None, beside)
    }

    pub fn edit(&mut self, id: u64, draft: Draft, now: Moment) -> Result<Done, SiteFault>
        ensures does { Does result (post_effect self.old (Edit id draft) now) self.old self.new }
        ensures back { IfOk result (λ d. ContentGoesBack true d.undone self.new self.old) }
    {
        let Some(post) = self.posts.get(id) else {
            return Err(SiteFault::NoSuchPost);
        };
        if let Some(fault) = post.edit_fault(&draft) {
            return Err(SiteFault::from(fault));
        }
        let near = post.date;
        let beside = self.beside(id, draft.status.settle(draft.date, now), draft.date, near)?;
        let stood = self.copy_of_post(id)?;
        let fires = self.posts.edit(id, draft, now)?;
        changes_are_taken_back();
        self.end(id, fires, stood, beside)
    }

    pub fn set_status(&mut self, id: u64, to: Move) -> Result<Done, SiteFault>
        ensures does { (now : ℕ) → Does result (post_effect self.old (Moves id to) now) self.old
            self.new }
        ensures back { IfOk result (λ d. ContentGoesBack true d.undone self.new self.old) }
        ensures memory { (now : ℕ) → result ≡ Err NoMemory
            → ChangesSome (post_effect self.old (Moves id to) now) }
    {
        let wanted = to;
        let Some(beside) = self.beside_move(id, wanted)? else {
            return Ok(no_change(self.alloc, id));
        };
        self.turn(id, to, beside)
    }

    pub fn delete(&mut self, id: u64) -> Result<Done, SiteFault>
        ensures does { (now : ℕ) → Does result (post_effect self.old (Delete id) now) self.old
            self.new }
        ensures back { IfOk result (λ d. ContentGoesBack true d.undone self.new self.old) }
    {
        let Some(post) = self.posts.get(id) else {
            return Err(SiteFault::NoSuchPost);
        };
        if !post.status.is_trash() {
            return Err(SiteFault::NotTrashed);
        }
        let near = post.date;
        let beside = self.beside_none(id, near)?;
        let stood = self.copy_of_post(id)?;
        self.posts.delete(id)?;
        changes_are_taken_back();
        let fires = Items::new(self.alloc);
        self.end(id, fires, stood, beside)
    }

    /// Schedules an event.
    pub fn schedule(&mut self, event: Event) -> Result<Done, SiteFault>
        ensures does { Does result (add_event_effect self.old event) self.old self.new }
        ensures back { IfOk result (λ d. ContentGoesBack true d.undone self.new self.old) }
        ensures memory { result ≡ Err NoMemory → ChangesSome (add_event_effect self.old event) }
    {
        let came = self.events.enter(event)?;
        Ok(events_done(self.alloc, came.is_some(), came))
    }

    /// Takes an event. Where it goes, the way back is told if it is wanted; nothing else takes
    /// memory.
    pub fn take(&mut self, event: &Event, now: Moment, wants: bool) -> Result<Done, SiteFault>
        ensures does { Does result (Ok (take_event_effect self.old event.now now))
            self.old self.new }
        ensures back { IfOk result (λ d. ContentGoesBack wants d.undone self.new self.old) }
        ensures memory { OnErr result (is_some (place_of event.now self.old.events) ≡ true) }
    {
        if let Some(shift) = self.events.take_again(event, now) {
            return Ok(events_done(self.alloc, true, Some(shift)));
        }
        if wants {
            let went = self.events.take_away(event)?;
            return Ok(events_done(self.alloc, went.is_some(), went));
        }
        let did = self.events.take(event, now);
        Ok(events_done(self.alloc, did, None))
    }

    /// Puts what stood at a post's place there again.
    pub fn restore(&mut self, id: u64, post: Option<Post>)
        requires { IsRestorable id post self.old.posts }
        ensures { self.new ≡ record self.old { posts = restore_post id post self.old.posts } }
    {
        self.posts.restore(id, post);
    }

    /// Puts other events in place of those that stand.
    pub fn set_events(&mut self, events: Events)
        ensures { self.new ≡ record self.old { events = events } }
    {
        self.events = events;
    }

    /// Takes a change of events back. Takes no memory.
    pub fn shift_back(&mut self, shift: Shift)
        requires { MayShiftBack shift self.old.events }
        ensures { self.new ≡ record self.old { events = shift_back shift self.old.events } }
    {
        self.events.go_back(shift);
    }

    /// A copy of the posts and events.
    pub fn copy(&self) -> Result<Content, AllocError>
        ensures same { IfOk result (λ c. c ≡ self.now) }
        ensures memory { OnErr result (0 < length self.now.posts + length self.now.events) }
    {
        Ok(Content {
            alloc: self.alloc,
            posts: self.posts.copy()?,
            events: self.events.copy()?,
        })
    }

    fn turn(&mut self, id: u64, to: Move, beside: Beside) -> Result<Done, SiteFault>
        requires may { MayStandBeside beside self.old.events }
        requires events { beside_move (post_at self.old.posts id) to id self.old.events
            ≡ Ok (Some (events_beside beside self.old.events)) }
        ensures does { (now : ℕ) → Does result (post_effect self.old (Moves id to) now) self.old
            self.new }
        ensures back { IfOk result (λ d. ContentGoesBack true d.undone self.new self.old) }
    {
        let stood = self.copy_of_post(id)?;
        let fires = self.posts.set_status(id, to)?;
        changes_are_taken_back();
        self.end(id, fires, stood, beside)
    }

    // A change that is done to a post: the events come in beside it. Without memory for them it is
    // taken back, by the post that stood.
    fn end(
        &mut self,
        id: u64,
        fires: Items<Fire>,
        post: Option<Post>,
        beside: Beside,
    ) -> Result<Done, SiteFault>
        requires may { MayStandBeside beside self.old.events }
        requires back { IsRestorable id post self.old.posts }
        ensures new { OnOk result (self.new ≡ record self.old
            { events = events_beside beside self.old.events }) }
        ensures changed { IfOk result (λ d. d.changed
            ≡ record { id = id; did = true; fires = fires }) }
        ensures stood { IfOk result (λ d. d.undone.stood ≡ Some (OfPost id post)) }
        ensures active { IfOk result (λ d. d.undone.active ≡ None) }
        ensures profile { IfOk result (λ d. d.undone.profile ≡ None) }
        ensures events { IfOk result (λ d. MayGoBack d.undone.shift
            self.new.events self.old.events) }
        ensures err { IfErr result (λ f. (f ≡ NoMemory) × (self.new ≡ record self.old
            { posts = restore_post id post self.old.posts })) }
    {
        match self.swap(beside) {
            Ok(shift) => Ok(post_done(id, fires, post, shift)),
            Err(fault) => {
                self.posts.restore(id, post);
                Err(fault)
            }
        }
    }

    // Puts the events in that come; the way back.
    fn swap(&mut self, beside: Beside) -> Result<Option<Shift>, SiteFault>
        requires { MayStandBeside beside self.old.events }
        ensures new { OnOk result (self.new ≡ record self.old
            { events = events_beside beside self.old.events }) }
        ensures back { IfOk result (λ s. MayGoBack s self.new.events self.old.events) }
        ensures err { IfErr result (λ f. (f ≡ NoMemory) × (self.new ≡ self.old)) }
    {
        match beside {
            Beside::Same => Ok(None),
            Beside::Came(event) => Ok(self.events.enter(event)?),
            Beside::Moved { place, date } => Ok(self.events.move_to(place, date, Every::Once)),
            Beside::Gone { place } => Ok(Some(self.events.leave(place)?)),
            Beside::Others(events) => Ok(Some(Shift::All(mem::replace(&mut self.events, events)))),
        }
    }

    // What stands at a post's place.
    fn copy_of_post(&self, id: u64) -> Result<Option<Post>, AllocError>
        ensures { IfOk result (λ p. p ≡ post_at self.now.posts id) }
    {
        match self.posts.get(id) {
            Some(post) => Ok(Some(post.copy_in(self.alloc)?)),
            None => Ok(None),
        }
    }

    // The events beside a post that is moved; None where the move leaves the post as it is.
    fn beside_move(&self, id: u64, to: Move) -> Result<Option<Beside>, SiteFault>
        ensures does { Gives Refuses (λ o. Ok (option_map (λ b. events_beside b self.now.events) o))
            result (beside_move (post_at self.now.posts id) to id self.now.events) }
        ensures may { IfOk result (λ o. IfSome o (λ b. MayStandBeside b self.now.events)) }
        ensures memory { result ≡ Err NoMemory
            → MovesPost (beside_move (post_at self.now.posts id) to id self.now.events) }
    {
        let Some(post) = self.posts.get(id) else {
            return Err(SiteFault::NoSuchPost);
        };
        let Some(status) = post.status_after_move(to)? else {
            return Ok(None);
        };
        Ok(Some(self.beside(id, status, post.date, post.date)?))
    }

    // The events beside a post that gets that status and date. Its own is sought near the date that
    // it has.
    fn beside(
        &self,
        id: u64,
        status: Status,
        date: Moment,
        near: Moment,
    ) -> Result<Beside, SiteFault>
        ensures does { Gives Refuses (λ b. Ok (events_beside b self.now.events)) result
            (events_of (comes status date) id self.now.events) }
        ensures may { IfOk result (λ b. MayStandBeside b self.now.events) }
    {
        if status.is_future() {
            self.beside_own(id, date, near)
        } else {
            Ok(self.beside_none(id, near)?)
        }
    }

    // The events beside a post that none is for; they stay where none was, and its own goes where
    // it is the only one.
    #[tactic(auto, using(crate::proofs::Beside::none_out))]
    fn beside_none(&self, id: u64, near: Moment) -> Result<Beside, AllocError>
        ensures does { IfOk result (λ b. events_beside b self.now.events
            ≡ events_without id self.now.events) }
        ensures may { IfOk result (λ b. MayStandBeside b self.now.events) }
    {
        if let Some(place) = self.own_place(id, near) {
            return Ok(Beside::Gone { place });
        }
        if self.has_event(id) {
            Ok(Beside::Others(self.events_without(id)?))
        } else {
            Ok(Beside::Same)
        }
    }

    // The events beside a post whose own comes at that date: in its place, where it is the only
    // one.
    #[tactic(auto, using(crate::proofs::Beside::own_moved, crate::proofs::Beside::may_move))]
    fn beside_own(&self, id: u64, date: Moment, near: Moment) -> Result<Beside, SiteFault>
        ensures does { Gives Refuses (λ b. Ok (events_beside b self.now.events)) result
            (events_of (Some date) id self.now.events) }
        ensures may { IfOk result (λ b. MayStandBeside b self.now.events) }
    {
        if let Some(place) = self.own_place(id, near) {
            self.events.are_scheduled();
            return Ok(Beside::Moved { place, date });
        }
        if self.has_event(id) {
            Ok(Beside::Others(self.events_with(id, date)?))
        } else {
            self.beside_new(id, date)
        }
    }

    // The events beside a post that none is for, where one comes at that date.
    fn beside_new(&self, id: u64, date: Moment) -> Result<Beside, SiteFault>
        requires { cancels (codes "publish_future_post") (decimal id) self.now.events ≡ false }
        ensures does { Gives Refuses (λ b. Ok (events_beside b self.now.events)) result
            (events_of (Some date) id self.now.events) }
        ensures may { IfOk result (λ b. MayStandBeside b self.now.events) }
    {
        if self.is_full_beside(id) {
            return Err(SiteFault::TooManyEvents);
        }
        let event = publish_event(self.alloc, id, date)?;
        Ok(Beside::Came(event))
    }

    // The place of the event that publishes that post, where it is the only one.
    fn own_place(&self, id: u64, near: Moment) -> Option<usize>
        ensures { IfSome result (λ place.
            IsOnly (codes "publish_future_post") (decimal id) place self.now.events) }
    {
        let mut digits = Buffer::new();
        self.events
            .only_place(near, PUBLISH_HOOK, digits.format(id))
    }

    // Whether an event stands that publishes that post.
    fn has_event(&self, id: u64) -> bool
        ensures { result ≡ cancels (codes "publish_future_post") (decimal id) self.now.events }
    {
        let mut digits = Buffer::new();
        self.events.has(PUBLISH_HOOK, digits.format(id))
    }

    fn events_with(&self, id: u64, date: Moment) -> Result<Events, SiteFault>
        ensures { Gives Refuses Ok result (events_of (Some date) id self.now.events) }
    {
        if self.is_full_beside(id) {
            return Err(SiteFault::TooManyEvents);
        }
        let event = publish_event(self.alloc, id, date)?;
        let mut events = self.events_without(id)?;
        events.add(event)?;
        Ok(events)
    }

    // Whether the others leave no room for the event of that post.
    fn is_full_beside(&self, id: u64) -> bool
        ensures { result ≡ nat_le 4096 (length (events_without id self.now.events)) }
    {
        let mut digits = Buffer::new();
        self.events.is_full_without(PUBLISH_HOOK, digits.format(id))
    }

    fn events_without(&self, id: u64) -> Result<Events, AllocError>
        ensures { IfOk result (λ es. es ≡ events_without id self.now.events) }
    {
        let hook = publish_hook(self.alloc)?;
        let arg = decimal(self.alloc, id)?;
        let mut events = self.events.copy()?;
        events.cancel(&hook, arg.as_str());
        Ok(events)
    }
}

// The events that come in beside a post's change.
#[derive(Debug, Drop)]
enum Beside {
    Same,
    Came(Event),
    // The event at that place comes once, at that date.
    Moved { place: usize, date: Moment },
    // The event at that place goes.
    Gone { place: usize },
    // These come in place of all.
    Others(Events),
}

// A change that is done to a post.
fn post_done(id: u64, fires: Items<Fire>, post: Option<Post>, shift: Option<Shift>) -> Done
    ensures { result ≡ record {
      changed = record { id = id; did = true; fires = fires };
      undone = record
          { stood = Some (OfPost id post); shift = shift; active = None; profile = None };
    } }
{
    let did = true;
    let changed = Changed { id, did, fires };
    let undone = Undone::of(Stood::OfPost { id, post }, shift);
    Done { changed, undone }
}

// A post's change that changed nothing.
fn no_change(alloc: Global, id: u64) -> Done
    ensures { result ≡ record {
      changed = record { id = id; did = false; fires = [] };
      undone = record { stood = None; shift = None; active = None; profile = None };
    } }
{
    let (did, fires) = (false, Items::new(alloc));
    let changed = Changed { id, did, fires };
    let undone = Undone::of_events(None);
    Done { changed, undone }
}

// A change of events alone.
fn events_done(alloc: Global, did: bool, shift: Option<Shift>) -> Done
    ensures { result ≡ record {
      changed = record { id = 0; did = did; fires = [] };
      undone = record { stood = None; shift = shift; active = None; profile = None };
    } }
{
    let (id, fires) = (0, Items::new(alloc));
    let changed = Changed { id, did, fires };
    let undone = Undone::of_events(shift);
    Done { changed, undone }
}

fn publish_event(alloc: Global, id: u64, date: Moment) -> Result<Event, AllocError>
    ensures { IfOk result (λ e. e ≡ publish_event id date) }
{
    Ok(Event {
        time: date,
        hook: publish_hook(alloc)?,
        arg: decimal(alloc, id)?,
        every: Every::Once,
    })
}

fn publish_hook(alloc: Global) -> Result<HookName, AllocError>
    ensures { IfOk result (λ h. h ≡ codes "publish_future_post") }
{
    HookName::from_valid(alloc, PUBLISH_HOOK)
}

fn decimal(alloc: Global, n: u64) -> Result<Text, AllocError>
    ensures { IfOk result (λ t. t ≡ decimal n) }
{
    let mut digits = Buffer::new();
    Text::from_str(alloc, digits.format(n))
}
