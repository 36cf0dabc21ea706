//! The whole site as one value.

ghost use Rattle.std.specs.Prelude.{Bool, ℕ, ◌≡◌, ◌≢◌, ◌<◌, length, [], false, None, Some, Ok, Err, true, IfOk, OnOk, OnErr, map, option_map, take};
ghost use Rattle.press_posts.specs.PostChange.{post_at};
ghost use Rattle.press_posts.specs.Published.{published};
ghost use Rattle.press_events.specs.DueEvents.{due};
ghost use Rattle.press_site.specs.Back.{Does, GoesBack, MayEventBack, MayLogGoBack, MayPostsGoBack, TakesNone};
ghost use Rattle.press_site.specs.Back.{log_back, site_back};
ghost use Rattle.press_site.specs.Becomes.{Becomes};
ghost use Rattle.press_site.specs.Contents.{ChangesSome, no_post};
ghost use Rattle.press_site.specs.Effects.{no_site, effect_on, size};
ghost use Rattle.press_site.specs.Log.{stood_before};
ghost use Rattle.press_site.specs.Options.{option_of, set_option_of};
ghost use Rattle.press_site.specs.Open.{site_at_start};
ghost use Rattle.press_site.specs.Outcomes.{outcome_of, with_outcome};
ghost use Rattle.press_site.specs.declared.fault.SiteFault.TheVariants.{NoMemory};
ghost use Rattle.press_site.specs.declared.stood.Stood.TheVariants.{OfOption};

use crate::changed::Changed;
use crate::content::Content;
use crate::effect::Effect;
use crate::fault::SiteFault;
use crate::open::OpenSite;
use crate::options::{Options, SetDone, SetOption};
use crate::outcomes::Outcomes;
use crate::plugins::Plugins;
use crate::stood::{Done, Stood, Undone};
use crate::token::{Outcome, Token};
use crate::undo::Undo;
use press_events::{Event, Events};
use press_posts::{Draft, Fire, Move, Post};
use press_text::{Items, Moment, Name, OptName, Text};
use std::alloc::{AllocError, Global};
use std::marker::Model;

// The profile that a site begins with.
const FIRST_PROFILE: u8 = 1;

// The one that it may be switched to.
const NEXT_PROFILE: u8 = 2;

/// Posts, events, options, active plugins, the profile, and what became of each command, at a
/// moment.
#[derive(Debug)]
pub struct Site {
    alloc: Global,
    moment: Moment,
    profile: u8,
    content: Content,
    options: Options,
    plugins: Plugins,
    outcomes: Outcomes,
}

impl Drop for Site {
    fn drop(self) {
        let Site {
            alloc: _,
            moment: _,
            profile: _,
            content: _,
            options: _,
            plugins: _,
            outcomes: _,
        } = self;
    }
}

impl Model for Site {
    ghost use Rattle.press_site.specs.SiteView.{SiteView};

    ghost Value = { SiteView };

    ghost view = { λ s. record {
      moment = s.moment;
      profile = s.profile;
      posts = s.content.posts;
      events = s.content.events;
      options = s.options;
      active = s.plugins;
      outcomes = s.outcomes;
    } };
}

impl Site {
    /// A site with nothing in it, at the first moment and with the first profile; takes no memory.
    pub fn new(alloc: Global) -> Site
        ensures { result ≡ no_site }
    {
        Site {
            alloc,
            moment: Moment::zero(),
            profile: FIRST_PROFILE,
            content: Content::new(alloc),
            options: Options::new(alloc),
            plugins: Plugins::new(alloc),
            outcomes: Outcomes::new(alloc),
        }
    }

    /// A copy of the site. What it takes grows with posts, events, options, plugins and outcomes,
    /// and hardly with their texts, which are shared; of a site that holds nothing it takes no
    /// memory.
    pub fn copy(&self) -> Result<Site, AllocError>
        ensures same { IfOk result (λ s. s ≡ self.now) }
        ensures memory { OnErr result (0 < size self.now) }
    {
        Ok(Site {
            alloc: self.alloc,
            moment: self.moment,
            profile: self.profile,
            content: self.content.copy()?,
            options: self.options.copy()?,
            plugins: self.plugins.copy()?,
            outcomes: self.outcomes.copy()?,
        })
    }

    /// The version of the rules that it goes by.
    pub fn profile(&self) -> u8
        ensures { result ≡ self.now.profile }
    {
        self.profile
    }

    /// The latest moment of a command so far.
    pub fn now(&self) -> Moment
        ensures { result ≡ self.now.moment }
    {
        self.moment
    }

    /// Sets the site's moment as it is given: that time doesn't go back is up to who plays the
    /// commands.
    pub fn set_now(&mut self, moment: Moment)
        ensures { self.new ≡ record self.old { moment = moment } }
    {
        self.moment = moment;
    }

    /// The value of an option, where it is set.
    pub fn option(&self, name: &OptName) -> Option<&str>
        ensures { option_map (λ v. v.now) result ≡ option_of name.now self.now.options }
    {
        self.options.get(name)
    }

    /// The post with that id, found by its place.
    pub fn post(&self, id: u64) -> Option<&Post>
        ensures { option_map (λ p. p.now) result ≡ post_at self.now.posts id }
    {
        self.content.post(id)
    }

    /// The published posts, newest date first, then greatest id.
    pub fn published(&self) -> Result<Items<u64>, AllocError>
        ensures posts { IfOk result (λ ids. ids ≡ published self.now.posts) }
        ensures memory { OnErr result (0 < length (published self.now.posts)) }
    {
        self.content.published()
    }

    /// The first `most` published posts. It looks at no others.
    pub fn newest(&self, most: usize) -> Result<Items<u64>, AllocError>
        ensures posts { IfOk result (λ ids. ids ≡ take most (published self.now.posts)) }
        ensures memory { OnErr result (0 < length (take most (published self.now.posts))) }
    {
        self.content.newest(most)
    }

    /// The events whose time has come, by time, then in the order in which they were scheduled.
    /// Where there is none, this takes no memory.
    pub fn due(&self) -> Result<Items<Event>, AllocError>
        ensures events { IfOk result (λ es. es ≡ due self.now.moment self.now.events) }
        ensures memory { OnErr result (0 < length (due self.now.moment self.now.events)) }
    {
        self.content.due(self.moment)
    }

    /// The greatest id that was given to a post; 0 where none was.
    pub fn last_id(&self) -> u64
        ensures { result ≡ length self.now.posts }
    {
        self.content.last_id()
    }

    /// All options with their values, in the order of the bytes of their names.
    pub fn options(&self) -> Result<Items<SetOption>, AllocError>
        ensures { IfOk result (λ all. all ≡ map set_option_of self.now.options) }
    {
        self.options.all()
    }

    /// The scheduled events, by time, then in the order in which they were scheduled.
    pub fn all_events(&self) -> &[Event]
        ensures { result.now ≡ self.now.events }
    {
        self.content.events().as_slice()
    }

    /// All events.
    pub(crate) fn events(&self) -> &Events
        ensures { result.now ≡ self.now.events }
    {
        self.content.events()
    }

    /// The active plugins, in the order of their names.
    pub fn active(&self) -> &[Name]
        ensures { result.now ≡ self.now.active }
    {
        self.plugins.as_slice()
    }

    /// What became of the command with that token.
    pub fn result_of(&self, token: &Token) -> Option<Outcome>
        ensures { result ≡ outcome_of token.now self.now.outcomes }
    {
        self.outcomes.result_of(token)
    }

    /// Keeps what became of a command, in place of what is kept under its token. Only a token that
    /// has no outcome takes memory.
    pub fn keep(&mut self, token: Token, outcome: Outcome) -> Result<(), AllocError>
        ensures ok { OnOk result (self.new ≡ record self.old
            { outcomes = with_outcome token outcome self.old.outcomes }) }
        ensures err { OnErr result (self.new ≡ self.old) }
        ensures memory { OnErr result (outcome_of token self.old.outcomes ≡ None) }
    {
        self.outcomes.keep(token, outcome)
    }

    /// Opens the site: what changes from now on is taken back by `back`. Takes no memory.
    pub fn begin(self) -> OpenSite
        ensures site { result.site ≡ self }
        ensures begun { site_at_start result ≡ self }
    {
        OpenSite::of(self.alloc, self)
    }

    /// Makes a change: what it did and what is to be fired. After a refusal the site is as it was.
    /// What changes nothing takes no memory, nor does a switch of profile.
    pub fn effect(&mut self, effect: Effect) -> Result<Changed, SiteFault>
        ensures does { Becomes result (effect_on self.old effect) self.old self.new }
        ensures memory { result ≡ Err NoMemory → ChangesSome (effect_on self.old effect) }
        ensures profile { (to : ℕ) → effect ≡ Effect.Profile to → result ≢ Err NoMemory }
    {
        let Done { changed, undone } = self.change(effect, false)?;
        drop(undone);
        Ok(changed)
    }

    /// The same, with what takes it back. That of the events is told beside a post's change, and
    /// else where it is wanted.
    pub(crate) fn change(&mut self, effect: Effect, wants: bool) -> Result<Done, SiteFault>
        ensures does { Does result (effect_on self.old effect) self.old self.new }
        ensures back { IfOk result (λ d. GoesBack wants d.undone self.new self.old) }
        ensures memory { result ≡ Err NoMemory → ChangesSome (effect_on self.old effect) }
        ensures profile { (to : ℕ) → effect ≡ Effect.Profile to → TakesNone result }
    {
        match effect {
            Effect::Insert(draft) => self.insert(draft),
            Effect::Edit { id, draft } => self.edit(id, draft),
            Effect::Move { id, to } => self.move_post(id, to),
            Effect::Delete { id } => self.delete(id),
            Effect::SetOption { name, value } => self.set_option(name, value),
            Effect::Schedule(event) => self.schedule(event),
            Effect::Take(event) => self.take(&event, wants),
            Effect::Activate { plugin } => self.activate(plugin),
            Effect::Deactivate { plugin } => self.deactivate(&plugin),
            Effect::Profile(to) => self.switch_profile(to),
        }
    }

    /// Takes the last change back. Takes no memory.
    pub(crate) fn take_back(&mut self, undone: Undone)
        requires posts { MayPostsGoBack (stood_before undone) self.old.posts }
        requires events { MayEventBack undone.shift self.old.events }
        ensures { self.new ≡ site_back undone self.old }
    {
        let Undone {
            stood,
            shift,
            active,
            profile,
        } = undone;
        if let Some(stood) = stood {
            stood.put_back(&mut self.content, &mut self.options);
        }
        if let Some(shift) = shift {
            self.content.shift_back(shift);
        }
        if let Some(active) = active {
            self.plugins = active;
        }
        if let Some(profile) = profile {
            self.profile = profile;
        }
    }

    /// Takes all changes back that were noted. Takes no memory.
    pub(crate) fn go_back(&mut self, undo: &mut Undo)
        requires { MayLogGoBack undo.old self.old.posts self.old.events }
        ensures { self.new ≡ log_back undo.old self.old }
    {
        undo.back_content(&mut self.content, &mut self.options);
        undo.back_plugins(&mut self.plugins);
        undo.back_profile(&mut self.profile);
    }

    fn insert(&mut self, draft: Draft) -> Result<Done, SiteFault>
        ensures does { Does result (effect_on self.old (Effect.Insert draft))
            self.old self.new }
        ensures back { (wants : Bool) → IfOk result
            (λ d. GoesBack wants d.undone self.new self.old) }
    {
        let now = self.moment;
        self.content.insert(draft, now)
    }

    fn edit(&mut self, id: u64, draft: Draft) -> Result<Done, SiteFault>
        ensures does { Does result (effect_on self.old (Effect.Edit id draft))
            self.old self.new }
        ensures back { (wants : Bool) → IfOk result
            (λ d. GoesBack wants d.undone self.new self.old) }
    {
        let now = self.moment;
        self.content.edit(id, draft, now)
    }

    fn move_post(&mut self, id: u64, to: Move) -> Result<Done, SiteFault>
        ensures does { Does result (effect_on self.old (Effect.Move id to))
            self.old self.new }
        ensures back { (wants : Bool) → IfOk result
            (λ d. GoesBack wants d.undone self.new self.old) }
        ensures memory { result ≡ Err NoMemory
            → ChangesSome (effect_on self.old (Effect.Move id to)) }
    {
        self.content.set_status(id, to)
    }

    fn delete(&mut self, id: u64) -> Result<Done, SiteFault>
        ensures does { Does result (effect_on self.old (Effect.Delete id))
            self.old self.new }
        ensures back { (wants : Bool) → IfOk result
            (λ d. GoesBack wants d.undone self.new self.old) }
    {
        self.content.delete(id)
    }

    fn schedule(&mut self, event: Event) -> Result<Done, SiteFault>
        ensures does { Does result (effect_on self.old (Effect.Schedule event))
            self.old self.new }
        ensures back { (wants : Bool) → IfOk result
            (λ d. GoesBack wants d.undone self.new self.old) }
        ensures memory { result ≡ Err NoMemory
            → ChangesSome (effect_on self.old (Effect.Schedule event)) }
    {
        self.content.schedule(event)
    }

    fn take(&mut self, event: &Event, wants: bool) -> Result<Done, SiteFault>
        ensures does { Does result (effect_on self.old (Effect.Take event.now))
            self.old self.new }
        ensures back { IfOk result (λ d. GoesBack wants d.undone self.new self.old) }
        ensures memory { result ≡ Err NoMemory
            → ChangesSome (effect_on self.old (Effect.Take event.now)) }
    {
        let now = self.moment;
        self.content.take(event, now, wants)
    }

    fn set_option(&mut self, name: OptName, value: Text) -> Result<Done, SiteFault>
        ensures does { Does result (effect_on self.old (Effect.SetOption name value))
            self.old self.new }
        ensures back { (wants : Bool) → IfOk result
            (λ d. GoesBack wants d.undone self.new self.old) }
        ensures memory { result ≡ Err NoMemory
            → ChangesSome (effect_on self.old (Effect.SetOption name value)) }
    {
        match self.options.set(&name, value)? {
            Some(SetDone { fires, stood }) => Ok(option_done(name, fires, stood)),
            None => Ok(nothing_done(self.alloc)),
        }
    }

    fn activate(&mut self, plugin: Name) -> Result<Done, SiteFault>
        ensures does { Does result (effect_on self.old (Effect.Activate plugin))
            self.old self.new }
        ensures back { (wants : Bool) → IfOk result
            (λ d. GoesBack wants d.undone self.new self.old) }
    {
        let stood = self.plugins.activate(plugin)?;
        let changed = no_post(self.alloc);
        let undone = Undone::of_active(stood);
        Ok(Done { changed, undone })
    }

    fn deactivate(&mut self, plugin: &Name) -> Result<Done, SiteFault>
        ensures does { Does result (effect_on self.old (Effect.Deactivate plugin.now))
            self.old self.new }
        ensures back { (wants : Bool) → IfOk result
            (λ d. GoesBack wants d.undone self.new self.old) }
    {
        let stood = self.plugins.deactivate(plugin)?;
        let changed = no_post(self.alloc);
        let undone = Undone::of_active(stood);
        Ok(Done { changed, undone })
    }

    // Takes no memory.
    fn switch_profile(&mut self, to: u8) -> Result<Done, SiteFault>
        ensures does { Does result (effect_on self.old (Effect.Profile to)) self.old self.new }
        ensures back { (wants : Bool) → IfOk result
            (λ d. GoesBack wants d.undone self.new self.old) }
        ensures memory { TakesNone result }
    {
        if to != NEXT_PROFILE || self.profile != FIRST_PROFILE {
            return Err(SiteFault::BadProfile);
        }
        let undone = Undone::of_profile(self.profile);
        self.profile = to;
        let changed = no_post(self.alloc);
        Ok(Done { changed, undone })
    }
}

// An option that was set.
fn option_done(name: OptName, fires: Items<Fire>, value: Option<Text>) -> Done
    ensures { result ≡ record {
      changed = record { id = 0; did = true; fires = fires };
      undone = record
          { stood = Some (OfOption name value); shift = None; active = None; profile = None };
    } }
{
    let (id, did) = (0, true);
    let changed = Changed { id, did, fires };
    let undone = Undone::of(Stood::OfOption { name, value }, None);
    Done { changed, undone }
}

// A change that changed nothing.
fn nothing_done(alloc: Global) -> Done
    ensures { result ≡ record {
      changed = no_post false;
      undone = record { stood = None; shift = None; active = None; profile = None };
    } }
{
    let (id, did, fires) = (0, false, Items::new(alloc));
    let changed = Changed { id, did, fires };
    let undone = Undone::of_events(None);
    Done { changed, undone }
}

// A change that is about no post.
fn no_post(alloc: Global) -> Changed
    ensures { result ≡ no_post true }
{
    let (id, did, fires) = (0, true, Items::new(alloc));
    Changed { id, did, fires }
}
