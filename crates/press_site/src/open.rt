//! A site at work, which can go back.

ghost use Rattle.std.specs.Prelude.{ℕ, ◌≡◌, ◌≢◌, None, Err, IfOk, IfErr, OnErr};
ghost use Rattle.press_site.specs.Back.{MayEventBack, MayPostsGoBack, Notes, NotesSome, TakesNone};
ghost use Rattle.press_site.specs.Becomes.{Becomes};
ghost use Rattle.press_site.specs.Contents.{ChangesSome};
ghost use Rattle.press_site.specs.Effects.{effect_on};
ghost use Rattle.press_site.specs.Log.{stood_before};
ghost use Rattle.press_site.specs.Open.{site_at_start};
ghost use Rattle.press_site.specs.Outcomes.{outcome_of, with_outcome};
ghost use Rattle.press_site.specs.declared.fault.SiteFault.TheVariants.{NoMemory};

use crate::changed::Changed;
use crate::effect::Effect;
use crate::fault::SiteFault;
use crate::site::Site;
use crate::stood::Done;
use crate::token::{Outcome, Token};
use crate::undo::Undo;
use std::alloc::Global;
use std::marker::Model;

/// A site that was begun: until `settle` leaves it as it stands, or `back` gives it as it was.
#[derive(Debug)]
pub struct OpenSite {
    site: Site,
    undo: Undo,
}

impl Drop for OpenSite {
    fn drop(self) {
        let OpenSite { site: _, undo: _ } = self;
    }
}

impl Model for OpenSite {
    ghost use Rattle.press_site.specs.Back.{MayLogGoBack};
    ghost use Rattle.press_site.specs.Open.{Open};

    ghost Value = { Open };

    ghost view = { λ o. record { site = o.site; log = o.undo } };

    ghost invariant = { λ o. MayLogGoBack o.undo o.site.posts o.site.events };
}

impl OpenSite {
    pub(crate) fn of(alloc: Global, site: Site) -> OpenSite
        ensures site { result.site ≡ site }
        ensures begun { site_at_start result ≡ site }
    {
        let undo = Undo::new(alloc);
        OpenSite { site, undo }
    }

    /// The site as it stands.
    pub fn site(&self) -> &Site
        ensures { result.now ≡ self.now.site }
    {
        &self.site
    }

    /// Makes a change, as `Site::effect` does, and records how it is taken back; without memory for
    /// that nothing is changed. What changes nothing takes no memory, nor does a switch of profile.
    pub fn effect(&mut self, effect: Effect) -> Result<Changed, SiteFault>
        ensures does { Becomes result (effect_on self.old.site effect)
            self.old.site self.new.site }
        ensures begun { site_at_start self.new ≡ site_at_start self.old }
        ensures memory { result ≡ Err NoMemory → ChangesSome (effect_on self.old.site effect) }
        ensures profile { (to : ℕ) → effect ≡ Effect.Profile to → result ≢ Err NoMemory }
    {
        let wants = self.undo.wants_events();
        let done = self.site.change(effect, wants);
        note(&mut self.site, &mut self.undo, done)
    }

    /// Leaves the site as it stands. Takes no memory.
    pub fn settle(self) -> Site
        ensures { result ≡ self.site }
    {
        let OpenSite { site, undo: _ } = self;
        site
    }

    /// Keeps what became of a command, in place of what is kept under its token, and leaves the
    /// site as it stands; without memory for that it goes back.
    pub fn settle_with(self, token: Token, outcome: Outcome) -> Result<Site, Site>
        ensures ok { IfOk result (λ s. s ≡ record (self.site)
            { outcomes = with_outcome token outcome self.site.outcomes }) }
        ensures err { IfErr result (λ s. s ≡ site_at_start self) }
        ensures memory { OnErr result (outcome_of token self.site.outcomes ≡ None) }
    {
        let OpenSite { site, undo } = self;
        let (mut site, mut undo) = (site, undo);
        match site.keep(token, outcome) {
            Ok(()) => Ok(site),
            Err(_) => {
                site.go_back(&mut undo);
                Err(site)
            }
        }
    }

    /// Gives the site as it was begun. Takes no memory.
    pub fn back(self) -> Site
        ensures { result ≡ site_at_start self }
    {
        let OpenSite { site, undo } = self;
        let (mut site, mut undo) = (site, undo);
        site.go_back(&mut undo);
        site
    }
}

// A change that is done, and noted; without memory for the note it is taken back.
fn note(
    site: &mut Site,
    undo: &mut Undo,
    done: Result<Done, SiteFault>,
) -> Result<Changed, SiteFault>
    requires { IfOk done (λ d. MayPostsGoBack (stood_before d.undone) site.old.posts
        × MayEventBack d.undone.shift site.old.events) }
    ensures notes { Notes done result site.old site.new undo.old undo.new }
    ensures memory { NotesSome done result site.old }
    ensures none { TakesNone done → result ≢ Err NoMemory }
{
    let Done { changed, undone } = done?;
    if !changed.did {
        drop(undone);
        return Ok(changed);
    }
    match undo.note(undone, site.events()) {
        Ok(()) => Ok(changed),
        Err(undone) => {
            site.take_back(undone);
            Err(SiteFault::NoMemory)
        }
    }
}
