ghost use Rattle.std.specs.Prelude.{◌≡◌, Ok, Err, Some};
ghost use Rattle.press_site.specs.Becomes.{Becomes};
ghost use Rattle.press_site.specs.Contents.{ChangesSome};
ghost use Rattle.press_site.specs.declared.fault.SiteFault.TheVariants.{NoMemory};
ghost use Rattle.press_run.specs.Links.{no_change, read_only};

use press_site::{Changed, Effect, OpenSite, Site, SiteFault};
use press_text::Items;
use std::alloc::Global;

/// What a run has of a site.
pub trait SiteLink {
    ghost use Rattle.std.specs.Prelude.{Option};
    ghost use Rattle.press_site.specs.SiteView.{SiteView};
    ghost use Rattle.press_run.specs.Links.{Changes};

    ghost changes: { Changes };

    ghost view: { Self → SiteView };

    /// What no change touches: of a site its moment and its outcomes, of an open one how it was
    /// begun, and all of one that is only read.
    ghost fixed: { Self → Option SiteView };

    fn site(&self) -> &Site
        ensures { result.now ≡ view self.now };

    /// Makes a change; after a refusal the site is as it was. What is refused or changes nothing
    /// takes no memory.
    fn change(&mut self, alloc: Global, effect: Effect) -> Result<Changed, SiteFault>
        ensures changes { Becomes result (changes (view self.old) effect)
            (view self.old) (view self.new) }
        ensures fixed { fixed self.new ≡ fixed self.old }
        ensures memory { result ≡ Err NoMemory → ChangesSome (changes (view self.old) effect) };
}

impl SiteLink for Site {
    ghost use Rattle.std.specs.Prelude.{Some};
    ghost use Rattle.press_site.specs.Effects.{effect_on};
    ghost use Rattle.press_run.specs.Links.{unchanging_part};

    ghost changes = { effect_on };

    ghost view = { λ s. s };

    ghost fixed = { λ s. Some (unchanging_part s) };

    fn site(&self) -> &Site {
        self
    }

    #[tactic(auto, using(crate::proofs::Kept::becomes_kept))]
    fn change(&mut self, _alloc: Global, effect: Effect) -> Result<Changed, SiteFault> {
        self.effect(effect)
    }
}

impl SiteLink for OpenSite {
    ghost use Rattle.std.specs.Prelude.{Some};
    ghost use Rattle.press_site.specs.Effects.{effect_on};
    ghost use Rattle.press_site.specs.Open.{site_at_start};

    ghost changes = { effect_on };

    ghost view = { λ o. o.site };

    ghost fixed = { λ o. Some (site_at_start o) };

    fn site(&self) -> &Site {
        self.site()
    }

    fn change(&mut self, _alloc: Global, effect: Effect) -> Result<Changed, SiteFault> {
        self.effect(effect)
    }
}

/// A site that is only read: every change is empty.
#[derive(Drop)]
pub struct Read<'a>(pub &'a Site);

impl<'a> SiteLink for Read<'a> {
    ghost use Rattle.std.specs.Prelude.{Some};
    ghost use Rattle.press_run.specs.Links.{read_only};

    ghost changes = { read_only };

    ghost view = { λ r. r.0.now };

    ghost fixed = { λ r. Some (r.0.now) };

    fn site(&self) -> &Site {
        self.0
    }

    /// Takes no memory.
    fn change(&mut self, alloc: Global, _effect: Effect) -> Result<Changed, SiteFault>
        ensures changes { Becomes result (read_only self.old.0.now _effect)
            self.old.0.now self.new.0.now }
        ensures fixed { Some (self.new.0.now) ≡ Some (self.old.0.now) }
        ensures answer { result ≡ Ok no_change }
        ensures memory { result ≡ Err NoMemory →
            ChangesSome (read_only self.old.0.now _effect) }
    {
        let (id, did, fires) = (0, false, Items::new(alloc));
        Ok(Changed { id, did, fires })
    }
}
