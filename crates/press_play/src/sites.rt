//! The site of the plays.

ghost use Rattle.std.specs.Prelude.{◌≡◌, IfOk, OnOk};
ghost use Rattle.std.specs.List.Sorted.{IsPermutation};
ghost use Rattle.press_play.specs.Sites.{one_active, site_with};

use press_site::{Effect, Site, SiteFault};
use press_text::{Items, Name};
use std::alloc::{AllocError, Global};

// Activates a plugin; a name that is active already changes nothing.
fn activate(site: &mut Site, plugin: Name) -> Result<(), AllocError>
    ensures { OnOk result (site.new ≡ one_active plugin site.old) }
{
    match site.effect(Effect::Activate { plugin }) {
        Ok(_) => Ok(()),
        Err(SiteFault::NoMemory) => Err(AllocError),
        Err(_) => Ok(()),
    }
}

// These in the order of their names; takes no memory.
fn sort(mut names: Vec<Name>) -> Vec<Name>
    ensures { IsPermutation names.items result.items }
{
    names.sort_unstable_by(|a, b| a.as_str().cmp(b.as_str()));
    names
}

/// A new site with these plugins active. They are activated in the order of their names, so that
/// each goes to the end.
#[tactic(auto, using(crate::proofs::Active::in_any_order))]
pub fn site_with(alloc: Global, active: Items<Name>) -> Result<Site, AllocError>
    ensures { IfOk result (λ s. s ≡ site_with active) }
{
    let names = sort(active.into_vec());
    let mut site = Site::new(alloc);
    for plugin in names {
        activate(&mut site, plugin)?;
    }
    Ok(site)
}
