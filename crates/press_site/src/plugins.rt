ghost use Rattle.std.specs.Prelude.{◌≡◌, [], ◌<◌, ◌≤◌, length, true, false, not, insert, IfOk, OnOk, OnErr};
ghost use Rattle.std.specs.List.Sorted.{IsPartitionPoint};
ghost use Rattle.press_site.specs.InOrder.{in_order};
ghost use Rattle.press_site.specs.Becomes.{Turns};
ghost use Rattle.press_text.specs.NameOrder.{is_before};
ghost use Rattle.press_site.specs.Plugins.{is_active, place_in, activate_plugin, deactivate_plugin, without};

use crate::fault::SiteFault;
use press_text::Name;
use std::alloc::{AllocError, Global};
use std::cmp::Ordering;
use std::marker::Model;
use std::mem;

/// The active plugins, in the order of their names.
#[derive(Debug)]
pub struct Plugins {
    alloc: Global,
    names: Vec<Name>,
}

impl Drop for Plugins {
    fn drop(self) {
        let Plugins { alloc: _, names: _ } = self;
    }
}

impl Model for Plugins {
    ghost use Rattle.std.specs.Prelude.{◌≡◌, ℕ, List, true};
    ghost use Rattle.press_site.specs.InOrder.{in_order};

    ghost Value = { List (List ℕ) };

    ghost view = { λ p. p.names.items };

    ghost invariant = { λ p. in_order p.names.items ≡ true };
}

impl Plugins {
    /// No plugins, which takes no memory.
    pub fn new(alloc: Global) -> Plugins
        ensures { result ≡ [] }
    {
        Plugins {
            alloc,
            names: Vec::new(alloc),
        }
    }

    /// A copy of the plugins. Without one this takes no memory.
    pub fn copy(&self) -> Result<Plugins, AllocError>
        ensures same { IfOk result (λ p. p ≡ self.now) }
        ensures memory { OnErr result (0 < length self.now) }
    {
        if self.names.is_empty() {
            return Ok(Plugins::new(self.alloc));
        }
        let names = self.names.clone()?;
        Ok(Plugins {
            alloc: self.alloc,
            names,
        })
    }

    pub fn as_slice(&self) -> &[Name]
        ensures { result.now ≡ self.now }
    {
        self.names.as_slice()
    }

    /// Puts a plugin among the active ones; those that were. Refused by AlreadyActive.
    pub fn activate(&mut self, plugin: Name) -> Result<Plugins, SiteFault>
        ensures does { Turns result (activate_plugin plugin self.old) self.old self.new }
        ensures stood { IfOk result (λ names. names ≡ self.old) }
    {
        if has_name(self.names.as_slice(), &plugin) {
            return Err(SiteFault::AlreadyActive);
        }
        let mut names = self.copy()?;
        names.enter(plugin)?;
        Ok(mem::replace(self, names))
    }

    /// Takes a plugin off the active ones; those that were. Refused by NotActive.
    pub fn deactivate(&mut self, plugin: &Name) -> Result<Plugins, SiteFault>
        ensures does { Turns result (deactivate_plugin plugin.now self.old) self.old self.new }
        ensures stood { IfOk result (λ names. names ≡ self.old) }
    {
        if !has_name(self.names.as_slice(), plugin) {
            return Err(SiteFault::NotActive);
        }
        let mut names = self.copy()?;
        names.leave(plugin);
        Ok(mem::replace(self, names))
    }

    fn enter(&mut self, plugin: Name) -> Result<(), AllocError>
        ensures ok { OnOk result (self.new ≡ insert self.old (place_in plugin self.old) plugin) }
        ensures err { OnErr result (self.new ≡ self.old) }
    {
        let place = place_of(self.names.as_slice(), &plugin);
        self.names.insert(place, plugin)?;
        Ok(())
    }

    #[tactic(auto, using(crate::proofs::Halves::in_order_without))]
    fn leave(&mut self, plugin: &Name)
        ensures { self.new ≡ without plugin.now self.old }
    {
        take_out(&mut self.names, plugin);
    }
}

fn take_out(names: &mut Vec<Name>, name: &Name)
    ensures { names.new.items ≡ without name.now names.old.items }
{
    names.retain(|n| !n.is(name));
}

// Whether a name is among names in their order: it would be the last of those that aren't after it.
fn has_name(names: &[Name], name: &Name) -> bool
    requires { in_order names.now ≡ true }
    ensures { result ≡ is_active name.now names.now }
{
    let place = place_of(names, name);
    if place == 0 {
        return false;
    }
    names[place - 1].is(name)
}

// Where a name belongs among names in their order, by binary search.
fn place_of(names: &[Name], name: &Name) -> usize
    requires { in_order names.now ≡ true }
    ensures place { result ≡ place_in name.now names.now }
    ensures parts { IsPartitionPoint (λ n. not (is_before name.now n) ≡ true)
        (λ n. not (is_before name.now n) ≡ false) names.now result }
    ensures within { result ≤ length names.now }
{
    names.partition_point(|n| !is_before(name, n))
}

fn is_before(a: &Name, b: &Name) -> bool
    ensures { result ≡ is_before a.now b.now }
{
    match a.as_str().cmp(b.as_str()) {
        Ordering::Less => true,
        Ordering::Equal => false,
        Ordering::Greater => false,
    }
}
