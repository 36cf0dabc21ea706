ghost use Rattle.std.specs.Prelude.{◌≡◌, [], ◌∷◌, ◌<◌, ◌++◌, length, None, Some, Ok, Err, false, bytes_eq, IfOk, IfErr, OnOk, OnErr, map, option_map, codes, string_bytes};
ghost use Rattle.press_site.specs.Sets.{Changes, Sets, set_back};
ghost use Rattle.press_site.specs.Options.{SetsSome, option_of, set_option_of, put_back, put_option, set_option, set_over, option_add_fire, option_update_fire, option_add_name, option_update_name};
ghost use Rattle.press_site.specs.declared.fault.SiteFault.TheVariants.{NoMemory};

use crate::fault::SiteFault;
use press_posts::Fire;
use press_text::{HookName, Items, OptName, Text, Texts};
use std::alloc::{AllocError, Global};
use std::collections::BTreeMap;
use std::marker::Model;
use std::mem;

const MOST_OPTIONS: usize = 1024;

const MOST_VALUE: usize = 4096;

/// Options by name.
#[derive(Debug)]
pub struct Options {
    alloc: Global,
    values: BTreeMap<String, Text>,
}

impl Drop for Options {
    fn drop(self) {
        let Options {
            alloc: _,
            values: _,
        } = self;
    }
}

impl Model for Options {
    ghost use Rattle.std.specs.Prelude.{ℕ, List};
    ghost use Rattle.press_site.specs.Options.{by_bytes};

    ghost Value = { List (List ℕ × List ℕ) };

    ghost view = { λ o. by_bytes o.values.entries };
}

/// An option that is set, with its value.
#[derive(Debug, Drop)]
pub struct SetOption {
    pub name: Text,
    pub value: Text,
}

/// What the setting of an option fires, and the value that stood, if one did.
#[derive(Debug, Drop)]
pub struct SetDone {
    pub fires: Items<Fire>,
    pub stood: Option<Text>,
}

impl Options {
    /// No options, which takes no memory.
    pub fn new(alloc: Global) -> Options
        ensures { result ≡ [] }
    {
        Options {
            alloc,
            values: BTreeMap::new(alloc),
        }
    }

    /// A copy of the options. Without one this takes no memory.
    pub fn copy(&self) -> Result<Options, AllocError>
        ensures same { IfOk result (λ o. o ≡ self.now) }
        ensures memory { OnErr result (0 < length self.now) }
    {
        if self.values.is_empty() {
            return Ok(Options::new(self.alloc));
        }
        let values = self.values.clone()?;
        Ok(Options {
            alloc: self.alloc,
            values,
        })
    }

    /// All of them, in the order of the bytes of their names.
    pub fn all(&self) -> Result<Items<SetOption>, AllocError>
        ensures { IfOk result (λ all. all ≡ map set_option_of self.now) }
    {
        let mut all = Vec::new(self.alloc);
        for (name, value) in self.values.iter() {
            let name = Text::from_str(self.alloc, name)?;
            let value = value.copy(self.alloc)?;
            all.push(SetOption { name, value })?;
        }
        Ok(Items::from_vec(all))
    }

    /// The value of an option.
    pub fn get(&self, name: &OptName) -> Option<&str>
        ensures { option_map (λ v. v.now) result ≡ option_of name.now self.now }
    {
        match self.value(name.as_str()) {
            Some(value) => Some(value.as_str()),
            None => None,
        }
    }

    /// Gives an option a value: what that fires and what stood, or None where it has that value
    /// already. Refused by TooLong, then TooManyOptions. What it takes of memory doesn't grow with
    /// the other options.
    pub fn set(&mut self, name: &OptName, value: Text) -> Result<Option<SetDone>, SiteFault>
        ensures does { Sets result (set_option name.now value self.old) self.old self.new }
        ensures back { IfOk result (λ s. set_back name.now s self.new ≡ self.old) }
        ensures memory { result ≡ Err NoMemory → SetsSome (set_option name.now value self.old) }
    {
        if value.len() > MOST_VALUE {
            return Err(SiteFault::TooLong);
        }
        let Some(stands) = self.values.get_mut(name.as_str()) else {
            return self.add(name, value);
        };
        change(self.alloc, name, stands, value)
    }

    /// Puts an option back as it stood: with that value, or out where it had none. Takes no memory.
    pub fn restore(&mut self, name: &OptName, stood: Option<Text>)
        ensures { self.new ≡ put_back name.now stood self.old }
    {
        match stood {
            Some(value) => self.replace(name.as_str(), value),
            None => self.remove(name.as_str()),
        }
    }

    fn add(&mut self, name: &OptName, value: Text) -> Result<Option<SetDone>, SiteFault>
        requires { option_of name.now self.old ≡ None }
        ensures does { Sets result (set_over None name.now value self.old) self.old self.new }
        ensures back { IfOk result (λ s. set_back name.now s self.new ≡ self.old) }
    {
        if self.values.len() >= MOST_OPTIONS {
            return Err(SiteFault::TooManyOptions);
        }
        let fire = option_add_fire(self.alloc, name, value.as_str())?;
        let fires = Items::from_vec(vec![in self.alloc; fire]?);
        self.put(name.as_str(), value)?;
        let stood = None;
        Ok(Some(SetDone { fires, stood }))
    }

    fn value(&self, name: &str) -> Option<&Text>
        ensures { option_map (λ v. v.now) result ≡ option_of name.now self.now }
    {
        self.values.get(name)
    }

    // Puts an option in that isn't there.
    fn put(&mut self, name: &str, value: Text) -> Result<(), AllocError>
        requires { option_of name.now self.old ≡ None }
        ensures ok { OnOk result (self.new ≡ put_option name.now value self.old) }
        ensures back { OnOk result (put_back name.now None self.new ≡ self.old) }
        ensures err { OnErr result (self.new ≡ self.old) }
    {
        let name = String::from_str(self.alloc, name)?;
        self.values.insert(name, value)?;
        Ok(())
    }

    // Gives an option that is there another value.
    fn replace(&mut self, name: &str, value: Text)
        ensures { self.new ≡ put_back name.now (Some value) self.old }
    {
        if let Some(stands) = self.values.get_mut(name) {
            *stands = value;
        }
    }

    fn remove(&mut self, name: &str)
        ensures { self.new ≡ put_back name.now None self.old }
    {
        drop(self.values.remove(name));
    }
}

// Gives an option that is there a value; what that fires and what stood, or None where it is the
// same.
fn change(
    alloc: Global,
    name: &OptName,
    stands: &mut Text,
    value: Text,
) -> Result<Option<SetDone>, SiteFault>
    ensures ok { IfOk result (λ s. Changes name.now value s stands.old stands.new) }
    ensures err { IfErr result (λ f. (f ≡ NoMemory) × (stands.new ≡ stands.old)) }
    ensures memory { OnErr result (bytes_eq stands.old value ≡ false) }
{
    if stands.as_str() == value.as_str() {
        return Ok(None);
    }
    let fire = option_update_fire(alloc, name, stands.as_str(), value.as_str())?;
    let fires = Items::from_vec(vec![in alloc; fire]?);
    let stood = Some(mem::replace(stands, value));
    Ok(Some(SetDone { fires, stood }))
}

fn option_update_fire(
    alloc: Global,
    name: &OptName,
    old: &str,
    new: &str,
) -> Result<Fire, AllocError>
    ensures { IfOk result (λ f. f ≡ option_update_fire name.now old.now new.now) }
{
    let old = Text::from_str(alloc, old)?;
    let new = Text::from_str(alloc, new)?;
    let last = Text::from_str(alloc, name.as_str())?;
    let args = Texts::from_vec(vec![in alloc; old, new, last]?)?;
    Ok(Fire {
        hook: option_update_hook(alloc, name)?,
        args,
    })
}

fn option_add_fire(alloc: Global, name: &OptName, value: &str) -> Result<Fire, AllocError>
    ensures { IfOk result (λ f. f ≡ option_add_fire name.now value.now) }
{
    let first = Text::from_str(alloc, name.as_str())?;
    let value = Text::from_str(alloc, value)?;
    let args = Texts::from_vec(vec![in alloc; first, value]?)?;
    Ok(Fire {
        hook: option_add_hook(alloc, name)?,
        args,
    })
}

#[tactic(auto, using(crate::proofs::Hooks::updated_fits))]
fn option_update_hook(alloc: Global, name: &OptName) -> Result<HookName, AllocError>
    ensures { IfOk result (λ h. h ≡ option_update_name name.now) }
{
    let hook = option_update_name(alloc, name.as_str())?;
    HookName::from_valid(alloc, hook.as_str())
}

fn option_update_name(alloc: Global, name: &str) -> Result<String, AllocError>
    ensures { IfOk result (λ t. string_bytes t ≡ option_update_name name.now) }
{
    format!(in alloc; "update_option_{name}")
}

#[tactic(auto, using(crate::proofs::Hooks::added_fits))]
fn option_add_hook(alloc: Global, name: &OptName) -> Result<HookName, AllocError>
    ensures { IfOk result (λ h. h ≡ option_add_name name.now) }
{
    let hook = option_add_name(alloc, name.as_str())?;
    HookName::from_valid(alloc, hook.as_str())
}

fn option_add_name(alloc: Global, name: &str) -> Result<String, AllocError>
    ensures { IfOk result (λ t. string_bytes t ≡ option_add_name name.now) }
{
    format!(in alloc; "add_option_{name}")
}
