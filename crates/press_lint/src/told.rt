//! Places in a kit, as its author sees them.

ghost use Rattle.std.specs.Prelude.{◌≡◌, IfOk, option_map, string_bytes};
ghost use Rattle.press_lint.specs.Mistakes.{tell_mistake, tell_why};
ghost use Rattle.press_lint.specs.Told as spec;

use crate::mistake::{Mistake, Sort, Why};
use press_callbacks::Plugin;
use press_kit::{KitParts, Place, Scripted};
use press_text::CallbackId;
use std::alloc::{AllocError, Global};
use std::str::from_utf8;

/// The name as a text: its bytes are ASCII.
pub fn text_of(id: &CallbackId) -> &str
    ensures { result.now ≡ id.now }
{
    match from_utf8(id.as_bytes()) {
        Ok(text) => text,
        Err(_) => unreachable!(),
    }
}

fn callback_name(callbacks: &[Scripted], n: usize) -> Option<&str>
    ensures { option_map (λ t. t.now) result ≡ spec.callback_name callbacks.now n }
{
    match callbacks.get(n) {
        Some(callback) => Some(text_of(&callback.id)),
        None => None,
    }
}

fn plugin_name(plugins: &[Plugin], n: usize) -> Option<&str>
    ensures { option_map (λ t. t.now) result ≡ spec.plugin_name plugins.now n }
{
    match plugins.get(n) {
        Some(plugin) => Some(plugin.name.as_str()),
        None => None,
    }
}

/// The name of what is at a place.
pub fn name_at(kit: &KitParts, at: Place) -> Option<&str>
    ensures { option_map (λ t. t.now) result ≡ spec.name_at kit.now at }
{
    match at {
        Place::Callback(n) | Place::Op { callback: n, .. } => {
            callback_name(kit.callbacks.as_slice(), n)
        }
        Place::Plugin(n) | Place::Load { plugin: n, .. } => plugin_name(kit.plugins.as_slice(), n),
        _ => None,
    }
}

fn quote(alloc: Global, name: Option<&str>) -> Result<String, AllocError>
    ensures { IfOk result (λ t. string_bytes t
        ≡ spec.quoted_name (option_map (λ t. t.now) name.entry)) }
{
    match name {
        Some(name) => format!(in alloc; " \"{name}\""),
        None => Ok(String::new(alloc)),
    }
}

/// A place of something of that name, as the beginning of a line about it.
pub fn tell_place(alloc: Global, name: Option<&str>, at: Place) -> Result<String, AllocError>
    ensures { IfOk result (λ t. string_bytes t
        ≡ spec.tell_place (option_map (λ t. t.now) name.entry) at) }
{
    let name = quote(alloc, name)?;
    match at {
        Place::Callback(n) => format!(in alloc; "callbacks[{n}]{name}: "),
        Place::Op { callback, op } => {
            format!(in alloc; "callbacks[{callback}]{name}: script[{op}] ")
        }
        Place::Plugin(n) => format!(in alloc; "plugins[{n}]{name}: "),
        Place::Load { plugin, load } => format!(in alloc; "plugins[{plugin}]{name}: load[{load}] "),
        _ => {
            let place = at.text(alloc)?;
            format!(in alloc; "{place}: ")
        }
    }
}

/// A place in a kit, as the beginning of a line about it.
pub fn place_in(alloc: Global, kit: &KitParts, at: Place) -> Result<String, AllocError>
    ensures { IfOk result (λ t. string_bytes t ≡ spec.place_in kit.now at) }
{
    tell_place(alloc, name_at(kit, at), at)
}

fn tell_why(alloc: Global, why: &Why) -> Result<String, AllocError>
    ensures { IfOk result (λ t. string_bytes t ≡ tell_why why.now) }
{
    match why {
        Why::SameName => String::from_str(alloc, "a later one has the same name"),
        Why::BuiltInName => String::from_str(alloc, "this is the name of a built-in callback"),
        Why::Unknown(id) => {
            let id = text_of(id);
            format!(in alloc; "names a callback that is not in the kit: \"{id}\"")
        }
        Why::TooMany(Sort::Hooks) => {
            String::from_str(alloc, "more than 1000 loads on hooks in all")
        }
        Why::TooMany(Sort::Tags) => String::from_str(alloc, "more than 128 loads of tags in all"),
    }
}

impl Mistake {
    /// The message to the author: where it is in the kit, and what is wrong there.
    pub fn tell(&self, alloc: Global, kit: &KitParts) -> Result<String, AllocError>
        ensures { IfOk result (λ t. string_bytes t ≡ tell_mistake kit.now self.now) }
    {
        let mut line = place_in(alloc, kit, self.at)?;
        let why = tell_why(alloc, &self.why)?;
        line.push_str(why.as_str())?;
        Ok(line)
    }
}
