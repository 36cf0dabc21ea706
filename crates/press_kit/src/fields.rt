//! The fields of an object.

ghost use Rattle.std.specs.Prelude.{◌≡◌, ◌≢◌, ◌^◌, ℕ, Err, Option, option_map, option_and_then, map};
ghost use Rattle.std.specs.List.{list_all};
ghost use Rattle.serde_json.specs.Find.{get, as_str};
ghost use Rattle.serde_json.specs.View.{view, members_view};
ghost use Rattle.press_text.specs.Gives.{Gives};
ghost use Rattle.press_kit.specs.Memory.{GrowsBehind};
ghost use Rattle.press_kit.specs.Refusals.{Refuses};
ghost use Rattle.press_kit.specs.Fields as spec;

use crate::fault::KitFileFault;
use crate::place::Place;
use press_text::{CallbackId, HookName, Name, NameFault, OptName, Tag, Text};
use serde_json::{Map, Value};
use std::alloc::Global;

fn is_one_of(keys: &[&str], key: &str) -> bool
    ensures { result ≡ spec.is_one_of (map (λ k. k.now) keys.now) key.now }
{
    keys.iter().any(|k| key == *k)
}

// Whether the keys of an object are all among these.
fn are_among(members: &Map<String, Value>, keys: &[&str]) -> bool
    ensures { result ≡ list_all (spec.is_one_of (map (λ k. k.now) keys.now))
        (spec.keys_in (members_view members.now.entries)) }
{
    members.keys().all(|k| is_one_of(keys, k.as_str()))
}

/// Whether the value is an object whose keys are all among these.
pub fn has_only(value: &Value, keys: &[&str]) -> bool
    ensures { result ≡ spec.has_only (map (λ k. k.now) keys.now) (view value.now) }
{
    match value.as_object() {
        None => false,
        Some(members) => are_among(members, keys),
    }
}

/// An object at a place, whose fields are read by their keys. What can't be read is bad at that
/// place.
#[derive(Clone, Copy)]
pub struct Fields<'v> {
    pub alloc: Global,
    pub at: Place,
    pub value: &'v Value,
}

impl<'v> Fields<'v> {
    /// Bad where there are other keys than these.
    pub fn has_only(&self, keys: &[&str]) -> Result<(), KitFileFault>
        ensures gives { Gives Refuses (λ _. Ok (view self.now.value.now)) result
            (spec.only self.now.at (map (λ k. k.now) keys.now) (view self.now.value.now)) }
        ensures memory { result ≢ Err KitFileFault.NoMemory }
    {
        if has_only(self.value, keys) {
            Ok(())
        } else {
            Err(KitFileFault::BadKitFile(self.at))
        }
    }

    fn str(&self, key: &str) -> Option<&'v str>
        ensures { option_map (λ s. s.now) result
            ≡ option_and_then as_str (get key.now (view self.now.value.now)) }
    {
        self.value.get(key).and_then(Value::as_str)
    }

    pub fn text(&self, key: &str) -> Result<Text, KitFileFault>
        ensures gives { Gives Refuses Ok result (spec.text_at self.now.at key.now
            (view self.now.value.now)) }
        ensures memory { GrowsBehind result
            (spec.text_at self.now.at key.now (view self.now.value.now)) }
    {
        let text = self.str(key).ok_or(self.at)?;
        Ok(Text::from_str(self.alloc, text)?)
    }

    /// The name of a hook.
    pub fn hook(&self, key: &str) -> Result<HookName, KitFileFault>
        ensures gives { Gives Refuses Ok result (spec.name_at 64 self.now.at key.now
            (view self.now.value.now)) }
        ensures memory { GrowsBehind result
            (spec.name_at 64 self.now.at key.now (view self.now.value.now)) }
    {
        let text = self.str(key).ok_or(self.at)?;
        match HookName::new(self.alloc, text) {
            Ok(name) => Ok(name),
            Err(NameFault::NoMemory) => Err(KitFileFault::NoMemory),
            Err(NameFault::BadName | NameFault::TooLong) => Err(KitFileFault::BadKitFile(self.at)),
        }
    }

    /// The name of a callback.
    pub fn callback(&self, key: &str) -> Result<CallbackId, KitFileFault>
        ensures gives { Gives Refuses Ok result (spec.name_at 32 self.now.at key.now
            (view self.now.value.now)) }
        ensures memory { result ≢ Err KitFileFault.NoMemory }
    {
        let text = self.str(key).ok_or(self.at)?;
        match CallbackId::new(text) {
            Ok(name) => Ok(name),
            Err(_) => Err(KitFileFault::BadKitFile(self.at)),
        }
    }

    /// The name of a plugin.
    pub fn name(&self, key: &str) -> Result<Name, KitFileFault>
        ensures gives { Gives Refuses Ok result (spec.name_at 32 self.now.at key.now
            (view self.now.value.now)) }
        ensures memory { GrowsBehind result
            (spec.name_at 32 self.now.at key.now (view self.now.value.now)) }
    {
        let text = self.str(key).ok_or(self.at)?;
        match Name::new(self.alloc, text) {
            Ok(name) => Ok(name),
            Err(NameFault::NoMemory) => Err(KitFileFault::NoMemory),
            Err(NameFault::BadName | NameFault::TooLong) => Err(KitFileFault::BadKitFile(self.at)),
        }
    }

    /// The name of an option.
    pub fn option(&self, key: &str) -> Result<OptName, KitFileFault>
        ensures gives { Gives Refuses Ok result (spec.name_at 32 self.now.at key.now
            (view self.now.value.now)) }
        ensures memory { GrowsBehind result
            (spec.name_at 32 self.now.at key.now (view self.now.value.now)) }
    {
        let text = self.str(key).ok_or(self.at)?;
        match OptName::new(self.alloc, text) {
            Ok(name) => Ok(name),
            Err(NameFault::NoMemory) => Err(KitFileFault::NoMemory),
            Err(NameFault::BadName | NameFault::TooLong) => Err(KitFileFault::BadKitFile(self.at)),
        }
    }

    pub fn number(&self, key: &str) -> Result<u64, KitFileFault>
        ensures gives { Gives Refuses Ok result (spec.number_at self.now.at key.now
            (view self.now.value.now)) }
        ensures memory { result ≢ Err KitFileFault.NoMemory }
    {
        let told = self.value.get(key).and_then(Value::as_u64);
        Ok(told.ok_or(self.at)?)
    }

    /// The name of a shortcode.
    pub fn tag(&self, key: &str) -> Result<Tag, KitFileFault>
        ensures gives { Gives Refuses Ok result (spec.name_at 32 self.now.at key.now
            (view self.now.value.now)) }
        ensures memory { GrowsBehind result
            (spec.name_at 32 self.now.at key.now (view self.now.value.now)) }
    {
        let text = self.str(key).ok_or(self.at)?;
        match Tag::new(self.alloc, text) {
            Ok(name) => Ok(name),
            Err(NameFault::NoMemory) => Err(KitFileFault::NoMemory),
            Err(NameFault::BadName | NameFault::TooLong) => Err(KitFileFault::BadKitFile(self.at)),
        }
    }

    /// The priority; 10, as in WordPress, where none is given.
    pub fn priority(&self) -> Result<i64, KitFileFault>
        ensures gives { Gives Refuses Ok result
            (spec.priority_at self.now.at (view self.now.value.now)) }
        ensures memory { result ≢ Err KitFileFault.NoMemory }
    {
        match self.value.get("priority") {
            None => Ok(10),
            Some(told) => Ok(told.as_i64().ok_or(self.at)?),
        }
    }

    /// How many arguments are accepted; 1, as in WordPress, where none is given.
    pub fn accepted_count(&self) -> Result<u32, KitFileFault>
        ensures gives { Gives Refuses Ok result
            (spec.accepted_at self.now.at (view self.now.value.now)) }
        ensures memory { result ≢ Err KitFileFault.NoMemory }
    {
        match self.value.get("accepted") {
            None => Ok(1),
            Some(told) => Ok(number32(told).ok_or(self.at)?),
        }
    }

    /// The values of a list.
    pub fn list(&self, key: &str) -> Result<&'v [Value], KitFileFault>
        ensures gives { Gives Refuses (λ vs. Ok (map view vs.now)) result
            (spec.list_at self.now.at key.now (view self.now.value.now)) }
        ensures memory { result ≢ Err KitFileFault.NoMemory }
    {
        Ok(self.value.get(key).and_then(list).ok_or(self.at)?)
    }
}

/// A number below 2^32.
pub fn number32(value: &Value) -> Option<u32>
    ensures { result ≡ option_and_then (spec.below (2 ^ 32)) (spec.number_in (view value.now)) }
{
    match value.as_u64() {
        None => None,
        Some(n) => u32::try_from(n).ok(),
    }
}

/// The values of an array.
pub fn list(value: &Value) -> Option<&[Value]>
    ensures { option_map (λ vs. map view vs.now) result ≡ spec.list_in (view value.now) }
{
    match value.as_array() {
        None => None,
        Some(values) => Some(values.as_slice()),
    }
}

/// The values of an array of at most so many.
pub fn few(value: &Value, most: usize) -> Option<&[Value]>
    ensures { option_map (λ vs. map view vs.now) result ≡ spec.few_in most (view value.now) }
{
    let values = list(value)?;
    if values.len() <= most {
        Some(values)
    } else {
        None
    }
}
