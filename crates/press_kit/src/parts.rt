//! Texts as lists of parts.

ghost use Rattle.std.specs.Prelude.{◌≡◌, Err, IsSome, option_map, option_and_then, codes};
ghost use Rattle.serde_json.specs.Find.{get};
ghost use Rattle.serde_json.specs.View.{view};
ghost use Rattle.press_text.specs.Gives.{Gives};
ghost use Rattle.press_kit.specs.Refusals.{Refuses};
ghost use Rattle.press_kit.specs.Fields.{or_bad};
ghost use Rattle.press_kit.specs.KitFile as spec;

use crate::fault::KitFileFault;
use crate::fields::{Fields, few, has_only, list, number32};
use crate::listed::{Listed, each};
use crate::place::Place;
use press_callbacks::{Part, Parts, Source};
use press_scan::AttKey;
use press_text::{Items, Text};
use serde_json::Value;
use std::alloc::Global;

// What a part is taken from.
fn source_of(name: &str) -> Option<Source>
    ensures { result ≡ spec.source_of name.now }
{
    if name == "content" {
        Some(Source::Content)
    } else if name == "tag" {
        Some(Source::Tag)
    } else if name == "value" {
        Some(Source::Value)
    } else if name == "last" {
        Some(Source::Last)
    } else {
        None
    }
}

fn from_in(value: &Value) -> Option<Source>
    ensures { result ≡ spec.from_in (view value.now) }
{
    match value.get("from").and_then(Value::as_str) {
        None => None,
        Some(name) => source_of(name),
    }
}

fn arg_in(value: &Value) -> Option<Source>
    ensures { result ≡ spec.arg_in (view value.now) }
{
    match value.get("arg").and_then(Value::as_u64) {
        None => None,
        Some(n) => Some(Source::Arg(n as usize)),
    }
}

fn att_key(alloc: Global, at: Place, value: &Value) -> Result<AttKey, KitFileFault>
    ensures gives { Gives Refuses Ok result (or_bad at (spec.att_key_of (view value.now))) }
    ensures memory { result ≡ Err KitFileFault.NoMemory
        → IsSome (spec.att_key_of (view value.now)) }
{
    match value.as_str() {
        Some(name) => Ok(AttKey::Name(Text::from_str(alloc, name)?)),
        None => Ok(AttKey::Place(number32(value).ok_or(at)?)),
    }
}

fn att_in(alloc: Global, at: Place, value: &Value) -> Result<Source, KitFileFault>
    ensures gives { Gives Refuses Ok result (or_bad at (spec.att_in (view value.now))) }
    ensures memory { result ≡ Err KitFileFault.NoMemory → IsSome (spec.att_in (view value.now)) }
{
    let key = value.get("att").ok_or(at)?;
    Ok(Source::Att(att_key(alloc, at, key)?))
}

// The source of an object with one key.
#[tactic(auto, unfolding(crate::specs::KitFile::source_in))]
fn source_in(alloc: Global, at: Place, value: &Value) -> Result<Source, KitFileFault>
    ensures gives { Gives Refuses Ok result (or_bad at (spec.source_in (view value.now))) }
    ensures memory { result ≡ Err KitFileFault.NoMemory
        → IsSome (spec.source_in (view value.now)) }
{
    if has_only(value, &["arg"]) {
        Ok(arg_in(value).ok_or(at)?)
    } else if has_only(value, &["att"]) {
        att_in(alloc, at, value)
    } else if has_only(value, &["from"]) {
        Ok(from_in(value).ok_or(at)?)
    } else {
        Err(KitFileFault::BadKitFile(at))
    }
}

fn raw_in(alloc: Global, at: Place, value: &Value) -> Result<Part, KitFileFault>
    ensures gives { Gives Refuses Ok result (or_bad at (spec.raw_in (view value.now))) }
    ensures memory { result ≡ Err KitFileFault.NoMemory → IsSome (spec.raw_in (view value.now)) }
{
    Ok(Part::Raw(source_in(alloc, at, value)?))
}

fn escaped_in(alloc: Global, at: Place, value: &Value) -> Result<Part, KitFileFault>
    ensures gives { Gives Refuses Ok result (or_bad at (spec.escaped_in (view value.now))) }
    ensures memory { result ≡ Err KitFileFault.NoMemory
        → IsSome (spec.escaped_in (view value.now)) }
{
    let source = value.get("escaped").ok_or(at)?;
    Ok(Part::Escaped(source_in(alloc, at, source)?))
}

// A part that is read of the call.
fn keyed_part(alloc: Global, at: Place, value: &Value) -> Result<Part, KitFileFault>
    ensures gives { Gives Refuses Ok result (or_bad at (spec.keyed_part (view value.now))) }
    ensures memory { result ≡ Err KitFileFault.NoMemory
        → IsSome (spec.keyed_part (view value.now)) }
{
    if has_only(value, &["escaped"]) {
        escaped_in(alloc, at, value)
    } else {
        raw_in(alloc, at, value)
    }
}

impl Listed for Part {
    ghost read = { spec.part_of };

    fn read(alloc: Global, at: Place, value: &Value) -> Result<Part, KitFileFault> {
        match value.as_str() {
            Some(text) => Ok(Part::Lit(Text::from_str(alloc, text)?)),
            None => keyed_part(alloc, at, value),
        }
    }
}

impl Listed for Parts {
    ghost read = { spec.text_of };

    fn read(alloc: Global, at: Place, value: &Value) -> Result<Parts, KitFileFault> {
        let values = list(value).ok_or(at)?;
        each(alloc, at, values)
    }
}

impl<'v> Fields<'v> {
    /// A text by its parts.
    pub fn parts(&self, key: &str) -> Result<Parts, KitFileFault>
        ensures { Gives Refuses Ok result (spec.parts_at self.now.at key.now
            (view self.now.value.now)) }
    {
        let value = self.value.get(key).ok_or(self.at)?;
        Parts::read(self.alloc, self.at, value)
    }

    /// At most so many texts by their parts; none where the key is missing.
    pub fn texts(&self, key: &str, most: usize) -> Result<Items<Parts>, KitFileFault>
        ensures { Gives Refuses Ok result (spec.texts_at most self.now.at key.now
            (view self.now.value.now)) }
    {
        match self.value.get(key) {
            None => Ok(Items::new(self.alloc)),
            Some(told) => {
                let values = few(told, most).ok_or(self.at)?;
                each(self.alloc, self.at, values)
            }
        }
    }
}
