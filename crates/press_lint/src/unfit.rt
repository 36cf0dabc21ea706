//! Values of a kit file that do not fit.

ghost use Rattle.std.specs.Prelude.{◌≡◌, IfOk, Some, codes, is_some, map, option_and_then, option_map, string_bytes};
ghost use Rattle.serde_json.specs.Find.{as_str, get};
ghost use Rattle.serde_json.specs.View.{view};
ghost use Rattle.press_kit.specs.Fields.{few_in, name_in as named};
ghost use Rattle.press_kit.specs.KitFile.{part_of};
ghost use Rattle.press_kit.specs.declared.place.Place.TheVariants as place;
ghost use Rattle.press_lint.specs.Unfit as spec;
ghost use Rattle.press_lint.specs.declared.wanted.Wanted.TheVariants.{Args, Every, HookName as AHookName, More, Skip, Times};

use crate::bad::name_in;
use crate::wanted::{Wanted, wanted_at};
use press_callbacks::Part;
use press_kit::{KitFileFault, Listed, Place, list, number32};
use press_text::{HookName, NameFault};
use serde_json::Value;
use std::alloc::{AllocError, Global};

fn tell_sort(value: &Value) -> &'static str
    ensures { result.now ≡ spec.tell_sort (view value.now) }
{
    if value.is_string() {
        "a text"
    } else if value.is_number() {
        "a number"
    } else if value.is_array() {
        "a list"
    } else if value.is_object() {
        "an object"
    } else if value.is_boolean() {
        "true or false"
    } else {
        "null"
    }
}

fn word_in(value: &Value) -> Option<&str>
    ensures { option_map (λ t. t.now) result
        ≡ option_and_then (named 32) (as_str (view value.now)) }
{
    name_in(value.as_str()?)
}

fn tell_subject(
    alloc: Global,
    word: Option<&str>,
    number: Option<u64>,
) -> Result<String, AllocError>
    ensures { IfOk result (λ t. string_bytes t
        ≡ spec.tell_subject (option_map (λ t. t.now) word.entry) number) }
{
    match (word, number) {
        (Some(word), _) => format!(in alloc; "\"{word}\" is "),
        (None, Some(number)) => format!(in alloc; "{number} is "),
        (None, None) => String::from_str(alloc, "it is "),
    }
}

/// A value as it is named in a message.
pub fn tell_found(alloc: Global, value: &Value) -> Result<String, AllocError>
    ensures { IfOk result (λ t. string_bytes t ≡ spec.tell_found (view value.now)) }
{
    let mut told = tell_subject(alloc, word_in(value), value.as_u64())?;
    told.push_str(tell_sort(value))?;
    Ok(told)
}

fn tell_value(alloc: Global, path: &str, value: &Value, wanted: &str) -> Result<String, AllocError>
    ensures { IfOk result (λ t. string_bytes t
        ≡ spec.tell_value path.now (view value.now) wanted.now) }
{
    let found = tell_found(alloc, value)?;
    format!(in alloc; "{path}: {found}, {wanted} is wanted")
}

fn item_path(alloc: Global, path: &str, n: usize) -> Result<String, AllocError>
    ensures { IfOk result (λ t. string_bytes t ≡ spec.item_path path.now n) }
{
    format!(in alloc; "{path}[{n}]")
}

fn is_part(alloc: Global, value: &Value) -> Result<bool, AllocError>
    ensures { IfOk result (λ b. b ≡ spec.is_read (part_of place.File (view value.now))) }
{
    match Part::read(alloc, Place::File, value) {
        Ok(_) => Ok(true),
        Err(KitFileFault::BadKitFile(_)) => Ok(false),
        Err(KitFileFault::NoMemory) => Err(AllocError),
    }
}

fn tell_part(alloc: Global, path: &str, n: usize, value: &Value) -> Result<String, AllocError>
    ensures { IfOk result (λ t. string_bytes t ≡ spec.tell_value
        (spec.item_path path.now n) (view value.now) (codes "a part")) }
{
    let path = item_path(alloc, path, n)?;
    tell_value(alloc, path.as_str(), value, "a part")
}

fn unfit_parts(alloc: Global, path: &str, items: &[Value]) -> Result<Option<String>, AllocError>
    ensures { IfOk result (λ told. option_map string_bytes told
        ≡ spec.unfit_parts path.now 0 (map view items.now)) }
{
    for n in 0..items.len() {
        if !is_part(alloc, &items[n])? {
            return Ok(Some(tell_part(alloc, path, n, &items[n])?));
        }
    }
    Ok(None)
}

// What is said of a value where another is wanted.
fn misfit(
    alloc: Global,
    wanted: Wanted,
    path: &str,
    value: &Value,
) -> Result<Option<String>, AllocError>
    ensures { IfOk result (λ told. option_map string_bytes told
        ≡ Some (spec.tell_value path.now (view value.now) (spec.tell_wanted wanted))) }
{
    let told = tell_value(alloc, path, value, wanted.words())?;
    Ok(Some(told))
}

fn unfit_text(alloc: Global, path: &str, value: &Value) -> Result<Option<String>, AllocError>
    ensures { IfOk result (λ told. option_map string_bytes told
        ≡ spec.unfit_text path.now (view value.now)) }
{
    match list(value) {
        Some(items) => unfit_parts(alloc, path, items),
        None => misfit(alloc, Wanted::Parts, path, value),
    }
}

fn unfit_item(
    alloc: Global,
    path: &str,
    n: usize,
    value: &Value,
) -> Result<Option<String>, AllocError>
    ensures { IfOk result (λ told. option_map string_bytes told
        ≡ spec.unfit_text (spec.item_path path.now n) (view value.now)) }
{
    let path = item_path(alloc, path, n)?;
    unfit_text(alloc, path.as_str(), value)
}

fn unfit_items(alloc: Global, path: &str, items: &[Value]) -> Result<Option<String>, AllocError>
    ensures { IfOk result (λ told. option_map string_bytes told
        ≡ spec.unfit_items path.now 0 (map view items.now)) }
{
    for n in 0..items.len() {
        let told = unfit_item(alloc, path, n, &items[n])?;
        if told.is_some() {
            return Ok(told);
        }
    }
    Ok(None)
}

// The values of an array of at most so many.
fn few(value: &Value, most: usize) -> Option<&[Value]>
    ensures { option_map (λ vs. map view vs.now) result ≡ few_in most (view value.now) }
{
    let values = list(value)?;
    if values.len() <= most {
        Some(values)
    } else {
        None
    }
}

fn unfit_more(alloc: Global, path: &str, value: &Value) -> Result<Option<String>, AllocError>
    ensures { IfOk result (λ told. option_map string_bytes told
        ≡ spec.unfit_few More path.now (view value.now) (few_in 2 (view value.now))) }
{
    match few(value, 2) {
        Some(items) => unfit_items(alloc, path, items),
        None => misfit(alloc, Wanted::More, path, value),
    }
}

fn unfit_args(alloc: Global, path: &str, value: &Value) -> Result<Option<String>, AllocError>
    ensures { IfOk result (λ told. option_map string_bytes told
        ≡ spec.unfit_few Args path.now (view value.now) (few_in 3 (view value.now))) }
{
    match few(value, 3) {
        Some(items) => unfit_items(alloc, path, items),
        None => misfit(alloc, Wanted::Args, path, value),
    }
}

fn tell_string(alloc: Global, path: &str, n: usize, value: &Value) -> Result<String, AllocError>
    ensures { IfOk result (λ t. string_bytes t ≡ spec.tell_value
        (spec.item_path path.now n) (view value.now) (codes "a text")) }
{
    let path = item_path(alloc, path, n)?;
    tell_value(alloc, path.as_str(), value, "a text")
}

fn unfit_strings(alloc: Global, path: &str, items: &[Value]) -> Result<Option<String>, AllocError>
    ensures { IfOk result (λ told. option_map string_bytes told
        ≡ spec.unfit_strings path.now 0 (map view items.now)) }
{
    for n in 0..items.len() {
        if !items[n].is_string() {
            return Ok(Some(tell_string(alloc, path, n, &items[n])?));
        }
    }
    Ok(None)
}

fn unfit_words(alloc: Global, path: &str, value: &Value) -> Result<Option<String>, AllocError>
    ensures { IfOk result (λ told. option_map string_bytes told
        ≡ spec.unfit_words path.now (view value.now)) }
{
    match list(value) {
        Some(items) => unfit_strings(alloc, path, items),
        None => misfit(alloc, Wanted::Words, path, value),
    }
}

fn is_count(value: &Value) -> bool
    ensures { result ≡ spec.fits Times (view value.now) }
{
    match value.as_u64() {
        Some(n) => 0 < n && n < 4294967296,
        None => false,
    }
}

fn is_hook_name(alloc: Global, text: &str) -> Result<bool, AllocError>
    ensures { IfOk result (λ b. b ≡ is_some (named 64 text.now)) }
{
    match HookName::new(alloc, text) {
        Ok(_) => Ok(true),
        Err(NameFault::NoMemory) => Err(AllocError),
        Err(NameFault::BadName | NameFault::TooLong) => Ok(false),
    }
}

fn has_hook_name(alloc: Global, value: &Value) -> Result<bool, AllocError>
    ensures { IfOk result (λ b. b ≡ spec.fits AHookName (view value.now)) }
{
    match value.as_str() {
        Some(text) => is_hook_name(alloc, text),
        None => Ok(false),
    }
}

fn is_recurrence(value: &Value) -> bool
    ensures { result ≡ spec.fits Every (view value.now) }
{
    match value.as_str() {
        Some(word) => word == "once" || word == "hourly" || word == "twicedaily" || word == "daily",
        None => false,
    }
}

fn is_skip(value: &Value) -> bool
    ensures { result ≡ spec.fits Skip (view value.now) }
{
    match value.as_u64() {
        Some(n) => n < 65536,
        None => false,
    }
}

fn fits(alloc: Global, wanted: Wanted, value: &Value) -> Result<bool, AllocError>
    ensures { IfOk result (λ b. b ≡ spec.fits wanted (view value.now)) }
{
    match wanted {
        Wanted::HookName => has_hook_name(alloc, value),
        Wanted::Name => Ok(word_in(value).is_some()),
        Wanted::Text => Ok(value.is_string()),
        Wanted::List => Ok(value.is_array()),
        Wanted::Priority => Ok(value.is_i64()),
        Wanted::Accepted => Ok(number32(value).is_some()),
        Wanted::Skip => Ok(is_skip(value)),
        Wanted::Seconds => Ok(value.is_u64()),
        Wanted::Every => Ok(is_recurrence(value)),
        Wanted::Times => Ok(is_count(value)),
        Wanted::Truth => Ok(value.is_boolean()),
        Wanted::Parts | Wanted::More | Wanted::Args | Wanted::Words => Ok(true),
    }
}

fn unless_fits(
    alloc: Global,
    wanted: Wanted,
    key: &str,
    value: &Value,
) -> Result<Option<String>, AllocError>
    ensures { IfOk result (λ told. option_map string_bytes told
        ≡ spec.unless_fits wanted key.now (view value.now)) }
{
    if fits(alloc, wanted, value)? {
        return Ok(None);
    }
    misfit(alloc, wanted, key, value)
}

fn unfit_inside(
    alloc: Global,
    wanted: Wanted,
    key: &str,
    value: &Value,
) -> Result<Option<String>, AllocError>
    ensures { IfOk result (λ told. option_map string_bytes told
        ≡ spec.unfit_inside wanted key.now (view value.now)) }
{
    match wanted {
        Wanted::Parts => unfit_text(alloc, key, value),
        Wanted::More => unfit_more(alloc, key, value),
        Wanted::Args => unfit_args(alloc, key, value),
        Wanted::Words => unfit_words(alloc, key, value),
        _ => Ok(None),
    }
}

fn unfit_value(
    alloc: Global,
    wanted: Wanted,
    key: &str,
    value: &Value,
) -> Result<Option<String>, AllocError>
    ensures { IfOk result (λ told. option_map string_bytes told
        ≡ spec.unfit_value wanted key.now (view value.now)) }
{
    let told = unfit_inside(alloc, wanted, key, value)?;
    if told.is_some() {
        return Ok(told);
    }
    unless_fits(alloc, wanted, key, value)
}

fn unfit_at(alloc: Global, at: Place, item: &Value, key: &str) -> Result<Option<String>, AllocError>
    ensures { IfOk result (λ told. option_map string_bytes told
        ≡ spec.unfit_where at key.now (get key.now (view item.now))) }
{
    match item.get(key) {
        Some(value) => unfit_value(alloc, wanted_at(at, key), key, value),
        None => Ok(None),
    }
}

/// What is said of the first value at one of these keys that does not fit there.
pub fn unfit(
    alloc: Global,
    at: Place,
    item: &Value,
    keys: &'static [&'static str],
) -> Result<Option<String>, AllocError>
    ensures { IfOk result (λ told. option_map string_bytes told
        ≡ spec.unfit at (view item.now) (map (λ k. k.now) keys.now)) }
{
    for i in 0..keys.len() {
        let told = unfit_at(alloc, at, item, keys[i])?;
        if told.is_some() {
            return Ok(told);
        }
    }
    Ok(None)
}
