//! Files that are no kit files.

ghost use Rattle.std.specs.Prelude.{◌≡◌, ◌++◌, IfOk, IfSome, IsSome, IsUtf8, None, codes, map, option_and_then, option_map, string_bytes};
ghost use Rattle.serde_json.specs.Find.{as_object, as_str, get};
ghost use Rattle.serde_json.specs.Read.{read as read_text};
ghost use Rattle.serde_json.specs.View.{view};
ghost use Rattle.press_kit.specs.Fields.{name_in as named};
ghost use Rattle.press_lint.specs.Bad as spec;
ghost use Rattle.press_lint.specs.Unfit.{tell_found as found_in, unfit as misfit_in};

use crate::keys::{keys_for, missing_key, unknown_key};
use crate::told::tell_place;
use crate::unfit::{tell_found, unfit};
use crate::wanted::Wanted;
use press_kit::{FILE_LIMIT, Place, list};
use press_text::CallbackId;
use serde_json::Value;
use std::alloc::{AllocError, Global};

/// A text that may be the name of a callback or of a plugin.
pub fn name_in(text: &str) -> Option<&str>
    ensures { option_map (λ t. t.now) result ≡ named 32 text.now }
{
    match CallbackId::new(text) {
        Ok(_) => Some(text),
        Err(_) => None,
    }
}

fn name_of(item: &Value) -> Option<&str>
    ensures { option_map (λ t. t.now) result ≡ spec.name_of (view item.now) }
{
    name_in(item.get("name")?.as_str()?)
}

// An item of a list.
fn item_in<'v>(whole: &'v Value, name: &str, n: usize) -> Option<&'v Value>
    ensures { option_map (λ v. view v.now) result ≡ spec.item_in name.now n (view whole.now) }
{
    let items = list(whole.get(name)?)?;
    items.get(n)
}

// The callback or the plugin that a place is of.
fn owner_where(kit: &Value, at: Place) -> Option<&Value>
    ensures { option_map (λ v. view v.now) result ≡ spec.owner_where (view kit.now) at }
{
    match at {
        Place::Callback(n) | Place::Op { callback: n, .. } => item_in(kit, "callbacks", n),
        Place::Plugin(n) | Place::Load { plugin: n, .. } => item_in(kit, "plugins", n),
        _ => None,
    }
}

fn op_where(kit: &Value, callback: usize, op: usize) -> Option<&Value>
    ensures { option_map (λ v. view v.now) result
        ≡ option_and_then (spec.item_in (codes "script") op)
        (spec.callback_where (view kit.now) callback) }
{
    item_in(item_in(kit, "callbacks", callback)?, "script", op)
}

fn load_where(kit: &Value, plugin: usize, load: usize) -> Option<&Value>
    ensures { option_map (λ v. view v.now) result
        ≡ option_and_then (spec.item_in (codes "load") load)
        (spec.plugin_where (view kit.now) plugin) }
{
    item_in(item_in(kit, "plugins", plugin)?, "load", load)
}

// The value at a place.
fn item_where(kit: &Value, at: Place) -> Option<&Value>
    ensures { option_map (λ v. view v.now) result ≡ spec.item_where (view kit.now) at }
{
    match at {
        Place::Callback(n) => item_in(kit, "callbacks", n),
        Place::Op { callback, op } => op_where(kit, callback, op),
        Place::Plugin(n) => item_in(kit, "plugins", n),
        Place::Load { plugin, load } => load_where(kit, plugin, load),
        Place::ActiveName(n) => item_in(kit, "active", n),
        Place::Page(n) => item_in(kit, "pages", n),
        Place::Play(n) => item_in(kit, "plays", n),
        Place::File => Some(kit),
        _ => None,
    }
}

fn name_where(kit: &Value, at: Place) -> Option<&str>
    ensures { option_map (λ t. t.now) result ≡ spec.name_where (view kit.now) at }
{
    name_of(owner_where(kit, at)?)
}

/// A word of the file after a text, if it could be a name.
pub fn quote_name(alloc: Global, text: &str, word: &str) -> Result<String, AllocError>
    ensures { IfOk result (λ t. string_bytes t ≡ text.now ++ spec.quoted_if_name word.now) }
{
    match name_in(word) {
        Some(word) => format!(in alloc; "{text} \"{word}\""),
        None => String::from_str(alloc, text),
    }
}

fn tell_lacking(alloc: Global, key: &str) -> Result<String, AllocError>
    ensures { IfOk result (λ t. string_bytes t
        ≡ codes "lacks \"" ++ (key.now ++ codes "\"")) }
{
    format!(in alloc; "lacks \"{key}\"")
}

fn tell_unfit(
    alloc: Global,
    at: Place,
    item: &Value,
    keys: &'static [&'static str],
) -> Result<String, AllocError>
    ensures { IfOk result (λ t. string_bytes t
        ≡ spec.tell_unfit (misfit_in at (view item.now) (map (λ k. k.now) keys.now))) }
{
    match unfit(alloc, at, item, keys)? {
        Some(told) => Ok(told),
        None => String::from_str(alloc, "a value does not fit"),
    }
}

fn tell_missing(
    alloc: Global,
    at: Place,
    item: &Value,
    keys: &'static [&'static str],
) -> Result<String, AllocError>
    ensures { IfOk result (λ t. string_bytes t
        ≡ spec.tell_missing (spec.missing_key (map (λ k. k.now) keys.now) (view item.now))
        (spec.tell_unfit (misfit_in at (view item.now) (map (λ k. k.now) keys.now)))) }
{
    match missing_key(item, keys) {
        Some(key) => tell_lacking(alloc, key),
        None => tell_unfit(alloc, at, item, keys),
    }
}

fn tell_members(
    alloc: Global,
    at: Place,
    item: &Value,
    keys: &'static [&'static str],
) -> Result<String, AllocError>
    ensures { IfOk result (λ t. string_bytes t
        ≡ spec.tell_members at (map (λ k. k.now) keys.now) (view item.now)
        (as_object (view item.now))) }
{
    let Some(members) = item.as_object() else {
        return String::from_str(alloc, "no object");
    };
    match unknown_key(members, keys) {
        Some(key) => quote_name(alloc, "unknown key", key.as_str()),
        None => tell_missing(alloc, at, item, keys),
    }
}

fn tell_op(alloc: Global, item: &Value) -> Result<String, AllocError>
    ensures { IfOk result (λ t. string_bytes t
        ≡ spec.tell_op (option_and_then as_str (get (codes "op") (view item.now)))) }
{
    match item.get("op").and_then(Value::as_str) {
        Some(op) => quote_name(alloc, "unknown op", op),
        None => String::from_str(alloc, "no op"),
    }
}

fn why_bad(alloc: Global, at: Place, item: &Value) -> Result<String, AllocError>
    ensures { IfOk result (λ t. string_bytes t
        ≡ spec.why_bad at (view item.now) (spec.keys_for at (view item.now))) }
{
    match keys_for(at, item) {
        Some(keys) => tell_members(alloc, at, item, keys),
        None => tell_op(alloc, item),
    }
}

fn bare_wanted(at: Place) -> Option<&'static str>
    ensures { option_map (λ t. t.now) result ≡ spec.bare_wanted at }
{
    match at {
        Place::ActiveName(_) => Some(Wanted::Name.words()),
        Place::Page(_) => Some("front, post:ID, json:ID or result:EDITOR/SEQ"),
        _ => None,
    }
}

fn tell_bare(alloc: Global, wanted: &str, item: &Value) -> Result<String, AllocError>
    ensures { IfOk result (λ t. string_bytes t ≡ found_in (view item.now)
        ++ (codes ", " ++ (wanted.now ++ codes " is wanted"))) }
{
    let found = tell_found(alloc, item)?;
    format!(in alloc; "{found}, {wanted} is wanted")
}

fn tell_why(alloc: Global, at: Place, item: &Value) -> Result<String, AllocError>
    ensures { IfOk result (λ t. string_bytes t
        ≡ spec.tell_bare (spec.bare_wanted at) (view item.now)
        (spec.why_bad at (view item.now) (spec.keys_for at (view item.now)))) }
{
    match bare_wanted(at) {
        Some(wanted) => tell_bare(alloc, wanted, item),
        None => why_bad(alloc, at, item),
    }
}

fn tell_item(alloc: Global, kit: &Value, at: Place) -> Result<String, AllocError>
    ensures { IfOk result (λ t. string_bytes t
        ≡ spec.tell_item at (spec.item_where (view kit.now) at)) }
{
    match item_where(kit, at) {
        Some(item) => {
            let why = tell_why(alloc, at, item)?;
            format!(in alloc; "is bad: {why}")
        }
        None => String::from_str(alloc, "is bad"),
    }
}

fn is_file(at: Place) -> bool
    ensures { result ≡ spec.is_file at }
{
    matches!(at, Place::File)
}

fn is_play(value: &Value) -> bool
    ensures { result ≡ spec.is_play (view value.now) }
{
    value.get("kit").is_some() || value.get("plays").is_some()
}

fn tell_what(alloc: Global, kit: &Value, at: Place) -> Result<String, AllocError>
    ensures { IfOk result (λ t. string_bytes t ≡ spec.tell_what (view kit.now) at) }
{
    if is_file(at) && is_play(kit) {
        let told = "this is a play file: its kit is the value of \"kit\"";
        return String::from_str(alloc, told);
    }
    tell_item(alloc, kit, at)
}

/// The message about the place at which a kit's value is bad; of a place in the lists of a play
/// file, that file's value.
pub fn bad_line(alloc: Global, kit: &Value, at: Place) -> Result<String, AllocError>
    ensures { IfOk result (λ t. string_bytes t ≡ spec.tell_bad (view kit.now) at) }
{
    let mut line = tell_place(alloc, name_where(kit, at), at)?;
    let what = tell_what(alloc, kit, at)?;
    line.push_str(what.as_str())?;
    Ok(line)
}

fn is_kit(value: &Value) -> bool
    ensures { result ≡ spec.is_kit (view value.now) }
{
    value.get("kit").is_none()
        && (value.get("callbacks").is_some() || value.get("plugins").is_some())
}

/// The message about a play file that is bad as a whole.
pub fn bad_play_line(alloc: Global, value: &Value) -> Result<String, AllocError>
    ensures { IfOk result (λ t. string_bytes t ≡ spec.tell_bad_play (view value.now)) }
{
    if is_kit(value) {
        let told = "file: this is a kit file: a play file has it as the value of \"kit\"";
        return String::from_str(alloc, told);
    }
    String::from_str(alloc, "file: is bad")
}

/// The message about bytes that are no JSON, or too many: what the reader of JSON says of them,
/// with line and column, both from 1.
pub fn no_json(alloc: Global, bytes: &[u8]) -> Result<String, AllocError>
    ensures front { IfOk result (λ t. IfSome (spec.tell_front bytes.now)
        (λ told. string_bytes t ≡ told)) }
    ensures json { spec.tell_front bytes.now ≡ None → IsUtf8 bytes.now →
        IsSome (read_text bytes.now) → IfOk result (λ t. string_bytes t ≡ codes "no kit") }
{
    if bytes.len() > FILE_LIMIT {
        return format!(in alloc; "longer than {FILE_LIMIT} bytes");
    }
    if bytes.starts_with(b"\xef\xbb\xbf") {
        return String::from_str(alloc, "begins with a byte order mark, which JSON may not");
    }
    match Value::from_slice(alloc, bytes) {
        Ok(_) => String::from_str(alloc, "no kit"),
        Err(e) if e.is_memory() => Err(AllocError),
        Err(e) => format!(in alloc; "{e}"),
    }
}
