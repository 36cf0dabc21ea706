//! The keys that a piece of a kit file may have.

ghost use Rattle.std.specs.Prelude.{◌≡◌, ◌&&◌, codes, is_none, map, not, option_and_then, option_map, string_bytes};
ghost use Rattle.serde_json.specs.Find.{as_str, get};
ghost use Rattle.serde_json.specs.View.{members_view, view};
ghost use Rattle.press_kit.specs.Fields.{is_one_of as one_of};
ghost use Rattle.press_kit.specs.Ops.{change_named, edit_named, keys_of, question_named, turn_named};
ghost use Rattle.press_lint.specs.Bad as spec;

use press_kit::Place;
use serde_json::{Map, Value};

type Keys = &'static [&'static str];

fn edit_keys(op: &str) -> Option<Keys>
    ensures { option_map (λ ks. map (λ k. k.now) ks.now) result
        ≡ option_map keys_of (edit_named op.now) }
{
    if op == "add_hook" {
        Some(&["op", "hook", "callback", "priority", "accepted"])
    } else if op == "remove_hook" {
        Some(&["op", "hook", "callback", "priority"])
    } else if op == "remove_all" {
        Some(&["op", "hook", "priority"])
    } else if op == "add_tag" {
        Some(&["op", "tag", "callback"])
    } else if op == "remove_tag" {
        Some(&["op", "tag"])
    } else {
        None
    }
}

fn question_keys(op: &str) -> Option<Keys>
    ensures { option_map (λ ks. map (λ k. k.now) ks.now) result
        ≡ option_map keys_of (question_named op.now) }
{
    if op == "did" || op == "doing" {
        Some(&["op", "hook"])
    } else if op == "has_hook" {
        Some(&["op", "hook", "callback"])
    } else if op == "has_tag" {
        Some(&["op", "tag"])
    } else if op == "option" {
        Some(&["op", "name"])
    } else {
        None
    }
}

fn change_keys(op: &str) -> Option<Keys>
    ensures { option_map (λ ks. map (λ k. k.now) ks.now) result
        ≡ option_map keys_of (change_named op.now) }
{
    if op == "set_option" {
        Some(&["op", "name", "value"])
    } else if op == "schedule" {
        Some(&["op", "after", "every", "hook", "arg"])
    } else if op == "publish" {
        Some(&["op", "post"])
    } else {
        None
    }
}

fn turn_keys(op: &str) -> Option<Keys>
    ensures { option_map (λ ks. map (λ k. k.now) ks.now) result
        ≡ option_map keys_of (turn_named op.now) }
{
    if op == "set" || op == "shortcodes" || op == "echo" || op == "return" {
        Some(&["op", "text"])
    } else if op == "skip_if" {
        Some(&["op", "left", "right", "skip"])
    } else if op == "apply" {
        Some(&["op", "hook", "value", "more"])
    } else if op == "do" {
        Some(&["op", "hook", "args"])
    } else {
        None
    }
}

// The keys of a step, by its op.
fn op_keys(op: &str) -> Option<Keys>
    ensures { option_map (λ ks. map (λ k. k.now) ks.now) result ≡ spec.op_keys op.now }
{
    if let Some(keys) = edit_keys(op) {
        return Some(keys);
    }
    if let Some(keys) = question_keys(op) {
        return Some(keys);
    }
    if let Some(keys) = change_keys(op) {
        return Some(keys);
    }
    turn_keys(op)
}

fn step_keys(item: &Value) -> Option<Keys>
    ensures { option_map (λ ks. map (λ k. k.now) ks.now) result
        ≡ option_and_then spec.op_keys (option_and_then as_str (get (codes "op") (view item.now))) }
{
    op_keys(item.get("op")?.as_str()?)
}

fn load_keys(item: &Value) -> Keys
    ensures { map (λ k. k.now) result.now ≡ spec.load_keys (view item.now) }
{
    if item.get("hook").is_some() {
        &["hook", "callback", "priority", "accepted"]
    } else {
        &["tag", "callback"]
    }
}

fn play_keys(item: &Value) -> Keys
    ensures { map (λ k. k.now) result.now ≡ spec.play_keys (view item.now) }
{
    if item.get("apply").is_some() {
        &["apply", "args", "times", "trace"]
    } else {
        &["do", "args", "times", "trace"]
    }
}

/// The keys that the piece at a place may have.
pub fn keys_for(at: Place, item: &Value) -> Option<Keys>
    ensures { option_map (λ ks. map (λ k. k.now) ks.now) result ≡ spec.keys_for at (view item.now) }
{
    match at {
        Place::Callback(_) => Some(&["name", "script"]),
        Place::Op { .. } => step_keys(item),
        Place::Plugin(_) => Some(&["name", "load"]),
        Place::Load { .. } => Some(load_keys(item)),
        Place::Play(_) => Some(play_keys(item)),
        Place::File => Some(&["callbacks", "plugins"]),
        _ => Some(&[]),
    }
}

/// Whether a key is among these.
pub fn is_one_of(keys: &[&str], key: &str) -> bool
    ensures { result ≡ one_of (map (λ k. k.now) keys.now) key.now }
{
    keys.iter().any(|k| key == *k)
}

/// The first key that is not allowed there.
pub fn unknown_key<'v>(members: &'v Map<String, Value>, keys: &[&str]) -> Option<&'v String>
    ensures { option_map (λ k. string_bytes k.now) result
        ≡ spec.unknown_key (map (λ k. k.now) keys.now) (members_view members.now.entries) }
{
    members.keys().find(|k| !is_one_of(keys, k.as_str()))
}

fn is_optional(key: &str) -> bool
    ensures { result ≡ spec.is_optional key.now }
{
    is_one_of(
        &[
            "priority", "accepted", "more", "args", "every", "times", "trace",
        ],
        key,
    )
}

fn is_missing(item: &Value, key: &str) -> bool
    ensures { result ≡ (not (spec.is_optional key.now) && is_none (get key.now (view item.now))) }
{
    !is_optional(key) && item.get(key).is_none()
}

/// The first key that is required there and missing.
pub fn missing_key(item: &Value, keys: Keys) -> Option<&'static str>
    ensures { option_map (λ k. k.now) result
        ≡ spec.missing_key (map (λ k. k.now) keys.now) (view item.now) }
{
    for i in 0..keys.len() {
        if is_missing(item, keys[i]) {
            return Some(keys[i]);
        }
    }
    None
}
