//! What a step reads that is never there.

ghost use Rattle.std.specs.Prelude.{◌≡◌, IfOk, option_map, string_bytes};
ghost use Rattle.std.specs.Char.{is_ascii_uppercase};
ghost use Rattle.std.specs.List.{list_any};
ghost use Rattle.press_lint.specs.Reads as spec;

use crate::bad::quote_name;
use press_callbacks::{Op, Part, Parts, Source};
use press_scan::AttKey;
use std::alloc::{AllocError, Global};

fn is_past(most: Option<u32>, n: usize) -> bool
    ensures { result ≡ spec.is_past most n }
{
    match most {
        Some(most) => most as usize <= n,
        None => false,
    }
}

fn has_capital(bytes: &[u8]) -> bool
    ensures { result ≡ list_any is_ascii_uppercase bytes.now }
{
    bytes.iter().any(|b| b.is_ascii_uppercase())
}

fn has_capitals(key: &AttKey) -> bool
    ensures { result ≡ spec.has_capitals key.now }
{
    match key {
        AttKey::Name(name) => has_capital(name.as_bytes()),
        AttKey::Place(_) => false,
    }
}

fn is_never_there(most: Option<u32>, source: &Source) -> bool
    ensures { result ≡ spec.is_never_there most source.now }
{
    match source {
        Source::Arg(n) => is_past(most, *n),
        Source::Att(key) => has_capitals(key),
        Source::Content | Source::Tag | Source::Value | Source::Last => false,
    }
}

fn if_never(most: Option<u32>, source: &Source) -> Option<&Source>
    ensures { option_map (λ s. s.now) result ≡ spec.if_never most source.now }
{
    if is_never_there(most, source) {
        Some(source)
    } else {
        None
    }
}

fn unread_part(most: Option<u32>, part: &Part) -> Option<&Source>
    ensures { option_map (λ s. s.now) result ≡ spec.unread_part most part.now }
{
    match part {
        Part::Lit(_) => None,
        Part::Raw(source) => if_never(most, source),
        Part::Escaped(source) => if_never(most, source),
    }
}

fn unread_text(most: Option<u32>, parts: &[Part]) -> Option<&Source>
    ensures { option_map (λ s. s.now) result ≡ spec.unread_text most parts.now }
{
    for i in 0..parts.len() {
        let found = unread_part(most, &parts[i]);
        if found.is_some() {
            return found;
        }
    }
    None
}

fn unread_texts(most: Option<u32>, texts: &[Parts]) -> Option<&Source>
    ensures { option_map (λ s. s.now) result ≡ spec.unread_texts most texts.now }
{
    for i in 0..texts.len() {
        let found = unread_text(most, texts[i].as_slice());
        if found.is_some() {
            return found;
        }
    }
    None
}

// The first of two texts, or else of some more.
fn unread_pair<'k>(most: Option<u32>, left: &'k Parts, right: &'k Parts) -> Option<&'k Source>
    ensures { option_map (λ s. s.now) result
        ≡ spec.or_other (spec.unread_text most left.now) (spec.unread_text most right.now) }
{
    match unread_text(most, left.as_slice()) {
        Some(source) => Some(source),
        None => unread_text(most, right.as_slice()),
    }
}

fn unread_all<'k>(most: Option<u32>, text: &'k Parts, more: &'k [Parts]) -> Option<&'k Source>
    ensures { option_map (λ s. s.now) result
        ≡ spec.or_other (spec.unread_text most text.now) (spec.unread_texts most more.now) }
{
    match unread_text(most, text.as_slice()) {
        Some(source) => Some(source),
        None => unread_texts(most, more),
    }
}

/// The first thing that a step reads and that is never there. Its callback gets at most so many
/// arguments, where it is put anywhere.
pub fn unread_source(most: Option<u32>, op: &Op) -> Option<&Source>
    ensures { option_map (λ s. s.now) result ≡ spec.unread_source most op.now }
{
    match op {
        Op::Set(text) | Op::Shortcodes(text) | Op::Publish(text) => {
            unread_text(most, text.as_slice())
        }
        Op::Echo(text) | Op::Return(text) => unread_text(most, text.as_slice()),
        Op::SetOption { value, .. } => unread_text(most, value.as_slice()),
        Op::Schedule { arg, .. } => unread_text(most, arg.as_slice()),
        Op::SkipIf { left, right, .. } => unread_pair(most, left, right),
        Op::Apply { value, more, .. } => unread_all(most, value, more.as_slice()),
        Op::Do { args, .. } => unread_texts(most, args.as_slice()),
        Op::AddHook { .. } | Op::RemoveHook { .. } | Op::RemoveAll { .. } => None,
        Op::AddTag { .. } | Op::RemoveTag { .. } | Op::Ask(_) => None,
    }
}

fn tell_key(alloc: Global, key: &AttKey) -> Result<String, AllocError>
    ensures { IfOk result (λ t. string_bytes t ≡ spec.tell_key key.now) }
{
    match key {
        AttKey::Name(name) => quote_name(
            alloc,
            "reads no attribute by a name with capitals",
            name.as_str(),
        ),
        AttKey::Place(_) => Ok(String::new(alloc)),
    }
}

fn tell_argument(alloc: Global, n: usize) -> Result<String, AllocError>
    ensures { IfOk result (λ t. string_bytes t ≡ spec.tell_argument n) }
{
    format!(in alloc;
        "reads argument {n}, counted from 0, and no load of its callback accepts as many"
    )
}

/// The message about it.
pub fn tell_unread(alloc: Global, source: &Source) -> Result<String, AllocError>
    ensures { IfOk result (λ t. string_bytes t ≡ spec.tell_unread source.now) }
{
    match source {
        Source::Arg(n) => tell_argument(alloc, *n),
        Source::Att(key) => tell_key(alloc, key),
        Source::Content | Source::Tag | Source::Value | Source::Last => Ok(String::new(alloc)),
    }
}
