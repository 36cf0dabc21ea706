//! What is wanted at a key of a kit file.

ghost use Rattle.std.specs.Prelude.{◌≡◌};
ghost use Rattle.press_lint.specs.Unfit as spec;

use crate::keys::is_one_of;
use press_kit::Place;

/// What is wanted at a key.
#[derive(Clone, Copy, Debug, PartialEq, Eq)]
pub enum Wanted {
    HookName,
    Name,
    Text,
    List,
    Priority,
    Accepted,
    Skip,
    Seconds,
    Every,
    /// A text, as a list of parts.
    Parts,
    /// At most two texts.
    More,
    /// At most three texts.
    Args,
    /// Plain texts.
    Words,
    Times,
    Truth,
}

fn is_parts_key(key: &str) -> bool
    ensures { result ≡ spec.is_parts_key key.now }
{
    is_one_of(&["text", "value", "left", "right", "arg", "post"], key)
}

fn play_wanted(key: &str) -> Wanted
    ensures { result ≡ spec.play_wanted key.now }
{
    if key == "times" {
        Wanted::Times
    } else if key == "trace" {
        Wanted::Truth
    } else {
        Wanted::Text
    }
}

fn number_wanted(key: &str) -> Wanted
    ensures { result ≡ spec.number_wanted key.now }
{
    if key == "priority" {
        Wanted::Priority
    } else if key == "accepted" {
        Wanted::Accepted
    } else if key == "skip" {
        Wanted::Skip
    } else if key == "after" {
        Wanted::Seconds
    } else if key == "every" {
        Wanted::Every
    } else {
        play_wanted(key)
    }
}

fn list_wanted(key: &str) -> Wanted
    ensures { result ≡ spec.list_wanted key.now }
{
    if is_parts_key(key) {
        Wanted::Parts
    } else if key == "more" {
        Wanted::More
    } else if is_one_of(&["script", "load"], key) {
        Wanted::List
    } else {
        number_wanted(key)
    }
}

// A step may name any tag.
fn tag_wanted(at: Place) -> Wanted
    ensures { result ≡ spec.tag_wanted at }
{
    match at {
        Place::Op { .. } => Wanted::Text,
        _ => Wanted::Name,
    }
}

// A step hands texts on that are lists of parts, a play plain ones.
fn args_wanted(at: Place) -> Wanted
    ensures { result ≡ spec.args_wanted at }
{
    match at {
        Place::Op { .. } => Wanted::Args,
        _ => Wanted::Words,
    }
}

/// What is wanted at that key of the piece at a place.
pub fn wanted_at(at: Place, key: &str) -> Wanted
    ensures { result ≡ spec.wanted_at at key.now }
{
    if is_one_of(&["hook", "apply", "do"], key) {
        Wanted::HookName
    } else if is_one_of(&["name", "callback"], key) {
        Wanted::Name
    } else if key == "tag" {
        tag_wanted(at)
    } else if key == "args" {
        args_wanted(at)
    } else {
        list_wanted(key)
    }
}

impl Wanted {
    /// What it is, in words.
    pub fn words(self) -> &'static str
        ensures { result.now ≡ spec.tell_wanted self }
    {
        match self {
            Wanted::HookName => "a name of 1 to 64 letters, digits, _ and -",
            Wanted::Name => "a name of 1 to 32 letters, digits, _ and -",
            Wanted::Text => "a text",
            Wanted::List => "a list",
            Wanted::Priority => "an integer from -2^63 to 2^63 - 1",
            Wanted::Accepted => "an integer from 0 to 4294967295",
            Wanted::Skip => "an integer from 0 to 65535",
            Wanted::Seconds => "an integer from 0 to 2^64 - 1",
            Wanted::Every => "once, hourly, twicedaily or daily",
            Wanted::Parts => "a list of parts",
            Wanted::More => "a list of at most 2 texts",
            Wanted::Args => "a list of at most 3 texts",
            Wanted::Words => "a list of texts",
            Wanted::Times => "an integer from 1 to 4294967295",
            Wanted::Truth => "true or false",
        }
    }
}
