//! What is at one place of a text.

ghost use Rattle.std.specs.Prelude.{◌≡◌, ◌+◌, ◌<◌, ◌≤◌, ◌⊎◌, IsTrue, ◌↔◌, length, MatchOption, slice_index, slice_range, true, false};
ghost use Rattle.press_scan.specs.Places.{At, IsFirst, NoneFrom, NoneBetween};
ghost use Rattle.press_scan.specs.declared.span.Span.{Span};
ghost use Rattle.press_scan.specs.Shortcodes.{IsTag, NoHead, IsHead, IsClosing, cut};
ghost use Rattle.press_scan.specs.Tags.{names_of};

use crate::places::{byte_at, find_byte, name_end};
use crate::span::Span;
use crate::tag_table::TagTable;

// The registered name that begins at a place, with nothing between.
fn tag_at(text: &[u8], start: usize, tags: &TagTable) -> Option<Span>
    requires { start ≤ length text.now }
    ensures { MatchOption result ((tag : Span) → tag.start ≡ start
        → IsTag text.now (names_of tags.now) tag → ⊥)
        (λ tag. (tag.start ≡ start) × IsTag text.now (names_of tags.now) tag
        × (tag.end ≤ length text.now)) }
{
    let end = name_end(text, start);
    if start < end && tags.has(&text[start..end]) {
        Some(Span { start, end })
    } else {
        None
    }
}

/// The brackets and the registered name at a place.
#[derive(Clone, Copy)]
pub struct Head {
    pub lead: bool,
    pub tag: Span,
}

/// What opens at a place.
pub fn head_at(text: &[u8], place: usize, tags: &TagTable) -> Option<Head>
    requires { place < length text.now }
    ensures { MatchOption result (NoHead text.now (names_of tags.now) place)
        (λ h. IsHead text.now (names_of tags.now) place h.lead h.tag
        × (h.tag.end ≤ length text.now)) }
{
    if text[place] != b'[' {
        return None;
    }
    let lead = byte_at(text, place + 1) == b'[';
    let start = if lead { place + 2 } else { place + 1 };
    match tag_at(text, start, tags) {
        Some(tag) => Some(Head { lead, tag }),
        None => None,
    }
}

// Whether `[/name]` is at a place.
fn is_closing(text: &[u8], name: &[u8], place: usize) -> bool
    requires { place < length text.now }
    ensures { IsTrue result ↔ IsClosing text.now name.now place }
{
    if text[place] != b'[' || text.len() - place < 3 {
        return false;
    }
    if text[place + 1] != b'/' || text.len() - place - 3 < name.len() {
        return false;
    }
    let end = place + 2 + name.len();
    &text[place + 2..end] == name && text[end] == b']'
}

/// The first `[/name]` at or after a place.
pub fn find_closing(text: &[u8], name: &[u8], from: usize) -> Option<usize>
    ensures { MatchOption result (NoneFrom (IsClosing text.now name.now) from)
        (λ p. IsFirst (IsClosing text.now name.now) from p
        × (p + 3 + length name.now ≤ length text.now)) }
{
    let mut at = from;
    while let Some(place) = find_byte(text, b'[', at) {
        if is_closing(text, name, place) {
            return Some(place);
        }
        at = place + 1;
    }
    None
}
