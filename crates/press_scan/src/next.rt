//! The first shortcode at or after a place.
//!
//! One call reads the text from that place on: up to the first registered name after a bracket, on
//! to its `]`, and on to its closing tag or the end. Where that name has no `]` after it, no later
//! place has a shortcode. Many calls on one text can search for the same missing closing tag again:
//! `Scan` does not.

ghost use Rattle.std.specs.Prelude.{◌≡◌, ◌+◌, ◌<◌, ◌≤◌, ◌⊎◌, IsTrue, ◌↔◌, length, IfNone, IfSome, ◌-◌, MatchOption, Option, Some, None, true, false, if◌then◌else◌};
ghost use Rattle.press_scan.specs.Places.{At, IsFirst, NoneFrom, NoneBetween};
ghost use Rattle.press_scan.specs.Openings.{IsOpening, IsMade};
ghost use Rattle.press_scan.specs.Shortcodes.{IsHead, IsClosing, IsShortcode, HasShortcode, IsRest, IsNext, cut};
ghost use Rattle.std.specs.Str.{IsCharBoundary};
ghost use Rattle.press_scan.specs.FirstShortcode.{shortcode_from};
ghost use Rattle.press_scan.specs.Tags.{names_of};

use crate::find::{Head, find_closing, head_at};
use crate::places::{byte_at, find_byte};
use crate::shortcode::Shortcode;
use crate::span::Span;
use crate::tag_table::TagTable;

/// A head at `start`, and the first `]` after it.
#[derive(Clone, Copy)]
pub struct Opening {
    pub start: usize,
    pub head: Head,
    pub close: usize,
}

/// The first opening at or after a place.
pub fn next_opening(text: &[u8], from: usize, tags: &TagTable) -> Option<Opening>
    ensures none { IfNone result (NoneFrom (HasShortcode text.now (names_of tags.now)) from) }
    ensures some { IfSome result (λ o. IsOpening text.now (names_of tags.now) from o
        × (o.head.tag.end ≤ length text.now) × (o.close < length text.now)) }
{
    let mut at = from;
    while let Some(place) = find_byte(text, b'[', at) {
        if let Some(head) = head_at(text, place, tags) {
            return match find_byte(text, b']', head.tag.end) {
                Some(close) => Some(Opening {
                    start: place,
                    head,
                    close,
                }),
                None => None,
            };
        }
        at = place + 1;
    }
    None
}

/// Whether the tag closes itself.
pub fn closes_itself(text: &[u8], close: usize) -> bool
    requires { 0 < close }
    ensures { IsTrue result ↔ At text.now 47 (close - 1) }
{
    byte_at(text, close - 1) == b'/'
}

// What stands behind an opening: its content, if it has one, and the place behind its own and its
// closing tag's `]`.
#[derive(Clone, Copy)]
struct Rest {
    content: Option<Span>,
    after: usize,
}

// The shortcode with its optional second `]`.
fn with_tail(text: &[u8], opening: Opening, atts_end: usize, rest: Rest) -> Shortcode
    ensures same { (result.start ≡ opening.start) × (result.lead ≡ opening.head.lead)
        × (result.tag ≡ opening.head.tag) × (result.content ≡ rest.content) }
    ensures atts { (result.atts.start ≡ opening.head.tag.end) × (result.atts.end ≡ atts_end) }
    ensures tail { result.tail ≡ true → At text.now 93 rest.after }
    ensures no_tail { result.tail ≡ false → At text.now 93 rest.after → ⊥ }
    ensures ends { result.end ≡ rest.after + (if result.tail then 1 else 0) }
{
    let Rest { content, after } = rest;
    let tail = after < text.len() && text[after] == b']';
    Shortcode {
        start: opening.start,
        end: if tail { after + 1 } else { after },
        lead: opening.head.lead,
        tag: opening.head.tag,
        atts: Span {
            start: opening.head.tag.end,
            end: atts_end,
        },
        content,
        tail,
    }
}

/// `[name atts/]`.
pub fn self_closing_shortcode(text: &[u8], opening: Opening) -> Shortcode
    requires closes { IsFirst (At text.now 93) opening.head.tag.end opening.close }
    requires within { opening.close < length text.now }
    requires slash { At text.now 47 (opening.close - 1) }
    requires some { 0 < opening.close }
    ensures { IsMade text.now opening result }
{
    let rest = Rest {
        content: None,
        after: opening.close + 1,
    };
    with_tail(text, opening, opening.close - 1, rest)
}

/// `[name atts]` alone.
pub fn lone_shortcode(text: &[u8], opening: Opening) -> Shortcode
    requires closes { IsFirst (At text.now 93) opening.head.tag.end opening.close }
    requires within { opening.close < length text.now }
    requires no_slash { At text.now 47 (opening.close - 1) → ⊥ }
    requires no_closing { NoneFrom (IsClosing text.now (cut text.now opening.head.tag))
        (opening.close + 1) }
    ensures { IsMade text.now opening result }
{
    let rest = Rest {
        content: None,
        after: opening.close + 1,
    };
    with_tail(text, opening, opening.close, rest)
}

/// `[name atts]content[/name]`.
pub fn enclosing_shortcode(text: &[u8], opening: Opening, closing: usize) -> Shortcode
    requires closes { IsFirst (At text.now 93) opening.head.tag.end opening.close }
    requires within { closing + 3 + length (cut text.now opening.head.tag) ≤ length text.now }
    requires name { (opening.head.tag.start ≤ opening.head.tag.end)
        × (opening.head.tag.end ≤ length text.now) }
    requires no_slash { At text.now 47 (opening.close - 1) → ⊥ }
    requires first { IsFirst (IsClosing text.now (cut text.now opening.head.tag)) (opening.close
        + 1) closing }
    ensures { IsMade text.now opening result }
{
    let tag = opening.head.tag;
    let content = Span {
        start: opening.close + 1,
        end: closing,
    };
    let rest = Rest {
        content: Some(content),
        after: closing + 3 + (tag.end - tag.start),
    };
    with_tail(text, opening, opening.close, rest)
}

// The first shortcode at or after a place.
fn shortcode_in(text: &[u8], from: usize, tags: &TagTable) -> Option<Shortcode>
    ensures { MatchOption result (NoneFrom (HasShortcode text.now (names_of tags.now)) from)
        (λ s. IsNext text.now (names_of tags.now) from s) }
{
    let opening = match next_opening(text, from, tags) {
        Some(opening) => opening,
        None => return None,
    };
    if closes_itself(text, opening.close) {
        return Some(self_closing_shortcode(text, opening));
    }
    let tag = opening.head.tag;
    match find_closing(text, &text[tag.start..tag.end], opening.close + 1) {
        Some(closing) => Some(enclosing_shortcode(text, opening, closing)),
        None => Some(lone_shortcode(text, opening)),
    }
}

/// The first shortcode at or after a place. Takes no memory.
pub fn next_shortcode(text: &str, from: usize, tags: &TagTable) -> Option<Shortcode>
    requires { IsCharBoundary text.now from }
    ensures computed { result ≡ shortcode_from text.now (names_of tags.now) from }
    ensures first { MatchOption result (NoneFrom (HasShortcode text.now (names_of tags.now)) from)
        (λ s. IsNext text.now (names_of tags.now) from s) }
{
    shortcode_in(text.as_bytes(), from, tags)
}
