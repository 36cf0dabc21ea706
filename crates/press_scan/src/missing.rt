//! Names that are known to have no closing tag further on.

ghost use Rattle.std.specs.Prelude.{◌≡◌, ◌+◌, ◌-◌, ◌<◌, ◌≤◌, IsTrue, length, IfOk};
ghost use Rattle.press_scan.specs.Places.{At, IsFirst, NoneFrom, NoneBetween};
ghost use Rattle.press_scan.specs.Openings.{IsMade};
ghost use Rattle.press_scan.specs.Shortcodes.{IsClosing, cut};
ghost use Rattle.press_scan.specs.Missing.{AreMissing, IsMissing};

use crate::find::find_closing;
use crate::next::{
    Opening, closes_itself, enclosing_shortcode, lone_shortcode, self_closing_shortcode,
};
use crate::shortcode::Shortcode;
use crate::span::Span;
use std::alloc::AllocError;

/// There is no `[/name]` at or after `from`; the name is a part of the text.
#[derive(Clone, Copy, Debug)]
pub struct Missing {
    pub name: Span,
    pub from: usize,
}

// Whether one such fact covers a name and a place.
fn tells(text: &[u8], known: Missing, name: &[u8], from: usize) -> bool
    requires { IsMissing text.now known }
    ensures { IsTrue result → NoneFrom (IsClosing text.now name.now) from }
{
    known.from <= from && &text[known.name.start..known.name.end] == name
}

// Whether that is known of a name and a place.
fn is_missing(text: &[u8], missing: &[Missing], name: &[u8], from: usize) -> bool
    requires { AreMissing text.now missing.now }
    ensures { IsTrue result → NoneFrom (IsClosing text.now name.now) from }
{
    for known in missing {
        if tells(text, *known, name, from) {
            return true;
        }
    }
    false
}

/// The shortcode of an opening. Each name's closing tag is looked for in vain at most once.
pub fn shortcode_of(
    text: &[u8],
    missing: &mut Vec<Missing>,
    opening: Opening,
) -> Result<Shortcode, AllocError>
    requires closes { IsFirst (At text.now 93) opening.head.tag.end opening.close }
    requires within { opening.close < length text.now }
    requires name { (opening.head.tag.start < opening.head.tag.end)
        × (opening.head.tag.end ≤ length text.now) }
    requires missing { AreMissing text.now missing.old.items }
    ensures made { IfOk result (λ s. IsMade text.now opening s) }
    ensures missing { AreMissing text.now missing.new.items }
{
    if closes_itself(text, opening.close) {
        return Ok(self_closing_shortcode(text, opening));
    }
    let tag = opening.head.tag;
    let name = &text[tag.start..tag.end];
    let from = opening.close + 1;
    if is_missing(text, missing.as_slice(), name, from) {
        return Ok(lone_shortcode(text, opening));
    }
    match find_closing(text, name, from) {
        Some(closing) => Ok(enclosing_shortcode(text, opening, closing)),
        None => {
            missing.push(Missing { name: tag, from })?;
            Ok(lone_shortcode(text, opening))
        }
    }
}
