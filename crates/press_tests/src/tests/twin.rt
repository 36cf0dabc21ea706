//! The first shortcode read off a small text: at every place, in every case, without a memory of
//! what came before.

ghost use Rattle.std.specs.Prelude.{◌<◌, ◌≤◌, length};

use press_scan::{Shortcode, Span, TagTable, next_shortcode};
use press_text::CallbackId;
use std::alloc::Global;
use std::test::Fail;

const NAMES: [&str; 3] = ["t", "tt", "t-2"];

const PARTS: [&str; 16] = [
    "[", "]", "/", "t", "tt", "-", " ", "\"", "'", "x=", "[t", "[[tt", "[/t]", "]]", "é", "[t-2/",
];

fn stands(text: &[u8], part: &[u8], place: usize) -> bool {
    place <= text.len() && text[place..].starts_with(part)
}

fn goes_on(text: &[u8], place: usize) -> bool {
    match text.get(place) {
        Some(b) => b.is_ascii_alphanumeric() || *b == b'_' || *b == b'-',
        None => false,
    }
}

fn closing(text: &[u8], name: &[u8], from: usize) -> Option<usize>
    requires text { length text.now < 1000 }
    requires name { length name.now < 10 }
{
    for place in from..text.len() {
        if stands(text, b"[/", place)
            && stands(text, name, place + 2)
            && stands(text, b"]", place + 2 + name.len())
        {
            return Some(place);
        }
    }
    None
}

// Where the tag has its `]`: what it is, from its form on.
fn with_close(
    text: &[u8],
    start: usize,
    lead: bool,
    tag: Span,
    name: &[u8],
    close: usize,
) -> Shortcode
    requires text { length text.now < 1000 }
    requires name { length name.now < 10 }
    requires close { close < length text.now }
{
    let closes_itself = text[..close].ends_with(b"/");
    let found = if closes_itself {
        None
    } else {
        closing(text, name, close + 1)
    };
    let (content, after) = match found {
        Some(place) if place < 1000 => (
            Some(Span {
                start: close + 1,
                end: place,
            }),
            place + 3 + name.len(),
        ),
        _ => (None, close + 1),
    };
    let tail = stands(text, b"]", after);
    Shortcode {
        start,
        end: if tail { after + 1 } else { after },
        lead,
        tag,
        atts: Span {
            start: tag.end,
            end: if closes_itself {
                close.saturating_sub(1)
            } else {
                close
            },
        },
        content,
        tail,
    }
}

// The shortcode of that name at a place, with or without the second bracket.
fn of_name(text: &[u8], place: usize, lead: bool, name: &[u8]) -> Option<Shortcode>
    requires text { length text.now < 1000 }
    requires name { length name.now < 10 }
    requires place { place < length text.now }
{
    let start = if lead { place + 2 } else { place + 1 };
    let end = start + name.len();
    let opens = stands(text, b"[", place) && (!lead || stands(text, b"[", place + 1));
    if !opens || !stands(text, name, start) || goes_on(text, end) {
        return None;
    }
    for close in end..text.len() {
        if text[close] == b']' {
            return Some(with_close(text, place, lead, Span { start, end }, name, close));
        }
    }
    None
}

fn first(text: &[u8], from: usize) -> Option<Shortcode>
    requires { length text.now < 1000 }
{
    for place in from..text.len() {
        for name in NAMES.as_slice() {
            if name.len() < 10 {
                if let Some(found) = of_name(text, place, true, name.as_bytes()) {
                    return Some(found);
                }
                if let Some(found) = of_name(text, place, false, name.as_bytes()) {
                    return Some(found);
                }
            }
        }
    }
    None
}

// A text of up to ten parts.
fn text_of(alloc: Global, seed: u32) -> Result<String, Fail> {
    let mut text = String::new(alloc);
    let mut state = seed;
    for _ in 0..10 {
        state = state.wrapping_mul(1_664_525).wrapping_add(1_013_904_223);
        let place = (state >> 27) as usize;
        if let Some(part) = PARTS.get(place) {
            text.push_str(part)?;
        }
    }
    Ok(text)
}

#[test]
fn the_first_shortcode_of_many_texts(rt: HostRuntime) -> Result<(), Fail> {
    let alloc = rt.alloc();
    let mut tags = TagTable::new(alloc);
    let answers = CallbackId::new("answers")?;
    for name in NAMES.as_slice() {
        tags.add(name, answers)?;
    }
    for seed in 0..600u32 {
        let text = text_of(alloc, seed)?;
        for from in 0..text.len() + 1 {
            if text.len() < 1000 && text.is_char_boundary(from) {
                let found = next_shortcode(text.as_str(), from, &tags);
                assert_eq!(rt; found, first(text.as_bytes(), from));
            }
        }
    }
    Ok(())
}
